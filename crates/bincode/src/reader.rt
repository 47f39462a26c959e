//! Decoding from a reader.
ghost use Rattle.std.specs.Prelude.{◌≡◌, ◌≤◌, ℕ, IfOk, IfErr};
ghost use Rattle.bincode_spec.specs.Answer.{answer};
ghost use Rattle.bincode_spec.specs.Decoding.{Decodes, DecodeFailure, IsExcused, IsRead};

use bincode_base::config::Config;
use bincode_base::error::DecodeError;
use bincode_decode::decode::Decode;
use bincode_decoder::decoder::LentDecoder;
use bincode_io::read::Reader;
use std::alloc::Global;

/// Decodes a value from a reader and consumes just its encoding. Fails with the first fault of the bytes,
/// `LimitExceeded` if the charges pass the limit, `Memory` if an allocation is refused, or an error of the reader's
/// device; then a prefix of the input may be consumed.
pub fn decode_from_reader<D: Decode<()>, R: Reader, C: Config>(
    alloc: Global,
    reader: &mut R,
    config: C,
) -> Result<D, DecodeError>
    // The fields of `IsRead` say what is taken, how each fault and each excess is reported, and what a failure leaves.
    ensures answer { IsRead R.is_known R.remaining R.end_error
        (IsExcused R.device D.words.may_allocate (R.failures reader.old) (R.failures reader.new)) R.device.is_uncounted
        (D.words.format C.setting) C.bound D.words.decodes_to result reader.old reader.new }
    ensures count { R.failures reader.old ≤ R.failures reader.new }
    ensures loans { R.loans reader.new ≡ R.loans reader.old }
{
    decode_from_reader_with(alloc, reader, &config, &mut ())
}

/// `decode_from_reader` with a context.
pub(crate) fn decode_from_reader_with<Context: Drop, D: Decode<Context>, R: Reader, C: Config>(
    alloc: Global,
    reader: &mut R,
    config: &C,
    context: &mut Context,
) -> Result<D, DecodeError>
    // The fields of `IsRead` say what is taken, how each fault and each excess is reported, and what a failure leaves.
    ensures answer { IsRead R.is_known R.remaining R.end_error
        (IsExcused R.device D.words.may_allocate (R.failures reader.old) (R.failures reader.new)) R.device.is_uncounted
        (D.words.format C.setting) C.bound D.words.decodes_to result reader.old reader.new }
    ensures count { R.failures reader.old ≤ R.failures reader.new }
    ensures loans { R.loans reader.new ≡ R.loans reader.old }
{
    decode_with(alloc, reader, config, context)
}

/// Decodes a value with a decoder that borrows its reader, its configuration and its context.
pub(crate) fn decode_with<Context: Drop, D: Decode<Context>, R: Reader, C: Config>(
    alloc: Global,
    reader: &mut R,
    config: &C,
    context: &mut Context,
) -> Result<D, DecodeError>
    ensures ok { R.is_known reader.old → IfOk result (λ v. (charge : ℕ)
        × Decodes (λ m. D.words.decodes_to m v) (answer C.bound (D.words.format C.setting) (R.remaining reader.old) 0)
        (R.remaining reader.new) charge) }
    ensures err { R.is_known reader.old → IfErr result (λ e. (charge : ℕ) × DecodeFailure R.end_error R.device
        D.words.may_allocate (answer C.bound (D.words.format C.setting) (R.remaining reader.old) 0)
        (R.failures reader.old) (R.failures reader.new) (R.remaining reader.old) (R.remaining reader.new) charge e) }
    ensures count { R.failures reader.old ≤ R.failures reader.new }
    ensures is_known { R.is_known reader.old → R.is_known reader.new }
    ensures loans { R.loans reader.new ≡ R.loans reader.old }
{
    let mut decoder = LentDecoder::new(alloc, reader, config, context);
    D::decode(&mut decoder)
}
