//! Decoding of values that may borrow bytes of the input slice.
ghost use Rattle.std.specs.Prelude.{◌≡◌, ◌≤◌, ℕ, IfOk, IfErr};
ghost use Rattle.bincode_spec.specs.Answer.{answer};
ghost use Rattle.bincode_spec.specs.Decoding.{Decodes, DecodeFailure};
ghost use Rattle.bincode_spec.specs.Slice.{IsAnswer};

use bincode_base::config::Config;
use bincode_base::error::DecodeError;
use bincode_decode::borrow_decode::BorrowDecode;
use bincode_decoder::decoder::LentDecoder;
use bincode_io::read::{BorrowReader, SliceReader};
use std::alloc::Global;

/// Decodes a value from the front of a slice, like `decode_from_slice`. The value may borrow bytes of the slice instead
/// of copying them, and so it lives no longer than the slice. Errors are those of `decode_from_slice`; a type that
/// never allocates (`&[u8]`, `&str` and what is made of such) is never refused with `Memory`.
pub fn borrow_decode_from_slice<'a, D: BorrowDecode<&'a [u8], ()>, C: Config>(
    alloc: Global,
    src: &'a [u8],
    config: C,
) -> Result<(D, usize), DecodeError>
    // The fields of `IsAnswer` say what is read, and how each fault and each excess is reported.
    ensures { IsAnswer (D.words.format C.setting) C.bound D.words.may_allocate D.words.decodes_to src.now result }
{
    borrow_decode_from_slice_with_context(alloc, src, config, ())
}

/// `borrow_decode_from_slice` for a type whose decoder asks for a context. The context does not change what the bytes
/// mean.
pub fn borrow_decode_from_slice_with_context<
    'a,
    Context: Drop,
    D: BorrowDecode<&'a [u8], Context>,
    C: Config,
>(alloc: Global, src: &'a [u8], config: C, context: Context) -> Result<(D, usize), DecodeError>
    // The fields of `IsAnswer` say what is read, and how each fault and each excess is reported.
    ensures { IsAnswer (D.words.format C.setting) C.bound D.words.may_allocate D.words.decodes_to src.now result }
{
    let mut context = context;
    let mut reader = SliceReader::new(src);
    let value = borrow_decode_with(alloc, &mut reader, &config, &mut context)?;
    let taken = src.len() - reader.bytes_left();
    Ok((value, taken))
}

/// Decodes a value with a decoder that borrows its reader, its configuration and its context.
fn borrow_decode_with<
    'a,
    Context: Drop,
    D: BorrowDecode<&'a [u8], Context>,
    R: BorrowReader<'a>,
    C: Config,
>(alloc: Global, reader: &mut R, config: &C, context: &mut Context) -> Result<D, DecodeError>
    ensures ok { R.is_known reader.old → IfOk result (λ v. (charge : ℕ)
        × Decodes (λ m. D.words.decodes_to m v) (answer C.bound (D.words.format C.setting) (R.remaining reader.old) 0)
        (R.remaining reader.new) charge) }
    ensures err { R.is_known reader.old → IfErr result (λ e. (charge : ℕ) × DecodeFailure R.end_error R.device
        D.words.may_allocate (answer C.bound (D.words.format C.setting) (R.remaining reader.old) 0)
        (R.failures reader.old) (R.failures reader.new) (R.remaining reader.old) (R.remaining reader.new) charge e) }
    ensures count { R.failures reader.old ≤ R.failures reader.new }
    ensures is_known { R.is_known reader.old → R.is_known reader.new }
    ensures loans { R.loans reader.new ≡ R.loans reader.old }
{
    let mut decoder = LentDecoder::new(alloc, reader, config, context);
    D::borrow_decode(&mut decoder)
}
