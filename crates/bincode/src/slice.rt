//! Encoding into a slice, and decoding from one.
ghost use Rattle.std.specs.Prelude.{◌≡◌, ◌⊎◌, IfOk, IfErr, length};
ghost use Rattle.bincode_base.specs.declared.error.EncodeError.TheVariants.{UnexpectedEnd};
ghost use Rattle.bincode_spec.specs.Allowed.{AllowedWord};
ghost use Rattle.bincode_spec.specs.Encoding.{IsReady};
ghost use Rattle.bincode_spec.specs.Slice.{WordWritten, FrontWritten, FitsExactly, IsAnswer};

use crate::reader::decode_with;
use crate::short_slice::{encode_into_short, needs_checks};
use crate::writer::encode_with;
use bincode_base::config::Config;
use bincode_base::error::{DecodeError, EncodeError};
use bincode_decode::decode::Decode;
use bincode_encode::encode::Encode;
use bincode_io::read::SliceReader;
use bincode_io::write::SliceWriter;
use std::alloc::Global;

/// Encodes a value into the front of a slice and returns the number of bytes written. Fails with `UnexpectedEnd` if the
/// slice is too short, or with an error of the type (`words.own_errors`); then a prefix of the encoding may have been
/// written.
#[inline]
pub fn encode_into_slice<E: Encode, C: Config>(
    val: E,
    dst: &mut [u8],
    config: C,
) -> Result<usize, EncodeError>
    // On `Ok(n)` the first `n` bytes are an encoding that the value allows, and the bytes after them are unchanged.
    ensures word { IfOk result (λ n. WordWritten (AllowedWord (E.words.means val) (E.words.format C.setting))
        n dst.old dst.new) }
    // No other errors come than these,
    ensures fault { IfErr result (λ e. (e ≡ UnexpectedEnd) ⊎ E.words.own_errors e) }
    // `UnexpectedEnd` only for lack of room,
    ensures room { FitsExactly (IsReady (E.words.writable C.setting val)
        (AllowedWord (E.words.means val) (E.words.format C.setting)))
        E.words.own_errors (length dst.old) result }
    // and after an error the slice holds a prefix of an allowed encoding.
    ensures left { IfErr result (FrontWritten (IsReady (E.words.writable C.setting val)
        (AllowedWord (E.words.means val) (E.words.format C.setting))) dst.old dst.new) }
{
    if needs_checks(dst, E::MAX_FIXED_SIZE, &config) {
        return encode_into_short(val, dst, &config);
    }
    let mut writer = SliceWriter::new(dst);
    encode_with(&val, &mut writer, &config)?;
    Ok(writer.bytes_written())
}

/// Decodes a value from the front of a slice and returns it with the number of bytes of its encoding. The bytes after
/// them do not change what is decoded. Fails with the first fault of the bytes (docs/FORMAT.md lists them; where the
/// slice ends too early it is `UnexpectedEnd`), `LimitExceeded` if the charges pass the limit, of which
/// `config::standard()` has none, or `Memory` if an allocation is refused. The contract allows `Memory` for every input
/// of a type that may allocate, since none can say when an allocation is refused.
pub fn decode_from_slice<D: Decode<()>, C: Config>(
    alloc: Global,
    src: &[u8],
    config: C,
) -> Result<(D, usize), DecodeError>
    // The fields of `IsAnswer` say what is read, and how each fault and each excess is reported.
    ensures { IsAnswer (D.words.format C.setting) C.bound D.words.may_allocate D.words.decodes_to src.now result }
{
    decode_from_slice_with_context(alloc, src, config, ())
}

/// `decode_from_slice` for a type whose decoder asks for a context: an arena to place values in, say. The context does
/// not change what the bytes mean.
pub fn decode_from_slice_with_context<Context: Drop, D: Decode<Context>, C: Config>(
    alloc: Global,
    src: &[u8],
    config: C,
    context: Context,
) -> Result<(D, usize), DecodeError>
    // The fields of `IsAnswer` say what is read, and how each fault and each excess is reported.
    ensures { IsAnswer (D.words.format C.setting) C.bound D.words.may_allocate D.words.decodes_to src.now result }
{
    let mut context = context;
    let mut reader = SliceReader::new(src);
    let value = decode_with(alloc, &mut reader, &config, &mut context)?;
    let taken = src.len() - reader.bytes_left();
    Ok((value, taken))
}
