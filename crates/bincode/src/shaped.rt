//! Values whose type is known at run time alone: into a writer, from a slice, and from a reader.
ghost use Rattle.std.specs.Prelude.{◌≡◌, ◌≤◌, ℕ, true, false, Some, OnOk, IsErrAnd, IfOk, IfErr};
ghost use Rattle.bincode_spec.specs.Answer.{answer};
ghost use Rattle.bincode_spec.specs.Decoding.{Decodes, DecodeFailure, IsExcused, IsRead};
ghost use Rattle.bincode_spec.specs.Device.{WriterFails};
ghost use Rattle.bincode_spec.specs.Encoding.{IsReady, Writes, EncodeFailure, Encodes, FitsRoom};
ghost use Rattle.bincode_spec.specs.Limited.{WordBounded};
ghost use Rattle.bincode_spec.specs.Slice.{IsAnswer};
ghost use Rattle.bincode_shape.specs.Shapes.{format_of, fits, IsImage, TakesMemory};
ghost use Rattle.bincode_shape.specs.Rows.{AllowsImage};
ghost use Rattle.bincode_shape.specs.Unfit.{IsUnfit};

use bincode_base::config::Config;
use bincode_base::error::{DecodeError, EncodeError};
use bincode_base::short_text::ShortText;
use bincode_decoder::decoder::LentDecoder;
use bincode_encoder::encoder::LentEncoder;
use bincode_io::read::{Reader, SliceReader};
use bincode_io::write::Writer;
use bincode_shape::fits::does_fit;
use bincode_shape::shape::{Shape, Value};
use bincode_shape_codec::decode::decode_shape;
use bincode_shape_codec::encode::encode_shape;
use std::alloc::Global;

mod within;

pub use within::{decode_shaped_within, measure_shaped};

/// Encodes a value to a writer as its shape says. Fails with `Other` and the text `value does not fit the shape` before
/// anything is written, or with the error of a writer that refuses a piece; then a prefix of the encoding may have been
/// written.
///
/// Recursion is as deep as the shape: a stack of 8 MB was enough for 1,000 nested lists. `Shape::depth` tells the
/// depth, so that a caller may refuse a shape.
pub fn encode_shaped<W: Writer, C: Config>(
    shape: &Shape,
    value: &Value,
    writer: &mut W,
    config: C,
) -> Result<(), EncodeError>
    // A value that does not fit is refused, and nothing is written.
    ensures unfit { fits shape.now value.now ≡ false → IsErrAnd result IsUnfit × (writer.new ≡ writer.old) }
    // One that fits is written as its parts are.
    ensures word { fits shape.now value.now ≡ true → OnOk result (Writes W.adds
        (AllowsImage C.setting shape.now value.now) writer.old writer.new) }
    // After an error a prefix of an encoding is written, and the writer refused what comes next,
    ensures left { fits shape.now value.now ≡ true → IfErr result (EncodeFailure W.adds W.refuses
        (IsReady (Unit {0}) (AllowsImage C.setting shape.now value.now)) (λ _. ⊥) writer.old writer.new) }
    // for lack of room, or because memory or the device failed.
    ensures room { fits shape.now value.now ≡ true → FitsRoom
        (IsReady (Unit {0}) (AllowsImage C.setting shape.now value.now)) (λ _. ⊥)
        (WriterFails W.device (W.failures writer.old) (W.failures writer.new)) (W.room writer.old) result }
    // It writes through the references that it had.
    ensures loans { W.loans writer.new ≡ W.loans writer.old }
{
    if !does_fit(shape, value) {
        return Err(EncodeError::Other(ShortText::unfit()));
    }
    encode_fitting(shape, value, writer, &config)
}

/// Encodes a value that fits its shape.
fn encode_fitting<W: Writer, C: Config>(
    shape: &Shape,
    value: &Value,
    writer: &mut W,
    config: &C,
) -> Result<(), EncodeError>
    requires { fits shape.now value.now ≡ true }
    ensures { Encodes W.adds W.refuses (λ w. w) W.loans (Unit {0}) (AllowsImage C.setting shape.now value.now)
        (λ _. ⊥) result writer.old writer.new }
{
    let mut encoder = LentEncoder::new(writer, config);
    encode_shape(shape, value, &mut encoder)
}

/// Decodes a value of a shape from the front of a slice, and returns it with the number of bytes of its encoding. The
/// bytes after them do not change the result. Fails with the first fault of the bytes, `LimitExceeded` if the charges
/// pass the limit, or `Memory` if an allocation is refused.
///
/// `Limit<N>` bounds bytes, not memory: each list and array has at most N elements, and all of them together at most N
/// times N / 8. Each element is a `Value` of 32 bytes, even one without bytes, which claims one: a few bytes may make N
/// values, and lists in lists some N times N / 64. For untrusted input call `decode_shaped_within`.
///
/// Recursion is as deep as the shape: a stack of 8 MB was enough for 1,000 nested lists, not for 3,000 nested options.
/// `Shape::depth` tells the depth, so that a caller may refuse a shape.
pub fn decode_shaped<C: Config>(
    alloc: Global,
    shape: &Shape,
    src: &[u8],
    config: C,
) -> Result<(Value, usize), DecodeError>
    // The fields of `IsAnswer` say what is read, and how each fault and each excess is reported.
    ensures answer { IsAnswer (format_of shape.now C.setting) C.bound (TakesMemory shape.now) (IsImage shape.now)
        src.now result }
    // Under a limit the encoding, each list and array, and the number of all elements are bounded by it.
    ensures bounded { IfOk result (λ x. (limit : ℕ) → C.bound ≡ Some limit
        → WordBounded (format_of shape.now C.setting) limit src.now x.1) }
{
    let mut reader = SliceReader::new(src);
    let value = decode_shaped_with(alloc, shape, &mut reader, &config)?;
    Ok((value, src.len() - reader.bytes_left()))
}

/// Decodes a value of a shape from a reader and consumes just its encoding. Fails with the first fault of the bytes,
/// `LimitExceeded` if the charges pass the limit, `Memory` if an allocation is refused, or an error of the reader's
/// device; then a prefix of the input may be consumed. A stream is read through `bincode::de::read::IoReader`.
///
/// What `decode_shaped` says of memory and of the stack holds of this call, too. The number of values cannot be bounded
/// before they are made, as `decode_shaped_within` does for a slice: give it shapes whose lists have elements with
/// bytes, or a small limit.
pub fn decode_shaped_from_reader<R: Reader, C: Config>(
    alloc: Global,
    shape: &Shape,
    reader: &mut R,
    config: C,
) -> Result<Value, DecodeError>
    // The fields of `IsRead` say what is taken, how each fault and each excess is reported, and what a failure leaves.
    ensures answer { IsRead R.is_known R.remaining R.end_error
        (IsExcused R.device (TakesMemory shape.now) (R.failures reader.old) (R.failures reader.new))
        R.device.is_uncounted (format_of shape.now C.setting) C.bound (IsImage shape.now) result reader.old reader.new }
    ensures count { R.failures reader.old ≤ R.failures reader.new }
    ensures loans { R.loans reader.new ≡ R.loans reader.old }
{
    decode_shaped_with(alloc, shape, reader, &config)
}

/// Decodes a value of a shape with a decoder that borrows its reader and its configuration.
fn decode_shaped_with<R: Reader, C: Config>(
    alloc: Global,
    shape: &Shape,
    reader: &mut R,
    config: &C,
) -> Result<Value, DecodeError>
    ensures ok { R.is_known reader.old → IfOk result (λ v. (charge : ℕ) × Decodes (λ m. IsImage shape.now m v)
        (answer C.bound (format_of shape.now C.setting) (R.remaining reader.old) 0) (R.remaining reader.new) charge) }
    ensures err { R.is_known reader.old → IfErr result (λ e. (charge : ℕ) × DecodeFailure R.end_error R.device
        (TakesMemory shape.now) (answer C.bound (format_of shape.now C.setting) (R.remaining reader.old) 0)
        (R.failures reader.old) (R.failures reader.new) (R.remaining reader.old) (R.remaining reader.new) charge e) }
    ensures count { R.failures reader.old ≤ R.failures reader.new }
    ensures is_known { R.is_known reader.old → R.is_known reader.new }
    ensures loans { R.loans reader.new ≡ R.loans reader.old }
{
    let mut context = ();
    let mut decoder = LentDecoder::new(alloc, reader, config, &mut context);
    decode_shape(shape, &mut decoder)
}
