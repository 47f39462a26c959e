//! Integers of a shape.
ghost use Rattle.std.specs.Prelude.{◌≡◌, true, FitsSigned};
ghost use Rattle.std.specs.Int.{w8};
ghost use Rattle.bincode_spec.specs.Allowed.{AllowedWord};
ghost use Rattle.bincode_spec.specs.Encoding.{Encodes};
ghost use Rattle.bincode_spec.specs.Format.{map_format};
ghost use Rattle.bincode_spec.specs.Meaning.{Number};
ghost use Rattle.bincode_spec.specs.Layers.Values.{Reads};
ghost use Rattle.bincode_shape.specs.declared.shape.Shape.{Shape};
ghost use Rattle.bincode_shape.specs.declared.shape.Shape.TheVariants as shapes;
ghost use Rattle.bincode_shape.specs.declared.shape.Value as values;
ghost use Rattle.bincode_shape.specs.Shapes.{format_of, fits, meaning, IsImage, IsMeant};

use crate::contents::{signed_of, unsigned_of};
use bincode_base::error::{DecodeError, EncodeError};
use bincode_decoder::decoder::Decoder;
use bincode_decoder::integers::{decode_byte, decode_integer, decode_signed_byte};
use bincode_encoder::encoder::Encoder;
use bincode_encoder::integers::encode_integer;
use bincode_io::number::Integer;
use bincode_shape::shape::Value;
use bincode_types::wire::Wire;

/// An integer type wider than one byte, with its shape.
pub(crate) trait ShapedInteger: Integer + Wire {
    /// The shape.
    ghost shape: { Shape };

    /// Makes a value of an integer.
    fn to_value(self) -> Value
        ensures { IsImage shape (Number (Self.spelling.integer self)) result };

    /// The integer of a value that fits the shape.
    fn of_value(value: &Value) -> Self
        requires { fits shape value.now ≡ true }
        ensures meant { meaning value.now ≡ Number (Self.spelling.integer result) }
        ensures fits { Self.spelling.Fits result };
}

impl ShapedInteger for u16 {
    ghost shape = { shapes.U16 };

    fn to_value(self) -> Value {
        Value::Unsigned(self as u128)
    }

    fn of_value(value: &Value) -> u16 {
        unsigned_of(value) as u16
    }
}

impl ShapedInteger for u32 {
    ghost shape = { shapes.U32 };

    fn to_value(self) -> Value {
        Value::Unsigned(self as u128)
    }

    fn of_value(value: &Value) -> u32 {
        unsigned_of(value) as u32
    }
}

impl ShapedInteger for u64 {
    ghost shape = { shapes.U64 };

    fn to_value(self) -> Value {
        Value::Unsigned(self as u128)
    }

    fn of_value(value: &Value) -> u64 {
        unsigned_of(value) as u64
    }
}

impl ShapedInteger for u128 {
    ghost shape = { shapes.U128 };

    fn to_value(self) -> Value {
        Value::Unsigned(self)
    }

    fn of_value(value: &Value) -> u128 {
        unsigned_of(value)
    }
}

impl ShapedInteger for usize {
    ghost shape = { shapes.Usize };

    fn to_value(self) -> Value {
        Value::Unsigned(self as u128)
    }

    fn of_value(value: &Value) -> usize {
        unsigned_of(value) as usize
    }
}

impl ShapedInteger for i16 {
    ghost shape = { shapes.I16 };

    fn to_value(self) -> Value {
        Value::Signed(self as i128)
    }

    fn of_value(value: &Value) -> i16 {
        signed_of(value) as i16
    }
}

impl ShapedInteger for i32 {
    ghost shape = { shapes.I32 };

    fn to_value(self) -> Value {
        Value::Signed(self as i128)
    }

    fn of_value(value: &Value) -> i32 {
        signed_of(value) as i32
    }
}

impl ShapedInteger for i64 {
    ghost shape = { shapes.I64 };

    fn to_value(self) -> Value {
        Value::Signed(self as i128)
    }

    fn of_value(value: &Value) -> i64 {
        signed_of(value) as i64
    }
}

impl ShapedInteger for i128 {
    ghost shape = { shapes.I128 };

    fn to_value(self) -> Value {
        Value::Signed(self)
    }

    fn of_value(value: &Value) -> i128 {
        signed_of(value)
    }
}

impl ShapedInteger for isize {
    ghost shape = { shapes.Isize };

    fn to_value(self) -> Value {
        Value::Signed(self as i128)
    }

    fn of_value(value: &Value) -> isize {
        signed_of(value) as isize
    }
}

/// The byte of a value that fits `U8`.
pub(crate) fn byte_of(value: &Value) -> u8
    requires { fits shapes.U8 value.now ≡ true }
    ensures { value.now ≡ values.Unsigned result }
{
    unsigned_of(value) as u8
}

/// The signed byte of a value that fits `I8`.
pub(crate) fn signed_byte_of(value: &Value) -> i8
    requires { fits shapes.I8 value.now ≡ true }
    ensures value { value.now ≡ values.Signed result }
    ensures fits { FitsSigned w8 result }
{
    signed_of(value) as i8
}

/// Writes the integer of a value. Fails with the error of the writer.
pub(crate) fn encode_number<T: ShapedInteger, E: Encoder>(
    value: &Value,
    encoder: &mut E,
) -> Result<(), EncodeError>
    requires { fits T.shape value.now ≡ true }
    ensures { Encodes E.W.adds E.W.refuses E.writer_of E.loans (Unit {0}) (AllowedWord (IsMeant value.now)
        (map_format (λ k. Number (T.spelling.integer k)) (T.spelling.words E.C.setting))) (λ _. ⊥) result
        encoder.old encoder.new }
{
    encode_integer(encoder, T::of_value(value))
}

/// Charges for an integer, reads it, and makes a value of it.
pub(crate) fn decode_number<T: ShapedInteger, D: Decoder>(
    decoder: &mut D,
) -> Result<Value, DecodeError>
    requires { T.words.claim ≡ T.width }
    ensures { Reads D.is_known D.remaining D.charge D.failures D.loans D.C.bound D.R.end_error D.R.device ⊥
        (map_format (λ k. Number (T.spelling.integer k)) (T.spelling.words D.C.setting)) (IsImage T.shape)
        (D.charge decoder.old) result decoder.old decoder.new }
{
    match decode_integer::<T, D>(decoder) {
        Ok(number) => Ok(number.to_value()),
        Err(e) => Err(e),
    }
}

/// Reads an unsigned byte.
pub(crate) fn decode_u8<D: Decoder>(decoder: &mut D) -> Result<Value, DecodeError>
    ensures { Reads D.is_known D.remaining D.charge D.failures D.loans D.C.bound D.R.end_error D.R.device ⊥
        (format_of shapes.U8 D.C.setting) (IsImage shapes.U8) (D.charge decoder.old) result decoder.old decoder.new }
{
    match decode_byte(decoder) {
        Ok(number) => Ok(Value::Unsigned(number as u128)),
        Err(e) => Err(e),
    }
}

fn image_of_i8(number: i8) -> Value
    ensures { IsImage shapes.I8 (Number number) result }
{
    Value::Signed(number as i128)
}

/// Reads a signed byte.
pub(crate) fn decode_i8<D: Decoder>(decoder: &mut D) -> Result<Value, DecodeError>
    ensures { Reads D.is_known D.remaining D.charge D.failures D.loans D.C.bound D.R.end_error D.R.device ⊥
        (format_of shapes.I8 D.C.setting) (IsImage shapes.I8) (D.charge decoder.old) result decoder.old decoder.new }
{
    match decode_signed_byte(decoder) {
        Ok(number) => Ok(image_of_i8(number)),
        Err(e) => Err(e),
    }
}
