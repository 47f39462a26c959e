//! Decoding of values of a shape, with any decoder.
ghost use Rattle.std.specs.Prelude.{◌≡◌, ◌*◌, length, IfOk, vec_capacity};
ghost use Rattle.bincode_spec.specs.Answer.{after_release};
ghost use Rattle.bincode_spec.specs.Layers.Releases.{CanRelease};
ghost use Rattle.bincode_spec.specs.Run.{IsListOf};
ghost use Rattle.bincode_spec.specs.Layers.Values.{Reads, RunRead};
ghost use Rattle.bincode_spec.specs.Words.{array, list, tuple, tag_then_part};
ghost use Rattle.bincode_shape.specs.Shapes.{format_of, byte_tag, option_variants, at, numbered_variants, one_of};
ghost use Rattle.bincode_shape.specs.Shapes.{IsImage, TakesMemory};
ghost use Rattle.bincode_shape_codec.specs.Held.{IsOptional, IsChosen};
ghost use Rattle.bincode_shape.specs.Rows.{formats, AreImages};

use crate::numbers::{decode_i8, decode_number, decode_u8};
use crate::scalars::{decode_bool, decode_character, decode_string};
use bincode_base::error::DecodeError;
use bincode_base::short_text::{ShortText, TypeName};
use bincode_decoder::decoder::{Decoder, claim_room};
use bincode_decoder::integers::{decode_byte, decode_integer};
use bincode_decoder::lengths::decode_length;
use bincode_shape::shape::{Shape, Value};

/// Decodes a value of a shape. Fails with the first fault of the bytes, `LimitExceeded` if the charges pass the limit,
/// `Memory` if an allocation is refused, or the error of the reader. A fault leaves the charges made before it.
/// Recurses as deep as the shape.
#[cycle(decode)]
pub fn decode_shape<D: Decoder>(shape: &Shape, decoder: &mut D) -> Result<Value, DecodeError>
    ensures { Reads D.is_known D.remaining D.charge D.failures D.loans D.C.bound D.R.end_error D.R.device
        (TakesMemory shape.now) (format_of shape.now D.C.setting) (IsImage shape.now) (D.charge decoder.old) result
        decoder.old decoder.new }
{
    match shape {
        Shape::Unit => Ok(Value::Unit),
        Shape::Bool => decode_bool(decoder),
        Shape::Char => decode_character(decoder),
        Shape::Text => decode_string(decoder),
        Shape::U8 => decode_u8(decoder),
        Shape::U16 => decode_number::<u16, D>(decoder),
        Shape::U32 => decode_number::<u32, D>(decoder),
        Shape::U64 => decode_number::<u64, D>(decoder),
        Shape::U128 => decode_number::<u128, D>(decoder),
        Shape::Usize => decode_number::<usize, D>(decoder),
        Shape::I8 => decode_i8(decoder),
        Shape::I16 => decode_number::<i16, D>(decoder),
        Shape::I32 => decode_number::<i32, D>(decoder),
        Shape::I64 => decode_number::<i64, D>(decoder),
        Shape::I128 => decode_number::<i128, D>(decoder),
        Shape::Isize => decode_number::<isize, D>(decoder),
        Shape::Seq { claim, element } => match decode_list(element, (*claim).max(1), decoder) {
            Ok(items) => Ok(Value::List(items)),
            Err(e) => Err(e),
        },
        Shape::Array {
            len,
            claim,
            element,
        } => match decode_array(element, (*claim).max(1), *len, decoder) {
            Ok(items) => Ok(Value::List(items)),
            Err(e) => Err(e),
        },
        Shape::Tuple(parts) => match decode_parts(parts, decoder) {
            Ok(items) => Ok(Value::List(items)),
            Err(e) => Err(e),
        },
        Shape::Optional(part) => match decode_optional(part, decoder) {
            Ok(held) => Ok(Value::Optional(held)),
            Err(e) => Err(e),
        },
        Shape::Choice(parts) => match decode_choice(parts, decoder) {
            Ok((index, held)) => Ok(Value::Choice(index, held)),
            Err(e) => Err(e),
        },
    }
}

/// Reads a length prefix and the elements, after claiming for them.
#[cycle(decode)]
fn decode_list<D: Decoder>(
    element: &Shape,
    claim: usize,
    decoder: &mut D,
) -> Result<Vec<Value>, DecodeError>
    ensures { Reads D.is_known D.remaining D.charge D.failures D.loans D.C.bound D.R.end_error D.R.device (Unit {0})
        (list D.C.setting claim (format_of element.now D.C.setting))
        (λ m v. IsListOf (λ x n. IsImage element.now n x) v.items m) (D.charge decoder.old) result decoder.old
        decoder.new }
{
    let len = decode_length(decoder)?;
    decode_array(element, claim, len, decoder)
}

/// Reads the elements, after claiming for them.
#[cycle(decode)]
fn decode_array<D: Decoder>(
    element: &Shape,
    claim: usize,
    len: usize,
    decoder: &mut D,
) -> Result<Vec<Value>, DecodeError>
    ensures read { Reads D.is_known D.remaining D.charge D.failures D.loans D.C.bound D.R.end_error D.R.device
        (Unit {0}) (array len claim (format_of element.now D.C.setting))
        (λ m v. IsListOf (λ x n. IsImage element.now n x) v.items m) (D.charge decoder.old) result decoder.old
        decoder.new }
    ensures length { IfOk result (λ v. length v.items ≡ len) }
{
    claim_room(decoder, len, claim)?;
    decode_elements(element, claim, len, decoder)
}

/// Reads elements that were claimed for into a vector of capacity `len`. Each claim is released before its element is
/// read.
#[cycle(decode)]
fn decode_elements<D: Decoder>(
    element: &Shape,
    claim: usize,
    len: usize,
    decoder: &mut D,
) -> Result<Vec<Value>, DecodeError>
    requires { CanRelease D.C.bound (D.charge decoder.old) (len * claim) }
    ensures read { RunRead D.is_known D.remaining D.charge D.failures D.loans D.C.bound D.R.end_error D.R.device
        (Unit {0}) claim (format_of element.now D.C.setting) (IsImage element.now) len (λ v. v.items) result decoder.old
        decoder.new }
    ensures length { IfOk result (λ v. length v.items ≡ len) }
    ensures room { IfOk result (λ v. vec_capacity v ≡ len) }
{
    let Ok(mut values) = Vec::with_capacity(decoder.alloc(), len) else {
        return Err(DecodeError::Memory);
    };
    for _ in 0..len {
        let value = decode_element(element, claim, decoder)?;
        values.push_reserved(value);
    }
    Ok(values)
}

/// Releases the claim of an element, and reads it.
#[cycle(decode)]
fn decode_element<D: Decoder>(
    element: &Shape,
    claim: usize,
    decoder: &mut D,
) -> Result<Value, DecodeError>
    requires { CanRelease D.C.bound (D.charge decoder.old) claim }
    ensures { Reads D.is_known D.remaining D.charge D.failures D.loans D.C.bound D.R.end_error D.R.device
        (TakesMemory element.now) (format_of element.now D.C.setting) (IsImage element.now)
        (after_release D.C.bound (D.charge decoder.old) claim) result decoder.old decoder.new }
{
    decoder.unclaim_bytes_read(claim);
    decode_shape(element, decoder)
}

/// Reads each part in order, into a vector of that capacity.
#[cycle(decode)]
fn decode_parts<D: Decoder>(parts: &[Shape], decoder: &mut D) -> Result<Vec<Value>, DecodeError>
    ensures read { Reads D.is_known D.remaining D.charge D.failures D.loans D.C.bound D.R.end_error D.R.device
        (Unit {0}) (tuple (at D.C.setting (formats parts.now))) (λ m v. AreImages parts.now m v.items)
        (D.charge decoder.old) result decoder.old decoder.new }
    ensures room { IfOk result (λ v. vec_capacity v ≡ length parts.now) }
{
    let Ok(mut values) = Vec::with_capacity(decoder.alloc(), parts.len()) else {
        return Err(DecodeError::Memory);
    };
    for part in parts {
        let value = decode_shape(part, decoder)?;
        values.push_reserved(value);
    }
    Ok(values)
}

/// Reads the byte of an option, and the part if there is one.
#[cycle(decode)]
fn decode_optional<D: Decoder>(
    part: &Shape,
    decoder: &mut D,
) -> Result<Option<Box<Value>>, DecodeError>
    ensures { Reads D.is_known D.remaining D.charge D.failures D.loans D.C.bound D.R.end_error D.R.device (Unit {0})
        (tag_then_part byte_tag (option_variants (format_of part.now)) D.C.setting) (IsOptional part.now)
        (D.charge decoder.old) result decoder.old decoder.new }
{
    match decode_byte(decoder) {
        Ok(0) => Ok(None),
        Ok(1) => match decode_held(part, decoder) {
            Ok(held) => Ok(Some(held)),
            Err(e) => Err(e),
        },
        Ok(found) => Err(DecodeError::UnexpectedVariant {
            type_name: TypeName::new("Option"),
            found: found as u32,
            min: 0,
            max: 1,
        }),
        Err(e) => Err(e),
    }
}

/// Reads a part into a box.
#[cycle(decode)]
fn decode_held<D: Decoder>(part: &Shape, decoder: &mut D) -> Result<Box<Value>, DecodeError>
    ensures { Reads D.is_known D.remaining D.charge D.failures D.loans D.C.bound D.R.end_error D.R.device (Unit {0})
        (format_of part.now D.C.setting) (λ m v. IsImage part.now m v.value) (D.charge decoder.old) result
        decoder.old decoder.new }
{
    let value = decode_shape(part, decoder)?;
    match Box::new(decoder.alloc(), value) {
        Ok(held) => Ok(held),
        Err(_) => Err(DecodeError::Memory),
    }
}

/// Reads a tag, and the part that it selects.
#[cycle(decode)]
fn decode_choice<D: Decoder>(
    parts: &[Shape],
    decoder: &mut D,
) -> Result<(u32, Box<Value>), DecodeError>
    ensures { Reads D.is_known D.remaining D.charge D.failures D.loans D.C.bound D.R.end_error D.R.device (Unit {0})
        (one_of (numbered_variants 0 (formats parts.now)) D.C.setting) (IsChosen parts.now) (D.charge decoder.old)
        result decoder.old decoder.new }
{
    if parts.is_empty() {
        return Err(DecodeError::EmptyEnum {
            type_name: ShortText::new("Choice"),
        });
    }
    match decode_integer::<u32, D>(decoder) {
        Ok(found) => match parts.get(found as usize) {
            Some(part) => match decode_held(part, decoder) {
                Ok(held) => Ok((found, held)),
                Err(e) => Err(e),
            },
            None => Err(DecodeError::UnexpectedVariant {
                type_name: TypeName::new("Choice"),
                found,
                min: 0,
                max: (parts.len() - 1) as u32,
            }),
        },
        Err(e) => Err(e),
    }
}
