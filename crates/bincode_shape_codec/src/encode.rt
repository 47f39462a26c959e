//! Encoding of values of a shape, with any encoder.
ghost use Rattle.std.specs.Prelude.{◌≡◌, ℕ, true, length};
ghost use Rattle.std.specs.List.{list_all};
ghost use Rattle.bincode_spec.specs.Allowed.{AllowedWord};
ghost use Rattle.bincode_spec.specs.Encoding.{Encodes};
ghost use Rattle.bincode_spec.specs.Run.{IsListOf};
ghost use Rattle.bincode_spec.specs.Words.{array, list, tag_then_part};
ghost use Rattle.bincode_spec.specs.Meaning.{Choice};
ghost use Rattle.bincode_shape.specs.Shapes.{format_of, fits, is_optional, each_passes, picked_passes, meaning};
ghost use Rattle.bincode_shape.specs.Shapes.{byte_tag, one_of, numbered_variants, option_variants, IsMeant};
ghost use Rattle.bincode_shape.specs.Rows.{formats, tests, AllowsImage, AllowsImages};

use crate::contents::{char_of, choice_for, items_for, items_of, option_of, text_of, truth_of};
use crate::numbers::{byte_of, encode_number, signed_byte_of};
use bincode_base::error::EncodeError;
use bincode_encoder::chars::encode_char;
use bincode_encoder::encoder::Encoder;
use bincode_encoder::integers::{encode_byte, encode_integer, encode_signed_byte};
use bincode_encoder::lists::encode_length;
use bincode_encoder::texts::encode_text;
use bincode_encoder::truth::encode_truth;
use bincode_shape::shape::{Shape, Value};

/// Writes a value that fits the shape. Fails with the error of the writer; then a prefix of the encoding is written.
/// Recurses as deep as the shape.
#[cycle(encode)]
pub fn encode_shape<E: Encoder>(
    shape: &Shape,
    value: &Value,
    encoder: &mut E,
) -> Result<(), EncodeError>
    requires { fits shape.now value.now ≡ true }
    ensures { Encodes E.W.adds E.W.refuses E.writer_of E.loans (Unit {0})
        (AllowsImage E.C.setting shape.now value.now) (λ _. ⊥) result encoder.old encoder.new }
{
    match shape {
        Shape::Unit => Ok(()),
        Shape::Bool => encode_truth(encoder, truth_of(value)),
        Shape::Char => encode_char(encoder, char_of(value)),
        Shape::Text => encode_text(encoder, text_of(value)),
        Shape::U8 => encode_byte(encoder, byte_of(value)),
        Shape::U16 => encode_number::<u16, E>(value, encoder),
        Shape::U32 => encode_number::<u32, E>(value, encoder),
        Shape::U64 => encode_number::<u64, E>(value, encoder),
        Shape::U128 => encode_number::<u128, E>(value, encoder),
        Shape::Usize => encode_number::<usize, E>(value, encoder),
        Shape::I8 => encode_signed_byte(encoder, signed_byte_of(value)),
        Shape::I16 => encode_number::<i16, E>(value, encoder),
        Shape::I32 => encode_number::<i32, E>(value, encoder),
        Shape::I64 => encode_number::<i64, E>(value, encoder),
        Shape::I128 => encode_number::<i128, E>(value, encoder),
        Shape::Isize => encode_number::<isize, E>(value, encoder),
        Shape::Seq { claim: _, element } => encode_list(element, items_of(value), encoder),
        Shape::Array {
            len: _,
            claim: _,
            element,
        } => encode_items(element, items_of(value), encoder),
        Shape::Tuple(parts) => encode_parts(parts, items_for(parts, value), encoder),
        Shape::Optional(part) => encode_optional(part, value, encoder),
        Shape::Choice(parts) => {
            let (index, held) = choice_for(parts, value);
            encode_choice(parts, index, held, encoder)
        }
    }
}

/// Writes a length prefix, then the items.
#[cycle(encode)]
fn encode_list<E: Encoder>(
    element: &Shape,
    items: &[Value],
    encoder: &mut E,
) -> Result<(), EncodeError>
    requires { list_all (fits element.now) items.now ≡ true }
    ensures { (claim : ℕ) → Encodes E.W.adds E.W.refuses E.writer_of E.loans (Unit {0})
        (AllowedWord (IsListOf IsMeant items.now) (list E.C.setting claim (format_of element.now E.C.setting)))
        (λ _. ⊥) result encoder.old encoder.new }
{
    encode_length(encoder, items.len())?;
    encode_items(element, items, encoder)
}

/// Writes the items in turn.
#[cycle(encode)]
fn encode_items<E: Encoder>(
    element: &Shape,
    items: &[Value],
    encoder: &mut E,
) -> Result<(), EncodeError>
    requires { list_all (fits element.now) items.now ≡ true }
    ensures { (claim : ℕ) → Encodes E.W.adds E.W.refuses E.writer_of E.loans (Unit {0})
        (AllowedWord (IsListOf IsMeant items.now)
        (array (length items.now) claim (format_of element.now E.C.setting)))
        (λ _. ⊥) result encoder.old encoder.new }
{
    for item in items {
        encode_shape(element, item, encoder)?;
    }
    Ok(())
}

/// Writes an item for each part, in order.
#[cycle(encode)]
fn encode_parts<E: Encoder>(
    parts: &[Shape],
    items: &[Value],
    encoder: &mut E,
) -> Result<(), EncodeError>
    requires { each_passes (tests parts.now) items.now ≡ true }
    ensures { Encodes E.W.adds E.W.refuses E.writer_of E.loans (Unit {0})
        (AllowsImages E.C.setting parts.now items.now) (λ _. ⊥) result encoder.old encoder.new }
{
    for index in 0..parts.len() {
        encode_shape(&parts[index], &items[index], encoder)?;
    }
    Ok(())
}

/// Writes a byte 0, or a byte 1 and the part.
#[cycle(encode)]
fn encode_optional<E: Encoder>(
    part: &Shape,
    value: &Value,
    encoder: &mut E,
) -> Result<(), EncodeError>
    requires { is_optional (fits part.now) value.now ≡ true }
    ensures { Encodes E.W.adds E.W.refuses E.writer_of E.loans (Unit {0}) (AllowedWord (IsMeant value.now)
        (tag_then_part byte_tag (option_variants (format_of part.now)) E.C.setting)) (λ _. ⊥) result
        encoder.old encoder.new }
{
    match option_of(value) {
        None => encode_byte(encoder, 0),
        Some(held) => {
            encode_byte(encoder, 1)?;
            encode_shape(part, held, encoder)
        }
    }
}

/// Writes the tag of a part, then the part.
#[cycle(encode)]
fn encode_choice<E: Encoder>(
    parts: &[Shape],
    index: u32,
    held: &Value,
    encoder: &mut E,
) -> Result<(), EncodeError>
    requires { picked_passes (tests parts.now) index held.now ≡ true }
    ensures { Encodes E.W.adds E.W.refuses E.writer_of E.loans (Unit {0})
        (AllowedWord (λ m. m ≡ Choice index (meaning held.now))
        (one_of (numbered_variants 0 (formats parts.now)) E.C.setting)) (λ _. ⊥) result encoder.old encoder.new }
{
    encode_integer(encoder, index)?;
    encode_shape(&parts[index as usize], held, encoder)
}
