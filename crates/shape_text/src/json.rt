//! Encodings of a shape as JSON, without a value in between.

use crate::strings::{write_character, write_string};
use crate::words::Words;
use bincode::config::Config;
use bincode::de::Decode;
use bincode::error::DecodeError;
use bincode::shape::Shape;
use bincode::short_text::{ShortText, TypeName};
use bincode_shape::bytes::has_no_bytes;
use std::alloc::Global;
use std::fmt::Display;
use std::io;
use std::io::Write;
use thiserror::Error;

/// Why an encoding was not written as JSON. A prefix of its JSON may have been written.
#[derive(Debug, Drop, Error)]
pub enum JsonError {
    /// The bytes begin with no encoding.
    #[error("{0}")]
    Decode(DecodeError),
    /// More values would be written than are allowed.
    #[error("too many values")]
    TooManyValues,
    /// The output failed.
    #[error("{0}")]
    Write(io::Error),
}

impl From<DecodeError> for JsonError {
    fn from(why: DecodeError) -> JsonError {
        JsonError::Decode(why)
    }
}

impl From<io::Error> for JsonError {
    fn from(why: io::Error) -> JsonError {
        JsonError::Write(why)
    }
}

/// The bytes that are read, and how many more values may be written of them.
#[derive(Drop)]
struct Source<'b, C: Config> {
    words: Words<'b, C>,
    left: usize,
}

impl<C: Config> Source<'_, C> {
    /// Counts one more value. Fails where no more may be written.
    fn count_value(&mut self) -> Result<(), JsonError> {
        match self.left.checked_sub(1) {
            Some(left) => {
                self.left = left;
                Ok(())
            }
            None => Err(JsonError::TooManyValues),
        }
    }

    /// Reads the length of a list.
    fn next_len(&mut self) -> Result<usize, JsonError> {
        Ok(self.words.next::<usize>()?)
    }

    /// Reads whether an optional part is there.
    fn next_is_some(&mut self) -> Result<bool, JsonError> {
        Ok(self.words.next::<Option<()>>()?.is_some())
    }

    /// Reads the tag of a variant.
    fn next_tag(&mut self) -> Result<u32, JsonError> {
        Ok(self.words.next::<u32>()?)
    }
}

/// The key of an object of one part.
#[derive(Clone, Copy)]
enum Key {
    /// Of an optional part that is there.
    Optional,
    /// Of the part of a variant with this tag.
    Variant(u32),
}

/// Reads the encoding of a shape at the front of some bytes, writes it as JSON while reading, and returns its length in
/// bytes. No value is kept. A value is written in the form that serde gives:
///
/// | Of the shape | As |
/// |---|---|
/// | nothing, an optional part that is absent | `null` |
/// | an optional part that is there | the part itself |
/// | the same, if the part is nothing or optional | an object of the part, as `{"some":null}` |
/// | a truth value | `true` or `false` |
/// | a number that 64 bits hold | a number |
/// | another number, a character, a text | a string |
/// | a list, an array, a tuple | an array |
/// | a list or an array of elements that have no bytes | an object of their count, as `{"count":3}` |
/// | a variant | an object of its tag and its part, as `{"1":"a"}` |
///
/// A reader that holds numbers as doubles, as JavaScript does, loses digits above 2^53.
///
/// The claims of lists are not charged: call `measure_shaped` before, to check the limit. Fails with `Decode` if the
/// bytes begin with no encoding, `TooManyValues` if more than `most` values would be written (each list, option and
/// variant counts one more than its parts), or `Write` if the output fails.
pub fn write_json<C: Config, W: Write>(
    alloc: Global,
    shape: &Shape,
    bytes: &[u8],
    config: C,
    most: usize,
    out: &mut W,
) -> Result<usize, JsonError> {
    let mut source = Source {
        words: Words::new(alloc, bytes, config),
        left: most,
    };
    write_value(shape, &mut source, out)?;
    Ok(source.words.taken)
}

/// Writes the next value.
#[cycle(json)]
fn write_value<C: Config, W: Write>(
    shape: &Shape,
    source: &mut Source<'_, C>,
    out: &mut W,
) -> Result<(), JsonError> {
    source.count_value()?;
    match shape {
        Shape::Unit => write_null(out),
        Shape::Bool => write_plain::<bool, C, W>(source, out),
        Shape::Char => write_char(source, out),
        Shape::Text => write_text(source, out),
        Shape::U8 => write_plain::<u8, C, W>(source, out),
        Shape::U16 => write_plain::<u16, C, W>(source, out),
        Shape::U32 => write_plain::<u32, C, W>(source, out),
        Shape::U64 => write_plain::<u64, C, W>(source, out),
        Shape::U128 => write_u128(source, out),
        Shape::Usize => write_plain::<usize, C, W>(source, out),
        Shape::I8 => write_plain::<i8, C, W>(source, out),
        Shape::I16 => write_plain::<i16, C, W>(source, out),
        Shape::I32 => write_plain::<i32, C, W>(source, out),
        Shape::I64 => write_plain::<i64, C, W>(source, out),
        Shape::I128 => write_i128(source, out),
        Shape::Isize => write_plain::<isize, C, W>(source, out),
        Shape::Seq { claim: _, element } => write_list(element, source, out),
        Shape::Array {
            len,
            claim: _,
            element,
        } => write_elements(element, *len, source, out),
        Shape::Tuple(parts) => write_parts(parts, source, out),
        Shape::Optional(part) => write_optional(part, source, out),
        Shape::Choice(variants) => write_variant(variants, source, out),
    }
}

/// Writes nothing, and an optional part that is absent.
fn write_null<W: Write>(out: &mut W) -> Result<(), JsonError> {
    write!(out, "null")?;
    Ok(())
}

/// Writes a text, as a string.
fn write_text<C: Config, W: Write>(
    source: &mut Source<'_, C>,
    out: &mut W,
) -> Result<(), JsonError> {
    let text = source.words.next_text()?;
    write_string(text, out)?;
    Ok(())
}

/// Writes a list.
#[cycle(json)]
fn write_list<C: Config, W: Write>(
    element: &Shape,
    source: &mut Source<'_, C>,
    out: &mut W,
) -> Result<(), JsonError> {
    let len = source.next_len()?;
    write_elements(element, len, source, out)
}

/// Writes an optional part: as it is, or in an object where it may be `null` itself.
#[cycle(json)]
fn write_optional<C: Config, W: Write>(
    part: &Shape,
    source: &mut Source<'_, C>,
    out: &mut W,
) -> Result<(), JsonError> {
    if !source.next_is_some()? {
        return write_null(out);
    }
    if matches!(part, Shape::Unit | Shape::Optional(_)) {
        return write_object(Key::Optional, part, source, out);
    }
    write_value(part, source, out)
}

/// Writes `len` elements; only their count, if they have no bytes.
#[cycle(json)]
fn write_elements<C: Config, W: Write>(
    element: &Shape,
    len: usize,
    source: &mut Source<'_, C>,
    out: &mut W,
) -> Result<(), JsonError> {
    if has_no_bytes(element) {
        return write_count(len, out);
    }
    write_mark("[", out)?;
    for index in 0..len {
        write_item(index == 0, element, source, out)?;
    }
    write_mark("]", out)
}

/// Writes the parts of a tuple.
#[cycle(json)]
fn write_parts<C: Config, W: Write>(
    parts: &[Shape],
    source: &mut Source<'_, C>,
    out: &mut W,
) -> Result<(), JsonError> {
    write_mark("[", out)?;
    let mut is_first = true;
    for part in parts {
        write_item(is_first, part, source, out)?;
        is_first = false;
    }
    write_mark("]", out)
}

/// Writes an item of an array, after a comma if it is not the first one.
#[cycle(json)]
fn write_item<C: Config, W: Write>(
    is_first: bool,
    item: &Shape,
    source: &mut Source<'_, C>,
    out: &mut W,
) -> Result<(), JsonError> {
    if !is_first {
        write_mark(",", out)?;
    }
    write_value(item, source, out)
}

/// Writes a variant, as an object of its tag and its part.
#[cycle(json)]
fn write_variant<C: Config, W: Write>(
    variants: &[Shape],
    source: &mut Source<'_, C>,
    out: &mut W,
) -> Result<(), JsonError> {
    let tag = source.next_tag()?;
    match variants.get(tag as usize) {
        Some(variant) => write_object(Key::Variant(tag), variant, source, out),
        None => Err(JsonError::Decode(unknown_variant(tag, variants))),
    }
}

/// Writes an object of one part.
#[cycle(json)]
fn write_object<C: Config, W: Write>(
    key: Key,
    part: &Shape,
    source: &mut Source<'_, C>,
    out: &mut W,
) -> Result<(), JsonError> {
    write_key(key, out)?;
    write_value(part, source, out)?;
    write_mark("}", out)
}

/// Begins an object of one part, up to that part.
fn write_key<W: Write>(key: Key, out: &mut W) -> Result<(), JsonError> {
    match key {
        Key::Optional => write!(out, "{{\"some\":")?,
        Key::Variant(tag) => write!(out, "{{\"{tag}\":")?,
    }
    Ok(())
}

/// Writes the number of elements that have no bytes.
fn write_count<W: Write>(count: usize, out: &mut W) -> Result<(), JsonError> {
    write!(out, "{{\"count\":{count}}}")?;
    Ok(())
}

/// Writes a mark of JSON as it is.
fn write_mark<W: Write>(mark: &str, out: &mut W) -> Result<(), JsonError> {
    out.write_all(mark.as_bytes())?;
    Ok(())
}

/// The error of an unknown tag.
fn unknown_variant(found: u32, variants: &[Shape]) -> DecodeError {
    match variants.len().checked_sub(1) {
        Some(last) => DecodeError::UnexpectedVariant {
            type_name: TypeName::new("Choice"),
            found,
            min: 0,
            max: u32::try_from(last).unwrap_or(u32::MAX),
        },
        None => DecodeError::EmptyEnum {
            type_name: ShortText::new("Choice"),
        },
    }
}

/// Writes a value whose `Display` is its JSON.
fn write_plain<T: Decode<()> + Display + Drop, C: Config, W: Write>(
    source: &mut Source<'_, C>,
    out: &mut W,
) -> Result<(), JsonError> {
    let value = source.words.next::<T>()?;
    write!(out, "{value}")?;
    Ok(())
}

/// Writes a character, as a string.
fn write_char<C: Config, W: Write>(
    source: &mut Source<'_, C>,
    out: &mut W,
) -> Result<(), JsonError> {
    let c = source.words.next::<char>()?;
    write!(out, "\"")?;
    write_character(c, out)?;
    write!(out, "\"")?;
    Ok(())
}

/// Writes a number; as a string if it does not fit 64 bits.
fn write_u128<C: Config, W: Write>(
    source: &mut Source<'_, C>,
    out: &mut W,
) -> Result<(), JsonError> {
    let number = source.words.next::<u128>()?;
    if u64::try_from(number).is_ok() {
        write!(out, "{number}")?;
    } else {
        write!(out, "\"{number}\"")?;
    }
    Ok(())
}

/// Writes a signed number; as a string if it fits neither `i64` nor `u64`.
fn write_i128<C: Config, W: Write>(
    source: &mut Source<'_, C>,
    out: &mut W,
) -> Result<(), JsonError> {
    let number = source.words.next::<i128>()?;
    if u64::try_from(number).is_ok() || i64::try_from(number).is_ok() {
        write!(out, "{number}")?;
    } else {
        write!(out, "\"{number}\"")?;
    }
    Ok(())
}
