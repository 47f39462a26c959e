//! The text of a shape.

use bincode_shape::shape::Shape;
use std::alloc::{AllocError, Global};
use std::fmt;

/// Displays a shape as its text.
#[derive(Drop)]
pub struct Spelled<'s>(pub &'s Shape);

impl<'s> fmt::Display for Spelled<'s> {
    fn fmt<W: fmt::Write>(&self, f: &mut fmt::Formatter<W>) -> fmt::Result {
        write_shape(self.0, f)
    }
}

/// The text that spells a shape: `shape_of` reads the same shape of it, where at most 64 brackets, question marks and
/// bars stand around a part, and each list and array claims what `claim_of` tells of its elements. A tuple without
/// parts and an enum without variants have no spelling; they are shown as `(,)` and `(|)`, of which `shape_of` reads
/// neither. Fails where memory is refused.
pub fn text_of(alloc: Global, shape: &Shape) -> Result<String, AllocError> {
    format!(in alloc; "{}", Spelled(shape))
}

/// Writes the text of a shape.
#[cycle(spelling)]
fn write_shape<W: fmt::Write>(shape: &Shape, out: &mut fmt::Formatter<W>) -> fmt::Result {
    match shape {
        Shape::Seq { claim: _, element } => {
            out.write_str("[")?;
            write_shape(element, out)?;
            out.write_str("]")
        }
        Shape::Array {
            len,
            claim: _,
            element,
        } => {
            out.write_str("[")?;
            write_shape(element, out)?;
            write!(out, "; {len}]")
        }
        Shape::Tuple(parts) => write_tuple(parts, out),
        Shape::Optional(part) => {
            write_part(part, out)?;
            out.write_str("?")
        }
        Shape::Choice(variants) => write_variants(variants, out),
        name => out.write_str(name_of(name)),
    }
}

/// Writes a part of an option or of an enum: an enum in brackets.
#[cycle(spelling)]
fn write_part<W: fmt::Write>(shape: &Shape, out: &mut fmt::Formatter<W>) -> fmt::Result {
    match shape {
        Shape::Choice(variants) if !variants.is_empty() => {
            out.write_str("(")?;
            write_variants(variants, out)?;
            out.write_str(")")
        }
        other => write_shape(other, out),
    }
}

/// Writes the parts of a tuple in brackets, with a comma after one alone.
#[cycle(spelling)]
fn write_tuple<W: fmt::Write>(parts: &[Shape], out: &mut fmt::Formatter<W>) -> fmt::Result {
    out.write_str("(")?;
    let mut is_first = true;
    for part in parts {
        if !is_first {
            out.write_str(", ")?;
        }
        write_shape(part, out)?;
        is_first = false;
    }
    out.write_str(if parts.len() < 2 { ",)" } else { ")" })
}

/// Writes the variants of an enum with bars between them, and one alone after a bar.
#[cycle(spelling)]
fn write_variants<W: fmt::Write>(variants: &[Shape], out: &mut fmt::Formatter<W>) -> fmt::Result {
    if variants.is_empty() {
        return out.write_str("(|)");
    }
    let mut is_barred = variants.len() == 1;
    for variant in variants {
        if is_barred {
            out.write_str("|")?;
        }
        write_part(variant, out)?;
        is_barred = true;
    }
    Ok(())
}

/// The name of a shape without parts, and an empty text for one with parts.
fn name_of(shape: &Shape) -> &'static str {
    match shape {
        Shape::Unit => "()",
        Shape::Bool => "bool",
        Shape::Char => "char",
        Shape::Text => "text",
        Shape::U8 => "u8",
        Shape::U16 => "u16",
        Shape::U32 => "u32",
        Shape::U64 => "u64",
        Shape::U128 => "u128",
        Shape::Usize => "usize",
        Shape::I8 => "i8",
        Shape::I16 => "i16",
        Shape::I32 => "i32",
        Shape::I64 => "i64",
        Shape::I128 => "i128",
        Shape::Isize => "isize",
        _ => "",
    }
}
