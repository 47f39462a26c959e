//! Places in two shapes that are compared part by part.

use crate::failure::{CompareError, Side};
use bincode::shape::Shape;
use shape_grammar::spelling::text_of;
use std::alloc::Global;
use std::io;
use std::io::Write;

/// The longest text of a shape that is written whole, in bytes.
const LONGEST: usize = 60;

/// Two shapes that are compared. There may be no new one, where a variant is missing.
#[derive(Clone, Copy)]
struct Pair<'s> {
    new: Option<&'s Shape>,
    old: &'s Shape,
}

/// Writes where two shapes differ, by a line for each of them: the way to that part, and the part.
pub(crate) fn write_place<W: Write>(
    alloc: Global,
    (new, old): (&Shape, &Shape),
    place: &[usize],
    out: &mut W,
) -> Result<(), CompareError> {
    write!(out, "  OLD    ")?;
    let pair = write_way(Side::Old, (new, old), place, out)?;
    write_part(alloc, pair.old, out)?;
    write!(out, "  NEW    ")?;
    let pair = write_way(Side::New, (new, old), place, out)?;
    match pair.new {
        Some(new) => write_part(alloc, new, out),
        None => Ok(writeln!(out, "missing")?),
    }
}

/// Writes the way to a place in one of two shapes, and returns what stands there in both.
fn write_way<'s, W: Write>(
    side: Side,
    (new, old): (&'s Shape, &'s Shape),
    place: &[usize],
    out: &mut W,
) -> io::Result<Pair<'s>> {
    let mut pair = Pair {
        new: Some(new),
        old,
    };
    let mut separator = "";
    for &index in place {
        write!(out, "{separator}")?;
        pair = write_step(side, pair, index, out)?;
        separator = ", ";
    }
    if !place.is_empty() {
        write!(out, ": ")?;
    }
    Ok(pair)
}

/// Writes the step to a part of one of two shapes, and returns the parts.
fn write_step<'s, W: Write>(
    side: Side,
    pair: Pair<'s>,
    index: usize,
    out: &mut W,
) -> io::Result<Pair<'s>> {
    let new_index = facing_index(pair, index);
    match side {
        Side::Old => write_name(pair.old, index, out)?,
        Side::New => write_name(pair.new.unwrap_or(pair.old), new_index, out)?,
    }
    Ok(Pair {
        new: match pair.new {
            Some(new) => part_at(new, new_index),
            None => None,
        },
        old: part_at(pair.old, index).unwrap_or(pair.old),
    })
}

/// Which part of the new shape faces this part of the old one: an option is read as the second variant of an enum.
fn facing_index(pair: Pair<'_>, index: usize) -> usize {
    match (pair.old, pair.new) {
        (Shape::Optional(_), Some(Shape::Choice(_))) => 1,
        _ => index,
    }
}

/// The part of this index, if there is one.
fn part_at(shape: &Shape, index: usize) -> Option<&Shape> {
    match shape {
        Shape::Seq { claim: _, element } => Some(element),
        Shape::Array {
            len: _,
            claim: _,
            element,
        } => Some(element),
        Shape::Tuple(parts) => parts.get(index),
        Shape::Optional(part) => Some(part),
        Shape::Choice(parts) => parts.get(index),
        _ => None,
    }
}

/// Writes what the part of this index is to the shape.
fn write_name<W: Write>(shape: &Shape, index: usize, out: &mut W) -> io::Result<()> {
    match shape {
        Shape::Tuple(_) => write!(out, "part {index}"),
        Shape::Optional(_) => write!(out, "value"),
        Shape::Choice(_) => write!(out, "variant {index}"),
        _ => write!(out, "element"),
    }
}

/// Writes the text of a shape, of a long one what it is and the front.
fn write_part<W: Write>(alloc: Global, shape: &Shape, out: &mut W) -> Result<(), CompareError> {
    let text = text_of(alloc, shape)?;
    if text.len() <= LONGEST {
        writeln!(out, "{text}")?;
        return Ok(());
    }
    write_kind(shape, out)?;
    let front = text.get(..LONGEST).unwrap_or("");
    Ok(writeln!(out, ": {front} ..")?)
}

/// Writes what a shape with parts is.
fn write_kind<W: Write>(shape: &Shape, out: &mut W) -> io::Result<()> {
    match shape {
        Shape::Seq { .. } => write!(out, "a list"),
        Shape::Array { len, .. } => write!(out, "an array of {len}"),
        Shape::Tuple(parts) => write!(out, "a tuple of {} parts", parts.len()),
        Shape::Choice(parts) => write!(out, "an enum of {} variants", parts.len()),
        _ => write!(out, "an option"),
    }
}
