//! The result for two shapes, written as a table.
ghost use Rattle.std.specs.Prelude.{◌≡◌, IfOk, IsTrue};
ghost use Rattle.evolution_text.specs.Answers.{is_read_in_all, IsAnswer, IsAnswerOf, ReadsInAll, ReadsSpelled};
ghost use Rattle.shape_grammar.specs.Grammar.{IsSpelled};

use crate::failure::{CompareError, Side};
use crate::place::write_place;
use crate::reason::{Reason, reason_in};
use crate::setting::{Setting, is_read_in};
use bincode::shape::{Described, Shape};
use shape_grammar::text::{ShapeTextError, shape_of};
use std::alloc::Global;
use std::io;
use std::io::Write;

/// Writes whether the shape of the new text reads all words of the shape of the old one, as `compare_shapes`. Fails
/// also with `NoShape`, if one of the texts is none; then nothing is written.
pub fn compare_texts<W: Write>(
    alloc: Global,
    new: &str,
    old: &str,
    settings: &[Setting],
    out: &mut W,
) -> Result<bool, CompareError>
    ensures { IfOk result (IsAnswer new.now old.now settings.now) }
{
    let new = shape_named(alloc, Side::New, new)?;
    let old = shape_named(alloc, Side::Old, old)?;
    compare_shapes(alloc, &new, &old, settings, out)
}

/// Writes whether a type reads all words of the shape of the text, as `compare_shapes` of the shape that the type
/// tells. Fails also with `NoShape`, if the text is none; then nothing is written.
pub fn compare_type<New: Described, W: Write>(
    alloc: Global,
    old: &str,
    settings: &[Setting],
    out: &mut W,
) -> Result<bool, CompareError>
    // The answer is that of the rules for a shape that describes the type.
    ensures by_rules { IfOk result (IsAnswerOf New.words old.now settings.now) }
    // Yes means that a decoder without a limit reads each file of the old shape by the type, as the same values.
    ensures reads { IfOk result (λ answer. IsTrue answer → ReadsSpelled New.words old.now settings.now) }
{
    let old = shape_named(alloc, Side::Old, old)?;
    match New::shape(alloc) {
        Some(new) => compare_shapes(alloc, &new, &old, settings, out),
        None => Err(CompareError::Memory),
    }
}

/// The shape of a text, or the error that it is none.
fn shape_named(alloc: Global, side: Side, text: &str) -> Result<Shape, CompareError>
    ensures { IfOk result (IsSpelled text.now) }
{
    match shape_of(alloc, text) {
        Ok(shape) => Ok(shape),
        Err(ShapeTextError::Memory) => Err(CompareError::Memory),
        Err(why) => Err(CompareError::NoShape { side, why }),
    }
}

/// Writes whether the new shape reads all words of the old one: a line for each setting. If it does in each of them, a
/// line says so; else the lines after it say why it does not, for each setting in which it does not. The answer is
/// whether it does in each of them. Fails with `Write` if the output does, or with `Memory`.
pub fn compare_shapes<W: Write>(
    alloc: Global,
    new: &Shape,
    old: &Shape,
    settings: &[Setting],
    out: &mut W,
) -> Result<bool, CompareError>
    ensures by_rules { IfOk result (λ answer. answer ≡ is_read_in_all settings.now old.now new.now) }
    // Yes means that a decoder without a limit reads each file of the old shape by the new one, as the same values.
    ensures reads { IfOk result (λ answer. IsTrue answer → ReadsInAll settings.now old.now new.now) }
{
    let is_read = write_table(new, old, settings, out)?;
    if is_read {
        writeln!(out, "every file of OLD is read by NEW")?;
    } else {
        write_reasons(alloc, new, old, settings, out)?;
    }
    Ok(is_read)
}

/// Writes the answer for each setting, and returns whether all of them are yes.
fn write_table<W: Write>(
    new: &Shape,
    old: &Shape,
    settings: &[Setting],
    out: &mut W,
) -> io::Result<bool>
    ensures { IfOk result (λ answer. answer ≡ is_read_in_all settings.now old.now new.now) }
{
    let mut are_all_read = true;
    for setting in settings {
        let is_read = is_read_in(new, old, *setting);
        let answer = if is_read { "yes" } else { "no" };
        writeln!(out, "{setting}  {answer}")?;
        are_all_read = is_read && are_all_read;
    }
    Ok(are_all_read)
}

/// Writes why not all words are read, for each setting in which that is so.
fn write_reasons<W: Write>(
    alloc: Global,
    new: &Shape,
    old: &Shape,
    settings: &[Setting],
    out: &mut W,
) -> Result<(), CompareError> {
    for setting in settings {
        if !is_read_in(new, old, *setting) {
            let reason = reason_in(alloc, new, old, *setting)?;
            write_reason(alloc, (new, old), *setting, &reason, out)?;
        }
    }
    Ok(())
}

/// Writes why not all words are read in a setting.
fn write_reason<W: Write>(
    alloc: Global,
    shapes: (&Shape, &Shape),
    setting: Setting,
    reason: &Reason,
    out: &mut W,
) -> Result<(), CompareError> {
    write!(out, "\n{setting}  ")?;
    match &reason.word {
        Some(word) => {
            writeln!(out, "NEW does not read these bytes of OLD as the same")?;
            write_bytes(word, out)?;
        }
        None => writeln!(
            out,
            "the rules do not allow it; no bytes that show it were found"
        )?,
    }
    write_place(alloc, shapes, &reason.place, out)
}

/// Writes the line of some bytes, in hexadecimal digits.
fn write_bytes<W: Write>(bytes: &[u8], out: &mut W) -> io::Result<()> {
    write!(out, "  bytes  ")?;
    if bytes.is_empty() {
        return writeln!(out, "none at all");
    }
    for byte in bytes {
        write!(out, "{byte:02x}")?;
    }
    writeln!(out)
}
