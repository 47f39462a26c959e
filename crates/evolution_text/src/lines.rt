//! The results for pairs of shapes, a pair a line.

use crate::compare::compare_texts;
use crate::failure::{CompareError, Side};
use crate::setting::Setting;
use std::alloc::Global;
use std::io::{BufRead, Write};

/// A line of a text.
#[derive(Drop)]
struct Line {
    number: u64,
    text: String,
}

/// Writes the answers for the shapes of lines, of which each first is a new one, and each second an old one, as
/// `compare_texts`, each after a line that says where the two stand. Lines of blanks are passed over. The answer is
/// whether all are yes. Fails at the first line that is no shape, where the last line has no second one, or if the
/// input or the output does; what was answered before is written.
pub fn compare_lines<R: BufRead + Drop, W: Write>(
    alloc: Global,
    input: R,
    settings: &[Setting],
    out: &mut W,
) -> Result<bool, CompareError> {
    let mut are_all_read = true;
    let mut number = 0u64;
    let mut first = None;
    for text in input.lines(alloc) {
        number = number.saturating_add(1);
        let text = text.map_err(CompareError::Read)?;
        if text.trim().is_empty() {
            continue;
        }
        let line = Line { number, text };
        match first.take() {
            None => first = Some(line),
            Some(new) => {
                let is_read = compare_pair(alloc, (&new, &line), settings, out)?;
                are_all_read = is_read && are_all_read;
            }
        }
    }
    match first {
        None => Ok(are_all_read),
        Some(Line { number: line, .. }) => Err(CompareError::Unpaired { line }),
    }
}

/// Writes the answer for the shapes of two lines.
fn compare_pair<W: Write>(
    alloc: Global,
    (new, old): (&Line, &Line),
    settings: &[Setting],
    out: &mut W,
) -> Result<bool, CompareError> {
    writeln!(out, "lines {} and {}", new.number, old.number)?;
    match compare_texts(alloc, &new.text, &old.text, settings, out) {
        Err(CompareError::NoShape { side, why }) => {
            let line = match side {
                Side::New => new.number,
                Side::Old => old.number
            };
            Err(CompareError::NoShapeIn { line, side, why })
        }
        other => other,
    }
}
