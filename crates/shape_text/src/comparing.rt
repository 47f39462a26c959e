//! How the program `describe` compares shapes.

use crate::program::{DONE, FAILED, UNREAD, USAGE, unwritten};
use crate::request::{Compared, Comparison};
use evolution_text::compare::compare_texts;
use evolution_text::compare_lines;
use evolution_text::failure::CompareError;
use evolution_text::setting::{SETTINGS, Setting};
use std::io::{BufReader, BufWriter, Write};
use std::{fs, io};

/// Prints how shapes compare, and returns the status with which the program ends.
pub(crate) fn run_comparison(rt: &HostRuntime, comparison: &Comparison) -> u8 {
    let compared = match &comparison.setting {
        Some(setting) => print_answer(rt, &comparison.shapes, &[*setting]),
        None => print_answer(rt, &comparison.shapes, &SETTINGS),
    };
    status_of(rt, &compared)
}

/// Prints how they compare in these settings, and returns whether all words are read.
fn print_answer(
    rt: &HostRuntime,
    shapes: &Compared,
    settings: &[Setting],
) -> Result<bool, CompareError> {
    let mut out = BufWriter::new(rt.alloc(), io::writer(rt))?;
    let answer = write_answer(rt, shapes, settings, &mut out);
    out.flush()?;
    answer
}

/// Writes how they compare.
fn write_answer<W: Write>(
    rt: &HostRuntime,
    shapes: &Compared,
    settings: &[Setting],
    out: &mut W,
) -> Result<bool, CompareError> {
    match shapes {
        Compared::Lines => {
            let lines = BufReader::new(rt.alloc(), rt.reader()).map_err(CompareError::Read)?;
            compare_lines(rt.alloc(), lines, settings, out)
        }
        Compared::Two { new, old } => {
            let new = text_named(rt, new)?;
            let old = text_named(rt, old)?;
            compare_texts(rt.alloc(), new.as_str(), old.as_str(), settings, out)
        }
    }
}

/// The text that a word is, or that stands in the file that it names.
fn text_named(rt: &HostRuntime, word: &str) -> Result<String, CompareError> {
    let Some(path) = word.strip_prefix('@') else {
        return Ok(String::from_str(rt.alloc(), word)?);
    };
    match fs::read_to_string(rt, path) {
        Ok(text) => Ok(text),
        Err(why) => Err(CompareError::File {
            path: String::from_str(rt.alloc(), path)?,
            why,
        }),
    }
}

/// The status of what was printed. An error is printed.
fn status_of(rt: &HostRuntime, compared: &Result<bool, CompareError>) -> u8 {
    match compared {
        Ok(true) => DONE,
        Ok(false) => UNREAD,
        Err(CompareError::Write(cause)) => unwritten(rt, cause),
        Err(error) => {
            // Where that fails, nobody can be told.
            let _ = eprintln!(rt; "describe: {error}");
            if error.is_of_texts() { USAGE } else { FAILED }
        }
    }
}
