//! Texts as JSON strings.

use std::io;
use std::io::Write;

/// Writes a text as a JSON string: quoted, with quotes, backslashes and control characters escaped.
pub(crate) fn write_string<W: Write>(text: &str, out: &mut W) -> io::Result<()> {
    write!(out, "\"")?;
    for c in text.chars() {
        write_character(c, out)?;
    }
    write!(out, "\"")
}

/// Writes a character of a string.
pub(crate) fn write_character<W: Write>(c: char, out: &mut W) -> io::Result<()> {
    match c {
        '"' => write!(out, "\\\""),
        '\\' => write!(out, "\\\\"),
        '\n' => write!(out, "\\n"),
        '\r' => write!(out, "\\r"),
        '\t' => write!(out, "\\t"),
        '\u{8}' => write!(out, "\\b"),
        '\u{c}' => write!(out, "\\f"),
        '\0'..='\u{1f}' => write!(out, "\\u{:04x}", c as u32),
        other => write!(out, "{other}"),
    }
}
