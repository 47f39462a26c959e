//! Streams, and what the program makes of them.

use shape_text::describing::describe;
use shape_text::failure::DescribeError;
use shape_text::request::{Asked, Request, asked_of};
use std::alloc::{AllocError, Global};
use std::io;
use std::io::{ErrorKind, Read};
use std::process::Abort;

/// Gives one byte a call, each after a call that is interrupted.
#[derive(Drop)]
pub struct Interrupted<'s> {
    pub bytes: &'s [u8],
    pub is_next: bool,
}

impl Read for Interrupted<'_> {
    fn read(&mut self, bytes: &mut [u8]) -> io::Result<usize> {
        self.is_next = !self.is_next;
        if self.is_next {
            return Err(ErrorKind::Interrupted.into());
        }
        let most = bytes.len().min(1);
        self.bytes.read(&mut bytes[..most])
    }
}

/// The words of a program: its name, those of the options, and the last.
pub fn words_of(alloc: Global, options: &str, last: &str) -> Result<Vec<String>, AllocError> {
    let mut words = Vec::new(alloc);
    words.push(String::from_str(alloc, "describe")?)?;
    for word in options.split_whitespace() {
        words.push(String::from_str(alloc, word)?)?;
    }
    words.push(String::from_str(alloc, last)?)?;
    Ok(words)
}

/// The request of these words, if they are taken.
pub fn requested(alloc: Global, options: &str, last: &str) -> Option<Request> {
    match words_of(alloc, options, last) {
        Ok(words) => match asked_of(alloc, &words) {
            Ok(Asked::Describe(request)) => Some(request),
            _ => None,
        },
        Err(_) => None,
    }
}

/// What is said at the end.
fn ended(alloc: Global, end: Result<bool, DescribeError>) -> Result<String, AllocError> {
    match end {
        Ok(true) => String::from_str(alloc, "whole"),
        Ok(false) => String::from_str(alloc, "damaged"),
        Err(error) => format!(in alloc; "{error}"),
    }
}

/// The output of a request for a stream, and then `whole`, `damaged` or the message at the end.
fn described<R: Read + Drop>(
    alloc: Global,
    request: &Request,
    stream: R,
) -> Result<Vec<u8>, AllocError> {
    let mut out = Vec::new(alloc);
    let end = ended(alloc, describe(alloc, request, stream, &mut out))?;
    out.extend_from_slice(end.as_bytes())?;
    Ok(out)
}

/// The same by the words of a request.
pub fn told<R: Read + Drop>(
    alloc: Global,
    (options, shape): (&str, &str),
    stream: R,
) -> Option<Vec<u8>> {
    match requested(alloc, options, shape) {
        Some(request) => described(alloc, &request, stream).ok(),
        None => None,
    }
}

/// Whether these lines are printed of a stream, and then this end.
pub fn tells<R: Read + Drop>(
    alloc: Global,
    words: (&str, &str),
    stream: R,
    (lines, end): (&str, &str),
) -> bool {
    match told(alloc, words, stream) {
        Some(text) => {
            text.starts_with(lines.as_bytes()) && text.get(lines.len()..) == Some(end.as_bytes())
        }
        None => false,
    }
}

/// Whether these lines are printed of a stream, and then an error.
pub fn fails_after<R: Read + Drop>(
    alloc: Global,
    words: (&str, &str),
    stream: R,
    lines: &str,
) -> bool {
    match told(alloc, words, stream) {
        Some(text) => {
            text.starts_with(lines.as_bytes()) && is_error(text.get(lines.len()..).unwrap_or(&[]))
        }
        None => false,
    }
}

/// Whether this is neither a line nor how whole streams end.
fn is_error(end: &[u8]) -> bool {
    !end.starts_with(b"{") && end != b"whole".as_slice()
}

/// The words, the bytes, the lines and the end of each row: the bytes are told so.
pub fn all_told(rt: &impl Abort, alloc: Global, rows: &[((&str, &str), &[u8], (&str, &str))]) {
    for (place, &(words, bytes, wanted)) in rows.iter().enumerate() {
        assert!(rt; tells(alloc, words, bytes, wanted), "row {place}");
    }
}
