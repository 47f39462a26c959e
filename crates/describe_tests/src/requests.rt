//! What arguments ask for.

use crate::sources::{requested, words_of};
use bincode::config::{Endianness, IntEncoding};
use shape_text::request::{SizeLimit, asked_of};
use std::alloc::{AllocError, Global};

/// Options, and the encoding and byte order for which they ask.
const CONFIGURATIONS: [(&str, IntEncoding, Endianness); 6] = [
    ("", IntEncoding::Variable, Endianness::Little),
    ("--fixed", IntEncoding::Fixed, Endianness::Little),
    ("--big-endian", IntEncoding::Variable, Endianness::Big),
    ("--big-endian --fixed", IntEncoding::Fixed, Endianness::Big),
    (
        "--config standard",
        IntEncoding::Variable,
        Endianness::Little,
    ),
    ("--config=legacy", IntEncoding::Fixed, Endianness::Little),
];

/// Whether options ask for this encoding and byte order.
fn reads_as(alloc: Global, options: &str, encoding: IntEncoding, endian: Endianness) -> bool {
    match requested(alloc, options, "u8") {
        Some(request) => request.encoding == encoding && request.endian == endian,
        None => false,
    }
}

#[test]
fn takes_configurations(rt: HostRuntime) {
    for &(options, encoding, endian) in &CONFIGURATIONS {
        assert!(rt;
            reads_as(rt.alloc(), options, encoding, endian),
            "{options}"
        );
    }
}

/// As many values as are printed of an encoding where no option says how many.
const MILLION: usize = 1_000_000;

/// Options, and the amounts for which they ask: the limit of claims, of values, and the longest word of a frame.
const AMOUNTS: [(&str, SizeLimit, usize, Option<u32>); 11] = [
    ("", SizeLimit::MiB64, MILLION, None),
    ("--limit 1KiB", SizeLimit::KiB1, MILLION, None),
    ("--limit 64KiB", SizeLimit::KiB64, MILLION, None),
    ("--limit 1MiB", SizeLimit::MiB1, MILLION, None),
    ("--limit 16MiB", SizeLimit::MiB16, MILLION, None),
    ("--limit 64MiB", SizeLimit::MiB64, MILLION, None),
    ("--limit 1GiB", SizeLimit::GiB1, MILLION, None),
    ("--limit none", SizeLimit::Unlimited, MILLION, None),
    ("--values 7", SizeLimit::MiB64, 7, None),
    ("--frames", SizeLimit::MiB64, MILLION, Some(1_048_576)),
    ("--frames --longest 9", SizeLimit::MiB64, MILLION, Some(9)),
];

/// Whether options ask for these amounts.
fn amounts(
    alloc: Global,
    options: &str,
    limit: SizeLimit,
    values: usize,
    longest: Option<u32>,
) -> bool {
    match requested(alloc, options, "u8") {
        Some(request) => {
            request.limit == limit && request.most_values == values && request.longest == longest
        }
        None => false,
    }
}

#[test]
fn takes_amounts(rt: HostRuntime) {
    for &(options, limit, values, longest) in &AMOUNTS {
        assert!(rt;
            amounts(rt.alloc(), options, limit, values, longest),
            "{options}"
        );
    }
}

/// Whether words, of which the last is the shape or the file, name this file; `None` is the standard input.
fn names(alloc: Global, (options, last): (&str, &str), file: Option<&str>) -> bool {
    match requested(alloc, options, last) {
        Some(request) => request.file.as_ref().map(String::as_str) == file,
        None => false,
    }
}

#[test]
fn takes_files(rt: HostRuntime) {
    let alloc = rt.alloc();
    assert!(rt;
        names(alloc, ("", "u8"), None)
            && names(alloc, ("u8", "-"), None)
            && names(alloc, ("u8", "f"), Some("f"))
            && names(alloc, ("u8 --fixed", "f"), Some("f"))
    );
}

/// The status and the text by which words are answered that are no request.
fn answer(alloc: Global, options: &str, last: &str) -> Result<String, AllocError> {
    match asked_of(alloc, &words_of(alloc, options, last)?) {
        Ok(_) => Ok(String::new(alloc)),
        Err(error) => format!(in alloc; "{} {error}", error.exit_code()),
    }
}

/// Whether words are answered by a status and a text that begins so.
fn answers(alloc: Global, options: &str, last: &str, text: &str) -> bool {
    match answer(alloc, options, last) {
        Ok(answer) => answer.as_str().starts_with(text),
        Err(_) => false,
    }
}

/// Options and the last word, and how the answer begins.
const ANSWERS: [(&str, &str, &str); 13] = [
    (
        "",
        "(u8, u9)",
        "2 error: \"(u8, u9)\" is no shape: at byte 5: expected `(`, `[` or a name (bool, char, text, u8, u16, \
        u32, u64, u128, usize, i8, i16, i32, i64, i128 or isize), and not `u9`\n",
    ),
    ("", "--fixed", "2 error: the following required arguments"),
    ("u8 f", "g", "2 error: unexpected argument 'g' found"),
    ("--fix", "u8", "2 error: unexpected argument '--fix' found"),
    (
        "--config legacy --fixed",
        "u8",
        "2 error: the argument '--config <CONFIG>' cannot be used with",
    ),
    (
        "--config standard --big-endian",
        "u8",
        "2 error: the argument '--config <CONFIG>' cannot be used with",
    ),
    (
        "--config big",
        "u8",
        "2 error: invalid value 'big' for '--config <CONFIG>'",
    ),
    (
        "--limit 3",
        "u8",
        "2 error: invalid value '3' for '--limit <SIZE>'",
    ),
    (
        "--values -1",
        "u8",
        "2 error: unexpected argument '-1' found",
    ),
    (
        "--longest 9",
        "u8",
        "2 error: the following required arguments",
    ),
    (
        "--frames --longest 4294967296",
        "u8",
        "2 error: invalid value '4294967296' for '--longest <N>'",
    ),
    (
        "",
        "--help",
        "0 Prints what a file in the format of bincode holds",
    ),
    ("", "--version", "0 describe 0.1.0\n"),
];

#[test]
fn refuses_words(rt: HostRuntime) {
    for &(options, last, text) in &ANSWERS {
        assert!(rt; answers(rt.alloc(), options, last, text), "{text}");
    }
}
