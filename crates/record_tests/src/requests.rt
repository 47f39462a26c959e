//! What arguments ask for.

use crate::stores::{SALT, TEA, has_word};
use clap::Error;
use std::alloc::{AllocError, Global};
use stock_files::request::{Request, request_of};

/// A line as the words of a program, its name first.
pub fn words_of(alloc: Global, line: &str) -> Result<Vec<String>, AllocError> {
    let mut words = Vec::new(alloc);
    words.push(String::from_str(alloc, "records")?)?;
    for word in line.split_whitespace() {
        words.push(String::from_str(alloc, word)?)?;
    }
    Ok(words)
}

/// Whether a line asks that the article of this word be added to `f`.
fn adds(alloc: Global, line: &str, word: &[u8]) -> bool {
    match words_of(alloc, line) {
        Ok(words) => is_addition(request_of(alloc, &words), word),
        Err(_) => false,
    }
}

/// Whether this is such a request.
fn is_addition(request: Result<Request, Error>, word: &[u8]) -> bool {
    match request {
        Ok(Request::Add { file, article }) => file.as_str() == "f" && has_word(&article, word),
        _ => false,
    }
}

/// A request, as a text.
fn told_request(alloc: Global, request: &Request) -> Result<String, AllocError> {
    match request {
        Request::Add { file, article } => format!(in alloc; "add {file} {}", article.name),
        Request::AddLines { file } => format!(in alloc; "add lines {file}"),
        Request::List(files) => format!(in alloc; "list {}", files.len()),
        Request::Check(files) => format!(in alloc; "check {}", files.len()),
        Request::Repair { file, repair } => {
            format!(in alloc; "repair {file} {} {}", repair.drops_damaged, repair.cuts)
        }
        Request::Shape => String::from_str(alloc, "shape"),
    }
}

/// What a line asks for, or how it is answered, as a text.
fn told(alloc: Global, line: &str) -> Result<String, AllocError> {
    match request_of(alloc, &words_of(alloc, line)?) {
        Ok(request) => told_request(alloc, &request),
        Err(error) => format!(in alloc; "{} {error}", error.exit_code()),
    }
}

/// Lines, and what they ask for, as a text.
static REQUESTS: [(&str, &str); 10] = [
    ("add f -", "add lines f"),
    ("add f - 3", "add f -"),
    ("add f -- -5 3", "add f -5"),
    ("list f", "list 1"),
    ("check f g h", "check 3"),
    ("repair f", "repair f false false"),
    ("repair --drop-damaged f", "repair f true false"),
    ("repair f --cut", "repair f false true"),
    ("shape", "shape"),
    ("--version", "0 records 0.1.0\n"),
];

#[test]
fn takes_requests(rt: HostRuntime) {
    let alloc = rt.alloc();
    assert!(rt;
        adds(alloc, "add f salt 40", &SALT) && adds(alloc, "add f tea 1250 origin=Assam 100", &TEA)
    );
    for &(line, text) in &REQUESTS {
        assert!(rt; asks_just(alloc, line, text), "{line}");
    }
}

/// Whether a line asks for this, as a text.
fn asks_just(alloc: Global, line: &str, text: &str) -> bool {
    match told(alloc, line) {
        Ok(told) => told.as_str() == text,
        Err(_) => false,
    }
}

/// Words after `add f` that are no article, and why.
static MISTAKES: [(&str, &str); 5] = [
    ("add f salt", "2 error: the price of the article is missing"),
    (
        "add f salt x",
        "2 error: a price is a number below 2^64, and not \"x\"",
    ),
    (
        "add f salt 4 x",
        "2 error: a weight is a number below 2^32, and a note has a '=': \"x\" is neither",
    ),
    (
        "add f salt 4 5 6",
        "2 error: two weights: \"6\" is one more",
    ),
    (
        "add f salt 4 a=b a=c",
        "2 error: two notes of one name: \"a\"",
    ),
];

/// How the text of a mistake in an article ends.
const ADD_USAGE: &str = "\n\nUsage: records add FILE NAME PRICE [WEIGHT] [NOTE=TEXT ..]\n       \
    records add FILE -\n\nFor more information, try '--help'.\n";

/// Lines that are no request, or ask for a help, and how the answers begin.
static ANSWERS: [(&str, &str); 8] = [
    ("", "2 error:"),
    ("sell f", "2 error: unrecognized subcommand 'sell'"),
    ("list", "2 error: the following required arguments"),
    ("add f", "2 error: the following required arguments"),
    ("repair f g", "2 error: unexpected argument 'g' found"),
    (
        "check --fast f",
        "2 error: unexpected argument '--fast' found",
    ),
    ("--help", "0 Keeps the articles of a stock in files"),
    ("add --help", "0 Appends articles to a file"),
];

/// Whether the answer to a line is this message, and how `add` is used.
fn mistakes(alloc: Global, line: &str, message: &str) -> bool {
    match told(alloc, line) {
        Ok(text) => text.as_str().strip_suffix(ADD_USAGE) == Some(message),
        Err(_) => false,
    }
}

/// Whether the answer to a line begins so.
fn answers(alloc: Global, line: &str, text: &str) -> bool {
    match told(alloc, line) {
        Ok(answer) => answer.as_str().starts_with(text),
        Err(_) => false,
    }
}

#[test]
fn refuses_mistakes(rt: HostRuntime) {
    let alloc = rt.alloc();
    for &(line, message) in &MISTAKES {
        assert!(rt; mistakes(alloc, line, message), "{line}");
    }
    for &(line, text) in &ANSWERS {
        assert!(rt; answers(alloc, line, text), "{line}");
    }
}
