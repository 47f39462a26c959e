//! What the program prints, by tables of questions.
//!
//! A table is a text. A line `=====` parts two questions, and a line `-----` a question from its answer. The first word
//! of a question says what is asked.

use crate::requests::{declared, help, module, request};
use crate::runs::Memory;
use derive_request::program::{outcome_of, written_for};
use derive_request::request::{Action, Request};
use std::alloc::{AllocError, Global};
use std::test::Fail;

/// The questions of a table to which the answer is another, each with that answer. Nothing if all is as it should be.
pub fn wrong_in(alloc: Global, cases: &str) -> Result<String, AllocError> {
    let mut wrong = String::new(alloc);
    let mut memory = Memory::new(alloc);
    for case in cases.split("=====\n") {
        add_wrong(&mut wrong, alloc, &mut memory, case)?;
    }
    Ok(wrong)
}

/// Adds a question, if the answer to it is another than stands there, and that answer.
fn add_wrong(
    wrong: &mut String,
    alloc: Global,
    memory: &mut Memory,
    case: &str,
) -> Result<(), AllocError> {
    let (question, expected) = case.split_once("\n-----\n").unwrap_or(("", case));
    let answer = answer(alloc, memory, question)?;
    if answer.as_str() != expected {
        wrong.push_str(question)?;
        wrong.push_str("\n")?;
        wrong.push_str(answer.as_str())?;
    }
    Ok(())
}

/// The answer to a question, which may be asked of files in memory.
fn answer(alloc: Global, memory: &mut Memory, question: &str) -> Result<String, AllocError> {
    let (verb, rest) = question.split_once(' ').unwrap_or((question, ""));
    match verb {
        "request" => request(alloc, rest),
        "help" => help(alloc, rest),
        "module" => module(alloc, rest),
        "declared" => declared(alloc, rest),
        "source" => message(alloc, rest),
        "check" => outcome(alloc, Action::Check, rest),
        "write" => outcome(alloc, Action::Write, rest),
        "print" => outcome(alloc, Action::Print, rest),
        _ => memory.answer(verb, rest),
    }
}

/// A module as it would be written.
const MODULE: &str = "//! Made.\ntype AParts = (u8, u16);\n";

/// That module in another layout and with another comment.
const SAME: &str = "// Laid out.\ntype AParts = (\n    u8,\n    u16,\n);\n";

/// A module for another type.
const OTHER: &str = "//! Made.\ntype AParts = (u8, u32);\n";

/// What the program does where this was found, in a line: whether it writes, its status, and what it prints.
fn outcome(alloc: Global, action: Action, found: &str) -> Result<String, AllocError> {
    let found = match found {
        "it" => Some(MODULE),
        "the same" => Some(SAME),
        "another" => Some(OTHER),
        _ => None,
    };
    let path = "src/book/words.rt";
    let outcome = outcome_of(alloc, action, "src/book.rt", path, MODULE, found)?;
    let writes = if outcome.is_written {
        "writes"
    } else {
        "reads"
    };
    let status = outcome.status;
    let printed = outcome.printed.as_str();
    format!(in alloc; "{writes} {status} {printed}")
}

/// The message for a source, of which the first line is where it stands.
fn message(alloc: Global, source: &str) -> Result<String, AllocError> {
    let (place, text) = source.split_once('\n').unwrap_or((source, ""));
    let request = Request {
        action: Action::Write,
        crate_name: None,
        files: Vec::new(alloc),
    };
    match written_for(alloc, &request, "src/book.rt", place, text) {
        Ok(_) => String::from_str(alloc, "written\n"),
        Err(error) => format!(in alloc; "{error}\n"),
    }
}

/// What is done with a module where this was found, and what is said of a source.
const OUTCOMES: &str = "\
check it
-----
reads 0 src/book/words.rt: up to date
=====
check the same
-----
reads 0 src/book/words.rt: up to date
=====
check another
-----
reads 1 src/book/words.rt: stale: run `derive src/book.rt`
=====
check nothing
-----
reads 1 src/book/words.rt: missing: run `derive src/book.rt`
=====
write the same
-----
reads 0 src/book/words.rt: up to date
=====
write another
-----
writes 0 src/book/words.rt: written
=====
write nothing
-----
writes 0 src/book/words.rt: written
=====
print another
-----
reads 0 //! Made.
type AParts = (u8, u16);
=====
source /app/src/book.rt
#[derive(Drop)]
struct A(u8);
-----
written
=====
source /app/src/book.rt
struct A(u8);
-----
src/book.rt:1:8: A is neither `Drop` nor `Copy`: derive `Drop`
=====
source /app/book.rt
struct A(u8);
-----
src/book.rt: it is in no folder `src` of a crate: name the crate by `--crate NAME`
";

#[test]
fn answers_by_what_was_found_and_names_the_file_where_it_refuses(
    rt: HostRuntime,
) -> Result<(), Fail> {
    let wrong = wrong_in(rt.alloc(), OUTCOMES)?;
    assert_eq!(rt; wrong.as_str(), "");
    Ok(())
}
