//! What the program `describe` does with the input that its arguments name.

use crate::comparing::run_comparison;
use crate::describing::describe;
use crate::failure::DescribeError;
use crate::request::{Asked, Request, asked_of};
use clap::Error;
use clap::error::ErrorKind;
use std::fmt::Display;
use std::io::{BufWriter, Read, Write};
use std::{fs, io};

/// The status where all is whole.
pub const DONE: u8 = 0;

/// The status where the input is damaged or torn, or holds what is no encoding of the shape.
pub const DAMAGED: u8 = 1;

/// The status where not each file of an old shape is read by a new one.
pub const UNREAD: u8 = 1;

/// The status where the words spell no request.
pub const USAGE: u8 = 2;

/// The status where the input or the output fails, or memory is refused.
pub const FAILED: u8 = 3;

/// Prints what the input of these words holds, of which the first is the program's name, or how the shapes that they
/// name compare, and returns the status with which the program ends. What goes wrong is printed to the standard error,
/// unless the reader of the output is gone.
pub fn run(rt: &HostRuntime, words: &[String]) -> u8 {
    match asked_of(rt.alloc(), words) {
        Ok(Asked::Describe(request)) => run_request(rt, &request),
        Ok(Asked::Compare(comparison)) => run_comparison(rt, &comparison),
        Err(error) => usage(rt, &error),
    }
}

/// Prints why words spell no request, or the help or the version for which they ask.
fn usage(rt: &HostRuntime, error: &Error) -> u8 {
    if error.print(rt).is_err() || error.kind() == ErrorKind::OutOfMemory {
        FAILED
    } else if error.use_stderr() {
        USAGE
    } else {
        DONE
    }
}

/// Prints what the input of a request holds.
fn run_request(rt: &HostRuntime, request: &Request) -> u8 {
    let Some(path) = &request.file else {
        let printed = print_source(rt, request, &mut rt.reader());
        return status_of(rt, "standard input", &printed);
    };
    let printed = match fs::open(rt, path) {
        Ok(mut file) => print_source(rt, request, &mut file),
        Err(cause) => Err(DescribeError::Read(cause)),
    };
    status_of(rt, path, &printed)
}

/// Prints what an input holds, and returns whether it is whole.
fn print_source(
    rt: &HostRuntime,
    request: &Request,
    source: &mut dyn Read,
) -> Result<bool, DescribeError> {
    let mut out = BufWriter::new(rt.alloc(), io::writer(rt))?;
    let described = describe(rt.alloc(), request, source, &mut out);
    out.flush()?;
    described
}

/// The status of what was printed of an input of this name. An error is printed with the name.
fn status_of(rt: &HostRuntime, name: &str, printed: &Result<bool, DescribeError>) -> u8 {
    match printed {
        Ok(true) => DONE,
        Ok(false) => DAMAGED,
        Err(DescribeError::Write(cause)) => unwritten(rt, cause),
        Err(error) => {
            complain(rt, name, error);
            if error.is_damage() { DAMAGED } else { FAILED }
        }
    }
}

/// The status where the output failed. That is told, unless its reader is gone.
pub(crate) fn unwritten(rt: &HostRuntime, cause: &io::Error) -> u8 {
    if cause.kind() != io::ErrorKind::BrokenPipe {
        complain(rt, "standard output", cause);
    }
    FAILED
}

/// Prints what went wrong with a stream of this name. Where that fails, nobody can be told.
fn complain<E: Display>(rt: &HostRuntime, name: &str, error: &E) {
    let _ = eprintln!(rt; "describe: {name}: {error}");
}
