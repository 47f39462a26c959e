//! What arguments mean by the table of a program, and the errors of mistakes in them.
ghost use Rattle.std.specs.Prelude.{◌≡◌, IfOk};
ghost use Rattle.clap.specs.Values.{kind_of};

use crate::commands::{line_command, program_command};
use crate::found::{Found, Value};
use crate::table::Program;
use clap::error::ErrorKind;
use clap::{ArgMatches, Command, Error};
use std::alloc::{AllocError, Global};

/// What these words say, of which the first is the program's name.
///
/// An error has the text for the user: of a mistake in the words, or of the help or the version that they ask for. Or
/// memory was refused.
pub fn found_in<'a>(
    alloc: Global,
    program: &Program,
    words: &'a [String],
) -> Result<Found<'a>, Error> {
    let matches = matches_in(alloc, program, words)?;
    Ok(found_of(alloc, &matches)?)
}

/// What `clap` matches of these words, of which the first is the program's name. The errors are those of `found_in`.
pub fn matches_in<'a>(
    alloc: Global,
    program: &Program,
    words: &'a [String],
) -> Result<ArgMatches<'a>, Error> {
    program_command(alloc, program)?.try_get_matches_from(words)
}

/// What was matched.
fn found_of<'a>(alloc: Global, matches: &ArgMatches<'a>) -> Result<Found<'a>, AllocError> {
    let mut values = Vec::new(alloc);
    put_all(&mut values, matches)?;
    let Some((command, matches)) = matches.subcommand() else {
        return Ok(Found {
            command: "",
            values,
        });
    };
    put_all(&mut values, matches)?;
    Ok(Found { command, values })
}

/// Puts what was matched after other values.
fn put_all<'a>(values: &mut Vec<Value<'a>>, matches: &ArgMatches<'a>) -> Result<(), AllocError> {
    for id in matches.ids() {
        put_each(values, id, matches.get_strs(id).unwrap_or(&[]))?;
    }
    Ok(())
}

/// Puts the values of an id after other values.
fn put_each<'a>(
    values: &mut Vec<Value<'a>>,
    id: &'a str,
    texts: &[&'a str],
) -> Result<(), AllocError> {
    for text in texts.iter() {
        values.push(Value { id, text: *text })?;
    }
    Ok(())
}

/// The error of a mistake in the words of a program, with its usage: its kind, and what is wrong. Where none is made,
/// memory was refused.
pub fn mistake(
    alloc: Global,
    program: &Program,
    kind: ErrorKind,
    text: &str,
) -> Result<Error, AllocError>
    ensures kind { IfOk result (λ e. kind_of e ≡ kind) }
{
    error_of(program_command(alloc, program)?, kind, text)
}

/// The error of a wrong value in the words of a command, with its usage, or with the program's where it has no command
/// of this name. Where none is made, memory was refused.
pub fn wrong_value(
    alloc: Global,
    program: &Program,
    command: &str,
    text: &str,
) -> Result<Error, AllocError>
    ensures kind { IfOk result (λ e. kind_of e ≡ ErrorKind.ValueValidation) }
{
    match program.commands.iter().find(|line| line.name == command) {
        Some(line) => error_of(line_command(alloc, line)?, ErrorKind::ValueValidation, text),
        None => mistake(alloc, program, ErrorKind::ValueValidation, text),
    }
}

/// An error of a command.
fn error_of(mut command: Command<'_>, kind: ErrorKind, text: &str) -> Result<Error, AllocError>
    ensures kind { IfOk result (λ e. kind_of e ≡ kind) }
{
    command.error(kind, text)
}
