//! The commands of `clap` that tables state.

use crate::table::{Kind, Line, Program, Taken, Word};
use clap::builder::ValueParser;
use clap::{Arg, ArgAction, Command};
use std::alloc::{AllocError, Global};

/// The command of a program.
pub(crate) fn program_command<'a>(
    alloc: Global,
    program: &Program,
) -> Result<Command<'a>, AllocError> {
    let words = args_of(alloc, program.words)?;
    let lines = line_commands(alloc, program.commands)?;
    with_lines(bare_program(alloc, program), words, lines)
}

/// A command with its words and its own commands.
fn with_lines<'a>(
    command: Command<'a>,
    words: Vec<Arg<'a>>,
    lines: Vec<Command<'a>>,
) -> Result<Command<'a>, AllocError> {
    command.args(words)?.subcommands(lines)
}

/// The command of a program, without its words and commands.
fn bare_program<'a>(alloc: Global, program: &Program) -> Command<'a> {
    let command = Command::new(alloc, program.name)
        .version(program.version)
        .about(program.about)
        .after_help(program.after_help)
        .subcommand_required(!program.commands.is_empty());
    with_usage(command, program.usage)
}

/// A command with its usage, if its words do not say it.
fn with_usage<'a>(command: Command<'a>, usage: Option<&'static str>) -> Command<'a> {
    match usage {
        Some(usage) => command.override_usage(usage),
        None => command,
    }
}

/// The commands of these lines.
fn line_commands<'a>(alloc: Global, lines: &[Line]) -> Result<Vec<Command<'a>>, AllocError> {
    let mut commands = Vec::new(alloc);
    for line in lines.iter() {
        commands.push(line_command(alloc, line)?)?;
    }
    Ok(commands)
}

/// The command of a line.
pub(crate) fn line_command<'a>(alloc: Global, line: &Line) -> Result<Command<'a>, AllocError> {
    let words = args_of(alloc, line.words)?;
    let command = Command::new(alloc, line.name).about(line.about);
    with_usage(command, line.usage).args(words)
}

/// The arguments of these words.
fn args_of<'a>(alloc: Global, words: &[Word]) -> Result<Vec<Arg<'a>>, AllocError> {
    let mut args = Vec::new(alloc);
    for word in words.iter() {
        args.push(arg_of(alloc, word)?)?;
    }
    Ok(args)
}

/// The argument of a word.
fn arg_of<'a>(alloc: Global, word: &Word) -> Result<Arg<'a>, AllocError> {
    bare_arg(alloc, word)
        .conflicts_with_all(word.conflicts)?
        .requires_all(word.needs)
}

/// The argument of a word, without what stands beside it.
fn bare_arg<'a>(alloc: Global, word: &Word) -> Arg<'a> {
    match &word.kind {
        Kind::One(name) => one_word(alloc, word, name, true),
        Kind::Optional(name) => one_word(alloc, word, name, false),
        Kind::Many(name) => words(alloc, word, name),
        Kind::Flag => flag(alloc, word),
        Kind::Value {
            name,
            taken,
            default,
        } => value(alloc, word, name, taken, default),
    }
}

/// The argument of one word.
fn one_word<'a>(alloc: Global, word: &Word, name: &'static str, is_required: bool) -> Arg<'a> {
    Arg::new(alloc, word.id)
        .help(word.help)
        .value_name(name)
        .required(is_required)
}

/// The argument of one or more words.
fn words<'a>(alloc: Global, word: &Word, name: &'static str) -> Arg<'a> {
    Arg::new(alloc, word.id)
        .help(word.help)
        .value_name(name)
        .required(true)
        .action(ArgAction::Append)
        .num_args(1..)
}

/// The argument of an option without a value.
fn flag<'a>(alloc: Global, word: &Word) -> Arg<'a> {
    Arg::new(alloc, word.id)
        .help(word.help)
        .long(word.id)
        .action(ArgAction::SetTrue)
}

/// The argument of an option with a value.
fn value<'a>(
    alloc: Global,
    word: &Word,
    name: &'static str,
    taken: &Taken,
    default: &'a [&'a str],
) -> Arg<'a> {
    Arg::new(alloc, word.id)
        .help(word.help)
        .long(word.id)
        .value_name(name)
        .value_parser(parser_of(taken))
        .default_values(default)
}

/// The parser of the values that are taken.
fn parser_of<'a>(taken: &Taken) -> ValueParser<'a> {
    match taken {
        Taken::Any => ValueParser::string(),
        Taken::Choice(choices) => ValueParser::from(*choices),
        Taken::U32 => clap::value_parser!(u32),
        Taken::U64 => clap::value_parser!(u64),
    }
}
