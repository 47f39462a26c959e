//! What the arguments of the program ask for.
ghost use Rattle.std.specs.Prelude.{◌≡◌, IfOk, Some, codes};
ghost use Rattle.clap.specs.Words.{first_value, found_of, one_text};

use clap::{ArgMatches, Error};
use command_line::matching::matches_in;
use command_line::table::{Kind, Program, Taken, Word};
use std::alloc::{AllocError, Global};

/// What is done with the module of a source.
#[derive(Clone, Copy, PartialEq)]
pub enum Action {
    /// It is written beside the source.
    Write,
    /// It is compared with what stands there.
    Check,
    /// It is printed.
    Print,
}

/// Which sources are read, and what is done with their modules.
#[derive(Drop)]
pub struct Request {
    pub action: Action,
    /// The crate that the sources are of, if it is not the folder before their `src`.
    pub crate_name: Option<String>,
    /// The paths of the sources.
    pub files: Vec<String>,
}

/// What stands at the end of the help.
const STATUSES: &str = "Status:
  0  done, or each module is up to date
  1  with --check: a module is stale or missing
  2  wrong arguments, a type that is refused, or a file that can't be read or written

Each file is dealt with, also after one that is refused. The status is the greatest of them.";

/// What the program says of itself.
const ABOUT: &str =
    "Writes the impls by which the structs and enums of Rattle sources are encoded and decoded by `bincode`";

/// The program's command line.
static DERIVE: Program = Program {
    name: "derive",
    version: "0.1.0",
    about: ABOUT,
    after_help: STATUSES,
    usage: None,
    words: &[
        Word {
            id: "check",
            kind: Kind::Flag,
            help: "Writes nothing, and compares each module with the file that is there",
            conflicts: &["print"],
            needs: &[],
        },
        Word {
            id: "print",
            kind: Kind::Flag,
            help: "Writes nothing, and prints each module",
            conflicts: &[],
            needs: &[],
        },
        Word {
            id: "crate",
            kind: Kind::Value {
                name: "NAME",
                taken: Taken::Any,
                default: &[],
            },
            help: "The crate of the sources, if it is not the folder before their `src`",
            conflicts: &[],
            needs: &[],
        },
        Word {
            id: "files",
            kind: Kind::Many("FILE"),
            help: "The sources: for `src/book.rt` the module `src/book/words.rt` is written",
            conflicts: &[],
            needs: &[],
        },
    ],
    commands: &[],
};

/// The request that these words spell, of which the first is the program's name. Where they spell none, or ask for help
/// or for the version, the error has the text for it.
pub fn request_of(alloc: Global, words: &[String]) -> Result<Request, Error> {
    let matches = matches_in(alloc, &DERIVE, words)?;
    Ok(request_in(alloc, &matches)?)
}

/// The request in what was found.
fn request_in(alloc: Global, matches: &ArgMatches<'_>) -> Result<Request, AllocError>
    ensures checks { one_text (found_of matches.now) (codes "check") ≡ Some (codes "true")
        → IfOk result (λ r. r.action ≡ Action.Check) }
{
    let crate_name = match matches.get_str("crate") {
        Some(name) => Some(String::from_str(alloc, name)?),
        None => None,
    };
    Ok(Request {
        action: action_in(matches),
        crate_name,
        files: texts_of(alloc, matches.get_strs("files").unwrap_or(&[]))?,
    })
}

/// The action that the options ask for.
fn action_in(matches: &ArgMatches<'_>) -> Action
    ensures checks { one_text (found_of matches.now) (codes "check") ≡ Some (codes "true")
        → result ≡ Action.Check }
    ensures prints { one_text (found_of matches.now) (codes "check") ≡ Some (codes "false")
        → one_text (found_of matches.now) (codes "print") ≡ Some (codes "true") → result ≡ Action.Print }
    ensures writes { one_text (found_of matches.now) (codes "check") ≡ Some (codes "false")
        → one_text (found_of matches.now) (codes "print") ≡ Some (codes "false") → result ≡ Action.Write }
{
    if matches.get_flag("check") {
        Action::Check
    } else if matches.get_flag("print") {
        Action::Print
    } else {
        Action::Write
    }
}

/// Some texts, each as one that is owned.
fn texts_of(alloc: Global, texts: &[&str]) -> Result<Vec<String>, AllocError> {
    let mut owned = Vec::new(alloc);
    for text in texts.iter() {
        owned.push(String::from_str(alloc, text)?)?;
    }
    Ok(owned)
}
