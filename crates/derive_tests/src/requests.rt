//! What arguments ask for, and where the module goes.

use crate::answers::wrong_in;
use derive_request::paths::{declared_path, module_path};
use derive_request::request::{Action, Request, request_of};
use std::alloc::{AllocError, Global};
use std::test::Fail;

/// These words as the program is given them, after its name.
pub fn words(alloc: Global, line: &str) -> Result<Vec<String>, AllocError> {
    let mut words = Vec::new(alloc);
    words.push(String::from_str(alloc, "derive")?)?;
    for word in line.split_whitespace() {
        words.push(String::from_str(alloc, word)?)?;
    }
    Ok(words)
}

/// A request in a line, as `check app src/book.rt`, or the text of its error.
pub fn request(alloc: Global, line: &str) -> Result<String, AllocError> {
    match request_of(alloc, words(alloc, line)?.as_slice()) {
        Ok(request) => told_request(alloc, &request),
        Err(error) => format!(in alloc; "{error}"),
    }
}

fn told_request(alloc: Global, request: &Request) -> Result<String, AllocError> {
    let action = match request.action {
        Action::Write => "write",
        Action::Check => "check",
        Action::Print => "print",
    };
    let crate_name = match &request.crate_name {
        Some(name) => name.as_str(),
        None => "-",
    };
    let mut text = format!(in alloc; "{action} {crate_name}")?;
    for file in request.files.iter() {
        text.push_str(" ")?;
        text.push_str(file.as_str())?;
    }
    text.push_str("\n")?;
    Ok(text)
}

/// Whether words ask for the help: then a word that says so, and else what `request` says of them.
pub fn help(alloc: Global, line: &str) -> Result<String, AllocError> {
    let text = request(alloc, line)?;
    if text.as_str() == HELP {
        return String::from_str(alloc, "helps\n");
    }
    Ok(text)
}

/// The path of the module of a file.
pub fn module(alloc: Global, file: &str) -> Result<String, AllocError> {
    let mut path = module_path(alloc, file)?;
    path.push_str("\n")?;
    Ok(path)
}

/// Where the types of a file are declared, after which the name of its crate may stand.
pub fn declared(alloc: Global, words: &str) -> Result<String, AllocError> {
    let (file, crate_name) = match words.split_once(' ') {
        Some((file, name)) => (file, Some(name)),
        None => (words, None),
    };
    let declared = declared_path(alloc, file, crate_name)?;
    let declared = declared.as_ref().map_or("-", String::as_str);
    format!(in alloc; "{declared}\n")
}

/// What words ask for.
const REQUESTS: &str = "\
request src/book.rt
-----
write - src/book.rt
=====
request --check src/book.rt
-----
check - src/book.rt
=====
request src/book.rt --check
-----
check - src/book.rt
=====
request --print --crate app book.rt
-----
print app book.rt
=====
request a.rt --crate=app b.rt c.rt
-----
write app a.rt b.rt c.rt
=====
request -- --check
-----
write - --check
=====
request
-----
error: the following required arguments were not provided:
  <FILE>...

Usage: derive <FILE>...

For more information, try '--help'.
=====
request a.rt --crate
-----
error: a value is required for '--crate <NAME>' but none was supplied

For more information, try '--help'.
=====
request --fix a.rt
-----
error: unexpected argument '--fix' found

  tip: to pass '--fix' as a value, use '-- --fix'

Usage: derive [OPTIONS] <FILE>...

For more information, try '--help'.
=====
request --check --print a.rt
-----
error: the argument '--check' cannot be used with '--print'

Usage: derive --check <FILE>...

For more information, try '--help'.
=====
request --version
-----
derive 0.1.0
=====
request -V
-----
derive 0.1.0
=====
help --help
-----
helps
=====
help -h
-----
helps
=====
help --check a.rt --help
-----
helps
";

/// The help.
const HELP: &str =
    "Writes the impls by which the structs and enums of Rattle sources are encoded and decoded by `bincode`

Usage: derive [OPTIONS] <FILE>...

Arguments:
  <FILE>...  The sources: for `src/book.rt` the module `src/book/words.rt` is written

Options:
      --check         Writes nothing, and compares each module with the file that is there
      --print         Writes nothing, and prints each module
      --crate <NAME>  The crate of the sources, if it is not the folder before their `src`
  -h, --help          Print help
  -V, --version       Print version

Status:
  0  done, or each module is up to date
  1  with --check: a module is stale or missing
  2  wrong arguments, a type that is refused, or a file that can't be read or written

Each file is dealt with, also after one that is refused. The status is the greatest of them.
";

/// Where the module of a file goes, below that of its types, and which crate it is of, by its folder.
const PATHS: &str = "\
module src/book.rt
-----
src/book/words.rt
=====
module /projects/app/src/a/book.rt
-----
/projects/app/src/a/book/words.rt
=====
module ../app.old/book
-----
../app.old/book/words.rt
=====
module src/lib.rt
-----
src/words.rt
=====
module main.rt
-----
words.rt
=====
declared /projects/app/src/book.rt
-----
app.specs.declared.book
=====
declared /src/app/src/a/book.rt
-----
app.specs.declared.a.book
=====
declared /projects/app/src/lib.rt
-----
app.specs.declared
=====
declared /projects/app/src/book.rt own
-----
own.specs.declared.book
=====
declared /shelf/book.source app
-----
app.specs.declared.book
=====
declared /shelf/book.rt
-----
-
=====
declared /src/book.rt
-----
-
";

#[test]
fn tells_what_words_ask_for_and_where_the_module_goes(rt: HostRuntime) -> Result<(), Fail> {
    let wrong = wrong_in(rt.alloc(), REQUESTS)?;
    assert_eq!(rt; wrong.as_str(), "");
    let wrong = wrong_in(rt.alloc(), PATHS)?;
    assert_eq!(rt; wrong.as_str(), "");
    Ok(())
}
