//! Writes the `impl`s by which the structs and enums of Rattle sources are encoded and decoded.
//!
//!     derive [--check | --print] [--crate NAME] FILE..
//!
//! For `src/book.rt` the module `src/book/words.rt` is written, below that of the types, which says `mod words;`. The
//! source is only read. `derive --help` says what the options and the status mean.
#![tactic(auto)]

mod files;

use derive_request::run::run;
use files::Disk;
use std::process::ExitCode;
use std::{env, io};

fn main(rt: HostRuntime) -> io::Result<ExitCode> {
    let words: Vec<String> = env::args(&rt)?.collect(rt.alloc())?;
    match run(rt.alloc(), &mut Disk { rt: &rt }, words.as_slice()) {
        Ok(report) => {
            print!(rt; "{}", report.printed)?;
            eprint!(rt; "{}", report.complaints)?;
            Ok(ExitCode::from(report.status))
        }
        Err(error) => {
            eprintln!(rt; "derive: {error}")?;
            Ok(ExitCode::from(2))
        }
    }
}
