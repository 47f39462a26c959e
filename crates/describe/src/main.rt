//! Prints what a file in the format holds, without the types that wrote it: a line of JSON for each value, with its
//! offset and its length in bytes.
//!
//!     describe [OPTIONS] SHAPE [FILE]
//!
//! The shape is a short text, as `(u8, [u16], text?, u32|text)`. `describe --help` has the options and the shapes.
#![tactic(auto)]

use shape_text::program::run;
use std::env;
use std::process::ExitCode;

fn main(rt: HostRuntime) -> anyhow::Result<ExitCode> {
    let words: Vec<String> = env::args(&rt)?.collect(rt.alloc())?;
    Ok(ExitCode::from(run(&rt, &words)))
}
