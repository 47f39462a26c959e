//! Keeps the articles of a stock in files, each in a frame with a check, so that damage is reported.
//!
//!     records add FILE NAME PRICE [WEIGHT] [NOTE=TEXT ..]    appends an article
//!     records add FILE -                                      appends the articles of the standard input, one a line
//!     records list FILE ..                                    prints the articles, each with its offset
//!     records check FILE ..                                   says for each file whether it is whole
//!     records repair [--drop-damaged] [--cut] FILE            cuts off a torn end, and drops damaged frames
//!     records shape                                           prints the shape of an article, for `describe`
#![tactic(auto)]

use std::env;
use std::process::ExitCode;
use stock_files::program::run;

fn main(rt: HostRuntime) -> anyhow::Result<ExitCode> {
    let words: Vec<String> = env::args(&rt)?.collect(rt.alloc())?;
    Ok(ExitCode::from(run(&rt, &words)))
}
