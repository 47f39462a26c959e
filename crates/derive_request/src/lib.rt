//! What the program `derive` does: its arguments, what it writes, what it prints, and the status.
#![tactic(auto)]

pub mod compare;
pub mod paths;
pub mod program;
pub mod request;
pub mod run;
