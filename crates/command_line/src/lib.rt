//! The command lines of programs, each described by a table of its arguments and commands.
#![tactic(auto)]

mod commands;
pub mod found;
pub mod matching;
pub mod table;
