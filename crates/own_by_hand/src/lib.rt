//! User-defined types whose decoding is written by hand: a number that is checked, and a list with its own loop.
#![tactic(auto)]

pub mod even;
pub mod pack;
