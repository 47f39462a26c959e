//! Bytes that show that a new shape does not read all that an old one wrote.
#![tactic(auto)]

mod alike;
pub mod difference;
mod draw;
mod sample;
