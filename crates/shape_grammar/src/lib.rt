//! Shapes as short texts, such as `(u8, [u16], text?, u32|text)`: the parser, and the printer.
#![tactic(auto)]

pub mod claims;
mod nested;
mod scanner;
pub mod spelling;
pub mod text;
