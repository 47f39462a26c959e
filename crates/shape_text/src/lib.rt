//! Shapes as short texts, such as `(u8, [u16], text?, u32|text)`, and what a stream holds by a shape, as JSON.
#![tactic(auto)]

mod comparing;
pub mod describing;
pub mod failure;
mod framed;
pub mod json;
mod lines;
pub mod next;
pub mod program;
pub mod request;
mod strings;
pub mod window;
mod words;

pub use shape_grammar::{claims, spelling, text};
