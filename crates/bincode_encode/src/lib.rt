//! The trait `Encode`, and its impls for the types of the format.
#![tactic(auto)]

pub mod encode;
pub mod encode_parts;
mod impls;
mod rows;
pub mod runs;
pub mod validated;
pub mod variants;
