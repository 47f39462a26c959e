//! Encoding and decoding of values of a shape, with any encoder and decoder.
#![tactic(auto)]

mod contents;
pub mod decode;
pub mod encode;
pub mod measure;
mod numbers;
mod scalars;
pub mod within;
