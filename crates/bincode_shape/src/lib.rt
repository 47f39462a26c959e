//! Types that are described at run time: their shapes, generic values, and the shape of each type that has one.
#![tactic(auto, using(crate::proofs::Formats::same_itself))]

pub mod bytes;
pub mod choices;
mod collections;
pub mod depth;
pub mod described;
pub mod fits;
mod lists;
pub mod rows;
mod scalars;
pub mod shape;
mod tuples;
