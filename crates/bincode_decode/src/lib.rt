//! The traits `Decode` and `BorrowDecode`, and their impls for the types of the format.
#![tactic(auto)]

pub mod borrow_decode;
pub mod borrow_runs;
pub mod collections;
pub mod decode;
mod empty;
pub mod from_parts;
mod impls;
pub mod make_by_parts;
pub mod runs;
mod strategies;
pub mod validated;
pub mod variants;
