//! An enum without variants.

mod words;

// bincode: with BorrowDecode
/// A value that cannot exist.
#[derive(Drop)]
pub enum Never {}
