//! An enum with explicit tags.

mod words;

// bincode: claims 4, with BorrowDecode
/// The code of an answer.
#[derive(Clone, Copy, PartialEq)]
pub enum Code {
    // bincode: tag 1
    Done,
    // bincode: tag 5
    Late,
    // bincode: tag 300
    Refused,
}
