//! An enum that owns its text, and is read by borrowed decoding too.

mod words;

// bincode: with BorrowDecode
/// What happened: it began, it ended with this code, or this was noted.
#[derive(Drop, PartialEq)]
pub enum Event {
    Start,
    Stop(u32),
    Note(String),
}
