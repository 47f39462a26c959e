//! An enum that borrows text of the input.

mod words;

/// What was sent: a beginning, an end with this code, or a note.
#[derive(Drop, PartialEq)]
pub enum Message<'a> {
    Start,
    Stop(u32),
    Note(&'a str),
}
