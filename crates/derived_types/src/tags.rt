//! Enums with tags by notes, and with numbers that are no tags.

mod words;

/// Tags in no order. Numbers that are places need no note.
#[derive(Clone, Copy, PartialEq)]
pub enum Mixed {
    // bincode: tag 3
    Third = 3,
    First = 1,
    Second = 2,
}

/// An enum of the original's tests. Its tags are its places there, whatever its numbers are.
#[derive(Clone, Copy, PartialEq)]
pub enum CStyleEnum {
    // bincode: tag 0
    A = -1,
    // bincode: tag 1
    B = 2,
    C,
    // bincode: tag 3
    D = 5,
    E,
}
