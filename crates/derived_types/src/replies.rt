//! An enum with a type parameter.

mod words;

/// A reply: what was asked for, or why it is not there.
#[derive(Drop, PartialEq)]
pub enum Reply<T> {
    Nothing,
    Found(T),
    Refused { code: u16, reason: String },
}
