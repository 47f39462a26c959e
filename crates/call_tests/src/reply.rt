//! Replies of any type.

mod words;

use calls::refusal::Refusal;

/// What is replied, whatever is asked for.
#[derive(Debug, Drop, PartialEq)]
pub enum Reply<T> {
    /// What was asked for.
    Answer(T),
    /// Why there is none.
    Refused(Refusal),
}
