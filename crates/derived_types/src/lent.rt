//! A struct of a tuple that borrows text of the input.

mod words;

/// A word of a text, lent whole.
#[derive(Clone, Copy, PartialEq)]
pub struct Word<'a>(pub &'a str);
