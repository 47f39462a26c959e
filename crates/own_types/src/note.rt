//! A struct that borrows bytes of the input.

mod words;

/// A note: its title and its attachment.
#[derive(Drop, PartialEq)]
pub struct Note<'a> {
    pub title: &'a str,
    pub data: &'a [u8],
}
