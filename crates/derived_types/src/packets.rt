//! A struct that may borrow bytes of the input.

mod words;

/// A packet: where it goes, and its payload, if it has one.
#[derive(Drop, PartialEq)]
pub struct Packet<'a> {
    pub to: u16,
    pub payload: Option<&'a [u8]>,
}
