//! A struct that contains another user-defined type.
use crate::kind::Kind;

mod words;

/// A contact: its number, its name, its addresses, and what it is.
#[derive(Drop, PartialEq)]
pub struct Contact {
    pub id: u64,
    pub name: String,
    pub emails: Vec<String>,
    pub kind: Kind,
}
