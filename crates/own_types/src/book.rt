//! A struct with a list and a map.
use crate::contact::Contact;
use std::collections::BTreeMap;

mod words;

/// An address book: its contacts, and their notes by number.
#[derive(Drop, PartialEq)]
pub struct Book {
    pub contacts: Vec<Contact>,
    pub notes: BTreeMap<u64, String>,
}
