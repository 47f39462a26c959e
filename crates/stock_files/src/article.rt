//! An article of a stock.

use std::collections::BTreeMap;

mod words;

/// An article.
// bincode: with Described
#[derive(Drop, PartialEq)]
pub struct Article {
    /// Its name.
    pub name: String,
    /// Its price, in cents.
    pub price: u64,
    /// Its weight in grams, if it is known.
    pub weight: Option<u32>,
    /// Texts about it, by name.
    pub notes: BTreeMap<String, String>,
}
