//! Articles as arguments: `NAME PRICE [WEIGHT] [NOTE=TEXT ..]`.

use crate::article::Article;
use std::alloc::{AllocError, Global};
use std::collections::BTreeMap;
use thiserror::Error;

/// Why words are no article.
#[derive(Debug, Drop, Error)]
pub enum ArticleError {
    /// The name is missing.
    #[error("the name of the article is missing")]
    NoName,
    /// The price is missing.
    #[error("the price of the article is missing")]
    NoPrice,
    /// The price is not a number.
    #[error("a price is a number below 2^64, and not {0:?}")]
    BadPrice(String),
    /// There is more than one weight.
    #[error("two weights: {0:?} is one more")]
    TwoWeights(String),
    /// Two notes have one name.
    #[error("two notes of one name: {0:?}")]
    TwoNotes(String),
    /// The word is neither a weight nor a note.
    #[error("a weight is a number below 2^32, and a note has a '=': {0:?} is neither")]
    NeitherWeightNorNote(String),
    /// An allocation was refused.
    #[error(transparent)]
    Memory(#[from(alloc)] AllocError),
}

/// The article that words spell.
pub fn article_of(alloc: Global, words: &[&str]) -> Result<Article, ArticleError> {
    match words {
        [] => Err(ArticleError::NoName),
        [_] => Err(ArticleError::NoPrice),
        [name, price, others @ ..] => {
            let mut article = new_article(alloc, name, price)?;
            for word in others {
                add_word(alloc, &mut article, word)?;
            }
            Ok(article)
        }
    }
}

/// An article of this name and price, without a weight and notes.
fn new_article(alloc: Global, name: &str, price: &str) -> Result<Article, ArticleError> {
    let price = price_of(alloc, price)?;
    Ok(Article {
        name: String::from_str(alloc, name)?,
        price,
        weight: None,
        notes: BTreeMap::new(alloc),
    })
}

/// A price, in cents.
fn price_of(alloc: Global, word: &str) -> Result<u64, ArticleError> {
    match word.parse::<u64>() {
        Ok(price) => Ok(price),
        Err(_) => Err(ArticleError::BadPrice(String::from_str(alloc, word)?)),
    }
}

/// Adds what a word is to the article: a note, or its weight.
fn add_word(alloc: Global, article: &mut Article, word: &str) -> Result<(), ArticleError> {
    if let Some((name, text)) = word.split_once('=') {
        return add_note(alloc, article, name, text);
    }
    let Ok(weight) = word.parse::<u32>() else {
        let word = String::from_str(alloc, word)?;
        return Err(ArticleError::NeitherWeightNorNote(word));
    };
    if article.weight.is_some() {
        return Err(ArticleError::TwoWeights(String::from_str(alloc, word)?));
    }
    article.weight = Some(weight);
    Ok(())
}

/// Adds a note of this name.
fn add_note(
    alloc: Global,
    article: &mut Article,
    name: &str,
    text: &str,
) -> Result<(), ArticleError> {
    let key = String::from_str(alloc, name)?;
    match article.notes.insert(key, String::from_str(alloc, text)?)? {
        None => Ok(()),
        Some(_) => Err(ArticleError::TwoNotes(String::from_str(alloc, name)?)),
    }
}
