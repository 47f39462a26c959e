//! Articles that are added to a store.

use crate::stores::{FRAMED, Full, damaged};
use framed_store::appending::AppendError;
use std::alloc::{AllocError, Global};
use std::collections::BTreeMap;
use stock_files::adding::{AddError, add_lines, add_one, next_offset};
use stock_files::article::Article;
use stock_files::limit::LONGEST_WORD;
use stock_files::showing::{Sheet, print_store};
use stock_files::status::{DAMAGED, FAILED};

/// The lines of salt, tea and salt again.
const LINES: &str = "salt 40\n\ntea 1250 origin=Assam 100\nsalt 40";

/// Whether the next frame of these bytes goes there.
fn goes_on_at(bytes: &[u8], offset: usize) -> bool {
    let mut store = bytes;
    matches!(next_offset(&mut store), Ok(found) if found == offset)
}

/// Whether nothing is added to a store that holds these bytes, with this message and the status of what is damaged.
fn refuses(alloc: Global, bytes: &[u8], text: &str) -> bool {
    let mut store = bytes;
    match next_offset(&mut store) {
        Ok(_) => false,
        Err(error) => error.status() == DAMAGED && is_printed(alloc, &error, text),
    }
}

/// Whether an error is printed so.
fn is_printed(alloc: Global, error: &AddError, text: &str) -> bool {
    match format!(in alloc; "{error}") {
        Ok(told) => told.as_str() == text,
        Err(_) => false,
    }
}

#[test]
fn finds_where_a_store_goes_on(rt: HostRuntime) {
    let alloc = rt.alloc();
    let torn =
        "truncated at byte 16: nothing was added. `records repair` mends it, or says why not";
    let long = "no frame at byte 0, of a length of 65527: nothing was added. \
        `records repair` mends it, or says why not";
    assert!(rt;
        goes_on_at(&[], 0)
            && goes_on_at(&FRAMED, 63)
            && goes_on_at(&damaged(), 63)
            && refuses(alloc, &FRAMED[..46], torn)
            && refuses(alloc, &[247, 255, 0, 0], long)
    );
}

/// What comes of lines.
#[derive(Clone, Copy, PartialEq)]
enum Outcome {
    /// So many articles were added.
    Added(usize),
    /// The store took no more.
    Full,
    /// A line is no article.
    NoArticle,
    /// Something else.
    Other,
}

/// What came of adding lines, where it failed with the status of what fails.
fn outcome_of(outcome: Result<usize, AddError>) -> Outcome {
    match outcome {
        Ok(count) => Outcome::Added(count),
        Err(error) if error.status() != FAILED => Outcome::Other,
        Err(AddError::Append(AppendError::Write(_))) => Outcome::Full,
        Err(AddError::Line(_)) => Outcome::NoArticle,
        Err(_) => Outcome::Other,
    }
}

/// Whether this comes of adding lines to a store with this room, and the store holds this.
fn appends(alloc: Global, lines: &str, room: usize, wanted: Outcome, held: &[u8]) -> bool {
    let mut store = Full {
        held: Vec::new(alloc),
        room,
    };
    let outcome = outcome_of(add_lines(alloc, &mut lines.as_bytes(), &mut store));
    outcome == wanted && store.held.as_slice() == held
}

#[test]
fn appends_lines(rt: HostRuntime) {
    let alloc = rt.alloc();
    assert!(rt;
        appends(alloc, LINES, 63, Outcome::Added(3), &FRAMED)
            && appends(alloc, "\n \n", 63, Outcome::Added(0), &[])
            && appends(alloc, LINES, 20, Outcome::Full, &FRAMED[..20])
            && appends(
                alloc,
                "salt 40\ntea much\n",
                63,
                Outcome::NoArticle,
                &FRAMED[..16]
            )
    );
}

/// The article with a name of this length, the largest price and this weight.
fn named(alloc: Global, length: usize, weight: Option<u32>) -> Result<Article, AllocError> {
    Ok(Article {
        name: "n".repeat(alloc, length)?,
        price: u64::MAX,
        weight,
        notes: BTreeMap::new(alloc),
    })
}

/// What comes of adding an article: the number of bytes of its frame.
fn added(alloc: Global, article: &Article) -> Result<usize, AppendError> {
    add_one(alloc, &mut Vec::new(alloc), article)
}

/// Whether an article with such a name has a frame of so many bytes.
fn has_size(alloc: Global, length: usize, weight: Option<u32>, size: usize) -> bool {
    match named(alloc, length, weight) {
        Ok(article) => matches!(added(alloc, &article), Ok(found) if found == size),
        Err(_) => false,
    }
}

/// Whether its encoding is longer than the longest.
fn is_too_long(alloc: Global, length: usize, weight: Option<u32>) -> bool {
    match named(alloc, length, weight) {
        Ok(article) => matches!(added(alloc, &article), Err(AppendError::TooLong { .. })),
        Err(_) => false,
    }
}

/// Whether it cannot be read back under the limit.
fn is_past_limit(alloc: Global, length: usize, weight: Option<u32>) -> bool {
    match named(alloc, length, weight) {
        Ok(article) => matches!(added(alloc, &article), Err(AppendError::ReadBack(_))),
        Err(_) => false,
    }
}

/// Whether a store is found whole.
fn is_whole(alloc: Global, bytes: &[u8]) -> bool {
    let mut store = bytes;
    let sheet = Sheet {
        file: "f",
        lists: false,
    };
    matches!(
        print_store(alloc, &mut Vec::new(alloc), sheet, &mut store),
        Ok(true)
    )
}

/// Whether a store is whole after an article with such a name is added.
fn is_read_back(alloc: Global, length: usize) -> bool {
    let mut store = Vec::new(alloc);
    match named(alloc, length, None) {
        Ok(article) => add_one(alloc, &mut store, &article).is_ok() && is_whole(alloc, &store),
        Err(_) => false,
    }
}

#[test]
fn adds_the_longest_article(rt: HostRuntime) {
    let alloc = rt.alloc();
    let most = LONGEST_WORD as usize;
    let weight = Some(u32::MAX);
    assert!(rt;
        has_size(alloc, 65507, weight, most + 8)
            && is_too_long(alloc, 65508, weight)
            && has_size(alloc, 65511, None, most + 7)
            && is_past_limit(alloc, 65512, None)
            && is_read_back(alloc, 65511)
    );
}
