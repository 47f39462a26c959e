//! Texts of many characters.

use std::alloc::{AllocError, Global};
use std::rc::RcStr;
use test_helpers::checks::either;

/// A text of one character, which has four bytes.
pub const FACE: &str = "\u{1F600}";

/// A text of this many of them.
fn text_of(alloc: Global, count: u32) -> Result<String, AllocError> {
    let mut text = String::new(alloc);
    for _ in 0..count {
        text.push_str(FACE)?;
    }
    Ok(text)
}

/// The text. Retries once if an allocation is refused.
pub fn text(alloc: Global, count: u32) -> Option<String> {
    either(text_of(alloc, count), text_of(alloc, count))
}

/// The text, shared.
pub fn shared_text(alloc: Global, count: u32) -> Option<RcStr> {
    let text = text(alloc, count)?;
    either(
        RcStr::from_str(alloc, text.as_str()),
        RcStr::from_str(alloc, text.as_str()),
    )
}
