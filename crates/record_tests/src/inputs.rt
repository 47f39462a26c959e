//! Articles from lines.

use crate::stores::{Broken, SALT, TEA, has_word};
use std::alloc::Global;
use std::io::{BufRead, BufReader};
use stock_files::article::Article;
use stock_files::input::{LONGEST_LINE, LineError, Lines, Supply};

/// Whether the next article of an input has this word.
fn is_next<R: BufRead>(lines: &mut Lines<R>, word: &[u8]) -> bool {
    match lines.next() {
        Ok(Some(article)) => has_word(&article, word),
        _ => false,
    }
}

/// Whether no article is left of an input.
fn is_end<R: BufRead>(lines: &mut Lines<R>) -> bool {
    matches!(lines.next(), Ok(None))
}

/// Whether the lines of a text are salt and tea.
fn gives_both(alloc: Global, text: &str) -> bool {
    let mut lines = Lines::new(alloc, text.as_bytes());
    is_next(&mut lines, &SALT) && is_next(&mut lines, &TEA) && is_end(&mut lines)
}

/// The error of the first line that is no article, of at most two.
fn error_of<R: BufRead + Drop>(alloc: Global, input: R) -> Option<LineError> {
    let mut lines = Lines::new(alloc, input);
    let first: Result<Option<Article>, LineError> = lines.next();
    match first {
        Ok(_) => lines.next().err(),
        Err(error) => Some(error),
    }
}

/// Whether a text is refused with this message.
fn refuses(alloc: Global, text: &str, message: &str) -> bool {
    let Some(error) = error_of(alloc, text.as_bytes()) else {
        return false;
    };
    match format!(in alloc; "{error}") {
        Ok(told) => told.as_str() == message,
        Err(_) => false,
    }
}

#[test]
fn takes_articles_by_lines(rt: HostRuntime) {
    let alloc = rt.alloc();
    let much = "the standard input, line 3: a price is a number below 2^64, and not \"much\"";
    let missing = "the standard input, line 1: the price of the article is missing";
    assert!(rt;
        gives_both(alloc, "salt 40\n\ntea\t1250  100 origin=Assam")
            && gives_both(alloc, "salt 40\r\n \t \r\n tea 1250 origin=Assam 100 \r\n")
            && is_end(&mut Lines::new(alloc, "\n \n".as_bytes()))
            && refuses(alloc, "salt 40\n\ntea much\n", much)
            && refuses(alloc, "salt", missing)
    );
}

/// Whether a line could not be read.
fn is_unread(error: Option<LineError>) -> bool {
    matches!(error, Some(LineError::Read { line: 1, .. }))
}

/// Whether an article stands in the first line of a text that is not blank.
fn has_article(alloc: Global, text: &str) -> bool {
    matches!(Lines::new(alloc, text.as_bytes()).next(), Ok(Some(_)))
}

/// Whether the first line of a text is too long.
fn is_too_long(alloc: Global, text: &str) -> bool {
    matches!(
        error_of(alloc, text.as_bytes()),
        Some(LineError::Long { line: 1 })
    )
}

/// A stream that fails in a line, a line that is no text, the longest one that is taken, and two that are too long: one
/// by a byte, and one by a part of a character.
#[test]
fn tells_lines_that_cannot_be_read(rt: HostRuntime) -> anyhow::Result<()> {
    let alloc = rt.alloc();
    let most = LONGEST_LINE as usize;
    let mut longest = " ".repeat(alloc, most - 8)?;
    longest.push_str("salt 40\n")?;
    let long = " ".repeat(alloc, most + 1)?;
    let letters = "é".repeat(alloc, most / 2 + 1)?;
    let broken = BufReader::new(alloc, Broken { has_failed: false })?;
    assert!(rt;
        is_unread(error_of(alloc, broken))
            && is_unread(error_of(alloc, [115, 255, 10].as_slice()))
            && has_article(alloc, &longest)
            && is_too_long(alloc, &long)
            && is_too_long(alloc, &letters)
    );
    Ok(())
}
