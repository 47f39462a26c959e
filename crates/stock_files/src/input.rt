//! Articles from a stream of lines.

use crate::article::Article;
use crate::article_words::{ArticleError, article_of};
use std::alloc::{AllocError, Global};
use std::io;
use std::io::{BufRead, Read};
use thiserror::Error;

/// The greatest number of bytes of a line, with its end.
pub const LONGEST_LINE: u64 = 1 << 20;

/// Why an input gives no more articles.
#[derive(Debug, Drop, Error)]
pub enum LineError {
    /// The stream failed, or what it gave is no UTF-8.
    #[error("the standard input, line {line}: {why}")]
    Read {
        /// The number of the line, from 1 on.
        line: usize,
        /// The error of the stream.
        why: io::Error,
    },
    /// A line is no article.
    #[error("the standard input, line {line}: {why}")]
    NoArticle {
        /// The number of the line, from 1 on.
        line: usize,
        /// Why it is no article.
        why: ArticleError,
    },
    /// A line is longer than `LONGEST_LINE`.
    #[error("the standard input, line {line}: a line of more than {LONGEST_LINE} bytes")]
    Long {
        /// The number of the line, from 1 on.
        line: usize,
    },
    /// There are more articles than 64 bits count.
    #[error("the standard input: too many lines")]
    TooMany,
}

/// Values that are given one at a time.
pub trait Supply<T> {
    /// The next one; `None` after the last.
    fn next(&mut self) -> Result<Option<T>, LineError>;
}

/// The articles of an input, one a line: words that are separated by blanks or tabs. Lines without words are passed
/// over.
#[derive(Drop)]
pub struct Lines<R> {
    alloc: Global,
    input: R,
    /// The last line that was read.
    text: String,
    /// Its number, from 1 on.
    line: usize,
}

impl<R: BufRead> Lines<R> {
    /// The articles of this input.
    pub fn new(alloc: Global, input: R) -> Lines<R> {
        Lines {
            alloc,
            input,
            text: String::new(alloc),
            line: 0,
        }
    }
}

/// Reads a line into `text`, in place of what it held, and counts it. Returns whether there was one.
fn read_line<R: BufRead>(
    input: &mut R,
    text: &mut String,
    line: &mut usize,
) -> Result<bool, LineError> {
    text.clear();
    *line = line.saturating_add(1);
    let mut limited = input.take(LONGEST_LINE + 1);
    match limited.read_line(text) {
        // Also where the last byte that is taken ends within a character.
        _ if limited.limit() == 0 => Err(LineError::Long { line: *line }),
        Ok(count) => Ok(count > 0),
        Err(why) => Err(LineError::Read { line: *line, why }),
    }
}

impl<R: BufRead> Supply<Article> for Lines<R> {
    fn next(&mut self) -> Result<Option<Article>, LineError> {
        for _ in 0..u64::MAX {
            if !read_line(&mut self.input, &mut self.text, &mut self.line)? {
                return Ok(None);
            }
            match article_in(self.alloc, &self.text) {
                Ok(None) => (),
                Ok(article) => return Ok(article),
                Err(why) => {
                    let line = self.line;
                    return Err(LineError::NoArticle { line, why });
                }
            }
        }
        Err(LineError::TooMany)
    }
}

/// The article of a line, which may be blank.
fn article_in(alloc: Global, line: &str) -> Result<Option<Article>, ArticleError> {
    let words: Vec<&str> = line.split_ascii_whitespace().collect(alloc)?;
    if words.is_empty() {
        return Ok(None);
    }
    Ok(Some(article_of(alloc, &words)?))
}
