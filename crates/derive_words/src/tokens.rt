//! The tokens of a Rattle source.

use std::alloc::{AllocError, Global};

/// What a note to this program begins with.
pub const NOTE: &str = "// bincode:";

/// Where a token stands: its line and its column, counted from 1.
#[derive(Clone, Copy)]
pub struct Place {
    pub line: usize,
    pub column: usize,
}

impl Place {
    /// The place after a text that begins here.
    pub fn after(self, text: &str) -> Place {
        let mut line = self.line;
        let mut column = self.column;
        for c in text.chars() {
            if c == '\n' {
                line = line.saturating_add(1);
                column = 1;
            } else {
                column = column.saturating_add(1);
            }
        }
        Place { line, column }
    }
}

/// A word, a mark, a lifetime, a literal or a note, and where it stands.
#[derive(Clone, Copy)]
pub struct Token<'t> {
    pub text: &'t str,
    pub place: Place,
}

/// The tokens of a source. Of its comments only the notes to this program are among them.
pub fn tokens_of<'t>(alloc: Global, text: &'t str) -> Result<Vec<Token<'t>>, AllocError> {
    let mut tokens = Vec::new(alloc);
    let mut scanner = Scanner {
        rest: text,
        place: Place { line: 1, column: 1 },
    };
    for _ in 0..u64::MAX {
        let token = scanner.take();
        if token.text.is_empty() {
            break;
        }
        if is_kept(token.text) {
            tokens.push(token)?;
        }
    }
    Ok(tokens)
}

/// What is left of a source while it is read, and where it stands.
#[derive(Drop)]
struct Scanner<'t> {
    rest: &'t str,
    place: Place,
}

impl<'t> Scanner<'t> {
    /// Takes the token that comes next, and the space before it. At the end its text is empty.
    fn take(&mut self) -> Token<'t> {
        self.advance(space_size(self.rest));
        let place = self.place;
        let text = self.advance(token_size(self.rest));
        Token { text, place }
    }

    /// Takes so many bytes.
    fn advance(&mut self, size: usize) -> &'t str {
        let (front, rest) = cut(self.rest, size);
        self.place = self.place.after(front);
        self.rest = rest;
        front
    }
}

/// A text in two, the first of this size.
fn cut(text: &str, size: usize) -> (&str, &str) {
    match text.split_at_checked(size) {
        Some(halves) => halves,
        None => (text, ""),
    }
}

/// How many bytes of space stand at the front of a text.
fn space_size(text: &str) -> usize {
    text.len().saturating_sub(text.trim_start().len())
}

/// Whether a token is code, or a note to this program.
fn is_kept(token: &str) -> bool {
    let is_comment = token.starts_with("//") || token.starts_with("/*");
    !is_comment || is_note(token)
}

/// Whether a token is a note to this program.
pub fn is_note(token: &str) -> bool {
    token.starts_with(NOTE)
}

/// Whether a token is a name, a keyword or a number.
pub fn is_word(token: &str) -> bool {
    token.starts_with(is_of_word)
}

/// Whether a character may stand in a name or a number.
pub fn is_of_word(c: char) -> bool {
    c.is_ascii_alphanumeric() || c == '_'
}

/// Whether a token is one of these, between which stand spaces.
pub fn is_listed(token: &str, list: &str) -> bool {
    for other in list.split(' ') {
        if other == token {
            return true;
        }
    }
    false
}

/// How many bytes the first token of a text has.
fn token_size(text: &str) -> usize {
    if text.starts_with("//") {
        text.find('\n').unwrap_or(text.len())
    } else if text.starts_with("/*") {
        comment_size(text)
    } else if is_listed(text.get(..2).unwrap_or(""), ":: -> =>") {
        2
    } else if text.starts_with('"') {
        quoted_size(text, '"')
    } else if text.starts_with('\'') {
        tick_size(text)
    } else {
        raw_size(text).max(word_size(text)).max(first_size(text))
    }
}

/// How many bytes a comment between `/*` and `*/` has.
fn comment_size(text: &str) -> usize {
    match text.find("*/") {
        Some(end) => end.saturating_add(2),
        None => text.len(),
    }
}

/// How many bytes the first character of a text has.
fn first_size(text: &str) -> usize {
    match text.chars().next() {
        Some(c) => c.len_utf8(),
        None => 0,
    }
}

/// How many bytes of a word stand at the front of a text.
fn word_size(text: &str) -> usize {
    text.len()
        .saturating_sub(text.trim_start_matches(is_of_word).len())
}

/// How many bytes a literal has, with the quotes around it.
fn quoted_size(text: &str, quote: char) -> usize {
    let mut is_escaped = false;
    for (at, c) in text.char_indices().skip(1) {
        if is_escaped {
            is_escaped = false;
        } else if c == '\\' {
            is_escaped = true;
        } else if c == quote {
            return at.saturating_add(1);
        }
    }
    text.len()
}

/// How many bytes a raw literal has, as `r"x"` or `br#"x"#`. 0 where none stands at the front of a text.
fn raw_size(text: &str) -> usize {
    let literal = text.strip_prefix("b").unwrap_or(text);
    let Some(hashed) = literal.strip_prefix("r") else {
        return 0;
    };
    let quoted = hashed.trim_start_matches('#');
    if !quoted.starts_with('"') {
        return 0;
    }
    let hashes = hashed.len().saturating_sub(quoted.len());
    let front = text.len().saturating_sub(quoted.len());
    front.saturating_add(raw_quoted_size(quoted, hashes))
}

/// How many bytes a raw literal has from its first quote on, which ends at a quote with so many hashes behind it.
fn raw_quoted_size(text: &str, hashes: usize) -> usize {
    let mut is_behind_quote = false;
    let mut count = 0usize;
    for (at, c) in text.char_indices().skip(1) {
        if c == '"' {
            is_behind_quote = true;
            count = 0;
        } else if c == '#' {
            count = count.saturating_add(1);
        } else {
            is_behind_quote = false;
        }
        if is_behind_quote && count == hashes {
            return at.saturating_add(1);
        }
    }
    text.len()
}

/// How many bytes a lifetime or a literal of a character has.
fn tick_size(text: &str) -> usize {
    let mut chars = text.chars().skip(1);
    match (chars.next(), chars.next()) {
        (Some('\\'), _) | (Some(_), Some('\'')) => quoted_size(text, '\''),
        _ => word_size(cut(text, 1).1).saturating_add(1),
    }
}
