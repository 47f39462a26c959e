//! Text that is written piece by piece.

use crate::tokens::{Token, is_listed, is_word};
use std::alloc::{AllocError, Global};

/// Text that is written piece by piece. Where memory is refused on the way, it is `whole` that says so.
#[derive(Drop)]
pub struct Text {
    alloc: Global,
    text: String,
    is_whole: bool,
}

impl Text {
    pub fn new(alloc: Global) -> Text {
        Text {
            alloc,
            text: String::new(alloc),
            is_whole: true,
        }
    }

    /// An empty text, of the memory of this one.
    pub fn beside(&self) -> Text {
        Text::new(self.alloc)
    }

    /// Where it takes its memory.
    pub fn alloc(&self) -> Global {
        self.alloc
    }

    pub fn as_str(&self) -> &str {
        self.text.as_str()
    }

    /// The text, if memory was never refused.
    pub fn whole(self) -> Result<String, AllocError> {
        if self.is_whole {
            Ok(self.text)
        } else {
            Err(AllocError)
        }
    }

    pub fn add(&mut self, piece: &str) {
        if self.text.push_str(piece).is_err() {
            self.is_whole = false;
        }
    }

    /// Adds a comma, unless what was written last opens a list.
    pub fn add_comma(&mut self) {
        if !self.as_str().trim_end().ends_with(opens_list) {
            self.add(", ");
        }
    }

    pub fn clear(&mut self) {
        self.text.clear();
    }

    /// Whether memory was never refused.
    pub fn is_whole(&self) -> bool {
        self.is_whole
    }

    /// Adds another text.
    pub fn add_text(&mut self, other: &Text) {
        self.add(other.as_str());
        self.is_whole = self.is_whole && other.is_whole;
    }

    pub fn add_number(&mut self, number: u64) {
        if write!(self.text, "{number}").is_err() {
            self.is_whole = false;
        }
    }

    /// Adds a text in quotes, with what can't stand between them written by escapes.
    pub fn add_quoted(&mut self, text: &str) {
        if write!(self.text, "{text:?}").is_err() {
            self.is_whole = false;
        }
    }

    /// Adds a piece so many times.
    pub fn add_times(&mut self, piece: &str, times: usize) {
        for _ in 0..times {
            self.add(piece);
        }
    }

    /// Adds the tokens of a type as its author writes them.
    pub fn add_type(&mut self, tokens: &[Token<'_>]) {
        for at in 0..tokens.len() {
            self.add_type_token(tokens, at);
        }
    }

    /// Adds the token of a type that is at this place. A path that begins where the module of the types stands begins
    /// one module above what is written.
    fn add_type_token(&mut self, tokens: &[Token<'_>], at: usize) {
        let next = text_at(tokens, at);
        let before = text_before(tokens, at);
        if at > 0 && is_apart(before, next) {
            self.add(" ");
        }
        if before != "::" && is_listed(next, "super self") {
            self.add("super");
            self.add(if next == "super" { "::super" } else { "" });
        } else {
            self.add(next);
        }
    }

    /// Adds what stands before the part at this place of a tuple of so many: the comma, and the brackets that open
    /// here. More than eight parts stand in groups of four, and groups of those. One part stands alone.
    pub fn open_part(&mut self, at: usize, count: usize) {
        if at > 0 {
            self.add(", ");
        }
        let mut at = at;
        let mut count = count;
        for _ in 0..16u8 {
            if count <= 8 || at % 4 > 0 {
                break;
            }
            if count.saturating_sub(at) > 1 {
                self.add("(");
            }
            at = at / 4;
            count = count.div_ceil(4);
        }
        if at == 0 && count > 1 {
            self.add("(");
        }
    }

    /// Adds the brackets that close behind the part at this place of a tuple of so many.
    pub fn close_part(&mut self, at: usize, count: usize) {
        let mut at = at;
        let mut count = count;
        for _ in 0..16u8 {
            if count <= 8 || at % 4 < 3 && at.saturating_add(1) < count {
                break;
            }
            if count.saturating_sub(at - at % 4) > 1 {
                self.add(")");
            }
            at = at / 4;
            count = count.div_ceil(4);
        }
        if count > 1 && count <= 8 && at.saturating_add(1) == count {
            self.add(")");
        }
    }

    /// Adds how the part at this place of so many is read of the tuple of them, as `.2`, or `.1.0` where they stand in
    /// groups. A lone one is read as it is.
    pub fn add_selector(&mut self, at: usize, count: usize) {
        for level in (0..16u8).rev() {
            if let Some(place) = place_in_group(at, count, level) {
                self.add(".");
                self.add_number(place as u64);
            }
        }
    }
}

/// Where a part stands in its group, or at a higher level where that group stands in its own. The part is the one at
/// this place of so many. Nothing if it stands alone there, or if there is no such level.
fn place_in_group(at: usize, count: usize, level: u8) -> Option<usize> {
    let mut at = at;
    let mut count = count;
    for _ in 0..level {
        if count <= 8 {
            return None;
        }
        at = at / 4;
        count = count.div_ceil(4);
    }
    let place = if count > 8 { at % 4 } else { at };
    let is_alone = count.saturating_sub(at - place) <= 1;
    if is_alone { None } else { Some(place) }
}

/// The text of the token at this place, and `""` where there is none.
pub fn text_at<'t>(tokens: &[Token<'t>], at: usize) -> &'t str {
    match tokens.get(at) {
        Some(token) => token.text,
        None => "",
    }
}

/// The text of the token before this place, and `""` where there is none.
pub fn text_before<'t>(tokens: &[Token<'t>], at: usize) -> &'t str {
    if at > 0 {
        text_at(tokens, at.saturating_sub(1))
    } else {
        ""
    }
}

/// Whether a space stands between two tokens of a type.
fn is_apart(before: &str, next: &str) -> bool {
    if is_listed(next, "+ = ->") || is_listed(before, "; + = : ->") {
        true
    } else if before == "," {
        !is_listed(next, ") >")
    } else if is_listed(next, "[ ( &") {
        before.starts_with('\'')
    } else {
        is_name(before) && is_name(next)
    }
}

/// Whether a token is a word or a lifetime.
fn is_name(token: &str) -> bool {
    is_word(token) || token.starts_with('\'')
}

/// Whether a list begins behind a character.
fn opens_list(c: char) -> bool {
    matches!(c, '<' | '(' | '[' | '{' | ':')
}
