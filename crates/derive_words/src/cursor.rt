//! What remains of some tokens while they are read one after another.

use crate::error::{Fault, MISSING, NO_MARK, Refusal, UNCLOSED};
use crate::text::text_at;
use crate::tokens::{Place, Token, is_listed, is_word};
use std::alloc::{AllocError, Global};

/// Some tokens, and how many of them were taken. Once something is refused, or memory is, no token is left, and
/// `finish` says why.
#[derive(Drop)]
pub struct Cursor<'t> {
    tokens: &'t [Token<'t>],
    taken: usize,
    /// Where the last token stands.
    last: Place,
    /// What was refused first.
    refusal: Option<Refusal<'t>>,
    /// Memory was never refused.
    is_whole: bool,
}

impl<'t> Cursor<'t> {
    pub fn new(tokens: &'t [Token<'t>]) -> Cursor<'t> {
        let last = match tokens.last() {
            Some(token) => token.place,
            None => Place { line: 1, column: 1 },
        };
        Cursor {
            tokens,
            taken: 0,
            last,
            refusal: None,
            is_whole: true,
        }
    }

    /// The token that comes next. At the end one without text, where the last one stands.
    pub fn token(&self) -> Token<'t> {
        let tokens = self.tokens;
        match tokens.get(self.taken) {
            Some(token) => *token,
            None => Token {
                text: "",
                place: self.last,
            },
        }
    }

    /// The text of the token that comes next, and `""` at the end.
    pub fn text(&self) -> &'t str {
        self.token().text
    }

    /// The text of the token that stands so many behind the one that comes next, and `""` where there is none.
    pub fn text_ahead(&self, count: usize) -> &'t str {
        text_at(self.tokens, self.taken.saturating_add(count))
    }

    /// Takes the token that comes next.
    pub fn take(&mut self) -> Token<'t> {
        let token = self.token();
        self.taken = self.taken.saturating_add(1);
        token
    }

    /// Takes this token, if it comes next.
    pub fn takes(&mut self, text: &str) -> bool {
        let is_next = self.text() == text;
        if is_next {
            self.taken = self.taken.saturating_add(1);
        }
        is_next
    }

    /// Takes this token, if it comes next. `true` also where something was refused.
    pub fn ends(&mut self, text: &str) -> bool {
        self.takes(text) || self.refusal.is_some() || !self.is_whole
    }

    /// Takes the name that comes next.
    pub fn name(&mut self) -> Token<'t> {
        let token = self.take();
        if !is_word(token.text) {
            self.refuse(token.place, MISSING, "a name");
        }
        token
    }

    /// Takes this mark, which has to come next.
    pub fn mark(&mut self, mark: &'t str) {
        let place = self.token().place;
        if !self.takes(mark) {
            self.refuse(place, NO_MARK, mark);
        }
    }

    /// Refuses something: this is said of a word at this place.
    pub fn refuse(&mut self, place: Place, says: &'static str, word: &'t str) {
        self.end_with(Refusal::new(place, says, word));
    }

    /// Refuses something, as this says.
    pub fn end_with(&mut self, refusal: Refusal<'t>) {
        if self.refusal.is_none() {
            self.refusal = Some(refusal);
        }
        self.taken = self.tokens.len();
    }

    /// Adds an item to a list.
    pub fn push<T: Drop>(&mut self, list: &mut Vec<T>, item: T) {
        if list.push(item).is_err() {
            self.is_whole = false;
            self.taken = self.tokens.len();
        }
    }

    /// Fails where something was refused.
    pub fn finish(&self, alloc: Global) -> Result<(), Fault> {
        if !self.is_whole {
            return Err(Fault::Memory(AllocError));
        }
        match self.refusal {
            Some(refusal) => Err(refusal.fault(alloc)?),
            None => Ok(()),
        }
    }

    /// Takes what is left of a bracket that was opened at this place, up to what closes it.
    pub fn skip_group(&mut self, opened: Place) {
        let mut depth = 1u64;
        for _ in self.taken..self.tokens.len() {
            depth = depth_after(depth, self.take().text, "( [ {", ") ] }");
            if depth == 0 {
                return;
            }
        }
        self.refuse(opened, UNCLOSED, "");
    }

    /// Takes a bracket with all that it holds, if one comes next.
    pub fn skip_brackets(&mut self) {
        if is_opening(self.text()) {
            let opened = self.take().place;
            self.skip_group(opened);
        }
    }

    /// Takes the tokens of a type or of bounds: up to the first of these that stands in no brackets, or up to what
    /// closes more brackets than were opened.
    pub fn type_until(&mut self, ends: &[&str]) -> &'t [Token<'t>] {
        let tokens = self.tokens;
        let start = self.taken;
        let mut depth = 1u64;
        for _ in start..tokens.len() {
            let text = self.text();
            let after = depth_in_type(depth, text);
            if after == 0 || depth == 1 && (&*ends).contains(&text) {
                break;
            }
            depth = after;
            self.taken = self.taken.saturating_add(1);
        }
        tokens.get(start..self.taken).unwrap_or(&[])
    }
}

/// How many brackets are open after a token, where these open and close them.
fn depth_after(depth: u64, token: &str, opening: &str, closing: &str) -> u64 {
    if is_listed(token, opening) {
        depth.saturating_add(1)
    } else if is_listed(token, closing) {
        depth.saturating_sub(1)
    } else {
        depth
    }
}

/// How many brackets are open after a token of a type.
pub fn depth_in_type(depth: u64, token: &str) -> u64 {
    depth_after(depth, token, "( [ { <", ") ] } >")
}

/// Whether a token opens a bracket.
pub fn is_opening(token: &str) -> bool {
    is_listed(token, "( [ {")
}
