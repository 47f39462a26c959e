//! The attributes and notes above a type, such as `// bincode: with Described, Writable`.

use crate::cursor::Cursor;
use crate::error::{NEVER_ADDED, NEVER_LEFT_OUT, NO_NUMBER, UNKNOWN_NOTE};
use crate::tokens::{NOTE, Place, Token, is_listed};

/// Which traits a note names.
#[derive(Clone, Copy)]
pub struct Traits {
    pub plain: bool,
    pub exact: bool,
    pub canonical: bool,
    pub writable: bool,
    pub inhabited: bool,
    pub constant_charge: bool,
    pub described: bool,
    pub borrow_decode: bool,
}

impl Traits {
    fn new() -> Traits {
        Traits {
            plain: false,
            exact: false,
            canonical: false,
            writable: false,
            inhabited: false,
            constant_charge: false,
            described: false,
            borrow_decode: false,
        }
    }

    /// Adds the trait of this name. `false` if notes speak of none that is called so.
    fn add(&mut self, name: &str) -> bool {
        match name {
            "Plain" => self.plain = true,
            "Exact" => self.exact = true,
            "Canonical" => self.canonical = true,
            "Writable" => self.writable = true,
            "Inhabited" => self.inhabited = true,
            "ConstantCharge" => self.constant_charge = true,
            "Described" => self.described = true,
            "BorrowDecode" => self.borrow_decode = true,
            _ => return false,
        }
        true
    }
}

/// The laws that are written where a type keeps them, which a note can only leave out. The other traits are written
/// where a note asks for them.
const KEPT_LAWS: &str = "Plain Exact Canonical";

/// What stands above a type.
#[derive(Clone, Copy)]
pub struct Marks {
    /// It derives `Drop` or `Copy`.
    pub is_droppable: bool,
    /// It derives `PartialEq`.
    pub is_comparable: bool,
    /// Nothing is written for it.
    pub is_skipped: bool,
    /// What a container claims for a value.
    pub claim: Option<u32>,
    /// What is written beside what each type has.
    pub with: Traits,
    /// What is left out.
    pub without: Traits,
}

impl Marks {
    pub fn new() -> Marks {
        Marks {
            is_droppable: false,
            is_comparable: false,
            is_skipped: false,
            claim: None,
            with: Traits::new(),
            without: Traits::new(),
        }
    }

    /// Adds a trait that the type derives.
    pub fn add_derived(&mut self, name: &str) {
        match name {
            "Drop" | "Copy" => self.is_droppable = true,
            "PartialEq" => self.is_comparable = true,
            _ => {}
        }
    }

    /// Adds what a token says, if it is a note.
    pub fn add_note<'t>(&mut self, cursor: &mut Cursor<'t>, token: Token<'t>) {
        let Some(words) = token.text.strip_prefix(NOTE) else {
            return;
        };
        let mut verb = Verb::Nothing;
        for word in words.split_whitespace() {
            let word = word.trim_end_matches(',');
            match verb_named(word) {
                Some(next) => verb = next,
                None => self.add_word(cursor, token.place, verb, word),
            }
        }
    }

    /// Adds a word that stands after a verb, or `skip`.
    fn add_word<'t>(&mut self, cursor: &mut Cursor<'t>, place: Place, verb: Verb, word: &'t str) {
        let is_known = match verb {
            _ if word == "skip" => {
                self.is_skipped = true;
                true
            }
            Verb::Claims => {
                self.claim = Some(number_of(cursor, place, word));
                true
            }
            Verb::With => self.with.add(word),
            Verb::Without => self.without.add(word),
            Verb::Nothing => false,
        };
        if !is_known {
            cursor.refuse(place, UNKNOWN_NOTE, word);
        }
        refuse_vain(cursor, place, verb, word);
    }
}

/// Refuses a word behind a verb that has no effect on it.
fn refuse_vain<'t>(cursor: &mut Cursor<'t>, place: Place, verb: Verb, word: &'t str) {
    let is_law = is_listed(word, KEPT_LAWS);
    match verb {
        Verb::With if is_law => cursor.refuse(place, NEVER_ADDED, word),
        Verb::Without if !is_law && word != "skip" => {
            cursor.refuse(place, NEVER_LEFT_OUT, word);
        }
        _ => {}
    }
}

/// What the words of a note after it say.
#[derive(Clone, Copy)]
enum Verb {
    Nothing,
    With,
    Without,
    Claims,
}

/// The verb of this name, if it is one.
fn verb_named(word: &str) -> Option<Verb> {
    match word {
        "with" => Some(Verb::With),
        "without" => Some(Verb::Without),
        "claims" => Some(Verb::Claims),
        _ => None,
    }
}

/// The number that a word spells.
pub fn number_of<'t>(cursor: &mut Cursor<'t>, place: Place, word: &'t str) -> u32 {
    match word.parse::<u32>() {
        Ok(number) => number,
        Err(_) => {
            cursor.refuse(place, NO_NUMBER, word);
            0
        }
    }
}

/// The tag in a note above a variant, as `// bincode: tag 300`.
pub fn tag_of<'t>(cursor: &mut Cursor<'t>, token: Token<'t>) -> Option<u32> {
    let words = token.text.strip_prefix(NOTE)?;
    let mut words = words.split_whitespace();
    match (words.next(), words.next(), words.next()) {
        (Some("tag"), Some(word), None) => Some(number_of(cursor, token.place, word)),
        _ => {
            cursor.refuse(token.place, UNKNOWN_NOTE, token.text);
            None
        }
    }
}
