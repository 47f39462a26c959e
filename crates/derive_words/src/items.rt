//! The structs and enums of a source.

use crate::laws::{Keeps, is_among};
use crate::notes::Marks;
use crate::text::{text_at, text_before};
use crate::tokens::{Place, Token, is_listed};

/// A field: its name, which it has none of in a tuple, and its type.
#[derive(Clone, Copy)]
pub struct Field<'t> {
    pub name: Option<&'t str>,
    pub of: &'t [Token<'t>],
}

/// Whether a word stands in the types of some fields.
pub fn say(fields: &[Field<'_>], word: &str) -> bool {
    for field in fields.iter() {
        if is_among(field.of, word) {
            return true;
        }
    }
    false
}

/// What stands around the fields of a struct or of a variant.
#[derive(Clone, Copy)]
pub enum Brackets {
    /// Nothing: it has no fields.
    Missing,
    /// `(` and `)`, around fields without names.
    Round,
    /// `{` and `}`, around fields with names.
    Curly,
}

/// A variant. Its tag is its place, counted from 0, unless a note above it gives another. A struct has one, of its own
/// name.
#[derive(Clone, Copy)]
pub struct Variant<'t> {
    pub name: Token<'t>,
    pub tag: u32,
    pub brackets: Brackets,
    /// Where its fields begin and end among those of its type.
    pub start: usize,
    pub end: usize,
}

/// A type parameter, and the bounds that stand after its colon.
#[derive(Clone, Copy)]
pub struct Param<'t> {
    pub name: &'t str,
    pub place: Place,
    pub bounds: &'t [Token<'t>],
}

/// What a `where` says of a type: the type, a colon, and its bounds.
#[derive(Clone, Copy)]
pub struct Predicate<'t> {
    pub tokens: &'t [Token<'t>],
}

impl<'t> Predicate<'t> {
    /// The type that it speaks of, if that is one word, and else `""`.
    pub fn subject(&self) -> &'t str {
        if text_at(self.tokens, 1) == ":" {
            text_at(self.tokens, 0)
        } else {
            ""
        }
    }

    /// The bounds of this type parameter, and nothing if it speaks of another type.
    pub fn bounds_of(&self, param: &str) -> &'t [Token<'t>] {
        if self.subject() == param {
            self.tokens.get(2..).unwrap_or(&[])
        } else {
            &[]
        }
    }
}

/// A struct or an enum.
#[derive(Drop)]
pub struct Item<'t> {
    pub name: Token<'t>,
    pub is_enum: bool,
    /// What stands above it.
    pub marks: Marks,
    /// Its first lifetime, and `""` if it has none.
    pub lifetime: &'t str,
    pub has_two_lifetimes: bool,
    /// Its type parameters.
    pub params: Vec<Param<'t>>,
    /// What its `where` says.
    pub wheres: Vec<Predicate<'t>>,
    pub variants: Vec<Variant<'t>>,
    /// The fields of its variants, one after the other.
    pub fields: Vec<Field<'t>>,
    /// The names and marks in the types of its fields that are those of the source or the library.
    pub names: Vec<Token<'t>>,
    /// What is written for it beside its words.
    pub keeps: Keeps,
}

impl<'t> Item<'t> {
    /// Whether it holds bytes of what it is decoded from.
    pub fn is_borrowing(&self) -> bool {
        !self.lifetime.is_empty()
    }

    /// Whether it has a type parameter.
    pub fn is_generic(&self) -> bool {
        !self.params.is_empty()
    }

    /// Whether this is one of its type parameters.
    pub fn has_param(&self, word: &str) -> bool {
        for param in self.params.iter() {
            if param.name == word {
                return true;
            }
        }
        false
    }

    /// Whether this is one of its parameters. `""` is none.
    pub fn is_param(&self, word: &str) -> bool {
        self.has_param(word) || self.is_borrowing() && self.lifetime == word
    }

    /// Whether this is its name or that of a parameter, or stands in the type of a field.
    pub fn says(&self, word: &str) -> bool {
        self.name.text == word || self.has_param(word) || say(self.fields.as_slice(), word)
    }

    /// The fields of one of its variants.
    pub fn fields_of(&self, variant: &Variant<'_>) -> &[Field<'t>] {
        let fields = self.fields.as_slice();
        fields.get(variant.start..variant.end).unwrap_or_default()
    }
}

/// Whether the names after this, at the front of a path, are those of the library or of the source.
pub fn is_known(front: &str) -> bool {
    is_listed(front, "self std core alloc bincode")
}

/// What stands in a source.
#[derive(Drop)]
pub struct Source<'t> {
    pub items: Vec<Item<'t>>,
    /// The types that have an `impl` of `Drop` or `Copy`.
    pub droppable: Vec<&'t str>,
    /// The types that have an `impl` of `PartialEq`.
    pub comparable: Vec<&'t str>,
    /// The names that it imports from the standard library.
    pub std_names: Vec<&'t str>,
}

impl Source<'_> {
    /// Whether it has a type of this name.
    pub fn has_type(&self, name: &str) -> bool {
        for item in self.items.iter() {
            if item.name.text == name {
                return true;
            }
        }
        false
    }

    /// Whether the path that ends at this place of a type leads to one of its own.
    pub fn is_own(&self, of: &[Token<'_>], at: usize) -> bool {
        let name = text_at(of, at);
        let first = path_start(of, at);
        (first == name || first == "self") && self.has_type(name)
    }

    /// Whether the path that ends at this place of a type leads into the standard library.
    pub fn is_of_std(&self, of: &[Token<'_>], at: usize) -> bool {
        let first = path_start(of, at);
        is_listed(first, "std core alloc") || self.std_names.as_slice().contains(&first)
    }

    /// Whether a type is `Drop` or `Copy`, by a derive or an `impl`.
    pub fn is_droppable(&self, item: &Item<'_>) -> bool {
        item.marks.is_droppable || self.droppable.as_slice().contains(&item.name.text)
    }

    /// Whether a type is `PartialEq`, by a derive or an `impl`.
    pub fn is_comparable(&self, item: &Item<'_>) -> bool {
        item.marks.is_comparable || self.comparable.as_slice().contains(&item.name.text)
    }
}

/// The first word of the path that ends at this place.
fn path_start<'t>(of: &[Token<'t>], at: usize) -> &'t str {
    let mut at = at;
    for _ in 0..of.len() {
        if at < 2 || text_before(of, at) != "::" {
            break;
        }
        at = at.saturating_sub(2);
    }
    text_at(of, at)
}
