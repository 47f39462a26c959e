//! What is refused of a type that was read.

use crate::error::{
    FLOAT_KEY, GENERIC_ENUM, HOLDS_ITSELF, NO_SHAPE, NOT_DESCRIBED, NOT_DROPPABLE, Refusal,
    SAME_PART, TAKEN_NAME, TWO_LIFETIMES,
};
use crate::facts::is_in_order;
use crate::heads::is_by_variants;
use crate::items::{Item, Source, Variant};
use crate::laws::{float_key_in, is_among};
use crate::names::is_own_name;
use crate::parts::lone_param;
use crate::text::text_at;
use crate::tokens::{Place, Token, is_listed};
use crate::uses::is_used;
use std::alloc::{AllocError, Global};

/// What is refused of a type, if it can't be written. `holds_itself` says that it holds itself.
pub fn refusal_of<'t>(
    source: &Source<'t>,
    item: &Item<'t>,
    holds_itself: bool,
) -> Option<Refusal<'t>> {
    refused_name(source, item)
        .or(refused_part(source, item))
        .or(refused_type(source, item))
        .or(refused_params(item))
        .or(refused_tag(item.variants.as_slice()))
        .or(refused_whole(source, item, holds_itself))
}

/// What is said of a type by its name.
fn said_of<'t>(item: &Item<'t>, says: &'static str) -> Option<Refusal<'t>> {
    Some(Refusal::new(item.name.place, says, item.name.text))
}

/// The first name of a type, its parameters or its fields that is written with another meaning.
fn refused_name<'t>(source: &Source<'t>, item: &Item<'t>) -> Option<Refusal<'t>> {
    if is_taken(source, item, item.name.text) {
        return taken(item.name.place, item.name.text);
    }
    for param in item.params.iter() {
        if is_taken(source, item, param.name) {
            return taken(param.place, param.name);
        }
    }
    for word in item.names.iter() {
        if is_taken(source, item, word.text) {
            return taken(word.place, word.text);
        }
    }
    None
}

/// The refusal of a name.
fn taken(place: Place, name: &str) -> Option<Refusal<'_>> {
    Some(Refusal::new(place, TAKEN_NAME, name))
}

/// Whether a name is written with another meaning for this type.
fn is_taken(source: &Source<'_>, item: &Item<'_>, name: &str) -> bool {
    name == "Words"
        || is_own_name(item, name)
        || is_used(name)
        || is_listed(name, PRELUDE) && (source.has_type(name) || item.has_param(name))
        || is_alias(source, name)
}

/// The names of the standard library that are written, which a type of the source would hide.
const PRELUDE: &str = "Drop Global Option Result";

/// Whether a name is written for the parts of a type of the source, or for those of a variant.
fn is_alias(source: &Source<'_>, name: &str) -> bool {
    if let Some(of) = name.strip_suffix("Parts") {
        return is_written(source, of);
    }
    match name.strip_suffix("Part") {
        Some(of) => is_part(source, of),
        None => false,
    }
}

/// Whether a type of this name is written.
fn is_written(source: &Source<'_>, name: &str) -> bool {
    for item in source.items.iter() {
        if !item.marks.is_skipped && item.name.text == name {
            return true;
        }
    }
    false
}

/// Whether a name is written for the part of a variant of an enum, where this stands before `Part`.
fn is_part(source: &Source<'_>, name: &str) -> bool {
    for item in source.items.iter() {
        if let Some(variant) = name.strip_prefix(item.name.text)
            && has_part(item, variant)
        {
            return true;
        }
    }
    false
}

/// Whether a name is written for the part of this variant of a type.
fn has_part(item: &Item<'_>, name: &str) -> bool {
    for variant in item.variants.iter() {
        if variant.name.text == name && has_own_part(item, variant) {
            return true;
        }
    }
    false
}

/// Whether a name is written for the part of a variant.
fn has_own_part(item: &Item<'_>, variant: &Variant<'_>) -> bool {
    is_by_variants(item) && lone_param(item, item.fields_of(variant)).is_none()
}

/// Refuses a variant whose part would be named as that of another enum.
fn refused_part<'t>(source: &Source<'t>, item: &Item<'t>) -> Option<Refusal<'t>> {
    for variant in item.variants.iter() {
        let name = variant.name;
        if has_own_part(item, variant) && is_part_of_longer(source, item.name.text, name.text) {
            return Some(Refusal::new(name.place, SAME_PART, name.text));
        }
    }
    None
}

/// Whether the part of this variant is named as one of another enum, whose name begins with that of its own.
fn is_part_of_longer(source: &Source<'_>, name: &str, variant: &str) -> bool {
    for other in source.items.iter() {
        if let Some(rest) = other.name.text.strip_prefix(name)
            && !rest.is_empty()
            && let Some(end) = variant.strip_prefix(rest)
            && has_part(other, end)
        {
            return true;
        }
    }
    false
}

/// What the library has no words for in the types of the fields.
fn refused_type<'t>(source: &Source<'t>, item: &Item<'t>) -> Option<Refusal<'t>> {
    for field in item.fields.iter() {
        let refusal = refused_in(source, field.of, item.is_borrowing()).or(refused_key(field.of));
        if refusal.is_some() {
            return refusal;
        }
    }
    None
}

/// Refuses a float as the key of a set or a map.
fn refused_key<'t>(of: &[Token<'t>]) -> Option<Refusal<'t>> {
    let float = float_key_in(of)?;
    Some(Refusal::new(float.place, FLOAT_KEY, float.text))
}

/// What the library has no words for in a type.
fn refused_in<'t>(
    source: &Source<'t>,
    of: &'t [Token<'t>],
    is_borrowing: bool,
) -> Option<Refusal<'t>> {
    for (at, token) in of.iter().enumerate() {
        let instead = if token.text == "&" {
            instead_of_reference(of, at, is_borrowing)
        } else if source.is_own(of, at) {
            ""
        } else if is_listed(token.text, "Duration CString") && source.is_of_std(of, at) {
            instead_of_std(token.text)
        } else {
            instead_of(token.text)
        };
        if !instead.is_empty() {
            return Some(Refusal::no_words(token.place, token.text, instead));
        }
    }
    None
}

/// What to hold in place of this type of the standard library.
fn instead_of_std(name: &str) -> &'static str {
    match name {
        "Duration" => "hold a `bincode::time::Duration` in place of that of `std`",
        _ => "hold a `bincode::ffi::CString` in place of that of `std`",
    }
}

/// What to hold in place of the reference at this place, and `""` if it is decoded.
fn instead_of_reference(of: &[Token<'_>], at: usize, is_borrowing: bool) -> &'static str {
    if !is_borrowing {
        return "hold the value, or give the type a lifetime";
    }
    let next = at.saturating_add(1);
    let next = if text_at(of, next).starts_with('\'') {
        next.saturating_add(1)
    } else {
        next
    };
    if text_at(of, next) == "str" || is_bytes(of, next) {
        ""
    } else {
        "only `&str` and `&[u8]` are read by borrowing: hold the value, or a `Vec`"
    }
}

/// Whether `[u8]` stands at this place.
fn is_bytes(of: &[Token<'_>], at: usize) -> bool {
    text_at(of, at) == "["
        && text_at(of, at.saturating_add(1)) == "u8"
        && text_at(of, at.saturating_add(2)) == "]"
}

/// What the library has no words for, line by line, each with what to hold in place of it.
const NO_WORDS_FOR: &str = "\
*: hold the value
Self: hold items in a `Vec`, and name them by index
CStr: hold a `CString`
Instant SystemTime: hold a `Duration` or a number
Weak: hold a number that names the value
Mutex RwLock OnceLock: hold the value, and lock the whole
LinkedList: hold a `Vec` or a `VecDeque`
dyn fn: hold a value of a type with a name";

/// What to hold in place of this, and `""` if the library may have words for it.
fn instead_of(name: &str) -> &'static str {
    for line in NO_WORDS_FOR.lines() {
        if let Some((names, instead)) = line.split_once(": ")
            && is_listed(name, names)
        {
            return instead;
        }
    }
    ""
}

/// Refuses a second lifetime, and a type parameter of an enum.
fn refused_params<'t>(item: &Item<'t>) -> Option<Refusal<'t>> {
    if item.has_two_lifetimes {
        return said_of(item, TWO_LIFETIMES);
    }
    if item.is_enum && item.is_generic() && (item.is_borrowing() || !is_by_variants(item)) {
        return said_of(item, GENERIC_ENUM);
    }
    None
}

/// Refuses the tag of a variant that one before has too.
fn refused_tag<'t>(variants: &[Variant<'t>]) -> Option<Refusal<'t>> {
    for (at, variant) in variants.iter().enumerate() {
        if has_tag(variants, at, variant.tag) {
            let name = variant.name;
            return Some(Refusal::same_tag(name.place, name.text, variant.tag));
        }
    }
    None
}

/// Whether one of the first variants, of which there are so many, has this tag.
fn has_tag(variants: &[Variant<'_>], count: usize, tag: u32) -> bool {
    for variant in variants.iter().take(count) {
        if variant.tag == tag {
            return true;
        }
    }
    false
}

/// Refuses a described enum of more than eight variants, or with tags that are not 0, 1 and so on, a type that may not
/// be let go, and one that holds itself.
fn refused_whole<'t>(
    source: &Source<'t>,
    item: &Item<'t>,
    holds_itself: bool,
) -> Option<Refusal<'t>> {
    if item.marks.with.described && !may_be_described(item) {
        said_of(item, NOT_DESCRIBED)
    } else if item.marks.with.described && (item.says("f32") || item.says("f64")) {
        said_of(item, NO_SHAPE)
    } else if !source.is_droppable(item) {
        said_of(item, NOT_DROPPABLE)
    } else if holds_itself {
        said_of(item, HOLDS_ITSELF)
    } else {
        None
    }
}

/// Whether a type is described where a note asks for it.
fn may_be_described(item: &Item<'_>) -> bool {
    let variants = item.variants.as_slice();
    (variants.len() <= 8 || is_by_variants(item)) && is_in_order(variants)
}

/// Whether a type holds itself, also by others of its source.
pub fn holds_itself<'t>(
    alloc: Global,
    source: &Source<'t>,
    item: &Item<'t>,
) -> Result<bool, AllocError> {
    let mut held = Vec::new(alloc);
    add_new(&mut held, item.names.as_slice())?;
    for _ in 0..source.items.len() {
        add_held(&mut held, source)?;
    }
    Ok(is_among(held.as_slice(), item.name.text))
}

/// Adds the words in the types of a source that are among these.
fn add_held<'t>(held: &mut Vec<Token<'t>>, source: &Source<'t>) -> Result<(), AllocError> {
    for item in source.items.iter() {
        if is_among(held.as_slice(), item.name.text) {
            add_new(held, item.names.as_slice())?;
        }
    }
    Ok(())
}

/// Adds those of some words that are not there yet.
fn add_new<'t>(held: &mut Vec<Token<'t>>, words: &[Token<'t>]) -> Result<(), AllocError> {
    for word in words.iter() {
        if !is_among(held.as_slice(), word.text) {
            held.push(*word)?;
        }
    }
    Ok(())
}
