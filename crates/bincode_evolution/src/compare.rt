//! The comparison of an old shape with a new one, part by part.
ghost use Rattle.std.specs.Prelude.{◌≡◌, ◌||◌, ◌==◌, ◌<◌, not, true, length, drop};
ghost use Rattle.std.specs.List.{list_all};
ghost use Rattle.bincode_evolution.specs.Rules.{has_words, is_read, is_list, is_optional, is_option_of, has_parts};
ghost use Rattle.bincode_evolution.specs.Rules.{has_variants, each_read, reads_each, variants_read};
ghost use Rattle.bincode_evolution.specs.Lists.{any_has_words, part_of, parts_in_list, is_array_read, is_variant_read};

use crate::scalars::{is_nothing, is_variable, keeps, signed_width, unsigned_width};
use crate::words::{do_all_have_words, does_have_words, does_some_have_words};
use bincode_base::config::IntEncoding;
use bincode_shape::shape::Shape;

/// What a comparison tells of an old shape.
#[derive(Clone, Copy)]
pub(crate) struct Comparison {
    /// Whether the old shape has words.
    pub(crate) has_words: bool,
    /// Whether the new shape reads all of them.
    pub(crate) is_read: bool,
}

/// An old shape that has words.
fn with_words(is_read: bool) -> Comparison
    ensures has_words { result.has_words ≡ true }
    ensures is_read { result.is_read ≡ is_read }
{
    Comparison {
        has_words: true,
        is_read,
    }
}

/// An old shape of which the new one reads no word, so that it reads all of them only if there are none.
fn unread(has_words: bool) -> Comparison
    ensures has_words { result.has_words ≡ has_words }
    ensures is_read { result.is_read ≡ not has_words }
{
    Comparison {
        has_words,
        is_read: !has_words,
    }
}

/// Compares the old shape with the new one. Recurses as deep as the old shape.
#[cycle(compare)]
pub(crate) fn compare(new: &Shape, old: &Shape, encoding: IntEncoding) -> Comparison
    ensures has_words { result.has_words ≡ has_words old.now }
    ensures is_read { result.is_read ≡ is_read encoding old.now new.now }
{
    match old {
        Shape::Unit => with_words(is_nothing(new)),
        Shape::Bool => with_words(matches!(new, Shape::Bool)),
        Shape::Char => with_words(matches!(new, Shape::Char)),
        Shape::Text => with_words(matches!(new, Shape::Text)),
        Shape::U8 => with_words(matches!(new, Shape::U8)),
        Shape::U16 => with_words(keeps(encoding, 2, unsigned_width(new))),
        Shape::U32 => with_words(keeps(encoding, 4, unsigned_width(new))),
        Shape::U64 | Shape::Usize => with_words(keeps(encoding, 8, unsigned_width(new))),
        Shape::U128 => with_words(keeps(encoding, 16, unsigned_width(new))),
        Shape::I8 => with_words(matches!(new, Shape::I8)),
        Shape::I16 => with_words(keeps(encoding, 2, signed_width(new))),
        Shape::I32 => with_words(keeps(encoding, 4, signed_width(new))),
        Shape::I64 | Shape::Isize => with_words(keeps(encoding, 8, signed_width(new))),
        Shape::I128 => with_words(keeps(encoding, 16, signed_width(new))),
        Shape::Seq { claim: _, element } => with_words(is_list_read(new, element, encoding)),
        Shape::Array {
            len,
            claim: _,
            element,
        } => compare_array(new, *len, element, encoding),
        Shape::Tuple(parts) => compare_tuple(new, parts, encoding),
        Shape::Optional(part) => with_words(is_optional_read(new, part, encoding)),
        Shape::Choice(parts) => compare_choice(new, parts, encoding),
    }
}

/// Whether the new shape is a list, whose elements read the old ones.
#[cycle(compare)]
fn is_list_read(new: &Shape, element: &Shape, encoding: IntEncoding) -> bool
    ensures { result ≡ is_list (is_read encoding element.now) new.now }
{
    match new {
        Shape::Seq {
            claim: _,
            element: newer,
        } => compare(newer, element, encoding).is_read,
        _ => false,
    }
}

/// Compares an array. The lengths are compared before the elements.
#[cycle(compare)]
fn compare_array(new: &Shape, len: usize, element: &Shape, encoding: IntEncoding) -> Comparison
    ensures has_words { result.has_words ≡ ((len == 0) || has_words element.now) }
    ensures is_read { result.is_read ≡ is_array_read encoding len element.now new.now }
{
    if len == 0 {
        return with_words(is_nothing(new));
    }
    match new {
        Shape::Array {
            len: newer_len,
            claim: _,
            element: newer,
        } => {
            if *newer_len == len {
                compare(newer, element, encoding)
            } else {
                unread(does_have_words(element))
            }
        }
        Shape::Tuple(parts) => {
            if parts.len() == len {
                compare_element(parts, element, encoding)
            } else {
                unread(does_have_words(element))
            }
        }
        _ => unread(does_have_words(element)),
    }
}

/// Compares the element of an array with each of the new shapes, of which there are some.
#[cycle(compare)]
fn compare_element(newer: &[Shape], element: &Shape, encoding: IntEncoding) -> Comparison
    requires { 0 < length newer.now }
    ensures has_words { result.has_words ≡ has_words element.now }
    ensures is_read { result.is_read ≡ (list_all (is_read encoding element.now) newer.now
        || not (has_words element.now)) }
{
    for new in newer {
        let compared = compare(new, element, encoding);
        if !compared.has_words {
            return unread(false);
        }
        if !compared.is_read {
            return with_words(false);
        }
    }
    with_words(true)
}

/// Compares a tuple.
#[cycle(compare)]
fn compare_tuple(new: &Shape, parts: &[Shape], encoding: IntEncoding) -> Comparison
    ensures has_words { result.has_words ≡ list_all has_words parts.now }
    ensures is_read { result.is_read ≡ (has_parts (parts_in_list encoding parts.now) new.now
        || not (list_all has_words parts.now)) }
{
    match new {
        Shape::Unit => {
            if parts.is_empty() {
                with_words(true)
            } else {
                unread(do_all_have_words(parts))
            }
        }
        Shape::Array {
            len,
            claim: _,
            element,
        } => {
            if *len == parts.len() {
                compare_with_element(element, parts, encoding)
            } else {
                unread(do_all_have_words(parts))
            }
        }
        Shape::Tuple(newer) => {
            if newer.len() == parts.len() {
                compare_parts(newer, parts, encoding)
            } else {
                unread(do_all_have_words(parts))
            }
        }
        _ => unread(do_all_have_words(parts)),
    }
}

/// Compares each part with the element of an array.
#[cycle(compare)]
fn compare_with_element(element: &Shape, parts: &[Shape], encoding: IntEncoding) -> Comparison
    ensures has_words { result.has_words ≡ list_all has_words parts.now }
    ensures is_read { result.is_read ≡ (reads_each element.now (parts_in_list encoding parts.now)
        || not (list_all has_words parts.now)) }
{
    let mut is_read = true;
    for part in parts {
        let compared = compare(element, part, encoding);
        if !compared.has_words {
            return unread(false);
        }
        is_read = is_read && compared.is_read;
    }
    with_words(is_read)
}

/// Compares each part with the new one of its place.
#[cycle(compare)]
fn compare_parts(newer: &[Shape], parts: &[Shape], encoding: IntEncoding) -> Comparison
    requires { length newer.now ≡ length parts.now }
    ensures has_words { result.has_words ≡ list_all has_words parts.now }
    ensures is_read { result.is_read ≡ (each_read (parts_in_list encoding parts.now) newer.now
        || not (list_all has_words parts.now)) }
{
    let mut is_read = true;
    for index in 0..parts.len() {
        let compared = compare(&newer[index], &parts[index], encoding);
        if !compared.has_words {
            return unread(false);
        }
        is_read = is_read && compared.is_read;
    }
    with_words(is_read)
}

/// Whether the new shape is an option of what reads the old part, or such an enum.
#[cycle(compare)]
fn is_optional_read(new: &Shape, part: &Shape, encoding: IntEncoding) -> bool
    ensures { result ≡ is_optional encoding (part_of encoding part.now) new.now }
{
    match new {
        Shape::Optional(newer) => compare(newer, part, encoding).is_read,
        Shape::Choice(variants) => is_variable(encoding)
            && is_option_read(variants, part, encoding),
        _ => false,
    }
}

/// Whether the first variant is nothing, and the second one reads the part. Without words of the part no second one
/// is needed.
#[cycle(compare)]
fn is_option_read(variants: &[Shape], part: &Shape, encoding: IntEncoding) -> bool
    ensures { result ≡ is_option_of (part_of encoding part.now) variants.now }
{
    if variants.is_empty() || !is_nothing(&variants[0]) {
        return false;
    }
    if variants.len() == 1 {
        return !does_have_words(part);
    }
    compare(&variants[1], part, encoding).is_read
}

/// Compares an enum.
#[cycle(compare)]
fn compare_choice(new: &Shape, parts: &[Shape], encoding: IntEncoding) -> Comparison
    ensures has_words { result.has_words ≡ any_has_words parts.now }
    ensures is_read { result.is_read ≡ (has_variants (parts_in_list encoding parts.now) new.now
        || not (any_has_words parts.now)) }
{
    match new {
        Shape::Choice(newer) => compare_variants(newer, parts, encoding),
        _ => unread(does_some_have_words(parts)),
    }
}

/// Compares each variant with the new one of its place.
#[cycle(compare)]
fn compare_variants(newer: &[Shape], parts: &[Shape], encoding: IntEncoding) -> Comparison
    ensures has_words { result.has_words ≡ any_has_words parts.now }
    ensures is_read { result.is_read ≡ (variants_read (parts_in_list encoding parts.now) newer.now
        || not (any_has_words parts.now)) }
{
    let mut has_words = false;
    let mut is_read = true;
    for index in 0..parts.len() {
        let compared = compare_variant(newer, index, &parts[index], encoding);
        has_words = has_words || compared.has_words;
        is_read = is_read && compared.is_read;
    }
    Comparison {
        has_words,
        is_read: is_read || !has_words,
    }
}

/// Compares a variant with the new one of that place, if there is one.
#[cycle(compare)]
fn compare_variant(newer: &[Shape], index: usize, part: &Shape, encoding: IntEncoding) -> Comparison
    ensures has_words { result.has_words ≡ has_words part.now }
    ensures is_read { result.is_read ≡ is_variant_read (part_of encoding part.now) (drop index newer.now) }
{
    match newer.get(index) {
        Some(new) => compare(new, part, encoding),
        None => unread(does_have_words(part)),
    }
}
