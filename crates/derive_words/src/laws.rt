//! Which laws a type keeps, by the names in the types of its fields.

use crate::cursor::depth_in_type;
use crate::items::{Field, Item, Source};
use crate::text::text_at;
use crate::tokens::{Token, is_listed};

/// What is written for a type beside its words.
#[derive(Clone, Copy)]
pub struct Keeps {
    pub plain: bool,
    pub exact: bool,
    pub canonical: bool,
    /// It owns what it holds, and is decoded by borrowing too, since a type that borrows holds it.
    pub is_lent: bool,
}

/// Finds what each type of a source keeps: what all that it holds does. A name that is neither the library's nor the
/// source's is taken to keep all: where it does not, the prover refuses the `impl`.
pub fn find_kept(source: &mut Source<'_>) {
    let count = source.items.len();
    // What one type lacks, those that hold it lack: as many rounds as there are types are enough, after a first one.
    for round in 0..=count {
        for at in 0..count {
            let keeps = keeps_at(source, at, round);
            if let Some(item) = source.items.get_mut(at) {
                item.keeps = keeps;
            }
        }
    }
}

/// What the type at this place keeps by its derives and its notes alone, and after the first round, if those that it
/// holds keep what they say.
fn keeps_at(source: &Source<'_>, at: usize, round: usize) -> Keeps {
    match source.items.get(at) {
        Some(item) if round == 0 => first_keeps(source, item),
        Some(item) => next_keeps(source, item),
        None => NOTHING,
    }
}

/// What a type keeps by its derives and its notes alone. Of one that is skipped no variant was read.
fn first_keeps(source: &Source<'_>, item: &Item<'_>) -> Keeps {
    let marks = item.marks;
    let has_values = marks.is_skipped || !item.variants.is_empty();
    Keeps {
        plain: !marks.without.plain,
        exact: has_values
            && source.is_comparable(item)
            && !marks.without.exact
            && !holds_float(item.fields.as_slice()),
        canonical: !marks.without.canonical,
        is_lent: marks.with.borrow_decode,
    }
}

/// Whether a field holds a float that is not ordered. A NaN is not equal to itself, so what holds one is not exact.
fn holds_float(fields: &[Field<'_>]) -> bool {
    for field in fields.iter() {
        if float_in(field.of).is_some() {
            return true;
        }
    }
    false
}

/// The first float in a type that is not that of an `OrderedFloat`.
fn float_in<'t>(of: &[Token<'t>]) -> Option<Token<'t>> {
    for (at, token) in of.iter().enumerate() {
        if is_listed(token.text, "f32 f64") && text_at(of, at.saturating_sub(2)) != "OrderedFloat" {
            return Some(*token);
        }
    }
    None
}

/// What a type keeps, if those that it holds keep what they say.
fn next_keeps(source: &Source<'_>, item: &Item<'_>) -> Keeps {
    let mut keeps = item.keeps;
    for word in item.names.iter() {
        keeps = both(keeps, keeps_of(source, word.text));
    }
    if has_inexact_keys(source, item) {
        keeps = both(keeps, NOTHING);
    }
    keeps.is_lent = keeps.is_lent || is_held_by_borrower(source, item);
    keeps
}

/// What a type keeps that holds one of these. A law rests on its being plain.
fn both(keeps: Keeps, below: Keeps) -> Keeps {
    let plain = keeps.plain && below.plain;
    Keeps {
        plain,
        exact: keeps.exact && below.exact && plain,
        canonical: keeps.canonical && below.canonical && plain,
        is_lent: keeps.is_lent,
    }
}

/// What this name keeps.
fn keeps_of(source: &Source<'_>, name: &str) -> Keeps {
    for item in source.items.iter() {
        if item.name.text == name {
            return item.keeps;
        }
    }
    library_keeps(name)
}

/// No law.
pub const NOTHING: Keeps = Keeps {
    plain: false,
    exact: false,
    canonical: false,
    is_lent: false,
};

/// The types whose values no contract knows.
const CELLS: &str = "Cell RefCell AtomicBool AtomicU8 AtomicU16 AtomicU32 AtomicU64 AtomicUsize \
    AtomicI8 AtomicI16 AtomicI32 AtomicI64 AtomicIsize";

/// What a name of the library keeps. A heap has no `==`, and others are equal by more than what is written of them: a
/// range by whether it is exhausted, and an address of version 6 by its flow and its scope.
fn library_keeps(name: &str) -> Keeps {
    let is_plain = !is_listed(name, CELLS);
    let is_not_exact = is_listed(name, "BinaryHeap RangeInclusive SocketAddr SocketAddrV6");
    Keeps {
        plain: is_plain,
        exact: is_plain && !is_not_exact,
        canonical: is_plain && name != "Duration",
        is_lent: false,
    }
}

/// Whether a field of a type is a set or a map whose keys are not exact. Such a one keeps no law: its laws rest on it
/// that different keys are written as different bytes.
fn has_inexact_keys(source: &Source<'_>, item: &Item<'_>) -> bool {
    for field in item.fields.iter() {
        if is_inexactly_keyed(source, field.of) {
            return true;
        }
    }
    false
}

/// Whether a set or a map whose keys are not exact stands in a type.
fn is_inexactly_keyed(source: &Source<'_>, of: &[Token<'_>]) -> bool {
    for at in 0..of.len() {
        if is_listed(text_at(of, at), KEYED) && !is_exact_key(source, of, at) {
            return true;
        }
    }
    false
}

/// The sets and maps.
const KEYED: &str = "BTreeMap BTreeSet HashMap HashSet";

/// Whether all that stands in the key of the set or map at this place is exact.
fn is_exact_key(source: &Source<'_>, of: &[Token<'_>], at: usize) -> bool {
    for word in key_at(of, at) {
        if !keeps_of(source, word.text).exact {
            return false;
        }
    }
    true
}

/// The tokens of the key of the set or map at this place, with the bracket before it.
fn key_at<'a, 't>(of: &'a [Token<'t>], at: usize) -> &'a [Token<'t>] {
    let start = at.saturating_add(1);
    let mut depth = 0u64;
    let mut end = start;
    for word in of.iter().skip(start) {
        depth = depth_in_type(depth, word.text);
        if depth == 0 || depth == 1 && word.text == "," {
            break;
        }
        end = end.saturating_add(1);
    }
    of.get(start..end).unwrap_or_default()
}

/// The first float in the key of a set or a map of a type, if it is not that of an `OrderedFloat`.
pub fn float_key_in<'t>(of: &[Token<'t>]) -> Option<Token<'t>> {
    for at in 0..of.len() {
        if is_listed(text_at(of, at), KEYED) {
            let float = float_in(key_at(of, at));
            if float.is_some() {
                return float;
            }
        }
    }
    None
}

/// Whether a type of the source that is decoded by borrowing holds this one.
fn is_held_by_borrower(source: &Source<'_>, held: &Item<'_>) -> bool {
    for item in source.items.iter() {
        let is_borrower = item.keeps.is_lent || item.is_borrowing();
        if is_borrower && is_among(item.names.as_slice(), held.name.text) {
            return true;
        }
    }
    false
}

/// Whether a word stands among these.
pub fn is_among(words: &[Token<'_>], word: &str) -> bool {
    for other in words.iter() {
        if other.text == word {
            return true;
        }
    }
    false
}
