//! The bytes and the places that are reported where a new shape does not read an old one.

use bincode::config::{self, Config};
use shape_difference::difference::explain;
use shape_grammar::text::shape_of;
use std::alloc::Global;

/// A new shape and an old one; a word of the old one that the new one does not read, in the variable encoding; and the
/// place of it.
const VARIABLE: [(&str, &str, &[u8], &[usize]); 14] = [
    ("u16", "u8", &[255], &[]),
    ("u8", "u16", &[251, 255, 0], &[]),
    ("u16", "u32", &[252, 0, 0, 1, 0], &[]),
    ("i16", "u16", &[1], &[]),
    ("i8", "u8", &[255], &[]),
    ("text", "[u8]", &[0], &[]),
    ("[u16]", "[u32]", &[1, 252, 0, 0, 1, 0], &[0]),
    ("(u8, u16)", "[u8; 2]", &[1, 255], &[1]),
    ("(u8, bool, u8)", "(u8, u8, u8)", &[1, 1, 1], &[1]),
    ("u8|text", "u8|text|bool", &[2, 0], &[2]),
    ("text|u8", "u8|text", &[0, 1], &[0]),
    ("(u8|text)?", "(u8|bool)?", &[1, 1, 0], &[0, 1]),
    ("u16?", "()|u16", &[252, 0, 0, 0, 0], &[]),
    (
        "[(text, u8?)|()]",
        "[(text, u32?)|()]",
        &[1, 0, 0, 1, 251, 255, 0],
        &[0, 0, 1, 0],
    ),
];

/// The same in the fixed encoding.
const FIXED: [(&str, &str, &[u8], &[usize]); 3] = [
    ("u32", "u16", &[1, 0], &[]),
    ("u16", "u32", &[1, 0, 0, 0], &[]),
    ("()|u16", "u16?", &[1, 1, 0], &[]),
];

/// Whether this word and this place are told.
fn tells_once<C: Config>(
    alloc: Global,
    shapes: (&str, &str),
    word: &[u8],
    place: &[usize],
    config: C,
) -> bool {
    let Ok(new) = shape_of(alloc, shapes.0) else {
        return false;
    };
    let Ok(old) = shape_of(alloc, shapes.1) else {
        return false;
    };
    match explain(alloc, &new, &old, config) {
        Ok(Some(told)) => told.word.as_slice() == word && told.place.as_slice() == place,
        _ => false,
    }
}

/// The same. Retries once, since an allocation may be refused.
fn tells<C: Config>(
    alloc: Global,
    shapes: (&str, &str),
    word: &[u8],
    place: &[usize],
    config: C,
) -> bool {
    tells_once(alloc, shapes, word, place, config) || tells_once(alloc, shapes, word, place, config)
}

#[test]
fn tells_of_variable_length(rt: HostRuntime) {
    let config = config::standard();
    for &(new, old, word, place) in &VARIABLE {
        assert!(rt;
            tells(rt.alloc(), (new, old), word, place, config),
            "{new} of {old}"
        );
    }
}

#[test]
fn tells_of_fixed_length(rt: HostRuntime) {
    let config = config::legacy();
    for &(new, old, word, place) in &FIXED {
        assert!(rt;
            tells(rt.alloc(), (new, old), word, place, config),
            "{new} of {old}"
        );
    }
}

/// A new shape and an old one with arrays, and whether bytes are found. Of arrays that are too long no sample is made.
const ARRAYS: [(&str, &str, bool); 3] = [
    ("(u16, [u8; 5000])", "(u8, [u8; 5000])", true),
    ("u8", "[[[u8; 4096]; 4096]; 4096]", false),
    ("u8", "[[[(); 4096]; 4096]; 4096]", false),
];

/// Whether bytes are found, if no allocation is refused.
fn finds(alloc: Global, new: &str, old: &str) -> Option<bool> {
    let new = shape_of(alloc, new).ok()?;
    let old = shape_of(alloc, old).ok()?;
    let found = explain(alloc, &new, &old, config::standard()).ok()?;
    Some(found.is_some())
}

/// Retries once, since an allocation may be refused.
#[test]
fn samples_no_long_arrays(rt: HostRuntime) {
    for &(new, old, wanted) in &ARRAYS {
        let wanted = Some(wanted);
        assert!(rt;
            finds(rt.alloc(), new, old) == wanted || finds(rt.alloc(), new, old) == wanted,
            "{new} of {old}"
        );
    }
}
