//! Which shapes in a text read all encodings of which others.

use bincode::config::{self, Config};
use bincode::shape::Shape;
use bincode_evolution::evolution::reads_all;
use shape_difference::difference::explain;
use shape_grammar::text::shape_of;
use std::alloc::Global;

/// A new shape and an old one; whether the new one reads all words of the old one in the variable encoding, and in the
/// fixed one.
const NUMBERS: [(&str, &str, bool, bool); 29] = [
    ("u8", "u8", true, true),
    ("u16", "u8", false, false),
    ("u8", "u16", false, false),
    ("u32", "u16", true, false),
    ("u16", "u32", false, false),
    ("u64", "u32", true, false),
    ("u128", "u16", true, false),
    ("usize", "u64", true, true),
    ("u64", "usize", true, true),
    ("u128", "usize", true, false),
    ("usize", "u128", false, false),
    ("u32", "usize", false, false),
    ("i16", "i8", false, false),
    ("i8", "u8", false, false),
    ("i32", "i16", true, false),
    ("i16", "i32", false, false),
    ("isize", "i64", true, true),
    ("i64", "isize", true, true),
    ("i128", "i64", true, false),
    ("i16", "u16", false, false),
    ("u64", "i16", false, false),
    ("bool", "bool", true, true),
    ("u8", "bool", false, false),
    ("bool", "u8", false, false),
    ("char", "char", true, true),
    ("u32", "char", false, false),
    ("text", "text", true, true),
    ("[u8]", "text", false, false),
    ("text", "[u8]", false, false),
];

/// The same of lists, arrays and tuples.
const ROWS: [(&str, &str, bool, bool); 27] = [
    ("()", "()", true, true),
    ("()", "[text; 0]", true, true),
    ("[u16; 0]", "()", true, true),
    ("[u16; 0]", "[text; 0]", true, true),
    ("()", "[u8]", false, false),
    ("[u8]", "()", false, false),
    ("(u8,)", "u8", false, false),
    ("u8", "(u8,)", false, false),
    ("[u32]", "[u16]", true, false),
    ("[u16]", "[u32]", false, false),
    ("[u8; 3]", "[u8]", false, false),
    ("[u8]", "[u8; 3]", false, false),
    ("[[usize]]", "[[u64]]", true, true),
    ("[u16; 2]", "[u16; 2]", true, true),
    ("[u16; 2]", "[u16; 3]", false, false),
    ("[u32; 2]", "[u16; 2]", true, false),
    ("(u8, u8)", "[u8; 2]", true, true),
    ("[u8; 2]", "(u8, u8)", true, true),
    ("(u8, u16)", "[u8; 2]", false, false),
    ("[u64; 2]", "(u32, u16)", true, false),
    ("[usize; 2]", "(usize, u64)", true, true),
    ("(u8, u8, u8)", "[u8; 2]", false, false),
    ("(u8, text)", "(u8, text)", true, true),
    ("(text, u8)", "(u8, text)", false, false),
    ("(u8, u32)", "(u8, u16)", true, false),
    ("(u8, u8)", "(u8, u8, u8)", false, false),
    ("(u8, u8, u8)", "(u8, u8)", false, false),
];

/// The same of arrays that no memory holds.
const HUGE: [(&str, &str, bool, bool); 3] = [
    ("[u8; 1099511627776]", "(u8, u8)", false, false),
    ("(u8, u8)", "[u8; 1099511627776]", false, false),
    ("[u8; 1099511627776]", "[u8; 1099511627776]", true, true),
];

/// The same of options and enums.
const CHOICES: [(&str, &str, bool, bool); 20] = [
    ("u16?", "u16?", true, true),
    ("u32?", "u16?", true, false),
    ("u16", "u16?", false, false),
    ("u16?", "u16", false, false),
    ("()|u16", "u16?", true, false),
    ("()|u32|text", "u16?", true, false),
    ("[u8; 0]|u16", "u16?", true, false),
    ("u16|()", "u16?", false, false),
    ("bool|u16", "u16?", false, false),
    ("()|u8", "u16?", false, false),
    ("u16?", "()|u16", false, false),
    ("u8|text", "u8|text", true, true),
    ("u8|text|bool", "u8|text", true, true),
    ("u8|text", "u8|text|bool", false, false),
    ("text|u8", "u8|text", false, false),
    ("bool|u8|text", "u8|text", false, false),
    ("u32|text", "u16|text", true, false),
    ("u8|bool", "u8|u16", false, false),
    ("[(text, u64?)|()]", "[(text, u32?)|()]", true, false),
    ("(usize?, u8|u8)", "(u64?, u8|u8)", true, true),
];

/// Whether both encodings answer so, in each byte order.
fn answers_once(alloc: Global, new: &str, old: &str, variable: bool, fixed: bool) -> Option<bool> {
    let new = shape_of(alloc, new).ok()?;
    let old = shape_of(alloc, old).ok()?;
    let little = config::standard();
    let big = little.with_big_endian();
    Some(
        reads_all(&new, &old, little) == variable
            && reads_all(&new, &old, big) == variable
            && reads_all(&new, &old, little.with_fixed_int_encoding()) == fixed
            && reads_all(&new, &old, big.with_fixed_int_encoding()) == fixed,
    )
}

/// The same. Retries once, since an allocation may be refused.
fn answers(alloc: Global, new: &str, old: &str, variable: bool, fixed: bool) -> bool {
    answers_once(alloc, new, old, variable, fixed)
        .or(answers_once(alloc, new, old, variable, fixed))
        .unwrap_or(false)
}

#[test]
fn tells_of_numbers(rt: HostRuntime) {
    for &(new, old, variable, fixed) in &NUMBERS {
        assert!(rt;
            answers(rt.alloc(), new, old, variable, fixed),
            "{new} of {old}"
        );
    }
}

#[test]
fn tells_of_rows(rt: HostRuntime) {
    for &(new, old, variable, fixed) in &ROWS {
        assert!(rt;
            answers(rt.alloc(), new, old, variable, fixed),
            "{new} of {old}"
        );
    }
}

#[test]
fn tells_of_huge_arrays(rt: HostRuntime) {
    for &(new, old, variable, fixed) in &HUGE {
        assert!(rt;
            answers(rt.alloc(), new, old, variable, fixed),
            "{new} of {old}"
        );
    }
}

#[test]
fn tells_of_choices(rt: HostRuntime) {
    for &(new, old, variable, fixed) in &CHOICES {
        assert!(rt;
            answers(rt.alloc(), new, old, variable, fixed),
            "{new} of {old}"
        );
    }
}

/// Whether bytes are found that show a difference, exactly where the rules tell of one.
fn is_explained<C: Config>(alloc: Global, new: &Shape, old: &Shape, config: C) -> bool {
    let shown = match explain(alloc, new, old, config) {
        Ok(found) => found.is_some(),
        Err(_) => match explain(alloc, new, old, config) {
            Ok(found) => found.is_some(),
            Err(_) => false,
        },
    };
    shown != reads_all(new, old, config)
}

/// The same in both encodings and byte orders.
fn are_explained(alloc: Global, new: &str, old: &str) -> Option<bool> {
    let new = shape_of(alloc, new).ok()?;
    let old = shape_of(alloc, old).ok()?;
    let little = config::standard();
    let big = little.with_big_endian();
    Some(
        is_explained(alloc, &new, &old, little)
            && is_explained(alloc, &new, &old, big)
            && is_explained(alloc, &new, &old, little.with_fixed_int_encoding())
            && is_explained(alloc, &new, &old, big.with_fixed_int_encoding()),
    )
}

/// The same. Retries once, since an allocation may be refused.
fn explains(alloc: Global, new: &str, old: &str) -> bool {
    are_explained(alloc, new, old)
        .or(are_explained(alloc, new, old))
        .unwrap_or(false)
}

#[test]
fn explains_each_difference(rt: HostRuntime) {
    for rows in [&NUMBERS[..], &ROWS[..], &CHOICES[..]] {
        for &(new, old, _, _) in rows {
            assert!(rt; explains(rt.alloc(), new, old), "{new} of {old}");
        }
    }
}
