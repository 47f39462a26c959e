//! Shapes in a short text: what a text spells, how deep it may be, and the text of a shape.

use bincode::shape::Shape;
use shape_text::spelling::text_of;
use shape_text::text::shape_of;
use std::alloc::{AllocError, Global};

/// A tuple of each scalar.
const SCALARS: &str = "((), bool, char, text, u8, u16, u32, u64, u128, \
    usize, i8, i16, i32, i64, i128, isize)";

/// Texts, and the shapes that they spell.
const SHAPES: [(&str, &str); 13] = [
    (
        SCALARS,
        "Tuple([Unit, Bool, Char, Text, U8, U16, U32, U64, U128, Usize, I8, I16, I32, I64, I128, Isize])",
    ),
    (" (char,)", "Tuple([Char])"),
    ("(i128)", "I128"),
    (
        "[u8;18446744073709551615]",
        "Array { len: 18446744073709551615, claim: 1, element: U8 }",
    ),
    (
        "[(u8, [text; 3]?)]",
        "Seq { claim: 74, element: Tuple([U8, Optional(Array { len: 3, claim: 24, element: Text })]) }",
    ),
    ("bool|i16|char", "Choice([Bool, I16, Char])"),
    ("(bool|i16)|char", "Choice([Choice([Bool, I16]), Char])"),
    ("(bool|i16)?", "Optional(Choice([Bool, I16]))"),
    (
        "[()|isize?]",
        "Seq { claim: 13, element: Choice([Unit, Optional(Isize)]) }",
    ),
    ("usize??", "Optional(Optional(Usize))"),
    ("|text", "Choice([Text])"),
    (" | u8 | ()", "Choice([U8, Unit])"),
    (
        "[(|(|u8), |()?)]",
        "Seq { claim: 15, element: Tuple([Choice([Choice([U8])]), Choice([Optional(Unit)])]) }",
    ),
];

/// What a part begins with.
const PART: &str =
    "`(`, `[` or a name (bool, char, text, u8, u16, u32, u64, u128, usize, i8, i16, i32, i64, \
    i128 or isize)";

/// Texts that are no shape: the offset in bytes, what is expected there, and what is met.
const REFUSED: [(&str, usize, &str, &str); 10] = [
    ("(u8", 3, "`,`, `)`, `?` or `|`", "the end"),
    ("(u8, u9)", 5, PART, "`u9`"),
    (
        "[u8; 18446744073709551616]",
        5,
        "a length below 2^64",
        "`18446744073709551616`",
    ),
    ("[u8)", 3, "`]`, `;`, `?` or `|`", "`)`"),
    ("u8 u8", 3, "the end, `?` or `|`", "`u8`"),
    ("(,)", 1, PART, "`,`"),
    ("(|)", 2, PART, "`)`"),
    ("(u8|)", 4, PART, "`)`"),
    (" é", 1, PART, "`é`"),
    (
        "abcdefghijklmnopqrstuvwxyz",
        0,
        PART,
        "`abcdefghijklmnopqrstuv`",
    ),
];

/// Whether the shape that is parsed from a text is printed so, or its error message is this.
fn tells_once(alloc: Global, text: &str, wanted: &str) -> bool {
    let told = match shape_of(alloc, text) {
        Ok(shape) => format!(in alloc; "{shape:?}"),
        Err(error) => format!(in alloc; "{error}"),
    };
    match told {
        Ok(told) => told.as_str() == wanted,
        Err(_) => false,
    }
}

/// The same. Retries once, since an allocation may be refused.
fn tells(alloc: Global, text: &str, wanted: &str) -> bool {
    tells_once(alloc, text, wanted) || tells_once(alloc, text, wanted)
}

/// Whether a text is refused at this offset, where this is expected, and this is met.
fn refuses_once(alloc: Global, text: &str, (place, expected, met): (usize, &str, &str)) -> bool {
    match format!(in alloc; "at byte {place}: expected {expected}, and not {met}") {
        Ok(wanted) => tells_once(alloc, text, wanted.as_str()),
        Err(_) => false,
    }
}

/// The same. Retries once, since an allocation may be refused.
fn refuses(alloc: Global, text: &str, why: (usize, &str, &str)) -> bool {
    refuses_once(alloc, text, why) || refuses_once(alloc, text, why)
}

#[test]
fn reads_shapes(rt: HostRuntime) {
    for &(text, shape) in &SHAPES {
        assert!(rt; tells(rt.alloc(), text, shape), "{text}");
    }
}

#[test]
fn refuses_texts(rt: HostRuntime) {
    for &(text, place, expected, met) in &REFUSED {
        assert!(rt; refuses(rt.alloc(), text, (place, expected, met)), "{text}");
    }
}

/// A mark before a part and one after it, which stand around the part as often, and what comes of that: the depth of
/// the shape, or from which byte on it is too deep. 64 brackets, question marks and bars may stand around a part.
const LEVELS: [(usize, &str, &str, &str, Result<usize, usize>); 10] = [
    (64, "[", "u8", "]", Ok(64)),
    (65, "[", "u8", "]", Err(64)),
    (64, "(", "u8", ")", Ok(0)),
    (65, "(", "u8", ")", Err(64)),
    (32, "[", "u8", "?]", Ok(64)),
    (32, "[", "u8?", "?]", Err(97)),
    (63, "[", "u8|u8", "]", Ok(64)),
    (64, "[", "u8|u8", "]", Err(66)),
    (32, "(|", "u8", ")", Ok(32)),
    (33, "(|", "u8", ")", Err(3)),
];

/// A part with as many marks before it and after it.
fn marked(
    alloc: Global,
    count: usize,
    (before, part, after): (&str, &str, &str),
) -> Result<String, AllocError> {
    let mut text = String::new(alloc);
    for _ in 0..count {
        text.push_str(before)?;
    }
    text.push_str(part)?;
    for _ in 0..count {
        text.push_str(after)?;
    }
    Ok(text)
}

/// Whether this comes of a text: the depth of its shape, or from which byte on it is too deep.
fn has_depth(alloc: Global, text: &str, wanted: Result<usize, usize>) -> bool {
    match wanted {
        Ok(depth) => matches!(shape_of(alloc, text), Ok(shape) if shape.depth() == depth),
        Err(place) => is_too_deep(alloc, text, place),
    }
}

/// Whether the error message says that it is too deep from this byte on.
fn is_too_deep(alloc: Global, text: &str, place: usize) -> bool {
    match format!(in alloc; "at byte {place}: parts within parts, deeper than 64 levels") {
        Ok(wanted) => tells_once(alloc, text, wanted.as_str()),
        Err(_) => false,
    }
}

/// Whether this comes of a part with as many marks.
fn is_deep(
    alloc: Global,
    count: usize,
    marks: (&str, &str, &str),
    wanted: Result<usize, usize>,
) -> bool {
    match marked(alloc, count, marks) {
        Ok(text) => has_depth(alloc, text.as_str(), wanted),
        Err(_) => false,
    }
}

/// Retries once, since an allocation may be refused.
#[test]
fn counts_levels(rt: HostRuntime) {
    let alloc = rt.alloc();
    for &(count, before, part, after, wanted) in &LEVELS {
        let marks = (before, part, after);
        assert!(rt; is_deep(alloc, count, marks, wanted) || is_deep(alloc, count, marks, wanted));
    }
}

/// Whether a shape is shown so.
fn is_shown(alloc: Global, shape: &Shape, wanted: &str) -> bool {
    match text_of(alloc, shape) {
        Ok(shown) => shown.as_str() == wanted,
        Err(_) => false,
    }
}

/// Whether the shape of the text is shown so.
fn shows(alloc: Global, text: &str, wanted: &str) -> bool {
    match shape_of(alloc, text) {
        Ok(shape) => is_shown(alloc, &shape, wanted),
        Err(_) => false,
    }
}

/// Texts of shapes, and as they are shown.
const SHOWN: [(&str, &str); 12] = [
    (SCALARS, SCALARS),
    ("[u8; 4294967297]", "[u8; 4294967297]"),
    ("(char,)", "(char,)"),
    ("[(u8, [text; 3]?)]", "[(u8, [text; 3]?)]"),
    ("u64|text|usize", "u64|text|usize"),
    ("(u8|u16)|i32?", "(u8|u16)|i32?"),
    ("i128??", "i128??"),
    ("((u8|u16)?, [char|bool])", "((u8|u16)?, [char|bool])"),
    (" ( ( u8 ) ) ? ", "u8?"),
    ("((|u8), (|(|u8))?)", "(|u8, (|(|u8))?)"),
    ("|u8|()", "u8|()"),
    ("[ u8;03 ]", "[u8; 3]"),
];

/// Retries once, since an allocation may be refused.
#[test]
fn shows_shapes(rt: HostRuntime) {
    let alloc = rt.alloc();
    for &(text, wanted) in &SHOWN {
        assert!(rt;
            shows(alloc, text, wanted) || shows(alloc, text, wanted),
            "{text}"
        );
    }
}

/// A shape that no text spells is shown as a text that is refused.
#[test]
fn shows_what_has_no_spelling(rt: HostRuntime) {
    let alloc = rt.alloc();
    let tuple = Shape::Tuple(Vec::new(alloc));
    let choice = Shape::Choice(Vec::new(alloc));
    assert!(rt;
        (is_shown(alloc, &tuple, "(,)") || is_shown(alloc, &tuple, "(,)"))
            && (is_shown(alloc, &choice, "(|)") || is_shown(alloc, &choice, "(|)"))
    );
}
