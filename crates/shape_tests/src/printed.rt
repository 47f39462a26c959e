//! Encodings by a shape, as JSON.

use bincode::config;
use bincode::error::DecodeError;
use bincode::shape::Shape;
use shape_text::json::{JsonError, write_json};
use shape_text::text::shape_of;
use std::alloc::Global;

/// Shapes, the bytes of a word of each, and its JSON.
const VALUES: [(&str, &[u8], &str); 39] = [
    ("((), bool)", &[1], "[null,true]"),
    ("bool", &[0], "false"),
    ("char", b"\"", "\"\\\"\""),
    ("char", &[240, 159, 152, 128], "\"😀\""),
    ("u8", &[200], "200"),
    ("u16", &[251, 44, 1], "300"),
    ("u32", &[252, 255, 255, 255, 255], "4294967295"),
    (
        "u64",
        &[253, 255, 255, 255, 255, 255, 255, 255, 255],
        "18446744073709551615",
    ),
    ("usize", &[253, 0, 0, 0, 0, 1, 0, 0, 0], "4294967296"),
    (
        "u128",
        &[253, 255, 255, 255, 255, 255, 255, 255, 255],
        "18446744073709551615",
    ),
    (
        "u128",
        &[254, 0, 0, 0, 0, 0, 0, 0, 0, 1, 0, 0, 0, 0, 0, 0, 0],
        "\"18446744073709551616\"",
    ),
    ("i8", &[128], "-128"),
    ("i16", &[251, 255, 255], "-32768"),
    ("i32", &[252, 255, 255, 255, 255], "-2147483648"),
    ("i64", &[5], "-3"),
    (
        "isize",
        &[253, 255, 255, 255, 255, 255, 255, 255, 255],
        "-9223372036854775808",
    ),
    (
        "i128",
        &[253, 255, 255, 255, 255, 255, 255, 255, 255],
        "-9223372036854775808",
    ),
    (
        "i128",
        &[254, 1, 0, 0, 0, 0, 0, 0, 0, 1, 0, 0, 0, 0, 0, 0, 0],
        "\"-9223372036854775809\"",
    ),
    (
        "i128",
        &[
            254, 254, 255, 255, 255, 255, 255, 255, 255, 1, 0, 0, 0, 0, 0, 0, 0,
        ],
        "18446744073709551615",
    ),
    (
        "i128",
        &[254, 0, 0, 0, 0, 0, 0, 0, 0, 2, 0, 0, 0, 0, 0, 0, 0],
        "\"18446744073709551616\"",
    ),
    ("text", &[2, 97, 98], "\"ab\""),
    (
        "text",
        &[6, 34, 92, 47, 10, 13, 9],
        "\"\\\"\\\\/\\n\\r\\t\"",
    ),
    (
        "text",
        &[6, 8, 12, 0, 31, 127, 32],
        "\"\\b\\f\\u0000\\u001f\u{7f} \"",
    ),
    (
        "text",
        &[7, 1, 7, 11, 14, 16, 26, 27],
        "\"\\u0001\\u0007\\u000b\\u000e\\u0010\\u001a\\u001b\"",
    ),
    ("[u8]", &[0], "[]"),
    ("[u8]", &[2, 1, 2], "[1,2]"),
    ("[u16; 2]", &[5, 251, 0, 1], "[5,256]"),
    ("(u8,)", &[7], "[7]"),
    ("(u8, text, bool)", &[7, 1, 97, 0], "[7,\"a\",false]"),
    ("u8|u16|char", &[0, 9], "{\"0\":9}"),
    ("u8|u16|char", &[2, 97], "{\"2\":\"a\"}"),
    ("[((), [u8; 0])]", &[3], "{\"count\":3}"),
    ("(u8, [(); 4])", &[9], "[9,{\"count\":4}]"),
    ("[((), u8)]", &[2, 5, 6], "[[null,5],[null,6]]"),
    ("u8?", &[1, 9], "9"),
    ("u8??", &[0], "null"),
    ("u8???", &[1, 1, 0], "{\"some\":{\"some\":null}}"),
    ("()?", &[1], "{\"some\":null}"),
    ("(u8?|())?", &[1, 0, 0], "{\"0\":null}"),
];

/// Whether these bytes are a word of a shape with this JSON.
fn writes(alloc: Global, shape: &Shape, bytes: &[u8], wanted: &str) -> bool {
    let mut out = Vec::new(alloc);
    let length = write_json(alloc, shape, bytes, config::standard(), 1_000, &mut out);
    matches!(length, Ok(length) if length == bytes.len()) && out.as_slice() == wanted.as_bytes()
}

/// Whether they are one of the shape of this text.
fn shows(alloc: Global, shape: &str, bytes: &[u8], wanted: &str) -> bool {
    match shape_of(alloc, shape) {
        Ok(shape) => writes(alloc, &shape, bytes, wanted),
        Err(_) => false,
    }
}

/// Retries once, since an allocation may be refused.
#[test]
fn shows_values(rt: HostRuntime) {
    let alloc = rt.alloc();
    for &(shape, bytes, value) in &VALUES {
        assert!(rt;
            shows(alloc, shape, bytes, value) || shows(alloc, shape, bytes, value),
            "{shape}"
        );
    }
}

/// The length of a word that is written as JSON, of at most `most` values: a list, two options and a number are four.
fn written(alloc: Global, most: usize) -> Option<usize> {
    let shape = shape_of(alloc, "[u8?]").ok()?;
    let mut out = Vec::new(alloc);
    let word = [2, 1, 9, 0];
    write_json(alloc, &shape, &word, config::standard(), most, &mut out).ok()
}

#[test]
fn writes_no_more_values_than_allowed(rt: HostRuntime) {
    let alloc = rt.alloc();
    assert!(rt;
        (written(alloc, 4) == Some(4) || written(alloc, 4) == Some(4))
            && written(alloc, 3).is_none()
    );
}

/// Whether 2 is told as no tag of a shape of two variants, under the name of all enums by their shapes.
fn tells_tag(alloc: Global) -> bool {
    let Ok(shape) = shape_of(alloc, "u8|bool") else {
        return false;
    };
    let mut out = Vec::new(alloc);
    let told = write_json(alloc, &shape, &[2], config::standard(), 9, &mut out);
    let Err(
        JsonError::Decode(
            DecodeError::UnexpectedVariant {
                type_name,
                found: 2,
                min: 0,
                max: 1,
            },
        ),
    ) = told
    else {
        return false;
    };
    type_name.as_str() == "Choice"
}

/// Retries once, since an allocation may be refused.
#[test]
fn names_an_enum_whose_tag_is_refused(rt: HostRuntime) {
    assert!(rt; tells_tag(rt.alloc()) || tells_tag(rt.alloc()));
}
