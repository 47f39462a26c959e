//! Short texts, and errors as they are printed.

use crate::asserts::all_true;
use bincode::error::{DecodeError, EncodeError, IntegerType};
use bincode::short_text::{ShortText, TypeName};
use std::alloc::{AllocError, Global};
use std::mem::size_of;
use test_helpers::checks::either;

#[test]
fn keeps_short_texts(rt: HostRuntime) {
    all_true(
        &rt,
        &[
            ShortText::new("a text of 22 bytes ...").as_str() == "a text of 22 bytes ...",
            TypeName::new("123456789\u{e9}").as_str() == "123456789",
        ],
    );
}

#[test]
fn errors_are_small(rt: HostRuntime) {
    assert!(rt; size_of::<EncodeError>() <= 24 && size_of::<DecodeError>() <= 24);
}

/// The integer types, as they are printed.
const NAMES: [(IntegerType, &str); 13] = [
    (IntegerType::U8, "U8"),
    (IntegerType::U16, "U16"),
    (IntegerType::U32, "U32"),
    (IntegerType::U64, "U64"),
    (IntegerType::U128, "U128"),
    (IntegerType::Usize, "Usize"),
    (IntegerType::I8, "I8"),
    (IntegerType::I16, "I16"),
    (IntegerType::I32, "I32"),
    (IntegerType::I64, "I64"),
    (IntegerType::I128, "I128"),
    (IntegerType::Isize, "Isize"),
    (IntegerType::Reserved, "Reserved"),
];

/// How the type is printed.
fn shown(alloc: Global, kind: IntegerType) -> Result<String, AllocError> {
    format!(in alloc; "{kind:?}")
}

/// Whether the type is printed so.
fn is_shown(alloc: Global, kind: IntegerType, name: &str) -> bool {
    let Some(text) = either(shown(alloc, kind), shown(alloc, kind)) else {
        return false;
    };
    text.as_str() == name
}

#[test]
fn prints_integer_types(rt: HostRuntime) {
    for (kind, name) in NAMES {
        assert!(rt; is_shown(rt.alloc(), kind, name));
    }
}

/// How two errors are printed.
fn printed(alloc: Global) -> Result<String, AllocError> {
    let fault = DecodeError::UnexpectedVariant {
        type_name: TypeName::new("Option"),
        found: 2,
        min: 0,
        max: 1,
    };
    let refusal = EncodeError::UnexpectedEnd;
    format!(in alloc; "{refusal} {fault}")
}

#[test]
fn prints_errors(rt: HostRuntime) {
    let Some(text) = either(printed(rt.alloc()), printed(rt.alloc())) else {
        assert!(rt; false);
        return;
    };
    assert!(rt;
        text.as_str().contains("UnexpectedEnd")
            && text.as_str().contains("type_name: \"Option\", found: 2")
    );
}
