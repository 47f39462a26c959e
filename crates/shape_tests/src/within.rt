//! How many values an encoding of a shape makes, how many of them are allowed, and what a list claims of a limit.

use bincode::config::{self, Config};
use bincode::shape::{
    DecodeWithinError, Measure, Shape, decode_shaped, decode_shaped_within, measure_shaped,
};
use shape_text::text::shape_of;
use std::alloc::Global;

/// How many values and bytes a word has.
fn measured(alloc: Global, shape: &str, input: &[u8]) -> Option<Measure> {
    let shape = shape_of(alloc, shape).ok()?;
    measure_shaped(alloc, &shape, input, config::standard()).ok()
}

/// Whether the word has this many values, and is all of the input. Retries once, since an allocation may be refused.
fn measures(alloc: Global, shape: &str, input: &[u8], values: u128) -> bool {
    let wanted = Some(Measure {
        values,
        bytes: input.len(),
    });
    measured(alloc, shape, input) == wanted || measured(alloc, shape, input) == wanted
}

/// What comes of reading no more than so many values: how many bytes are taken, or how many values are refused where
/// how many are allowed.
fn read_within(
    alloc: Global,
    shape: &str,
    input: &[u8],
    most: usize,
) -> Option<Result<usize, (u128, usize)>> {
    let shape = shape_of(alloc, shape).ok()?;
    match decode_shaped_within(alloc, &shape, input, config::standard(), most) {
        Ok((_, taken)) => Some(Ok(taken)),
        Err(DecodeWithinError::TooManyValues { values, most }) => Some(Err((values, most))),
        Err(_) => None,
    }
}

/// Whether this comes of it. Retries once, since an allocation may be refused.
fn gives(
    alloc: Global,
    shape: &str,
    input: &[u8],
    most: usize,
    wanted: Result<usize, (u128, usize)>,
) -> bool {
    read_within(alloc, shape, input, most) == Some(wanted)
        || read_within(alloc, shape, input, most) == Some(wanted)
}

/// Whether more than this many values are refused, with their number.
fn refuses(alloc: Global, shape: &str, input: &[u8], most: usize, values: u128) -> bool {
    gives(alloc, shape, input, most, Err((values, most)))
}

/// Whether the whole input is read where so many values are allowed, and refused where one fewer is.
fn is_bounded(alloc: Global, shape: &str, input: &[u8], values: usize) -> bool {
    gives(alloc, shape, input, values, Ok(input.len()))
        && refuses(
            alloc,
            shape,
            input,
            values.saturating_sub(1),
            values as u128,
        )
}

/// Shapes, words of them, and of how many values these are.
const COUNTED: [(&str, &[u8], usize); 6] = [
    ("[u8]", &[3, 7, 8, 9], 4),
    ("(u8, text)", &[5, 2, 97, 98], 3),
    ("u8?", &[1, 9], 2),
    ("u8|text", &[1, 1, 97], 2),
    ("[[()]]", &[2, 3, 1], 7),
    ("[[(); 3]]", &[2], 9),
];

#[test]
fn values_are_counted_and_bounded(rt: HostRuntime) {
    let alloc = rt.alloc();
    for &(shape, input, values) in &COUNTED {
        assert!(rt;
            measures(alloc, shape, input, values as u128) && is_bounded(alloc, shape, input, values)
        );
    }
}

/// A length of 67,108,856, the lowest byte first, after the tag 252, of what has no bytes.
#[test]
fn nothings_are_counted(rt: HostRuntime) {
    let alloc = rt.alloc();
    let input = [252, 248, 255, 255, 3];
    assert!(rt;
        measures(alloc, "[()]", &input, 67_108_857)
            && refuses(alloc, "[()]", &input, 1_000_000, 67_108_857)
    );
}

/// With n = 2^64 - 1 an array of n arrays of n `()` makes 1 + n + n times n values, which is 2^128 - 2^64 + 1; an array
/// of n such makes more than a `u128` holds.
#[test]
fn counts_that_overflow_are_told(rt: HostRuntime) {
    let alloc = rt.alloc();
    let many: u128 = u128::MAX - (1 << 64) + 2;
    let shape = "[[(); 18446744073709551615]; 18446744073709551615]";
    let larger = "[[[(); 18446744073709551615]; 18446744073709551615]; 18446744073709551615]";
    assert!(rt;
        refuses(alloc, shape, &[], usize::MAX, many) && measures(alloc, larger, &[], u128::MAX)
    );
}

/// Whether an input is refused by the error that is printed so.
fn refuses_shaped<C: Config>(
    alloc: Global,
    shape: &Shape,
    input: &[u8],
    config: C,
    wanted: &str,
) -> bool {
    let Err(error) = decode_shaped(alloc, shape, input, config) else {
        return false;
    };
    match format!(in alloc; "{error:?}") {
        Ok(text) => text.as_str() == wanted,
        Err(_) => false,
    }
}

/// The same by the text of a shape.
fn refuses_once<C: Config>(
    alloc: Global,
    shape: &str,
    input: &[u8],
    config: C,
    wanted: &str,
) -> bool {
    match shape_of(alloc, shape) {
        Ok(shape) => refuses_shaped(alloc, &shape, input, config, wanted),
        Err(_) => false,
    }
}

/// The same. Retries once, since an allocation may be refused.
fn is_refused<C: Config>(
    alloc: Global,
    shape: &str,
    input: &[u8],
    config: C,
    wanted: &str,
) -> bool {
    refuses_once(alloc, shape, input, config, wanted)
        || refuses_once(alloc, shape, input, config, wanted)
}

/// A list claims 8 for its length and the room of its items before one is read: 4 for two numbers, and for four truth
/// values.
#[test]
fn claims_come_first(rt: HostRuntime) {
    let alloc = rt.alloc();
    let less = config::standard().with_limit::<11>();
    let enough = config::standard().with_limit::<12>();
    let truths = [4, 0, 0, 0, 2];
    assert!(rt;
        is_refused(alloc, "[u16]", &[2], less, "LimitExceeded")
            && is_refused(alloc, "[bool]", &truths, enough, "InvalidBooleanValue(2)")
    );
}

/// Whether an input of 2 is refused by the error that is printed so, by measuring and by reading.
fn tells(alloc: Global, shape: &Shape, wanted: &str) -> bool {
    let Err(error) = measure_shaped(alloc, shape, &[2], config::standard()) else {
        return false;
    };
    match format!(in alloc; "{error:?}") {
        Ok(text) => {
            text.as_str() == wanted
                && refuses_shaped(alloc, shape, &[2], config::standard(), wanted)
        }
        Err(_) => false,
    }
}

/// The same by the text of a shape.
fn tells_of(alloc: Global, shape: &str, wanted: &str) -> bool {
    match shape_of(alloc, shape) {
        Ok(shape) => tells(alloc, &shape, wanted),
        Err(_) => false,
    }
}

/// A tag that is none is told with the name of what was read, and an enum without variants by its name. Retries once,
/// since an allocation may be refused.
#[test]
fn faults_tell_names(rt: HostRuntime) {
    let alloc = rt.alloc();
    let option = "UnexpectedVariant { type_name: \"Option\", found: 2, min: 0, max: 1 }";
    let choice = "UnexpectedVariant { type_name: \"Choice\", found: 2, min: 0, max: 1 }";
    let none = Shape::Choice(Vec::new(alloc));
    let empty = "EmptyEnum { type_name: \"Choice\" }";
    assert!(rt;
        (tells_of(alloc, "u8?", option) || tells_of(alloc, "u8?", option))
            && (tells_of(alloc, "u8|bool", choice) || tells_of(alloc, "u8|bool", choice))
            && (tells(alloc, &none, empty) || tells(alloc, &none, empty))
    );
}
