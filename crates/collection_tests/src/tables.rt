//! The tables of test vectors by the calls for slices, for streams and for shapes.

use crate::broken::{Broken, BrokenBuffered};
use crate::by_shape::ByShape;
use bincode::config::{self, Endianness};
use bincode::de::Decode;
use conformance::calls::{Buffered, Bytewise, Calls, Slice};
use conformance::case::{Case, Encoding, Number, Spelling, Value};
use conformance::rows::{Row, run, tables, trailing_cases};
use conformance::setting::{LegacyBig, Standard};
use std::alloc::Global;
use std::cell::{Cell, RefCell};
use std::io;
use test_helpers::checks::either;

/// A row that does not hold, since its bytes are those of 6, and three that do.
static FIRST: [Row; 4] = [
    Row {
        label: "2",
        case: Case::Encode(Value::U32(Encoding {
            setting: LegacyBig,
            value: 5,
            bytes: &[0, 0, 0, 6],
        })),
    },
    Row {
        label: "5b",
        case: Case::Varint(Number::U32(Spelling {
            endian: Endianness::Little,
            value: 251,
            bytes: &[251, 251, 0],
        })),
    },
    Row {
        label: "5d",
        case: Case::Varint(Number::U32(Spelling {
            endian: Endianness::Little,
            value: 65536,
            bytes: &[252, 0, 0, 1, 0],
        })),
    },
    Row {
        label: "16a",
        case: Case::Encode(Value::Pair(Encoding {
            setting: Standard,
            value: (1, 300),
            bytes: &[1, 251, 44, 1],
        })),
    },
];

/// What is printed of them.
const TEXT: &str = "2 FAIL\n5b ok\n5d ok\n16a ok\nrows 4 failed 1\n";

/// The first table, into a vector. Retries once if an allocation is refused.
fn printed(alloc: Global) -> Option<(usize, Vec<u8>)> {
    let mut first = Vec::new(alloc);
    if let Ok(failed) = run::<Slice, _>(alloc, &[&FIRST], &mut first) {
        return Some((failed, first));
    }
    let mut second = Vec::new(alloc);
    let failed = run::<Slice, _>(alloc, &[&FIRST], &mut second).ok()?;
    Some((failed, second))
}

/// a first table with a wrong word: the loop of `vectors` prints that 2 fails, that the others hold, and one failure.
#[test]
fn reports_a_wrong_word(rt: HostRuntime) {
    let Some((failed, text)) = printed(rt.alloc()) else {
        assert!(rt; false);
        return;
    };
    assert!(rt; failed == 1 && text.as_slice() == TEXT.as_bytes());
}

/// A device that takes less than the whole text, however much, is an error.
#[test]
fn reports_a_failed_output(rt: HostRuntime) {
    let mut bytes = [0u8; 42];
    for room in 0..TEXT.len() {
        assert!(rt; run::<Slice, _>(rt.alloc(), &[&FIRST], &mut &mut bytes[..room]).is_err());
    }
    let Some(front) = bytes.get(..41) else {
        assert!(rt; false);
        return;
    };
    assert!(rt; TEXT.as_bytes().starts_with(front));
}

/// How many of the worked rows, and of those with bytes after them, fail by these calls.
fn failures<K: Calls>(alloc: Global) -> io::Result<usize> {
    let mut out = Vec::new(alloc);
    let failed = run::<K, _>(alloc, &tables(), &mut out)?;
    Ok(failed.saturating_add(run::<K, _>(alloc, &[trailing_cases()], &mut out)?))
}

/// Whether all of them hold. Retries once if an allocation is refused.
fn all_hold<K: Calls>(alloc: Global) -> bool {
    either(failures::<K>(alloc), failures::<K>(alloc)) == Some(0)
}

/// What these calls decode of an encoding, if they take all of its bytes.
fn whole<K: Calls, T: Decode<()>>(alloc: Global, encoding: &[u8]) -> Option<T> {
    match K::decode(alloc, encoding, config::standard()) {
        Some(Ok((value, taken))) if taken == encoding.len() => Some(value),
        _ => None,
    }
}

/// Whether these calls decode an encoding as a cell of the number, and as one that is not borrowed.
fn are_cells<K: Calls>(alloc: Global, encoding: &[u8], number: u32) -> bool {
    let cell = whole::<K, Cell<u32>>(alloc, encoding);
    let shared = whole::<K, RefCell<u32>>(alloc, encoding);
    match (cell, shared) {
        (Some(cell), Some(shared)) => {
            cell.get() == number && shared.try_borrow_mut().is_ok() && shared.into_inner() == number
        }
        _ => false,
    }
}

/// Whether the cells of 5 and of 300, which are no part of the tables, are decoded by these calls.
fn keeps_cells<K: Calls>(alloc: Global) -> bool {
    are_cells::<K>(alloc, &[5], 5) && are_cells::<K>(alloc, &[251, 44, 1], 300)
}

/// each row byte by byte: those of an owned type through a stream of one byte a call, and through a `BufReader` of 4
/// bytes over it. The values and counts are the same, and `Io` comes for each `UnexpectedEnd`.
#[test]
fn reads_the_rows_from_streams(rt: HostRuntime) {
    let alloc = rt.alloc();
    assert!(rt; all_hold::<Bytewise>(alloc) && keeps_cells::<Bytewise>(alloc));
    assert!(rt; all_hold::<Buffered<4>>(alloc));
    assert!(rt; keeps_cells::<Buffered<4>>(alloc) || keeps_cells::<Buffered<4>>(alloc));
}

/// a stream that fails at each call: a read that fails at any place before the last byte is an `Io`, also below a
/// `BufReader`, and so is a write.
#[test]
fn fails_with_the_stream(rt: HostRuntime) {
    let alloc = rt.alloc();
    assert!(rt; all_hold::<Broken>(alloc) && keeps_cells::<Broken>(alloc));
    assert!(rt; all_hold::<BrokenBuffered>(alloc));
}

/// each row by its shape: the 56 whose type is described, by the type and by `Described::shape`, with the same bytes,
/// counts and faults.
#[test]
fn keeps_the_rows_by_shapes(rt: HostRuntime) {
    assert!(rt; all_hold::<ByShape>(rt.alloc()));
}
