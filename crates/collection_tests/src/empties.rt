//! What is read after a length of 0: nothing, and no memory is asked for. And a length that exceeds the limit is
//! refused before memory is asked for.

use crate::asserts::{all_hold, all_true};
use bincode::de::{BorrowDecode, Decode};
use bincode::error::DecodeError;
use bincode::ffi::CString;
use bincode::{borrow_decode_from_slice, config};
use own_by_hand::pack::Pack;
use own_types::batch::Batch;
use std::alloc::Global;
use std::borrow::{CowSlice, CowStr};
use std::boxed::{BoxedSlice, BoxedStr};
use std::collections::{BTreeMap, BTreeSet, BinaryHeap, HashMap, HashSet, VecDeque};
use std::path::{Path, PathBuf};
use std::rc::{RcSlice, RcStr};
use std::sync::Arc;
use test_helpers::checks::{is_passed, within};

/// A length of 0, and a byte after it.
const NONE: [u8; 2] = [0, 9];

/// A length of 2^64 - 1, after which nothing stands.
const HUGE: [u8; 9] = [253, 255, 255, 255, 255, 255, 255, 255, 255];

/// A length of 100000, after which nothing stands.
const LONG: [u8; 5] = [252, 160, 134, 1, 0];

/// What comes of the bytes within a limit of 100000, at the first call.
fn read<T: Decode<()>>(alloc: Global, bytes: &[u8]) -> Result<usize, bool> {
    match within::<T, 100_000>(alloc, bytes) {
        Ok((_, taken)) => Ok(taken),
        outcome => Err(is_passed(outcome)),
    }
}

/// Whether the two lengths exceed the limit.
fn refuses_lengths<T: Decode<()>>(alloc: Global) -> bool {
    read::<T>(alloc, &HUGE) == Err(true) && read::<T>(alloc, &LONG) == Err(true)
}

/// Whether nothing is read, and the two lengths exceed the limit.
fn reads_none<T: Decode<()>>(alloc: Global) -> bool {
    read::<T>(alloc, &NONE) == Ok(1) && refuses_lengths::<T>(alloc)
}

/// What comes of the bytes by borrowed decoding within a limit of 100000, at the first call.
fn lend<'a, T: BorrowDecode<&'a [u8], ()>>(
    alloc: Global,
    source: &'a [u8],
) -> Result<(T, usize), DecodeError> {
    borrow_decode_from_slice(alloc, source, config::standard().with_limit::<100_000>())
}

/// Whether two lengths exceed the limit by borrowed decoding.
fn lends_none<'a, T: BorrowDecode<&'a [u8], ()>>(
    alloc: Global,
    (huge, long): (&'a [u8], &'a [u8]),
) -> bool {
    is_passed(lend::<T>(alloc, huge)) && is_passed(lend::<T>(alloc, long))
}

/// hostile lengths of each container
/// hostile lengths without memory
///
/// What has a block of its own also where it is empty is not read here. The first call decides, so nothing may ask for
/// memory.
#[test]
fn reads_nothing_and_refuses_lengths_without_memory(rt: HostRuntime) {
    let alloc = rt.alloc();
    all_hold(
        &rt,
        &[
            ("Vec", reads_none::<Vec<u32>>(alloc)),
            ("Vec of bytes", reads_none::<Vec<u8>>(alloc)),
            ("VecDeque", reads_none::<VecDeque<u32>>(alloc)),
            ("BinaryHeap", reads_none::<BinaryHeap<u32>>(alloc)),
            ("BoxedSlice", reads_none::<BoxedSlice<u32>>(alloc)),
            ("RcSlice", refuses_lengths::<RcSlice<u32>>(alloc)),
            ("Arc of a Vec", refuses_lengths::<Arc<Vec<u32>>>(alloc)),
            ("CowSlice", reads_none::<CowSlice<'static, u32>>(alloc)),
            ("BTreeSet", reads_none::<BTreeSet<u32>>(alloc)),
            ("BTreeMap", reads_none::<BTreeMap<u32, u32>>(alloc)),
            ("HashSet", reads_none::<HashSet<u32>>(alloc)),
            ("HashMap", reads_none::<HashMap<u32, u32>>(alloc)),
            ("a list that is filled", reads_none::<Batch<u32>>(alloc)),
            ("a list with a loop", reads_none::<Pack<u32>>(alloc)),
            ("String", reads_none::<String>(alloc)),
            ("BoxedStr", reads_none::<BoxedStr>(alloc)),
            ("RcStr", refuses_lengths::<RcStr>(alloc)),
            ("CowStr", reads_none::<CowStr<'static>>(alloc)),
            ("CString", reads_none::<CString>(alloc)),
            ("PathBuf", reads_none::<PathBuf>(alloc)),
        ],
    );
    let (huge, long) = (HUGE, LONG);
    let lengths: (&[u8], &[u8]) = (&huge, &long);
    all_hold(
        &rt,
        &[
            ("Vec, borrowed", lends_none::<Vec<u32>>(alloc, lengths)),
            (
                "Vec of bytes, borrowed",
                lends_none::<Vec<u8>>(alloc, lengths),
            ),
            (
                "VecDeque, borrowed",
                lends_none::<VecDeque<u32>>(alloc, lengths),
            ),
            (
                "BinaryHeap, borrowed",
                lends_none::<BinaryHeap<u32>>(alloc, lengths),
            ),
            (
                "BoxedSlice, borrowed",
                lends_none::<BoxedSlice<u32>>(alloc, lengths),
            ),
            (
                "RcSlice, borrowed",
                lends_none::<RcSlice<u32>>(alloc, lengths),
            ),
            (
                "Arc of a Vec, borrowed",
                lends_none::<Arc<Vec<u32>>>(alloc, lengths),
            ),
            (
                "CowSlice, borrowed",
                lends_none::<CowSlice<'_, u8>>(alloc, lengths),
            ),
            (
                "BTreeSet, borrowed",
                lends_none::<BTreeSet<u32>>(alloc, lengths),
            ),
            (
                "BTreeMap, borrowed",
                lends_none::<BTreeMap<u32, u32>>(alloc, lengths),
            ),
            (
                "HashSet, borrowed",
                lends_none::<HashSet<u32>>(alloc, lengths),
            ),
            (
                "HashMap, borrowed",
                lends_none::<HashMap<u32, u32>>(alloc, lengths),
            ),
            ("String, borrowed", lends_none::<String>(alloc, lengths)),
            ("BoxedStr, borrowed", lends_none::<BoxedStr>(alloc, lengths)),
            ("RcStr, borrowed", lends_none::<RcStr>(alloc, lengths)),
            ("CowStr, borrowed", lends_none::<CowStr<'_>>(alloc, lengths)),
            ("CString, borrowed", lends_none::<CString>(alloc, lengths)),
            ("PathBuf, borrowed", lends_none::<PathBuf>(alloc, lengths)),
            ("&str", lends_none::<&str>(alloc, lengths)),
            ("&[u8]", lends_none::<&[u8]>(alloc, lengths)),
            ("Path", lends_none::<Path<'_>>(alloc, lengths)),
        ],
    );
}

/// Whether nothing is read by borrowed decoding, at the first call.
fn borrows_none<'a, T: BorrowDecode<&'a [u8], ()>>(alloc: Global, source: &'a [u8]) -> bool {
    let outcome: Result<(T, usize), DecodeError> = borrow_decode_from_slice(
        alloc,
        source,
        config::standard(),
    );
    matches!(outcome, Ok((_, 1)))
}

/// What owns its parts asks for no memory by borrowed decoding either.
#[test]
fn borrows_nothing_without_memory(rt: HostRuntime) {
    let alloc = rt.alloc();
    let none = NONE;
    all_true(
        &rt,
        &[
            borrows_none::<String>(alloc, &none),
            borrows_none::<CString>(alloc, &none),
            borrows_none::<BoxedStr>(alloc, &none),
            borrows_none::<PathBuf>(alloc, &none),
            borrows_none::<Vec<u16>>(alloc, &none),
            borrows_none::<VecDeque<u8>>(alloc, &none),
            borrows_none::<BinaryHeap<u8>>(alloc, &none),
            borrows_none::<BoxedSlice<u8>>(alloc, &none),
            borrows_none::<BTreeSet<u8>>(alloc, &none),
            borrows_none::<BTreeMap<u8, u8>>(alloc, &none),
            borrows_none::<HashSet<u8>>(alloc, &none),
            borrows_none::<HashMap<u8, u8>>(alloc, &none),
        ],
    );
}
