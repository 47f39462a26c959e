//! Lists, heaps, pointers, texts, sets and maps.

use crate::asserts::all_hold;
use crate::maps::{keeps_hashed, keeps_map, keeps_set};
use crate::texts::{FACE, shared_text, text};
use bincode::config;
use bincode::error::DecodeError;
use bincode::ffi::CString;
use own_types::batch::Batch;
use std::alloc::{AllocError, Global};
use std::borrow::{Cow, CowSlice, CowStr};
use std::boxed::{BoxedSlice, BoxedStr};
use std::collections::{BTreeSet, BinaryHeap, VecDeque};
use std::path::PathBuf;
use std::rc::{Rc, RcSlice};
use std::sync::Arc;
use test_helpers::checks::{
    comes_back, decoded, either, fills, is_written_as, keeps_value, read_word, written,
};

/// The numbers from 0, of which those from 251 on take three bytes or five.
fn numbers(alloc: Global, count: u32) -> Result<Vec<u32>, AllocError> {
    let mut list = Vec::new(alloc);
    for number in 0..count {
        list.push(number)?;
    }
    Ok(list)
}

/// All bytes from 0 to 255, again and again.
fn bytes(alloc: Global, times: u32) -> Result<Vec<u8>, AllocError> {
    let mut each = [0; 256];
    for byte in 0..=255u8 {
        each[usize::from(byte)] = byte;
    }
    let mut list = Vec::new(alloc);
    for _ in 0..times {
        list.extend_from_slice(&each)?;
    }
    Ok(list)
}

/// The numbers of a list. Retries once if an allocation is refused.
fn list_of(alloc: Global, count: u32) -> Option<Vec<u32>> {
    match numbers(alloc, count) {
        Ok(list) => Some(list),
        Err(_) => numbers(alloc, count).ok(),
    }
}

/// The numbers in one shared slice.
fn shared(alloc: Global, count: u32) -> Option<RcSlice<u32>> {
    let list = list_of(alloc, count)?;
    either(
        RcSlice::from_slice(alloc, list.as_slice()),
        RcSlice::from_slice(alloc, list.as_slice()),
    )
}

/// A list behind a pointer that is counted.
fn counted_list(alloc: Global) -> Option<Arc<Vec<u32>>> {
    either(
        Arc::new(alloc, list_of(alloc, 300)?),
        Arc::new(alloc, list_of(alloc, 300)?),
    )
}

/// A text behind a pointer that is counted.
fn counted_text(alloc: Global) -> Option<Arc<String>> {
    either(
        Arc::new(alloc, text(alloc, 300)?),
        Arc::new(alloc, text(alloc, 300)?),
    )
}

/// What is read back of the heap of the numbers from 0, in ascending order.
fn sorted_back(alloc: Global, count: u32) -> Option<Vec<u32>> {
    let heap = BinaryHeap::from(list_of(alloc, count)?);
    Some(comes_back(alloc, &heap)?.into_sorted_vec())
}

/// Whether the same bag is read back. The order in which the numbers of a heap are written is unspecified.
fn keeps_bag(alloc: Global, count: u32) -> bool {
    let sorted = sorted_back(alloc, count);
    sorted.is_some() && sorted == list_of(alloc, count)
}

/// Whether each list of so many numbers is kept, or of twenty times as many bytes.
fn keeps_lists(alloc: Global, count: u32) -> [(&'static str, bool); 7] {
    let times = count / 12;
    [
        ("Vec", keeps_value(alloc, list_of(alloc, count))),
        (
            "Vec of bytes",
            keeps_value(alloc, either(bytes(alloc, times), bytes(alloc, times))),
        ),
        (
            "VecDeque",
            keeps_value(alloc, list_of(alloc, count).map(VecDeque::from)),
        ),
        ("BinaryHeap", keeps_bag(alloc, count)),
        (
            "BoxedSlice",
            keeps_value(alloc, list_of(alloc, count).map(BoxedSlice::from)),
        ),
        ("RcSlice", keeps_value(alloc, shared(alloc, count))),
        (
            "a list of one's own",
            keeps_value(alloc, list_of(alloc, count).map(|items| Batch { items })),
        ),
    ]
}

/// Whether each text of so many characters of four bytes is kept.
fn keeps_texts(alloc: Global, count: u32) -> [(&'static str, bool); 4] {
    let owned: Option<CowStr<'_>> = text(alloc, count).map(|text| CowStr::Owned(text));
    [
        ("String", keeps_value(alloc, text(alloc, count))),
        (
            "BoxedStr",
            keeps_value(alloc, text(alloc, count).map(BoxedStr::from)),
        ),
        ("RcStr", keeps_value(alloc, shared_text(alloc, count))),
        ("CowStr", keeps_value(alloc, owned)),
    ]
}

/// A C string of the bytes of so many characters, of which none is zero.
fn c_string(alloc: Global, count: u32) -> Option<CString> {
    CString::new(text(alloc, count)?.into_bytes()).ok()
}

/// Whether the path and the C string of so many characters of four bytes are kept.
fn keeps_paths_and_c_strings(alloc: Global, count: u32) -> [(&'static str, bool); 2] {
    [
        (
            "PathBuf",
            keeps_value(alloc, text(alloc, count).map(PathBuf::from)),
        ),
        ("CString", keeps_value(alloc, c_string(alloc, count))),
    ]
}

/// Whether each pointer to a number, a list or a text is kept, and what may be borrowed.
fn keeps_pointers(alloc: Global) -> [(&'static str, bool); 7] {
    let slice: CowSlice<'_, u32> = CowSlice::Borrowed(&[1, 300, 7]);
    [
        (
            "Box",
            keeps_value(alloc, either(Box::new(alloc, 7u8), Box::new(alloc, 7u8))),
        ),
        (
            "Rc",
            keeps_value(alloc, either(Rc::new(alloc, 7u8), Rc::new(alloc, 7u8))),
        ),
        (
            "Arc",
            keeps_value(alloc, either(Arc::new(alloc, 7u8), Arc::new(alloc, 7u8))),
        ),
        ("Arc<Vec<T>>", keeps_value(alloc, counted_list(alloc))),
        ("Arc<String>", keeps_value(alloc, counted_text(alloc))),
        ("Cow", keeps_value(alloc, Some(Cow::Borrowed(&7u8)))),
        ("CowSlice", keeps_value(alloc, Some(slice))),
    ]
}

/// each type that takes memory
#[test]
fn keeps_a_value_of_each_type(rt: HostRuntime) {
    let alloc = rt.alloc();
    all_hold(&rt, &keeps_lists(alloc, 300));
    all_hold(&rt, &keeps_texts(alloc, 300));
    all_hold(&rt, &keeps_paths_and_c_strings(alloc, 300));
    all_hold(&rt, &keeps_pointers(alloc));
    all_hold(
        &rt,
        &[
            ("BTreeSet", keeps_set(alloc, 300)),
            ("BTreeMap", keeps_map(alloc, 300)),
            ("HashSet and HashMap", keeps_hashed(alloc, 300)),
        ],
    );
}

/// More than 100,000 numbers, and two megabytes.
#[test]
fn keeps_large_lists(rt: HostRuntime) {
    all_hold(&rt, &keeps_lists(rt.alloc(), 101_000));
}

/// Texts of 600,000 bytes.
#[test]
fn keeps_large_texts(rt: HostRuntime) {
    all_hold(&rt, &keeps_texts(rt.alloc(), 150_000));
}

/// A shared slice and a shared text have a block of their own, also where they are empty. And a text that is borrowed
/// is kept.
#[test]
fn keeps_what_is_shared_and_empty(rt: HostRuntime) {
    let alloc = rt.alloc();
    let borrowed: CowStr<'_> = CowStr::Borrowed(FACE);
    assert!(rt;
        keeps_value(alloc, shared(alloc, 0))
            && keeps_value(alloc, shared_text(alloc, 0))
            && keeps_value(alloc, Some(borrowed))
    );
}

/// A queue with 15 pushed at the back and 5 at the front.
fn pushed(alloc: Global) -> Result<VecDeque<u32>, AllocError> {
    let mut queue = VecDeque::new(alloc);
    queue.push_back(15)?;
    queue.push_front(5)?;
    Ok(queue)
}

/// The numbers from 1 to 5, in no order.
fn five(alloc: Global) -> Result<Vec<u32>, AllocError> {
    Ok(vec![in alloc; 3, 1, 5, 2, 4]?)
}

/// Whether the heap of 1 to 5 is encoded as six bytes, the first of them its length, and the same bag is read back.
fn keeps_five(alloc: Global) -> bool {
    let Some(list) = either(five(alloc), five(alloc)) else {
        return false;
    };
    let Some(encoding) = written(alloc, &BinaryHeap::from(list)) else {
        return false;
    };
    let Some(read) = read_word::<BinaryHeap<u32>>(alloc, &encoding) else {
        return false;
    };
    encoding.len() == 6
        && encoding.first() == Some(&5)
        && read.into_sorted_vec().as_slice() == [1, 2, 3, 4, 5].as_slice()
}

/// Whether 5, 5 and 1 are read as the set of 1 and 5, which is encoded as two items.
fn keeps_one_of_equal_items(alloc: Global) -> bool {
    let read = decoded(alloc, &[3, 5, 5, 1], config::standard());
    let Ok((set, 4)): Result<(BTreeSet<u8>, usize), DecodeError> = read else {
        return false;
    };
    set.len() == 2 && set.contains(&1) && set.contains(&5) && fills(&set, &[2, 1, 5])
}

/// Whether four bytes are read as pointers that own, where integers are fixed.
fn reads_pointers(alloc: Global) -> bool {
    let input = [4, 0, 0, 0, 0, 0, 0, 0, 1, 2, 3, 4];
    let read = decoded(alloc, &input, config::legacy());
    let Ok((list, 12)): Result<(Vec<Cow<'_, u8>>, usize), DecodeError> = read else {
        return false;
    };
    let wanted = [Cow::Owned(1), Cow::Owned(2), Cow::Owned(3), Cow::Owned(4)];
    list.as_slice() == wanted.as_slice()
}

/// Whether a text of one character is encoded so, and read back.
fn keeps_far_character(alloc: Global) -> bool {
    let encoding = [4, 240, 159, 152, 128];
    fills(&FACE, &encoding)
        && match read_word::<String>(alloc, &encoding) {
            Some(text) => text.as_str() == FACE && fills(&text, &encoding),
            None => false,
        }
}

#[test]
fn keeps_worked_rows(rt: HostRuntime) {
    let alloc = rt.alloc();
    all_hold(
        &rt,
        &[
            ("an item twice in a set", keeps_one_of_equal_items(alloc)),
            ("a text of one far character", keeps_far_character(alloc)),
            ("a heap of five", keeps_five(alloc)),
            (
                "bytes behind pointers that may borrow",
                reads_pointers(alloc),
            ),
            (
                "a queue from both ends",
                is_written_as(alloc, either(pushed(alloc), pushed(alloc)), &[2, 5, 15]),
            ),
        ],
    );
}
