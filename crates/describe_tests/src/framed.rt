//! What stores of frames hold by a shape, printed. The checks are Python's.

use crate::sources::{Interrupted, all_told, fails_after, tells};
use std::alloc::{AllocError, Global};
use test_helpers::streams::Breaking;

/// The frames of 7 and of 300.
const FRAMES: [u8; 20] = [
    1, 0, 0, 0, 7, 114, 125, 169, 169, 3, 0, 0, 0, 251, 44, 1, 226, 82, 158, 82,
];

/// The same with a changed bit of the second word.
const CHANGED: [u8; 20] = [
    1, 0, 0, 0, 7, 114, 125, 169, 169, 3, 0, 0, 0, 251, 45, 1, 226, 82, 158, 82,
];

/// The same with a second length of 1,114,115.
const LONG: [u8; 20] = [
    1, 0, 0, 0, 7, 114, 125, 169, 169, 3, 0, 17, 0, 251, 44, 1, 226, 82, 158, 82,
];

/// Frames of no bytes, of the first two bytes of 300, and of a 7 with two bytes after it.
const ODD: [u8; 29] = [
    0, 0, 0, 0, 199, 75, 103, 72, 2, 0, 0, 0, 251, 44, 24, 216, 49, 12, 3, 0, 0, 0, 7, 9, 9, 95,
    251, 207, 129,
];

/// The frame of a list of 64 items, of which none is there.
const CLAIMING: [u8; 9] = [1, 0, 0, 0, 64, 37, 4, 24, 60];

/// The line of 7.
const FIRST: &str = "{\"offset\":0,\"length\":9,\"value\":7}\n";

/// The lines of 7 and 300.
const BOTH: &str =
    "{\"offset\":0,\"length\":9,\"value\":7}\n{\"offset\":9,\"length\":11,\"value\":300}\n";

/// How a store ends that is cut in its second frame.
const TORN: &str = "truncated at byte 9: the input ends within a frame";

/// A changed bit of the second word; and lengths above the longest, after which nothing is known.
#[test]
fn tells_frames_apart(rt: HostRuntime) {
    let damaged = (
        "{\"offset\":0,\"length\":9,\"value\":7}\n{\"offset\":9,\"length\":11,\"damaged\":1}\n",
        "damaged",
    );
    let past = (
        "{\"offset\":0,\"length\":9,\"undecodable\":\"LimitExceeded\"}\n",
        "damaged",
    );
    let above = "at byte 9: the frame's length of 1114115 is above 1048576";
    let above_two = "at byte 9: the frame's length of 3 is above 2";
    all_told(
        &rt,
        rt.alloc(),
        &[
            (("--frames", "u16"), &[], ("", "whole")),
            (("--frames", "u16"), &FRAMES, (BOTH, "whole")),
            (("--frames", "u16"), &CHANGED, damaged),
            (("--frames", "u16"), &LONG, (FIRST, above)),
            (("--frames --longest 2097152", "u16"), &LONG, (FIRST, TORN)),
            (("--frames --longest 2", "u16"), &FRAMES, (FIRST, above_two)),
            (("--frames --longest 3", "u16"), &FRAMES, (BOTH, "whole")),
            (("--frames --limit 1KiB", "[u128]"), &CLAIMING, past),
        ],
    );
}

/// Each cut within the second frame is told.
#[test]
fn tells_torn_frames(rt: HostRuntime) {
    for end in 10..FRAMES.len() {
        let cut = FRAMES.get(..end).unwrap_or(&[]);
        assert!(rt; tells(rt.alloc(), ("--frames", "u16"), cut, (FIRST, TORN)));
    }
}

/// Words that are no encoding, or go on after one.
#[test]
fn tells_odd_words(rt: HostRuntime) {
    let odd = "{\"offset\":0,\"length\":8,\"undecodable\":\"UnexpectedEnd { additional: 1 }\"}\n\
        {\"offset\":8,\"length\":10,\"undecodable\":\"UnexpectedEnd { additional: 1 }\"}\n\
        {\"offset\":18,\"length\":11,\"longer\":2}\n";
    let counted = "{\"offset\":0,\"length\":8,\"value\":null}\n\
        {\"offset\":8,\"length\":10,\"longer\":2}\n{\"offset\":18,\"length\":11,\"longer\":3}\n";
    let many = "{\"offset\":0,\"length\":8,\"undecodable\":\"UnexpectedEnd { additional: 1 }\"}\n\
        {\"offset\":8,\"length\":10,\"values\":3}\n{\"offset\":18,\"length\":11,\"longer\":1}\n";
    all_told(
        &rt,
        rt.alloc(),
        &[
            (("--frames", "u16"), &ODD, (odd, "damaged")),
            (("--frames", "()"), &ODD, (counted, "damaged")),
            (("--frames --values 2", "(u8, u8)"), &ODD, (many, "damaged")),
        ],
    );
}

/// 100,000 zeros, and then these bytes.
fn after_zeros(alloc: Global, bytes: &[u8]) -> Result<Vec<u8>, AllocError> {
    let mut store = vec![in alloc; 0; 100_000]?;
    store.extend_from_slice(bytes)?;
    Ok(store)
}

/// Whether 12,500 frames of zeros, which share a line, and these bytes after them are told so.
fn tells_after_zeros(alloc: Global, bytes: &[u8], wanted: (&str, &str)) -> bool {
    match after_zeros(alloc, bytes) {
        Ok(store) => tells(alloc, ("--frames", "u16"), store.as_slice(), wanted),
        Err(_) => false,
    }
}

/// The line of the zeros.
const ZEROS: &str = "{\"offset\":0,\"length\":100000,\"damaged\":12500}\n";

/// The frame of 7, and two of zeros.
const BETWEEN: [u8; 25] = [
    1, 0, 0, 0, 7, 114, 125, 169, 169, 0, 0, 0, 0, 0, 0, 0, 0, 0, 0, 0, 0, 0, 0, 0, 0,
];

/// Damaged frames share a line, also before a whole one. A length of ones is above the longest.
#[test]
fn joins_damaged_frames(rt: HostRuntime) {
    let alloc = rt.alloc();
    let torn = "truncated at byte 100000: the input ends within a frame";
    let before = "{\"offset\":100000,\"length\":9,\"value\":7}\n\
        {\"offset\":100009,\"length\":16,\"damaged\":2}\ndamaged";
    let ones = "at byte 0: the frame's length of 4294967295 is above 1048576";
    assert!(rt;
        tells_after_zeros(alloc, &[], (ZEROS, "damaged"))
            && tells_after_zeros(alloc, &[0], (ZEROS, torn))
            && tells_after_zeros(alloc, &BETWEEN, (ZEROS, before))
            && tells(alloc, ("--frames", "u16"), [255; 9].as_slice(), ("", ones))
    );
}

/// One byte a call, each after an interrupted call, and a failure at the eighteenth call: twice as many bytes are read
/// each time, so that the first frame is printed after sixteen.
#[test]
fn reads_slow_stores(rt: HostRuntime) {
    let alloc = rt.alloc();
    let bytes = FRAMES.as_slice();
    let is_next = false;
    let words = ("--frames", "u16");
    let whole = (BOTH, "whole");
    assert!(rt;
        tells(alloc, words, Breaking { bytes, calls: 99 }, whole)
            && tells(alloc, words, Interrupted { bytes, is_next }, whole)
            && fails_after(alloc, words, Breaking { bytes, calls: 17 }, FIRST)
    );
}
