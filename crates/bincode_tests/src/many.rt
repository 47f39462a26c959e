//! Texts of more than half a megabyte.

use crate::pieces::word_of;
use bincode::ffi::CString;
use std::alloc::Global;
use std::path::PathBuf;
use test_helpers::checks::{either, read_all_but_one};

/// Whether a C string of 600,000 bytes is read.
fn reads_c_string(alloc: Global, word: &[u8]) -> bool {
    match read_all_but_one::<CString>(alloc, word) {
        Some(text) => text.as_bytes().len() == 600_000,
        None => false,
    }
}

/// Whether a path of as many is, with room for no more.
fn reads_path(alloc: Global, word: &[u8]) -> bool {
    match read_all_but_one::<PathBuf>(alloc, word) {
        Some(path) => path.capacity() == 600_000,
        None => false,
    }
}

#[test]
fn reads_many_bytes(rt: HostRuntime) {
    let alloc = rt.alloc();
    let length = [252, 192, 39, 9, 0];
    let Some(word) = either(
        word_of(alloc, &length, 600_000),
        word_of(alloc, &length, 600_000),
    ) else {
        assert!(rt; false);
        return;
    };
    assert!(rt; reads_c_string(alloc, &word) && reads_path(alloc, &word));
}
