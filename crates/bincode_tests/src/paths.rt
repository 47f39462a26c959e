//! Paths.

use std::path::{Path, PathBuf};
use test_helpers::checks::{borrowed, is_written_as, read_word};

/// The text of a path.
const FOO: &str = "C:/Program Files/Foo";

/// Its encoding.
static WORD: [u8; 21] = [
    20, 67, 58, 47, 80, 114, 111, 103, 114, 97, 109, 32, 70, 105, 108, 101, 115, 47, 70, 111, 111,
];

/// Row: a path of 21 bytes.
#[test]
fn keeps_a_path(rt: HostRuntime) {
    let alloc = rt.alloc();
    let Some(path) = read_word::<PathBuf>(alloc, &WORD) else {
        assert!(rt; false);
        return;
    };
    assert!(rt; path.as_str() == FOO && is_written_as(alloc, Some(path), &WORD));
}

#[test]
fn lends_a_path(rt: HostRuntime) {
    let Ok((path, 21)) = borrowed::<Path<'_>>(rt.alloc(), &WORD) else {
        assert!(rt; false);
        return;
    };
    assert!(rt; path.as_str() == FOO && is_written_as(rt.alloc(), Some(path), &WORD));
}
