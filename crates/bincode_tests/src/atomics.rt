//! Atomics, of which no contract says what they hold.

use crate::asserts::rows_hold;
use crate::encodings::is_encoded;
use bincode::config;
use std::sync::atomic::{
    AtomicBool, AtomicI8, AtomicI16, AtomicI32, AtomicI64, AtomicIsize, AtomicU8, AtomicU16,
    AtomicU32, AtomicU64, AtomicUsize, Ordering,
};
use test_helpers::checks::{keeps, read_front};

/// Row: an unsigned atomic of each width is encoded as its number.
#[test]
fn writes_unsigned_atomics(rt: HostRuntime) {
    let by = config::standard();
    rows_hold(
        &rt,
        &[
            ("true", is_encoded(&AtomicBool::new(true), &[1], by)),
            ("false", is_encoded(&AtomicBool::new(false), &[0], by)),
            ("u8", is_encoded(&AtomicU8::new(255), &[255], by)),
            ("u16", is_encoded(&AtomicU16::new(300), &[251, 44, 1], by)),
            (
                "u32",
                is_encoded(&AtomicU32::new(65_536), &[252, 0, 0, 1, 0], by),
            ),
            (
                "u64",
                is_encoded(
                    &AtomicU64::new(4_294_967_296),
                    &[253, 0, 0, 0, 0, 1, 0, 0, 0],
                    by,
                ),
            ),
            (
                "usize",
                is_encoded(&AtomicUsize::new(300), &[251, 44, 1], by),
            ),
        ],
    );
}

/// Row: a signed atomic of each width is encoded as its number.
#[test]
fn writes_signed_atomics(rt: HostRuntime) {
    let by = config::standard();
    rows_hold(
        &rt,
        &[
            ("i8", is_encoded(&AtomicI8::new(-128), &[128], by)),
            ("i16", is_encoded(&AtomicI16::new(-300), &[251, 87, 2], by)),
            (
                "i32",
                is_encoded(&AtomicI32::new(-65_536), &[252, 255, 255, 1, 0], by),
            ),
            (
                "i64",
                is_encoded(
                    &AtomicI64::new(-4_294_967_296),
                    &[253, 255, 255, 255, 255, 1, 0, 0, 0],
                    by,
                ),
            ),
            (
                "isize",
                is_encoded(&AtomicIsize::new(-300), &[251, 87, 2], by),
            ),
        ],
    );
}

/// Row: an atomic of each type is decoded, and encoded as the same bytes.
#[test]
fn keeps_atomics(rt: HostRuntime) {
    let alloc = rt.alloc();
    rows_hold(
        &rt,
        &[
            ("bool", keeps::<AtomicBool>(alloc, &[1])),
            ("u8", keeps::<AtomicU8>(alloc, &[255])),
            ("u16", keeps::<AtomicU16>(alloc, &[251, 44, 1])),
            ("u32", keeps::<AtomicU32>(alloc, &[252, 0, 0, 1, 0])),
            (
                "u64",
                keeps::<AtomicU64>(alloc, &[253, 0, 0, 0, 0, 1, 0, 0, 0]),
            ),
            ("usize", keeps::<AtomicUsize>(alloc, &[251, 44, 1])),
            ("i8", keeps::<AtomicI8>(alloc, &[128])),
            ("i16", keeps::<AtomicI16>(alloc, &[251, 87, 2])),
            ("i32", keeps::<AtomicI32>(alloc, &[252, 255, 255, 1, 0])),
            (
                "i64",
                keeps::<AtomicI64>(alloc, &[253, 255, 255, 255, 255, 1, 0, 0, 0]),
            ),
            ("isize", keeps::<AtomicIsize>(alloc, &[251, 87, 2])),
        ],
    );
}

/// Row: an atomic is encoded as what it holds at that time, and a decoded one holds what was read.
#[test]
fn follows_an_atomic(rt: HostRuntime) {
    let alloc = rt.alloc();
    let number = AtomicU32::new(5);
    assert!(rt; is_encoded(&number, &[5], config::standard()));
    number.store(300, Ordering::SeqCst);
    assert!(rt; is_encoded(&number, &[251, 44, 1], config::standard()));
    let read: Option<AtomicU32> = read_front(alloc, &[251, 44, 1], 3);
    assert!(rt; matches!(&read, Some(number) if number.load(Ordering::SeqCst) == 300));
}
