//! Decoding of atomics.
use crate::make_by_parts::MakeByParts;
use std::cell::Cell;
use std::sync::atomic::{
    AtomicBool, AtomicI8, AtomicI16, AtomicI32, AtomicI64, AtomicIsize, AtomicU8, AtomicU16,
    AtomicU32, AtomicU64, AtomicUsize,
};

impl MakeByParts for AtomicBool {
    fn make_by_parts(parts: Cell<bool>) -> AtomicBool {
        AtomicBool::new(parts.into_inner())
    }
}

impl MakeByParts for AtomicU8 {
    fn make_by_parts(parts: Cell<u8>) -> AtomicU8 {
        AtomicU8::new(parts.into_inner())
    }
}

impl MakeByParts for AtomicU16 {
    fn make_by_parts(parts: Cell<u16>) -> AtomicU16 {
        AtomicU16::new(parts.into_inner())
    }
}

impl MakeByParts for AtomicU32 {
    fn make_by_parts(parts: Cell<u32>) -> AtomicU32 {
        AtomicU32::new(parts.into_inner())
    }
}

impl MakeByParts for AtomicU64 {
    fn make_by_parts(parts: Cell<u64>) -> AtomicU64 {
        AtomicU64::new(parts.into_inner())
    }
}

impl MakeByParts for AtomicUsize {
    fn make_by_parts(parts: Cell<usize>) -> AtomicUsize {
        AtomicUsize::new(parts.into_inner())
    }
}

impl MakeByParts for AtomicI8 {
    fn make_by_parts(parts: Cell<i8>) -> AtomicI8 {
        AtomicI8::new(parts.into_inner())
    }
}

impl MakeByParts for AtomicI16 {
    fn make_by_parts(parts: Cell<i16>) -> AtomicI16 {
        AtomicI16::new(parts.into_inner())
    }
}

impl MakeByParts for AtomicI32 {
    fn make_by_parts(parts: Cell<i32>) -> AtomicI32 {
        AtomicI32::new(parts.into_inner())
    }
}

impl MakeByParts for AtomicI64 {
    fn make_by_parts(parts: Cell<i64>) -> AtomicI64 {
        AtomicI64::new(parts.into_inner())
    }
}

impl MakeByParts for AtomicIsize {
    fn make_by_parts(parts: Cell<isize>) -> AtomicIsize {
        AtomicIsize::new(parts.into_inner())
    }
}
