//! `Wire` for atomics: that of a cell of the number.

use crate::by_parts::ByParts;
use std::cell::Cell;
use std::sync::atomic::{
    AtomicBool, AtomicI8, AtomicI16, AtomicI32, AtomicI64, AtomicIsize, AtomicU8, AtomicU16,
    AtomicU32, AtomicU64, AtomicUsize,
};

impl ByParts for AtomicBool {
    type Parts = Cell<bool>;

    ghost parts = { λ v. record { value = tt } };
}

impl ByParts for AtomicU8 {
    type Parts = Cell<u8>;

    ghost parts = { λ v. record { value = tt } };
}

impl ByParts for AtomicU16 {
    type Parts = Cell<u16>;

    ghost parts = { λ v. record { value = tt } };
}

impl ByParts for AtomicU32 {
    type Parts = Cell<u32>;

    ghost parts = { λ v. record { value = tt } };
}

impl ByParts for AtomicU64 {
    type Parts = Cell<u64>;

    ghost parts = { λ v. record { value = tt } };
}

impl ByParts for AtomicUsize {
    type Parts = Cell<usize>;

    ghost parts = { λ v. record { value = tt } };
}

impl ByParts for AtomicI8 {
    type Parts = Cell<i8>;

    ghost parts = { λ v. record { value = tt } };
}

impl ByParts for AtomicI16 {
    type Parts = Cell<i16>;

    ghost parts = { λ v. record { value = tt } };
}

impl ByParts for AtomicI32 {
    type Parts = Cell<i32>;

    ghost parts = { λ v. record { value = tt } };
}

impl ByParts for AtomicI64 {
    type Parts = Cell<i64>;

    ghost parts = { λ v. record { value = tt } };
}

impl ByParts for AtomicIsize {
    type Parts = Cell<isize>;

    ghost parts = { λ v. record { value = tt } };
}
