//! Decoding of ranges.
use crate::make_by_parts::MakeByParts;
use bincode_types::ranges_and_bounds::range_from_parts;
use std::ops::{Range, RangeInclusive};

impl<T> MakeByParts for Range<T> {
    fn make_by_parts(parts: (T, T)) -> Range<T> {
        range_from_parts(parts)
    }
}

impl<T> MakeByParts for RangeInclusive<T> {
    fn make_by_parts((start, end): (T, T)) -> RangeInclusive<T> {
        RangeInclusive::new(start, end)
    }
}
