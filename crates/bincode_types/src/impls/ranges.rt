//! `Wire` for ranges.
ghost use Rattle.std.specs.Prelude.{◌≡◌, false, refl};
ghost use Rattle.std.specs.Range.{range_inclusive_start, range_inclusive_end, range_inclusive_exhausted};

use crate::by_parts::{ByParts, SameParts};
use crate::laws::Exact;
use std::ops::{Range, RangeInclusive};

impl<T> ByParts for Range<T> {
    type Parts = (T, T);

    ghost parts = { λ v. (v.start, v.end) };
}

impl<T: Exact> SameParts<(T, T)> for Range<T> {
    ghost same_parts = { λ v w. refl };
}

impl<T> ByParts for RangeInclusive<T> {
    type Parts = (T, T);

    ghost parts = { λ v. (range_inclusive_start v, range_inclusive_end v) };

    // A decoded range is not exhausted.
    ghost promise = { λ v. record {
      OfValue = range_inclusive_exhausted v ≡ false;
      Promised = λ of_parts. (range_inclusive_exhausted v ≡ false) × of_parts;
      keeps = λ of_parts h. h.1;
      joins = λ of_parts alone h. (alone, h);
    } };
}
