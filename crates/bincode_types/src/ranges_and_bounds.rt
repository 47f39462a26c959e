//! Ranges and bounds from their parts.
ghost use Rattle.std.specs.Prelude.{◌≡◌};

use crate::by_parts::ByParts;
use crate::sums::VariantOf;
use std::ops::{Bound, Range};

/// The range with this start and end.
pub fn range_from_parts<T>(parts: (T, T)) -> Range<T>
    ensures { ⟦<Range<T> as ByParts>⟧.parts result ≡ parts }
{
    let (start, end) = parts;
    start..end
}

/// The bound with these parts.
pub fn bound_from_parts<T>(parts: <Bound<T> as ByParts>::Parts) -> Bound<T>
    ensures { ⟦<Bound<T> as ByParts>⟧.parts result ≡ parts }
{
    match parts.0 {
        VariantOf::This(()) => Bound::Unbounded,
        VariantOf::Other(VariantOf::This(value)) => Bound::Included(value),
        VariantOf::Other(VariantOf::Other(VariantOf::This(value))) => Bound::Excluded(value),
    }
}
