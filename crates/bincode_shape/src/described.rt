//! Types that have a shape.
ghost use Rattle.std.specs.Prelude.{IfSome, IsSome};
ghost use Rattle.bincode_shape.specs.Describing.{Describes};

use crate::shape::Shape;
use bincode_types::wire::Wire;
use std::alloc::Global;

/// A type that a shape describes. A struct returns the shape of its parts: `Parts::shape(alloc)`.
pub trait Described: Wire {
    /// Whether making the shape may allocate: not for a number, `bool`, `char`, `String`, `()` or a box of such; every
    /// other shape holds those of its parts on the heap.
    ghost shape_grows: { Type 0 } = { Unit {0} };

    /// Makes the shape, anew at each call. `None` only if an allocation is refused.
    fn shape(alloc: Global) -> Option<Shape>
        ensures described { IfSome result (λ shape. Describes shape Self.words) }
        ensures shaped { (shape_grows → ⊥) → IsSome result };
}
