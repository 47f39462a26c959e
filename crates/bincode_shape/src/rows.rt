//! Shapes of tuples, from those of their parts.
ghost use Rattle.std.specs.Prelude.{◌≡◌, ◌++◌, ◌∷◌, [], IfSome};
ghost use Rattle.bincode_shape.specs.declared.shape.Shape.{Shape};
ghost use Rattle.bincode_shape.specs.Describing.{Describes, DescribesRow};

use crate::described::Described;
use crate::shape::Shape;
use bincode_types::by_parts::ByParts;
use bincode_types::rows::{Cons, Cons4, Tail};
use bincode_types::wire::Wire;
use std::alloc::Global;

/// A row whose parts all have a shape.
pub trait DescribedRow: Wire {
    /// Appends the shapes of the parts. `None` if an allocation is refused.
    fn put_shapes(alloc: Global, shapes: Vec<Shape>) -> Option<Vec<Shape>>
        ensures { IfSome result (λ put. DescribesRow shapes.items put.items Self.words) };
}

impl DescribedRow for () {
    #[tactic(auto, using(crate::proofs::Formats::none_described, crate::proofs::Formats::same_itself))]
    fn put_shapes(_alloc: Global, shapes: Vec<Shape>) -> Option<Vec<Shape>> {
        Some(shapes)
    }
}

impl<A: Described, Others: DescribedRow + Tail> DescribedRow for Cons<A, Others> {
    fn put_shapes(alloc: Global, shapes: Vec<Shape>) -> Option<Vec<Shape>> {
        let shapes = put_shape::<A>(alloc, shapes)?;
        Others::put_shapes(alloc, shapes)
    }
}

impl<
    A: Described,
    B: Described,
    C: Described,
    D: Described,
    Others: DescribedRow + Tail,
> DescribedRow for Cons4<A, B, C, D, Others> {
    fn put_shapes(alloc: Global, shapes: Vec<Shape>) -> Option<Vec<Shape>> {
        let shapes = put_shape::<A>(alloc, shapes)?;
        let shapes = put_shape::<B>(alloc, shapes)?;
        let shapes = put_shape::<C>(alloc, shapes)?;
        let shapes = put_shape::<D>(alloc, shapes)?;
        Others::put_shapes(alloc, shapes)
    }
}

/// The shape of a tuple, through the row that it is written as.
#[tactic(auto, using(crate::proofs::Formats::tuple_described))]
pub(crate) fn tuple_shape<T: ByParts>(alloc: Global) -> Option<Shape>
where
    T::Parts: DescribedRow,
    ensures { IfSome result (λ shape. Describes shape T.Parts.words) }
{
    let parts = T::Parts::put_shapes(alloc, Vec::new(alloc))?;
    Some(Shape::Tuple(parts))
}

/// Appends the shape of a type. `None` if an allocation is refused.
pub(crate) fn put_shape<T: Described>(alloc: Global, shapes: Vec<Shape>) -> Option<Vec<Shape>>
    ensures { IfSome result (λ put. (part : Shape) × (put.items ≡ shapes.items ++ part ∷ [])
        × Describes part T.words) }
{
    let mut shapes = shapes;
    shapes.push(T::shape(alloc)?).ok()?;
    Some(shapes)
}
