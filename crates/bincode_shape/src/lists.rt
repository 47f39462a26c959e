//! Shapes of lists, arrays, texts and boxes.
ghost use Rattle.std.specs.Prelude.{IfSome};
ghost use Rattle.bincode_base.specs.Setting.{Setting};
ghost use Rattle.bincode_spec.specs.Words.{list};
ghost use Rattle.bincode_shape.specs.Same.{SameWords};
ghost use Rattle.bincode_shape.specs.Shapes.{format_of};

use crate::described::Described;
use crate::shape::Shape;
use bincode_types::wire::Wire;
use std::alloc::Global;

/// The shape of a list of items of a type. `None` only if an allocation is refused.
#[tactic(auto, using(crate::proofs::Formats::seq_described))]
pub(crate) fn list_shape<T: Described>(alloc: Global) -> Option<Shape>
    ensures { IfSome result (λ shape. (s : Setting)
        → SameWords (format_of shape s) (list s T.words.claim (T.words.format s))) }
{
    let element = Box::new(alloc, T::shape(alloc)?).ok()?;
    Some(Shape::Seq {
        claim: T::claim_size(),
        element,
    })
}

impl<T: Described> Described for Vec<T> {
    fn shape(alloc: Global) -> Option<Shape> {
        list_shape::<T>(alloc)
    }
}

impl<T: Described, const N: usize> Described for [T; N] {
    #[tactic(auto, using(crate::proofs::Formats::array_described))]
    fn shape(alloc: Global) -> Option<Shape> {
        let element = Box::new(alloc, T::shape(alloc)?).ok()?;
        Some(Shape::Array {
            len: N,
            claim: T::claim_size(),
            element,
        })
    }
}

impl Described for String {
    ghost shape_grows = { ⊥ };

    fn shape(_alloc: Global) -> Option<Shape> {
        Some(Shape::Text)
    }
}

impl<T: Described> Described for Box<T> {
    ghost shape_grows = { T.shape_grows };

    fn shape(alloc: Global) -> Option<Shape> {
        T::shape(alloc)
    }
}
