//! Shapes of options, and of enums whose tags count from 0.
ghost use Rattle.std.specs.Prelude.{◌≡◌, ◌<◌, IfSome, true, length, refl};
ghost use Rattle.std.proofs.Common.{arith};
ghost use Rattle.bincode_spec.specs.Words.{variant_tags, in_order};
ghost use Rattle.bincode_shape.specs.Describing.{DescribesVariants};

use crate::described::Described;
use crate::rows::put_shape;
use crate::shape::Shape;
use bincode_types::sums::{EnumOf, NoMoreVariants, VariantOf, Variants};
use bincode_types::wire::Wire;
use std::alloc::Global;

impl<T: Described> Described for Option<T> {
    #[tactic(auto, using(crate::proofs::Formats::option_described))]
    fn shape(alloc: Global) -> Option<Shape> {
        let part = Box::new(alloc, T::shape(alloc)?).ok()?;
        Some(Shape::Optional(part))
    }
}

impl<T: Described, U: Described> Described for Result<T, U> {
    fn shape(alloc: Global) -> Option<Shape> {
        let parts = put_shape::<T>(alloc, Vec::new(alloc))?;
        let parts = put_shape::<U>(alloc, parts)?;
        Some(Shape::Choice(parts))
    }
}

/// Variants whose parts all have a shape.
pub trait DescribedVariants: Variants {
    /// Appends the shapes of the parts. `None` if an allocation is refused.
    fn put_shapes(alloc: Global, shapes: Vec<Shape>) -> Option<Vec<Shape>>
        ensures { IfSome result (λ put. DescribesVariants shapes.items put.items Self.variants) };
}

impl<Of> DescribedVariants for NoMoreVariants<Of> {
    #[tactic(auto, using(crate::proofs::Formats::no_variants_described))]
    fn put_shapes(_alloc: Global, shapes: Vec<Shape>) -> Option<Vec<Shape>> {
        Some(shapes)
    }
}

impl<const TAG: u32, A: Described, Others: DescribedVariants> DescribedVariants
    for VariantOf<TAG, A, Others> {
    fn put_shapes(alloc: Global, shapes: Vec<Shape>) -> Option<Vec<Shape>> {
        let shapes = put_shape::<A>(alloc, shapes)?;
        Others::put_shapes(alloc, shapes)
    }
}

/// One to eight variants with the tags 0, 1 and so on.
pub trait CountedVariants: Variants<Tag = u32> {
    ghost counts_from_zero: { (0 < length Self.variants) × (in_order 0 (variant_tags Self.variants) ≡ true) };
}

/// The shape is a `Choice` of the shapes of the parts.
impl<Of: DescribedVariants + CountedVariants> Described for EnumOf<Of> {
    #[tactic(auto, using(crate::proofs::Formats::choice_described))]
    fn shape(alloc: Global) -> Option<Shape> {
        let parts = Of::put_shapes(alloc, Vec::new(alloc))?;
        Some(Shape::Choice(parts))
    }
}

impl<A: Wire, Of> CountedVariants for VariantOf<0, A, NoMoreVariants<Of>> {
    ghost counts_from_zero = { (omega arith, refl) };
}

impl<A: Wire, B: Wire, Of> CountedVariants
    for VariantOf<0, A, VariantOf<1, B, NoMoreVariants<Of>>> {
    ghost counts_from_zero = { (omega arith, refl) };
}

impl<A: Wire, B: Wire, C: Wire, Of> CountedVariants
    for VariantOf<0, A, VariantOf<1, B, VariantOf<2, C, NoMoreVariants<Of>>>> {
    ghost counts_from_zero = { (omega arith, refl) };
}

impl<A: Wire, B: Wire, C: Wire, D: Wire, Of> CountedVariants
    for VariantOf<0, A, VariantOf<1, B, VariantOf<2, C, VariantOf<3, D, NoMoreVariants<Of>>>>> {
    ghost counts_from_zero = { (omega arith, refl) };
}

impl<A: Wire, B: Wire, C: Wire, D: Wire, E: Wire, Of> CountedVariants
    for VariantOf<
        0,
        A,
        VariantOf<1, B, VariantOf<2, C, VariantOf<3, D, VariantOf<4, E, NoMoreVariants<Of>>>>>,
    > {
    ghost counts_from_zero = { (omega arith, refl) };
}

impl<A: Wire, B: Wire, C: Wire, D: Wire, E: Wire, F: Wire, Of> CountedVariants
    for VariantOf<
        0,
        A,
        VariantOf<
            1,
            B,
            VariantOf<2, C, VariantOf<3, D, VariantOf<4, E, VariantOf<5, F, NoMoreVariants<Of>>>>>,
        >,
    > {
    ghost counts_from_zero = { (omega arith, refl) };
}

impl<A: Wire, B: Wire, C: Wire, D: Wire, E: Wire, F: Wire, G: Wire, Of> CountedVariants
    for VariantOf<
        0,
        A,
        VariantOf<
            1,
            B,
            VariantOf<
                2,
                C,
                VariantOf<
                    3,
                    D,
                    VariantOf<4, E, VariantOf<5, F, VariantOf<6, G, NoMoreVariants<Of>>>>,
                >,
            >,
        >,
    > {
    ghost counts_from_zero = { (omega arith, refl) };
}

impl<A: Wire, B: Wire, C: Wire, D: Wire, E: Wire, F: Wire, G: Wire, H: Wire, Of> CountedVariants
    for VariantOf<
        0,
        A,
        VariantOf<
            1,
            B,
            VariantOf<
                2,
                C,
                VariantOf<
                    3,
                    D,
                    VariantOf<
                        4,
                        E,
                        VariantOf<5, F, VariantOf<6, G, VariantOf<7, H, NoMoreVariants<Of>>>>,
                    >,
                >,
            >,
        >,
    > {
    ghost counts_from_zero = { (omega arith, refl) };
}
