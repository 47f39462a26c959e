//! Shapes of enums: `start_variants`, `put_variant` once for each variant, then `describe_variants`.
ghost use Rattle.std.specs.Prelude.{◌≡◌, ◌<◌, ◌+◌, ◌++◌, ◌∷◌, [], IfSome, length};
ghost use Rattle.bincode_base.specs.Setting.{Setting};
ghost use Rattle.bincode_spec.specs.Words.{tag_then_part, tag};
ghost use Rattle.bincode_shape.specs.declared.shape.Shape.{Shape};
ghost use Rattle.bincode_shape.specs.Describing.{Describes};
ghost use Rattle.bincode.specs.EnumShapes.{DescribesFirst, IsVariant};

use bincode_enums::enums::Enum;
use bincode_shape::described::Described;
use bincode_shape::shape::Shape;
use std::alloc::Global;

/// An empty list of shapes, to which `put_variant` appends one for each variant. Does not allocate.
pub fn start_variants<T: Enum>(alloc: Global) -> Vec<Shape>
    ensures { DescribesFirst 0 result.items T.choices.variants }
{
    Vec::new(alloc)
}

/// Appends the shape of variant `number`, which holds an `A`. `None` if an allocation is refused.
pub fn put_variant<T: Enum, A: Described>(
    alloc: Global,
    number: u32,
    shapes: Vec<Shape>,
) -> Option<Vec<Shape>>
    requires before { DescribesFirst number shapes.items T.choices.variants }
    requires next { IsVariant number T.choices.variants number A.words.format }
    ensures { IfSome result (λ put. DescribesFirst (number + 1) put.items T.choices.variants) }
{
    put_shape::<A>(alloc, shapes)
}

/// The shape of an enum whose variants are all in `shapes`.
pub fn describe_variants<T: Enum>(number: u32, shapes: Vec<Shape>) -> Shape
    requires each { DescribesFirst number shapes.items T.choices.variants }
    requires all { length T.choices.variants ≡ number }
    requires some { 0 < number }
    requires words { (s : Setting) → (T.words.format s).read ≡ (tag_then_part tag T.choices.variants s).read }
    ensures { Describes result T.words }
{
    Shape::Choice(shapes)
}

/// Appends the shape of a type. `None` if an allocation is refused.
fn put_shape<T: Described>(alloc: Global, shapes: Vec<Shape>) -> Option<Vec<Shape>>
    ensures { IfSome result (λ put. (part : Shape) × (put.items ≡ shapes.items ++ part ∷ [])
        × Describes part T.words) }
{
    let mut shapes = shapes;
    shapes.push(T::shape(alloc)?).ok()?;
    Some(shapes)
}
