//! Shapes of numbers, `bool`, `char` and `()`.
use crate::described::Described;
use crate::shape::Shape;
use std::alloc::Global;

impl Described for () {
    ghost shape_grows = { ⊥ };

    fn shape(_alloc: Global) -> Option<Shape> {
        Some(Shape::Unit)
    }
}

impl Described for bool {
    ghost shape_grows = { ⊥ };

    fn shape(_alloc: Global) -> Option<Shape> {
        Some(Shape::Bool)
    }
}

impl Described for char {
    ghost shape_grows = { ⊥ };

    fn shape(_alloc: Global) -> Option<Shape> {
        Some(Shape::Char)
    }
}

impl Described for u8 {
    ghost shape_grows = { ⊥ };

    fn shape(_alloc: Global) -> Option<Shape> {
        Some(Shape::U8)
    }
}

impl Described for u16 {
    ghost shape_grows = { ⊥ };

    fn shape(_alloc: Global) -> Option<Shape> {
        Some(Shape::U16)
    }
}

impl Described for u32 {
    ghost shape_grows = { ⊥ };

    fn shape(_alloc: Global) -> Option<Shape> {
        Some(Shape::U32)
    }
}

impl Described for u64 {
    ghost shape_grows = { ⊥ };

    fn shape(_alloc: Global) -> Option<Shape> {
        Some(Shape::U64)
    }
}

impl Described for u128 {
    ghost shape_grows = { ⊥ };

    fn shape(_alloc: Global) -> Option<Shape> {
        Some(Shape::U128)
    }
}

impl Described for usize {
    ghost shape_grows = { ⊥ };

    fn shape(_alloc: Global) -> Option<Shape> {
        Some(Shape::Usize)
    }
}

impl Described for i8 {
    ghost shape_grows = { ⊥ };

    fn shape(_alloc: Global) -> Option<Shape> {
        Some(Shape::I8)
    }
}

impl Described for i16 {
    ghost shape_grows = { ⊥ };

    fn shape(_alloc: Global) -> Option<Shape> {
        Some(Shape::I16)
    }
}

impl Described for i32 {
    ghost shape_grows = { ⊥ };

    fn shape(_alloc: Global) -> Option<Shape> {
        Some(Shape::I32)
    }
}

impl Described for i64 {
    ghost shape_grows = { ⊥ };

    fn shape(_alloc: Global) -> Option<Shape> {
        Some(Shape::I64)
    }
}

impl Described for i128 {
    ghost shape_grows = { ⊥ };

    fn shape(_alloc: Global) -> Option<Shape> {
        Some(Shape::I128)
    }
}

impl Described for isize {
    ghost shape_grows = { ⊥ };

    fn shape(_alloc: Global) -> Option<Shape> {
        Some(Shape::Isize)
    }
}
