//! Shapes that were parsed, with how deep they are nested.
ghost use Rattle.std.specs.Prelude.{◌≡◌, ◌≤◌, ◌++◌, ◌∷◌, [], max, OnOk};
ghost use Rattle.bincode_shape.specs.Depth.{depth, deepest};

use bincode_shape::shape::Shape;
use std::alloc::{AllocFailed, Global};

/// A shape that was parsed.
#[derive(Drop)]
pub(crate) struct Nested {
    pub(crate) shape: Shape,
    /// How many brackets, question marks and bars stand around its innermost part.
    pub(crate) levels: u32,
    ghost deep: { depth shape ≤ levels },
}

/// Shapes that were parsed, in order.
#[derive(Drop)]
pub(crate) struct Parts {
    pub(crate) shapes: Vec<Shape>,
    /// How many brackets, question marks and bars stand around the innermost part of any of them.
    pub(crate) levels: u32,
    ghost deep: { deepest shapes.items ≤ levels },
}

impl Parts {
    /// No shapes.
    pub(crate) fn new(alloc: Global) -> Parts
        ensures levels { result.levels ≤ 0 }
        ensures shapes { result.shapes.items ≡ [] }
    {
        Parts {
            shapes: Vec::new(alloc),
            levels: 0,
        }
    }

    /// Adds a shape at the end. If the allocation is refused, it fails and adds nothing.
    pub(crate) fn push(&mut self, part: Nested) -> Result<(), AllocFailed<Shape>>
        ensures levels { OnOk result (self.new.levels ≡ max self.old.levels part.levels) }
        ensures shapes { OnOk result (self.new.shapes.items ≡ self.old.shapes.items ++ part.shape ∷ []) }
    {
        let levels = self.levels.max(part.levels);
        self.shapes.push(part.shape)?;
        self.levels = levels;
        Ok(())
    }
}
