//! How deep shapes are nested.
ghost use Rattle.std.specs.Prelude.{◌≡◌};
ghost use Rattle.bincode_shape.specs.Depth.{capped_depth, capped_deepest};

use crate::shape::Shape;

impl Shape {
    /// How deep the shape is nested: 0 for one that holds no other, else one more than the deepest that it holds. A
    /// list of numbers has 1, and so has a tuple without parts. At most `usize::MAX`. Calls that take a shape recurse
    /// as deep, so that a caller may want to refuse it; so does `depth` itself.
    #[cycle(depth)]
    pub fn depth(&self) -> usize
        ensures { result ≡ capped_depth self.now }
    {
        match self {
            Shape::Seq { claim: _, element } => element.depth().saturating_add(1),
            Shape::Array {
                len: _,
                claim: _,
                element,
            } => element.depth().saturating_add(1),
            Shape::Tuple(parts) => depth_of(parts).saturating_add(1),
            Shape::Optional(part) => part.depth().saturating_add(1),
            Shape::Choice(parts) => depth_of(parts).saturating_add(1),
            _ => 0,
        }
    }
}

/// The depth of the deepest part, and 0 without parts.
#[cycle(depth)]
fn depth_of(parts: &[Shape]) -> usize
    ensures { result ≡ capped_deepest parts.now }
{
    let mut deepest = 0;
    for part in parts {
        deepest = deepest.max(part.depth());
    }
    deepest
}
