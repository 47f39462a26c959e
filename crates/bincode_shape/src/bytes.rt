//! Shapes whose encoding is always empty.
ghost use Rattle.std.specs.Prelude.{◌≡◌};
ghost use Rattle.std.specs.List.{list_all};
ghost use Rattle.bincode_shape.specs.Counts.{without_bytes};

use crate::shape::Shape;

/// Whether every encoding of the shape is empty: `Unit`, a tuple of such, and an array of such or without elements.
/// Every encoding of another shape has at least one byte.
#[cycle(bytes)]
pub fn has_no_bytes(shape: &Shape) -> bool
    ensures { result ≡ without_bytes shape.now }
{
    match shape {
        Shape::Unit => true,
        Shape::Array {
            len,
            claim: _,
            element,
        } => *len == 0 || has_no_bytes(element),
        Shape::Tuple(parts) => have_no_bytes(parts),
        _ => false,
    }
}

/// Whether every encoding of each part is empty.
#[cycle(bytes)]
fn have_no_bytes(parts: &[Shape]) -> bool
    ensures { result ≡ list_all without_bytes parts.now }
{
    for part in parts {
        if !has_no_bytes(part) {
            return false;
        }
    }
    true
}
