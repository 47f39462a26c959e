//! Shapes without parts, and when one of them reads all encodings of another.
ghost use Rattle.std.specs.Prelude.{◌≡◌};
ghost use Rattle.bincode_evolution.specs.Rules.{is_nothing, unsigned_width, signed_width, keeps, is_variable};

use bincode_base::config::IntEncoding;
use bincode_shape::shape::Shape;

/// Whether the shape takes no bytes and means nothing, like `()`, an empty tuple and an empty array.
pub(crate) fn is_nothing(shape: &Shape) -> bool
    ensures { result ≡ is_nothing shape.now }
{
    match shape {
        Shape::Unit => true,
        Shape::Array {
            len,
            claim: _,
            element: _,
        } => *len == 0,
        Shape::Tuple(parts) => parts.is_empty(),
        _ => false,
    }
}

/// How many bytes an unsigned integer has, if it has more than one.
pub(crate) fn unsigned_width(shape: &Shape) -> Option<usize>
    ensures { result ≡ unsigned_width shape.now }
{
    match shape {
        Shape::U16 => Some(2),
        Shape::U32 => Some(4),
        Shape::U64 | Shape::Usize => Some(8),
        Shape::U128 => Some(16),
        _ => None,
    }
}

/// How many bytes a signed integer has, if it has more than one.
pub(crate) fn signed_width(shape: &Shape) -> Option<usize>
    ensures { result ≡ signed_width shape.now }
{
    match shape {
        Shape::I16 => Some(2),
        Shape::I32 => Some(4),
        Shape::I64 | Shape::Isize => Some(8),
        Shape::I128 => Some(16),
        _ => None,
    }
}

/// Whether an integer of a new width reads those of an old one: a wider one does where the length varies, and only one
/// of the same width where it is fixed.
pub(crate) fn keeps(encoding: IntEncoding, old: usize, new: Option<usize>) -> bool
    ensures { result ≡ keeps encoding old new }
{
    match (encoding, new) {
        (_, None) => false,
        (IntEncoding::Fixed, Some(new)) => old == new,
        (IntEncoding::Variable, Some(new)) => old <= new,
    }
}

/// Whether the length of integers varies.
pub(crate) fn is_variable(encoding: IntEncoding) -> bool
    ensures { result ≡ is_variable encoding }
{
    matches!(encoding, IntEncoding::Variable)
}
