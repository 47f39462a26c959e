//! What a list claims for each element of a shape.
ghost use Rattle.std.specs.Prelude.{◌≡◌, max};
ghost use Rattle.shape_grammar.specs.Claims.{claim, claim_sum, greatest_claim, as_u128};

use bincode_shape::shape::Shape;

/// The claim size, in bytes, of the types that have this shape: that of `Vec` for a list, of `String` for a text, of
/// `Option` and `Result` for an optional part and a choice, and the sum over the parts of a tuple. At most
/// `usize::MAX`.
#[cycle(claims)]
pub fn claim_of(shape: &Shape) -> usize
    ensures { result ≡ as_u128 (claim shape.now) }
{
    match shape {
        Shape::Unit | Shape::Bool | Shape::U8 | Shape::I8 => 1,
        Shape::U16 | Shape::I16 => 2,
        Shape::Char | Shape::U32 | Shape::I32 => 4,
        Shape::U64 | Shape::Usize | Shape::I64 | Shape::Isize => 8,
        Shape::U128 | Shape::I128 => 16,
        Shape::Text | Shape::Seq { .. } => 24,
        Shape::Array {
            len,
            claim: _,
            element,
        } => claim_of(element).saturating_mul(*len).max(1),
        Shape::Tuple(parts) => claim_of_parts(parts),
        Shape::Optional(part) => claim_of(part).saturating_add(1),
        Shape::Choice(variants) => greatest_of(variants).saturating_add(4),
    }
}

/// The sum over the parts of a tuple, and 1 where there is none.
#[cycle(claims)]
fn claim_of_parts(parts: &[Shape]) -> usize
    ensures { result ≡ as_u128 (max (claim_sum parts.now) 1) }
{
    let mut sum = 0usize;
    for part in parts {
        sum = sum.saturating_add(claim_of(part));
    }
    sum.max(1)
}

/// The greatest claim of a variant's part.
#[cycle(claims)]
fn greatest_of(variants: &[Shape]) -> usize
    ensures { result ≡ as_u128 (greatest_claim variants.now) }
{
    let mut greatest = 0;
    for variant in variants {
        greatest = claim_of(variant).max(greatest);
    }
    greatest
}
