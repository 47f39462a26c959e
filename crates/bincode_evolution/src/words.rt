//! Which shapes have an encoding at all.
ghost use Rattle.std.specs.Prelude.{◌≡◌};
ghost use Rattle.std.specs.List.{list_all};
ghost use Rattle.bincode_evolution.specs.Rules.{has_words};
ghost use Rattle.bincode_evolution.specs.Lists.{any_has_words};

use bincode_shape::shape::Shape;

/// Whether some bytes are a word of the shape.
#[cycle(words)]
pub(crate) fn does_have_words(shape: &Shape) -> bool
    ensures { result ≡ has_words shape.now }
{
    match shape {
        Shape::Array {
            len,
            claim: _,
            element,
        } => *len == 0 || does_have_words(element),
        Shape::Tuple(parts) => do_all_have_words(parts),
        Shape::Choice(parts) => does_some_have_words(parts),
        _ => true,
    }
}

/// Whether each shape has words.
#[cycle(words)]
pub(crate) fn do_all_have_words(shapes: &[Shape]) -> bool
    ensures { result ≡ list_all has_words shapes.now }
{
    for shape in shapes {
        if !does_have_words(shape) {
            return false;
        }
    }
    true
}

/// Whether one of the shapes has words.
#[cycle(words)]
pub(crate) fn does_some_have_words(shapes: &[Shape]) -> bool
    ensures { result ≡ any_has_words shapes.now }
{
    for shape in shapes {
        if does_have_words(shape) {
            return true;
        }
    }
    false
}
