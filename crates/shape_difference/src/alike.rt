//! Whether two values mean the same.
ghost use Rattle.std.specs.Prelude.{◌≡◌, string_bytes, pos};
ghost use Rattle.shape_difference.specs.Alike.{alike, is_nothing, is_same_natural, is_same_list, is_same_choice};
ghost use Rattle.bincode_shape.specs.Shapes.{each_passes};
ghost use Rattle.shape_difference.specs.Listed.{tests};

use bincode::shape::Value;

/// Whether the value means nothing, as a unit and an empty list do.
fn is_nothing(value: &Value) -> bool
    ensures { result ≡ is_nothing value.now }
{
    match value {
        Value::Unit => true,
        Value::List(items) => items.is_empty(),
        _ => false,
    }
}

/// Whether the two numbers are the same.
fn is_same_natural(number: u128, other: i128) -> bool
    ensures { result ≡ is_same_natural number other }
{
    match u128::try_from(other) {
        Ok(other) => number == other,
        Err(_) => false,
    }
}

/// Whether the two values mean the same, whatever their shapes: a number, for one, whatever its width.
#[cycle(alike)]
pub(crate) fn are_alike(value: &Value, other: &Value) -> bool
    ensures { result ≡ alike value.now other.now }
{
    match value {
        Value::Unit => is_nothing(other),
        Value::Bool(truth) => match other {
            Value::Bool(said) => *truth == *said,
            _ => false,
        },
        Value::Char(character) => match other {
            Value::Char(said) => *character == *said,
            _ => false,
        },
        Value::Text(text) => match other {
            Value::Text(said) => text.as_str() == said.as_str(),
            _ => false,
        },
        Value::Unsigned(number) => match other {
            Value::Unsigned(said) => *number == *said,
            Value::Signed(said) => is_same_natural(*number, *said),
            _ => false,
        },
        Value::Signed(number) => match other {
            Value::Unsigned(said) => is_same_natural(*said, *number),
            Value::Signed(said) => *number == *said,
            _ => false,
        },
        Value::List(items) => match other {
            Value::Unit => items.is_empty(),
            Value::List(others) => is_each_alike(items, others),
            _ => false,
        },
        Value::Optional(None) => match other {
            Value::Optional(None) => true,
            Value::Choice(0, said) => is_nothing(said),
            _ => false,
        },
        Value::Optional(Some(part)) => is_choice_alike(1, part, other),
        Value::Choice(index, part) => is_choice_alike(*index, part, other),
    }
}

/// Whether there are as many items, each of which means what the one of its place does.
#[cycle(alike)]
fn is_each_alike(items: &[Value], others: &[Value]) -> bool
    ensures { result ≡ each_passes (tests items.now) others.now }
{
    if items.len() != others.len() {
        return false;
    }
    for index in 0..items.len() {
        if !are_alike(&items[index], &others[index]) {
            return false;
        }
    }
    true
}

/// Whether the other value is this choice, with a part that means the same.
#[cycle(alike)]
fn is_choice_alike(index: u32, part: &Value, other: &Value) -> bool
    ensures { result ≡ is_same_choice index (is_nothing part.now) (alike part.now) other.now }
{
    match other {
        Value::Optional(None) => index == 0 && is_nothing(part),
        Value::Optional(Some(said)) => index == 1 && are_alike(part, said),
        Value::Choice(other_index, said) => index == *other_index && are_alike(part, said),
        _ => false,
    }
}
