//! The contents of values that fit a shape.
ghost use Rattle.std.specs.Prelude.{◌≡◌, ℕ, Bool, true, List, string_bytes, String, Box};
ghost use Rattle.std.specs.declared.alloc.Global.{Global};
ghost use Rattle.std.specs.declared.vec.Vec.{Vec};
ghost use Rattle.bincode_shape.specs.declared.shape.Value as values;
ghost use Rattle.bincode_shape.specs.declared.shape.Value.{Value};
ghost use Rattle.bincode_shape.specs.Shapes.{is_truth, is_character, is_text, is_unsigned, is_signed, is_list};
ghost use Rattle.bincode_shape.specs.Shapes.{is_optional, is_choice, each_passes, picked_passes};
ghost use Rattle.bincode_shape.specs.Rows.{tests};

use bincode_shape::shape::{Shape, Value};

/// Unwraps a `Bool`.
pub(crate) fn truth_of(value: &Value) -> bool
    requires { is_truth value.now ≡ true }
    ensures { value.now ≡ values.Bool result }
{
    match value {
        Value::Bool(truth) => *truth,
        _ => unreachable!(),
    }
}

/// Unwraps a `Char`.
pub(crate) fn char_of(value: &Value) -> char
    requires { is_character value.now ≡ true }
    ensures { value.now ≡ values.Char result }
{
    match value {
        Value::Char(code) => *code,
        _ => unreachable!(),
    }
}

/// Unwraps a `Text`.
pub(crate) fn text_of(value: &Value) -> &str
    requires { is_text value.now ≡ true }
    ensures { (text : String Global) × (value.now ≡ values.Text text) × (result.now ≡ string_bytes text) }
{
    match value {
        Value::Text(text) => text.as_str(),
        _ => unreachable!(),
    }
}

/// Unwraps an `Unsigned`.
pub(crate) fn unsigned_of(value: &Value) -> u128
    requires { (width : ℕ) × (is_unsigned width value.now ≡ true) }
    ensures { value.now ≡ values.Unsigned result }
{
    match value {
        Value::Unsigned(number) => *number,
        _ => unreachable!(),
    }
}

/// Unwraps a `Signed`.
pub(crate) fn signed_of(value: &Value) -> i128
    requires { (width : ℕ) × (is_signed width value.now ≡ true) }
    ensures { value.now ≡ values.Signed result }
{
    match value {
        Value::Signed(number) => *number,
        _ => unreachable!(),
    }
}

/// Unwraps a `List`.
pub(crate) fn items_of(value: &Value) -> &[Value]
    requires { (test : List Value → Bool) × (is_list test value.now ≡ true) }
    ensures { (items : Vec Value Global) × (value.now ≡ values.List items) × (result.now ≡ items.items) }
{
    match value {
        Value::List(items) => items,
        _ => unreachable!(),
    }
}

/// Unwraps an `Optional`.
pub(crate) fn option_of(value: &Value) -> &Option<Box<Value>>
    requires { (test : Value → Bool) × (is_optional test value.now ≡ true) }
    ensures { value.now ≡ values.Optional result.now }
{
    match value {
        Value::Optional(option) => option,
        _ => unreachable!(),
    }
}

/// Unwraps a `List` with one item for each of these parts.
pub(crate) fn items_for<'a>(_parts: &[Shape], value: &'a Value) -> &'a [Value]
    requires { is_list (each_passes (tests _parts.now)) value.now ≡ true }
    ensures list { (items : Vec Value Global) × (value.now ≡ values.List items) × (result.now ≡ items.items) }
    ensures fit { each_passes (tests _parts.now) result.now ≡ true }
{
    items_of(value)
}

/// Unwraps a `Choice` of one of these parts.
pub(crate) fn choice_for<'a>(_parts: &[Shape], value: &'a Value) -> (u32, &'a Value)
    requires { is_choice (picked_passes (tests _parts.now)) value.now ≡ true }
    ensures choice { (held : Box Value Global) × (value.now ≡ values.Choice result.0 held)
        × (result.1.now ≡ held.value) }
    ensures fit { picked_passes (tests _parts.now) result.0 result.1.now ≡ true }
{
    match value {
        Value::Choice(index, held) => (*index, held),
        _ => unreachable!(),
    }
}
