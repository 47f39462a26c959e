//! Part by part is not all there is: a whole may be read where its parts are not.

use bincode::config;
use bincode::shape::{Shape, Value, decode_shaped};
use bincode_evolution::evolution::reads_all;
use std::alloc::Global;

/// A byte, and an enum of one variant without bytes.
fn old_shape(alloc: Global) -> Option<Shape> {
    let mut variants = Vec::new(alloc);
    variants.push(Shape::Unit).ok()?;
    let mut parts = Vec::new(alloc);
    parts.push(Shape::U8).ok()?;
    parts.push(Shape::Choice(variants)).ok()?;
    Some(Shape::Tuple(parts))
}

/// A wider number, and an option.
fn new_shape(alloc: Global) -> Option<Shape> {
    let mut parts = Vec::new(alloc);
    parts.push(Shape::U32).ok()?;
    parts
        .push(Shape::Optional(Box::new(alloc, Shape::Text).ok()?))
        .ok()?;
    Some(Shape::Tuple(parts))
}

/// The number in the first part of what is read, whose second part is the first of its kind without bytes.
fn number_read(alloc: Global, shape: &Shape, input: &[u8]) -> Option<u128> {
    let (value, _) = decode_shaped(alloc, shape, input, config::legacy()).ok()?;
    match value {
        Value::List(parts) => match (parts.get(0), parts.get(1)) {
            (Some(Value::Unsigned(number)), Some(Value::Optional(None))) => Some(*number),
            (Some(Value::Unsigned(number)), Some(Value::Choice(0, _))) => Some(*number),
            _ => None,
        },
        _ => None,
    }
}

/// With fixed integers and the lowest byte first, `[7, 0, 0, 0, 0]` is 7 and the only variant by the one shape, and 7
/// and no text by the other, and so is each word of the old one. The rules look at the parts, and answer no.
fn reads_the_whole(alloc: Global) -> Option<bool> {
    let old = old_shape(alloc)?;
    let new = new_shape(alloc)?;
    let word = [7u8, 0, 0, 0, 0];
    Some(
        number_read(alloc, &old, &word) == Some(7)
            && number_read(alloc, &new, &word) == Some(7)
            && !reads_all(&new, &old, config::legacy()),
    )
}

/// Retries once, since an allocation may be refused.
#[test]
fn parts_are_not_all(rt: HostRuntime) {
    let wanted = Some(true);
    let told = reads_the_whole(rt.alloc()) == wanted || reads_the_whole(rt.alloc()) == wanted;
    assert!(rt; told);
}
