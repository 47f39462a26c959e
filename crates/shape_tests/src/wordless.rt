//! Shapes without an encoding, which have no text: each shape reads all of none.

use bincode::config;
use bincode::shape::Shape;
use bincode_evolution::evolution::{has_words, reads_all};
use std::alloc::Global;

/// An enum without variants.
fn never(alloc: Global) -> Shape {
    Shape::Choice(Vec::new(alloc))
}

/// A tuple of these parts.
fn pair(alloc: Global, first: Shape, second: Shape) -> Option<Shape> {
    let mut parts = Vec::new(alloc);
    parts.push(first).ok()?;
    parts.push(second).ok()?;
    Some(Shape::Tuple(parts))
}

/// An enum of these variants.
fn either(alloc: Global, first: Shape, second: Shape) -> Option<Shape> {
    let mut parts = Vec::new(alloc);
    parts.push(first).ok()?;
    parts.push(second).ok()?;
    Some(Shape::Choice(parts))
}

/// An enum of one variant.
fn only(alloc: Global, part: Shape) -> Option<Shape> {
    let mut parts = Vec::new(alloc);
    parts.push(part).ok()?;
    Some(Shape::Choice(parts))
}

/// A list of these.
fn list(alloc: Global, element: Shape) -> Option<Shape> {
    Some(Shape::Seq {
        claim: 1,
        element: Box::new(alloc, element).ok()?,
    })
}

/// An array of these.
fn array(alloc: Global, len: usize, element: Shape) -> Option<Shape> {
    Some(Shape::Array {
        len,
        claim: 1,
        element: Box::new(alloc, element).ok()?,
    })
}

/// An option of this.
fn option(alloc: Global, part: Shape) -> Option<Shape> {
    Some(Shape::Optional(Box::new(alloc, part).ok()?))
}

/// Whether the new shape reads the old one in the variable encoding, and in the fixed one.
fn reads(new: Shape, old: Shape) -> (bool, bool) {
    (
        reads_all(&new, &old, config::standard()),
        reads_all(&new, &old, config::legacy()),
    )
}

/// Which of these have words.
fn with_words(alloc: Global) -> Option<[bool; 8]> {
    let no = never(alloc);
    let tuple = pair(alloc, Shape::U8, never(alloc))?;
    let some = array(alloc, 2, never(alloc))?;
    let none = array(alloc, 0, never(alloc))?;
    let seq = list(alloc, never(alloc))?;
    let maybe = option(alloc, never(alloc))?;
    let one = either(alloc, never(alloc), Shape::U8)?;
    let neither = either(alloc, never(alloc), never(alloc))?;
    Some([
        has_words(&no),
        has_words(&tuple),
        has_words(&some),
        has_words(&none),
        has_words(&seq),
        has_words(&maybe),
        has_words(&one),
        has_words(&neither),
    ])
}

#[test]
fn tells_which_have_words(rt: HostRuntime) {
    let wanted = Some([false, false, false, true, true, true, true, false]);
    let told = with_words(rt.alloc()) == wanted || with_words(rt.alloc()) == wanted;
    assert!(rt; told);
}

/// What is read of shapes without words, and of those that hold some.
fn reads_of_none(alloc: Global) -> Option<[(bool, bool); 12]> {
    Some([
        reads(Shape::U8, never(alloc)),
        reads(never(alloc), Shape::U8),
        reads(never(alloc), never(alloc)),
        reads(Shape::Text, pair(alloc, Shape::U8, never(alloc))?),
        reads(Shape::Text, array(alloc, 3, never(alloc))?),
        reads(Shape::Text, array(alloc, 0, never(alloc))?),
        reads(list(alloc, Shape::U8)?, list(alloc, never(alloc))?),
        reads(Shape::Unit, list(alloc, never(alloc))?),
        reads(option(alloc, Shape::U8)?, option(alloc, never(alloc))?),
        reads(only(alloc, Shape::Unit)?, option(alloc, never(alloc))?),
        reads(
            only(alloc, Shape::U8)?,
            either(alloc, Shape::U8, never(alloc))?,
        ),
        reads(Shape::Bool, either(alloc, never(alloc), never(alloc))?),
    ])
}

#[test]
fn reads_all_of_none(rt: HostRuntime) {
    let both = (true, true);
    let no = (false, false);
    let wanted = Some([
        both,
        no,
        both,
        both,
        both,
        no,
        both,
        no,
        both,
        (true, false),
        both,
        both,
    ]);
    let told = reads_of_none(rt.alloc()) == wanted || reads_of_none(rt.alloc()) == wanted;
    assert!(rt; told);
}
