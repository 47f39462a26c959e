//! Structs without fields and of a tuple.

mod words;

/// Nothing, as a word.
#[derive(Clone, Copy, PartialEq)]
pub struct Nothing;

/// A length in millimetres.
#[derive(Clone, Copy, PartialEq)]
pub struct Millimetres(pub u32);

/// A place on a plane, as a tuple.
#[derive(Clone, Copy, PartialEq)]
pub struct Point(pub i32, pub i32);

/// One value.
#[derive(Clone, Copy, PartialEq)]
pub struct Wrapper<T>(pub T);
