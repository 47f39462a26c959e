//! An enum with variants of each kind.

mod words;

// bincode: with Described
/// A figure in the plane.
#[derive(Clone, Copy, PartialEq)]
pub enum Figure {
    Empty,
    Circle(u32),
    Rectangle(u32, u32),
    Triangle { a: u32, b: u32, c: u32 },
}
