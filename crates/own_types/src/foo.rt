//! A struct that does not allocate, with every law trait, and with a shape.

mod words;

// bincode: with Writable, Inhabited, ConstantCharge, Described
/// Two numbers.
#[derive(Clone, Copy, PartialEq)]
pub struct Foo {
    pub a: u32,
    pub b: u32,
}
