//! Shapes of types, and generic values.

/// The encoding of a type, described at run time: of a type of your own, or of a program that has no Rust types at all.
/// Calls that take a shape recurse as deep as it is nested, and so does dropping it: no depth is promised. `depth`
/// tells how deep a shape is.
#[derive(Debug, Drop, PartialEq)]
pub enum Shape {
    /// No bytes, like `()`.
    Unit,
    /// A truth value, like `bool`.
    Bool,
    /// A character, like `char`.
    Char,
    /// A length-prefixed text, like `String`.
    Text,
    U8,
    U16,
    U32,
    U64,
    U128,
    Usize,
    I8,
    I16,
    I32,
    I64,
    I128,
    Isize,
    /// A length-prefixed list, like `Vec<T>`.
    Seq {
        /// How many bytes an element claims. 0 counts as 1.
        claim: usize,
        /// The shape of each element.
        element: Box<Shape>,
    },
    /// `len` elements without a length prefix, like `[T; N]`.
    Array {
        /// The number of elements.
        len: usize,
        /// How many bytes an element claims. 0 counts as 1.
        claim: usize,
        /// The shape of each element.
        element: Box<Shape>,
    },
    /// Any number of parts in order, like a tuple.
    Tuple(Vec<Shape>),
    /// A byte 0, or a byte 1 and a part, like `Option<T>`.
    Optional(Box<Shape>),
    /// The tag of one of these parts, from 0 on, then that part, like an enum.
    Choice(Vec<Shape>),
}

/// A generic value: one of a type that a shape describes.
#[derive(Debug, Drop, PartialEq)]
pub enum Value {
    /// Of `Shape::Unit`.
    Unit,
    /// Of `Shape::Bool`.
    Bool(bool),
    /// Of `Shape::Char`.
    Char(char),
    /// Of `Shape::Text`.
    Text(String),
    /// Of the unsigned integers, within the range of the shape.
    Unsigned(u128),
    /// Of the signed integers, within the range of the shape.
    Signed(i128),
    /// Of `Shape::Seq`; of `Shape::Array`, with its number of items; and of `Shape::Tuple`, with an item for each part.
    List(Vec<Value>),
    /// Of `Shape::Optional`: nothing, or the part.
    Optional(Option<Box<Value>>),
    /// Of `Shape::Choice`: the index of the part, from 0 on, and the part.
    Choice(u32, Box<Value>),
}
