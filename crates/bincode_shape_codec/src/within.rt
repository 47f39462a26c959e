//! The size of an encoding of a shape, and the error for one of too many values.

use bincode_base::error::DecodeError;
use std::error::Error;
use std::fmt;

/// The size of an encoding of a shape.
#[derive(Clone, Copy, Debug, PartialEq)]
pub struct Measure {
    /// How many values `decode_shaped` makes of it: one for the whole, and one for each part, element and part of a
    /// part, even without bytes. At most `u128::MAX`.
    pub values: u128,
    /// Its length in bytes.
    pub bytes: usize,
}

/// Why bytes could not be decoded into a bounded number of values.
#[derive(Debug, Drop)]
pub enum DecodeWithinError {
    /// The bytes begin with an encoding within the limit, of which more values would be made than are allowed.
    TooManyValues {
        /// How many would be made; at most `u128::MAX`.
        values: u128,
        /// How many are allowed.
        most: usize,
    },
    /// Decoding failed.
    Decode(DecodeError),
}

impl fmt::Display for DecodeWithinError {
    fn fmt<W: fmt::Write>(&self, f: &mut fmt::Formatter<W>) -> fmt::Result {
        write!(f, "{self:?}")
    }
}

impl Error for DecodeWithinError {}
