//! Why two shapes are not compared to the end.

use shape_grammar::text::ShapeTextError;
use std::alloc::AllocError;
use std::{fmt, io};
use thiserror::Error;

/// Which of two shapes.
#[derive(Clone, Copy, Debug, PartialEq)]
pub enum Side {
    /// The shape by which is read.
    New,
    /// The shape by which was written.
    Old,
}

impl fmt::Display for Side {
    fn fmt<W: fmt::Write>(&self, f: &mut fmt::Formatter<W>) -> fmt::Result {
        f.write_str(match self {
            Side::New => "NEW",
            Side::Old => "OLD",
        })
    }
}

/// Why no more is written. What was written before stands.
#[derive(Debug, Drop, Error)]
pub enum CompareError {
    /// A text is no shape.
    #[error("{side} is no shape: {why}")]
    NoShape {
        side: Side,
        why: ShapeTextError,
    },
    /// A line of pairs is no shape.
    #[error("line {line}: {side} is no shape: {why}")]
    NoShapeIn {
        line: u64,
        side: Side,
        why: ShapeTextError,
    },
    /// No line follows after a new shape.
    #[error("line {line}: NEW has no OLD after it")]
    Unpaired {
        line: u64,
    },
    /// The lines could not be read.
    #[error("standard input: {0}")]
    Read(io::Error),
    /// A file with a text could not be read.
    #[error("{path}: {why}")]
    File {
        path: String,
        why: io::Error,
    },
    /// The output failed. A prefix of a line may have been written.
    #[error("{0}")]
    Write(io::Error),
    /// An allocation was refused.
    #[error("memory was refused")]
    Memory,
}

impl From<io::Error> for CompareError {
    fn from(why: io::Error) -> CompareError {
        CompareError::Write(why)
    }
}

impl From<AllocError> for CompareError {
    fn from(_refused: AllocError) -> CompareError {
        CompareError::Memory
    }
}

impl CompareError {
    /// Whether a text is no shape, or one is missing. If not, the input, the output or an allocation failed.
    pub fn is_of_texts(&self) -> bool {
        matches!(
            self,
            CompareError::NoShape { .. }
                | CompareError::NoShapeIn { .. }
                | CompareError::Unpaired { .. }
        )
    }
}
