//! Why a description ends before the end of its input.

use crate::json::JsonError;
use crate::next::{NextError, is_cut};
use crate::spelling::text_of;
use bincode::error::DecodeError;
use bincode::shape::Shape;
use std::alloc::{AllocError, Global};
use std::io;
use thiserror::Error;

/// Why no more is printed. The lines before are.
#[derive(Debug, Drop, Error)]
pub enum DescribeError {
    /// The bytes at this offset begin with no encoding of the shape within the limit.
    #[error("no {shape} at byte {offset}: {why}")]
    NoWord {
        shape: String,
        offset: u64,
        why: DecodeError,
    },
    /// The input ends within the encoding at this offset.
    #[error("truncated at byte {offset}: the input ends within a value of {shape}")]
    Torn {
        shape: String,
        offset: u64,
    },
    /// An encoding of the shape has no bytes, so that the number of values is not known.
    #[error("a value of {shape} has no bytes: no count of them is known")]
    Empty {
        shape: String,
    },
    /// The input ends within the frame at this offset.
    #[error("truncated at byte {offset}: the input ends within a frame")]
    TornFrame {
        offset: u64,
    },
    /// The frame at this offset has a length above the greatest. Where the next one begins is not known.
    #[error("at byte {offset}: the frame's length of {length} is above {longest}")]
    TooLong {
        offset: u64,
        length: u32,
        longest: u32,
    },
    /// The input failed, or memory for what was read was refused.
    #[error("{0}")]
    Read(io::Error),
    /// The output failed. A prefix of a line may have been written.
    #[error("{0}")]
    Write(io::Error),
    /// The allocation of a text was refused.
    #[error("memory was refused")]
    Memory,
}

impl From<io::Error> for DescribeError {
    fn from(why: io::Error) -> DescribeError {
        DescribeError::Write(why)
    }
}

impl From<AllocError> for DescribeError {
    fn from(_refused: AllocError) -> DescribeError {
        DescribeError::Memory
    }
}

impl DescribeError {
    /// Whether the input was read and is damaged. If not, the input, the output or an allocation failed.
    pub fn is_damage(&self) -> bool {
        !matches!(
            self,
            DescribeError::Read(_) | DescribeError::Write(_) | DescribeError::Memory
        )
    }
}

/// The error of an input that goes on at this offset with no encoding of the shape.
pub(crate) fn stopped(alloc: Global, shape: &Shape, offset: u64, why: NextError) -> DescribeError {
    match why {
        NextError::NoWord(why) => no_word(alloc, shape, offset, why),
        NextError::Read(cause) => DescribeError::Read(cause),
    }
}

/// The error of no encoding at an offset, or `Memory` if the shape's text cannot be allocated.
pub(crate) fn no_word(
    alloc: Global,
    shape: &Shape,
    offset: u64,
    why: DecodeError,
) -> DescribeError {
    match text_of(alloc, shape) {
        Ok(shape) if is_cut(&why) => DescribeError::Torn { shape, offset },
        Ok(shape) => DescribeError::NoWord { shape, offset, why },
        Err(_) => DescribeError::Memory,
    }
}

/// The error of an encoding that was not written as JSON.
pub(crate) fn not_written(
    alloc: Global,
    shape: &Shape,
    offset: u64,
    why: JsonError,
) -> DescribeError {
    match why {
        JsonError::Write(cause) => DescribeError::Write(cause),
        JsonError::Decode(why) => no_word(alloc, shape, offset, why),
        JsonError::TooManyValues => no_word(alloc, shape, offset, DecodeError::LimitExceeded),
    }
}
