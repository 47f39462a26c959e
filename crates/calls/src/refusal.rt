//! What is replied to a frame that holds no request, or one whose reply is too long.
ghost use Rattle.std.specs.Prelude.{◌≡◌};
ghost use Rattle.calls.specs.Refusals.{fault_of};

mod words;

use bincode::error::DecodeError;
use thiserror::Error;

/// Why a frame gets no answer of the service. It is answered in its place; docs/STORES.md has its encoding.
#[derive(Clone, Copy, Debug, Drop, Error, PartialEq)]
pub enum Refusal {
    /// The check does not fit the length and the word.
    #[error("the frame is damaged")]
    Damaged,
    /// The length is above what the server takes. It is the last answer, since it is not known where a next frame
    /// begins.
    #[error("its length of {length} is above {most}")]
    TooLong {
        /// The length.
        length: u32,
        /// The greatest length that the server takes, in bytes.
        most: u32,
    },
    /// The word does not begin with a request within the limit.
    #[error("it is no request: {0}")]
    Undecodable(Fault),
    /// The word goes on after a request.
    #[error("bytes follow the {taken} of a request")]
    TrailingBytes {
        /// The number of bytes of the request.
        taken: u64,
    },
    /// The request was carried out, and its answer is not sent: it passes the limit, or is longer than a frame may be.
    #[error("its answer is too long to be sent")]
    AnswerTooLong,
}

/// What is wrong with a word: the errors of decoding, under their names, with the numbers that they tell.
#[derive(Clone, Copy, Debug, Drop, Error, PartialEq)]
pub enum Fault {
    /// It passes the limit.
    #[error("it passes the limit")]
    LimitExceeded,
    /// It ends within a value.
    #[error("it ends early by {additional} bytes")]
    UnexpectedEnd {
        /// By how many bytes the read fell short.
        additional: u64,
    },
    /// An enum has no variant of this tag.
    #[error("no variant has the tag {found}")]
    UnexpectedVariant {
        /// The tag that was read.
        found: u32,
    },
    /// The tag byte of a variable integer stands for a type that is too wide, or is reserved.
    #[error("a number has a wrong tag byte")]
    InvalidIntegerType,
    /// A `NonZero` integer is 0.
    #[error("a number is 0")]
    NonZeroTypeIsZero,
    /// The byte of a `bool` is neither 0 nor 1.
    #[error("the byte of a truth value is {0}")]
    InvalidBooleanValue(u8),
    /// The bytes of a `char` are not UTF-8.
    #[error("a character is not UTF-8")]
    InvalidCharEncoding,
    /// A text is not UTF-8.
    #[error("a text is not UTF-8")]
    Utf8,
    /// The seconds of a `Duration` do not fit 64 bits.
    #[error("a duration is too long")]
    InvalidDuration,
    /// A C string contains a zero byte.
    #[error("a text has a zero at byte {position}")]
    CStringNulError {
        /// The index of the first one.
        position: u64,
    },
    /// Another cause, of a type of the service's own.
    #[error("a value is refused")]
    Other,
}

impl Fault {
    /// What an error of decoding is told as.
    pub fn of_error(error: &DecodeError) -> Fault
        ensures { result ≡ fault_of error.now }
    {
        match error {
            DecodeError::LimitExceeded => Fault::LimitExceeded,
            DecodeError::UnexpectedEnd { additional } => Fault::UnexpectedEnd {
                additional: *additional as u64,
            },
            DecodeError::UnexpectedVariant { found, .. } => {
                Fault::UnexpectedVariant { found: *found }
            }
            DecodeError::UnlistedVariant { found, .. } => {
                Fault::UnexpectedVariant { found: *found }
            }
            DecodeError::InvalidIntegerType { .. } => Fault::InvalidIntegerType,
            DecodeError::NonZeroTypeIsZero { .. } => Fault::NonZeroTypeIsZero,
            DecodeError::InvalidBooleanValue(byte) => Fault::InvalidBooleanValue(*byte),
            DecodeError::InvalidCharEncoding(_) => Fault::InvalidCharEncoding,
            DecodeError::Utf8 { .. } => Fault::Utf8,
            DecodeError::InvalidDuration { .. } => Fault::InvalidDuration,
            DecodeError::CStringNulError { position } => Fault::CStringNulError {
                position: *position as u64,
            },
            _ => Fault::Other,
        }
    }
}
