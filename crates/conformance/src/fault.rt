//! The faults that the rows expect.

use bincode::error::{DecodeError, IntegerType};
use std::io::ErrorKind;

/// The errors of decoding that the rows distinguish, with their fields.
#[derive(Clone, Copy, PartialEq)]
pub enum Fault {
    /// The input ends too early; `Io` if it is a stream.
    UnexpectedEnd {
        additional: usize,
    },
    /// The input ends too early, by any number of bytes.
    EndsEarly,
    LimitExceeded,
    Utf8,
    InvalidIntegerType {
        expected: IntegerType,
        found: IntegerType,
    },
    NonZeroTypeIsZero {
        non_zero_type: IntegerType,
    },
    InvalidCharEncoding([u8; 4]),
    InvalidBooleanValue(u8),
    UnexpectedVariant {
        found: u32,
        min: u32,
        max: u32,
    },
    InvalidDuration {
        secs: u64,
        nanos: u32,
    },
    CStringNulError {
        position: usize,
    },
    EmptyEnum,
}

impl Fault {
    /// The fault that an error of a slice reports, if it is one of these.
    pub fn of(error: &DecodeError) -> Option<Fault> {
        Some(match error {
            DecodeError::UnexpectedEnd { additional } => Fault::UnexpectedEnd {
                additional: *additional,
            },
            DecodeError::LimitExceeded => Fault::LimitExceeded,
            DecodeError::Utf8 { inner: _ } => Fault::Utf8,
            DecodeError::InvalidIntegerType { expected, found } => {
                Fault::InvalidIntegerType {
                    expected: *expected,
                    found: *found,
                }
            }
            DecodeError::NonZeroTypeIsZero { non_zero_type } => {
                Fault::NonZeroTypeIsZero {
                    non_zero_type: *non_zero_type,
                }
            }
            DecodeError::InvalidCharEncoding(bytes) => Fault::InvalidCharEncoding(*bytes),
            DecodeError::InvalidBooleanValue(byte) => Fault::InvalidBooleanValue(*byte),
            DecodeError::UnexpectedVariant {
                type_name: _,
                found,
                min,
                max,
            } => {
                Fault::UnexpectedVariant {
                    found: *found,
                    min: *min,
                    max: *max,
                }
            }
            DecodeError::InvalidDuration { secs, nanos } => {
                Fault::InvalidDuration {
                    secs: *secs,
                    nanos: *nanos,
                }
            }
            DecodeError::CStringNulError { position } => Fault::CStringNulError {
                position: *position,
            },
            DecodeError::EmptyEnum { type_name: _ } => Fault::EmptyEnum,
            _ => return None,
        })
    }

    /// The fault that an error of a stream reports: where the stream ended, `Io` stands for `UnexpectedEnd`.
    pub fn of_stream(error: &DecodeError) -> Option<Fault> {
        match error {
            DecodeError::Io { inner, additional } if inner.kind() == ErrorKind::UnexpectedEof => {
                Some(Fault::UnexpectedEnd {
                    additional: *additional,
                })
            }
            DecodeError::UnexpectedEnd { additional: _ } => None,
            _ => Fault::of(error),
        }
    }

    /// Whether this is the fault that a row expects.
    pub fn meets(self, expected: Fault) -> bool {
        match (self, expected) {
            (Fault::UnexpectedEnd { additional: _ }, Fault::EndsEarly) => true,
            _ => self == expected,
        }
    }
}
