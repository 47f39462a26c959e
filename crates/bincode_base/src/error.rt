//! The errors of encoding and decoding. docs/FORMAT.md, section 10, says which fault of an input is reported first.
ghost use Rattle.std.specs.Prelude.{◌≡◌, IfOk};
ghost use Rattle.bincode_base.specs.AllowedTags.{TellsAllowed, IsUnexpected};
ghost use Rattle.bincode_base.specs.SignedNames.{signed_name, signed_error};

use crate::short_text::{ShortText, TypeName};
use std::alloc::{AllocError, Global};
use std::error::Error;
use std::io::ErrorKind;
use std::mem::size_of;
use std::str::Utf8Error;
use std::{fmt, io};

/// Why a value could not be encoded.
#[derive(Debug, Drop)]
pub enum EncodeError {
    /// The writer lacks room for the next piece, or its count of bytes would pass 64 bits.
    UnexpectedEnd,
    /// A `RefCell` is mutably borrowed.
    RefCellAlreadyBorrowed {
        /// The name of the cell type.
        type_name: ShortText,
    },
    /// A lock could not be taken. Never returned by the library: it is for your own types.
    LockFailed {
        /// The name of the lock type.
        type_name: ShortText,
    },
    /// A `std::io` writer failed.
    Io {
        /// The error of the stream.
        inner: StreamError,
        /// The number of bytes written before the piece that failed.
        index: usize,
    },
    /// The path is not UTF-8. Never returned: paths are UTF-8 here.
    InvalidPathCharacters,
    /// An allocation was refused.
    Memory,
    /// Another cause, in a short text: for your own types, and for values that do not fit a shape.
    Other(ShortText),
    /// Another cause, in a text. Never returned by the library: it is for your own types.
    OtherString(Box<String>),
}

/// Why bytes could not be decoded.
#[derive(Debug, Drop)]
pub enum DecodeError {
    /// The input ended within a value.
    UnexpectedEnd {
        /// By how many bytes the read fell short.
        additional: usize,
    },
    /// The charges passed the limit of the configuration.
    LimitExceeded,
    /// The tag byte of a variable integer stands for a type that is too wide, or is reserved.
    InvalidIntegerType {
        /// The type that was read.
        expected: IntegerType,
        /// The type that the tag byte stands for.
        found: IntegerType,
    },
    /// A `NonZero` integer was decoded as 0.
    NonZeroTypeIsZero {
        /// The type of the integer.
        non_zero_type: IntegerType,
    },
    /// Unknown variant tag; the valid tags are `min..=max`.
    UnexpectedVariant {
        /// The type that was read.
        type_name: TypeName,
        /// The tag that was read.
        found: u32,
        /// The lowest valid tag.
        min: u32,
        /// The highest valid tag.
        max: u32,
    },
    /// Unknown variant tag; the valid tags are listed.
    UnlistedVariant {
        /// The type that was read.
        type_name: TypeName,
        /// The tag that was read.
        found: u32,
        /// The valid tags.
        allowed: Box<Vec<u32>>,
    },
    /// A text is not UTF-8.
    Utf8 {
        /// Where it is not, and why.
        inner: Utf8Error,
    },
    /// The bytes of a `char` are not UTF-8: those that were read, then zeros.
    InvalidCharEncoding([u8; 4]),
    /// The byte of a `bool` is neither 0 nor 1.
    InvalidBooleanValue(u8),
    /// A list has another length than the array it is decoded into. Never returned by the library: for your own types.
    ArrayLengthMismatch {
        /// The length of the array.
        required: usize,
        /// The length of the list.
        found: usize,
    },
    /// A length does not fit `usize`. Never returned: `usize` has 64 bits here.
    OutsideUsizeRange(u64),
    /// An enum without variants was decoded.
    EmptyEnum {
        /// The name of the enum.
        type_name: ShortText,
    },
    /// The seconds of a `Duration`, with those carried from its nanoseconds, do not fit 64 bits.
    InvalidDuration {
        /// The seconds as read.
        secs: u64,
        /// The nanoseconds as read.
        nanos: u32,
    },
    /// A C string contains a zero byte.
    CStringNulError {
        /// The index of the first one.
        position: usize,
    },
    /// A `std::io` reader failed, or ended within a value.
    Io {
        /// The error of the stream.
        inner: StreamError,
        /// By how many bytes the read fell short.
        additional: usize,
    },
    /// An allocation was refused.
    Memory,
    /// Another cause, in a short text. Never returned by the library: it is for your own types.
    Other(ShortText),
    /// Another cause, in a text. Never returned by the library: it is for your own types.
    OtherString(Box<String>),
}

// A call that is not inlined returns its result through memory, and an error is the largest part of it.
const _: () = prove!(size_of::<EncodeError>() <= 24);

const _: () = prove!(size_of::<DecodeError>() <= 24);

/// The error of a stream of `std::io`: its kind, and the error number of the operating system if there is one.
#[derive(Clone, Copy, Debug, PartialEq)]
pub struct StreamError {
    kind: ErrorKind,
    code: Option<i32>,
}

impl StreamError {
    ghost use Rattle.bincode_base.specs.StreamError.{kind_of, code_of};

    /// The kind of the error.
    pub fn kind(&self) -> ErrorKind
        ensures { result ≡ kind_of self.now }
    {
        self.kind
    }

    /// The error number of the operating system, if the error came from it.
    pub fn raw_os_error(&self) -> Option<i32>
        ensures { result ≡ code_of self.now }
    {
        self.code
    }
}

impl From<io::Error> for StreamError {
    ghost use Rattle.std.specs.IoError.{error_kind, raw_os_error};
    ghost use Rattle.bincode_base.specs.StreamError.{kind_of, code_of};

    ghost from_gives = { λ e s. (kind_of s ≡ error_kind e) × (code_of s ≡ raw_os_error e) };

    fn from(error: io::Error) -> StreamError {
        StreamError {
            kind: error.kind(),
            code: error.raw_os_error(),
        }
    }
}

/// The valid tags of an enum.
#[derive(Clone, Copy, Debug, PartialEq, Eq)]
pub enum AllowedEnumVariants<'a> {
    /// All of `min..=max`.
    Range {
        /// The lowest.
        min: u32,
        /// The highest.
        max: u32,
    },
    /// These.
    Allowed(&'a [u32]),
}

/// An integer type, as errors name it.
#[derive(Clone, Copy, PartialEq, Eq)]
pub enum IntegerType {
    U8,
    U16,
    U32,
    U64,
    U128,
    Usize,

    I8,
    I16,
    I32,
    I64,
    I128,
    Isize,

    /// The tag byte 255, which stands for no type.
    Reserved,
}

impl IntegerType {
    /// The signed type of this width. A signed type and `Reserved` are returned as they are.
    pub fn into_signed(self) -> IntegerType
        ensures { result ≡ signed_name self }
    {
        match self {
            IntegerType::U8 => IntegerType::I8,
            IntegerType::U16 => IntegerType::I16,
            IntegerType::U32 => IntegerType::I32,
            IntegerType::U64 => IntegerType::I64,
            IntegerType::U128 => IntegerType::I128,
            IntegerType::Usize => IntegerType::Isize,
            other => other,
        }
    }

    /// The name of the variant.
    fn name(self) -> &'static str {
        match self {
            IntegerType::U8 => "U8",
            IntegerType::U16 => "U16",
            IntegerType::U32 => "U32",
            IntegerType::U64 => "U64",
            IntegerType::U128 => "U128",
            IntegerType::Usize => "Usize",
            IntegerType::I8 => "I8",
            IntegerType::I16 => "I16",
            IntegerType::I32 => "I32",
            IntegerType::I64 => "I64",
            IntegerType::I128 => "I128",
            IntegerType::Isize => "Isize",
            IntegerType::Reserved => "Reserved",
        }
    }
}

impl fmt::Debug for IntegerType {
    fn fmt<W: fmt::Write>(&self, f: &mut fmt::Formatter<W>) -> fmt::Result {
        f.write_str(self.name())
    }
}

impl DecodeError {
    /// The error for an unknown tag. A list of valid tags is copied to the heap; if that allocation is refused,
    /// `DecodeError::Memory` is returned instead. A range does not allocate.
    pub fn unexpected_variant(
        alloc: Global,
        type_name: TypeName,
        found: u32,
        allowed: AllowedEnumVariants<'_>,
    ) -> DecodeError
        ensures { IsUnexpected type_name found allowed.entry result }
    {
        match allowed {
            AllowedEnumVariants::Range { min, max } => DecodeError::UnexpectedVariant {
                type_name,
                found,
                min,
                max,
            },
            AllowedEnumVariants::Allowed(tags) => match boxed_list(alloc, tags) {
                Ok(allowed) => DecodeError::UnlistedVariant {
                    type_name,
                    found,
                    allowed,
                },
                Err(_) => DecodeError::Memory,
            },
        }
    }

    /// The valid tags, if the error is one of an unknown tag; else `None`.
    pub fn allowed(&self) -> Option<AllowedEnumVariants<'_>>
        ensures { TellsAllowed self.now result }
    {
        match self {
            DecodeError::UnexpectedVariant { min, max, .. } => {
                Some(AllowedEnumVariants::Range {
                    min: *min,
                    max: *max,
                })
            }
            DecodeError::UnlistedVariant { allowed, .. } => Some(AllowedEnumVariants::Allowed(
                allowed,
            )),
            _ => None,
        }
    }

    /// Names the signed types in `InvalidIntegerType`. Other errors are returned as they are.
    pub fn change_integer_type_to_signed(self) -> DecodeError
        ensures { result ≡ signed_error self }
    {
        match self {
            DecodeError::InvalidIntegerType { expected, found } => DecodeError::InvalidIntegerType {
                expected: expected.into_signed(),
                found: found.into_signed(),
            },
            other => other,
        }
    }
}

/// Copies a list to the heap.
fn boxed_list(alloc: Global, list: &[u32]) -> Result<Box<Vec<u32>>, AllocError>
    ensures { IfOk result (λ copy. copy.value.items ≡ list.now) }
{
    let copy = list.to_vec(alloc)?;
    let boxed = Box::new(alloc, copy)?;
    Ok(boxed)
}

impl fmt::Display for EncodeError {
    fn fmt<W: fmt::Write>(&self, f: &mut fmt::Formatter<W>) -> fmt::Result {
        write!(f, "{self:?}")
    }
}

impl Error for EncodeError {}

impl fmt::Display for DecodeError {
    fn fmt<W: fmt::Write>(&self, f: &mut fmt::Formatter<W>) -> fmt::Result {
        write!(f, "{self:?}")
    }
}

impl Error for DecodeError {}
