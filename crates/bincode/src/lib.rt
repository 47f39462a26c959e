//! Compact binary encoding and decoding, in the format of the Rust crate bincode 2.0.1.
//!
//! A whole program, from `crates/hello/src/main.rt`:
//! ```
//! use bincode::{config, decode_from_slice, encode_to_vec};
//!
//! fn main(rt: HostRuntime) -> anyhow::Result<()> {
//!     let config = config::standard().with_limit::<4096>();
//!     let bytes = encode_to_vec(rt.alloc(), (300u32, "tea"), config)?;
//!     println!(rt; "{bytes:?}")?;
//!     let (record, taken): ((u32, String), usize) = decode_from_slice(rt.alloc(), &bytes, config)?;
//!     println!(rt; "{record:?}, from {taken} bytes")?;
//!     Ok(())
//! }
//! ```
//! `rt.alloc()` is the allocator. Each call that allocates takes it first, and may fail with `Memory`.
//!
//! What to do about an error, from `crates/guide/src/errors.rt`:
//! ```
//! match decode_from_slice(alloc, bytes, config) {
//!     Ok((message, taken)) => Received::Message(message, taken),
//!     Err(DecodeError::UnexpectedEnd { .. }) => Received::ReadMore,
//!     Err(DecodeError::LimitExceeded) => Received::TooLarge,
//!     Err(DecodeError::Memory) => Received::TryLater,
//!     Err(error) => Received::Malformed(error),
//! }
//! ```
//! docs/GUIDE.md has more such code, task by task, and says which call to take.
#![tactic(auto)]

mod borrow;
pub mod checked;
pub mod de;
pub mod enc;
mod enum_shapes;
mod exact;
mod next;
mod reader;
mod shaped;
mod short_slice;
mod slice;
mod streams;
mod vec;
mod window;
mod writer;

/// Encoding into memory that the call takes. `Encode`, `Decode` and `BorrowDecode` of containers, texts and pointers
/// of `std` are always there.
pub mod alloc {
    pub use crate::vec::encode_to_vec;
}

/// The traits, which the language's own types always have, and the time span of `std` as a type of this library.
pub mod impls {
    pub use bincode_decode::borrow_decode::BorrowDecode;
    pub use bincode_decode::decode::Decode;
    pub use bincode_encode::encode::Encode;
    pub use bincode_types::own::time::Duration;
}

/// The streams of `std::io`: the calls that read from them and write to them, the reader and the writers over them, and
/// the C strings of `std` as types of this library.
pub mod std_io {
    pub use crate::next::{
        decode_from_buf_read, decode_from_buf_read_with_context, decode_next_from_std_read,
    };
    pub use crate::streams::{
        decode_from_std_read, decode_from_std_read_with_context, encode_into_buf_write,
        encode_into_std_write,
    };
    pub use bincode_blocks::BlockWriter;
    pub use bincode_io::io_read::{IoReader, LentIoReader};
    pub use bincode_io::io_write::IoWriter;
    pub use bincode_types::own::ffi::{CStr, CString, NulError};
}

/// Enums of your own, variant by variant: their laws, and how they are encoded and decoded.
pub mod enums {
    pub use bincode_enums::borrow::{
        BorrowDecodeVariants, borrow_decode_by_tag, borrow_decode_part,
    };
    pub use bincode_enums::decode::{
        DecodeVariants, decode_by_tag, decode_no_variant, decode_part, decode_unlisted_variant,
    };
    pub use bincode_enums::encode::encode_variant;
    pub use bincode_enums::enums::{
        Enum, Sum, canonical_by_variants, enum_claim, exact_by_variants, plain_by_variants,
        writable_by_variants,
    };
}

/// Laws that hold of some types, and functions that prove them of a type from its fields or variants.
pub mod laws {
    pub use bincode_types::has_parts::{
        canonical_by_parts, exact_by_fields, exact_by_parts, plain_by_parts, writable_by_parts,
    };
    pub use bincode_types::laws::{Canonical, ConstantCharge, Exact, Inhabited, Plain, Writable};
}

/// What proofs know of a type: its encoding and the laws that hold of it.
pub mod model {
    pub use crate::laws::{Canonical, ConstantCharge, Exact, Inhabited, Plain, Writable};
    pub use bincode_types::wire::Wire;
}

/// Values whose type is known at run time alone: shapes, generic values, and their encoding and decoding.
pub mod shape {
    pub use crate::enum_shapes::{describe_variants, put_variant, start_variants};
    pub use crate::shaped::{
        decode_shaped, decode_shaped_from_reader, decode_shaped_within, encode_shaped,
        measure_shaped,
    };
    pub use bincode_shape::described::Described;
    pub use bincode_shape::fits::does_fit;
    pub use bincode_shape::shape::{Shape, Value};
    pub use bincode_shape_codec::within::{DecodeWithinError, Measure};
}

pub use bincode_base::{config, error, short_text};
pub use bincode_decode::borrow_decode::BorrowDecode;
pub use bincode_decode::decode::Decode;
pub use bincode_encode::encode::Encode;
pub use bincode_io::varint;
pub use bincode_types::by_parts::{ByParts, SameParts};
pub use bincode_types::empty::NoVariants;
pub use bincode_types::has_parts::HasParts;
pub use bincode_types::lists::Items;
pub use bincode_types::own::{ffi, time};
pub use bincode_types::sums::{EnumOf, NoMoreVariants, VariantOf};
pub use bincode_types::validated::{Validate, Validated};
pub use bincode_types::wire::Wire;
pub use borrow::{borrow_decode_from_slice, borrow_decode_from_slice_with_context};
pub use exact::{DecodeExactError, decode_exact_from_slice};
pub use next::{
    decode_from_buf_read, decode_from_buf_read_with_context, decode_next_from_std_read,
};
pub use reader::decode_from_reader;
pub use slice::{decode_from_slice, decode_from_slice_with_context, encode_into_slice};
pub use streams::{
    decode_from_std_read, decode_from_std_read_with_context, encode_into_buf_write,
    encode_into_std_write,
};
pub use vec::encode_to_vec;
pub use writer::encode_into_writer;
