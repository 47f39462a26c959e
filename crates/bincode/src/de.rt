//! Decoders and readers, and what the `Decode` of a type of your own calls.

pub use bincode_base::slots::{collect_into_array, slots_fit};
pub use bincode_collections::fill_list::FillList;
pub use bincode_collections::values::{ArrayOf, Bulk, DecodeRun, OverDefaults, Sequential};
pub use bincode_decode::borrow_decode::BorrowDecode;
pub use bincode_decode::borrow_runs::{borrow_decode_array, borrow_decode_vec};
pub use bincode_decode::collections::decode_collection;
pub use bincode_decode::decode::Decode;
pub use bincode_decode::from_parts::{FromParts, decode_by_parts};
pub use bincode_decode::make_by_parts::MakeByParts;
pub use bincode_decode::runs::{decode_array, decode_run, decode_vec};
pub use bincode_decode::validated::other_error;
pub use bincode_decoder::context::{LendInContext, WithContext};
pub use bincode_decoder::decoder::{
    BorrowDecoder, BorrowedBytes, ClaimContainer, Decoder, DecoderImpl,
};
pub use bincode_decoder::empty::decode_no_variants;
pub use bincode_decoder::tags::Named;
pub use bincode_io::io_read::{IoReader, LentIoReader};
pub use bincode_io::read;
