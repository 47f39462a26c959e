//! Encoders and writers, and what the `Encode` of a type of your own calls.

pub use bincode_blocks::BlockWriter;
pub use bincode_encode::encode::Encode;
pub use bincode_encode::encode_parts::EncodeParts;
pub use bincode_encode::runs::encode_run;
pub use bincode_encode::validated::{encode_validated, tell_validated};
pub use bincode_encode::variants::encode_variant;
pub use bincode_encoder::encoder::{Encoder, EncoderImpl};
pub use bincode_io::io_write::IoWriter;
pub use bincode_io::write;
