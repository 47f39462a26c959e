//! How long a value is, before it is written.

use bincode::enc::Encode;
use bincode::enc::write::SizeWriter;
use bincode::error::EncodeError;
use bincode::{config, encode_into_writer};

/// How many bytes a value takes. Nothing is written.
pub fn length_of<T: Encode>(value: &T) -> Result<usize, EncodeError> {
    let mut counter = SizeWriter::default();
    encode_into_writer(value, &mut counter, config::standard())?;
    Ok(counter.bytes_written)
}
