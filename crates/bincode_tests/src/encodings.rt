//! The encoding of a value under a configuration, by the call for slices.

use bincode::config::Config;
use bincode::enc::Encode;
use bincode::encode_into_slice;

/// Whether the value is encoded as these bytes, 40 at most.
pub fn is_encoded<T: Encode, C: Config>(value: &T, encoding: &[u8], config: C) -> bool {
    let mut slice = [99u8; 40];
    let written = encode_into_slice(value, &mut slice, config);
    matches!(written, Ok(count) if slice.get(..count) == Some(encoding))
}
