//! Encoding of C strings.
ghost use Rattle.std.specs.Prelude.{◌<◌, ◌^◌, length};
ghost use Rattle.std.specs.List.{All};
ghost use Rattle.bincode_spec.specs.NoZero.{HasNoZero};
ghost use Rattle.bincode_types.specs.CStrings.{c_str_bytes};

use crate::encode_parts::EncodeParts;
use bincode_base::error::EncodeError;
use bincode_encoder::c_strings::encode_c_string;
use bincode_encoder::encoder::Encoder;
use bincode_types::own::ffi::{CStr, CString};

/// Proves that no byte is 0 and that the length fits 64 bits.
fn tell_c_string_valid(text: CStr<'_>)
    ensures { HasNoZero (c_str_bytes text.entry) × All (λ b. b < 256) (c_str_bytes text.entry)
        × (length (c_str_bytes text.entry) < 2 ^ 64) }
{
    let bytes = text.to_bytes();
    let _len = bytes.len();
}

impl EncodeParts for CString {
    fn tell_valid_parts(&self) {
        tell_c_string_valid(self.as_c_str());
    }

    #[inline]
    fn encode_parts<E: Encoder>(&self, encoder: &mut E) -> Result<(), EncodeError> {
        encode_c_string(encoder, self.as_c_str())
    }
}

impl EncodeParts for CStr<'_> {
    fn tell_valid_parts(&self) {
        tell_c_string_valid(*self);
    }

    #[inline]
    fn encode_parts<E: Encoder>(&self, encoder: &mut E) -> Result<(), EncodeError> {
        encode_c_string(encoder, *self)
    }
}
