//! Decoders that give out borrowed bytes of their source.
ghost use Rattle.std.specs.Prelude.{ℕ, List};
ghost use Rattle.bincode_spec.specs.Layers.Lending.{LendsBytes};

use super::{Decoder, DecoderImpl, LentDecoder};
use bincode_base::config::Config;
use bincode_base::error::DecodeError;
use bincode_io::read::BorrowReader;

/// Bytes that a decoder lends: `&'de [u8]`, which stands for the lifetime `'de` of the source.
pub trait BorrowedBytes: Drop {
    /// The bytes.
    ghost bytes: { Self → List ℕ };
}

impl<'de> BorrowedBytes for &'de [u8] {
    ghost bytes = { λ s. s.now };
}

/// A decoder whose source outlives it.
pub trait BorrowDecoder<B: BorrowedBytes>: Decoder {
    /// Consumes the next `count` bytes and lends them. Charges nothing. Errors are those of `BorrowReader::take_bytes`.
    fn take_bytes(&mut self, count: usize) -> Result<B, DecodeError>
        ensures { LendsBytes Self.is_known Self.remaining Self.charge Self.failures Self.loans Self.R.end_error
            Self.R.device B.bytes count result self.old self.new };
}

impl<'de, R: BorrowReader<'de>, C: Config, Context: Drop> BorrowDecoder<&'de [u8]>
    for DecoderImpl<R, C, Context> {
    fn take_bytes(&mut self, count: usize) -> Result<&'de [u8], DecodeError> {
        self.reader.take_bytes(count)
    }
}

impl<'de, R: BorrowReader<'de>, C: Config, Context: Drop> BorrowDecoder<&'de [u8]>
    for LentDecoder<'_, R, C, Context> {
    fn take_bytes(&mut self, count: usize) -> Result<&'de [u8], DecodeError> {
        self.reader.take_bytes(count)
    }
}

impl<B: BorrowedBytes, D: BorrowDecoder<B>> BorrowDecoder<B> for &mut D {
    fn take_bytes(&mut self, count: usize) -> Result<B, DecodeError> {
        (**self).take_bytes(count)
    }
}
