//! A user-defined reader that buffers a part of what remains.
ghost use Rattle.std.specs.Prelude.{◌≡◌, [], length, min, ⊤};
ghost use Rattle.std.proofs.Common.{inl, arith};
ghost use Rattle.bincode_base.specs.declared.error.DecodeError.TheVariants.{UnexpectedEnd};
ghost use Rattle.bincode_spec.specs.Layers.Pieces.{no_device};

use bincode::de::read::Reader;
use bincode::error::DecodeError;

/// Reads a slice, of which a peek returns at most `most` bytes.
#[derive(Drop)]
pub struct Shows<'s> {
    bytes: &'s [u8],
    most: usize,
}

impl<'s> Shows<'s> {
    /// A reader of these bytes, of which a peek returns at most `most`.
    pub fn new(bytes: &'s [u8], most: usize) -> Shows<'s> {
        Shows { bytes, most }
    }

    /// The number of bytes that remain.
    pub fn bytes_left(&self) -> usize {
        self.bytes.len()
    }
}

impl Reader for Shows<'_> {
    ghost is_known = { λ _. ⊤ };

    ghost remaining = { λ r. r.bytes.now };

    ghost buffered_len = { λ r. min r.most (length r.bytes.now) };

    ghost failures = { λ _. 0 };

    ghost end_error = { λ missing e. e ≡ UnexpectedEnd missing };

    ghost device = { no_device };

    ghost loans = { λ _. [] };

    fn read(&mut self, bytes: &mut [u8]) -> Result<(), DecodeError> {
        if self.bytes.len() < bytes.len() {
            return Err(DecodeError::UnexpectedEnd {
                additional: bytes.len() - self.bytes.len(),
            });
        }
        let (front, back) = self.bytes.split_at(bytes.len());
        bytes.copy_from_slice(front);
        self.bytes = back;
        Ok(())
    }

    fn peek_read(&mut self, n: usize) -> Option<&[u8]> {
        if self.most < n {
            return None;
        }
        self.bytes.get(..n)
    }

    fn consume(&mut self, n: usize) {
        self.bytes = &self.bytes[n..];
    }

    ghost buffered_within = { λ r _. Prim.omega arith };

    ghost end_error_is = { λ missing e h. inl h };
}
