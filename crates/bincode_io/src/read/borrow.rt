//! Readers that give out borrowed bytes of their source.
ghost use Rattle.std.specs.Prelude.{◌≡◌, ◌++◌, length, IfOk, IfErr};
ghost use Rattle.bincode_spec.specs.Layers.Pieces.{FallsShort};
ghost use Rattle.bincode_spec.specs.Layers.Lending.{TakesBytes};
ghost use Rattle.bincode_base.specs.declared.error.DecodeError.TheVariants.{UnexpectedEnd};

use super::{Reader, SliceReader};
use bincode_base::error::DecodeError;

/// A reader whose source outlives it, so that it can lend bytes instead of copying them.
pub trait BorrowReader<'storage>: Reader {
    /// Consumes the next `count` bytes and lends them. Fails if fewer remain or the device fails; then a prefix of them
    /// is consumed, unless the error is one that the device does not count.
    fn take_bytes(&mut self, count: usize) -> Result<&'storage [u8], DecodeError>
        ensures { TakesBytes Self.is_known Self.remaining Self.failures Self.loans Self.end_error Self.device
            (λ s. s.now) count result self.old self.new };
}

impl<'storage> BorrowReader<'storage> for SliceReader<'storage> {
    ghost use Rattle.bincode_io.specs.Slices.{left_of};

    /// Fails exactly if fewer bytes remain, and then consumes none.
    fn take_bytes(&mut self, count: usize) -> Result<&'storage [u8], DecodeError>
        ensures next { IfOk result (λ s. (left_of self.old ≡ s.now ++ left_of self.new)
            × (length s.now ≡ count)) }
        ensures why { IfErr result (λ e. FallsShort (λ missing d. d ≡ UnexpectedEnd missing) (left_of self.old)
            count e) }
        ensures left { IfErr result (λ _. left_of self.new ≡ left_of self.old) }
    {
        let slice = self.slice;
        let left = self.bytes_left();
        if left < count {
            return Err(DecodeError::UnexpectedEnd {
                additional: count - left,
            });
        }
        let end = self.taken + count;
        let bytes = &slice[self.taken..end];
        self.taken = end;
        Ok(bytes)
    }
}

impl<'storage, R: BorrowReader<'storage>> BorrowReader<'storage> for &mut R {
    fn take_bytes(&mut self, count: usize) -> Result<&'storage [u8], DecodeError> {
        (**self).take_bytes(count)
    }
}
