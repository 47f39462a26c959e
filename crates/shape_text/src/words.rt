//! Encodings of scalars and texts, one after another.

use bincode::config::Config;
use bincode::de::Decode;
use bincode::error::DecodeError;
use bincode::{borrow_decode_from_slice, decode_from_slice};
use std::alloc::Global;

/// The rest of some bytes, and how it is read.
#[derive(Drop)]
pub(crate) struct Words<'b, C: Config> {
    alloc: Global,
    config: C,
    rest: &'b [u8],
    /// The number of bytes that were read.
    pub(crate) taken: usize,
}

impl<'b, C: Config> Words<'b, C> {
    /// A reader of encodings from the front of some bytes.
    pub(crate) fn new(alloc: Global, bytes: &'b [u8], config: C) -> Words<'b, C> {
        Words {
            alloc,
            config,
            rest: bytes,
            taken: 0,
        }
    }

    /// Decodes the next value. Errors are those of `decode_from_slice`.
    pub(crate) fn next<T: Decode<()>>(&mut self) -> Result<T, DecodeError> {
        let (value, size) = decode_from_slice(self.alloc, self.rest, self.config)?;
        self.skip(size);
        Ok(value)
    }

    /// Borrows the next text. Errors are those of `borrow_decode_from_slice`.
    pub(crate) fn next_text(&mut self) -> Result<&'b str, DecodeError> {
        let read = borrow_decode_from_slice(self.alloc, self.rest, self.config);
        match read {
            Ok((text, size)) => {
                self.skip(size);
                Ok(text)
            }
            Err(why) => Err(why),
        }
    }

    /// Skips `size` bytes.
    fn skip(&mut self, size: usize) {
        self.rest = self.rest.get(size..).unwrap_or(&[]);
        self.taken = self.taken.saturating_add(size);
    }
}
