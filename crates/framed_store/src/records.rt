//! What is found where a record is to begin: a frame, and what its encoding holds.
ghost use Rattle.std.specs.Prelude.{◌≡◌, ◌↔◌, IfOk, IsTrue};
ghost use Rattle.bincode_base.specs.declared.error.DecodeError.TheVariants.{Memory};
ghost use Rattle.framed_store.specs.Told.{IsNext, IsContent};

use bincode::config::Config;
use bincode::de::Decode;
use bincode::error::DecodeError;
use bincode::{Wire, decode_from_slice};
use frames::{Frame, read_frame};
use std::alloc::{AllocError, Global};

/// What a frame that stands whole in length holds.
#[derive(Drop)]
pub enum Content<T> {
    /// A value: its encoding is the whole word.
    Value(T),
    /// The check does not fit, so the word is not decoded.
    Damaged,
    /// The check fits, and the word does not begin with an encoding within the limit. The error tells why.
    Undecodable(DecodeError),
    /// The check fits, and the word goes on after an encoding.
    Longer {
        /// The number of bytes of the encoding.
        taken: usize,
    },
}

/// What stands where a record is to begin.
#[derive(Drop)]
pub enum Next<T> {
    /// No byte is left.
    End,
    /// The bytes end within a frame.
    Torn,
    /// The length is above what the store takes.
    TooLong(u32),
    /// A frame whose bytes are all there.
    Record {
        /// The number of bytes of the frame.
        size: usize,
        /// What it holds.
        content: Content<T>,
    },
}

/// Reads the record that bytes begin with, in a store that takes encodings of at most `most` bytes. Fails if an
/// allocation is refused.
pub fn next_record<T: Decode<()>, C: Config>(
    alloc: Global,
    bytes: &[u8],
    config: C,
    most: u32,
) -> Result<Next<T>, AllocError>
    ensures { IfOk result (IsNext (T.words.format C.setting) C.bound T.words.decodes_to most bytes.now) }
{
    match read_frame(bytes, most) {
        Frame::End => Ok(Next::End),
        Frame::Torn => Ok(Next::Torn),
        Frame::TooLong(length) => Ok(Next::TooLong(length)),
        Frame::Damaged(size) => Ok(Next::Record {
            size,
            content: Content::Damaged,
        }),
        Frame::Whole(word, size) => match content_of(alloc, word, config) {
            Ok(content) => Ok(Next::Record { size, content }),
            Err(e) => Err(e),
        },
    }
}

/// What a word holds whose check fits. Fails if an allocation is refused.
fn content_of<T: Decode<()>, C: Config>(
    alloc: Global,
    word: &[u8],
    config: C,
) -> Result<Content<T>, AllocError>
    ensures { IfOk result (IsContent (T.words.format C.setting) C.bound T.words.decodes_to word.now) }
{
    match decode_from_slice(alloc, word, config) {
        Ok((value, taken)) => {
            if taken < word.len() {
                return Ok(Content::Longer { taken });
            }
            Ok(Content::Value(value))
        }
        Err(why) => {
            if is_memory(&why) {
                return Err(AllocError);
            }
            Ok(Content::Undecodable(why))
        }
    }
}

/// Whether an allocation was refused.
fn is_memory(error: &DecodeError) -> bool
    ensures { IsTrue result ↔ (error.now ≡ Memory) }
{
    matches!(error, DecodeError::Memory)
}
