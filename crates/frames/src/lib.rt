//! Frames around words: each has a length before its word and a check after it, so that a reader tells a word that was
//! cut, damaged or never written from a whole one. docs/STORES.md has the format.
#![tactic(auto)]

ghost use Rattle.std.specs.Prelude.{◌≡◌, ◌↔◌, ◌^◌, ◌<◌, length, ◌++◌, IfSome, IsSome};
ghost use Rattle.std.specs.Int.{w32, from_le_bytes};
ghost use Rattle.crc32c.specs.Crc.{crc32c};
ghost use Rattle.frames.specs.Frames.{Reads, frame};

use crc32c::Crc32c;

/// The number of bytes of a length, and of a check.
const FIELD: usize = 4;

/// The number of bytes that a frame has beside its word: a length before it, and a check after it.
pub const OVERHEAD: usize = 2 * FIELD;

/// What stands where a frame is to begin.
#[derive(Clone, Copy, Debug, Drop)]
pub enum Frame<'a> {
    /// No byte is left.
    End,
    /// The bytes end within the frame.
    Torn,
    /// The length is above what is allowed.
    TooLong(u32),
    /// The check does not fit the length and the word. The next frame begins after this number of bytes, if the length
    /// is not what was damaged.
    Damaged(usize),
    /// A whole frame: its word, and the number of bytes of the frame.
    Whole(&'a [u8], usize),
}

/// Reads the frame that bytes begin with, of a word of at most `most` bytes.
pub fn read_frame<'a>(bytes: &'a [u8], most: u32) -> Frame<'a>
    ensures { Reads most bytes.now result }
{
    if bytes.is_empty() {
        return Frame::End;
    }
    if bytes.len() < FIELD {
        return Frame::Torn;
    }
    let (field, rest) = bytes.split_at(FIELD);
    let length = number_of(field);
    if length > most {
        return Frame::TooLong(length);
    }
    let count = length as usize;
    if rest.len() < FIELD || rest.len() - FIELD < count {
        return Frame::Torn;
    }
    let size = OVERHEAD + count;
    let (word, after) = rest.split_at(count);
    if number_of(&after[..FIELD]) != check(field, word) {
        return Frame::Damaged(size);
    }
    Frame::Whole(word, size)
}

/// What stands before a word in its frame, and after it: its length, and the check. `None` where the length is above
/// 32 bits.
pub fn around(word: &[u8]) -> Option<([u8; 4], [u8; 4])>
    ensures frame { IfSome result (λ around. around.0 ++ (word.now ++ around.1) ≡ frame word.now) }
    ensures long { IsSome result ↔ (length word.now < 2 ^ 32) }
{
    if word.len() > u32::MAX as usize {
        return None;
    }
    let field = (word.len() as u32).to_le_bytes();
    Some((field, check(&field, word).to_le_bytes()))
}

/// Four bytes as a number, the lowest first.
fn number_of(field: &[u8]) -> u32
    requires { length field.now ≡ 4 }
    ensures { result ≡ from_le_bytes w32 field.now }
{
    u32::from_le_bytes([field[0], field[1], field[2], field[3]])
}

/// The check of a length and a word.
fn check(length: &[u8], word: &[u8]) -> u32
    ensures { result ≡ crc32c (length.now ++ word.now) }
{
    let mut check = Crc32c::new();
    check.update(length);
    check.update(word);
    check.value()
}
