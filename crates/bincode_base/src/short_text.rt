//! Texts that are held inline, so that errors stay small and need no allocation.
ghost use Rattle.std.specs.Prelude.{◌≡◌, ◌≤◌, ◌++◌, List, ℕ, codes, length, min};

use std::{fmt, str};

/// The message for a value that does not fit a shape. It is longer than any `ShortText`.
const UNFIT: &str = "value does not fit the shape";

/// A text of at most `ROOM` and at most 255 bytes, held inline. A length above `ROOM` stands for the one fixed message
/// that is longer.
#[derive(Clone, Copy)]
pub struct Text<const ROOM: usize> {
    length: u8,
    bytes: [u8; ROOM],
}

/// A text of at most 22 bytes, for causes and type names in errors.
pub type ShortText = Text<22>;

/// A type name of at most 10 bytes: an error that has it also holds a tag and the valid tags.
pub type TypeName = Text<10>;

impl<const ROOM: usize> Text<ROOM> {
    ghost use Rattle.bincode_base.specs.ShortText.{text_bytes};

    /// Truncates a text that is too long at a character boundary.
    pub fn new(text: &str) -> Text<ROOM>
        ensures whole { length text.now ≤ min ROOM 255 → text_bytes result ≡ text.now }
        ensures front { (rest : List ℕ) × (text.now ≡ text_bytes result ++ rest) }
    {
        let kept = &text[..text.floor_char_boundary(ROOM.min(255))];
        let mut bytes = [0; ROOM];
        bytes[..kept.len()].copy_from_slice(kept.as_bytes());
        Text {
            length: kept.len() as u8,
            bytes,
        }
    }

    /// The text.
    pub fn as_str(&self) -> &str
        ensures { result.now ≡ text_bytes self.now }
    {
        if usize::from(self.length) > ROOM {
            return UNFIT;
        }
        let held = &self.bytes[..usize::from(self.length)];
        str::from_utf8(held).unwrap_or("")
    }
}

impl ShortText {
    ghost use Rattle.bincode_base.specs.ShortText.{text_bytes};

    /// The message `value does not fit the shape`.
    pub fn unfit() -> ShortText
        ensures { text_bytes result ≡ codes "value does not fit the shape" }
    {
        Text {
            length: 255,
            bytes: [0; 22],
        }
    }
}

impl<const ROOM: usize> fmt::Debug for Text<ROOM> {
    fn fmt<W: fmt::Write>(&self, f: &mut fmt::Formatter<W>) -> fmt::Result {
        fmt::Debug::fmt(&self.as_str(), f)
    }
}
