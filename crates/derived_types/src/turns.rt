//! An enum of five variants of three fields.

mod words;

/// What happens in a game.
#[derive(Drop, PartialEq)]
pub enum Turn {
    Joined(u32, String, u8),
    Left(u32, String, u8),
    Moved(u32, String, u8),
    Said(u32, String, u8),
    Won(u32, String, u8),
}
