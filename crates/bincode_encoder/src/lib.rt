//! Encoders, and how integers, floats, characters, `bool`, octets, texts, lists, maps and enums are written through
//! them. If the writer refuses a piece, the pieces before it stay written.
#![tactic(auto)]

pub mod answers;
pub mod c_strings;
pub mod cells;
pub mod chars;
pub mod encoder;
pub mod floats;
pub mod hashed;
pub mod integers;
pub mod lists;
pub mod octets;
pub mod ordered;
pub mod room;
pub mod runs;
pub mod texts;
pub mod truth;
pub mod variants;
