//! The configuration of a stock's files, and how long an article may be.

use bincode::config;
use bincode::config::{Configuration, Limit, LittleEndian, Varint};

/// The standard configuration, with a limit of 64 KiB for each article.
pub type Settings = Configuration<LittleEndian, Varint, Limit<65536>>;

/// The configuration of a stock's files.
pub fn settings() -> Settings {
    config::standard().with_limit::<65536>()
}

/// The length in bytes of the longest encoding of an article within that limit: a name of 65507 bytes, whose length
/// takes 3, a price of 9, a weight of 6 and no notes, which take 1. A frame that names a longer word is no frame of a
/// stock.
pub const LONGEST_WORD: u32 = 65526;
