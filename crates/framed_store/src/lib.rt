//! A store of values in frames: a reader tells each value that stands whole, each frame that was damaged, and where the
//! bytes end within a frame. docs/STORES.md has the format of frames.
#![tactic(auto)]

pub mod appending;
pub mod ending;
pub mod listing;
pub mod records;
pub mod searching;
pub mod stepping;
pub mod streams;
pub mod surveying;
