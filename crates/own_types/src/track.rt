//! A struct.

mod words;

/// A track: its title, the length of each beat, the side that it is on, and whether it was played live.
#[derive(Drop, PartialEq)]
pub struct Track {
    pub title: String,
    pub beats: Vec<u16>,
    pub side: u8,
    pub live: bool,
}
