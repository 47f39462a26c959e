//! How a store of frames ends.

/// How a store ends.
#[derive(Clone, Copy, Debug, Drop, PartialEq)]
pub enum Ending {
    /// After a frame, or empty.
    Whole,
    /// Within a frame.
    Torn {
        /// The number of bytes before that frame.
        offset: usize,
    },
    /// Before a length above what the store takes. It is not known where a next frame begins.
    TooLong {
        /// The number of bytes before it.
        offset: usize,
        /// The length.
        length: u32,
    },
}
