//! Counting the frames of a store by their lengths and checks alone, without decoding.
ghost use Rattle.framed_store.specs.Surveys.{IsSurvey, CutsWhole};

use crate::ending::Ending;
use frames::{Frame, read_frame};

/// What frames a store has.
#[derive(Clone, Copy, Debug, Drop, PartialEq)]
pub struct Survey {
    /// The number of frames whose check fits.
    pub whole: usize,
    /// The number of frames whose check does not fit.
    pub damaged: usize,
    /// The number of bytes up to the end of the last frame: what is left of a store when a torn end is cut off.
    pub length: usize,
    /// Why there are no more.
    pub ending: Ending,
}

/// Counts the frames of a store that takes encodings of at most `most` bytes, up to its end or to bytes that are no
/// frame.
pub fn survey_frames(store: &[u8], most: u32) -> Survey
    // Its frames are counted, and the ending tells why there are no more.
    ensures counts { IsSurvey most store.now result }
    // Cut to that length, the store has the same frames, and is whole.
    ensures cut { CutsWhole most store.now result }
{
    let mut whole = 0;
    let mut damaged = 0;
    let mut offset = 0;
    'frames: loop {
        match read_frame(&store[offset..], most) {
            Frame::End => {
                return Survey {
                    whole,
                    damaged,
                    length: offset,
                    ending: Ending::Whole,
                };
            }
            Frame::Torn => {
                return Survey {
                    whole,
                    damaged,
                    length: offset,
                    ending: Ending::Torn { offset },
                };
            }
            Frame::TooLong(length) => {
                return Survey {
                    whole,
                    damaged,
                    length: offset,
                    ending: Ending::TooLong { offset, length },
                };
            }
            Frame::Damaged(size) => {
                damaged += 1;
                offset += size;
            }
            Frame::Whole(_, size) => {
                whole += 1;
                offset += size;
            }
        }
    }
}
