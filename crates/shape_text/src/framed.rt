//! What a store of frames holds by a shape: a line of JSON for each frame, and one for all that are damaged in a row.

use crate::describing::flush_if_empty;
use crate::failure::DescribeError;
use crate::lines::{Place, print_count, print_end, print_start, print_value};
use crate::request::Request;
use crate::strings::write_string;
use crate::window::Window;
use bincode::config::Config;
use bincode::shape::measure_shaped;
use frames::{Frame, read_frame};
use std::alloc::Global;
use std::io;
use std::io::{Read, Write};

/// What stands where a frame is to begin, and the number of its bytes.
#[derive(Clone, Copy)]
enum Found {
    /// No byte is left.
    End,
    /// The input ends within the frame.
    Torn,
    /// A length of a word that is not allowed.
    TooLong(u32),
    /// The check does not fit.
    Damaged(usize),
    /// The check fits.
    Whole(usize),
}

/// Damaged frames that follow one another.
#[derive(Clone, Copy)]
struct Damage {
    place: Place,
    count: u128,
}

/// How far a store was read.
#[derive(Drop)]
struct Progress {
    /// The number of bytes before the next frame.
    offset: u64,
    /// The damaged frames just before it.
    damage: Option<Damage>,
    /// Whether each frame so far is whole, and its word one encoding.
    is_whole: bool,
}

impl Progress {
    /// Goes on after a frame of this many bytes.
    fn passes(&mut self, size: usize) {
        self.offset = self.offset.saturating_add(size as u64);
    }

    /// Goes on after a damaged frame of this many bytes.
    fn passes_damaged(&mut self, size: usize) {
        let Damage { place, count } = self.damage.unwrap_or(Damage {
            place: Place {
                offset: self.offset,
                length: 0,
            },
            count: 0,
        });
        self.damage = Some(Damage {
            place: Place {
                offset: place.offset,
                length: place.length.saturating_add(size as u64),
            },
            count: count.saturating_add(1),
        });
        self.is_whole = false;
        self.passes(size);
    }

    /// Prints the line of the damaged frames just before, if there are any.
    fn print_damage<W: Write>(&mut self, out: &mut W) -> io::Result<()> {
        match self.damage.take() {
            Some(damage) => print_count(damage.place, "damaged", damage.count, out),
            None => Ok(()),
        }
    }
}

/// Prints a line for each frame, up to the end of the input, and returns whether all are whole and have one encoding
/// each. It is measured within the limit of the first configuration, and printed by the second. Fails where the input
/// is torn, where a length is not allowed, or if the input or the output fails.
pub(crate) fn print_frames<C: Config, D: Config, R: Read, W: Write>(
    alloc: Global,
    request: &Request,
    longest: u32,
    window: &mut Window<R>,
    (limited, all): (C, D),
    out: &mut W,
) -> Result<bool, DescribeError> {
    let mut progress = Progress {
        offset: 0,
        damage: None,
        is_whole: true,
    };
    for _ in 0..u64::MAX {
        flush_if_empty(window, out)?;
        let found = match next_frame(window, longest) {
            Ok(found) => found,
            Err(cause) => return Err(DescribeError::Read(cause)),
        };
        match found {
            Found::Damaged(size) => {
                progress.passes_damaged(size);
                window.skip(size);
            }
            Found::Whole(size) => {
                progress.print_damage(out)?;
                print_frame(
                    alloc,
                    request,
                    &mut progress,
                    (window.bytes(), size),
                    (limited, all),
                    out,
                )?;
                window.skip(size);
            }
            end => {
                progress.print_damage(out)?;
                return ended(end, longest, &progress);
            }
        }
    }
    Ok(progress.is_whole)
}

/// Whether a store that ends so is whole, or the error of its end.
fn ended(end: Found, longest: u32, progress: &Progress) -> Result<bool, DescribeError> {
    let offset = progress.offset;
    match end {
        Found::Torn => Err(DescribeError::TornFrame { offset }),
        Found::TooLong(length) => Err(DescribeError::TooLong {
            offset,
            length,
            longest,
        }),
        _ => Ok(progress.is_whole),
    }
}

/// Prints the line of the frame of this size that bytes begin with.
fn print_frame<C: Config, D: Config, W: Write>(
    alloc: Global,
    request: &Request,
    progress: &mut Progress,
    (bytes, size): (&[u8], usize),
    (limited, all): (C, D),
    out: &mut W,
) -> Result<(), DescribeError> {
    let word = bytes.get(4..size.saturating_sub(4)).unwrap_or(&[]);
    let place = Place {
        offset: progress.offset,
        length: size as u64,
    };
    progress.passes(size);
    match measure_shaped(alloc, &request.shape, word, limited) {
        Ok(measure) if measure.bytes == word.len() => {
            print_value(alloc, request, place, (word, measure), all, out)
        }
        Ok(measure) => {
            progress.is_whole = false;
            let more = word.len().saturating_sub(measure.bytes);
            Ok(print_count(place, "longer", more as u128, out)?)
        }
        Err(why) => {
            progress.is_whole = false;
            let why = format!(in alloc; "{why}")?;
            print_start(place, "undecodable", out)?;
            write_string(why.as_str(), out)?;
            Ok(print_end(out)?)
        }
    }
}

/// Reads until the window shows the next frame, or the input ends. Consumes nothing.
fn next_frame<R: Read>(window: &mut Window<R>, longest: u32) -> io::Result<Found> {
    for _ in 0..u64::MAX {
        let found = look(window.bytes(), longest);
        if !matches!(found, Found::End | Found::Torn) || !window.read_more()? {
            return Ok(found);
        }
    }
    Ok(Found::Torn)
}

/// What bytes begin with.
fn look(bytes: &[u8], longest: u32) -> Found {
    match read_frame(bytes, longest) {
        Frame::End => Found::End,
        Frame::Torn => Found::Torn,
        Frame::TooLong(length) => Found::TooLong(length),
        Frame::Damaged(size) => Found::Damaged(size),
        Frame::Whole(_, size) => Found::Whole(size),
    }
}
