//! Stepping over the frames of a store by their lengths alone.
ghost use Rattle.std.specs.Prelude.{◌+◌, ◌<◌, ◌≤◌, ◌≡◌, ◌^◌, length, take, IfOk, OnErr};
ghost use Rattle.std.specs.Io.KnownBytes.{Consumes, IsAtEnd};
ghost use Rattle.bincode_io.specs.Stream.{TellsBytes, known_bytes};
ghost use Rattle.framed_store.specs.Strides.{Skips, StepsTo, IsLong};
ghost use Rattle.framed_store.specs.Surveys.{StepsOver};

use crate::ending::Ending;
use crate::streams::{FIELD, read_at, read_some};
use frames::OVERHEAD;
use std::io;
use std::io::{ErrorKind, Read};

/// The number of bytes that are dropped at once.
const PIECE: usize = 1024;

/// What was stepped over where a frame is to begin.
#[derive(Drop)]
enum Stride {
    /// Nothing: no byte is left.
    End,
    /// The bytes of a frame that is cut.
    Torn,
    /// A length above what the store takes.
    TooLong(u32),
    /// A frame of this number of bytes.
    Frame(usize),
}

/// Steps over the frames of a store that takes encodings of at most `most` bytes, by their lengths alone, whether their
/// checks fit or not, and holds none of them. Returns how many bytes the frames have, and how the store ends. Fails if
/// the stream fails or has 2^64 bytes.
pub fn step_over<R: Read>(stream: &mut R, most: u32) -> Result<(usize, Ending), io::Error>
    // Where the bytes are known, they begin with frames of this number of bytes, and then the store ends so.
    ensures { TellsBytes (R.remaining stream.old) → IfOk result (λ over.
        StepsOver most (known_bytes (R.remaining stream.old)) over.0 over.1) }
{
    let mut offset = 0;
    'frames: loop {
        match step(stream, most)? {
            Stride::End => return Ok((offset, Ending::Whole)),
            Stride::Torn => return Ok((offset, Ending::Torn { offset })),
            Stride::TooLong(length) => return Ok((offset, Ending::TooLong { offset, length })),
            Stride::Frame(size) => offset = after(offset, size)?,
        }
    }
}

/// The offset after a frame. Fails only at 2^64 or above.
fn after(offset: usize, size: usize) -> io::Result<usize>
    ensures sum { IfOk result (λ n. n ≡ offset + size) }
    ensures full { OnErr result (2 ^ 64 ≤ offset + size) }
{
    match offset.checked_add(size) {
        Some(next) => Ok(next),
        None => Err(io::Error::from(ErrorKind::FileTooLarge)),
    }
}

/// Steps over one frame.
fn step<R: Read>(stream: &mut R, most: u32) -> io::Result<Stride>
    ensures told { TellsBytes (R.remaining stream.old) → IfOk result (λ stride. StepsTo most
        (known_bytes (R.remaining stream.old)) stride (known_bytes (R.remaining stream.new))) }
    ensures is_known { TellsBytes (R.remaining stream.old) → TellsBytes (R.remaining stream.new) }
    ensures long { IfOk result IsLong }
{
    let mut field = [0; FIELD];
    let there = fill_bytes(stream, &mut field)?;
    if there == 0 {
        return Ok(Stride::End);
    }
    if there < FIELD {
        return Ok(Stride::Torn);
    }
    let length = u32::from_le_bytes(field);
    if length > most {
        return Ok(Stride::TooLong(length));
    }
    let rest = OVERHEAD - FIELD + length as usize;
    if skip(stream, rest)? < rest {
        return Ok(Stride::Torn);
    }
    Ok(Stride::Frame(FIELD + rest))
}

/// Reads into bytes until they are full or the stream ends. Returns how many were read.
fn fill_bytes<R: Read>(stream: &mut R, bytes: &mut [u8]) -> io::Result<usize>
    ensures within { IfOk result (λ n. n ≤ length bytes.new) }
    ensures bytes { IfOk result (λ n. Consumes (R.remaining stream.old) (R.remaining stream.new) (take n bytes.new)) }
    ensures end { IfOk result (λ n. n < length bytes.new → IsAtEnd (R.remaining stream.new)) }
    ensures is_known { TellsBytes (R.remaining stream.old) → TellsBytes (R.remaining stream.new) }
{
    let mut at = 0;
    while at < bytes.len() {
        let n = read_at(stream, bytes, at)?;
        if n == 0 {
            return Ok(at);
        }
        at += n;
    }
    Ok(at)
}

/// Reads this number of bytes, or all that are left if they are fewer, and drops them. Returns how many.
fn skip<R: Read>(stream: &mut R, count: usize) -> io::Result<usize>
    ensures within { IfOk result (λ n. n ≤ count) }
    ensures bytes { IfOk result (Skips (R.remaining stream.old) (R.remaining stream.new)) }
    ensures end { IfOk result (λ n. n < count → IsAtEnd (R.remaining stream.new)) }
    ensures is_known { TellsBytes (R.remaining stream.old) → TellsBytes (R.remaining stream.new) }
{
    let mut piece = [0; PIECE];
    let mut skipped = 0;
    while skipped < count {
        let n = skip_some(stream, &mut piece, count - skipped)?;
        if n == 0 {
            return Ok(skipped);
        }
        skipped += n;
    }
    Ok(skipped)
}

/// One read of at most `most` bytes, which are dropped.
fn skip_some<R: Read>(stream: &mut R, piece: &mut [u8], most: usize) -> io::Result<usize>
    requires room { 0 < length piece.old }
    requires some { 0 < most }
    ensures within { IfOk result (λ n. n ≤ most) }
    ensures bytes { IfOk result (Skips (R.remaining stream.old) (R.remaining stream.new)) }
    ensures end { IfOk result (λ n. n ≡ 0 → IsAtEnd (R.remaining stream.new)) }
    ensures is_known { TellsBytes (R.remaining stream.old) → TellsBytes (R.remaining stream.new) }
{
    let most = most.min(piece.len());
    read_some(stream, &mut piece[..most])
}
