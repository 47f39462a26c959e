//! Reading a store of frames from a stream, with one frame in memory at a time.
ghost use Rattle.std.specs.Prelude.{◌≡◌, ◌+◌, ◌<◌, ◌≤◌, ◌^◌, length, take, drop, vec_len};
ghost use Rattle.std.specs.Prelude.{IfOk, OnOk, OnErr, IfSome, IfNone};
ghost use Rattle.std.specs.Io.{ReadsAtMost, StartsWith, appended_bytes};
ghost use Rattle.std.specs.Io.KnownBytes.{Consumes, IsAtEnd, Keeps};
ghost use Rattle.bincode_io.specs.Stream.{TellsBytes, known_bytes};
ghost use Rattle.frames.specs.Frames.{named_length};
ghost use Rattle.framed_store.specs.Streams.{TakesFront, LeavesAfter};
ghost use Rattle.framed_store.specs.Surveys.{IsSurvey, CutsWhole};
ghost use Rattle.framed_store.specs.Told.{IsNext};

use crate::ending::Ending;
use crate::records::{Next, next_record};
use crate::surveying::Survey;
use bincode::config::Config;
use bincode::de::Decode;
use frames::{Frame, OVERHEAD, read_frame};
use std::alloc::{AllocError, Global};
use std::io;
use std::io::{ErrorKind, Read};
use thiserror::Error;

/// The number of bytes of a length.
pub(crate) const FIELD: usize = 4;

/// The room that a buffer is given before the first bytes of a longer frame are read, in bytes.
const FIRST_ROOM: usize = 8 * 1024;

/// Why a frame was not read.
#[derive(Debug, Drop, Error)]
pub enum ReadError {
    /// The stream failed. What it gave of a frame is lost.
    #[error("{0}")]
    Read(io::Error),
    /// An allocation was refused. What the stream gave of a frame is lost.
    #[error("{0}")]
    Memory(AllocError),
}

/// Counts the frames of a store that takes encodings of at most `most` bytes, as `survey_frames` does, and holds one
/// frame at a time in `buffer`. Reads nothing after a length above `most`. Fails with `Read` if the stream fails or
/// has 2^64 bytes, or with `Memory`.
pub fn survey_stream<R: Read>(
    stream: &mut R,
    buffer: &mut Vec<u8>,
    most: u32,
) -> Result<Survey, ReadError>
    // These clauses speak of streams whose bytes are known. Their frames are counted, and the ending tells why there
    // are no more.
    ensures counts { TellsBytes (R.remaining stream.old) → IfOk result
        (IsSurvey most (known_bytes (R.remaining stream.old))) }
    // Cut to that length, the store has the same frames, and is whole.
    ensures cut { TellsBytes (R.remaining stream.old) → IfOk result
        (CutsWhole most (known_bytes (R.remaining stream.old))) }
{
    let mut whole = 0;
    let mut damaged = 0;
    let mut offset = 0;
    'frames: loop {
        take_front(stream, buffer, most)?;
        match read_frame(buffer, most) {
            Frame::End => {
                return Ok(Survey {
                    whole,
                    damaged,
                    length: offset,
                    ending: Ending::Whole,
                });
            }
            Frame::Torn => {
                return Ok(Survey {
                    whole,
                    damaged,
                    length: offset,
                    ending: Ending::Torn { offset },
                });
            }
            Frame::TooLong(length) => {
                return Ok(Survey {
                    whole,
                    damaged,
                    length: offset,
                    ending: Ending::TooLong { offset, length },
                });
            }
            Frame::Damaged(size) => {
                offset = after(offset, size)?;
                damaged += 1;
            }
            Frame::Whole(_, size) => {
                offset = after(offset, size)?;
                whole += 1;
            }
        }
    }
}

/// The offset after a frame. Fails only at 2^64 or above.
fn after(offset: usize, size: usize) -> Result<usize, ReadError>
    ensures sum { IfOk result (λ n. n ≡ offset + size) }
    ensures full { OnErr result (2 ^ 64 ≤ offset + size) }
{
    match offset.checked_add(size) {
        Some(next) => Ok(next),
        None => Err(ReadError::Read(io::Error::from(ErrorKind::FileTooLarge))),
    }
}

/// Reads one frame into `buffer`, without a look at its check: its bytes, or all that are left if they are fewer, or
/// the length alone if it is above `most`.
pub(crate) fn take_front<R: Read>(
    stream: &mut R,
    buffer: &mut Vec<u8>,
    most: u32,
) -> Result<(), ReadError>
    ensures front { TellsBytes (R.remaining stream.old) → OnOk result (TakesFront most buffer.new.items
        (known_bytes (R.remaining stream.old)) (known_bytes (R.remaining stream.new))) }
    ensures room { vec_len buffer.new ≤ 8 + most }
    ensures is_known { TellsBytes (R.remaining stream.old) → TellsBytes (R.remaining stream.new) }
{
    buffer.clear();
    fill(stream, buffer, FIELD)?;
    let Some(size) = size_of_frame(buffer, most) else {
        return Ok(());
    };
    fill(stream, buffer, size)?;
    Ok(())
}

/// The number of bytes of the frame that begins with these, if its length is there and allowed.
fn size_of_frame(front: &[u8], most: u32) -> Option<usize>
    requires { length front.now ≤ 4 }
    ensures none { IfNone result (4 ≤ length front.now → most < named_length front.now) }
    ensures some { IfSome result (λ size. (length front.now ≡ 4) × (named_length front.now ≤ most)
        × (size ≡ 8 + named_length front.now)) }
{
    match front {
        [a, b, c, d] => {
            let length = u32::from_le_bytes([*a, *b, *c, *d]);
            if length > most {
                return None;
            }
            Some(OVERHEAD + length as usize)
        }
        _ => None,
    }
}

/// Reads until a buffer has `count` bytes or the stream ends. The buffer grows with what comes.
fn fill<R: Read>(stream: &mut R, buffer: &mut Vec<u8>, count: usize) -> Result<(), ReadError>
    requires { vec_len buffer.old ≤ count }
    ensures front { OnOk result (StartsWith buffer.new.items buffer.old.items) }
    ensures bytes { OnOk result (Consumes (R.remaining stream.old) (R.remaining stream.new)
        (appended_bytes buffer.old.items buffer.new.items)) }
    ensures within { vec_len buffer.new ≤ count }
    ensures end { OnOk result (vec_len buffer.new < count → IsAtEnd (R.remaining stream.new)) }
    ensures is_known { TellsBytes (R.remaining stream.old) → TellsBytes (R.remaining stream.new) }
{
    let mut filled = buffer.len();
    while filled < count {
        let n = read_piece(stream, buffer, filled, count)?;
        if n == 0 {
            buffer.truncate(filled);
            return Ok(());
        }
        filled += n;
    }
    buffer.truncate(filled);
    Ok(())
}

/// One read of a stream to where a buffer is not filled, up to `count` bytes of it.
fn read_piece<R: Read>(
    stream: &mut R,
    buffer: &mut Vec<u8>,
    filled: usize,
    count: usize,
) -> Result<usize, ReadError>
    requires fewer { filled < count }
    requires filled { filled ≤ vec_len buffer.old }
    requires within { vec_len buffer.old ≤ count }
    ensures within { vec_len buffer.new ≤ count }
    ensures filled { filled ≤ vec_len buffer.new }
    ensures front { take filled buffer.new.items ≡ take filled buffer.old.items }
    ensures fits { IfOk result (λ n. filled + n ≤ vec_len buffer.new) }
    ensures ok { IfOk result (λ n. Consumes (R.remaining stream.old) (R.remaining stream.new)
        (take n (drop filled buffer.new.items))) }
    ensures err { OnErr result (Keeps (R.remaining stream.old) (R.remaining stream.new)) }
    ensures end { IfOk result (λ n. n ≡ 0 → IsAtEnd (R.remaining stream.new)) }
{
    make_room(buffer, filled, count)?;
    match read_at(stream, buffer.as_mut_slice(), filled) {
        Ok(n) => Ok(n),
        Err(e) => Err(ReadError::Read(e)),
    }
}

/// Makes a buffer longer, by zeros, if all of it is filled: at most twice as long, or `FIRST_ROOM`.
fn make_room(buffer: &mut Vec<u8>, filled: usize, count: usize) -> Result<(), ReadError>
    requires fewer { filled < count }
    requires filled { filled ≤ vec_len buffer.old }
    requires within { vec_len buffer.old ≤ count }
    ensures within { vec_len buffer.new ≤ count }
    ensures filled { filled ≤ vec_len buffer.new }
    ensures front { take filled buffer.new.items ≡ take filled buffer.old.items }
    ensures room { OnOk result (filled < vec_len buffer.new) }
{
    if filled < buffer.len() {
        return Ok(());
    }
    let room = filled.saturating_mul(2).max(FIRST_ROOM);
    match buffer.resize(room.min(count), 0) {
        Ok(()) => Ok(()),
        Err(e) => Err(ReadError::Memory(e)),
    }
}

/// One read into bytes from an offset on, retried while a signal interrupts it.
pub(crate) fn read_at<R: Read>(stream: &mut R, bytes: &mut [u8], at: usize) -> io::Result<usize>
    requires { at < length bytes.old }
    ensures front { take at bytes.new ≡ take at bytes.old }
    ensures fits { IfOk result (λ n. at + n ≤ length bytes.new) }
    ensures ok { IfOk result (λ n. Consumes (R.remaining stream.old) (R.remaining stream.new)
        (take n (drop at bytes.new))) }
    ensures err { OnErr result (Keeps (R.remaining stream.old) (R.remaining stream.new)) }
    ensures end { IfOk result (λ n. n ≡ 0 → IsAtEnd (R.remaining stream.new)) }
{
    read_some(stream, &mut bytes[at..])
}

/// One read, retried while a signal interrupts it.
pub(crate) fn read_some<R: Read>(stream: &mut R, bytes: &mut [u8]) -> io::Result<usize>
    ensures bound { ReadsAtMost result bytes.new }
    ensures ok { IfOk result (λ n. Consumes (R.remaining stream.old) (R.remaining stream.new) (take n bytes.new)) }
    ensures end { IfOk result (λ n. n ≡ 0 → 0 < length bytes.old → IsAtEnd (R.remaining stream.new)) }
    ensures err { OnErr result (Keeps (R.remaining stream.old) (R.remaining stream.new)) }
{
    for _ in 0..usize::MAX {
        match stream.read(bytes) {
            Ok(n) => return Ok(n),
            Err(e) => {
                if e.kind() != ErrorKind::Interrupted {
                    return Err(e);
                }
            }
        }
    }
    Err(io::Error::from(ErrorKind::Interrupted))
}

/// Reads the frame that a stream begins with into `buffer`, in a store that takes encodings of at most `most` bytes,
/// and tells what it holds, as `next_record` does. `buffer` is emptied first, and then has the bytes that were taken:
/// of `Record` those of the frame, of `Torn` all that were left, of `End` none, and of `TooLong` the four of the
/// length. It grows by what comes, whatever length is named. Fails with `Read` if the stream fails, or with `Memory` if
/// an allocation is refused.
///
/// ```
/// let mut buffer = Vec::new(alloc);
/// for _ in 0..u64::MAX {
///     match next_from_stream(alloc, &mut stream, &mut buffer, config, most)? {
///         Next::Record { size, content } => show(size, content)?,
///         Next::End => break,
///         Next::Torn | Next::TooLong(_) => return Err(Broken),
///     }
/// }
/// ```
pub fn next_from_stream<T: Decode<()>, C: Config, R: Read>(
    alloc: Global,
    stream: &mut R,
    buffer: &mut Vec<u8>,
    config: C,
    most: u32,
) -> Result<Next<T>, ReadError>
    // The buffer holds at most a frame.
    ensures room { vec_len buffer.new ≤ 8 + most }
    // What stands in it is told.
    ensures held { IfOk result (IsNext (T.words.format C.setting) C.bound T.words.decodes_to most buffer.new.items) }
    // These clauses speak of streams whose bytes are known. What they begin with is told,
    ensures next { TellsBytes (R.remaining stream.old) → IfOk result (IsNext (T.words.format C.setting) C.bound
        T.words.decodes_to most (known_bytes (R.remaining stream.old))) }
    // what follows it is left,
    ensures left { TellsBytes (R.remaining stream.old) → IfOk result (λ next. LeavesAfter
        (known_bytes (R.remaining stream.old)) next (known_bytes (R.remaining stream.new))) }
    // and is known again.
    ensures is_known { TellsBytes (R.remaining stream.old) → TellsBytes (R.remaining stream.new) }
{
    take_front(stream, buffer, most)?;
    match next_record(alloc, buffer, config, most) {
        Ok(next) => Ok(next),
        Err(e) => Err(ReadError::Memory(e)),
    }
}
