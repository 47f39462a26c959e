//! Readers over the streams of `std::io`.
ghost use Rattle.std.specs.Prelude.{◌≡◌, ◌<◌, ◌≤◌, List, ℕ, [], ◌∷◌, length, take, IsSome};
ghost use Rattle.std.specs.Prelude.{◌≢◌, OnOk, IfOk, IfErr, OnErr, MatchResult};
ghost use Rattle.std.proofs.Common.{zero-le, inr};
ghost use Rattle.std.specs.Io.{ReadsAtMost};
ghost use Rattle.std.specs.Io.Buffered.{reader_remaining};
ghost use Rattle.std.specs.Io.KnownBytes.{Consumes, IsAtEnd, Keeps};
ghost use Rattle.std.specs.IoError.{error_kind};
ghost use Rattle.bincode_io.specs.Stream.{TellsBytes, known_bytes, EndsAsFile, EndsShort, FillsFrom};
ghost use Rattle.bincode_io.specs.Stream.{IsIo, CopiesError, stream_errors};

use crate::read::Reader;
use bincode_base::error::{DecodeError, StreamError};
use std::io;
use std::io::{BufRead, BufReader, ErrorKind, Read};

/// Retries a read that failed with this cause while a signal interrupts it; any other cause is returned at once. Kept
/// out of line, so that a read that succeeds is inlined.
#[cold]
#[inline(never)]
fn read_again<R: Read>(
    stream: &mut R,
    bytes: &mut [u8],
    cause: io::Error,
) -> Result<usize, StreamError>
    ensures bound { ReadsAtMost result bytes.new }
    ensures ok { IfOk result (λ n. Consumes (R.remaining stream.old) (R.remaining stream.new) (take n bytes.new)) }
    ensures end { IfOk result (λ n. n ≡ 0 → 0 < length bytes.old → IsAtEnd (R.remaining stream.new)) }
    ensures err { OnErr result (Keeps (R.remaining stream.old) (R.remaining stream.new)) }
    ensures error { error_kind cause ≢ ErrorKind.Interrupted → (stream.new ≡ stream.old)
        × MatchResult result (λ _. ⊥) (CopiesError cause) }
{
    let mut cause = cause;
    for _ in 0..usize::MAX {
        if cause.kind() != ErrorKind::Interrupted {
            return Err(StreamError::from(cause));
        }
        match stream.read(bytes) {
            Ok(n) => return Ok(n),
            Err(next) => cause = next,
        }
    }
    Err(StreamError::from(cause))
}

/// One read, retried while a signal interrupts it.
#[inline(always)]
fn read_some<R: Read>(stream: &mut R, bytes: &mut [u8]) -> Result<usize, StreamError>
    ensures bound { ReadsAtMost result bytes.new }
    ensures ok { IfOk result (λ n. Consumes (R.remaining stream.old) (R.remaining stream.new) (take n bytes.new)) }
    ensures end { IfOk result (λ n. n ≡ 0 → 0 < length bytes.old → IsAtEnd (R.remaining stream.new)) }
    ensures err { OnErr result (Keeps (R.remaining stream.old) (R.remaining stream.new)) }
{
    match stream.read(bytes) {
        Ok(n) => Ok(n),
        Err(cause) => read_again(stream, bytes, cause),
    }
}

/// The error of a stream that ended with this many bytes missing.
#[cold]
fn end_of_stream(additional: usize) -> DecodeError
    ensures io { IsIo result }
    ensures end { EndsAsFile additional result }
{
    DecodeError::Io {
        inner: StreamError::from(io::Error::from(ErrorKind::UnexpectedEof)),
        additional,
    }
}

/// Fills all of `bytes` from a stream. Fails with `Io` if the stream fails or ends before; what it gave until then is
/// lost.
#[inline(always)]
fn fill<R: Read>(stream: &mut R, bytes: &mut [u8]) -> Result<(), DecodeError>
    ensures ok { OnOk result (Consumes (R.remaining stream.old) (R.remaining stream.new) bytes.new) }
    ensures err { IfErr result IsIo }
    ensures is_known { TellsBytes (R.remaining stream.old) → TellsBytes (R.remaining stream.new) }
{
    let mut at = 0;
    while at < bytes.len() {
        match read_some(stream, &mut bytes[at..]) {
            Ok(0) => return Err(end_of_stream(bytes.len() - at)),
            Ok(n) => at += n,
            Err(inner) => {
                let additional = bytes.len() - at;
                return Err(DecodeError::Io { inner, additional });
            }
        }
    }
    Ok(())
}

/// `fill`, for a buffer that holds fewer bytes than asked. Kept out of line, so that a copy from the buffer is inlined.
#[cold]
#[inline(never)]
fn fill_past_buffer<R: Read>(stream: &mut R, bytes: &mut [u8]) -> Result<(), DecodeError>
    ensures ok { OnOk result (Consumes (R.remaining stream.old) (R.remaining stream.new) bytes.new) }
    ensures err { IfErr result IsIo }
    ensures is_known { TellsBytes (R.remaining stream.old) → TellsBytes (R.remaining stream.new) }
{
    fill(stream, bytes)
}

/// A reader over a stream, without a buffer: each tag and each number is a read of the stream. Fails with `Io`, also at
/// the end of the stream. Nothing is promised of the bytes of a stream that does not tell them, such as a file.
pub struct IoReader<R> {
    stream: R,
}

impl<R: Drop> Drop for IoReader<R> {
    fn drop(self) {
        let IoReader { stream: _ } = self;
    }
}

impl<R: Read> IoReader<R> {
    ghost use Rattle.bincode_io.specs.Stream.{stream_of};

    /// A reader over this stream.
    pub fn new(stream: R) -> IoReader<R>
        ensures { stream_of result ≡ stream }
    {
        IoReader { stream }
    }
}

impl<R: Read + Drop> Reader for IoReader<R> {
    ghost use Rattle.bincode_io.specs.Stream.{stream_of};

    const PEEKS_FIRST: bool = false;

    ghost is_known = { λ r. TellsBytes (R.remaining (stream_of r)) };

    ghost remaining = { λ r. known_bytes (R.remaining (stream_of r)) };

    ghost buffered_len = { λ _. 0 };

    ghost failures = { λ _. 0 };

    ghost end_error = { EndsShort };

    ghost device = { stream_errors };

    ghost loans = { λ _. [] };

    fn read(&mut self, bytes: &mut [u8]) -> Result<(), DecodeError>
        ensures fills { FillsFrom (λ r. R.remaining (stream_of r)) (λ _. []) bytes.old bytes.new
            result self.old self.new }
        ensures io { IfErr result IsIo }
    {
        fill(&mut self.stream, bytes)
    }

    fn peek_read(&mut self, _n: usize) -> Option<&[u8]> {
        None
    }

    fn consume(&mut self, _n: usize) {}

    ghost buffered_within = { λ r _. zero-le };

    ghost end_error_is = { λ missing e h. inr h };
}

/// `IoReader` over a borrowed stream, which its owner can use afterwards.
pub struct LentIoReader<'a, R> {
    stream: &'a mut R,
}

impl<R> Drop for LentIoReader<'_, R> {
    fn drop(self)
        ensures { self.exit.0.now ≡ self.entry.stream.now }
    {
        let LentIoReader { stream: _ } = self;
    }
}

impl<'a, R: Read> LentIoReader<'a, R> {
    ghost use Rattle.bincode_io.specs.Stream.{lent_stream};

    /// A reader over this stream.
    pub fn new(stream: &'a mut R) -> LentIoReader<'a, R>
        ensures loans { ⟦<LentIoReader<'a, R> as Reader>⟧.loans result ≡ stream.entry.ghost_name ∷ [] }
        ensures stream { lent_stream result ≡ stream.old }
    {
        LentIoReader { stream }
    }
}

impl<R: Read> Reader for LentIoReader<'_, R> {
    ghost use Rattle.bincode_io.specs.Stream.{lent_stream};

    const PEEKS_FIRST: bool = false;

    ghost is_known = { λ r. TellsBytes (R.remaining (lent_stream r)) };

    ghost remaining = { λ r. known_bytes (R.remaining (lent_stream r)) };

    ghost buffered_len = { λ _. 0 };

    ghost failures = { λ _. 0 };

    ghost end_error = { EndsShort };

    ghost device = { stream_errors };

    ghost loans = { λ r. r.stream.ghost_name ∷ [] };

    fn read(&mut self, bytes: &mut [u8]) -> Result<(), DecodeError>
        ensures fills { FillsFrom (λ r. R.remaining (lent_stream r)) (λ r. r.stream.ghost_name ∷ []) bytes.old bytes.new
            result self.old self.new }
        ensures io { IfErr result IsIo }
    {
        fill(self.stream, bytes)
    }

    fn peek_read(&mut self, _n: usize) -> Option<&[u8]> {
        None
    }

    fn consume(&mut self, _n: usize) {}

    ghost buffered_within = { λ r _. zero-le };

    ghost end_error_is = { λ missing e h. inr h };
}

/// A buffered stream is a reader that can peek into its buffer. Errors are those of `IoReader`. One whose buffer has
/// capacity 0 does not tell its bytes.
impl<R: Read + Drop> Reader for BufReader<R> {
    ghost use Rattle.bincode_io.specs.Stream.{buffered_count};
    ghost use Rattle.bincode_io.specs.StreamLaws.{buffered-left};

    ghost is_known = { λ r. TellsBytes (reader_remaining R.remaining r) };

    ghost remaining = { λ r. known_bytes (reader_remaining R.remaining r) };

    ghost buffered_len = { λ r. buffered_count r };

    ghost failures = { λ _. 0 };

    ghost end_error = { EndsShort };

    ghost device = { stream_errors };

    ghost loans = { λ _. [] };

    #[inline(always)]
    fn read(&mut self, bytes: &mut [u8]) -> Result<(), DecodeError>
        ensures fills { FillsFrom (λ r. reader_remaining R.remaining r) (λ _. []) bytes.old bytes.new
            result self.old self.new }
        ensures io { IfErr result IsIo }
    {
        let Some(next) = self.buffer().get(..bytes.len()) else {
            return fill_past_buffer(self, bytes);
        };
        bytes.copy_from_slice(next);
        BufRead::consume(self, bytes.len());
        Ok(())
    }

    fn peek_read(&mut self, n: usize) -> Option<&[u8]> {
        self.buffer().get(..n)
    }

    fn consume(&mut self, n: usize) {
        BufRead::consume(self, n);
    }

    ghost buffered_within = { λ r. buffered-left R.remaining r };

    ghost end_error_is = { λ missing e h. inr h };
}
