//! Writers over the streams of `std::io`.
ghost use Rattle.std.specs.Prelude.{ℕ, ◌≡◌, ◌+◌, ◌-◌, ◌^◌, ◌∷◌, [], length, take};
ghost use Rattle.std.specs.Prelude.{◌≢◌, Some, OnOk, OnErr, IfOk, MatchResult, refl};
ghost use Rattle.std.proofs.Common.{zero-le};
ghost use Rattle.std.specs.Io.{WritesAtMost};
ghost use Rattle.std.specs.Io.KnownBytes.{Appends, Keeps};
ghost use Rattle.std.specs.IoError.{error_kind};
ghost use Rattle.bincode_base.specs.StreamError.{kind_of};
ghost use Rattle.bincode_io.specs.Stream.{target_of, written_through, CopiesError, FrontOut, StreamAdds, StreamRefuses};

use crate::write::Writer;
use bincode_base::error::{EncodeError, StreamError};
use std::io;
use std::io::{ErrorKind, Write};

/// Retries a write that failed with this cause while a signal interrupts it; any other cause is returned at once. Kept
/// out of line, so that a write that succeeds is inlined.
#[cold]
#[inline(never)]
fn write_again<W: Write>(
    stream: &mut W,
    bytes: &[u8],
    cause: io::Error,
) -> Result<usize, StreamError>
    ensures bound { WritesAtMost result bytes.now }
    ensures ok { IfOk result (λ n. Appends (W.contents stream.old) (W.contents stream.new) (take n bytes.now)) }
    ensures err { OnErr result (Keeps (W.contents stream.old) (W.contents stream.new)) }
    ensures error { error_kind cause ≢ ErrorKind.Interrupted → (stream.new ≡ stream.old)
        × MatchResult result (λ _. ⊥) (CopiesError cause) }
{
    let mut cause = cause;
    for _ in 0..usize::MAX {
        if cause.kind() != ErrorKind::Interrupted {
            return Err(StreamError::from(cause));
        }
        match stream.write(bytes) {
            Ok(n) => return Ok(n),
            Err(next) => cause = next,
        }
    }
    Err(StreamError::from(cause))
}

/// One write, retried while a signal interrupts it.
#[inline(always)]
fn write_some<W: Write>(stream: &mut W, bytes: &[u8]) -> Result<usize, StreamError>
    ensures bound { WritesAtMost result bytes.now }
    ensures ok { IfOk result (λ n. Appends (W.contents stream.old) (W.contents stream.new) (take n bytes.now)) }
    ensures err { OnErr result (Keeps (W.contents stream.old) (W.contents stream.new)) }
{
    match stream.write(bytes) {
        Ok(n) => Ok(n),
        Err(cause) => write_again(stream, bytes, cause),
    }
}

/// The error of a stream that accepts no more bytes.
#[cold]
fn full_stream() -> StreamError
    ensures { kind_of result ≡ ErrorKind.WriteZero }
{
    StreamError::from(io::Error::from(ErrorKind::WriteZero))
}

/// Writes the rest of a piece of which one write took only a prefix. Kept out of line, so that a write that takes the
/// whole piece is inlined.
#[cold]
#[inline(never)]
fn write_rest<W: Write>(stream: &mut W, rest: &[u8]) -> Result<(), StreamError>
    ensures ok { OnOk result (Appends (W.contents stream.old) (W.contents stream.new) rest.now) }
    ensures left { OnErr result (FrontOut W.contents stream.old rest.now stream.new) }
{
    let mut at = 0;
    while at < rest.len() {
        match write_some(stream, &rest[at..])? {
            0 => return Err(full_stream()),
            n => at += n,
        }
    }
    Ok(())
}

/// Writes all of `bytes` to a stream. Fails if the stream fails or accepts no more; a prefix of the bytes is then out.
#[inline(always)]
fn write_out<W: Write>(stream: &mut W, bytes: &[u8]) -> Result<(), StreamError>
    ensures ok { OnOk result (Appends (W.contents stream.old) (W.contents stream.new) bytes.now) }
    ensures left { OnErr result (FrontOut W.contents stream.old bytes.now stream.new) }
{
    match write_some(stream, bytes)? {
        n if n == bytes.len() => Ok(()),
        0 => Err(full_stream()),
        n => write_rest(stream, &bytes[n..]),
    }
}

/// A writer over a borrowed stream, without a buffer: each tag and each number is a write to the stream. Fails with
/// `Io` if the stream fails, which may have taken a prefix of the piece, and with `UnexpectedEnd`, before it writes, if
/// the count of bytes would pass 64 bits.
pub struct IoWriter<'a, W> {
    stream: &'a mut W,
    written: usize,
}

impl<W> Drop for IoWriter<'_, W> {
    fn drop(self)
        ensures { self.exit.0.now ≡ self.entry.stream.now }
    {
        let IoWriter {
            stream: _,
            written: _,
        } = self;
    }
}

impl<'a, W: Write> IoWriter<'a, W> {
    /// A writer over this stream, with a count of 0.
    pub fn new(stream: &'a mut W) -> IoWriter<'a, W>
        ensures loans { ⟦<IoWriter<'a, W> as Writer>⟧.loans result ≡ stream.entry.ghost_name ∷ [] }
        ensures stream { target_of result ≡ stream.old }
        ensures start { written_through result ≡ 0 }
    {
        IoWriter { stream, written: 0 }
    }

    /// The number of bytes written by calls that succeeded.
    pub fn bytes_written(&self) -> usize
        ensures { result ≡ written_through self.now }
    {
        self.written
    }
}

impl<W: Write> Writer for IoWriter<'_, W> {
    ghost use Rattle.bincode_io.specs.Stream.{IsWriteIo};
    ghost use Rattle.bincode_io.specs.StreamLaws.{adds-none, adds-join, refuses-why, adds-room};
    ghost use Rattle.bincode_base.specs.declared.error.EncodeError.{EncodeError};

    ghost adds = { StreamAdds W.contents };

    ghost refuses = { StreamRefuses W.contents };

    ghost room = { λ w. Some (2 ^ 64 - 1 - written_through w) };

    ghost failures = { λ _. 0 };

    ghost device = { λ e. (written : ℕ) × IsWriteIo written e };

    ghost loans = { λ w. w.stream.ghost_name ∷ [] };

    #[inline]
    fn write(&mut self, bytes: &[u8]) -> Result<(), EncodeError> {
        if bytes.is_empty() {
            return Ok(());
        }
        let Some(written) = self.written.checked_add(bytes.len()) else {
            return Err(EncodeError::UnexpectedEnd);
        };
        if let Err(inner) = write_out(self.stream, bytes) {
            return Err(EncodeError::Io {
                inner,
                index: self.written,
            });
        }
        self.written = written;
        Ok(())
    }

    /// Written out because the provided method is not inlined.
    #[inline(always)]
    fn write_tag(&mut self, byte: u8, _all: usize) -> Result<(), EncodeError> {
        self.write(&[byte])
    }

    /// Written out because the provided method is not inlined.
    #[inline]
    fn write_payload(&mut self, bytes: &[u8]) -> Result<(), EncodeError> {
        self.write(bytes)
    }

    ghost adds_none = { adds-none W.contents };

    ghost adds_join = { adds-join W.contents };

    ghost adds_count = { λ a b piece h. zero-le };

    ghost refuses_count = { λ a b piece e h. zero-le };

    ghost refuses_why = { refuses-why W.contents };

    ghost adds_nothing = { λ a b h. h.nothing refl };

    ghost adds_room = { adds-room W.contents };
}
