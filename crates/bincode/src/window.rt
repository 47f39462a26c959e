//! A reader of a stream with a buffer, for values that are longer than what the buffer shows.
ghost use Rattle.std.specs.Prelude.{◌≡◌, ◌≤◌, ◌++◌, [], ◌∷◌, length, drop, OnOk, IfOk, IfErr};
ghost use Rattle.std.proofs.Common.{zero-le, inr};
ghost use Rattle.std.specs.Io.KnownBytes.{Keeps};
ghost use Rattle.bincode_spec.specs.Layers.Pieces.{FillsBuffer};
ghost use Rattle.bincode_io.specs.Stream.{TellsBytes, known_bytes, EndsShort, IsIo, stream_errors};
ghost use Rattle.bincode.specs.declared.window.TheConstants.{WINDOW_LEN};
ghost use Rattle.bincode.specs.Window.{ShowsNext};

use bincode_base::error::{DecodeError, StreamError};
use bincode_io::io_read::LentIoReader;
use bincode_io::read::Reader;
use std::io;
use std::io::{BufRead, ErrorKind};

/// How many bytes a window holds.
const WINDOW_LEN: usize = 512;

/// A reader over a borrowed stream with a buffer, which copies what the buffer shows into a window of its own: so a
/// number is read from the window, and the stream is called once for each window. What was read is consumed before
/// the next window, and when the reader is dropped; so just that is consumed then. Errors are those of `IoReader`.
pub(crate) struct WindowReader<'a, R: BufRead> {
    stream: &'a mut R,
    /// How many bytes of the window were read. The stream still has them.
    taken: usize,
    /// How many bytes of the window are what the buffer shows.
    len: usize,
    /// How the stream failed when its buffer was looked at before, which is not told yet.
    failure: Option<StreamError>,
    window: [u8; WINDOW_LEN],
    ghost within: { taken ≤ len },
    ghost fits: { len ≤ WINDOW_LEN },
    ghost whole: { length window ≡ WINDOW_LEN },
}

impl<R: BufRead> Drop for WindowReader<'_, R> {
    fn drop(self)
        ensures { ShowsNext (R.remaining self.entry.stream.now) (R.consumable_len self.entry.stream.now)
            self.entry.len self.entry.window → TellsBytes (R.remaining self.exit.0.now)
            × (known_bytes (R.remaining self.exit.0.now)
            ≡ drop self.entry.taken (known_bytes (R.remaining self.entry.stream.now))) }
    {
        let WindowReader {
            stream,
            taken,
            len: _,
            failure: _,
            window: _,
        } = self;
        stream.consume(taken);
    }
}

/// How a look at the buffer of a stream failed, unless a signal interrupted it: the next read then retries it.
#[cold]
pub(crate) fn failure_of(cause: io::Error) -> Option<StreamError> {
    if cause.kind() == ErrorKind::Interrupted {
        return None;
    }
    Some(StreamError::from(cause))
}

/// Copies the front of what the buffer of a stream shows into a window, and returns its length: 0 at the end of the
/// stream, and where a signal interrupts it. Fails if the stream fails. Consumes nothing.
fn fill_window<R: BufRead>(
    stream: &mut R,
    window: &mut [u8; WINDOW_LEN],
) -> Result<usize, StreamError>
    ensures fits { IfOk result (λ n. n ≤ WINDOW_LEN) }
    ensures whole { length window.new ≡ length window.old }
    ensures kept { Keeps (R.remaining stream.old) (R.remaining stream.new) }
    ensures shows { TellsBytes (R.remaining stream.old) → IfOk result (λ n. ShowsNext (R.remaining stream.new)
        (R.consumable_len stream.new) n window.new) }
{
    let shown = match stream.fill_buf() {
        Ok(shown) => shown,
        Err(cause) => {
            return match failure_of(cause) {
                Some(failure) => Err(failure),
                None => Ok(0),
            };
        }
    };
    let len = shown.len().min(WINDOW_LEN);
    window[..len].copy_from_slice(&shown[..len]);
    Ok(len)
}

impl<'a, R: BufRead> WindowReader<'a, R> {
    /// A reader over this stream, whose window is empty. If a look at the stream's buffer failed before, the first read
    /// fails so, and does not ask the stream once more.
    pub(crate) fn new(stream: &'a mut R, failure: Option<StreamError>) -> WindowReader<'a, R>
        ensures loans { ⟦<WindowReader<'a, R> as Reader>⟧.loans result ≡ stream.entry.ghost_name ∷ [] }
        ensures stream { result.stream.now ≡ stream.old }
        ensures empty { (result.taken ≡ 0) × (result.len ≡ 0) }
    {
        WindowReader {
            stream,
            taken: 0,
            len: 0,
            failure,
            window: [0; WINDOW_LEN],
        }
    }

    /// Consumes what was read, and empties the window.
    fn give_back(&mut self)
        ensures left { ShowsNext (R.remaining self.old.stream.now) (R.consumable_len self.old.stream.now)
            self.old.len self.old.window → TellsBytes (R.remaining self.new.stream.now)
            × (known_bytes (R.remaining self.new.stream.now)
            ≡ drop self.old.taken (known_bytes (R.remaining self.old.stream.now))) }
        ensures empty { (self.new.taken ≡ 0) × (self.new.len ≡ 0) }
        ensures loans { self.new.stream.ghost_name ≡ self.old.stream.ghost_name }
    {
        let taken = self.taken;
        self.taken = 0;
        self.len = 0;
        self.stream.consume(taken);
    }

    /// Reads bytes of which the window has too few: from a new window, or from the stream where that has too few too.
    #[cold]
    #[inline(never)]
    fn read_past(&mut self, bytes: &mut [u8]) -> Result<(), DecodeError>
        ensures ok { ShowsNext (R.remaining self.old.stream.now) (R.consumable_len self.old.stream.now)
            self.old.len self.old.window → OnOk result (drop self.old.taken (known_bytes (R.remaining
            self.old.stream.now)) ≡ bytes.new ++ drop self.new.taken (known_bytes (R.remaining self.new.stream.now))) }
        ensures err { IfErr result IsIo }
        ensures is_known { ShowsNext (R.remaining self.old.stream.now) (R.consumable_len self.old.stream.now)
            self.old.len self.old.window → ShowsNext (R.remaining self.new.stream.now)
            (R.consumable_len self.new.stream.now) self.new.len self.new.window }
        ensures loans { self.new.stream.ghost_name ≡ self.old.stream.ghost_name }
    {
        self.give_back();
        let additional = bytes.len();
        if let Some(inner) = self.failure.take() {
            return Err(DecodeError::Io { inner, additional });
        }
        match fill_window(self.stream, &mut self.window) {
            Ok(len) if additional <= len => {
                bytes.copy_from_slice(&self.window[..additional]);
                self.len = len;
                self.taken = additional;
                Ok(())
            }
            Ok(_) => LentIoReader::new(self.stream).read(bytes),
            Err(inner) => Err(DecodeError::Io { inner, additional }),
        }
    }
}

impl<R: BufRead> Reader for WindowReader<'_, R> {
    const PEEKS_FIRST: bool = false;

    ghost is_known = { λ r. ShowsNext (R.remaining r.stream.now) (R.consumable_len r.stream.now) r.len r.window };

    ghost remaining = { λ r. drop r.taken (known_bytes (R.remaining r.stream.now)) };

    ghost buffered_len = { λ _. 0 };

    ghost failures = { λ _. 0 };

    ghost end_error = { EndsShort };

    ghost device = { stream_errors };

    ghost loans = { λ r. r.stream.ghost_name ∷ [] };

    #[inline]
    fn read(&mut self, bytes: &mut [u8]) -> Result<(), DecodeError>
        ensures fills { FillsBuffer (λ r. ShowsNext (R.remaining r.stream.now) (R.consumable_len r.stream.now) r.len
            r.window) (λ r. drop r.taken (known_bytes (R.remaining r.stream.now))) (λ _. 0)
            (λ r. r.stream.ghost_name ∷ []) EndsShort stream_errors bytes.old bytes.new result self.old self.new }
        ensures io { IfErr result IsIo }
    {
        if self.len < bytes.len() || self.len - bytes.len() < self.taken {
            return self.read_past(bytes);
        }
        let end = self.taken + bytes.len();
        bytes.copy_from_slice(&self.window[self.taken..end]);
        self.taken = end;
        Ok(())
    }

    fn peek_read(&mut self, _n: usize) -> Option<&[u8]> {
        None
    }

    fn consume(&mut self, _n: usize) {}

    ghost buffered_within = { λ r _. zero-le };

    ghost end_error_is = { λ missing e h. inr h };
}
