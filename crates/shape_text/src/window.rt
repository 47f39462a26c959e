//! A window over a stream: the bytes that were read of it and not yet consumed.
ghost use Rattle.std.specs.Prelude.{◌≡◌, ◌+◌, ◌≤◌, ◌<◌, ◌++◌, [], true, false, length, take, drop};
ghost use Rattle.std.specs.Prelude.{IfOk, OnErr, vec_len, vec_capacity};
ghost use Rattle.std.specs.Io.{ReadsAtMost, StartsWith};
ghost use Rattle.std.specs.Io.KnownBytes.{Consumes, IsAtEnd, Keeps};

use std::alloc::Global;
use std::io;
use std::io::{ErrorKind, Read};

/// How many bytes are read at once; a window that shows as many is made twice as long.
pub const CHUNK: usize = 16_384;

/// A stream, and the bytes that were read of it and not yet consumed.
#[derive(Drop)]
pub struct Window<R> {
    stream: R,
    bytes: Vec<u8>,
    /// How many of the bytes are consumed.
    start: usize,
    ghost within: { start ≤ vec_len bytes },
}

impl<R: Read> Window<R> {
    ghost use Rattle.shape_text.specs.Windows.{DoublesFrom, shown_bytes, source_of, bytes_left};

    /// A window over this stream, which shows nothing yet.
    pub fn new(alloc: Global, stream: R) -> Window<R>
        ensures shown { shown_bytes result ≡ [] }
        ensures source { source_of result ≡ stream }
    {
        Window {
            stream,
            bytes: Vec::new(alloc),
            start: 0,
        }
    }

    /// The bytes that were read and not yet consumed.
    pub fn bytes(&self) -> &[u8]
        ensures { result.now ≡ shown_bytes self.now }
    {
        &self.bytes[self.start..]
    }

    /// Consumes this number of the bytes that are shown, or all, where there are fewer.
    pub fn skip(&mut self, count: usize)
        ensures shown { shown_bytes self.new ≡ drop count (shown_bytes self.old) }
        ensures source { source_of self.new ≡ source_of self.old }
    {
        let left = self.bytes.len() - self.start;
        self.start += left.min(count);
    }

    /// Whether a byte is left. Reads only where none is shown.
    pub fn has_more(&mut self) -> io::Result<bool>
        // Nothing is consumed, and what was shown is still shown.
        ensures kept { Keeps (bytes_left R.remaining self.old) (bytes_left R.remaining self.new) }
        ensures grown { StartsWith (shown_bytes self.new) (shown_bytes self.old) }
        // A byte is left exactly where one is shown; else the stream is at its end.
        ensures more { IfOk result (λ more. more ≡ true → 0 < length (shown_bytes self.new)) }
        ensures end { IfOk result (λ more. more ≡ false → (shown_bytes self.new ≡ [])
            × IsAtEnd (R.remaining (source_of self.new))) }
    {
        if self.start < self.bytes.len() {
            return Ok(true);
        }
        self.read_more()
    }

    /// Reads until at least one more byte is shown than now, and of a window of 16 KiB or more until it is twice as
    /// long, or the stream ends. Returns whether a byte came. A read that a signal interrupts is tried again. Fails
    /// where a read fails, or with `OutOfMemory`; then what came before is shown.
    pub fn read_more(&mut self) -> io::Result<bool>
        // Nothing is consumed, and what was shown is still shown.
        ensures kept { Keeps (bytes_left R.remaining self.old) (bytes_left R.remaining self.new) }
        ensures grown { StartsWith (shown_bytes self.new) (shown_bytes self.old) }
        // `true` says that a byte came,
        ensures more { IfOk result (λ more. more ≡ true
            → length (shown_bytes self.old) < length (shown_bytes self.new)) }
        // and from a length on as many as were shown, unless the stream is at its end;
        ensures doubled { IfOk result (λ more. more ≡ true → DoublesFrom CHUNK (shown_bytes self.old)
            (shown_bytes self.new) (R.remaining (source_of self.new))) }
        // `false` says that the stream is at its end, and what is shown stays.
        ensures end { IfOk result (λ more. more ≡ false → (shown_bytes self.new ≡ shown_bytes self.old)
            × IsAtEnd (R.remaining (source_of self.new))) }
    {
        self.drop_consumed();
        let before = self.bytes.len();
        let least = if before < CHUNK { 1 } else { before };
        for _ in 0..u64::MAX {
            if self.bytes.len() - before >= least {
                return Ok(true);
            }
            if !self.read_once()? {
                return Ok(self.bytes.len() > before);
            }
        }
        Err(ErrorKind::Interrupted.into())
    }

    /// Makes room where consumed bytes are.
    fn drop_consumed(&mut self)
        ensures shown { shown_bytes self.new ≡ shown_bytes self.old }
        ensures source { source_of self.new ≡ source_of self.old }
        ensures start { self.new.start ≡ 0 }
    {
        remove_front(&mut self.bytes, self.start);
        self.start = 0;
    }

    /// Reads once. Returns whether a byte came.
    fn read_once(&mut self) -> io::Result<bool>
        ensures kept { Keeps (bytes_left R.remaining self.old) (bytes_left R.remaining self.new) }
        ensures start { self.new.start ≡ self.old.start }
        ensures grown { StartsWith self.new.bytes.items self.old.bytes.items }
        ensures more { IfOk result (λ more. more ≡ true → vec_len self.old.bytes < vec_len self.new.bytes) }
        ensures end { IfOk result (λ more. more ≡ false → (self.new.bytes.items ≡ self.old.bytes.items)
            × IsAtEnd (R.remaining (source_of self.new))) }
    {
        let Ok(()) = self.bytes.reserve(CHUNK) else {
            return Err(ErrorKind::OutOfMemory.into());
        };
        let mut chunk = [0; CHUNK];
        let count = read_some(&mut self.stream, &mut chunk)?;
        append(&mut self.bytes, &chunk[..count]);
        Ok(count > 0)
    }
}

/// Removes the first `count` bytes.
fn remove_front(bytes: &mut Vec<u8>, count: usize)
    requires { count ≤ vec_len bytes.old }
    ensures { bytes.new.items ≡ drop count bytes.old.items }
{
    let len = bytes.len();
    bytes.as_mut_slice().copy_within(count..len, 0);
    bytes.truncate(len - count);
}

/// Appends bytes for which there is room.
fn append(bytes: &mut Vec<u8>, more: &[u8])
    requires { vec_len bytes.old + length more.now ≤ vec_capacity bytes.old }
    ensures { bytes.new.items ≡ bytes.old.items ++ more.now }
{
    let Ok(()) = bytes.extend_from_slice(more) else {
        unreachable!()
    };
}

/// One read, tried again while a signal interrupts it.
fn read_some<R: Read>(stream: &mut R, chunk: &mut [u8]) -> io::Result<usize>
    ensures bound { ReadsAtMost result chunk.new }
    ensures ok { IfOk result (λ n. Consumes (R.remaining stream.old) (R.remaining stream.new) (take n chunk.new)) }
    ensures end { IfOk result (λ n. n ≡ 0 → 0 < length chunk.old → IsAtEnd (R.remaining stream.new)) }
    ensures err { OnErr result (Keeps (R.remaining stream.old) (R.remaining stream.new)) }
{
    for _ in 0..u64::MAX {
        match stream.read(chunk) {
            Ok(count) => return Ok(count),
            Err(cause) => {
                if cause.kind() != ErrorKind::Interrupted {
                    return Err(cause);
                }
            }
        }
    }
    Err(ErrorKind::Interrupted.into())
}
