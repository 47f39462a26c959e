//! A writer to a stream that gathers bytes in a block.
ghost use Rattle.std.specs.Prelude.{ℕ, ◌≡◌, ◌+◌, ◌-◌, ◌^◌, ◌<◌, ◌≤◌, ◌⊎◌, ◌∷◌, [], List, length, take, min};
ghost use Rattle.std.specs.Prelude.{◌≢◌, Some, None, IsSome, MatchOption, OnOk, OnErr, IfErr, refl, true};
ghost use Rattle.std.proofs.Common.{zero-le};
ghost use Rattle.std.specs.Io.KnownBytes.{Appends, Keeps};
ghost use Rattle.bincode_base.specs.declared.error.EncodeError.TheVariants.{UnexpectedEnd};
ghost use Rattle.bincode_spec.specs.Device.{WithinRoom};
ghost use Rattle.bincode_spec.specs.Layers.Pieces.{TakesPiece};
ghost use Rattle.bincode_io.specs.Stream.{IsWriteIo, FrontOut};
ghost use Rattle.bincode_blocks.specs.declared.block_writer.TheConstants.{BLOCK_LEN};

use bincode_base::error::{EncodeError, StreamError};
use bincode_io::io_write::IoWriter;
use bincode_io::write::Writer;
use std::io::Write;

/// How many bytes a block holds: more than any number has, so that the test for a piece that is longer than a block
/// is folded where a number is written.
const BLOCK_LEN: usize = 512;

/// A writer to a borrowed stream that gathers up to 512 bytes, and hands them on with one write when the next piece
/// does not fit: for many small values, or where a write to the stream is dear. A piece of more bytes goes straight to
/// the stream, after what was gathered. What it still holds goes to the stream by `flush`; dropped before that, it is
/// lost.
///
/// A piece fails with `UnexpectedEnd` if the stream fails: `failure` has the stream's error, and so has `flush`. The
/// stream then has a prefix of the bytes that were written, nothing is held, and every later piece fails. It also
/// fails so if the count of bytes would pass 64 bits; then the stream has all that was written before.
///
/// ```
/// let mut writer = BlockWriter::new(&mut file);
/// for record in &records {
///     encode_into_writer(record, &mut writer, settings)?;
/// }
/// writer.flush()?;
/// ```
pub struct BlockWriter<'a, W> {
    stream: &'a mut W,
    /// How many bytes of the block are to be handed on.
    held: usize,
    /// How many it may hold: all of it, unless the count of bytes would pass 64 bits or the stream failed.
    room: usize,
    /// How many bytes were handed on.
    written: usize,
    /// How the stream failed. It stands here, so that the only error of a write is one without parts: an error with
    /// parts would be copied through memory between the numbers of a record.
    failure: Option<StreamError>,
    block: [u8; BLOCK_LEN],
    ghost fits: { held ≤ room },
    ghost whole: { length block ≡ BLOCK_LEN },
    ghost inside: { room ≤ length block },
    ghost counts: { written + room ≤ 2 ^ 64 - 1 },
    ghost closed: { IsSome failure → room ≡ 0 },
}

impl<W> Drop for BlockWriter<'_, W> {
    fn drop(self)
        ensures { self.exit.0.now ≡ self.entry.stream.now }
    {
        let BlockWriter {
            stream: _,
            held: _,
            room: _,
            written: _,
            failure: _,
            block: _,
        } = self;
    }
}

/// The longest piece that is copied in place: that of a number.
const FEW: usize = 16;

/// Copies a few bytes one by one into as many: LLVM makes few stores of them where their number is known.
#[inline(always)]
fn copy_few(target: &mut [u8], piece: &[u8])
    requires { length target.old ≡ length piece.now }
    ensures { target.new ≡ piece.now }
{
    for (at, byte) in piece.iter().enumerate() {
        target[at] = *byte;
    }
}

/// Copies more bytes. Out of line, so that what writes a number stays short: LLVM does not inline into a function that
/// would grow too large, whatever its attributes ask for.
#[inline(never)]
fn copy_many(target: &mut [u8], piece: &[u8])
    requires { length target.old ≡ length piece.now }
    ensures { target.new ≡ piece.now }
{
    target.copy_from_slice(piece);
}

/// Copies `piece` into `target` of equal length.
#[inline(always)]
fn copy_piece(target: &mut [u8], piece: &[u8])
    requires { length target.old ≡ length piece.now }
    ensures { target.new ≡ piece.now }
{
    if piece.len() <= FEW {
        copy_few(target, piece);
    } else {
        copy_many(target, piece);
    }
}

/// Writes all of `bytes` to a stream.
fn write_through<W: Write>(stream: &mut W, bytes: &[u8]) -> Result<(), StreamError>
    ensures ok { OnOk result (Appends (W.contents stream.old) (W.contents stream.new) bytes.now) }
    ensures left { OnErr result (FrontOut W.contents stream.old bytes.now stream.new) }
{
    let mut writer = IoWriter::new(stream);
    match writer.write(bytes) {
        Ok(()) => Ok(()),
        Err(EncodeError::Io { inner, index: _ }) => Err(inner),
        // A slice has fewer bytes than 64 bits count.
        Err(_) => unreachable!(),
    }
}

/// Writes the first bytes of a block to a stream. The block is lent by `&mut`, as the stream beside it is, and stays as
/// it was.
fn write_front<W: Write>(
    stream: &mut W,
    block: &mut [u8; BLOCK_LEN],
    count: usize,
) -> Result<(), StreamError>
    requires { count ≤ length block.old }
    ensures ok { OnOk result (Appends (W.contents stream.old) (W.contents stream.new) (take count block.old)) }
    ensures left { OnErr result (FrontOut W.contents stream.old (take count block.old) stream.new) }
    ensures same { block.new ≡ block.old }
{
    write_through(stream, &block[..count])
}

impl<'a, W: Write> BlockWriter<'a, W> {
    ghost use Rattle.bincode_blocks.specs.Blocks.{stream_behind, held_by, count_of, handed_on, failure_of, loans_of};

    /// A writer to this stream that holds nothing.
    pub fn new(stream: &'a mut W) -> BlockWriter<'a, W>
        ensures stream { stream_behind result ≡ stream.old }
        ensures loans { loans_of result ≡ stream.entry.ghost_name ∷ [] }
        ensures held { held_by result ≡ [] }
        ensures start { (count_of result ≡ 0) × (handed_on result ≡ 0) × (failure_of result ≡ None) }
    {
        BlockWriter {
            stream,
            held: 0,
            room: BLOCK_LEN,
            written: 0,
            failure: None,
            block: [0; BLOCK_LEN],
        }
    }

    /// The number of bytes that were written, with those that it still holds.
    pub fn bytes_written(&self) -> usize
        ensures { result ≡ count_of self.now }
    {
        self.written + self.held
    }

    /// The stream's error as `Io`, if the stream failed. Its index is the number of bytes that were handed on before.
    pub fn failure(&self) -> Option<EncodeError>
        ensures { MatchOption result (failure_of self.now ≡ None) (λ e. IsSome (failure_of self.now)
            × IsWriteIo (handed_on self.now) e) }
    {
        let inner = self.failure?;
        Some(EncodeError::Io {
            inner,
            index: self.written,
        })
    }

    /// Hands on the bytes that it holds, with one write where the stream takes them whole; it flushes nothing. Fails
    /// with `Io` if the stream fails, or failed before, and then as well at each later call; the bytes that it did not
    /// take are lost. The index of the `Io` is the number of bytes that were handed on before. Nothing is held in any
    /// case.
    pub fn hand_on(&mut self) -> Result<(), EncodeError>
        ensures ok { OnOk result (Appends (W.contents (stream_behind self.old)) (W.contents (stream_behind self.new))
            (held_by self.old)) }
        ensures left { OnErr result (FrontOut W.contents (stream_behind self.old) (held_by self.old)
            (stream_behind self.new)) }
        ensures error { IfErr result (IsWriteIo (handed_on self.new)) }
        ensures empty { held_by self.new ≡ [] }
        ensures count { OnOk result (count_of self.new ≡ count_of self.old) }
        ensures index { OnErr result (handed_on self.new ≡ handed_on self.old) }
        ensures failed { OnErr result (IsSome (failure_of self.new)) }
        ensures whole { OnOk result ((failure_of self.old ≡ None) × (failure_of self.new ≡ None)) }
        ensures loans { loans_of self.new ≡ loans_of self.old }
    {
        self.make_room();
        match self.failure() {
            Some(e) => Err(e),
            None => Ok(()),
        }
    }

    /// `hand_on`, and then flushes the stream. Fails with `Io` also if that fails, and then as well at each later call:
    /// every later piece fails, and so do `hand_on` and `flush`.
    pub fn flush(&mut self) -> Result<(), EncodeError>
        ensures ok { OnOk result (Appends (W.contents (stream_behind self.old)) (W.contents (stream_behind self.new))
            (held_by self.old)) }
        ensures left { OnErr result (FrontOut W.contents (stream_behind self.old) (held_by self.old)
            (stream_behind self.new)) }
        ensures error { IfErr result (IsWriteIo (handed_on self.new)) }
        ensures empty { held_by self.new ≡ [] }
        ensures count { OnOk result (count_of self.new ≡ count_of self.old) }
        ensures failed { OnErr result (IsSome (failure_of self.new)) }
        ensures whole { OnOk result ((failure_of self.old ≡ None) × (failure_of self.new ≡ None)) }
        ensures loans { loans_of self.new ≡ loans_of self.old }
    {
        self.hand_on()?;
        match self.stream.flush() {
            Ok(()) => Ok(()),
            Err(cause) => {
                let inner = StreamError::from(cause);
                self.fail(inner);
                Err(EncodeError::Io {
                    inner,
                    index: self.written,
                })
            }
        }
    }

    /// Notes that the stream failed: from now on nothing is held.
    fn fail(&mut self, cause: StreamError)
        ensures stream { self.new.stream ≡ self.old.stream }
        ensures empty { held_by self.new ≡ [] }
        ensures shut { self.new.room ≡ 0 }
        ensures failed { failure_of self.new ≡ Some cause }
        ensures handed { handed_on self.new ≡ handed_on self.old }
        ensures loans { loans_of self.new ≡ loans_of self.old }
    {
        self.held = 0;
        self.room = 0;
        self.failure = Some(cause);
    }
}

impl<W: Write> BlockWriter<'_, W> {
    ghost use Rattle.bincode_blocks.specs.Blocks.{loans_of, BlockAdds, BlockRefuses, Clears, HasRoom};

    /// Hands on what is held, which makes room for the next pieces unless the stream fails or 64 bits count no more
    /// bytes. Out of line, and without a result for speed: where a call with a result is joined with the write of a
    /// number, the result passes through memory.
    #[cold]
    #[inline(never)]
    fn make_room(&mut self)
        ensures clears { Clears W.contents self.old self.new }
        ensures loans { loans_of self.new ≡ loans_of self.old }
    {
        if self.failure.is_some() {
            self.held = 0;
            self.room = 0;
            return;
        }
        match write_front(self.stream, &mut self.block, self.held) {
            Ok(()) => {
                self.written += self.held;
                self.held = 0;
                self.room = self.block.len().min(usize::MAX - self.written);
            }
            Err(cause) => self.fail(cause),
        }
    }

    /// Makes room for so many bytes where there is not enough. The caller tests for it once more.
    #[inline(always)]
    fn ensure_room(&mut self, count: usize)
        ensures room { HasRoom W.contents count self.old self.new }
        ensures loans { loans_of self.new ≡ loans_of self.old }
    {
        if self.room - self.held < count {
            self.make_room();
        }
    }

    /// Writes a piece that is longer than the block: hands on what is held, and then the piece.
    #[cold]
    #[inline(never)]
    fn write_long(&mut self, bytes: &[u8]) -> Result<(), EncodeError>
        ensures piece { bytes.now ≢ [] → TakesPiece (BlockAdds W.contents) (BlockRefuses W.contents) (λ _. 0)
            (λ w. loans_of w) bytes.now result self.old self.new }
    {
        self.make_room();
        if self.failure.is_some() || usize::MAX - self.written < bytes.len() {
            return Err(EncodeError::UnexpectedEnd);
        }
        match write_through(self.stream, bytes) {
            Ok(()) => {
                self.written += bytes.len();
                self.room = self.block.len().min(usize::MAX - self.written);
                Ok(())
            }
            Err(cause) => {
                self.fail(cause);
                Err(EncodeError::UnexpectedEnd)
            }
        }
    }
}

impl<W: Write> Writer for BlockWriter<'_, W> {
    ghost use Rattle.bincode_blocks.specs.Blocks.{count_of, loans_of, BlockAdds, BlockRefuses};
    ghost use Rattle.bincode_blocks.specs.BlockLaws.{adds-none, adds-join, refuses-why, adds-room};

    ghost adds = { BlockAdds W.contents };

    ghost refuses = { BlockRefuses W.contents };

    ghost room = { λ w. Some (2 ^ 64 - 1 - count_of w) };

    ghost failures = { λ _. 0 };

    ghost device = { λ e. e ≡ UnexpectedEnd };

    ghost loans = { λ w. loans_of w };

    /// Left to LLVM to inline, as `write_payload` is: the compiler drops `inline(always)`, without a word, from a
    /// function that would grow very large, and the numbers of a record would ask for it many times. Their function was
    /// then a call, whose result goes through memory.
    #[inline]
    fn write(&mut self, bytes: &[u8]) -> Result<(), EncodeError> {
        if bytes.is_empty() {
            return Ok(());
        }
        if self.block.len() < bytes.len() {
            return self.write_long(bytes);
        }
        self.ensure_room(bytes.len());
        if self.room - self.held < bytes.len() {
            return Err(EncodeError::UnexpectedEnd);
        }
        let end = self.held + bytes.len();
        copy_piece(&mut self.block[self.held..end], bytes);
        self.held = end;
        Ok(())
    }

    /// Makes room for all bytes of the number at once.
    #[inline(always)]
    fn write_tag(&mut self, byte: u8, all: usize) -> Result<(), EncodeError> {
        self.ensure_room(all.max(1));
        if self.held == self.room {
            return Err(EncodeError::UnexpectedEnd);
        }
        self.block[self.held] = byte;
        self.held += 1;
        Ok(())
    }

    /// Left to LLVM, as `write` is: the provided method is always inlined.
    #[inline]
    fn write_payload(&mut self, bytes: &[u8]) -> Result<(), EncodeError> {
        self.write(bytes)
    }

    #[inline(always)]
    fn has_room_for(&self, count: usize) -> bool {
        count <= self.room - self.held
    }

    ghost adds_none = { adds-none W.contents };

    ghost adds_join = { adds-join W.contents };

    ghost adds_count = { λ a b piece h. zero-le };

    ghost refuses_count = { λ a b piece e h. zero-le };

    ghost refuses_why = { refuses-why W.contents };

    ghost adds_nothing = { λ a b h. h.nothing refl };

    ghost adds_room = { adds-room W.contents };
}
