//! Decoding from the streams of `std::io`, and encoding into them.
ghost use Rattle.std.specs.Prelude.{◌≡◌, IfOk, IfErr, MatchOption};
ghost use Rattle.bincode_spec.specs.Allowed.{AllowedWord};
ghost use Rattle.bincode_spec.specs.Encoding.{IsReady};
ghost use Rattle.bincode_io.specs.Stream.{StreamWritten, StreamHalts, FrontOut, IsWriteIo};
ghost use Rattle.bincode_blocks.specs.Blocks.{stream_behind, held_by, handed_on, failure_of, loans_of};
ghost use Rattle.bincode.specs.Streamed.{CountsWrites, IsStreamRead};

use crate::reader::decode_from_reader_with;
use crate::writer::encode_into_writer;
use bincode_base::config::Config;
use bincode_base::error::{DecodeError, EncodeError};
use bincode_blocks::BlockWriter;
use bincode_decode::decode::Decode;
use bincode_encode::encode::Encode;
use bincode_io::io_read::LentIoReader;
use bincode_io::io_write::IoWriter;
use std::alloc::Global;
use std::io::{Read, Write};

/// Decodes a value from a stream and consumes just its encoding. Fails with the first fault of the bytes,
/// `LimitExceeded` if the charges pass the limit, `Memory` if an allocation is refused, or `Io` if the stream fails or
/// ends; the bytes consumed until then are lost. Each tag and number is a read of its own: wrap a file in a
/// `BufReader`, and read it by `decode_from_buf_read`, which is faster.
pub fn decode_from_std_read<D: Decode<()>, C: Config, R: Read>(
    alloc: Global,
    src: &mut R,
    config: C,
) -> Result<D, DecodeError>
    // The fields of `IsRead` say what is taken, how each fault and each excess is reported, and what a failure leaves.
    ensures { IsStreamRead R.remaining D.words.may_allocate (D.words.format C.setting) C.bound D.words.decodes_to
        result src.old src.new }
{
    decode_from_std_read_with_context(alloc, src, config, ())
}

/// `decode_from_std_read` for a type whose decoder asks for a context. The context does not change what the bytes mean.
pub fn decode_from_std_read_with_context<Context: Drop, D: Decode<Context>, C: Config, R: Read>(
    alloc: Global,
    src: &mut R,
    config: C,
    context: Context,
) -> Result<D, DecodeError>
    // The fields of `IsRead` say what is taken, how each fault and each excess is reported, and what a failure leaves.
    ensures { IsStreamRead R.remaining D.words.may_allocate (D.words.format C.setting) C.bound D.words.decodes_to
        result src.old src.new }
{
    let mut context = context;
    let mut reader = LentIoReader::new(src);
    decode_from_reader_with(alloc, &mut reader, &config, &mut context)
}

/// Encodes a value to a stream and returns the number of bytes written. Fails with `Io` if the stream fails,
/// `UnexpectedEnd` if 64 bits cannot count the bytes, or an error of the type; then a prefix of the encoding may have
/// been written.
///
/// Each piece is a write of its own: a tag, the rest of a number, a text or a list of bytes. So `(1u8, 300u32)` is
/// three writes, of `[1]`, `[251]` and `[44, 1]`; the index of an `Io` is the number of bytes in the pieces before the
/// one that failed, of which the stream may have taken a prefix. The stream is not flushed.
///
/// Take this call where the stream is to get each piece at once, where an error is to tell the piece, or where the
/// value is one or two small numbers. Its price is a call of the stream's `write` for each piece: a system call to a
/// file or a socket, and to a `BufWriter` more than a copy of a few bytes. Else `encode_into_buf_write` is the faster
/// one for one value, and a `BlockWriter` for many.
pub fn encode_into_std_write<E: Encode, C: Config, W: Write>(
    val: E,
    dst: &mut W,
    config: C,
) -> Result<usize, EncodeError>
    // On `Ok(n)` an encoding that the value allows, of `n` bytes, was written.
    ensures word { IfOk result (λ n. StreamWritten W.contents (AllowedWord (E.words.means val)
        (E.words.format C.setting)) n dst.old dst.new) }
    // After an error a prefix of an allowed encoding was written,
    ensures left { IfErr result (StreamHalts W.contents (IsReady (E.words.writable C.setting val)
        (AllowedWord (E.words.means val) (E.words.format C.setting))) E.words.own_errors dst.old dst.new) }
    // of which the index of an `Io` counts what was written before the piece that failed.
    ensures index { IfErr result (CountsWrites W.contents E.words.own_errors dst.old dst.new) }
{
    let mut writer = IoWriter::new(dst);
    encode_into_writer(val, &mut writer, config)?;
    Ok(writer.bytes_written())
}

/// `encode_into_std_write` in blocks: the bytes are gathered and go to the stream in writes of up to 512 bytes. So a
/// value of up to 512 bytes is one write. A piece that does not fit into what is left of a block begins the next one;
/// a text or list of more than 512 bytes is a write of its own, after what was gathered. The index of an `Io` is the
/// number of bytes in the writes before the one that failed. If the stream fails only while what precedes an error of
/// the type is handed on, that error is returned. The stream is not flushed.
///
/// Take this call for one value to a file, a socket or a `BufWriter`. Its price is that it sets a block of 512 bytes to
/// zero for each value, as dear as two or three calls of a `BufWriter`'s `write`. Many values are written faster
/// through one `BlockWriter`, whose block stays.
pub fn encode_into_buf_write<E: Encode, C: Config, W: Write>(
    val: E,
    dst: &mut W,
    config: C,
) -> Result<usize, EncodeError>
    // On `Ok(n)` an encoding that the value allows, of `n` bytes, was written.
    ensures word { IfOk result (λ n. StreamWritten W.contents (AllowedWord (E.words.means val)
        (E.words.format C.setting)) n dst.old dst.new) }
    // After an error a prefix of an allowed encoding was written,
    ensures left { IfErr result (StreamHalts W.contents (IsReady (E.words.writable C.setting val)
        (AllowedWord (E.words.means val) (E.words.format C.setting))) E.words.own_errors dst.old dst.new) }
    // of which the index of an `Io` counts what was written before the block that failed.
    ensures index { IfErr result (CountsWrites W.contents E.words.own_errors dst.old dst.new) }
{
    let mut writer = BlockWriter::new(dst);
    if let Err(error) = encode_into_writer(val, &mut writer, config) {
        return Err(end_after(&mut writer, error));
    }
    writer.hand_on()?;
    let written = writer.bytes_written();
    Ok(written)
}

/// Ends writing after an error: what is held goes to the stream. Returns the stream's error if that failed before, and
/// else this one.
#[cold]
#[inline(never)]
fn end_after<W: Write>(writer: &mut BlockWriter<'_, W>, error: EncodeError) -> EncodeError
    ensures ended { MatchOption (failure_of writer.old) ((result ≡ error) × FrontOut W.contents
        (stream_behind writer.old) (held_by writer.old) (stream_behind writer.new)) (λ _. (stream_behind writer.new
        ≡ stream_behind writer.old) × IsWriteIo (handed_on writer.old) result) }
    ensures loans { loans_of writer.new ≡ loans_of writer.old }
{
    match writer.failure() {
        Some(failure) => failure,
        None => {
            let _ = writer.hand_on();
            error
        }
    }
}
