//! Appending values to a store of frames.
ghost use Rattle.std.specs.Prelude.{◌≡◌, ◌<◌, ◌≤◌, ◌^◌, length, take, IfOk, IfErr, IfSome, OnOk};
ghost use Rattle.std.specs.Io.KnownBytes.{Appends};
ghost use Rattle.bincode_io.specs.Stream.{FrontOut};
ghost use Rattle.bincode_spec.specs.Allowed.{AllowedWord};
ghost use Rattle.frames.specs.Frames.{frame};
ghost use Rattle.framed_store.specs.Appended.{IsFitting, Added, Leaves, FitsStore};
ghost use Rattle.framed_store.specs.Appended.{IsOutside, IsStreamFailure, WritesNothing};

use bincode::config::Config;
use bincode::de::Decode;
use bincode::enc::write::Writer;
use bincode::enc::{Encode, IoWriter};
use bincode::error::{DecodeError, EncodeError};
use bincode::laws::Exact;
use bincode::{decode_from_slice, encode_into_slice, encode_to_vec};
use frames::{OVERHEAD, around};
use std::alloc::{AllocError, Global};
use std::io::Write;
use thiserror::Error;

/// The greatest length of an encoding whose frame is made without memory, in bytes.
const SHORT: usize = 120;

/// The room for such a frame, in bytes.
const ROOM: usize = SHORT + OVERHEAD;

/// Why a value was not appended.
#[derive(Debug, Drop, Error)]
pub enum AppendError {
    /// Encoding failed. Nothing was written.
    #[error("{0}")]
    Encode(EncodeError),
    /// Decoding the encoding again failed: it passes the limit, or the error is `Memory`. Nothing was written.
    #[error("it cannot be read back: {0}")]
    ReadBack(DecodeError),
    /// The encoding is longer than the store takes. Nothing was written.
    #[error("its encoding has {length} bytes, and the store takes {most}")]
    TooLong {
        /// The length of the encoding in bytes.
        length: usize,
        /// The greatest length that the store takes, in bytes.
        most: u32,
    },
    /// An allocation for the frame was refused. Nothing was written.
    #[error("{0}")]
    Memory(AllocError),
    /// The stream failed. A prefix of the frame may have been written.
    #[error("{0}")]
    Write(EncodeError),
}

/// Appends the frame of a value to a store that takes encodings of at most `most` bytes, and returns the number of
/// bytes of the frame. The encoding is decoded once before it is written. Fails with `Encode`, `ReadBack`, `TooLong` or
/// `Memory` before anything is written, or with `Write` if the stream fails, which may then have taken a prefix of the
/// frame.
pub fn append<T: Encode + Decode<()> + Exact, C: Config, W: Write>(
    alloc: Global,
    store: &mut W,
    value: &T,
    config: C,
    most: u32,
) -> Result<usize, AppendError>
    // On `Ok(n)` the frame of an encoding of the value, of `n` bytes, follows what the store held.
    ensures added { IfOk result (λ n. Added T.words C.setting C.bound most value.now n (W.contents store.old)
        (W.contents store.new)) }
    // After an error the store holds what it held, and at most a prefix of the frame after it.
    ensures left { IfErr result (Leaves T.words C.setting C.bound most value.now W.contents store.old store.new) }
    // Of a value that fits the limit and the store the error is one of memory or of the stream.
    ensures fits { FitsStore T.words C.setting C.bound most value.now → IfErr result IsOutside }
{
    T::tell_plain();
    value.tell_valid();
    let mut place = [0; SHORT];
    match encode_short(value, &mut place, config) {
        Some(length) => append_word(alloc, store, value, &place[..length], config, most),
        None => match encode_to_vec(alloc, value, config) {
            Ok(word) => append_word(alloc, store, value, &word, config, most),
            Err(e) => Err(AppendError::Encode(e)),
        },
    }
}

/// Encodes a value into a place for short encodings, and returns the length of the encoding. `None` where that fails,
/// or where the encoding is longer.
fn encode_short<T: Encode, C: Config>(
    value: &T,
    place: &mut [u8; SHORT],
    config: C,
) -> Option<usize>
    ensures { IfSome result (λ n. (n ≤ SHORT)
        × AllowedWord (T.words.means value.now) (T.words.format C.setting) (take n place.new)) }
{
    match encode_into_slice(value, place, config) {
        Ok(length) => Some(length),
        Err(_) => None,
    }
}

/// Appends the frame of an encoding of a value, which is decoded first.
fn append_word<T: Encode + Decode<()> + Exact, C: Config, W: Write>(
    alloc: Global,
    store: &mut W,
    value: &T,
    word: &[u8],
    config: C,
    most: u32,
) -> Result<usize, AppendError>
    requires { AllowedWord (T.words.means value.now) (T.words.format C.setting) word.now }
    ensures added { IfOk result (λ n. Added T.words C.setting C.bound most value.now n (W.contents store.old)
        (W.contents store.new)) }
    ensures left { IfErr result (Leaves T.words C.setting C.bound most value.now W.contents store.old store.new) }
    ensures fits { FitsStore T.words C.setting C.bound most value.now → IfErr result IsOutside }
{
    read_back(alloc, value, word, config, most)?;
    if word.len() <= SHORT {
        let mut room = [0; ROOM];
        let size = put_frame(&mut room, word);
        return write_out(store, &room[..size]);
    }
    match framed(alloc, word) {
        Ok(frame) => write_out(store, &frame),
        Err(e) => Err(AppendError::Memory(e)),
    }
}

/// Decodes an encoding of a value under the limit, unless it is longer than the store takes.
fn read_back<T: Encode + Decode<()> + Exact, C: Config>(
    alloc: Global,
    value: &T,
    word: &[u8],
    config: C,
    most: u32,
) -> Result<(), AppendError>
    requires { AllowedWord (T.words.means value.now) (T.words.format C.setting) word.now }
    ensures unwritten { IfErr result WritesNothing }
    ensures fits { FitsStore T.words C.setting C.bound most value.now → IfErr result IsOutside }
    ensures entry { OnOk result (IsFitting T.words C.setting C.bound most value.now word.now) }
{
    value.tell_valid();
    let length = word.len();
    if length > most as usize {
        return Err(AppendError::TooLong { length, most });
    }
    let read: Result<(T, usize), DecodeError> = decode_from_slice(alloc, word, config);
    match read {
        Ok(_) => Ok(()),
        Err(e) => Err(AppendError::ReadBack(e)),
    }
}

/// Puts the frame of a short word at the front of some room, and returns the number of bytes of the frame.
fn put_frame(room: &mut [u8; ROOM], word: &[u8]) -> usize
    requires { length word.now ≤ SHORT }
    ensures { (result ≤ ROOM) × (take result room.new ≡ frame word.now) }
{
    let around = around(word).unwrap();
    let (front, rest) = room.split_at_mut(4);
    front.copy_from_slice(&around.0);
    let (middle, rest) = rest.split_at_mut(word.len());
    middle.copy_from_slice(word);
    let (back, _) = rest.split_at_mut(4);
    back.copy_from_slice(&around.1);
    OVERHEAD + word.len()
}

/// The frame of a word whose length a frame can name.
fn framed(alloc: Global, word: &[u8]) -> Result<Vec<u8>, AllocError>
    requires { length word.now < 2 ^ 32 }
    ensures { IfOk result (λ v. v.items ≡ frame word.now) }
{
    let around = around(word).unwrap();
    let mut frame = Vec::with_capacity(alloc, OVERHEAD + word.len())?;
    frame.extend_from_slice(&around.0)?;
    frame.extend_from_slice(word)?;
    frame.extend_from_slice(&around.1)?;
    Ok(frame)
}

/// Writes the bytes of a frame at once, and returns how many they are. After an error the stream has taken a prefix of
/// them.
fn write_out<W: Write>(store: &mut W, frame: &[u8]) -> Result<usize, AppendError>
    requires { length frame.now < 2 ^ 64 }
    ensures added { IfOk result (λ n. (n ≡ length frame.now)
        × Appends (W.contents store.old) (W.contents store.new) frame.now) }
    ensures left { IfErr result (λ _. FrontOut W.contents store.old frame.now store.new) }
    ensures why { IfErr result IsStreamFailure }
{
    match IoWriter::new(store).write(frame) {
        Ok(()) => Ok(frame.len()),
        Err(e) => Err(AppendError::Write(e)),
    }
}
