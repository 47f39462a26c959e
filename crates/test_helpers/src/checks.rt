//! Checks of a type: its encodings are written and read, and what remains after a fault.

use bincode::config::Config;
use bincode::de::read::SliceReader;
use bincode::de::{BorrowDecode, Decode};
use bincode::enc::Encode;
use bincode::enc::write::SizeWriter;
use bincode::error::{DecodeError, EncodeError};
use bincode::{
    borrow_decode_from_slice, config, decode_from_reader, decode_from_slice,
    decode_from_slice_with_context, encode_into_slice, encode_into_writer, encode_to_vec,
};
use std::alloc::Global;

/// Whether these bytes, with 99s after them, are decoded as a value, and it is encoded as them.
pub fn keeps<T: Encode + Decode<()>>(alloc: Global, word: &[u8]) -> bool {
    let mut input = [99u8; 100];
    let Some(front) = input.get_mut(..word.len()) else {
        return false;
    };
    front.copy_from_slice(word);
    match decode_from_slice::<T, _>(alloc, &input, config::standard()) {
        Ok((value, taken)) => taken == word.len() && fills(&value, word),
        Err(_) => false,
    }
}

/// What is decoded from the front of the input, if its encoding has this length.
pub fn read_front<T: Decode<()>>(alloc: Global, input: &[u8], length: usize) -> Option<T> {
    let outcome: Result<(T, usize), DecodeError> = decode_from_slice(
        alloc,
        input,
        config::standard(),
    );
    match outcome {
        Ok((value, taken)) if taken == length => Some(value),
        _ => None,
    }
}

/// The result of decoding under a limit.
pub fn within<T: Decode<()>, const N: usize>(
    alloc: Global,
    input: &[u8],
) -> Result<(T, usize), DecodeError> {
    decode_from_slice(alloc, input, config::standard().with_limit::<N>())
}

/// The fault of the input, if it has one.
pub fn fault_of<T: Decode<()>>(alloc: Global, input: &[u8]) -> Option<DecodeError> {
    let outcome: Result<(T, usize), DecodeError> = decoded(alloc, input, config::standard());
    outcome.err()
}

/// Whether the fault is that this is no tag, under this name, with 0 to `greatest` as the valid tags.
fn is_no_tag(fault: Option<DecodeError>, tag: u32, name: &str, greatest: u32) -> bool {
    let Some(
        DecodeError::UnexpectedVariant {
            type_name,
            found,
            min: 0,
            max,
        },
    ) = fault
    else {
        return false;
    };
    type_name.as_str() == name && found == tag && max == greatest
}

/// Whether the byte is refused as a tag, under this name, with 0 to `greatest` as the valid tags.
pub fn refuses_tag<T: Decode<()>>(alloc: Global, byte: u8, name: &str, greatest: u32) -> bool {
    is_no_tag(
        fault_of::<T>(alloc, &[byte]),
        u32::from(byte),
        name,
        greatest,
    )
}

/// The result of one of two equal calls, so that one of them may be refused memory.
pub fn either<T: Drop, E: Drop>(first: Result<T, E>, second: Result<T, E>) -> Option<T> {
    match first {
        Ok(value) => Some(value),
        Err(_) => second.ok(),
    }
}

/// The result of writing a value into a vector. Retries once if an allocation is refused.
pub fn written<T: Encode>(alloc: Global, value: &T) -> Option<Vec<u8>> {
    match encode_to_vec(alloc, value, config::standard()) {
        Err(EncodeError::Memory) => encode_to_vec(alloc, value, config::standard()).ok(),
        outcome => outcome.ok(),
    }
}

/// The result of decoding. Retries once if an allocation is refused.
pub fn decoded<T: Decode<()>, C: Config>(
    alloc: Global,
    input: &[u8],
    config: C,
) -> Result<(T, usize), DecodeError> {
    match decode_from_slice(alloc, input, config) {
        Err(DecodeError::Memory) => decode_from_slice(alloc, input, config),
        outcome => outcome,
    }
}

/// What is read of a word, if it is taken whole. Retries once if an allocation is refused.
pub fn read_word<T: Decode<()>>(alloc: Global, word: &[u8]) -> Option<T> {
    match decoded(alloc, word, config::standard()) {
        Ok((value, taken)) if taken == word.len() => Some(value),
        _ => None,
    }
}

/// The result of decoding with a context. Retries once if an allocation is refused.
pub fn decoded_with<Context: Copy + Drop, T: Decode<Context>, C: Config>(
    alloc: Global,
    input: &[u8],
    config: C,
    context: Context,
) -> Result<(T, usize), DecodeError> {
    match decode_from_slice_with_context(alloc, input, config, context) {
        Err(DecodeError::Memory) => decode_from_slice_with_context(alloc, input, config, context),
        outcome => outcome,
    }
}

/// The result of borrowed decoding. Retries once if an allocation is refused.
pub fn borrowed<'a, T: BorrowDecode<&'a [u8], ()>>(
    alloc: Global,
    source: &'a [u8],
) -> Result<(T, usize), DecodeError> {
    match borrow_decode_from_slice(alloc, source, config::standard()) {
        Err(DecodeError::Memory) => borrow_decode_from_slice(alloc, source, config::standard()),
        outcome => outcome,
    }
}

/// Whether a vector gets this word of the value.
fn collects<T: Encode>(alloc: Global, value: &T, word: &[u8]) -> bool {
    match written(alloc, value) {
        Some(bytes) => bytes.as_slice() == word,
        None => false,
    }
}

/// Whether a slice of 100 bytes gets this word of the value.
pub fn fills<T: Encode>(value: &T, word: &[u8]) -> bool {
    let mut slice = [99u8; 100];
    let written = encode_into_slice(value, &mut slice, config::standard());
    matches!(written, Ok(count) if count == word.len()) && slice.starts_with(word)
}

/// Whether a writer that counts counts so many bytes of the value.
fn counts<T: Encode>(value: &T, length: usize) -> bool {
    let mut counter = SizeWriter::default();
    let written = encode_into_writer(value, &mut counter, config::standard());
    written.is_ok() && counter.bytes_written == length
}

/// Whether each encoding call writes the value as this word.
pub fn each_call_writes<T: Encode>(alloc: Global, value: &T, word: &[u8]) -> bool {
    fills(value, word) && counts(value, word.len()) && collects(alloc, value, word)
}

/// What is decoded from a reader over an input of 100 bytes, and how many it takes.
fn read_in_turn<T: Decode<()>>(
    alloc: Global,
    input: &[u8; 100],
) -> Result<(T, usize), DecodeError> {
    let mut reader = SliceReader::new(input);
    match decode_from_reader(alloc, &mut reader, config::standard()) {
        Ok(value) => Ok((value, 100usize.saturating_sub(reader.bytes_left()))),
        Err(error) => Err(error),
    }
}

/// Whether a value was decoded from this word, and each call writes it so.
fn is_read_of<T: Encode>(
    alloc: Global,
    read: Result<(T, usize), DecodeError>,
    word: &[u8],
) -> bool {
    match read {
        Ok((value, taken)) => taken == word.len() && each_call_writes(alloc, &value, word),
        Err(_) => false,
    }
}

/// Whether the call for slices reads the word.
fn reads_slice<T: Encode + Decode<()>>(alloc: Global, input: &[u8], word: &[u8]) -> bool {
    is_read_of::<T>(alloc, decoded(alloc, input, config::standard()), word)
}

/// Whether the call with a context reads it.
fn reads_with_context<T: Encode + Decode<()>>(alloc: Global, input: &[u8], word: &[u8]) -> bool {
    is_read_of::<T>(
        alloc,
        decoded_with(alloc, input, config::standard(), ()),
        word,
    )
}

/// Whether the call for readers reads it. Retries once, since an allocation may be refused.
fn reads_in_turn<T: Encode + Decode<()>>(alloc: Global, input: &[u8; 100], word: &[u8]) -> bool {
    is_read_of::<T>(alloc, read_in_turn(alloc, input), word)
        || is_read_of::<T>(alloc, read_in_turn(alloc, input), word)
}

/// Whether each decoding call reads the word, with 99s after it, as a value that each encoding call writes so.
pub fn each_call_keeps<T: Encode + Decode<()>>(alloc: Global, word: &[u8]) -> bool {
    let mut input = [99u8; 100];
    let Some(front) = input.get_mut(..word.len()) else {
        return false;
    };
    front.copy_from_slice(word);
    reads_slice::<T>(alloc, &input, word)
        && reads_with_context::<T>(alloc, &input, word)
        && reads_in_turn::<T>(alloc, &input, word)
}

/// Whether the error is `LimitExceeded`.
pub fn is_passed<T: Drop>(outcome: Result<T, DecodeError>) -> bool {
    matches!(outcome, Err(DecodeError::LimitExceeded))
}

/// Whether the error is that the input ended.
pub fn is_cut<T: Drop>(outcome: Result<T, DecodeError>) -> bool {
    matches!(outcome, Err(DecodeError::UnexpectedEnd { additional: _ }))
}

/// Whether decoding each proper prefix of the word with this context fails since the input ended.
pub fn ends_at_each_place<Context: Copy + Drop, T: Decode<Context>>(
    alloc: Global,
    word: &[u8],
    context: Context,
) -> bool {
    for count in 0..word.len() {
        let outcome: Result<(T, usize), DecodeError> = decoded_with(
            alloc,
            &word[..count],
            config::standard(),
            context,
        );
        if !is_cut(outcome) {
            return false;
        }
    }
    true
}

/// Whether a value is encoded as this word.
pub fn is_written_as<T: Encode>(alloc: Global, value: Option<T>, word: &[u8]) -> bool {
    match value {
        Some(value) => collects(alloc, &value, word),
        None => false,
    }
}

/// The word of a value, with a byte after it. Retries once if an allocation is refused.
fn written_with_more<T: Encode>(alloc: Global, value: &T) -> Option<Vec<u8>> {
    let mut input = written(alloc, value)?;
    if input.push(99).is_err() && input.push(99).is_err() {
        return None;
    }
    Some(input)
}

/// What is read of all of an input but its last byte. Retries once if an allocation is refused.
pub fn read_all_but_one<T: Decode<()>>(alloc: Global, input: &[u8]) -> Option<T> {
    match decoded(alloc, input, config::standard()) {
        Ok((value, taken)) if taken.saturating_add(1) == input.len() => Some(value),
        _ => None,
    }
}

/// What is read of the word of a value, with a byte after it, if just the word is consumed.
pub fn comes_back<T: Encode + Decode<()>>(alloc: Global, value: &T) -> Option<T> {
    match written_with_more(alloc, value) {
        Some(input) => read_all_but_one(alloc, &input),
        None => None,
    }
}

/// What is read of a word, if each call keeps another one.
pub fn read_if_kept<T: Encode + Decode<()>>(alloc: Global, word: &[u8], kept: &[u8]) -> Option<T> {
    if !each_call_keeps::<T>(alloc, kept) {
        return None;
    }
    read_word(alloc, word)
}

/// Whether an equal value is read of the word of this one.
fn keeps_equal<T: Encode + Decode<()> + PartialEq>(alloc: Global, value: &T) -> bool {
    match comes_back(alloc, value) {
        Some(read) => read == *value,
        None => false,
    }
}

/// Whether a value is there, and an equal one is read of its word.
pub fn keeps_value<T: Encode + Decode<()> + PartialEq>(alloc: Global, value: Option<T>) -> bool {
    match value {
        Some(value) => keeps_equal(alloc, &value),
        None => false,
    }
}
