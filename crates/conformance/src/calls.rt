//! The calls by which the values of the rows are encoded and decoded: those for slices, or those for streams.

use crate::fault::Fault;
use bincode::config::Config;
use bincode::de::Decode;
use bincode::enc::Encode;
use bincode::error::{DecodeError, EncodeError};
use bincode::shape::Described;
use bincode::{decode_from_reader, decode_from_slice, decode_from_std_read, encode_into_slice};
use std::alloc::Global;
use std::io;
use std::io::{BufReader, Read};

/// Calls that encode and decode a value. A method returns `None` where it makes several calls, which disagree.
pub trait Calls {
    /// Encodes a value into a slice, and returns how many bytes it has.
    fn encode<V: Encode + Copy, C: Config>(
        _alloc: Global,
        value: V,
        slice: &mut [u8],
        config: C,
    ) -> Option<Result<usize, EncodeError>> {
        Some(encode_into_slice(value, slice, config))
    }

    /// The same of a value of `T`, which is described.
    fn encode_described<T: Described, V: Encode + Copy, C: Config>(
        alloc: Global,
        value: V,
        slice: &mut [u8],
        config: C,
    ) -> Option<Result<usize, EncodeError>> {
        Self::encode(alloc, value, slice, config)
    }

    /// Decodes a value, and returns how many bytes it took.
    fn decode<T: Decode<()>, C: Config>(
        alloc: Global,
        input: &[u8],
        config: C,
    ) -> Option<Result<(T, usize), DecodeError>>;

    /// The same as a type that is described.
    fn decode_described<T: Decode<()> + Encode + Described, C: Config>(
        alloc: Global,
        input: &[u8],
        config: C,
    ) -> Option<Result<(T, usize), DecodeError>> {
        Self::decode(alloc, input, config)
    }

    /// The fault that an error of `decode` reports.
    fn fault(error: &DecodeError) -> Option<Fault>;
}

/// The calls for slices.
pub struct Slice;

impl Calls for Slice {
    fn decode<T: Decode<()>, C: Config>(
        alloc: Global,
        input: &[u8],
        config: C,
    ) -> Option<Result<(T, usize), DecodeError>> {
        Some(decode_from_slice(alloc, input, config))
    }

    fn fault(error: &DecodeError) -> Option<Fault> {
        Fault::of(error)
    }
}

/// Decoding from a stream that gives one byte a call.
pub struct Bytewise;

impl Calls for Bytewise {
    fn decode<T: Decode<()>, C: Config>(
        alloc: Global,
        input: &[u8],
        config: C,
    ) -> Option<Result<(T, usize), DecodeError>> {
        let mut stream = OneByte(input);
        let outcome: Result<T, DecodeError> = decode_from_std_read(alloc, &mut stream, config);
        let taken = input.len().saturating_sub(stream.0.len());
        Some(outcome.map(|value| (value, taken)))
    }

    fn fault(error: &DecodeError) -> Option<Fault> {
        Fault::of_stream(error)
    }
}

/// Decoding from a `BufReader` of `ROOM` bytes over such a stream.
pub struct Buffered<const ROOM: usize>;

impl<const ROOM: usize> Calls for Buffered<ROOM> {
    fn decode<T: Decode<()>, C: Config>(
        alloc: Global,
        input: &[u8],
        config: C,
    ) -> Option<Result<(T, usize), DecodeError>> {
        let Ok(mut reader) = BufReader::with_capacity(alloc, ROOM, OneByte(input)) else {
            return Some(Err(DecodeError::Memory));
        };
        let outcome: Result<T, DecodeError> = decode_from_reader(alloc, &mut reader, config);
        let left = reader
            .buffer()
            .len()
            .saturating_add(reader.get_ref().0.len());
        let taken = input.len().saturating_sub(left);
        Some(outcome.map(|value| (value, taken)))
    }

    fn fault(error: &DecodeError) -> Option<Fault> {
        Fault::of_stream(error)
    }
}

/// Gives one byte a call.
#[derive(Drop)]
struct OneByte<'s>(&'s [u8]);

impl Read for OneByte<'_> {
    fn read(&mut self, bytes: &mut [u8]) -> io::Result<usize> {
        let most = bytes.len().min(1);
        self.0.read(&mut bytes[..most])
    }
}
