//! Streams that fail at each of their calls in turn.

use bincode::config::Config;
use bincode::de::Decode;
use bincode::enc::Encode;
use bincode::error::{DecodeError, EncodeError};
use bincode::{decode_from_reader, decode_from_std_read, encode_into_slice, encode_into_std_write};
use conformance::calls::{Buffered, Bytewise, Calls};
use conformance::fault::Fault;
use std::alloc::Global;
use std::io;
use std::io::{BufReader, ErrorKind, Write};
use test_helpers::streams::{Breaking, is_broken};

/// Streams that fail at their first call, at their second and so on, each with `Io`: the first answer that is not this
/// failure, with how many bytes were given until then.
pub struct Broken;

impl Calls for Broken {
    fn encode<V: Encode + Copy, C: Config>(
        _alloc: Global,
        value: V,
        slice: &mut [u8],
        config: C,
    ) -> Option<Result<usize, EncodeError>> {
        let written = encode_into_slice(value, slice, config);
        if let Ok(length) = &written {
            for calls in 0..*length {
                if !is_broken_at(value, config, calls) {
                    return None;
                }
            }
        }
        Some(written)
    }

    fn decode<T: Decode<()>, C: Config>(
        alloc: Global,
        input: &[u8],
        config: C,
    ) -> Option<Result<(T, usize), DecodeError>> {
        for calls in 0..=input.len() {
            let mut stream = Breaking {
                bytes: input,
                calls,
            };
            let outcome: Result<T, DecodeError> = decode_from_std_read(alloc, &mut stream, config);
            if !is_broken(&outcome) {
                return Some(outcome.map(|value| (value, calls)));
            }
        }
        fails_at_the_end::<Bytewise, T, C>(alloc, input, config)
    }

    fn fault(error: &DecodeError) -> Option<Fault> {
        Fault::of_stream(error)
    }
}

/// Decoding from a `BufReader` of 4 bytes over such streams.
pub struct BrokenBuffered;

impl Calls for BrokenBuffered {
    fn decode<T: Decode<()>, C: Config>(
        alloc: Global,
        input: &[u8],
        config: C,
    ) -> Option<Result<(T, usize), DecodeError>> {
        for calls in 0..=input.len() {
            let stream = Breaking {
                bytes: input,
                calls,
            };
            let Ok(mut reader) = BufReader::with_capacity(alloc, 4, stream) else {
                return Some(Err(DecodeError::Memory));
            };
            let outcome: Result<T, DecodeError> = decode_from_reader(alloc, &mut reader, config);
            if !is_broken(&outcome) {
                return Some(outcome.map(|value| (value, calls)));
            }
        }
        fails_at_the_end::<Buffered<4>, T, C>(alloc, input, config)
    }

    fn fault(error: &DecodeError) -> Option<Fault> {
        Fault::of_stream(error)
    }
}

/// The error of a stream that ends in place of breaking: it gives no value, since that is to come with the last of its
/// bytes.
fn fails_at_the_end<K: Calls, T: Decode<()>, C: Config>(
    alloc: Global,
    input: &[u8],
    config: C,
) -> Option<Result<(T, usize), DecodeError>> {
    match K::decode::<T, C>(alloc, input, config) {
        Some(Err(error)) => Some(Err(error)),
        _ => None,
    }
}

/// Takes one byte a call, and fails from a given call on.
#[derive(Drop)]
struct Refusing {
    calls: usize,
}

impl Write for Refusing {
    fn write(&mut self, bytes: &[u8]) -> io::Result<usize> {
        if self.calls == 0 {
            return Err(ErrorKind::BrokenPipe.into());
        }
        self.calls -= 1;
        Ok(bytes.len().min(1))
    }

    fn flush(&mut self) -> io::Result<()> {
        Ok(())
    }
}

/// Whether writing the value into a stream that fails from this call on gives that failure.
fn is_broken_at<V: Encode, C: Config>(value: V, config: C, calls: usize) -> bool {
    let mut stream = Refusing { calls };
    let outcome = encode_into_std_write(value, &mut stream, config);
    matches!(
        outcome,
        Err(EncodeError::Io { inner, index: _ }) if inner.kind() == ErrorKind::BrokenPipe
    )
}
