//! What a standard stream gets: a vector, and a stream that fails at a piece.

use bincode::error::EncodeError;
use bincode::{config, encode_into_std_write};
use std::alloc::Global;
use std::io;
use std::io::{ErrorKind, Write};
use test_helpers::checks::either;

/// What a vector gets of two numbers.
fn written_in_a_vector(alloc: Global) -> Result<Vec<u8>, bool> {
    let mut bytes = Vec::new(alloc);
    match encode_into_std_write((30u32, 50u32), &mut bytes, config::standard()) {
        Ok(2) => Ok(bytes),
        _ => Err(false),
    }
}

/// Row: two numbers into a stream.
#[test]
fn writes_two_numbers_into_a_stream(rt: HostRuntime) {
    let alloc = rt.alloc();
    let Some(bytes) = either(written_in_a_vector(alloc), written_in_a_vector(alloc)) else {
        assert!(rt; false);
        return;
    };
    assert!(rt; bytes.as_slice() == [30, 50].as_slice());
}

/// A stream that takes a number of pieces whole and then fails. It keeps the bytes, and where each piece ended.
#[derive(Drop)]
struct Pieces {
    held: [u8; 4],
    length: usize,
    ends: [usize; 3],
    taken: usize,
    good: usize,
}

impl Pieces {
    /// The bytes that it took.
    fn bytes(&self) -> &[u8] {
        self.held.get(..self.length).unwrap_or(&[])
    }
}

impl Write for Pieces {
    fn write(&mut self, bytes: &[u8]) -> io::Result<usize> {
        if self.taken >= self.good {
            return Err(ErrorKind::BrokenPipe.into());
        }
        let end = self.length.saturating_add(bytes.len());
        let (Some(place), Some(mark)) = (
            self.held.get_mut(self.length..end),
            self.ends.get_mut(self.taken),
        ) else {
            return Err(ErrorKind::Other.into());
        };
        place.copy_from_slice(bytes);
        *mark = end;
        self.length = end;
        self.taken = self.taken.saturating_add(1);
        Ok(bytes.len())
    }

    fn flush(&mut self) -> io::Result<()> {
        Ok(())
    }
}

/// What comes of writing 1 and 300 to a stream that takes so many pieces, and the stream.
fn written_in_pieces(good: usize) -> (Result<usize, EncodeError>, Pieces) {
    let mut stream = Pieces {
        held: [0; 4],
        length: 0,
        ends: [0; 3],
        taken: 0,
        good,
    };
    let outcome = encode_into_std_write((1u8, 300u32), &mut stream, config::standard());
    (outcome, stream)
}

/// What a stream has taken that fails at the first, the second or the third piece.
static TAKEN: [&[u8]; 3] = [&[], &[1], &[1, 251]];

/// Row: pieces of a pair. The index of the error is the number of bytes before the piece that failed.
#[test]
fn writes_a_pair_in_pieces(rt: HostRuntime) {
    let (written, stream) = written_in_pieces(3);
    assert!(rt; matches!(written, Ok(4)) && stream.held == [1, 251, 44, 1]);
    assert!(rt; stream.taken == 3 && stream.ends == [1, 2, 4]);
    for (good, taken) in TAKEN.iter().enumerate() {
        let (refused, stream) = written_in_pieces(good);
        assert!(rt; stream.bytes() == *taken, "{good}");
        assert!(rt;
            matches!(
                refused,
                Err(EncodeError::Io { inner, index })
                    if inner.kind() == ErrorKind::BrokenPipe && index == taken.len()
            )
        );
    }
}
