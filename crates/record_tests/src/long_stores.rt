//! Stores that name more than comes, and stores of more than 4 GiB.

use bincode::config;
use framed_store::ending::Ending;
use framed_store::records::Next;
use framed_store::stepping::step_over;
use framed_store::streams::{ReadError, next_from_stream, survey_stream};
use std::alloc::{AllocError, Global};
use std::io;
use std::io::Read;

/// Lengths that are named, and how many bytes come after each.
const NAMED: [(u32, usize); 5] = [
    (u32::MAX, 0),
    (u32::MAX, 100),
    (1 << 30, 8_192),
    (1 << 30, 20_000),
    (1 << 30, 100_000),
];

/// A length, and zeros after it.
fn begun(alloc: Global, length: u32, zeros: usize) -> Result<Vec<u8>, AllocError> {
    let mut bytes = Vec::from_slice(alloc, &length.to_le_bytes())?;
    bytes.extend_from_slice(&vec![in alloc; 0u8; zeros]?)?;
    Ok(bytes)
}

/// The buffer has room for 8 KiB, or for twice what came.
fn has_little_room(buffer: &Vec<u8>, came: usize) -> bool {
    buffer.capacity() <= came.saturating_mul(2).max(8_192)
}

/// A buffer grows by what comes, whatever length is named.
#[test]
fn makes_room_for_what_comes(rt: HostRuntime) -> Result<(), AllocError> {
    let alloc = rt.alloc();
    for (length, zeros) in NAMED {
        let bytes = begun(alloc, length, zeros)?;
        let mut buffer = Vec::new(alloc);
        let next: Result<Next<u16>, ReadError> = next_from_stream(
            alloc,
            &mut bytes.as_slice(),
            &mut buffer,
            config::standard(),
            u32::MAX,
        );
        assert!(rt;
            matches!(next, Ok(Next::Torn)) && buffer == bytes,
            "{length}"
        );
        assert!(rt; has_little_room(&buffer, bytes.len()), "{length}");
        let mut buffer = Vec::new(alloc);
        let survey = survey_stream(&mut bytes.as_slice(), &mut buffer, u32::MAX);
        assert!(rt;
            matches!(survey, Ok(found) if found.ending == Ending::Torn { offset: 0 }),
            "{length}"
        );
        assert!(rt; has_little_room(&buffer, bytes.len()), "{length}");
    }
    Ok(())
}

/// The length of the words of a long store, and the number of bytes of a frame of one.
const LENGTH: u32 = 1 << 26;

const FRAME: usize = 8 + (1 << 26);

/// So many frames, of which no byte is held but those of the length: the others are what stands where they are read to.
#[derive(Drop)]
struct Sparse {
    frames: usize,
    /// How many bytes of the first of them were read.
    read: usize,
}

impl Read for Sparse {
    fn read(&mut self, bytes: &mut [u8]) -> io::Result<usize> {
        if self.frames == 0 || bytes.is_empty() {
            return Ok(0);
        }
        let field = LENGTH.to_le_bytes();
        let count = match field.get(self.read) {
            Some(byte) => {
                bytes[0] = *byte;
                1
            }
            None => bytes.len().min(FRAME.saturating_sub(self.read)),
        };
        self.read = self.read.saturating_add(count);
        if self.read >= FRAME {
            self.frames -= 1;
            self.read = 0;
        }
        Ok(count)
    }
}

/// A store of 65 such frames, of 4,362,076,680 bytes, ends after the last of them.
#[test]
fn steps_over_more_than_four_gibibytes(rt: HostRuntime) {
    let mut store = Sparse {
        frames: 65,
        read: 0,
    };
    let found = step_over(&mut store, LENGTH);
    assert!(rt; matches!(found, Ok((4_362_076_680, Ending::Whole))));
}
