//! Writers into vectors, which begin empty and grow: no contract says that memory is there for more.

use bincode::enc::write::{VecWriter, Writer};
use bincode::error::EncodeError;
use std::alloc::Global;
use test_helpers::checks::either;

/// A call of a writer that writes a piece.
#[derive(Clone, Copy)]
enum Call {
    /// `write`.
    Whole,
    /// `write_tag` for the first byte, and `write_payload` for the others.
    InTwo,
}

/// A piece is written by this call.
fn write_by<W: Writer>(writer: &mut W, call: Call, piece: &[u8]) -> Result<(), EncodeError> {
    match (call, piece) {
        (Call::InTwo, [first, rest @ ..]) => {
            writer.write_tag(*first, piece.len())?;
            writer.write_payload(rest)
        }
        _ => writer.write(piece),
    }
}

/// How many bytes are collected of as many pieces, written to a writer without room.
fn collected(alloc: Global, piece: &[u8], count: usize, call: Call) -> Result<usize, EncodeError> {
    let mut writer = VecWriter::with_capacity(alloc, 0)?;
    for _ in 0..count {
        write_by(&mut writer, call, piece)?;
    }
    Ok(writer.collect().len())
}

/// Pieces, how many are written, and how many bytes these are.
static PIECES: [(&[u8], usize, usize); 3] = [
    (&[7], 30_000, 30_000),
    (&[1, 2, 3], 30_000, 90_000),
    (&[5; 1_000], 100, 100_000),
];

#[test]
fn grows_by_each_call(rt: HostRuntime) {
    let alloc = rt.alloc();
    for call in [Call::Whole, Call::InTwo] {
        for (piece, count, length) in PIECES {
            let held = either(
                collected(alloc, piece, count, call),
                collected(alloc, piece, count, call),
            );
            assert_eq!(rt; held, Some(length));
        }
    }
}
