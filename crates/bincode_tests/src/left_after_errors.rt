//! What a slice that is too short holds of a value, and by how many calls a stream gets one. The rows are those of
//! bincode 2.0.1.

use crate::asserts::{all_true, rows_hold};
use crate::encodings::is_encoded;
use crate::pieces::write_in_pieces;
use bincode::enc::Encode;
use bincode::error::EncodeError;
use bincode::{config, encode_into_slice};
use std::alloc::{AllocError, Global};
use std::collections::{BinaryHeap, VecDeque};
use std::io;
use std::io::Write;
use std::net::{Ipv4Addr, SocketAddrV4};
use test_helpers::checks::{either, read_word};

/// A stream that takes all that it is given, and counts its calls.
#[derive(Drop)]
struct Counting {
    calls: usize,
}

impl Write for Counting {
    fn write(&mut self, bytes: &[u8]) -> io::Result<usize> {
        self.calls = self.calls.saturating_add(1);
        Ok(bytes.len())
    }

    fn flush(&mut self) -> io::Result<()> {
        Ok(())
    }
}

/// What a slice of `N` 9s holds after a value, if that was refused for lack of room, and by how many calls a stream
/// gets it.
fn left_and_calls<T: Encode, const N: usize>(value: &T) -> Option<([u8; N], usize)> {
    let mut slice = [9u8; N];
    let outcome = encode_into_slice(value, &mut slice, config::standard());
    let Err(EncodeError::UnexpectedEnd) = outcome else {
        return None;
    };
    let mut stream = Counting { calls: 0 };
    write_in_pieces(value, &mut stream).ok()?;
    Some((slice, stream.calls))
}

/// What is left of a value that was made.
fn left_by<T: Encode>(value: Option<T>) -> Option<([u8; 2], usize)> {
    left_and_calls(&value?)
}

/// A queue of three with a capacity of three, which wraps round: its last item lies before the others.
fn wrapped(alloc: Global) -> Result<VecDeque<u8>, AllocError> {
    let mut queue = VecDeque::with_capacity(alloc, 3)?;
    queue.push_back(9)?;
    queue.push_back(1)?;
    queue.push_back(2)?;
    queue.pop_front();
    queue.push_back(3)?;
    Ok(queue)
}

/// Whether a queue that wraps round is encoded in its order.
fn writes_wrapped(alloc: Global) -> bool {
    match either(wrapped(alloc), wrapped(alloc)) {
        Some(queue) => {
            queue.as_slices().1 == [3].as_slice()
                && is_encoded(&queue, &[3, 1, 2, 3], config::standard())
        }
        None => false,
    }
}

/// Bytes are one piece, after the length if they have one. Signed bytes and the items of a heap are written in turn.
#[test]
fn leaves_the_pieces_that_fit(rt: HostRuntime) {
    let alloc = rt.alloc();
    let bytes = either(
        Vec::from_array(alloc, [1u8, 2, 3]),
        Vec::from_array(alloc, [1u8, 2, 3]),
    );
    let signed = either(
        Vec::from_array(alloc, [1i8, 2, 3]),
        Vec::from_array(alloc, [1i8, 2, 3]),
    );
    let heap: Option<BinaryHeap<u8>> = read_word(alloc, &[3, 5, 4, 3]);
    rows_hold(
        &rt,
        &[
            (
                "a short slice and a vector of bytes",
                left_by(bytes) == Some(([3, 9], 2)),
            ),
            (
                "a short slice and an array of bytes",
                left_by(Some([1u8, 2, 3])) == Some(([9, 9], 1)),
            ),
            (
                "a short slice and a vector of signed bytes",
                left_by(signed) == Some(([3, 1], 4)),
            ),
            (
                "a short slice and a heap of bytes",
                left_by(heap) == Some(([3, 5], 4)),
            ),
            ("a queue that wraps round", writes_wrapped(alloc)),
        ],
    );
}

/// The octets of an address are one piece, and so are the bytes of an array.
#[test]
fn leaves_no_octet_of_an_address(rt: HostRuntime) {
    let four = Ipv4Addr::new(1, 2, 3, 4);
    let socket = SocketAddrV4::new(four, 300);
    all_true(
        &rt,
        &[
            left_and_calls(&four) == Some(([9; 3], 1)),
            left_and_calls(&socket) == Some(([1, 2, 3, 4, 251], 3)),
            left_and_calls(&[7u8; 5_000]) == Some(([9; 4_999], 1)),
        ],
    );
}
