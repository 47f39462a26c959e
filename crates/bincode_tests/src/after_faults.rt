//! How many bytes a reader has left after a fault: all that follow the invalid input.

use crate::asserts::all_true;
use crate::wrong_streams;
use bincode::de::read::SliceReader;
use bincode::de::{BorrowDecode, Decode, DecoderImpl};
use bincode::ffi::CString;
use bincode::time::Duration;
use bincode::{config, decode_from_reader};
use std::alloc::Global;
use std::net::{IpAddr, SocketAddr};
use std::num::{
    NonZeroI8, NonZeroI16, NonZeroI32, NonZeroI64, NonZeroI128, NonZeroIsize, NonZeroU8,
    NonZeroU16, NonZeroU32, NonZeroU64, NonZeroU128, NonZeroUsize,
};
use std::ops::Bound;

/// How many bytes a reader has left after a fault, through a decoder that does not lend.
fn left_owned<T: Decode<()>>(alloc: Global, input: &[u8]) -> Option<usize> {
    let mut reader = SliceReader::new(input);
    let outcome: Result<T, _> = decode_from_reader(alloc, &mut reader, config::standard());
    match outcome {
        Ok(_) => None,
        Err(_) => Some(reader.bytes_left()),
    }
}

/// How many it has left, through a decoder that lends.
fn left_lent<'a, T: BorrowDecode<&'a [u8], ()>>(alloc: Global, input: &'a [u8]) -> Option<usize> {
    let mut reader = SliceReader::new(input);
    let mut decoder = DecoderImpl::new(alloc, &mut reader, config::standard(), ());
    let is_fault = T::borrow_decode(&mut decoder).is_err();
    drop(decoder);
    if is_fault {
        Some(reader.bytes_left())
    } else {
        None
    }
}

/// Whether three bytes are left after a fault. Retries once if an allocation is refused.
fn leaves_three<T: Decode<()>>(alloc: Global, input: &[u8]) -> bool {
    left_owned::<T>(alloc, input) == Some(3) || left_owned::<T>(alloc, input) == Some(3)
}

/// Whether three bytes are left after a fault of borrowed decoding.
fn leaves_three_lent<'a, T: BorrowDecode<&'a [u8], ()>>(alloc: Global, input: &'a [u8]) -> bool {
    left_lent::<T>(alloc, input) == Some(3) || left_lent::<T>(alloc, input) == Some(3)
}

/// Whether three bytes are left after a fault of both kinds of decoding.
fn leaves_three_both<'a, T>(alloc: Global, input: &'a [u8]) -> bool
where
    T: Decode<()> + BorrowDecode<&'a [u8], ()>,
{
    leaves_three::<T>(alloc, input) && leaves_three_lent::<T>(alloc, input)
}

/// The same, and of a stream and of a buffer before it: nothing is read after the part at fault.
fn leaves_three_everywhere<'a, T>(alloc: Global, input: &'a [u8]) -> bool
where
    T: Decode<()> + BorrowDecode<&'a [u8], ()>,
{
    leaves_three_both::<T>(alloc, input) && wrong_streams::leaves_three::<T>(alloc, input)
}

/// A text is read whole before it is looked at, and so are the bytes of a C string, where a zero stands.
#[test]
fn leaves_what_follows_a_text(rt: HostRuntime) {
    let alloc = rt.alloc();
    let no_text = [2, 97, 255, 77, 78, 79];
    assert!(rt;
        leaves_three_both::<String>(alloc, &no_text)
            && leaves_three_lent::<&str>(alloc, &no_text)
            && leaves_three::<CString>(alloc, &[3, 65, 0, 66, 77, 78, 79])
    );
}

/// Of a list nothing is read after the part at fault.
#[test]
fn leaves_what_follows_a_scalar(rt: HostRuntime) {
    let alloc = rt.alloc();
    all_true(
        &rt,
        &[
            leaves_three::<bool>(alloc, &[2, 77, 78, 79]),
            leaves_three::<char>(alloc, &[255, 77, 78, 79]),
            leaves_three_everywhere::<char>(alloc, &[237, 160, 128, 77, 78, 79]),
            leaves_three::<NonZeroI64>(alloc, &[251, 0, 0, 77, 78, 79]),
            leaves_three_everywhere::<u16>(alloc, &[252, 77, 78, 79]),
            leaves_three_both::<Vec<bool>>(alloc, &[3, 1, 2, 77, 78, 79]),
        ],
    );
}

/// Nothing is read after a tag that none of the choices has.
#[test]
fn leaves_what_follows_a_tag(rt: HostRuntime) {
    let alloc = rt.alloc();
    all_true(
        &rt,
        &[
            leaves_three::<Option<u8>>(alloc, &[2, 77, 78, 79]),
            leaves_three::<Result<u8, u8>>(alloc, &[2, 77, 78, 79]),
            leaves_three::<Bound<u8>>(alloc, &[3, 77, 78, 79]),
            leaves_three::<IpAddr>(alloc, &[2, 77, 78, 79]),
            leaves_three::<SocketAddr>(alloc, &[2, 77, 78, 79]),
        ],
    );
}

/// 2^64 - 1 seconds and 1,000,000,000 nanoseconds, which are one second too many, and three bytes after them.
const TOO_LONG: [u8; 17] = [
    253, 255, 255, 255, 255, 255, 255, 255, 255, 252, 0, 202, 154, 59, 77, 78, 79,
];

/// Nothing is read after a number that its type has not: a zero, or too many seconds.
#[test]
fn leaves_what_follows_a_number(rt: HostRuntime) {
    let alloc = rt.alloc();
    let zero = [0, 77, 78, 79];
    all_true(
        &rt,
        &[
            leaves_three::<NonZeroU8>(alloc, &zero),
            leaves_three::<NonZeroU16>(alloc, &zero),
            leaves_three::<NonZeroU32>(alloc, &zero),
            leaves_three::<NonZeroU64>(alloc, &zero),
            leaves_three::<NonZeroU128>(alloc, &zero),
            leaves_three::<NonZeroUsize>(alloc, &zero),
            leaves_three::<NonZeroI8>(alloc, &zero),
            leaves_three::<NonZeroI16>(alloc, &zero),
            leaves_three::<NonZeroI32>(alloc, &zero),
            leaves_three::<NonZeroI128>(alloc, &zero),
            leaves_three::<NonZeroIsize>(alloc, &zero),
            leaves_three::<Duration>(alloc, &TOO_LONG),
        ],
    );
}
