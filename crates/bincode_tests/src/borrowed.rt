//! Borrowed decoding: what is borrowed from the source, and a type of each kind.

use crate::asserts::{all_true, rows_hold};
use bincode::borrow_decode_from_slice;
use bincode::config::{self, Config};
use bincode::de::read::SliceReader;
use bincode::de::{
    BorrowDecode, BorrowDecoder, ClaimContainer, DecoderImpl, LendInContext, borrow_decode_array,
    borrow_decode_vec,
};
use bincode::enc::Encode;
use bincode::error::DecodeError;
use bincode::time::Duration;
use std::alloc::{AllocError, Global};
use std::borrow::{CowSlice, CowStr};
use std::boxed::BoxedSlice;
use std::cell::{Cell, RefCell};
use std::cmp::Reverse;
use std::collections::{BTreeMap, BTreeSet, BinaryHeap, VecDeque};
use std::net::SocketAddr;
use std::num::NonZeroU16;
use std::ops::{Bound, RangeInclusive};
use std::rc::{Rc, RcSlice};
use std::sync::Arc;
use test_helpers::checks::{borrowed, either, fills, is_passed};

/// The word of ten thousand texts of three bytes.
fn many_texts(alloc: Global) -> Result<Vec<u8>, AllocError> {
    let mut word = [251, 16, 39].to_vec(alloc)?;
    for _ in 0..10_000 {
        word.extend_from_slice(&[3, 97, 98, 99])?;
    }
    Ok(word)
}

#[test]
fn lends_ten_thousand_texts(rt: HostRuntime) {
    let alloc = rt.alloc();
    let Some(word) = either(many_texts(alloc), many_texts(alloc)) else {
        assert!(rt; false);
        return;
    };
    let Ok((texts, 40_003)) = borrowed::<Vec<&str>>(alloc, word.as_slice()) else {
        assert!(rt; false);
        return;
    };
    assert!(rt; texts.len() == 10_000);
}

/// The result of borrowed decoding under a configuration. Retries once if an allocation is refused.
fn lent<'a, T: BorrowDecode<&'a [u8], ()>, C: Config>(
    alloc: Global,
    source: &'a [u8],
    config: C,
) -> Result<(T, usize), DecodeError> {
    match borrow_decode_from_slice(alloc, source, config) {
        Err(DecodeError::Memory) => borrow_decode_from_slice(alloc, source, config),
        outcome => outcome,
    }
}

/// The encoding of the list of abc, def and ghi.
static TEXTS: [u8; 13] = [3, 3, 97, 98, 99, 3, 100, 101, 102, 3, 103, 104, 105];

/// Whether the texts are lent within 56, and not within 55.
fn lends_texts_within(alloc: Global) -> bool {
    let less = config::standard().with_limit::<55>();
    let enough = config::standard().with_limit::<56>();
    let Ok((texts, 13)) = lent::<Vec<&str>, _>(alloc, &TEXTS, enough) else {
        return false;
    };
    texts.as_slice() == ["abc", "def", "ghi"].as_slice()
        && is_passed(lent::<Vec<&str>, _>(alloc, &TEXTS, less))
}

/// Whether three bytes are lent within 11, and not within 10.
fn lends_bytes_within(alloc: Global) -> bool {
    let less = config::standard().with_limit::<10>();
    let enough = config::standard().with_limit::<11>();
    let source = [3, 1, 2, 3];
    matches!(lent::<&[u8], _>(alloc, &source, enough), Ok(([1, 2, 3], 4)))
        && is_passed(lent::<&[u8], _>(alloc, &source, less))
}

/// Whether a text and bytes are lent, each as what may be owned. No contract says that they are not owned.
fn lends_what_may_be_owned(alloc: Global) -> bool {
    let source = [3, 70, 111, 111];
    let text = borrowed::<CowStr<'_>>(alloc, &source);
    let bytes = borrowed::<CowSlice<'_, u8>>(alloc, &source);
    matches!(text, Ok((CowStr::Borrowed("Foo"), 4)))
        && matches!(bytes, Ok((CowSlice::Borrowed([70, 111, 111]), 4)))
}

/// Whether a text is lent in an option of fixed numbers.
fn lends_under_fixed_numbers(alloc: Global) -> bool {
    let source = [1, 1, 0, 0, 0, 0, 0, 0, 0, 65];
    let read = lent::<Option<&str>, _>(alloc, &source, config::legacy());
    matches!(read, Ok((Some("A"), 10)))
}

/// Whether a text that is cut is told from one that is no UTF-8.
fn tells_faults_of_texts(alloc: Global) -> bool {
    matches!(
        borrowed::<&str>(alloc, &[2, 195]),
        Err(DecodeError::UnexpectedEnd { additional: 1 })
    ) && matches!(
        borrowed::<&str>(alloc, &[2, 195, 40]),
        Err(DecodeError::Utf8 { inner: _ })
    )
}

/// Row: lent texts, limits 55 and 56.
#[test]
fn lends_a_list_of_texts(rt: HostRuntime) {
    assert!(rt; lends_texts_within(rt.alloc()));
}

#[test]
fn lends_texts_and_bytes(rt: HostRuntime) {
    let alloc = rt.alloc();
    rows_hold(
        &rt,
        &[
            ("a text that borrows", lends_what_may_be_owned(alloc)),
            ("lent bytes, limits 10 and 11", lends_bytes_within(alloc)),
            ("an option of a lent text", lends_under_fixed_numbers(alloc)),
            ("lent texts that are none", tells_faults_of_texts(alloc)),
        ],
    );
}

/// Whether a text is lent by a reference to the decoder's own.
fn lends_text<'a, D: BorrowDecoder<&'a [u8], Context = ()>>(mut decoder: &mut D) -> bool {
    matches!(<&str>::borrow_decode(&mut decoder), Ok("ab"))
}

/// Whether two bytes are lent in another context.
fn lends_in_context<'a, D: BorrowDecoder<&'a [u8], Context = ()>>(decoder: &mut D) -> bool {
    matches!(decoder.with_context(3u8).take_bytes(2), Ok([5, 6]))
}

/// Whether of two more bytes one is missing.
fn misses_one<'a, D: BorrowDecoder<&'a [u8], Context = ()>>(decoder: &mut D) -> bool {
    matches!(
        decoder.take_bytes(2),
        Err(DecodeError::UnexpectedEnd { additional: 1 })
    )
}

/// Whether all of it is so, in turn.
fn lends_in_turn<'a, D: BorrowDecoder<&'a [u8], Context = ()>>(decoder: &mut D) -> bool {
    lends_text(decoder) && lends_in_context(decoder) && misses_one(decoder)
}

#[test]
fn borrows_in_turn(rt: HostRuntime) {
    let reader = SliceReader::new(&[2, 97, 98, 5, 6, 9]);
    let mut decoder = DecoderImpl::new(rt.alloc(), reader, config::standard(), ());
    assert!(rt; lends_in_turn(&mut decoder));
}

/// What is read of two texts, whose room is claimed.
fn read_vec<'a, D: BorrowDecoder<&'a [u8], Context = ()>>(
    decoder: &mut D,
) -> Result<Vec<&'a str>, DecodeError> {
    decoder.claim_container_read::<&str>(2)?;
    borrow_decode_vec::<&'a str, D, &'a [u8]>(decoder, 2)
}

/// The two are read as an array.
fn read_array<'a, D: BorrowDecoder<&'a [u8], Context = ()>>(
    decoder: &mut D,
) -> Result<[&'a str; 2], DecodeError> {
    decoder.claim_container_read::<&str>(2)?;
    borrow_decode_array::<&'a str, D, 2, &'a [u8]>(decoder)
}

/// Whether a and b are read as an array, and c and d as a vector.
fn reads_both<'a, D: BorrowDecoder<&'a [u8], Context = ()>>(decoder: &mut D) -> bool {
    let is_array = matches!(read_array(decoder), Ok(array) if array == ["a", "b"]);
    match read_vec(decoder) {
        Ok(vec) => is_array && vec.as_slice() == ["c", "d"].as_slice(),
        Err(_) => false,
    }
}

/// Whether they are read so within 50: 32 bytes of room beside 18 that are charged.
fn reads_four(alloc: Global, source: &[u8]) -> bool {
    let fifty = config::standard().with_limit::<50>();
    reads_both(&mut DecoderImpl::new(alloc, SliceReader::new(source), fifty, ()))
}

/// Retries once, since an allocation may be refused.
#[test]
fn borrows_runs(rt: HostRuntime) {
    let alloc = rt.alloc();
    let source = [1, 97, 1, 98, 1, 99, 1, 100];
    assert!(rt; reads_four(alloc, &source) || reads_four(alloc, &source));
}

/// Whether all of the source but its last byte is read as a value, and the value is written so.
fn keeps<'a, T: Encode + BorrowDecode<&'a [u8], ()>>(alloc: Global, source: &'a [u8]) -> bool {
    let Some((_, word)) = source.split_last() else {
        return false;
    };
    match borrowed::<T>(alloc, source) {
        Ok((value, taken)) => taken == word.len() && fills(&value, word),
        Err(_) => false,
    }
}

#[test]
fn keeps_lists(rt: HostRuntime) {
    let alloc = rt.alloc();
    let word = [1, 1, 97, 99];
    all_true(
        &rt,
        &[
            keeps::<VecDeque<&str>>(alloc, &word),
            keeps::<BoxedSlice<&str>>(alloc, &word),
            keeps::<RcSlice<&str>>(alloc, &word),
            keeps::<BTreeSet<&str>>(alloc, &word),
            keeps::<BTreeMap<&str, u8>>(alloc, &[1, 1, 97, 5, 99]),
            keeps::<BinaryHeap<&str>>(alloc, &word),
        ],
    );
}

/// Numbers, and what is kept as they are.
#[test]
fn keeps_scalars(rt: HostRuntime) {
    let alloc = rt.alloc();
    all_true(
        &rt,
        &[
            keeps::<u32>(alloc, &[251, 44, 1, 99]),
            keeps::<NonZeroU16>(alloc, &[5, 99]),
            keeps::<Duration>(alloc, &[7, 8, 99]),
            keeps::<RangeInclusive<u8>>(alloc, &[2, 8, 99]),
            keeps::<SocketAddr>(alloc, &[0, 1, 2, 3, 4, 80, 99]),
        ],
    );
}

/// Whether pointers keep the word of what they point to.
fn keeps_pointers<'a, T>(alloc: Global, word: &'a [u8]) -> bool
where
    T: Encode + BorrowDecode<&'a [u8], ()>,
{
    keeps::<Box<T>>(alloc, word) && keeps::<Rc<T>>(alloc, word) && keeps::<Arc<T>>(alloc, word)
}

/// Whether wrappers keep the word of what they wrap.
fn keeps_wrappers<'a, T>(alloc: Global, word: &'a [u8]) -> bool
where
    T: Encode + BorrowDecode<&'a [u8], ()> + Copy,
{
    keeps::<Reverse<T>>(alloc, word)
        && keeps::<Cell<T>>(alloc, word)
        && keeps::<RefCell<T>>(alloc, word)
}

/// What holds a text that is lent.
#[test]
fn keeps_holders(rt: HostRuntime) {
    let alloc = rt.alloc();
    let text = [1, 97, 99];
    assert!(rt;
        keeps_pointers::<&str>(alloc, &text)
            && keeps_wrappers::<&str>(alloc, &text)
            && keeps::<[&str; 1]>(alloc, &text)
            && keeps::<Option<&str>>(alloc, &[1, 1, 97, 99])
            && keeps::<Result<&str, u8>>(alloc, &[1, 6, 99])
            && keeps::<Bound<&str>>(alloc, &[2, 1, 98, 99])
    );
}
