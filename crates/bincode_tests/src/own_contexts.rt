//! User-defined contexts: each call passes its context on, and uses it once for each value that asks for it.

use bincode::de::{BorrowDecode, BorrowDecoder, BorrowedBytes, Decode, Decoder, Sequential};
use bincode::error::DecodeError;
use bincode::{
    HasParts, Wire, borrow_decode_from_slice_with_context, config,
    decode_from_buf_read_with_context, decode_from_slice_with_context,
    decode_from_std_read_with_context,
};
use std::alloc::Global;
use std::cell::Cell;
use std::io::BufReader;

/// A byte, and how many were read by its context before it.
#[derive(Clone, Copy, PartialEq)]
struct Numbered {
    byte: u8,
    number: u32,
}

impl HasParts<u8> for Numbered {
    ghost parts = { λ v. v.byte };
}

impl Wire for Numbered {
    ghost use Rattle.bincode.specs.TypeWords.{words_by};

    ghost words = { words_by ⟦<u8 as Wire>⟧.words ⟦<Numbered as HasParts<u8>>⟧.parts };

    fn claim_size() -> usize {
        u8::claim_size()
    }
}

/// The number of the next value.
fn next_number(count: &Cell<u32>) -> u32 {
    let number = count.get();
    count.set(number.saturating_add(1));
    number
}

impl<'c> Decode<&'c Cell<u32>> for Numbered {
    type Run = Sequential;

    fn decode<D: Decoder<Context = &'c Cell<u32>>>(
        decoder: &mut D,
    ) -> Result<Numbered, DecodeError> {
        let count = *decoder.context();
        let byte = u8::decode(decoder)?;
        Ok(Numbered {
            byte,
            number: next_number(count),
        })
    }
}

impl<'c, B: BorrowedBytes> BorrowDecode<B, &'c Cell<u32>> for Numbered {
    type Run = Sequential;

    fn borrow_decode<D: BorrowDecoder<B, Context = &'c Cell<u32>>>(
        decoder: &mut D,
    ) -> Result<Numbered, DecodeError> {
        Numbered::decode(decoder)
    }
}

/// A value and a list of three: the list has a length of 3.
static WORD: [u8; 5] = [60, 3, 61, 62, 63];

type Several = (Numbered, Vec<Numbered>);

/// Whether these values are those of the word from this one on, each with its number.
fn are_from(values: &[Numbered], first: u8) -> bool {
    let mut number = first;
    for value in values.iter() {
        if value.number != u32::from(number) || value.byte != 60u8.saturating_add(number) {
            return false;
        }
        number = number.saturating_add(1);
    }
    true
}

/// Whether these are the four values of the word, each with its number, and the context counted four.
fn are_counted((value, list): &Several, count: &Cell<u32>) -> bool {
    are_from(&[*value], 0) && list.len() == 3 && are_from(list, 1) && count.get() == 4
}

/// Whether the call for slices gives the four values, and leaves a context that counted four.
fn keeps_by_slice(alloc: Global) -> bool {
    let count = Cell::new(0u32);
    match decode_from_slice_with_context(alloc, &WORD, config::standard(), &count) {
        Ok((several, _)) => are_counted(&several, &count),
        Err(_) => false,
    }
}

/// Whether the borrowing call does so.
fn keeps_by_lending(alloc: Global) -> bool {
    let count = Cell::new(0u32);
    match borrow_decode_from_slice_with_context(alloc, &WORD, config::standard(), &count) {
        Ok((several, _)) => are_counted(&several, &count),
        Err(_) => false,
    }
}

/// Whether the call for streams does so.
fn keeps_by_stream(alloc: Global) -> bool {
    let count = Cell::new(0u32);
    let mut stream = WORD.as_slice();
    match decode_from_std_read_with_context(alloc, &mut stream, config::standard(), &count) {
        Ok(several) => are_counted(&several, &count),
        Err(_) => false,
    }
}

/// Whether the call for streams with a buffer does so, where the buffer shows two bytes at a time.
fn keeps_by_buffer(alloc: Global) -> bool {
    let count = Cell::new(0u32);
    let Ok(mut stream) = BufReader::with_capacity(alloc, 2, WORD.as_slice()) else {
        return false;
    };
    match decode_from_buf_read_with_context(alloc, &mut stream, config::standard(), &count) {
        Ok(several) => are_counted(&several, &count),
        Err(_) => false,
    }
}

/// Retries once if an allocation is refused.
#[test]
fn keeps_its_context(rt: HostRuntime) {
    let alloc = rt.alloc();
    assert!(rt;
        (keeps_by_slice(alloc) || keeps_by_slice(alloc))
            && (keeps_by_lending(alloc) || keeps_by_lending(alloc))
            && (keeps_by_stream(alloc) || keeps_by_stream(alloc))
            && (keeps_by_buffer(alloc) || keeps_by_buffer(alloc))
    );
}
