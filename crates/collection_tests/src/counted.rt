//! How often a user-defined list is begun, and for how many items.

use bincode::config;
use bincode::de::read::SliceReader;
use bincode::de::{Decoder, DecoderImpl, FillList, decode_collection};
use bincode::error::DecodeError;
use std::alloc::Global;
use test_helpers::checks::either;

/// How often lists were begun, and for how many items the last.
#[derive(Clone, Copy)]
struct Starts {
    times: u32,
    len: usize,
}

/// A list of bytes that reports to its context when it is begun.
#[derive(Drop)]
struct Told {
    items: Vec<u8>,
}

impl FillList<Starts> for Told {
    type Item = u8;

    type Filling = Vec<u8>;

    ghost items = { λ v. v.items.items };

    ghost held_items = { λ filling. filling.items };

    fn start(alloc: Global, context: &mut Starts, len: usize) -> Result<Vec<u8>, DecodeError> {
        context.times = context.times.saturating_add(1);
        context.len = len;
        Ok(Vec::new(alloc))
    }

    fn put(filling: &mut Vec<u8>, item: u8) -> Result<(), DecodeError> {
        match filling.push(item) {
            Ok(()) => Ok(()),
            Err(_) => Err(DecodeError::Memory),
        }
    }

    fn finish(items: Vec<u8>) -> Result<Told, DecodeError> {
        Ok(Told { items })
    }
}

/// A list of three items that was read, and how it was begun.
fn read_three(alloc: Global) -> Result<(Told, Starts), DecodeError> {
    let starts = Starts { times: 0, len: 0 };
    let reader = SliceReader::new(&[3, 5, 6, 7, 8]);
    let mut decoder = DecoderImpl::new(alloc, reader, config::standard(), starts);
    let told = decode_collection(&mut decoder)?;
    Ok((told, *decoder.context()))
}

#[test]
fn begins_a_list_once(rt: HostRuntime) {
    let Some((told, starts)) = either(read_three(rt.alloc()), read_three(rt.alloc())) else {
        assert!(rt; false);
        return;
    };
    assert!(rt;
        starts.times == 1 && starts.len == 3 && told.items.as_slice() == [5, 6, 7].as_slice()
    );
}
