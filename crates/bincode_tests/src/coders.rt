//! Encoders and decoders over a user-defined writer and reader.

use crate::asserts::rows_hold;
use bincode::config;
use bincode::de::read::SliceReader;
use bincode::de::{
    ClaimContainer, Decode, Decoder, DecoderImpl, decode_array, decode_run, decode_vec,
};
use bincode::enc::write::SliceWriter;
use bincode::enc::{Encode, Encoder, EncoderImpl, encode_run};
use bincode::error::DecodeError;
use std::alloc::Global;
use test_helpers::checks::is_passed;

/// Whether a number is written by a reference to the encoder's own.
fn writes_by_reference<E: Encoder>(mut encoder: &mut E) -> bool {
    7u8.encode(&mut encoder).is_ok()
}

/// Whether a number is written, a run of two, and a number by a reference, and there is room for one byte of nine then.
fn writes_in_turn<E: Encoder>(encoder: &mut E) -> bool {
    300u32.encode(encoder).is_ok()
        && encode_run(&[300u16, 7], encoder).is_ok()
        && writes_by_reference(encoder)
        && encoder.has_room_for(1)
        && !encoder.has_room_for(2)
}

#[test]
fn encodes_in_turn(rt: HostRuntime) {
    let mut slice = [9u8; 9];
    let mut encoder = EncoderImpl::new(SliceWriter::new(&mut slice), config::standard());
    assert!(rt; writes_in_turn(&mut encoder));
    let writer = encoder.into_writer();
    assert!(rt; writer.bytes_written() == 8);
    drop(writer);
    assert!(rt; slice == [251, 44, 1, 251, 44, 1, 7, 7, 9]);
}

/// Whether two numbers are read, the second by a reference to the decoder's own.
fn reads_two_numbers<D: Decoder<Context = ()>>(mut decoder: &mut D) -> bool {
    matches!(u32::decode(decoder), Ok(300)) && matches!(u8::decode(&mut decoder), Ok(7))
}

/// What is read of two bytes, whose room is claimed.
fn read_vec<D: Decoder<Context = ()>>(decoder: &mut D) -> Result<Vec<u8>, DecodeError> {
    decoder.claim_container_read::<u8>(2)?;
    decode_vec::<u8, D>(decoder, 2)
}

/// The two are read as an array, of an element, a decoder and a length that are named in this order.
fn read_array<D: Decoder<Context = ()>>(decoder: &mut D) -> Result<[u8; 2], DecodeError> {
    decoder.claim_container_read::<u8>(2)?;
    decode_array::<u8, D, 2>(decoder)
}

/// What is read over three values, whose room is claimed.
fn read_over<D: Decoder<Context = ()>>(decoder: &mut D) -> Result<[u16; 3], DecodeError> {
    let mut values = [5u16; 3];
    decoder.claim_container_read::<u16>(3)?;
    decode_run(decoder, &mut values)?;
    Ok(values)
}

#[test]
fn decodes_in_turn(rt: HostRuntime) {
    let reader = SliceReader::new(&[251, 44, 1, 7]);
    let mut decoder = DecoderImpl::new(rt.alloc(), reader, config::standard(), ());
    assert!(rt; reads_two_numbers(&mut decoder));
}

/// Whether three values, an array of two and two bytes as a vector are read.
fn reads_runs<D: Decoder<Context = ()>>(decoder: &mut D) -> bool {
    let is_run = matches!(read_over(decoder), Ok(read) if read == [300, 7, 8]);
    let is_array = matches!(read_array(decoder), Ok(read) if read == [5, 6]);
    match read_vec(decoder) {
        Ok(pair) => is_run && is_array && pair.as_slice() == [1, 2].as_slice(),
        Err(_) => false,
    }
}

/// Whether they are read within ten.
fn reads_within_ten(alloc: Global) -> bool {
    let reader = SliceReader::new(&[251, 44, 1, 7, 8, 5, 6, 1, 2, 9]);
    let ten = config::standard().with_limit::<10>();
    reads_runs(&mut DecoderImpl::new(alloc, reader, ten, ()))
}

/// Retries once, since an allocation may be refused.
#[test]
fn decodes_runs(rt: HostRuntime) {
    assert!(rt; reads_within_ten(rt.alloc()) || reads_within_ten(rt.alloc()));
}

/// Whether six of ten are claimed, and of the four left not five, but two once three are released; then nothing
/// more that passes what a counter holds, and the charge stays.
fn claims_in_turn<D: Decoder<Context = ()>>(decoder: &mut D) -> bool {
    if decoder.claim_bytes_read(6).is_err() || !is_passed(decoder.claim_bytes_read(5)) {
        return false;
    }
    decoder.unclaim_bytes_read(3);
    decoder.claim_bytes_read(2).is_ok()
        && is_passed(decoder.claim_bytes_read(usize::MAX))
        && decoder.claim_bytes_read(0).is_ok()
}

/// Whether a claim of 2^64 bytes is refused, and the charge stays.
fn refuses_room<D: Decoder<Context = ()>>(decoder: &mut D) -> bool {
    is_passed(decoder.claim_container_read::<u32>(1 << 62)) && decoder.claim_bytes_read(0).is_ok()
}

/// Whether it is granted.
fn grants_room<D: Decoder<Context = ()>>(decoder: &mut D) -> bool {
    decoder.claim_container_read::<u32>(1 << 62).is_ok()
}

#[test]
fn claims_and_releases(rt: HostRuntime) {
    let alloc = rt.alloc();
    let ten = config::standard().with_limit::<10>();
    let mut limited = DecoderImpl::new(alloc, SliceReader::new(&[]), ten, ());
    let mut free = DecoderImpl::new(alloc, SliceReader::new(&[]), config::standard(), ());
    rows_hold(
        &rt,
        &[
            ("claims in turn", claims_in_turn(&mut limited)),
            (
                "a container's claim that overflows",
                refuses_room(&mut limited),
            ),
            (
                "a container's claim without a limit",
                grants_room(&mut free),
            ),
        ],
    );
}
