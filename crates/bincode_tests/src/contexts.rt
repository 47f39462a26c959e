//! Decoders that are borrowed with another context.

use bincode::config;
use bincode::de::read::SliceReader;
use bincode::de::{Decode, Decoder, DecoderImpl, LendInContext};
use bincode::error::DecodeError;

/// Whether a number is read, and the context is this one, which is then another.
fn reads_in_context<D: Decoder<Context = u8>>(decoder: &mut D, context: u8) -> bool {
    let is_read = matches!(u32::decode(decoder), Ok(300));
    let is_context = *decoder.context() == context;
    *decoder.context() = 1;
    is_read && is_context
}

/// Whether the decoder reads so where it is lent with the context 3.
fn lends_with_three<D: Decoder<Context = u8>>(decoder: &mut D) -> bool {
    reads_in_context(&mut decoder.with_context(3u8), 3)
}

/// Whether the lender has its own context again, and the charge of what was read.
fn has_read_four_of_five<D: Decoder<Context = u8>>(decoder: &mut D) -> bool {
    *decoder.context() == 8
        && matches!(u8::decode(decoder), Ok(7))
        && matches!(u8::decode(decoder), Err(DecodeError::LimitExceeded))
}

#[test]
fn lends_in_context(rt: HostRuntime) {
    let reader = SliceReader::new(&[251, 44, 1, 7, 9]);
    let mut decoder = DecoderImpl::new(
        rt.alloc(),
        reader,
        config::standard().with_limit::<5>(),
        8u8,
    );
    assert!(rt; lends_with_three(&mut decoder) && has_read_four_of_five(&mut decoder));
}
