//! Reading over a line that is cut.

use bincode::config;
use bincode::de::{Decode, Decoder, DecoderImpl};
use bincode::error::DecodeError;
use proved_callers::cut::CutReader;

/// Whether the first number is read, and each after it fails with the error of the line.
fn fails_after_the_first<D: Decoder<Context = ()>>(decoder: &mut D) -> bool {
    matches!(u8::decode(decoder), Ok(7))
        && matches!(u16::decode(decoder), Err(DecodeError::Other(_)))
        && matches!(u8::decode(decoder), Err(DecodeError::Other(_)))
}

#[test]
fn answers_the_error_of_a_cut_line(rt: HostRuntime) {
    let reader = CutReader::new(&[7, 251, 44, 1, 9], 2);
    let mut decoder = DecoderImpl::new(rt.alloc(), reader, config::standard(), ());
    assert!(rt; fails_after_the_first(&mut decoder) && decoder.reader().failures() == 2);
}
