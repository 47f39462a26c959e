//! Writing over a line that is cut, and into a fixed capacity.

use bincode::checked::encoded_length;
use bincode::enc::{Encode, Encoder, EncoderImpl};
use bincode::error::EncodeError;
use bincode::{config, encode_into_writer};
use proved_callers::cut::CutWriter;
use proved_callers::fixed::Fixed;

/// Whether the first number is written, and each after it fails with the error of the line.
fn fails_after_the_first<E: Encoder>(encoder: &mut E) -> bool {
    7u8.encode(encoder).is_ok()
        && matches!(300u16.encode(encoder), Err(EncodeError::Other(_)))
        && matches!(9u8.encode(encoder), Err(EncodeError::Other(_)))
}

#[test]
fn answers_the_error_of_a_cut_line(rt: HostRuntime) {
    let mut encoder = EncoderImpl::new(CutWriter::new(2), config::standard());
    assert!(rt; fails_after_the_first(&mut encoder));
    let writer = encoder.writer();
    assert!(rt; writer.sent() == 2 && writer.failures() == 2);
}

/// A pair whose parts are written in one byte and in three.
const PAIR: (u8, u32) = (1, 300);

/// Rows: a writer of four bytes, and a writer of three bytes.
#[test]
fn writes_into_a_fixed_room(rt: HostRuntime) {
    let mut enough: Fixed<4> = Fixed::new();
    assert!(rt;
        encode_into_writer(PAIR, &mut enough, config::standard()).is_ok()
            && enough.held() == [1, 251, 44, 1].as_slice()
    );
    let mut short: Fixed<3> = Fixed::new();
    let outcome = encode_into_writer(PAIR, &mut short, config::standard());
    assert!(rt;
        matches!(outcome, Err(EncodeError::UnexpectedEnd)) && short.held() == [1, 251].as_slice()
    );
}

#[test]
fn counts_what_is_written(rt: HostRuntime) {
    assert!(rt; matches!(encoded_length(&PAIR, config::standard()), Ok(4)));
}
