//! Public functions that no other test calls, each called once.

use crate::asserts::all_true;
use bincode::config::{self, Config, Endianness, IntEncoding};
use bincode::de::read::SliceReader;
use bincode::de::{Decoder, DecoderImpl, LendInContext, slots_fit};
use bincode::enc::write::SizeWriter;
use bincode::enc::{Encoder, EncoderImpl};
use bincode::error::{AllowedEnumVariants, DecodeError, EncodeError, IntegerType};
use bincode::short_text::TypeName;
use bincode::{decode_from_std_read, encode_into_std_write};
use std::alloc::Global;
use std::io;
use std::io::{ErrorKind, Read, Write};

/// The error of a tag that is not among these. Retries once if an allocation is refused.
fn unlisted(alloc: Global, tags: &[u32]) -> DecodeError {
    let allowed = AllowedEnumVariants::Allowed(tags);
    match DecodeError::unexpected_variant(alloc, TypeName::new("Code"), 9, allowed) {
        DecodeError::Memory => DecodeError::unexpected_variant(
            alloc,
            TypeName::new("Code"),
            9,
            allowed,
        ),
        error => error,
    }
}

#[test]
fn tells_which_tags_are_allowed(rt: HostRuntime) {
    let error = unlisted(rt.alloc(), &[1, 5, 300]);
    assert!(rt;
        error.allowed() == Some(AllowedEnumVariants::Allowed(&[1, 5, 300]))
            && matches!(
            error,
            DecodeError::UnlistedVariant { type_name, found: 9, .. } if type_name.as_str() == "Code"
        )
    );
    let in_range = DecodeError::UnexpectedVariant {
        type_name: TypeName::new("Code"),
        found: 9,
        min: 1,
        max: 3,
    };
    let range = AllowedEnumVariants::Range { min: 1, max: 3 };
    assert!(rt;
        in_range.allowed() == Some(range) && DecodeError::LimitExceeded.allowed().is_none()
    );
}

#[test]
fn changes_types_to_signed_ones(rt: HostRuntime) {
    let error = DecodeError::InvalidIntegerType {
        expected: IntegerType::U16,
        found: IntegerType::U32,
    };
    let DecodeError::InvalidIntegerType { expected, found } = error.change_integer_type_to_signed()
    else {
        assert!(rt; false);
        return;
    };
    assert!(rt; expected == IntegerType::I16 && found == IntegerType::U32.into_signed());
}

/// A stream that answers the system's error 32, a broken pipe.
#[derive(Drop)]
struct Broken;

impl Read for Broken {
    fn read(&mut self, _bytes: &mut [u8]) -> io::Result<usize> {
        Err(io::Error::from_raw_os_error(32))
    }
}

impl Write for Broken {
    fn write(&mut self, _bytes: &[u8]) -> io::Result<usize> {
        Err(io::Error::from_raw_os_error(32))
    }

    fn flush(&mut self) -> io::Result<()> {
        Ok(())
    }
}

#[test]
fn keeps_the_number_of_the_system(rt: HostRuntime) {
    let read: Result<u8, DecodeError> = decode_from_std_read(
        rt.alloc(),
        &mut Broken,
        config::standard(),
    );
    let Err(DecodeError::Io { inner, .. }) = read else {
        assert!(rt; false);
        return;
    };
    assert!(rt; inner.raw_os_error() == Some(32) && inner.kind() == ErrorKind::BrokenPipe);
    let written = encode_into_std_write(5u8, &mut Broken, config::standard());
    let Err(EncodeError::Io { inner, .. }) = written else {
        assert!(rt; false);
        return;
    };
    assert!(rt; inner.raw_os_error() == Some(32) && inner.kind() == ErrorKind::BrokenPipe);
}

/// Whether the configuration is the big one of fixed numbers within ten.
fn is_big_fixed_ten<C: Config>(config: &C) -> bool {
    config.endianness() == Endianness::Big
        && config.int_encoding() == IntEncoding::Fixed
        && config.limit() == Some(10)
}

/// Whether the decoder lends that one.
fn lends_its_configuration<D: Decoder>(decoder: &D) -> bool {
    is_big_fixed_ten(decoder.config())
}

/// Whether the encoder lends that one.
fn lends_a_configuration<E: Encoder>(encoder: &E) -> bool {
    is_big_fixed_ten(encoder.config())
}

/// Whether one with another context lends it.
fn lends_it_in_context<D: Decoder<Context = u8>>(decoder: &mut D) -> bool {
    let lent = decoder.with_context(5u16);
    lends_its_configuration(&lent)
}

#[test]
fn lends_configurations(rt: HostRuntime) {
    let config = config::legacy().with_big_endian().with_limit::<10>();
    let reader = SliceReader::new(&[]);
    let mut decoder = DecoderImpl::new(rt.alloc(), reader, config, 7u8);
    all_true(
        &rt,
        &[
            lends_its_configuration(&decoder),
            lends_its_configuration(&&mut decoder),
            lends_it_in_context(&mut decoder),
            decoder.is_within_limit(),
        ],
    );
    let mut encoder = EncoderImpl::new(SizeWriter::default(), config);
    assert!(rt; lends_a_configuration(&encoder) && lends_a_configuration(&&mut encoder));
}

/// An option of a `u8` has two bytes: fewer than 2^62 of them fit, and the size of 2^63 is above every `usize`.
#[test]
fn tells_which_slots_fit(rt: HostRuntime) {
    assert!(rt;
        slots_fit::<u8, 1_000>()
            && !slots_fit::<u8, 4_611_686_018_427_387_904>()
            && !slots_fit::<u8, 9_223_372_036_854_775_808>()
    );
}
