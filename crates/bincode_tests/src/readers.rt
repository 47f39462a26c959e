//! A reader that borrows a stream.

use bincode::config::Endianness;
use bincode::de::LentIoReader;
use bincode::de::read::Reader;
use bincode::varint::varint_decode_u32;

/// Whether a number is read, and nothing is shown of what follows.
fn reads_one_and_shows_nothing<R: Reader>(reader: &mut R) -> bool {
    matches!(varint_decode_u32(reader, Endianness::Little), Ok(251))
        && reader.peek_read(1).is_none()
}

#[test]
fn leaves_a_lent_stream_after_a_word(rt: HostRuntime) {
    let bytes = [251, 251, 0, 7, 9];
    let mut stream = &bytes[..];
    assert!(rt; reads_one_and_shows_nothing(&mut LentIoReader::new(&mut stream)));
    assert!(rt; stream == [7, 9].as_slice());
}
