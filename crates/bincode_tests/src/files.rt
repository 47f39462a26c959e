//! A file that is written to and then read from its start.

use bincode::error::DecodeError;
use bincode::{config, decode_from_reader, decode_from_std_read, encode_into_std_write};
use std::alloc::Global;
use std::fs::{File, OpenOptions};
use std::io::{BufReader, Seek, SeekFrom};
use std::{env, fs, io, process};
use test_helpers::checks::either;

/// A file without a name: its name is removed once it is open, so that nothing is left of it when it is closed.
fn unnamed_file(rt: &HostRuntime) -> io::Result<File> {
    let name = format!(in rt.alloc(); "bincode-stream-{}", process::id(rt.process()))?;
    let path = env::temp_dir(rt)?.join(rt.alloc(), name.as_str())?;
    let file = OpenOptions::new()
        .read(true)
        .write(true)
        .create_new(true)
        .open(rt, path.as_path())?;
    fs::remove_file(rt, path.as_path())?;
    Ok(file)
}

/// Whether the file is read from its start as 30 and 50.
fn reads_two(alloc: Global, file: &mut File) -> io::Result<bool> {
    file.seek(SeekFrom::Start(0))?;
    let read: Result<(u8, u8), DecodeError> = decode_from_std_read(alloc, file, config::standard());
    Ok(matches!(read, Ok((30, 50))))
}

/// Whether it is read so through a buffer.
fn reads_two_through_a_buffer(alloc: Global, file: &mut File) -> io::Result<bool> {
    file.seek(SeekFrom::Start(0))?;
    let mut buffered = BufReader::new(alloc, file)?;
    let read: Result<(u8, u8), DecodeError> = decode_from_reader(
        alloc,
        &mut buffered,
        config::standard(),
    );
    Ok(matches!(read, Ok((30, 50))))
}

#[test]
fn keeps_two_numbers_in_a_file(rt: HostRuntime) {
    let alloc = rt.alloc();
    let Some(mut file) = either(unnamed_file(&rt), unnamed_file(&rt)) else {
        assert!(rt; false);
        return;
    };
    let written = encode_into_std_write((30u8, 50u8), &mut file, config::standard());
    assert!(rt; matches!(written, Ok(2)) && matches!(reads_two(alloc, &mut file), Ok(true)));
    let buffered = either(
        reads_two_through_a_buffer(alloc, &mut file),
        reads_two_through_a_buffer(alloc, &mut file),
    );
    assert!(rt; buffered == Some(true));
}
