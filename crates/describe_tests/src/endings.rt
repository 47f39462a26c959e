//! How the program ends, and what is left of its output where that fails.

use crate::sources::{requested, words_of};
use shape_text::describing::describe;
use shape_text::failure::DescribeError;
use shape_text::program::run;
use std::alloc::Global;
use std::io::{ErrorKind, Read, Write};
use std::path::PathBuf;
use std::{env, fs, io, process};

/// Whether the program ends with this status, with these words after its name.
pub fn ends(rt: &HostRuntime, options: &str, last: &str, status: u8) -> bool {
    match words_of(rt.alloc(), options, last) {
        Ok(words) => run(rt, &words) == status,
        Err(_) => false,
    }
}

/// Whether it ends so after options, with a file of these bytes.
fn ends_over(rt: &HostRuntime, path: &str, bytes: &[u8], options: &str, status: u8) -> bool {
    fs::write(rt, path, bytes).is_ok() && ends(rt, options, path, status)
}

/// A path that no other test has.
pub fn path_of(rt: &HostRuntime, name: &str) -> anyhow::Result<PathBuf> {
    let name = format!(in rt.alloc(); "{}-{name}", process::id(rt.process()))?;
    Ok(env::temp_dir(rt)?.join(rt.alloc(), name.as_str())?)
}

/// Whether the program ends with the status 3 where the file is missing, and where it is a folder.
fn fails_without_file(rt: &HostRuntime, path: &str) -> bool {
    match env::temp_dir(rt) {
        Ok(folder) => ends(rt, "u16", path, 3) && ends(rt, "u16", folder.as_str(), 3),
        Err(_) => false,
    }
}

/// A file of 7 and 300, one that is torn, and one that is missing; a folder; and words that spell no request.
#[test]
fn ends_with_a_status(rt: HostRuntime) -> anyhow::Result<()> {
    let file = path_of(&rt, "numbers")?;
    let path = file.as_str();
    let is_ended = ends_over(&rt, path, &[7, 251, 44, 1], "u16", 0)
        && ends_over(&rt, path, &[7, 251, 44, 1], "--frames u16", 1)
        && ends_over(&rt, path, &[7, 251, 44], "u16", 1)
        && ends_over(&rt, path, &[0; 8], "--frames u16", 1);
    assert!(rt; is_ended && fs::remove_file(&rt, path).is_ok());
    assert!(rt;
        fails_without_file(&rt, path) && ends(&rt, "", "u7", 2) && ends(&rt, "", "--help", 0)
    );
    Ok(())
}

/// Whether a failure is told as the output's error, where that has this room for the line of a 7.
fn is_told(alloc: Global, room: &mut [u8]) -> bool {
    let Some(request) = requested(alloc, "", "u16") else {
        return false;
    };
    let mut out: &mut [u8] = room;
    let described = describe(alloc, &request, [7].as_slice(), &mut out);
    matches!(described, Err(DescribeError::Write(_)))
}

/// If the output fails, that is the error, and what was written before is there.
#[test]
fn tells_a_failed_output(rt: HostRuntime) {
    let mut room = [0u8; 20];
    assert!(rt; is_told(rt.alloc(), &mut room) && &room == b"{\"offset\":0,\"length\"");
}

/// Gives six bytes, then those that are left of two numbers, and then fails.
#[derive(Drop)]
struct Halves<'s> {
    bytes: &'s [u8],
}

impl Read for Halves<'_> {
    fn read(&mut self, bytes: &mut [u8]) -> io::Result<usize> {
        if self.bytes.is_empty() {
            return Err(ErrorKind::TimedOut.into());
        }
        let most = bytes.len().min(6);
        self.bytes.read(&mut bytes[..most])
    }
}

/// Holds what is written, and how much of it was flushed.
#[derive(Drop)]
struct Flushed {
    held: Vec<u8>,
    flushed: usize,
}

impl Write for Flushed {
    fn write(&mut self, bytes: &[u8]) -> io::Result<usize> {
        self.held.extend_from_slice(bytes)?;
        Ok(bytes.len())
    }

    fn flush(&mut self) -> io::Result<()> {
        self.flushed = self.held.len();
        Ok(())
    }
}

/// Whether the word of a number, which comes in two parts, is printed so and flushed before more is waited for.
fn is_flushed(alloc: Global, bytes: &[u8], wanted: &str) -> bool {
    let Some(request) = requested(alloc, "", "u64") else {
        return false;
    };
    let mut out = Flushed {
        held: Vec::new(alloc),
        flushed: 0,
    };
    let described = describe(alloc, &request, Halves { bytes }, &mut out);
    matches!(described, Err(DescribeError::Read(_)))
        && out.held.as_slice() == wanted.as_bytes()
        && out.flushed == out.held.len()
}

#[test]
fn prints_what_came_before_it_waits(rt: HostRuntime) {
    let word = [253, 1, 0, 0, 0, 0, 0, 0, 1];
    let line = "{\"offset\":0,\"length\":9,\"value\":72057594037927937}\n";
    assert!(rt; is_flushed(rt.alloc(), &word, line));
}
