//! What the program `records` does with the files that its arguments name.

use crate::adding::{AddError, add_lines, add_one, next_offset};
use crate::article::Article;
use crate::files::{
    FileError, Replacement, bytes_from, cut, hold_standard_streams, open_to_change, open_to_read,
};
use crate::limit::LONGEST_WORD;
use crate::repairing::{
    Plan, Repair, is_whole_after, plan_for, print_kept, print_plan, salvage, start_of_end,
};
use crate::request::{Request, request_of};
use crate::showing::{Sheet, ShowError, print_store};
use crate::status::{DONE, FAILED, USAGE, run_status, status_of};
use bincode::shape::Described;
use clap::Error;
use clap::error::ErrorKind;
use framed_store::streams::survey_stream;
use framed_store::surveying::Survey;
use shape_grammar::spelling::text_of;
use std::alloc::{AllocError, Global};
use std::fmt::Display;
use std::fs::File;
use std::io;
use std::io::{BufReader, BufWriter, Read, Seek, SeekFrom, Write};

/// The number of bytes that a file is read and written by.
const BLOCK: usize = 1 << 16;

/// What is added to a file.
#[derive(Clone, Copy)]
pub enum Source<'a> {
    /// This article.
    One(&'a Article),
    /// The articles of the standard input, one a line.
    Lines,
}

/// Does what these words ask for, of which the first is the program's name, and returns the status with which the
/// program ends.
pub fn run(rt: &HostRuntime, words: &[String]) -> u8 {
    let _held = hold_standard_streams(rt);
    match request_of(rt.alloc(), words) {
        Ok(request) => run_request(rt, &request),
        Err(error) => usage(rt, &error),
    }
}

/// Prints why words spell no request, or the help or the version for which they ask.
fn usage(rt: &HostRuntime, error: &Error) -> u8 {
    if error.print(rt).is_err() || error.kind() == ErrorKind::OutOfMemory {
        FAILED
    } else if error.use_stderr() {
        USAGE
    } else {
        DONE
    }
}

/// Does what a request asks for.
fn run_request(rt: &HostRuntime, request: &Request) -> u8 {
    let out = &mut io::writer(rt);
    match request {
        Request::Add { file, article } => told(rt, file, add(rt, file, Source::One(article), out)),
        Request::AddLines { file } => told(rt, file, add(rt, file, Source::Lines, out)),
        Request::List(files) => show_each(rt, files, true),
        Request::Check(files) => show_each(rt, files, false),
        Request::Repair { file, repair } => told(rt, file, repair_file(rt, file, *repair)),
        Request::Shape => print_shape(rt),
    }
}

/// The status of what was done with a file of this name. An error is printed with the name.
fn told(rt: &HostRuntime, file: &str, outcome: Result<u8, FileError>) -> u8 {
    match outcome {
        Ok(status) => status,
        Err(error) => {
            complain(rt, file, &error);
            FAILED
        }
    }
}

/// Prints what went wrong with a file of this name. Where that fails, nobody can be told.
fn complain<E: Display>(rt: &HostRuntime, file: &str, error: &E) {
    let _ = eprintln!(rt; "records: {file}: {error}");
}

/// Appends what is asked for to a file, and says so to `out` once it is on the disk: how many bytes or articles were
/// added, and the offset of the first. Returns the status with which the program ends. Where it fails, the file is cut
/// back to what it held.
pub fn add<W: Write>(
    rt: &HostRuntime,
    path: &str,
    source: Source<'_>,
    out: &mut W,
) -> Result<u8, FileError> {
    let file = open_to_change(rt, path, true)?;
    match end_of(rt.alloc(), &file) {
        Ok(offset) => add_at(rt, path, &file, (source, offset), out),
        Err(error) => Ok(refused(rt, path, &error)),
    }
}

/// The offset of the next frame of a file.
fn end_of(alloc: Global, file: &File) -> Result<usize, AddError> {
    match BufReader::with_capacity(alloc, BLOCK, file) {
        Ok(mut store) => next_offset(&mut store),
        Err(error) => Err(AddError::Store(error)),
    }
}

/// Appends what is asked for to a file that ends at this offset after a frame.
fn add_at<W: Write>(
    rt: &HostRuntime,
    path: &str,
    file: &File,
    (source, offset): (Source<'_>, usize),
    out: &mut W,
) -> Result<u8, FileError> {
    match append_all(rt, file, source) {
        Ok(count) => {
            if let Err(error) = print_added(out, path, source, count, offset) {
                complain(
                    rt,
                    path,
                    &format_args!("what was added is there, and can't be said: {error}"),
                );
            }
            Ok(DONE)
        }
        Err(error) => {
            let undone = cut(file, offset);
            let status = refused(rt, path, &error);
            undone?;
            Ok(status)
        }
    }
}

/// Prints why nothing was added, and returns the status.
fn refused(rt: &HostRuntime, path: &str, error: &AddError) -> u8 {
    complain(rt, path, error);
    error.status()
}

/// Appends what is asked for to a file, and brings it to the disk: how many bytes an article takes, or how many there
/// are.
fn append_all(rt: &HostRuntime, file: &File, source: Source<'_>) -> Result<usize, AddError> {
    let mut store = BufWriter::with_capacity(rt.alloc(), BLOCK, file).map_err(AddError::Store)?;
    let count = append_to(rt, &mut store, source)?;
    store.flush().map_err(AddError::Store)?;
    file.sync_all().map_err(AddError::Store)?;
    Ok(count)
}

/// Appends what is asked for to a store.
fn append_to<W: Write>(
    rt: &HostRuntime,
    store: &mut W,
    source: Source<'_>,
) -> Result<usize, AddError> {
    match source {
        Source::One(article) => Ok(add_one(rt.alloc(), store, article)?),
        Source::Lines => add_lines(rt.alloc(), &mut rt.reader(), store),
    }
}

/// Prints how many bytes or articles were added to a file, and the offset of the first.
fn print_added<W: Write>(
    out: &mut W,
    path: &str,
    source: Source<'_>,
    count: usize,
    offset: usize,
) -> io::Result<()> {
    match source {
        Source::One(_) => writeln!(out, "{path}: {count} bytes at byte {offset}"),
        Source::Lines => writeln!(out, "{path}: {count} records added at byte {offset}"),
    }
}

/// Prints what is asked for of each file.
fn show_each(rt: &HostRuntime, files: &[String], lists: bool) -> u8 {
    let mut statuses = Vec::new(rt.alloc());
    for file in files {
        let status = match show(rt, file, lists) {
            Ok(status) => status,
            Err(error) if error.is_closed_output() => return FAILED,
            Err(error) => {
                complain(rt, file, &error);
                FAILED
            }
        };
        if statuses.push(status).is_err() {
            return FAILED;
        }
    }
    run_status(&statuses)
}

/// Prints what is asked for of a file.
fn show(rt: &HostRuntime, path: &str, lists: bool) -> Result<u8, ShowError> {
    let file = open_to_read(rt, path)?;
    let mut store = BufReader::with_capacity(rt.alloc(), BLOCK, file)?;
    let sheet = Sheet { file: path, lists };
    Ok(status_of(show_store(rt, sheet, &mut store)?))
}

/// Prints what is asked for of a store to the standard output, and returns whether it is whole.
fn show_store<R: Read>(
    rt: &HostRuntime,
    sheet: Sheet<'_>,
    store: &mut R,
) -> Result<bool, ShowError> {
    let mut out = BufWriter::with_capacity(rt.alloc(), BLOCK, io::writer(rt))?;
    let is_whole = print_store(rt.alloc(), &mut out, sheet, store)?;
    out.flush()?;
    Ok(is_whole)
}

/// Makes a file whole, as far as that is asked for.
fn repair_file(rt: &HostRuntime, path: &str, repair: Repair) -> Result<u8, FileError> {
    let mut file = open_to_change(rt, path, false)?;
    let found = survey_file(rt.alloc(), &file)?;
    let start = start_of_end(found.length);
    let end = bytes_from(rt.alloc(), &mut file, start)?;
    let bytes = start.saturating_add(end.len());
    let plan = plan_for(&found, &end, repair);
    carry_out(rt, path, &mut file, plan, &found, bytes)?;
    Ok(status_of(is_whole_after(&found, plan)))
}

/// Does what is planned for a file of these frames and this number of bytes, and says so.
fn carry_out(
    rt: &HostRuntime,
    path: &str,
    file: &mut File,
    plan: Plan,
    found: &Survey,
    bytes: usize,
) -> Result<(), FileError> {
    let mut out = io::writer(rt);
    match plan {
        Plan::Leave | Plan::Refuse { .. } => (),
        Plan::Cut => cut(file, found.length)?,
        Plan::Rewrite => {
            let kept = rewrite(rt, path, file)?;
            print_kept(&mut out, path, bytes, &kept)?;
        }
    }
    Ok(print_plan(&mut out, path, bytes, found, plan)?)
}

/// The frames of a file, from where it is read.
fn survey_file(alloc: Global, file: &File) -> Result<Survey, FileError> {
    let mut buffer = Vec::new(alloc);
    let mut store = BufReader::with_capacity(alloc, BLOCK, file)?;
    Ok(survey_stream(&mut store, &mut buffer, LONGEST_WORD)?)
}

/// Puts a file of the whole frames in the place of this one, and returns the frames of the new one. Where that fails
/// no other file is left beside the one at the path, which is the old one, or the new one if its name alone could not
/// be brought to the disk.
fn rewrite(rt: &HostRuntime, path: &str, file: &mut File) -> Result<Survey, FileError> {
    let mut new = Replacement::new(rt, path, file)?;
    match fill_and_replace(rt, file, &mut new) {
        Ok(kept) => Ok(kept),
        Err(error) => {
            new.remove(rt);
            Err(error)
        }
    }
}

/// Writes the whole frames of a file to a new one, puts it in its place, and returns its frames.
fn fill_and_replace(
    rt: &HostRuntime,
    file: &mut File,
    new: &mut Replacement,
) -> Result<Survey, FileError> {
    let kept = fill(rt.alloc(), file, &mut new.file)?;
    new.take_place(rt)?;
    Ok(kept)
}

/// Writes the whole frames of a file to a new one, and returns its frames.
fn fill(alloc: Global, file: &mut File, new: &mut File) -> Result<Survey, FileError> {
    write_whole_frames(alloc, &bytes_from(alloc, file, 0)?, new)?;
    new.seek(SeekFrom::Start(0))?;
    survey_file(alloc, new)
}

/// Writes the whole frames of a store to a file.
fn write_whole_frames(alloc: Global, store: &[u8], file: &File) -> io::Result<()> {
    let mut out = BufWriter::with_capacity(alloc, BLOCK, file)?;
    salvage(store, &mut out)?;
    out.flush()
}

/// Prints the shape of an article, as `describe` takes it.
fn print_shape(rt: &HostRuntime) -> u8 {
    match shape_text(rt.alloc()) {
        Some(text) => match writeln!(io::writer(rt), "{}", text.as_str()) {
            Ok(()) => DONE,
            Err(_) => FAILED,
        },
        None => FAILED,
    }
}

/// The text of the shape of an article. `None` where memory is refused.
fn shape_text(alloc: Global) -> Option<String> {
    let shape = Article::shape(alloc)?;
    let text: Result<String, AllocError> = text_of(alloc, &shape);
    text.ok()
}
