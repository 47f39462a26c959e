//! What is printed of a store of frames.
ghost use Rattle.std.specs.Prelude.{◌≡◌, ◌↔◌, IfOk, IsTrue};
ghost use Rattle.bincode_io.specs.Stream.{TellsBytes, known_bytes};
ghost use Rattle.stock_files.specs.Stores.{IsJudged, IsValue};

use crate::article::Article;
use crate::files::FileError;
use crate::limit::{LONGEST_WORD, Settings, settings};
use bincode::Wire;
use bincode::config::Config;
use bincode::de::Decode;
use framed_store::ending::Ending;
use framed_store::records::{Content, Next};
use framed_store::streams::{ReadError, next_from_stream};
use std::alloc::Global;
use std::io;
use std::io::{ErrorKind, Read, Write};
use thiserror::Error;

/// A value that is printed as a line.
trait Printed {
    /// Prints it, and the end of the line.
    fn print<W: Write>(&self, out: &mut W) -> io::Result<()>;
}

/// How a store is shown.
#[derive(Clone, Copy)]
pub struct Sheet<'a> {
    /// The name of its file.
    pub file: &'a str,
    /// Whether its articles are printed, or only the frames that hold none.
    pub lists: bool,
}

/// Why a store is not shown to its end.
#[derive(Debug, Drop, Error)]
pub enum ShowError {
    /// Its file could not be opened.
    #[error("{0}")]
    File(#[from] FileError),
    /// The store could not be read, or memory was refused.
    #[error("{0}")]
    Read(#[from] ReadError),
    /// The output failed.
    #[error("{0}")]
    Output(#[from] io::Error),
}

impl ShowError {
    /// Whether nobody reads the output any more.
    pub fn is_closed_output(&self) -> bool {
        matches!(self, ShowError::Output(e) if e.kind() == ErrorKind::BrokenPipe)
    }
}

/// Damaged frames that follow one another.
#[derive(Clone, Copy)]
struct Run {
    /// The number of bytes of the store before them.
    offset: usize,
    /// The number of their bytes.
    bytes: usize,
    /// How many they are.
    frames: usize,
}

/// The frames of a store up to an offset.
#[derive(Clone, Copy)]
struct Seen {
    /// The number of bytes of the frames.
    offset: usize,
    /// How many of them hold an article.
    articles: usize,
    /// How many hold none.
    others: usize,
    /// The damaged ones at the end.
    run: Run,
}

/// Prints what is asked for of a store, one frame in memory at a time, and how it ends. Returns whether it is whole.
/// Damaged frames that follow one another are one line. Fails where the store cannot be read, where memory is refused
/// and where the output fails; the lines before are printed.
pub fn print_store<R: Read, W: Write>(
    alloc: Global,
    out: &mut W,
    sheet: Sheet<'_>,
    store: &mut R,
) -> Result<bool, ShowError>
    // It is whole exactly if each of its bytes belongs to the frame of an article.
    ensures { TellsBytes (R.remaining store.old) → IfOk result (IsJudged
        (⟦<Article as Wire>⟧.words.format ⟦<Settings as Config>⟧.setting) ⟦<Settings as Config>⟧.bound
        ⟦<Article as Wire>⟧.words.decodes_to LONGEST_WORD (known_bytes (R.remaining store.old))) }
{
    show_frames::<Article, Settings, R, W>(alloc, out, sheet, store, settings(), LONGEST_WORD)
}

/// `print_store` for values of any type, in a store that takes encodings of at most `most` bytes.
fn show_frames<T: Decode<()> + Printed + Drop, C: Config, R: Read, W: Write>(
    alloc: Global,
    out: &mut W,
    sheet: Sheet<'_>,
    store: &mut R,
    config: C,
    most: u32,
) -> Result<bool, ShowError>
    ensures { TellsBytes (R.remaining store.old) → IfOk result (IsJudged (T.words.format C.setting) C.bound
        T.words.decodes_to most (known_bytes (R.remaining store.old))) }
{
    let mut buffer = Vec::new(alloc);
    let mut seen = Seen::nothing();
    for _ in 0..u64::MAX {
        match next_from_stream::<T, C, R>(alloc, store, &mut buffer, config, most)? {
            Next::Record { size, content } => {
                print_frame(out, sheet, &seen, size, &content)?;
                seen.count(size, &content);
            }
            Next::End => return end(out, sheet, &seen, Ending::Whole),
            Next::Torn => {
                let offset = seen.offset;
                return end(out, sheet, &seen, Ending::Torn { offset });
            }
            Next::TooLong(length) => {
                let offset = seen.offset;
                return end(out, sheet, &seen, Ending::TooLong { offset, length });
            }
        }
    }
    Err(ShowError::Output(io::Error::from(ErrorKind::FileTooLarge)))
}

impl Seen {
    /// No frame.
    fn nothing() -> Seen
        ensures { result.others ≡ 0 }
    {
        Seen {
            offset: 0,
            articles: 0,
            others: 0,
            run: Run::none_at(0),
        }
    }

    /// Counts a frame that follows.
    fn count<T>(&mut self, size: usize, content: &Content<T>)
        ensures { (self.new.others ≡ 0) ↔ ((self.old.others ≡ 0) × IsValue content.now) }
    {
        let offset = self.offset.saturating_add(size);
        match content {
            Content::Value(_) => {
                self.articles = self.articles.saturating_add(1);
                self.run = Run::none_at(offset);
            }
            Content::Damaged => {
                self.others = self.others.saturating_add(1);
                self.run = self.run.longer_by(size);
            }
            Content::Undecodable(_) | Content::Longer { .. } => {
                self.others = self.others.saturating_add(1);
                self.run = Run::none_at(offset);
            }
        }
        self.offset = offset;
    }
}

impl Run {
    /// None, at this offset.
    fn none_at(offset: usize) -> Run {
        Run {
            offset,
            bytes: 0,
            frames: 0,
        }
    }

    /// One more, of `size` bytes.
    fn longer_by(self, size: usize) -> Run {
        Run {
            offset: self.offset,
            bytes: self.bytes.saturating_add(size),
            frames: self.frames.saturating_add(1),
        }
    }
}

/// Prints a frame after those that were seen, unless it is damaged: those before it that are, then what it holds.
fn print_frame<T: Printed, W: Write>(
    out: &mut W,
    sheet: Sheet<'_>,
    seen: &Seen,
    size: usize,
    content: &Content<T>,
) -> io::Result<()> {
    if matches!(content, Content::Damaged) {
        return Ok(());
    }
    print_run(out, sheet, seen.run)?;
    if sheet.lists || !matches!(content, Content::Value(_)) {
        print_place(out, sheet, seen.offset, size)?;
        print_content(out, content)?;
    }
    Ok(())
}

/// Prints damaged frames that follow one another, if there are any.
fn print_run<W: Write>(out: &mut W, sheet: Sheet<'_>, run: Run) -> io::Result<()> {
    if run.frames == 0 {
        return Ok(());
    }
    print_place(out, sheet, run.offset, run.bytes)?;
    if run.frames == 1 {
        return writeln!(out, "damaged");
    }
    writeln!(out, "{} damaged frames", run.frames)
}

/// Prints where something stands: the name of the file, unless its articles are listed, the offset, and the number of
/// bytes.
fn print_place<W: Write>(
    out: &mut W,
    sheet: Sheet<'_>,
    offset: usize,
    size: usize,
) -> io::Result<()> {
    if !sheet.lists {
        write!(out, "{}: ", sheet.file)?;
    }
    write!(out, "{offset}: {size} bytes: ")
}

/// Prints what a frame holds.
fn print_content<T: Printed, W: Write>(out: &mut W, content: &Content<T>) -> io::Result<()> {
    match content {
        Content::Value(value) => value.print(out),
        Content::Damaged => writeln!(out, "damaged"),
        Content::Undecodable(why) => writeln!(out, "no article ({why})"),
        Content::Longer { taken } => writeln!(
            out,
            "more than an article, which ends after {taken} bytes"
        ),
    }
}

impl Printed for Article {
    fn print<W: Write>(&self, out: &mut W) -> io::Result<()> {
        write!(out, "{:?} at {}", self.name, self.price)?;
        if let Some(weight) = self.weight {
            write!(out, ", weight {weight}")?;
        }
        for (name, text) in &self.notes {
            write!(out, ", {name:?} = {text:?}")?;
        }
        writeln!(out)
    }
}

/// Prints the damaged frames at the end of a store, and how it ends. Returns whether it is whole.
fn end<W: Write>(
    out: &mut W,
    sheet: Sheet<'_>,
    seen: &Seen,
    ending: Ending,
) -> Result<bool, ShowError>
    ensures { IfOk result (λ whole. IsTrue whole ↔ ((seen.now.others ≡ 0) × (ending ≡ Ending.Whole))) }
{
    print_run(out, sheet, seen.run)?;
    print_end(out, sheet.file, seen, ending)?;
    Ok(seen.others == 0 && ending == Ending::Whole)
}

/// Prints how a store ends.
fn print_end<W: Write>(out: &mut W, file: &str, seen: &Seen, ending: Ending) -> io::Result<()> {
    let Seen {
        offset: bytes,
        articles,
        others,
        run: _,
    } = seen;
    match ending {
        Ending::Whole if *others == 0 => writeln!(
            out,
            "{file}: whole, records: {articles}, bytes: {bytes}"
        ),
        Ending::Whole => writeln!(
            out,
            "{file}: damaged, records: {articles}, damaged frames: {others}, bytes: {bytes}"
        ),
        Ending::Torn { offset } => writeln!(
            out,
            "{file}: truncated at byte {offset}, records before it: {articles}, damaged frames: {others}"
        ),
        Ending::TooLong { offset, length } => writeln!(
            out,
            "{file}: no frame at byte {offset}, of a length of {length}, records before it: {articles}, \
                damaged frames: {others}"
        ),
    }
}
