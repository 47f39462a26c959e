//! Appending articles to a store of frames.
ghost use Rattle.std.specs.Prelude.{IfOk, IfErr};
ghost use Rattle.bincode_io.specs.Stream.{TellsBytes, known_bytes};
ghost use Rattle.framed_store.specs.Appended.{Added, Leaves};
ghost use Rattle.framed_store.specs.Surveys.{StepsOver};
ghost use Rattle.stock_files.specs.Stores.{AddsAll, AddsFront};

use crate::article::Article;
use crate::input::{LineError, Lines, Supply};
use crate::limit::{LONGEST_WORD, Settings, settings};
use crate::status::{DAMAGED, FAILED};
use bincode::Wire;
use bincode::config::Config;
use bincode::de::Decode;
use bincode::enc::Encode;
use bincode::laws::Exact;
use framed_store::appending::{AppendError, append};
use framed_store::ending::Ending;
use framed_store::stepping::step_over;
use std::alloc::{AllocError, Global};
use std::io;
use std::io::{BufRead, Read, Write};
use thiserror::Error;

/// Why an article was not added.
#[derive(Debug, Drop, Error)]
pub enum AddError {
    /// The store ends within a frame. Nothing was written.
    #[error("truncated at byte {offset}: nothing was added. `records repair` mends it, or says why not")]
    Torn {
        /// The number of bytes before that frame.
        offset: usize,
    },
    /// A length in the store is above what it takes, so it is not known where its last frame ends. Nothing was written.
    #[error("no frame at byte {offset}, of a length of {length}: nothing was added. \
        `records repair` mends it, or says why not")]
    TooLong {
        /// The number of bytes before it.
        offset: usize,
        /// The length.
        length: u32,
    },
    /// The store could not be read. Nothing was written.
    #[error("{0}")]
    Store(io::Error),
    /// Appending failed.
    #[error("{0}")]
    Append(#[from] AppendError),
    /// A line is no article, or the input failed.
    #[error("{0}")]
    Line(#[from] LineError),
    /// An allocation was refused.
    #[error(transparent)]
    Memory(#[from(alloc)] AllocError),
}

impl AddError {
    /// The status of a run that ends so.
    pub fn status(&self) -> u8 {
        match self {
            AddError::Torn { .. } | AddError::TooLong { .. } => DAMAGED,
            _ => FAILED,
        }
    }
}

/// The offset of the next frame of a store. Steps over its frames by their lengths, and does not look into them.
pub fn next_offset<R: Read>(store: &mut R) -> Result<usize, AddError>
    // A store that takes one more ends after a frame.
    ensures { TellsBytes (R.remaining store.old) → IfOk result (λ offset.
        StepsOver LONGEST_WORD (known_bytes (R.remaining store.old)) offset Ending.Whole) }
{
    match step_over(store, LONGEST_WORD) {
        Ok((offset, Ending::Whole)) => Ok(offset),
        Ok((_, Ending::Torn { offset })) => Err(AddError::Torn { offset }),
        Ok((_, Ending::TooLong { offset, length })) => Err(AddError::TooLong { offset, length }),
        Err(e) => Err(AddError::Store(e)),
    }
}

/// Appends an article to a store that ends after a frame, and returns the number of bytes of its frame.
pub fn add_one<W: Write>(
    alloc: Global,
    store: &mut W,
    article: &Article,
) -> Result<usize, AppendError>
    // On `Ok(n)` the frame of an encoding of the article, of `n` bytes, follows what the store held.
    ensures added { IfOk result (λ n. Added ⟦<Article as Wire>⟧.words ⟦<Settings as Config>⟧.setting
        ⟦<Settings as Config>⟧.bound LONGEST_WORD article.now n (W.contents store.old) (W.contents store.new)) }
    // After an error the store holds what it held, and at most a prefix of the frame after it.
    ensures left { IfErr result (Leaves ⟦<Article as Wire>⟧.words ⟦<Settings as Config>⟧.setting
        ⟦<Settings as Config>⟧.bound LONGEST_WORD article.now W.contents store.old store.new) }
{
    append(alloc, store, article, settings(), LONGEST_WORD)
}

/// Appends the articles of an input, one a line, to a store that ends after a frame, and returns how many they are.
/// Stops at the first line that is no article: those before it were appended.
pub fn add_lines<R: BufRead, W: Write>(
    alloc: Global,
    input: &mut R,
    store: &mut W,
) -> Result<usize, AddError>
    // On `Ok(n)` the frames of `n` articles follow what the store held.
    ensures added { IfOk result (λ n. AddsAll ⟦<Article as Wire>⟧.words ⟦<Settings as Config>⟧.setting
        ⟦<Settings as Config>⟧.bound LONGEST_WORD n (W.contents store.old) (W.contents store.new)) }
    // After an error a prefix of such frames follows it.
    ensures left { IfErr result (λ _. AddsFront ⟦<Article as Wire>⟧.words ⟦<Settings as Config>⟧.setting
        ⟦<Settings as Config>⟧.bound LONGEST_WORD (W.contents store.old) (W.contents store.new)) }
{
    append_each::<Article, Settings, _, W>(
        alloc,
        &mut Lines::new(alloc, input),
        store,
        settings(),
        LONGEST_WORD,
    )
}

/// Appends what a supply gives to a store that takes encodings of at most `most` bytes, and returns how many they are.
fn append_each<T: Encode + Decode<()> + Exact + Drop, C: Config, S: Supply<T>, W: Write>(
    alloc: Global,
    supply: &mut S,
    store: &mut W,
    config: C,
    most: u32,
) -> Result<usize, AddError>
    ensures added { IfOk result (λ n. AddsAll T.words C.setting C.bound most n (W.contents store.old)
        (W.contents store.new)) }
    ensures left { IfErr result (λ _. AddsFront T.words C.setting C.bound most (W.contents store.old)
        (W.contents store.new)) }
{
    for added in 0..usize::MAX {
        let Some(value) = supply.next()? else {
            return Ok(added);
        };
        append(alloc, store, &value, config, most)?;
    }
    Err(AddError::Line(LineError::TooMany))
}
