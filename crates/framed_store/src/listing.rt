//! Listing a store of frames, up to its end.
ghost use Rattle.std.specs.Prelude.{◌≡◌, ◌++◌, ℕ, List, length, IfOk};
ghost use Rattle.framed_store.specs.Told.{Lists};
ghost use Rattle.framed_store.specs.Pieces.{Piece, ArePieces, bytes_of_all, IsTorn};
ghost use Rattle.framed_store.specs.Pieces.{TellsFirst, TellsAll, TellsBeforeTorn, TellsFront};

use crate::ending::Ending;
use crate::records::{Content, Next, next_record};
use bincode::config::Config;
use bincode::de::Decode;
use bincode::laws::Exact;
use std::alloc::{AllocError, Global};

/// A frame of a store.
#[derive(Drop)]
pub struct Record<T> {
    /// The number of bytes of the store before it.
    pub offset: usize,
    /// The number of its bytes.
    pub size: usize,
    /// What it holds.
    pub content: Content<T>,
}

/// The contents of a store.
#[derive(Drop)]
pub struct Listing<T> {
    /// The frames, in order.
    pub records: Vec<Record<T>>,
    /// Why there are no more.
    pub ending: Ending,
}

/// Lists the frames of a store that takes encodings of at most `most` bytes, and goes on after those that are damaged
/// or hold no value. Fails if an allocation is refused.
pub fn list<T: Decode<()> + Exact, C: Config>(
    alloc: Global,
    store: &[u8],
    config: C,
    most: u32,
) -> Result<Listing<T>, AllocError>
    // The frames in the store are told in order, and the ending tells why there are no more.
    ensures frames { IfOk result (λ l.
        Lists (T.words.format C.setting) C.bound T.words.decodes_to most store.now l.records.items l.ending) }
    // Frames that were appended (`appended-pieces` of specs/PieceLaws), some of them damaged since (`burst-damages` of
    // specs/DamageLaws), are told first, whatever follows them;
    ensures first { (pieces : List (Piece T)) (rest : List ℕ) → ArePieces T.words C.setting C.bound most pieces
        → store.now ≡ bytes_of_all pieces ++ rest → IfOk result (λ l. TellsFirst T.eq pieces l.records.items) }
    // if nothing does, that is all;
    ensures all { (pieces : List (Piece T)) → ArePieces T.words C.setting C.bound most pieces
        → store.now ≡ bytes_of_all pieces → IfOk result (λ l. TellsAll T.eq pieces l.records.items l.ending) }
    // and if a frame follows that was cut, the ending has its offset.
    ensures torn { (pieces : List (Piece T)) (front : List ℕ) → ArePieces T.words C.setting C.bound most pieces
        → IsTorn most front → store.now ≡ bytes_of_all pieces ++ front
        → IfOk result (λ l. TellsBeforeTorn T.eq pieces l.records.items l.ending) }
    // Of frames that were cut anywhere all that stand whole are told, and the ending has the offset of the next.
    ensures cut { (pieces : List (Piece T)) (lost : List ℕ) → ArePieces T.words C.setting C.bound most pieces
        → bytes_of_all pieces ≡ store.now ++ lost
        → IfOk result (λ l. TellsFront T.eq pieces (length store.now) l.records.items l.ending) }
{
    T::tell_exact();
    list_frames(alloc, store, config, most)
}

/// `list`, without what it promises of appended values.
fn list_frames<T: Decode<()>, C: Config>(
    alloc: Global,
    store: &[u8],
    config: C,
    most: u32,
) -> Result<Listing<T>, AllocError>
    ensures { IfOk result (λ l.
        Lists (T.words.format C.setting) C.bound T.words.decodes_to most store.now l.records.items l.ending) }
{
    let mut records = Vec::new(alloc);
    let mut offset = 0;
    while offset < store.len() {
        match next_record(alloc, &store[offset..], config, most)? {
            Next::End => break,
            Next::Torn => {
                return Ok(Listing {
                    records,
                    ending: Ending::Torn { offset },
                });
            }
            Next::TooLong(length) => {
                return Ok(Listing {
                    records,
                    ending: Ending::TooLong { offset, length },
                });
            }
            Next::Record { size, content } => {
                records.push(Record {
                    offset,
                    size,
                    content,
                })?;
                offset += size;
            }
        }
    }
    Ok(Listing {
        records,
        ending: Ending::Whole,
    })
}
