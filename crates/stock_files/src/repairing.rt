//! What is done to a store that is repaired, and what is printed of it.
ghost use Rattle.std.specs.Prelude.{ℕ, List, ◌≡◌, ◌↔◌, ◌<◌, ◌≤◌, ◌-◌, drop, length, min, IfNone, IfSome, IsTrue};
ghost use Rattle.std.specs.Prelude.{OnOk};
ghost use Rattle.framed_store.specs.Searches.{StandsAt};
ghost use Rattle.stock_files.specs.Repairs.{IsPlan, BeginsWithLonger, EndsAfter, HasNoFrame, IsPassed, GoesOn, IsFrame};
ghost use Rattle.stock_files.specs.Repairs.{EndsWithFrame, LeavesWhole, Salvages, of_file};

use crate::limit::LONGEST_WORD;
use framed_store::ending::Ending;
use framed_store::searching::find_frame;
use framed_store::surveying::Survey;
use frames::{Frame, OVERHEAD, read_frame};
use std::io;
use std::io::Write;

/// How a store is repaired.
#[derive(Clone, Copy, Debug, PartialEq)]
pub struct Repair {
    /// Its damaged frames are dropped, too, and whole frames after bytes that are no frame are kept.
    pub drops_damaged: bool,
    /// It is cut off after its last frame even where a whole frame stands in what is lost.
    pub cuts: bool,
}

/// What is done to a store.
#[derive(Clone, Copy, Debug, PartialEq)]
pub enum Plan {
    /// Nothing: it ends after a frame.
    Leave,
    /// It is cut off after its last frame.
    Cut,
    /// Its whole frames are written to a new file, which takes its place.
    Rewrite,
    /// Nothing: a cut would lose a whole frame, or its end.
    Refuse {
        /// The number of bytes before that frame, from the first byte on that is looked at.
        after: usize,
    },
}

/// How many bytes before a cut a whole frame may begin that ends after it.
const REACH: usize = LONGEST_WORD as usize + OVERHEAD - 1;

/// The first byte that is looked at of a store before it is cut off after `length` bytes: a whole frame that ends later
/// begins there or after it.
pub fn start_of_end(length: usize) -> usize
    ensures { result ≡ length - min length REACH }
{
    length - length.min(REACH)
}

/// What is done to a store of these frames, which has these bytes from `start_of_end` of their length on. A damaged
/// length may lead into the middle of a whole frame, so those before the cut are looked at, too.
pub fn plan_for(found: &Survey, end: &[u8], repair: Repair) -> Plan
    // It is cut off where no whole frame ends after the cut, or where that is asked for.
    ensures end { IsPlan LONGEST_WORD found.now end.now (min found.now.length REACH) repair result }
    // Where these are the last bytes of a file, from `start_of_end` on, this holds of the whole file: none ends after
    // the cut that begins before these bytes.
    ensures file { (bytes : List ℕ) → end.now ≡ drop (found.now.length - min found.now.length REACH) bytes
        → IsPlan LONGEST_WORD found.now bytes found.now.length repair
        (of_file (found.now.length - min found.now.length REACH) result) }
{
    plan_for_end(found, end, repair)
}

/// What is done to a store of these frames, as `plan_for` tells it of its last bytes.
fn plan_for_end(found: &Survey, end: &[u8], repair: Repair) -> Plan
    ensures { IsPlan LONGEST_WORD found.now end.now (min found.now.length REACH) repair result }
{
    let next = frame_past(end, found.length.min(REACH));
    if repair.drops_damaged && (found.damaged > 0 || next.is_some()) {
        return Plan::Rewrite;
    }
    if found.ending == Ending::Whole {
        return Plan::Leave;
    }
    match next {
        Some(after) if !repair.cuts => Plan::Refuse { after },
        _ => Plan::Cut,
    }
}

/// Where the first whole frame begins that ends after the first `kept` of these bytes.
fn frame_past(bytes: &[u8], kept: usize) -> Option<usize>
    ensures found { IfSome result (EndsAfter LONGEST_WORD bytes.now kept) }
    ensures first { IfSome result (λ n. (k : ℕ) → k < n → ¬ EndsAfter LONGEST_WORD bytes.now kept k) }
    ensures none { IfNone result ((k : ℕ) → ¬ EndsAfter LONGEST_WORD bytes.now kept k) }
{
    for offset in 0..bytes.len() {
        if begins_with_longer(&bytes[offset..], kept.saturating_sub(offset)) {
            return Some(offset);
        }
    }
    None
}

/// Whether bytes begin with a whole frame of more than `count` bytes.
fn begins_with_longer(bytes: &[u8], count: usize) -> bool
    ensures { IsTrue result ↔ BeginsWithLonger LONGEST_WORD bytes.now count }
{
    match read_frame(bytes, LONGEST_WORD) {
        Frame::Whole(_, size) => size > count,
        Frame::End => false,
        Frame::Torn => false,
        Frame::TooLong(_) => false,
        Frame::Damaged(_) => false,
    }
}

/// Writes the whole frames of a store, wherever they stand, in order. What is passed over is a damaged frame, if its
/// length leads to a whole one or to the end of the store, and not over a whole one that ends there; else all bytes up
/// to where the next whole one stands.
pub fn salvage<W: Write>(store: &[u8], out: &mut W) -> io::Result<()>
    ensures { OnOk result (Salvages LONGEST_WORD store.now (W.contents out.old) (W.contents out.new)) }
{
    let mut rest = store;
    'frames: loop {
        match read_frame(rest, LONGEST_WORD) {
            Frame::End => return Ok(()),
            Frame::Whole(_, size) => {
                let (frame, others) = rest.split_at(size);
                out.write_all(frame)?;
                rest = others;
            }
            Frame::Damaged(_) | Frame::Torn | Frame::TooLong(_) => match bytes_to_pass(rest) {
                Some(size) => {
                    let (_, others) = rest.split_at(size);
                    rest = others;
                }
                None => return Ok(()),
            },
        }
    }
}

/// How many bytes of those are passed over that begin with no whole frame; `None` if no whole frame follows.
fn bytes_to_pass(bytes: &[u8]) -> Option<usize>
    requires { ¬ StandsAt LONGEST_WORD bytes.now 0 }
    ensures some { IfSome result (λ n. (0 < n) × (n ≤ length bytes.now) × IsPassed LONGEST_WORD bytes.now n) }
    ensures none { IfNone result (HasNoFrame LONGEST_WORD bytes.now) }
{
    if let Frame::Damaged(size) = read_frame(bytes, LONGEST_WORD) {
        let (damaged, others) = bytes.split_at(size);
        if goes_on(others) && !ends_with_frame(damaged) {
            return Some(size);
        }
    }
    find_frame(bytes, LONGEST_WORD)
}

/// Whether bytes are none, or begin with a whole frame.
fn goes_on(bytes: &[u8]) -> bool
    ensures { IsTrue result → GoesOn LONGEST_WORD bytes.now }
{
    matches!(
        read_frame(bytes, LONGEST_WORD),
        Frame::End | Frame::Whole(_, _)
    )
}

/// Whether a whole frame stands at the end of these bytes.
fn ends_with_frame(bytes: &[u8]) -> bool
    ensures { IsTrue result ↔ EndsWithFrame LONGEST_WORD bytes.now }
{
    for offset in 0..bytes.len() {
        if is_frame(&bytes[offset..]) {
            return true;
        }
    }
    false
}

/// Whether bytes are a whole frame and nothing more.
fn is_frame(bytes: &[u8]) -> bool
    ensures { IsTrue result ↔ IsFrame LONGEST_WORD bytes.now }
{
    match read_frame(bytes, LONGEST_WORD) {
        Frame::Whole(_, size) => size == bytes.len(),
        Frame::End => false,
        Frame::Torn => false,
        Frame::TooLong(_) => false,
        Frame::Damaged(_) => false,
    }
}

/// Whether a store of these frames is whole once this was done.
pub fn is_whole_after(found: &Survey, plan: Plan) -> bool
    ensures { IsTrue result ↔ LeavesWhole found.now plan }
{
    match plan {
        Plan::Leave | Plan::Cut => found.damaged == 0,
        Plan::Rewrite => true,
        Plan::Refuse { .. } => false,
    }
}

/// Prints what is done to a file of this name, which has `bytes` bytes.
pub fn print_plan<W: Write>(
    out: &mut W,
    file: &str,
    bytes: usize,
    found: &Survey,
    plan: Plan,
) -> io::Result<()> {
    let length = found.length;
    let whole = found.whole;
    match plan {
        Plan::Leave => writeln!(
            out,
            "{file}: nothing to cut off, whole frames: {whole}, bytes: {length}"
        )?,
        Plan::Cut => {
            let lost = bytes.saturating_sub(length);
            writeln!(
                out,
                "{file}: cut off at byte {length}, bytes lost: {lost}, whole frames: {whole}"
            )?;
        }
        Plan::Rewrite => return Ok(()),
        Plan::Refuse { after } => {
            let next = start_of_end(length).saturating_add(after);
            writeln!(
                out,
                "{file}: no whole frame at byte {length}, and one at byte {next}: nothing was cut off. \
                    `--drop-damaged` keeps the whole frames, `--cut` cuts at byte {length}"
            )?;
        }
    }
    print_damaged(out, file, found)
}

/// Prints how many damaged frames are left in a file of this name.
fn print_damaged<W: Write>(out: &mut W, file: &str, found: &Survey) -> io::Result<()> {
    let damaged = found.damaged;
    if damaged == 0 {
        return Ok(());
    }
    writeln!(
        out,
        "{file}: damaged frames left: {damaged}. `--drop-damaged` drops them"
    )
}

/// Prints what was kept of a file of this name, which had `bytes` bytes, in the new one, which has these frames.
pub fn print_kept<W: Write>(
    out: &mut W,
    file: &str,
    bytes: usize,
    kept: &Survey,
) -> io::Result<()> {
    let Survey { whole, length, .. } = kept;
    let lost = bytes.saturating_sub(*length);
    writeln!(
        out,
        "{file}: whole frames kept: {whole}, bytes: {length}, bytes dropped: {lost}"
    )
}
