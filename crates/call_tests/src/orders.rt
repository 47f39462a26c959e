//! In which order a server reads, writes and flushes.

use crate::answers::{MOST, joined, settings};
use crate::zeros::Zeros;
use calls::serving::serve;
use std::alloc::Global;
use std::cell::Cell;
use std::io;
use std::io::{BufReader, Read, Write};

/// The requests of the rows end after 9, 17, 34, 44, 53, 62 and 71 bytes, and their answers after 12, 24, 35, 46, 66,
/// 76 and 86. The input gives a request a call; a request and a byte, the length, or all but a byte of the next one;
/// two requests and a part of the third; a part of the first one alone; and all at once. Beside the end of each call is
/// the number of bytes of answers that are flushed before the next one.
static WAITS: [&[(usize, usize)]; 7] = [
    &[
        (9, 12),
        (17, 24),
        (34, 35),
        (44, 46),
        (53, 66),
        (62, 76),
        (71, 86),
    ],
    &[
        (10, 12),
        (18, 24),
        (35, 35),
        (45, 46),
        (54, 66),
        (63, 76),
        (71, 86),
    ],
    &[
        (13, 12),
        (21, 24),
        (38, 35),
        (48, 46),
        (57, 66),
        (66, 76),
        (71, 86),
    ],
    &[
        (16, 12),
        (33, 24),
        (43, 35),
        (52, 46),
        (61, 66),
        (70, 76),
        (71, 86),
    ],
    &[(20, 24), (60, 66), (71, 86)],
    &[(4, 0), (8, 0), (9, 12), (71, 86)],
    &[(71, 86)],
];

/// What went over the streams of a server.
#[derive(Drop)]
struct Turns {
    /// The number of bytes that were read.
    read: Cell<usize>,
    /// The number of bytes of answers that were written.
    written: Cell<usize>,
    /// The number of those that were flushed.
    flushed: Cell<usize>,
    /// The number of flushes.
    flushes: Cell<usize>,
    /// How often a read came while other answers were flushed than those that belong to its place.
    early: Cell<usize>,
}

/// Gives the bytes up to the next place a call.
#[derive(Drop)]
struct Asker<'s> {
    turns: &'s Turns,
    bytes: &'s [u8],
    waits: &'s [(usize, usize)],
}

impl Asker<'_> {
    /// The number of bytes of answers that have to be flushed after so many bytes of requests, and how many bytes come
    /// next.
    fn next(&self, read: usize) -> (usize, usize) {
        let mut answered = 0;
        for (place, answers) in self.waits {
            if *place > read {
                return (answered, *place - read);
            }
            answered = *answers;
        }
        (answered, 0)
    }
}

impl Read for Asker<'_> {
    fn read(&mut self, bytes: &mut [u8]) -> io::Result<usize> {
        let read = self.turns.read.get();
        let (answered, size) = self.next(read);
        if self.turns.flushed.get() != answered {
            let early = self.turns.early.get();
            self.turns.early.set(early.saturating_add(1));
        }
        let most = bytes.len().min(size);
        let taken = self.bytes.read(&mut bytes[..most])?;
        self.turns.read.set(read.saturating_add(taken));
        Ok(taken)
    }
}

/// Counts what is written and flushed.
#[derive(Drop)]
struct Answers<'s> {
    turns: &'s Turns,
}

impl Write for Answers<'_> {
    fn write(&mut self, bytes: &[u8]) -> io::Result<usize> {
        let written = self.turns.written.get();
        self.turns.written.set(written.saturating_add(bytes.len()));
        Ok(bytes.len())
    }

    fn flush(&mut self) -> io::Result<()> {
        self.turns.flushed.set(self.turns.written.get());
        let flushes = self.turns.flushes.get();
        self.turns.flushes.set(flushes.saturating_add(1));
        Ok(())
    }
}

/// What went over the streams of a server whose input comes so.
fn turns_of(alloc: Global, waits: &[(usize, usize)]) -> anyhow::Result<Turns> {
    let turns = Turns {
        read: Cell::new(0),
        written: Cell::new(0),
        flushed: Cell::new(0),
        flushes: Cell::new(0),
        early: Cell::new(0),
    };
    let requests = joined(alloc, false)?;
    let asker = Asker {
        turns: &turns,
        bytes: &requests,
        waits,
    };
    let mut input = BufReader::with_capacity(alloc, 128, asker)?;
    let _ended = serve(
        alloc,
        &mut Zeros { alloc, count: 0 },
        &mut input,
        &mut Answers { turns: &turns },
        &mut Vec::new(alloc),
        settings(),
        MOST,
    );
    drop(input);
    Ok(turns)
}

/// A server that waits for input has flushed all answers to the frames before, also where it has a part of the next
/// frame. It flushes no more often than it waits.
#[test]
fn flushes_answers_before_it_waits(rt: HostRuntime) -> anyhow::Result<()> {
    for (row, waits) in WAITS.iter().enumerate() {
        let turns = turns_of(rt.alloc(), waits)?;
        let answered = (turns.read.get(), turns.written.get(), turns.flushed.get());
        assert!(rt;
            answered == (71, 86, 86) && turns.early.get() == 0,
            "row {row}"
        );
        assert!(rt; turns.flushes.get() <= waits.len(), "row {row}");
    }
    Ok(())
}
