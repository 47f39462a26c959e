//! Logs of payments from a stream that breaks.

use crate::logs::{LOG, stage_of};
use bincode::config;
use replay::replay::{Failure, ReplayError, Replayed, replay};
use std::alloc::Global;
use std::io::ErrorKind;
use test_helpers::streams::Breaking;
use tills::till::{Full, Till};

/// What comes of a log whose stream gives this many bytes, one in each call, and then breaks.
fn replay_breaking(
    alloc: Global,
    till: &mut Till,
    calls: usize,
) -> Result<Replayed, ReplayError<Full>> {
    let mut buffer = Vec::new(alloc);
    let mut log = Breaking { bytes: &LOG, calls };
    replay(alloc, till, &mut log, &mut buffer, config::standard(), 3)
}

/// Whether the error of the stream is told after the payments that were given whole, and these alone were applied.
fn tells_break(alloc: Global, calls: usize) -> bool {
    let mut till = Till {
        held: 0,
        most: 1000,
    };
    match &replay_breaking(alloc, &mut till, calls) {
        Ok(_) => false,
        Err(error) => {
            (till.held, error.commands, error.offset) == stage_of(calls)
                && matches!(&error.why, Failure::Read(why) if why.kind() == ErrorKind::BrokenPipe)
        }
    }
}

/// Whether the log is whole where the stream tells its end before it breaks.
fn is_whole(alloc: Global, calls: usize) -> bool {
    let mut till = Till {
        held: 0,
        most: 1000,
    };
    let end = Replayed {
        commands: 3,
        length: 29,
        is_torn: false,
    };
    let replayed = replay_breaking(alloc, &mut till, calls);
    till.held == 314 && matches!(replayed, Ok(found) if found == end)
}

/// A break after the last payment is told too, since another could follow.
#[test]
fn tells_a_stream_that_breaks(rt: HostRuntime) {
    for calls in 0..=LOG.len() {
        assert!(rt; tells_break(rt.alloc(), calls), "{calls}");
    }
    assert!(rt; is_whole(rt.alloc(), LOG.len() + 1));
}
