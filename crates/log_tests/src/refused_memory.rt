//! What logs and snapshots leave where an allocation fails: each test passes whichever one it is.

use crate::logs::LOG;
use crate::snapshots_of_tills::{SECOND, TILL};
use bincode::config;
use bincode::error::{DecodeError, EncodeError};
use replay::replay::{Failure, replay};
use snapshots::saving::{RestoreError, restore_machine, save_machine};
use snapshots::snapshot::{LoadError, SaveError};
use tills::till::Till;

/// The sum of the payments after each number of them, and the offset there.
const STAGES: [(u32, usize); 4] = [(0, 0), (7, 9), (307, 20), (314, 29)];

/// A till that stops has the payments before the place.
#[test]
fn replays(rt: HostRuntime) {
    let alloc = rt.alloc();
    let mut till = Till {
        held: 0,
        most: 1000,
    };
    let mut buffer = Vec::new(alloc);
    let mut log = LOG.as_slice();
    let replayed = replay(
        alloc,
        &mut till,
        &mut log,
        &mut buffer,
        config::standard(),
        3,
    );
    match &replayed {
        Ok(end) => assert!(rt; till.held == 314 && end.commands == 3 && end.length == 29),
        Err(error) => {
            let stage = STAGES.get(error.commands as usize).copied();
            assert!(rt; stage == Some((till.held, error.offset)));
            assert!(rt; matches!(error.why, Failure::Memory(_)));
        }
    }
}

#[test]
fn saves(rt: HostRuntime) {
    match &save_machine(rt.alloc(), &TILL, config::standard()) {
        Ok(bytes) => assert!(rt; bytes.as_slice() == SECOND.as_slice()),
        Err(error) => assert!(rt;
            matches!(
                error,
                SaveError::Encode(EncodeError::Memory)
                    | SaveError::ReadBack(DecodeError::Memory)
                    | SaveError::Memory(_)
            )
        ),
    }
}

#[test]
fn restores(rt: HostRuntime) {
    match restore_machine(rt.alloc(), &SECOND, config::standard()) {
        Ok(till) => assert!(rt; till == TILL),
        Err(error) => assert!(rt;
            matches!(
                error,
                RestoreError::Load(LoadError::Memory(_)) | RestoreError::Memory(_)
            )
        ),
    }
}
