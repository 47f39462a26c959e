//! Snapshots of a till of 307 after two payments: saved, restored, of each version, damaged, cut and made longer. The
//! digests are Python's.

use bincode::config;
use bincode::error::DecodeError;
use snapshots::numbered::Numbered;
use snapshots::saving::{RestoreError, restore_machine, save_machine};
use snapshots::snapshot::{HEADER, LoadError, load, save};
use std::alloc::{AllocError, Global};
use tills::till::Till;

/// The snapshot in the second version.
pub static SECOND: [u8; 47] = [
    190, 61, 15, 186, 132, 0, 122, 200, 188, 215, 96, 199, 233, 213, 17, 166, 240, 16, 24, 225, 60,
    86, 82, 13, 100, 229, 177, 201, 218, 213, 236, 154, 2, 0, 0, 0, 0, 0, 0, 0, 1, 251, 51, 1, 251,
    232, 3,
];

/// The snapshot in the first version.
static FIRST: [u8; 44] = [
    11, 60, 55, 60, 158, 171, 195, 222, 17, 176, 80, 17, 160, 25, 189, 150, 152, 99, 213, 78, 171,
    60, 21, 231, 182, 154, 71, 105, 23, 203, 224, 148, 2, 0, 0, 0, 0, 0, 0, 0, 0, 251, 51, 1,
];

/// One of a version that is not known, with a digest that fits.
static THIRD: [u8; 44] = [
    222, 60, 231, 93, 29, 210, 22, 208, 178, 173, 211, 62, 25, 3, 134, 235, 133, 72, 16, 252, 150,
    86, 137, 178, 254, 67, 55, 52, 121, 34, 9, 237, 2, 0, 0, 0, 0, 0, 0, 0, 2, 251, 51, 1,
];

/// The first version and a byte after it, with a digest that fits.
static LONGER: [u8; 45] = [
    38, 43, 16, 215, 23, 206, 134, 0, 80, 59, 64, 219, 113, 231, 194, 203, 81, 69, 28, 41, 136,
    139, 191, 110, 141, 237, 233, 76, 45, 213, 246, 224, 2, 0, 0, 0, 0, 0, 0, 0, 0, 251, 51, 1, 0,
];

/// The till of these snapshots.
pub const TILL: Numbered<Till> = Numbered {
    next: 2,
    machine: Till {
        held: 307,
        most: 1000,
    },
};

/// The till of a snapshot.
fn restored(alloc: Global, bytes: &[u8]) -> Result<Numbered<Till>, RestoreError> {
    restore_machine(alloc, bytes, config::standard())
}

/// Whether the till is saved as these bytes.
fn is_saved_as(alloc: Global, wanted: &[u8]) -> bool {
    match &save_machine(alloc, &TILL, config::standard()) {
        Ok(bytes) => bytes.as_slice() == wanted,
        Err(_) => false,
    }
}

#[test]
fn saves_the_newest_version(rt: HostRuntime) {
    assert!(rt; is_saved_as(rt.alloc(), &SECOND));
}

/// Whether a snapshot is one of the till.
fn is_till(alloc: Global, bytes: &[u8]) -> bool {
    matches!(restored(alloc, bytes), Ok(till) if till == TILL)
}

#[test]
fn restores_each_version(rt: HostRuntime) {
    assert!(rt; is_till(rt.alloc(), &SECOND) && is_till(rt.alloc(), &FIRST));
}

/// Whether an error names the versions of a till, and says that this one is none.
fn is_unknown(error: &RestoreError, version: u32) -> bool {
    match error {
        RestoreError::Load(
            LoadError::Undecodable(
                DecodeError::UnexpectedVariant {
                    type_name,
                    found,
                    ..
                },
            ),
        ) => *found == version && type_name.as_str() == "Saved",
        _ => false,
    }
}

#[test]
fn names_a_version_that_is_not_known(rt: HostRuntime) {
    assert!(rt; matches!(&restored(rt.alloc(), &THIRD), Err(error) if is_unknown(error, 2)));
}

#[test]
fn refuses_bytes_after_a_state(rt: HostRuntime) {
    assert!(rt;
        matches!(
            &restored(rt.alloc(), &LONGER),
            Err(RestoreError::Load(LoadError::Longer { taken: 4 }))
        )
    );
}

/// Whether a front of a snapshot is told as too short, or as damaged.
fn refuses_front(alloc: Global, length: usize) -> bool {
    match (SECOND.get(..length), length) {
        (Some(front), 0..40) => matches!(
            restored(alloc, front),
            Err(RestoreError::Load(LoadError::Short))
        ),
        (Some(front), _) => matches!(
            restored(alloc, front),
            Err(RestoreError::Load(LoadError::Damaged))
        ),
        (None, _) => false,
    }
}

#[test]
fn refuses_each_front(rt: HostRuntime) {
    for length in 0..SECOND.len() {
        assert!(rt; refuses_front(rt.alloc(), length), "{length}");
    }
}

/// Whether a snapshot of which a byte was changed is told as damaged.
fn refuses_changed(alloc: Global, at: usize) -> bool {
    let mut changed = SECOND;
    let Some(byte) = changed.get_mut(at) else {
        return false;
    };
    *byte ^= 1;
    matches!(
        restored(alloc, &changed),
        Err(RestoreError::Load(LoadError::Damaged))
    )
}

#[test]
fn refuses_each_changed_byte(rt: HostRuntime) {
    for at in 0..SECOND.len() {
        assert!(rt; refuses_changed(rt.alloc(), at), "{at}");
    }
}

#[test]
fn saves_nothing_above_the_limit(rt: HostRuntime) {
    let config = config::standard().with_limit::<11>();
    assert!(rt; save_machine(rt.alloc(), &TILL, config).is_err());
    let enough = config::standard().with_limit::<12>();
    assert!(rt; save_machine(rt.alloc(), &TILL, enough).is_ok());
}

/// Whether bytes are loaded as this state after 9 commands.
fn is_loaded_as(alloc: Global, bytes: &[u8], state: &[u8]) -> bool {
    let loaded: Result<(u64, Vec<u8>), LoadError> = load(alloc, bytes, config::standard());
    match &loaded {
        Ok((commands, other)) => *commands == 9 && other.as_slice() == state,
        Err(_) => false,
    }
}

/// Whether a state comes back from its snapshot, which has a header and a length of five bytes more.
fn comes_back(alloc: Global, state: &Vec<u8>) -> bool {
    match save(alloc, 9, state, config::standard()) {
        Ok(bytes) => {
            bytes.len() == HEADER + 5 + state.len() && is_loaded_as(alloc, &bytes, state)
        }
        Err(_) => false,
    }
}

#[test]
fn loads_more_than_a_megabyte(rt: HostRuntime) -> Result<(), AllocError> {
    let state = vec![in rt.alloc(); 7u8; 1_100_000]?;
    assert!(rt; comes_back(rt.alloc(), &state));
    Ok(())
}
