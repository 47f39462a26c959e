//! What is printed of whole stores and of others, and the statuses.

use crate::stores::{Broken, Closed, FRAMED, Full, ODD, damaged};
use std::alloc::Global;
use std::process::Abort;
use stock_files::showing::{Sheet, ShowError, print_store};
use stock_files::status::{DAMAGED, DONE, FAILED, run_status, status_of};

/// How the store `f` is shown.
fn sheet(lists: bool) -> Sheet<'static> {
    Sheet { file: "f", lists }
}

/// A store, whether it is whole, and what is printed of it.
type Row<'r> = (&'r [u8], bool, &'r str);

/// Whether a store is found whole or not, and shown so.
fn shows(alloc: Global, lists: bool, (bytes, whole, text): Row<'_>) -> bool {
    let mut out = Vec::new(alloc);
    let mut store = bytes;
    match print_store(alloc, &mut out, sheet(lists), &mut store) {
        Ok(found) => found == whole && out.as_slice() == text.as_bytes(),
        Err(_) => false,
    }
}

/// Each store is shown so.
fn all_shown(rt: &impl Abort, alloc: Global, lists: bool, rows: &[Row<'_>]) {
    for (place, &row) in rows.iter().enumerate() {
        assert!(rt; shows(alloc, lists, row), "row {place}");
    }
}

/// What `list` prints of the whole store.
const LISTED: &str = "0: 16 bytes: \"salt\" at 40\n\
    16: 31 bytes: \"tea\" at 1250, weight 100, \"origin\" = \"Assam\"\n\
    47: 16 bytes: \"salt\" at 40\n\
    f: whole, records: 3, bytes: 63\n";

#[test]
fn lists_stores(rt: HostRuntime) {
    let torn = "0: 16 bytes: \"salt\" at 40\n\
        f: truncated at byte 16, records before it: 1, damaged frames: 0\n";
    let bit = "0: 16 bytes: \"salt\" at 40\n\
        16: 31 bytes: damaged\n\
        47: 16 bytes: \"salt\" at 40\n\
        f: damaged, records: 2, damaged frames: 1, bytes: 63\n";
    let odd = "0: 17 bytes: more than an article, which ends after 8 bytes\n\
        17: 10 bytes: no article (UnexpectedEnd { additional: 3 })\n\
        f: damaged, records: 0, damaged frames: 2, bytes: 27\n";
    all_shown(
        &rt,
        rt.alloc(),
        true,
        &[
            (&FRAMED, true, LISTED),
            (&[], true, "f: whole, records: 0, bytes: 0\n"),
            (&FRAMED[..46], false, torn),
            (&damaged(), false, bit),
            (&ODD, false, odd),
        ],
    );
}

/// The store, and 28 zeros after it.
fn before_zeros() -> [u8; 91] {
    let mut bytes = [0; 91];
    for place in 0..63 {
        bytes[place] = FRAMED[place];
    }
    bytes
}

/// The store with a second length that is too long.
fn too_long() -> [u8; 63] {
    let mut bytes = FRAMED;
    bytes[16] = 247;
    bytes[17] = 255;
    bytes
}

#[test]
fn checks_stores(rt: HostRuntime) {
    let torn = "f: 63: 24 bytes: 3 damaged frames\n\
        f: truncated at byte 87, records before it: 3, damaged frames: 3\n";
    let long =
        "f: no frame at byte 16, of a length of 65527, records before it: 1, damaged frames: 0\n";
    let bit = "f: 16: 31 bytes: damaged\n\
        f: damaged, records: 2, damaged frames: 1, bytes: 63\n";
    all_shown(
        &rt,
        rt.alloc(),
        false,
        &[
            (&FRAMED, true, "f: whole, records: 3, bytes: 63\n"),
            (&[], true, "f: whole, records: 0, bytes: 0\n"),
            (&before_zeros(), false, torn),
            (&too_long(), false, long),
            (&damaged(), false, bit),
        ],
    );
}

/// Whether an output that is full holds what it had room for, and is no closed one.
fn tells_full(alloc: Global) -> bool {
    let mut full = Full {
        held: Vec::new(alloc),
        room: 20,
    };
    match print_store(alloc, &mut full, sheet(true), &mut &FRAMED[..]) {
        Ok(_) => false,
        Err(error) => {
            !error.is_closed_output() && full.held.as_slice() == &LISTED.as_bytes()[..20]
        }
    }
}

/// Whether an output that is closed is told.
fn tells_closed(alloc: Global) -> bool {
    match print_store(alloc, &mut Closed, sheet(false), &mut &FRAMED[..]) {
        Ok(_) => false,
        Err(error) => error.is_closed_output(),
    }
}

/// Whether an input that fails is told.
fn tells_broken(alloc: Global) -> bool {
    let mut broken = Broken { has_failed: false };
    let shown = print_store(alloc, &mut Vec::new(alloc), sheet(true), &mut broken);
    matches!(shown, Err(ShowError::Read(_)))
}

#[test]
fn ends_with_statuses(rt: HostRuntime) {
    let alloc = rt.alloc();
    assert!(rt; tells_full(alloc) && tells_closed(alloc) && tells_broken(alloc));
    assert!(rt;
        status_of(true) == DONE
            && status_of(false) == DAMAGED
            && run_status(&[]) == DONE
            && run_status(&[DONE, FAILED, DAMAGED]) == FAILED
            && run_status(&[DAMAGED, DONE]) == DAMAGED
    );
}
