//! What is done to stores that are repaired.

use crate::stores::{FRAMED, damaged};
use framed_store::ending::Ending;
use framed_store::surveying::{Survey, survey_frames};
use std::alloc::Global;
use std::process::Abort;
use stock_files::limit::LONGEST_WORD;
use stock_files::repairing::{
    Plan, Repair, is_whole_after, plan_for, print_kept, print_plan, salvage, start_of_end,
};

/// No more than cutting off what is no frame.
const PLAIN: Repair = Repair {
    drops_damaged: false,
    cuts: false,
};

/// Dropping damaged frames, too.
const DROPPING: Repair = Repair {
    drops_damaged: true,
    cuts: false,
};

/// Cutting whole frames off, too.
const CUTTING: Repair = Repair {
    drops_damaged: false,
    cuts: true,
};

/// Both.
const BOTH: Repair = Repair {
    drops_damaged: true,
    cuts: true,
};

/// A store, how it is repaired, what is done to it, whether it is whole then, and what is printed.
type Row<'r> = (&'r [u8], Repair, Plan, bool, &'r str);

/// Whether this is done to a store.
fn repairs(alloc: Global, (bytes, repair, wanted, whole, text): Row<'_>) -> bool {
    let found = survey_frames(bytes, LONGEST_WORD);
    let end = bytes.get(start_of_end(found.length)..).unwrap_or(&[]);
    let plan = plan_for(&found, end, repair);
    let mut out = Vec::new(alloc);
    let printed = print_plan(&mut out, "f", bytes.len(), &found, plan);
    printed.is_ok()
        && plan == wanted
        && is_whole_after(&found, plan) == whole
        && out.as_slice() == text.as_bytes()
}

/// Each row is done.
fn all_repaired(rt: &impl Abort, alloc: Global, rows: &[Row<'_>]) {
    for (place, &row) in rows.iter().enumerate() {
        assert!(rt; repairs(alloc, row), "row {place}");
    }
}

/// The store with a length of its second frame that is too long, and without the last byte.
fn cut_in_two() -> [u8; 63] {
    let mut bytes = FRAMED;
    bytes[18] = 1;
    bytes
}

/// Salt twice, with a bit of the first length changed: it leads one byte into the second frame, which is whole.
fn led_astray() -> [u8; 32] {
    let mut bytes = [0; 32];
    bytes[..16].copy_from_slice(&FRAMED[..16]);
    bytes[16..].copy_from_slice(&FRAMED[..16]);
    bytes[0] = 9;
    bytes
}

#[test]
fn plans_repairs(rt: HostRuntime) {
    let changed = damaged();
    let front = changed.get(..60).unwrap_or(&[]);
    let two = cut_in_two();
    let leave = "f: nothing to cut off, whole frames: 3, bytes: 63\n";
    let torn = "f: cut off at byte 16, bytes lost: 30, whole frames: 1\n";
    let left = "f: cut off at byte 47, bytes lost: 13, whole frames: 1\n\
        f: damaged frames left: 1. `--drop-damaged` drops them\n";
    let refused = "f: no whole frame at byte 16, and one at byte 47: nothing was cut off. \
        `--drop-damaged` keeps the whole frames, `--cut` cuts at byte 16\n";
    let cut = "f: cut off at byte 16, bytes lost: 47, whole frames: 1\n";
    let after = Plan::Refuse { after: 47 };
    let astray = led_astray();
    let inside = Plan::Refuse { after: 16 };
    let spared = "f: no whole frame at byte 17, and one at byte 16: nothing was cut off. \
        `--drop-damaged` keeps the whole frames, `--cut` cuts at byte 17\n\
        f: damaged frames left: 1. `--drop-damaged` drops them\n";
    let lost = "f: cut off at byte 17, bytes lost: 15, whole frames: 0\n\
        f: damaged frames left: 1. `--drop-damaged` drops them\n";
    all_repaired(
        &rt,
        rt.alloc(),
        &[
            (&FRAMED, PLAIN, Plan::Leave, true, leave),
            (&FRAMED, DROPPING, Plan::Leave, true, leave),
            (&FRAMED[..46], PLAIN, Plan::Cut, true, torn),
            (&FRAMED[..46], DROPPING, Plan::Cut, true, torn),
            (front, PLAIN, Plan::Cut, false, left),
            (front, DROPPING, Plan::Rewrite, true, ""),
            (&two, PLAIN, after, false, refused),
            (&two, CUTTING, Plan::Cut, true, cut),
            (&two, DROPPING, Plan::Rewrite, true, ""),
            (&two, BOTH, Plan::Rewrite, true, ""),
            (&astray, PLAIN, inside, false, spared),
            (&astray, CUTTING, Plan::Cut, false, lost),
            (&astray, DROPPING, Plan::Rewrite, true, ""),
        ],
    );
}

/// Whether these parts are kept of a store, one after the other.
fn keeps(alloc: Global, store: &[u8], first: &[u8], second: &[u8]) -> bool {
    let mut kept = Vec::new(alloc);
    salvage(store, &mut kept).is_ok()
        && kept.starts_with(first)
        && kept.get(first.len()..) == Some(second)
}

/// Whether the frames after the first are kept where its length was changed to this one.
fn keeps_after_length(alloc: Global, length: u8) -> bool {
    let mut longer = FRAMED;
    longer[0] = length;
    keeps(alloc, &longer, &[], &FRAMED[16..])
}

/// Whether this is printed of two frames that were kept.
fn prints_kept(alloc: Global, text: &str) -> bool {
    let mut out = Vec::new(alloc);
    let kept = Survey {
        whole: 2,
        damaged: 0,
        length: 32,
        ending: Ending::Whole,
    };
    print_kept(&mut out, "f", 63, &kept).is_ok() && out.as_slice() == text.as_bytes()
}

/// A damaged frame, in whose word the frame of the word 7 stands.
static HOLDS_FRAME: [u8; 19] = [
    11, 0, 0, 0, 0, 1, 0, 0, 0, 7, 114, 125, 169, 169, 0, 0, 0, 0, 0,
];

/// Whether what looks like a frame in a damaged one is not kept, and the frame after it is.
fn keeps_no_text(alloc: Global) -> bool {
    let mut store = [0; 35];
    store[..19].copy_from_slice(&HOLDS_FRAME);
    store[19..].copy_from_slice(&FRAMED[..16]);
    keeps(alloc, &store, &[], &FRAMED[..16])
}

/// The length of the second frame is changed, or a bit of its word; that of the first to one that leads into the next
/// frame, 9, or over it, 39; and nothing is whole.
#[test]
fn keeps_whole_frames(rt: HostRuntime) {
    let alloc = rt.alloc();
    let first = &FRAMED[..16];
    let third = &FRAMED[47..];
    assert!(rt;
        keeps(alloc, &cut_in_two(), first, third)
            && keeps(alloc, &damaged(), first, third)
            && keeps_after_length(alloc, 9)
            && keeps_after_length(alloc, 39)
            && keeps(alloc, &led_astray(), &[], first)
            && keeps_no_text(alloc)
            && keeps(alloc, &FRAMED[1..15], &[], &[])
            && prints_kept(
                alloc,
                "f: whole frames kept: 2, bytes: 32, bytes dropped: 31\n"
            )
    );
}
