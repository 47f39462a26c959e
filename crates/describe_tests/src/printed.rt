//! What streams hold by a shape, printed.

use crate::sources::{Interrupted, all_told, fails_after, tells, told};
use std::alloc::{AllocError, Global};
use test_helpers::streams::Breaking;

/// The bytes of 7 and 300.
const NUMBERS: [u8; 4] = [7, 251, 44, 1];

/// The line of 7.
const FIRST: &str = "{\"offset\":0,\"length\":1,\"value\":7}\n";

/// The lines of 7 and 300.
const BOTH: &str =
    "{\"offset\":0,\"length\":1,\"value\":7}\n{\"offset\":1,\"length\":3,\"value\":300}\n";

/// The lines of all encodings before it are printed, then why no more are.
#[test]
fn says_how_it_ends(rt: HostRuntime) {
    let torn = "truncated at byte 4: the input ends within a value of u16";
    let wrong = "no u16 at byte 4: InvalidIntegerType { expected: U16, found: U32 }";
    let no_option = "no [char?] at byte 0: \
        UnexpectedVariant { type_name: \"Option\", found: 2, min: 0, max: 1 }";
    let no_choice = "no u8|text|u8 at byte 0: \
        UnexpectedVariant { type_name: \"Choice\", found: 3, min: 0, max: 2 }";
    let empty = "a value of ((), [u8; 0]) has no bytes: no count of them is known";
    all_told(
        &rt,
        rt.alloc(),
        &[
            (("", "u16"), &[], ("", "whole")),
            (("", "u16"), &NUMBERS, (BOTH, "whole")),
            (("", "u16"), &[7, 251, 44, 1, 251, 2], (BOTH, torn)),
            (("", "u16"), &[7, 251, 44, 1, 252, 2], (BOTH, wrong)),
            (("", "[char?]"), &[1, 2], ("", no_option)),
            (("", "u8|text|u8"), &[3], ("", no_choice)),
            (("", "((), [u8; 0])"), &[1], ("", empty)),
            (("", "((), [u8; 0])"), &[], ("", "whole")),
        ],
    );
}

/// A stream that gives one byte a call, that is interrupted, and that fails after three bytes.
#[test]
fn reads_slow_streams(rt: HostRuntime) {
    let alloc = rt.alloc();
    let bytes = NUMBERS.as_slice();
    let is_next = false;
    let words = ("", "u16");
    let whole = (BOTH, "whole");
    assert!(rt;
        tells(alloc, words, Breaking { bytes, calls: 9 }, whole)
            && tells(alloc, words, Interrupted { bytes, is_next }, whole)
            && fails_after(alloc, words, Breaking { bytes, calls: 3 }, FIRST)
    );
}

/// The word of 40,000 letters, which is longer than the first reads, and one of a letter after it.
fn long_words(alloc: Global) -> Result<Vec<u8>, AllocError> {
    let mut bytes = [251, 64, 156].to_vec(alloc)?;
    for _ in 0..40_000 {
        bytes.push(97)?;
    }
    bytes.extend_from_slice(&[1, 98])?;
    Ok(bytes)
}

/// How the line of the long text begins.
const BEFORE: &str = "{\"offset\":0,\"length\":40003,\"value\":\"";

/// Whether the line of the long text is printed, with this after the letters.
fn shows_long(text: Option<Vec<u8>>, after: &str) -> bool {
    let Some(text) = text else {
        return false;
    };
    let begin = BEFORE.len();
    let end = begin.saturating_add(40_000);
    let letters = text.get(begin..end).unwrap_or(&[]);
    text.starts_with(BEFORE.as_bytes())
        && letters.iter().all(|&letter| letter == 97)
        && text.get(end..) == Some(after.as_bytes())
}

/// The long text, where it is cut, where the one after it is cut, and both, also one byte a call.
#[test]
fn reads_long_encodings(rt: HostRuntime) -> Result<(), AllocError> {
    let alloc = rt.alloc();
    let words = long_words(alloc)?;
    let bytes = words.as_slice();
    let cut = bytes.get(..40_002).unwrap_or(&[]);
    let longer = bytes.get(..40_004).unwrap_or(&[]);
    let slow = Breaking {
        bytes,
        calls: 50_000,
    };
    let text = ("", "text");
    let no_text = "truncated at byte 0: the input ends within a value of text";
    let torn = "\"}\ntruncated at byte 40003: the input ends within a value of text";
    let both = "\"}\n{\"offset\":40003,\"length\":2,\"value\":\"b\"}\nwhole";
    assert!(rt;
        tells(alloc, text, cut, ("", no_text))
            && shows_long(told(alloc, text, longer), torn)
            && shows_long(told(alloc, text, bytes), both)
            && shows_long(told(alloc, text, slow), both)
    );
    Ok(())
}

/// 50,000 numbers of three bytes.
fn many_numbers(alloc: Global) -> Result<Vec<u8>, AllocError> {
    let mut bytes = Vec::new(alloc);
    for _ in 0..50_000 {
        bytes.extend_from_slice(&[251, 44, 1])?;
    }
    Ok(bytes)
}

/// Whether there is a line for each of them, and then the end.
fn shows_many(text: Option<Vec<u8>>) -> bool {
    let Some(text) = text else {
        return false;
    };
    let shown = std::str::from_utf8(&text).unwrap_or("");
    let numbers = shown
        .lines()
        .filter(|line| line.ends_with(",\"length\":3,\"value\":300}"))
        .count();
    numbers == 50_000
        && shown.lines().count() == 50_001
        && shown.ends_with("\n{\"offset\":149997,\"length\":3,\"value\":300}\nwhole")
}

/// Some of the numbers stand across the end of what is read at once.
#[test]
fn reads_many_encodings(rt: HostRuntime) -> Result<(), AllocError> {
    let bytes = many_numbers(rt.alloc())?;
    assert!(rt; shows_many(told(rt.alloc(), ("", "u16"), bytes.as_slice())));
    Ok(())
}

#[test]
fn reads_each_configuration(rt: HostRuntime) {
    let fixed = ("{\"offset\":0,\"length\":2,\"value\":300}\n", "whole");
    let variable = ("{\"offset\":0,\"length\":3,\"value\":300}\n", "whole");
    let choice = ("{\"offset\":0,\"length\":5,\"value\":{\"1\":9}}\n", "whole");
    all_told(
        &rt,
        rt.alloc(),
        &[
            (("", "u16"), &[251, 44, 1], variable),
            (("--config standard", "u16"), &[251, 44, 1], variable),
            (("--big-endian", "u16"), &[251, 1, 44], variable),
            (("--fixed", "u16"), &[44, 1], fixed),
            (("--config legacy", "u16"), &[44, 1], fixed),
            (("--fixed --big-endian", "u16"), &[1, 44], fixed),
            (("--fixed", "u8|u8"), &[1, 0, 0, 0, 9], choice),
            (("--fixed --limit none", "u16"), &[44, 1], fixed),
            (("--limit none", "u16"), &[251, 44, 1], variable),
            (
                ("--limit none --big-endian", "u16"),
                &[251, 1, 44],
                variable,
            ),
            (
                ("--limit none --big-endian --fixed", "u16"),
                &[1, 44],
                fixed,
            ),
        ],
    );
}

/// The tag of sixteen bytes, and the greatest of them.
const GREATEST: [u8; 17] = [
    254, 255, 255, 255, 255, 255, 255, 255, 255, 255, 255, 255, 255, 255, 255, 255, 255,
];

/// Numbers of 128 bits are texts where they do not fit 64.
#[test]
fn prints_the_widest_numbers(rt: HostRuntime) {
    let unsigned = (
        "{\"offset\":0,\"length\":17,\"value\":\"340282366920938463463374607431768211455\"}\n",
        "whole",
    );
    let signed = (
        "{\"offset\":0,\"length\":17,\"value\":\"-170141183460469231731687303715884105728\"}\n",
        "whole",
    );
    all_told(
        &rt,
        rt.alloc(),
        &[
            (("", "u128"), &GREATEST, unsigned),
            (("", "i128"), &GREATEST, signed),
        ],
    );
}

/// A length claims 8 bytes, so 63 numbers of 16 bytes and their length claim 1,016, and 64 claim 1,032. 4,194,305 of
/// them claim more than 64 MiB.
#[test]
fn keeps_limits(rt: HostRuntime) {
    let past = ("", "no [u128] at byte 0: LimitExceeded");
    let torn = (
        "",
        "truncated at byte 0: the input ends within a value of [u128]",
    );
    let many = [252, 1, 0, 64, 0].as_slice();
    all_told(
        &rt,
        rt.alloc(),
        &[
            (("--limit 1KiB", "[u128]"), &[64], past),
            (("--limit 1KiB", "[u128]"), &[63], torn),
            (("--limit 64KiB", "[u128]"), &[65], torn),
            (("", "[u128]"), many, past),
            (("--limit 64MiB", "[u128]"), many, past),
            (("--limit 1MiB", "[u128]"), many, past),
            (("--limit 16MiB", "[u128]"), many, past),
            (("--limit 1GiB", "[u128]"), many, torn),
            (("--limit none", "[u128]"), many, torn),
            (("--limit 64KiB", "[u128]"), &[251, 0, 16], past),
            (("--limit 64KiB", "[u128]"), &[251, 255, 15], torn),
            (("--limit 1MiB", "[u128]"), &[252, 0, 0, 1, 0], past),
            (("--limit 1MiB", "[u128]"), &[251, 255, 255], torn),
            (("--limit 16MiB", "[u128]"), &[252, 0, 0, 16, 0], past),
            (("--limit 16MiB", "[u128]"), &[252, 255, 255, 15, 0], torn),
            (("--limit 64MiB", "[u128]"), &[252, 255, 255, 63, 0], torn),
            (("--limit 1GiB", "[u128]"), &[252, 0, 0, 0, 4], past),
            (("--limit 1GiB", "[u128]"), &[252, 255, 255, 255, 3], torn),
            (
                ("--fixed --limit 1KiB", "[u128]"),
                &[64, 0, 0, 0, 0, 0, 0, 0],
                past,
            ),
            (("--big-endian --limit 1KiB", "[u128]"), &[64], past),
        ],
    );
}

/// A list of two options has four values: the list, the options, and the number in one.
#[test]
fn prints_no_more_values_than_allowed(rt: HostRuntime) {
    let bytes = [0, 2, 1, 9, 0].as_slice();
    let printed = (
        "{\"offset\":0,\"length\":1,\"value\":[]}\n\
        {\"offset\":1,\"length\":4,\"value\":[9,null]}\n",
        "whole",
    );
    let counted = (
        "{\"offset\":0,\"length\":1,\"value\":[]}\n{\"offset\":1,\"length\":4,\"values\":4}\n",
        "whole",
    );
    let nothings = (
        "{\"offset\":0,\"length\":5,\"value\":{\"count\":67108856}}\n",
        "whole",
    );
    all_told(
        &rt,
        rt.alloc(),
        &[
            (("", "[u8?]"), bytes, printed),
            (("--values 4", "[u8?]"), bytes, printed),
            (("--values 3", "[u8?]"), bytes, counted),
            (("--values 1", "[()]"), &[252, 248, 255, 255, 3], nothings),
        ],
    );
}
