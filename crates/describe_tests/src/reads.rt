//! How shapes are compared: what is printed, and how the program ends. The answers are by hand, from the description of
//! the format.

use crate::endings::{ends, path_of};
use crate::sources::words_of;
use evolution_text::compare::{compare_texts, compare_type};
use evolution_text::compare_lines;
use evolution_text::failure::CompareError;
use evolution_text::setting::{SETTINGS, Setting};
use shape_text::request::{Asked, Compared, Comparison, asked_of};
use std::alloc::{AllocError, Global};
use std::fs;

/// The options and the new shape, the old one, and what is printed with the end after it. The texts of shapes have no
/// blanks here.
const COMPARED: [(&str, &str, &str); 14] = [
    (
        "--reads (u8,u32)",
        "(u8,u16)",
        "variable  little endian  yes\nvariable  big endian     yes\n\
        fixed     little endian  no\nfixed     big endian     no\n\n\
        fixed     little endian  NEW does not read these bytes of OLD as the same\n  \
        bytes  010100\n  OLD    part 1: u16\n  NEW    part 1: u32\n\n\
        fixed     big endian     NEW does not read these bytes of OLD as the same\n  \
        bytes  010001\n  OLD    part 1: u16\n  NEW    part 1: u32\nunread",
    ),
    (
        "--reads u16|text|()",
        "u16|text",
        "variable  little endian  yes\nvariable  big endian     yes\n\
        fixed     little endian  yes\nfixed     big endian     yes\n\
        every file of OLD is read by NEW\nread",
    ),
    (
        "--fixed --reads u16|text|()",
        "u16|text",
        "fixed     little endian  yes\nevery file of OLD is read by NEW\nread",
    ),
    (
        "--fixed --big-endian --reads |i64",
        "|isize",
        "fixed     big endian     yes\nevery file of OLD is read by NEW\nread",
    ),
    (
        "--big-endian --reads u16",
        "u32",
        "variable  big endian     no\n\n\
        variable  big endian     NEW does not read these bytes of OLD as the same\n  \
        bytes  fc00010000\n  OLD    u32\n  NEW    u16\nunread",
    ),
    (
        "--config standard --reads u8|text",
        "u8|text|bool",
        "variable  little endian  no\n\n\
        variable  little endian  NEW does not read these bytes of OLD as the same\n  \
        bytes  0200\n  OLD    variant 2: bool\n  NEW    variant 2: missing\nunread",
    ),
    (
        "--config standard --reads [(text,u8?)|()]",
        "[(text,u32?)|()]",
        "variable  little endian  no\n\n\
        variable  little endian  NEW does not read these bytes of OLD as the same\n  \
        bytes  01000001fbff00\n  OLD    element, variant 0, part 1, value: u32\n  \
        NEW    element, variant 0, part 1, value: u8\nunread",
    ),
    (
        "--config standard --reads (u8,u16)",
        "[u8;2]",
        "variable  little endian  no\n\n\
        variable  little endian  NEW does not read these bytes of OLD as the same\n  \
        bytes  01ff\n  OLD    element: u8\n  NEW    part 1: u16\nunread",
    ),
    (
        "--config standard --reads ()|u8",
        "u16?",
        "variable  little endian  no\n\n\
        variable  little endian  NEW does not read these bytes of OLD as the same\n  \
        bytes  01fbfb00\n  OLD    value: u16\n  NEW    variant 1: u8\nunread",
    ),
    (
        "--config standard --reads bool",
        "()",
        "variable  little endian  no\n\n\
        variable  little endian  NEW does not read these bytes of OLD as the same\n  \
        bytes  none at all\n  OLD    ()\n  NEW    bool\nunread",
    ),
    (
        "--config legacy --reads (u32,text?)",
        "(u8,|())",
        "fixed     little endian  no\n\n\
        fixed     little endian  the rules do not allow it; no bytes that show it were found\n  \
        OLD    part 0: u8\n  NEW    part 0: u32\nunread",
    ),
    (
        "--config standard --reads (u64,u64,u64,u64,u64,u64,u64,u64,u64,u64,u64,u64,u64)",
        "()",
        "variable  little endian  no\n\n\
        variable  little endian  NEW does not read these bytes of OLD as the same\n  \
        bytes  none at all\n  OLD    ()\n  \
        NEW    a tuple of 13 parts: (u64, u64, u64, u64, u64, u64, u64, u64, u64, u64, u64, u64, ..\nunread",
    ),
    (
        "--reads u8|",
        "u8",
        "NEW is no shape: at byte 3: expected `(`, `[` or a name (bool, char, text, u8, u16, u32, u64, \
        u128, usize, i8, i16, i32, i64, i128 or isize), and not the end",
    ),
    (
        "--reads u8",
        "[u8",
        "OLD is no shape: at byte 3: expected `]`, `;`, `?` or `|`, and not the end",
    ),
];

/// What is said at the end.
fn ended(alloc: Global, end: Result<bool, CompareError>) -> Result<String, AllocError> {
    match end {
        Ok(true) => String::from_str(alloc, "read"),
        Ok(false) => String::from_str(alloc, "unread"),
        Err(error) => format!(in alloc; "{error}"),
    }
}

/// What is printed of two shapes in these settings, and the end.
fn printed(
    alloc: Global,
    (new, old): (&str, &str),
    settings: &[Setting],
) -> Result<Vec<u8>, AllocError> {
    let mut out = Vec::new(alloc);
    let end = compare_texts(alloc, new, old, settings, &mut out);
    out.extend_from_slice(ended(alloc, end)?.as_bytes())?;
    Ok(out)
}

/// The comparison of these words, if they ask for one.
fn comparison(alloc: Global, options: &str, last: &str) -> Option<Comparison> {
    let words = words_of(alloc, options, last).ok()?;
    match asked_of(alloc, &words) {
        Ok(Asked::Compare(comparison)) => Some(comparison),
        _ => None,
    }
}

/// Whether this is printed.
fn prints(alloc: Global, options: &str, last: &str, wanted: &str) -> bool {
    let Some(comparison) = comparison(alloc, options, last) else {
        return false;
    };
    match &comparison.shapes {
        Compared::Two { new, old } => {
            let shapes = (new.as_str(), old.as_str());
            is_printed(alloc, shapes, comparison.setting, wanted)
        }
        Compared::Lines => false,
    }
}

/// Whether this is printed of two shapes, for one setting or for all.
fn is_printed(alloc: Global, shapes: (&str, &str), setting: Option<Setting>, wanted: &str) -> bool {
    let printed = match setting {
        Some(setting) => printed(alloc, shapes, &[setting]),
        None => printed(alloc, shapes, &SETTINGS),
    };
    match printed {
        Ok(printed) => printed.as_slice() == wanted.as_bytes(),
        Err(_) => false,
    }
}

#[test]
fn prints_answers(rt: HostRuntime) {
    for &(options, old, wanted) in &COMPARED {
        assert!(rt; prints(rt.alloc(), options, old, wanted), "{options} {old}");
    }
}

/// Whether this is returned and printed for a pair as a type and the shape `(u8,u16)`.
fn compares_pair(alloc: Global, settings: &[Setting], is_read: bool, wanted: &str) -> bool {
    let mut out = Vec::new(alloc);
    match compare_type::<(u8, u32), Vec<u8>>(alloc, "(u8,u16)", settings, &mut out) {
        Ok(answer) => answer == is_read && out.as_slice() == wanted.as_bytes(),
        Err(_) => false,
    }
}

/// A type is compared as the shape that describes it.
#[test]
fn compares_a_type(rt: HostRuntime) {
    let alloc = rt.alloc();
    let read = "variable  little endian  yes\nevery file of OLD is read by NEW\n";
    let unread = "fixed     little endian  no\n\n\
        fixed     little endian  NEW does not read these bytes of OLD as the same\n  \
        bytes  010100\n  OLD    part 1: u16\n  NEW    part 1: u32\n";
    assert!(&rt; compares_pair(alloc, &SETTINGS[..1], true, read));
    assert!(&rt; compares_pair(alloc, &SETTINGS[2..3], false, unread));
}

/// Lines, and what is printed for the first setting, with the end.
const LINES: [(&str, &str); 5] = [
    ("", "read"),
    (
        "u32\nu16\n\n  \nu64\n u64 \n",
        "lines 1 and 2\nvariable  little endian  yes\nevery file of OLD is read by NEW\n\
        lines 5 and 6\nvariable  little endian  yes\nevery file of OLD is read by NEW\nread",
    ),
    (
        "bool\n()\nu8\nu8",
        "lines 1 and 2\nvariable  little endian  no\n\n\
        variable  little endian  NEW does not read these bytes of OLD as the same\n  \
        bytes  none at all\n  OLD    ()\n  NEW    bool\n\
        lines 3 and 4\nvariable  little endian  yes\nevery file of OLD is read by NEW\nunread",
    ),
    (
        "u8\n[u8\n",
        "lines 1 and 2\nline 2: OLD is no shape: at byte 3: expected `]`, `;`, `?` or `|`, and not the end",
    ),
    ("\nu8\n\n", "line 2: NEW has no OLD after it"),
];

/// What is printed of lines, and the end.
fn printed_of(alloc: Global, lines: &str) -> Result<Vec<u8>, AllocError> {
    let mut out = Vec::new(alloc);
    let end = compare_lines(alloc, lines.as_bytes(), &SETTINGS[..1], &mut out);
    out.extend_from_slice(ended(alloc, end)?.as_bytes())?;
    Ok(out)
}

#[test]
fn prints_lines(rt: HostRuntime) {
    for &(lines, wanted) in &LINES {
        let printed = printed_of(rt.alloc(), lines);
        assert!(rt;
            matches!(&printed, Ok(text) if text.as_slice() == wanted.as_bytes()),
            "{lines}"
        );
    }
}

/// Options, the last word, and the status.
const STATUSES: [(&str, &str, u8); 14] = [
    ("--config standard --reads u32", "u16", 0),
    ("--reads u32", "u16", 1),
    ("--reads u8", "[u8", 2),
    ("--reads u8", "@/", 3),
    ("--reads @/no/such/file", "u8", 3),
    ("--reads", "u8", 2),
    ("u8", "--reads", 2),
    ("--reads u8 u8", "u8", 2),
    ("--reads - u8", "u8", 2),
    ("--reads --frames u8", "u8", 2),
    ("--reads --limit 1KiB u8", "u8", 2),
    ("--reads --values 3 u8", "u8", 2),
    ("--config legacy --fixed --reads u8", "u8", 2),
    ("--reads=u8", "u8", 2),
];

#[test]
fn ends_with_a_status_of_shapes(rt: HostRuntime) {
    for &(options, last, status) in &STATUSES {
        assert!(rt; ends(&rt, options, last, status), "{options} {last}");
    }
}

/// A shape in a file is compared as one in a word.
#[test]
fn reads_shapes_of_files(rt: HostRuntime) -> anyhow::Result<()> {
    let file = path_of(&rt, "shape")?;
    let path = file.as_str();
    let word = format!(in rt.alloc(); "@{path}")?;
    let is_compared = fs::write(&rt, path, "(u8,\n u16)\n").is_ok()
        && ends(&rt, "--reads (u8,u16)", word.as_str(), 0)
        && ends(&rt, "--reads (u8,u32)", word.as_str(), 1)
        && fs::write(&rt, path, "(u8,\n").is_ok()
        && ends(&rt, "--reads (u8,u16)", word.as_str(), 2);
    assert!(rt; fs::remove_file(&rt, path).is_ok() && is_compared);
    Ok(())
}

/// If the output fails, that is the error.
#[test]
fn tells_an_output_that_fails(rt: HostRuntime) {
    let mut room = [0u8; 30];
    let mut out = room.as_mut_slice();
    let compared = compare_texts(rt.alloc(), "u8", "u8", &SETTINGS, &mut out);
    assert!(rt; matches!(compared, Err(CompareError::Write(_))));
}
