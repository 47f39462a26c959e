//! A long text, and the memory that it takes.

use crate::sources::told;
use test_helpers::peak::{is_within, peak};

/// A text of 200,000 bytes: a window over it, and what is printed, take some bytes for each. Memory is asked for
/// as it is read, and not at once.
#[test]
fn takes_memory_as_it_reads(rt: HostRuntime) -> anyhow::Result<()> {
    let alloc = rt.alloc();
    let mut bytes = Vec::from_slice(alloc, &[252, 64, 13, 3, 0])?;
    bytes.extend_from_slice("a".repeat(alloc, 200_000)?.as_bytes())?;
    let before = peak(&rt);
    let text = told(alloc, ("", "text"), bytes.as_slice());
    assert!(rt; matches!(&text, Some(text) if text.len() > 200_000 && text.ends_with(b"whole")));
    assert!(rt; is_within(before, peak(&rt), 64 << 20));
    Ok(())
}
