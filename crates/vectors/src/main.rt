//! Runs the test vectors of the format, and prints which of them hold.
#![tactic(auto)]

use anyhow::ensure;
use conformance::calls::Slice;
use conformance::rows;
use std::io;

fn main(rt: HostRuntime) -> anyhow::Result<()> {
    let failed = rows::run::<Slice, _>(rt.alloc(), &rows::tables(), &mut io::writer(&rt))?;
    ensure!(failed == 0, "{failed} rows failed");
    Ok(())
}
