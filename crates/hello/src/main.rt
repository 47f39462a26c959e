//! Encodes a record, prints its bytes, and decodes them again.
#![tactic(auto)]

use bincode::{config, decode_from_slice, encode_to_vec};

fn main(rt: HostRuntime) -> anyhow::Result<()> {
    let config = config::standard().with_limit::<4096>();
    let bytes = encode_to_vec(rt.alloc(), (300u32, "tea"), config)?;
    println!(rt; "{bytes:?}")?;
    let (record, taken): ((u32, String), usize) = decode_from_slice(rt.alloc(), &bytes, config)?;
    println!(rt; "{record:?}, from {taken} bytes")?;
    Ok(())
}
