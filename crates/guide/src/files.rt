//! Values in files.

use crate::settings::Saved;
use anyhow::Result;
use bincode::{config, decode_from_buf_read, encode_into_std_write};
use std::fs::File;
use std::io::{BufReader, BufWriter, Write};

/// Writes settings to a file, in place of what it held.
pub fn save(rt: &HostRuntime, path: &str, saved: &Saved) -> Result<()> {
    let mut out = BufWriter::new(rt.alloc(), File::create(rt, path)?)?;
    encode_into_std_write(saved, &mut out, config::standard())?;
    Ok(out.flush()?)
}

/// Reads settings from the front of a file.
pub fn load(rt: &HostRuntime, path: &str) -> Result<Saved> {
    let mut input = BufReader::new(rt.alloc(), File::open(rt, path)?)?;
    let config = config::standard().with_limit::<65536>();
    Ok(decode_from_buf_read(rt.alloc(), &mut input, config)?)
}
