//! Values in a row, up to the end of a stream.

use bincode::error::DecodeError;
use bincode::{config, decode_next_from_std_read};
use std::alloc::Global;
use std::io::BufRead;

/// A sale: what was sold, and for how much.
type Sale = (String, u32);

/// The sum of all sales of a stream. Fails with `Io` where it ends within one.
pub fn total<R: BufRead>(alloc: Global, stream: &mut R) -> Result<u64, DecodeError> {
    let config = config::standard().with_limit::<4096>();
    let mut sum = 0u64;
    for _ in 0..u64::MAX {
        let Some((_, price)): Option<Sale> = decode_next_from_std_read(alloc, stream, config)?
        else {
            break;
        };
        sum = sum.saturating_add(u64::from(price));
    }
    Ok(sum)
}
