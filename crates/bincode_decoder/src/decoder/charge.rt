//! How a decoder charges bytes to its limit.
ghost use Rattle.std.specs.Prelude.{◌≡◌};
ghost use Rattle.std.specs.Bool.{MatchBool};
ghost use Rattle.bincode_spec.specs.Answer.{Allows, after_release};
ghost use Rattle.bincode_spec.specs.Layers.Releases.{CanRelease};
ghost use Rattle.bincode_spec.specs.Layers.Claims.{Claims};

use bincode_base::error::DecodeError;

/// Charges `n` bytes if there is a limit.
pub(super) fn claim(
    limit: Option<usize>,
    bytes_read: &mut usize,
    n: usize,
) -> Result<(), DecodeError>
    ensures { Claims limit bytes_read.old n bytes_read.new result }
{
    let Some(limit) = limit else {
        return Ok(());
    };
    let Some(sum) = bytes_read.checked_add(n) else {
        return Err(DecodeError::LimitExceeded);
    };
    *bytes_read = sum;
    if sum > limit {
        return Err(DecodeError::LimitExceeded);
    }
    Ok(())
}

/// Whether the charge is within the limit.
#[inline]
pub(super) fn is_within(limit: Option<usize>, bytes_read: usize) -> bool
    ensures { MatchBool result (Allows limit bytes_read) (¬ (Allows limit bytes_read)) }
{
    match limit {
        Some(limit) => bytes_read <= limit,
        None => true,
    }
}

/// Releases `n` bytes if there is a limit.
pub(super) fn unclaim(limit: Option<usize>, bytes_read: &mut usize, n: usize)
    requires { CanRelease limit bytes_read.old n }
    ensures { bytes_read.new ≡ after_release limit bytes_read.old n }
{
    if limit.is_some() {
        *bytes_read -= n;
    }
}
