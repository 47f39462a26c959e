//! Results that are rebuilt, for speed.
ghost use Rattle.std.specs.Prelude.{◌≡◌};

use bincode_base::error::EncodeError;

/// Returns its argument, rebuilt variant by variant. For speed only, after what writes a piece, an integer or a value:
/// a result whose error may hold a payload is else copied from layer to layer, even if nothing fails. If LLVM sees that
/// only these two errors can occur, it drops the copies (docs/dev/PERFORMANCE.md, "Results that are rebuilt").
#[inline(always)]
pub fn rebuild_result(answer: Result<(), EncodeError>) -> Result<(), EncodeError>
    ensures { result ≡ answer }
{
    match answer {
        Ok(()) => Ok(()),
        Err(EncodeError::UnexpectedEnd) => Err(EncodeError::UnexpectedEnd),
        Err(EncodeError::Memory) => Err(EncodeError::Memory),
        Err(e) => Err(e),
    }
}
