//! Encoding into a slice that may be too short.
ghost use Rattle.std.specs.Prelude.{◌≡◌, ◌⊎◌, IfOk, IfErr, length};
ghost use Rattle.bincode_base.specs.declared.error.EncodeError.TheVariants.{UnexpectedEnd};
ghost use Rattle.bincode_spec.specs.Allowed.{AllowedWord};
ghost use Rattle.bincode_spec.specs.Encoding.{IsReady, Encodes};
ghost use Rattle.bincode_spec.specs.Slice.{WordWritten, FrontWritten, FitsExactly};

use crate::writer::encode_with;
use bincode_base::config::{Config, IntEncoding};
use bincode_base::error::EncodeError;
use bincode_encode::encode::Encode;
use bincode_io::write::{SliceWriter, Writer};

/// The bytes of the longest integer. A value that may be a single integer has one check of the room in any case.
const LONGEST_NUMBER: usize = 16;

/// Whether integers are fixed, the maximum size of the value is known, and the slice is shorter than it. After `false`
/// the compiler knows that each piece of such a value fits, and drops the checks (docs/dev/PERFORMANCE.md, "One check
/// of the capacity").
#[inline(always)]
pub(crate) fn needs_checks<C: Config>(dst: &[u8], most: Option<usize>, config: &C) -> bool {
    match (config.int_encoding(), most) {
        (IntEncoding::Fixed, Some(most)) => LONGEST_NUMBER < most && dst.len() < most,
        _ => false,
    }
}

/// `encode_into_slice` for a slice that may be too short: checks the room before each piece.
#[cold]
#[inline(never)]
pub(crate) fn encode_into_short<E: Encode, C: Config>(
    val: E,
    dst: &mut [u8],
    config: &C,
) -> Result<usize, EncodeError>
    // These are the clauses of `encode_into_slice`.
    ensures word { IfOk result (λ n. WordWritten (AllowedWord (E.words.means val) (E.words.format C.setting))
        n dst.old dst.new) }
    ensures fault { IfErr result (λ e. (e ≡ UnexpectedEnd) ⊎ E.words.own_errors e) }
    ensures room { FitsExactly (IsReady (E.words.writable C.setting val)
        (AllowedWord (E.words.means val) (E.words.format C.setting)))
        E.words.own_errors (length dst.old) result }
    ensures left { IfErr result (FrontWritten (IsReady (E.words.writable C.setting val)
        (AllowedWord (E.words.means val) (E.words.format C.setting))) dst.old dst.new) }
{
    let mut writer = SliceWriter::new(dst);
    encode_through(&val, &mut writer, config)?;
    Ok(writer.bytes_written())
}

/// `encode_with` through a reference to the reference. So it is compiled a second time, and the code for a slice that
/// is long enough keeps one caller, into which the compiler inlines it.
fn encode_through<E: Encode, W: Writer, C: Config>(
    val: &E,
    writer: &mut W,
    config: &C,
) -> Result<(), EncodeError>
    ensures { Encodes W.adds W.refuses (λ w. w) W.loans (E.words.writable C.setting val.now)
        (AllowedWord (E.words.means val.now) (E.words.format C.setting)) E.words.own_errors result writer.old
        writer.new }
{
    let mut lent = writer;
    encode_with(val, &mut lent, config)
}
