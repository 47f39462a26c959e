//! The next value of a stream, or its end.
ghost use Rattle.std.specs.Prelude.{◌≡◌, ◌≢◌, ◌⊎◌, ◌↔◌, [], IsTrue, IsNone, IfSome, IfOk, OnErr, IfErr, MatchResult};
ghost use Rattle.std.specs.Io.KnownBytes.{Keeps};
ghost use Rattle.bincode_spec.specs.Decoding.{IsExcused, WordRead, AcceptsAll, ReportsFault, EnforcesLimit};
ghost use Rattle.bincode_spec.specs.Device.{Takes};
ghost use Rattle.bincode_io.specs.Stream.{TellsBytes, known_bytes, EndsShort, IsIo, stream_errors};
ghost use Rattle.bincode.specs.Streamed.{IsStreamRead};

use crate::reader::decode_from_reader_with;
use crate::slice::decode_from_slice;
use crate::window::{WindowReader, failure_of};
use bincode_base::config::Config;
use bincode_base::error::{DecodeError, StreamError};
use bincode_decode::decode::Decode;
use std::alloc::Global;
use std::io;
use std::io::{BufRead, ErrorKind};

/// Whether a stream has ended. Consumes nothing. Retries a look that a signal interrupts.
fn has_ended<R: BufRead>(stream: &mut R) -> Result<bool, StreamError>
    ensures kept { Keeps (R.remaining stream.old) (R.remaining stream.new) }
    ensures end { IfOk result (λ ended. IfSome (R.remaining stream.old) (λ left. IsTrue ended ↔ (left ≡ []))) }
{
    for _ in 0..usize::MAX {
        match stream.fill_buf() {
            Ok(shown) => return Ok(shown.is_empty()),
            Err(cause) => {
                if cause.kind() != ErrorKind::Interrupted {
                    return Err(StreamError::from(cause));
                }
            }
        }
    }
    Err(StreamError::from(io::Error::from(ErrorKind::Interrupted)))
}

/// Decodes a value from what the buffer of a stream shows, and consumes just its encoding. Fails, with nothing
/// consumed, if the buffer shows no whole encoding within the limit, an allocation is refused or the stream fails; the
/// error is the stream's, if that is why.
fn decode_shown<D: Decode<()>, C: Config, R: BufRead>(
    alloc: Global,
    src: &mut R,
    config: C,
) -> Result<D, Option<StreamError>>
    ensures word { TellsBytes (R.remaining src.old) → IfOk result (λ v. WordRead (D.words.format C.setting) C.bound
        (known_bytes (R.remaining src.old)) (known_bytes (R.remaining src.new)) (λ m. D.words.decodes_to m v)) }
    ensures kept { OnErr result (Keeps (R.remaining src.old) (R.remaining src.new)) }
    ensures is_known { TellsBytes (R.remaining src.old) → TellsBytes (R.remaining src.new) }
{
    let shown = match src.fill_buf() {
        Ok(shown) => shown,
        Err(cause) => return Err(failure_of(cause)),
    };
    let Ok((value, taken)) = decode_from_slice(alloc, shown, config) else {
        return Err(None);
    };
    src.consume(taken);
    Ok(value)
}

/// Decodes a value through a window, of a stream that may have failed when its buffer was looked at.
fn decode_windowed<Context: Drop, D: Decode<Context>, C: Config, R: BufRead>(
    alloc: Global,
    src: &mut R,
    failure: Option<StreamError>,
    config: C,
    context: Context,
) -> Result<D, DecodeError>
    ensures { IsStreamRead R.remaining D.words.may_allocate (D.words.format C.setting) C.bound D.words.decodes_to
        result src.old src.new }
{
    let mut context = context;
    let mut reader = WindowReader::new(src, failure);
    decode_from_reader_with(alloc, &mut reader, &config, &mut context)
}

/// `decode_from_std_read` for a buffered stream: it decodes from what the buffer shows, as from a slice, and through a
/// window of 512 bytes where an encoding goes on after it. So of a long one what the buffer shows is decoded twice.
/// Errors, and what is consumed, are those of `decode_from_std_read`.
pub fn decode_from_buf_read<D: Decode<()>, C: Config, R: BufRead>(
    alloc: Global,
    src: &mut R,
    config: C,
) -> Result<D, DecodeError>
    // The fields of `IsRead` say what is taken, how each fault and each excess is reported, and what a failure leaves.
    ensures { IsStreamRead R.remaining D.words.may_allocate (D.words.format C.setting) C.bound D.words.decodes_to
        result src.old src.new }
{
    match decode_shown(alloc, src, config) {
        Ok(value) => Ok(value),
        Err(failure) => decode_windowed(alloc, src, failure, config, ()),
    }
}

/// `decode_from_buf_read` for a type whose decoder asks for a context, which does not change what the bytes mean. It
/// decodes through a window alone, since a second try would find the context changed.
pub fn decode_from_buf_read_with_context<Context: Drop, D: Decode<Context>, C: Config, R: BufRead>(
    alloc: Global,
    src: &mut R,
    config: C,
    context: Context,
) -> Result<D, DecodeError>
    // The fields of `IsRead` say what is taken, how each fault and each excess is reported, and what a failure leaves.
    ensures { IsStreamRead R.remaining D.words.may_allocate (D.words.format C.setting) C.bound D.words.decodes_to
        result src.old src.new }
{
    decode_windowed(alloc, src, None, config, context)
}

/// Decodes the next value of a buffered stream and consumes just its encoding; `None` if the stream has ended before
/// its first byte. Errors are those of `decode_from_std_read`; a stream that ends within an encoding gives `Io`. So a
/// loop tells a clean end of the stream from a cut one:
///
/// ```
/// for _ in 0..u64::MAX {
///     let Some(record) = decode_next_from_std_read(alloc, &mut stream, settings)? else {
///         break;
///     };
///     keep(record)?;
/// }
/// ```
///
/// A type with an empty encoding, as `()`, consumes nothing: while bytes are left, it is decoded again at each call.
pub fn decode_next_from_std_read<D: Decode<()>, C: Config, R: BufRead>(
    alloc: Global,
    src: &mut R,
    config: C,
) -> Result<Option<D>, DecodeError>
    // These clauses speak of streams whose bytes are known. `None` is the answer exactly if no byte is left,
    ensures none { TellsBytes (R.remaining src.old) → IfOk result (λ next. IsNone next
        ↔ (known_bytes (R.remaining src.old) ≡ [])) }
    // and it is, unless the stream fails.
    ensures end { TellsBytes (R.remaining src.old) → known_bytes (R.remaining src.old) ≡ [] → MatchResult result
        (λ _. known_bytes (R.remaining src.new) ≡ []) IsIo }
    // What was consumed is an encoding of the value whose charges stay within the limit.
    ensures word { TellsBytes (R.remaining src.old) → IfOk result (λ next. IfSome next (λ v. WordRead
        (D.words.format C.setting) C.bound (known_bytes (R.remaining src.old)) (known_bytes (R.remaining src.new))
        (λ m. D.words.decodes_to m v))) }
    // If a byte is left, each encoding within the limit is accepted,
    ensures found { TellsBytes (R.remaining src.old) → known_bytes (R.remaining src.old) ≢ []
        → AcceptsAll (D.words.format C.setting) C.bound (IsExcused stream_errors D.words.may_allocate 0 0)
        (known_bytes (R.remaining src.old)) result }
    // each fault within the limit is reported,
    ensures fault { TellsBytes (R.remaining src.old) → known_bytes (R.remaining src.old) ≢ []
        → ReportsFault EndsShort (D.words.format C.setting) C.bound (IsExcused stream_errors D.words.may_allocate 0 0)
        (known_bytes (R.remaining src.old)) result }
    // and charges that pass the limit are refused.
    ensures limit { TellsBytes (R.remaining src.old) → known_bytes (R.remaining src.old) ≢ []
        → EnforcesLimit (D.words.format C.setting) C.bound (IsExcused stream_errors D.words.may_allocate 0 0)
        (known_bytes (R.remaining src.old)) result }
    // After an error a suffix of the bytes is left, unless the stream failed.
    ensures left { TellsBytes (R.remaining src.old) → IfErr result (λ e. IsIo e
        ⊎ Takes (known_bytes (R.remaining src.old)) (known_bytes (R.remaining src.new))) }
    ensures is_known { TellsBytes (R.remaining src.old) → TellsBytes (R.remaining src.new) }
{
    match has_ended(src) {
        Ok(true) => Ok(None),
        Ok(false) => match decode_from_buf_read(alloc, src, config) {
            Ok(value) => Ok(Some(value)),
            Err(e) => Err(e),
        },
        Err(inner) => Err(DecodeError::Io {
            inner,
            additional: 1,
        }),
    }
}
