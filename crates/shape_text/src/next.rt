//! The next encoding of a shape in a stream, or its end.
ghost use Rattle.std.specs.Prelude.{◌≡◌, ◌↔◌, ◌<◌, [], length, IsTrue, IsNone, IfSome, IfOk, IfErr};
ghost use Rattle.std.specs.Io.{StartsWith};
ghost use Rattle.std.specs.Io.KnownBytes.{Keeps};
ghost use Rattle.bincode_spec.specs.Layers.Agree.{IsCut};
ghost use Rattle.bincode_spec.specs.Slice.{IsDecoded};
ghost use Rattle.bincode_shape.specs.Counts.{IsCounted};
ghost use Rattle.bincode_shape.specs.Shapes.{format_of};
ghost use Rattle.shape_text.specs.Windows.{DoublesFrom, shown_bytes, source_of, bytes_left};
ghost use Rattle.shape_text.specs.Refusals.{Refuses};

use crate::window::{CHUNK, Window};
use bincode::config::Config;
use bincode::error::DecodeError;
use bincode::shape::{Measure, Shape, measure_shaped};
use std::alloc::Global;
use std::io;
use std::io::{ErrorKind, Read};
use thiserror::Error;

/// Why no next encoding is found.
#[derive(Debug, Drop, Error)]
pub enum NextError {
    /// The bytes that are left begin with no encoding of the shape within the limit. `UnexpectedEnd` says that the
    /// stream ended within one.
    #[error("{0}")]
    NoWord(DecodeError),
    /// A read failed, or memory for what was read was refused (`OutOfMemory`).
    #[error("{0}")]
    Read(io::Error),
}

/// Looks for the encoding of a shape that a stream goes on with, and returns its length in bytes and how many values it
/// has; `None` if no byte is left. Reads until the window shows the whole encoding, and consumes nothing: its bytes are
/// the first that the window shows, and `Window::skip` goes on after them. From 16 KiB on it tries again once at least
/// twice as many bytes are shown, so that a long encoding is measured few times; no contract speaks of the time. Fails
/// with `NoWord` if the bytes that are left begin with no encoding within the limit, or with `Read` if the stream
/// fails.
pub fn next_word<R: Read, C: Config>(
    alloc: Global,
    shape: &Shape,
    window: &mut Window<R>,
    config: C,
) -> Result<Option<Measure>, NextError>
    // Nothing is consumed, and what was shown is still shown.
    ensures kept { Keeps (bytes_left R.remaining window.old) (bytes_left R.remaining window.new) }
    ensures grown { StartsWith (shown_bytes window.new) (shown_bytes window.old) }
    // What is shown begins with an encoding within the limit, of this length and with so many values.
    ensures word { IfOk result (λ next. IfSome next (λ x. IsDecoded (format_of shape.now C.setting) C.bound
        (shown_bytes window.new) (λ m. IsCounted shape.now m x.values) x.bytes)) }
    // `None` is the answer exactly if no byte is left,
    ensures end { IfOk result (λ next. IfSome (bytes_left R.remaining window.old)
        (λ left. IsNone next ↔ (left ≡ []))) }
    // and `NoWord` only if bytes are left that begin with no encoding within the limit, for the reason that it has.
    ensures refused { IfErr result (λ e. Refuses (format_of shape.now C.setting) C.bound
        (bytes_left R.remaining window.old) e) }
{
    match window.has_more() {
        Ok(true) => {}
        Ok(false) => return Ok(None),
        Err(cause) => return Err(NextError::Read(cause)),
    }
    for _ in 0..u64::MAX {
        match look(alloc, shape, window, config) {
            Ok(Some(measure)) => return Ok(Some(measure)),
            Ok(None) => {}
            Err(why) => return Err(why),
        }
    }
    Err(NextError::Read(ErrorKind::Interrupted.into()))
}

/// Looks for an encoding in what the window shows. `None` if it ends too early, and more is shown now: of a long
/// window twice as much, or all that is left.
fn look<R: Read, C: Config>(
    alloc: Global,
    shape: &Shape,
    window: &mut Window<R>,
    config: C,
) -> Result<Option<Measure>, NextError>
    requires { 0 < length (shown_bytes window.old) }
    ensures kept { Keeps (bytes_left R.remaining window.old) (bytes_left R.remaining window.new) }
    ensures grown { StartsWith (shown_bytes window.new) (shown_bytes window.old) }
    ensures some { 0 < length (shown_bytes window.new) }
    ensures word { IfOk result (λ next. IfSome next (λ x. IsDecoded (format_of shape.now C.setting) C.bound
        (shown_bytes window.new) (λ m. IsCounted shape.now m x.values) x.bytes)) }
    ensures more { IfOk result (λ next. IsNone next
        → length (shown_bytes window.old) < length (shown_bytes window.new)) }
    ensures doubled { IfOk result (λ next. IsNone next → DoublesFrom CHUNK (shown_bytes window.old)
        (shown_bytes window.new) (R.remaining (source_of window.new))) }
    ensures refused { IfErr result (λ e. Refuses (format_of shape.now C.setting) C.bound
        (bytes_left R.remaining window.old) e) }
{
    match measure_shaped(alloc, shape, window.bytes(), config) {
        Ok(measure) => Ok(Some(measure)),
        Err(why) => {
            if !is_cut(&why) {
                return Err(NextError::NoWord(why));
            }
            match window.read_more() {
                Ok(true) => Ok(None),
                Ok(false) => Err(NextError::NoWord(why)),
                Err(cause) => Err(NextError::Read(cause)),
            }
        }
    }
}

/// Whether the error says that the bytes ended too early.
pub(crate) fn is_cut(why: &DecodeError) -> bool
    ensures { IsTrue result ↔ IsCut why.now }
{
    matches!(why, DecodeError::UnexpectedEnd { additional: _ })
}
