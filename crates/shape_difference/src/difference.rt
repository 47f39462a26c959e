//! Bytes that show a difference.
ghost use Rattle.std.specs.Prelude.{◌≡◌, ◌&&◌, not, IfOk, IfSome, IsTrue, []};
ghost use Rattle.bincode_base.specs.declared.error.DecodeError.TheVariants.{Memory, LimitExceeded};
ghost use Rattle.bincode_shape.specs.Shapes.{format_of, meaning};
ghost use Rattle.bincode_evolution.specs.Reading.{ReadsTo};
ghost use Rattle.shape_difference.specs.Alike.{alike};
ghost use Rattle.shape_difference.specs.Differing.{Shows};

use crate::alike::are_alike;
use crate::draw::{Sketch, draw};
use crate::sample::{MOST_VALUES, TRIALS, weight_of};
use bincode::config::Config;
use bincode::error::DecodeError;
use bincode::shape::{DecodeWithinError, Shape, Value, decode_shaped_within};
use std::alloc::{AllocError, Global};

/// The most parts of one shape times those of the other for which samples are tried.
const MOST_WORK: usize = 268_435_456;

/// What a new shape does not read as an old one does.
#[derive(Debug, Drop)]
pub struct Difference {
    /// A word of the old shape, which is no word of the new one with the same meaning.
    pub word: Vec<u8>,
    /// Where the shapes differ: in which part, in which part of that, and so on, each counted from 0. The element of a
    /// list and the part of an option are part 0.
    pub place: Vec<usize>,
}

/// Bytes that show that the new shape does not read all words of the old one, if some are found: samples are made where
/// the rules of `reads_all` tell that the two differ, and each is tested by decoding it. `None` says nothing, and is
/// the answer for very large shapes. Fails if an allocation is refused.
pub fn explain<C: Config>(
    alloc: Global,
    new: &Shape,
    old: &Shape,
    config: C,
) -> Result<Option<Difference>, AllocError>
    ensures { IfOk result (λ found. IfSome found (λ difference. Shows (format_of new.now C.setting)
        (format_of old.now C.setting) difference.word.items)) }
{
    if weight_of(new).saturating_mul(weight_of(old)) > MOST_WORK {
        return Ok(None);
    }
    for trial in 0..TRIALS {
        let mut sketch = Sketch::new(alloc);
        draw(&mut sketch, new, old, trial, config)?;
        if shows(alloc, new, old, &sketch.bytes, config) {
            let Sketch { bytes, place } = sketch;
            return Ok(Some(Difference { word: bytes, place }));
        }
    }
    Ok(None)
}

/// Where the rules of `reads_all` tell that the new shape does not read all words of the old one: in which part, in
/// which part of that, and so on, as the place of a `Difference`. Fails if an allocation is refused.
pub fn place_of<C: Config>(
    alloc: Global,
    new: &Shape,
    old: &Shape,
    config: C,
) -> Result<Vec<usize>, AllocError> {
    let mut sketch = Sketch::new(alloc);
    draw(&mut sketch, new, old, 0, config)?;
    Ok(sketch.place)
}

/// Whether decoding shows that all of these bytes are a word of the old shape, and not one of the new shape with the
/// same meaning. `false` says nothing: it may be for want of memory, because of the limit, or because of many values.
pub fn shows<C: Config>(alloc: Global, new: &Shape, old: &Shape, word: &[u8], config: C) -> bool
    ensures { IsTrue result → Shows (format_of new.now C.setting) (format_of old.now C.setting) word.now }
{
    match decode_shaped_within(alloc, old, word, config, MOST_VALUES) {
        Ok((value, taken)) => taken == word.len() && is_unread(alloc, new, &value, word, config),
        Err(_) => false,
    }
}

/// Whether decoding shows that all of these bytes are no word of the shape that means the same as the value.
fn is_unread<C: Config>(alloc: Global, shape: &Shape, value: &Value, word: &[u8], config: C) -> bool
    ensures { IsTrue result → ReadsTo ((format_of shape.now C.setting).read word.now) (meaning value.now) [] → ⊥ }
{
    match decode_shaped_within(alloc, shape, word, config, MOST_VALUES) {
        Ok((read, taken)) => is_other(value, &read, taken == word.len()),
        Err(DecodeWithinError::Decode(error)) => is_fault(&error),
        Err(_) => false,
    }
}

/// Whether what was read is something else, or not read from the whole.
fn is_other(value: &Value, read: &Value, is_whole: bool) -> bool
    ensures { result ≡ not (is_whole && alike value.now read.now) }
{
    !(is_whole && are_alike(value, read))
}

/// Whether the error tells a fault of the bytes.
fn is_fault(error: &DecodeError) -> bool
    ensures { IsTrue result → (error.now ≡ Memory → ⊥) × (error.now ≡ LimitExceeded → ⊥) }
{
    match error {
        DecodeError::Memory => false,
        DecodeError::LimitExceeded => false,
        _ => true,
    }
}
