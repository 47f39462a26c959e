//! An encoding of an old shape whose first part that a new shape does not read is a sample.

use crate::sample::{put_each, put_number, put_repeated, put_sample, put_tag};
use bincode::config::Config;
use bincode::shape::Shape;
use bincode_evolution::evolution::{has_words, reads_all};
use std::alloc::{AllocError, Global};

/// Bytes, and the place of their sample.
#[derive(Drop)]
pub(crate) struct Sketch {
    /// The bytes so far.
    pub(crate) bytes: Vec<u8>,
    /// Which part, which part of that, and so on.
    pub(crate) place: Vec<usize>,
}

impl Sketch {
    /// No bytes, and the whole.
    pub(crate) fn new(alloc: Global) -> Sketch {
        Sketch {
            bytes: Vec::new(alloc),
            place: Vec::new(alloc),
        }
    }
}

/// Appends a word of the old shape, with the sample of this trial where the new shape does not read it. Recurses as
/// deep as the old shape.
#[cycle(draw)]
pub(crate) fn draw<C: Config>(
    sketch: &mut Sketch,
    new: &Shape,
    old: &Shape,
    trial: usize,
    config: C,
) -> Result<(), AllocError> {
    match old {
        Shape::Seq { claim: _, element } => match new {
            Shape::Seq {
                claim: _,
                element: newer,
            } => {
                put_number(&mut sketch.bytes, 1, 8, config)?;
                draw_part(sketch, 0, newer, element, trial, config)
            }
            _ => put_sample(&mut sketch.bytes, old, trial, config),
        },
        Shape::Array {
            len,
            claim: _,
            element,
        } => match new {
            Shape::Array {
                len: newer_len,
                claim: _,
                element: newer,
            } if *newer_len == *len && *len > 0 => {
                draw_part(sketch, 0, newer, element, trial, config)?;
                put_repeated(&mut sketch.bytes, element, *len - 1, config)
            }
            Shape::Tuple(newer) if newer.len() == *len => {
                draw_element(sketch, newer, element, trial, config)
            }
            _ => put_sample(&mut sketch.bytes, old, trial, config),
        },
        Shape::Tuple(parts) => match new {
            Shape::Tuple(newer) if newer.len() == parts.len() => {
                draw_parts(sketch, newer, parts, trial, config)
            }
            Shape::Array {
                len,
                claim: _,
                element,
            } if *len == parts.len() => draw_against(sketch, element, parts, trial, config),
            _ => put_sample(&mut sketch.bytes, old, trial, config),
        },
        Shape::Optional(part) => match new {
            Shape::Optional(newer) => {
                sketch.bytes.push(1)?;
                draw_part(sketch, 0, newer, part, trial, config)
            }
            Shape::Choice(variants) if variants.len() > 1 && trial > 1 => {
                sketch.bytes.push(1)?;
                draw_part(sketch, 0, &variants[1], part, trial, config)
            }
            _ => put_sample(&mut sketch.bytes, old, trial, config),
        },
        Shape::Choice(parts) => match new {
            Shape::Choice(newer) => draw_variant(sketch, newer, parts, trial, config),
            _ => put_sample(&mut sketch.bytes, old, trial, config),
        },
        _ => put_sample(&mut sketch.bytes, old, trial, config),
    }
}

/// Appends a word of a part, whose place is within the part of this index.
#[cycle(draw)]
fn draw_part<C: Config>(
    sketch: &mut Sketch,
    index: usize,
    new: &Shape,
    old: &Shape,
    trial: usize,
    config: C,
) -> Result<(), AllocError> {
    sketch.place.push(index)?;
    draw(sketch, new, old, trial, config)
}

/// Appends elements against parts.
#[cycle(draw)]
fn draw_element<C: Config>(
    sketch: &mut Sketch,
    newer: &[Shape],
    element: &Shape,
    trial: usize,
    config: C,
) -> Result<(), AllocError> {
    for index in 0..newer.len() {
        if !reads_all(&newer[index], element, config) {
            draw_part(sketch, index, &newer[index], element, trial, config)?;
            return put_repeated(&mut sketch.bytes, element, newer.len() - index - 1, config);
        }
        put_sample(&mut sketch.bytes, element, 0, config)?;
    }
    Ok(())
}

/// Appends parts against an element.
#[cycle(draw)]
fn draw_against<C: Config>(
    sketch: &mut Sketch,
    element: &Shape,
    parts: &[Shape],
    trial: usize,
    config: C,
) -> Result<(), AllocError> {
    for index in 0..parts.len() {
        if !reads_all(element, &parts[index], config) {
            draw_part(sketch, index, element, &parts[index], trial, config)?;
            return put_each(&mut sketch.bytes, &parts[index + 1..], config);
        }
        put_sample(&mut sketch.bytes, &parts[index], 0, config)?;
    }
    Ok(())
}

/// Appends parts against parts.
#[cycle(draw)]
fn draw_parts<C: Config>(
    sketch: &mut Sketch,
    newer: &[Shape],
    parts: &[Shape],
    trial: usize,
    config: C,
) -> Result<(), AllocError> {
    for index in 0..parts.len().min(newer.len()) {
        if !reads_all(&newer[index], &parts[index], config) {
            draw_part(sketch, index, &newer[index], &parts[index], trial, config)?;
            return put_each(&mut sketch.bytes, &parts[index + 1..], config);
        }
        put_sample(&mut sketch.bytes, &parts[index], 0, config)?;
    }
    Ok(())
}

/// Appends the first variant that is not read.
#[cycle(draw)]
fn draw_variant<C: Config>(
    sketch: &mut Sketch,
    newer: &[Shape],
    parts: &[Shape],
    trial: usize,
    config: C,
) -> Result<(), AllocError> {
    for index in 0..parts.len() {
        match newer.get(index) {
            Some(new) => {
                if !reads_all(new, &parts[index], config) {
                    put_tag(&mut sketch.bytes, index, false, config)?;
                    return draw_part(sketch, index, new, &parts[index], trial, config);
                }
            }
            None => {
                if has_words(&parts[index]) {
                    put_tag(&mut sketch.bytes, index, false, config)?;
                    sketch.place.push(index)?;
                    return put_sample(&mut sketch.bytes, &parts[index], 0, config);
                }
            }
        }
    }
    Ok(())
}
