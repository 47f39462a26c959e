//! Shapes that are spelled in a short text. Spaces may stand between its parts.
//!
//! | Text | What it spells |
//! |---|---|
//! | `()` | nothing, in no bytes |
//! | `bool`, `char`, `text` | a truth value, a character, a text |
//! | `u8` .. `u128`, `usize`, `i8` .. `i128`, `isize` | a number |
//! | `[T]` | a list or a set: a length, and then as many T; bytes are `[u8]` |
//! | `[(K, V)]` | a map: a length, and then as many pairs of a K and a V |
//! | `[T; 4]` | four T |
//! | `(A, B)` | an A and then a B; one alone is `(A,)` |
//! | `T?` | an optional T |
//! | `A\|B` | an enum: the tag 0 and an A, or the tag 1 and a B |
//! | `\|A` | an enum of one variant: the tag 0 and an A. A bar may also stand before the first of several |
//! | `(T)` | T: brackets around a part |
//!
//! At most 64 brackets, question marks and bars stand around a part, counted together.
ghost use Rattle.std.specs.Prelude.{◌≡◌, ◌≤◌, ◌<◌, ◌+◌, ◌^◌, ℕ, List, [], ◌∷◌, IfOk, Box};
ghost use Rattle.std.specs.declared.alloc.Global.{Global};
ghost use Rattle.bincode_shape.specs.Depth.{depth as depth_of};
ghost use Rattle.bincode_shape.specs.declared.shape.Shape.{Shape};
ghost use Rattle.bincode_shape.specs.declared.shape.Shape.TheVariants as shapes;
ghost use Rattle.shape_grammar.specs.Grammar.{Spells, Alone, Marked, Any, Length, IsSpelled};
ghost use Rattle.shape_grammar.specs.Marks.{Mark};
ghost use Rattle.shape_grammar.specs.Names.{shape_named};

use crate::claims::claim_of;
use crate::nested::{Nested, Parts};
use crate::scanner::{Met, Scanner};
use bincode_shape::shape::Shape;
use std::alloc::{AllocError, AllocFailed, Global};
use thiserror::Error;

/// How many brackets, question marks and bars may stand around a part.
const MAX_DEPTH: u32 = 64;

/// What a part begins with, and all names that there are.
const PART: &str =
    "`(`, `[` or a name (bool, char, text, u8, u16, u32, u64, u128, usize, i8, i16, i32, i64, i128 or isize)";

/// Why a text is no shape.
#[derive(Debug, Drop, Error)]
pub enum ShapeTextError {
    /// Something else is expected at this offset.
    #[error("at byte {place}: expected {expected}, and not {met}")]
    Expected {
        /// The offset in bytes.
        place: usize,
        /// What is expected there.
        expected: &'static str,
        /// What is there.
        met: Met,
    },
    /// With the bracket, question mark or bar at this offset more than 64 are around a part.
    #[error("at byte {place}: parts within parts, deeper than {MAX_DEPTH} levels")]
    TooDeep {
        /// The offset in bytes.
        place: usize,
    },
    /// An allocation was refused.
    #[error("memory was refused")]
    Memory,
}

impl From<AllocError> for ShapeTextError {
    fn from(_refused: AllocError) -> ShapeTextError {
        ShapeTextError::Memory
    }
}

impl<T: Drop> From<AllocFailed<T>> for ShapeTextError {
    fn from(_refused: AllocFailed<T>) -> ShapeTextError {
        ShapeTextError::Memory
    }
}

/// Parses a shape. Fails with `Expected` or `TooDeep` and the offset if the text is no shape, or with `Memory` if an
/// allocation is refused.
pub fn shape_of(alloc: Global, text: &str) -> Result<Shape, ShapeTextError>
    // The whole text spells it,
    ensures spelled { IfOk result (IsSpelled text.now) }
    // and it is at most 64 deep.
    ensures deep { IfOk result (λ shape. depth_of shape ≤ 64) }
{
    let mut scanner = Scanner::new(text);
    let read = any_shape(alloc, &mut scanner, MAX_DEPTH)?;
    if !scanner.is_at_end() {
        return expected(&scanner, "the end, `?` or `|`");
    }
    Ok(read.shape)
}

/// One part, or several with `|` between them, or some after a `|` before the first. At most `depth` levels are read,
/// as by each function below.
#[cycle(shapes)]
fn any_shape(alloc: Global, scanner: &mut Scanner<'_>, depth: u32) -> Result<Nested, ShapeTextError>
    ensures levels { IfOk result (λ read. read.levels ≤ depth) }
    ensures spelled { IfOk result (λ read. Spells Any scanner.old.rest.now (read.shape ∷ []) scanner.new.rest.now) }
{
    let bar = scanner.place();
    if scanner.takes('|') {
        barred_shape(alloc, scanner, depth, bar)
    } else {
        unbarred_shape(alloc, scanner, depth)
    }
}

/// One part, or several with `|` between them.
#[cycle(shapes)]
fn unbarred_shape(
    alloc: Global,
    scanner: &mut Scanner<'_>,
    depth: u32,
) -> Result<Nested, ShapeTextError>
    ensures levels { IfOk result (λ read. read.levels ≤ depth) }
    ensures spelled { IfOk result (λ read. Spells Any scanner.old.rest.now (read.shape ∷ []) scanner.new.rest.now) }
{
    let first = optional_shape(alloc, scanner, depth)?;
    let bar = scanner.place();
    if !scanner.takes('|') {
        return Ok(first);
    }
    let second = optional_shape(alloc, scanner, depth)?;
    let mut variants = Parts::new(alloc);
    variants.push(first)?;
    variants.push(second)?;
    for _ in 0..u64::MAX {
        if !scanner.takes('|') {
            return choice(variants, depth, bar);
        }
        variants.push(optional_shape(alloc, scanner, depth)?)?;
    }
    expected(scanner, "fewer variants")
}

/// What follows a `|` at this offset, before the first variant: that one, and any after it.
#[cycle(shapes)]
fn barred_shape(
    alloc: Global,
    scanner: &mut Scanner<'_>,
    depth: u32,
    bar: usize,
) -> Result<Nested, ShapeTextError>
    ensures levels { IfOk result (λ read. read.levels ≤ depth) }
    ensures spelled { IfOk result (λ read. (a : List ℕ) → Mark 124 a scanner.old.rest.now
        → Spells Any a (read.shape ∷ []) scanner.new.rest.now) }
{
    let mut variants = Parts::new(alloc);
    variants.push(optional_shape(alloc, scanner, depth)?)?;
    for _ in 0..u64::MAX {
        if !scanner.takes('|') {
            return choice(variants, depth, bar);
        }
        variants.push(optional_shape(alloc, scanner, depth)?)?;
    }
    expected(scanner, "fewer variants")
}

/// A part, and the question marks after it.
#[cycle(shapes)]
fn optional_shape(
    alloc: Global,
    scanner: &mut Scanner<'_>,
    depth: u32,
) -> Result<Nested, ShapeTextError>
    ensures levels { IfOk result (λ read. read.levels ≤ depth) }
    ensures spelled { IfOk result (λ read. Spells Marked scanner.old.rest.now (read.shape ∷ []) scanner.new.rest.now) }
{
    let part = one_shape(alloc, scanner, depth)?;
    question_marks(alloc, scanner, part, depth)
}

/// A name, or what is in brackets.
#[cycle(shapes)]
fn one_shape(alloc: Global, scanner: &mut Scanner<'_>, depth: u32) -> Result<Nested, ShapeTextError>
    ensures levels { IfOk result (λ read. read.levels ≤ depth) }
    ensures spelled { IfOk result (λ read. Spells Alone scanner.old.rest.now (read.shape ∷ []) scanner.new.rest.now) }
{
    let place = scanner.place();
    if scanner.takes('(') {
        if scanner.takes(')') {
            return Ok(innermost(Shape::Unit));
        }
        parts(alloc, scanner, one_less(depth, place)?)
    } else if scanner.takes('[') {
        items(alloc, scanner, one_less(depth, place)?)
    } else {
        Ok(innermost(scalar(scanner)?))
    }
}

/// What follows `(`: a part in brackets, or a tuple.
#[cycle(shapes)]
fn parts(alloc: Global, scanner: &mut Scanner<'_>, depth: u32) -> Result<Nested, ShapeTextError>
    requires { depth + 1 < 2 ^ 32 }
    ensures levels { IfOk result (λ read. read.levels ≤ depth + 1) }
    ensures spelled { IfOk result (λ read. (a : List ℕ) → Mark 40 a scanner.old.rest.now
        → Spells Alone a (read.shape ∷ []) scanner.new.rest.now) }
{
    let first = any_shape(alloc, scanner, depth)?;
    if scanner.takes(')') {
        return Ok(Nested {
            shape: first.shape,
            levels: first.levels + 1,
        });
    }
    let mut parts = Parts::new(alloc);
    parts.push(first)?;
    for _ in 0..u64::MAX {
        if !scanner.takes(',') {
            return expected(scanner, "`,`, `)`, `?` or `|`");
        }
        if scanner.takes(')') {
            return Ok(tuple(parts));
        }
        parts.push(any_shape(alloc, scanner, depth)?)?;
        if scanner.takes(')') {
            return Ok(tuple(parts));
        }
    }
    expected(scanner, "`)`")
}

/// What follows `[`: a list, or an array with its length.
#[cycle(shapes)]
fn items(alloc: Global, scanner: &mut Scanner<'_>, depth: u32) -> Result<Nested, ShapeTextError>
    requires { depth + 1 < 2 ^ 32 }
    ensures levels { IfOk result (λ read. read.levels ≤ depth + 1) }
    ensures spelled { IfOk result (λ read. (a : List ℕ) → Mark 91 a scanner.old.rest.now
        → Spells Alone a (read.shape ∷ []) scanner.new.rest.now) }
{
    let read = any_shape(alloc, scanner, depth)?;
    let levels = read.levels + 1;
    let claim = claim_of(&read.shape);
    let element = Box::new(alloc, read.shape)?;
    let shape = if scanner.takes(';') {
        let len = length(scanner)?;
        Shape::Array {
            len,
            claim,
            element,
        }
    } else {
        Shape::Seq { claim, element }
    };
    if !scanner.takes(']') {
        return expected(scanner, "`]`, `;`, `?` or `|`");
    }
    Ok(Nested { shape, levels })
}

/// Consumes the question marks that come next, and makes a part optional for each.
fn question_marks(
    alloc: Global,
    scanner: &mut Scanner<'_>,
    part: Nested,
    depth: u32,
) -> Result<Nested, ShapeTextError>
    requires { part.levels ≤ depth }
    ensures levels { IfOk result (λ read. read.levels ≤ depth) }
    ensures spelled { IfOk result (λ read. (a : List ℕ) → Spells Marked a (part.shape ∷ []) scanner.old.rest.now
        → Spells Marked a (read.shape ∷ []) scanner.new.rest.now) }
{
    let mut part = part;
    for _ in 0..u64::MAX {
        let place = scanner.place();
        if !scanner.takes('?') {
            return Ok(part);
        }
        part = optional(alloc, part, depth, place)?;
    }
    expected(scanner, "fewer question marks")
}

/// An optional part, from the question mark at this offset.
fn optional(alloc: Global, part: Nested, depth: u32, place: usize) -> Result<Nested, ShapeTextError>
    ensures levels { IfOk result (λ read. read.levels ≤ depth) }
    ensures shape { IfOk result (λ read. (held : Box Shape Global) × (held.value ≡ part.shape)
        × (read.shape ≡ shapes.Optional held)) }
{
    if part.levels >= depth {
        return Err(ShapeTextError::TooDeep { place });
    }
    Ok(Nested {
        shape: Shape::Optional(Box::new(alloc, part.shape)?),
        levels: part.levels + 1,
    })
}

/// A choice of some variants, from the first bar between them, at this offset.
fn choice(variants: Parts, depth: u32, place: usize) -> Result<Nested, ShapeTextError>
    ensures levels { IfOk result (λ read. read.levels ≤ depth) }
    ensures shape { IfOk result (λ read. read.shape ≡ shapes.Choice variants.shapes) }
{
    if variants.levels >= depth {
        return Err(ShapeTextError::TooDeep { place });
    }
    Ok(Nested {
        shape: Shape::Choice(variants.shapes),
        levels: variants.levels + 1,
    })
}

/// These parts, in brackets.
fn tuple(parts: Parts) -> Nested
    requires { parts.levels + 1 < 2 ^ 32 }
    ensures levels { result.levels ≡ parts.levels + 1 }
    ensures shape { result.shape ≡ shapes.Tuple parts.shapes }
{
    Nested {
        shape: Shape::Tuple(parts.shapes),
        levels: parts.levels + 1,
    }
}

/// A shape without parts.
fn innermost(shape: Shape) -> Nested
    requires { depth_of shape ≡ 0 }
    ensures levels { result.levels ≡ 0 }
    ensures shape { result.shape ≡ shape }
{
    Nested { shape, levels: 0 }
}

/// How many levels are left in the bracket at this offset.
fn one_less(depth: u32, place: usize) -> Result<u32, ShapeTextError>
    ensures { IfOk result (λ less. depth ≡ less + 1) }
{
    match depth.checked_sub(1) {
        Some(less) => Ok(less),
        None => Err(ShapeTextError::TooDeep { place }),
    }
}

/// The length of an array.
fn length(scanner: &mut Scanner<'_>) -> Result<usize, ShapeTextError>
    ensures { IfOk result (λ len. Length len scanner.old.rest.now scanner.new.rest.now) }
{
    let place = scanner.place();
    let met = scanner.met();
    let Ok(length) = scanner.word().parse::<usize>() else {
        return Err(ShapeTextError::Expected {
            place,
            expected: "a length below 2^64",
            met,
        });
    };
    Ok(length)
}

/// A shape that is one name.
fn scalar(scanner: &mut Scanner<'_>) -> Result<Shape, ShapeTextError>
    ensures deep { IfOk result (λ shape. depth_of shape ≡ 0) }
    ensures spelled { IfOk result (λ shape. Spells Alone scanner.old.rest.now (shape ∷ []) scanner.new.rest.now) }
{
    let place = scanner.place();
    let met = scanner.met();
    match named(scanner.word()) {
        Some(shape) => Ok(shape),
        None => Err(ShapeTextError::Expected {
            place,
            expected: PART,
            met,
        }),
    }
}

/// The shape of this name.
fn named(name: &str) -> Option<Shape>
    ensures { result ≡ shape_named name.now }
{
    Some(match name {
        "bool" => Shape::Bool,
        "char" => Shape::Char,
        "text" => Shape::Text,
        "u8" => Shape::U8,
        "u16" => Shape::U16,
        "u32" => Shape::U32,
        "u64" => Shape::U64,
        "u128" => Shape::U128,
        "usize" => Shape::Usize,
        "i8" => Shape::I8,
        "i16" => Shape::I16,
        "i32" => Shape::I32,
        "i64" => Shape::I64,
        "i128" => Shape::I128,
        "isize" => Shape::Isize,
        _ => return None,
    })
}

/// The error that something else is expected here.
fn expected<T>(scanner: &Scanner<'_>, expected: &'static str) -> Result<T, ShapeTextError>
    ensures { IfOk result (λ _. ⊥) }
{
    Err(ShapeTextError::Expected {
        place: scanner.place(),
        expected,
        met: scanner.met(),
    })
}
