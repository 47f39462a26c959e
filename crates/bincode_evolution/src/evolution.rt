//! Whether a new shape reads all that an old one wrote, and whether a shape has values at all.
ghost use Rattle.std.specs.Prelude.{◌≡◌, ◌↔◌, false, IfSome, IsSome, IsTrue};
ghost use Rattle.bincode_base.specs.Setting.{Setting};
ghost use Rattle.bincode_shape.specs.Describing.{Describes};
ghost use Rattle.bincode_shape.specs.Shapes.{format_of};
ghost use Rattle.bincode_shape.specs.declared.shape.Shape.{Shape};
ghost use Rattle.bincode_evolution.specs.Kinds.{IsClear};
ghost use Rattle.bincode_evolution.specs.Reading.{Differs, WordOf, ReadsAll};
ghost use Rattle.bincode_evolution.specs.Rules.{has_words, is_read};

use crate::compare::compare;
use crate::words::does_have_words;
use bincode_base::config::Config;
use bincode_shape::described::Described;
use bincode_shape::shape::Shape;
use std::alloc::Global;

/// Whether all words of the old shape are words of the new one, with the same meaning. Then a decoder without a limit
/// reads by the new shape all that it reads by the old one: the same value, from as many bytes. Under a limit it may
/// need a larger one, since a wider integer is charged by its width, and an element by its claim.
///
/// The shapes are compared part by part, and lengths before parts: each pair of places is visited once, so that the
/// time grows with the size of the shapes, but where arrays stand against tuples in both. `false` says that some part
/// is not read. So some word is not, in the clear cases: scalars, values of different kinds, rows of different lengths,
/// and lists, options and enums of such. Else a whole may still be read where its parts are not: with fixed integers
/// and the lowest byte first, a tuple of `u32` and an option reads each word of a tuple of `u8` and an enum of one
/// variant without bytes. `explain` of `shape_difference` looks for bytes that show a difference.
pub fn reads_all<C: Config>(new: &Shape, old: &Shape, config: C) -> bool
    ensures by_rules { result ≡ is_read C.setting.encoding old.now new.now }
    ensures reads { IsTrue result → ReadsAll (format_of new.now C.setting) (format_of old.now C.setting) }
    // Where the case is clear, `false` is exact, too: an input shows it.
    ensures exact { result ≡ false → IsClear C.setting.encoding new.now old.now
        → Differs (format_of new.now C.setting) (format_of old.now C.setting) }
{
    compare(new, old, config.int_encoding()).is_read
}

/// Whether some bytes are a word of the shape: whether there is a value of it at all. Of an enum without variants there
/// is none, nor is there of what always holds such a part. Visits each part once, and recurses as deep as the shape.
pub fn has_words(shape: &Shape) -> bool
    ensures by_rules { result ≡ has_words shape.now }
    ensures exact { (s : Setting) → (IsTrue result ↔ WordOf (format_of shape.now s)) }
{
    does_have_words(shape)
}

/// Whether all words of an old type are words of a new one, with the same meaning, by the shapes of the two. `None` if
/// an allocation is refused.
pub fn type_reads_all<New: Described, Old: Described, C: Config>(
    alloc: Global,
    config: C,
) -> Option<bool>
    // The answer is that of the rules for shapes that describe the two.
    ensures by_rules { IfSome result (λ answer. (new old : Shape) × Describes new New.words × Describes old Old.words
        × (answer ≡ is_read C.setting.encoding old new)) }
    ensures reads { IfSome result (λ answer. IsTrue answer
        → ReadsAll (New.words.format C.setting) (Old.words.format C.setting)) }
    // There is an answer where neither shape takes memory.
    ensures answers { (New.shape_grows → ⊥) → (Old.shape_grows → ⊥) → IsSome result }
{
    let new = New::shape(alloc)?;
    let old = Old::shape(alloc)?;
    Some(reads_all(&new, &old, config))
}
