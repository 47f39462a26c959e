//! Encoding of enums: a tag, then a part.
ghost use Rattle.std.specs.Prelude.{pos};
ghost use Rattle.bincode_spec.specs.Format.{map_format};
ghost use Rattle.bincode_base.specs.declared.error.EncodeError.{EncodeError};
ghost use Rattle.bincode_spec.specs.Meaning.{Choice, IsNumber};
ghost use Rattle.bincode_spec.specs.Words.{natural_number, after_tag, tag_then_part};
ghost use Rattle.bincode_spec.specs.Choices.{IsChoice};
ghost use Rattle.bincode_spec.specs.Allowed.{AllowedWord, WrittenAlike};
ghost use Rattle.bincode_spec.specs.Layers.Meanings.{SameMeanings};
ghost use Rattle.bincode_spec.specs.Encoding.{Encodes};

use crate::answers::rebuild_result;
use crate::encoder::Encoder;
use crate::integers::{encode_byte, encode_integer};
use crate::runs::WriteValues;
use bincode_base::error::EncodeError;
use bincode_types::has_parts::HasParts;
use bincode_types::sums::{Choice, Tag};

/// A type of tags that can be written.
pub trait EncodeTag: Tag {
    /// Writes a tag. Errors are those of the writer.
    fn encode_tag<E: Encoder>(tag: u32, encoder: &mut E) -> Result<(), EncodeError>
        requires { Self.Fits tag }
        ensures { Encodes E.W.adds E.W.refuses E.writer_of E.loans (Unit {0})
            (AllowedWord (IsNumber (pos tag)) (natural_number (Self.tags E.C.setting))) (λ _. ⊥) result encoder.old
            encoder.new };
}

impl EncodeTag for u8 {
    #[inline(always)]
    fn encode_tag<E: Encoder>(tag: u32, encoder: &mut E) -> Result<(), EncodeError> {
        rebuild_result(encode_byte(encoder, tag as u8))
    }
}

impl EncodeTag for u32 {
    #[inline(always)]
    fn encode_tag<E: Encoder>(tag: u32, encoder: &mut E) -> Result<(), EncodeError> {
        rebuild_result(encode_integer(encoder, tag))
    }
}

/// Writes an enum as the tag of its variant, then the part. The parts need a known size: an enum with type parameters
/// passes references to them.
#[inline(always)]
pub fn encode_variant<Parts: Choice, T: HasParts<Parts>, V: WriteValues, E: Encoder>(
    value: &T,
    tag: u32,
    part: &V::Value,
    encoder: &mut E,
) -> Result<(), EncodeError>
where
    Parts::Tag: EncodeTag,
    requires fits { Parts.Tag.Fits tag }
    requires picks { WrittenAlike (map_format (Choice tag) (V.Value.words.format E.C.setting))
        (after_tag Parts.variants E.C.setting tag) }
    requires own_errors { (e : EncodeError) → V.Value.words.own_errors e → Parts.words.own_errors e }
    requires means { SameMeanings (IsChoice tag (V.Value.words.means part.now)) (Parts.words.means
        (T.parts value.now)) }
    requires writable { Parts.words.writable E.C.setting (T.parts value.now)
        → V.Value.words.writable E.C.setting part.now }
    ensures { Encodes E.W.adds E.W.refuses E.writer_of E.loans (Parts.words.writable E.C.setting (T.parts value.now))
        (AllowedWord (Parts.words.means (T.parts value.now)) (tag_then_part Parts.Tag.tags Parts.variants E.C.setting))
        Parts.words.own_errors result encoder.old encoder.new }
{
    Parts::Tag::encode_tag(tag, encoder)?;
    V::write_value(part, encoder)
}
