//! Encoding of enums, variant by variant.
ghost use Rattle.bincode_spec.specs.Format.{map_format};
ghost use Rattle.bincode_base.specs.declared.error.EncodeError.{EncodeError};
ghost use Rattle.bincode_spec.specs.Meaning.{Choice};
ghost use Rattle.bincode_spec.specs.Words.{after_tag, tag_then_part};
ghost use Rattle.bincode_spec.specs.Choices.{IsChoice};
ghost use Rattle.bincode_spec.specs.Allowed.{AllowedWord, WrittenAlike};
ghost use Rattle.bincode_spec.specs.Layers.Meanings.{SameMeanings};
ghost use Rattle.bincode_spec.specs.Encoding.{Encodes};

use crate::encode::Encode;
use crate::runs::ByEncode;
use bincode_base::error::EncodeError;
use bincode_encoder::encoder::Encoder;
use bincode_encoder::variants;
use bincode_encoder::variants::EncodeTag;
use bincode_types::has_parts::HasParts;
use bincode_types::sums::Choice;

/// Writes an enum as the tag of its variant and then the part. The parts need a known size: an enum with type
/// parameters passes references to them.
#[inline(always)]
pub fn encode_variant<Parts: Choice, T: HasParts<Parts>, A: Encode, E: Encoder>(
    value: &T,
    tag: u32,
    part: &A,
    encoder: &mut E,
) -> Result<(), EncodeError>
where
    Parts::Tag: EncodeTag,
    requires fits { Parts.Tag.Fits tag }
    requires picks { WrittenAlike (map_format (Choice tag) (A.words.format E.C.setting))
        (after_tag Parts.variants E.C.setting tag) }
    requires own_errors { (e : EncodeError) → A.words.own_errors e → Parts.words.own_errors e }
    requires means { SameMeanings (IsChoice tag (A.words.means part.now)) (Parts.words.means (T.parts value.now)) }
    requires writable { Parts.words.writable E.C.setting (T.parts value.now) → A.words.writable E.C.setting part.now }
    ensures { Encodes E.W.adds E.W.refuses E.writer_of E.loans (Parts.words.writable E.C.setting (T.parts value.now))
        (AllowedWord (Parts.words.means (T.parts value.now)) (tag_then_part Parts.Tag.tags Parts.variants E.C.setting))
        Parts.words.own_errors result encoder.old encoder.new }
{
    variants::encode_variant::<Parts, T, ByEncode<A>, E>(value, tag, part, encoder)
}
