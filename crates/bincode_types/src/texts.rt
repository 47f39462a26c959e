//! What texts are written as.
ghost use Rattle.std.proofs.Common.{arith};
ghost use Rattle.std.specs.Prelude.{max};
ghost use Rattle.bincode_spec.specs.Layers.Needs.{text_needs};
ghost use Rattle.bincode_lemmas.specs.NeedLaws.{text-needs};
ghost use Rattle.bincode_lemmas.specs.ChargedLaws.{text-charged};
ghost use Rattle.std.specs.Prelude.{◌<◌, ◌^◌, length};
ghost use Rattle.std.specs.Str.{IsUtf8};
ghost use Rattle.bincode_spec.specs.Meaning.{IsBytes};
ghost use Rattle.bincode_spec.specs.Words.{text};
ghost use Rattle.bincode_lemmas.specs.TextLaws.{text-lawful, text-balanced, text-has_word};
ghost use Rattle.bincode_types.specs.Memory.{Allocates};

use crate::laws::{Canonical, Exact, Inhabited, Plain, Writable};
use crate::wire::Wire;

/// The bytes of a text, which are UTF-8. A container claims `SIZE` bytes for it; `ALLOCATES` says whether decoding
/// allocates. Ghost type, never constructed.
#[derive(Drop, PartialEq)]
pub struct TextBytes<const SIZE: usize, const ALLOCATES: bool> {
    pub bytes: [u8; 0],
}

impl<const SIZE: usize, const ALLOCATES: bool> Wire for TextBytes<SIZE, ALLOCATES> {
    ghost words = { record {
      format = text;
      valid = λ v. IsUtf8 v.bytes × (length v.bytes < 2 ^ 64);
      means = λ v. IsBytes v.bytes;
      decodes_to = λ m v. IsBytes v.bytes m;
      writable = λ s v. Unit {0};
      own_errors = λ e. ⊥;
      may_allocate = Allocates ALLOCATES;
      claim = max SIZE 1;
      need = text_needs;
      lawful = text-lawful;
      balanced = text-balanced;
      has_word = λ s v h w. text-has_word s v.bytes h.0 h.1;
      errors_are_own = λ e h. absurd h;
      claims = omega arith;
      needs = text-needs;
      charges_enough = text-charged;
    } };

    fn claim_size() -> usize {
        SIZE.max(1)
    }
}

impl<const SIZE: usize, const ALLOCATES: bool> Inhabited for TextBytes<SIZE, ALLOCATES> {
    fn tell_inhabited() {}
}

impl<const SIZE: usize, const ALLOCATES: bool> Writable for TextBytes<SIZE, ALLOCATES> {
    fn tell_writable() {}
}

impl<const SIZE: usize, const ALLOCATES: bool> Plain for TextBytes<SIZE, ALLOCATES> {
    fn tell_plain() {}
}

impl<const SIZE: usize, const ALLOCATES: bool> Exact for TextBytes<SIZE, ALLOCATES> {
    fn tell_exact() {}
}

impl<const SIZE: usize, const ALLOCATES: bool> Canonical for TextBytes<SIZE, ALLOCATES> {
    fn tell_canonical() {}
}
