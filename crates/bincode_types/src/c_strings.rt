//! What C strings are written as.
ghost use Rattle.std.proofs.Common.{arith};
ghost use Rattle.std.specs.Prelude.{max};
ghost use Rattle.bincode_spec.specs.Layers.Needs.{text_needs};
ghost use Rattle.bincode_lemmas.specs.NeedLaws.{c_string-needs};
ghost use Rattle.bincode_lemmas.specs.ChargedLaws.{c_string-charged};
ghost use Rattle.std.specs.Prelude.{◌<◌, ◌^◌, length};
ghost use Rattle.std.specs.List.{All};
ghost use Rattle.bincode_spec.specs.Meaning.{IsBytes};
ghost use Rattle.bincode_spec.specs.NoZero.{HasNoZero};
ghost use Rattle.bincode_spec.specs.Words.{without_nul};
ghost use Rattle.bincode_lemmas.specs.TextLaws.{c_string-lawful, c_string-balanced, c_string-has_word};
ghost use Rattle.bincode_types.specs.Memory.{Allocates};

use crate::laws::{Canonical, Exact, Inhabited, Plain, Writable};
use crate::wire::Wire;

/// The bytes of a C string, without a zero. A container claims `SIZE` bytes for it; `ALLOCATES` says whether decoding
/// allocates. Ghost type, never constructed.
#[derive(Drop, PartialEq)]
pub struct BytesWithoutZero<const SIZE: usize, const ALLOCATES: bool> {
    pub bytes: [u8; 0],
}

impl<const SIZE: usize, const ALLOCATES: bool> Wire for BytesWithoutZero<SIZE, ALLOCATES> {
    ghost words = { record {
      format = without_nul;
      valid = λ v. HasNoZero v.bytes × All (λ b. b < 256) v.bytes × (length v.bytes < 2 ^ 64);
      means = λ v. IsBytes v.bytes;
      decodes_to = λ m v. IsBytes v.bytes m;
      writable = λ s v. Unit {0};
      own_errors = λ e. ⊥;
      may_allocate = Allocates ALLOCATES;
      claim = max SIZE 1;
      need = text_needs;
      lawful = c_string-lawful;
      balanced = c_string-balanced;
      has_word = λ s v h w. c_string-has_word s v.bytes h.0 h.1 h.2;
      errors_are_own = λ e h. absurd h;
      claims = omega arith;
      needs = c_string-needs;
      charges_enough = c_string-charged;
    } };

    fn claim_size() -> usize {
        SIZE.max(1)
    }
}

impl<const SIZE: usize, const ALLOCATES: bool> Inhabited for BytesWithoutZero<SIZE, ALLOCATES> {
    fn tell_inhabited() {}
}

impl<const SIZE: usize, const ALLOCATES: bool> Writable for BytesWithoutZero<SIZE, ALLOCATES> {
    fn tell_writable() {}
}

impl<const SIZE: usize, const ALLOCATES: bool> Plain for BytesWithoutZero<SIZE, ALLOCATES> {
    fn tell_plain() {}
}

impl<const SIZE: usize, const ALLOCATES: bool> Exact for BytesWithoutZero<SIZE, ALLOCATES> {
    fn tell_exact() {}
}

impl<const SIZE: usize, const ALLOCATES: bool> Canonical for BytesWithoutZero<SIZE, ALLOCATES> {
    fn tell_canonical() {}
}
