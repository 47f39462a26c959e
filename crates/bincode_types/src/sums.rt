//! What enums are written as: the tag of a variant, then its part.
ghost use Rattle.std.specs.Prelude.{◌≡◌, ◌⊎◌, ◌<◌, ◌≤◌, ◌+◌, ◌-◌, ◌^◌, ◌==◌};
ghost use Rattle.std.specs.Prelude.{ℕ, true, false, min, max, pos, List, [], ◌∷◌, refl};
ghost use Rattle.std.proofs.Common.{◌∙◌, arith};
ghost use Rattle.bincode_base.specs.Setting.{Setting};
ghost use Rattle.bincode_spec.specs.Format.{Format, map_format};
ghost use Rattle.bincode_spec.specs.Integers.{unsigned_byte};
ghost use Rattle.bincode_spec.specs.Integers.{Four};
ghost use Rattle.bincode_spec.specs.Fault.{Allowed, UnexpectedVariant};
ghost use Rattle.bincode_spec.specs.Layers.Needs.{then_needs, picked_needs};
ghost use Rattle.bincode_lemmas.specs.NeedLaws.{Needs, picked-needs, fail-needs, map-needs, chosen-needs};
ghost use Rattle.bincode_lemmas.specs.ChargedLaws.{ChargesEnough, picked-charged, fail-charged, map-charged};
ghost use Rattle.bincode_lemmas.specs.ChargedLaws.{chosen-charged};
ghost use Rattle.bincode_base.specs.declared.error.IntegerType.TheVariants.{U32};
ghost use Rattle.bincode_base.specs.declared.error.EncodeError.{EncodeError};
ghost use Rattle.bincode_spec.specs.Meaning.{Meaning, Choice, Number};
ghost use Rattle.bincode_spec.specs.Words.{tag, Variant, variant_tags, allowed_tags, in_order, part, tag_then_part};
ghost use Rattle.bincode_lemmas.specs.FormLaws.{Numerals, byte-numerals, unsigned-numerals};
ghost use Rattle.bincode_spec.specs.Allowed.{AllowedWord, SomeWord, MayName, IsShortest, OneLength};
ghost use Rattle.bincode_spec.specs.Choices.{IsChoice};
ghost use Rattle.bincode_spec.specs.Layers.Laws.{AllLawful, AllBalanced};
ghost use Rattle.bincode_lemmas.specs.ChoiceLaws.{part-here, part-there, same-alike};
ghost use Rattle.bincode_lemmas.specs.ChoiceLaws.{chosen-lawful, chosen-balanced, choice-has_word};
ghost use Rattle.bincode_lemmas.specs.TupleLaws.{either};

use crate::laws::{Canonical, Exact, Inhabited, Plain, Writable};
use crate::wire::Wire;
use std::convert::Infallible;
use std::marker::PhantomData;

/// The integer type of an enum's tags: `u8` or `u32`. Not built on `Wire`, which every variant's proof would unfold.
pub trait Tag {
    /// The encoding of a tag, as a number.
    ghost tags: { Setting → Format ℕ };

    /// What a tag charges, and what a container claims for it, in bytes.
    ghost width: { ℕ };

    /// The tags that fit the type.
    ghost Fits: { ℕ → Type 0 };

    ghost numerals: { Numerals width Fits pos tags };

    ghost zero_fits: { Fits 0 };

    ghost has_width: { 1 ≤ width };

    /// `width` at run time.
    fn tag_size() -> usize
        ensures { result ≡ width };
}

impl Tag for u8 {
    ghost tags = { λ s. unsigned_byte };

    ghost width = { 1 };

    ghost Fits = { λ n. n < 2 ^ 8 };

    ghost numerals = { byte-numerals };

    ghost zero_fits = { omega arith };

    ghost has_width = { omega arith };

    fn tag_size() -> usize {
        1
    }
}

impl Tag for u32 {
    ghost tags = { tag };

    ghost width = { 4 };

    ghost Fits = { λ n. n < 2 ^ 32 };

    ghost numerals = { unsigned-numerals U32 4 (Four refl) };

    ghost zero_fits = { omega arith };

    ghost has_width = { omega arith };

    fn tag_size() -> usize {
        4
    }
}

/// The variants of an enum: the first with its tag and part, then the others.
pub trait Variants {
    /// The integer type of the tags.
    type Tag: Tag;

    /// The tag of each variant, and the format of its part.
    ghost variants: { List Variant };

    /// The tag of a value, and the format of its part.
    ghost variant: { Self → Variant };

    /// The part is valid, and no earlier variant has the tag.
    ghost valid: { Self → Type 0 };

    /// The tag selects the value's variant.
    ghost picked: { (s : Setting) (allowed : Allowed) (v : Self) → valid v → part s variants allowed (variant v).0
        ≡ map_format (Choice (variant v).0) ((variant v).1 s) };

    ghost means: { Self → Meaning → Type 0 };

    ghost decodes_to: { Self → Meaning → Type 0 };

    ghost writable: { Self → Setting → Type 0 };

    ghost own_errors: { EncodeError → Type 0 };

    ghost may_allocate: { Type 0 };

    ghost claim: { ℕ };

    ghost lawful: { (s : Setting) → AllLawful s variants };

    ghost balanced: { (s : Setting) → AllBalanced s variants };

    ghost has_word: { (s : Setting) (v : Self) → valid v → writable v s
        → SomeWord (AllowedWord (means v) ((variant v).1 s)) };

    ghost errors_are_own: { (e : EncodeError) → own_errors e → MayName e };

    /// How large a limit the part after this tag needs.
    ghost need: { Setting → ℕ → List ℕ → ℕ };

    ghost needs: { (s : Setting) (allowed : Allowed) (found : ℕ)
        → Needs (need s found) (part s variants allowed found) };

    ghost charges_enough: { (s : Setting) (allowed : Allowed) (found : ℕ) → ChargesEnough
        (part s variants allowed found) };

    /// The largest claim of a part, in bytes.
    fn claim_size() -> usize
        ensures { result ≡ claim };
}

/// Variants whose parts are `Writable`.
pub trait WritableVariants: Variants {
    /// Proves it.
    fn tell_writable()
        ensures { (s : Setting) (v : Self) → Self.valid v → Self.writable v s };
}

/// Variants whose parts are `Plain`.
pub trait PlainVariants: Variants {
    /// Proves it.
    fn tell_plain()
        ensures always_writable { (s : Setting) (v : Self) → Self.valid v → Self.writable v s }
        ensures one_length { (s : Setting) (v : Self) → Self.valid v
            → OneLength (AllowedWord (Self.means v) ((Self.variant v).1 s)) }
        ensures names_none { (e : EncodeError) → Self.own_errors e → ⊥ };
}

/// Variants whose parts are `Exact`.
pub trait ExactVariants: PlainVariants + PartialEq {
    /// Proves it.
    fn tell_exact()
        ensures one_value { (v w : Self) (m : Meaning) → Self.valid v → Self.valid w → (Self.variant v).0
            ≡ (Self.variant w).0 → Self.means v m → Self.means w m → Self.eq v w ≡ true }
        ensures comes_back { (v w : Self) (m : Meaning) → Self.valid v → (Self.variant v).0 ≡ (Self.variant w).0
            → Self.means v m → Self.decodes_to w m → Self.eq v w ≡ true };
}

/// Variants whose parts are `Canonical`.
pub trait CanonicalVariants: PlainVariants {
    /// Proves it.
    fn tell_canonical()
        ensures { (s : Setting) (v w : Self) → Self.valid v → (Self.variant v).0 ≡ (Self.variant w).0
            → IsShortest (Self.means v) (Self.decodes_to w) ((Self.variant v).1 s) };
}

/// The end of the variants of the enum `Of`, with tags of type `T`. It has no values. `Of` only names the enum: for one
/// with type parameters write `()` for each.
pub type NoMoreVariants<Of, T = u32> = (Infallible, PhantomData<(Of, T)>);

impl<Of, T: Tag> Variants for NoMoreVariants<Of, T> {
    type Tag = T;

    ghost variants = { [] };

    ghost variant = { λ v. (0, λ s. map_format (λ n. Number (pos n)) (T.tags s)) };

    ghost valid = { λ v. ⊥ };

    ghost picked = { λ s allowed v h. absurd h };

    ghost means = { λ v m. ⊥ };

    ghost decodes_to = { λ v m. ⊥ };

    ghost writable = { λ v s. ⊥ };

    ghost own_errors = { λ e. ⊥ };

    ghost may_allocate = { ⊥ };

    ghost claim = { 0 };

    fn claim_size() -> usize {
        0
    }

    ghost lawful = { λ s. tt };

    ghost balanced = { λ s. tt };

    ghost has_word = { λ s v h w. absurd h };

    ghost errors_are_own = { λ e h. absurd h };

    ghost need = { λ s found input. 0 };

    ghost needs = { λ s allowed found. fail-needs (UnexpectedVariant allowed found) };

    ghost charges_enough = { λ s allowed found. fail-charged (UnexpectedVariant allowed found) };
}

impl<Of, T: Tag> WritableVariants for NoMoreVariants<Of, T> {
    fn tell_writable() {}
}

impl<Of, T: Tag> PlainVariants for NoMoreVariants<Of, T> {
    fn tell_plain() {}
}

impl<Of, T: Tag> ExactVariants for NoMoreVariants<Of, T> {
    fn tell_exact() {}
}

impl<Of, T: Tag> CanonicalVariants for NoMoreVariants<Of, T> {
    fn tell_canonical() {}
}

/// The variant with the tag `TAG`, or one of the others.
#[derive(Drop, PartialEq)]
pub enum VariantOf<const TAG: u32, A, Others> {
    This(A),
    Other(Others),
}

impl<const TAG: u32, A: Wire, Others: Variants> Variants for VariantOf<TAG, A, Others> {
    ghost use Rattle.bincode_types.specs.declared.sums.VariantOf.TheVariants.{This, Other};

    type Tag = Others::Tag;

    ghost variants = { (TAG, A.words.format) ∷ Others.variants };

    ghost variant = { elim [ This a ↦ (TAG, A.words.format) | Other o ↦ Others.variant o ] };

    ghost valid = { elim [
      | This a ↦ A.words.valid a
      | Other o ↦ (((Others.variant o).0 == TAG) ≡ false) × Others.valid o
    ] };

    ghost picked = { λ s allowed. elim [
      | This a ↦ λ h. part-here s allowed TAG A.words.format Others.variants
      | Other o ↦ λ h. part-there s allowed (Others.variant o).0 TAG A.words.format Others.variants h.0
          ∙ Others.picked s allowed o h.1
    ] };

    ghost means = { elim [ This a ↦ A.words.means a | Other o ↦ Others.means o ] };

    ghost decodes_to = { elim [
      | This a ↦ λ m. A.words.decodes_to m a
      | Other o ↦ λ m. (((Others.variant o).0 == TAG) ≡ false) × Others.decodes_to o m
    ] };

    ghost writable = { elim [ This a ↦ λ s. A.words.writable s a | Other o ↦ Others.writable o ] };

    ghost own_errors = { λ e. A.words.own_errors e ⊎ Others.own_errors e };

    ghost may_allocate = { A.words.may_allocate ⊎ Others.may_allocate };

    ghost claim = { max A.words.claim Others.claim };

    fn claim_size() -> usize {
        A::claim_size().max(Others::claim_size())
    }

    ghost lawful = { λ s. (A.words.lawful s, Others.lawful s) };

    ghost balanced = { λ s. (A.words.balanced s, Others.balanced s) };

    ghost has_word = { λ s. elim [ This a ↦ A.words.has_word s a | Other o ↦ λ h w. Others.has_word s o h.1 w ] };

    ghost errors_are_own = { λ e. either (A.words.errors_are_own e) (Others.errors_are_own e) };

    ghost need = { λ s found. picked_needs (found == TAG) (A.words.need s) (Others.need s found) };

    ghost needs = { λ s allowed found. picked-needs (found == TAG) _ _ _ _
        (map-needs (A.words.need s) (Choice found) (A.words.format s) (A.words.needs s))
        (Others.needs s allowed found) };

    ghost charges_enough = { λ s allowed found. picked-charged (found == TAG) _ _
        (map-charged (Choice found) (A.words.format s) (A.words.charges_enough s))
        (Others.charges_enough s allowed found) };
}

impl<const TAG: u32, A: Writable, Others: WritableVariants> WritableVariants
    for VariantOf<TAG, A, Others> {
    fn tell_writable() {
        A::tell_writable();
        Others::tell_writable();
    }
}

impl<const TAG: u32, A: Plain, Others: PlainVariants> PlainVariants for VariantOf<TAG, A, Others> {
    fn tell_plain() {
        A::tell_plain();
        Others::tell_plain();
    }
}

impl<const TAG: u32, A: Exact, Others: ExactVariants> ExactVariants for VariantOf<TAG, A, Others> {
    fn tell_exact() {
        A::tell_exact();
        Others::tell_exact();
    }
}

impl<const TAG: u32, A: Canonical, Others: CanonicalVariants> CanonicalVariants
    for VariantOf<TAG, A, Others> {
    fn tell_canonical() {
        A::tell_canonical();
        Others::tell_canonical();
    }
}

/// What an enum is written as: the tag of a variant, then its part.
#[derive(Drop, PartialEq)]
pub struct EnumOf<Of>(pub Of);

impl<Of: Variants> Wire for EnumOf<Of> {
    ghost words = { record {
      format = tag_then_part Of.Tag.tags Of.variants;
      valid = λ v. Of.Tag.Fits (Of.variant v.0).0 × Of.valid v.0;
      means = λ v. IsChoice (Of.variant v.0).0 (Of.means v.0);
      decodes_to = λ m v. IsChoice (Of.variant v.0).0 (Of.decodes_to v.0) m;
      writable = λ s v. Of.writable v.0 s;
      own_errors = Of.own_errors;
      may_allocate = (in_order 0 (variant_tags Of.variants) ≡ false) ⊎ Of.may_allocate;
      claim = min (Of.Tag.width + Of.claim) (2 ^ 64 - 1);
      need = λ s. then_needs (Of.Tag.tags s) (λ _. Of.Tag.width) (Of.need s);
      lawful = λ s. chosen-lawful Of.Tag.tags Of.variants s (Of.Tag.numerals.lawful s) (Of.lawful s);
      balanced = λ s. chosen-balanced Of.Tag.tags Of.variants s (Of.Tag.numerals.balanced s) (Of.balanced s);
      has_word = λ s v h w. choice-has_word Of.Tag.tags Of.variants s _ _ (same-alike (Of.picked s _ v.0 h.1))
          (Of.means v.0) (Of.Tag.numerals.spelled s _ h.0).has_word (Of.has_word s v.0 h.1 w);
      errors_are_own = Of.errors_are_own;
      claims = omega (arith, Of.Tag.has_width);
      needs = λ s. chosen-needs Of.Tag.tags Of.variants s Of.Tag.width (Of.need s) (Of.Tag.numerals.balanced s)
          (Of.Tag.numerals.needs s) (Of.needs s (allowed_tags (variant_tags Of.variants)));
      charges_enough = λ s. chosen-charged Of.Tag.tags Of.variants s (Of.Tag.numerals.charges_enough s)
          (Of.charges_enough s (allowed_tags (variant_tags Of.variants)));
    } };

    fn claim_size() -> usize {
        Of::Tag::tag_size().saturating_add(Of::claim_size())
    }
}

// An enum whose first tag is 0 is `Inhabited` if its first part is.
impl<A: Inhabited, Others: Variants> Inhabited for EnumOf<VariantOf<0, A, Others>> {
    fn tell_inhabited() {
        A::tell_inhabited();
    }
}

impl<Of: WritableVariants> Writable for EnumOf<Of> {
    fn tell_writable() {
        Of::tell_writable();
    }
}

/// What an enum is written as, as a trait: implemented by `EnumOf`.
pub trait Choice: Wire {
    /// The integer type of the tags.
    type Tag: Tag;

    /// The variants.
    ghost variants: { List Variant };
}

impl<Of: Variants> Choice for EnumOf<Of> {
    type Tag = Of::Tag;

    ghost variants = { Of.variants };
}

impl<Of: PlainVariants> Plain for EnumOf<Of> {
    fn tell_plain() {
        Of::tell_plain();
    }
}

impl<Of: ExactVariants> Exact for EnumOf<Of> {
    fn tell_exact() {
        Of::tell_exact();
    }
}

impl<Of: CanonicalVariants> Canonical for EnumOf<Of> {
    fn tell_canonical() {
        Of::tell_canonical();
    }
}
