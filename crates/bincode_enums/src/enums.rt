//! Enums by their variants, and functions that prove their laws.
ghost use Rattle.std.specs.Prelude.{◌≡◌, ◌+◌, ◌-◌, ◌^◌, min};
ghost use Rattle.bincode_types.specs.TypeLaws.{AlwaysWritable, PlainWords, ExactWords, CanonicalWords};
ghost use Rattle.bincode_enums.specs.EnumWords.{VariantWords, EnumVariants, EnumLaws};

use bincode_base::short_text::TypeName;
use bincode_types::wire::Wire;

/// An enum whose values are made from `Of`: a variant with its part.
pub trait Sum<Of> {
    /// The formats of the variants.
    ghost variants: { VariantWords Of };

    /// The variant of a value, with its part.
    ghost parts: { Self → Of };

    /// The value with this variant.
    ghost made: { Of → Self };
}

/// An enum that is encoded as the tag of a variant, then its part.
pub trait Enum: Wire {
    /// The variants, and what the laws of the enum ask of their parts.
    ghost choices: { EnumVariants Self };

    /// The name of the enum in errors.
    fn type_name() -> TypeName;

    ghost laws: { EnumLaws Self.words choices };
}

/// Proves that an enum is `Writable`, if all parts are.
pub fn writable_by_variants<T: Enum>()
    requires { T.choices.AllWritable }
    ensures { AlwaysWritable T.words }
{}

/// Proves that an enum is `Plain`, if all parts are.
pub fn plain_by_variants<T: Enum>()
    requires { T.choices.AllPlain }
    ensures { PlainWords T.words }
{}

/// Proves that an enum is `Exact`, if all parts are.
pub fn exact_by_variants<T: Enum + PartialEq>()
    requires { T.choices.AllExact T.eq }
    ensures { ExactWords T.words T.eq }
{}

/// Proves that an enum is `Canonical`, if all parts are.
pub fn canonical_by_variants<T: Enum>()
    requires { T.choices.AllCanonical }
    ensures { CanonicalWords T.words }
{}

/// What a container claims for an enum, in bytes, from the largest claim of a part: 4 more.
pub fn enum_claim(widest: usize) -> usize
    ensures { result ≡ min (4 + widest) (2 ^ 64 - 1) }
{
    widest.saturating_add(4)
}
