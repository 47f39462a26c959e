//! Laws of a type from the laws of its parts.
ghost use Rattle.std.specs.Prelude.{◌≡◌, true};
ghost use Rattle.bincode_types.specs.TypeLaws.{AlwaysWritable, PlainWords, ExactWords, CanonicalWords};
ghost use Rattle.bincode_types.specs.TypeWords.{words_by};

use crate::by_parts::{ByParts, SameParts};
use crate::equal_parts::EqualParts;
use crate::laws::{Canonical, Exact, Plain, Writable};
use crate::wire::Wire;

/// A type whose values have parts of the type `Parts`: a struct has the tuple of its fields, an enum the `EnumOf` of
/// its variants.
pub trait HasParts<Parts> {
    /// The parts of a value.
    ghost parts: { Self → Parts };
}

impl<T: ByParts> HasParts<T::Parts> for T {
    ghost parts = { T.parts };
}

/// Proves that a type is `Writable`, if its parts are.
pub fn writable_by_parts<Parts: Writable, T: HasParts<Parts>>()
    ensures { AlwaysWritable (words_by Parts.words T.parts) }
{
    Parts::tell_writable();
}

/// Proves that a type is `Plain`, if its parts are.
pub fn plain_by_parts<Parts: Plain, T: HasParts<Parts>>()
    ensures { PlainWords (words_by Parts.words T.parts) }
{
    Parts::tell_plain();
}

/// Proves that a type is `Exact`, if its parts are and its values are equal where their parts are.
pub fn exact_by_parts<Parts: Exact, T: HasParts<Parts> + PartialEq>()
    requires { (v w : T) → Parts.eq (T.parts v) (T.parts w) ≡ true → T.eq v w ≡ true }
    ensures { ExactWords (words_by Parts.words T.parts) T.eq }
{
    Parts::tell_exact();
}

/// Proves that a struct is `Exact`, if its fields are and its values are equal where each field is. `Fields` is the
/// tuple of the fields; `Cons`, what that is written as, is inferred.
pub fn exact_by_fields<
    Fields: Exact + SameParts<Cons>,
    T: HasParts<Fields> + PartialEq,
    Cons: Wire + EqualParts,
>()
    requires { (v w : T) → Cons.each_equal (Fields.parts (T.parts v)) (Fields.parts (T.parts w))
        → T.eq v w ≡ true }
    ensures { ExactWords (words_by Fields.words T.parts) T.eq }
{
    Fields::tell_exact();
}

/// Proves that a type is `Canonical`, if its parts are.
pub fn canonical_by_parts<Parts: Canonical, T: HasParts<Parts>>()
    ensures { CanonicalWords (words_by Parts.words T.parts) }
{
    Parts::tell_canonical();
}
