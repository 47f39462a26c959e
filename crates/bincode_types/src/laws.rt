//! Laws that some types have beside those of `Wire`. Each trait has one function, which proves the law and does nothing
//! at run time; for a type made of others it calls the functions of those.
ghost use Rattle.std.specs.Prelude.{◌≤◌, ℕ};
ghost use Rattle.bincode_base.specs.Setting.{Setting};
ghost use Rattle.bincode_spec.specs.Layers.Laws.{Costs};
ghost use Rattle.bincode_types.specs.TypeLaws.{HasSomeWord, AlwaysWritable, PlainWords, ExactWords, CanonicalWords};

use crate::wire::Wire;

/// A type with at least one encoding in every setting.
pub trait Inhabited: Wire {
    /// Proves it.
    fn tell_inhabited()
        ensures { HasSomeWord Self.words };
}

/// A type whose valid values can all be encoded in every setting: one without cells, or a cell of such a type that is
/// `Inhabited`.
pub trait Writable: Wire {
    /// Proves it.
    fn tell_writable()
        ensures { AlwaysWritable Self.words };
}

/// A type without cells: every valid value can be encoded, all encodings of a value have one length, and encoding fails
/// with no error but the writer's.
pub trait Plain: Wire {
    /// Proves it.
    fn tell_plain()
        ensures { PlainWords Self.words };
}

/// A plain type whose encoding loses nothing: values with one meaning are equal, and decoding gives an equal value.
pub trait Exact: Plain + PartialEq {
    /// Proves it.
    fn tell_exact()
        ensures { ExactWords Self.words Self.eq };
}

/// A plain type whose written encoding is canonical: no shorter one decodes to what it decodes to.
pub trait Canonical: Plain {
    /// Proves it.
    fn tell_canonical()
        ensures { CanonicalWords Self.words };
}

/// A type whose encodings all charge the same, so that a caller can tell how large a limit has to be.
pub trait ConstantCharge: Wire {
    /// The number of bytes that an encoding charges.
    ghost cost: { ℕ };

    /// The most that is charged at one time, in bytes, with what is held for elements.
    ghost peak: { ℕ };

    /// Proves it.
    fn tell_costs()
        ensures costs { (s : Setting) → Costs peak cost (Self.words.format s) }
        ensures fits { cost ≤ peak };
}
