//! The trait of all types that have a format.
ghost use Rattle.std.specs.Prelude.{◌≡◌};
ghost use Rattle.bincode_types.specs.TypeWords.{Words};

/// The format of a type, shared by `Encode` and `Decode`: how it is encoded, what it charges, and its laws. A struct
/// gets it from `ByParts`.
pub trait Wire {
    /// The format and its laws.
    ghost words: { Words Self };

    /// What a container claims for an element, in bytes: it stands for the size in memory (docs/FORMAT.md, section 8).
    fn claim_size() -> usize
        ensures { result ≡ words.claim };
}
