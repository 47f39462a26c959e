//! `Wire` for characters: UTF-8 (RFC 3629).
ghost use Rattle.bincode_spec.specs.Forms.{characters};
ghost use Rattle.bincode_lemmas.specs.CharLaws.{characters-laws, character-same};
ghost use Rattle.bincode_types.specs.TypeWords.{scalar_words};

use crate::scalars::{Scalar, scalar_claim};
use crate::wire::Wire;

impl Scalar for char {
    ghost form = { characters };

    ghost form_laws = { characters-laws };

    ghost SIZE = { 4 };

    const SIZE: usize = size_of::<char>();

    ghost same = { character-same };
}

impl Wire for char {
    ghost words = { scalar_words ⟦<char as Scalar>⟧.form ⟦<char as Scalar>⟧.form_laws
        ⟦<char as Scalar>⟧.SIZE };

    #[inline]
    fn claim_size() -> usize {
        scalar_claim::<char>()
    }
}
