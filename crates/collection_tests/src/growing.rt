//! A value whose encoding is longer than it was when it was counted.

use bincode::alloc::encode_to_vec;
use bincode::enc::Encoder;
use bincode::error::EncodeError;
use bincode::impls::Encode;
use bincode::{HasParts, Wire, config};
use std::alloc::Global;
use std::cell::Cell;

/// A number that is raised to 2^40 by writing it.
#[derive(Drop)]
struct Raised {
    level: Cell<u64>,
}

impl HasParts<Cell<u64>> for Raised {
    ghost parts = { λ v. v.level };
}

impl Wire for Raised {
    ghost use Rattle.bincode.specs.TypeWords.{words_by};

    ghost words = { words_by ⟦<Cell<u64> as Wire>⟧.words ⟦<Raised as HasParts<Cell<u64>>>⟧.parts };

    fn claim_size() -> usize {
        Cell::<u64>::claim_size()
    }
}

impl Encode for Raised {
    fn tell_valid(&self) {
        self.level.tell_valid();
    }

    fn encode<E: Encoder>(&self, encoder: &mut E) -> Result<(), EncodeError> {
        let outcome = self.level.encode(encoder);
        self.level.set(1 << 40);
        outcome
    }
}

/// The encoding of a number that was counted as 5. `None` where memory is refused.
fn bytes_of_raised(alloc: Global) -> Option<Vec<u8>> {
    let raised = Raised {
        level: Cell::new(5),
    };
    encode_to_vec(alloc, &raised, config::standard()).ok()
}

/// Nine bytes where one was counted: they are tried in rooms of 1, 3, 7 and 15 bytes.
#[test]
fn writes_anew_what_became_longer(rt: HostRuntime) {
    let alloc = rt.alloc();
    let Some(bytes) = bytes_of_raised(alloc).or_else(|| bytes_of_raised(alloc)) else {
        assert!(rt; false);
        return;
    };
    assert!(rt; bytes.as_slice() == [253, 0, 0, 0, 0, 0, 1, 0, 0].as_slice());
    assert!(rt; bytes.capacity() == 15);
}
