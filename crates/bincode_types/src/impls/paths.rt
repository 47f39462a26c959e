//! `Wire` for paths, which are encoded as texts. Paths of different texts may be equal, as `a` and `a/` are.
ghost use Rattle.std.specs.Path.{path_bytes, path_buf_bytes};
ghost use Rattle.bincode_types.specs.TypeLaws.{ExactWords};

use crate::by_parts::ByParts;
use crate::laws::Exact;
use crate::texts::TextBytes;
use crate::wire::Wire;
use std::path::{Path, PathBuf};

impl ByParts for PathBuf {
    type Parts = TextBytes<24, true>;

    ghost parts = { λ v. record { bytes = path_buf_bytes v } };
}

impl Exact for PathBuf {
    fn tell_exact() {}
}

impl ByParts for Path<'_> {
    type Parts = TextBytes<16, false>;

    ghost parts = { λ v. record { bytes = path_bytes v } };
}

impl<'a> Exact for Path<'a> {
    fn tell_exact()
        ensures { ExactWords ⟦<Path<'a> as Wire>⟧.words ⟦<Path<'a> as PartialEq>⟧.eq }
    {}
}
