//! Zigzag: signed integers as unsigned ones, 0, -1, 1, -2, 2 as 0, 1, 2, 3, 4 and so on (docs/FORMAT.md, section 4).
ghost use Rattle.std.specs.Prelude.{◌≡◌, ◌<◌, ◌^◌, ℕ};
ghost use Rattle.bincode_spec.specs.Number.{zigzag, unzigzag, FitsIn};
ghost use Rattle.bincode_lemmas.specs.SignedLaws.{zigzag-unzigzag, unzigzag-zigzag, zigzag-fits, unzigzag-fits};

/// Maps a signed integer to an unsigned one. Bijective, and keeps the width.
#[inline]
pub fn zigzag(val: i128) -> u128
    ensures number { result ≡ zigzag val }
    ensures back { unzigzag result ≡ val }
    ensures width { (width : ℕ) → 0 < width → FitsIn width val → zigzag val < 256 ^ width }
{
    let bits = val.cast_unsigned();
    if val < 0 { !bits * 2 + 1 } else { bits * 2 }
}

/// Inverts `zigzag`.
#[inline]
pub fn unzigzag(n: u128) -> i128
    ensures integer { result ≡ unzigzag n }
    ensures back { zigzag result ≡ n }
    ensures width { (width : ℕ) → n < 256 ^ width → FitsIn width (unzigzag n) }
{
    let half = n / 2;
    if n % 2 == 0 {
        half.cast_signed()
    } else {
        (!half).cast_signed()
    }
}
