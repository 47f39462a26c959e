//! Collections of your own, which are filled item by item.
ghost use Rattle.std.specs.Prelude.{◌≡◌, ◌*◌, ◌++◌, ◌∷◌, List, [], MatchResult};
ghost use Rattle.bincode_base.specs.declared.error.DecodeError.TheVariants.{Memory};
ghost use Rattle.bincode_spec.specs.Layers.Releases.{CanRelease};
ghost use Rattle.bincode_spec.specs.Run.{IsListOf};
ghost use Rattle.bincode_spec.specs.Layers.Values.{Reads, RunRead};
ghost use Rattle.bincode_spec.specs.Words.{array, list};

use crate::runs::decode_next;
use crate::values::ReadValues;
use bincode_base::error::DecodeError;
use bincode_decoder::decoder::{ClaimContainer, Decoder};
use bincode_decoder::lengths::decode_length;
use bincode_types::wire::Wire;
use std::alloc::Global;

/// A collection that is decoded item by item: how it is begun, how an item is added, and how it is finished.
/// `decode_collection` does the rest.
pub trait FillList<Context: Drop>: Sized {
    /// The type of the items.
    type Item: Wire;

    /// A collection that is being filled.
    type Filling: Drop;

    /// The items of a collection.
    ghost items: { Self → List Self.Item };

    /// The items added so far, in order.
    ghost held_items: { Self.Filling → List Self.Item };

    /// Begins a collection of `len` items, without any. Fails with `Memory` if an allocation is refused.
    fn start(alloc: Global, context: &mut Context, len: usize) -> Result<Self::Filling, DecodeError>
        ensures { MatchResult result (λ filling. held_items filling ≡ []) (λ e. e ≡ Memory) };

    /// Adds an item at the end. Fails with `Memory` if an allocation is refused.
    fn put(filling: &mut Self::Filling, item: Self::Item) -> Result<(), DecodeError>
        ensures { MatchResult result (λ _. held_items filling.new ≡ held_items filling.old ++ item ∷ [])
            (λ e. e ≡ Memory) };

    /// Finishes the collection. Fails with `Memory` if an allocation is refused.
    fn finish(filling: Self::Filling) -> Result<Self, DecodeError>
        ensures { MatchResult result (λ v. items v ≡ held_items filling) (λ e. e ≡ Memory) };
}

/// Decodes `len` items and adds each to the collection. `claim_container_read` must have reserved their claims; each is
/// released before its item is read. Errors are those of the items and of the collection.
fn decode_items<D: Decoder, V: ReadValues<D>, K: FillList<D::Context, Item = V::Value>>(
    decoder: &mut D,
    len: usize,
) -> Result<K, DecodeError>
    requires { CanRelease D.C.bound (D.charge decoder.old) (len * V.Value.words.claim) }
    ensures { RunRead D.is_known D.remaining D.charge D.failures D.loans D.C.bound D.R.end_error D.R.device (Unit {0})
        V.Value.words.claim (V.Value.words.format D.C.setting) V.Value.words.decodes_to len K.items result decoder.old
        decoder.new }
{
    let mut filling = K::start(decoder.alloc(), decoder.context(), len)?;
    for _ in 0..len {
        let item = decode_next::<D, V>(decoder)?;
        K::put(&mut filling, item)?;
    }
    K::finish(filling)
}

/// Claims `len` items, and decodes them. Fails with `LimitExceeded` before the collection is begun, or like
/// `decode_items`.
fn decode_claimed_items<D: Decoder, V: ReadValues<D>, K: FillList<D::Context, Item = V::Value>>(
    decoder: &mut D,
    len: usize,
) -> Result<K, DecodeError>
    ensures { Reads D.is_known D.remaining D.charge D.failures D.loans D.C.bound D.R.end_error D.R.device (Unit {0})
        (array len V.Value.words.claim (V.Value.words.format D.C.setting))
        (λ m v. IsListOf (λ x n. V.Value.words.decodes_to n x) (K.items v) m)
        (D.charge decoder.old) result decoder.old decoder.new }
{
    decoder.claim_container_read::<V::Value>(len)?;
    decode_items::<D, V, K>(decoder, len)
}

/// Decodes a length prefix and that many items, which are claimed before the collection is begun. Fails with the error
/// of the length, `LimitExceeded`, `Memory` from the collection, or the error of an item. A fault leaves the charges
/// made before it.
pub fn decode_collection<D: Decoder, V: ReadValues<D>, K: FillList<D::Context, Item = V::Value>>(
    decoder: &mut D,
) -> Result<K, DecodeError>
    ensures { Reads D.is_known D.remaining D.charge D.failures D.loans D.C.bound D.R.end_error D.R.device (Unit {0})
        (list D.C.setting V.Value.words.claim (V.Value.words.format D.C.setting))
        (λ m v. IsListOf (λ x n. V.Value.words.decodes_to n x) (K.items v) m)
        (D.charge decoder.old) result decoder.old decoder.new }
{
    let len = decode_length(decoder)?;
    decode_claimed_items::<D, V, K>(decoder, len)
}
