//! Collections of your own, which are filled item by item.
ghost use Rattle.bincode_spec.specs.Run.{IsListOf};
ghost use Rattle.bincode_spec.specs.Layers.Values.{Reads};
ghost use Rattle.bincode_spec.specs.Words.{list};

use crate::decode::Decode;
use crate::strategies::ByDecode;
use bincode_base::error::DecodeError;
use bincode_collections::fill_list;
use bincode_collections::fill_list::FillList;
use bincode_decoder::decoder::Decoder;

/// Decodes a length prefix and that many items, as `Vec<T>` does, and puts each into a collection of your own. The
/// claims of all items are charged before it is made, and each is released before its item is read. Fails with the
/// error of the length or an item, `LimitExceeded` if the claims pass the limit, or `Memory` if the collection refuses
/// to be made or filled. A fault leaves the charges made before it.
#[inline]
pub fn decode_collection<
    Context: Drop,
    T: Decode<Context>,
    K: FillList<Context, Item = T>,
    D: Decoder<Context = Context>,
>(decoder: &mut D) -> Result<K, DecodeError>
    ensures { Reads D.is_known D.remaining D.charge D.failures D.loans D.C.bound D.R.end_error D.R.device (Unit {0})
        (list D.C.setting T.words.claim (T.words.format D.C.setting)) (λ m v. IsListOf (λ x n. T.words.decodes_to n x)
        (K.items v) m) (D.charge decoder.old) result decoder.old decoder.new }
{
    fill_list::decode_collection::<D, ByDecode<T>, K>(decoder)
}
