//! Decoding of tuples.
use crate::borrow_decode::BorrowDecode;
use crate::decode::Decode;
use crate::make_by_parts::MakeByParts;
use crate::strategies::{ByBorrowDecode, ByDecode};
use bincode_base::error::DecodeError;
use bincode_collections::rows::decode_row;
use bincode_collections::values::{OverDefaults, Sequential};
use bincode_decoder::decoder::{BorrowDecoder, BorrowedBytes, Decoder};
use bincode_types::rows::{Cons, Cons4, Tail};

impl<Context: Drop> Decode<Context> for () {
    type Run = OverDefaults;

    #[inline]
    fn decode<D: Decoder<Context = Context>>(_decoder: &mut D) -> Result<(), DecodeError> {
        Ok(())
    }
}

impl<B: BorrowedBytes, Context: Drop> BorrowDecode<B, Context> for () {
    type Run = OverDefaults;

    #[inline]
    fn borrow_decode<D: BorrowDecoder<B, Context = Context>>(
        decoder: &mut D,
    ) -> Result<(), DecodeError> {
        <()>::decode(decoder)
    }
}

impl<Context: Drop, A: Decode<Context>, Others: Decode<Context> + Tail> Decode<Context>
    for Cons<A, Others> {
    type Run = Sequential;

    #[inline]
    fn decode<D: Decoder<Context = Context>>(decoder: &mut D) -> Result<Self, DecodeError> {
        decode_row::<D, ByDecode<A>, ByDecode<Others>>(decoder)
    }
}

impl<
    B: BorrowedBytes,
    Context: Drop,
    A: BorrowDecode<B, Context>,
    Others: BorrowDecode<B, Context> + Tail,
> BorrowDecode<B, Context> for Cons<A, Others> {
    type Run = Sequential;

    #[inline]
    fn borrow_decode<D: BorrowDecoder<B, Context = Context>>(
        decoder: &mut D,
    ) -> Result<Self, DecodeError> {
        decode_row::<D, ByBorrowDecode<B, A>, ByBorrowDecode<B, Others>>(decoder)
    }
}

impl<
    Context: Drop,
    A: Decode<Context>,
    B: Decode<Context>,
    C: Decode<Context>,
    D: Decode<Context>,
    Others: Decode<Context> + Tail,
> Decode<Context> for Cons4<A, B, C, D, Others> {
    type Run = Sequential;

    #[inline]
    fn decode<Z: Decoder<Context = Context>>(decoder: &mut Z) -> Result<Self, DecodeError> {
        // Not with `?`, which copies the parts once more: two numbers of four bytes then become one of eight.
        match Decode::decode(decoder) {
            Ok(parts) => {
                let Cons(a, Cons(b, Cons(c, Cons(d, others)))) = parts;
                Ok(Cons4(a, b, c, d, others))
            }
            Err(error) => Err(error),
        }
    }
}

impl<
    Z: BorrowedBytes,
    Context: Drop,
    A: BorrowDecode<Z, Context>,
    B: BorrowDecode<Z, Context>,
    C: BorrowDecode<Z, Context>,
    D: BorrowDecode<Z, Context>,
    Others: BorrowDecode<Z, Context> + Tail,
> BorrowDecode<Z, Context> for Cons4<A, B, C, D, Others> {
    type Run = Sequential;

    #[inline]
    fn borrow_decode<Y: BorrowDecoder<Z, Context = Context>>(
        decoder: &mut Y,
    ) -> Result<Self, DecodeError> {
        // Not with `?`: see `Decode` above.
        match BorrowDecode::borrow_decode(decoder) {
            Ok(parts) => {
                let Cons(a, Cons(b, Cons(c, Cons(d, others)))) = parts;
                Ok(Cons4(a, b, c, d, others))
            }
            Err(error) => Err(error),
        }
    }
}

impl<A> MakeByParts for (A,) {
    fn make_by_parts(Cons(a, ()): Self::Parts) -> Self {
        (a,)
    }
}

impl<A, B> MakeByParts for (A, B) {
    fn make_by_parts(Cons(a, Cons(b, ())): Self::Parts) -> Self {
        (a, b)
    }
}

impl<A, B, C> MakeByParts for (A, B, C) {
    fn make_by_parts(Cons(a, Cons(b, Cons(c, ()))): Self::Parts) -> Self {
        (a, b, c)
    }
}

impl<A, B, C, D> MakeByParts for (A, B, C, D) {
    fn make_by_parts(Cons4(a, b, c, d, ()): Self::Parts) -> Self {
        (a, b, c, d)
    }
}

impl<A, B, C, D, E> MakeByParts for (A, B, C, D, E) {
    fn make_by_parts(Cons4(a, b, c, d, Cons(e, ())): Self::Parts) -> Self {
        (a, b, c, d, e)
    }
}

impl<A, B, C, D, E, F> MakeByParts for (A, B, C, D, E, F) {
    fn make_by_parts(Cons4(a, b, c, d, Cons(e, Cons(f, ()))): Self::Parts) -> Self {
        (a, b, c, d, e, f)
    }
}

impl<A, B, C, D, E, F, G> MakeByParts for (A, B, C, D, E, F, G) {
    fn make_by_parts(Cons4(a, b, c, d, Cons(e, Cons(f, Cons(g, ())))): Self::Parts) -> Self {
        (a, b, c, d, e, f, g)
    }
}

impl<A, B, C, D, E, F, G, H> MakeByParts for (A, B, C, D, E, F, G, H) {
    fn make_by_parts(Cons4(a, b, c, d, Cons4(e, f, g, h, ())): Self::Parts) -> Self {
        (a, b, c, d, e, f, g, h)
    }
}

impl<A, B, C, D, E, F, G, H, I> MakeByParts for (A, B, C, D, E, F, G, H, I) {
    fn make_by_parts(Cons4(a, b, c, d, Cons4(e, f, g, h, Cons(i, ()))): Self::Parts) -> Self {
        (a, b, c, d, e, f, g, h, i)
    }
}

impl<A, B, C, D, E, F, G, H, I, J> MakeByParts for (A, B, C, D, E, F, G, H, I, J) {
    fn make_by_parts(
        Cons4(a, b, c, d, Cons4(e, f, g, h, Cons(i, Cons(j, ())))): Self::Parts,
    ) -> Self {
        (a, b, c, d, e, f, g, h, i, j)
    }
}

impl<A, B, C, D, E, F, G, H, I, J, K> MakeByParts for (A, B, C, D, E, F, G, H, I, J, K) {
    fn make_by_parts(
        Cons4(a, b, c, d, Cons4(e, f, g, h, Cons(i, Cons(j, Cons(k, ()))))): Self::Parts,
    ) -> Self {
        (a, b, c, d, e, f, g, h, i, j, k)
    }
}

impl<A, B, C, D, E, F, G, H, I, J, K, L> MakeByParts for (A, B, C, D, E, F, G, H, I, J, K, L) {
    fn make_by_parts(
        Cons4(a, b, c, d, Cons4(e, f, g, h, Cons4(i, j, k, l, ()))): Self::Parts,
    ) -> Self {
        (a, b, c, d, e, f, g, h, i, j, k, l)
    }
}

impl<A, B, C, D, E, F, G, H, I, J, K, L, M> MakeByParts
    for (A, B, C, D, E, F, G, H, I, J, K, L, M) {
    fn make_by_parts(
        Cons4(a, b, c, d, Cons4(e, f, g, h, Cons4(i, j, k, l, Cons(m, ())))): Self::Parts,
    ) -> Self {
        (a, b, c, d, e, f, g, h, i, j, k, l, m)
    }
}

impl<A, B, C, D, E, F, G, H, I, J, K, L, M, N> MakeByParts
    for (A, B, C, D, E, F, G, H, I, J, K, L, M, N) {
    fn make_by_parts(
        Cons4(a, b, c, d, Cons4(e, f, g, h, Cons4(i, j, k, l, Cons(m, Cons(n, ()))))): Self::Parts,
    ) -> Self {
        (a, b, c, d, e, f, g, h, i, j, k, l, m, n)
    }
}

impl<A, B, C, D, E, F, G, H, I, J, K, L, M, N, O> MakeByParts
    for (A, B, C, D, E, F, G, H, I, J, K, L, M, N, O) {
    fn make_by_parts(
        Cons4(
            a,
            b,
            c,
            d,
            Cons4(e, f, g, h, Cons4(i, j, k, l, Cons(m, Cons(n, Cons(o, ()))))),
        ): Self::Parts,
    ) -> Self {
        (a, b, c, d, e, f, g, h, i, j, k, l, m, n, o)
    }
}

impl<A, B, C, D, E, F, G, H, I, J, K, L, M, N, O, P> MakeByParts
    for (A, B, C, D, E, F, G, H, I, J, K, L, M, N, O, P) {
    fn make_by_parts(
        Cons4(a, b, c, d, Cons4(e, f, g, h, Cons4(i, j, k, l, Cons4(m, n, o, p, ())))): Self::Parts,
    ) -> Self {
        (a, b, c, d, e, f, g, h, i, j, k, l, m, n, o, p)
    }
}
