//! Test vectors of shapes, by their labels.

use crate::asserts::each_holds;
use crate::shaped::has_shape;
use bincode::config;
use bincode::error::DecodeError;
use bincode::shape::{Described, Shape, Value, decode_shaped};
use own_types::foo::Foo;
use std::alloc::{AllocError, Global};
use test_helpers::checks::is_passed;

/// Whether the input is three `()` by this shape, which need more than the first limit, and no more than the second.
fn are_three<const LESS: usize, const ENOUGH: usize>(
    alloc: Global,
    shape: &Shape,
    input: &[u8],
) -> bool {
    let three = [Value::Unit, Value::Unit, Value::Unit];
    let less = config::standard().with_limit::<LESS>();
    let enough = config::standard().with_limit::<ENOUGH>();
    let Ok((value, taken)) = decode_shaped(alloc, shape, input, enough) else {
        return false;
    };
    let Value::List(items) = value else {
        return false;
    };
    taken == input.len()
        && items.as_slice() == three.as_slice()
        && is_passed(decode_shaped(alloc, shape, input, less))
}

/// Whether lists and arrays with this claim are read as with a claim of 1: three elements need 3, and a length 8.
fn claims_one(alloc: Global, claim: usize) -> Result<bool, AllocError> {
    let list = Shape::Seq {
        claim,
        element: Box::new(alloc, Shape::Unit)?,
    };
    let array = Shape::Array {
        len: 3,
        claim,
        element: Box::new(alloc, Shape::Unit)?,
    };
    Ok(are_three::<10, 11>(alloc, &list, &[3]) && are_three::<2, 3>(alloc, &array, &[]))
}

/// Whether a list of two with a claim of 2^63, and an array of 2^64 - 1 with a claim of 2, pass the limit 2^64 - 1.
/// Without a limit the array asks for memory that is not there.
fn passes_each_limit(alloc: Global) -> Result<bool, AllocError> {
    let list = Shape::Seq {
        claim: 1 << 63,
        element: Box::new(alloc, Shape::U8)?,
    };
    let array = Shape::Array {
        len: usize::MAX,
        claim: 2,
        element: Box::new(alloc, Shape::U8)?,
    };
    let limited = config::standard().with_limit::<{ usize::MAX }>();
    let unlimited = decode_shaped(alloc, &array, &[1, 1], config::standard());
    Ok(
        is_passed(decode_shaped(alloc, &list, &[2, 1, 1], limited))
            && is_passed(decode_shaped(alloc, &array, &[1, 1], limited))
            && matches!(unlimited, Err(DecodeError::Memory)),
    )
}

/// A list of tuples: its shape and its values take memory at several places.
type Wholes = Vec<(String, Option<u8>, Result<u8, bool>)>;

/// Two of them.
const WORD: [u8; 11] = [2, 1, 97, 1, 5, 1, 1, 0, 0, 0, 9];

/// Whether they are read by their shape as two; `None` where memory was refused for the shape or the values.
fn are_read(alloc: Global) -> Option<bool> {
    let shape = Wholes::shape(alloc)?;
    match decode_shaped(alloc, &shape, &WORD, config::standard()) {
        Ok((value, taken)) => {
            Some(matches!(&value, Value::List(items) if items.len() == 2) && taken == WORD.len())
        }
        Err(DecodeError::Memory) => None,
        Err(_) => Some(false),
    }
}

/// Whether nothing but refused memory keeps them from being read: of two calls at most one is refused an allocation.
fn are_read_or_refused_memory(alloc: Global) -> bool {
    match (are_read(alloc), are_read(alloc)) {
        (Some(first), Some(second)) => first && second,
        (Some(outcome), None) | (None, Some(outcome)) => outcome,
        (None, None) => false,
    }
}

/// Whether one of two equal answers is that it holds, since an allocation of the other may be refused.
fn either_holds(first: Result<bool, AllocError>, second: Result<bool, AllocError>) -> bool {
    matches!(first, Ok(true)) || matches!(second, Ok(true))
}

#[test]
fn worked_rows_hold(rt: HostRuntime) {
    let alloc = rt.alloc();
    let of_nothing = either_holds(claims_one(alloc, 0), claims_one(alloc, 0));
    let of_one = either_holds(claims_one(alloc, 1), claims_one(alloc, 1));
    let overflow = either_holds(passes_each_limit(alloc), passes_each_limit(alloc));
    each_holds(
        &rt,
        &[
            (
                "the shape of a struct",
                has_shape::<Foo>(alloc, "Tuple([U32, U32])"),
            ),
            ("a claim of nothing", of_nothing && of_one),
            ("a claim that overflows", overflow),
            ("a shape without memory", are_read_or_refused_memory(alloc)),
        ],
    );
}
