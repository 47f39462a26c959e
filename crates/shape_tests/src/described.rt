//! The shapes of tuples with each number of parts, of enums, and of user-defined types.

use crate::asserts::all_true;
use crate::shaped::has_shape;
use bincode::shape::{Described, Shape};
use bincode::{EnumOf, NoMoreVariants, VariantOf};
use derived_types::enums::Figure;
use own_types::foo::Foo;
use own_types::kind::Kind;
use std::alloc::Global;

/// Whether a shape is there, and is a tuple of so many bytes.
fn are_bytes(shape: Option<Shape>, count: usize) -> bool {
    match shape {
        Some(Shape::Tuple(parts)) => {
            parts.len() == count && parts.iter().all(|part| *part == Shape::U8)
        }
        _ => false,
    }
}

/// Whether the type's shape is a tuple of so many bytes. Retries once, since an allocation may be refused.
fn is_tuple<T: Described>(alloc: Global, count: usize) -> bool {
    are_bytes(T::shape(alloc), count) || are_bytes(T::shape(alloc), count)
}

/// Whether tuples of one byte to eight tell their shapes.
fn tell_shapes<A: Described>(alloc: Global) -> bool {
    is_tuple::<(A,)>(alloc, 1)
        && is_tuple::<(A, A)>(alloc, 2)
        && is_tuple::<(A, A, A)>(alloc, 3)
        && is_tuple::<(A, A, A, A)>(alloc, 4)
        && is_tuple::<(A, A, A, A, A)>(alloc, 5)
        && is_tuple::<(A, A, A, A, A, A)>(alloc, 6)
        && is_tuple::<(A, A, A, A, A, A, A)>(alloc, 7)
        && is_tuple::<(A, A, A, A, A, A, A, A)>(alloc, 8)
}

/// Whether those of nine to sixteen do so.
fn tell_long_shapes<A: Described>(alloc: Global) -> bool {
    is_tuple::<(A, A, A, A, A, A, A, A, A)>(alloc, 9)
        && is_tuple::<(A, A, A, A, A, A, A, A, A, A)>(alloc, 10)
        && is_tuple::<(A, A, A, A, A, A, A, A, A, A, A)>(alloc, 11)
        && is_tuple::<(A, A, A, A, A, A, A, A, A, A, A, A)>(alloc, 12)
        && is_tuple::<(A, A, A, A, A, A, A, A, A, A, A, A, A)>(alloc, 13)
        && is_tuple::<(A, A, A, A, A, A, A, A, A, A, A, A, A, A)>(alloc, 14)
        && is_tuple::<(A, A, A, A, A, A, A, A, A, A, A, A, A, A, A)>(alloc, 15)
        && is_tuple::<(A, A, A, A, A, A, A, A, A, A, A, A, A, A, A, A)>(alloc, 16)
}

#[test]
fn tuples_tell_their_shapes(rt: HostRuntime) {
    let alloc = rt.alloc();
    assert!(rt; tell_shapes::<u8>(alloc) && tell_long_shapes::<u8>(alloc));
}

/// Three variants, which hold a byte, a truth value and a text.
type Three = EnumOf<
    VariantOf<0, u8, VariantOf<1, bool, VariantOf<2, String, NoMoreVariants<Foo>>>>,
>;

/// Eight variants, which hold a byte each.
type Eight = EnumOf<
    VariantOf<0, u8, VariantOf<1, u8, VariantOf<2, u8, VariantOf<3, u8, LastFour>>>>,
>;

/// The last four of them.
type LastFour = VariantOf<
    4,
    u8,
    VariantOf<5, u8, VariantOf<6, u8, VariantOf<7, u8, NoMoreVariants<Foo>>>>,
>;

/// The pairs of a text and a number that `Kind` holds claim 28 bytes each: 24 for the text and 4 for the number.
#[test]
fn types_of_ones_own_tell_their_shapes(rt: HostRuntime) {
    let alloc = rt.alloc();
    all_true(
        &rt,
        &[
            has_shape::<Three>(alloc, "Choice([U8, Bool, Text])"),
            has_shape::<Eight>(alloc, "Choice([U8, U8, U8, U8, U8, U8, U8, U8])"),
            has_shape::<Figure>(
                alloc,
                "Choice([Unit, U32, Tuple([U32, U32]), Tuple([U32, U32, U32])])",
            ),
            has_shape::<Kind>(
                alloc,
                "Choice([Unit, Tuple([Text, U16]), \
                Seq { claim: 28, element: Tuple([Text, U32]) }])",
            ),
        ],
    );
}
