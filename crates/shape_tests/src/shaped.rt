//! The shapes of types, printed.

use bincode::shape::Described;
use std::alloc::Global;
use std::fmt::Debug;

/// Whether it is printed so.
pub fn is_printed<T: Debug>(alloc: Global, value: &T, wanted: &str) -> bool {
    match format!(in alloc; "{value:?}") {
        Ok(text) => text.as_str() == wanted,
        Err(_) => false,
    }
}

/// Whether the type has a shape that is printed so.
fn has_shape_once<T: Described>(alloc: Global, wanted: &str) -> bool {
    match T::shape(alloc) {
        Some(shape) => is_printed(alloc, &shape, wanted),
        None => false,
    }
}

/// The same. Retries once, since an allocation may be refused.
pub fn has_shape<T: Described>(alloc: Global, wanted: &str) -> bool {
    has_shape_once::<T>(alloc, wanted) || has_shape_once::<T>(alloc, wanted)
}
