//! An enum with type parameters.

mod words;

/// One of two.
#[derive(Drop, PartialEq)]
pub enum Either<L, R> {
    Left(L),
    Right(R),
}
