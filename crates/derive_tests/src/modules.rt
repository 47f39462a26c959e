//! What is written for types that are not among those of the program's run.
//!
//! A table of sources is a text. A line `=====` parts two of them, and a line `-----` a source from what its module
//! has, and that from more that it has.

use derive_words::module::{Origin, module_of};
use std::alloc::{AllocError, Global};
use std::test::Fail;

/// The module that is written for a source. Where something is refused, the message after the word `refused`.
pub fn answer(alloc: Global, text: &str) -> Result<String, AllocError> {
    let origin = Origin {
        file_name: "types.rt",
        declared: "app.specs.declared.types",
    };
    match module_of(alloc, &origin, text) {
        Ok(module) => Ok(module),
        Err(fault) => format!(in alloc; "refused {fault}\n"),
    }
}

/// What is wrong in a table: what the answer to a source should have and has not, and that answer. Nothing if all is as
/// it should be.
pub fn wrong_in(alloc: Global, cases: &str) -> Result<String, AllocError> {
    let mut wrong = String::new(alloc);
    for case in cases.split("=====\n") {
        let (text, expected) = case.split_once("-----\n").unwrap_or(("", case));
        let answer = answer(alloc, text)?;
        if let Some(piece) = missing_in(answer.as_str(), expected) {
            wrong.push_str(piece)?;
            wrong.push_str(answer.as_str())?;
        }
    }
    Ok(wrong)
}

/// The first of some pieces that an answer does not have.
fn missing_in<'t>(answer: &str, pieces: &'t str) -> Option<&'t str> {
    for piece in pieces.split("-----\n") {
        if !answer.contains(piece) {
            return Some(piece);
        }
    }
    None
}

/// Sources, each with lines of its module.
const WRITTEN: &str = "\
// Names that a function or an `impl` would have for parameters of its own.
#[derive(Drop)]
struct Pair<D, E>(D, E);
-----
    fn encode<TheEncoder: Encoder>(&self, encoder: &mut TheEncoder) -> Result<(), EncodeError> {
=====
#[derive(Drop)]
enum Pair<Context, D> {
    Left(Context),
    Right(D),
}
-----
impl<TheContext: Drop, Context: Decode<TheContext>, D: Decode<TheContext>> DecodeVariants<TheContext>
    for Pair<Context, D> {
    fn decode_variant<TheDecoder: Decoder<Context = TheContext>>(
        tag: u32,
        decoder: &mut TheDecoder,
    ) -> Result<Pair<Context, D>, DecodeError> {
=====
// bincode: with BorrowDecode
#[derive(Drop)]
struct B(u8);
-----
impl<TheBytes: BorrowedBytes, Context: Drop> BorrowDecode<TheBytes, Context> for B {
    type Run = Sequential;

    fn borrow_decode<D: BorrowDecoder<TheBytes, Context = Context>>(
        decoder: &mut D,
    ) -> Result<B, DecodeError> {
=====
// What holds nothing, and one field that is its own parts.
#[derive(Clone, Copy)]
struct Ping;
-----
    ghost parts = { λ v. tt };
-----
        let (): PingParts = Decode::decode(decoder)?;
        Ok(Ping)
=====
#[derive(Drop)]
struct Name(String);
-----
        let value: NameParts = Decode::decode(decoder)?;
        Ok(Name(value))
-----
        self.0.encode(encoder)
=====
#[derive(Drop)]
enum Never {}
-----
        decode_no_variants::<Never, Never, D>(decoder)
=====
// A struct of more than eight fields is read by its parts in groups of four.
#[derive(Drop)]
struct Row(u8, u8, u8, u8, u8, u8, u8, u8, u8);
-----
type RowParts = ((u8, u8, u8, u8), (u8, u8, u8, u8), u8);
=====
#[derive(Drop)]
struct Row<'a>(&'a str, u8, u8, u8, u8, u8, u8, u8, u8);
-----
        let (
            (first, second, third, fourth),
            (fifth, sixth, seventh, eighth),
            part_8,
        ): RowParts<'a> = BorrowDecode::borrow_decode(decoder)?;
=====
// Names that mean something else where they would be bound.
#[derive(Drop)]
enum Kind {
    Work { encoder: u8 },
}
-----
            Kind::Work { encoder: value } => encode_variant(self, 0, value, encoder),
=====
#[derive(Drop)]
enum Kind {
    Work { other: u8, by: u8 },
}
-----
      | Work part_0 part_1 ↦ this (part_0, part_1)
=====
// bincode: claims 9
#[derive(Drop)]
enum Kind {
    Work { other: u8, open: u8 },
}
-----
      | Work part_0 part_1 ↦ record { 0 = this (part_0, part_1) }
=====
// Bounds of a type, at its parameters or in a `where`, and defaults.
#[derive(Drop)]
struct A<K = u8>(K) where K: Ord + Clone;
-----
impl<K: Ord + Clone + Encode> Encode for A<K> {
=====
#[derive(Drop)]
struct A<K: Ord, V>
where
    V: Clone,
    Vec<V>: Clone,
{
    a: BTreeMap<K, V>,
}
-----
impl<K: Ord + Drop, V: Clone + Drop> Encode for A<K, V>
where
    Vec<V>: Clone,
    BTreeMap<K, V>: Encode,
{
=====
// What is there for its type alone asks nothing of it.
#[derive(Drop)]
struct A<K>(u8, PhantomData<K>);
-----
impl<Context: Drop, K: Drop> Decode<Context> for A<K> {
=====
// Types of other modules, which stand one module above what is written.
#[derive(Drop)]
struct A(crate::other::Kind, super::Kind, self::below::Kind, super::super::Kind);
-----
type AParts = (
    crate::other::Kind,
    super::super::Kind,
    super::below::Kind,
    super::super::super::Kind,
);
=====
#[derive(Drop)]
struct Kind(Vec<super::Kind>);
-----
type KindParts = Vec<super::super::Kind>;
=====
// What is not public, with attributes and comments.
/// A.
#[derive(Drop)]
pub(crate) struct A {
    /// Its number.
    #[allow(unused)]
    pub(crate) a: u8,
    b: u16,
}
-----
type AParts = (u8, u16);
=====
// How far a `pub` reaches stands in brackets behind it, and so do the types of fields.
#[derive(Drop)]
pub struct Digest(pub [u8; 32]);
-----
type DigestParts = [u8; 32];
=====
#[derive(Drop)]
struct A(pub [u8; 4], pub u32);
-----
type AParts = ([u8; 4], u32);
=====
#[derive(Drop)]
struct A(pub (super::Kind, u8), pub(crate) (u8, u16), pub(in crate::below) u32, pub(super) u8, pub(self) [u8; 2]);
-----
type AParts = ((super::super::Kind, u8), (u8, u16), u32, u8, [u8; 2]);
=====
// A type that one that borrows holds is decoded by borrowing too.
#[derive(Drop)]
struct Inner(u8);
#[derive(Drop)]
struct Outer<'a>(Inner, &'a [u8]);
-----
impl<B: BorrowedBytes, Context: Drop> BorrowDecode<B, Context> for Inner {
=====
// Lines that are too long.
// bincode: claims 9
#[derive(Drop)]
enum Happening {
    Ping,
    Joined(Joined),
    Moved(Moved),
    Scored(PlayerId, u16),
    Said(String),
    Left(PlayerId),
}
-----
type HappeningParts = EnumOf<
    VariantOf<
        0,
        (),
        VariantOf<
            1,
            Joined,
            VariantOf<
                2,
                Moved,
                VariantOf<
                    3,
                    (PlayerId, u16),
                    VariantOf<4, String, VariantOf<5, PlayerId, NoMoreVariants<Happening>>>,
                >,
            >,
        >,
    >,
>;
=====
#[derive(Drop)]
enum Kind {
    Work { company: String, since: u16, last_day_of_the_year: u8 },
}
-----
            Kind::Work {
                company,
                since,
                last_day_of_the_year,
            } => encode_variant(self, 0, &(company, since, last_day_of_the_year), encoder),
=====
#[derive(Drop)]
struct AnotherVeryLongNameOfAType {
    key: String,
}
-----
    fn decode<D: Decoder<Context = Context>>(
        decoder: &mut D,
    ) -> Result<AnotherVeryLongNameOfAType, DecodeError> {
";

#[test]
fn writes_each_kind_of_type(rt: HostRuntime) -> Result<(), Fail> {
    let wrong = wrong_in(rt.alloc(), WRITTEN)?;
    assert_eq!(rt; wrong.as_str(), "");
    Ok(())
}
