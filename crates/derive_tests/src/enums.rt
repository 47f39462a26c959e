//! What is written for enums, variant by variant.

use crate::modules::wrong_in;
use std::alloc::{AllocError, Global};
use std::test::Fail;

/// Sources, each with lines of its module.
const WRITTEN: &str = "\
#[derive(Drop, PartialEq)]
enum Kind {
    Idle,
    Note(String),
    Work(String, u16),
    Move { by: i32, back: bool },
}
-----
type KindIdlePart = ();

type KindNotePart = String;

type KindWorkPart = (String, u16);

type KindMovePart = (i32, bool);

type KindParts = VariantOf<
    0,
    KindIdlePart,
    VariantOf<
        1,
        KindNotePart,
        VariantOf<2, KindWorkPart, VariantOf<3, KindMovePart, NoMoreVariants<Kind>>>,
    >,
>;
-----
impl Sum<KindParts> for Kind {
    ghost use Rattle.bincode.specs.Sums.{this, other};
    ghost use Rattle.bincode.specs.EnumWords.{by, no_more, or_else};
    ghost use Rattle.app.specs.declared.types.Kind.TheVariants.{Idle, Note, Work, Move};

    ghost variants = { or_else 0 ⟦<KindIdlePart as Wire>⟧.words
        (or_else 1 ⟦<KindNotePart as Wire>⟧.words
        (or_else 2 ⟦<KindWorkPart as Wire>⟧.words
        (or_else 3 ⟦<KindMovePart as Wire>⟧.words
        no_more))) };

    ghost parts = { elim [
      | Idle ↦ this tt
      | Note value ↦ other (this value)
      | Work first second ↦ other (other (this (first, second)))
      | Move part_0 back ↦ other (other (other (this (part_0, back))))
    ] };

    ghost made = { by (λ p. Idle)
        (by (λ p. Note p)
        (by (λ p. Work p.0 p.1)
        (by (λ p. Move p.0 p.1)
        (λ n. elim (n.0) [ ])))) };
}
-----
    ghost words = { enum_words ⟦<Kind as Sum<KindParts>>⟧.variants ⟦<Kind as Sum<KindParts>>⟧.parts };

    fn claim_size() -> usize {
        let widest = KindMovePart::claim_size().max(0);
        let widest = KindWorkPart::claim_size().max(widest);
        let widest = KindNotePart::claim_size().max(widest);
        let widest = KindIdlePart::claim_size().max(widest);
        enum_claim(widest)
    }
-----
impl Enum for Kind {
    ghost use Rattle.std.specs.Prelude.{refl};
    ghost use Rattle.bincode.specs.EnumWords.{enum_laws, enum_variants};
    ghost use Rattle.app.specs.declared.types.Kind.TheVariants.{Idle, Note, Work, Move};

    ghost choices = { enum_variants ⟦<Kind as Sum<KindParts>>⟧.variants ⟦<Kind as Sum<KindParts>>⟧.made };

    fn type_name() -> TypeName {
        TypeName::new(\"Kind\")
    }

    ghost laws = { enum_laws ⟦<Kind as Sum<KindParts>>⟧.variants ⟦<Kind as Sum<KindParts>>⟧.parts
        ⟦<Kind as Sum<KindParts>>⟧.made (elim [
          | Idle ↦ refl
          | Note value ↦ refl
          | Work first second ↦ refl
          | Move part_0 back ↦ refl
        ]) };
}
-----
impl Exact for Kind {
    fn tell_exact() {
        KindIdlePart::tell_exact();
        KindNotePart::tell_exact();
        KindWorkPart::tell_exact();
        KindMovePart::tell_exact();
        exact_by_variants::<Kind>();
    }
}
-----
            Kind::Move { by, back } => encode_variant(self, 3, &(by, back), encoder),
-----
impl<Context: Drop> DecodeVariants<Context> for Kind {
    fn decode_variant<D: Decoder<Context = Context>>(
        tag: u32,
        decoder: &mut D,
    ) -> Result<Kind, DecodeError> {
        match tag {
            0 => match decode_part::<Context, Kind, KindIdlePart, D>(tag, 0, decoder) {
                Ok(()) => Ok(Kind::Idle),
                Err(error) => Err(error),
            },
            1 => match decode_part::<Context, Kind, KindNotePart, D>(tag, 1, decoder) {
                Ok(value) => Ok(Kind::Note(value)),
                Err(error) => Err(error),
            },
            2 => match decode_part::<Context, Kind, KindWorkPart, D>(tag, 2, decoder) {
                Ok((first, second)) => Ok(Kind::Work(first, second)),
                Err(error) => Err(error),
            },
            3 => match decode_part::<Context, Kind, KindMovePart, D>(tag, 3, decoder) {
                Ok((by, back)) => Ok(Kind::Move { by, back }),
                Err(error) => Err(error),
            },
            _ => decode_no_variant(tag, 3, decoder),
        }
    }
}

impl<Context: Drop> Decode<Context> for Kind {
    type Run = Sequential;

    fn decode<D: Decoder<Context = Context>>(decoder: &mut D) -> Result<Kind, DecodeError> {
        decode_by_tag(decoder)
    }
}
-----
use bincode::enums::{
    DecodeVariants, Enum, Sum, canonical_by_variants, decode_by_tag, decode_no_variant,
    decode_part, encode_variant, enum_claim, exact_by_variants, plain_by_variants,
};
use bincode::error::{DecodeError, EncodeError};
use bincode::laws::{Canonical, Exact, Plain};
use bincode::short_text::TypeName;
use bincode::{NoMoreVariants, VariantOf, Wire};
=====
#[derive(Drop, PartialEq)]
pub enum Code {
    // bincode: tag 1
    Done,
    // bincode: tag 5
    Late(u16),
    // bincode: tag 300
    Refused(String),
}
-----
            300 => match decode_part::<Context, Code, CodeRefusedPart, D>(tag, 300, decoder) {
-----
            _ => decode_unlisted_variant(tag, &[1, 5, 300], decoder),
-----
    ghost made = { by (λ p. Done)
        (by (λ p. Late p)
        (by (λ p. Refused p)
        (λ n. elim (n.0) [ ]))) };
=====
#[derive(Drop, PartialEq)]
enum Event<'a> {
    Start,
    Note(&'a str, u8),
}
-----
type EventStartPart = ();

type EventNotePart<'a> = (&'a str, u8);

type EventParts<'a> = VariantOf<
    0,
    EventStartPart,
    VariantOf<1, EventNotePart<'a>, NoMoreVariants<Event<'a>>>,
>;
-----
impl<'a> Wire for Event<'a> {
    ghost use Rattle.std.specs.Prelude.{min, ◌+◌, ◌-◌, ◌^◌};
    ghost use Rattle.bincode.specs.EnumWords.{enum_words};

    ghost words = { enum_words ⟦<Event<'a> as Sum<EventParts<'a>>>⟧.variants
        ⟦<Event<'a> as Sum<EventParts<'a>>>⟧.parts };

    fn claim_size() -> usize
        ensures { result ≡ min (4 + ⟦<Event<'a> as Sum<EventParts<'a>>>⟧.variants.claim) (2 ^ 64 - 1) }
    {
        let widest = EventNotePart::claim_size().max(0);
        let widest = EventStartPart::claim_size().max(widest);
        enum_claim(widest)
    }
}
-----
    fn tell_exact()
        ensures { ExactWords ⟦<Event<'a> as Wire>⟧.words ⟦<Event<'a> as PartialEq>⟧.eq }
    {
        EventStartPart::tell_exact();
        EventNotePart::tell_exact();
        exact_by_variants::<Event<'a>>();
    }
-----
impl<'a, Context: Drop> BorrowDecodeVariants<&'a [u8], Context> for Event<'a> {
    fn borrow_decode_variant<D: BorrowDecoder<&'a [u8], Context = Context>>(
        tag: u32,
        decoder: &mut D,
    ) -> Result<Event<'a>, DecodeError> {
        match tag {
            0 => match borrow_decode_part::<&'a [u8], Context, Event<'a>, EventStartPart, D>(
                tag, 0, decoder,
            ) {
                Ok(()) => Ok(Event::Start),
                Err(error) => Err(error),
            },
-----
        borrow_decode_by_tag(decoder)
=====
// A part that is a parameter is named by that.
#[derive(Drop, PartialEq)]
enum Either<K, V> {
    Left(K),
    Right(V),
    Both(K, V),
}
-----
type EitherBothPart<K, V> = (K, V);

type EitherParts<K, V> = VariantOf<
    0,
    K,
    VariantOf<1, V, VariantOf<2, EitherBothPart<K, V>, NoMoreVariants<Either<K, V>>>>,
>;

impl<K: Wire, V: Wire> Sum<EitherParts<K, V>> for Either<K, V> {
-----
    ghost variants = { or_else 0 K.words
        (or_else 1 V.words
        (or_else 2 ⟦<EitherBothPart<K, V> as Wire>⟧.words
        no_more)) };
-----
impl<K: Wire, V: Wire> Enum for Either<K, V> {
-----
impl<K: Plain, V: Plain> Plain for Either<K, V> {
    fn tell_plain() {
        K::tell_plain();
        V::tell_plain();
        <EitherBothPart<K, V>>::tell_plain();
        plain_by_variants::<Either<K, V>>();
    }
}
-----
impl<Context: Drop, K: Decode<Context>, V: Decode<Context>> DecodeVariants<Context>
    for Either<K, V> {
    fn decode_variant<D: Decoder<Context = Context>>(
        tag: u32,
        decoder: &mut D,
    ) -> Result<Either<K, V>, DecodeError> {
        match tag {
            0 => match decode_part::<Context, Either<K, V>, K, D>(tag, 0, decoder) {
=====
#[derive(Drop)]
enum Some<K: Ord> {
    Map(BTreeMap<K, u8>),
}
-----
impl<K: Ord> Sum<SomeParts<K>> for Some<K>
where
    BTreeMap<K, u8>: Wire,
{
=====
// More than eight fields stand in groups of four.
#[derive(Drop)]
enum Wide {
    Row(u8, u8, u8, u8, u8, u8, u8, u8, u16),
}
-----
type WideRowPart = ((u8, u8, u8, u8), (u8, u8, u8, u8), u16);
-----
    ghost made = { by (λ p. Row p.0.0 p.0.1 p.0.2 p.0.3 p.1.0 p.1.1 p.1.2 p.1.3 p.2)
        (λ n. elim (n.0) [ ]) };
-----
    ghost use Rattle.bincode.specs.Sums.{this};
=====
// The fields of a variant, one after the other.
#[derive(Drop)]
enum Kind {
    Private,
    Work { company: String, since: u16 },
}
-----
            Kind::Private => {}
            Kind::Work { company, since } => {
                company.tell_valid();
                since.tell_valid();
            }
=====
// A note gives the tag, whatever stands after the `=`. Without a note the place does, and only the tag is claimed.
#[derive(Clone, Copy)]
enum Code {
    // bincode: tag 7
    Done = 200,
    Late = 1,
    // bincode: tag 4294967295
    Refused = -(1 << 4),
    Lost,
}
-----
type CodeParts = VariantOf<
    7,
    CodeDonePart,
    VariantOf<
        1,
        CodeLatePart,
        VariantOf<4294967295, CodeRefusedPart, VariantOf<3, CodeLostPart, NoMoreVariants<Code>>>,
    >,
>;
-----
    ghost variants = { record (or_else 7 ⟦<CodeDonePart as Wire>⟧.words
        (or_else 1 ⟦<CodeLatePart as Wire>⟧.words
        (or_else 4294967295 ⟦<CodeRefusedPart as Wire>⟧.words
        (or_else 3 ⟦<CodeLostPart as Wire>⟧.words
        no_more)))) { claim = 0 } };
-----
    fn claim_size() -> usize {
        enum_claim(0)
    }
-----
            _ => decode_unlisted_variant(tag, &[7, 1, 4294967295, 3], decoder),
=====
// Numbers that are the places.
#[derive(Clone, Copy)]
enum Side {
    // bincode: tag 0
    Left = -1,
    Right = 1,
    // bincode: tag 2
    Both = 0x10,
}
-----
            _ => decode_no_variant(tag, 2, decoder),
=====
// A sum claims its tag alone too.
// bincode: with Inhabited
#[derive(Clone, Copy)]
enum Side {
    Left,
    Right,
}
-----
    ghost words = { with_claim 4 (omega arith) (words_by ⟦<SideParts as Wire>⟧.words ⟦<Side as HasParts<SideParts>>⟧.parts) };

    fn claim_size() -> usize {
        4
    }
=====
// The shape of an enum.
// bincode: with Described
#[derive(Drop)]
enum Kind {
    Private,
    Other(u8),
}
-----
        let shapes = start_variants::<Kind>(alloc);
        let shapes = put_variant::<Kind, KindPrivatePart>(alloc, 0, shapes)?;
        let shapes = put_variant::<Kind, KindOtherPart>(alloc, 1, shapes)?;
        Some(describe_variants::<Kind>(2, shapes))
=====
// What only a sum has.
// bincode: claims 9
#[derive(Drop)]
enum Kind {
    Private,
    Other(u8),
}
-----
            Kind::Other(value) => encode_in_sum(self, 1, value, encoder),
=====
// bincode: with Writable
#[derive(Drop)]
enum Kind {
    Private,
    Other(u8),
}
-----
    fn tell_writable() {
        KindPrivatePart::tell_writable();
        KindOtherPart::tell_writable();
        writable_by_variants::<Kind>();
    }
";

#[test]
fn writes_each_variant(rt: HostRuntime) -> Result<(), Fail> {
    let wrong = wrong_in(rt.alloc(), WRITTEN)?;
    assert_eq!(rt; wrong.as_str(), "");
    let wrong = wrong_in(rt.alloc(), forty(rt.alloc())?.as_str())?;
    assert_eq!(rt; wrong.as_str(), "");
    Ok(())
}

/// What the module of an enum of forty variants has, each of which has three fields.
const FORTY: &str = "\
-----
type LargeV39Part = (u32, String, u8);
-----
        (or_else 39 ⟦<LargeV39Part as Wire>⟧.words
        no_more))))))))))))))))))))))))))))))))))))))) };
-----
        (by (λ p. V39 p.0 p.1 p.2)
-----
            39 => match decode_part::<Context, Large, LargeV39Part, D>(tag, 39, decoder) {
-----
            _ => decode_no_variant(tag, 39, decoder),
";

/// That enum, with what its module has.
fn forty(alloc: Global) -> Result<String, AllocError> {
    let mut source = String::from_str(alloc, "#[derive(Drop)]\nenum Large {\n")?;
    for number in 0..40u32 {
        let line = format!(in alloc; "    V{number}(u32, String, u8),\n")?;
        source.push_str(line.as_str())?;
    }
    source.push_str("}\n")?;
    source.push_str(FORTY)?;
    Ok(source)
}
