//! What the types of `enums.rt` are written as. Made from that file by the program `derive`, and not edited: run
//! `derive` on the file again where its types change.

use super::*;
use bincode::de::{Decode, Decoder, Sequential};
use bincode::enc::{Encode, Encoder};
use bincode::enums::{
    DecodeVariants, Enum, Sum, canonical_by_variants, decode_by_tag, decode_no_variant,
    decode_part, encode_variant, enum_claim, exact_by_variants, plain_by_variants,
};
use bincode::error::{DecodeError, EncodeError};
use bincode::laws::{Canonical, Exact, Plain};
use bincode::shape::{Described, Shape, describe_variants, put_variant, start_variants};
use bincode::short_text::TypeName;
use bincode::{NoMoreVariants, VariantOf, Wire};
use std::alloc::Global;

type FigureEmptyPart = ();

type FigureCirclePart = u32;

type FigureRectanglePart = (u32, u32);

type FigureTrianglePart = (u32, u32, u32);

type FigureParts = VariantOf<
    0,
    FigureEmptyPart,
    VariantOf<
        1,
        FigureCirclePart,
        VariantOf<2, FigureRectanglePart, VariantOf<3, FigureTrianglePart, NoMoreVariants<Figure>>>,
    >,
>;

impl Sum<FigureParts> for Figure {
    ghost use Rattle.bincode.specs.Sums.{this, other};
    ghost use Rattle.bincode.specs.EnumWords.{by, no_more, or_else};
    ghost use Rattle.derived_types.specs.declared.enums.Figure.TheVariants.{Empty, Circle, Rectangle};
    ghost use Rattle.derived_types.specs.declared.enums.Figure.TheVariants.{Triangle};

    ghost variants = { or_else 0 ⟦<FigureEmptyPart as Wire>⟧.words
        (or_else 1 ⟦<FigureCirclePart as Wire>⟧.words
        (or_else 2 ⟦<FigureRectanglePart as Wire>⟧.words
        (or_else 3 ⟦<FigureTrianglePart as Wire>⟧.words
        no_more))) };

    ghost parts = { elim [
      | Empty ↦ this tt
      | Circle value ↦ other (this value)
      | Rectangle first second ↦ other (other (this (first, second)))
      | Triangle a b c ↦ other (other (other (this (a, b, c))))
    ] };

    ghost made = { by (λ p. Empty)
        (by (λ p. Circle p)
        (by (λ p. Rectangle p.0 p.1)
        (by (λ p. Triangle p.0 p.1 p.2)
        (λ n. elim (n.0) [ ])))) };
}

impl Wire for Figure {
    ghost use Rattle.bincode.specs.EnumWords.{enum_words};

    ghost words = { enum_words ⟦<Figure as Sum<FigureParts>>⟧.variants ⟦<Figure as Sum<FigureParts>>⟧.parts };

    fn claim_size() -> usize {
        let widest = FigureTrianglePart::claim_size().max(0);
        let widest = FigureRectanglePart::claim_size().max(widest);
        let widest = FigureCirclePart::claim_size().max(widest);
        let widest = FigureEmptyPart::claim_size().max(widest);
        enum_claim(widest)
    }
}

impl Enum for Figure {
    ghost use Rattle.std.specs.Prelude.{refl};
    ghost use Rattle.bincode.specs.EnumWords.{enum_laws, enum_variants};
    ghost use Rattle.derived_types.specs.declared.enums.Figure.TheVariants.{Empty, Circle, Rectangle};
    ghost use Rattle.derived_types.specs.declared.enums.Figure.TheVariants.{Triangle};

    ghost choices = { enum_variants ⟦<Figure as Sum<FigureParts>>⟧.variants ⟦<Figure as Sum<FigureParts>>⟧.made };

    fn type_name() -> TypeName {
        TypeName::new("Figure")
    }

    ghost laws = { enum_laws ⟦<Figure as Sum<FigureParts>>⟧.variants ⟦<Figure as Sum<FigureParts>>⟧.parts
        ⟦<Figure as Sum<FigureParts>>⟧.made (elim [
          | Empty ↦ refl
          | Circle value ↦ refl
          | Rectangle first second ↦ refl
          | Triangle a b c ↦ refl
        ]) };
}

impl Plain for Figure {
    fn tell_plain() {
        FigureEmptyPart::tell_plain();
        FigureCirclePart::tell_plain();
        FigureRectanglePart::tell_plain();
        FigureTrianglePart::tell_plain();
        plain_by_variants::<Figure>();
    }
}

impl Exact for Figure {
    fn tell_exact() {
        FigureEmptyPart::tell_exact();
        FigureCirclePart::tell_exact();
        FigureRectanglePart::tell_exact();
        FigureTrianglePart::tell_exact();
        exact_by_variants::<Figure>();
    }
}

impl Canonical for Figure {
    fn tell_canonical() {
        FigureEmptyPart::tell_canonical();
        FigureCirclePart::tell_canonical();
        FigureRectanglePart::tell_canonical();
        FigureTrianglePart::tell_canonical();
        canonical_by_variants::<Figure>();
    }
}

impl Described for Figure {
    fn shape(alloc: Global) -> Option<Shape> {
        let shapes = start_variants::<Figure>(alloc);
        let shapes = put_variant::<Figure, FigureEmptyPart>(alloc, 0, shapes)?;
        let shapes = put_variant::<Figure, FigureCirclePart>(alloc, 1, shapes)?;
        let shapes = put_variant::<Figure, FigureRectanglePart>(alloc, 2, shapes)?;
        let shapes = put_variant::<Figure, FigureTrianglePart>(alloc, 3, shapes)?;
        Some(describe_variants::<Figure>(4, shapes))
    }
}

impl Encode for Figure {
    fn tell_valid(&self) {
        match self {
            Figure::Empty => {}
            Figure::Circle(value) => value.tell_valid(),
            Figure::Rectangle(first, second) => {
                first.tell_valid();
                second.tell_valid();
            }
            Figure::Triangle { a, b, c } => {
                a.tell_valid();
                b.tell_valid();
                c.tell_valid();
            }
        }
    }

    fn encode<E: Encoder>(&self, encoder: &mut E) -> Result<(), EncodeError> {
        match self {
            Figure::Empty => encode_variant(self, 0, &(), encoder),
            Figure::Circle(value) => encode_variant(self, 1, value, encoder),
            Figure::Rectangle(first, second) => encode_variant(self, 2, &(first, second), encoder),
            Figure::Triangle { a, b, c } => encode_variant(self, 3, &(a, b, c), encoder),
        }
    }
}

impl<Context: Drop> DecodeVariants<Context> for Figure {
    fn decode_variant<D: Decoder<Context = Context>>(
        tag: u32,
        decoder: &mut D,
    ) -> Result<Figure, DecodeError> {
        match tag {
            0 => match decode_part::<Context, Figure, FigureEmptyPart, D>(tag, 0, decoder) {
                Ok(()) => Ok(Figure::Empty),
                Err(error) => Err(error),
            },
            1 => match decode_part::<Context, Figure, FigureCirclePart, D>(tag, 1, decoder) {
                Ok(value) => Ok(Figure::Circle(value)),
                Err(error) => Err(error),
            },
            2 => match decode_part::<Context, Figure, FigureRectanglePart, D>(tag, 2, decoder) {
                Ok((first, second)) => Ok(Figure::Rectangle(first, second)),
                Err(error) => Err(error),
            },
            3 => match decode_part::<Context, Figure, FigureTrianglePart, D>(tag, 3, decoder) {
                Ok((a, b, c)) => Ok(Figure::Triangle { a, b, c }),
                Err(error) => Err(error),
            },
            _ => decode_no_variant(tag, 3, decoder),
        }
    }
}

impl<Context: Drop> Decode<Context> for Figure {
    type Run = Sequential;

    fn decode<D: Decoder<Context = Context>>(decoder: &mut D) -> Result<Figure, DecodeError> {
        decode_by_tag(decoder)
    }
}
