//! How a type is encoded and decoded.

/// The `impl` by which a struct is written, and for one of many fields how it is made of its parts.
pub const ENCODE_STRUCT: &str = "\
$if struct$$impl Encode$$if numbers$    const MAX_FIXED_SIZE: Option<usize> = Some($most$);

$end$    fn tell_valid(&self) {
        $lent$.tell_valid();
    }

    fn encode<$E$: Encoder>(&self, encoder: &mut $E$) -> Result<(), EncodeError> {
        $lent$.encode(encoder)
    }
}

$if long row$$impl FromParts$    fn from_parts(parts: $parts$) -> $itself$ {
        let $bound$ = parts;
        $name$$made$
    }
}

$end$$end$";

/// The `impl` by which an enum is written. What the fields of a variant keep is told one after the other: a call for
/// their tuple would be looked up anew in each arm, and the compiler bounds how often.
pub const ENCODE_ENUM: &str = "\
$if not struct$$if not by variants$$impl Named$    fn type_name() -> TypeName {
        TypeName::new(\"$name$\")
    }
}

$end$\
$if not empty$$impl Encode$    fn tell_valid(&self) {$if any field$
        match self {
$each variant$            $name$::$variant$$made$ => \
$if no field${}
$else$$if one field$$bound$.tell_valid(),
$else${
$each field$                $field$.tell_valid();
$next field$            }
$end$$end$$next variant$        }
    $end$}

    fn encode<$E$: Encoder>(&self, encoder: &mut $E$) -> Result<(), EncodeError> {
        match self {
$each variant$            $name$::$variant$$made$ => \
$if by variants$encode_variant$else$encode_in_sum$end$\
(self, $tag$, $if not one field$&$end$$bound$, encoder),
$next variant$        }
    }
}

$end$$end$";

/// The `impl` that makes an enum of its parts, each match within the one before.
pub const FROM_PARTS: &str = "\
$if sum$$if not borrowing$impl FromParts<$parts$> for $itself$ {
    fn from_parts(parts: $parts$) -> $itself$ {
        match parts.0 {
$each variant$\
$if not first$        $above     $VariantOf::Other(rest) => match rest {
$end$            $above     $VariantOf::This($bound$) => $name$::$variant$$made$,
$next variant$$each variant back$$if not first$        $above     $},
$end$$next variant$        }
    }
}

$end$$end$";

/// The `impl` by which the part of each variant is read, by its tag.
pub const DECODE_VARIANTS: &str = "\
$if by variants$$if borrowing$$impl BorrowDecodeVariants$    fn borrow_decode_variant\
<$D$: BorrowDecoder<&$lifetime$ [u8], Context = $Context$>>\
$else$$impl DecodeVariants$    fn decode_variant<$D$: Decoder<Context = $Context$>>$end$\
(tag: u32, decoder: &mut $D$) -> Result<$itself$, DecodeError> {
        match tag {
$each variant$            $tag$ => match \
$if borrowing$borrow_decode_part::<&$lifetime$ [u8], $else$decode_part::<$end$\
$Context$, $itself$, $part$, $D$>(tag, $tag$, decoder) {
                Ok($bound$) => Ok($name$::$variant$$made$),
                Err(error) => Err(error),
            },
$next variant$            _ => \
$if in order$decode_no_variant(tag, $each variant$$if last$$at$$end$$next variant$\
$else$decode_unlisted_variant(tag, &[$each variant$$,$$tag$$next variant$]$end$, decoder),
        }
    }
}

$end$";

/// The `impl` of `Decode`, or for a type with a lifetime that of `BorrowDecode`.
pub const DECODE: &str = "\
$if borrowing$$impl BorrowDecode$    type Run = Sequential;

    fn borrow_decode<$D$: BorrowDecoder<&$lifetime$ [u8], Context = $Context$>>(
        decoder: &mut $D$,
    ) -> Result<$itself$, DecodeError> {
$else$$impl Decode$    type Run = Sequential;

    fn decode<$D$: Decoder<Context = $Context$>>(decoder: &mut $D$) -> Result<$itself$, DecodeError> {
$end$";

/// Its body, and what stands behind it.
pub const DECODE_BODY: &str = "\
$if by variants$        $if borrowing$borrow_$end$decode_by_tag(decoder)
$end$\
$if empty$        decode_no_variants::<$itself$, $itself$, $D$>(decoder)
$end$\
$if long row$        decode_by_parts::<$parts$, $itself$, $D$>(decoder)
$end$\
$if struct$$if not long row$        let $bound$: $parts$ = \
$if borrowing$BorrowDecode::borrow_decode$else$Decode::decode$end$(decoder)?;
        Ok($name$$made$)
$end$$end$\
$if sum$$if borrowing$        let parts: $parts$ = BorrowDecode::borrow_decode(decoder)?;
        Ok(match parts.0 {
$each variant$            $above VariantOf::Other($VariantOf::This($bound$)$above )$ => $name$::$variant$$made$,
$next variant$        })
$else$        decode_by_parts::<$parts$, $itself$, $D$>(decoder)
$end$$end$    }
}

";

/// How a type is read by borrowing that owns all that it holds.
pub const LENT_DECODE: &str = "\
$if lent$$impl lent BorrowDecode$    type Run = Sequential;

    fn borrow_decode<$D$: BorrowDecoder<$B$, Context = $Context$>>(
        decoder: &mut $D$,
    ) -> Result<$itself$, DecodeError> {
        $path$::decode(decoder)
    }
}

$end$";
