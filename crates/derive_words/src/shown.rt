//! How a value is shown: the type of its parts, the parts of a value, and its format by those of the parts.

/// The aliases for the part of each variant, and for the parts of a type.
pub const PARTS: &str = "\
$if by variants$$each variant$$if not parameter$\
type $part$ = $types$;

$end$$next variant$$end$\
type $parts$ = \
$if struct$$types$$end$\
$if empty$NoVariants<$itself$>$end$\
$if sum$EnumOf<$each variant$VariantOf<$tag$, $types$, $next variant$\
NoMoreVariants<$itself$>>$each variant$>$next variant$$end$\
$if by variants$$each variant$VariantOf<$tag$, $part$, $next variant$\
NoMoreVariants<$itself$>$each variant$>$next variant$$end$;

";

/// The `impl` that shows a value as its parts.
pub const SHOWN: &str = "\
$if not by variants$\
$impl HasParts$\
$if struct$    ghost parts = { λ v. $value$ };
$end$\
$if empty$    ghost parts = { elim [ ] };
$end$\
$if sum$    ghost use Rattle.bincode.specs.Sums.{this$if many variants$, other$end$};
    ghost use Rattle.$declared$.$name$.TheVariants.{$each variant$$,$$variant$$next variant$};

    ghost parts = { elim [
$each variant$      | $variant$$each field$ $field_in_clause$$next field$ \
↦ record { 0 = $above other ($this $shown$$above )$ }
$next variant$    ] };
$end$}

$end$";

/// The `impl` that shows a value as one of its variants, and makes it of them.
pub const SUM: &str = "\
$if by variants$\
$impl Sum$    ghost use Rattle.bincode.specs.Sums.{this$if many variants$, other$end$};
    ghost use Rattle.bincode.specs.EnumWords.{by, no_more, or_else};
    ghost use Rattle.$declared$.$name$.TheVariants.{$each variant$$if not first$,¶$end$$variant$$next variant$};

    ghost variants = { $if not any field$record ($end$\
$each variant$$if not first$($end$or_else $tag$ \
$if parameter$$part$$else$⟦<$part$ as Wire>⟧$end$.words¶$next variant$no_more\
$each variant$$if not first$)$end$$next variant$$if not any field$) { claim = 0 }$end$ };

    ghost parts = { elim [
$each variant$      | $variant$$each field$ $field_in_clause$$next field$ ↦ $above other ($this $shown$$above )$
$next variant$    ] };

    ghost made = { $each variant$$if not first$($end$by (λ p. $variant$\
$each field$ p$selector$$next field$)¶$next variant$(λ n. elim (n.0) [ ])\
$each variant$$if not first$)$end$$next variant$ };
}

$end$";

/// The `impl` that says what the words of a type are.
pub const WORDS: &str = "\
$if not by variants$$impl Wire$$if claim$    ghost use Rattle.std.proofs.Common.{arith};
    ghost use Rattle.bincode.specs.TypeWords.{with_claim, words_by};

    ghost words = { with_claim $claim$ (omega arith) \
(words_by ⟦<$parts$ as Wire>⟧.words ⟦<$itself$ as HasParts<$parts$>>⟧.parts) };

    fn claim_size() -> usize$if borrowing$
        ensures { result ≡ $claim$ }
    {
$else$ {
$end$        $claim$
$else$    ghost use Rattle.bincode.specs.TypeWords.{words_by};

    ghost words = { words_by ⟦<$parts$ as Wire>⟧.words ⟦<$itself$ as HasParts<$parts$>>⟧.parts };

    fn claim_size() -> usize$if borrowing$
        ensures { result ≡ ⟦<$parts$ as Wire>⟧.words.claim }
    {
$else$ {
$end$        $parts_path$::claim_size()
$end$    }
}

$end$";

/// The `impl` that says what the words of an enum are that is written variant by variant.
pub const ENUM_WORDS: &str = "\
$if by variants$$impl Wire$$if borrowing$    ghost use Rattle.std.specs.Prelude.{min, ◌+◌, ◌-◌, ◌^◌};
$end$    ghost use Rattle.bincode.specs.EnumWords.{enum_words};

    ghost words = { enum_words ⟦<$itself$ as Sum<$parts$>>⟧.variants¶⟦<$itself$ as Sum<$parts$>>⟧.parts };

    fn claim_size() -> usize$if borrowing$
        ensures { result ≡ min (4 + ⟦<$itself$ as Sum<$parts$>>⟧.variants.claim) (2 ^ 64 - 1) }
    {
$else$ {
$end$$if any field$\
$each variant back$        let widest = $part_path$::claim_size().max($if last$0$else$widest$end$);
$next variant$        enum_claim(widest)
$else$        enum_claim(0)
$end$    }
}

$end$";

/// The `impl` that says what such an enum is named, and what its laws ask of the parts.
pub const ENUM: &str = "\
$if by variants$$impl Enum$    ghost use Rattle.std.specs.Prelude.{refl};
    ghost use Rattle.bincode.specs.EnumWords.{enum_laws, enum_variants};
    ghost use Rattle.$declared$.$name$.TheVariants.{$each variant$$if not first$,¶$end$$variant$$next variant$};

    ghost choices = { enum_variants ⟦<$itself$ as Sum<$parts$>>⟧.variants¶⟦<$itself$ as Sum<$parts$>>⟧.made };

    fn type_name() -> TypeName {
        TypeName::new(\"$name$\")
    }

    ghost laws = { enum_laws ⟦<$itself$ as Sum<$parts$>>⟧.variants¶⟦<$itself$ as Sum<$parts$>>⟧.parts
        ⟦<$itself$ as Sum<$parts$>>⟧.made (elim [
$each variant$          | $variant$$each field$ $field_in_clause$$next field$ ↦ refl
$next variant$        ]) };
}

$end$";
