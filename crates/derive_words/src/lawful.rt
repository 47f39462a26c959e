//! How a type proves the laws that it keeps.

/// The laws that a type keeps by its parts.
pub const LAWS: &str = "\
$if plain$$impl Plain$    fn tell_plain()$if borrowing$
        ensures { PlainWords ⟦<$itself$ as Wire>⟧.words }
    {
$else$ {
$end$        $if by variants$$each variant$$part_path$::tell_plain();
        $next variant$plain_by_variants::<$itself$>()\
$else$plain_by_parts::<$parts$, $itself$>()$end$;
    }
}

$end$\
$if exact$$impl Exact$    fn tell_exact()$if borrowing$
        ensures { ExactWords ⟦<$itself$ as Wire>⟧.words ⟦<$itself$ as PartialEq>⟧.eq }
    {
$else$ {
$end$        $if by variants$$each variant$$part_path$::tell_exact();
        $next variant$exact_by_variants::<$itself$>()\
$else$$if row$exact_by_fields::<$parts$, $itself$, _>()\
$else$exact_by_parts::<$parts$, $itself$>()$end$$end$;
    }
}

$end$\
$if canonical$$impl Canonical$    fn tell_canonical()$if borrowing$
        ensures { CanonicalWords ⟦<$itself$ as Wire>⟧.words }
    {
$else$ {
$end$        $if by variants$$each variant$$part_path$::tell_canonical();
        $next variant$canonical_by_variants::<$itself$>()\
$else$canonical_by_parts::<$parts$, $itself$>()$end$;
    }
}

$end$";

/// The laws that a note asks for.
pub const NOTED_LAWS: &str = "\
$if writable$$impl Writable$    fn tell_writable()$if borrowing$
        ensures { AlwaysWritable ⟦<$itself$ as Wire>⟧.words }
    {
$else$ {
$end$        $if by variants$$each variant$$part_path$::tell_writable();
        $next variant$writable_by_variants::<$itself$>()\
$else$writable_by_parts::<$parts$, $itself$>()$end$;
    }
}

$end$\
$if inhabited$$impl Inhabited$    fn tell_inhabited()$if borrowing$
        ensures { HasSomeWord ⟦<$itself$ as Wire>⟧.words }
    {
$else$ {
$end$        $parts_path$::tell_inhabited();
    }
}

$end$\
$if constant charge$$impl ConstantCharge$    ghost cost = { ⟦<$parts$ as ConstantCharge>⟧.cost };

    ghost peak = { ⟦<$parts$ as ConstantCharge>⟧.peak };

    fn tell_costs() {
        $parts_path$::tell_costs();
    }
}

$end$\
$if described$$impl Described$    fn shape(alloc: Global) -> Option<Shape> {
$if by variants$        let shapes = start_variants::<$itself$>(alloc);
$each variant$        let shapes = put_variant::<$itself$, $part$>(alloc, $at$, shapes)?;
$next variant$        Some(describe_variants::<$itself$>($count$, shapes))
$else$        $parts_path$::shape(alloc)
$end$    }
}

$end$";
