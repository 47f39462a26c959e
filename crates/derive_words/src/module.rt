//! The module that is written for the types of a source.

use crate::coding::{
    DECODE, DECODE_BODY, DECODE_VARIANTS, ENCODE_ENUM, ENCODE_STRUCT, FROM_PARTS, LENT_DECODE,
};
use crate::error::{Fault, NO_TYPES, Refusal};
use crate::filling::fill;
use crate::items::{Item, Source};
use crate::lawful::{LAWS, NOTED_LAWS};
use crate::laws::find_kept;
use crate::layout::laid_out;
use crate::read::source_of;
use crate::refusals::{holds_itself, refusal_of};
use crate::shown::{ENUM, ENUM_WORDS, PARTS, SHOWN, SUM, WORDS};
use crate::text::Text;
use crate::tokens::{Place, tokens_of};
use crate::uses::add_uses;
use std::alloc::{AllocError, Global};

/// Where a source stands.
#[derive(Clone, Copy)]
pub struct Origin<'o> {
    /// The name of its file, without the folders that it stands in.
    pub file_name: &'o str,
    /// Where the toolchain declares its types, as `app.specs.declared.book` for the module `book` of the crate `app`.
    pub declared: &'o str,
}

/// The imports of what types with a lifetime promise.
const GHOST_LINES: &str = "ghost use Rattle.std.specs.Prelude.{◌≡◌};
ghost use Rattle.bincode.specs.TypeLaws.{CanonicalWords, ExactWords, PlainWords};
";

/// What each module says of itself, by which it is known from one that was written by hand.
const MADE: &str = "Made from that file by the program `derive`";

/// What the module says of itself behind that.
const NOT_EDITED: &str = ", and not edited: run
//! `derive` on the file again where its types change.
";

/// The line of the module's head that says which laws a type does not keep.
const LEFT_OUT: &str = "\
//! Left out of $name$: $if not plain$Plain$end$$if not exact$$,$Exact$end$$if not canonical$$,$Canonical$end$.
";

/// What is written for a type, one after the other.
const IMPLS: [&str; 15] = [
    PARTS,
    SHOWN,
    SUM,
    WORDS,
    ENUM_WORDS,
    ENUM,
    LAWS,
    NOTED_LAWS,
    ENCODE_STRUCT,
    ENCODE_ENUM,
    FROM_PARTS,
    DECODE_VARIANTS,
    DECODE,
    DECODE_BODY,
    LENT_DECODE,
];

/// The module for the types of a source. It stands below the module of the types, as `mod words;`.
pub fn module_of(alloc: Global, origin: &Origin<'_>, text: &str) -> Result<String, Fault> {
    let tokens = tokens_of(alloc, text)?;
    let mut source = source_of(alloc, tokens.as_slice())?;
    find_kept(&mut source);
    refuse_any(alloc, &source)?;
    Ok(written(alloc, origin, &source)?)
}

/// Whether a module says that the program `derive` made it.
pub fn is_made(module: &str) -> bool {
    module.contains(MADE)
}

/// The module for what stands in a source, of which nothing is refused.
fn written(alloc: Global, origin: &Origin<'_>, source: &Source<'_>) -> Result<String, AllocError> {
    let impls = impls_of(alloc, origin, source)?;
    let mut module = Text::new(alloc);
    add_front(&mut module, origin, source);
    add_uses(&mut module, tokens_of(alloc, impls.as_str())?.as_slice());
    module.add("\n");
    module.add(impls.trim_end());
    module.add("\n");
    laid_out(alloc, module.whole()?.as_str())
}

/// The aliases and the `impl`s of the types of a source.
fn impls_of(alloc: Global, origin: &Origin<'_>, source: &Source<'_>) -> Result<String, AllocError> {
    let mut impls = Text::new(alloc);
    for item in source.items.iter() {
        if !item.marks.is_skipped {
            add_impls(&mut impls, item, origin.declared);
        }
    }
    impls.whole()
}

/// Adds what stands before the `use` lines of the module.
fn add_front(out: &mut Text, origin: &Origin<'_>, source: &Source<'_>) {
    out.add("//! What the types of `");
    out.add(origin.file_name);
    out.add("` are written as. ");
    out.add(MADE);
    out.add(NOT_EDITED);
    for item in source.items.iter() {
        if !item.marks.is_skipped {
            add_left_out(out, item);
        }
    }
    out.add(ghost_lines(source));
    out.add("\n");
}

/// The imports of what types with a lifetime promise.
fn ghost_lines(source: &Source<'_>) -> &'static str {
    for item in source.items.iter() {
        if item.is_borrowing() && !item.marks.is_skipped {
            return GHOST_LINES;
        }
    }
    ""
}

/// Fails where a type can't be written, or where none is to be.
fn refuse_any(alloc: Global, source: &Source<'_>) -> Result<(), Fault> {
    match first_refusal(alloc, source)? {
        Some(refusal) => Err(refusal.fault(alloc)?),
        None => Ok(()),
    }
}

/// What is refused of a source first, if anything is.
fn first_refusal<'t>(
    alloc: Global,
    source: &Source<'t>,
) -> Result<Option<Refusal<'t>>, AllocError> {
    let place = Place { line: 1, column: 1 };
    let mut refusal = Some(Refusal::new(place, NO_TYPES, ""));
    for item in source.items.iter() {
        if !item.marks.is_skipped {
            let holds_itself = holds_itself(alloc, source, item)?;
            refusal = refusal_of(source, item, holds_itself);
            if refusal.is_some() {
                break;
            }
        }
    }
    Ok(refusal)
}

/// Adds the line of the module's head that says which laws a type does not keep, if it does not keep all.
fn add_left_out(out: &mut Text, item: &Item<'_>) {
    let keeps = item.keeps;
    if !keeps.plain || !keeps.exact || !keeps.canonical {
        fill(out, item, "", LEFT_OUT);
    }
}

/// Adds the alias and the `impl`s of a type.
fn add_impls(out: &mut Text, item: &Item<'_>, declared: &str) {
    for template in IMPLS.iter() {
        fill(out, item, declared, template);
    }
}
