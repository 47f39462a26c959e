//! The lines of proof that an enum needs for its variants that hold a `Vec` alone, and the file that they go into.

use crate::error::Fault;
use crate::facts::holds_list;
use crate::filling::fill;
use crate::heads::is_by_variants;
use crate::items::Source;
use crate::module::Origin;
use crate::read::source_of;
use crate::text::Text;
use crate::tokens::tokens_of;
use std::alloc::{AllocError, Global};

/// What has to be written by hand for an enum, with the answer for each variant as the prover asks for it.
const ANSWERS: &str =
    "A variant of $name$ holds a `Vec` alone. Write the file proofs$folder$/words/$name$Encode/encode/Answers.antt:

use Rattle.$crate$.proofs$module$.words.$name$Encode.encode.Goals as goal
$each variant$$if list$
pub encode_variant-requires-in-$variant$-clause-means :
    goal.encode_variant-requires-in-$variant$-clause-means
encode_variant-requires-in-$variant$-clause-means g c = rw c.in-$variant$.is (λ m h. h, λ m h. h)
$end$$next variant$
";

/// What has to be written by hand for the types of a source: for each enum that needs it the path of a file below the
/// folder of the crate, and its lines. Nothing if no type needs any.
pub fn answers_of(alloc: Global, origin: &Origin<'_>, text: &str) -> Result<String, Fault> {
    let tokens = tokens_of(alloc, text)?;
    let source = source_of(alloc, tokens.as_slice())?;
    Ok(answers_for(alloc, origin, &source)?)
}

/// What has to be written by hand for what stands in a source.
fn answers_for(
    alloc: Global,
    origin: &Origin<'_>,
    source: &Source<'_>,
) -> Result<String, AllocError> {
    let mut out = Text::new(alloc);
    for item in source.items.iter() {
        if is_by_variants(item) && holds_list(item) {
            fill(&mut out, item, origin.declared, ANSWERS);
        }
    }
    out.whole()
}
