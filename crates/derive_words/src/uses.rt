//! The `use` lines of what is written.

use crate::laws::is_among;
use crate::text::Text;
use crate::tokens::{Token, is_listed};

/// The names of the library that are used: a line for each module, as `rt fmt` sorts them.
const LIBRARY: &str = "\
bincode::de: BorrowDecode BorrowDecoder BorrowedBytes Decode Decoder FromParts Named Sequential \
decode_by_parts decode_no_variants
bincode::enc: Encode Encoder encode_in_sum
bincode::enums: BorrowDecodeVariants DecodeVariants Enum Sum borrow_decode_by_tag borrow_decode_part \
canonical_by_variants decode_by_tag decode_no_variant decode_part decode_unlisted_variant encode_variant enum_claim \
exact_by_variants plain_by_variants writable_by_variants
bincode::error: DecodeError EncodeError
bincode::laws: Canonical ConstantCharge Exact Inhabited Plain Writable canonical_by_parts exact_by_fields \
exact_by_parts plain_by_parts writable_by_parts
bincode::shape: Described Shape describe_variants put_variant start_variants
bincode::short_text: TypeName
bincode: EnumOf HasParts NoMoreVariants NoVariants VariantOf Wire";

/// Whether what is written uses this name of the library.
pub fn is_used(name: &str) -> bool {
    for line in LIBRARY.lines() {
        if let Some((_, names)) = line.split_once(": ")
            && is_listed(name, names)
        {
            return true;
        }
    }
    false
}

/// Adds the `use` lines for the names that stand in some `impl`s, and for all that the module above has.
pub fn add_uses(out: &mut Text, impls: &[Token<'_>]) {
    out.add("use super::*;\n");
    for line in LIBRARY.lines() {
        if let Some((module, names)) = line.split_once(": ") {
            add_use(out, module, names, impls);
        }
    }
    if is_among(impls, "Global") {
        out.add("use std::alloc::Global;\n");
    }
}

/// Adds the `use` line for those names of a module that stand among these tokens. Two functions of the library have one
/// name.
fn add_use(out: &mut Text, module: &str, names: &str, tokens: &[Token<'_>]) {
    let mut list = out.beside();
    let mut count = 0usize;
    for name in names.split(' ') {
        if is_among(tokens, name) {
            list.add(if count > 0 { ", " } else { "" });
            list.add(match name {
                "encode_in_sum" => "encode_variant as encode_in_sum",
                _ => name,
            });
            count = count.saturating_add(1);
        }
    }
    if count > 0 {
        out.add("use ");
        out.add(module);
        out.add(if count > 1 { "::{" } else { "::" });
        out.add_text(&list);
        out.add(if count > 1 { "};\n" } else { ";\n" });
    }
}
