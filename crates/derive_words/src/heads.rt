//! The head of an `impl`, up to its brace: parameters, bounds, trait and type.

use crate::items::{Item, Param};
use crate::laws::is_among;
use crate::names::{add_name, add_names};
use crate::text::Text;
use crate::tokens::{Token, is_listed};

/// The head of the `impl` of a trait. All but the name are texts with blanks for names.
#[derive(Clone, Copy)]
struct Head<'h> {
    /// What templates call it.
    name: &'h str,
    /// Parameters of the trait's own.
    params: &'h str,
    /// The trait.
    of: &'h str,
    /// What the trait asks of each part.
    bound: &'h str,
}

/// The heads that are more than the name of a trait, which is also what it asks of each part.
const HEADS: [Head<'static>; 10] = [
    Head {
        name: "HasParts",
        params: "",
        of: "HasParts<$parts$>",
        bound: "",
    },
    Head {
        name: "FromParts",
        params: "",
        of: "FromParts<$parts$>",
        bound: "",
    },
    Head {
        name: "Named",
        params: "",
        of: "Named",
        bound: "",
    },
    Head {
        name: "Sum",
        params: "",
        of: "Sum<$parts$>",
        bound: "Wire",
    },
    Head {
        name: "Enum",
        params: "",
        of: "Enum",
        bound: "Wire",
    },
    Head {
        name: "Decode",
        params: "$Context$: Drop",
        of: "Decode<$Context$>",
        bound: "Decode<$Context$>",
    },
    Head {
        name: "DecodeVariants",
        params: "$Context$: Drop",
        of: "DecodeVariants<$Context$>",
        bound: "Decode<$Context$>",
    },
    Head {
        name: "BorrowDecode",
        params: "$Context$: Drop",
        of: "BorrowDecode<&$lifetime$ [u8], $Context$>",
        bound: "BorrowDecode<&$lifetime$ [u8], $Context$>",
    },
    Head {
        name: "BorrowDecodeVariants",
        params: "$Context$: Drop",
        of: "BorrowDecodeVariants<&$lifetime$ [u8], $Context$>",
        bound: "",
    },
    // For a type without a lifetime.
    Head {
        name: "lent BorrowDecode",
        params: "$B$: BorrowedBytes, $Context$: Drop",
        of: "BorrowDecode<$B$, $Context$>",
        bound: "Decode<$Context$>",
    },
];

/// The head of this name.
fn head_of(name: &str) -> Head<'_> {
    for head in HEADS.iter() {
        if head.name == name {
            return *head;
        }
    }
    Head {
        name,
        params: "",
        of: name,
        bound: name,
    }
}

/// Adds the head of the `impl` of a trait, up to its brace.
pub fn add_head(out: &mut Text, item: &Item<'_>, name: &str) {
    let head = head_of(name);
    out.add("impl");
    if item.is_borrowing() || item.is_generic() || !head.params.is_empty() {
        add_params(out, item, &head);
    }
    out.add(" ");
    add_names(out, item, head.of);
    out.add(" for ");
    add_name(out, item, "itself");
    add_wheres(out, item, head.bound);
}

/// Adds the parameters of an `impl`: the lifetime, the trait's own, and those of the type with their bounds.
fn add_params(out: &mut Text, item: &Item<'_>, head: &Head<'_>) {
    out.add("<");
    out.add(item.lifetime);
    if !head.params.is_empty() {
        out.add_comma();
        add_names(out, item, head.params);
    }
    for param in item.params.iter() {
        out.add_comma();
        add_bounded(out, item, param, head.bound);
    }
    out.add(">");
}

/// Adds a parameter with its bounds: those of its type, and what a trait asks of it.
fn add_bounded(out: &mut Text, item: &Item<'_>, param: &Param<'_>, bound: &str) {
    out.add(param.name);
    let mut before = ": ";
    if !param.bounds.is_empty() {
        out.add(before);
        out.add_type(param.bounds);
        before = " + ";
    }
    for own in item.wheres.iter() {
        let bounds = own.bounds_of(param.name);
        if !bounds.is_empty() {
            out.add(before);
            out.add_type(bounds);
            before = " + ";
        }
    }
    let asked = asked_of(item, param, bound);
    if !is_told(item, param, asked) {
        out.add(before);
        add_names(out, item, asked);
    }
}

/// Whether an enum is written variant by variant. One of which a note asks what stands for a sum alone is written as
/// that.
pub fn is_by_variants(item: &Item<'_>) -> bool {
    let marks = item.marks;
    let has_params = item.is_generic() || item.is_borrowing();
    let is_sum = marks.claim.is_some()
        || marks.with.described && has_params
        || marks.with.inhabited
        || marks.with.constant_charge;
    item.is_enum && !is_sum && !item.variants.is_empty()
}

/// What a trait asks of a parameter: its bound where the parameter is a field, or stands in a list or a box that is
/// one, and else what it takes to hold it.
fn asked_of<'b>(item: &Item<'_>, param: &Param<'_>, bound: &'b str) -> &'b str {
    for field in item.fields.iter() {
        if is_direct(item, field.of) && is_among(field.of, param.name) {
            return bound;
        }
    }
    if bound.starts_with("Encode") || bound.starts_with("Decode") || bound.starts_with("Borrow") {
        "Drop"
    } else if bound.starts_with("Exact") {
        "PartialEq"
    } else {
        ""
    }
}

/// Whether the bounds of a parameter say this.
fn is_told(item: &Item<'_>, param: &Param<'_>, bound: &str) -> bool {
    bound.is_empty()
        || has_bound(item, param, bound)
        || bound == "PartialEq" && (has_bound(item, param, "Ord") || has_bound(item, param, "Eq"))
}

/// Whether a parameter has this bound by its type.
fn has_bound(item: &Item<'_>, param: &Param<'_>, bound: &str) -> bool {
    for own in item.wheres.iter() {
        if is_among(own.bounds_of(param.name), bound) {
            return true;
        }
    }
    is_among(param.bounds, bound)
}

/// Adds the bounds of a `where`, and the brace: those of the type that are on no parameter, and those on the types of
/// fields that hold a parameter in another type.
fn add_wheres(out: &mut Text, item: &Item<'_>, bound: &str) {
    let mut lines = out.beside();
    for own in item.wheres.iter() {
        if !item.is_param(own.subject()) {
            lines.add("    ");
            lines.add_type(own.tokens);
            lines.add(",\n");
        }
    }
    if !bound.is_empty() {
        add_bounds(&mut lines, item, bound);
    }
    if lines.as_str().is_empty() {
        out.add(" {\n");
    } else {
        out.add("\nwhere\n");
        out.add_text(&lines);
        out.add("{\n");
    }
}

/// Adds a line for the type of each field that has this bound.
fn add_bounds(lines: &mut Text, item: &Item<'_>, bound: &str) {
    for field in item.fields.iter() {
        let of = field.of;
        if !is_direct(item, of) && !is_among(of, "PhantomData") && holds_any(item, of) {
            add_bound(lines, item, of, bound);
        }
    }
}

/// Adds the line that says that a type has this bound, unless it is there.
fn add_bound(lines: &mut Text, item: &Item<'_>, of: &[Token<'_>], bound: &str) {
    let mut line = lines.beside();
    line.add("    ");
    line.add_type(of);
    line.add(": ");
    add_names(&mut line, item, bound);
    line.add(",\n");
    if !lines.as_str().contains(line.as_str()) {
        lines.add_text(&line);
    }
}

/// Whether some type parameter stands in the type of a field.
fn holds_any(item: &Item<'_>, of: &[Token<'_>]) -> bool {
    for word in of.iter() {
        if item.has_param(word.text) {
            return true;
        }
    }
    false
}

/// Whether nothing but parameters, lists and boxes stands in the type of a field.
fn is_direct(item: &Item<'_>, of: &[Token<'_>]) -> bool {
    for word in of.iter() {
        if !is_listed(word.text, "Vec Box < >") && !item.has_param(word.text) {
            return false;
        }
    }
    true
}
