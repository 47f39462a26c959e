//! The parts of a type, and its fields in tuples, values and patterns.

use crate::items::{Brackets, Field, Item, Variant, say};
use crate::text::{Text, text_at};
use crate::tokens::is_listed;

/// How a field stands in a tuple.
#[derive(Clone, Copy)]
pub enum Form {
    /// As its type.
    Type,
    /// As the name that it is bound to.
    Bound,
    /// As the name that it is bound to in a clause.
    InClause,
    /// As that of the value `v` of a clause.
    OfValue,
    /// As that of `self`, lent.
    Lent,
}

/// Adds some fields as a tuple. One is itself.
pub fn add_tuple(out: &mut Text, fields: &[Field<'_>], form: Form) {
    let count = fields.len();
    if count == 0 {
        out.add(match form {
            Form::InClause | Form::OfValue => "tt",
            _ => "()",
        });
    }
    for (at, field) in fields.iter().enumerate() {
        out.open_part(at, count);
        add_field(out, field, at, count, form);
        out.close_part(at, count);
    }
}

/// Adds the field at this place of so many.
pub fn add_field(out: &mut Text, field: &Field<'_>, at: usize, count: usize, form: Form) {
    match form {
        Form::Type => out.add_type(field.of),
        Form::Bound => add_bound(out, field, at, count),
        Form::InClause => match field.name {
            Some(name) if is_listed(name, RESERVED) => add_numbered(out, at),
            _ => add_bound(out, field, at, count),
        },
        Form::OfValue => add_read(out, "v.", field, at),
        // A reference is handed on as it is.
        Form::Lent if count == 1 || text_at(field.of, 0) == "&" => {
            add_read(out, "self.", field, at);
        }
        Form::Lent => add_read(out, "&self.", field, at),
    }
}

/// Adds how the field at this place is read of this.
fn add_read(out: &mut Text, of: &str, field: &Field<'_>, at: usize) {
    out.add(of);
    match field.name {
        Some(name) => out.add(name),
        None => out.add_number(at as u64),
    }
}

/// The names that mean something else in a clause.
const RESERVED: &str =
    "this other by no_more or_else refl tt result data record deriving module package open \
    unfoldable abbrev axiom unfold unfolding ruleset mutual infix infixl infixr syntax elim coe fcoe tcoe hcom com rw \
    cc ground assumption search grind simp omega";

/// Adds the name that the field at this place of so many is bound to: its own, and in a tuple `first`, `second` and so
/// on. A lone one is `value`.
fn add_bound(out: &mut Text, field: &Field<'_>, at: usize, count: usize) {
    match field.name {
        Some(name) if name != "encoder" => out.add(name),
        _ if count == 1 => out.add("value"),
        _ => add_nameless(out, at),
    }
}

/// What the fields of a tuple are bound to, as far as these go.
const PLACES: &str = "first second third fourth fifth sixth seventh eighth";

/// Adds the name that the field at this place is bound to, which has none of its own.
fn add_nameless(out: &mut Text, at: usize) {
    match PLACES.split(' ').nth(at) {
        Some(place) => out.add(place),
        None => add_numbered(out, at),
    }
}

/// Adds the name that a field is bound to by its place alone.
fn add_numbered(out: &mut Text, at: usize) {
    out.add("part_");
    out.add_number(at as u64);
}

/// Adds what stands after the path of a struct or a variant that is made of what its fields are bound to. It is also
/// the pattern that binds them. A name that fields can't be bound to stands before what they are.
pub fn add_made(out: &mut Text, brackets: Brackets, fields: &[Field<'_>]) {
    let (open, close) = match brackets {
        Brackets::Missing => ("", ""),
        Brackets::Round => ("(", ")"),
        Brackets::Curly if fields.is_empty() => (" {", "}"),
        Brackets::Curly => (" { ", " }"),
    };
    out.add(open);
    for (at, field) in fields.iter().enumerate() {
        out.add_comma();
        if field.name == Some("encoder") {
            out.add("encoder: ");
        }
        add_bound(out, field, at, fields.len());
    }
    out.add(close);
}

/// Adds the type of the part of a variant, with those parameters of the enum that its fields have. If it is a parameter
/// itself, its type is that.
pub fn add_part(out: &mut Text, item: &Item<'_>, variant: &Variant<'_>) {
    let fields = item.fields_of(variant);
    if let Some(param) = lone_param(item, fields) {
        out.add(param);
        return;
    }
    add_part_name(out, item, variant);
    let mut before = "<";
    if say(fields, item.lifetime) {
        out.add(before);
        out.add(item.lifetime);
        before = ", ";
    }
    for param in item.params.iter() {
        if say(fields, param.name) {
            out.add(before);
            out.add(param.name);
            before = ", ";
        }
    }
    if before == ", " {
        out.add(">");
    }
}

/// Adds that type as the path of a function begins with it.
pub fn add_part_path(out: &mut Text, item: &Item<'_>, variant: &Variant<'_>) {
    let fields = item.fields_of(variant);
    let mut is_generic = false;
    for param in item.params.iter() {
        is_generic = is_generic || say(fields, param.name);
    }
    if !is_generic {
        add_part_name(out, item, variant);
    } else if lone_param(item, fields).is_some() {
        add_part(out, item, variant);
    } else {
        out.add("<");
        add_part(out, item, variant);
        out.add(">");
    }
}

/// Adds the name of the part of a variant.
fn add_part_name(out: &mut Text, item: &Item<'_>, variant: &Variant<'_>) {
    out.add(item.name.text);
    out.add(variant.name.text);
    out.add("Part");
}

/// The parameter that is all that a variant holds, if one is.
pub fn lone_param<'t>(item: &Item<'_>, fields: &[Field<'t>]) -> Option<&'t str> {
    match fields {
        [field] => match field.of {
            [word] if item.has_param(word.text) => Some(word.text),
            _ => None,
        },
        _ => None,
    }
}
