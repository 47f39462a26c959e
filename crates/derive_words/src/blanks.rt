//! What fills the blanks of templates.

use crate::facts::{claim_of, most_of};
use crate::filling::Filling;
use crate::heads::add_head;
use crate::items::{Field, Variant};
use crate::names::add_name;
use crate::parts::{Form, add_field, add_made, add_part, add_part_path, add_tuple};
use crate::text::Text;

/// Adds what fills a blank for a type, whose words are these.
pub fn add_blank(out: &mut Text, filling: &Filling<'_, '_>, word: &str, object: &str) {
    let item = filling.item;
    match word {
        "," => out.add_comma(),
        "impl" => add_head(out, item, object),
        "above" => out.add_times(object, filling.variant_at()),
        "at" => out.add_number(filling.variant_at() as u64),
        "count" => out.add_number(item.variants.len() as u64),
        "claim" => out.add_number(u64::from(claim_of(item).unwrap_or(0))),
        "most" => out.add_number(u64::from(most_of(item.fields.as_slice()).unwrap_or(0))),
        "declared" => out.add(filling.declared),
        "crate" => out.add(halves(filling.declared).0),
        "module" => out.add(halves(filling.declared).1),
        "folder" => add_folder(out, halves(filling.declared).1),
        _ => match filling.variant() {
            Some(variant) => add_variant_blank(out, filling, variant, word),
            None => add_name(out, item, word),
        },
    }
}

/// The crate of the types that are declared here, and their module.
fn halves(declared: &str) -> (&str, &str) {
    declared
        .split_once(".specs.declared")
        .unwrap_or((declared, ""))
}

/// Adds the folder of the answers of a module.
fn add_folder(out: &mut Text, module: &str) {
    for name in module.split('.') {
        out.add(if name.is_empty() { "" } else { "/" });
        out.add(name);
    }
}

/// Adds what fills a blank for a variant.
fn add_variant_blank(out: &mut Text, filling: &Filling<'_, '_>, variant: &Variant<'_>, word: &str) {
    let item = filling.item;
    let fields = filling.of_variant();
    match word {
        "variant" => out.add(variant.name.text),
        "tag" => out.add_number(u64::from(variant.tag)),
        "part" => add_part(out, item, variant),
        "part_path" => add_part_path(out, item, variant),
        "types" => add_tuple(out, fields, Form::Type),
        "bound" => add_tuple(out, fields, Form::Bound),
        "lent" => add_tuple(out, fields, Form::Lent),
        "shown" => add_tuple(out, fields, Form::InClause),
        "value" => add_tuple(out, fields, Form::OfValue),
        "made" => add_made(out, variant.brackets, fields),
        "selector" => out.add_selector(filling.field_at(), fields.len()),
        _ => match fields.get(filling.field_at()) {
            Some(field) => add_field_blank(out, filling, field, word),
            None => add_name(out, item, word),
        },
    }
}

/// Adds what fills a blank for a field.
fn add_field_blank(out: &mut Text, filling: &Filling<'_, '_>, field: &Field<'_>, word: &str) {
    let at = filling.field_at();
    let count = filling.of_variant().len();
    match word {
        "field" => add_field(out, field, at, count, Form::Bound),
        "field_in_clause" => add_field(out, field, at, count, Form::InClause),
        _ => add_name(out, filling.item, word),
    }
}
