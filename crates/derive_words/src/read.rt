//! Reads the structs and enums of a source.

use crate::cursor::{Cursor, is_opening};
use crate::error::{
    CONST_PARAMETER, Fault, GHOST_FIELD, MISPLACED_NOTE, MISSING, Refusal, SECOND_TAG, UNCLOSED,
    UNKNOWN_NOTE,
};
use crate::items::{Brackets, Field, Item, Param, Predicate, Source, Variant, is_known};
use crate::laws::NOTHING;
use crate::notes::{Marks, tag_of};
use crate::text::text_at;
use crate::tokens::{Token, is_listed, is_note, is_word};
use std::alloc::Global;

/// What stands in these tokens.
pub fn source_of<'t>(alloc: Global, tokens: &'t [Token<'t>]) -> Result<Source<'t>, Fault> {
    let mut cursor = Cursor::new(tokens);
    refuse_misplaced(&mut cursor, tokens);
    let source = read_source(alloc, &mut cursor);
    cursor.finish(alloc)?;
    Ok(source)
}

/// Refuses the first note that is not above something that it may be about. One behind code in its line would be taken
/// for a note to what stands below it. One before a `}`, at the end of the source or above what is no type would be
/// taken for none.
fn refuse_misplaced<'t>(cursor: &mut Cursor<'t>, tokens: &'t [Token<'t>]) {
    let mut code_ends = 0usize;
    for (at, token) in tokens.iter().enumerate() {
        if is_note(token.text) {
            let below = text_at(tokens, at.saturating_add(1));
            let is_lost = below.is_empty() || below == "}" || is_no_type(tokens, at);
            if token.place.line == code_ends || is_lost {
                cursor.refuse(token.place, MISPLACED_NOTE, token.text);
            }
        } else {
            code_ends = token.place.after(token.text).line;
        }
    }
}

/// Whether what stands below the token at this place is an item, and no type.
fn is_no_type(tokens: &[Token<'_>], at: usize) -> bool {
    let below = text_at(tokens, at.saturating_add(1));
    let next = text_at(tokens, at.saturating_add(2));
    is_listed(below, OTHER_ITEMS) || below == "pub" && is_listed(next, OTHER_ITEMS)
}

/// What the items begin with that are no types.
const OTHER_ITEMS: &str = "use fn mod impl trait type const static unsafe extern ghost";

/// Reads all that stands in a source.
fn read_source<'t>(alloc: Global, cursor: &mut Cursor<'t>) -> Source<'t> {
    let mut source = Source {
        items: Vec::new(alloc),
        droppable: Vec::new(alloc),
        comparable: Vec::new(alloc),
        std_names: Vec::new(alloc),
    };
    let mut marks = Marks::new();
    for _ in 0..u64::MAX {
        let token = cursor.take();
        if token.text.is_empty() {
            break;
        }
        marks = read_token(alloc, cursor, token, marks, &mut source);
    }
    source
}

/// Reads what a token begins that stands below these marks, and hands out what then stands above the next one.
fn read_token<'t>(
    alloc: Global,
    cursor: &mut Cursor<'t>,
    token: Token<'t>,
    marks: Marks,
    source: &mut Source<'t>,
) -> Marks {
    match token.text {
        "#" => return read_attribute(cursor, marks),
        "use" => read_use(cursor, &mut source.std_names),
        "impl" => {
            read_impl_head(cursor, source);
            return marks;
        }
        "struct" | "enum" => {
            let item = read_item(alloc, cursor, marks, token.text == "enum");
            cursor.push(&mut source.items, item);
        }
        _ => return read_other(cursor, token, marks),
    }
    Marks::new()
}

/// Takes a bracket that a token opens, or adds what it says, if it is a note.
fn read_other<'t>(cursor: &mut Cursor<'t>, token: Token<'t>, marks: Marks) -> Marks {
    let mut marks = marks;
    if is_opening(token.text) {
        cursor.skip_group(token.place);
    } else {
        marks.add_note(cursor, token);
    }
    if is_listed(token.text, "; {") {
        Marks::new()
    } else {
        marks
    }
}

/// Takes what stands after a `#`, and adds what it derives.
fn read_attribute(cursor: &mut Cursor<'_>, marks: Marks) -> Marks {
    let mut marks = marks;
    cursor.takes("!");
    let opened = cursor.token().place;
    cursor.mark("[");
    if cursor.takes("derive") {
        read_derives(cursor, &mut marks);
    }
    cursor.skip_group(opened);
    marks
}

/// Adds the traits that stand in a `derive`, up to its end.
fn read_derives(cursor: &mut Cursor<'_>, marks: &mut Marks) {
    let opened = cursor.token().place;
    cursor.mark("(");
    for _ in 0..u64::MAX {
        let text = cursor.take().text;
        if text == ")" {
            return;
        }
        if text.is_empty() {
            break;
        }
        marks.add_derived(text);
    }
    cursor.refuse(opened, UNCLOSED, "");
}

/// Takes what stands after a `use`, up to its end, and adds the names that it imports from the standard library.
fn read_use<'t>(cursor: &mut Cursor<'t>, names: &mut Vec<&'t str>) {
    let is_std = is_listed(cursor.text(), "std core alloc");
    for _ in 0..u64::MAX {
        let text = cursor.take().text;
        if text == ";" || text.is_empty() {
            break;
        }
        if is_std && is_word(text) && !is_listed(cursor.text(), ":: as") {
            cursor.push(names, text);
        }
    }
}

/// Takes the head of an `impl`, and adds its type to those that have its trait.
fn read_impl_head<'t>(cursor: &mut Cursor<'t>, source: &mut Source<'t>) {
    if cursor.takes("<") {
        cursor.type_until(&[]);
        cursor.takes(">");
    }
    let head = cursor.type_until(&["for", "{"]);
    if cursor.takes("for") {
        let of = cursor.text();
        let name = name_in(head);
        if is_listed(name, "Drop Copy") {
            cursor.push(&mut source.droppable, of);
        } else if name == "PartialEq" {
            cursor.push(&mut source.comparable, of);
        }
    }
}

/// The name of a trait, without the path before it and the arguments after it.
fn name_in<'t>(head: &[Token<'t>]) -> &'t str {
    let mut name = "";
    for token in head.iter() {
        if token.text == "<" {
            break;
        }
        name = token.text;
    }
    name
}

/// Reads a struct or an enum, whose marks these are, from its name on. Of one that is to be skipped that is all.
fn read_item<'t>(alloc: Global, cursor: &mut Cursor<'t>, marks: Marks, is_enum: bool) -> Item<'t> {
    let mut item = Item {
        name: cursor.name(),
        is_enum,
        marks,
        lifetime: "",
        has_two_lifetimes: false,
        params: Vec::new(alloc),
        wheres: Vec::new(alloc),
        variants: Vec::new(alloc),
        fields: Vec::new(alloc),
        names: Vec::new(alloc),
        keeps: NOTHING,
    };
    if !marks.is_skipped {
        read_params(cursor, &mut item);
        read_wheres(cursor, &mut item.wheres);
        read_body(cursor, &mut item);
        item.names = names_of(alloc, cursor, item.fields.as_slice());
    }
    item
}

/// Reads what stands after the parameters of a type.
fn read_body<'t>(cursor: &mut Cursor<'t>, item: &mut Item<'t>) {
    if item.is_enum {
        read_variants(cursor, item);
    } else {
        let name = item.name;
        read_variant(cursor, item, name, 0);
        // The `where` of a struct without named fields stands after them.
        read_wheres(cursor, &mut item.wheres);
    }
}

/// Reads a `where`, if one comes next, and adds what it says.
fn read_wheres<'t>(cursor: &mut Cursor<'t>, wheres: &mut Vec<Predicate<'t>>) {
    if !cursor.takes("where") {
        return;
    }
    for _ in 0..u64::MAX {
        if cursor.text().is_empty() || is_listed(cursor.text(), "{ ;") {
            break;
        }
        let place = cursor.token().place;
        let tokens = cursor.type_until(&[",", "{", ";"]);
        if tokens.is_empty() {
            cursor.refuse(place, MISSING, "a bound");
        }
        cursor.takes(",");
        cursor.push(wheres, Predicate { tokens });
    }
}

/// Reads the parameters in angle brackets, if some come next.
fn read_params<'t>(cursor: &mut Cursor<'t>, item: &mut Item<'t>) {
    let opened = cursor.token().place;
    if !cursor.takes("<") {
        return;
    }
    for _ in 0..u64::MAX {
        if cursor.takes(">") {
            return;
        }
        if cursor.text().is_empty() {
            break;
        }
        read_param(cursor, item);
    }
    cursor.refuse(opened, UNCLOSED, "");
}

/// Reads a parameter with its bounds, and the comma after it.
fn read_param<'t>(cursor: &mut Cursor<'t>, item: &mut Item<'t>) {
    let name = cursor.take();
    if name.text == "const" {
        cursor.refuse(name.place, CONST_PARAMETER, "");
    }
    let bounds = if cursor.takes(":") {
        cursor.type_until(&[",", "="])
    } else {
        &[]
    };
    cursor.type_until(&[","]);
    cursor.takes(",");
    if name.text.starts_with('\'') {
        item.has_two_lifetimes = item.is_borrowing();
        item.lifetime = name.text;
    } else {
        let param = Param {
            name: name.text,
            place: name.place,
            bounds,
        };
        cursor.push(&mut item.params, param);
    }
}

/// Reads the variants of an enum. The tag of each is the one that a note gives it, or else its place.
fn read_variants<'t>(cursor: &mut Cursor<'t>, item: &mut Item<'t>) {
    cursor.mark("{");
    for place in 0..u32::MAX {
        let noted = read_variant_marks(cursor);
        if cursor.ends("}") {
            break;
        }
        let name = cursor.name();
        read_variant(cursor, item, name, noted.unwrap_or(place));
        if cursor.takes("=") {
            read_discriminant(cursor, name.text, place, noted.is_some());
        }
        if cursor.text() != "}" {
            cursor.mark(",");
        }
    }
}

/// Takes the attributes and the notes above a variant. The tag is the one that a note gives it.
fn read_variant_marks(cursor: &mut Cursor<'_>) -> Option<u32> {
    let mut tag = None;
    for _ in 0..u64::MAX {
        if cursor.takes("#") {
            skip_attribute(cursor);
        } else if is_note(cursor.text()) {
            let note = cursor.take();
            if tag.is_some() {
                cursor.refuse(note.place, SECOND_TAG, "");
            }
            tag = tag_of(cursor, note);
        } else {
            break;
        }
    }
    tag
}

/// Reads the fields of a variant with this tag, or of a struct, from what opens them on.
fn read_variant<'t>(cursor: &mut Cursor<'t>, item: &mut Item<'t>, name: Token<'t>, tag: u32) {
    let start = item.fields.len();
    let brackets = read_fields(cursor, &mut item.fields);
    let variant = Variant {
        name,
        tag,
        brackets,
        start,
        end: item.fields.len(),
    };
    cursor.push(&mut item.variants, variant);
}

/// Takes what stands after a variant's `=`, which is no part of the bytes. Without a note that gives the variant's tag
/// it has to be the variant's place: whoever counts on the number in the bytes would get other ones unseen.
fn read_discriminant<'t>(cursor: &mut Cursor<'t>, name: &'t str, place: u32, is_noted: bool) {
    let first = cursor.token();
    let number = if is_listed(cursor.text_ahead(1), ", }") {
        first.text.parse::<u32>().ok()
    } else {
        None
    };
    skip_expression(cursor);
    if !is_noted && number != Some(place) {
        let written = number.map(|_| first.text);
        cursor.end_with(Refusal::not_place(first.place, name, place, written));
    }
}

/// Takes an expression, up to the comma or the brace behind it.
fn skip_expression(cursor: &mut Cursor<'_>) {
    for _ in 0..u64::MAX {
        if cursor.text().is_empty() || is_listed(cursor.text(), ", }") {
            break;
        }
        if is_opening(cursor.text()) {
            cursor.skip_brackets();
        } else {
            cursor.take();
        }
    }
}

/// Reads the fields of a struct or of a variant.
fn read_fields<'t>(cursor: &mut Cursor<'t>, fields: &mut Vec<Field<'t>>) -> Brackets {
    if cursor.takes("{") {
        read_fields_until(cursor, fields, "}");
        Brackets::Curly
    } else if cursor.takes("(") {
        read_fields_until(cursor, fields, ")");
        Brackets::Round
    } else {
        Brackets::Missing
    }
}

/// Reads the fields up to what closes the bracket around them, where those of a `}` have names.
fn read_fields_until<'t>(cursor: &mut Cursor<'t>, fields: &mut Vec<Field<'t>>, end: &str) {
    for _ in 0..u64::MAX {
        skip_marks(cursor);
        if cursor.ends(end) {
            break;
        }
        let field = read_field(cursor, end == "}");
        cursor.takes(",");
        cursor.push(fields, field);
    }
}

/// Reads a field, which has a name or none.
fn read_field<'t>(cursor: &mut Cursor<'t>, is_named: bool) -> Field<'t> {
    let name = if is_named {
        Some(read_field_name(cursor))
    } else {
        None
    };
    let place = cursor.token().place;
    let of = cursor.type_until(&[","]);
    if of.is_empty() && !is_named {
        cursor.refuse(place, MISSING, "a type");
    }
    Field { name, of }
}

/// Takes the name of a field, and the colon after it.
fn read_field_name<'t>(cursor: &mut Cursor<'t>) -> &'t str {
    let name = cursor.name();
    if name.text == "ghost" {
        cursor.refuse(name.place, GHOST_FIELD, "");
    }
    cursor.mark(":");
    name.text
}

/// Takes the attributes and the visibility that come next.
fn skip_marks(cursor: &mut Cursor<'_>) {
    for _ in 0..u64::MAX {
        let token = cursor.token();
        if is_note(token.text) {
            cursor.refuse(token.place, UNKNOWN_NOTE, token.text);
        }
        if cursor.takes("#") {
            skip_attribute(cursor);
        } else if cursor.takes("pub") {
            skip_reach(cursor);
        } else {
            break;
        }
    }
}

/// Takes what stands after the `#` of an attribute.
fn skip_attribute(cursor: &mut Cursor<'_>) {
    let opened = cursor.token().place;
    cursor.mark("[");
    cursor.skip_group(opened);
}

/// Takes the brackets after a `pub` that say how far it reaches, as `(crate)`. Any others are those of a type, as in
/// `pub (crate::Kind, u8)`.
fn skip_reach(cursor: &mut Cursor<'_>) {
    let first = cursor.text_ahead(1);
    let is_module = is_listed(first, "crate super self") && cursor.text_ahead(2) == ")";
    if cursor.text() == "(" && (first == "in" || is_module) {
        cursor.skip_brackets();
    }
}

/// The names in the types of some fields that are those of the source or the library. A name of another module, after
/// the path of that, is none.
fn names_of<'t>(alloc: Global, cursor: &mut Cursor<'t>, fields: &[Field<'t>]) -> Vec<Token<'t>> {
    let mut names = Vec::new(alloc);
    for field in fields.iter() {
        add_names(cursor, &mut names, field.of);
    }
    names
}

/// Adds the words and marks of a type, but for those of other modules.
fn add_names<'t>(cursor: &mut Cursor<'t>, names: &mut Vec<Token<'t>>, of: &'t [Token<'t>]) {
    let mut is_elsewhere = false;
    let mut before = "";
    for (at, token) in of.iter().enumerate() {
        let text = token.text;
        if before != "::" && text != "::" {
            is_elsewhere = text_at(of, at.saturating_add(1)) == "::" && !is_known(text);
        }
        if !is_elsewhere {
            cursor.push(names, *token);
        }
        before = text;
    }
}
