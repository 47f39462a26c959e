//! The names of a type and of its parameters, and the texts that have no other blanks.

use crate::items::Item;
use crate::text::Text;

/// Adds a text with blanks for names, each between two `$`.
pub fn add_names(out: &mut Text, item: &Item<'_>, text: &str) {
    let mut is_blank = false;
    for piece in text.split('$') {
        if is_blank {
            add_name(out, item, piece);
        } else {
            out.add(piece);
        }
        is_blank = !is_blank;
    }
}

/// Adds the name that this stands for. `itself` is a type with its arguments, `parts` is the type of its parts, and the
/// `path` of either is what the path of one of its functions begins with.
pub fn add_name(out: &mut Text, item: &Item<'_>, name: &str) {
    match name {
        "name" => out.add(item.name.text),
        "itself" => add_itself(out, item, ""),
        "parts" => add_itself(out, item, "Parts"),
        "path" => add_path(out, item, ""),
        "parts_path" => add_path(out, item, "Parts"),
        "lifetime" => out.add(item.lifetime),
        _ if item.says(name) => out.add(own_name(name)),
        _ => out.add(name),
    }
}

/// Adds the type whose name is that of a type with this ending, and its arguments, as `<'a, K>`.
fn add_itself(out: &mut Text, item: &Item<'_>, ending: &str) {
    out.add(item.name.text);
    out.add(ending);
    if item.is_borrowing() || item.is_generic() {
        out.add("<");
        out.add(item.lifetime);
        for param in item.params.iter() {
            out.add_comma();
            out.add(param.name);
        }
        out.add(">");
    }
}

/// Adds what the path of a function of that type begins with.
fn add_path(out: &mut Text, item: &Item<'_>, ending: &str) {
    if item.is_generic() {
        out.add("<");
        add_itself(out, item, ending);
        out.add(">");
    } else {
        out.add(item.name.text);
        out.add(ending);
    }
}

/// What a parameter that functions and `impl`s have of their own is named where a type says its short name.
fn own_name(short: &str) -> &'static str {
    match short {
        "B" => "TheBytes",
        "Context" => "TheContext",
        "D" => "TheDecoder",
        _ => "TheEncoder",
    }
}

/// Whether this is what such a parameter is called in what is written for a type, since the type says its short name.
pub fn is_own_name(item: &Item<'_>, name: &str) -> bool {
    let short = match name {
        "TheBytes" => "B",
        "TheContext" => "Context",
        "TheDecoder" => "D",
        "TheEncoder" => "E",
        _ => return false,
    };
    item.says(short)
}
