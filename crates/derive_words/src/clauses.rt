//! Clauses and their imports, in lines that are not too long. A template has a `¶` where one of them may be broken.

use crate::layout::Parts;
use crate::text::Text;

/// How many bytes a line of a clause or an import has at most.
const CLAUSE_WIDTH: usize = 100;

/// How many characters a clause of two members has at most in one line.
const MEMBERS_WIDTH: usize = 120;

/// Adds a line that is a clause or an import of one.
pub fn add_clause(out: &mut Text, line: &str) {
    let code = line.trim_start();
    if code.starts_with("ghost use ") {
        add_use(out, line);
    } else if code.starts_with("ghost parts = { λ v. (") && line.len() >= CLAUSE_WIDTH {
        add_parts(out, line);
    } else {
        add_joined(
            out,
            line,
            if is_short(out, line) {
                " "
            } else {
                "\n        "
            },
        );
    }
    out.add("\n");
}

/// Adds the pieces of a line with this between each two.
fn add_joined(out: &mut Text, line: &str, between: &str) {
    for (at, piece) in line.split('¶').enumerate() {
        if at > 0 {
            out.add(between);
        }
        out.add(piece);
    }
}

/// Whether the pieces of a line are short enough to stand in one.
fn is_short(out: &Text, line: &str) -> bool {
    let mut joined = out.beside();
    add_joined(&mut joined, line, " ");
    let code = line.trim_start();
    if code.starts_with("ghost variants ") || code.starts_with("ghost made ") {
        joined.as_str().len() < CLAUSE_WIDTH
    } else {
        joined.as_str().chars().count() <= MEMBERS_WIDTH
    }
}

/// Adds an import, whose names are imported by several where there are many.
fn add_use(out: &mut Text, line: &str) {
    let (path, names) = line.split_once('{').unwrap_or((line, ""));
    let mut width = 0usize;
    for name in names.trim_end_matches("};").split(",¶") {
        let is_long = width > 0 && width.saturating_add(name.len()) > CLAUSE_WIDTH;
        if is_long {
            out.add("};\n");
        }
        if is_long || width == 0 {
            out.add(path);
            out.add("{");
            width = path.len().saturating_add(1);
        } else {
            out.add(", ");
            width = width.saturating_add(2);
        }
        out.add(name);
        width = width.saturating_add(name.len());
    }
    out.add("};");
}

/// Adds the clause of the parts of a struct, each in a line of its own.
fn add_parts(out: &mut Text, line: &str) {
    let (front, tuple) = line.split_once('(').unwrap_or((line, ""));
    out.add(front);
    out.add("(\n");
    let mut parts = Parts::new(tuple.trim_end_matches(") };"));
    for _ in 0..u64::MAX {
        let Some(part) = parts.take() else {
            break;
        };
        out.add("      ");
        out.add(part);
        out.add(",\n");
    }
    out.add("    ) };");
}
