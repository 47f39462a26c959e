//! Lines as `rt fmt` lays them out: one that is too long is broken at a list in brackets.

use crate::clauses::add_clause;
use crate::text::Text;
use crate::tokens::is_of_word;
use std::alloc::{AllocError, Global};

/// How many bytes a line has at most.
const LINE_WIDTH: usize = 100;

/// How many bytes a line of imported names has at most.
const USE_WIDTH: usize = 99;

/// How many bytes a tuple or the arguments of a call have at most in one line.
const LIST_WIDTH: usize = 60;

/// How many bytes the fields of a struct have at most in one line.
const FIELDS_WIDTH: usize = 18;

/// How many bytes the parts of a list have at most that are filled into lines.
const SHORT_PART: usize = 10;

/// What a line is a part of, by which its lists are broken.
#[derive(Clone, Copy)]
enum Context {
    Code,
    Pattern,
    Type,
}

/// A line that is to be laid out.
#[derive(Drop)]
struct Line {
    text: String,
    context: Context,
}

/// Lines one after the other. Where memory is refused on the way, `is_whole` says so.
#[derive(Drop)]
struct Lines {
    alloc: Global,
    all: Vec<Line>,
    is_whole: bool,
}

impl Lines {
    fn new(alloc: Global) -> Lines {
        Lines {
            alloc,
            all: Vec::new(alloc),
            is_whole: true,
        }
    }

    /// Adds a line that has been made.
    fn push(&mut self, line: Line) {
        if self.all.push(line).is_err() {
            self.is_whole = false;
        }
    }

    /// Adds a line that is this behind that.
    fn add(&mut self, front: &str, text: &str, context: Context) {
        let mut line = Text::new(self.alloc);
        line.add(front);
        line.add(text);
        match line.whole() {
            Ok(text) => self.push(Line { text, context }),
            Err(_) => self.is_whole = false,
        }
    }

    /// Adds a text and what ends it, one step further in than this, in a line of its own.
    fn add_within(&mut self, indent: &str, text: &str, end: &str, context: Context) {
        let mut line = Text::new(self.alloc);
        line.add("    ");
        line.add(text);
        line.add(end);
        self.add(indent, line.as_str(), context);
    }
}

/// Text whose lines are as long as they may be, as `rt fmt` lays it out.
pub fn laid_out(alloc: Global, text: &str) -> Result<String, AllocError> {
    let mut laid = Text::new(alloc);
    let mut is_whole = true;
    for line in text.lines() {
        if line.trim_start().starts_with("ghost ") {
            add_clause(&mut laid, line);
        } else if !lay_line(&mut laid, alloc, line) {
            is_whole = false;
        }
    }
    if is_whole {
        laid.whole()
    } else {
        Err(AllocError)
    }
}

/// Adds a line, broken as often as it has to be. `false` where memory was refused.
fn lay_line(laid: &mut Text, alloc: Global, text: &str) -> bool {
    let context = if text.starts_with("type ") {
        Context::Type
    } else {
        Context::Code
    };
    let mut waiting = Lines::new(alloc);
    waiting.add("", text, context);
    for _ in 0..u64::MAX {
        let Some(line) = waiting.all.pop() else {
            break;
        };
        let mut lines = Lines::new(alloc);
        break_line(&mut lines, line.text.as_str(), line.context);
        hand_on(laid, &mut waiting, &mut lines);
    }
    waiting.is_whole
}

/// Adds the first of the lines that a line was broken into, which is short enough. The others wait, the next on top.
fn hand_on(laid: &mut Text, waiting: &mut Lines, lines: &mut Lines) {
    waiting.is_whole = waiting.is_whole && lines.is_whole;
    for _ in 0..u64::MAX {
        let Some(line) = lines.all.pop() else {
            break;
        };
        if lines.all.is_empty() {
            laid.add(line.text.as_str());
            laid.add("\n");
        } else {
            waiting.push(line);
        }
    }
}

/// Adds the line itself, or what it is broken into, of which the first is short enough.
fn break_line(lines: &mut Lines, text: &str, context: Context) {
    let code = text.trim_start();
    if is_never_broken(code) {
        lines.add("", text, Context::Code);
    } else if code.starts_with("use ") {
        break_use(lines, text);
    } else if code.starts_with("fn ") || code.starts_with("impl") {
        break_head(lines, text);
    } else if has_long_pattern(text) {
        break_long(lines, text, context);
    } else if let Some(group) = wide_group(text, context) {
        break_wide(lines, text, group, context);
    } else if text.len() <= LINE_WIDTH {
        lines.add("", text, Context::Code);
    } else {
        break_long(lines, text, context);
    }
}

/// Whether a line stays as it is, however long it is.
fn is_never_broken(code: &str) -> bool {
    code.starts_with('|')
        || code.starts_with('⟦')
        || code.starts_with("//")
        || code.starts_with("ensures ")
}

/// Where the pattern of a line ends, of a `let` or an arm. 0 if there is none.
fn pattern_end(text: &str) -> usize {
    if text.trim_start().starts_with("let ") {
        return text.find(" = ").unwrap_or(0);
    }
    text.find(" => ").unwrap_or(0)
}

/// A bracket in a line.
#[derive(Clone, Copy)]
struct Group<'t> {
    /// Where it opens, and where it closes.
    open: usize,
    close: usize,
    /// What opens it.
    mark: char,
    /// What it holds.
    held: &'t str,
}

/// The first bracket of a line behind this place that stands in no other, and is closed in the line.
fn group_from(text: &str, from: usize) -> Option<Group<'_>> {
    let mut depth = 0u64;
    let mut open = 0;
    let mut mark = ' ';
    let mut before = ' ';
    for (at, c) in text.char_indices() {
        if at >= from && is_opening(c) {
            if depth == 0 {
                open = at;
                mark = c;
            }
            depth = depth.saturating_add(1);
        } else if depth > 0 && is_closing(before, c) {
            depth = depth.saturating_sub(1);
            if depth == 0 {
                let held = text.get(open.saturating_add(1)..at).unwrap_or("");
                return Some(Group {
                    open,
                    close: at,
                    mark,
                    held,
                });
            }
        }
        before = c;
    }
    None
}

fn is_opening(c: char) -> bool {
    matches!(c, '(' | '[' | '{' | '<')
}

/// Whether a character closes a bracket, which the `>` of an arrow does not.
fn is_closing(before: char, c: char) -> bool {
    match c {
        ')' | ']' | '}' => true,
        '>' => before != '-' && before != '=',
        _ => false,
    }
}

/// Whether the pattern of a line does not fit into a line.
fn has_long_pattern(text: &str) -> bool {
    pattern_end(text) > 0 && cut_of(text) > LINE_WIDTH
}

/// The first bracket that is too wide to stand in one line, however short the line is.
fn wide_group(text: &str, context: Context) -> Option<Group<'_>> {
    let mut from = 0;
    for _ in 0..u64::MAX {
        let group = group_from(text, from)?;
        let is_pattern = matches!(context, Context::Pattern) || group.open < pattern_end(text);
        let inner = innermost(group, is_pattern);
        if is_wide(inner, is_pattern) {
            return Some(inner);
        }
        from = group.close;
    }
    None
}

/// The bracket that is broken in place of another, which holds one struct or one call alone.
fn innermost(group: Group<'_>, is_pattern: bool) -> Group<'_> {
    match group_from(group.held, 0) {
        Some(only) if !is_pattern && is_lone(group.held, only) => Group {
            open: group.open.saturating_add(only.open).saturating_add(1),
            close: group.open.saturating_add(only.close).saturating_add(1),
            mark: only.mark,
            held: only.held,
        },
        _ => group,
    }
}

/// Whether a text is one struct or one call, to which this bracket belongs.
fn is_lone(text: &str, group: Group<'_>) -> bool {
    let name = text.get(..group.open).unwrap_or("").trim_end();
    group.close.saturating_add(1) == text.len() && is_path(name)
}

/// Whether a text is a name or a path.
fn is_path(text: &str) -> bool {
    for c in text.chars() {
        if !is_of_word(c) && c != ':' {
            return false;
        }
    }
    !text.is_empty()
}

/// Whether a bracket is too wide to stand in one line. The tuple of a pattern may be as wide as the line.
fn is_wide(group: Group<'_>, is_pattern: bool) -> bool {
    match group.mark {
        '{' => group.held.trim().len() > FIELDS_WIDTH,
        _ if is_pattern => false,
        '(' => group.held.len() > LIST_WIDTH,
        _ => holds_wide_tuple(group.held),
    }
}

/// Whether a tuple stands in a text that is too wide to stand in one line.
fn holds_wide_tuple(text: &str) -> bool {
    for (at, c) in text.char_indices() {
        if c == '('
            && let Some(tuple) = group_from(text, at)
            && tuple.held.len() > LIST_WIDTH
        {
            return true;
        }
    }
    false
}

/// Adds the lines of a bracket that is too wide. What stands before it is cut off where it leaves it no room.
fn break_wide(lines: &mut Lines, text: &str, group: Group<'_>, context: Context) {
    let cut = cut_of(text);
    if cut < group.open && group.open >= LINE_WIDTH {
        break_at(lines, text, cut);
    } else {
        break_group(lines, text, group, context);
    }
}

/// Adds the lines of a bracket: what stands before it, its parts, and what stands behind it.
fn break_group(lines: &mut Lines, text: &str, group: Group<'_>, context: Context) {
    let within = if group.open < pattern_end(text) {
        Context::Pattern
    } else {
        context
    };
    let is_call = group.mark == '(' && matches!(within, Context::Code);
    let indent = indent_of(text);
    let front = text.get(..group.open.saturating_add(1)).unwrap_or(text);
    lines.add("", front, context);
    if is_call && are_short(group.held) {
        add_filled(lines, indent, group.held, LINE_WIDTH);
    } else {
        add_each(lines, indent, group.held, within);
    }
    add_tail(lines, text, group, context);
}

/// The parts of a text between the commas that stand in no brackets.
#[derive(Drop)]
pub struct Parts<'t> {
    text: &'t str,
    from: usize,
}

impl<'t> Parts<'t> {
    pub fn new(text: &'t str) -> Parts<'t> {
        Parts { text, from: 0 }
    }

    /// The part that comes next. What stands behind the last comma is none if it is empty.
    pub fn take(&mut self) -> Option<&'t str> {
        let text = self.text;
        let end = part_end(text, self.from);
        let part = text.get(self.from..end).unwrap_or("").trim();
        self.from = end.saturating_add(1);
        if end >= text.len() && part.is_empty() {
            None
        } else {
            Some(part)
        }
    }
}

/// Where the part ends that begins at this place.
fn part_end(text: &str, from: usize) -> usize {
    let mut depth = 0u64;
    let mut before = ' ';
    for (at, c) in text.char_indices() {
        if at >= from {
            if c == ',' && depth == 0 {
                return at;
            }
            if is_opening(c) {
                depth = depth.saturating_add(1);
            } else if is_closing(before, c) {
                depth = depth.saturating_sub(1);
            }
        }
        before = c;
    }
    text.len()
}

/// Whether all parts of a text are short.
fn are_short(text: &str) -> bool {
    let mut parts = Parts::new(text);
    for _ in 0..u64::MAX {
        match parts.take() {
            Some(part) if part.len() > SHORT_PART => return false,
            Some(_) => {}
            None => break,
        }
    }
    true
}

/// Adds each part of a text in a line of its own.
fn add_each(lines: &mut Lines, indent: &str, text: &str, context: Context) {
    let mut parts = Parts::new(text);
    for _ in 0..u64::MAX {
        let Some(part) = parts.take() else {
            break;
        };
        lines.add_within(indent, part, ",", context);
    }
}

/// Adds the parts of a text in lines that are as long as they may be, of this many bytes.
fn add_filled(lines: &mut Lines, indent: &str, text: &str, width: usize) {
    let room = width.saturating_sub(indent.len()).saturating_sub(2);
    let mut filled = Text::new(lines.alloc);
    let mut parts = Parts::new(text);
    for _ in 0..u64::MAX {
        let Some(part) = parts.take() else {
            break;
        };
        if filled.as_str().len().saturating_add(part.len()) > room {
            lines.add(indent, filled.as_str(), Context::Pattern);
            filled.clear();
        }
        filled.add(if filled.as_str().is_empty() {
            "    "
        } else {
            " "
        });
        filled.add(part);
        filled.add(",");
    }
    lines.add(indent, filled.as_str(), Context::Pattern);
    lines.is_whole = lines.is_whole && filled.is_whole();
}

/// Adds what stands behind a bracket. A call of a method stands in a line of its own where the bracket is wide.
fn add_tail(lines: &mut Lines, text: &str, group: Group<'_>, context: Context) {
    let indent = indent_of(text);
    let tail = text.get(group.close..).unwrap_or("");
    if tail.starts_with(").") && group.held.len() > LIST_WIDTH {
        lines.add(indent, ")", context);
        lines.add_within(indent, tail.get(1..).unwrap_or(""), "", context);
    } else {
        lines.add(indent, tail, context);
    }
}

/// The spaces at the front of a line.
fn indent_of(text: &str) -> &str {
    let size = text.len().saturating_sub(text.trim_start().len());
    text.get(..size).unwrap_or("")
}

/// Adds a `use` line, whose names are filled into lines where it is too long.
fn break_use(lines: &mut Lines, text: &str) {
    match text.split_once('{') {
        Some((path, names)) if text.len() > LINE_WIDTH => {
            lines.add(path, "{", Context::Code);
            add_filled(lines, "", names.trim_end_matches("};"), USE_WIDTH);
            lines.add("", "};", Context::Code);
        }
        _ => lines.add("", text, Context::Code),
    }
}

/// Adds the head of a function or an `impl`, broken at its parameters or before its `for` where it is too long.
fn break_head(lines: &mut Lines, text: &str) {
    if text.len() <= LINE_WIDTH {
        lines.add("", text, Context::Code);
        return;
    }
    match params_of(text) {
        Some(group) => break_group(lines, text, group, Context::Code),
        None => break_at(lines, text, text.find(" for ").unwrap_or(text.len())),
    }
}

/// The bracket with the parameters in the head of a function.
fn params_of(text: &str) -> Option<Group<'_>> {
    let mut from = 0;
    for _ in 0..u64::MAX {
        let group = group_from(text, from)?;
        if group.mark == '(' {
            return Some(group);
        }
        from = group.close;
    }
    None
}

/// Adds a line that is too long, though each of its brackets could stand in one line.
fn break_long(lines: &mut Lines, text: &str, context: Context) {
    match long_group(text) {
        Some(group) => break_group(lines, text, group, context),
        None => break_at(lines, text, cut_of(text)),
    }
}

/// The bracket at which a line that is too long is broken: in its pattern if that is too long, and else the longest.
fn long_group(text: &str) -> Option<Group<'_>> {
    let mut longest = None;
    let mut size = 0usize;
    let mut from = 0;
    for _ in 0..u64::MAX {
        let Some(group) = group_from(text, from) else {
            break;
        };
        if may_break(text, group) && group.held.len() > size {
            size = group.held.len();
            longest = Some(group);
        }
        from = group.close;
    }
    longest
}

/// Whether a line that is too long may be broken at a bracket.
fn may_break(text: &str, group: Group<'_>) -> bool {
    let cut = cut_of(text);
    if group.mark == '[' {
        return false;
    }
    let front = text.get(..group.open).unwrap_or("");
    if front.ends_with("::") {
        return false;
    }
    if has_long_pattern(text) {
        return group.open < cut;
    }
    cut == text.len() || cut <= group.open && group.open < LINE_WIDTH
}

/// Where a line may be cut: behind an arrow, or behind an equals sign. Its length if it has neither.
fn cut_of(text: &str) -> usize {
    match (text.find(" => "), text.find(" = ")) {
        (Some(at), _) => at.saturating_add(3),
        (None, Some(at)) => at.saturating_add(2),
        (None, None) => text.len(),
    }
}

/// Adds a line in two, the second of which begins behind a space at this place.
fn break_at(lines: &mut Lines, text: &str, at: usize) {
    let Some((front, back)) = text.split_at_checked(at) else {
        lines.add("", text, Context::Code);
        return;
    };
    lines.add("", front, Context::Code);
    let back = back.trim_start();
    if !back.is_empty() {
        lines.add_within(indent_of(text), back, "", Context::Code);
    }
}
