//! Templates: texts with blanks, conditions and loops, filled for a type.
//!
//! Between two `$` stands a mark. Most marks are blanks, which are filled with what they name. The others are:
//!
//! - `if FACT`, `else` and `end`: what stands between them is filled only where the fact holds, or where it does not.
//!   In place of a fact may stand `not FACT`.
//! - `each variant` and `next variant`: what stands between them is filled for each variant, in which no other such
//!   loop stands. `each variant back` begins with the last one.
//! - `each field` and `next field`: the same for each field of a variant, or of a struct.

use crate::blanks::add_blank;
use crate::facts::{is_fact, is_fact_of_variant};
use crate::items::{Field, Item, Variant};
use crate::text::Text;

/// A template that is being filled.
#[derive(Drop)]
pub struct Filling<'f, 't> {
    pub item: &'f Item<'t>,
    /// Where the toolchain declares the types of the module.
    pub declared: &'f str,
    /// What is left of the template.
    rest: &'f str,
    variants: Loop<'f>,
    /// The variants come from the last one on.
    is_back: bool,
    fields: Loop<'f>,
}

/// A loop in a template.
#[derive(Drop)]
struct Loop<'f> {
    /// The template from where each turn begins.
    body: &'f str,
    /// How many turns there are.
    count: usize,
    /// How many of them are over.
    turn: usize,
}

impl<'f> Loop<'f> {
    fn new(body: &'f str, count: usize) -> Loop<'f> {
        Loop {
            body,
            count,
            turn: 0,
        }
    }

    /// Ends a turn. What is filled next is the body, or else what stands behind the loop.
    fn next(&mut self, behind: &'f str) -> &'f str {
        self.turn = self.turn.saturating_add(1);
        if self.turn < self.count {
            self.body
        } else {
            behind
        }
    }
}

/// Adds a template, filled for a type. `declared` is where the toolchain declares the types of the module.
pub fn fill(out: &mut Text, item: &Item<'_>, declared: &str, template: &str) {
    let mut filling = Filling {
        item,
        declared,
        rest: template,
        variants: Loop::new("", 0),
        is_back: false,
        fields: Loop::new("", 0),
    };
    for _ in 0..u64::MAX {
        if filling.rest.is_empty() {
            break;
        }
        let (text, mark) = filling.take();
        out.add(text);
        filling.follow(out, mark);
    }
}

impl<'f, 't> Filling<'f, 't> {
    /// Takes the text before the next mark, and the mark.
    fn take(&mut self) -> (&'f str, &'f str) {
        let (text, rest) = cut(self.rest, "$");
        let (mark, rest) = cut(rest, "$");
        self.rest = rest;
        (text, mark)
    }

    /// Does what a mark says.
    fn follow(&mut self, out: &mut Text, mark: &str) {
        let (verb, object) = cut(mark, " ");
        match verb {
            "if" => self.begin_if(object),
            "else" => self.pass_over(),
            "end" | "" => {}
            "each" => self.begin_loop(object),
            "next" if object == "field" => self.rest = self.fields.next(self.rest),
            "next" => self.rest = self.variants.next(self.rest),
            _ => add_blank(out, self, verb, object),
        }
    }

    /// Goes on with what stands behind this `if`, or with what stands behind its `else` or its `end`.
    fn begin_if(&mut self, fact: &str) {
        let holds = match fact.strip_prefix("not ") {
            Some(fact) => !self.holds(fact),
            None => self.holds(fact),
        };
        if !holds {
            self.pass_over();
        }
    }

    /// Whether this is a fact.
    fn holds(&self, fact: &str) -> bool {
        is_fact(self.item, fact) || is_fact_of_variant(self, fact)
    }

    /// Takes what stands up to the `else` or the `end` of the `if` that stands here, with each `if` in it.
    fn pass_over(&mut self) {
        let mut depth = 0u64;
        for _ in 0..u64::MAX {
            let (_, mark) = self.take();
            match mark {
                "" => break,
                "end" if depth > 0 => depth = depth.saturating_sub(1),
                "else" if depth > 0 => {}
                "end" | "else" => break,
                _ if mark.starts_with("if ") => depth = depth.saturating_add(1),
                _ => {}
            }
        }
    }

    /// Begins a loop. What stands in one without a turn is passed over.
    fn begin_loop(&mut self, over: &str) {
        if over == "field" {
            self.fields = Loop::new(self.rest, self.of_variant().len());
            if self.of_variant().is_empty() {
                self.rest = cut(self.rest, "$next field$").1;
            }
        } else {
            self.variants = Loop::new(self.rest, self.item.variants.len());
            self.is_back = over == "variant back";
        }
    }

    /// Where the variant stands that the template is filled for.
    pub fn variant_at(&self) -> usize {
        if self.is_back {
            self.variants
                .count
                .saturating_sub(self.variants.turn)
                .saturating_sub(1)
        } else {
            self.variants.turn
        }
    }

    /// The variant that the template is filled for.
    pub fn variant(&self) -> Option<&'f Variant<'t>> {
        self.item.variants.get(self.variant_at())
    }

    /// The fields of that variant.
    pub fn of_variant(&self) -> &'f [Field<'t>] {
        let item = self.item;
        let place = match self.variant() {
            Some(variant) => variant.start..variant.end,
            None => 0..0,
        };
        item.fields.as_slice().get(place).unwrap_or_default()
    }

    /// Where the field stands that the template is filled for.
    pub fn field_at(&self) -> usize {
        self.fields.turn
    }
}

/// What stands in a text before this mark, and behind it: the whole text and nothing, where there is no such mark.
fn cut<'t>(text: &'t str, mark: &str) -> (&'t str, &'t str) {
    text.split_once(mark).unwrap_or((text, ""))
}
