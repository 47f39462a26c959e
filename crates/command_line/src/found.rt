//! What was found in the arguments of a command line.

use std::alloc::{AllocError, Global};

/// What was found in the words of a command line.
#[derive(Drop)]
pub struct Found<'a> {
    /// The name of the command; empty for a program without commands.
    pub(crate) command: &'a str,
    /// The values, in the order of the words for each id.
    pub(crate) values: Vec<Value<'a>>,
}

/// A value of a word or an option.
#[derive(Clone, Copy)]
pub(crate) struct Value<'a> {
    pub(crate) id: &'a str,
    pub(crate) text: &'a str,
}

impl<'a> Found<'a> {
    ghost use Rattle.std.specs.Prelude.{◌≡◌, ◌↔◌, IfOk, IsTrue, Some, codes, map, option_map};
    ghost use Rattle.command_line.specs.Found.{command_of, text_of, texts_of};

    /// The name of the command; empty for a program without commands.
    pub fn command(&self) -> &'a str
        ensures { result.now ≡ command_of self.now }
    {
        self.command
    }

    /// The first value of the word or option of this id, if it has one.
    pub fn text(&self, id: &str) -> Option<&'a str>
        ensures { option_map (λ t. t.now) result ≡ text_of self.now id.now }
    {
        let value = self.values.iter().find(|value| value.id == id)?;
        Some(value.text)
    }

    /// Whether the option of this id, which takes no value, was given.
    pub fn is_set(&self, id: &str) -> bool
        ensures { IsTrue result ↔ (text_of self.now id.now ≡ Some (codes "true")) }
    {
        self.text(id) == Some("true")
    }

    /// The number below 2^64 that the first value of this id spells, if it has one and spells one.
    pub fn number(&self, id: &str) -> Option<u64> {
        let text = self.text(id)?;
        match text.parse::<u64>() {
            Ok(number) => Some(number),
            // A zero may have a minus sign.
            Err(_) => u64::try_from(text.parse::<i64>().ok()?).ok(),
        }
    }

    /// The values of the word or option of this id. An error is one of memory.
    pub fn texts(&self, alloc: Global, id: &str) -> Result<Vec<&'a str>, AllocError>
        ensures { IfOk result (λ r. map (λ t. t.now) r.items ≡ texts_of self.now id.now) }
    {
        let mut texts = Vec::new(alloc);
        for value in self.values.iter() {
            if value.id == id {
                texts.push(value.text)?;
            }
        }
        Ok(texts)
    }
}
