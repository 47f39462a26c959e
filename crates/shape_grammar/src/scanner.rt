//! What remains of a text while it is parsed.
ghost use Rattle.std.specs.Prelude.{◌≡◌, ◌<◌, true, false};
ghost use Rattle.shape_grammar.specs.Marks.{Mark, Word, IsEnd};

use bincode_base::short_text::ShortText;
use std::fmt;

/// What stands where something else is expected: a word, cut after 22 bytes, or another character, or the end.
#[derive(Clone, Copy, Debug, Drop)]
pub struct Met {
    /// The word or the character. Empty at the end.
    text: ShortText,
}

impl fmt::Display for Met {
    fn fmt<W: fmt::Write>(&self, f: &mut fmt::Formatter<W>) -> fmt::Result {
        let text = self.text.as_str();
        if text.is_empty() {
            f.write_str("the end")
        } else {
            write!(f, "`{text}`")
        }
    }
}

/// The rest of a text, and how long the whole of it is.
#[derive(Drop)]
pub(crate) struct Scanner<'t> {
    rest: &'t str,
    length: usize,
}

impl<'t> Scanner<'t> {
    pub(crate) fn new(text: &'t str) -> Scanner<'t>
        ensures { result.rest.now ≡ text.now }
    {
        Scanner {
            rest: text,
            length: text.len(),
        }
    }

    /// The offset in bytes of what is read next, after spaces.
    pub(crate) fn place(&self) -> usize {
        self.length.saturating_sub(self.rest.trim_start().len())
    }

    /// The word that comes next, or the character, where it is of no word.
    pub(crate) fn met(&self) -> Met {
        let text = self.rest.trim_start();
        let after = text.trim_start_matches(is_of_word);
        let mut size = text.len().saturating_sub(after.len());
        if size == 0 {
            size = text.chars().next().map_or(0, |c| c.len_utf8());
        }
        let met = text.split_at_checked(size).map_or("", |(met, _)| met);
        Met {
            text: ShortText::new(met),
        }
    }

    /// Whether nothing but spaces is left.
    pub(crate) fn is_at_end(&self) -> bool
        ensures { result ≡ true → IsEnd self.now.rest.now }
    {
        self.rest.trim_start().is_empty()
    }

    /// Consumes this mark, and the spaces before it, if it comes next.
    pub(crate) fn takes(&mut self, mark: char) -> bool
        requires { mark < 128 }
        ensures taken { result ≡ true → Mark mark self.old.rest.now self.new.rest.now }
        ensures left { result ≡ false → self.new ≡ self.old }
    {
        match self.rest.trim_start().strip_prefix(mark) {
            Some(rest) => {
                self.rest = rest;
                true
            }
            None => false,
        }
    }

    /// Consumes the letters and digits that come next, and the spaces before them.
    pub(crate) fn word(&mut self) -> &'t str
        ensures { Word result.now self.old.rest.now self.new.rest.now }
    {
        let text = self.rest.trim_start();
        let behind = text.trim_start_matches(is_of_word);
        match text.split_at_checked(text.len().saturating_sub(behind.len())) {
            Some((word, rest)) => {
                self.rest = rest;
                word
            }
            None => {
                self.rest = text;
                ""
            }
        }
    }
}

/// Whether a character may be part of a name or a number.
fn is_of_word(c: char) -> bool {
    c.is_ascii_alphanumeric() || c == '_'
}
