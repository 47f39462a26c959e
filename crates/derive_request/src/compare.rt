//! Whether a module that was written is still the one that would be written now.
ghost use Rattle.std.specs.Prelude.{◌≡◌, IfOk, None};

use derive_words::tokens::tokens_of;
use std::alloc::{AllocError, Global};

/// How a module that was written compares with what would be written now.
#[derive(Clone, Copy, PartialEq)]
pub enum State {
    /// It is the same code.
    UpToDate,
    /// It is another.
    Stale,
    /// There is none.
    Absent,
}

/// How what was found compares with what would be written now. Their comments and their layout are not compared.
pub fn state_of(alloc: Global, written: &str, found: Option<&str>) -> Result<State, AllocError>
    ensures { found.entry ≡ None → IfOk result (λ state. state ≡ State.Absent) }
{
    let Some(found) = found else {
        return Ok(State::Absent);
    };
    let written = code_of(alloc, written)?;
    let found = code_of(alloc, found)?;
    if written == found {
        Ok(State::UpToDate)
    } else {
        Ok(State::Stale)
    }
}

/// The tokens of some code in a line, without the commas that only its layout asks for.
fn code_of(alloc: Global, text: &str) -> Result<String, AllocError> {
    let tokens = tokens_of(alloc, text)?;
    let mut code = String::new(alloc);
    let mut is_comma = false;
    for token in tokens.iter() {
        if is_comma && !is_closing(token.text) {
            code.push_str(", ")?;
        }
        is_comma = token.text == ",";
        if !is_comma {
            code.push_str(token.text)?;
            code.push_str(" ")?;
        }
    }
    Ok(code)
}

/// Whether a comma before a token is there for the layout alone.
fn is_closing(token: &str) -> bool {
    matches!(token, ")" | "]" | "}" | ">")
}
