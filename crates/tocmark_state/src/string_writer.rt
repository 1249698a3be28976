//! A writer that keeps what it takes in a string.

ghost use Rattle.std.specs.Prelude.{◌≡◌, []};
ghost use Rattle.tocmark_state.specs.StringWriters.{held};

use crate::taker::Taker;
use std::alloc::Global;
use std::fmt;

/// Keeps each text after those before it. Over a `String`, which is a `fmt::Write`, a contract can't say
/// why a text was refused; over this writer it does: a text is refused only where memory ran out, and then
/// nothing of it is kept.
#[derive(Drop)]
pub struct StringWriter {
    /// The texts that it took, one after the other.
    pub text: String,
}

impl StringWriter {
    /// A writer that has taken nothing.
    pub fn new(alloc: Global) -> StringWriter
        ensures { held result ≡ [] }
    {
        StringWriter {
            text: String::new(alloc),
        }
    }
}

impl Taker for StringWriter {
    ghost use Rattle.tocmark_state.specs.StringWriters.{Has, HasNoRoomFor};

    ghost takes = { λ before text after. Has before text after };

    ghost refuses = { λ before text after. HasNoRoomFor before text after };

    fn take(&mut self, text: &str) -> fmt::Result {
        match self.text.push_str(text) {
            Ok(()) => Ok(()),
            Err(_) => Err(fmt::Error),
        }
    }
}
