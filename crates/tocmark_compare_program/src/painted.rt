//! Colours of a terminal.

use std::fmt;

/// How a part of a line looks.
#[derive(Clone, Copy)]
pub enum Paint {
    Bold,
    Red,
    Green,
}

/// What looks so on a terminal. It has no control characters of its own.
#[derive(Drop)]
pub struct Painted<'m, M: fmt::Display>(pub &'m M, pub Paint);

/// What a terminal takes for the start of a look.
fn start_of(paint: Paint) -> &'static str {
    match paint {
        Paint::Bold => "\x1b[1m",
        Paint::Red => "\x1b[31m",
        Paint::Green => "\x1b[32m",
    }
}

impl<M: fmt::Display> fmt::Display for Painted<'_, M> {
    fn fmt<W: fmt::Write>(&self, f: &mut fmt::Formatter<W>) -> fmt::Result {
        let (text, start) = (self.0, start_of(self.1));
        write!(f, "{start}{text}\x1b[0m")
    }
}
