//! Names and messages without characters that would disturb a line or a terminal: control characters are shown as Git shows
//! them, so that no name, key or value can add a line to what a program says.

use std::alloc::{AllocError, Global};
use std::fmt;
use std::fmt::Write;

/// A name that is shown as it is, or, if it has a control character, in quotation marks with escapes, as Git shows it.
#[derive(Clone, Copy)]
pub struct Quoted<'n>(pub &'n str);

/// A message as one line: each control character in it is shown as an escape.
#[derive(Drop)]
pub struct OneLine<'m, M: fmt::Display>(pub &'m M);

/// What writes a text with escapes for its control characters.
#[derive(Drop)]
struct Escaping<W: fmt::Write + Drop> {
    out: W,
}

fn is_plain(name: &str) -> bool {
    for c in name.chars() {
        if c.is_control() {
            return false;
        }
    }
    true
}

/// Writes the bytes of a character in octal.
fn write_octal<W: fmt::Write>(out: &mut W, c: char) -> fmt::Result {
    let mut buffer = [0u8; 4];
    for byte in c.encode_utf8(&mut buffer).as_bytes() {
        let byte = *byte;
        write!(out, "\\{byte:03o}")?;
    }
    Ok(())
}

/// Writes the escape of a control character.
pub fn write_control<W: fmt::Write>(out: &mut W, c: char) -> fmt::Result {
    match c {
        '\n' => out.write_str("\\n"),
        '\r' => out.write_str("\\r"),
        '\t' => out.write_str("\\t"),
        c => write_octal(out, c),
    }
}

fn write_escaped<W: fmt::Write>(out: &mut W, c: char) -> fmt::Result {
    match c {
        '"' => out.write_str("\\\""),
        '\\' => out.write_str("\\\\"),
        c if c.is_control() => write_control(out, c),
        c => out.write_char(c),
    }
}

impl<W: fmt::Write + Drop> fmt::Write for Escaping<W> {
    fn write_str(&mut self, text: &str) -> fmt::Result {
        let mut written = 0usize;
        for (at, c) in text.char_indices() {
            if c.is_control() {
                self.out.write_str(text.get(written..at).unwrap_or(""))?;
                write_control(&mut self.out, c)?;
                written = at.saturating_add(c.len_utf8());
            }
        }
        self.out.write_str(text.get(written..).unwrap_or(""))
    }
}

impl fmt::Display for Quoted<'_> {
    fn fmt<W: fmt::Write>(&self, f: &mut fmt::Formatter<W>) -> fmt::Result {
        let name = self.0;
        if is_plain(name) {
            return f.write_str(name);
        }
        f.write_str("\"")?;
        for c in name.chars() {
            write_escaped(f, c)?;
        }
        f.write_str("\"")
    }
}

impl<M: fmt::Display> fmt::Display for OneLine<'_, M> {
    fn fmt<W: fmt::Write>(&self, f: &mut fmt::Formatter<W>) -> fmt::Result {
        let message = self.0;
        let mut line = Escaping { out: f };
        write!(line, "{message}")
    }
}

/// A name as [`Quoted`] shows it. It fails if memory runs out.
pub fn in_quotes(alloc: Global, name: &str) -> Result<String, AllocError> {
    let name = Quoted(name);
    match format!(in alloc; "{name}") {
        Ok(name) => Ok(name),
        Err(_) => Err(AllocError),
    }
}
