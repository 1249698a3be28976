//! Texts in the forms that other programs read: JSON, and the annotations of GitHub's workflows. Neither has a control
//! character, so a name changes nothing at a terminal.

use std::fmt;
use std::fmt::Write;
use tocmark_files::quoted::write_control;

/// How a text is quoted.
#[derive(Clone, Copy)]
pub enum Quoting {
    /// In a string of JSON.
    Json,
    /// In the message of an annotation.
    Message,
    /// In a property of an annotation.
    Property,
}

/// What is shown with escapes.
#[derive(Drop)]
pub struct Escaped<'m, M: fmt::Display>(pub &'m M, pub Quoting);

/// What writes a text with escapes.
#[derive(Drop)]
struct Escaping<W: fmt::Write + Drop> {
    out: W,
    quoting: Quoting,
}

/// What GitHub takes for a character of an annotation.
fn percent_of(c: char, is_property: bool) -> Option<&'static str> {
    match c {
        '%' => Some("%25"),
        '\r' => Some("%0D"),
        '\n' => Some("%0A"),
        ':' if is_property => Some("%3A"),
        ',' if is_property => Some("%2C"),
        _ => None,
    }
}

/// Writes a character of a string of JSON.
fn write_json<W: fmt::Write>(out: &mut W, c: char) -> fmt::Result {
    match c {
        '"' => out.write_str("\\\""),
        '\\' => out.write_str("\\\\"),
        '\n' => out.write_str("\\n"),
        '\t' => out.write_str("\\t"),
        c if c.is_control() => {
            let number = c as u32;
            write!(out, "\\u{number:04x}")
        }
        c => out.write_char(c),
    }
}

impl<W: fmt::Write + Drop> fmt::Write for Escaping<W> {
    fn write_str(&mut self, text: &str) -> fmt::Result {
        for c in text.chars() {
            let escape = match self.quoting {
                Quoting::Json => {
                    write_json(&mut self.out, c)?;
                    continue;
                }
                Quoting::Message => percent_of(c, false),
                Quoting::Property => percent_of(c, true),
            };
            match escape {
                Some(escape) => self.out.write_str(escape)?,
                // GitHub has no sign for another control character.
                None if c.is_control() => write_control(&mut self.out, c)?,
                None => self.out.write_char(c)?,
            }
        }
        Ok(())
    }
}

impl<M: fmt::Display> fmt::Display for Escaped<'_, M> {
    fn fmt<W: fmt::Write>(&self, f: &mut fmt::Formatter<W>) -> fmt::Result {
        let (message, quoting) = (self.0, self.1);
        let mut out = Escaping { out: f, quoting };
        write!(out, "{message}")
    }
}
