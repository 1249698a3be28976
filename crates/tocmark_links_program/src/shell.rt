//! Names as words of a shell, so that a command in a message can be copied.

use std::fmt;
use std::fmt::Write;

/// A name that a shell reads as one word: in quotation marks, or, if it has control characters, in `$'..'` with escapes.
#[derive(Clone, Copy)]
pub struct ShellWord<'n>(pub &'n str);

fn is_plain(name: &str) -> bool {
    for c in name.chars() {
        if c.is_control() {
            return false;
        }
    }
    true
}

/// Writes a character between single quotation marks.
fn write_plain<W: fmt::Write>(out: &mut W, c: char) -> fmt::Result {
    if c == '\'' {
        out.write_str("'\\''")
    } else {
        out.write_char(c)
    }
}

/// Writes a character between `$'` and `'`. The bytes of a control character are written in octal.
fn write_escaped<W: fmt::Write>(out: &mut W, c: char) -> fmt::Result {
    if c == '\'' || c == '\\' {
        out.write_char('\\')?;
    }
    if !c.is_control() {
        return out.write_char(c);
    }
    let mut buffer = [0u8; 4];
    for byte in c.encode_utf8(&mut buffer).as_bytes() {
        let byte = *byte;
        write!(out, "\\{byte:03o}")?;
    }
    Ok(())
}

impl fmt::Display for ShellWord<'_> {
    fn fmt<W: fmt::Write>(&self, f: &mut fmt::Formatter<W>) -> fmt::Result {
        let name = self.0;
        let is_plain = is_plain(name);
        f.write_str(if is_plain { "'" } else { "$'" })?;
        for c in name.chars() {
            if is_plain {
                write_plain(f, c)?;
            } else {
                write_escaped(f, c)?;
            }
        }
        f.write_str("'")
    }
}
