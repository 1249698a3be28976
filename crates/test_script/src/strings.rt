//! Strings in double quotes, as in JSON.

use serde_json::Value;
use std::alloc::{AllocError, Global};
use std::fmt;

/// A text, which `{}` writes in double quotes, with escapes for quotes, backslashes and control characters.
#[derive(Clone, Copy)]
pub struct Quoted<'a>(pub &'a str);

impl fmt::Display for Quoted<'_> {
    fn fmt<W: fmt::Write>(&self, f: &mut fmt::Formatter<W>) -> fmt::Result {
        f.write_char('"')?;
        for c in self.0.chars() {
            write_character(f, c)?;
        }
        f.write_char('"')
    }
}

/// The characters that have an escape of their own.
const ESCAPES: [(char, &str); 5] = [
    ('"', "\\\""),
    ('\\', "\\\\"),
    ('\n', "\\n"),
    ('\r', "\\r"),
    ('\t', "\\t"),
];

fn escape_of(c: char) -> Option<&'static str> {
    for (escaped, escape) in &ESCAPES {
        if *escaped == c {
            return Some(*escape);
        }
    }
    None
}

fn write_character<W: fmt::Write>(f: &mut fmt::Formatter<W>, c: char) -> fmt::Result {
    if let Some(escape) = escape_of(c) {
        return f.write_str(escape);
    }
    if c.is_ascii_control() {
        let code = u32::from(c);
        return write!(f, "\\u{code:04x}");
    }
    f.write_char(c)
}

/// The front of a text up to the double quote that ends a string, and what is after that.
fn string_end(text: &str) -> Option<(&str, &str)> {
    let mut chars = text.chars();
    let mut is_escaped = false;
    while let Some(c) = chars.next() {
        if c == '"' && !is_escaped {
            let behind = chars.as_str();
            let content = text.strip_suffix(behind)?.strip_suffix('"')?;
            return Some((content, behind));
        }
        is_escaped = c == '\\' && !is_escaped;
    }
    None
}

/// What is before the first string of a text, what is between its quotes, and what is after it.
fn first_string(text: &str) -> Option<(&str, &str, &str)> {
    let (front, rest) = text.split_once('"')?;
    let (content, behind) = string_end(rest)?;
    Some((front, content, behind))
}

/// The text of a string, or nothing where it is none of JSON.
fn text_of(alloc: Global, string: &str) -> Result<Option<String>, AllocError> {
    let value = match Value::from_str(alloc, string) {
        Ok(value) => value,
        Err(error) if error.is_memory() => return Err(AllocError),
        Err(_error) => return Ok(None),
    };
    match value {
        Value::String(text) => Ok(Some(text)),
        _other => Ok(None),
    }
}

/// The text of the string at the front of a text, and what is after it, or nothing where none of JSON is
/// there.
///
/// # Errors
///
/// There is no memory for the text.
pub fn string_at_front<'a>(
    alloc: Global,
    text: &'a str,
) -> Result<Option<(String, &'a str)>, AllocError> {
    let Some(("", _, behind)) = first_string(text) else {
        return Ok(None);
    };
    let string = text.strip_suffix(behind).unwrap_or("");
    match text_of(alloc, string)? {
        Some(text) => Ok(Some((text, behind))),
        None => Ok(None),
    }
}

/// The decimal number at the front of a text, and what is after it.
fn number_at_front(text: &str) -> Option<(usize, &str)> {
    let mut chars = text.chars();
    let mut found = None;
    while let Some(c) = chars.next() {
        let Some(digit) = c.to_digit(10) else {
            break;
        };
        let (number, _) = found.unwrap_or((0usize, text));
        let number = number
            .checked_mul(10)?
            .checked_add(usize::try_from(digit).ok()?)?;
        found = Some((number, chars.as_str()));
    }
    found
}

/// How often the string comes that ends before a text, and what is after that.
fn times_at_front(text: &str) -> (usize, &str) {
    let Some(count) = text.strip_prefix('*') else {
        return (1, text);
    };
    number_at_front(count).unwrap_or((1, text))
}

/// A line in which each string that `*` and a number follow is written out: `"ab"*3` as `"ababab"`.
///
/// # Errors
///
/// There is no memory for the line.
pub fn written_out(alloc: Global, line: &str) -> Result<String, AllocError> {
    let mut whole = String::new(alloc);
    let mut rest = line;
    for _ in 0..line.len() {
        let Some((front, content, behind)) = first_string(rest) else {
            break;
        };
        let (times, behind) = times_at_front(behind);
        let content = content.repeat(alloc, times)?;
        write!(whole, "{front}\"{content}\"")?;
        rest = behind;
    }
    whole.push_str(rest)?;
    Ok(whole)
}
