//! A line, word by word.

use crate::line_fault::LineFault;
use crate::strings::string_at_front;
use std::alloc::Global;

const A_STRING: &str = "a string in double quotes, as in JSON";

const AN_END: &str = "the end of the line";

const A_CHARACTER: &str = "a string of one character";

/// What is left of a line: words and strings that are parted by one space, or nothing.
#[derive(Clone, Copy)]
pub struct WordsLeft<'a> {
    rest: Option<&'a str>,
    /// The byte of the line after what is left.
    end: usize,
}

/// What a table has for a name, or nothing where it hasn't the name.
fn known<T: Copy>(table: &[(&'static str, T)], name: &str) -> Option<T> {
    for (other, value) in table {
        if *other == name {
            return Some(*value);
        }
    }
    None
}

fn is_decimal(word: &str) -> bool {
    for byte in word.as_bytes() {
        if !byte.is_ascii_digit() {
            return false;
        }
    }
    !word.is_empty()
}

/// A number of decimal digits, or nothing where the word is none or is too large.
pub fn decimal(word: &str) -> Option<usize> {
    if is_decimal(word) {
        word.parse::<usize>().ok()
    } else {
        None
    }
}

/// The one character of a text.
fn only_character(text: &str) -> Option<char> {
    let mut chars = text.chars();
    match (chars.next(), chars.next()) {
        (Some(c), None) => Some(c),
        _ => None,
    }
}

impl<'a> WordsLeft<'a> {
    /// The whole line.
    pub fn new(line: &'a str) -> WordsLeft<'a> {
        WordsLeft {
            rest: Some(line),
            end: line.len(),
        }
    }

    /// Whether nothing is left.
    pub fn is_at_end(&self) -> bool {
        self.rest.is_none()
    }

    /// What is left, or an empty text.
    pub fn rest(&self) -> &'a str {
        self.rest.unwrap_or("")
    }

    /// Passes over all that is left.
    pub fn pass_all(&mut self) {
        self.rest = None;
    }

    /// The fault that something else is expected here.
    pub fn expected(&self, expected: &'static str) -> LineFault {
        let at = self.end.saturating_sub(self.rest().len());
        LineFault::Expected { expected, at }
    }

    /// Ends the line.
    ///
    /// # Errors
    ///
    /// The fault that something is left.
    pub fn end(&self) -> Result<(), LineFault> {
        match self.rest {
            None => Ok(()),
            Some("") => Err(LineFault::Expected {
                expected: AN_END,
                at: self.end.saturating_sub(1),
            }),
            Some(_) => Err(self.expected(AN_END)),
        }
    }

    /// The next word: what is before the next space.
    pub fn word(&mut self) -> &'a str {
        let rest = self.rest();
        match rest.split_once(' ') {
            Some((word, behind)) => {
                self.rest = Some(behind);
                word
            }
            None => {
                self.rest = None;
                rest
            }
        }
    }

    /// What a table has for the next word.
    ///
    /// # Errors
    ///
    /// The fault that one of the table's names is expected here.
    pub fn expect_known<T: Copy>(
        &mut self,
        table: &[(&'static str, T)],
        expected: &'static str,
    ) -> Result<T, LineFault> {
        let fault = self.expected(expected);
        match known(table, self.word()) {
            Some(value) => Ok(value),
            None => Err(fault),
        }
    }

    /// The number of decimal digits that is the next word.
    ///
    /// # Errors
    ///
    /// The fault that a number below 2^64 is expected here.
    pub fn number(&mut self, expected: &'static str) -> Result<usize, LineFault> {
        let fault = self.expected(expected);
        match decimal(self.word()) {
            Some(number) => Ok(number),
            None => Err(fault),
        }
    }

    /// Whether a string comes next.
    pub fn is_at_string(&self) -> bool {
        self.rest().starts_with('"')
    }

    /// Goes on after a string, in front of this end of the line.
    fn go_on(&mut self, behind: &'a str) -> Result<(), LineFault> {
        self.rest = Some(behind);
        match behind.strip_prefix(' ') {
            Some(next) => self.rest = Some(next),
            None if behind.is_empty() => self.rest = None,
            None => return Err(self.expected("a space behind a string")),
        }
        Ok(())
    }

    /// The next string.
    ///
    /// # Errors
    ///
    /// The fault that a string is expected here, or a space after it, or that memory ran out.
    pub fn string(&mut self, alloc: Global) -> Result<String, LineFault> {
        let fault = self.expected(A_STRING);
        let Some((text, behind)) = string_at_front(alloc, self.rest())? else {
            return Err(fault);
        };
        self.go_on(behind)?;
        Ok(text)
    }

    /// The one character of the next string.
    ///
    /// # Errors
    ///
    /// Those of `string`, and the fault that one character is expected.
    pub fn character(&mut self, alloc: Global) -> Result<char, LineFault> {
        let fault = self.expected(A_CHARACTER);
        if !self.is_at_string() {
            return Err(fault);
        }
        match only_character(self.string(alloc)?.as_str()) {
            Some(c) => Ok(c),
            None => Err(fault),
        }
    }
}
