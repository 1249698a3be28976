//! Definitions of links, which no event covers: they are between blocks.

use crate::link::push_title;
use crate::page::Kind;
use crate::piece::blanks;
use crate::printer::Printer;
use std::alloc::{AllocError, Global};
use tocmark_read_tokens::word::{Definition, Word, definition_at};

/// A definition, where it begins, and whether an empty line is before it.
#[derive(Clone, Copy)]
struct Found {
    definition: Definition,
    start: usize,
    is_apart: bool,
}

/// A word as it is spelled, with what is round it.
fn spelled(text: &str, word: Word) -> &str {
    let from = if word.next > word.end {
        word.start.saturating_sub(1)
    } else {
        word.start
    };
    text.get(from..word.next).unwrap_or("")
}

/// Whether a definition leads nowhere: such ones are comments, or commands of other programs.
fn is_comment(text: &str, definition: &Definition) -> bool {
    let destination = spelled(text, definition.destination);
    destination == "#" || destination == "<>"
}

/// The definitions in a text; none if something else is in it, too.
fn found_in(alloc: Global, text: &str) -> Result<Option<Vec<Found>>, AllocError> {
    let mut all = Vec::new(alloc);
    if add_found(&mut all, text)? {
        Ok(Some(all))
    } else {
        Ok(None)
    }
}

/// Adds the definitions in a text; false if something else is in it, too.
fn add_found(all: &mut Vec<Found>, text: &str) -> Result<bool, AllocError> {
    let mut at = 0usize;
    for _ in 0..text.len() {
        let rest = text.get(at..).unwrap_or("");
        let bare = rest.trim_start_matches(&[' ', '\t', '\n']);
        if bare.is_empty() {
            break;
        }
        let white = rest.len().saturating_sub(bare.len());
        let is_apart = rest.get(..white).unwrap_or("").contains('\n');
        let start = at.saturating_add(white);
        let Some(definition) = definition_at(text.as_bytes(), start) else {
            return Ok(false);
        };
        all.push(Found {
            definition,
            start,
            is_apart,
        })?;
        at = definition.next;
    }
    Ok(true)
}

/// Adds words with one blank for each stretch of white space.
fn push_collapsed(line: &mut String, words: &str) -> Result<(), AllocError> {
    let mut is_behind_blank = false;
    let mut is_first = true;
    for character in words.chars() {
        if character == ' ' || character == '\t' || character == '\n' {
            is_behind_blank = true;
            continue;
        }
        if is_behind_blank && !is_first {
            line.push(' ')?;
        }
        line.push(character)?;
        is_behind_blank = false;
        is_first = false;
    }
    Ok(())
}

/// Adds a definition that is in a text.
fn push_definition(
    whole: &mut String,
    text: &str,
    definition: &Definition,
) -> Result<(), AllocError> {
    let label = definition.label;
    whole.push('[')?;
    push_collapsed(whole, text.get(label.start..label.end).unwrap_or(""))?;
    whole.push_str("]: ")?;
    whole.push_str(spelled(text, definition.destination))?;
    let title = spelled(text, definition.title);
    if title.is_empty() {
        return Ok(());
    }
    whole.push(' ')?;
    push_title(whole, title)
}

/// Whether all bytes are blanks, tabs and line feeds.
fn are_white(bytes: &[u8]) -> bool {
    bytes
        .iter()
        .all(|byte| matches!(*byte, b' ' | b'\t' | b'\n'))
}

impl Printer<'_> {
    /// Prints the definitions of links that are before a place of the source and after what is printed of the innermost
    /// container.
    pub(crate) fn print_gap(&mut self, end: usize) -> Result<(), AllocError> {
        let source = self.source;
        let top = self.page.top();
        let mut from = top.at();
        if top.kind == Kind::List || from >= end {
            return Ok(());
        }
        if from > source.line_start(from) && from != top.content() {
            from = source.line_end(from).saturating_add(1);
        }
        self.page.top_mut().set_at(end);
        if are_white(source.bytes(from, end)) {
            return Ok(());
        }
        self.keep_lazy_definitions(from, end);
        let text = self.gap_text(from, end)?;
        self.print_gap_text(text.as_str(), from, end)
    }

    /// Prints the lines of a gap between two places of the source, if they aren't empty.
    fn print_gap_text(&mut self, text: &str, from: usize, end: usize) -> Result<(), AllocError> {
        let bare = text.trim_start_matches(&[' ', '\t', '\n']);
        if bare.is_empty() {
            return Ok(());
        }
        let white = text.len().saturating_sub(bare.len());
        let is_apart = text.get(..white).unwrap_or("").contains('\n');
        // a blank line ends that, unless the lines of the block at the top are kept anyway
        self.goes_on = self.goes_on && (self.has_misread || !is_apart);
        self.begin_definitions(is_apart, from, end.min(self.source.text.len()))?;
        let inner = bare.trim_end_matches(&[' ', '\t', '\n']);
        if self.goes_on {
            // to other programs they are text
            self.print_spelled(inner)?;
        } else {
            self.print_definitions(inner)?;
        }
        self.finish(Kind::Definitions, end)
    }

    /// The whole lines between two places of the source, without what their containers have before them.
    fn gap_text(&self, from: usize, end: usize) -> Result<String, AllocError> {
        let mut text = String::new(self.alloc);
        self.push_gap(&mut text, from, end)?;
        Ok(text)
    }

    /// Adds these lines to a text.
    fn push_gap(&self, text: &mut String, from: usize, end: usize) -> Result<(), AllocError> {
        let source = self.source;
        let mut at = from;
        for _ in from..end {
            let line_end = source.line_end(at);
            if at >= source.text.len() || line_end >= end {
                break;
            }
            if at == source.line_start(at) {
                let place = self.page.stripped(source, at);
                text.push_str(blanks(place.spare))?;
                at = place.at;
            }
            text.push_str(source.slice(at.min(line_end), line_end))?;
            text.push('\n')?;
            at = line_end.saturating_add(1);
        }
        Ok(())
    }

    /// Prints a definition: a line, and one for each further line of its title.
    fn print_definition(&mut self, text: &str, definition: &Definition) -> Result<(), AllocError> {
        let mut whole = String::new(self.alloc);
        push_definition(&mut whole, text, definition)?;
        for line in whole.as_str().split('\n') {
            self.page.line(line.trim_start_matches(&[' ', '\t']))?;
        }
        Ok(())
    }

    /// Prints lines as they are spelled, without blanks at their ends.
    fn print_spelled(&mut self, text: &str) -> Result<(), AllocError> {
        for line in text.split('\n') {
            self.page.line(line.trim_end_matches(&[' ', '\t']))?;
        }
        Ok(())
    }

    /// Prints definitions, with an empty line where there are some between them. Comments stay as they are spelled, and
    /// so do lines in which something else is, too.
    fn print_definitions(&mut self, text: &str) -> Result<(), AllocError> {
        if self.look.is_literal {
            return self.print_spelled(text);
        }
        match found_in(self.alloc, text)? {
            Some(found) => self.print_found(text, &found),
            None => self.print_spelled(text),
        }
    }

    /// Prints the definitions that were found in a text.
    fn print_found(&mut self, text: &str, found: &[Found]) -> Result<(), AllocError> {
        for one in found {
            if one.is_apart && !self.page.top().is_tight {
                self.page.blank()?;
            }
            if is_comment(text, &one.definition) {
                let spelled = text.get(one.start..one.definition.next).unwrap_or("");
                self.print_spelled(spelled.trim_end_matches(&[' ', '\t', '\n']))?;
            } else {
                self.print_definition(text, &one.definition)?;
            }
        }
        Ok(())
    }
}
