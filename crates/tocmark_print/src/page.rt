//! What is printed, and the containers that are open in it.

use crate::part::short;
use crate::piece::{cut_blanks, push_repeated};
use crate::source::{Source, is_blank};
use crate::width::width;
use std::alloc::{AllocError, Global};

/// What a block is.
#[derive(Clone, Copy, PartialEq, Eq)]
pub(crate) enum Kind {
    Document,
    Quote,
    List,
    Item,
    Footnote,
    DefinitionList,
    Definition,
    /// The title of a definition list.
    Title,
    Paragraph,
    Heading,
    Code,
    Html,
    Table,
    Rule,
    Metadata,
    /// Definitions of links.
    Definitions,
    /// Lines that a comment keeps.
    Kept,
    /// Lines of another dialect.
    Foreign,
}

/// What a container has before its lines.
#[derive(Clone, Copy)]
enum Lead {
    Nothing,
    /// `> `
    Quote,
    Blanks(usize),
}

/// A container that is open. Its numbers are short, because one line may open a container for each two bytes.
#[derive(Clone, Copy)]
pub(crate) struct Frame {
    /// How long its sign is among those of the page. It is before its first line, if that has something else there than the
    /// others.
    sign_length: u32,
    /// How many columns an item, a footnote or a definition has before each of its lines in the source.
    columns: u32,
    /// Where its content begins in the source, the column of that place on its line, and where it ends.
    content: u32,
    column: u32,
    end: u32,
    /// The place in the source after what is printed of it.
    at: u32,
    /// Of a list with numbers, that of its next item.
    pub(crate) number: u32,
    pub(crate) kind: Kind,
    pub(crate) is_tight: bool,
    /// Whether blank lines are only beside definitions of links, in a list and in its items.
    pub(crate) is_close: bool,
    /// Whether blank lines are only where the source has them: in a list that has some, and in its items.
    pub(crate) keeps_gaps: bool,
    /// Whether its first line is printed.
    pub(crate) is_used: bool,
    /// The last block in it.
    pub(crate) last: Option<Kind>,
    /// Of the list that is its last block, the sign of its items.
    pub(crate) last_marker: u8,
    /// Of a list, the sign of its items: a bullet, or what is after numbers.
    pub(crate) marker: u8,
}

impl Frame {
    /// A container whose content begins at a place, and which has no sign and no columns.
    pub(crate) fn new(kind: Kind, content: usize, end: usize) -> Frame {
        Frame {
            sign_length: 0,
            columns: 0,
            content: short(content),
            column: 0,
            end: short(end),
            at: short(content),
            number: 0,
            kind,
            is_tight: false,
            is_close: false,
            keeps_gaps: false,
            is_used: false,
            last: None,
            last_marker: 0,
            marker: 0,
        }
    }

    /// The same container with its content's column, and with as many columns before its lines in the source.
    pub(crate) fn at_columns(self, column: usize, columns: usize) -> Frame {
        Frame {
            column: short(column),
            columns: short(columns),
            ..self
        }
    }

    /// Where its content begins in the source.
    pub(crate) fn content(&self) -> usize {
        self.content as usize
    }

    /// Where it ends in the source.
    pub(crate) fn end(&self) -> usize {
        self.end as usize
    }

    /// The place in the source after what is printed of it.
    pub(crate) fn at(&self) -> usize {
        self.at as usize
    }

    /// Notes that it is printed up to a place of the source.
    pub(crate) fn set_at(&mut self, at: usize) {
        self.at = short(at);
    }

    /// Whether it has a sign that isn't printed yet.
    pub(crate) fn owes_sign(&self) -> bool {
        !self.is_used && (self.sign_length > 0 || self.kind == Kind::Quote)
    }

    /// Whether it is a list with numbers.
    pub(crate) fn is_numbered(&self) -> bool {
        matches!(self.marker, b'.' | b')')
    }

    /// Its sign and those after it, of signs that begin with its own.
    fn split_sign<'s>(&self, signs: &'s str) -> (&'s str, &'s str) {
        let length = self.sign_length as usize;
        (
            signs.get(..length).unwrap_or(""),
            signs.get(length..).unwrap_or(""),
        )
    }

    /// What is before its lines, but for the sign before the first one.
    fn lead(&self) -> Lead {
        match self.kind {
            Kind::Quote => Lead::Quote,
            Kind::Item => Lead::Blanks(self.sign_length as usize),
            Kind::Footnote | Kind::Definition => Lead::Blanks(self.columns as usize),
            _ => Lead::Nothing,
        }
    }

    /// Puts after a text what is before its next line; it is given its sign.
    fn push_prefix(&mut self, text: &mut String, sign: &str) -> Result<(), AllocError> {
        let is_first = !self.is_used && self.sign_length > 0;
        self.is_used = true;
        if is_first {
            text.push_str(sign)
        } else {
            push_lead(text, self.lead())
        }
    }

    /// How many columns are before its next line, and before each line after it; it is given its sign.
    fn prefix_columns(&self, sign: &str) -> (usize, usize) {
        let others = match self.lead() {
            Lead::Nothing => 0,
            Lead::Quote => 2,
            Lead::Blanks(count) => count,
        };
        if self.is_used || self.sign_length == 0 {
            (others, others)
        } else {
            (width(sign), others)
        }
    }

    /// Passes what it has before a line of the source; whether that is there.
    fn is_passed(&self, cursor: &mut Cursor, source: &Source<'_>) -> bool {
        let before = *cursor;
        let is_passed = if self.kind == Kind::Quote {
            cursor.pass_quote(source)
        } else {
            let columns = self.columns as usize;
            cursor.pass_blanks(source, columns) == columns
        };
        if !is_passed {
            *cursor = before;
        }
        is_passed
    }
}

/// Takes from a text what is after a byte.
fn cut(text: &mut String, start: usize) {
    for _ in start..text.len() {
        if text.len() <= start {
            break;
        }
        text.pop();
    }
}

fn push_lead(text: &mut String, lead: Lead) -> Result<(), AllocError> {
    match lead {
        Lead::Nothing => Ok(()),
        Lead::Quote => text.push_str("> "),
        Lead::Blanks(count) => push_repeated(text, ' ', count),
    }
}

/// Where a line goes on after the prefixes of its containers.
#[derive(Clone, Copy)]
pub(crate) struct Place {
    pub(crate) at: usize,
    /// Its column on the line, and the columns of a tab that are left over there.
    pub(crate) column: usize,
    pub(crate) spare: usize,
    /// Whether the line has the prefixes of all containers.
    pub(crate) is_met: bool,
}

/// A cursor over the columns of a line.
#[derive(Clone, Copy)]
struct Cursor {
    at: usize,
    column: usize,
    spare: usize,
}

impl Cursor {
    fn place(self, is_met: bool) -> Place {
        Place {
            at: self.at,
            column: self.column,
            spare: self.spare,
            is_met,
        }
    }

    /// Passes at most so many columns of blanks; how many were there.
    fn pass_blanks(&mut self, source: &Source<'_>, most: usize) -> usize {
        let mut passed = 0usize;
        for _ in 0..most {
            if self.spare == 0 {
                let byte = source.byte(self.at);
                if !is_blank(byte) {
                    break;
                }
                self.spare = if byte == b'\t' {
                    4usize.saturating_sub(self.column % 4)
                } else {
                    1
                };
                self.at = self.at.saturating_add(1);
            }
            self.spare = self.spare.saturating_sub(1);
            self.column = self.column.saturating_add(1);
            passed = passed.saturating_add(1);
        }
        passed
    }

    /// Passes the sign of a quote, with up to three columns before it and one after it; whether there is one.
    fn pass_quote(&mut self, source: &Source<'_>) -> bool {
        self.pass_blanks(source, 3);
        if self.spare > 0 || source.byte(self.at) != b'>' {
            return false;
        }
        self.at = self.at.saturating_add(1);
        self.column = self.column.saturating_add(1);
        self.pass_blanks(source, 1);
        true
    }
}

/// The text that is printed so far, and the containers that are open.
#[derive(Drop)]
pub(crate) struct Page {
    pub(crate) alloc: Global,
    pub(crate) text: String,
    /// The containers round the innermost one, the document first.
    outer: Vec<Frame>,
    /// The innermost container.
    top: Frame,
    /// The signs of the open containers, one after the other.
    signs: String,
    /// How many bytes of prefixes may still come.
    budget: usize,
    /// Whether no more lines come: more prefixes would have come than may, or the block will be printed anew.
    is_over: bool,
}

impl Page {
    /// The page of a document that ends here.
    pub(crate) fn new(alloc: Global, end: usize) -> Page {
        Page {
            alloc,
            text: String::new(alloc),
            outer: Vec::new(alloc),
            top: Frame::new(Kind::Document, 0, end),
            signs: String::new(alloc),
            budget: usize::MAX,
            is_over: false,
        }
    }

    /// What is printed.
    pub(crate) fn into_text(self) -> String {
        let Page { text, .. } = self;
        text
    }

    /// The innermost container.
    pub(crate) fn top(&self) -> &Frame {
        &self.top
    }

    pub(crate) fn top_mut(&mut self) -> &mut Frame {
        &mut self.top
    }

    /// The sign of the innermost container.
    pub(crate) fn sign(&self) -> &str {
        let from = self.start_of_sign();
        self.signs.as_str().get(from..).unwrap_or("")
    }

    /// Where the sign of the innermost container begins: it is the last one.
    fn start_of_sign(&self) -> usize {
        let length = self.top.sign_length as usize;
        self.signs.len().saturating_sub(length)
    }

    /// How many containers are open in the document.
    pub(crate) fn depth(&self) -> usize {
        self.outer.len()
    }

    /// Makes room for so many containers, so that no more is taken while they open.
    pub(crate) fn make_room(&mut self, count: usize) -> Result<(), AllocError> {
        self.outer.reserve(count)
    }

    /// Opens a container with a sign, or with an empty one.
    pub(crate) fn open(&mut self, frame: Frame, sign: &str) -> Result<(), AllocError> {
        self.signs.push_str(sign)?;
        self.outer.push(self.top)?;
        self.top = Frame {
            sign_length: short(sign.len()),
            ..frame
        };
        Ok(())
    }

    /// Closes the innermost container, unless it is the document.
    pub(crate) fn close(&mut self) {
        let start = self.start_of_sign();
        if let Some(outer) = self.outer.pop() {
            cut(&mut self.signs, start);
            self.top = outer;
        }
    }

    /// Lets so many bytes of prefixes come from here on.
    pub(crate) fn limit(&mut self, budget: usize) {
        self.budget = budget;
        self.is_over = false;
    }

    /// Lets no more lines come until the next limit.
    pub(crate) fn stop(&mut self) {
        self.is_over = true;
    }

    /// Whether no more lines come.
    pub(crate) fn is_over(&self) -> bool {
        self.is_over
    }

    /// Takes back what is printed after a byte.
    pub(crate) fn take_back(&mut self, start: usize) {
        cut(&mut self.text, start);
    }

    /// Puts `***` in place of the last line if that is `---`.
    pub(crate) fn replace_dashes(&mut self) -> Result<(), AllocError> {
        if !self.text.as_str().ends_with("\n---\n") {
            return Ok(());
        }
        let start = self.text.len().saturating_sub(4);
        cut(&mut self.text, start);
        self.text.push_str("***\n")
    }

    /// How many columns the containers have before the next line, and before each line after it.
    pub(crate) fn prefix_columns(&self) -> (usize, usize) {
        let mut signs = self.signs.as_str();
        let (mut first, mut others) = self.top.prefix_columns(self.sign());
        for frame in self.outer.iter() {
            let (sign, rest) = frame.split_sign(signs);
            signs = rest;
            let (next, after) = frame.prefix_columns(sign);
            first = first.saturating_add(next);
            others = others.saturating_add(after);
        }
        (first, others)
    }

    /// Whether the next line has the marker of an item and, after it, that of a block quote.
    pub(crate) fn quotes_beside_marker(&self) -> bool {
        let mut has_marker = false;
        for frame in self.outer.iter() {
            if has_marker && frame.kind == Kind::Quote {
                return true;
            }
            has_marker = has_marker || (frame.kind == Kind::Item && frame.owes_sign());
        }
        has_marker && self.top.kind == Kind::Quote
    }

    /// Whether the innermost list is the first block of an item, on a line of the source below the item's marker. It moves
    /// up beside that. A footnote and a definition have markers, too.
    pub(crate) fn moves_up(&self, source: &Source<'_>) -> bool {
        match self.outer.last() {
            Some(item) => {
                let start = source.line_start(self.top.content());
                item.sign_length > 0 && item.last.is_none() && item.content() <= start
            }
            None => false,
        }
    }

    /// Puts after the text what the containers have before the next line. From here on their first lines are printed.
    fn push_prefixes(&mut self) -> Result<(), AllocError> {
        let mut signs = self.signs.as_str();
        for frame in self.outer.iter_mut() {
            let (sign, rest) = frame.split_sign(signs);
            signs = rest;
            frame.push_prefix(&mut self.text, sign)?;
        }
        self.top.push_prefix(&mut self.text, signs)
    }

    /// Starts a line; how many bytes the containers have before it.
    fn start_line(&mut self) -> Result<usize, AllocError> {
        let start = self.text.len();
        self.push_prefixes()?;
        let prefix = self.text.len().saturating_sub(start);
        self.is_over = prefix > self.budget;
        self.budget = self.budget.saturating_sub(prefix);
        Ok(prefix)
    }

    /// Prints a line of what the containers have before it alone, with the blanks at its end.
    pub(crate) fn bare_line(&mut self) -> Result<(), AllocError> {
        if self.is_over {
            return Ok(());
        }
        self.start_line()?;
        self.text.push('\n')
    }

    /// Prints a line after what the containers have before it; no blanks are at the end of one without a text.
    pub(crate) fn line(&mut self, line: &str) -> Result<(), AllocError> {
        self.line_with(line, "")
    }

    /// Prints a line as `line` does, with a tail.
    pub(crate) fn line_with(&mut self, line: &str, tail: &str) -> Result<(), AllocError> {
        if self.is_over {
            return Ok(());
        }
        let prefix = self.start_line()?;
        if line.is_empty() && tail.is_empty() {
            cut_blanks(&mut self.text, prefix);
        }
        self.text.push_str(line)?;
        self.text.push_str(tail)?;
        self.text.push('\n')
    }

    /// Prints an empty line between two blocks.
    pub(crate) fn blank(&mut self) -> Result<(), AllocError> {
        if self.is_over {
            return Ok(());
        }
        let start = self.text.len();
        for frame in &self.outer {
            push_lead(&mut self.text, frame.lead())?;
        }
        push_lead(&mut self.text, self.top.lead())?;
        let prefix = self.text.len().saturating_sub(start);
        cut_blanks(&mut self.text, prefix);
        self.text.push('\n')
    }

    /// Where a line of the source goes on after the prefixes of the open containers.
    pub(crate) fn stripped(&self, source: &Source<'_>, line_start: usize) -> Place {
        let mut cursor = Cursor {
            at: line_start,
            column: 0,
            spare: 0,
        };
        for frame in self.outer.iter() {
            if !frame.is_passed(&mut cursor, source) {
                return cursor.place(false);
            }
        }
        let is_met = self.top.is_passed(&mut cursor, source);
        cursor.place(is_met)
    }

    /// Where on the line of a place a block begins that begins there: after the markers on it, or after its prefixes.
    pub(crate) fn front(&self, source: &Source<'_>, at: usize) -> Place {
        let base = source.line_start(at);
        match self.content_after(base) {
            Some((content, column)) => Place {
                at: content,
                column,
                spare: 0,
                is_met: true,
            },
            None => self.stripped(source, base),
        }
    }

    /// Where the content of the innermost container begins, and its column, if that is after a place. Lists don't count.
    fn content_after(&self, place: usize) -> Option<(usize, usize)> {
        if self.top.kind != Kind::List && self.top.content() > place {
            return Some((self.top.content(), self.top.column as usize));
        }
        for frame in self.outer.iter().rev() {
            if frame.kind != Kind::List {
                return if frame.content() > place {
                    Some((frame.content(), frame.column as usize))
                } else {
                    None
                };
            }
        }
        None
    }
}
