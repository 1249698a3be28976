//! Containers: quotes, lists, footnotes and definition lists.

use crate::page::{Frame, Kind};
use crate::part::{Mark, Opening, Part};
use crate::piece::push_repeated;
use crate::printer::Printer;
use crate::source::without_blanks;
use crate::style::{ListIndent, Numbering};
use std::alloc::AllocError;

/// The longest number that a list may have, in digits.
const DIGITS: usize = 9;

/// Another sign for the items of a list just after a list with this one.
fn other_marker(marker: u8) -> u8 {
    match marker {
        b'-' => b'*',
        b'*' | b'+' => b'-',
        b'.' => b')',
        _ => b'.',
    }
}

/// How many digits a text begins with.
fn digits_in(text: &str) -> usize {
    text.as_bytes()
        .iter()
        .take_while(|byte| byte.is_ascii_digit())
        .count()
}

/// The number of these digits.
fn number_in(digits: &str) -> u32 {
    let mut number = 0u32;
    for byte in digits.as_bytes() {
        let digit = u32::from(byte.saturating_sub(b'0'));
        number = number.saturating_mul(10).saturating_add(digit);
    }
    number
}

/// What an item has in the source: columns before its marker and after it, and where its content begins, with its column.
#[derive(Clone, Copy)]
struct ItemColumns {
    indent: usize,
    pad: usize,
    /// Whether it begins with indented code: more than one column after the marker would be code.
    begins_code: bool,
    content: usize,
    column: usize,
}

impl Printer<'_> {
    /// Opens a quote; its kind is its first line.
    fn open_quote(&mut self, range: (usize, usize), has_kind: bool) -> Result<(), AllocError> {
        let source = self.source;
        let (start, end) = range;
        let has_blank = matches!(source.byte(start.saturating_add(1)), b' ' | b'\t');
        let content = start.saturating_add(if has_blank { 2 } else { 1 });
        let column = self.column_of(start, content);
        let mut frame = Frame::new(Kind::Quote, content, end).at_columns(column, 0);
        let line_end = source.line_end(start);
        if has_kind {
            frame.set_at(line_end.saturating_add(1));
        }
        self.page.open(frame, "")?;
        if has_kind {
            self.page
                .line(without_blanks(source.slice(content, line_end)))?;
            let next = line_end.saturating_add(1);
            if next < end && self.is_apart(source.line_end(next).saturating_add(1)) {
                // with text directly below it, the line would be a kind to more programs
                self.page.line("")?;
            }
        }
        Ok(())
    }

    /// Opens a list. Its items have the style's sign, unless the block before is a list with that.
    fn open_list(&mut self, part: &Part, at: usize, is_ordered: bool) -> Result<(), AllocError> {
        let (start, end) = part.range(at);
        let digits = digits_in(self.source.slice(start, end));
        let after = start.saturating_add(digits);
        let own = self.source.byte(after);
        let wanted = if is_ordered {
            self.look.delimiter
        } else {
            self.look.bullet
        };
        let marker = wanted.unwrap_or(own);
        let top = self.page.top();
        let is_beside = top.last == Some(Kind::List) && top.last_marker == marker;
        let mut frame = Frame::new(Kind::List, start, end);
        frame.marker = if is_beside {
            other_marker(marker)
        } else {
            marker
        };
        if is_ordered {
            frame.number = number_in(self.source.slice(start, after));
        }
        frame.is_tight = !part.is_loose(at);
        frame.is_close = part.is_loose_by_definitions(at);
        frame.keeps_gaps = part.is_loose_by_gaps(at);
        self.page.open(frame, "")
    }

    /// Whether the item at a place, whose marker ends here in the source, begins with indented code.
    fn begins_code(&self, part: &Part, at: usize, after: usize) -> bool {
        let first = at.saturating_add(1);
        matches!(part.event(first), Some(Mark::Start(Opening::IndentedCode)))
            && self
                .source
                .slice(after, part.range(first).0)
                .trim_matches(&[' ', '\t', '>', '\n'])
                .is_empty()
    }

    /// What an item has in the source whose marker ends at a place.
    fn item_columns(&self, start: usize, after: usize, begins_code: bool) -> ItemColumns {
        let source = self.source;
        let front = self.page.front(source, start);
        let front_column = front.column.saturating_add(front.spare);
        let marker = source.column_at(front_column, front.at.min(start), start);
        let indent = marker.saturating_sub(front.column);
        let marker_end = source.column_at(marker, start, after);
        let content = source.past_blanks(after);
        let column = source.column_at(marker_end, after, content);
        let pad = column.saturating_sub(marker_end);
        let is_empty = source.byte(content) == b'\n';
        if pad > 4 || is_empty {
            return ItemColumns {
                indent,
                pad: 1,
                begins_code,
                content: after.saturating_add(1).min(content),
                column: marker_end.saturating_add(1),
            };
        }
        ItemColumns {
            indent,
            pad: pad.max(1),
            begins_code: false,
            content,
            column,
        }
    }

    /// Puts after a text the marker of the next item of the innermost list.
    fn push_marker(&mut self, text: &mut String, own: &str) -> Result<(), AllocError> {
        let list = self.page.top();
        let marker = char::from(list.marker);
        let number = list.number;
        if list.is_numbered() {
            let mut digits = format!(in self.alloc; "{number}")?;
            if self.look.numbering == Numbering::Source || digits.len() > DIGITS {
                digits = String::from_str(self.alloc, own)?;
            }
            text.push_str(digits.as_str())?;
            if self.look.numbering == Numbering::Increment {
                self.page.top_mut().number = number.saturating_add(1);
            }
        }
        text.push(marker)
    }

    /// The sign of the next item of the innermost list, which has these digits and columns in the source.
    fn item_sign(&mut self, own: &str, columns: ItemColumns) -> Result<String, AllocError> {
        let mut first = String::new(self.alloc);
        // beside the marker of an outer item the indent would be that item's
        if matches!(self.look.list_indent, ListIndent::Source) && !self.page.moves_up(self.source) {
            push_repeated(&mut first, ' ', columns.indent)?;
        }
        self.push_marker(&mut first, own)?;
        let pad = match self.look.list_indent {
            ListIndent::Source => columns.pad,
            ListIndent::Four if columns.begins_code => 1,
            ListIndent::Marker => 1,
            ListIndent::Four => 4usize.saturating_sub(first.len()).max(1),
        };
        push_repeated(&mut first, ' ', pad)?;
        Ok(first)
    }

    fn open_item(&mut self, part: &Part, at: usize) -> Result<(), AllocError> {
        let (start, end) = part.range(at);
        let own = self.source.slice(start, end);
        let digits = digits_in(own);
        let after = start.saturating_add(digits).saturating_add(1);
        let begins_code = self.begins_code(part, at, after);
        let columns = self.item_columns(start, after, begins_code);
        let sign = self.item_sign(own.get(..digits).unwrap_or(""), columns)?;
        let before = columns
            .indent
            .saturating_add(after.saturating_sub(start))
            .saturating_add(columns.pad);
        let list = self.page.top();
        let mut frame = Frame::new(Kind::Item, columns.content, end).at_columns(
            columns.column,
            before,
        );
        frame.is_tight = list.is_tight;
        frame.is_close = list.is_close;
        frame.keeps_gaps = list.keeps_gaps;
        self.page.open(frame, sign.as_str())
    }

    /// The column of a place after the front of a block that begins here.
    fn column_of(&self, start: usize, at: usize) -> usize {
        let front = self.page.front(self.source, start);
        let column = front.column.saturating_add(front.spare);
        self.source.column_at(column, front.at.min(start), at)
    }

    fn open_footnote(&mut self, range: (usize, usize)) -> Result<(), AllocError> {
        let (start, end) = range;
        let label = match self.source.slice(start, end).find("]:") {
            Some(at) => at.saturating_add(2),
            None => 0,
        };
        let after = start.saturating_add(label);
        let mut sign = String::from_str(self.alloc, self.source.slice(start, after))?;
        sign.push(' ')?;
        let content = self.source.past_blanks(after);
        let column = self.column_of(start, content);
        let frame = Frame::new(Kind::Footnote, content, end).at_columns(column, 4);
        self.page.open(frame, sign.as_str())
    }

    fn open_definition(&mut self, range: (usize, usize)) -> Result<(), AllocError> {
        let (start, end) = range;
        let content = self.source.past_blanks(start.saturating_add(1));
        let column = self.column_of(start, content);
        let frame = Frame::new(Kind::Definition, content, end).at_columns(column, 2);
        // a word between colons, as `:smile:`, stays one for other programs
        let has_blank = content > start.saturating_add(1);
        let sign = if has_blank { ": " } else { ":" };
        self.page.open(frame, sign)
    }

    /// Opens the container that starts at a place.
    pub(crate) fn open_container(
        &mut self,
        part: &Part,
        at: usize,
        opening: Opening,
    ) -> Result<(), AllocError> {
        let range = part.range(at);
        match opening {
            Opening::Quote { has_kind } => self.open_quote(range, has_kind),
            Opening::List { is_ordered } => self.open_list(part, at, is_ordered),
            Opening::Item => self.open_item(part, at),
            Opening::Footnote => self.open_footnote(range),
            Opening::Definition => self.open_definition(range),
            _ => {
                let frame = Frame::new(Kind::DefinitionList, range.0, range.1);
                self.page.open(frame, "")
            }
        }
    }
}
