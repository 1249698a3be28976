//! Tables: columns of one width, if the whole isn't too wide, or if the source has them so.

use crate::part::{Mark, Part};
use crate::piece::{blanks, push_repeated};
use crate::printer::Printer;
use crate::source::{is_blank, without_blanks, without_end_blanks};
use crate::style::Tables;
use crate::width::width;
use std::alloc::{AllocError, Global};
use tocmark_event::event::{Alignment, TagEnd};

/// The cells of a table, row by row. Each row has as many as the table has columns.
#[derive(Drop)]
struct Cells {
    text: String,
    /// Where each cell ends in the text. It begins where the one before it ends.
    ends: Vec<usize>,
    columns: usize,
}

/// The cells of a table may take this many bytes, whatever its size.
const FREE_CELLS: usize = 4096;

/// The row of dashes below the head, for a column of this width.
fn push_dashes(line: &mut String, alignment: Alignment, width: usize) -> Result<(), AllocError> {
    let (left, right) = match alignment {
        Alignment::None => (false, false),
        Alignment::Left => (true, false),
        Alignment::Center => (true, true),
        Alignment::Right => (false, true),
    };
    let colons = usize::from(left).saturating_add(usize::from(right));
    if left {
        line.push(':')?;
    }
    push_repeated(line, '-', width.saturating_sub(colons))?;
    if right { line.push(':') } else { Ok(()) }
}

/// The row of dashes for columns of these widths, after its first bar.
fn push_delimiters(
    line: &mut String,
    alignments: &[Alignment],
    widths: &[usize],
) -> Result<(), AllocError> {
    for (alignment, width) in alignments.iter().zip(widths) {
        line.push(' ')?;
        push_dashes(line, *alignment, (*width).max(3))?;
        line.push_str(" |")?;
    }
    Ok(())
}

/// A cell with this text in a column of this width.
fn push_cell(
    line: &mut String,
    text: &str,
    alignment: Alignment,
    column: usize,
) -> Result<(), AllocError> {
    let spare = column.saturating_sub(width(text));
    let before = match alignment {
        Alignment::Right => spare,
        Alignment::Center => spare / 2,
        _ => 0,
    };
    if text.is_empty() && column == 0 {
        return line.push_str(" |");
    }
    line.push(' ')?;
    push_repeated(line, ' ', before)?;
    line.push_str(text)?;
    push_repeated(line, ' ', spare.saturating_sub(before))?;
    line.push_str(" |")
}

/// Where the first cell of a row ends: at the first bar without a backslash.
fn cell_end(row: &str) -> usize {
    let mut is_escaped = false;
    for (at, byte) in row.as_bytes().iter().enumerate() {
        if *byte == b'|' && !is_escaped {
            return at;
        }
        is_escaped = *byte == b'\\' && !is_escaped;
    }
    row.len()
}

/// How the bars of two rows lie to one another.
#[derive(Clone, Copy, PartialEq, Eq)]
enum Bars {
    /// Some aren't in the same columns.
    Apart,
    /// Only those differ that close the rows, or there are none that do.
    Ragged,
    Same,
}

/// How the bars of two rows lie to one another.
fn bars_of(first: &str, second: &str) -> Bars {
    let mut rests = (first, second);
    for _ in 0..=first.len() {
        let (one, two) = rests;
        let ends = (cell_end(one), cell_end(two));
        let cells = (
            one.get(..ends.0).unwrap_or(""),
            two.get(..ends.1).unwrap_or(""),
        );
        let are_same = width(cells.0) == width(cells.1);
        let behind = (
            one.get(ends.0.saturating_add(1)..),
            two.get(ends.1.saturating_add(1)..),
        );
        rests = match behind {
            (Some(""), Some("")) => return if are_same { Bars::Same } else { Bars::Ragged },
            (Some(one), Some(two)) if are_same => (one, two),
            (None, None) => return Bars::Ragged,
            _ => return Bars::Apart,
        };
    }
    Bars::Same
}

/// Whether a row with columns of these widths is wider than this.
fn is_wider(widths: &[usize], limit: usize) -> bool {
    let mut whole = 1usize;
    for width in widths {
        whole = whole.saturating_add(*width).saturating_add(3);
    }
    whole > limit
}

impl Cells {
    fn new(alloc: Global, columns: usize) -> Cells {
        Cells {
            text: String::new(alloc),
            ends: Vec::new(alloc),
            columns,
        }
    }

    fn add(&mut self, text: &str) -> Result<(), AllocError> {
        self.text.push_str(text)?;
        self.ends.push(self.text.len())?;
        Ok(())
    }

    /// Takes all cells away, and gives back their room as `Part::let_go` does.
    fn let_go(&mut self) {
        self.text.truncate(0);
        self.text.shrink_to(1);
        self.ends.truncate(0);
        self.ends.shrink_to(1);
    }

    /// How many rows there are.
    fn rows(&self) -> usize {
        self.ends.len().checked_div(self.columns).unwrap_or(0)
    }

    /// Whether the last row has all of its cells.
    fn is_whole(&self) -> bool {
        self.ends.len() == self.rows().saturating_mul(self.columns)
    }

    /// Whether the cells would take more than four times the table's size in bytes, and 4 KiB more. Each takes at least two
    /// bytes. Only the cells that its rows lack make a table so large.
    fn outgrow(&self, size: usize) -> bool {
        let least = self.ends.len().saturating_mul(2);
        least > size.saturating_mul(4).saturating_add(FREE_CELLS)
    }

    /// The text of a cell.
    fn cell(&self, row: usize, column: usize) -> &str {
        let at = row.saturating_mul(self.columns).saturating_add(column);
        let from = match at.checked_sub(1) {
            Some(before) => self.ends.get(before).copied().unwrap_or(0),
            None => 0,
        };
        let end = self.ends.get(at).copied().unwrap_or(from);
        self.text.as_str().get(from..end).unwrap_or("")
    }

    /// The width of each column.
    fn widths(&self, alloc: Global) -> Result<Vec<usize>, AllocError> {
        let mut widths = Vec::with_capacity(alloc, self.columns)?;
        for column in 0..self.columns {
            let mut widest = 3usize;
            for row in 0..self.rows() {
                widest = widest.max(width(self.cell(row, column)));
            }
            widths.push(widest)?;
        }
        Ok(widths)
    }

    fn push_row(
        &self,
        line: &mut String,
        row: usize,
        alignments: &[Alignment],
        widths: &[usize],
    ) -> Result<(), AllocError> {
        line.push('|')?;
        for (column, (alignment, width)) in alignments.iter().zip(widths).enumerate() {
            push_cell(line, self.cell(row, column), *alignment, *width)?;
        }
        Ok(())
    }
}

impl Printer<'_> {
    /// Adds the cell with these events, after which its End is. One without events stays as it
    /// is spelled.
    fn add_cell(
        &mut self,
        cells: &mut Cells,
        part: &Part,
        events: (usize, usize),
    ) -> Result<(), AllocError> {
        let (start, end) = part.range(events.1);
        if events.0 == events.1 {
            return cells.add(without_blanks(self.source.slice(start, end)));
        }
        let text = self.source.past_blanks(start);
        let (pieces, _) = self.pieces_of(part, events, text)?;
        let added = cells.add(pieces.text.as_str());
        self.keep_room(pieces);
        added
    }

    /// Whether the delimiter row of a table begins like an item. To `cmark-gfm` it is one.
    fn has_row_like_item(&self, start: usize) -> bool {
        let source = self.source;
        let row = source.start_of(source.line_of(start).saturating_add(1));
        let text = source.past_blanks(self.page.stripped(source, row).at);
        source.byte(text) == b'-' && is_blank(source.byte(text.saturating_add(1)))
    }

    /// Whether a cell of the delimiter row is more or less than dashes with a colon at an end. To `cmark-gfm` that is no such
    /// row.
    fn has_odd_dashes(&self, start: usize) -> bool {
        let source = self.source;
        let row = source.line(source.line_of(start).saturating_add(1));
        for cell in row.trim_start_matches(&[' ', '\t', '>']).split('|') {
            let cell = without_blanks(cell);
            let behind = cell.strip_prefix(':').unwrap_or(cell);
            let dashes = behind.strip_suffix(':').unwrap_or(behind);
            let is_colon = dashes.is_empty() && !cell.is_empty();
            if is_colon || !dashes.trim_start_matches('-').is_empty() {
                return true;
            }
        }
        false
    }

    /// Whether other programs read no table there, or a shorter one.
    pub(crate) fn is_read_otherwise(&self, start: usize, end: usize) -> bool {
        self.has_row_like_item(start) || self.has_odd_dashes(start) || self.has_deep_row(start, end)
    }

    /// Adds the cells of a table. `Ok(false)`: a row has more of them than the head, and no event has those, or it has fewer.
    fn add_cells(&mut self, cells: &mut Cells, part: &Part, at: usize) -> Result<bool, AllocError> {
        let mut first = at.saturating_add(1);
        let mut cell_end = 0usize;
        for inner in first..part.end(at) {
            let (_, end) = part.range(inner);
            match part.event(inner) {
                Some(Mark::End(TagEnd::TableCell)) => {
                    self.add_cell(cells, part, (first, inner))?;
                    cell_end = end;
                }
                Some(Mark::End(TagEnd::TableHead | TagEnd::TableRow)) => {
                    let rest = self.source.slice(cell_end, end);
                    if !rest.trim_matches(&['|', ' ', '\t', '\n']).is_empty() {
                        return Ok(false);
                    }
                    if !cells.is_whole() {
                        return Ok(false);
                    }
                }
                _ => continue,
            }
            first = inner.saturating_add(1);
        }
        Ok(true)
    }

    /// How the bars of a table are to one another in the source.
    fn bars(&self, start: usize, end: usize) -> Bars {
        let source = self.source;
        let head = without_blanks(source.slice(start, source.line_end(start)));
        let first = source.line_of(start).saturating_add(1);
        let last = source.line_of(end.saturating_sub(1));
        let mut bars = Bars::Same;
        for line in first..=last {
            let row = source.line(line).trim_start_matches(&[' ', '\t', '>']);
            match bars_of(head, without_blanks(row)) {
                Bars::Apart => return Bars::Apart,
                Bars::Ragged => bars = Bars::Ragged,
                Bars::Same => {}
            }
        }
        bars
    }

    /// The width of each column; 0 for one that isn't padded. In a table that is too wide, columns are padded only if they are
    /// aligned in the source.
    fn column_widths(
        &self,
        cells: &Cells,
        range: (usize, usize),
    ) -> Result<Vec<usize>, AllocError> {
        let mut widths = cells.widths(self.alloc)?;
        if !is_wider(&widths, self.look.table_width) {
            return Ok(widths);
        }
        let padded = match self.bars(range.0, range.1) {
            Bars::Same => widths.len(),
            Bars::Ragged => widths.len().saturating_sub(1),
            Bars::Apart => 0,
        };
        for width in widths.iter_mut().skip(padded) {
            *width = 0;
        }
        Ok(widths)
    }

    /// Prints the rows of a table as they are in the source, without blanks at their ends.
    fn print_own_rows(&mut self, start: usize, end: usize) -> Result<(), AllocError> {
        let source = self.source;
        let first = source.line_of(start);
        let last = source.line_of(end.saturating_sub(1));
        for line in first..=last {
            let place = if line == first {
                self.page.front(source, start)
            } else {
                self.page.stripped(source, source.start_of(line))
            };
            let row = source.slice(place.at, source.line_end(place.at));
            self.page
                .line_with(blanks(place.spare), without_end_blanks(row))?;
        }
        Ok(())
    }

    fn print_rows(
        &mut self,
        cells: &Cells,
        alignments: &[Alignment],
        range: (usize, usize),
    ) -> Result<(), AllocError> {
        let widths = self.column_widths(cells, range)?;
        let mut line = String::new(self.alloc);
        for row in 0..cells.rows() {
            self.print_row(&mut line, cells, row, (alignments, &widths))?;
        }
        Ok(())
    }

    /// Prints a row, and below the head that of dashes. `line` has room for each.
    fn print_row(
        &mut self,
        line: &mut String,
        cells: &Cells,
        row: usize,
        columns: (&[Alignment], &[usize]),
    ) -> Result<(), AllocError> {
        let (alignments, widths) = columns;
        line.truncate(0);
        cells.push_row(line, row, alignments, widths)?;
        self.page.line(line.as_str())?;
        if row > 0 {
            return Ok(());
        }
        line.truncate(0);
        line.push('|')?;
        push_delimiters(line, alignments, widths)?;
        self.page.line(line.as_str())
    }

    /// Prints a table with columns of one width. It keeps its lines if one of its cells is in no event, or if its rows lack
    /// so many cells that the output would be far longer.
    fn print_with(&mut self, cells: &mut Cells, part: &Part, at: usize) -> Result<(), AllocError> {
        let (start, end) = part.range(at);
        if self.add_cells(cells, part, at)? && !cells.outgrow(end.saturating_sub(start)) {
            self.print_rows(cells, part.alignments(at), (start, end))
        } else {
            self.print_lines(start, end)
        }
    }

    pub(crate) fn print_table(&mut self, part: &Part, at: usize) -> Result<(), AllocError> {
        if self.look.tables == Tables::Source {
            let (start, end) = part.range(at);
            return self.print_own_rows(start, end);
        }
        let mut cells = Cells::new(self.alloc, part.alignments(at).len());
        let printed = self.print_with(&mut cells, part, at);
        cells.let_go();
        printed
    }
}
