//! Tables. First come their lines: the delimiter row below the header, the cells of the others, and which lines may be a
//! header and a row. Then come their blocks: how lines begin a table and go on with it.

ghost use Rattle.std.specs.Prelude.{◌≡◌, IfOk, false, ◌==◌, length, reverse, take_while, OnOk};
ghost use Rattle.std.specs.List.{fold, list_all};
ghost use Rattle.tocmark_read_constructs.specs.Tables.{is_delimiter_byte, no_marks, is_blank_column, column_step, alignment_of, columns_step, behind_bar, alignments_of, bare_step, is_delimiter_row, is_bar, next_bar, first_cell, cell_end, count_once, cell_count, trimmed_end, header_columns, begins_named_html, ends_table, ink_of, row_of, header_of, lengthened, row_turn, last_block, row_pushed, cell_pushed, row_put, with_table, row_taken, is_sole_line, may_have_header, fits_columns, may_delimit, tried_once, header_settled, paragraph_turned, table_begun, table_from, table_started, delimited, delimiters_taken};
ghost use Rattle.tocmark_read_page.specs.Pages.{last_piece, page, times};

use crate::blanks::{behind_blanks, trailing_blanks};
use std::alloc::{AllocError, Global};
use tocmark_event::event::Alignment;
use tocmark_read_lines::beginnings::{Tail, fence_at, heading_at, is_rule, marker_at, tail_of};
use tocmark_read_lines::cell::{
    Columns, Cursor, cell_byte, cell_place, indent_of, ink_from, is_blank_at,
};
use tocmark_read_lines::html::{HtmlKind, html_kind};
use tocmark_read_lines::line::Line;
use tocmark_read_page::leaf::{Leaf, Table};
use tocmark_read_page::line_start::{LineStart, ScannedLine};
use tocmark_read_page::packed::{block_at, push_block, set_block};
use tocmark_read_page::page::{Block, BlockKind, BlocksSoFar, HeaderLine};
use tocmark_read_page::piece::Piece;
use tocmark_read_scan::basic::{byte_at, bytes_between, rest};

/// The marks of a column of a delimiter row so far.
#[derive(Clone, Copy)]
struct Column {
    /// A colon is its first mark.
    pub left: bool,
    /// A colon is after its first mark.
    pub right: bool,
    /// It has a dash.
    pub dash: bool,
}

/// How many cells the rows of all tables of a text may lack.
const MOST_FILLED: usize = 262_144;

#[tactic(auto, unfolding(crate::specs::Tables::is_delimiter_byte))]
fn is_delimiter_byte(byte: u8) -> bool
    ensures { result ≡ is_delimiter_byte byte }
{
    byte == b'|' || byte == b':' || byte == b'-' || byte == b' '
}

fn no_marks() -> Column
    ensures { result ≡ no_marks }
{
    Column {
        left: false,
        right: false,
        dash: false,
    }
}

#[tactic(auto, unfolding(crate::specs::Tables::is_blank_column))]
fn is_blank_column(column: Column) -> bool
    ensures { result ≡ is_blank_column column }
{
    !column.left && !column.dash
}

#[tactic(auto, unfolding(crate::specs::Tables::column_step))]
fn column_step(column: Column, byte: u8) -> Column
    ensures { result ≡ column_step column byte }
{
    if byte == b'-' {
        Column {
            dash: true,
            ..column
        }
    } else if byte == b':' {
        if is_blank_column(column) {
            Column {
                left: true,
                ..column
            }
        } else {
            Column {
                right: true,
                ..column
            }
        }
    } else {
        column
    }
}

#[tactic(auto, unfolding(crate::specs::Tables::alignment_of))]
fn alignment_of(column: Column) -> Alignment
    ensures { result ≡ alignment_of column }
{
    if column.left && column.right {
        Alignment::Center
    } else if column.left {
        Alignment::Left
    } else if column.right {
        Alignment::Right
    } else {
        Alignment::None
    }
}

/// One more byte of a delimiter row: a bar ends the column.
#[tactic(auto, unfolding(crate::specs::Tables::columns_step))]
fn columns_step(found: &mut Vec<Alignment>, column: Column, byte: u8) -> Result<Column, AllocError>
    ensures { IfOk result (λ next.
        (found.new.items, next) ≡ columns_step (found.old.items, column) byte) }
{
    if byte == b'|' {
        found.push(alignment_of(column))?;
        Ok(no_marks())
    } else {
        Ok(column_step(column, byte))
    }
}

/// A row without the bar in front.
#[tactic(auto, unfolding(crate::specs::Tables::behind_bar))]
fn behind_bar(row: &[u8]) -> &[u8]
    ensures { result.now ≡ behind_bar row.now }
{
    if byte_at(row, 0) == b'|' {
        rest(row, 1)
    } else {
        row
    }
}

/// The alignments of the columns of a delimiter row.
#[tactic(auto, unfolding(crate::specs::Tables::alignments_of, crate::specs::Tables::columns_ended))]
pub fn alignments(alloc: Global, row: &[u8]) -> Result<Vec<Alignment>, AllocError>
    ensures { IfOk result (λ v. v.items ≡ alignments_of row.now) }
{
    let mut found = Vec::new(alloc);
    let mut column = no_marks();
    for byte in behind_bar(row) {
        column = columns_step(&mut found, column, *byte)?;
    }
    if !is_blank_column(column) {
        found.push(alignment_of(column))?;
    }
    Ok(found)
}

/// What is known of the columns so far: whether the open one has a dash, and whether one without ended.
#[tactic(auto, unfolding(crate::specs::Tables::bare_step))]
fn bare_step(dash: bool, bare: bool, byte: u8) -> (bool, bool)
    ensures { result ≡ bare_step (dash, bare) byte }
{
    if byte == b'|' {
        (false, bare || !dash)
    } else {
        (dash || byte == b'-', bare)
    }
}

/// Whether a bar ends a column without a dash.
fn has_bare_column(row: &[u8]) -> bool
    ensures { result ≡ (fold bare_step (false, false) row.now).1 }
{
    let mut dash = false;
    let mut bare = false;
    for byte in row {
        (dash, bare) = bare_step(dash, bare, *byte);
    }
    bare
}

fn are_delimiter_bytes(row: &[u8]) -> bool
    ensures { result ≡ list_all is_delimiter_byte row.now }
{
    row.iter().all(|byte| is_delimiter_byte(*byte))
}

/// Whether the bytes of a line after its spaces are a delimiter row: bars, colons, dashes and spaces, at
/// least one bar and one dash, and a dash in each column that a bar ends.
#[tactic(auto, unfolding(crate::specs::Tables::is_delimiter_row))]
fn is_delimiter_row(row: &[u8]) -> bool
    ensures { result ≡ is_delimiter_row row.now }
{
    are_delimiter_bytes(row)
        && row.contains(&b'|')
        && row.contains(&b'-')
        && !has_bare_column(behind_bar(row))
}

/// Whether a byte divides cells: a bar without a backslash just before it.
#[tactic(auto, unfolding(crate::specs::Tables::is_bar))]
fn is_bar(before: u8, byte: u8) -> bool
    ensures { result ≡ is_bar before byte }
{
    byte == b'|' && before != b'\\'
}

/// The place of the first bar that divides cells, from the front of a cell on; the end where there is none.
fn next_bar(text: &[u8], from: usize, end: usize) -> usize
    ensures { result ≡ next_bar text.now from end }
{
    let mut place = from;
    let mut before = b'|';
    for byte in bytes_between(text, from, end) {
        if is_bar(before, *byte) {
            return place;
        }
        place = place.saturating_add(1);
        before = *byte;
    }
    end
}

/// Where the first cell of a row begins.
#[tactic(auto, unfolding(crate::specs::Tables::first_cell))]
fn first_cell(text: &[u8], start: usize) -> usize
    ensures { result ≡ first_cell text.now start }
{
    if byte_at(text, start) == b'|' {
        start.saturating_add(1)
    } else {
        start
    }
}

/// Where the cell that begins at a place ends, in a row that ends at `end`; none where nothing but blanks is
/// left behind the last bar.
#[tactic(auto, unfolding(crate::specs::Tables::cell_end))]
fn cell_end(text: &[u8], place: usize, end: usize) -> Option<usize>
    ensures { result ≡ cell_end text.now end place }
{
    let bar = next_bar(text, place, end);
    if bar < end || behind_blanks(text, place) < end {
        Some(bar)
    } else {
        None
    }
}

/// Counts the cell at a place, and gives the place after its bar.
#[tactic(auto, unfolding(crate::specs::Tables::count_once))]
fn count_once(text: &[u8], end: usize, place: usize, count: usize) -> (usize, Option<usize>)
    ensures { result ≡ count_once text.now end place count }
{
    match cell_end(text, place, end) {
        None => (count, None),
        Some(bar) => (count.saturating_add(1), Some(bar.saturating_add(1))),
    }
}

/// The number of cells of the row between two places of a text.
#[tactic(auto, using(tocmark_read_scan::proofs::Repeats::repeated_zero, tocmark_read_scan::proofs::Repeats::repeated_stop, tocmark_read_scan::proofs::Repeats::repeated_more))]
fn cell_count(text: &[u8], start: usize, end: usize) -> usize
    ensures { result ≡ cell_count text.now start end }
{
    let mut count = 0;
    let mut place = first_cell(text, start);
    for _steps_left in (0..text.len()).rev() {
        let (counted, next) = count_once(text, end, place, count);
        count = counted;
        match next {
            None => return count,
            Some(behind) => place = behind,
        }
    }
    count
}

fn trailing_backslashes(bytes: &[u8]) -> usize
    ensures { result ≡ length (take_while (λ b. b == 92) (reverse bytes.now)) }
{
    bytes
        .iter()
        .rev()
        .take_while(|byte| **byte == b'\\')
        .count()
}

/// The place where a row ends, without the blanks at its end.
fn trimmed_end(text: &[u8], start: usize, end: usize) -> usize
    ensures { result ≡ trimmed_end text.now start end }
{
    end.saturating_sub(trailing_blanks(bytes_between(text, start, end)))
}

/// The number of columns of the header row between two places of a text: 0 where it has no dividing bar, or
/// an odd number of backslashes at its end.
#[tactic(auto, unfolding(crate::specs::Tables::header_columns))]
fn header_columns(text: &[u8], start: usize, end: usize) -> usize
    ensures { result ≡ header_columns text.now start end }
{
    let last = trimmed_end(text, start, end);
    let backslashes = trailing_backslashes(bytes_between(text, start, last));
    if next_bar(text, start, last) < last && backslashes % 2 == 0 {
        cell_count(text, start, end)
    } else {
        0
    }
}

/// Whether an HTML block begins with a line that isn't any tag alone.
#[tactic(auto, unfolding(crate::specs::Tables::begins_named_html))]
fn begins_named_html(row: &[u8]) -> bool
    ensures { result ≡ begins_named_html row.now }
{
    match html_kind(row) {
        None => false,
        Some(HtmlKind::Raw) => true,
        Some(HtmlKind::Comment) => true,
        Some(HtmlKind::Instruction) => true,
        Some(HtmlKind::Declaration) => true,
        Some(HtmlKind::CharacterData) => true,
        Some(HtmlKind::Named) => true,
        Some(HtmlKind::Alone) => false,
    }
}

/// Whether the line at a cursor is no row of a table that is before it: a quote, a heading, a fence, a
/// rule, an item, HTML or nothing but a bar. `row` are its bytes after its spaces.
#[tactic(auto, unfolding(crate::specs::Tables::ends_table))]
fn ends_table(cells: &Columns, tail: Tail, cursor: Cursor, row: &[u8]) -> bool
    ensures { result ≡ ends_table cells.now tail cursor row.now }
{
    let byte = cell_byte(cells, cursor.ink);
    let heading = heading_at(cells, cursor.ink).is_some();
    let fence = fence_at(cells, cursor).is_some();
    let marker = marker_at(cells, cursor.ink).is_some();
    let rule = is_rule(cells, tail, cursor.ink);
    let alone = byte == b'|' && cells.len() <= ink_from(cells, cursor.ink.saturating_add(1));
    byte == b'>' || heading || fence || rule || marker || begins_named_html(row) || alone
}

/// The place of a line's first byte that is no space.
fn ink_of(cells: &Columns, line: Line, cursor: Cursor) -> usize
    ensures { result ≡ ink_of cells.now line cursor }
{
    cell_place(cells, cursor.ink, line.end)
}

/// A line without the spaces in front of it.
fn row_of<'t>(text: &'t [u8], cells: &Columns, line: Line, cursor: Cursor) -> &'t [u8]
    ensures { result.now ≡ row_of text.now cells.now line cursor }
{
    bytes_between(text, ink_of(cells, line, cursor), line.end)
}

/// What a line may be as a header; `lazy` says that it went on with a paragraph lazily.
#[tactic(auto, unfolding(crate::specs::Tables::header_of))]
pub fn header_of(cells: &Columns, cursor: Cursor, lazy: bool) -> HeaderLine
    ensures { result ≡ header_of cells.now cursor lazy }
{
    if lazy {
        HeaderLine::Never
    } else if indent_of(cursor) < 4 && cell_byte(cells, cursor.ink) == b'|' {
        HeaderLine::Always
    } else {
        HeaderLine::Alone
    }
}

/// The table with one more row of so many cells; none if the rows of the text would lack too many.
#[tactic(auto, unfolding(crate::specs::Tables::lengthened))]
fn lengthened(table: Table, count: usize) -> Option<Table>
    ensures { result ≡ lengthened table count }
{
    let filled = table
        .filled
        .saturating_add(table.columns.saturating_sub(count));
    if MOST_FILLED < filled {
        None
    } else {
        Some(Table { filled, ..table })
    }
}

/// The open table with a line as one more row, if it is one.
#[tactic(auto, unfolding(crate::specs::Tables::row_turn))]
pub fn row_turn(
    text: &[u8],
    cells: &Columns,
    line: Line,
    cursor: Cursor,
    table: Table,
) -> Option<Table>
    ensures { result ≡ row_turn text.now cells.now line cursor table }
{
    let row = row_of(text, cells, line, cursor);
    if is_blank_at(cells, cursor) || ends_table(cells, tail_of(cells), cursor, row) {
        None
    } else {
        lengthened(
            table,
            cell_count(text, ink_of(cells, line, cursor), line.end),
        )
    }
}

fn last_piece(pieces: &[Piece]) -> Option<Piece>
    ensures { result ≡ last_piece pieces.now }
{
    pieces.get(pieces.len().saturating_sub(1)).copied()
}

fn last_block(so_far: &BlocksSoFar) -> Option<Block>
    ensures { result ≡ last_block (page so_far.now) }
{
    block_at(&so_far.blocks, so_far.blocks.len().saturating_sub(1))
}

/// Puts a row, or a cell of one, after the blocks.
#[tactic(auto, unfolding(crate::specs::Tables::row_pushed))]
fn push_row(
    so_far: &mut BlocksSoFar,
    deeper: usize,
    kind: BlockKind,
    start: usize,
    end: usize,
) -> Result<(), AllocError>
    ensures { OnOk result (page so_far.new
        ≡ row_pushed deeper kind start end (page so_far.old)) }
{
    push_block(
        &mut so_far.blocks,
        Block {
            depth: so_far.opened.len().saturating_add(deeper),
            kind,
            start,
            end,
            first: so_far.pieces.len(),
            last: so_far.pieces.len(),
            loose: false,
            list: None,
            task: None,
        },
    )
}

/// Puts the cell at a place after the blocks, and gives the place after its bar.
#[tactic(auto, unfolding(crate::specs::Tables::cell_pushed))]
fn push_cell(
    so_far: &mut BlocksSoFar,
    text: &[u8],
    end: usize,
    place: usize,
) -> Result<usize, AllocError>
    ensures { IfOk result (λ next.
        (page so_far.new, next) ≡ cell_pushed text.now end (page so_far.old, place)) }
{
    match cell_end(text, place, end) {
        None => {
            push_row(so_far, 2, BlockKind::TableCell, end, end)?;
            Ok(end.saturating_add(1))
        }
        Some(bar) => {
            push_row(so_far, 2, BlockKind::TableCell, place, bar)?;
            Ok(bar.saturating_add(1))
        }
    }
}

#[tactic(auto, using(tocmark_read_page::proofs::Steps::times_zero, tocmark_read_page::proofs::Steps::times_more))]
fn push_cells(
    so_far: &mut BlocksSoFar,
    text: &[u8],
    columns: usize,
    first: usize,
    end: usize,
) -> Result<(), AllocError>
    ensures { OnOk result (page so_far.new
        ≡ (times (cell_pushed text.now end) columns (page so_far.old, first)).0) }
{
    let mut place = first;
    for _left in (0..columns).rev() {
        place = push_cell(so_far, text, end, place)?;
    }
    Ok(())
}

/// Puts a row with so many cells after the blocks.
#[tactic(auto, unfolding(crate::specs::Tables::row_put))]
fn put_row(
    so_far: &mut BlocksSoFar,
    text: &[u8],
    kind: BlockKind,
    columns: usize,
    start: usize,
    end: usize,
) -> Result<(), AllocError>
    ensures { OnOk result (page so_far.new
        ≡ row_put text.now kind columns start end (page so_far.old)) }
{
    push_row(so_far, 1, kind, start, end)?;
    push_cells(so_far, text, columns, first_cell(text, start), end)
}

/// Lets the open table reach to a line.
fn reach(so_far: &mut BlocksSoFar, table: Table, line: Line)
    ensures { page so_far.new ≡ with_table table line (page so_far.old) }
{
    so_far.leaf = Leaf::Table(table);
    so_far.end = line.end;
    so_far.line = line.number;
    so_far.filled = table.filled;
}

/// Takes a line as one more row of the open table, which is this one with it.
#[tactic(auto, unfolding(crate::specs::Tables::row_taken))]
pub fn take_row(
    so_far: &mut BlocksSoFar,
    scan: &ScannedLine<'_, '_>,
    place: LineStart,
    table: Table,
) -> Result<(), AllocError>
    ensures { OnOk result (page so_far.new
        ≡ row_taken scan.now.text.now scan.now.cells.now scan.now.line place.cursor table
        (page so_far.old)) }
{
    reach(so_far, table, scan.line);
    let start = ink_of(scan.cells, scan.line, place.cursor);
    let kind = BlockKind::TableRow;
    put_row(so_far, scan.text, kind, table.columns, start, scan.line.end)
}

/// Whether the last line of the open paragraph is its only one.
#[tactic(auto, unfolding(crate::specs::Tables::is_sole_line))]
fn is_sole_line(so_far: &BlocksSoFar) -> bool
    ensures { result ≡ is_sole_line (page so_far.now) }
{
    match so_far.blocks.get(so_far.blocks.len().saturating_sub(1)) {
        None => false,
        Some(block) => block.first().saturating_add(1) == so_far.pieces.len(),
    }
}

/// Whether the open paragraph has a line after its definitions, and no box.
#[tactic(auto, unfolding(crate::specs::Tables::may_have_header))]
fn may_have_header(so_far: &BlocksSoFar) -> bool
    ensures { result ≡ may_have_header (page so_far.now) }
{
    match so_far.blocks.get(so_far.blocks.len().saturating_sub(1)) {
        None => false,
        Some(block) => block.first() < so_far.pieces.len() && !block.has_task(),
    }
}

/// Whether the last line of the open paragraph has so many columns.
#[tactic(auto, unfolding(crate::specs::Tables::fits_columns))]
fn fits_columns(so_far: &BlocksSoFar, text: &[u8], columns: usize) -> bool
    ensures { result ≡ fits_columns text.now columns (page so_far.now) }
{
    match last_piece(&so_far.pieces) {
        None => false,
        Some(line) => header_columns(text, line.start, line.end) == columns,
    }
}

/// Whether a line can be a delimiter row where it is.
#[tactic(auto, unfolding(crate::specs::Tables::may_delimit))]
fn may_delimit(
    so_far: &BlocksSoFar,
    scan: &ScannedLine<'_, '_>,
    cursor: Cursor,
    directly: bool,
) -> bool
    ensures { result
        ≡ may_delimit scan.now.text.now scan.now.cells.now scan.now.line cursor directly
        (page so_far.now) }
{
    directly
        && !is_blank_at(scan.cells, cursor)
        && indent_of(cursor) < 4
        && may_have_header(so_far)
        && is_delimiter_row(row_of(scan.text, scan.cells, scan.line, cursor))
}

/// Takes the definitions at the front of the open paragraph, if they weren't looked for in it before.
#[tactic(auto, unfolding(crate::specs::Tables::tried_once))]
fn try_definitions(so_far: &mut BlocksSoFar, alloc: Global, text: &[u8]) -> Result<(), AllocError>
    ensures { OnOk result (page so_far.new ≡ tried_once text.now (page so_far.old)) }
{
    let count = so_far.blocks.len();
    if so_far.tried != count {
        so_far.settle(alloc, text)?;
        so_far.tried = count;
    }
    Ok(())
}

/// Whether the last line of the open paragraph can be a header where it is.
#[tactic(auto, unfolding(crate::specs::Tables::header_settled))]
fn settle_header(so_far: &mut BlocksSoFar, alloc: Global, text: &[u8]) -> Result<bool, AllocError>
    ensures { IfOk result (λ stands.
        (page so_far.new, stands) ≡ header_settled text.now (page so_far.old)) }
{
    match so_far.header {
        HeaderLine::Never => Ok(false),
        HeaderLine::Alone => {
            try_definitions(so_far, alloc, text)?;
            Ok(is_sole_line(so_far))
        }
        HeaderLine::Always => Ok(true),
    }
}

/// Makes the block of a paragraph that has no more line a table.
#[tactic(auto, unfolding(crate::specs::Tables::paragraph_turned))]
fn turn_paragraph(
    so_far: &mut BlocksSoFar,
    kind: BlockKind,
    header: Piece,
) -> Result<(), AllocError>
    ensures { OnOk result (page so_far.new ≡ paragraph_turned kind header (page so_far.old)) }
{
    if let Some(block) = last_block(so_far) {
        let index = so_far.blocks.len().saturating_sub(1);
        let turned = Block {
            kind,
            start: header.start,
            first: so_far.pieces.len(),
            last: so_far.pieces.len(),
            ..block
        };
        set_block(&mut so_far.blocks, index, turned)?;
    }
    Ok(())
}

/// Ends the paragraph before a header, two lines before a delimiter row, and begins a table.
#[tactic(auto, unfolding(crate::specs::Tables::table_begun))]
fn begin_table(
    so_far: &mut BlocksSoFar,
    alloc: Global,
    text: &[u8],
    line: Line,
    kind: BlockKind,
    header: Piece,
) -> Result<(), AllocError>
    ensures { OnOk result (page so_far.new
        ≡ table_begun text.now line kind header (page so_far.old)) }
{
    so_far.kept = so_far.pieces.len();
    so_far.end = last_piece(&so_far.pieces).map_or(so_far.end, |before| before.end);
    so_far.line = line.number.saturating_sub(2);
    so_far.close_leaf(alloc, text)?;
    let first = Line {
        number: line.number.saturating_sub(1),
        start: header.start,
        end: header.end,
        next: header.next,
    };
    so_far.open_leaf(Leaf::Nothing, kind, header.start, first)
}

/// Makes the last line of the open paragraph the header of a table.
#[tactic(auto, unfolding(crate::specs::Tables::table_started))]
fn start_table(
    so_far: &mut BlocksSoFar,
    alloc: Global,
    text: &[u8],
    line: Line,
    kind: BlockKind,
    columns: usize,
) -> Result<(), AllocError>
    ensures { OnOk result (page so_far.new
        ≡ table_started text.now line kind columns (page so_far.old)) }
{
    let Some(header) = last_piece(&so_far.pieces) else {
        return Ok(());
    };
    let sole = is_sole_line(so_far);
    let count = so_far.pieces.len().saturating_sub(1);
    so_far.pieces.truncate(count);
    if sole {
        turn_paragraph(so_far, kind, header)?;
    } else {
        begin_table(so_far, alloc, text, line, kind, header)?;
    }
    let table = Table {
        block: so_far.blocks.len().saturating_sub(1),
        columns,
        filled: so_far.filled,
    };
    reach(so_far, table, line);
    let head = BlockKind::TableHead;
    put_row(so_far, text, head, columns, header.start, header.end)
}

/// Begins a table with the delimiter row at a place, if a header is above it.
#[tactic(auto, unfolding(crate::specs::Tables::delimited))]
fn delimit(
    so_far: &mut BlocksSoFar,
    alloc: Global,
    text: &[u8],
    line: Line,
    start: usize,
) -> Result<bool, AllocError>
    ensures { IfOk result (λ taken.
        (page so_far.new, taken) ≡ delimited text.now line start (page so_far.old)) }
{
    let columns = alignments(alloc, bytes_between(text, start, line.end))?.len();
    if !fits_columns(so_far, text, columns) {
        return Ok(false);
    }
    let stands = settle_header(so_far, alloc, text)?;
    if stands {
        let kind = BlockKind::Table(start, line.end);
        start_table(so_far, alloc, text, line, kind, columns)?;
    }
    Ok(stands)
}

/// Takes a line as the delimiter row of a table, and says whether it is one. `directly` says that the
/// open paragraph is in the innermost container that goes on in the line.
#[tactic(auto, unfolding(crate::specs::Tables::delimiters_taken))]
pub fn take_delimiters(
    so_far: &mut BlocksSoFar,
    alloc: Global,
    scan: &ScannedLine<'_, '_>,
    cursor: Cursor,
    directly: bool,
) -> Result<bool, AllocError>
    ensures { IfOk result (λ taken.
        (page so_far.new, taken)
        ≡ delimiters_taken scan.now.text.now scan.now.cells.now scan.now.line cursor directly
        (page so_far.old)) }
{
    if may_delimit(so_far, scan, cursor, directly) {
        let start = ink_of(scan.cells, scan.line, cursor);
        delimit(so_far, alloc, scan.text, scan.line, start)
    } else {
        Ok(false)
    }
}
