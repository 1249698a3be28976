//! The columns of a line.

ghost use Rattle.std.specs.Prelude.{◌≡◌, ◌==◌, ◌++◌, [], List, OnOk, length, filter, reverse, take_while, replicate, slice_get, unwrap_or};
ghost use Rattle.std.specs.List.{list_any};
ghost use Rattle.tocmark_read_scan.specs.Basic.{bytes_between, plus};
ghost use Rattle.tocmark_read_lines.specs.Cells.{cells_at, bytes_of, places_of, filled, cells_of, cell_byte, cell_place, run_of, ink_from, count_of, trailing, trimmed, moved, indent_of, is_blank_at, first_cursor};
ghost use Rattle.tocmark_read_lines.specs.declared.cell.Cell.{Cell};

use crate::line::Line;
use std::alloc::{AllocError, Global};
use std::marker::Model;
use tocmark_read_scan::basic::{byte_at, bytes_between, rest};
use tocmark_read_scan::class::has_byte;

/// A column of a line: its byte and the place of that. A tab is one to four columns of spaces, up to
/// the next column that is a multiple of four.
#[derive(Clone, Copy)]
pub struct Cell {
    /// The byte; a space in each column of a tab.
    pub byte: u8,
    /// Where the byte is in the text, in bytes; in each column of a tab where the tab is.
    pub at: usize,
}

/// The columns of a line: their bytes and, if the line has tabs, the columns with their places. Without
/// tabs its bytes are one after the other from `start` on. A line is written over the one before.
#[derive(Drop)]
pub struct Columns {
    bytes: Vec<u8>,
    start: usize,
    tabbed: Vec<Cell>,
}

/// A column of a line, and the first one from there on that is no space.
#[derive(Clone, Copy)]
pub struct Cursor {
    /// The column, counted from 0 on.
    pub column: usize,
    /// The first column from there on that is no space, or the one after the last.
    pub ink: usize,
}

fn push_spaces(cells: &mut Vec<Cell>, count: usize, at: usize) -> Result<(), AllocError>
    ensures { OnOk result (cells.new.items
        ≡ cells.old.items ++ replicate count (record { byte = 32; at = at })) }
{
    for _space in 0..count {
        cells.push(Cell { byte: b' ', at })?;
    }
    Ok(())
}

/// Puts a byte's columns after those so far.
#[tactic(auto, unfolding(crate::specs::Cells::filled))]
fn fill(cells: &mut Vec<Cell>, byte: u8, at: usize) -> Result<(), AllocError>
    ensures { OnOk result (cells.new.items ≡ filled cells.old.items byte at) }
{
    if byte == b'\t' {
        push_spaces(cells, 4 - cells.len() % 4, at)?;
    } else {
        cells.push(Cell { byte, at })?;
    }
    Ok(())
}

/// Writes the columns of bytes that are from a place on over those of another line.
fn fill_all(cells: &mut Vec<Cell>, bytes: &[u8], start: usize) -> Result<(), AllocError>
    ensures { OnOk result (cells.new.items ≡ cells_of [] start bytes.now) }
{
    cells.clear();
    let mut at = start;
    for byte in bytes {
        fill(cells, *byte, at)?;
        at = at.saturating_add(1);
    }
    Ok(())
}

/// Writes the bytes of columns over others.
fn write_bytes(bytes: &mut Vec<u8>, cells: &[Cell]) -> Result<(), AllocError>
    ensures { OnOk result (bytes.new.items ≡ bytes_of cells.now) }
{
    bytes.clear();
    bytes.reserve(cells.len())?;
    for cell in cells {
        bytes.push(cell.byte)?;
    }
    Ok(())
}

impl Model for Columns {
    ghost Value = { List Cell };

    ghost view = { λ c. cells_at c.start (places_of c.tabbed.items) c.bytes.items };
}

impl Columns {
    /// No columns.
    pub fn new(alloc: Global) -> Columns
        ensures { result ≡ [] }
    {
        Columns {
            bytes: Vec::new(alloc),
            start: 0,
            tabbed: Vec::new(alloc),
        }
    }

    #[tactic(auto, using(crate::proofs::Columns::cells_parted))]
    fn read_tabbed(&mut self, bytes: &[u8], start: usize) -> Result<(), AllocError>
        ensures { OnOk result (self.new ≡ cells_of [] start bytes.now) }
    {
        fill_all(&mut self.tabbed, bytes, start)?;
        write_bytes(&mut self.bytes, &self.tabbed)
    }

    fn read_plain(&mut self, bytes: &[u8], start: usize) -> Result<(), AllocError>
        ensures { OnOk result (self.new ≡ cells_at start [] bytes.now) }
    {
        self.bytes.clear();
        self.tabbed.clear();
        self.bytes.extend_from_slice(bytes)?;
        self.start = start;
        Ok(())
    }

    fn clear(&mut self)
        ensures { self.new ≡ [] }
    {
        self.bytes.clear();
        self.tabbed.clear();
    }

    #[tactic(auto, using(crate::proofs::Columns::plain_cells))]
    fn read_inked(&mut self, bytes: &[u8], start: usize) -> Result<(), AllocError>
        ensures { OnOk result (self.new ≡ cells_of [] start bytes.now) }
    {
        if has_byte(bytes, b'\t') {
            self.read_tabbed(bytes, start)
        } else {
            self.read_plain(bytes, start)
        }
    }

    /// Takes the columns of a line of a text, without its line ending, in place of those so far.
    #[tactic(auto, using(crate::proofs::Columns::no_cells))]
    pub fn read(&mut self, text: &[u8], line: Line) -> Result<(), AllocError>
        ensures { OnOk result (self.new
            ≡ cells_of [] line.start (bytes_between text.now line.start line.end)) }
    {
        if line.end <= line.start {
            self.clear();
            Ok(())
        } else {
            self.read_inked(bytes_between(text, line.start, line.end), line.start)
        }
    }

    /// Takes the columns of a line as `read` does. `has_tabs` tells whether a tab is in the text, so
    /// that a line of a text without tabs isn't searched for them.
    #[tactic(auto, using(crate::proofs::Columns::no_cells, crate::proofs::Columns::plain_part))]
    pub fn read_in(&mut self, text: &[u8], line: Line, has_tabs: bool) -> Result<(), AllocError>
        ensures { has_tabs ≡ list_any (λ b. b == 9) text.now → OnOk result (self.new
            ≡ cells_of [] line.start (bytes_between text.now line.start line.end)) }
    {
        if has_tabs {
            self.read(text, line)
        } else if line.end <= line.start {
            self.clear();
            Ok(())
        } else {
            self.read_plain(bytes_between(text, line.start, line.end), line.start)
        }
    }

    /// The bytes of the columns, one for each column.
    #[tactic(auto, using(crate::proofs::Columns::bytes_kept))]
    pub fn bytes(&self) -> &[u8]
        ensures { result.now ≡ bytes_of self.now }
    {
        &self.bytes
    }

    /// The number of columns.
    #[tactic(auto, using(crate::proofs::Columns::length_kept))]
    pub fn len(&self) -> usize
        ensures { result ≡ length self.now }
    {
        self.bytes.len()
    }

    /// The place of a column in the text, in bytes; `end` after the last one.
    fn place(&self, column: usize, end: usize) -> usize
        ensures { result ≡ cell_place self.now column end }
    {
        place_of(&self.bytes, &self.tabbed, self.start, column, end)
    }
}

#[tactic(auto, using(crate::proofs::Columns::tabbed_place))]
fn known_place(tabbed: &[Cell], start: usize, column: usize) -> usize
    ensures { result ≡ unwrap_or (slice_get (places_of tabbed.now) column) (plus start column) }
{
    let counted = start.saturating_add(column);
    tabbed.get(column).map_or(counted, |cell| cell.at)
}

#[tactic(auto, using(crate::proofs::Columns::place_kept))]
fn place_of(bytes: &[u8], tabbed: &[Cell], start: usize, column: usize, end: usize) -> usize
    ensures { result ≡ cell_place (cells_at start (places_of tabbed.now) bytes.now) column end }
{
    if column < bytes.len() {
        known_place(tabbed, start, column)
    } else {
        end
    }
}

/// The byte of a column; a line feed after the last one.
#[tactic(auto, using(crate::proofs::Columns::byte_asked))]
pub fn cell_byte(cells: &Columns, column: usize) -> u8
    ensures { result ≡ cell_byte cells.now column }
{
    byte_at(cells.bytes(), column)
}

/// The place of a column in the text, in bytes; `end` after the last one.
pub fn cell_place(cells: &Columns, column: usize, end: usize) -> usize
    ensures { result ≡ cell_place cells.now column end }
{
    cells.place(column, end)
}

fn run_in(bytes: &[u8], byte: u8) -> usize
    ensures { result ≡ length (take_while (λ b. b == byte) bytes.now) }
{
    bytes.iter().take_while(|found| **found == byte).count()
}

/// The number of columns from one on that have this byte, one after the other.
#[tactic(auto, using(crate::proofs::Columns::run_asked))]
pub fn run_of(cells: &Columns, column: usize, byte: u8) -> usize
    ensures { result ≡ run_of cells.now column byte }
{
    run_in(rest(cells.bytes(), column), byte)
}

fn count_in(bytes: &[u8], byte: u8) -> usize
    ensures { result ≡ length (filter (λ b. b == byte) bytes.now) }
{
    bytes.iter().filter(|found| **found == byte).count()
}

/// The number of columns from one on that have this byte.
#[tactic(auto, using(crate::proofs::Columns::count_asked))]
pub fn count_of(cells: &Columns, column: usize, byte: u8) -> usize
    ensures { result ≡ count_of cells.now column byte }
{
    count_in(rest(cells.bytes(), column), byte)
}

/// The first column from one on that is no space.
pub fn ink_from(cells: &Columns, column: usize) -> usize
    ensures { result ≡ ink_from cells.now column }
{
    column.saturating_add(run_of(cells, column, b' '))
}

fn trailing_in(bytes: &[u8], byte: u8) -> usize
    ensures { result ≡ length (take_while (λ b. b == byte) (reverse bytes.now)) }
{
    bytes
        .iter()
        .rev()
        .take_while(|found| **found == byte)
        .count()
}

/// The number of columns at the end of a line that have this byte.
#[tactic(auto, using(crate::proofs::Columns::trailing_asked))]
pub fn trailing(cells: &Columns, byte: u8) -> usize
    ensures { result ≡ trailing cells.now byte }
{
    trailing_in(cells.bytes(), byte)
}

/// The end of the columns from `from` to before `to`, without those of this byte at their end.
pub fn trimmed(cells: &Columns, from: usize, to: usize, byte: u8) -> usize
    ensures { result ≡ trimmed cells.now from to byte }
{
    to.saturating_sub(trailing_in(bytes_between(cells.bytes(), from, to), byte))
}

/// The start of a line.
#[tactic(auto, unfolding(crate::specs::Cells::first_cursor))]
pub fn first_cursor(cells: &Columns) -> Cursor
    ensures { result ≡ first_cursor cells.now }
{
    Cursor {
        column: 0,
        ink: ink_from(cells, 0),
    }
}

/// The cursor at a column that isn't before this cursor.
#[tactic(auto, unfolding(crate::specs::Cells::moved))]
pub fn moved(cells: &Columns, cursor: Cursor, column: usize) -> Cursor
    ensures { result ≡ moved cells.now cursor column }
{
    let ink = if column <= cursor.ink {
        cursor.ink
    } else {
        ink_from(cells, column)
    };
    Cursor { column, ink }
}

/// The number of spaces at a cursor.
pub fn indent_of(cursor: Cursor) -> usize
    ensures { result ≡ indent_of cursor }
{
    cursor.ink.saturating_sub(cursor.column)
}

/// Whether nothing but spaces is at a cursor and after it.
pub fn is_blank_at(cells: &Columns, cursor: Cursor) -> bool
    ensures { result ≡ is_blank_at cells.now cursor }
{
    cells.len() <= cursor.ink
}
