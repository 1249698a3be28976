//! What a line begins with: headings, fences, rules and the markers of lists.

ghost use Rattle.std.specs.Char.{is_ascii_digit};
ghost use Rattle.std.specs.Prelude.{◌≡◌, ◌==◌, ◌||◌, length, reverse, take_while};
ghost use Rattle.tocmark_read_lines.specs.Marks.{level_of, is_behind, heading_end_before, heading_at, is_fence_byte, fence_at, closes_fence, tail_length, tail_of, is_rule_byte, is_rule, is_underline_byte, underline_at, digit_count, number_step, number_of, bullet_at, ordered_at, marker_at};

use crate::cell::{
    Columns, Cursor, cell_byte, count_of, indent_of, ink_from, run_of, trailing, trimmed,
};
use tocmark_event::event::HeadingLevel;
use tocmark_read_scan::basic::{bytes_between, rest};

/// A heading on one line, with the columns of its text.
#[derive(Clone, Copy)]
pub struct Heading {
    /// One level for each `#`.
    pub level: HeadingLevel,
    /// The first column of its text.
    pub from: usize,
    /// The column after its text.
    pub to: usize,
}

/// The fence that opens a code block.
#[derive(Clone, Copy)]
pub struct Fence {
    /// Its byte.
    pub byte: u8,
    /// How often the byte is there.
    pub count: usize,
    /// The columns of spaces before it.
    pub indent: usize,
}

/// The columns at the end of a line in which nothing but one byte and spaces are.
#[derive(Clone, Copy)]
pub struct Tail {
    /// The last byte of the line that is no space.
    pub byte: u8,
    /// The first of these columns.
    pub from: usize,
}

/// The marker of a list item.
#[derive(Clone, Copy)]
pub struct Marker {
    /// Its last byte.
    pub sort: u8,
    /// Its number, or none for a bullet.
    pub number: Option<u64>,
    /// Its length in columns.
    pub length: usize,
}

#[tactic(auto, unfolding(crate::specs::Marks::level_of))]
fn level_of(marks: usize) -> Option<HeadingLevel>
    ensures { result ≡ level_of marks }
{
    match marks {
        1 => Some(HeadingLevel::H1),
        2 => Some(HeadingLevel::H2),
        3 => Some(HeadingLevel::H3),
        4 => Some(HeadingLevel::H4),
        5 => Some(HeadingLevel::H5),
        6 => Some(HeadingLevel::H6),
        _ => None,
    }
}

/// Whether a space or the end of the line is at a column.
#[tactic(auto, unfolding(crate::specs::Marks::is_behind))]
fn is_behind(cells: &Columns, column: usize) -> bool
    ensures { result ≡ is_behind cells.now column }
{
    cells.len() <= column || cell_byte(cells, column) == b' '
}

/// The end of a heading's text, which ends before a column at the latest: spaces at its end don't count,
/// nor do `#` with a space before them.
#[tactic(auto, unfolding(crate::specs::Marks::heading_end_before))]
pub fn heading_end_before(cells: &Columns, from: usize, limit: usize) -> usize
    ensures { result ≡ heading_end_before cells.now from limit }
{
    let whole = trimmed(cells, from, limit, b' ');
    let open = trimmed(cells, from, whole, b'#');
    let closed = open <= from || cell_byte(cells, open.saturating_sub(1)) == b' ';
    if closed {
        trimmed(cells, from, open, b' ')
    } else {
        whole
    }
}

/// The heading whose `#` are at a column.
#[tactic(auto, unfolding(crate::specs::Marks::heading_at))]
pub fn heading_at(cells: &Columns, column: usize) -> Option<Heading>
    ensures { result ≡ heading_at cells.now column }
{
    let behind = column.saturating_add(run_of(cells, column, b'#'));
    if !is_behind(cells, behind) {
        return None;
    }
    let level = level_of(behind.saturating_sub(column))?;
    let from = ink_from(cells, behind);
    Some(Heading {
        level,
        from,
        to: heading_end_before(cells, from, cells.len()),
    })
}

#[tactic(auto, unfolding(crate::specs::Marks::is_fence_byte))]
fn is_fence_byte(byte: u8) -> bool
    ensures { result ≡ is_fence_byte byte }
{
    byte == b'`' || byte == b'~'
}

/// The fence at a cursor that opens a code block. After backticks is none on its line.
#[tactic(auto, unfolding(crate::specs::Marks::fence_at))]
pub fn fence_at(cells: &Columns, cursor: Cursor) -> Option<Fence>
    ensures { result ≡ fence_at cells.now cursor }
{
    let byte = cell_byte(cells, cursor.ink);
    if !is_fence_byte(byte) {
        return None;
    }
    let count = run_of(cells, cursor.ink, byte);
    let more = count_of(cells, cursor.ink.saturating_add(count), b'`');
    let fits = 3 <= count && !(byte == b'`' && 0 < more);
    if fits {
        Some(Fence {
            byte,
            count,
            indent: indent_of(cursor),
        })
    } else {
        None
    }
}

/// Whether the line at a cursor closes the code block of a fence.
#[tactic(auto, unfolding(crate::specs::Marks::closes_fence))]
pub fn closes_fence(cells: &Columns, cursor: Cursor, fence: Fence) -> bool
    ensures { result ≡ closes_fence cells.now cursor fence }
{
    let count = run_of(cells, cursor.ink, fence.byte);
    let alone = cells.len() <= ink_from(cells, cursor.ink.saturating_add(count));
    indent_of(cursor) <= 3 && fence.count <= count && alone
}

fn tail_in(bytes: &[u8], byte: u8) -> usize
    ensures { result ≡ length (take_while (λ b. (b == 32) || (b == byte)) (reverse bytes.now)) }
{
    bytes
        .iter()
        .rev()
        .take_while(|found| **found == b' ' || **found == byte)
        .count()
}

#[tactic(auto, using(crate::proofs::Columns::tail_asked))]
fn tail_length(cells: &Columns, byte: u8) -> usize
    ensures { result ≡ tail_length cells.now byte }
{
    tail_in(cells.bytes(), byte)
}

/// The tail of a line: it is looked for from the end, and no further than it goes.
#[tactic(auto, unfolding(crate::specs::Marks::tail_of))]
pub fn tail_of(cells: &Columns) -> Tail
    ensures { result ≡ tail_of cells.now }
{
    let inked = cells.len().saturating_sub(trailing(cells, b' '));
    let byte = cell_byte(cells, inked.saturating_sub(1));
    Tail {
        byte,
        from: cells.len().saturating_sub(tail_length(cells, byte)),
    }
}

#[tactic(auto, unfolding(crate::specs::Marks::is_rule_byte))]
fn is_rule_byte(byte: u8) -> bool
    ensures { result ≡ is_rule_byte byte }
{
    byte == b'*' || byte == b'-' || byte == b'_'
}

/// Whether the rest of a line with this tail is a thematic break.
#[tactic(auto, unfolding(crate::specs::Marks::is_rule))]
pub fn is_rule(cells: &Columns, tail: Tail, column: usize) -> bool
    ensures { result ≡ is_rule cells.now tail column }
{
    let byte = cell_byte(cells, column);
    let fits = is_rule_byte(byte) && byte == tail.byte && tail.from <= column;
    fits && 3 <= count_of(cells, column, byte)
}

#[tactic(auto, unfolding(crate::specs::Marks::is_underline_byte))]
fn is_underline_byte(byte: u8) -> bool
    ensures { result ≡ is_underline_byte byte }
{
    byte == b'=' || byte == b'-'
}

/// The level of the heading whose underline is at a column.
#[tactic(auto, unfolding(crate::specs::Marks::underline_at))]
pub fn underline_at(cells: &Columns, column: usize) -> Option<HeadingLevel>
    ensures { result ≡ underline_at cells.now column }
{
    let byte = cell_byte(cells, column);
    let behind = column.saturating_add(run_of(cells, column, byte));
    let fits = is_underline_byte(byte) && cells.len() <= ink_from(cells, behind);
    if !fits {
        return None;
    }
    if byte == b'=' {
        Some(HeadingLevel::H1)
    } else {
        Some(HeadingLevel::H2)
    }
}

fn digits_in(bytes: &[u8]) -> usize
    ensures { result ≡ length (take_while is_ascii_digit bytes.now) }
{
    bytes
        .iter()
        .take_while(|found| found.is_ascii_digit())
        .count()
}

#[tactic(auto, using(crate::proofs::Columns::digits_asked))]
fn digit_count(cells: &Columns, column: usize) -> usize
    ensures { result ≡ digit_count cells.now column }
{
    digits_in(rest(cells.bytes(), column))
}

#[tactic(auto, unfolding(crate::specs::Marks::number_step))]
fn number_step(number: u64, byte: u8) -> u64
    ensures { result ≡ number_step number byte }
{
    number
        .saturating_mul(10)
        .saturating_add(u64::from(byte.saturating_sub(b'0')))
}

fn number_of(digits: &[u8]) -> u64
    ensures { result ≡ number_of digits.now }
{
    let mut number = 0;
    for digit in digits {
        number = number_step(number, *digit);
    }
    number
}

#[tactic(auto, unfolding(crate::specs::Marks::bullet_at))]
fn bullet_at(cells: &Columns, column: usize) -> Option<Marker>
    ensures { result ≡ bullet_at cells.now column }
{
    let byte = cell_byte(cells, column);
    let bullet = byte == b'-' || byte == b'+' || byte == b'*';
    if bullet && is_behind(cells, column.saturating_add(1)) {
        Some(Marker {
            sort: byte,
            number: None,
            length: 1,
        })
    } else {
        None
    }
}

/// One to nine digits, and `.` or `)`.
#[tactic(auto, unfolding(crate::specs::Marks::ordered_at))]
fn ordered_at(cells: &Columns, column: usize) -> Option<Marker>
    ensures { result ≡ ordered_at cells.now column }
{
    let count = digit_count(cells, column);
    let last = column.saturating_add(count);
    let sort = cell_byte(cells, last);
    let ends = sort == b'.' || sort == b')';
    let fits = 1 <= count && count <= 9 && ends;
    if fits && is_behind(cells, last.saturating_add(1)) {
        Some(Marker {
            sort,
            number: Some(number_of(bytes_between(cells.bytes(), column, last))),
            length: count.saturating_add(1),
        })
    } else {
        None
    }
}

/// The marker of a list item at a column.
#[tactic(auto, unfolding(crate::specs::Marks::marker_at))]
pub fn marker_at(cells: &Columns, column: usize) -> Option<Marker>
    ensures { result ≡ marker_at cells.now column }
{
    match bullet_at(cells, column) {
        Some(marker) => Some(marker),
        None => ordered_at(cells, column),
    }
}
