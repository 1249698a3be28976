//! What a leaf keeps of a line.

ghost use Rattle.std.specs.Prelude.{◌≡◌};
ghost use Rattle.tocmark_read_page.specs.Pieces.{same_place, is_split, code_piece, whole_place, text_piece, heading_piece, keeps_line};

use crate::leaf::Leaf;
use tocmark_read_lines::beginnings::Heading;
use tocmark_read_lines::cell::{Columns, Cursor, cell_place, ink_from};
use tocmark_read_lines::line::Line;

/// A line of a leaf, without the prefixes of its containers. Places are bytes of the text.
#[derive(Clone, Copy)]
pub struct Piece {
    /// How many columns of spaces are left of a partly used tab just before it.
    pub spaces: usize,
    /// The place after the prefixes of its containers: before the blanks that a paragraph leaves out.
    pub from: usize,
    /// The place of its first byte.
    pub start: usize,
    /// The place of its line ending.
    pub end: usize,
    /// The place after its line ending.
    pub next: usize,
}

/// The number of columns from one on that are of the byte at a place.
#[tactic(auto, using(crate::proofs::Places::same_more, crate::proofs::Places::same_stop, crate::proofs::Places::same_end))]
fn same_place(cells: &Columns, column: usize, at: usize) -> usize
    ensures { result ≡ same_place cells.now column at }
{
    let mut count = 0;
    for next in column..cells.len() {
        if cell_place(cells, next, 0) != at {
            return count;
        }
        count = count.saturating_add(1);
    }
    count
}

/// Whether a column is not the first one of its tab.
#[tactic(auto, unfolding(crate::specs::Pieces::is_split))]
fn is_split(cells: &Columns, column: usize) -> bool
    ensures { result ≡ is_split cells.now column }
{
    let inside = 0 < column && column < cells.len();
    inside && cell_place(cells, column.saturating_sub(1), 0) == cell_place(cells, column, 0)
}

/// What a leaf keeps of a line of code or HTML: all from a column on.
#[tactic(auto, unfolding(crate::specs::Pieces::code_piece))]
pub fn code_piece(cells: &Columns, column: usize, line: Line) -> Piece
    ensures { result ≡ code_piece cells.now column line }
{
    let at = cell_place(cells, column, line.end);
    if is_split(cells, column) {
        let start = at.saturating_add(1);
        Piece {
            spaces: same_place(cells, column, at),
            from: start,
            start,
            end: line.end,
            next: line.next,
        }
    } else {
        Piece {
            spaces: 0,
            from: at,
            start: at,
            end: line.end,
            next: line.next,
        }
    }
}

/// The place of a column; of one that isn't the first of its tab the place after that tab.
#[tactic(auto, unfolding(crate::specs::Pieces::whole_place))]
fn whole_place(cells: &Columns, column: usize, line: Line) -> usize
    ensures { result ≡ whole_place cells.now column line }
{
    let at = cell_place(cells, column, line.end);
    if is_split(cells, column) {
        at.saturating_add(1)
    } else {
        at
    }
}

/// What a paragraph keeps of a line: all but the spaces at a cursor.
#[tactic(auto, unfolding(crate::specs::Pieces::text_piece))]
pub fn text_piece(cells: &Columns, cursor: Cursor, line: Line) -> Piece
    ensures { result ≡ text_piece cells.now cursor line }
{
    Piece {
        spaces: 0,
        from: whole_place(cells, cursor.column, line),
        start: cell_place(cells, cursor.ink, line.end),
        end: line.end,
        next: line.next,
    }
}

/// The text of a heading on one line; an empty one has no bytes.
#[tactic(auto, unfolding(crate::specs::Pieces::heading_piece))]
pub fn heading_piece(cells: &Columns, heading: Heading, line: Line) -> Piece
    ensures { result ≡ heading_piece cells.now heading line }
{
    let end = cell_place(cells, heading.to, line.end);
    let start = cell_place(cells, heading.from, line.end);
    Piece {
        spaces: 0,
        from: start,
        start,
        end,
        next: end,
    }
}

/// Whether a leaf reaches to a line that it takes from a column on: indented code ends before blank lines.
#[tactic(auto, unfolding(crate::specs::Pieces::keeps_line))]
pub fn keeps_line(cells: &Columns, column: usize, leaf: Leaf) -> bool
    ensures { result ≡ keeps_line cells.now column leaf }
{
    match leaf {
        Leaf::Indented => ink_from(cells, column) < cells.len(),
        Leaf::Nothing => true,
        Leaf::Paragraph => true,
        Leaf::Fenced(_) => true,
        Leaf::Html(_) => true,
        Leaf::Metadata(_) => true,
        Leaf::Table(_) => true,
    }
}
