//! The definitions of footnotes.

ghost use Rattle.std.specs.Prelude.{◌≡◌};
ghost use Rattle.tocmark_read_lines.specs.Footnotes.{note_at, note_start};

use crate::cell::{Columns, Cursor, cell_byte, indent_of, ink_from, is_blank_at};
use tocmark_read_scan::syntax::Syntax;
use tocmark_read_tokens::footnote::note_label;

/// The definition of a footnote that a line begins.
#[derive(Clone, Copy)]
pub struct FootnoteStart {
    /// The first column of its name.
    pub from: usize,
    /// The column after its name.
    pub to: usize,
    /// The first column after its colon that is no space.
    pub next: usize,
}

/// The definition of a footnote at a column: a label, and a colon just after it.
#[tactic(auto, unfolding(crate::specs::Footnotes::note_at))]
pub fn note_at(cells: &Columns, column: usize) -> Option<FootnoteStart>
    ensures { result ≡ note_at cells.now column }
{
    let name = note_label(cells.bytes(), column)?;
    if cell_byte(cells, name.next) == b':' {
        Some(FootnoteStart {
            from: name.start,
            to: name.end,
            next: ink_from(cells, name.next.saturating_add(1)),
        })
    } else {
        None
    }
}

/// The definition of a footnote that begins at a cursor, after at most three spaces, where footnotes are
/// read.
#[tactic(auto, unfolding(crate::specs::Footnotes::note_start))]
pub fn note_start(syntax: Syntax, cells: &Columns, cursor: Cursor) -> Option<FootnoteStart>
    ensures { result ≡ note_start syntax cells.now cursor }
{
    if syntax.footnotes && !is_blank_at(cells, cursor) && indent_of(cursor) <= 3 {
        note_at(cells, cursor.ink)
    } else {
        None
    }
}
