//! The definitions of footnotes.

ghost use Rattle.std.specs.Prelude.{◌≡◌, IfOk};
ghost use Rattle.tocmark_read_constructs.specs.Footnotes.{note_opened, is_ended_by_note};
ghost use Rattle.tocmark_read_page.specs.Pages.{page};

use std::alloc::{AllocError, Global};
use tocmark_read_lines::cell::{Columns, cell_place, moved};
use tocmark_read_lines::container::Container;
use tocmark_read_lines::footnote::{FootnoteStart, note_at};
use tocmark_read_page::leaf::is_table;
use tocmark_read_page::line_start::{LineStart, ScannedLine};
use tocmark_read_page::page::{BlockKind, BlocksSoFar};

/// Opens the definition of a footnote, and gives the place after its colon. It ends one in which it would be
/// directly.
#[tactic(auto, unfolding(crate::specs::Footnotes::note_opened))]
pub fn open_note(
    so_far: &mut BlocksSoFar,
    alloc: Global,
    scan: &ScannedLine<'_, '_>,
    place: LineStart,
    note: FootnoteStart,
) -> Result<LineStart, AllocError>
    ensures { IfOk result (λ next.
        (page so_far.new, next)
        ≡ note_opened scan.now.text.now scan.now.cells.now scan.now.line place note
        (page so_far.old)) }
{
    so_far.close_to(alloc, scan.text, place.depth)?;
    so_far.leave_list()?;
    so_far.leave_note()?;
    let start = cell_place(scan.cells, place.cursor.ink, scan.line.end);
    let kind = BlockKind::Footnote(
        cell_place(scan.cells, note.from, scan.line.end),
        cell_place(scan.cells, note.to, scan.line.end),
    );
    so_far.open(Container::Footnote, kind, start, scan.line)?;
    Ok(LineStart {
        cursor: moved(scan.cells, place.cursor, note.next),
        depth: so_far.opened.len(),
    })
}

/// Whether a line with the definition of a footnote ends the open table.
pub fn is_ended_by_note(so_far: &BlocksSoFar, cells: &Columns, place: LineStart) -> bool
    ensures { result ≡ is_ended_by_note cells.now place (page so_far.now) }
{
    is_table(so_far.leaf) && note_at(cells, place.cursor.ink).is_some()
}
