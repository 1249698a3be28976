//! Code and HTML blocks: how they begin, and what they take of a line.

ghost use Rattle.std.specs.Prelude.{◌≡◌, OnOk};
ghost use Rattle.tocmark_read_blocks.specs.Codes.{html_ended, code_taken, indented_started, info_of, fence_started, html_started};
ghost use Rattle.tocmark_read_page.specs.Pages.{page};

use std::alloc::{AllocError, Global};
use tocmark_read_lines::beginnings::Fence;
use tocmark_read_lines::cell::{Columns, Cursor, cell_place, ink_from, trimmed};
use tocmark_read_lines::html::{HtmlKind, html_ends};
use tocmark_read_lines::line::Line;
use tocmark_read_page::leaf::Leaf;
use tocmark_read_page::line_start::{LineStart, ScannedLine};
use tocmark_read_page::page::{BlockKind, BlocksSoFar};
use tocmark_read_page::piece::{code_piece, keeps_line};
use tocmark_read_scan::basic::bytes_between;

/// Closes an open HTML block whose last line this is.
#[tactic(auto, unfolding(crate::specs::Codes::html_ended))]
fn end_html(so_far: &mut BlocksSoFar, rest: &[u8]) -> Result<(), AllocError>
    ensures { OnOk result (page so_far.new ≡ html_ended rest.now (page so_far.old)) }
{
    if let Leaf::Html(kind) = so_far.leaf {
        if html_ends(kind, rest) {
            so_far.finish_leaf()?;
        }
    }
    Ok(())
}

/// Puts a line of code or HTML into the open leaf.
#[tactic(auto, unfolding(crate::specs::Codes::code_taken))]
pub fn take_code(
    so_far: &mut BlocksSoFar,
    scan: &ScannedLine<'_, '_>,
    column: usize,
) -> Result<(), AllocError>
    ensures { OnOk result (page so_far.new
        ≡ code_taken scan.now.text.now scan.now.cells.now column scan.now.line (page so_far.old)) }
{
    let code = code_piece(scan.cells, column, scan.line);
    let keeps = keeps_line(scan.cells, column, so_far.leaf);
    so_far.take_piece(code, scan.line, keeps)?;
    end_html(so_far, bytes_between(scan.text, code.start, code.end))
}

#[tactic(auto, unfolding(crate::specs::Codes::indented_started))]
pub fn start_indented(
    so_far: &mut BlocksSoFar,
    alloc: Global,
    scan: &ScannedLine<'_, '_>,
    place: LineStart,
    column: usize,
) -> Result<(), AllocError>
    ensures { OnOk result (page so_far.new
        ≡ indented_started scan.now.text.now scan.now.cells.now scan.now.line place column
        (page so_far.old)) }
{
    so_far.close_to(alloc, scan.text, place.depth)?;
    let start = cell_place(scan.cells, column, scan.line.end);
    so_far.open_leaf(Leaf::Indented, BlockKind::Indented, start, scan.line)?;
    take_code(so_far, scan, column)
}

/// The fenced code block that a fence opens, with the range of its info string: the rest of the line without the
/// spaces round it.
#[tactic(auto, unfolding(crate::specs::Codes::info_of))]
fn info_of(cells: &Columns, cursor: Cursor, fence: Fence, line: Line) -> BlockKind
    ensures { result ≡ info_of cells.now cursor fence line }
{
    let from = ink_from(cells, cursor.ink.saturating_add(fence.count));
    let to = trimmed(cells, from, cells.len(), b' ');
    BlockKind::Fenced(
        cell_place(cells, from, line.end),
        cell_place(cells, to, line.end),
    )
}

#[tactic(auto, unfolding(crate::specs::Codes::fence_started))]
pub fn start_fence(
    so_far: &mut BlocksSoFar,
    alloc: Global,
    scan: &ScannedLine<'_, '_>,
    place: LineStart,
    fence: Fence,
) -> Result<(), AllocError>
    ensures { OnOk result (page so_far.new
        ≡ fence_started scan.now.text.now scan.now.cells.now scan.now.line place fence
        (page so_far.old)) }
{
    so_far.close_to(alloc, scan.text, place.depth)?;
    let start = cell_place(scan.cells, place.cursor.ink, scan.line.end);
    let kind = info_of(scan.cells, place.cursor, fence, scan.line);
    so_far.open_leaf(Leaf::Fenced(fence), kind, start, scan.line)
}

#[tactic(auto, unfolding(crate::specs::Codes::html_started))]
pub fn start_html(
    so_far: &mut BlocksSoFar,
    alloc: Global,
    scan: &ScannedLine<'_, '_>,
    place: LineStart,
    kind: HtmlKind,
) -> Result<(), AllocError>
    ensures { OnOk result (page so_far.new
        ≡ html_started scan.now.text.now scan.now.cells.now scan.now.line place kind
        (page so_far.old)) }
{
    so_far.close_to(alloc, scan.text, place.depth)?;
    let start = cell_place(scan.cells, place.cursor.column, scan.line.end);
    so_far.open_leaf(Leaf::Html(kind), BlockKind::Html, start, scan.line)?;
    take_code(so_far, scan, place.cursor.column)
}
