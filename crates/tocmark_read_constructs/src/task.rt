//! Boxes of tasks: their bytes, after which marker one is, and what it belongs to.

ghost use Rattle.std.specs.Prelude.{◌≡◌, OnOk};
ghost use Rattle.tocmark_read_constructs.specs.Tasks.{is_box_space, box_of, ends_box, box_at, is_new_item, task_in, with_task, boxed_taken, task_started};
ghost use Rattle.tocmark_read_page.specs.Pages.{page};

use crate::blanks::behind_blanks;
use std::alloc::{AllocError, Global};
use tocmark_read_lines::cell::{cell_place, indent_of, is_blank_at};
use tocmark_read_lines::container::is_empty_item;
use tocmark_read_lines::line::Line;
use tocmark_read_page::leaf::Leaf;
use tocmark_read_page::line_start::{LineStart, ScannedLine};
use tocmark_read_page::packed::{block_at, set_block};
use tocmark_read_page::page::{Block, BlockKind, BlocksSoFar, Task};
use tocmark_read_page::piece::Piece;
use tocmark_read_scan::basic::byte_at;

/// Whether a byte is a space, a tab, a vertical tab or a form feed.
#[tactic(auto, unfolding(crate::specs::Tasks::is_box_space))]
fn is_box_space(byte: u8) -> bool
    ensures { result ≡ is_box_space byte }
{
    byte == b' ' || byte == b'\t' || byte == 11 || byte == 12
}

#[tactic(auto, unfolding(crate::specs::Tasks::box_of))]
fn box_of(byte: u8) -> Option<bool>
    ensures { result ≡ box_of byte }
{
    if byte == b'x' || byte == b'X' {
        Some(true)
    } else if is_box_space(byte) {
        Some(false)
    } else {
        None
    }
}

#[tactic(auto, unfolding(crate::specs::Tasks::ends_box))]
fn ends_box(text: &[u8], line: Line, place: usize) -> bool
    ensures { result ≡ ends_box text.now line place }
{
    if place < line.end {
        is_box_space(byte_at(text, place))
    } else {
        line.end < line.next
    }
}

/// The box at a place of a line, true where it is checked: a space, `x` or `X` between brackets, and a
/// space or the line ending after them.
#[tactic(auto, unfolding(crate::specs::Tasks::box_at))]
fn box_at(text: &[u8], line: Line, place: usize) -> Option<bool>
    ensures { result ≡ box_at text.now line place }
{
    if byte_at(text, place) == b'['
        && byte_at(text, place.saturating_add(2)) == b']'
        && ends_box(text, line, place.saturating_add(3))
    {
        box_of(byte_at(text, place.saturating_add(1)))
    } else {
        None
    }
}

/// Whether the innermost container is an item that began in this line and has no block yet.
#[tactic(auto, unfolding(crate::specs::Tasks::is_new_item))]
fn is_new_item(so_far: &BlocksSoFar, line: Line, depth: usize) -> bool
    ensures { result ≡ is_new_item line depth (page so_far.now) }
{
    if depth < so_far.opened.len() {
        return false;
    }
    match so_far
        .opened
        .get(so_far.opened.len().saturating_sub(1))
        .copied()
    {
        None => false,
        Some(one) => is_empty_item(one) && one.line == line.number,
    }
}

/// The box just after the marker of an item, true where it is checked.
#[tactic(auto, unfolding(crate::specs::Tasks::task_in))]
pub fn task_in(so_far: &BlocksSoFar, scan: &ScannedLine<'_, '_>, place: LineStart) -> Option<bool>
    ensures { result ≡ task_in scan.now.known scan.now.text.now scan.now.cells.now scan.now.line
        place (page so_far.now) }
{
    if scan.known.syntax.task_lists
        && !is_blank_at(scan.cells, place.cursor)
        && indent_of(place.cursor) == 0
        && is_new_item(so_far, scan.line, place.depth)
    {
        let start = cell_place(scan.cells, place.cursor.ink, scan.line.end);
        box_at(scan.text, scan.line, start)
    } else {
        None
    }
}

/// Gives the last block a box.
#[tactic(auto, unfolding(crate::specs::Tasks::with_task))]
fn set_task(so_far: &mut BlocksSoFar, done: bool, start: usize) -> Result<(), AllocError>
    ensures { OnOk result (page so_far.new ≡ with_task done start (page so_far.old)) }
{
    let index = so_far.blocks.len().saturating_sub(1);
    if let Some(block) = block_at(&so_far.blocks, index) {
        let task = Some(Task { done, start });
        set_block(&mut so_far.blocks, index, Block { task, ..block })?;
    }
    Ok(())
}

/// Begins a paragraph with a box, and the rest of its line.
#[tactic(auto, unfolding(crate::specs::Tasks::boxed_taken))]
fn take_boxed(
    so_far: &mut BlocksSoFar,
    alloc: Global,
    scan: &ScannedLine<'_, '_>,
    place: LineStart,
    task: Task,
    behind: usize,
) -> Result<(), AllocError>
    ensures { OnOk result (page so_far.new
        ≡ boxed_taken scan.now.text.now scan.now.line place task.done task.start behind
        (page so_far.old)) }
{
    so_far.close_to(alloc, scan.text, place.depth)?;
    so_far.open_leaf(Leaf::Paragraph, BlockKind::Paragraph, task.start, scan.line)?;
    set_task(so_far, task.done, task.start)?;
    let words = Piece {
        spaces: 0,
        from: behind,
        start: behind,
        end: scan.line.end,
        next: scan.line.next,
    };
    so_far.take_piece(words, scan.line, true)
}

/// Takes a box: of the item where it is all of its line, and else of the paragraph after it.
#[tactic(auto, unfolding(crate::specs::Tasks::task_started))]
pub fn start_task(
    so_far: &mut BlocksSoFar,
    alloc: Global,
    scan: &ScannedLine<'_, '_>,
    place: LineStart,
    done: bool,
) -> Result<(), AllocError>
    ensures { OnOk result (page so_far.new
        ≡ task_started scan.now.text.now scan.now.cells.now scan.now.line place done
        (page so_far.old)) }
{
    let start = cell_place(scan.cells, place.cursor.ink, scan.line.end);
    let behind = behind_blanks(scan.text, start.saturating_add(3));
    if behind < scan.line.end {
        return take_boxed(so_far, alloc, scan, place, Task { done, start }, behind);
    }
    set_task(so_far, done, start)
}
