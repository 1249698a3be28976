//! Containers: which one begins at a place of a line, and how it opens.

ghost use Rattle.std.specs.Prelude.{◌≡◌, OnOk, IfOk};
ghost use Rattle.tocmark_read_blocks.specs.Containers.{goes_directly, is_in_list, list_started, item_opened, container_once_in, containers_opened_in};
ghost use Rattle.tocmark_read_page.specs.Pages.{page};

use std::alloc::{AllocError, Global};
use tocmark_read_constructs::definition_list::open_definition;
use tocmark_read_constructs::footnote::open_note;
use tocmark_read_constructs::quote::open_quote;
use tocmark_read_lines::beginnings::Tail;
use tocmark_read_lines::cell::{cell_place, moved};
use tocmark_read_lines::container::{Container, ContainerStart, ItemStart, container_in};
use tocmark_read_lines::line::Line;
use tocmark_read_page::leaf::is_paragraph;
use tocmark_read_page::line_start::{LineStart, ScannedLine};
use tocmark_read_page::page::{BlockKind, BlocksSoFar};

/// Whether the open paragraph is in the innermost container that goes on.
#[tactic(auto, unfolding(crate::specs::Containers::goes_directly))]
pub fn goes_directly(so_far: &BlocksSoFar, depth: usize) -> bool
    ensures { result ≡ goes_directly depth (page so_far.now) }
{
    is_paragraph(so_far.leaf) && so_far.opened.len() <= depth
}

#[tactic(auto, unfolding(crate::specs::Containers::is_in_list))]
fn is_in_list(so_far: &BlocksSoFar, sort: u8) -> bool
    ensures { result ≡ is_in_list sort (page so_far.now) }
{
    match so_far
        .opened
        .get(so_far.opened.len().saturating_sub(1))
        .copied()
    {
        None => false,
        Some(one) => match one.container {
            Container::Quote => false,
            Container::List(same) => same == sort,
            Container::Item(_) => false,
            Container::Footnote => false,
            Container::Definitions => false,
            Container::Definition(_) => false,
        },
    }
}

/// Begins the list of an item, if the innermost container isn't one of its sort.
#[tactic(auto, unfolding(crate::specs::Containers::list_started))]
fn start_list(
    so_far: &mut BlocksSoFar,
    item: ItemStart,
    start: usize,
    line: Line,
) -> Result<(), AllocError>
    ensures { OnOk result (page so_far.new ≡ list_started item start line (page so_far.old)) }
{
    if !is_in_list(so_far, item.sort) {
        so_far.leave_list()?;
        let kind = BlockKind::List(item.number);
        so_far.open(Container::List(item.sort), kind, start, line)?;
    }
    Ok(())
}

#[tactic(auto, unfolding(crate::specs::Containers::item_opened))]
fn open_item(
    so_far: &mut BlocksSoFar,
    alloc: Global,
    scan: &ScannedLine<'_, '_>,
    place: LineStart,
    item: ItemStart,
) -> Result<LineStart, AllocError>
    ensures { IfOk result (λ next.
        (page so_far.new, next)
        ≡ item_opened scan.now.text.now scan.now.cells.now scan.now.line place item
        (page so_far.old)) }
{
    so_far.close_to(alloc, scan.text, place.depth)?;
    let start = cell_place(scan.cells, place.cursor.ink, scan.line.end);
    start_list(so_far, item, start, scan.line)?;
    so_far.open(
        Container::Item(item.width),
        BlockKind::Item,
        start,
        scan.line,
    )?;
    Ok(LineStart {
        cursor: moved(scan.cells, place.cursor, item.next),
        depth: so_far.opened.len(),
    })
}

/// Opens the container that begins at a place, and gives the place after its marker.
#[tactic(auto, unfolding(crate::specs::Containers::container_once_in))]
fn open_once(
    so_far: &mut BlocksSoFar,
    alloc: Global,
    scan: &ScannedLine<'_, '_>,
    tail: Tail,
    place: LineStart,
) -> Result<Option<LineStart>, AllocError>
    ensures { IfOk result (λ next.
        (page so_far.new, next)
        ≡ container_once_in scan.now.known.syntax scan.now.text.now scan.now.cells.now scan.now.line
        tail place
        (page so_far.old)) }
{
    let directly = goes_directly(so_far, place.depth);
    match container_in(scan.known.syntax, scan.cells, tail, place.cursor, directly) {
        None => Ok(None),
        Some(ContainerStart::Quote) => {
            let next = open_quote(so_far, alloc, scan, place)?;
            Ok(Some(next))
        }
        Some(ContainerStart::Item(item)) => {
            let next = open_item(so_far, alloc, scan, place, item)?;
            Ok(Some(next))
        }
        Some(ContainerStart::Footnote(note)) => {
            let next = open_note(so_far, alloc, scan, place, note)?;
            Ok(Some(next))
        }
        Some(ContainerStart::Definition(start)) => {
            open_definition(so_far, alloc, scan, place, start)
        }
    }
}

/// Opens the containers that begin at a place one after the other.
#[tactic(auto, using(tocmark_read_scan::proofs::Repeats::repeated_zero, tocmark_read_scan::proofs::Repeats::repeated_stop, tocmark_read_scan::proofs::Repeats::repeated_more))]
pub fn open_all(
    so_far: &mut BlocksSoFar,
    alloc: Global,
    scan: &ScannedLine<'_, '_>,
    tail: Tail,
    first: LineStart,
) -> Result<LineStart, AllocError>
    ensures { IfOk result (λ last.
        (page so_far.new, last)
        ≡ containers_opened_in scan.now.known.syntax scan.now.text.now scan.now.cells.now
        scan.now.line tail first
        (page so_far.old)) }
{
    let mut place = first;
    for _steps_left in (0..scan.cells.len()).rev() {
        match open_once(so_far, alloc, scan, tail, place)? {
            None => return Ok(place),
            Some(next) => place = next,
        }
    }
    Ok(place)
}
