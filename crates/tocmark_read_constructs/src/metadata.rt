//! Metadata: the lines that open and close it, and where it begins.

ghost use Rattle.std.specs.Prelude.{◌≡◌, OnOk};
ghost use Rattle.tocmark_event.specs.declared.event.MetadataBlockKind.TheVariants as metadata;
ghost use Rattle.tocmark_read_constructs.specs.Metadata.{is_triple, ends_line, is_blank_line, mark_of, has_dots, opens_metadata, closes_metadata, last_step, last_closing, known_of, begins_metadata, metadata_started, is_outside, is_front, metadata_in};
ghost use Rattle.tocmark_read_lines.specs.Lines.{lines_of};
ghost use Rattle.tocmark_read_page.specs.Pages.{page};

use crate::blanks::{behind_blanks, behind_spaces};
use memchr::memchr2_iter;
use std::alloc::{AllocError, Global};
use tocmark_event::event::MetadataBlockKind;
use tocmark_read_lines::cell::{Columns, cell_place, is_blank_at};
use tocmark_read_lines::line::{Line, line_ended, line_left};
use tocmark_read_page::leaf::{Leaf, is_paragraph};
use tocmark_read_page::line_start::{Known, LineStart, ScannedLine};
use tocmark_read_page::page::{BlockKind, BlocksSoFar, is_list};
use tocmark_read_scan::basic::byte_at;
use tocmark_read_scan::syntax::Syntax;

#[tactic(auto, unfolding(crate::specs::Metadata::is_triple))]
fn is_triple(text: &[u8], place: usize, byte: u8) -> bool
    ensures { result ≡ is_triple text.now place byte }
{
    byte_at(text, place) == byte
        && byte_at(text, place.saturating_add(1)) == byte
        && byte_at(text, place.saturating_add(2)) == byte
}

#[tactic(auto, unfolding(crate::specs::Metadata::ends_line))]
fn ends_line(text: &[u8], place: usize) -> bool
    ensures { result ≡ ends_line text.now place }
{
    byte_at(text, place) == b'\n' || byte_at(text, place) == b'\r'
}

#[tactic(auto, unfolding(crate::specs::Metadata::is_blank_line))]
fn is_blank_line(text: &[u8], place: usize) -> bool
    ensures { result ≡ is_blank_line text.now place }
{
    ends_line(text, behind_blanks(text, place))
}

#[tactic(auto, unfolding(crate::specs::Metadata::mark_of))]
fn mark_of(kind: MetadataBlockKind) -> u8
    ensures { result ≡ mark_of kind }
{
    match kind {
        MetadataBlockKind::YamlStyle => b'-',
        MetadataBlockKind::PlusesStyle => b'+',
    }
}

#[tactic(auto, unfolding(crate::specs::Metadata::has_dots))]
fn has_dots(kind: MetadataBlockKind) -> bool
    ensures { result ≡ has_dots kind }
{
    match kind {
        MetadataBlockKind::YamlStyle => true,
        MetadataBlockKind::PlusesStyle => false,
    }
}

#[tactic(auto, unfolding(crate::specs::Metadata::opens_metadata))]
fn opens_metadata(kind: MetadataBlockKind, text: &[u8], place: usize) -> bool
    ensures { result ≡ opens_metadata kind text.now place }
{
    is_triple(text, place, mark_of(kind)) && is_blank_line(text, place.saturating_add(3))
}

/// Whether the line that begins at a place of a text closes metadata of a kind: three of its marks, or
/// three dots after dashes, and spaces.
#[tactic(auto, unfolding(crate::specs::Metadata::closes_metadata))]
pub fn closes_metadata(kind: MetadataBlockKind, text: &[u8], place: usize) -> bool
    ensures { result ≡ closes_metadata kind text.now place }
{
    let dots = has_dots(kind) && is_triple(text, place, b'.');
    let marks = is_triple(text, place, mark_of(kind)) || dots;
    marks && ends_line(text, behind_spaces(text, place.saturating_add(3)))
}

#[tactic(auto, unfolding(crate::specs::Metadata::last_step))]
fn last_step(kind: MetadataBlockKind, text: &[u8], last: usize, line: Line) -> usize
    ensures { result ≡ last_step kind text.now last line }
{
    if closes_metadata(kind, text, line.start) {
        line.number
    } else {
        last
    }
}

/// The numbers of the last lines of a text that close metadata, with dashes and with pluses. 0 if none does.
#[tactic(auto, using(tocmark_read_lines::proofs::LineEnds::lines_by_places))]
fn last_closings(text: &[u8]) -> (usize, usize)
    ensures yaml { result.0 ≡ last_closing metadata.YamlStyle text.now (lines_of text.now) }
    ensures pluses { result.1 ≡ last_closing metadata.PlusesStyle text.now (lines_of text.now) }
{
    let (dashes, plus) = (MetadataBlockKind::YamlStyle, MetadataBlockKind::PlusesStyle);
    let mut yaml = 0;
    let mut pluses = 0;
    let mut before = 0;
    let mut start = 0;
    for at in memchr2_iter(b'\n', b'\r', text) {
        if let Some(line) = line_ended(text, before, start, at) {
            yaml = last_step(dashes, text, yaml, line);
            pluses = last_step(plus, text, pluses, line);
            before = line.number;
            start = line.next;
        }
    }
    match line_left(before, start, text.len()) {
        Some(line) => (
            last_step(dashes, text, yaml, line),
            last_step(plus, text, pluses, line),
        ),
        None => (yaml, pluses),
    }
}

/// What is known of a text before its lines are read with a syntax.
#[tactic(auto, unfolding(crate::specs::Metadata::known_of))]
pub fn known_of(syntax: Syntax, text: &[u8]) -> Known
    ensures { result ≡ known_of syntax text.now (lines_of text.now) }
{
    let (yaml, pluses) = if syntax.yaml_metadata || syntax.pluses_metadata {
        last_closings(text)
    } else {
        (0, 0)
    };
    Known {
        syntax,
        yaml_end: if syntax.yaml_metadata { yaml } else { 0 },
        pluses_end: if syntax.pluses_metadata { pluses } else { 0 },
    }
}

/// Whether metadata of a kind begins with a line, where `end` is the number of the last line that closes
/// some: the next line is neither blank nor closes it.
#[tactic(auto, unfolding(crate::specs::Metadata::begins_metadata))]
fn begins_metadata(kind: MetadataBlockKind, end: usize, text: &[u8], line: Line) -> bool
    ensures { result ≡ begins_metadata kind end text.now line }
{
    line.number < end
        && opens_metadata(kind, text, line.start)
        && !is_blank_line(text, line.next)
        && !closes_metadata(kind, text, line.next)
}

/// Begins metadata, outside of all containers.
#[tactic(auto, unfolding(crate::specs::Metadata::metadata_started))]
pub fn start_metadata(
    so_far: &mut BlocksSoFar,
    alloc: Global,
    scan: &ScannedLine<'_, '_>,
    place: LineStart,
    kind: MetadataBlockKind,
) -> Result<(), AllocError>
    ensures { OnOk result (page so_far.new
        ≡ metadata_started scan.now.text.now scan.now.cells.now scan.now.line place kind
        (page so_far.old)) }
{
    so_far.close_to(alloc, scan.text, 0)?;
    let start = cell_place(scan.cells, place.cursor.ink, scan.line.end);
    so_far.open_leaf(
        Leaf::Metadata(kind),
        BlockKind::Metadata(kind),
        start,
        scan.line,
    )
}

/// Whether no container goes on at a depth, but for a list that waits for an item.
#[tactic(auto, unfolding(crate::specs::Metadata::is_outside))]
fn is_outside(so_far: &BlocksSoFar, depth: usize) -> bool
    ensures { result ≡ is_outside depth (page so_far.now) }
{
    let waits = match so_far.opened.get(0).copied() {
        None => false,
        Some(first) => is_list(first.container),
    };
    depth == 0 || depth == 1 && waits
}

/// Whether a place is the first byte of a line that is in no container.
#[tactic(auto, unfolding(crate::specs::Metadata::is_front))]
fn is_front(so_far: &BlocksSoFar, cells: &Columns, place: LineStart) -> bool
    ensures { result ≡ is_front cells.now place (page so_far.now) }
{
    !is_blank_at(cells, place.cursor) && place.cursor.ink == 0 && is_outside(so_far, place.depth)
}

/// The metadata that a line opens. Dashes below a paragraph underline it, and pluses go on with it.
#[tactic(auto, unfolding(crate::specs::Metadata::metadata_in))]
pub fn metadata_in(
    so_far: &BlocksSoFar,
    scan: &ScannedLine<'_, '_>,
    place: LineStart,
    directly: bool,
) -> Option<MetadataBlockKind>
    ensures { result ≡ metadata_in scan.now.known scan.now.text.now scan.now.cells.now scan.now.line
        place directly (page so_far.now) }
{
    let Known {
        syntax,
        yaml_end,
        pluses_end,
    } = scan.known;
    let dashes = MetadataBlockKind::YamlStyle;
    let pluses = MetadataBlockKind::PlusesStyle;
    if syntax.yaml_metadata
        && is_front(so_far, scan.cells, place)
        && !directly
        && begins_metadata(dashes, yaml_end, scan.text, scan.line)
    {
        return Some(dashes);
    }
    if syntax.pluses_metadata
        && is_front(so_far, scan.cells, place)
        && !is_paragraph(so_far.leaf)
        && begins_metadata(pluses, pluses_end, scan.text, scan.line)
    {
        return Some(pluses);
    }
    None
}
