//! Headings: on one line or underlined, with the attributes after their text.

ghost use Rattle.std.specs.Prelude.{◌≡◌, not, length, reverse, take_while, OnOk};
ghost use Rattle.tocmark_read_constructs.specs.Headings.{is_no_word, braces_in, heading_braces, before_braces, placed_braces, heading_started_in, heading_put, cut_before, underlined_attributed, underlined, underlined_in};
ghost use Rattle.tocmark_read_page.specs.Pages.{page};

use crate::blanks::trailing_blanks;
use std::alloc::{AllocError, Global};
use tocmark_event::event::HeadingLevel;
use tocmark_read_lines::beginnings::{Heading, heading_end_before};
use tocmark_read_lines::cell::{Columns, cell_place};
use tocmark_read_lines::line::Line;
use tocmark_read_page::leaf::Leaf;
use tocmark_read_page::line_start::{LineStart, ScannedLine};
use tocmark_read_page::packed::{block_at, set_block};
use tocmark_read_page::page::{Block, BlockKind, BlocksSoFar, Braces};
use tocmark_read_page::piece::{Piece, heading_piece};
use tocmark_read_scan::basic::{byte_at, bytes_between, set};

/// Whether a byte can't be between braces: a brace, an angle bracket or a backslash.
#[tactic(auto, unfolding(crate::specs::Headings::is_no_word))]
fn is_no_word(byte: u8) -> bool
    ensures { result ≡ is_no_word byte }
{
    byte == b'{' || byte == b'}' || byte == b'<' || byte == b'>' || byte == b'\\'
}

/// The number of bytes at the end that may be between braces.
fn trailing_words(bytes: &[u8]) -> usize
    ensures { result ≡ length (take_while (λ b. not (is_no_word b)) (reverse bytes.now)) }
{
    bytes
        .iter()
        .rev()
        .take_while(|byte| !is_no_word(**byte))
        .count()
}

/// The braces at the end of a text, but for spaces and tabs, with nothing but words between them: no
/// brace, angle bracket or backslash. Their places are counted from the front of the text.
#[tactic(auto, unfolding(crate::specs::Headings::braces_in))]
fn braces_in(bytes: &[u8]) -> Option<Braces>
    ensures { result ≡ braces_in bytes.now }
{
    let inked = bytes.len().saturating_sub(trailing_blanks(bytes));
    let to = inked.saturating_sub(1);
    let words = trailing_words(bytes_between(bytes, 0, to));
    let from = to.saturating_sub(words).saturating_sub(1);
    if byte_at(bytes, to) == b'}' && byte_at(bytes, from) == b'{' {
        Some(Braces { from, to })
    } else {
        None
    }
}

/// The braces after the text of a heading on one line, in columns from the first one of its text on.
#[tactic(auto, unfolding(crate::specs::Headings::heading_braces))]
fn heading_braces(cells: &Columns, heading: Heading) -> Option<Braces>
    ensures { result ≡ heading_braces cells.now heading }
{
    braces_in(bytes_between(cells.bytes(), heading.from, cells.len()))
}

/// The heading whose text ends before braces, which are so many columns after its first one.
#[tactic(auto, unfolding(crate::specs::Headings::before_braces))]
fn before_braces(cells: &Columns, heading: Heading, braces: Braces) -> Heading
    ensures { result ≡ before_braces cells.now heading braces }
{
    let to = heading_end_before(
        cells,
        heading.from,
        heading.from.saturating_add(braces.from),
    );
    Heading { to, ..heading }
}

/// Where the braces of a heading are in the text, whose line ends at `end`.
#[tactic(auto, unfolding(crate::specs::Headings::placed_braces))]
fn placed_braces(cells: &Columns, heading: Heading, end: usize, braces: Braces) -> Braces
    ensures { result ≡ placed_braces cells.now heading end braces }
{
    Braces {
        from: cell_place(cells, heading.from.saturating_add(braces.from), end),
        to: cell_place(cells, heading.from.saturating_add(braces.to), end),
    }
}

/// Begins a heading on one line, with the attributes that are read outside of its text.
#[tactic(auto, unfolding(crate::specs::Headings::heading_started_in))]
pub fn start_heading(
    so_far: &mut BlocksSoFar,
    alloc: Global,
    scan: &ScannedLine<'_, '_>,
    place: LineStart,
    heading: Heading,
) -> Result<(), AllocError>
    ensures { OnOk result (page so_far.new
        ≡ heading_started_in scan.now.known scan.now.text.now scan.now.cells.now scan.now.line place
        heading (page so_far.old)) }
{
    if !scan.known.syntax.heading_attributes {
        return put_heading(so_far, alloc, scan, place, None, heading);
    }
    match heading_braces(scan.cells, heading) {
        None => put_heading(so_far, alloc, scan, place, None, heading),
        Some(found) => {
            let braces = placed_braces(scan.cells, heading, scan.line.end, found);
            let before = before_braces(scan.cells, heading, found);
            put_heading(so_far, alloc, scan, place, Some(braces), before)
        }
    }
}

#[tactic(auto, unfolding(crate::specs::Headings::heading_put))]
fn put_heading(
    so_far: &mut BlocksSoFar,
    alloc: Global,
    scan: &ScannedLine<'_, '_>,
    place: LineStart,
    braces: Option<Braces>,
    heading: Heading,
) -> Result<(), AllocError>
    ensures { OnOk result (page so_far.new
        ≡ heading_put scan.now.text.now scan.now.cells.now scan.now.line place braces heading
        (page so_far.old)) }
{
    so_far.close_to(alloc, scan.text, place.depth)?;
    let start = cell_place(scan.cells, place.cursor.ink, scan.line.end);
    let kind = BlockKind::Heading(heading.level, braces);
    so_far.open_leaf(Leaf::Nothing, kind, start, scan.line)?;
    so_far.take_piece(
        heading_piece(scan.cells, heading, scan.line),
        scan.line,
        true,
    )?;
    so_far.finish_leaf()
}

/// Ends the last line of the open paragraph before its braces; it goes if it has nothing else.
#[tactic(auto, unfolding(crate::specs::Headings::cut_before))]
fn cut_before(so_far: &mut BlocksSoFar, piece: Piece, braces: Braces)
    ensures { page so_far.new ≡ cut_before piece braces (page so_far.old) }
{
    let last = so_far.pieces.len().saturating_sub(1);
    if braces.from == 0 {
        so_far.pieces.truncate(last);
    } else {
        let end = piece.start.saturating_add(braces.from);
        set(&mut so_far.pieces, last, Piece { end, ..piece });
    }
}

/// Makes the open paragraph a heading, whose last line may end with attributes.
#[tactic(auto, unfolding(crate::specs::Headings::underlined_attributed))]
fn underline_attributed(
    so_far: &mut BlocksSoFar,
    text: &[u8],
    level: HeadingLevel,
    line: Line,
) -> Result<(), AllocError>
    ensures { OnOk result (page so_far.new
        ≡ underlined_attributed text.now level line (page so_far.old)) }
{
    let last = so_far.pieces.len().saturating_sub(1);
    match so_far.pieces.get(last).copied() {
        None => underline(so_far, level, None, line),
        Some(piece) => match braces_in(bytes_between(text, piece.start, piece.end)) {
            None => underline(so_far, level, None, line),
            Some(found) => {
                let braces = Braces {
                    from: piece.start.saturating_add(found.from),
                    to: piece.start.saturating_add(found.to),
                };
                cut_before(so_far, piece, found);
                underline(so_far, level, Some(braces), line)
            }
        },
    }
}

/// Makes the open paragraph a heading that ends with this line.
#[tactic(auto, unfolding(crate::specs::Headings::underlined))]
fn underline(
    so_far: &mut BlocksSoFar,
    level: HeadingLevel,
    braces: Option<Braces>,
    line: Line,
) -> Result<(), AllocError>
    ensures { OnOk result (page so_far.new ≡ underlined level braces line (page so_far.old)) }
{
    let index = so_far.blocks.len().saturating_sub(1);
    if let Some(block) = block_at(&so_far.blocks, index) {
        let kind = BlockKind::Heading(level, braces);
        set_block(&mut so_far.blocks, index, Block { kind, ..block })?;
    }
    so_far.end = line.end;
    so_far.line = line.number;
    so_far.finish_leaf()
}

/// Makes the open paragraph a heading of a level, whose underline is the line. Where attributes of headings are
/// read, those after its text leave it.
#[tactic(auto, unfolding(crate::specs::Headings::underlined_in))]
pub fn make_heading(
    so_far: &mut BlocksSoFar,
    scan: &ScannedLine<'_, '_>,
    level: HeadingLevel,
) -> Result<(), AllocError>
    ensures { OnOk result (page so_far.new
        ≡ underlined_in scan.now.known scan.now.text.now level scan.now.line (page so_far.old)) }
{
    if scan.known.syntax.heading_attributes {
        underline_attributed(so_far, scan.text, level, scan.line)
    } else {
        underline(so_far, level, None, scan.line)
    }
}
