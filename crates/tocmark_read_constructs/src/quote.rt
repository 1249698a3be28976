//! Block quotes, and the kinds that their first lines name.

ghost use Rattle.std.specs.Prelude.{◌≡◌, IfOk, slice_get, OnOk};
ghost use Rattle.tocmark_read_constructs.specs.Quotes.{quote_opened, kind_named, quote_kind_of, is_new_quote, begins_in, quote_kind_in, is_first_line, tag_in, quote_kind_started, is_alone};
ghost use Rattle.tocmark_read_page.specs.Pages.{page};

use crate::blanks::trailing_blanks;
use std::alloc::{AllocError, Global};
use tocmark_event::event::BlockQuoteKind;
use tocmark_read_lines::cell::{Columns, cell_place, indent_of, is_blank_at};
use tocmark_read_lines::container::{Container, after_quote};
use tocmark_read_lines::html::{HtmlKind, html_kind, same_word};
use tocmark_read_lines::line::Line;
use tocmark_read_page::leaf::Leaf;
use tocmark_read_page::line_start::{LineStart, ScannedLine};
use tocmark_read_page::packed::{block_at, set_block};
use tocmark_read_page::page::{Block, BlockKind, BlocksSoFar, is_quote};
use tocmark_read_page::piece::code_piece;
use tocmark_read_scan::basic::bytes_between;

#[tactic(auto, unfolding(crate::specs::Quotes::kind_named))]
fn kind_named(word: &[u8]) -> Option<BlockQuoteKind>
    ensures { result ≡ kind_named word.now }
{
    if same_word(word, b"[!note]") {
        Some(BlockQuoteKind::Note)
    } else if same_word(word, b"[!tip]") {
        Some(BlockQuoteKind::Tip)
    } else if same_word(word, b"[!important]") {
        Some(BlockQuoteKind::Important)
    } else if same_word(word, b"[!warning]") {
        Some(BlockQuoteKind::Warning)
    } else if same_word(word, b"[!caution]") {
        Some(BlockQuoteKind::Caution)
    } else {
        None
    }
}

/// The kind of quote that a line names: a word such as `[!NOTE]` in any case, with nothing but spaces
/// and tabs after it.
#[tactic(auto, unfolding(crate::specs::Quotes::quote_kind_of))]
fn quote_kind_of(line: &[u8]) -> Option<BlockQuoteKind>
    ensures { result ≡ quote_kind_of line.now }
{
    let end = line.len().saturating_sub(trailing_blanks(line));
    kind_named(bytes_between(line, 0, end))
}

/// Opens a block quote, and gives the place after its mark.
#[tactic(auto, unfolding(crate::specs::Quotes::quote_opened))]
pub fn open_quote(
    so_far: &mut BlocksSoFar,
    alloc: Global,
    scan: &ScannedLine<'_, '_>,
    place: LineStart,
) -> Result<LineStart, AllocError>
    ensures { IfOk result (λ next.
        (page so_far.new, next)
        ≡ quote_opened scan.now.text.now scan.now.cells.now scan.now.line place (page so_far.old)) }
{
    so_far.close_to(alloc, scan.text, place.depth)?;
    so_far.leave_list()?;
    let start = cell_place(scan.cells, place.cursor.ink, scan.line.end);
    so_far.open(Container::Quote, BlockKind::Quote(None), start, scan.line)?;
    Ok(LineStart {
        cursor: after_quote(scan.cells, place.cursor),
        depth: so_far.opened.len(),
    })
}

/// Whether the innermost container is a quote that began in this line.
#[tactic(auto, unfolding(crate::specs::Quotes::is_new_quote))]
fn is_new_quote(so_far: &BlocksSoFar, line: Line) -> bool
    ensures { result ≡ is_new_quote line (page so_far.now) }
{
    let last = so_far.opened.len().saturating_sub(1);
    match so_far.opened.get(last).copied() {
        None => false,
        Some(one) => is_quote(one.container) && begins_in(so_far, line, one.block),
    }
}

/// Whether the block at an index begins in a line.
fn begins_in(so_far: &BlocksSoFar, line: Line, index: usize) -> bool
    ensures { result ≡ begins_in line (slice_get so_far.now.blocks.items index) }
{
    match so_far.blocks.get(index) {
        None => false,
        Some(block) => line.start <= block.start(),
    }
}

/// The kind just after the mark of a quote that began in this line.
#[tactic(auto, unfolding(crate::specs::Quotes::quote_kind_in))]
pub fn quote_kind_in(
    so_far: &BlocksSoFar,
    scan: &ScannedLine<'_, '_>,
    place: LineStart,
) -> Option<BlockQuoteKind>
    ensures { result ≡ quote_kind_in scan.now.known scan.now.text.now scan.now.cells.now
        scan.now.line place (page so_far.now) }
{
    if scan.known.syntax.quote_kinds
        && !is_blank_at(scan.cells, place.cursor)
        && is_new_quote(so_far, scan.line)
    {
        let rest = code_piece(scan.cells, place.cursor.column, scan.line);
        quote_kind_of(bytes_between(scan.text, rest.start, scan.line.end))
    } else {
        None
    }
}

/// Whether a line is the first one of an open paragraph that has none yet.
#[tactic(auto, unfolding(crate::specs::Quotes::is_first_line))]
fn is_first_line(so_far: &BlocksSoFar, cells: &Columns, place: LineStart, directly: bool) -> bool
    ensures { result ≡ is_first_line cells.now place directly (page so_far.now) }
{
    !is_blank_at(cells, place.cursor)
        && indent_of(place.cursor) <= 3
        && directly
        && !so_far.has_text()
}

/// Whether a tag alone on its line is after a quote's kind, whose paragraph has no line yet.
#[tactic(auto, unfolding(crate::specs::Quotes::tag_in))]
pub fn tag_in(
    so_far: &BlocksSoFar,
    scan: &ScannedLine<'_, '_>,
    place: LineStart,
    directly: bool,
) -> bool
    ensures { result ≡ tag_in scan.now.known scan.now.text.now scan.now.cells.now scan.now.line
        place directly (page so_far.now) }
{
    if scan.known.syntax.quote_kinds && is_first_line(so_far, scan.cells, place, directly) {
        let start = cell_place(scan.cells, place.cursor.ink, scan.line.end);
        is_alone(html_kind(bytes_between(scan.text, start, scan.line.end)))
    } else {
        false
    }
}

/// Names the kind of the quote that this line began. The lines after it go on as a paragraph's do.
#[tactic(auto, unfolding(crate::specs::Quotes::quote_kind_started))]
pub fn start_quote_kind(
    so_far: &mut BlocksSoFar,
    scan: &ScannedLine<'_, '_>,
    place: LineStart,
    kind: BlockQuoteKind,
) -> Result<(), AllocError>
    ensures { OnOk result (page so_far.new
        ≡ quote_kind_started scan.now.cells.now scan.now.line place kind (page so_far.old)) }
{
    let index = so_far.blocks.len().saturating_sub(1);
    if let Some(block) = block_at(&so_far.blocks, index) {
        let kind = BlockKind::Quote(Some(kind));
        set_block(&mut so_far.blocks, index, Block { kind, ..block })?;
    }
    let start = cell_place(scan.cells, place.cursor.ink, scan.line.end);
    so_far.open_leaf(Leaf::Paragraph, BlockKind::Paragraph, start, scan.line)
}

/// Whether a line begins HTML with a tag alone.
fn is_alone(found: Option<HtmlKind>) -> bool
    ensures { result ≡ is_alone found }
{
    match found {
        None => false,
        Some(HtmlKind::Raw) => false,
        Some(HtmlKind::Comment) => false,
        Some(HtmlKind::Instruction) => false,
        Some(HtmlKind::Declaration) => false,
        Some(HtmlKind::CharacterData) => false,
        Some(HtmlKind::Named) => false,
        Some(HtmlKind::Alone) => true,
    }
}
