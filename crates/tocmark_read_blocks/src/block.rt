//! How a line changes the blocks so far, and the blocks of a whole text.

ghost use Rattle.std.specs.Prelude.{◌≡◌, OnOk, ◌==◌, ◌&&◌, not, true, IfOk};
ghost use Rattle.std.specs.List.{list_any, find, fold};
ghost use Rattle.tocmark_read_blocks.specs.Blocks.{underline_taken_in, started_in, start_or, leaf_started_in, passed_in, tabled_in, turn_of, turn_in, leaf_ended, touched, cells_taken_in, line_taken_in, extends_starts, page_in, blocks_view, blocks_in};
ghost use Rattle.tocmark_read_lines.specs.Lines.{lines_of};
ghost use Rattle.tocmark_read_page.specs.Pages.{page, closed_to, piece_taken};
ghost use Rattle.tocmark_read_blocks.specs.Leaves.{ends_at_blank};
ghost use Rattle.tocmark_read_page.specs.Pieces.{piece_of};

use crate::code::{start_fence, start_html, start_indented, take_code};
use crate::container::{goes_directly, open_all};
use crate::leaf::{
    LeafStart, Turn, leaf_at, leaf_turn, metadata_or, quote_kind_or, rule_at, tag_or, task_or,
};
use crate::paragraph::{start_rule, take_text};
use memchr::memchr2_iter;
use std::alloc::{AllocError, Global};
use tocmark_event::event::HeadingLevel;
use tocmark_read_constructs::footnote::is_ended_by_note;
use tocmark_read_constructs::heading::{make_heading, start_heading};
use tocmark_read_constructs::metadata::{known_of, metadata_in, start_metadata};
use tocmark_read_constructs::quote::{quote_kind_in, start_quote_kind, tag_in};
use tocmark_read_constructs::table::{header_of, take_delimiters, take_row};
use tocmark_read_constructs::task::{start_task, task_in};
use tocmark_read_lines::beginnings::{Tail, tail_of};
use tocmark_read_lines::cell::{Columns, cell_place, is_blank_at};
use tocmark_read_lines::container::{matched, touch};
use tocmark_read_lines::line::{Line, line_ended, line_left};
use tocmark_read_page::definition::LinkDefinition;
use tocmark_read_page::leaf::{Leaf, is_paragraph};
use tocmark_read_page::line_start::{Known, LineStart, ScannedLine};
use tocmark_read_page::packed::PackedBlock;
use tocmark_read_page::page::BlocksSoFar;
use tocmark_read_page::piece::Piece;
use tocmark_read_scan::basic::bytes_between;
use tocmark_read_scan::class::has_byte;
use tocmark_read_scan::syntax::Syntax;

/// What a text is made of, but for the inlines of paragraphs and headings.
#[derive(Drop)]
pub struct Blocks {
    pub blocks: Vec<PackedBlock>,
    pub pieces: Vec<Piece>,
    pub definitions: Vec<LinkDefinition>,
}

/// Takes a line that would underline a heading: where the paragraph has definitions alone it is
/// metadata, a thematic break or text.
#[tactic(auto, unfolding(crate::specs::Blocks::underline_taken_in))]
fn take_underline(
    so_far: &mut BlocksSoFar,
    alloc: Global,
    scan: &ScannedLine<'_, '_>,
    tail: Tail,
    place: LineStart,
    level: HeadingLevel,
) -> Result<(), AllocError>
    ensures { OnOk result (page so_far.new
        ≡ underline_taken_in scan.now.known scan.now.text.now scan.now.cells.now scan.now.line tail
        place level
        (page so_far.old)) }
{
    so_far.settle(alloc, scan.text)?;
    if so_far.has_text() {
        return make_heading(so_far, scan, level);
    }
    let metadata = metadata_in(so_far, scan, place, false);
    match metadata_or(metadata, rule_at(scan.cells, tail, place.cursor.ink)) {
        LeafStart::Rule => start_rule(so_far, alloc, scan, place),
        LeafStart::Metadata(kind) => start_metadata(so_far, alloc, scan, place, kind),
        _ => take_text(so_far, alloc, scan, place),
    }
}

/// Begins the leaf that the rest of a line begins, or puts it into the open paragraph.
#[tactic(auto, unfolding(crate::specs::Blocks::started_in))]
fn start(
    so_far: &mut BlocksSoFar,
    alloc: Global,
    scan: &ScannedLine<'_, '_>,
    tail: Tail,
    place: LineStart,
    leaf: LeafStart,
) -> Result<(), AllocError>
    ensures { OnOk result (page so_far.new
        ≡ started_in scan.now.known leaf scan.now.text.now scan.now.cells.now scan.now.line tail
        place (page so_far.old)) }
{
    match leaf {
        LeafStart::Blank => so_far.close_to(alloc, scan.text, place.depth),
        LeafStart::Text => take_text(so_far, alloc, scan, place),
        LeafStart::Indented(column) => { start_indented(so_far, alloc, scan, place, column) }
        LeafStart::Heading(heading) => { start_heading(so_far, alloc, scan, place, heading) }
        LeafStart::Fence(fence) => start_fence(so_far, alloc, scan, place, fence),
        LeafStart::Html(kind) => start_html(so_far, alloc, scan, place, kind),
        LeafStart::Underline(level) => { take_underline(so_far, alloc, scan, tail, place, level) }
        LeafStart::Rule => start_rule(so_far, alloc, scan, place),
        LeafStart::Metadata(kind) => start_metadata(so_far, alloc, scan, place, kind),
        LeafStart::Task(done) => start_task(so_far, alloc, scan, place, done),
        LeafStart::QuoteKind(kind) => start_quote_kind(so_far, scan, place, kind),
    }
}

/// What a line begins, in an extension or in CommonMark.
fn extended_start(
    so_far: &BlocksSoFar,
    scan: &ScannedLine<'_, '_>,
    place: LineStart,
    directly: bool,
    core: LeafStart,
) -> LeafStart
    ensures { result ≡ start_or scan.now.known scan.now.text.now scan.now.cells.now scan.now.line
        place directly (page so_far.now) core }
{
    let metadata = metadata_in(so_far, scan, place, directly);
    let task = task_in(so_far, scan, place);
    let tag = tag_in(so_far, scan, place, directly);
    let kind = quote_kind_in(so_far, scan, place);
    quote_kind_or(
        kind,
        tag_or(tag, task_or(task, metadata_or(metadata, core))),
    )
}

/// What a line begins. Whether some extension has a say in it is asked first.
#[tactic(auto, using(crate::proofs::CoreStarts::starts_as_core))]
fn start_or(
    so_far: &BlocksSoFar,
    scan: &ScannedLine<'_, '_>,
    place: LineStart,
    directly: bool,
    core: LeafStart,
) -> LeafStart
    ensures { result ≡ start_or scan.now.known scan.now.text.now scan.now.cells.now scan.now.line
        place directly (page so_far.now) core }
{
    if extends_starts(scan.known.syntax) {
        extended_start(so_far, scan, place, directly, core)
    } else {
        core
    }
}

#[tactic(auto, unfolding(crate::specs::Blocks::leaf_started_in))]
fn start_inked(
    so_far: &mut BlocksSoFar,
    alloc: Global,
    scan: &ScannedLine<'_, '_>,
    first: LineStart,
) -> Result<(), AllocError>
    ensures { OnOk result (page so_far.new
        ≡ leaf_started_in scan.now.known scan.now.text.now scan.now.cells.now scan.now.line first
        (page so_far.old)) }
{
    let tail = tail_of(scan.cells);
    let place = open_all(so_far, alloc, scan, tail, first)?;
    let in_paragraph = is_paragraph(so_far.leaf);
    let directly = goes_directly(so_far, place.depth);
    let rest = bytes_between(
        scan.text,
        cell_place(scan.cells, place.cursor.ink, scan.line.end),
        scan.line.end,
    );
    let core = leaf_at(scan.cells, rest, tail, place.cursor, in_paragraph, directly);
    let leaf = start_or(so_far, scan, place, directly, core);
    start(so_far, alloc, scan, tail, place, leaf)
}

/// Takes the rest of a line in which the open leaf doesn't go on by itself.
#[tactic(auto, using(crate::proofs::Steps::blank_started))]
fn start_line(
    so_far: &mut BlocksSoFar,
    alloc: Global,
    scan: &ScannedLine<'_, '_>,
    first: LineStart,
) -> Result<(), AllocError>
    ensures { OnOk result (page so_far.new
        ≡ leaf_started_in scan.now.known scan.now.text.now scan.now.cells.now scan.now.line first
        (page so_far.old)) }
{
    if is_blank_at(scan.cells, first.cursor) {
        so_far.close_to(alloc, scan.text, first.depth)
    } else {
        start_inked(so_far, alloc, scan, first)
    }
}

/// Takes a line in which the open leaf doesn't go on by itself: the delimiter scan of a table, where
/// tables are read, or what else begins.
#[tactic(auto, unfolding(crate::specs::Blocks::passed_in))]
fn pass_line(
    so_far: &mut BlocksSoFar,
    alloc: Global,
    scan: &ScannedLine<'_, '_>,
    first: LineStart,
) -> Result<(), AllocError>
    ensures { OnOk result (page so_far.new
        ≡ passed_in scan.now.known scan.now.text.now scan.now.cells.now scan.now.line first
        (page so_far.old)) }
{
    if scan.known.syntax.tables {
        pass_tabled(so_far, alloc, scan, first)
    } else {
        start_line(so_far, alloc, scan, first)
    }
}

/// Takes a delimiter scan, or what else begins, and notes what the line may be as a header.
#[tactic(auto, unfolding(crate::specs::Blocks::tabled_in))]
fn pass_tabled(
    so_far: &mut BlocksSoFar,
    alloc: Global,
    scan: &ScannedLine<'_, '_>,
    first: LineStart,
) -> Result<(), AllocError>
    ensures { OnOk result (page so_far.new
        ≡ tabled_in scan.now.known scan.now.text.now scan.now.cells.now scan.now.line first
        (page so_far.old)) }
{
    let directly = goes_directly(so_far, first.depth);
    if take_delimiters(so_far, alloc, scan, first.cursor, directly)? {
        return Ok(());
    }
    let before = so_far.blocks.len();
    let within = first.depth < so_far.opened.len();
    start_line(so_far, alloc, scan, first)?;
    let lazy = within && so_far.blocks.len() == before;
    so_far.header = header_of(scan.cells, first.cursor, lazy);
    Ok(())
}

#[tactic(auto, unfolding(crate::specs::Blocks::turn_of))]
fn turn_of(so_far: &BlocksSoFar, scan: &ScannedLine<'_, '_>, place: LineStart) -> Turn
    ensures { result
        ≡ turn_of scan.now.text.now scan.now.cells.now scan.now.line place (page so_far.now) }
{
    if so_far.opened.len() <= place.depth {
        leaf_turn(scan.text, scan.cells, scan.line, place.cursor, so_far.leaf)
    } else {
        Turn::Passes
    }
}

#[tactic(auto, unfolding(crate::specs::Blocks::turn_in))]
fn turn_in(so_far: &BlocksSoFar, scan: &ScannedLine<'_, '_>, place: LineStart) -> Turn
    ensures { result
        ≡ turn_in scan.now.known scan.now.text.now scan.now.cells.now scan.now.line place
        (page so_far.now) }
{
    if scan.known.syntax.footnotes && is_ended_by_note(so_far, scan.cells, place) {
        Turn::Passes
    } else {
        turn_of(so_far, scan, place)
    }
}

/// Ends the open leaf with this line.
#[tactic(auto, unfolding(crate::specs::Blocks::leaf_ended))]
fn end_leaf(so_far: &mut BlocksSoFar, line: Line) -> Result<(), AllocError>
    ensures { OnOk result (page so_far.new ≡ leaf_ended line (page so_far.old)) }
{
    so_far.end = line.end;
    so_far.line = line.number;
    so_far.finish_leaf()
}

/// The open containers that go on in a line reach to it.
#[tactic(auto, unfolding(crate::specs::Blocks::touched))]
fn touch_line(so_far: &mut BlocksSoFar, line: Line, depth: usize)
    ensures { page so_far.new ≡ touched line depth (page so_far.old) }
{
    touch(
        &mut so_far.opened,
        &so_far.quotes,
        depth,
        line.end,
        line.number,
    );
}

/// Takes a line by its columns: containers go on in it, then the open leaf has its turn, then others begin.
#[tactic(auto, unfolding(crate::specs::Blocks::cells_taken_in))]
fn take_cells(
    so_far: &mut BlocksSoFar,
    alloc: Global,
    scan: &ScannedLine<'_, '_>,
) -> Result<(), AllocError>
    ensures { OnOk result (page so_far.new
        ≡ cells_taken_in scan.now.known scan.now.text.now scan.now.cells.now scan.now.line
        (page so_far.old)) }
{
    let (depth, cursor) = matched(scan.cells, &so_far.opened, &so_far.quotes);
    let place = LineStart { cursor, depth };
    touch_line(so_far, scan.line, depth);
    match turn_in(so_far, scan, place) {
        Turn::Closes => end_leaf(so_far, scan.line),
        Turn::Takes(column) => take_code(so_far, scan, column),
        Turn::Passes => pass_line(so_far, alloc, scan, place),
        Turn::Row(table) => take_row(so_far, scan, place, table),
    }
}

/// A text, what is known of it, and whether a tab is in it.
#[derive(Clone, Copy)]
struct Source<'t> {
    known: Known,
    text: &'t [u8],
    has_tabs: bool,
}

fn source_of(known: Known, text: &[u8]) -> Source<'_>
    ensures known { result.known ≡ known }
    ensures text { result.text.now ≡ text.now }
    ensures tabs { result.has_tabs ≡ list_any (λ b. b == 9) text.now }
{
    Source {
        known,
        text,
        has_tabs: has_byte(text, b'\t'),
    }
}

/// The first byte that is neither a space nor a tab.
fn first_ink(bytes: &[u8]) -> Option<u8>
    ensures { result ≡ find (λ b. not (b == 32) && not (b == 9)) bytes.now }
{
    bytes
        .iter()
        .copied()
        .find(|byte| *byte != b' ' && *byte != b'\t')
}

/// A whole line.
fn whole_piece(line: Line) -> Piece
    ensures { result ≡ piece_of 0 line.start line.end line.next }
{
    Piece {
        spaces: 0,
        from: line.start,
        start: line.start,
        end: line.end,
        next: line.next,
    }
}

/// Whether a line is one of open fenced code at the top, as its first bytes tell: it isn't blank, and
/// begins with another byte than the fence, after spaces and tabs.
fn is_fenced(so_far: &BlocksSoFar, source: &Source<'_>, line: Line) -> bool
    ensures { result ≡ true →
        line_taken_in source.now.known source.now.text.now (page so_far.now) line
        ≡ piece_taken (piece_of 0 line.start line.end line.next) line true (page so_far.now) }
{
    let Leaf::Fenced(fence) = so_far.leaf else {
        return false;
    };
    if so_far.opened.len() != 0 {
        return false;
    }
    if fence.indent != 0 {
        return false;
    }
    match first_ink(bytes_between(source.text, line.start, line.end)) {
        None => false,
        Some(byte) => byte != fence.byte,
    }
}

/// Whether a leaf ends before each blank line, whatever is in it.
#[tactic(auto, unfolding(crate::specs::Leaves::ends_at_blank))]
fn ends_at_blank(leaf: Leaf) -> bool
    ensures { result ≡ ends_at_blank leaf }
{
    match leaf {
        Leaf::Nothing => true,
        Leaf::Paragraph => true,
        Leaf::Indented => false,
        Leaf::Fenced(_) => false,
        Leaf::Html(_) => false,
        Leaf::Metadata(_) => false,
        Leaf::Table(_) => false,
    }
}

/// Whether a line only ends the open leaf: it is empty and is at the top, and no tables are read.
fn is_plain_end(so_far: &BlocksSoFar, source: &Source<'_>, line: Line) -> bool
    ensures { result ≡ true →
        line_taken_in source.now.known source.now.text.now (page so_far.now) line
        ≡ closed_to source.now.text.now 0 (page so_far.now) }
{
    if line.start < line.end {
        return false;
    }
    if so_far.opened.len() != 0 {
        return false;
    }
    if source.known.syntax.tables {
        return false;
    }
    ends_at_blank(so_far.leaf)
}

/// Takes a line by its columns, which are written over those of a line before.
#[tactic(auto, unfolding(crate::specs::Blocks::line_taken_in))]
fn take_columns(
    so_far: &mut BlocksSoFar,
    alloc: Global,
    source: &Source<'_>,
    cells: &mut Columns,
    line: Line,
) -> Result<(), AllocError>
    requires tabs { source.now.has_tabs ≡ list_any (λ b. b == 9) source.now.text.now }
    ensures { OnOk result (page so_far.new
        ≡ line_taken_in source.now.known source.now.text.now (page so_far.old) line) }
{
    cells.read_in(source.text, line, source.has_tabs)?;
    let scan = ScannedLine {
        known: source.known,
        text: source.text,
        cells,
        line,
    };
    take_cells(so_far, alloc, &scan)
}

/// Takes a line. The columns of a line of open fenced code aren't asked for, nor those of an empty line at the top.
fn take_line(
    so_far: &mut BlocksSoFar,
    alloc: Global,
    source: &Source<'_>,
    cells: &mut Columns,
    line: Line,
) -> Result<(), AllocError>
    requires tabs { source.now.has_tabs ≡ list_any (λ b. b == 9) source.now.text.now }
    ensures { OnOk result (page so_far.new
        ≡ line_taken_in source.now.known source.now.text.now (page so_far.old) line) }
{
    if is_fenced(so_far, source, line) {
        so_far.take_piece(whole_piece(line), line, true)
    } else if is_plain_end(so_far, source, line) {
        so_far.close_to(alloc, source.text, 0)
    } else {
        take_columns(so_far, alloc, source, cells, line)
    }
}

/// Takes each line of the text.
#[tactic(auto, using(tocmark_read_lines::proofs::LineEnds::lines_by_places))]
fn take_lines(
    so_far: &mut BlocksSoFar,
    alloc: Global,
    source: &Source<'_>,
) -> Result<(), AllocError>
    requires tabs { source.now.has_tabs ≡ list_any (λ b. b == 9) source.now.text.now }
    ensures { OnOk result (page so_far.new
        ≡ fold (line_taken_in source.now.known source.now.text.now) (page so_far.old)
        (lines_of source.now.text.now)) }
{
    let mut cells = Columns::new(alloc);
    let mut before = 0;
    let mut start = 0;
    for at in memchr2_iter(b'\n', b'\r', source.text) {
        if let Some(line) = line_ended(source.text, before, start, at) {
            take_line(so_far, alloc, source, &mut cells, line)?;
            before = line.number;
            start = line.next;
        }
    }
    if let Some(line) = line_left(before, start, source.text.len()) {
        take_line(so_far, alloc, source, &mut cells, line)?;
    }
    Ok(())
}

/// Whether some extension has a say in what a line begins.
#[tactic(auto, unfolding(crate::specs::Blocks::extends_starts))]
fn extends_starts(syntax: Syntax) -> bool
    ensures { result ≡ extends_starts syntax }
{
    syntax.task_lists || syntax.yaml_metadata || syntax.pluses_metadata || syntax.quote_kinds
}

#[tactic(auto, unfolding(crate::specs::Blocks::page_in))]
fn read_page(alloc: Global, syntax: Syntax, text: &[u8]) -> Result<BlocksSoFar, AllocError>
    ensures { IfOk result (λ found. page found ≡ page_in syntax text.now) }
{
    let source = source_of(known_of(syntax, text), text);
    let mut page = BlocksSoFar::new(alloc);
    take_lines(&mut page, alloc, &source)?;
    page.close_to(alloc, text, 0)?;
    Ok(page)
}

/// The blocks of a text in the order of their starts, their pieces, and the link reference definitions
/// in the order of the text, with the extensions of a syntax. The text is UTF-8. Places are bytes.
#[tactic(auto, unfolding(crate::specs::Blocks::blocks_in))]
pub fn read_blocks(alloc: Global, syntax: Syntax, text: &[u8]) -> Result<Blocks, AllocError>
    ensures { IfOk result (λ found. blocks_view found ≡ blocks_in syntax text.now) }
{
    let page = read_page(alloc, syntax, text)?;
    Ok(Blocks {
        blocks: page.blocks,
        pieces: page.pieces,
        definitions: page.definitions,
    })
}
