//! What a line is to the open leaf block, and which leaf block it begins.

ghost use Rattle.std.specs.Prelude.{◌≡◌};
ghost use Rattle.tocmark_read_blocks.specs.Leaves.{goes_past_blank, indented_turn, leaf_turn, html_at, underline_in, rule_at, mark_at, leaf_at, metadata_or, task_or, quote_kind_or, tag_or};

use tocmark_event::event::{BlockQuoteKind, HeadingLevel, MetadataBlockKind};
use tocmark_read_constructs::metadata::closes_metadata;
use tocmark_read_constructs::table::row_turn;
use tocmark_read_lines::beginnings::{
    Fence, Heading, Tail, closes_fence, fence_at, heading_at, is_rule, underline_at,
};
use tocmark_read_lines::cell::{Columns, Cursor, indent_of, is_blank_at};
use tocmark_read_lines::html::{HtmlKind, html_kind};
use tocmark_read_lines::line::Line;
use tocmark_read_page::leaf::{Leaf, Table};

/// What the open leaf does with a line.
#[derive(Clone, Copy)]
pub enum Turn {
    /// The line is its last one.
    Closes,
    /// It takes the line from a column on.
    Takes(usize),
    /// Neither: something else may begin.
    Passes,
    /// The line is a row of the table, which is this one with it.
    Row(Table),
}

/// What the rest of a line is: the leaf block that it begins, a setext heading's underline, or text.
#[derive(Clone, Copy)]
pub enum LeafStart {
    /// Nothing but spaces.
    Blank,
    /// A line of a paragraph.
    Text,
    /// Code from a column on.
    Indented(usize),
    /// A heading on one line.
    Heading(Heading),
    /// The fence that opens a code block.
    Fence(Fence),
    /// The first line of an HTML block.
    Html(HtmlKind),
    /// The underline of a heading of this level.
    Underline(HeadingLevel),
    /// A thematic break.
    Rule,
    /// The line that opens metadata of this kind.
    Metadata(MetadataBlockKind),
    /// The box of a task, true where it is checked.
    Task(bool),
    /// The kind of the quote that the line began.
    QuoteKind(BlockQuoteKind),
}

#[tactic(auto, unfolding(crate::specs::Leaves::goes_past_blank))]
fn goes_past_blank(kind: HtmlKind) -> bool
    ensures { result ≡ goes_past_blank kind }
{
    match kind {
        HtmlKind::Raw => true,
        HtmlKind::Comment => true,
        HtmlKind::Instruction => true,
        HtmlKind::Declaration => true,
        HtmlKind::CharacterData => true,
        HtmlKind::Named => false,
        HtmlKind::Alone => false,
    }
}

/// What indented code does with a line: it goes on after four columns, and in blank lines.
fn indented_turn(cells: &Columns, cursor: Cursor) -> Turn
    ensures { result ≡ indented_turn cells.now cursor }
{
    if 4 <= indent_of(cursor) {
        Turn::Takes(cursor.column.saturating_add(4))
    } else if is_blank_at(cells, cursor) {
        Turn::Takes(cursor.ink)
    } else {
        Turn::Passes
    }
}

/// What the open leaf does with a line in which all containers round it go on.
#[tactic(auto, unfolding(crate::specs::Leaves::leaf_turn))]
pub fn leaf_turn(text: &[u8], cells: &Columns, line: Line, cursor: Cursor, leaf: Leaf) -> Turn
    ensures { result ≡ leaf_turn text.now cells.now line cursor leaf }
{
    match leaf {
        Leaf::Nothing => Turn::Passes,
        Leaf::Paragraph => Turn::Passes,
        Leaf::Indented => indented_turn(cells, cursor),
        Leaf::Fenced(fence) => {
            if closes_fence(cells, cursor, fence) {
                Turn::Closes
            } else {
                let indent = fence.indent.min(indent_of(cursor));
                Turn::Takes(cursor.column.saturating_add(indent))
            }
        }
        Leaf::Html(kind) => {
            if is_blank_at(cells, cursor) && !goes_past_blank(kind) {
                Turn::Passes
            } else {
                Turn::Takes(cursor.column)
            }
        }
        Leaf::Metadata(kind) => {
            if closes_metadata(kind, text, line.start) {
                Turn::Closes
            } else {
                Turn::Takes(cursor.column)
            }
        }
        Leaf::Table(table) => match row_turn(text, cells, line, cursor, table) {
            None => Turn::Passes,
            Some(longer) => Turn::Row(longer),
        },
    }
}

/// The HTML block that the rest of a line begins. A tag alone on its line can't interrupt a paragraph.
#[tactic(auto, unfolding(crate::specs::Leaves::html_at))]
fn html_at(rest: &[u8], in_paragraph: bool) -> Option<HtmlKind>
    ensures { result ≡ html_at rest.now in_paragraph }
{
    match html_kind(rest) {
        None => None,
        Some(HtmlKind::Alone) => {
            if in_paragraph {
                None
            } else {
                Some(HtmlKind::Alone)
            }
        }
        Some(kind) => Some(kind),
    }
}

#[tactic(auto, unfolding(crate::specs::Leaves::underline_in))]
fn underline_in(cells: &Columns, column: usize, directly: bool) -> Option<HeadingLevel>
    ensures { result ≡ underline_in cells.now column directly }
{
    if directly {
        underline_at(cells, column)
    } else {
        None
    }
}

/// A thematic break at a column of a line with this tail, or text.
#[tactic(auto, unfolding(crate::specs::Leaves::rule_at))]
pub fn rule_at(cells: &Columns, tail: Tail, column: usize) -> LeafStart
    ensures { result ≡ rule_at cells.now tail column }
{
    if is_rule(cells, tail, column) {
        LeafStart::Rule
    } else {
        LeafStart::Text
    }
}

/// What begins at a column with at most three spaces before it.
#[tactic(auto, unfolding(crate::specs::Leaves::mark_at))]
fn mark_at(
    cells: &Columns,
    rest: &[u8],
    tail: Tail,
    cursor: Cursor,
    in_paragraph: bool,
    directly: bool,
) -> LeafStart
    ensures { result ≡ mark_at cells.now rest.now tail cursor in_paragraph directly }
{
    if let Some(heading) = heading_at(cells, cursor.ink) {
        return LeafStart::Heading(heading);
    }
    if let Some(fence) = fence_at(cells, cursor) {
        return LeafStart::Fence(fence);
    }
    if let Some(kind) = html_at(rest, in_paragraph) {
        return LeafStart::Html(kind);
    }
    if let Some(level) = underline_in(cells, cursor.ink, directly) {
        return LeafStart::Underline(level);
    }
    rule_at(cells, tail, cursor.ink)
}

/// What the rest of a line is. `rest` are its bytes after its spaces, `tail` is the tail of the whole
/// line; `in_paragraph` says that it can go on with a paragraph, and `directly` that this paragraph
/// is in the innermost container that goes on in the line.
#[tactic(auto, unfolding(crate::specs::Leaves::leaf_at))]
pub fn leaf_at(
    cells: &Columns,
    rest: &[u8],
    tail: Tail,
    cursor: Cursor,
    in_paragraph: bool,
    directly: bool,
) -> LeafStart
    ensures { result ≡ leaf_at cells.now rest.now tail cursor in_paragraph directly }
{
    if is_blank_at(cells, cursor) {
        LeafStart::Blank
    } else if indent_of(cursor) < 4 {
        mark_at(cells, rest, tail, cursor, in_paragraph, directly)
    } else if in_paragraph {
        LeafStart::Text
    } else {
        LeafStart::Indented(cursor.column.saturating_add(4))
    }
}

/// Metadata if some begins here, else what CommonMark finds here.
#[tactic(auto, unfolding(crate::specs::Leaves::metadata_or))]
pub fn metadata_or(found: Option<MetadataBlockKind>, other: LeafStart) -> LeafStart
    ensures { result ≡ metadata_or found other }
{
    match found {
        None => other,
        Some(kind) => LeafStart::Metadata(kind),
    }
}

/// The box of a task if one was found, else `other`.
#[tactic(auto, unfolding(crate::specs::Leaves::task_or))]
pub fn task_or(found: Option<bool>, other: LeafStart) -> LeafStart
    ensures { result ≡ task_or found other }
{
    match found {
        None => other,
        Some(done) => LeafStart::Task(done),
    }
}

/// The kind of a quote if one is named, else `other`.
#[tactic(auto, unfolding(crate::specs::Leaves::quote_kind_or))]
pub fn quote_kind_or(found: Option<BlockQuoteKind>, other: LeafStart) -> LeafStart
    ensures { result ≡ quote_kind_or found other }
{
    match found {
        None => other,
        Some(kind) => LeafStart::QuoteKind(kind),
    }
}

/// An HTML block if a lone tag follows a quote's kind, else `other`.
#[tactic(auto, unfolding(crate::specs::Leaves::tag_or))]
pub fn tag_or(found: bool, other: LeafStart) -> LeafStart
    ensures { result ≡ tag_or found other }
{
    if found {
        LeafStart::Html(HtmlKind::Alone)
    } else {
        other
    }
}
