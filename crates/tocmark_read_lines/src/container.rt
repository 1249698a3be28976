//! Block quotes, lists and their items: which of them go on in a line, and which a line begins.

ghost use Rattle.std.specs.Prelude.{◌≡◌};
ghost use Rattle.tocmark_read_lines.specs.Containers.{raised_at, after_quote, item_goes_on, going_on, is_empty_item, is_empty, blank_depth, quote_from, stopped, passed, matched_from, matched, touched_from, item_gap, may_interrupt, item_at, container_at, container_in};

use crate::beginnings::{Marker, Tail, is_rule, marker_at};
use crate::cell::{
    Columns, Cursor, cell_byte, first_cursor, indent_of, ink_from, is_blank_at, moved,
};
use crate::definition_list::{DefinitionStart, definition_start};
use crate::footnote::{FootnoteStart, note_start};
use tocmark_read_scan::syntax::Syntax;

/// What other blocks are in.
#[derive(Clone, Copy)]
pub enum Container {
    /// A block quote.
    Quote,
    /// A list with the last byte of its markers.
    List(u8),
    /// An item with the number of columns that its lines are indented by.
    Item(usize),
    /// The definition of a footnote, whose lines are indented by four columns.
    Footnote,
    /// A list of definitions with their titles.
    Definitions,
    /// A definition with the number of columns that its lines are indented by.
    Definition(usize),
}

/// A container that is open.
#[derive(Clone, Copy)]
pub struct Opened {
    /// What it is.
    pub container: Container,
    /// The number of its block in the list of all blocks, from 0 on.
    pub block: usize,
    /// Where its last line so far ends, in bytes of the text.
    pub end: usize,
    /// The number of that line.
    pub line: usize,
    /// Whether a block is in it.
    pub had: bool,
}

/// A list item that a line begins.
#[derive(Clone, Copy)]
pub struct ItemStart {
    /// The last byte of its marker.
    pub sort: u8,
    /// Its number, or none for a bullet.
    pub number: Option<u64>,
    /// How many columns its lines are indented by.
    pub width: usize,
    /// The column of its text.
    pub next: usize,
}

/// A container that a line begins.
#[derive(Clone, Copy)]
pub enum ContainerStart {
    /// A block quote.
    Quote,
    /// An item of a list.
    Item(ItemStart),
    /// The definition of a footnote.
    Footnote(FootnoteStart),
    /// A definition, if a title or a definition is before it.
    Definition(DefinitionStart),
}

/// Lets the container at a place of the list reach at least to the line of this number, which ends at
/// this byte.
#[tactic(auto, unfolding(crate::specs::Containers::raised_at, crate::specs::Containers::raised))]
pub fn raise_at(opened: &mut Vec<Opened>, place: usize, end: usize, line: usize)
    ensures { opened.new.items ≡ raised_at opened.old.items place end line }
{
    if let Some(one) = opened.get_mut(place) {
        one.end = one.end.max(end);
        one.line = one.line.max(line);
    }
}

/// The cursor after the `>` of a quote and the space after it.
#[tactic(auto, unfolding(crate::specs::Containers::after_quote))]
pub fn after_quote(cells: &Columns, cursor: Cursor) -> Cursor
    ensures { result ≡ after_quote cells.now cursor }
{
    let behind = cursor.ink.saturating_add(1);
    if cell_byte(cells, behind) == b' ' {
        moved(cells, cursor, behind.saturating_add(1))
    } else {
        moved(cells, cursor, behind)
    }
}

#[tactic(auto, unfolding(crate::specs::Containers::item_goes_on))]
fn item_goes_on(cells: &Columns, cursor: Cursor, width: usize, had: bool) -> Option<Cursor>
    ensures { result ≡ item_goes_on cells.now cursor width had }
{
    let blank = is_blank_at(cells, cursor);
    if blank && !had {
        None
    } else if width <= indent_of(cursor) {
        Some(moved(cells, cursor, cursor.column.saturating_add(width)))
    } else if blank {
        Some(moved(cells, cursor, cells.len()))
    } else {
        None
    }
}

/// The cursor after what a line has of a container that goes on in it.
#[tactic(auto, unfolding(crate::specs::Containers::going_on))]
fn going_on(cells: &Columns, cursor: Cursor, one: Opened) -> Option<Cursor>
    ensures { result ≡ going_on cells.now cursor one }
{
    match one.container {
        Container::Quote => {
            let goes_on = indent_of(cursor) <= 3 && cell_byte(cells, cursor.ink) == b'>';
            if goes_on {
                Some(after_quote(cells, cursor))
            } else {
                None
            }
        }
        Container::List(_) => Some(cursor),
        Container::Item(width) => item_goes_on(cells, cursor, width, one.had),
        Container::Footnote => item_goes_on(cells, cursor, 4, true),
        Container::Definitions => Some(cursor),
        Container::Definition(width) => item_goes_on(cells, cursor, width, one.had),
    }
}

/// Whether a container is an item in which no block is.
#[tactic(auto, unfolding(crate::specs::Containers::is_empty_item))]
pub fn is_empty_item(one: Opened) -> bool
    ensures { result ≡ is_empty_item one }
{
    match one.container {
        Container::Quote => false,
        Container::List(_) => false,
        Container::Item(_) => !one.had,
        Container::Footnote => false,
        Container::Definitions => false,
        Container::Definition(_) => false,
    }
}

/// Whether a container is an item or a definition in which no block is.
#[tactic(auto, unfolding(crate::specs::Containers::is_empty))]
fn is_empty(one: Opened) -> bool
    ensures { result ≡ is_empty one }
{
    match one.container {
        Container::Quote => false,
        Container::List(_) => false,
        Container::Item(_) => !one.had,
        Container::Footnote => false,
        Container::Definitions => false,
        Container::Definition(_) => !one.had,
    }
}

/// How many containers without a quote go on in a blank line: all but an innermost item or definition that
/// is empty.
#[tactic(auto, unfolding(crate::specs::Containers::blank_depth))]
fn blank_depth(opened: &[Opened]) -> usize
    ensures { result ≡ blank_depth opened.now }
{
    let last = opened.len().saturating_sub(1);
    let empty = opened.get(last).map_or(false, |one| is_empty(*one));
    if empty { last } else { opened.len() }
}

/// The first quote from the container at a place on.
fn quote_from(quotes: &[usize], count: usize) -> Option<usize>
    ensures { result ≡ quote_from quotes.now count }
{
    quotes.iter().copied().find(|quote| count <= *quote)
}

/// How many containers go on in a line if the one at `count` doesn't. If nothing is left of the line, those up to
/// the next quote do.
#[tactic(auto, unfolding(crate::specs::Containers::stopped))]
fn stopped(
    cells: &Columns,
    opened: &[Opened],
    quotes: &[usize],
    count: usize,
    cursor: Cursor,
) -> usize
    ensures { result ≡ stopped cells.now opened.now quotes.now count cursor }
{
    if cells.len() <= cursor.column {
        match quote_from(quotes, count) {
            Some(quote) => quote,
            None => blank_depth(opened),
        }
    } else {
        count
    }
}

/// The cursor after what a line has of a container, if something is left of the line.
#[tactic(auto, unfolding(crate::specs::Containers::passed))]
fn passed(cells: &Columns, cursor: Cursor, one: Opened) -> Option<Cursor>
    ensures { result ≡ passed cells.now cursor one }
{
    if cells.len() <= cursor.column {
        None
    } else {
        going_on(cells, cursor, one)
    }
}

/// How many of the open containers go on in a line, and the cursor after what it has of them.
/// `quotes` are the places of the quotes among them.
pub fn matched(cells: &Columns, opened: &[Opened], quotes: &[usize]) -> (usize, Cursor)
    ensures { result ≡ matched cells.now opened.now quotes.now }
{
    let mut count = 0;
    let mut cursor = first_cursor(cells);
    for one in opened {
        match passed(cells, cursor, *one) {
            None => return (stopped(cells, opened, quotes, count, cursor), cursor),
            Some(next) => {
                cursor = next;
                count = count.saturating_add(1);
            }
        }
    }
    (count, cursor)
}

/// Lets the quotes among the first `count` containers reach at least to the line of this number, which
/// ends at this byte. `quotes` are the places of the quotes among all of them.
pub fn touch(opened: &mut Vec<Opened>, quotes: &[usize], count: usize, end: usize, line: usize)
    ensures { opened.new.items ≡ touched_from count end line quotes.now opened.old.items }
{
    for quote in quotes {
        if count <= *quote {
            return;
        }
        raise_at(opened, *quote, end, line);
    }
}

/// The columns between an item's marker and its text: one where the item begins with a blank line or
/// with indented code.
#[tactic(auto, unfolding(crate::specs::Containers::item_gap))]
fn item_gap(empty: bool, spaces: usize) -> usize
    ensures { result ≡ item_gap empty spaces }
{
    if empty || 5 <= spaces { 1 } else { spaces }
}

/// Whether an item can interrupt a paragraph.
#[tactic(auto, unfolding(crate::specs::Containers::may_interrupt))]
fn may_interrupt(empty: bool, marker: Marker) -> bool
    ensures { result ≡ may_interrupt empty marker }
{
    let first = match marker.number {
        None => true,
        Some(number) => number == 1,
    };
    first && !empty
}

/// The item that begins at a cursor; in a paragraph only one that can interrupt it.
#[tactic(auto, unfolding(crate::specs::Containers::item_at))]
fn item_at(cells: &Columns, cursor: Cursor, in_paragraph: bool) -> Option<ItemStart>
    ensures { result ≡ item_at cells.now cursor in_paragraph }
{
    let marker = marker_at(cells, cursor.ink)?;
    let behind = cursor.ink.saturating_add(marker.length);
    let ink = ink_from(cells, behind);
    let empty = cells.len() <= ink;
    let gap = item_gap(empty, ink.saturating_sub(behind));
    if in_paragraph && !may_interrupt(empty, marker) {
        return None;
    }
    Some(ItemStart {
        sort: marker.sort,
        number: marker.number,
        width: indent_of(cursor).saturating_add(marker.length.saturating_add(gap)),
        next: behind.saturating_add(gap).min(cells.len()),
    })
}

/// The container that begins at a cursor, if one does; `tail` is the tail of the line, and `in_paragraph`
/// says that the line would else go on with a paragraph.
#[tactic(auto, unfolding(crate::specs::Containers::container_at))]
pub fn container_at(
    cells: &Columns,
    tail: Tail,
    cursor: Cursor,
    in_paragraph: bool,
) -> Option<ContainerStart>
    ensures { result ≡ container_at cells.now tail cursor in_paragraph }
{
    if is_blank_at(cells, cursor) || 4 <= indent_of(cursor) {
        None
    } else if cell_byte(cells, cursor.ink) == b'>' {
        Some(ContainerStart::Quote)
    } else if is_rule(cells, tail, cursor.ink) {
        None
    } else {
        item_at(cells, cursor, in_paragraph).map(ContainerStart::Item)
    }
}

/// The container that begins at a cursor, in an extension or in CommonMark.
#[tactic(auto, unfolding(crate::specs::Containers::container_in))]
pub fn container_in(
    syntax: Syntax,
    cells: &Columns,
    tail: Tail,
    cursor: Cursor,
    in_paragraph: bool,
) -> Option<ContainerStart>
    ensures { result ≡ container_in syntax cells.now tail cursor in_paragraph }
{
    if let Some(definition) = definition_start(syntax, cells, cursor) {
        return Some(ContainerStart::Definition(definition));
    }
    match note_start(syntax, cells, cursor) {
        Some(note) => Some(ContainerStart::Footnote(note)),
        None => container_at(cells, tail, cursor, in_paragraph),
    }
}
