//! Trees at the top of a document, in little memory: what printing needs of each event, where each container ends, and
//! which lists are loose.

use crate::source::Source;
use std::alloc::{AllocError, Global};
use tocmark_event::event::{Alignment, CodeBlockKind, Event, HeadingLevel, LinkType, Tag, TagEnd};
use tocmark_printing::Placed;
use tocmark_spelling::kinds::is_inline_end;

/// What printing needs of a container's start.
#[derive(Clone, Copy)]
pub(crate) enum Opening {
    Paragraph,
    Heading(HeadingLevel),
    Quote {
        /// Whether it begins with a line like `[!NOTE]`.
        has_kind: bool,
    },
    IndentedCode,
    FencedCode,
    Html,
    Metadata,
    Table,
    /// The head, a row or a cell of a table. It has no place among the events: its End says where it begins, too.
    TablePart,
    List {
        is_ordered: bool,
    },
    Item,
    Footnote,
    DefinitionList,
    Title,
    Definition,
    Emphasis,
    Strong,
    Strikethrough,
    /// A superscript or a subscript.
    Script,
    Link(LinkType),
    Image(LinkType),
}

/// What printing needs of an event.
#[derive(Clone, Copy)]
pub(crate) enum Mark {
    Start(Opening),
    End(TagEnd),
    Text,
    Code,
    SoftBreak,
    HardBreak,
    TaskBox,
    Rule,
    /// A line of an HTML block.
    HtmlLine,
    /// Another event within a line.
    Other,
}

/// What printing needs of a container that is no block of its own kind, or is within a line.
fn inner_opening(tag: &Tag<'_>) -> Opening {
    match tag {
        Tag::TableHead | Tag::TableRow | Tag::TableCell => Opening::TablePart,
        Tag::Emphasis => Opening::Emphasis,
        Tag::Strong => Opening::Strong,
        Tag::Strikethrough => Opening::Strikethrough,
        Tag::Superscript | Tag::Subscript => Opening::Script,
        Tag::Link { link_type, .. } => Opening::Link(*link_type),
        Tag::Image { link_type, .. } => Opening::Image(*link_type),
        _ => Opening::Paragraph,
    }
}

/// What printing needs of a container's start.
fn opening_of(tag: &Tag<'_>) -> Opening {
    match tag {
        Tag::Heading { level, .. } => Opening::Heading(*level),
        Tag::BlockQuote(kind) => Opening::Quote {
            has_kind: kind.is_some(),
        },
        Tag::CodeBlock(CodeBlockKind::Indented) => Opening::IndentedCode,
        Tag::CodeBlock(CodeBlockKind::Fenced(_)) => Opening::FencedCode,
        Tag::HtmlBlock => Opening::Html,
        Tag::List(first) => Opening::List {
            is_ordered: first.is_some(),
        },
        Tag::Item => Opening::Item,
        Tag::FootnoteDefinition(_) => Opening::Footnote,
        Tag::DefinitionList => Opening::DefinitionList,
        Tag::DefinitionListTitle => Opening::Title,
        Tag::DefinitionListDefinition => Opening::Definition,
        Tag::Table(_) => Opening::Table,
        Tag::MetadataBlock(_) => Opening::Metadata,
        _ => inner_opening(tag),
    }
}

/// What printing needs of an event.
fn mark_of(event: &Event<'_>) -> Mark {
    match event {
        Event::Start(tag) => Mark::Start(opening_of(tag)),
        Event::End(end) => Mark::End(*end),
        Event::Text(_) => Mark::Text,
        Event::Code(_) => Mark::Code,
        Event::Html(_) => Mark::HtmlLine,
        Event::SoftBreak => Mark::SoftBreak,
        Event::HardBreak => Mark::HardBreak,
        Event::Rule => Mark::Rule,
        Event::TaskListMarker(_) => Mark::TaskBox,
        _ => Mark::Other,
    }
}

/// Whether a container is within a line.
fn is_inline_opening(opening: Opening) -> bool {
    match opening {
        Opening::Emphasis | Opening::Strong | Opening::Strikethrough | Opening::Script => true,
        Opening::Link(_) | Opening::Image(_) => true,
        _ => false,
    }
}

/// Whether an event is within a line.
pub(crate) fn is_inline(mark: Mark) -> bool {
    match mark {
        Mark::Start(opening) => is_inline_opening(opening),
        Mark::End(end) => is_inline_end(end),
        Mark::HtmlLine | Mark::Rule => false,
        _ => true,
    }
}

/// An event, and where it is in the source. A Start has the place of its End, and both end in the source where that is.
/// All numbers are short, because one list may be the whole document.
#[derive(Clone, Copy)]
struct Node {
    mark: Mark,
    /// How far after the front of the trees it begins in the source.
    start: u32,
    /// How far after that front it ends; of a Start the place of its End, and its own as long as there is none.
    end: u32,
}

/// A number in four bytes: the largest one in place of those that don't fit, in a document of more than 4 GiB. What is
/// printed then reads otherwise, so the document stays as it is.
pub(crate) fn short(number: usize) -> u32 {
    if number > 0xffff_ffff {
        0xffff_ffff
    } else {
        number as u32
    }
}

/// Whether blank lines are between the items of a list.
#[derive(Clone, Copy, PartialEq, Eq)]
enum Spread {
    Unknown,
    Tight,
    Loose,
}

/// A list: the place of its Start, and whether blank lines are between its items.
#[derive(Clone, Copy)]
struct ListSpread {
    at: u32,
    spread: Spread,
    /// Whether a blank line of the source is between two of its items, or between two blocks of an item. One beside
    /// the definitions of links alone is none.
    has_gap: bool,
}

/// What a container has of a list that all share: from one place of it to another.
#[derive(Clone, Copy)]
struct Share {
    /// The place of its Start.
    at: usize,
    from: usize,
    to: usize,
}

/// What an open container is.
#[derive(Clone, Copy)]
enum Role {
    /// A list, with its number.
    List(u32),
    Item,
    /// Code or HTML, whose texts are kept.
    Raw,
    /// Another block.
    Block,
    /// It is within a line.
    Inline,
}

/// So many open containers have room from tree to tree.
const FEW: usize = 64;

/// A container that is open. Its numbers are short, as those of a `Node`.
#[derive(Clone, Copy)]
struct OpenContainer {
    /// The place of its Start.
    at: u32,
    role: Role,
    /// The end in the source of the last block in it; 0 if there is none.
    last: u32,
}

/// Some trees at the top of a document, to which events are added one by one.
#[derive(Drop)]
pub(crate) struct Part {
    nodes: Vec<Node>,
    /// Where the first one begins in the source.
    front: usize,
    /// How many events are before the last cell of a table.
    cell: usize,
    /// The containers that are open.
    open: Vec<OpenContainer>,
    /// How many blocks are open at most, one in the other.
    deepest: usize,
    /// The lists, in order.
    lists: Vec<ListSpread>,
    /// The texts of code and HTML blocks, and what each of these blocks has of them.
    raw: String,
    raw_blocks: Vec<Share>,
    /// The alignments of columns, and what each table has of them.
    alignments: Vec<Alignment>,
    tables: Vec<Share>,
    has_emphasis: bool,
    /// The places in the source of `*` and of `_`, in order; both are empty if there is no emphasis.
    stars: Vec<usize>,
    scores: Vec<usize>,
}

/// Adds the places of a byte between two places of a source.
fn add_places(
    places: &mut Vec<usize>,
    source: &Source<'_>,
    byte: u8,
    range: (usize, usize),
) -> Result<(), AllocError> {
    let text = source.slice(range.0, range.1).as_bytes();
    if !text.contains(&byte) {
        return Ok(());
    }
    for (at, other) in text.iter().enumerate() {
        if *other == byte {
            places.push(range.0.saturating_add(at))?;
        }
    }
    Ok(())
}

/// From where to where the container at a place has a list.
fn share_of(shares: &[Share], at: usize) -> (usize, usize) {
    let number = shares.partition_point(|share| share.at < at);
    match shares.get(number) {
        Some(share) if share.at == at => (share.from, share.to),
        _ => (0, 0),
    }
}

impl Part {
    /// No trees.
    pub(crate) fn new(alloc: Global) -> Part {
        Part {
            nodes: Vec::new(alloc),
            front: 0,
            cell: 0,
            open: Vec::new(alloc),
            deepest: 0,
            lists: Vec::new(alloc),
            raw: String::new(alloc),
            raw_blocks: Vec::new(alloc),
            alignments: Vec::new(alloc),
            tables: Vec::new(alloc),
            has_emphasis: false,
            stars: Vec::new(alloc),
            scores: Vec::new(alloc),
        }
    }

    /// Takes all trees away, and keeps their room.
    pub(crate) fn clear(&mut self) {
        self.nodes.truncate(0);
        self.cell = 0;
        self.open.truncate(0);
        self.deepest = 0;
        self.lists.truncate(0);
        self.raw.truncate(0);
        self.raw_blocks.truncate(0);
        self.alignments.truncate(0);
        self.tables.truncate(0);
        self.has_emphasis = false;
        self.stars.truncate(0);
        self.scores.truncate(0);
    }

    /// Takes all trees away, and gives back their room but for one of each. Where a large list is let
    /// go of whole, the C library takes room for such lists from its heap from then on, and keeps it.
    pub(crate) fn let_go(&mut self) {
        self.clear();
        self.nodes.shrink_to(1);
        self.open.shrink_to(1);
        self.lists.shrink_to(1);
        self.raw.shrink_to(1);
        self.raw_blocks.shrink_to(1);
        self.alignments.shrink_to(1);
        self.tables.shrink_to(1);
        self.stars.shrink_to(1);
        self.scores.shrink_to(1);
    }

    /// Gives back most of the room of open containers, if it is large: all are closed in a tree that is whole.
    pub(crate) fn let_go_of_open(&mut self) {
        self.open.shrink_to(FEW);
    }

    /// Says of a list whether it is loose, unless that is known.
    fn tell(&mut self, list: usize, spread: Spread) {
        if let Some(known) = self.lists.get_mut(list)
            && known.spread == Spread::Unknown
        {
            known.spread = spread;
        }
    }

    /// Notes that a list has a blank line between two of its items, or between two blocks of an item.
    fn note_gap(&mut self, list: usize) {
        if let Some(known) = self.lists.get_mut(list) {
            known.has_gap = true;
        }
    }

    fn set(&mut self, list: usize, spread: Spread) {
        if let Some(known) = self.lists.get_mut(list) {
            known.spread = spread;
        }
    }

    /// The index of the innermost item's list.
    fn list_round_item(&self) -> Option<usize> {
        let outer = self.open.len().checked_sub(2)?;
        match self.open.get(outer) {
            Some(container) => match container.role {
                Role::List(list) => Some(list as usize),
                _ => None,
            },
            None => None,
        }
    }

    /// Takes an event that begins something: a list is loose if an item has a paragraph, tight if it has bare text, and
    /// else as blank lines in the source say.
    fn begin(&mut self, source: &Source<'_>, mark: Mark, start: usize) {
        let Some(container) = self.open.last().copied() else {
            return;
        };
        let list = match container.role {
            Role::List(list) => Some(list as usize),
            Role::Item => self.list_round_item(),
            _ => None,
        };
        let Some(list) = list else {
            return;
        };
        let is_inline = is_inline(mark);
        if let Role::Item = container.role {
            match mark {
                Mark::Start(Opening::Paragraph) => self.set(list, Spread::Loose),
                // a box alone says nothing
                Mark::TaskBox => {}
                _ if is_inline => self.tell(list, Spread::Tight),
                _ => {}
            }
        }
        if container.last > 0
            && !is_inline
            && source.has_blank_line(container.last as usize, start)
        {
            self.tell(list, Spread::Loose);
            self.note_gap(list);
        }
    }

    /// Notes a list that begins here; its role.
    fn note_list(&mut self, at: usize) -> Result<Role, AllocError> {
        let list = self.lists.len();
        self.lists.push(ListSpread {
            at: short(at),
            spread: Spread::Unknown,
            has_gap: false,
        })?;
        Ok(Role::List(short(list)))
    }

    /// Notes a block of code or HTML that begins here; its role.
    fn note_raw(&mut self, at: usize) -> Result<Role, AllocError> {
        let from = self.raw.len();
        self.raw_blocks.push(Share { at, from, to: from })?;
        Ok(Role::Raw)
    }

    /// Opens a container.
    fn open(&mut self, at: usize, opening: Opening) -> Result<(), AllocError> {
        let role = match opening {
            Opening::List { .. } => self.note_list(at)?,
            Opening::Item => Role::Item,
            Opening::IndentedCode | Opening::FencedCode | Opening::Html => self.note_raw(at)?,
            _ if is_inline_opening(opening) => Role::Inline,
            _ => Role::Block,
        };
        self.open.push(OpenContainer {
            at: short(at),
            role,
            last: 0,
        })?;
        if !is_inline_opening(opening) {
            self.deepest = self.deepest.max(self.open.len());
        }
        Ok(())
    }

    /// Keeps the alignments of a table that begins here.
    fn keep_alignments(&mut self, at: usize, tag: &Tag<'_>) -> Result<(), AllocError> {
        if let Tag::Table(columns) = tag {
            let from = self.alignments.len();
            self.alignments.extend_from_slice(columns)?;
            let to = self.alignments.len();
            self.tables.push(Share { at, from, to })?;
        }
        Ok(())
    }

    /// Takes the End of the innermost container, which ends here in the source.
    fn close(&mut self, at: usize, tag: TagEnd, end: usize) {
        if let TagEnd::Emphasis | TagEnd::Strong = tag {
            self.has_emphasis = true;
        }
        let Some(container) = self.open.pop() else {
            return;
        };
        if let Some(node) = self.nodes.get_mut(container.at as usize) {
            node.end = short(at);
        }
        if let Role::Inline = container.role {
            return;
        }
        if let Some(outer) = self.open.last_mut() {
            outer.last = short(end);
        }
    }

    /// Leaves out the events in a cell that ends, unless a container is in it: its text stays as
    /// it is spelled, and its End says where that is.
    fn leave_out_leaves(&mut self) {
        let inner = self.nodes.get(self.cell..).unwrap_or(&[]);
        if !inner.iter().any(|node| matches!(node.mark, Mark::Start(_))) {
            self.nodes.truncate(self.cell);
        }
    }

    /// Keeps a text, if it is one of a block of code or HTML.
    fn keep_text(&mut self, text: &str) -> Result<(), AllocError> {
        if let Some(container) = self.open.last().copied()
            && let Role::Raw = container.role
        {
            self.raw.push_str(text)?;
            let to = self.raw.len();
            if let Some(block) = self.raw_blocks.last_mut() {
                block.to = to;
            }
        }
        Ok(())
    }

    /// Adds an event.
    pub(crate) fn add(&mut self, source: &Source<'_>, pair: &Placed) -> Result<(), AllocError> {
        let range = pair.1;
        let at = self.nodes.len();
        let mark = mark_of(&pair.0);
        match mark {
            Mark::Start(Opening::TablePart) => {
                self.cell = at;
                return Ok(());
            }
            Mark::End(TagEnd::TableCell) => self.leave_out_leaves(),
            Mark::End(TagEnd::TableHead | TagEnd::TableRow) => {}
            Mark::End(tag) => self.close(at, tag, range.1),
            Mark::Start(opening) => {
                self.begin(source, mark, range.0);
                self.open(at, opening)?;
            }
            _ => self.begin(source, mark, range.0),
        }
        match &pair.0 {
            Event::Text(text) | Event::Html(text) => self.keep_text(text.as_ref())?,
            Event::Start(tag) => self.keep_alignments(at, tag)?,
            _ => {}
        }
        if at == 0 {
            self.front = range.0;
        }
        let end = match mark {
            Mark::Start(_) => at,
            _ => range.1.saturating_sub(self.front),
        };
        self.nodes.push(Node {
            mark,
            start: short(range.0.saturating_sub(self.front)),
            end: short(end),
        })?;
        Ok(())
    }

    /// Whether these are whole trees, and the last one is a block: an inline event would go on with others.
    pub(crate) fn is_whole(&self) -> bool {
        match self.nodes.last().copied() {
            Some(node) => self.open.is_empty() && !is_inline(node.mark),
            None => false,
        }
    }

    /// Looks for the signs of emphasis in the source. It is called before the trees are printed.
    pub(crate) fn find_signs(&mut self, source: &Source<'_>) -> Result<(), AllocError> {
        if self.has_emphasis {
            let range = self.range_of_all();
            add_places(&mut self.stars, source, b'*', range)?;
            add_places(&mut self.scores, source, b'_', range)?;
        }
        Ok(())
    }

    /// What the trees cover of the source.
    fn range_of_all(&self) -> (usize, usize) {
        let last = self.len().saturating_sub(1);
        (self.range(0).0, self.range(last).1)
    }

    /// How many blocks are open at most, one in the other.
    pub(crate) fn deepest(&self) -> usize {
        self.deepest
    }

    /// How many events there are.
    pub(crate) fn len(&self) -> usize {
        self.nodes.len()
    }

    /// The event at a place.
    pub(crate) fn event(&self, at: usize) -> Option<Mark> {
        match self.nodes.get(at) {
            Some(node) => Some(node.mark),
            None => None,
        }
    }

    /// Where in the source an event is; at its front, if there is no such event.
    pub(crate) fn range(&self, at: usize) -> (usize, usize) {
        let Some(node) = self.nodes.get(at) else {
            return (0, 0);
        };
        let last = match node.mark {
            Mark::Start(_) => self.nodes.get(node.end as usize).unwrap_or(node),
            _ => node,
        };
        let start = self.front.saturating_add(node.start as usize);
        (start, self.front.saturating_add(last.end as usize))
    }

    /// The place of the End of a container that starts at a place; a leaf's own place.
    pub(crate) fn end(&self, at: usize) -> usize {
        let Some(node) = self.nodes.get(at) else {
            return at;
        };
        match node.mark {
            Mark::Start(_) => node.end as usize,
            _ => at,
        }
    }

    /// The list whose Start is at a place.
    fn list(&self, at: usize) -> Option<ListSpread> {
        let number = self.lists.partition_point(|one| (one.at as usize) < at);
        self.lists.get(number).copied()
    }

    /// Whether a list is loose.
    pub(crate) fn is_loose(&self, list: usize) -> bool {
        self.list(list)
            .is_some_and(|one| one.spread == Spread::Loose)
    }

    /// Whether a list is loose only because definitions of links are in it: `cmark-gfm` takes it for a tight one.
    pub(crate) fn is_loose_by_definitions(&self, list: usize) -> bool {
        self.list(list)
            .is_some_and(|one| one.spread == Spread::Loose && !one.has_gap)
    }

    /// Whether a blank line of the source makes a list loose.
    pub(crate) fn is_loose_by_gaps(&self, list: usize) -> bool {
        self.list(list)
            .is_some_and(|one| one.spread == Spread::Loose && one.has_gap)
    }

    /// Whether a byte, `*` or `_`, is in a stretch of the source.
    pub(crate) fn has_between(&self, byte: u8, from: usize, to: usize) -> bool {
        let places = if byte == b'*' {
            &self.stars
        } else {
            &self.scores
        };
        let first = places.partition_point(|place| *place < from);
        places.get(first).is_some_and(|place| *place < to)
    }

    /// Whether a block begins at a place.
    pub(crate) fn is_block(&self, at: usize) -> bool {
        match self.event(at) {
            Some(Mark::End(_)) | None => false,
            Some(mark) => !is_inline(mark),
        }
    }

    /// The first place from here on that is no inline event: what is after a stretch of inlines.
    pub(crate) fn past_inlines(&self, at: usize) -> usize {
        let mut next = at;
        for _ in at..self.len() {
            match self.event(next) {
                Some(mark) if is_inline(mark) => next = self
                    .end(next)
                    .saturating_add(1)
                    .max(next.saturating_add(1)),
                _ => break,
            }
        }
        next
    }

    /// The place after the block, or after the stretch of inlines, that begins at a place.
    pub(crate) fn past(&self, at: usize) -> usize {
        if self.is_block(at) {
            self.end(at).saturating_add(1)
        } else {
            self.past_inlines(at)
        }
    }

    /// The texts of a code block or an HTML block that starts at a place, as one.
    pub(crate) fn raw_text(&self, at: usize) -> &str {
        let (from, to) = share_of(&self.raw_blocks, at);
        self.raw.as_str().get(from..to).unwrap_or("")
    }

    /// Whether the last code or HTML ends with no line feed, at the end of the source.
    pub(crate) fn is_cut(&self) -> bool {
        !self.raw.is_empty() && !self.raw.ends_with('\n')
    }

    /// The alignments of the columns of a table that starts at a place.
    pub(crate) fn alignments(&self, at: usize) -> &[Alignment] {
        let (from, to) = share_of(&self.tables, at);
        self.alignments.get(from..to).unwrap_or(&[])
    }
}
