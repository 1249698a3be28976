//! The blocks of a page as its lines come in.

ghost use Rattle.std.specs.Prelude.{◌≡◌, drop, slice_get, slice_set, OnOk};
ghost use Rattle.std.specs.Option.{option_map_or};
ghost use Rattle.tocmark_read_page.specs.Pages.{ended, finished, list_of, is_apart, loosened, made_loose, had_marked, is_list, is_quote, is_note, is_definitions, is_loose, shortened, page, first_page, raised_last, quote_left, quote_entered, piece_pushed, leaf_finished, settled, leaf_closed, one_closed, times, closed_to, list_left, left_noted, note_left, begun, opened_with, leaf_opened, piece_taken, table_finished, has_text};

use crate::definition::{LinkDefinition, take_definitions};
use crate::leaf::{Leaf, Table};
use crate::packed::{PackedBlock, block_at, push_block, set_block};
use crate::piece::Piece;
use std::alloc::{AllocError, Global};
use tocmark_event::event::{BlockQuoteKind, HeadingLevel, MetadataBlockKind};
use tocmark_read_lines::container::{Container, Opened, raise_at};
use tocmark_read_lines::line::Line;

/// The braces round the attributes of a heading.
#[derive(Clone, Copy)]
pub struct Braces {
    /// The place of the opening brace.
    pub from: usize,
    /// The place of the closing brace.
    pub to: usize,
}

/// Where the last line of a paragraph may be the header of a table.
#[derive(Clone, Copy)]
pub enum HeaderLine {
    /// Nowhere: it went on with the paragraph lazily.
    Never,
    /// Where it is the paragraph's only line after its definitions.
    Alone,
    /// Everywhere: it begins with a bar.
    Always,
}

/// What a block is.
#[derive(Clone, Copy)]
pub enum BlockKind {
    /// A block quote of a kind, or of none.
    Quote(Option<BlockQuoteKind>),
    /// A list with its first number, or none for bullets.
    List(Option<u64>),
    Item,
    Paragraph,
    /// A heading, with the braces round its attributes, if it has them.
    Heading(HeadingLevel, Option<Braces>),
    Indented,
    /// A fenced code block, with the range of its info string.
    Fenced(usize, usize),
    Html,
    Rule,
    Metadata(MetadataBlockKind),
    /// The definition of a footnote, with the range of its name.
    Footnote(usize, usize),
    /// A table, with the range of its delimiter row.
    Table(usize, usize),
    TableHead,
    TableRow,
    TableCell,
    /// A list of definitions with their titles.
    DefinitionList,
    DefinitionListTitle,
    DefinitionListDefinition,
}

/// The box of a task, with the place of its first byte.
#[derive(Clone, Copy)]
pub struct Task {
    pub done: bool,
    pub start: usize,
}

/// A block with its depth and its range in bytes, line ending left out. A leaf has the pieces from
/// `first` to before `last`; a paragraph that has none holds definitions alone. `loose` says of a list
/// that its paragraphs aren't unwrapped; `list` is the list of an item, and of a block that is
/// directly in an item. `task` is the box of a paragraph, a heading, or an item.
#[derive(Clone, Copy)]
pub struct Block {
    pub depth: usize,
    pub kind: BlockKind,
    pub start: usize,
    pub end: usize,
    pub first: usize,
    pub last: usize,
    pub loose: bool,
    pub list: Option<usize>,
    pub task: Option<Task>,
}

/// A list of definitions that a block after it ended. It goes on if that block is a title.
#[derive(Clone, Copy)]
pub struct LeftList {
    /// The number of the list's block.
    pub list: usize,
    /// The number of the block after it.
    pub behind: usize,
    /// Whether the list round both was loose before that block.
    pub loose: bool,
}

/// The blocks so far. The open leaf, if there is one, is the last block: its last line ends at `end` and
/// has the number `line`, and of the pieces the first `kept` ones stay if it is closed now.
#[derive(Drop)]
pub struct BlocksSoFar {
    pub blocks: Vec<PackedBlock>,
    pub pieces: Vec<Piece>,
    pub definitions: Vec<LinkDefinition>,
    pub opened: Vec<Opened>,
    pub quotes: Vec<usize>,
    pub leaf: Leaf,
    pub end: usize,
    pub line: usize,
    pub kept: usize,
    /// What the last line of the open paragraph may be, where tables are read.
    pub header: HeaderLine,
    /// The number of blocks when definitions were last looked for in front of a header row.
    pub tried: usize,
    /// The list of definitions that was left last, where definition lists are read.
    pub left: Option<LeftList>,
    /// How many cells the rows of all tables lack so far.
    pub filled: usize,
}

#[tactic(auto, unfolding(crate::specs::Pages::ended))]
fn end_block(blocks: &mut Vec<PackedBlock>, index: usize, end: usize) -> Result<(), AllocError>
    ensures { OnOk result (blocks.new.items ≡ ended blocks.old.items index end) }
{
    let alloc = *blocks.allocator();
    match blocks.get_mut(index) {
        None => Ok(()),
        Some(block) => block.set_end(alloc, end),
    }
}

#[tactic(auto, unfolding(crate::specs::Pages::finished))]
fn finish_block(
    blocks: &mut Vec<PackedBlock>,
    index: usize,
    end: usize,
    last: usize,
) -> Result<(), AllocError>
    ensures { OnOk result (blocks.new.items ≡ finished blocks.old.items index end last) }
{
    let alloc = *blocks.allocator();
    match blocks.get_mut(index) {
        None => Ok(()),
        Some(block) => block.finish(alloc, end, last),
    }
}

/// The list that is innermost among the open containers, or whose item or definition is.
#[tactic(auto, unfolding(crate::specs::Pages::list_of))]
pub fn list_of(opened: &[Opened]) -> Option<usize>
    ensures { result ≡ list_of opened.now }
{
    let one = opened.get(opened.len().saturating_sub(1)).copied()?;
    match one.container {
        Container::Quote => None,
        Container::List(_) => Some(one.block),
        Container::Item(_) => {
            let list = opened.get(opened.len().saturating_sub(2)).copied()?;
            Some(list.block)
        }
        Container::Footnote => None,
        Container::Definitions => Some(one.block),
        Container::Definition(_) => {
            let list = opened.get(opened.len().saturating_sub(2)).copied()?;
            Some(list.block)
        }
    }
}

/// Whether a block that begins in a line comes after a blank line after its neighbour.
#[tactic(auto, unfolding(crate::specs::Pages::is_apart))]
fn is_apart(opened: &[Opened], number: usize) -> bool
    ensures { result ≡ is_apart opened.now number }
{
    match opened.get(opened.len().saturating_sub(1)).copied() {
        None => false,
        Some(one) => one.had && one.line.saturating_add(1) < number,
    }
}

fn make_loose(blocks: &mut Vec<PackedBlock>, index: usize) -> Result<(), AllocError>
    ensures { OnOk result (blocks.new.items ≡ made_loose blocks.old.items index) }
{
    match block_at(blocks, index) {
        None => Ok(()),
        Some(block) => set_block(
            blocks,
            index,
            Block {
                loose: true,
                ..block
            },
        ),
    }
}

#[tactic(auto, unfolding(crate::specs::Pages::loosened))]
fn loosen(blocks: &mut Vec<PackedBlock>, list: Option<usize>, apart: bool) -> Result<(), AllocError>
    ensures { OnOk result (blocks.new.items ≡ loosened list apart blocks.old.items) }
{
    if !apart {
        return Ok(());
    }
    match list {
        None => Ok(()),
        Some(index) => make_loose(blocks, index),
    }
}

/// Notes that a block is in the innermost container.
#[tactic(auto, unfolding(crate::specs::Pages::had_marked))]
fn mark_had(opened: &mut Vec<Opened>)
    ensures { opened.new.items ≡ had_marked opened.old.items }
{
    let last = opened.len().saturating_sub(1);
    if let Some(one) = opened.get_mut(last) {
        one.had = true;
    }
}

/// Whether a container is a list, of items or of definitions.
#[tactic(auto, unfolding(crate::specs::Pages::is_list))]
pub fn is_list(container: Container) -> bool
    ensures { result ≡ is_list container }
{
    match container {
        Container::Quote => false,
        Container::List(_) => true,
        Container::Item(_) => false,
        Container::Footnote => false,
        Container::Definitions => true,
        Container::Definition(_) => false,
    }
}

/// Whether a container is a block quote.
#[tactic(auto, unfolding(crate::specs::Pages::is_quote))]
pub fn is_quote(container: Container) -> bool
    ensures { result ≡ is_quote container }
{
    match container {
        Container::Quote => true,
        Container::List(_) => false,
        Container::Item(_) => false,
        Container::Footnote => false,
        Container::Definitions => false,
        Container::Definition(_) => false,
    }
}

#[tactic(auto, unfolding(crate::specs::Pages::is_note))]
fn is_note(container: Container) -> bool
    ensures { result ≡ is_note container }
{
    match container {
        Container::Quote => false,
        Container::List(_) => false,
        Container::Item(_) => false,
        Container::Footnote => true,
        Container::Definitions => false,
        Container::Definition(_) => false,
    }
}

/// Whether a container is a list of definitions.
#[tactic(auto, unfolding(crate::specs::Pages::is_definitions))]
pub fn is_definitions(container: Container) -> bool
    ensures { result ≡ is_definitions container }
{
    match container {
        Container::Quote => false,
        Container::List(_) => false,
        Container::Item(_) => false,
        Container::Footnote => false,
        Container::Definitions => true,
        Container::Definition(_) => false,
    }
}

fn is_loose(blocks: &[PackedBlock], list: Option<usize>) -> bool
    ensures { result ≡ is_loose blocks.now list }
{
    match list {
        None => false,
        Some(index) => blocks.get(index).map_or(false, |block| block.is_loose()),
    }
}

fn pieces_from(pieces: &[Piece], first: usize) -> &[Piece]
    ensures { result.now ≡ drop first pieces.now }
{
    if first <= pieces.len() {
        &pieces[first..]
    } else {
        &[]
    }
}

/// Takes the first lines of a paragraph from it.
#[tactic(auto, unfolding(crate::specs::Pages::shortened))]
fn shorten_block(
    alloc: Global,
    block: &mut PackedBlock,
    pieces: &[Piece],
    count: usize,
) -> Result<(), AllocError>
    ensures { OnOk result (block.new ≡ shortened block.old pieces.now count) }
{
    let first = block.first().saturating_add(count);
    let start = pieces.get(first).map_or(block.start(), |line| line.start);
    block.set_front(alloc, first, start)
}

/// Takes the first lines of the paragraph at a place from it.
fn shorten(
    blocks: &mut Vec<PackedBlock>,
    index: usize,
    pieces: &[Piece],
    count: usize,
) -> Result<(), AllocError>
    ensures { OnOk result (blocks.new.items ≡ option_map_or
        (λ b. slice_set blocks.old.items index (shortened b pieces.now count))
        (slice_get blocks.old.items index) blocks.old.items) }
{
    let alloc = *blocks.allocator();
    match blocks.get_mut(index) {
        None => Ok(()),
        Some(block) => shorten_block(alloc, block, pieces, count),
    }
}

impl BlocksSoFar {
    /// A page without blocks.
    pub fn new(alloc: Global) -> BlocksSoFar
        ensures { page result ≡ first_page }
    {
        BlocksSoFar {
            blocks: Vec::new(alloc),
            pieces: Vec::new(alloc),
            definitions: Vec::new(alloc),
            opened: Vec::new(alloc),
            quotes: Vec::new(alloc),
            leaf: Leaf::Nothing,
            end: 0,
            line: 0,
            kept: 0,
            header: HeaderLine::Never,
            tried: 0,
            left: None,
            filled: 0,
        }
    }

    /// Lets the innermost container reach at least to a line.
    fn raise(&mut self, end: usize, line: usize)
        ensures { page self.new ≡ raised_last end line (page self.old) }
    {
        let last = self.opened.len().saturating_sub(1);
        raise_at(&mut self.opened, last, end, line);
    }

    /// Ends the open leaf. Its pieces after those that it keeps go.
    #[tactic(auto, unfolding(crate::specs::Pages::leaf_finished))]
    pub fn finish_leaf(&mut self) -> Result<(), AllocError>
        ensures { OnOk result (page self.new ≡ leaf_finished (page self.old)) }
    {
        self.pieces.truncate(self.kept);
        let index = self.blocks.len().saturating_sub(1);
        finish_block(&mut self.blocks, index, self.end, self.pieces.len())?;
        self.leaf = Leaf::Nothing;
        self.raise(self.end, self.line);
        Ok(())
    }

    #[tactic(auto, unfolding(crate::specs::Pages::table_finished))]
    fn finish_table(&mut self, table: Table) -> Result<(), AllocError>
        ensures { OnOk result (page self.new ≡ table_finished table (page self.old)) }
    {
        end_block(&mut self.blocks, table.block, self.end)?;
        self.leaf = Leaf::Nothing;
        self.raise(self.end, self.line);
        Ok(())
    }

    /// Takes the definitions at the front of the open paragraph.
    #[tactic(auto, unfolding(crate::specs::Pages::settled))]
    pub fn settle(&mut self, alloc: Global, text: &[u8]) -> Result<(), AllocError>
        ensures { OnOk result (page self.new ≡ settled text.now (page self.old)) }
    {
        let index = self.blocks.len().saturating_sub(1);
        if let Some(block) = self.blocks.get(index) {
            if block.has_task() {
                return Ok(());
            }
            let lines = pieces_from(&self.pieces, block.first());
            let count = take_definitions(alloc, text, lines, &mut self.definitions)?;
            shorten(&mut self.blocks, index, &self.pieces, count)?;
        }
        Ok(())
    }

    /// Closes the open leaf, if there is one. A paragraph gives its definitions of links.
    #[tactic(auto, unfolding(crate::specs::Pages::leaf_closed))]
    pub fn close_leaf(&mut self, alloc: Global, text: &[u8]) -> Result<(), AllocError>
        ensures { OnOk result (page self.new ≡ leaf_closed text.now (page self.old)) }
    {
        match self.leaf {
            Leaf::Nothing => Ok(()),
            Leaf::Paragraph => {
                self.settle(alloc, text)?;
                self.finish_leaf()
            }
            Leaf::Indented => self.finish_leaf(),
            Leaf::Fenced(_) => self.finish_leaf(),
            Leaf::Html(_) => self.finish_leaf(),
            Leaf::Metadata(_) => self.finish_leaf(),
            Leaf::Table(table) => self.finish_table(table),
        }
    }

    fn leave_quote(&mut self, container: Container)
        ensures { page self.new ≡ quote_left container (page self.old) }
    {
        if is_quote(container) {
            let last = self.quotes.len().saturating_sub(1);
            self.quotes.truncate(last);
        }
    }

    /// Closes the innermost container. The one round it reaches as far.
    #[tactic(auto, unfolding(crate::specs::Pages::one_closed))]
    fn close_one(&mut self) -> Result<(), AllocError>
        ensures { OnOk result (page self.new ≡ one_closed (page self.old)) }
    {
        let last = self.opened.len().saturating_sub(1);
        if let Some(one) = self.opened.get(last).copied() {
            self.opened.truncate(last);
            end_block(&mut self.blocks, one.block, one.end)?;
            self.raise(one.end, one.line);
            self.leave_quote(one.container);
        }
        Ok(())
    }

    #[tactic(auto, using(crate::proofs::Steps::times_zero, crate::proofs::Steps::times_more))]
    fn close_some(&mut self, count: usize) -> Result<(), AllocError>
        ensures { OnOk result (page self.new ≡ times one_closed count (page self.old)) }
    {
        for _left in (0..count).rev() {
            self.close_one()?;
        }
        Ok(())
    }

    /// Closes the open leaf and the containers from a depth on.
    #[tactic(auto, unfolding(crate::specs::Pages::closed_to))]
    pub fn close_to(&mut self, alloc: Global, text: &[u8], depth: usize) -> Result<(), AllocError>
        ensures { OnOk result (page self.new ≡ closed_to text.now depth (page self.old)) }
    {
        self.close_leaf(alloc, text)?;
        let extra = self.opened.len().saturating_sub(depth);
        self.close_some(extra)
    }

    /// Notes that a list of definitions, which is closed now, was left for the next block.
    #[tactic(auto, unfolding(crate::specs::Pages::left_noted))]
    fn remember_left(&mut self, one: Opened)
        ensures { page self.new ≡ left_noted one (page self.old) }
    {
        if is_definitions(one.container) {
            self.left = Some(LeftList {
                list: one.block,
                behind: self.blocks.len(),
                loose: is_loose(&self.blocks, list_of(&self.opened)),
            });
        }
    }

    /// Closes the innermost container if it is a list.
    #[tactic(auto, unfolding(crate::specs::Pages::list_left))]
    pub fn leave_list(&mut self) -> Result<(), AllocError>
        ensures { OnOk result (page self.new ≡ list_left (page self.old)) }
    {
        let last = self.opened.len().saturating_sub(1);
        if let Some(one) = self.opened.get(last).copied() {
            if is_list(one.container) {
                self.close_one()?;
                self.remember_left(one);
            }
        }
        Ok(())
    }

    /// Closes the innermost container if it is the definition of a footnote.
    #[tactic(auto, unfolding(crate::specs::Pages::note_left))]
    pub fn leave_note(&mut self) -> Result<(), AllocError>
        ensures { OnOk result (page self.new ≡ note_left (page self.old)) }
    {
        let last = self.opened.len().saturating_sub(1);
        if let Some(one) = self.opened.get(last).copied() {
            if is_note(one.container) {
                self.close_one()?;
            }
        }
        Ok(())
    }

    /// Begins a block in the innermost container.
    #[tactic(auto, unfolding(crate::specs::Pages::begun))]
    #[inline(always)]
    fn begin(&mut self, kind: BlockKind, start: usize, number: usize) -> Result<(), AllocError>
        ensures { OnOk result (page self.new ≡ begun kind start number (page self.old)) }
    {
        let list = list_of(&self.opened);
        loosen(&mut self.blocks, list, is_apart(&self.opened, number))?;
        mark_had(&mut self.opened);
        push_block(
            &mut self.blocks,
            Block {
                depth: self.opened.len(),
                kind,
                start,
                end: start,
                first: self.pieces.len(),
                last: self.pieces.len(),
                loose: false,
                list,
                task: None,
            },
        )
    }

    fn enter_quote(&mut self, container: Container) -> Result<(), AllocError>
        ensures { OnOk result (page self.new ≡ quote_entered container (page self.old)) }
    {
        if is_quote(container) {
            self.quotes.push(self.opened.len().saturating_sub(1))?;
        }
        Ok(())
    }

    /// Begins a container in the innermost one.
    #[tactic(auto, unfolding(crate::specs::Pages::opened_with))]
    #[inline(always)]
    pub fn open(
        &mut self,
        container: Container,
        kind: BlockKind,
        start: usize,
        line: Line,
    ) -> Result<(), AllocError>
        ensures { OnOk result (page self.new
            ≡ opened_with container kind start line (page self.old)) }
    {
        self.begin(kind, start, line.number)?;
        self.opened.push(Opened {
            container,
            block: self.blocks.len().saturating_sub(1),
            end: line.end,
            line: line.number,
            had: false,
        })?;
        self.enter_quote(container)
    }

    /// Begins a leaf in the innermost container, which is no list.
    #[tactic(auto, unfolding(crate::specs::Pages::leaf_opened))]
    #[inline(always)]
    pub fn open_leaf(
        &mut self,
        leaf: Leaf,
        kind: BlockKind,
        start: usize,
        line: Line,
    ) -> Result<(), AllocError>
        ensures { OnOk result (page self.new ≡ leaf_opened leaf kind start line (page self.old)) }
    {
        self.leave_list()?;
        self.begin(kind, start, line.number)?;
        self.leaf = leaf;
        self.end = line.end;
        self.line = line.number;
        self.kept = self.pieces.len();
        Ok(())
    }

    fn push_piece(&mut self, piece: Piece) -> Result<(), AllocError>
        ensures { OnOk result (page self.new ≡ piece_pushed piece (page self.old)) }
    {
        if 0 < piece.spaces || piece.start < piece.next {
            self.pieces.push(piece)?;
        }
        Ok(())
    }

    /// Puts a line into the open leaf. `keeps` says that the leaf reaches to this line even if it is
    /// its last one.
    #[tactic(auto, unfolding(crate::specs::Pages::piece_taken))]
    pub fn take_piece(&mut self, piece: Piece, line: Line, keeps: bool) -> Result<(), AllocError>
        ensures { OnOk result (page self.new ≡ piece_taken piece line keeps (page self.old)) }
    {
        self.push_piece(piece)?;
        if keeps {
            self.kept = self.pieces.len();
            self.end = line.end;
            self.line = line.number;
        }
        Ok(())
    }

    /// Whether the open paragraph has a line after its definitions.
    #[tactic(auto, unfolding(crate::specs::Pages::has_text))]
    pub fn has_text(&self) -> bool
        ensures { result ≡ has_text (page self.now) }
    {
        match self.blocks.get(self.blocks.len().saturating_sub(1)) {
            None => false,
            Some(block) => block.first() < self.pieces.len(),
        }
    }
}
