//! Definition lists: which paragraphs are titles, and where definitions begin.

ghost use Rattle.std.specs.Prelude.{◌≡◌, length, reverse, take_while, OnOk, IfOk};
ghost use Rattle.tocmark_read_constructs.specs.DefinitionLists.{is_words, is_spent, may_be_title, title_of, list_from, last_inked, last_title, loose_set, is_last, list_before, definitions_open, list_begun, list_resumed, line_of, title_put, is_among_definitions, text_ended, title_taken, definitions_entered, definition_opened};
ghost use Rattle.tocmark_read_page.specs.Pages.{page};

use std::alloc::{AllocError, Global};
use tocmark_read_lines::cell::{cell_place, moved};
use tocmark_read_lines::container::{Container, Opened};
use tocmark_read_lines::definition_list::DefinitionStart;
use tocmark_read_page::leaf::is_paragraph;
use tocmark_read_page::line_start::{LineStart, ScannedLine};
use tocmark_read_page::packed::{PackedBlock, block_at, push_block, set_block};
use tocmark_read_page::page::{Block, BlockKind, BlocksSoFar, LeftList, is_definitions, list_of};

/// Whether a kind is a paragraph.
#[tactic(auto, unfolding(crate::specs::DefinitionLists::is_words))]
fn is_words(kind: BlockKind) -> bool
    ensures { result ≡ is_words kind }
{
    if let BlockKind::Paragraph = kind {
        true
    } else {
        false
    }
}

/// Whether a block is a paragraph that ended, and holds definitions of links alone.
#[tactic(auto, unfolding(crate::specs::DefinitionLists::is_spent))]
fn is_spent(block: Block) -> bool
    ensures { result ≡ is_spent block }
{
    is_words(block.kind) && block.last <= block.first
}

/// Whether a block is a paragraph that ended, with text, in the innermost of so many containers.
#[tactic(auto, unfolding(crate::specs::DefinitionLists::may_be_title))]
fn may_be_title(depth: usize, block: Block) -> bool
    ensures { result ≡ may_be_title depth block }
{
    is_words(block.kind) && block.first < block.last && block.depth == depth
}

/// A paragraph as a title.
#[tactic(auto, unfolding(crate::specs::DefinitionLists::title_of))]
fn title_of(block: Block) -> Block
    ensures { result ≡ title_of block }
{
    Block {
        depth: block.depth.saturating_add(1),
        kind: BlockKind::DefinitionListTitle,
        ..block
    }
}

/// A paragraph as the list that begins with it.
#[tactic(auto, unfolding(crate::specs::DefinitionLists::list_from))]
fn list_from(block: Block) -> Block
    ensures { result ≡ list_from block }
{
    Block {
        kind: BlockKind::DefinitionList,
        task: None,
        ..block
    }
}

/// How many paragraphs that hold definitions of links alone are last.
fn spent_count(blocks: &[PackedBlock]) -> usize
    ensures { result ≡ length (take_while is_spent (reverse blocks.now)) }
{
    blocks
        .iter()
        .rev()
        .take_while(|packed| is_spent(packed.block()))
        .count()
}

/// The place of the last block but for paragraphs that hold definitions of links alone.
fn last_inked(blocks: &[PackedBlock]) -> usize
    ensures { result ≡ last_inked blocks.now }
{
    blocks
        .len()
        .saturating_sub(spent_count(blocks).saturating_add(1))
}

/// The paragraph before a line, with its place, if it may be a title.
#[tactic(auto, unfolding(crate::specs::DefinitionLists::last_title))]
fn last_title(depth: usize, blocks: &[PackedBlock]) -> Option<(usize, Block)>
    ensures { result ≡ last_title depth blocks.now }
{
    let place = last_inked(blocks);
    let block = block_at(blocks, place)?;
    if may_be_title(depth, block) {
        Some((place, block))
    } else {
        None
    }
}

#[tactic(auto, unfolding(crate::specs::DefinitionLists::loose_set))]
fn set_loose(
    blocks: &mut Vec<PackedBlock>,
    list: Option<usize>,
    loose: bool,
) -> Result<(), AllocError>
    ensures { OnOk result (blocks.new.items ≡ loose_set blocks.old.items list loose) }
{
    if let Some(place) = list {
        if let Some(block) = block_at(blocks, place) {
            set_block(blocks, place, Block { loose, ..block })?;
        }
    }
    Ok(())
}

#[tactic(auto, unfolding(crate::specs::DefinitionLists::is_last))]
fn is_last(so_far: &BlocksSoFar, place: usize) -> bool
    ensures { result ≡ is_last place (page so_far.now) }
{
    so_far.blocks.len() == place.saturating_add(1)
}

/// The list of definitions that ended with the block at a place, if this is the last one.
#[tactic(auto, unfolding(crate::specs::DefinitionLists::list_before))]
fn list_before(so_far: &BlocksSoFar, place: usize) -> Option<LeftList>
    ensures { result ≡ list_before place (page so_far.now) }
{
    let left = so_far.left?;
    if left.behind == place && is_last(so_far, place) {
        Some(left)
    } else {
        None
    }
}

/// Opens a list of definitions, whose title ends here.
fn open_definitions(
    so_far: &mut BlocksSoFar,
    list: usize,
    end: usize,
    line: usize,
) -> Result<(), AllocError>
    ensures { OnOk result (page so_far.new
        ≡ definitions_open list end line (page so_far.old)) }
{
    so_far.opened.push(Opened {
        container: Container::Definitions,
        block: list,
        end,
        line,
        had: true,
    })?;
    Ok(())
}

/// Begins a list with a paragraph as its title.
#[tactic(auto, unfolding(crate::specs::DefinitionLists::list_begun))]
fn begin_list(
    so_far: &mut BlocksSoFar,
    place: usize,
    block: Block,
    line: usize,
) -> Result<(), AllocError>
    ensures { OnOk result (page so_far.new ≡ list_begun place block line (page so_far.old)) }
{
    set_block(&mut so_far.blocks, place, list_from(block))?;
    push_block(&mut so_far.blocks, title_of(block))?;
    open_definitions(so_far, place, block.end, line)
}

/// Lets a list go on with a paragraph as its next title.
#[tactic(auto, unfolding(crate::specs::DefinitionLists::list_resumed))]
fn resume_list(
    so_far: &mut BlocksSoFar,
    place: usize,
    block: Block,
    line: usize,
    left: LeftList,
) -> Result<(), AllocError>
    ensures { OnOk result (page so_far.new
        ≡ list_resumed place block line left (page so_far.old)) }
{
    let list = list_of(&so_far.opened);
    set_loose(&mut so_far.blocks, list, left.loose)?;
    set_block(&mut so_far.blocks, place, title_of(block))?;
    open_definitions(so_far, left.list, block.end, line)
}

/// The line of the last block, or none where blocks are after it.
fn line_of(so_far: &BlocksSoFar, place: usize) -> usize
    ensures { result ≡ line_of place (page so_far.now) }
{
    if is_last(so_far, place) {
        so_far.line
    } else {
        0
    }
}

/// Makes a paragraph a title, of the list that ended before it or of one that begins with it.
#[tactic(auto, unfolding(crate::specs::DefinitionLists::title_put))]
fn put_title(so_far: &mut BlocksSoFar, place: usize, block: Block) -> Result<(), AllocError>
    ensures { OnOk result (page so_far.new ≡ title_put place block (page so_far.old)) }
{
    let line = line_of(so_far, place);
    match list_before(so_far, place) {
        None => begin_list(so_far, place, block, line),
        Some(left) => resume_list(so_far, place, block, line, left),
    }
}

/// Whether a line goes on with a list of definitions, and with none of them.
#[tactic(auto, unfolding(crate::specs::DefinitionLists::is_among_definitions))]
fn is_among_definitions(so_far: &BlocksSoFar, depth: usize) -> bool
    ensures { result ≡ is_among_definitions depth (page so_far.now) }
{
    match so_far.opened.get(depth.saturating_sub(1)).copied() {
        None => false,
        Some(one) => 0 < depth && is_definitions(one.container),
    }
}

/// Ends the open paragraph, if there is one; false if it has no text after its definitions of links.
#[tactic(auto, unfolding(crate::specs::DefinitionLists::text_ended))]
fn end_text(so_far: &mut BlocksSoFar, alloc: Global, text: &[u8]) -> Result<bool, AllocError>
    ensures { IfOk result (λ found.
        (page so_far.new, found) ≡ text_ended text.now (page so_far.old)) }
{
    if !is_paragraph(so_far.leaf) {
        return Ok(true);
    }
    so_far.settle(alloc, text)?;
    if so_far.has_text() {
        so_far.finish_leaf()?;
        Ok(true)
    } else {
        Ok(false)
    }
}

/// Makes the paragraph before a line a title, if there is one.
#[tactic(auto, unfolding(crate::specs::DefinitionLists::title_taken))]
fn take_title(so_far: &mut BlocksSoFar, alloc: Global, text: &[u8]) -> Result<bool, AllocError>
    ensures { IfOk result (λ found.
        (page so_far.new, found) ≡ title_taken text.now (page so_far.old)) }
{
    if !end_text(so_far, alloc, text)? {
        return Ok(false);
    }
    match last_title(so_far.opened.len(), &so_far.blocks) {
        None => Ok(false),
        Some((place, block)) => {
            put_title(so_far, place, block)?;
            Ok(true)
        }
    }
}

/// Lets a list of definitions be innermost, if a title or a definition is before a line.
#[tactic(auto, unfolding(crate::specs::DefinitionLists::definitions_entered))]
fn enter_definitions(
    so_far: &mut BlocksSoFar,
    alloc: Global,
    text: &[u8],
    depth: usize,
) -> Result<bool, AllocError>
    ensures { IfOk result (λ found.
        (page so_far.new, found) ≡ definitions_entered text.now depth (page so_far.old)) }
{
    if is_among_definitions(so_far, depth) {
        so_far.close_to(alloc, text, depth)?;
        Ok(true)
    } else if depth < so_far.opened.len() {
        Ok(false)
    } else {
        take_title(so_far, alloc, text)
    }
}

/// Begins a definition, if a title or a definition of its list is before it, and gives the place
/// after its colon.
#[tactic(auto, unfolding(crate::specs::DefinitionLists::definition_opened))]
pub fn open_definition(
    so_far: &mut BlocksSoFar,
    alloc: Global,
    scan: &ScannedLine<'_, '_>,
    place: LineStart,
    start: DefinitionStart,
) -> Result<Option<LineStart>, AllocError>
    ensures { IfOk result (λ next.
        (page so_far.new, next)
        ≡ definition_opened scan.now.text.now scan.now.cells.now scan.now.line place start
        (page so_far.old)) }
{
    if !enter_definitions(so_far, alloc, scan.text, place.depth)? {
        return Ok(None);
    }
    let from = cell_place(scan.cells, place.cursor.ink, scan.line.end);
    let kind = BlockKind::DefinitionListDefinition;
    so_far.open(Container::Definition(start.width), kind, from, scan.line)?;
    Ok(Some(LineStart {
        cursor: moved(scan.cells, place.cursor, start.next),
        depth: so_far.opened.len(),
    }))
}
