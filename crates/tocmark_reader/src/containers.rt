//! The containers that blocks are, as events.

ghost use Rattle.std.specs.Prelude.{◌≡◌, IfOk, OnOk};
ghost use Rattle.std.specs.List.{fold};
ghost use Rattle.tocmark_event.specs.Text.{text_of};
ghost use Rattle.tocmark_event.specs.View.{CodeBlock, Fenced, FootnoteDefinition, Table, tag_view};
ghost use Rattle.tocmark_read_scan.specs.Basic.{bytes_between};
ghost use Rattle.tocmark_read_constructs.specs.Tables.{alignments_of};
ghost use Rattle.tocmark_reader.specs.Emitted.{emission_view, step};
ghost use Rattle.tocmark_reader.specs.Words.{info_text_in, name_text};
ghost use Rattle.tocmark_reader.specs.Pages.{block_tag, block_node, task_nodes, fence_node_in};

use crate::attributes::heading_tag;
use crate::emit::Emission;
use crate::searched::SearchedText;
use crate::words::{info_text, name_text};
use std::alloc::{AllocError, Global};
use tocmark_event::event::{CodeBlockKind, CowStr, Event, Tag};
use tocmark_read_constructs::table::alignments;
use tocmark_read_page::page::{Block, BlockKind, Task};
use tocmark_read_scan::basic::bytes_between;
use tocmark_read_scan::syntax::Names;

/// The tag of a fenced code block, by the names that are known; its info string is in a range.
fn fence_tag(
    alloc: Global,
    names: Names,
    text: &SearchedText<'_>,
    info: (usize, usize),
) -> Result<Tag<'static>, AllocError>
    ensures { IfOk result (λ t. tag_view text_of t
        ≡ CodeBlock (Fenced (info_text_in names (bytes_between text.now info.0 info.1)))) }
{
    let bytes = bytes_between(text.as_str().as_bytes(), info.0, info.1);
    let words = info_text(alloc, names, bytes)?;
    Ok(Tag::CodeBlock(CodeBlockKind::Fenced(CowStr::Owned(words))))
}

/// The tag of a footnote's definition, whose name is between two places.
fn note_tag(
    alloc: Global,
    text: &SearchedText<'_>,
    from: usize,
    to: usize,
) -> Result<Tag<'static>, AllocError>
    ensures { IfOk result (λ t. tag_view text_of t
        ≡ FootnoteDefinition (name_text (bytes_between text.now from to))) }
{
    let name = name_text(alloc, bytes_between(text.as_str().as_bytes(), from, to))?;
    Ok(Tag::FootnoteDefinition(CowStr::Owned(name)))
}

/// The tag of a table, whose row of dashes is between two places.
fn table_tag(
    alloc: Global,
    text: &SearchedText<'_>,
    from: usize,
    to: usize,
) -> Result<Tag<'static>, AllocError>
    ensures { IfOk result (λ t. tag_view text_of t
        ≡ Table (alignments_of (bytes_between text.now from to))) }
{
    let row = bytes_between(text.as_str().as_bytes(), from, to);
    Ok(Tag::Table(alignments(alloc, row)?))
}

/// The container that a block is. A thematic break is none, and is as a paragraph here.
#[tactic(auto, unfolding(crate::specs::Pages::block_tag))]
fn block_tag(
    alloc: Global,
    text: &SearchedText<'_>,
    kind: BlockKind,
) -> Result<Tag<'static>, AllocError>
    ensures { IfOk result (λ t. tag_view text_of t ≡ block_tag text.now kind) }
{
    match kind {
        BlockKind::Quote(kind) => Ok(Tag::BlockQuote(kind)),
        BlockKind::List(first) => Ok(Tag::List(first)),
        BlockKind::Item => Ok(Tag::Item),
        BlockKind::Paragraph => Ok(Tag::Paragraph),
        BlockKind::Heading(level, braces) => heading_tag(alloc, text.as_str(), level, braces),
        BlockKind::Indented => Ok(Tag::CodeBlock(CodeBlockKind::Indented)),
        BlockKind::Fenced(from, to) => fence_tag(alloc, Names::Four, text, (from, to)),
        BlockKind::Html => Ok(Tag::HtmlBlock),
        BlockKind::Rule => Ok(Tag::Paragraph),
        BlockKind::Metadata(kind) => Ok(Tag::MetadataBlock(kind)),
        BlockKind::Footnote(from, to) => note_tag(alloc, text, from, to),
        BlockKind::Table(from, to) => table_tag(alloc, text, from, to),
        BlockKind::TableHead => Ok(Tag::TableHead),
        BlockKind::TableRow => Ok(Tag::TableRow),
        BlockKind::TableCell => Ok(Tag::TableCell),
        BlockKind::DefinitionList => Ok(Tag::DefinitionList),
        BlockKind::DefinitionListTitle => Ok(Tag::DefinitionListTitle),
        BlockKind::DefinitionListDefinition => Ok(Tag::DefinitionListDefinition),
    }
}

/// Writes the node of a block by its tag.
fn write_tagged(
    alloc: Global,
    out: &mut Emission,
    text: &SearchedText<'_>,
    block: Block,
) -> Result<(), AllocError>
    ensures { OnOk result (emission_view out.new
        ≡ step text.now (emission_view out.old) (block_node text.now block)) }
{
    let tag = block_tag(alloc, text, block.kind)?;
    out.open(text, block.depth, tag, block.start, block.end)
}

/// Writes the node of a block. Paragraphs, lists and items are put into the list of events at once.
#[tactic(auto, unfolding(crate::specs::Pages::block_tag))]
pub(crate) fn write_block(
    alloc: Global,
    out: &mut Emission,
    text: &SearchedText<'_>,
    block: Block,
) -> Result<(), AllocError>
    ensures { OnOk result (emission_view out.new
        ≡ step text.now (emission_view out.old) (block_node text.now block)) }
{
    match block.kind {
        BlockKind::Paragraph => { out.open_paragraph(text, block.depth, block.start, block.end) }
        BlockKind::Item => out.open_item(text, block.depth, block.start, block.end),
        BlockKind::List(first) => {
            out.open_list(text, block.depth, first, block.start, block.end)
        }
        _ => write_tagged(alloc, out, text, block),
    }
}

/// Writes the node of a fenced code block, whose info string is in a range.
#[tactic(auto, unfolding(crate::specs::Pages::fence_node_in))]
pub(crate) fn write_fence(
    alloc: Global,
    names: Names,
    out: &mut Emission,
    text: &SearchedText<'_>,
    info: (usize, usize),
    block: Block,
) -> Result<(), AllocError>
    ensures { OnOk result (emission_view out.new ≡ step text.now (emission_view out.old)
        (fence_node_in names text.now info.0 info.1 block)) }
{
    let tag = fence_tag(alloc, names, text, info)?;
    out.open(text, block.depth, tag, block.start, block.end)
}

/// Writes the box of a task.
#[tactic(auto, unfolding(crate::specs::Pages::task_nodes))]
pub(crate) fn write_task(
    out: &mut Emission,
    text: &SearchedText<'_>,
    task: Option<Task>,
    depth: usize,
) -> Result<(), AllocError>
    ensures { OnOk result (emission_view out.new
        ≡ fold (step text.now) (emission_view out.old) (task_nodes task depth)) }
{
    if let Some(task) = task {
        let event = Event::TaskListMarker(task.done);
        let end = task.start.saturating_add(3);
        out.write(text, depth, event, task.start, end)?;
    }
    Ok(())
}
