//! From blocks to events.

ghost use Rattle.std.specs.Prelude.{◌≡◌, [], IfOk, OnOk};
ghost use Rattle.tocmark_read_spans.specs.Definitions.{entry_of};
ghost use Rattle.tocmark_read_inlines.specs.Inlines.{inlines_view};
ghost use Rattle.tocmark_reader.specs.Pages.{is_unwrapped_by, loose_lists, assembly_view, leaf_inlines_in, with_block, with_inlines, with_laid, with_lines_of, with_task, bare_in, with_lines, with_rule, wrapped_in, paragraph_taken_in, with_fence_in, block_taken_in, nothing_written, written_by, cell_inlines_in, cell_taken_in};

use crate::code_lines::write_lines;
use crate::containers::{write_block, write_fence, write_task};
use crate::emit::Emission;
use crate::formula::{keeps_blanks, write_laid_inlines};
use crate::inline::write_inlines;
use crate::pieces::{content_lines, pieces_of};
use crate::quiet::{are_quiet_lines, write_quiet_lines};
use crate::searched::SearchedText;
use std::alloc::{AllocError, Global};
use std::mem;
use tocmark_event::event::Event;
use tocmark_read_inlines::inlines::{Inlines, SpareLists, read_cell, read_inlines};
use tocmark_read_page::packed::PackedBlock;
use tocmark_read_page::page::{Block, BlockKind};
use tocmark_read_page::piece::Piece;
use tocmark_read_scan::content::{ContentLine, content_of};
use tocmark_read_scan::syntax::Syntax;
use tocmark_read_scan::table_cell::cell_content;
use tocmark_read_spans::definitions::Definitions;

/// For each block whether it is a loose list.
pub(crate) fn loose_lists(alloc: Global, blocks: &[PackedBlock]) -> Result<Vec<bool>, AllocError>
    ensures { IfOk result (λ loose. loose.items ≡ loose_lists blocks.now) }
{
    let mut loose = Vec::with_capacity(alloc, blocks.len())?;
    for block in blocks {
        loose.push(block.is_loose())?;
    }
    Ok(loose)
}

/// Whether a paragraph is directly in an item of a tight list; `loose` says which blocks are loose lists.
#[tactic(auto, unfolding(crate::specs::Pages::is_unwrapped_by))]
pub(crate) fn is_unwrapped(loose: &[bool], block: Block) -> bool
    ensures { result ≡ is_unwrapped_by loose.now block }
{
    match block.list {
        None => false,
        Some(place) => match loose.get(place).copied() {
            None => false,
            Some(list_is_loose) => !list_is_loose,
        },
    }
}

/// What inlines have beside the source where none is read yet; `texts` are those of the definitions.
fn no_inlines(alloc: Global, texts: Vec<u8>) -> Inlines
    ensures { inlines_view result
        ≡ record { nodes = []; targets = []; texts = texts.items; missed = [] } }
{
    Inlines {
        nodes: Vec::new(alloc),
        targets: Vec::new(alloc),
        texts,
        missed: Vec::new(alloc),
        spare: SpareLists::new(alloc),
    }
}

/// What the inlines of a document are read by.
#[derive(Clone, Copy)]
pub struct Document<'t, 'd> {
    /// The extensions that are read.
    pub syntax: Syntax,
    /// The text of the document.
    pub text: &'d SearchedText<'t>,
    /// What its labels are defined as.
    pub definitions: &'d Definitions,
}

/// The events of the blocks so far.
#[derive(Drop)]
pub struct Assembly {
    /// The events, and the containers that are open.
    pub emission: Emission,
    /// What the inlines so far have beside the source. Its list of nodes is empty between two leaves.
    pub inlines: Inlines,
    /// A list of which nothing but its room counts: the lines of each leaf are written into it.
    pub lines: Vec<ContentLine>,
}

impl Assembly {
    /// Nothing is written; `texts` are those of the definitions.
    pub(crate) fn new(alloc: Global, texts: Vec<u8>) -> Self
        ensures view { assembly_view result ≡ nothing_written texts.items }
        ensures empty { (result.emission.events.items ≡ [])
            × (result.emission.stack.items ≡ []) }
    {
        Assembly {
            emission: Emission {
                events: Vec::new(alloc),
                stack: Vec::new(alloc),
            },
            inlines: no_inlines(alloc, texts),
            lines: Vec::new(alloc),
        }
    }

    /// Writes inlines that were found, and keeps what they have beside the source.
    fn write_found(
        &mut self,
        alloc: Global,
        text: &SearchedText<'_>,
        found: Inlines,
    ) -> Result<(), AllocError>
        ensures { OnOk result (assembly_view self.new ≡ written_by text.now
            (with_inlines (inlines_view found)) (assembly_view self.old)) }
    {
        write_inlines(alloc, &mut self.emission, text, &found)?;
        self.inlines = found;
        self.inlines.nodes.clear();
        Ok(())
    }

    /// Writes inlines that were found in these lines, and keeps what they have beside the source.
    fn write_laid(
        &mut self,
        alloc: Global,
        text: &SearchedText<'_>,
        lines: &[Piece],
        found: Inlines,
    ) -> Result<(), AllocError>
        ensures { OnOk result (assembly_view self.new ≡ written_by text.now
            (with_laid text.now lines.now (inlines_view found)) (assembly_view self.old)) }
    {
        write_laid_inlines(alloc, &mut self.emission, text, lines, &found)?;
        self.inlines = found;
        self.inlines.nodes.clear();
        Ok(())
    }

    /// Writes inlines that were found in these lines: only formulas in indented lines ask for these.
    #[tactic(auto, unfolding(crate::specs::Pages::with_lines_of))]
    fn write_from_lines(
        &mut self,
        alloc: Global,
        document: &Document<'_, '_>,
        lines: &[Piece],
        found: Inlines,
    ) -> Result<(), AllocError>
        ensures { OnOk result (assembly_view self.new ≡ written_by document.now.text.now
            (with_lines_of document.now.syntax document.now.text.now lines.now
            (inlines_view found)) (assembly_view self.old)) }
    {
        if keeps_blanks(document.syntax, lines) {
            self.write_laid(alloc, document.text, lines, found)
        } else {
            self.write_found(alloc, document.text, found)
        }
    }

    /// Reads the inlines of a leaf from its text, whatever is in it.
    #[tactic(auto, unfolding(crate::specs::Pages::leaf_inlines_in, crate::specs::Pages::with_lines_of))]
    fn read_marked_leaf(
        &mut self,
        alloc: Global,
        document: &Document<'_, '_>,
        pieces: &[Piece],
        depth: usize,
    ) -> Result<(), AllocError>
        ensures { OnOk result (assembly_view self.new ≡ written_by document.now.text.now
            (leaf_inlines_in document.now.syntax document.now.text.now
            (entry_of document.now.definitions.now) pieces.now depth)
            (assembly_view self.old)) }
    {
        content_lines(&mut self.lines, pieces)?;
        let content = content_of(alloc, document.text.as_str().as_bytes(), &self.lines)?;
        let before = mem::replace(&mut self.inlines, no_inlines(alloc, Vec::new(alloc)));
        let found = read_inlines(
            alloc,
            document.syntax,
            before,
            &content,
            depth,
            document.definitions,
        )?;
        self.write_from_lines(alloc, document, pieces, found)
    }

    /// Reads the inlines of a leaf. Where its lines have no mark in any reading, each of them is a text.
    fn read_leaf(
        &mut self,
        alloc: Global,
        document: &Document<'_, '_>,
        pieces: &[Piece],
        depth: usize,
    ) -> Result<(), AllocError>
        ensures { OnOk result (assembly_view self.new ≡ written_by document.now.text.now
            (leaf_inlines_in document.now.syntax document.now.text.now
            (entry_of document.now.definitions.now) pieces.now depth)
            (assembly_view self.old)) }
    {
        let text = document.text;
        if !keeps_blanks(document.syntax, pieces)
            && self.inlines.nodes.is_empty()
            && are_quiet_lines(text.as_str().as_bytes(), pieces)
        {
            write_quiet_lines(alloc, &mut self.emission, text, depth, pieces)
        } else {
            self.read_marked_leaf(alloc, document, pieces, depth)
        }
    }

    /// Reads the inlines of a cell.
    #[tactic(auto, unfolding(crate::specs::Pages::cell_inlines_in))]
    fn read_cell(
        &mut self,
        alloc: Global,
        document: &Document<'_, '_>,
        block: Block,
    ) -> Result<(), AllocError>
        ensures { OnOk result (assembly_view self.new ≡ written_by document.now.text.now
            (cell_inlines_in document.now.syntax document.now.text.now
            (entry_of document.now.definitions.now) block)
            (assembly_view self.old)) }
    {
        let content = cell_content(
            alloc,
            document.text.as_str().as_bytes(),
            block.start,
            block.end,
        )?;
        let before = mem::replace(&mut self.inlines, no_inlines(alloc, Vec::new(alloc)));
        let depth = block.depth.saturating_add(1);
        let found = read_cell(
            alloc,
            document.syntax,
            before,
            &content,
            depth,
            document.definitions,
        )?;
        self.write_found(alloc, document.text, found)
    }

    #[tactic(auto, unfolding(crate::specs::Pages::with_block))]
    fn open(
        &mut self,
        alloc: Global,
        text: &SearchedText<'_>,
        block: Block,
    ) -> Result<(), AllocError>
        ensures { OnOk result (assembly_view self.new
            ≡ written_by text.now (with_block text.now block) (assembly_view self.old)) }
    {
        write_block(alloc, &mut self.emission, text, block)?;
        let depth = block.depth.saturating_add(1);
        write_task(&mut self.emission, text, block.task, depth)
    }

    #[tactic(auto, unfolding(crate::specs::Pages::with_task))]
    fn take_task(&mut self, text: &SearchedText<'_>, block: Block) -> Result<(), AllocError>
        ensures { OnOk result (assembly_view self.new
            ≡ written_by text.now (with_task block) (assembly_view self.old)) }
    {
        write_task(&mut self.emission, text, block.task, block.depth)
    }

    #[tactic(auto, unfolding(crate::specs::Pages::with_lines))]
    fn take_lines(
        &mut self,
        alloc: Global,
        text: &SearchedText<'_>,
        html: bool,
        block: Block,
        lines: &[Piece],
    ) -> Result<(), AllocError>
        ensures { OnOk result (assembly_view self.new
            ≡ written_by text.now (with_lines text.now html block lines.now)
            (assembly_view self.old)) }
    {
        write_block(alloc, &mut self.emission, text, block)?;
        write_lines(
            alloc,
            &mut self.emission,
            text,
            html,
            block.depth.saturating_add(1),
            lines,
        )
    }

    /// A fenced code block with its lines; its info string is in a range.
    #[tactic(auto, unfolding(crate::specs::Pages::with_fence_in))]
    fn take_fence(
        &mut self,
        alloc: Global,
        document: &Document<'_, '_>,
        info: (usize, usize),
        block: Block,
        lines: &[Piece],
    ) -> Result<(), AllocError>
        ensures { OnOk result (assembly_view self.new
            ≡ written_by document.now.text.now
            (with_fence_in document.now.syntax.names document.now.text.now info.0 info.1 block
            lines.now)
            (assembly_view self.old)) }
    {
        write_fence(
            alloc,
            document.syntax.names,
            &mut self.emission,
            document.text,
            info,
            block,
        )?;
        write_lines(
            alloc,
            &mut self.emission,
            document.text,
            false,
            block.depth.saturating_add(1),
            lines,
        )
    }

    #[tactic(auto, unfolding(crate::specs::Pages::with_rule))]
    fn take_rule(&mut self, text: &SearchedText<'_>, block: Block) -> Result<(), AllocError>
        ensures { OnOk result (assembly_view self.new
            ≡ written_by text.now (with_rule block) (assembly_view self.old)) }
    {
        self.emission
            .write(text, block.depth, Event::Rule, block.start, block.end)
    }

    /// A paragraph, a heading or a title with its inlines.
    fn read_wrapped(
        &mut self,
        alloc: Global,
        document: &Document<'_, '_>,
        pieces: &[Piece],
        block: Block,
    ) -> Result<(), AllocError>
        ensures { OnOk result (assembly_view self.new ≡ written_by document.now.text.now
            (wrapped_in document.now.syntax document.now.text.now
            (entry_of document.now.definitions.now) pieces.now block)
            (assembly_view self.old)) }
    {
        self.open(alloc, document.text, block)?;
        self.read_leaf(alloc, document, pieces, block.depth.saturating_add(1))
    }

    /// The box and the inlines of a paragraph without its container.
    fn read_bare(
        &mut self,
        alloc: Global,
        document: &Document<'_, '_>,
        pieces: &[Piece],
        block: Block,
    ) -> Result<(), AllocError>
        ensures { OnOk result (assembly_view self.new ≡ written_by document.now.text.now
            (bare_in document.now.syntax document.now.text.now
            (entry_of document.now.definitions.now) pieces.now block)
            (assembly_view self.old)) }
    {
        self.take_task(document.text, block)?;
        self.read_leaf(alloc, document, pieces, block.depth)
    }

    /// A cell of a table with its inlines.
    fn take_cell(
        &mut self,
        alloc: Global,
        document: &Document<'_, '_>,
        block: Block,
    ) -> Result<(), AllocError>
        ensures { OnOk result (assembly_view self.new ≡ written_by document.now.text.now
            (cell_taken_in document.now.syntax document.now.text.now
            (entry_of document.now.definitions.now) block)
            (assembly_view self.old)) }
    {
        self.open(alloc, document.text, block)?;
        self.read_cell(alloc, document, block)
    }

    #[tactic(auto, unfolding(crate::specs::Pages::paragraph_taken_in))]
    fn read_paragraph(
        &mut self,
        alloc: Global,
        document: &Document<'_, '_>,
        pieces: &[Piece],
        unwrapped: bool,
        block: Block,
    ) -> Result<(), AllocError>
        ensures { OnOk result (assembly_view self.new ≡ written_by document.now.text.now
            (paragraph_taken_in document.now.syntax document.now.text.now
            (entry_of document.now.definitions.now) pieces.now unwrapped block)
            (assembly_view self.old)) }
    {
        if block.last <= block.first {
            Ok(())
        } else if unwrapped {
            self.read_bare(alloc, document, pieces, block)
        } else {
            self.read_wrapped(alloc, document, pieces, block)
        }
    }

    /// One more block, whose nodes are written; `all` are the pieces of all blocks.
    #[tactic(auto, unfolding(crate::specs::Pages::block_taken_in))]
    pub(crate) fn read_block(
        &mut self,
        alloc: Global,
        document: &Document<'_, '_>,
        all: &[Piece],
        unwrapped: bool,
        block: Block,
    ) -> Result<(), AllocError>
        ensures { OnOk result (assembly_view self.new ≡ written_by document.now.text.now
            (block_taken_in document.now.syntax document.now.text.now
            (entry_of document.now.definitions.now) all.now unwrapped block)
            (assembly_view self.old)) }
    {
        let pieces = pieces_of(all, block.first, block.last);
        match block.kind {
            BlockKind::Paragraph => {
                self.read_paragraph(alloc, document, pieces, unwrapped, block)
            }
            BlockKind::Heading(_, _) => self.read_wrapped(alloc, document, pieces, block),
            BlockKind::Quote(_) => self.open(alloc, document.text, block),
            BlockKind::List(_) => self.open(alloc, document.text, block),
            BlockKind::Item => self.open(alloc, document.text, block),
            BlockKind::Indented => self.take_lines(alloc, document.text, false, block, pieces),
            BlockKind::Fenced(from, to) => {
                self.take_fence(alloc, document, (from, to), block, pieces)
            }
            BlockKind::Html => self.take_lines(alloc, document.text, true, block, pieces),
            BlockKind::Rule => self.take_rule(document.text, block),
            BlockKind::Metadata(_) => self.take_lines(alloc, document.text, false, block, pieces),
            BlockKind::Footnote(_, _) => self.open(alloc, document.text, block),
            BlockKind::Table(_, _) => self.open(alloc, document.text, block),
            BlockKind::TableHead => self.open(alloc, document.text, block),
            BlockKind::TableRow => self.open(alloc, document.text, block),
            BlockKind::TableCell => self.take_cell(alloc, document, block),
            BlockKind::DefinitionList => self.open(alloc, document.text, block),
            BlockKind::DefinitionListTitle => { self.read_wrapped(alloc, document, pieces, block) }
            BlockKind::DefinitionListDefinition => self.open(alloc, document.text, block),
        }
    }
}
