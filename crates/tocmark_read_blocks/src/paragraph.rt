//! Paragraphs and thematic breaks: how they begin, and what they take of a line.

ghost use Rattle.std.specs.Prelude.{◌≡◌, OnOk};
ghost use Rattle.tocmark_read_blocks.specs.Paragraphs.{text_started, text_taken, rule_started};
ghost use Rattle.tocmark_read_page.specs.Pages.{page};

use std::alloc::{AllocError, Global};
use tocmark_read_lines::cell::cell_place;
use tocmark_read_page::leaf::{Leaf, is_paragraph};
use tocmark_read_page::line_start::{LineStart, ScannedLine};
use tocmark_read_page::packed::set_start_at;
use tocmark_read_page::page::{BlockKind, BlocksSoFar};
use tocmark_read_page::piece::text_piece;

/// Where the open paragraph has no line, it begins with this one.
#[tactic(auto, unfolding(crate::specs::Paragraphs::text_started))]
fn start_text(so_far: &mut BlocksSoFar, start: usize) -> Result<(), AllocError>
    ensures { OnOk result (page so_far.new ≡ text_started start (page so_far.old)) }
{
    let index = so_far.blocks.len().saturating_sub(1);
    if let Some(block) = so_far.blocks.get(index) {
        if so_far.pieces.len() <= block.first() {
            set_start_at(&mut so_far.blocks, index, start)?;
        }
    }
    Ok(())
}

/// Puts a line into the open paragraph, or begins one.
#[tactic(auto, unfolding(crate::specs::Paragraphs::text_taken))]
pub fn take_text(
    so_far: &mut BlocksSoFar,
    alloc: Global,
    scan: &ScannedLine<'_, '_>,
    place: LineStart,
) -> Result<(), AllocError>
    ensures { OnOk result (page so_far.new
        ≡ text_taken scan.now.text.now scan.now.cells.now scan.now.line place (page so_far.old)) }
{
    let words = text_piece(scan.cells, place.cursor, scan.line);
    if !is_paragraph(so_far.leaf) {
        so_far.close_to(alloc, scan.text, place.depth)?;
        so_far.open_leaf(
            Leaf::Paragraph,
            BlockKind::Paragraph,
            words.start,
            scan.line,
        )?;
    }
    start_text(so_far, words.start)?;
    so_far.take_piece(words, scan.line, true)
}

#[tactic(auto, unfolding(crate::specs::Paragraphs::rule_started))]
pub fn start_rule(
    so_far: &mut BlocksSoFar,
    alloc: Global,
    scan: &ScannedLine<'_, '_>,
    place: LineStart,
) -> Result<(), AllocError>
    ensures { OnOk result (page so_far.new
        ≡ rule_started scan.now.text.now scan.now.cells.now scan.now.line place (page so_far.old)) }
{
    so_far.close_to(alloc, scan.text, place.depth)?;
    let start = cell_place(scan.cells, place.cursor.ink, scan.line.end);
    so_far.open_leaf(Leaf::Nothing, BlockKind::Rule, start, scan.line)?;
    so_far.finish_leaf()
}
