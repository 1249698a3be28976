//! Formulas, whose lines keep the blanks at their beginning.

ghost use Rattle.std.specs.Prelude.{◌≡◌, drop, IfOk, OnOk};
ghost use Rattle.std.specs.List.{fold, list_any};
ghost use Rattle.tocmark_event.specs.Text.{text_of};
ghost use Rattle.tocmark_event.specs.View.{Leaf as EventLeaf, event_view};
ghost use Rattle.tocmark_reader.specs.Emitted.{emission_view, step};
ghost use Rattle.tocmark_reader.specs.Formulas.{is_indented, keeps_blanks, lines_behind, blanks_of, laid_byte, laid_bytes, formula_text, laid_leaf, laid_node, laid_nodes};

use crate::emit::Emission;
use crate::inline::{leaf_event, write_span};
use crate::searched::SearchedText;
use std::alloc::{AllocError, Global};
use tocmark_event::event::{CowStr, Event};
use tocmark_read_inlines::inlines::Inlines;
use tocmark_read_inlines::write::{InlineKind, Node};
use tocmark_read_page::piece::Piece;
use tocmark_read_scan::basic::bytes_between;
use tocmark_read_scan::syntax::Syntax;
use tocmark_read_spans::role::{Leaf, Stretch};

/// All lines but the first.
fn others(lines: &[Piece]) -> &[Piece]
    ensures { result.now ≡ drop 1 lines.now }
{
    if lines.is_empty() { &[] } else { &lines[1..] }
}

/// Whether blanks are in front of a line, after the prefixes of its containers.
#[tactic(auto, unfolding(crate::specs::Formulas::is_indented))]
fn is_indented(line: Piece) -> bool
    ensures { result ≡ is_indented line }
{
    line.from < line.start
}

/// Whether one of these lines is indented.
fn has_indented(lines: &[Piece]) -> bool
    ensures { result ≡ list_any is_indented lines.now }
{
    for line in lines {
        if is_indented(*line) {
            return true;
        }
    }
    false
}

/// Whether mathematics is read, and a line after the first is indented: then formulas in these lines may
/// have blanks that other inlines leave out.
#[tactic(auto, unfolding(crate::specs::Formulas::keeps_blanks))]
pub(crate) fn keeps_blanks(syntax: Syntax, lines: &[Piece]) -> bool
    ensures { result ≡ keeps_blanks syntax lines.now }
{
    syntax.math && has_indented(others(lines))
}

/// The lines that begin after a place.
fn lines_behind(lines: &[Piece], place: usize) -> &[Piece]
    ensures { result.now ≡ lines_behind place lines.now }
{
    let mut left = lines;
    while let Some((line, behind)) = left.split_first() {
        if place < line.start {
            return left;
        }
        left = behind;
    }
    left
}

/// The blanks in front of the first of these lines.
fn blanks_of<'t>(source: &'t [u8], lines: &[Piece]) -> &'t [u8]
    ensures { result.now ≡ blanks_of source.now lines.now }
{
    match lines.split_first() {
        Some((line, _others)) => bytes_between(source, line.from, line.start),
        None => &[],
    }
}

/// Writes a byte of a formula, and after a line feed the blanks of the next line; gives the lines that
/// are still to come.
#[tactic(auto, unfolding(crate::specs::Formulas::laid_byte))]
fn push_laid<'l>(
    out: &mut Vec<u8>,
    source: &[u8],
    lines: &'l [Piece],
    byte: u8,
) -> Result<&'l [Piece], AllocError>
    ensures { IfOk result (λ left.
        (left.now, out.new.items) ≡ laid_byte source.now (lines.now, out.old.items) byte) }
{
    out.push(byte)?;
    if byte != b'\n' {
        return Ok(lines);
    }
    out.extend_from_slice(blanks_of(source, lines))?;
    Ok(others(lines))
}

/// The bytes of a formula in which these lines begin, with the blanks of these.
fn laid_bytes(
    alloc: Global,
    source: &[u8],
    lines: &[Piece],
    bytes: &[u8],
) -> Result<Vec<u8>, AllocError>
    ensures { IfOk result (λ v. v.items ≡ laid_bytes source.now lines.now bytes.now) }
{
    let mut out = Vec::with_capacity(alloc, bytes.len())?;
    let mut left = lines;
    for byte in bytes {
        left = push_laid(&mut out, source, left, *byte)?;
    }
    Ok(out)
}

/// A stretch of texts as a formula.
#[tactic(auto, unfolding(crate::specs::Formulas::formula_text))]
fn formula_text(
    alloc: Global,
    source: &[u8],
    lines: &[Piece],
    texts: &[u8],
    stretch: Stretch,
) -> Result<CowStr<'static>, AllocError>
    ensures { IfOk result (λ t.
        text_of t ≡ formula_text source.now lines.now texts.now stretch) }
{
    let bytes = bytes_between(texts, stretch.start, stretch.end);
    let laid = laid_bytes(alloc, source, lines, bytes)?;
    Ok(CowStr::Owned(String::from_utf8_lossy(alloc, &laid)?))
}

#[tactic(auto, unfolding(crate::specs::Formulas::laid_leaf))]
fn laid_event(
    alloc: Global,
    source: &[u8],
    lines: &[Piece],
    texts: &[u8],
    leaf: Leaf,
) -> Result<Event<'static>, AllocError>
    ensures { IfOk result (λ e.
        event_view text_of e ≡ EventLeaf (laid_leaf source.now lines.now texts.now leaf)) }
{
    match leaf {
        Leaf::Character(_) => leaf_event(alloc, texts, leaf),
        Leaf::Code(_) => leaf_event(alloc, texts, leaf),
        Leaf::Html(_) => leaf_event(alloc, texts, leaf),
        Leaf::SoftBreak => leaf_event(alloc, texts, leaf),
        Leaf::HardBreak => leaf_event(alloc, texts, leaf),
        Leaf::Text(_) => leaf_event(alloc, texts, leaf),
        Leaf::Footnote(_) => leaf_event(alloc, texts, leaf),
        Leaf::InlineMath(stretch) => Ok(Event::InlineMath(formula_text(
            alloc, source, lines, texts, stretch,
        )?)),
        Leaf::DisplayMath(stretch) => Ok(Event::DisplayMath(formula_text(
            alloc, source, lines, texts, stretch,
        )?)),
    }
}

/// Writes an inline, after whose first byte these lines begin.
#[tactic(auto, unfolding(crate::specs::Formulas::laid_node, crate::specs::Formulas::laid_item))]
fn write_laid_inline(
    alloc: Global,
    out: &mut Emission,
    text: &SearchedText<'_>,
    lines: &[Piece],
    found: &Inlines,
    node: Node,
) -> Result<(), AllocError>
    ensures { OnOk result (emission_view out.new ≡ step text.now (emission_view out.old)
        (laid_node text.now lines.now found.now.texts.items found.now.targets.items node)) }
{
    match node.item {
        InlineKind::Text => out.write_source(alloc, text, node.depth, node.start, node.end),
        InlineKind::Span(span) => write_span(alloc, out, text, found, node, span),
        InlineKind::Leaf(leaf) => {
            let source = text.as_str().as_bytes();
            let event = laid_event(alloc, source, lines, &found.texts, leaf)?;
            out.write(text, node.depth, event, node.start, node.end)
        }
    }
}

/// Writes the inlines of these lines after what is written: formulas keep the blanks of their lines.
pub(crate) fn write_laid_inlines(
    alloc: Global,
    out: &mut Emission,
    text: &SearchedText<'_>,
    lines: &[Piece],
    found: &Inlines,
) -> Result<(), AllocError>
    ensures { OnOk result (emission_view out.new
        ≡ fold (step text.now) (emission_view out.old)
        (laid_nodes text.now lines.now found.now.texts.items found.now.targets.items
        found.now.nodes.items)) }
{
    let mut left = lines;
    for node in &found.nodes {
        left = lines_behind(left, node.start);
        write_laid_inline(alloc, out, text, left, found, *node)?;
    }
    Ok(())
}
