//! From inlines to events.

ghost use Rattle.std.specs.Prelude.{◌≡◌, map, IfOk, OnOk};
ghost use Rattle.std.specs.List.{fold};
ghost use Rattle.tocmark_event.specs.Text.{text_of};
ghost use Rattle.tocmark_event.specs.View.{Leaf as EventLeaf, event_view, tag_view};
ghost use Rattle.tocmark_reader.specs.Emitted.{emission_view, step};
ghost use Rattle.tocmark_reader.specs.Inlines.{target_at, link_of, image_of, span_tag, leaf_of, span_node, leaf_node, inline_node};
ghost use Rattle.std.specs.Prelude.{encode_utf8};

use crate::emit::Emission;
use crate::searched::SearchedText;
use crate::words::stretch_text;
use std::alloc::{AllocError, Global};
use tocmark_event::event::{CowStr, Event, LinkType, Tag};
use tocmark_read_inlines::inlines::Inlines;
use tocmark_read_inlines::write::{InlineKind, Node};
use tocmark_read_spans::role::{Leaf, Span, Stretch, Target};

/// The target of a link or an image, by its number; an empty one where there is none.
#[tactic(auto, unfolding(crate::specs::Inlines::target_at))]
fn target_at(targets: &[Target], place: usize) -> Target
    ensures { result ≡ target_at targets.now place }
{
    let none = Stretch { start: 0, end: 0 };
    targets.get(place).copied().unwrap_or(Target {
        link_type: LinkType::Inline,
        destination: none,
        title: none,
        id: none,
    })
}

#[tactic(auto, unfolding(crate::specs::Inlines::link_of))]
fn link_of(alloc: Global, texts: &[u8], target: Target) -> Result<Tag<'static>, AllocError>
    ensures { IfOk result (λ t. tag_view text_of t ≡ link_of texts.now target) }
{
    Ok(Tag::Link {
        link_type: target.link_type,
        dest_url: stretch_text(alloc, texts, target.destination)?,
        title: stretch_text(alloc, texts, target.title)?,
        id: stretch_text(alloc, texts, target.id)?,
    })
}

#[tactic(auto, unfolding(crate::specs::Inlines::image_of))]
fn image_of(alloc: Global, texts: &[u8], target: Target) -> Result<Tag<'static>, AllocError>
    ensures { IfOk result (λ t. tag_view text_of t ≡ image_of texts.now target) }
{
    Ok(Tag::Image {
        link_type: target.link_type,
        dest_url: stretch_text(alloc, texts, target.destination)?,
        title: stretch_text(alloc, texts, target.title)?,
        id: stretch_text(alloc, texts, target.id)?,
    })
}

#[tactic(auto, unfolding(crate::specs::Inlines::span_tag))]
fn span_tag(
    alloc: Global,
    texts: &[u8],
    targets: &[Target],
    span: Span,
) -> Result<Tag<'static>, AllocError>
    ensures { IfOk result (λ t. tag_view text_of t ≡ span_tag texts.now targets.now span) }
{
    match span {
        Span::Emphasis => Ok(Tag::Emphasis),
        Span::Strong => Ok(Tag::Strong),
        Span::Strikethrough => Ok(Tag::Strikethrough),
        Span::Link(place) => link_of(alloc, texts, target_at(targets, place)),
        Span::Image(place) => image_of(alloc, texts, target_at(targets, place)),
        Span::Subscript => Ok(Tag::Subscript),
        Span::Superscript => Ok(Tag::Superscript),
    }
}

fn character_text(alloc: Global, character: char) -> Result<CowStr<'static>, AllocError>
    ensures { IfOk result (λ t. text_of t ≡ encode_utf8 character) }
{
    let mut text = String::new(alloc);
    text.push(character)?;
    Ok(CowStr::Owned(text))
}

#[tactic(auto, unfolding(crate::specs::Inlines::leaf_of))]
#[inline(always)]
pub(crate) fn leaf_event(
    alloc: Global,
    texts: &[u8],
    leaf: Leaf,
) -> Result<Event<'static>, AllocError>
    ensures { IfOk result (λ e. event_view text_of e ≡ EventLeaf (leaf_of texts.now leaf)) }
{
    match leaf {
        Leaf::Character(character) => Ok(Event::Text(character_text(alloc, character)?)),
        Leaf::Code(stretch) => Ok(Event::Code(stretch_text(alloc, texts, stretch)?)),
        Leaf::Html(stretch) => Ok(Event::InlineHtml(stretch_text(alloc, texts, stretch)?)),
        Leaf::SoftBreak => Ok(Event::SoftBreak),
        Leaf::HardBreak => Ok(Event::HardBreak),
        Leaf::Text(stretch) => Ok(Event::Text(stretch_text(alloc, texts, stretch)?)),
        Leaf::Footnote(name) => Ok(Event::FootnoteReference(stretch_text(alloc, texts, name)?)),
        Leaf::InlineMath(stretch) => Ok(Event::InlineMath(stretch_text(alloc, texts, stretch)?)),
        Leaf::DisplayMath(stretch) => Ok(Event::DisplayMath(stretch_text(alloc, texts, stretch)?)),
    }
}

/// Writes a container of inlines.
pub(crate) fn write_span(
    alloc: Global,
    out: &mut Emission,
    text: &SearchedText<'_>,
    found: &Inlines,
    node: Node,
    span: Span,
) -> Result<(), AllocError>
    ensures { OnOk result (emission_view out.new ≡ step text.now (emission_view out.old)
        (span_node found.now.texts.items found.now.targets.items node span)) }
{
    let tag = span_tag(alloc, &found.texts, &found.targets, span)?;
    out.open(text, node.depth, tag, node.start, node.end)
}

/// Writes an inline without children, other than a text of the source.
fn write_leaf(
    alloc: Global,
    out: &mut Emission,
    text: &SearchedText<'_>,
    texts: &[u8],
    node: Node,
    leaf: Leaf,
) -> Result<(), AllocError>
    ensures { OnOk result (emission_view out.new
        ≡ step text.now (emission_view out.old) (leaf_node texts.now node leaf)) }
{
    let event = leaf_event(alloc, texts, leaf)?;
    out.write(text, node.depth, event, node.start, node.end)
}

/// Writes an inline.
#[tactic(auto, unfolding(crate::specs::Inlines::inline_node, crate::specs::Inlines::inline_item))]
fn write_inline(
    alloc: Global,
    out: &mut Emission,
    text: &SearchedText<'_>,
    found: &Inlines,
    node: Node,
) -> Result<(), AllocError>
    ensures { OnOk result (emission_view out.new ≡ step text.now (emission_view out.old)
        (inline_node found.now.texts.items found.now.targets.items node)) }
{
    match node.item {
        InlineKind::Text => out.write_source(alloc, text, node.depth, node.start, node.end),
        InlineKind::Span(span) => write_span(alloc, out, text, found, node, span),
        InlineKind::Leaf(leaf) => write_leaf(alloc, out, text, &found.texts, node, leaf),
    }
}

/// Writes inlines after what is written.
pub fn write_inlines(
    alloc: Global,
    out: &mut Emission,
    text: &SearchedText<'_>,
    found: &Inlines,
) -> Result<(), AllocError>
    ensures { OnOk result (emission_view out.new
        ≡ fold (step text.now) (emission_view out.old)
        (map (inline_node found.now.texts.items found.now.targets.items) found.now.nodes.items)) }
{
    for node in &found.nodes {
        write_inline(alloc, out, text, found, *node)?;
    }
    Ok(())
}
