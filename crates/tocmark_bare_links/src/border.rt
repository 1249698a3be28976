//! What is between texts.

ghost use Rattle.std.specs.Prelude.{◌≡◌};
ghost use Rattle.tocmark_event.specs.Text.{text_of};
ghost use Rattle.tocmark_event.specs.View.{event_view, tag_view};
ghost use Rattle.tocmark_spelling.specs.Kinds.{is_inline_tag};
ghost use Rattle.tocmark_bare_links.specs.Linked.{begins_line, block_unless, border_of, brackets_after, closed_after, is_cell_end, is_closed, is_closed_end};

use tocmark_event::event::{Event, Tag, TagEnd};
use tocmark_spelling::kinds::is_inline_end;

/// What an event is between texts.
#[derive(Clone, Copy)]
pub enum Border {
    /// It is within a line.
    Inline,
    /// A new line of a block begins after it.
    Line,
    /// A block begins or ends.
    Block,
}

/// Whether a container is within a line.
fn is_inline(tag: &Tag<'_>) -> bool
    ensures { result ≡ is_inline_tag (tag_view text_of tag.now) }
{
    match tag {
        Tag::Emphasis
        | Tag::Strong
        | Tag::Strikethrough
        | Tag::Superscript
        | Tag::Subscript
        | Tag::Link { .. }
        | Tag::Image { .. } => true,
        _ => false,
    }
}

/// Whether no text of a container has links of its own.
fn is_closed(tag: &Tag<'_>) -> bool
    ensures { result ≡ is_closed (tag_view text_of tag.now) }
{
    match tag {
        Tag::Link { .. }
        | Tag::Image { .. }
        | Tag::CodeBlock(_)
        | Tag::HtmlBlock
        | Tag::MetadataBlock(_) => true,
        _ => false,
    }
}

/// Whether no text of a container that ends has links of its own.
fn is_closed_end(tag: TagEnd) -> bool
    ensures { result ≡ is_closed_end tag }
{
    match tag {
        TagEnd::Link
        | TagEnd::Image
        | TagEnd::CodeBlock
        | TagEnd::HtmlBlock
        | TagEnd::MetadataBlock(_) => true,
        _ => false,
    }
}

/// A block, or what is within a line.
fn block_unless(is_inline: bool) -> Border
    ensures { result ≡ block_unless is_inline }
{
    if is_inline {
        Border::Inline
    } else {
        Border::Block
    }
}

/// What an event is between texts.
pub(crate) fn border_of(event: &Event<'_>) -> Border
    ensures { result ≡ border_of (event_view text_of event.now) }
{
    match event {
        Event::Start(tag) => block_unless(is_inline(tag)),
        Event::End(tag) => block_unless(is_inline_end(*tag)),
        Event::SoftBreak | Event::HardBreak | Event::TaskListMarker(_) => Border::Line,
        Event::Rule => Border::Block,
        _ => Border::Inline,
    }
}

/// How many containers without links of their own are open after an event.
pub(crate) fn closed_after(count: usize, event: &Event<'_>) -> usize
    ensures { result ≡ closed_after count (event_view text_of event.now) }
{
    match event {
        Event::Start(tag) if is_closed(tag) => count.saturating_add(1),
        Event::End(tag) if is_closed_end(*tag) => count.saturating_sub(1),
        _ => count,
    }
}

/// Whether a cell ends.
pub(crate) fn is_cell_end(event: &Event<'_>) -> bool
    ensures { result ≡ is_cell_end (event_view text_of event.now) }
{
    match event {
        Event::End(TagEnd::TableCell) => true,
        _ => false,
    }
}

impl Border {
    /// Whether a line begins after it.
    pub(crate) fn begins_line(self) -> bool
        ensures { result ≡ begins_line self }
    {
        match self {
            Border::Inline => false,
            Border::Line | Border::Block => true,
        }
    }

    /// How many brackets are still open after it.
    pub(crate) fn brackets_after(self, count: usize) -> usize
        ensures { result ≡ brackets_after self count }
    {
        match self {
            Border::Inline | Border::Line => count,
            Border::Block => 0,
        }
    }
}
