//! Kinds of events and tags.

ghost use Rattle.std.specs.Prelude.{◌≡◌, string_bytes};
ghost use Rattle.tocmark_event.specs.View.{event_view, tag_view};
ghost use Rattle.tocmark_spelling.specs.Kinds.{is_inline_tag, is_inline_end, is_paragraph, is_heading, is_quote, is_indented_code, is_list, is_item, is_definition_list, is_definition_title, is_table, starts, is_rule, is_break, is_text, begins_block};
ghost use Rattle.tocmark_spelling.specs.Places.{is_raw_tag, is_raw_link};
ghost use Rattle.tocmark_spelling.specs.Gap.{could_continue};

use tocmark_event::event::{CodeBlockKindOf, EventOf, LinkType, OwnedEvent, TagEnd, TagOf};

/// Whether a container is inline; all others are blocks.
pub fn is_inline_tag(tag: &TagOf<String>) -> bool
    ensures { result ≡ is_inline_tag (tag_view string_bytes tag.now) }
{
    match tag {
        TagOf::Emphasis => true,
        TagOf::Strong => true,
        TagOf::Strikethrough => true,
        TagOf::Superscript => true,
        TagOf::Subscript => true,
        TagOf::Link { .. } => true,
        TagOf::Image { .. } => true,
        _ => false,
    }
}

/// Whether it is the End of an inline container; all others are blocks.
pub fn is_inline_end(end: TagEnd) -> bool
    ensures { result ≡ is_inline_end end }
{
    match end {
        TagEnd::Emphasis => true,
        TagEnd::Strong => true,
        TagEnd::Strikethrough => true,
        TagEnd::Superscript => true,
        TagEnd::Subscript => true,
        TagEnd::Link => true,
        TagEnd::Image => true,
        _ => false,
    }
}

/// Whether a container is a heading.
pub fn is_heading(tag: &TagOf<String>) -> bool
    ensures { result ≡ is_heading (tag_view string_bytes tag.now) }
{
    matches!(tag, TagOf::Heading { .. })
}

/// Whether a container is a list.
pub fn is_list(tag: &TagOf<String>) -> bool
    ensures { result ≡ is_list (tag_view string_bytes tag.now) }
{
    matches!(tag, TagOf::List(_))
}

/// Whether a container is an item.
pub fn is_item(tag: &TagOf<String>) -> bool
    ensures { result ≡ is_item (tag_view string_bytes tag.now) }
{
    matches!(tag, TagOf::Item)
}

/// Whether a container is a table.
pub fn is_table(tag: &TagOf<String>) -> bool
    ensures { result ≡ is_table (tag_view string_bytes tag.now) }
{
    matches!(tag, TagOf::Table(_))
}

fn is_raw_link(kind: LinkType) -> bool
    ensures { result ≡ is_raw_link kind }
{
    match kind {
        LinkType::Autolink => true,
        LinkType::Email => true,
        _ => false,
    }
}

/// Whether texts in the container are written as they are.
pub fn is_raw_tag(tag: &TagOf<String>) -> bool
    ensures { result ≡ is_raw_tag (tag_view string_bytes tag.now) }
{
    match tag {
        TagOf::CodeBlock(_) => true,
        TagOf::HtmlBlock => true,
        TagOf::MetadataBlock(_) => true,
        TagOf::Link { link_type, .. } => is_raw_link(*link_type),
        _ => false,
    }
}

/// Whether an event starts a list.
pub fn starts_list(event: &OwnedEvent) -> bool
    ensures { result ≡ starts is_list (event_view string_bytes event.now) }
{
    matches!(event, EventOf::Start(TagOf::List(_)))
}

/// Whether an event starts an item.
pub fn starts_item(event: &OwnedEvent) -> bool
    ensures { result ≡ starts is_item (event_view string_bytes event.now) }
{
    matches!(event, EventOf::Start(TagOf::Item))
}

/// Whether an event starts a title of a definition list.
pub fn starts_title(event: &OwnedEvent) -> bool
    ensures { result ≡ starts is_definition_title (event_view string_bytes event.now) }
{
    matches!(event, EventOf::Start(TagOf::DefinitionListTitle))
}

/// Whether an event starts a paragraph.
pub fn starts_paragraph(event: &OwnedEvent) -> bool
    ensures { result ≡ starts is_paragraph (event_view string_bytes event.now) }
{
    matches!(event, EventOf::Start(TagOf::Paragraph))
}

/// Whether an event starts a definition list.
pub fn starts_definition_list(event: &OwnedEvent) -> bool
    ensures { result ≡ starts is_definition_list (event_view string_bytes event.now) }
{
    matches!(event, EventOf::Start(TagOf::DefinitionList))
}

/// Whether an event starts a table.
pub fn starts_table(event: &OwnedEvent) -> bool
    ensures { result ≡ starts is_table (event_view string_bytes event.now) }
{
    matches!(event, EventOf::Start(TagOf::Table(_)))
}

/// Whether an event starts a block quote.
pub fn starts_quote(event: &OwnedEvent) -> bool
    ensures { result ≡ starts is_quote (event_view string_bytes event.now) }
{
    matches!(event, EventOf::Start(TagOf::BlockQuote(_)))
}

fn is_indented_code(tag: &TagOf<String>) -> bool
    ensures { result ≡ is_indented_code (tag_view string_bytes tag.now) }
{
    matches!(tag, TagOf::CodeBlock(CodeBlockKindOf::Indented))
}

/// Whether an event starts an indented code block.
pub fn starts_indented_code(event: &OwnedEvent) -> bool
    ensures { result ≡ starts is_indented_code (event_view string_bytes event.now) }
{
    match event {
        EventOf::Start(tag) => is_indented_code(tag),
        _ => false,
    }
}

/// Whether an event is a text.
pub fn is_text(event: &OwnedEvent) -> bool
    ensures { result ≡ is_text (event_view string_bytes event.now) }
{
    matches!(event, EventOf::Text(_))
}

/// Whether an event is a soft or a hard break.
pub fn is_break(event: &OwnedEvent) -> bool
    ensures { result ≡ is_break (event_view string_bytes event.now) }
{
    match event {
        EventOf::SoftBreak => true,
        EventOf::HardBreak => true,
        _ => false,
    }
}

/// Whether a block starts, or a thematic break comes.
pub fn begins_block(event: &OwnedEvent) -> bool
    ensures { result ≡ begins_block (event_view string_bytes event.now) }
{
    match event {
        EventOf::Start(tag) => !is_inline_tag(tag),
        EventOf::Rule => true,
        _ => false,
    }
}

/// Whether an event could go on with a definition list, a footnote or a table.
pub fn could_continue(event: &OwnedEvent) -> bool
    ensures { result ≡ could_continue (event_view string_bytes event.now) }
{
    let block = starts_paragraph(event) || starts_definition_list(event);
    !begins_block(event) || block || starts_table(event) || starts_indented_code(event)
}
