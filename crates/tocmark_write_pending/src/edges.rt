//! The characters at the edges of events, as their neighbours see them.

ghost use Rattle.std.specs.Prelude.{◌≡◌, if◌then◌else◌, Some, None};
ghost use Rattle.tocmark_event.specs.View.{unsourced};
ghost use Rattle.tocmark_spelling.specs.Buffered.{buffered_view};
ghost use Rattle.tocmark_spelling.specs.Edges.{edge_after, edge_before, event_edge};
ghost use Rattle.tocmark_spelling.specs.Runs.{marker_only, text_only};
ghost use Rattle.tocmark_spelling.specs.Words.{asterisk, first_character, last_character};

use tocmark_event::event::EventOf;
use tocmark_spelling::buffered::BufferedEvent;
use tocmark_spelling::kinds::{is_inline_end, is_inline_tag};

/// The last character of a text.
pub fn last_character(text: &str) -> Option<char>
    ensures { result ≡ last_character text.now }
{
    let mut characters = text.chars();
    match characters.next_back() {
        Some(character) => Some(character),
        None => None,
    }
}

/// The first character of a text.
pub fn first_character(text: &str) -> Option<char>
    ensures { result ≡ first_character text.now }
{
    text.chars().next()
}

/// What is at the edge of an event of inlines, `*`, or of blocks, nothing.
pub fn inline_edge(inline: bool) -> Option<char>
    ensures { result ≡ (if inline then Some asterisk else None) }
{
    if inline { Some('*') } else { None }
}

/// The first character of an event, as its neighbour before it sees it.
pub fn first_edge(event: &BufferedEvent) -> Option<char>
    ensures { result ≡ event_edge first_character (unsourced (buffered_view event.now)) }
{
    match &event.event {
        EventOf::Start(tag) => inline_edge(is_inline_tag(tag)),
        EventOf::End(end) => inline_edge(is_inline_end(*end)),
        EventOf::Text(text) => first_character(text.as_str()),
        EventOf::InlineHtml(text) => first_character(text.as_str()),
        EventOf::SoftBreak => Some('\n'),
        EventOf::HardBreak => Some('\n'),
        _ => Some('*'),
    }
}

/// The last character of an event, as its neighbour after it sees it.
pub fn last_edge(event: &BufferedEvent) -> Option<char>
    ensures { result ≡ event_edge last_character (unsourced (buffered_view event.now)) }
{
    match &event.event {
        EventOf::Start(tag) => inline_edge(is_inline_tag(tag)),
        EventOf::End(end) => inline_edge(is_inline_end(*end)),
        EventOf::Text(text) => last_character(text.as_str()),
        EventOf::InlineHtml(text) => last_character(text.as_str()),
        EventOf::SoftBreak => Some('\n'),
        EventOf::HardBreak => Some('\n'),
        _ => Some('*'),
    }
}

fn marker_only(character: Option<char>) -> Option<char>
    ensures { result ≡ marker_only character }
{
    match character {
        Some('*') => character,
        Some('_') => character,
        _ => None,
    }
}

/// The marker with which a text begins.
pub(crate) fn first_literal(event: &BufferedEvent) -> Option<char>
    ensures { result
        ≡ marker_only (edge_after (text_only (Some (unsourced (buffered_view event.now))))) }
{
    match &event.event {
        EventOf::Text(text) => marker_only(first_character(text.as_str())),
        _ => None,
    }
}

/// The marker with which a text ends.
pub(crate) fn last_literal(event: &BufferedEvent) -> Option<char>
    ensures { result
        ≡ marker_only (edge_before (text_only (Some (unsourced (buffered_view event.now))))) }
{
    match &event.event {
        EventOf::Text(text) => marker_only(last_character(text.as_str())),
        _ => None,
    }
}
