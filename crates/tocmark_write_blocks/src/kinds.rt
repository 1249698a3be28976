//! Which blocks a unit has that ask something of their texts.

ghost use Rattle.std.specs.Prelude.{◌≡◌, map, string_bytes};
ghost use Rattle.std.specs.List.{list_any};
ghost use Rattle.tocmark_event.specs.View.{tag_view};
ghost use Rattle.tocmark_spelling.specs.Buffered.{buffered_view};
ghost use Rattle.tocmark_write_blocks.specs.Kinds.{is_fenced, is_html_block, opens};

use tocmark_event::event::{CodeBlockKindOf, EventOf, TagOf};
use tocmark_spelling::buffered::BufferedEvent;

/// Which of these blocks there are.
#[derive(Clone, Copy)]
pub struct Kinds {
    /// Whether fenced code is among them.
    pub fenced: bool,
    /// Whether an HTML block is.
    pub html: bool,
}

fn is_fenced(tag: &TagOf<String>) -> bool
    ensures { result ≡ is_fenced (tag_view string_bytes tag.now) }
{
    matches!(tag, TagOf::CodeBlock(CodeBlockKindOf::Fenced(_)))
}

fn is_html_block(tag: &TagOf<String>) -> bool
    ensures { result ≡ is_html_block (tag_view string_bytes tag.now) }
{
    matches!(tag, TagOf::HtmlBlock)
}

fn opens_fence(event: &BufferedEvent) -> bool
    ensures { result ≡ opens is_fenced (buffered_view event.now) }
{
    match &event.event {
        EventOf::Start(tag) => is_fenced(tag),
        _ => false,
    }
}

/// Whether an event opens an HTML block.
pub fn opens_html(event: &BufferedEvent) -> bool
    ensures { result ≡ opens is_html_block (buffered_view event.now) }
{
    match &event.event {
        EventOf::Start(tag) => is_html_block(tag),
        _ => false,
    }
}

/// Which of these blocks open among the events. Each event is looked at once.
pub fn kinds_in(events: &[BufferedEvent]) -> Kinds
    ensures fenced { result.fenced ≡ list_any (opens is_fenced) (map buffered_view events.now) }
    ensures html { result.html ≡ list_any (opens is_html_block) (map buffered_view events.now) }
{
    let mut fenced = false;
    let mut html = false;
    for event in events {
        fenced = fenced || opens_fence(event);
        html = html || opens_html(event);
    }
    Kinds { fenced, html }
}
