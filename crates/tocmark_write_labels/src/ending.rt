//! How the definitions that are left come to be at the end.

ghost use Rattle.std.specs.Prelude.{◌≡◌, drop, take, map, string_bytes, IfOk};
ghost use Rattle.tocmark_spelling.specs.Buffered.{buffered_view};
ghost use Rattle.tocmark_write_labels.specs.Ending.{holds_raw_block, leading_feeds, starts_raw_block, with_definitions_in_front};

use std::alloc::{AllocError, Global};
use tocmark_event::event::{EventOf, TagOf};
use tocmark_spelling::buffered::BufferedEvent;

fn starts_raw_block(event: &BufferedEvent) -> bool
    ensures { result ≡ starts_raw_block (buffered_view event.now) }
{
    match &event.event {
        EventOf::Start(TagOf::CodeBlock(_)) => true,
        EventOf::Start(TagOf::HtmlBlock) => true,
        _ => false,
    }
}

/// Whether a unit holds a code block or an HTML block, which definitions can't follow.
pub fn holds_raw_block(unit: &[BufferedEvent]) -> bool
    ensures { result ≡ holds_raw_block (map buffered_view unit.now) }
{
    for event in unit {
        if starts_raw_block(event) {
            return true;
        }
    }
    false
}

fn without_leading_feeds(text: &str) -> &str
    ensures { result.now ≡ drop (leading_feeds text.now) text.now }
{
    text.trim_start_matches('\n')
}

fn leading_feeds(text: &str) -> &str
    ensures { result.now ≡ take (leading_feeds text.now) text.now }
{
    let rest = without_leading_feeds(text);
    &text[..text.len() - rest.len()]
}

/// A unit's text with definitions in front of it: they are after the line feeds with which the text
/// begins, without their own, and a blank line follows them.
pub fn with_definitions_in_front(
    alloc: Global,
    definitions: &str,
    text: &str,
) -> Result<String, AllocError>
    ensures { IfOk result (λ whole.
        string_bytes whole ≡ with_definitions_in_front definitions.now text.now) }
{
    let mut whole = String::from_str(alloc, leading_feeds(text))?;
    whole.push_str(without_leading_feeds(definitions))?;
    whole.push_str("\n\n")?;
    whole.push_str(without_leading_feeds(text))?;
    Ok(whole)
}
