//! Whether two events are the same, and two lists of them.

ghost use Rattle.std.specs.Prelude.{◌≡◌, map};
ghost use Rattle.tocmark_event.specs.View.{event_view};
ghost use Rattle.tocmark_spelling.specs.SameEvents.{same_event, same_events};

use crate::number::end_number;
use crate::tag::same_tag;
use crate::text::same_text;
use tocmark_event::event::{EventOf, Words};

/// Whether two events are the same, with the same texts whoever owns them. It takes no memory.
pub fn same_event<T: Words, U: Words>(a: &EventOf<T>, b: &EventOf<U>) -> bool
    ensures { result ≡ same_event (event_view T.bytes a.now) (event_view U.bytes b.now) }
{
    match (a, b) {
        (EventOf::Start(a), EventOf::Start(b)) => same_tag(a, b),
        (EventOf::End(a), EventOf::End(b)) => end_number(*a) == end_number(*b),
        (EventOf::Text(a), EventOf::Text(b)) => same_text(a, b),
        (EventOf::Code(a), EventOf::Code(b)) => same_text(a, b),
        (EventOf::InlineMath(a), EventOf::InlineMath(b)) => same_text(a, b),
        (EventOf::DisplayMath(a), EventOf::DisplayMath(b)) => same_text(a, b),
        (EventOf::Html(a), EventOf::Html(b)) => same_text(a, b),
        (EventOf::InlineHtml(a), EventOf::InlineHtml(b)) => same_text(a, b),
        (EventOf::FootnoteReference(a), EventOf::FootnoteReference(b)) => same_text(a, b),
        (EventOf::SoftBreak, EventOf::SoftBreak) => true,
        (EventOf::HardBreak, EventOf::HardBreak) => true,
        (EventOf::Rule, EventOf::Rule) => true,
        (EventOf::TaskListMarker(a), EventOf::TaskListMarker(b)) => *a == *b,
        _ => false,
    }
}

/// Whether two lists of events are the same, event by event. It takes no memory.
pub fn same_events<T: Words, U: Words>(a: &[EventOf<T>], b: &[EventOf<U>]) -> bool
    ensures { result
        ≡ same_events (map (event_view T.bytes) a.now) (map (event_view U.bytes) b.now) }
{
    if a.len() != b.len() {
        return false;
    }
    for i in 0..a.len() {
        if !same_event(&a[i], &b[i]) {
            return false;
        }
    }
    true
}
