//! Whether what a reader found is a unit of events.

ghost use Rattle.std.specs.Prelude.{◌≡◌, ◌∷◌, ◌++◌, ◌||◌, ◌==◌, [], length, map, string_bytes};
ghost use Rattle.std.specs.List.{list_any};
ghost use Rattle.tocmark_event.specs.Merged.{merged};
ghost use Rattle.tocmark_event.specs.Text.{text_of};
ghost use Rattle.tocmark_event.specs.View.{End, Paragraph, Start, event_view, unsourced};
ghost use Rattle.tocmark_event.specs.declared.event.TagEnd.TheVariants as end;
ghost use Rattle.tocmark_spelling.specs.Buffered.{buffered_view, event_of};
ghost use Rattle.tocmark_spelling.specs.SameEvents.{same_events};
ghost use Rattle.tocmark_compare.specs.Agrees.{begins_paragraph};
ghost use Rattle.tocmark_compare.specs.InParagraph.{in_paragraph, stands_alone};

use crate::alike::{alike, rest_found};
use crate::event::same_event;
use tocmark_event::event::{Event, EventOf, OwnedEvent, TagEnd, TagOf};
use tocmark_spelling::buffered::BufferedEvent;
use tocmark_spelling::kinds::{is_inline_end, is_inline_tag};

/// Whether an event is of a block: the Start or End of one, a thematic break or a line of HTML.
fn stands_alone(event: &OwnedEvent) -> bool
    ensures { result ≡ stands_alone (event_view string_bytes event.now) }
{
    match event {
        EventOf::Start(tag) => !is_inline_tag(tag),
        EventOf::End(end) => !is_inline_end(*end),
        EventOf::Rule => true,
        EventOf::Html(_) => true,
        _ => false,
    }
}

fn has_block(unit: &[BufferedEvent]) -> bool
    ensures { result ≡ list_any stands_alone (map event_of unit.now) }
{
    for buffered in unit {
        if stands_alone(&buffered.event) {
            return true;
        }
    }
    false
}

/// Whether a reader finds the events of a unit as they are, and not in a paragraph.
fn stays_as_it_is(unit: &[BufferedEvent]) -> bool
    ensures { result ≡ ((length unit.now == 0) || list_any stands_alone (map event_of unit.now)) }
{
    unit.is_empty() || has_block(unit)
}

fn begins_paragraph(found: &[(Event<'_>, (usize, usize))]) -> bool
    ensures { result ≡ begins_paragraph (map (λ e. event_view text_of e.0) found.now) }
{
    let start: [OwnedEvent; 1] = [EventOf::Start(TagOf::Paragraph)];
    match found {
        [first, ..] => same_event(&first.0, &start[0]),
        [] => false,
    }
}

/// Whether what was found is a paragraph of these events.
fn is_paragraph_of(found: &[(Event<'_>, (usize, usize))], unit: &[BufferedEvent]) -> bool
    ensures { result ≡ same_events (merged (map (λ e. event_view text_of e.0) found.now))
        (Start Paragraph ∷ merged (map event_of unit.now) ++ End end.Paragraph ∷ []) }
{
    if !begins_paragraph(found) {
        return false;
    }
    let end: [OwnedEvent; 1] = [EventOf::End(TagEnd::Paragraph)];
    alike(rest_found(found), unit, &end)
}

/// Whether what a reader found, each stretch of texts as one, is what must be read for a unit: its
/// own events without their source texts, and inline ones in a paragraph. It takes no memory, copies
/// no event, and ends at the first difference.
pub fn agrees(found: &[(Event<'_>, (usize, usize))], unit: &[BufferedEvent]) -> bool
    ensures { result ≡ same_events (merged (map (λ e. event_view text_of e.0) found.now))
        (in_paragraph (merged (map unsourced (map buffered_view unit.now)))) }
{
    if stays_as_it_is(unit) {
        alike(found, unit, &[])
    } else {
        is_paragraph_of(found, unit)
    }
}
