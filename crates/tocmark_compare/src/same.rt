//! Whether two lists of events say the same. Beside each event is anything, as its range: it isn't compared.

ghost use Rattle.std.specs.Prelude.{◌≡◌, ◌↔◌, map, IfOk, IsTrue};
ghost use Rattle.tocmark_event.specs.Merged.{merged};
ghost use Rattle.tocmark_event.specs.Text.{text_of};
ghost use Rattle.tocmark_event.specs.View.{event_view};
ghost use Rattle.tocmark_spelling.specs.Kinds.{is_text};
ghost use Rattle.tocmark_spelling.specs.SameEvents.{same_events};
ghost use Rattle.tocmark_compare.specs.Apart.{are_apart};
ghost use Rattle.tocmark_compare.specs.Given.{given_events};

use crate::event::{same_event, same_events};
use std::alloc::{AllocError, Global};
use tocmark_event::event::{Event, merge_texts};

/// Whether an event is a text.
pub fn is_text(event: &Event<'_>) -> bool
    ensures { result ≡ is_text (event_view text_of event.now) }
{
    match event {
        Event::Text(_) => true,
        _ => false,
    }
}

/// Whether two lists have the same events, one by one. It takes no memory.
fn are_equal<X, Y>(found: &[(Event<'_>, X)], given: &[(Event<'_>, Y)]) -> bool
    ensures { result ≡ same_events (given_events found.now) (given_events given.now) }
{
    if found.len() != given.len() {
        return false;
    }
    for i in 0..found.len() {
        if !same_event(&found[i].0, &given[i].0) {
            return false;
        }
    }
    true
}

/// The events without what is beside each.
fn events_alone<X>(
    alloc: Global,
    events: &[(Event<'_>, X)],
) -> Result<Vec<Event<'static>>, AllocError>
    ensures { IfOk result (λ all. map (event_view text_of) all.items ≡ given_events events.now) }
{
    let mut all = Vec::new(alloc);
    for pair in events {
        all.push(pair.0.to_static(alloc)?)?;
    }
    Ok(all)
}

/// The events without what is beside each, and each longest stretch of texts as one.
pub fn merged_events<X>(
    alloc: Global,
    events: &[(Event<'_>, X)],
) -> Result<Vec<Event<'static>>, AllocError>
    ensures { IfOk result (λ all. map (event_view text_of) all.items
        ≡ merged (given_events events.now)) }
{
    let alone = events_alone(alloc, events)?;
    merge_texts(alloc, &alone)
}

/// Whether two lists say the same although their texts are cut otherwise.
fn are_alike<X, Y>(
    alloc: Global,
    found: &[(Event<'_>, X)],
    given: &[(Event<'_>, Y)],
) -> Result<bool, AllocError>
    ensures { IfOk result (λ same. IsTrue same
        ↔ (merged (given_events found.now) ≡ merged (given_events given.now))) }
{
    let found = merged_events(alloc, found)?;
    let given = merged_events(alloc, given)?;
    Ok(same_events(&found, &given))
}

/// Whether two lists have the same events, on either side with each longest stretch of texts as one. It takes memory
/// only where the events aren't the same one by one.
pub fn are_same<X, Y>(
    alloc: Global,
    found: &[(Event<'_>, X)],
    given: &[(Event<'_>, Y)],
) -> Result<bool, AllocError>
    ensures { IfOk result (λ same. IsTrue same
        ↔ (merged (given_events found.now) ≡ merged (given_events given.now))) }
{
    if are_equal(found, given) {
        return Ok(true);
    }
    are_alike(alloc, found, given)
}

/// Whether two lists first differ at events that both have, and neither of which is a text. Then they differ however
/// texts are cut. It takes no memory.
pub fn differ(found: &[(Event<'_>, (usize, usize))], given: &[(Event<'_>, (usize, usize))]) -> bool
    ensures { result ≡ are_apart (given_events found.now) (given_events given.now) }
{
    let count = found.len().min(given.len());
    for i in 0..count {
        if !same_event(&found[i].0, &given[i].0) {
            return !is_text(&found[i].0) && !is_text(&given[i].0);
        }
    }
    false
}
