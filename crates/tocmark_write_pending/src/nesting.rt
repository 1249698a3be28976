//! Which containers are open after the events that wait, and where the others end.

ghost use Rattle.std.specs.Prelude.{◌≡◌, ◌<◌, ℕ, is_ok, length, string_bytes, true, vec_capacity, Ok, Some};
ghost use Rattle.tocmark_event.specs.Text.{text_of};
ghost use Rattle.tocmark_event.specs.View.{event_view};
ghost use Rattle.tocmark_write_pending.specs.OpenContainers.{ended_by, ends_with, innermost_of, opened};
ghost use Rattle.tocmark_write_pending.specs.Pending.{closed, nested};
ghost use Rattle.tocmark_write_pending.specs.PendingOf.{ends_awaited, places_of};

use tocmark_compare::number::end_number;
use tocmark_event::event::{Event, EventOf, OwnedEvent, TagEnd};

/// A container that is open.
#[derive(Clone, Copy)]
pub struct OpenContainer {
    /// The place of its Start among the events.
    pub place: usize,
    /// The End that it awaits.
    pub end: TagEnd,
}

/// Whether an End is that of the innermost open container.
fn ends_innermost(containers: &[OpenContainer], end: TagEnd) -> bool
    ensures { result ≡ is_ok (closed (ends_awaited containers.now) end) }
{
    match containers.last() {
        Some(innermost) => end_number(end) == end_number(innermost.end),
        None => false,
    }
}

/// Whether an event can come where these containers are open, outermost first.
pub(crate) fn can_come(containers: &[OpenContainer], event: &Event<'_>) -> bool
    ensures { result
        ≡ is_ok (nested (ends_awaited containers.now) (event_view text_of event.now)) }
{
    match event {
        EventOf::End(end) => ends_innermost(containers, *end),
        _ => true,
    }
}

/// Opens or ends a container, with an event that can come, and that is at a place. There is room
/// for one more.
#[inline(always)]
pub(crate) fn nest(containers: &mut Vec<OpenContainer>, event: &OwnedEvent, place: usize)
    requires room { length containers.old.items < vec_capacity containers.old }
    requires fits { let ends = ends_awaited containers.old.items in
        is_ok (nested ends (event_view string_bytes event.now)) ≡ true }
    ensures ends { nested (ends_awaited containers.old.items) (event_view string_bytes event.now)
        ≡ Ok (ends_awaited containers.new.items) }
    ensures places { places_of containers.new.items
        ≡ opened (event_view string_bytes event.now) place (places_of containers.old.items) }
{
    match event {
        EventOf::Start(tag) => {
            let end = tag.to_end();
            let _room = containers.push(OpenContainer { place, end });
        }
        EventOf::End(_) => {
            containers.pop();
        }
        _ => {}
    }
}

/// The place of the innermost open container's Start.
fn innermost(containers: &[OpenContainer]) -> Option<usize>
    ensures { result ≡ innermost_of (places_of containers.now) }
{
    match containers.last() {
        Some(container) => Some(container.place),
        None => None,
    }
}

/// The place of the Start of the container that an event ends, if it ends one.
pub(crate) fn ended_by(containers: &[OpenContainer], event: &Event<'_>) -> Option<usize>
    ensures { result ≡ ended_by (event_view text_of event.now) (places_of containers.now) }
{
    match event {
        EventOf::End(_) => innermost(containers),
        _ => None,
    }
}

/// Notes where a container ends whose Start is at a place, if one more event ends one. There is room
/// for one more.
#[inline(always)]
pub(crate) fn note_end(ends: &mut Vec<Option<usize>>, ended: Option<usize>)
    requires room { length ends.old.items < vec_capacity ends.old }
    requires inside { (p : ℕ) → ended ≡ Some p → p < length ends.old.items }
    ensures { ends.new.items ≡ ends_with ended ends.old.items }
{
    if let Some(start) = ended {
        let place = ends.len();
        ends[start] = Some(place);
    }
    let _room = ends.push(None);
}
