//! Edited events that come one after the other, some of them without a range.

ghost use Rattle.std.specs.Prelude.{◌≡◌, ℕ, IfOk, List, Option};
ghost use Rattle.std.specs.Borrow.{Bor};
ghost use Rattle.std.specs.Iterator.{Drains, IsFinite};
ghost use Rattle.tocmark_event.specs.Text.{ParserEvent};
ghost use Rattle.tocmark_rewrite.specs.Edited.{edited_events};
ghost use Rattle.tocmark_compare.specs.Given.{given_events};

use std::alloc::{AllocError, Global};
use tocmark_event::event::Event;

/// The place after an event: in a container its beginning, else its end.
fn behind(event: &Event<'_>, range: (usize, usize)) -> usize {
    match event {
        Event::Start(_) => range.0,
        _ => range.1,
    }
}

/// The events that an iterator gives. One without a range has an empty one after the event before it.
pub(crate) fn collected<'a, 'c, I>(
    alloc: Global,
    events: I,
) -> Result<Vec<(Event<'c>, (usize, usize))>, AllocError>
where
    I: Iterator<Item = (&'a Event<'a>, Option<(usize, usize)>)>,
    requires can { I.can_next events }
    requires ends { IsFinite (I.remaining events) }
    ensures { IfOk result (λ all. (xs : List (Bor ParserEvent × Option (ℕ × ℕ)))
        × Drains I.next_gives events xs × (given_events all.items ≡ edited_events xs)) }
{
    let mut all = Vec::new(alloc);
    let mut place = 0usize;
    for (event, range) in events {
        let range = range.unwrap_or((place, place));
        place = behind(event, range);
        let copy: Event<'c> = event.to_static(alloc)?;
        all.push((copy, range))?;
    }
    Ok(all)
}

/// The events of a list, lent.
pub(crate) fn lent<'a>(
    events: &'a [(Event<'static>, (usize, usize))],
) -> &'a [(Event<'a>, (usize, usize))]
    ensures { result.now ≡ events.now }
{
    events
}
