//! The events of a reading, as they are taken out of it one after the other.

ghost use Rattle.std.specs.Prelude.{◌≡◌};
ghost use Rattle.std.specs.Iterator.{item_count, YieldsFirstBy};
ghost use Rattle.tocmark_state.specs.Taken.{taken_event, taken_events_left, taken_pair, taken_pairs_left};

use std::slice::IterMut;
use tocmark_event::event::Event;
use tocmark_event::reader::Reading;

/// The events.
#[derive(Drop)]
pub struct TakenEvents<'a>(pub IterMut<'a, (Event<'static>, (usize, usize))>);

impl<'a> Iterator for TakenEvents<'a> {
    type Item = &'a mut Event<'static>;

    ghost next_gives = { YieldsFirstBy taken_event taken_events_left };

    ghost remaining = { item_count taken_events_left };

    fn next(&mut self) -> Option<&'a mut Event<'static>> {
        let pair = self.0.next()?;
        Some(&mut pair.0)
    }
}

/// The events with their ranges.
#[derive(Drop)]
pub struct TakenPairs<'a>(pub IterMut<'a, (Event<'static>, (usize, usize))>);

impl<'a> Iterator for TakenPairs<'a> {
    type Item = (&'a mut Event<'static>, Option<(usize, usize)>);

    ghost next_gives = { YieldsFirstBy taken_pair taken_pairs_left };

    ghost remaining = { item_count taken_pairs_left };

    fn next(&mut self) -> Option<(&'a mut Event<'static>, Option<(usize, usize)>)> {
        let pair = self.0.next()?;
        let range = pair.1;
        Some((&mut pair.0, Some(range)))
    }
}

/// The list of a reading's events. Its labels are let go of.
pub fn listed(reading: Reading) -> Vec<(Event<'static>, (usize, usize))>
    ensures { result.items ≡ reading.events.items }
{
    let Reading {
        events,
        defined,
        unresolved,
    } = reading;
    drop(defined);
    drop(unresolved);
    events
}
