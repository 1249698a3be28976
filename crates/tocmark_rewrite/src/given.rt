//! The edited events of a document, one after the other, as a state takes them.
//!
//! `Pairs` and `Events` of `tocmark_event` do the same for a reading, which owns its events; these lend a list.

ghost use Rattle.std.specs.Prelude.{◌≡◌, Some, map};
ghost use Rattle.std.specs.Iterator.{item_count, YieldsFirstBy};
ghost use Rattle.tocmark_event.specs.Text.{text_of};
ghost use Rattle.tocmark_event.specs.View.{event_view};
ghost use Rattle.tocmark_event.specs.Reading.{lent_event, lent_pair};
ghost use Rattle.tocmark_compare.specs.Given.{given_events};
ghost use Rattle.tocmark_rewrite.specs.Given.{given_alone, given_left};

use tocmark_event::event::Event;

/// The pairs of a list, one after the other.
#[derive(Drop)]
pub struct GivenPairs<'a>(std::slice::Iter<'a, (Event<'a>, (usize, usize))>);

impl<'a> GivenPairs<'a> {
    pub fn new(events: &'a [(Event<'a>, (usize, usize))]) -> GivenPairs<'a>
        ensures { given_left result ≡ map (λ e. (event_view text_of e.0, Some e.1)) events.now }
    {
        GivenPairs(events.iter())
    }
}

impl<'a> Iterator for GivenPairs<'a> {
    type Item = (&'a Event<'a>, Option<(usize, usize)>);

    ghost next_gives = { YieldsFirstBy lent_pair given_left };

    ghost remaining = { item_count given_left };

    fn next(&mut self) -> Option<(&'a Event<'a>, Option<(usize, usize)>)> {
        match self.0.next() {
            Some(pair) => Some((&pair.0, Some(pair.1))),
            None => None,
        }
    }
}

/// The events of a list without their ranges, one after the other.
#[derive(Drop)]
pub struct GivenEvents<'a>(std::slice::Iter<'a, (Event<'a>, (usize, usize))>);

impl<'a> GivenEvents<'a> {
    pub fn new(events: &'a [(Event<'a>, (usize, usize))]) -> GivenEvents<'a>
        ensures { given_alone result ≡ given_events events.now }
    {
        GivenEvents(events.iter())
    }
}

impl<'a> Iterator for GivenEvents<'a> {
    type Item = &'a Event<'a>;

    ghost next_gives = { YieldsFirstBy lent_event given_alone };

    ghost remaining = { item_count given_alone };

    fn next(&mut self) -> Option<&'a Event<'a>> {
        match self.0.next() {
            Some(pair) => Some(&pair.0),
            None => None,
        }
    }
}
