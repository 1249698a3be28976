//! Events with their ranges, as the writer takes them.

ghost use Rattle.std.specs.Prelude.{◌≡◌, map};
ghost use Rattle.std.specs.Iterator.{item_count, YieldsFirstBy};
ghost use Rattle.tocmark_event.specs.Text.{text_of};
ghost use Rattle.tocmark_json.specs.Json.{pair_view};
ghost use Rattle.tocmark_event.specs.Reading.{lent_pair};
ghost use Rattle.tocmark_documents.specs.Interchange.{in_source, kept, places_left};

use tocmark::event::Event;

/// An event with its range, if it has one.
pub type Placed<'a> = (Event<'a>, Option<(usize, usize)>);

/// An iterator over events with their ranges. Without a source, no event has a range.
#[derive(Drop)]
pub struct EventPairs<'a> {
    pairs: std::slice::Iter<'a, (Event<'a>, Option<(usize, usize)>)>,
    has_source: bool,
}

impl<'a> EventPairs<'a> {
    pub fn new(pairs: &'a [(Event<'a>, Option<(usize, usize)>)], has_source: bool) -> EventPairs<'a>
        ensures { places_left result ≡ in_source has_source (map (pair_view text_of) pairs.now) }
    {
        EventPairs {
            pairs: pairs.iter(),
            has_source,
        }
    }
}

/// The range, if there is a source.
pub(crate) fn kept(has_source: bool, range: Option<(usize, usize)>) -> Option<(usize, usize)>
    ensures { result ≡ kept has_source range }
{
    if has_source { range } else { None }
}

impl<'a> Iterator for EventPairs<'a> {
    type Item = (&'a Event<'a>, Option<(usize, usize)>);

    ghost next_gives = { YieldsFirstBy lent_pair places_left };

    ghost remaining = { item_count places_left };

    fn next(&mut self) -> Option<(&'a Event<'a>, Option<(usize, usize)>)> {
        let has_source = self.has_source;
        match self.pairs.next() {
            Some(pair) => Some((&pair.0, kept(has_source, pair.1))),
            None => None,
        }
    }
}
