//! What reads Markdown.

ghost use Rattle.std.specs.Prelude.{◌≡◌, ℕ, List, Some, map, IfOk};
ghost use Rattle.std.specs.Iterator.{item_count, YieldsFirstBy};
ghost use Rattle.tocmark_event.specs.Reading.{ReadingView, events_left, lent_event, lent_pair, pairs_left, reading_view};
ghost use Rattle.tocmark_event.specs.declared.event.flags.ParserOptions.{ParserOptions};

use crate::event::{Event, ParserOptions};
use std::alloc::{AllocError, Global};

/// What a reader finds in a text.
#[derive(Debug, Drop)]
pub struct Reading {
    /// The events, each with the bytes that it comes from: the first one, and the one after the last.
    pub events: Vec<(Event<'static>, (usize, usize))>,
    /// The labels of the link definitions in the text.
    pub defined: Vec<String>,
    /// The labels that were looked up and have no definition.
    pub unresolved: Vec<String>,
}

impl Reading {
    fn lent(&self) -> &[(Event<'_>, (usize, usize))]
        ensures { result.now ≡ self.now.events.items }
    {
        &self.events
    }

    /// The events, one after the other: what `cmark` takes.
    pub fn events(&self) -> Events<'_>
        ensures { events_left result ≡ map (λ e. e.0) (reading_view self.now).events }
    {
        Events(self.lent().iter())
    }

    /// The events with their ranges, one after the other: what `cmark_with_source_range` takes.
    pub fn pairs(&self) -> Pairs<'_>
        ensures { pairs_left result ≡ map (λ e. (e.0, Some e.1)) (reading_view self.now).events }
    {
        Pairs(self.lent().iter())
    }
}

/// The events of a reading, one after the other.
#[derive(Drop)]
pub struct Events<'a>(std::slice::Iter<'a, (Event<'a>, (usize, usize))>);

impl<'a> Iterator for Events<'a> {
    type Item = &'a Event<'a>;

    ghost next_gives = { YieldsFirstBy lent_event events_left };

    ghost remaining = { item_count events_left };

    fn next(&mut self) -> Option<&'a Event<'a>> {
        match self.0.next() {
            Some(pair) => Some(&pair.0),
            None => None,
        }
    }
}

/// The events of a reading with their ranges, one after the other.
#[derive(Drop)]
pub struct Pairs<'a>(std::slice::Iter<'a, (Event<'a>, (usize, usize))>);

impl<'a> Iterator for Pairs<'a> {
    type Item = (&'a Event<'a>, Option<(usize, usize)>);

    ghost next_gives = { YieldsFirstBy lent_pair pairs_left };

    ghost remaining = { item_count pairs_left };

    fn next(&mut self) -> Option<(&'a Event<'a>, Option<(usize, usize)>)> {
        match self.0.next() {
            Some(pair) => Some((&pair.0, Some(pair.1))),
            None => None,
        }
    }
}

/// Reads Markdown. A reader has one reading for a text and flags, which every call answers that finds
/// memory; nothing else is asked of it.
pub trait Reader {
    /// That reading.
    ghost reading: { Self → List ℕ → ParserOptions → ReadingView };

    /// Reads a text.
    fn read(&self, alloc: Global, text: &str, flags: ParserOptions) -> Result<Reading, AllocError>
        ensures { IfOk result (λ found. reading_view found ≡ reading self.now text.now flags) };
}

/// A reference to a reader has the reader's readings.
impl<R: Reader> Reader for &R {
    ghost reading = { λ r. R.reading r.now };

    fn read(&self, alloc: Global, text: &str, flags: ParserOptions) -> Result<Reading, AllocError> {
        (**self).read(alloc, text, flags)
    }
}
