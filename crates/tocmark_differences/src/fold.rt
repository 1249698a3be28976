//! Counts each run of white space in texts as one blank.

ghost use Rattle.std.specs.Prelude.{◌≡◌, ◌++◌, ◌∷◌, [], false, IfOk, OnOk};
ghost use Rattle.tocmark_event.specs.Text.{text_of};
ghost use Rattle.tocmark_event.specs.View.{Leaf, SoftBreak, Start, Text, event_view, tag_view};
ghost use Rattle.tocmark_compare.specs.Given.{given_events};
ghost use Rattle.tocmark_judge.specs.Same.{after, at_front, folded, folded_event};
ghost use Rattle.tocmark_differences.specs.Spots.{spot_view};

use std::alloc::{AllocError, Global};
use tocmark_event::event::{CowStr, Event, Tag};
use tocmark_judge::summary::{fold_label, keeps_lines, push_folded};

/// Where the next event is.
#[derive(Clone, Copy)]
struct Spot {
    /// In a block whose text keeps its lines.
    is_raw: bool,
    is_behind_white: bool,
}

/// Events with folded white space, beside their bytes.
#[derive(Drop)]
struct Folding {
    events: Vec<(Event<'static>, (usize, usize))>,
    spot: Spot,
}

impl Folding {
    /// Adds an event that counts as it is.
    fn add_plain(
        &mut self,
        alloc: Global,
        pair: &(Event<'static>, (usize, usize)),
        is_raw: bool,
    ) -> Result<(), AllocError>
        ensures events { OnOk result (given_events self.new.events.items
            ≡ given_events self.old.events.items ++ event_view text_of pair.now.0 ∷ []) }
        ensures spot { OnOk result (spot_view self.new.spot
            ≡ record { raw = is_raw; behind = false }) }
    {
        self.spot = Spot {
            is_raw,
            is_behind_white: false,
        };
        self.events.push((pair.0.to_static(alloc)?, pair.1))?;
        Ok(())
    }

    /// Adds a start, in which a label is folded.
    fn add_start(
        &mut self,
        alloc: Global,
        tag: &Tag<'static>,
        range: (usize, usize),
    ) -> Result<(), AllocError>
        ensures events { OnOk result (given_events self.new.events.items
            ≡ given_events self.old.events.items
            ++ folded_event (spot_view self.old.spot) (Start (tag_view text_of tag.now))) }
        ensures spot { OnOk result (spot_view self.new.spot
            ≡ after (spot_view self.old.spot) (Start (tag_view text_of tag.now))) }
    {
        self.spot = Spot {
            is_raw: keeps_lines(tag),
            is_behind_white: false,
        };
        let mut copy: Tag<'static> = tag.copied(alloc)?;
        fold_label(alloc, &mut copy)?;
        self.events.push((Event::Start(copy), range))?;
        Ok(())
    }

    /// Adds a text outside of blocks that keep their lines, unless nothing is left of it.
    fn add_text(
        &mut self,
        alloc: Global,
        text: &str,
        range: (usize, usize),
    ) -> Result<(), AllocError>
        ensures events { self.old.spot.is_raw ≡ false → OnOk result (
            given_events self.new.events.items ≡ given_events self.old.events.items
            ++ folded_event (spot_view self.old.spot) (Leaf (Text text.now))) }
        ensures spot { self.old.spot.is_raw ≡ false → OnOk result (spot_view self.new.spot
            ≡ after (spot_view self.old.spot) (Leaf (Text text.now))) }
    {
        let mut folded = String::new(alloc);
        let is_behind_white = push_folded(&mut folded, text, self.spot.is_behind_white)?;
        self.spot = Spot {
            is_raw: false,
            is_behind_white,
        };
        if folded.as_str().is_empty() {
            return Ok(());
        }
        self.events
            .push((Event::Text(CowStr::Owned(folded)), range))?;
        Ok(())
    }

    /// Adds a soft break: a blank, unless it comes after white space.
    fn add_break(&mut self, range: (usize, usize)) -> Result<(), AllocError>
        ensures events { OnOk result (given_events self.new.events.items
            ≡ given_events self.old.events.items
            ++ folded_event (spot_view self.old.spot) (Leaf SoftBreak)) }
        ensures spot { OnOk result (spot_view self.new.spot
            ≡ after (spot_view self.old.spot) (Leaf SoftBreak)) }
    {
        let spot = self.spot;
        self.spot = Spot {
            is_raw: spot.is_raw,
            is_behind_white: true,
        };
        if spot.is_behind_white {
            return Ok(());
        }
        self.events
            .push((Event::Text(CowStr::Borrowed(" ")), range))?;
        Ok(())
    }

    /// Adds an event.
    fn add(
        &mut self,
        alloc: Global,
        pair: &(Event<'static>, (usize, usize)),
    ) -> Result<(), AllocError>
        ensures events { OnOk result (given_events self.new.events.items
            ≡ given_events self.old.events.items
            ++ folded_event (spot_view self.old.spot) (event_view text_of pair.now.0)) }
        ensures spot { OnOk result (spot_view self.new.spot
            ≡ after (spot_view self.old.spot) (event_view text_of pair.now.0)) }
    {
        match &pair.0 {
            Event::Start(tag) => self.add_start(alloc, tag, pair.1),
            Event::End(_) => self.add_plain(alloc, pair, false),
            Event::Text(text) if !self.spot.is_raw => self.add_text(alloc, text.as_ref(), pair.1),
            Event::SoftBreak => self.add_break(pair.1),
            _ => self.add_plain(alloc, pair, self.spot.is_raw),
        }
    }
}

/// Copies of events with folded white space, beside their bytes. It fails if memory runs out.
pub fn folded(
    alloc: Global,
    events: &[(Event<'static>, (usize, usize))],
) -> Result<Vec<(Event<'static>, (usize, usize))>, AllocError>
    ensures { IfOk result (λ all.
        given_events all.items ≡ folded at_front (given_events events.now)) }
{
    let mut folding = Folding {
        events: Vec::new(alloc),
        spot: Spot {
            is_raw: false,
            is_behind_white: false,
        },
    };
    for pair in events {
        folding.add(alloc, pair)?;
    }
    let Folding { events, .. } = folding;
    Ok(events)
}
