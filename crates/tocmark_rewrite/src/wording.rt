//! Leaves that say something else: the characters and the marks that stay keep their spelling in the source.

use crate::event::spelled_text;
use crate::hunks::{Hunk, common_front, hunks};
use crate::inlines::Inlines;
use crate::inner::{behind_prefix, prefix_of};
use crate::line_end::LineEnd;
use crate::link::text_start;
use crate::marker::Markers;
use crate::patch::Patch;
use crate::source_bytes::byte_at;
use std::alloc::{AllocError, Global};
use tocmark_event::event::Event;

/// How the texts of a changed run are spelled. The ways are tried in this order.
#[derive(Clone, Copy, Debug, PartialEq, Eq)]
pub enum Spelling {
    /// New characters are as they are, and the others keep the bytes of the source.
    Literal,
    /// A backslash is before each new character that may be taken for a mark. The others keep the bytes of the source.
    Escaped,
    /// The whole run is escaped.
    Anew,
}

/// A stretch of a text, and the bytes of the source that spell it.
#[derive(Clone, Copy)]
struct Stretch {
    /// Where it begins and ends in the text.
    begins: usize,
    ends: usize,
    /// Where its spelling begins and ends in the source.
    from: usize,
    to: usize,
    /// Whether its spelling is the stretch itself.
    is_literal: bool,
}

/// A place between two characters of a text at which the source can be cut, and the byte at which it is.
#[derive(Clone, Copy)]
struct Cut {
    text: usize,
    source: usize,
}

/// Neighbouring inlines of the source.
#[derive(Drop)]
pub(crate) struct Run<'e> {
    inlines: Inlines<'e>,
    stretches: Vec<Stretch>,
    /// The bytes of the source that spell it, with a backslash before it if that escapes its first character.
    from: usize,
    to: usize,
    /// Whether a text is as it is, as in code.
    is_raw: bool,
}

/// How the new inlines of a run are spelled.
#[derive(Clone, Copy)]
pub(crate) struct Manner {
    pub(crate) spelling: Spelling,
    pub(crate) markers: Markers,
}

/// Where an event begins: a text with the backslash that escapes its first character, an End after the text of its link.
fn start_of(source: &str, pair: &(Event<'_>, (usize, usize))) -> usize {
    let begins = pair.1.0;
    let before = begins.saturating_sub(1);
    match &pair.0 {
        Event::End(_) => text_start(source, begins),
        Event::Text(_) if begins > 0 && byte_at(source, before) == b'\\' => before,
        _ => begins,
    }
}

/// Whether the bytes up to the next event belong to an event: the marker of a Start, the prefix of a line.
fn goes_on(event: &Event<'_>) -> bool {
    match event {
        Event::Start(_) | Event::SoftBreak | Event::HardBreak => true,
        _ => false,
    }
}

impl<'e> Run<'e> {
    /// The run of these events.
    pub(crate) fn of(
        alloc: Global,
        source: &str,
        is_raw: bool,
        events: &'e [(Event<'e>, (usize, usize))],
    ) -> Result<Run<'e>, AllocError> {
        let (first, last) = match (events.first(), events.last()) {
            (Some(first), Some(last)) if is_raw => (first.1.0, last.1.1),
            (Some(first), Some(last)) => (start_of(source, first), last.1.1),
            _ => (0, 0),
        };
        let mut run = Run {
            inlines: Inlines::none(alloc),
            stretches: Vec::new(alloc),
            from: first,
            to: last,
            is_raw,
        };
        for at in 0..events.len() {
            run.add(source, &events[at], events.get(at.saturating_add(1)))?;
        }
        Ok(run)
    }

    /// Adds an event, by the one after it.
    fn add(
        &mut self,
        source: &str,
        pair: &'e (Event<'e>, (usize, usize)),
        next: Option<&(Event<'e>, (usize, usize))>,
    ) -> Result<(), AllocError> {
        let begins = self.inlines.text.len();
        self.inlines.add(&pair.0)?;
        if let Event::Text(text) = &pair.0 {
            return self.add_text(source, text.as_ref(), begins, pair.1);
        }
        let (mut from, mut to) = pair.1;
        if let Event::End(_) = &pair.0
            && let Some(before) = self.stretches.last()
        {
            from = before.to;
        }
        if let Some(next) = next
            && goes_on(&pair.0)
        {
            to = start_of(source, next);
        }
        self.stretches.push(Stretch {
            begins,
            ends: self.inlines.text.len(),
            from,
            to,
            is_literal: false,
        })?;
        Ok(())
    }

    /// Adds the stretch of a text, which begins at a place and is spelled by these bytes. A line's end may be spelled
    /// otherwise than the line.
    fn add_text(
        &mut self,
        source: &str,
        text: &str,
        begins: usize,
        range: (usize, usize),
    ) -> Result<(), AllocError> {
        let (from, to) = range;
        let ends = begins.saturating_add(text.len());
        let spelled = source.get(from..to).unwrap_or("");
        let same = common_front(text, spelled);
        let is_line = text.len() == same.saturating_add(1)
            && spelled.len() == same.saturating_add(2)
            && byte_at(text, same) == b'\n'
            && byte_at(spelled, same) == b'\r';
        let mut stretch = Stretch {
            begins,
            ends,
            from,
            to,
            is_literal: same == text.len() && same == spelled.len(),
        };
        if is_line {
            let (middle, past) = (begins.saturating_add(same), from.saturating_add(same));
            self.stretches.push(Stretch {
                begins,
                ends: middle,
                from,
                to: past,
                is_literal: true,
            })?;
            stretch.begins = middle;
            stretch.from = past;
        }
        self.stretches.push(stretch)?;
        Ok(())
    }

    /// Whether it is a run of texts with this text.
    pub(crate) fn says(&self, text: &str) -> bool {
        self.inlines.text.as_str() == text
    }

    /// The cut before the stretch with a number: in code where the line begins, else after what is before it.
    fn cut_at(&self, number: usize) -> Cut {
        let mut cut = Cut {
            text: 0,
            source: self.from,
        };
        if let Some(before) = number.checked_sub(1)
            && let Some(stretch) = self.stretches.get(before)
        {
            cut = Cut {
                text: stretch.ends,
                source: stretch.to,
            };
        }
        match self.stretches.get(number) {
            Some(stretch) if self.is_raw => Cut {
                text: cut.text,
                source: stretch.from,
            },
            _ => cut,
        }
    }

    /// The last cut up to a place of the text, and the first one from there on.
    fn cuts(&self, place: usize) -> (Cut, Cut) {
        let number = self
            .stretches
            .partition_point(|stretch| stretch.ends <= place);
        let before = self.cut_at(number);
        if before.text >= place {
            return (before, before);
        }
        match self.stretches.get(number) {
            Some(stretch) if stretch.is_literal => {
                let passed = place.saturating_sub(stretch.begins);
                let cut = Cut {
                    text: place,
                    source: stretch.from.saturating_add(passed),
                };
                (cut, cut)
            }
            _ => (before, self.cut_at(number.saturating_add(1))),
        }
    }

    /// A hunk that begins and ends at cuts: what is added to it is the same in both texts.
    fn at_cuts(&self, hunk: Hunk) -> Hunk {
        let from = self.cuts(hunk.old.0).0.text;
        let to = self.cuts(hunk.old.1).1.text;
        let before = hunk.old.0.saturating_sub(from);
        let behind = to.saturating_sub(hunk.old.1);
        Hunk {
            old: (from, to),
            new: (
                hunk.new.0.saturating_sub(before),
                hunk.new.1.saturating_add(behind),
            ),
        }
    }

    /// Where the run differs from other inlines, each time between cuts. Hunks that meet in a character are one.
    fn hunks(&self, alloc: Global, new: &Inlines<'_>) -> Result<Vec<Hunk>, AllocError> {
        let mut all: Vec<Hunk> = Vec::new(alloc);
        for hunk in &hunks(alloc, &self.inlines, new)? {
            let wide = self.at_cuts(*hunk);
            match all.pop() {
                Some(last) if last.old.1 > wide.old.0 => {
                    let past = last.old.1.max(wide.old.1);
                    let behind = past.saturating_sub(hunk.old.1);
                    all.push(Hunk {
                        old: (last.old.0, past),
                        new: (last.new.0, hunk.new.1.saturating_add(behind)),
                    })?;
                }
                Some(last) => {
                    all.push(last)?;
                    all.push(wide)?;
                }
                None => all.push(wide)?,
            }
        }
        Ok(all)
    }

    /// Adds the patches that make the run other inlines; false if one can't be spelled. As much as can be keeps its spelling.
    pub(crate) fn add_patches(
        &self,
        alloc: Global,
        source: &str,
        new: &Inlines<'_>,
        manner: Manner,
        list: &mut Vec<Patch>,
    ) -> Result<bool, AllocError> {
        let mut hunks = Vec::new(alloc);
        if self.is_raw {
            let (old, new) = (self.inlines.text.as_str(), new.text.as_str());
            hunks.push(self.at_cuts(Hunk::whole(old, new)))?;
        } else if manner.spelling == Spelling::Anew {
            hunks.push(Hunk {
                old: (0, self.inlines.text.len()),
                new: (0, new.text.len()),
            })?;
        } else {
            hunks = self.hunks(alloc, new)?;
        }
        for hunk in &hunks {
            let Some(text) = self.spelled(alloc, source, new, hunk.new, manner)? else {
                return Ok(false);
            };
            list.push(Patch {
                from: self.cuts(hunk.old.0).0.source,
                to: self.cuts(hunk.old.1).1.source,
                text,
            })?;
        }
        Ok(true)
    }

    /// New inlines between two places as they are spelled; none if a mark can't be.
    fn spelled(
        &self,
        alloc: Global,
        source: &str,
        new: &Inlines<'_>,
        places: (usize, usize),
        manner: Manner,
    ) -> Result<Option<String>, AllocError> {
        let mut text = String::new(alloc);
        let mut at = places.0;
        let marks = new.first_mark(places.0)..new.first_mark(places.1);
        for mark in new.marks.get(marks).unwrap_or(&[]) {
            self.push_text(alloc, new.text.as_str().get(at..mark.at), manner, &mut text)?;
            let Some(spelled) = manner.markers.mark(alloc, *mark)? else {
                return Ok(None);
            };
            text.push_str(spelled.as_str())?;
            at = mark.at.saturating_add(1);
        }
        self.push_text(
            alloc,
            new.text.as_str().get(at..places.1),
            manner,
            &mut text,
        )?;
        if !text.contains('\n') {
            return Ok(Some(text));
        }
        let prefix = prefix_of(alloc, source, self.from)?;
        let lines = behind_prefix(alloc, text.as_str(), prefix.as_str())?;
        let line_end = LineEnd::beside(source.as_bytes(), self.from, self.to, LineEnd::Feed);
        Ok(Some(line_end.ending(alloc, lines.as_str())?))
    }

    /// Adds new characters as they are spelled.
    fn push_text(
        &self,
        alloc: Global,
        added: Option<&str>,
        manner: Manner,
        text: &mut String,
    ) -> Result<(), AllocError> {
        let added = added.unwrap_or("");
        if self.is_raw || manner.spelling == Spelling::Literal {
            return text.push_str(added);
        }
        text.push_str(spelled_text(alloc, added)?.as_str())
    }
}
