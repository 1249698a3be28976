//! The shape of a text: which blocks begin and end in it, for a comparison with another text.

ghost use Rattle.std.specs.Prelude.{◌≡◌, ◌++◌, ◌∷◌, [], IfOk, IfSome, IsTrue, List, None, OnOk, Some, map};
ghost use Rattle.tocmark_event.specs.Text.{text_of};
ghost use Rattle.tocmark_event.specs.View.{End, EventView, Start, end_of, event_view, tag_view};
ghost use Rattle.tocmark_spelling.specs.Kinds.{is_inline_end, is_inline_tag};
ghost use Rattle.tocmark_compare.specs.Digest.{marked, plain_start};
ghost use Rattle.tocmark_compare.specs.Given.{given_events};
ghost use Rattle.tocmark_judge.specs.Shape.{Outlines, outlined, shape};

use crate::parts::PartTaker;
use std::alloc::{AllocError, Global};
use tocmark_compare::number::end_number;
use tocmark_event::event::{Event, Tag, TagEnd};
use tocmark_event::reader::Reading;
use tocmark_spelling::kinds::is_inline_end;

/// How many marks the Ends of blocks and inlines have, and as many Starts after them.
const ENDS: u8 = 35;
/// The mark of a rule.
const RULE: u8 = 72;

/// Which blocks begin and end in a text.
#[derive(Drop)]
pub struct Outline {
    /// A mark for each Start and End of a block, and for each rule.
    marks: Vec<u8>,
    /// For each mark where the last block begins that doesn't begin after it.
    places: Vec<usize>,
    /// Where the last block begins.
    last: usize,
}

/// Whether a tag is within a line.
fn is_inline_tag(tag: &Tag<'_>) -> bool
    ensures { result ≡ is_inline_tag (tag_view text_of tag.now) }
{
    match tag {
        Tag::Emphasis | Tag::Strong | Tag::Strikethrough | Tag::Superscript | Tag::Subscript =>
            true,
        Tag::Link { .. } | Tag::Image { .. } => true,
        _ => false,
    }
}

/// The mark of the Start of a block that ends so.
fn start_mark(end: TagEnd) -> u8
    ensures { marked result ≡ Some (Start (plain_start end)) }
{
    end_number(end).saturating_add(ENDS)
}

fn end_mark(end: TagEnd) -> u8
    ensures { marked result ≡ Some (End end) }
{
    end_number(end)
}

/// The mark of an event, if it says something of blocks.
fn mark_of(event: &Event<'_>) -> Option<u8>
    ensures some { IfSome result (λ mark. marked mark ∷ []
        ≡ map Some (outlined (event_view text_of event.now))) }
    ensures none { result ≡ None → outlined (event_view text_of event.now) ≡ [] }
{
    match event {
        Event::Start(tag) if !is_inline_tag(tag) => Some(start_mark(tag.to_end())),
        Event::End(end) if !is_inline_end(*end) => Some(end_mark(*end)),
        Event::Rule => Some(RULE),
        _ => None,
    }
}

impl Outline {
    /// The outline of no events. Further ones are added to it.
    pub fn new(alloc: Global) -> Outline
        ensures { Outlines result [] }
    {
        Outline {
            marks: Vec::new(alloc),
            places: Vec::new(alloc),
            last: 0,
        }
    }

    /// Adds the mark of an event that is here.
    fn put(&mut self, mark: u8, place: usize) -> Result<(), AllocError>
        ensures { OnOk result (self.new.marks.items ≡ self.old.marks.items ++ mark ∷ []) }
    {
        if mark >= ENDS {
            self.last = self.last.max(place);
        }
        self.places.push(self.last)?;
        self.marks.push(mark)?;
        Ok(())
    }

    /// Adds an event.
    fn add(&mut self, pair: &(Event<'static>, (usize, usize))) -> Result<(), AllocError>
        ensures { OnOk result ((before : List EventView) → Outlines self.old before
            → Outlines self.new (before ++ event_view text_of pair.now.0 ∷ [])) }
    {
        match mark_of(&pair.0) {
            Some(mark) => self.put(mark, pair.1.0),
            None => Ok(()),
        }
    }

    /// Adds further events.
    fn add_all(&mut self, events: &[(Event<'static>, (usize, usize))]) -> Result<(), AllocError>
        ensures { OnOk result ((before : List EventView) → Outlines self.old before
            → Outlines self.new (before ++ given_events events.now)) }
    {
        for pair in events {
            self.add(pair)?;
        }
        Ok(())
    }

    /// Whether two texts have the same shape.
    pub fn is_same(&self, other: &Outline) -> bool
        ensures { IsTrue result → (one two : List EventView) → Outlines self.now one
            → Outlines other.now two → shape one ≡ shape two }
    {
        self.marks.as_slice() == other.marks.as_slice()
    }

    /// The marks of what begins before a place, from a number of marks on.
    pub fn marks_before(&self, from: usize, place: usize) -> &[u8] {
        let to = self.places.partition_point(|it| *it < place);
        self.marks.get(from..to).unwrap_or(&[])
    }
}

impl PartTaker for Outline {
    ghost has_taken = { Outlines };

    fn take(&mut self, _alloc: Global, part: &Reading) -> Result<(), AllocError> {
        self.add_all(&part.events)
    }
}
