//! The inlines of a leaf: their text, with a mark in the place of each inline that is no text.

use std::alloc::{AllocError, Global};
use tocmark_compare::event::same_event;
use tocmark_event::event::{Event, Tag};
use tocmark_spelling::kinds::is_inline_end;

/// What is in the text for a mark. No reader finds this character in a text.
pub(crate) const MARK: char = '\0';

/// An inline that is no text.
#[derive(Clone, Copy)]
pub(crate) struct Mark<'e> {
    /// Where it is in the text.
    pub(crate) at: usize,
    /// The event; for an End the Start that it ends.
    pub(crate) event: &'e Event<'e>,
    pub(crate) is_end: bool,
}

/// The text of a leaf, and its marks in their order.
#[derive(Drop)]
pub(crate) struct Inlines<'e> {
    pub(crate) text: String,
    pub(crate) marks: Vec<Mark<'e>>,
    /// The Starts that are open.
    open: Vec<&'e Event<'e>>,
}

impl<'e> Inlines<'e> {
    pub(crate) fn none(alloc: Global) -> Inlines<'e> {
        Inlines {
            text: String::new(alloc),
            marks: Vec::new(alloc),
            open: Vec::new(alloc),
        }
    }

    pub(crate) fn of(
        alloc: Global,
        events: &'e [(Event<'e>, (usize, usize))],
    ) -> Result<Inlines<'e>, AllocError> {
        let mut inlines = Inlines::none(alloc);
        for pair in events {
            inlines.add(&pair.0)?;
        }
        Ok(inlines)
    }

    /// Adds an event after the others.
    pub(crate) fn add(&mut self, event: &'e Event<'e>) -> Result<(), AllocError> {
        match event {
            Event::Text(text) => self.text.push_str(text.as_ref()),
            Event::Start(_) => {
                self.open.push(event)?;
                self.add_mark(event, false)
            }
            Event::End(_) => {
                let start = self.open.pop().unwrap_or(event);
                self.add_mark(start, true)
            }
            _ => self.add_mark(event, false),
        }
    }

    fn add_mark(&mut self, event: &'e Event<'e>, is_end: bool) -> Result<(), AllocError> {
        self.marks.push(Mark {
            at: self.text.len(),
            event,
            is_end,
        })?;
        self.text.push(MARK)
    }

    /// The number of the first mark from a place of the text on.
    pub(crate) fn first_mark(&self, at: usize) -> usize {
        self.marks.partition_point(|mark| mark.at < at)
    }

    /// The mark at a place of the text.
    fn mark_at(&self, at: usize) -> Option<Mark<'e>> {
        match self.marks.get(self.first_mark(at)) {
            Some(mark) if mark.at == at => Some(*mark),
            _ => None,
        }
    }

    /// Whether both have the same mark at these places, or none.
    pub(crate) fn have_same_mark(&self, at: usize, other: &Inlines<'_>, place: usize) -> bool {
        match (self.mark_at(at), other.mark_at(place)) {
            (None, None) => true,
            (Some(one), Some(two)) => {
                one.is_end == two.is_end && same_event(one.event, two.event)
            }
            _ => false,
        }
    }
}

fn is_inline_tag(tag: &Tag<'_>) -> bool {
    match tag {
        Tag::Emphasis | Tag::Strong | Tag::Strikethrough => true,
        Tag::Superscript | Tag::Subscript => true,
        Tag::Link { .. } | Tag::Image { .. } => true,
        _ => false,
    }
}

/// Whether an event is within a leaf.
pub(crate) fn is_inline(event: &Event<'_>) -> bool {
    match event {
        Event::Start(tag) => is_inline_tag(tag),
        Event::End(end) => is_inline_end(*end),
        Event::Html(_) | Event::Rule | Event::TaskListMarker(_) => false,
        _ => true,
    }
}
