//! Whether two texts say the same, and what differs if they don't.

ghost use Rattle.std.specs.Prelude.{◌≡◌, ◌↔◌, ◌++◌, IfOk, IsTrue, OnOk, [], map};
ghost use Rattle.tocmark_event.specs.Merged.{merged};
ghost use Rattle.tocmark_event.specs.declared.event.flags.ParserOptions.{ParserOptions};
ghost use Rattle.tocmark_event.specs.Text.{text_of};
ghost use Rattle.tocmark_event.specs.View.{event_view};
ghost use Rattle.tocmark_compare.specs.Given.{found_events, given_events};
ghost use Rattle.tocmark_judge.specs.LinkDefinitions.{link_defined};
ghost use Rattle.tocmark_judge.specs.Marks.{after_mark};
ghost use Rattle.tocmark_judge.specs.Same.{counted};
ghost use Rattle.tocmark_differences.specs.Erased.{erased};
ghost use Rattle.tocmark_differences.specs.First.{IsFirst};
ghost use Rattle.tocmark_differences.specs.Said.{SayTheSame, definition_event, definition_events, remaining_events, remaining_events_of};

use crate::align::differences_between;
use crate::allowed::Allowed;
use crate::difference::Difference;
use crate::erase::erased;
use crate::fold::folded;
use std::alloc::{AllocError, Global};
use tocmark_event::event::{CowStr, Event, LinkType, ParserOptions, Tag};
use tocmark_event::reader::Reading;
use tocmark_judge::PartReader;
use tocmark_judge::mark::without_mark;
use tocmark_reader::ReferenceDefinition;

/// An event beside its bytes in the text.
pub type Placed = (Event<'static>, (usize, usize));

/// What finds what texts say.
#[derive(Clone, Copy)]
struct Comparer<'c, R> {
    alloc: Global,
    reader: &'c R,
    flags: ParserOptions,
    allowed: Allowed,
}

/// A link definition as the start of a link.
fn definition_event(alloc: Global, definition: &ReferenceDefinition) -> Result<Placed, AllocError>
    ensures { IfOk result (λ pair. event_view text_of pair.0
        ≡ definition_event (link_defined definition.now)) }
{
    let tag = Tag::Link {
        link_type: LinkType::Reference,
        dest_url: CowStr::Owned(String::from_str(alloc, definition.destination.as_str())?),
        title: CowStr::Owned(String::from_str(alloc, definition.title.as_str())?),
        id: CowStr::Owned(String::from_str(alloc, definition.label.as_str())?),
    };
    Ok((Event::Start(tag), definition.place.whole))
}

/// Adds link definitions.
fn add_definitions(
    alloc: Global,
    events: &mut Vec<Placed>,
    definitions: &[ReferenceDefinition],
) -> Result<(), AllocError>
    ensures { OnOk result (given_events events.new.items ≡ given_events events.old.items
        ++ map definition_event (map link_defined definitions.now)) }
{
    for definition in definitions {
        events.push(definition_event(alloc, definition)?)?;
    }
    Ok(())
}

impl<R: PartReader> Comparer<'_, R> {
    /// The events that a reader finds in a text, with white space as it counts.
    fn counted_in(&self, text: &str) -> Result<Vec<Placed>, AllocError>
        ensures { IfOk result (λ events. given_events events.items
            ≡ counted self.now.allowed.wrap
            (found_events (R.reading self.now.reader.now text.now self.now.flags))) }
    {
        let reading = self.reader.read(self.alloc, text, self.flags)?;
        if self.allowed.wrap {
            return folded(self.alloc, &reading.events);
        }
        let Reading { events, .. } = reading;
        Ok(events)
    }

    /// The events of a text, and after them its link definitions, unless definitions may differ.
    fn counted_and_defined_in(&self, text: &str) -> Result<Vec<Placed>, AllocError>
        ensures { IfOk result (λ events. given_events events.items
            ≡ counted self.now.allowed.wrap
            (found_events (R.reading self.now.reader.now text.now self.now.flags))
            ++ definition_events self.now.allowed.definitions
            (R.definitions self.now.reader.now text.now self.now.flags)) }
    {
        let mut events = self.counted_in(text)?;
        if !self.allowed.definitions {
            let definitions = self.reader.read_definitions(self.alloc, text, self.flags)?;
            add_definitions(self.alloc, &mut events, &definitions)?;
        }
        Ok(events)
    }

    /// What a text after its byte order mark says, without what may differ.
    fn events_of(&self, text: &str) -> Result<Vec<Placed>, AllocError>
        ensures { IfOk result (λ events. merged (given_events events.items)
            ≡ remaining_events self.now.allowed
            (R.reading self.now.reader.now text.now self.now.flags)
            (R.definitions self.now.reader.now text.now self.now.flags)) }
    {
        let events = self.counted_and_defined_in(text)?;
        erased(self.alloc, self.allowed, &events)
    }
}

/// A text after its byte order mark; all of it, if it has none.
pub fn after_mark(text: &str) -> &str
    ensures { result.now ≡ after_mark text.now }
{
    match without_mark(text) {
        Some(rest) => rest,
        None => text,
    }
}

/// What differs between two texts. There is no difference exactly if both say the same: if a reader finds in both the same
/// events and the same link definitions but for what is allowed to differ (`same`). The first difference that is listed is where
/// both begin to say something else: before it are just the events that they have in common at their front (`first`). A byte
/// order mark at the front is no text.
///
/// It fails if memory runs out.
///
/// ```
/// let flags = ParserOptions::empty();
/// let found = compared(alloc, &CoreReader, flags, Allowed::nothing(), "*a*\n", "_a_\n")?;
/// assert!(rt; found.is_empty());
/// let found = compared(alloc, &CoreReader, flags, Allowed::nothing(), "a\n", "b\n")?;
/// assert_eq!(rt; found.len(), 1);
/// ```
pub fn compared<R: PartReader>(
    alloc: Global,
    reader: &R,
    flags: ParserOptions,
    allowed: Allowed,
    old: &str,
    new: &str,
) -> Result<Vec<Difference>, AllocError>
    ensures same { IfOk result (λ all. (all.items ≡ []) ↔ SayTheSame allowed flags
        (R.reading reader.now) (R.definitions reader.now) old.now new.now) }
    ensures first { IfOk result (λ all. IsFirst
        (remaining_events_of allowed flags (R.reading reader.now) (R.definitions reader.now) old.now)
        (remaining_events_of allowed flags (R.reading reader.now) (R.definitions reader.now) new.now)
        all.items) }
{
    let comparer = Comparer {
        alloc,
        reader,
        flags,
        allowed,
    };
    let (old, new) = (after_mark(old), after_mark(new));
    let (was, is) = (comparer.events_of(old)?, comparer.events_of(new)?);
    differences_between(alloc, (old, was), (new, is))
}
