//! From nodes to events. A node has a depth, and a range of the text in bytes: from its first byte to after its last
//! one. Nodes are written in the order of their Starts; a node lies in the nearest container before it whose depth is
//! less. Its event has its range if this is in order, within the text and on boundaries of characters; else an empty
//! one at the front.

ghost use Rattle.std.specs.Prelude.{◌≡◌, ◌++◌, ◌∷◌, [], map, string_bytes, IfOk, OnOk};
ghost use Rattle.tocmark_event.specs.Text.{text_of};
ghost use Rattle.tocmark_event.specs.View.{Item, Leaf, ListOf, Paragraph, Text, event_view, tag_view};
ghost use Rattle.tocmark_reader.specs.Range.{is_cut, snapped, IsGoodRange};
ghost use Rattle.tocmark_reader.specs.Emitted.{Container, Given, Source, emission_view, shown, closed, put, step, with_event};
ghost use Rattle.tocmark_reader.specs.Pages.{node};

use crate::searched::SearchedText;
use crate::words::part_of;
use std::alloc::{AllocError, Global};
use tocmark_event::event::{CowStr, Event, Tag, TagEnd};

/// A container whose End is still to come.
#[derive(Clone, Copy)]
pub struct Open {
    /// The End that is to come.
    pub end: TagEnd,
    /// The range of the Start, which the End gets, too.
    pub range: (usize, usize),
}

/// What is written so far.
#[derive(Drop)]
pub struct Emission {
    /// The events, each with its range in bytes.
    pub events: Vec<Marked>,
    /// The containers that are open, the outermost first.
    pub stack: Vec<Open>,
}

type Marked = (Event<'static>, (usize, usize));

/// Whether a text may be cut at a byte: at its end, or before the first byte of a character.
fn is_cut(text: &str, at: usize) -> bool
    ensures { result ≡ is_cut text.now at }
{
    let bytes = text.as_bytes();
    if at < bytes.len() {
        bytes[at] < 128 || 192 <= bytes[at]
    } else {
        at == bytes.len()
    }
}

/// The range from one byte to before another, if it is in order, within the text and on boundaries of characters; else
/// an empty one at the front.
pub fn snapped(text: &str, start: usize, end: usize) -> (usize, usize)
    ensures exact { result ≡ snapped text.now start end }
    ensures good { IsGoodRange text.now result }
{
    if start <= end && is_cut(text, start) && is_cut(text, end) {
        (start, end)
    } else {
        (0, 0)
    }
}

/// Adds an item to a list.
fn add<T: Drop>(list: &mut Vec<T>, item: T) -> Result<(), AllocError>
    ensures { OnOk result (list.new.items ≡ list.old.items ++ item ∷ []) }
{
    Ok(list.push(item)?)
}

#[inline(always)]
fn push(
    out: &mut Vec<Marked>,
    event: Event<'static>,
    range: (usize, usize),
) -> Result<(), AllocError>
    ensures { OnOk result (map shown out.new.items
        ≡ map shown out.old.items ++ (event_view text_of event.entry, range) ∷ []) }
{
    add(out, (event, range))
}

/// Adds the event of a text.
#[inline(always)]
fn push_text(out: &mut Vec<Marked>, words: String, range: (usize, usize)) -> Result<(), AllocError>
    ensures { OnOk result (map shown out.new.items
        ≡ map shown out.old.items ++ (Leaf (Text (string_bytes words)), range) ∷ []) }
{
    out.push((Event::Text(CowStr::Owned(words)), range))?;
    Ok(())
}

impl Emission {
    /// Ends the containers from a depth on, the innermost first.
    pub fn close_to(&mut self, depth: usize) -> Result<(), AllocError>
        ensures { OnOk result (emission_view self.new ≡ closed depth (emission_view self.old)) }
    {
        while self.stack.len() > depth {
            if let Some(last) = self.stack.pop() {
                self.events.push((Event::End(last.end), last.range))?;
            }
        }
        Ok(())
    }

    /// Begins a container.
    fn begin(
        &mut self,
        text: &SearchedText<'_>,
        tag: Tag<'static>,
        range: (usize, usize),
    ) -> Result<(), AllocError>
        ensures { OnOk result (emission_view self.new
            ≡ put text.now (Container (tag_view text_of tag.entry)) range
            (emission_view self.old)) }
    {
        let end = tag.to_end();
        push(&mut self.events, Event::Start(tag), range)?;
        self.stack.push(Open { end, range })?;
        Ok(())
    }

    /// Writes the node of a container.
    pub fn open(
        &mut self,
        text: &SearchedText<'_>,
        depth: usize,
        tag: Tag<'static>,
        start: usize,
        end: usize,
    ) -> Result<(), AllocError>
        ensures { OnOk result (emission_view self.new ≡ step text.now (emission_view self.old)
            (node depth (Container (tag_view text_of tag.entry)) start end)) }
    {
        let closed = self.close_to(depth);
        if closed.is_err() {
            drop(tag);
            return closed;
        }
        self.begin(text, tag, snapped(text.as_str(), start, end))
    }

    /// Writes the node of a paragraph.
    pub fn open_paragraph(
        &mut self,
        text: &SearchedText<'_>,
        depth: usize,
        start: usize,
        end: usize,
    ) -> Result<(), AllocError>
        ensures { OnOk result (emission_view self.new ≡ step text.now (emission_view self.old)
            (node depth (Container Paragraph) start end)) }
    {
        self.close_to(depth)?;
        let range = snapped(text.as_str(), start, end);
        self.events.push((Event::Start(Tag::Paragraph), range))?;
        self.stack.push(Open {
            end: TagEnd::Paragraph,
            range,
        })?;
        Ok(())
    }

    /// Writes the node of an item.
    pub fn open_item(
        &mut self,
        text: &SearchedText<'_>,
        depth: usize,
        start: usize,
        end: usize,
    ) -> Result<(), AllocError>
        ensures { OnOk result (emission_view self.new ≡ step text.now (emission_view self.old)
            (node depth (Container Item) start end)) }
    {
        self.close_to(depth)?;
        let range = snapped(text.as_str(), start, end);
        self.events.push((Event::Start(Tag::Item), range))?;
        self.stack.push(Open {
            end: TagEnd::Item,
            range,
        })?;
        Ok(())
    }

    /// Writes the node of a list, which begins with a number if it is ordered.
    pub fn open_list(
        &mut self,
        text: &SearchedText<'_>,
        depth: usize,
        first: Option<u64>,
        start: usize,
        end: usize,
    ) -> Result<(), AllocError>
        ensures { OnOk result (emission_view self.new ≡ step text.now (emission_view self.old)
            (node depth (Container (ListOf first)) start end)) }
    {
        self.close_to(depth)?;
        let range = snapped(text.as_str(), start, end);
        self.events.push((Event::Start(Tag::List(first)), range))?;
        self.stack.push(Open {
            end: TagEnd::List(first.is_some()),
            range,
        })?;
        Ok(())
    }

    /// Writes the node of a text that differs from its source.
    pub fn write_text(
        &mut self,
        text: &SearchedText<'_>,
        depth: usize,
        words: String,
        start: usize,
        end: usize,
    ) -> Result<(), AllocError>
        ensures { OnOk result (emission_view self.new ≡ step text.now (emission_view self.old)
            (node depth (Given (Text (string_bytes words))) start end)) }
    {
        self.close_to(depth)?;
        push_text(&mut self.events, words, snapped(text.as_str(), start, end))
    }

    /// Writes the node of a text that is its source.
    #[inline(always)]
    pub fn write_source(
        &mut self,
        alloc: Global,
        text: &SearchedText<'_>,
        depth: usize,
        start: usize,
        end: usize,
    ) -> Result<(), AllocError>
        ensures { OnOk result (emission_view self.new ≡ step text.now (emission_view self.old)
            (node depth Source start end)) }
    {
        self.close_to(depth)?;
        let range = snapped(text.as_str(), start, end);
        let words = part_of(alloc, text, range.0, range.1, false)?;
        push_text(&mut self.events, words, range)
    }

    /// Writes the node of an event that begins no container.
    pub fn write(
        &mut self,
        text: &SearchedText<'_>,
        depth: usize,
        event: Event<'static>,
        start: usize,
        end: usize,
    ) -> Result<(), AllocError>
        ensures { OnOk result (emission_view self.new
            ≡ with_event (event_view text_of event.entry) (snapped text.now start end)
            (closed depth (emission_view self.old))) }
    {
        let closed = self.close_to(depth);
        if closed.is_err() {
            drop(event);
            return closed;
        }
        push(&mut self.events, event, snapped(text.as_str(), start, end))
    }
}
