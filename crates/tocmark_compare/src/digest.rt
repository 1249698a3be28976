//! What a list of events says, in little memory: for a comparison when the list itself is gone.

ghost use Rattle.std.specs.Prelude.{◌≡◌, ◌==◌, ◌++◌, ◌∷◌, [], false, true, IfOk, IfSome, IsTrue, List, OnOk, Some, map};
ghost use Rattle.std.specs.List.{list_any};
ghost use Rattle.tocmark_event.specs.Merged.{merged};
ghost use Rattle.tocmark_event.specs.Text.{text_of};
ghost use Rattle.tocmark_event.specs.View.{End, EventView, Image, Link, Start, Table, end_of, event_view, tag_view};
ghost use Rattle.tocmark_spelling.specs.SameEvents.{alignment_code};
ghost use Rattle.tocmark_compare.specs.Digest.{Adds, IsLinkMark, IsLinkOf, IsTextOf, SaysFirst, marked, plain_start, says, spelled};
ghost use Rattle.tocmark_compare.specs.Given.{given_events};

use crate::event::same_events;
use crate::number::{alignment_number, end_number, link_number};
use std::alloc::{AllocError, Global};
use tocmark_event::event::{Alignment, CodeBlockKind, Event, LinkType, Tag, TagEnd};

/// What is before a mark. No text has such a byte.
const SIGN: u8 = 255;
/// How many marks Ends have, and as many Starts after them.
const ENDS: u8 = 35;
/// The marks of leaves without a text.
const SOFT_BREAK: u8 = 70;

const HARD_BREAK: u8 = 71;

const RULE: u8 = 72;

const UNCHECKED: u8 = 73;

const CHECKED: u8 = 74;
/// The mark of an event that is among the others.
const OTHER: u8 = 75;
/// The marks of events with one text, after which are the text and a sign.
const CODE: u8 = 76;

const INLINE_MATH: u8 = 77;

const DISPLAY_MATH: u8 = 78;

const HTML: u8 = 79;

const INLINE_HTML: u8 = 80;

const FOOTNOTE_REFERENCE: u8 = 81;

const FENCED: u8 = 82;

const FOOTNOTE: u8 = 83;
/// The mark of an ordered list with a small first number, which is a text of one byte.
const NUMBER: u8 = 84;
/// The mark of a table, whose text has a byte for each column: the number of its alignment.
const TABLE: u8 = 85;
/// The first mark of a link, after which are its destination, title and label, and a sign after each. Each type of
/// link has a mark.
const LINKS: u8 = 86;
/// The first mark of an image.
const IMAGES: u8 = 97;

/// What a list of events says: a byte for each byte of its texts, two for an event without a text, a byte more for each
/// text of another event, as a link has three, and an event of its own for one with more to it, as a heading with
/// attributes.
#[derive(Drop)]
pub struct Digest {
    bytes: Vec<u8>,
    /// The events without a mark, in their order.
    others: Vec<Event<'static>>,
}

/// Where a tree at the top ends: the byte and the other event after it.
#[derive(Clone, Copy)]
pub struct TreeEnd {
    byte: usize,
    other: usize,
}

/// Whether the End of a container says all of its Start.
fn is_plain(tag: &Tag<'_>) -> bool
    ensures { IsTrue result
        → plain_start (end_of (tag_view text_of tag.now)) ≡ tag_view text_of tag.now }
{
    match tag {
        Tag::Heading {
            id,
            classes,
            attrs,
            ..
        } => id.is_none() && classes.is_empty() && attrs.is_empty(),
        Tag::CodeBlock(CodeBlockKind::Indented) => true,
        Tag::CodeBlock(CodeBlockKind::Fenced(_)) => false,
        Tag::List(None) => true,
        Tag::List(Some(_)) => false,
        Tag::FootnoteDefinition(_) => false,
        Tag::Table(_) => false,
        Tag::Link { .. } => false,
        Tag::Image { .. } => false,
        _ => true,
    }
}

/// The mark of a Start of which its End says all.
fn start_mark(end: TagEnd) -> u8
    ensures { marked result ≡ Some (Start (plain_start end)) }
{
    end_number(end).saturating_add(ENDS)
}

/// The mark of an End.
fn end_mark(end: TagEnd) -> u8
    ensures { marked result ≡ Some (End end) }
{
    end_number(end)
}

/// The mark of an event, if it has one.
fn mark_of(event: &Event<'_>) -> Option<u8>
    ensures { IfSome result (λ mark. marked mark ≡ Some (event_view text_of event.now)) }
{
    match event {
        Event::Start(tag) if is_plain(tag) => Some(start_mark(tag.to_end())),
        Event::End(end) => Some(end_mark(*end)),
        Event::SoftBreak => Some(SOFT_BREAK),
        Event::HardBreak => Some(HARD_BREAK),
        Event::Rule => Some(RULE),
        Event::TaskListMarker(false) => Some(UNCHECKED),
        Event::TaskListMarker(true) => Some(CHECKED),
        _ => None,
    }
}

/// The bytes of a text that can be among the bytes of a digest.
fn bytes_of<'e>(event: &'e Event<'_>) -> Option<&'e [u8]>
    ensures { IfSome result (λ bytes. IsTextOf bytes.now (event_view text_of event.now)) }
{
    let Event::Text(text) = event else {
        return None;
    };
    let bytes = text.as_ref().as_bytes();
    if bytes.is_empty() {
        return None;
    }
    if bytes.contains(&SIGN) {
        return None;
    }
    Some(bytes)
}

/// The mark and the text of an event that has one text.
fn word_of<'e>(event: &'e Event<'_>) -> Option<(u8, &'e str)>
    ensures { IfSome result (λ word.
        spelled word.0 (word.1.now ∷ []) ≡ Some (event_view text_of event.now)) }
{
    match event {
        Event::Code(text) => Some((CODE, text.as_ref())),
        Event::InlineMath(text) => Some((INLINE_MATH, text.as_ref())),
        Event::DisplayMath(text) => Some((DISPLAY_MATH, text.as_ref())),
        Event::Html(text) => Some((HTML, text.as_ref())),
        Event::InlineHtml(text) => Some((INLINE_HTML, text.as_ref())),
        Event::FootnoteReference(label) => Some((FOOTNOTE_REFERENCE, label.as_ref())),
        Event::Start(Tag::CodeBlock(CodeBlockKind::Fenced(info))) => Some((FENCED, info.as_ref())),
        Event::Start(Tag::FootnoteDefinition(label)) => Some((FOOTNOTE, label.as_ref())),
        _ => None,
    }
}

/// The first number of an ordered list, if it is small.
fn number_of(event: &Event<'_>) -> Option<u8>
    ensures event { IfSome result (λ number.
        spelled 84 ((number ∷ []) ∷ []) ≡ Some (event_view text_of event.now)) }
    ensures small { IfSome result (λ number. (number == 255) ≡ false) }
{
    match event {
        Event::Start(Tag::List(Some(number))) if *number < 255 => Some(*number as u8),
        _ => None,
    }
}

/// The alignments of the columns of a table that starts.
fn alignments_of<'e>(event: &'e Event<'_>) -> Option<&'e [Alignment]>
    ensures { IfSome result (λ all. event_view text_of event.now ≡ Start (Table all.now)) }
{
    match event {
        Event::Start(Tag::Table(alignments)) => Some(alignments.as_slice()),
        _ => None,
    }
}

/// The mark of a link.
fn link_mark(link: LinkType) -> u8
    ensures { IsLinkMark result (λ d t i. Link link d t i) }
{
    link_number(link).saturating_add(LINKS)
}

/// The mark of an image.
fn image_mark(link: LinkType) -> u8
    ensures { IsLinkMark result (λ d t i. Image link d t i) }
{
    link_number(link).saturating_add(IMAGES)
}

/// The mark, the destination, the title and the label of a link or an image.
#[derive(Clone, Copy)]
struct Linked<'e> {
    mark: u8,
    destination: &'e str,
    title: &'e str,
    label: &'e str,
}

/// What a digest keeps of the start of a link or an image.
fn link_parts<'e>(tag: &'e Tag<'_>) -> Option<Linked<'e>>
    ensures { IfSome result (λ link. IsLinkOf link.mark link.destination.now link.title.now
        link.label.now (Start (tag_view text_of tag.now))) }
{
    match tag {
        Tag::Link {
            link_type,
            dest_url,
            title,
            id,
        } => Some(Linked {
            mark: link_mark(*link_type),
            destination: dest_url.as_ref(),
            title: title.as_ref(),
            label: id.as_ref(),
        }),
        Tag::Image {
            link_type,
            dest_url,
            title,
            id,
        } => Some(Linked {
            mark: image_mark(*link_type),
            destination: dest_url.as_ref(),
            title: title.as_ref(),
            label: id.as_ref(),
        }),
        _ => None,
    }
}

/// What a digest keeps of a link or an image.
fn link_of<'e>(event: &'e Event<'_>) -> Option<Linked<'e>>
    ensures { IfSome result (λ link. IsLinkOf link.mark link.destination.now link.title.now
        link.label.now (event_view text_of event.now)) }
{
    match event {
        Event::Start(tag) => link_parts(tag),
        _ => None,
    }
}

/// Whether a text can be among the bytes of a digest.
fn can_stand(text: &str) -> bool
    ensures { result ≡ true → list_any (λ b. b == 255) text.now ≡ false }
{
    !text.as_bytes().contains(&SIGN)
}

/// What a byte is that comes next.
#[derive(Clone, Copy, PartialEq, Eq)]
enum Next {
    Text,
    Mark,
    /// A byte of a text after a mark. The number counts this text and those after it.
    Words(u8),
}

/// How deep a byte is, and how many of the other events are before it.
#[derive(Clone, Copy)]
struct Walk {
    next: Next,
    depth: usize,
    other: usize,
}

impl Walk {
    /// Takes an event that has no mark.
    fn pass(&mut self, others: &[Event<'static>]) {
        if let Some(Event::Start(_)) = others.get(self.other) {
            self.depth = self.depth.saturating_add(1);
        }
        self.other = self.other.saturating_add(1);
    }

    /// Takes a mark.
    fn take_mark(&mut self, mark: u8, others: &[Event<'static>]) {
        self.next = match mark {
            0..=OTHER => Next::Text,
            CODE..=TABLE => Next::Words(1),
            _ => Next::Words(3),
        };
        match mark {
            0..ENDS => self.depth = self.depth.saturating_sub(1),
            OTHER => self.pass(others),
            SOFT_BREAK..FENCED => {}
            _ => self.depth = self.depth.saturating_add(1),
        }
    }

    /// Takes a byte; true if it ends a tree at the top.
    fn take(&mut self, byte: u8, others: &[Event<'static>]) -> bool {
        match self.next {
            Next::Mark => self.take_mark(byte, others),
            Next::Text if byte == SIGN => {
                self.next = Next::Mark;
                return false;
            }
            Next::Words(left) if byte == SIGN => {
                self.next = if left > 1 {
                    Next::Words(left - 1)
                } else {
                    Next::Text
                };
            }
            _ => return false,
        }
        self.depth == 0 && self.next == Next::Text
    }
}

/// Where a tree begins: where the one before it ends.
fn end_before(ends: &[TreeEnd], tree: usize) -> TreeEnd {
    let first = TreeEnd { byte: 0, other: 0 };
    match tree.checked_sub(1) {
        Some(before) => ends.get(before).copied().unwrap_or(first),
        None => first,
    }
}

impl Digest {
    fn put_bytes(&mut self, bytes: &[u8]) -> Result<(), AllocError>
        ensures bytes { OnOk result (self.new.bytes.items ≡ self.old.bytes.items ++ bytes.now) }
        ensures others { self.new.others ≡ self.old.others }
    {
        self.bytes.extend_from_slice(bytes)
    }

    fn put_mark(&mut self, mark: u8) -> Result<(), AllocError>
        ensures bytes { OnOk result (self.new.bytes.items
            ≡ self.old.bytes.items ++ 255 ∷ mark ∷ []) }
        ensures others { self.new.others ≡ self.old.others }
    {
        self.put_bytes(&[SIGN, mark])
    }

    /// Puts a text and a sign after it.
    fn put_text(&mut self, text: &[u8]) -> Result<(), AllocError>
        ensures bytes { OnOk result (self.new.bytes.items
            ≡ (self.old.bytes.items ++ text.now) ++ 255 ∷ []) }
        ensures others { self.new.others ≡ self.old.others }
    {
        self.put_bytes(text)?;
        self.put_bytes(&[SIGN])
    }

    /// Puts a mark with its one text.
    fn put_word(&mut self, mark: u8, text: &[u8]) -> Result<(), AllocError>
        ensures bytes { OnOk result (self.new.bytes.items
            ≡ ((self.old.bytes.items ++ 255 ∷ mark ∷ []) ++ text.now) ++ 255 ∷ []) }
        ensures others { self.new.others ≡ self.old.others }
    {
        self.put_mark(mark)?;
        self.put_text(text)
    }

    /// Puts an event that has one text, if it can be among the bytes; whether it is.
    fn put_worded(&mut self, event: &Event<'_>) -> Result<bool, AllocError>
        ensures done { IfOk result (λ done. done ≡ true
            → Adds self.old self.new (event_view text_of event.now)) }
        ensures not_done { IfOk result (λ done. done ≡ false → self.new ≡ self.old) }
    {
        if let Some(number) = number_of(event) {
            self.put_word(NUMBER, &[number])?;
            return Ok(true);
        }
        let Some((mark, text)) = word_of(event) else {
            return Ok(false);
        };
        if !can_stand(text) {
            return Ok(false);
        }
        self.put_word(mark, text.as_bytes())?;
        Ok(true)
    }

    /// Puts the number of each alignment.
    fn put_alignments(&mut self, alignments: &[Alignment]) -> Result<(), AllocError>
        ensures bytes { OnOk result (self.new.bytes.items
            ≡ self.old.bytes.items ++ map alignment_code alignments.now) }
        ensures others { self.new.others ≡ self.old.others }
    {
        for alignment in alignments {
            self.bytes.push(alignment_number(*alignment))?;
        }
        Ok(())
    }

    /// Puts the start of a table; whether the event is one.
    fn put_table(&mut self, event: &Event<'_>) -> Result<bool, AllocError>
        ensures done { IfOk result (λ done. done ≡ true
            → Adds self.old self.new (event_view text_of event.now)) }
        ensures not_done { IfOk result (λ done. done ≡ false → self.new ≡ self.old) }
    {
        let Some(alignments) = alignments_of(event) else {
            return Ok(false);
        };
        self.put_mark(TABLE)?;
        self.put_alignments(alignments)?;
        self.put_bytes(&[SIGN])?;
        Ok(true)
    }

    /// Puts a link or an image, if it can be among the bytes; whether it is.
    fn put_linked(&mut self, event: &Event<'_>) -> Result<bool, AllocError>
        ensures done { IfOk result (λ done. done ≡ true
            → Adds self.old self.new (event_view text_of event.now)) }
        ensures not_done { IfOk result (λ done. done ≡ false → self.new ≡ self.old) }
    {
        let Some(link) = link_of(event) else {
            return Ok(false);
        };
        if !can_stand(link.destination) {
            return Ok(false);
        }
        if !can_stand(link.title) {
            return Ok(false);
        }
        if !can_stand(link.label) {
            return Ok(false);
        }
        self.put_word(link.mark, link.destination.as_bytes())?;
        self.put_text(link.title.as_bytes())?;
        self.put_text(link.label.as_bytes())?;
        Ok(true)
    }

    fn put_other(&mut self, alloc: Global, event: &Event<'_>) -> Result<(), AllocError>
        ensures bytes { self.new.bytes ≡ self.old.bytes }
        ensures others { OnOk result (map (event_view text_of) self.new.others.items
            ≡ map (event_view text_of) self.old.others.items
            ++ event_view text_of event.now ∷ []) }
    {
        let copy = event.to_static(alloc)?;
        self.others.push(copy)?;
        Ok(())
    }

    /// Puts an event.
    fn put(&mut self, alloc: Global, event: &Event<'_>) -> Result<(), AllocError>
        ensures { OnOk result (Adds self.old self.new (event_view text_of event.now)) }
    {
        if let Some(bytes) = bytes_of(event) {
            self.put_bytes(bytes)?;
            return Ok(());
        }
        if let Some(mark) = mark_of(event) {
            self.put_mark(mark)?;
            return Ok(());
        }
        if self.put_worded(event)? {
            return Ok(());
        }
        if self.put_table(event)? {
            return Ok(());
        }
        if self.put_linked(event)? {
            return Ok(());
        }
        self.put_mark(OTHER)?;
        self.put_other(alloc, event)?;
        Ok(())
    }

    /// The digest of no events. Further ones are added to it.
    pub fn new(alloc: Global) -> Digest
        ensures { SaysFirst result [] }
    {
        Digest {
            bytes: Vec::new(alloc),
            others: Vec::new(alloc),
        }
    }

    /// Adds what further events say. If memory runs out, the digest says some of it.
    pub fn add(
        &mut self,
        alloc: Global,
        events: &[(Event<'_>, (usize, usize))],
    ) -> Result<(), AllocError>
        ensures { OnOk result ((before : List EventView) → SaysFirst self.old before
            → SaysFirst self.new (before ++ given_events events.now)) }
    {
        for pair in events {
            self.put(alloc, &pair.0)?;
        }
        Ok(())
    }

    /// What a list of events says.
    pub fn of(alloc: Global, events: &[(Event<'_>, (usize, usize))]) -> Result<Digest, AllocError>
        ensures { IfOk result (λ digest. says digest ≡ merged (given_events events.now)) }
    {
        let mut digest = Digest::new(alloc);
        digest.add(alloc, events)?;
        Ok(digest)
    }

    /// Whether two digests are the same: then they say the same, with each longest stretch of texts as one.
    pub fn is_same(&self, other: &Digest) -> bool
        ensures { IsTrue result → says self.now ≡ says other.now }
    {
        if self.bytes.as_slice() == other.bytes.as_slice() {
            same_events(&self.others, &other.others)
        } else {
            false
        }
    }

    /// Where each tree at the top ends.
    pub fn tree_ends(&self, alloc: Global) -> Result<Vec<TreeEnd>, AllocError> {
        let mut ends = Vec::new(alloc);
        let mut walk = Walk {
            next: Next::Text,
            depth: 0,
            other: 0,
        };
        for (at, byte) in self.bytes.iter().enumerate() {
            if walk.take(*byte, &self.others) {
                ends.push(TreeEnd {
                    byte: at.saturating_add(1),
                    other: walk.other,
                })?;
            }
        }
        Ok(ends)
    }

    /// What some trees say, from one number to another: their bytes and their other events.
    fn trees(&self, ends: &[TreeEnd], trees: (usize, usize)) -> (&[u8], &[Event<'static>]) {
        let first = end_before(ends, trees.0);
        let past = end_before(ends, trees.1);
        (
            self.bytes.get(first.byte..past.byte).unwrap_or(&[]),
            self.others.get(first.other..past.other).unwrap_or(&[]),
        )
    }

    /// Whether some trees say the same as some of another digest, where `ends` and `other_ends` say where trees end.
    pub fn has_same_trees(
        &self,
        ends: &[TreeEnd],
        trees: (usize, usize),
        other: &Digest,
        other_ends: &[TreeEnd],
        other_trees: (usize, usize),
    ) -> bool {
        let (bytes, events) = self.trees(ends, trees);
        let (other_bytes, other_events) = other.trees(other_ends, other_trees);
        bytes == other_bytes && same_events(events, other_events)
    }
}
