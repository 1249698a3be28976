//! The events of a line, with its addresses as links.

ghost use Rattle.std.specs.Prelude.{◌≡◌, ◌++◌, ◌∷◌, [], map, IfOk, OnOk};
ghost use Rattle.tocmark_event.specs.Text.{text_of};
ghost use Rattle.tocmark_event.specs.View.{Leaf, Text, event_view, tag_view};
ghost use Rattle.tocmark_bare_links.specs.Lines.{bracket_told, line_added, line_ended, link_events, link_tag, link_type, part, range_at, scan_before, scan_step, scan_view, scheme, shown, text_events, with_link, word_ended};

use crate::address::Kind;
use crate::words::{Spot, Words, is_separator};
use std::alloc::{AllocError, Global};
use tocmark_event::event::{CowStr, Event, LinkType, Tag, TagEnd};
use tocmark_read_scan::basic::bytes_between;

/// An event beside its bytes in the text.
pub(crate) type Placed = (Event<'static>, (usize, usize));

/// The words of a line so far, and the events so far.
#[derive(Drop)]
pub struct Scan {
    pub words: Words,
    pub events: Vec<Placed>,
}

/// A part of a text.
#[tactic(auto, unfolding(crate::specs::Lines::part))]
pub(crate) fn part(
    alloc: Global,
    text: &[u8],
    start: usize,
    end: usize,
) -> Result<CowStr<'static>, AllocError>
    ensures { IfOk result (λ it. text_of it ≡ part text.now start end) }
{
    let bytes = bytes_between(text, start, end);
    Ok(CowStr::Owned(String::from_utf8_lossy(alloc, bytes)?))
}

/// How the link of an address is spelled between angle brackets.
fn link_type(kind: Kind) -> LinkType
    ensures { result ≡ link_type kind }
{
    match kind {
        Kind::Web | Kind::Named => LinkType::Autolink,
        Kind::Mail => LinkType::Email,
    }
}

/// Where the link of an address leads.
fn destination(alloc: Global, kind: Kind, address: &str) -> Result<CowStr<'static>, AllocError>
    ensures { IfOk result (λ it. text_of it ≡ scheme kind ++ address.now) }
{
    let mut whole = String::new(alloc);
    if let Kind::Named = kind {
        whole.push_str("http://")?;
    }
    whole.push_str(address)?;
    Ok(CowStr::Owned(whole))
}

/// The start of a link to an address.
fn link_tag(alloc: Global, kind: Kind, address: &str) -> Result<Tag<'static>, AllocError>
    ensures { IfOk result (λ tag. tag_view text_of tag ≡ link_tag kind address.now) }
{
    Ok(Tag::Link {
        link_type: link_type(kind),
        dest_url: destination(alloc, kind, address)?,
        title: CowStr::Borrowed(""),
        id: CowStr::Borrowed(""),
    })
}

/// The range of a part of a text that is at a place.
fn range_at(base: usize, start: usize, end: usize) -> (usize, usize)
    ensures { result ≡ range_at base start end }
{
    (base.saturating_add(start), base.saturating_add(end))
}

/// Adds a text.
fn push_text(
    events: &mut Vec<Placed>,
    text: CowStr<'static>,
    range: (usize, usize),
) -> Result<(), AllocError>
    ensures { OnOk result (map shown events.new.items
        ≡ map shown events.old.items ++ (Leaf (Text (text_of text.entry)), range) ∷ []) }
{
    events.push((Event::Text(text), range))?;
    Ok(())
}

/// Adds a part of a text, if there is one.
#[tactic(auto, unfolding(crate::specs::Lines::text_events))]
pub(crate) fn add_text(
    alloc: Global,
    events: &mut Vec<Placed>,
    text: &[u8],
    base: usize,
    start: usize,
    end: usize,
) -> Result<(), AllocError>
    ensures { OnOk result (map shown events.new.items
        ≡ map shown events.old.items ++ text_events text.now base start end) }
{
    if start < end {
        let text = part(alloc, text, start, end)?;
        return push_text(events, text, range_at(base, start, end));
    }
    Ok(())
}

/// Adds a link to an address.
#[tactic(auto, unfolding(crate::specs::Lines::link_events))]
fn add_link(
    alloc: Global,
    events: &mut Vec<Placed>,
    text: &[u8],
    base: usize,
    spot: Spot,
) -> Result<(), AllocError>
    ensures { OnOk result (map shown events.new.items
        ≡ map shown events.old.items ++ link_events text.now base spot) }
{
    let range = range_at(base, spot.start, spot.end);
    let address = part(alloc, text, spot.start, spot.end)?;
    let tag = link_tag(alloc, spot.kind, address.as_ref())?;
    events.push((Event::Start(tag), range))?;
    push_text(events, address, range)?;
    events.push((Event::End(TagEnd::Link), range))?;
    Ok(())
}

impl Scan {
    /// Adds the text up to an address, and its link.
    fn link(
        &mut self,
        alloc: Global,
        text: &[u8],
        base: usize,
        spot: Spot,
    ) -> Result<(), AllocError>
        ensures { OnOk result (scan_view self.new
            ≡ with_link text.now base (scan_view self.old) (Some spot)) }
    {
        let linked = self.words.linked;
        add_text(alloc, &mut self.events, text, base, linked, spot.start)?;
        add_link(alloc, &mut self.events, text, base, spot)?;
        self.words.linked = spot.end;
        Ok(())
    }

    /// Ends a word.
    #[tactic(auto, unfolding(crate::specs::Lines::word_ended))]
    fn end_word(&mut self, alloc: Global, text: &[u8], base: usize) -> Result<(), AllocError>
        ensures { OnOk result (scan_view self.new
            ≡ word_ended text.now base (scan_view self.old)) }
    {
        match self.words.spot(text) {
            Some(spot) => self.link(alloc, text, base, spot),
            None => Ok(()),
        }
    }

    /// Adds the text up to here, and a mark, because an address is within brackets here.
    #[tactic(auto, unfolding(crate::specs::Lines::bracket_told))]
    fn tell_bracket(&mut self, alloc: Global, text: &[u8], base: usize) -> Result<(), AllocError>
        ensures { OnOk result (scan_view self.new
            ≡ bracket_told text.now base (scan_view self.old)) }
    {
        let (linked, place) = (self.words.linked, self.words.place);
        add_text(alloc, &mut self.events, text, base, linked, place)?;
        push_text(
            &mut self.events,
            CowStr::Borrowed("["),
            range_at(base, place, place),
        )?;
        self.words.linked = place;
        Ok(())
    }

    /// Ends a word before a byte that ends one, and marks an address within brackets.
    #[tactic(auto, unfolding(crate::specs::Lines::scan_before))]
    fn come_to(
        &mut self,
        alloc: Global,
        text: &[u8],
        base: usize,
        byte: u8,
    ) -> Result<(), AllocError>
        ensures { OnOk result (scan_view self.new
            ≡ scan_before text.now base (scan_view self.old) byte) }
    {
        if is_separator(byte) {
            self.end_word(alloc, text, base)
        } else if self.words.is_within_brackets(text) {
            self.tell_bracket(alloc, text, base)
        } else {
            Ok(())
        }
    }

    /// Goes one byte further.
    #[tactic(auto, unfolding(crate::specs::Lines::scan_step))]
    fn add(&mut self, alloc: Global, text: &[u8], base: usize, byte: u8) -> Result<(), AllocError>
        ensures { OnOk result (scan_view self.new
            ≡ scan_step text.now base (scan_view self.old) byte) }
    {
        self.come_to(alloc, text, base, byte)?;
        self.words = self.words.after(text, byte);
        Ok(())
    }

    /// Adds what is left of a line, after the last byte.
    #[tactic(auto, unfolding(crate::specs::Lines::line_ended))]
    fn end_line(
        &mut self,
        alloc: Global,
        text: &[u8],
        base: usize,
        ends: bool,
    ) -> Result<(), AllocError>
        ensures { OnOk result (scan_view self.new
            ≡ line_ended text.now base ends (scan_view self.old)) }
    {
        if ends {
            self.end_word(alloc, text, base)?;
        }
        let linked = self.words.linked;
        add_text(alloc, &mut self.events, text, base, linked, text.len())
    }

    /// Adds a line whose text is at a place.
    #[tactic(auto, unfolding(crate::specs::Lines::line_added))]
    pub(crate) fn add_line(
        &mut self,
        alloc: Global,
        text: &[u8],
        base: usize,
        opens: bool,
        ends: bool,
    ) -> Result<(), AllocError>
        ensures { OnOk result (scan_view self.new
            ≡ line_added text.now base opens ends (scan_view self.old)) }
    {
        self.words = Words::new(opens, self.words.brackets);
        for byte in text {
            self.add(alloc, text, base, *byte)?;
        }
        self.end_line(alloc, text, base, ends)
    }
}
