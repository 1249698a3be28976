//! Changes of events that filters make. Each is safe on every list; whether the result can be written
//! `rewritten` says.

ghost use Rattle.std.specs.Prelude.{◌≡◌, false, map};
ghost use Rattle.tocmark_event.specs.Text.{text_of};
ghost use Rattle.tocmark_event.specs.View.{event_view, tag_view};
ghost use Rattle.tocmark_rewrite.specs.Edits.{is_on_one_line, is_open_behind, joined_event, joined_line, joined_lines, leading_to, leads_elsewhere, level_of, number_of, shifted, tag_with_destination, with_destination, with_level, with_own_text, with_text, without_address};

use tocmark_event::event::{CowStr, Event, HeadingLevel, LinkType, Tag, TagEnd};

/// Where headings are moved, and how many levels.
#[derive(Clone, Copy, Debug, PartialEq, Eq)]
pub enum Shift {
    /// So many `#` more; six at most.
    Down(u8),
    /// So many `#` less; one at least.
    Up(u8),
}

/// The type of a link that isn't its own address.
fn without_address(link_type: LinkType) -> LinkType
    ensures { result ≡ without_address link_type }
{
    match link_type {
        LinkType::Autolink => LinkType::Inline,
        LinkType::Email => LinkType::Inline,
        other => other,
    }
}

/// Whether a tag is a link to somewhere else.
fn leads_elsewhere(tag: &Tag<'static>, destination: &str) -> bool
    ensures { result ≡ leads_elsewhere destination.now (tag_view text_of tag.now) }
{
    match tag {
        Tag::Link { dest_url, .. } => dest_url.as_ref() != destination,
        _ => false,
    }
}

/// Makes an autolink or an e-mail link an inline link.
fn give_text(tag: &mut Tag<'static>)
    ensures { tag_view text_of tag.new ≡ with_own_text (tag_view text_of tag.old) }
{
    match tag {
        Tag::Link { link_type, .. } => *link_type = without_address(*link_type),
        _ => {}
    }
}

/// Gives a link's or an image's tag another destination.
pub fn lead_to(tag: &mut Tag<'static>, destination: CowStr<'static>)
    ensures { tag_view text_of tag.new
        ≡ leading_to (text_of destination.entry) (tag_view text_of tag.old) }
{
    match tag {
        Tag::Link { dest_url, .. } => *dest_url = destination,
        Tag::Image { dest_url, .. } => *dest_url = destination,
        _ => drop(destination),
    }
}

/// Gives a link's or an image's tag another destination, and its type with it.
fn set_in_tag(tag: &mut Tag<'static>, destination: CowStr<'static>)
    ensures { tag_view text_of tag.new
        ≡ tag_with_destination (text_of destination.entry) (tag_view text_of tag.old) }
{
    if leads_elsewhere(tag, destination.as_ref()) {
        give_text(tag);
    }
    lead_to(tag, destination);
}

/// Gives a link or an image another destination; any other event stays as it is.
///
/// An autolink or an e-mail link, which is written as its address alone, becomes an inline link, unless
/// the destination is the one that it has. A link by a label keeps its label: the destination of the
/// label's definition is written anew, so all links with that label are to get the same one.
///
/// ```
/// set_destination(event, CowStr::Borrowed("https://example.org"));
/// ```
pub fn set_destination(event: &mut Event<'static>, destination: CowStr<'static>)
    ensures { event_view text_of event.new
        ≡ with_destination (text_of destination.entry) (event_view text_of event.old) }
{
    match event {
        Event::Start(tag) => set_in_tag(tag, destination),
        _ => drop(destination),
    }
}

/// Gives a text or a code span another text; any other event stays as it is. An empty text is read by
/// no reader: `rewritten` refuses it.
pub fn set_text(event: &mut Event<'static>, text: CowStr<'static>)
    ensures { event_view text_of event.new
        ≡ with_text (text_of text.entry) (event_view text_of event.old) }
{
    match event {
        Event::Text(old) => *old = text,
        Event::Code(old) => *old = text,
        _ => drop(text),
    }
}

/// How many `#` a heading of this level has.
pub fn number_of(level: HeadingLevel) -> usize
    ensures { result ≡ number_of level }
{
    match level {
        HeadingLevel::H1 => 1,
        HeadingLevel::H2 => 2,
        HeadingLevel::H3 => 3,
        HeadingLevel::H4 => 4,
        HeadingLevel::H5 => 5,
        HeadingLevel::H6 => 6,
    }
}

fn level_of(number: usize) -> HeadingLevel
    ensures { result ≡ level_of number }
{
    if number <= 1 {
        HeadingLevel::H1
    } else if number <= 2 {
        HeadingLevel::H2
    } else if number <= 3 {
        HeadingLevel::H3
    } else if number <= 4 {
        HeadingLevel::H4
    } else if number <= 5 {
        HeadingLevel::H5
    } else {
        HeadingLevel::H6
    }
}

/// A level that is moved; not above the first nor below the sixth.
pub fn shifted(level: HeadingLevel, shift: Shift) -> HeadingLevel
    ensures { result ≡ shifted shift level }
{
    match shift {
        Shift::Down(levels) => level_of(number_of(level) + usize::from(levels)),
        Shift::Up(levels) => level_of(number_of(level).saturating_sub(usize::from(levels))),
    }
}

/// Moves an event if it begins or ends a heading.
fn shift_heading(event: &mut Event<'static>, shift: Shift)
    ensures { event_view text_of event.new ≡ with_level shift (event_view text_of event.old) }
{
    match event {
        Event::Start(Tag::Heading { level, .. }) => *level = shifted(*level, shift),
        Event::End(TagEnd::Heading(level)) => *level = shifted(*level, shift),
        _ => {}
    }
}

/// Moves each heading of a list by so many levels, but not above the first nor below the sixth. The
/// ranges and all other events stay as they are.
///
/// ```
/// shift_headings(&mut reading.events, Shift::Down(1));
/// ```
pub fn shift_headings(events: &mut [(Event<'static>, (usize, usize))], shift: Shift)
    ensures { map (λ e. event_view text_of e.0) events.new
        ≡ map (λ e. with_level shift (event_view text_of e.0)) events.old }
{
    for (event, _range) in events.iter_mut() {
        shift_heading(event, shift);
    }
}

/// Whether a heading of this level is on one line.
fn is_on_one_line(level: HeadingLevel) -> bool
    ensures { result ≡ is_on_one_line level }
{
    number_of(level) > 2
}

/// Whether a heading on one line is open after an event, by whether one is before it.
fn is_open_behind(is_open: bool, event: &Event<'_>) -> bool
    ensures { result ≡ is_open_behind is_open (event_view text_of event.now) }
{
    match event {
        Event::Start(Tag::Heading { level, .. }) => is_on_one_line(*level),
        Event::End(TagEnd::Heading(_)) => false,
        _ => is_open,
    }
}

/// Puts a space in place of a line break.
fn join_line(event: &mut Event<'static>)
    ensures { event_view text_of event.new ≡ joined_line (event_view text_of event.old) }
{
    match event {
        Event::SoftBreak => *event = Event::Text(CowStr::Borrowed(" ")),
        Event::HardBreak => *event = Event::Text(CowStr::Borrowed(" ")),
        _ => {}
    }
}

/// Puts a space in place of a line break in a heading on one line. Returns whether one is open after the event.
fn join_event(event: &mut Event<'static>, is_open: bool) -> bool
    ensures event { event_view text_of event.new
        ≡ joined_event is_open (event_view text_of event.old) }
    ensures open { result ≡ is_open_behind is_open (event_view text_of event.old) }
{
    let opens = is_open_behind(is_open, event);
    if is_open {
        join_line(event);
    }
    opens
}

/// Joins the lines of each heading of level 3 to 6: a space takes the place of each line break. Markdown has headings of
/// several lines at levels 1 and 2 only, so `rewritten` refuses a deeper one with a line break.
///
/// ```
/// shift_headings(&mut reading.events, Shift::Down(1));
/// join_heading_lines(&mut reading.events);
/// ```
pub fn join_heading_lines(events: &mut [(Event<'static>, (usize, usize))])
    ensures { map (λ e. event_view text_of e.0) events.new
        ≡ joined_lines false (map (λ e. event_view text_of e.0) events.old) }
{
    let mut is_open = false;
    for (event, _range) in events.iter_mut() {
        is_open = join_event(event, is_open);
    }
}
