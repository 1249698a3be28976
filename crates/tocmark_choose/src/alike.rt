//! Whether a unit's texts are spelled alike in the source and escaped.

ghost use Rattle.std.specs.Prelude.{◌≡◌, map, false, string_bytes, true, Some};
ghost use Rattle.std.specs.List.{list_all};
ghost use Rattle.tocmark_event.specs.View.{tag_view};
ghost use Rattle.tocmark_spelling.specs.Buffered.{buffered_view};
ghost use Rattle.tocmark_write_texts.specs.Bare.{is_bare};
ghost use Rattle.tocmark_write_texts.specs.Characters.{greater_than};
ghost use Rattle.tocmark_write_texts.specs.Leaves.{last_is};
ghost use Rattle.tocmark_choose.specs.Alike.{AreAlike, IsAlike, IsEventAlike, closed_at, has_bare_front, is_front_mark, is_line_mark, is_link, is_link_end, is_plain, is_within, place_after, raw_after};
ghost use Rattle.tocmark_choose.specs.declared.alike.Place.TheVariants.{Front};

use tocmark_event::event::{EventOf, TagEnd, TagOf};
use tocmark_spelling::buffered::BufferedEvent;
use tocmark_spelling::kinds::is_raw_tag;

/// Where the next event is written, as far as the events before it tell.
#[derive(Clone, Copy)]
enum Place {
    /// Perhaps at the front of a line or of a container.
    Front,
    /// Where no line feed is owed.
    Settled,
    /// Inside a line, after code, HTML, a footnote's label, a link or an image.
    Within,
}

// Each mark is at its own place, and a comma at every other place.
static MARKS: [u8; 256] = *b"\
    ,,,,,,,,,,\n,,\r,,,,,,,,,,,,,,,,,,\
    ,!,#$,&,,,*,,,,,,,,,,,,,,,,,<,,,\
    ,,,,,,,,,,,,,,,,,,,,,,,,,,,[\\]^_\
    `,,,,,,,,,,,,,,,,,,,,,,,,,,{|,~,\
    ,,,,,,,,,,,,,,,,,,,,,,,,,,,,,,,,\
    ,,,,,,,,,,,,,,,,,,,,,,,,,,,,,,,,\
    ,,,,,,,,,,,,,,,,,,,,,,,,,,,,,,,,\
    ,,,,,,,,,,,,,,,,,,,,,,,,,,,,,,,,";

/// Whether a byte after another character is no part of a marker, and isn't written as a reference.
fn is_bare(byte: u8) -> bool
    ensures { result ≡ is_bare byte }
{
    MARKS[byte as usize] == b','
}

fn are_bare(text: &[u8]) -> bool
    ensures { result ≡ list_all is_bare text.now }
{
    text.iter().all(|byte| is_bare(*byte))
}

/// Whether a byte at a text's front could be a marker wherever the text is.
fn is_front_mark(byte: u8) -> bool
    ensures { result ≡ is_front_mark byte }
{
    byte.is_ascii_digit() || byte == b'>'
}

/// Whether a byte could begin a block at the front of a line, or is written as a reference there.
fn is_line_mark(byte: u8) -> bool
    ensures { result ≡ is_line_mark byte }
{
    matches!(byte, b'\t' | b' ' | b'-' | b'+' | b'=' | b':')
}

/// Whether a text begins with no such byte. `within` says whether it is inside a line.
fn has_bare_front(within: bool, text: &[u8]) -> bool
    ensures { result ≡ has_bare_front within text.now }
{
    match text.first() {
        None => true,
        Some(first) => !is_front_mark(*first) && (within || !is_line_mark(*first)),
    }
}

/// Whether a text is escaped as it is.
fn is_plain(within: bool, text: &[u8]) -> bool
    ensures { result ≡ is_plain within text.now }
{
    has_bare_front(within, text) && are_bare(text)
}

/// Whether a text is spelled alike in its source and escaped.
fn is_alike(within: bool, text: &str, source: &str) -> bool
    ensures { result ≡ true → IsAlike within text.now (Some source.now) }
{
    source == text && is_plain(within, text.as_bytes())
}

/// Whether an event's text is spelled alike in its source and escaped. `raw` says whether the event is
/// in a container whose texts are written as they are.
fn is_event_alike(raw: bool, within: bool, event: &BufferedEvent) -> bool
    ensures { result ≡ true → IsEventAlike raw within (buffered_view event.now) }
{
    if raw {
        return true;
    }
    match &event.event {
        EventOf::Text(text) => match &event.source {
            Some(source) => is_alike(within, text.as_str(), source.as_str()),
            None => true,
        },
        _ => true,
    }
}

/// Whether the texts after an event are written as they are.
fn raw_after(raw: bool, event: &BufferedEvent) -> bool
    ensures { result ≡ raw_after raw (buffered_view event.now) }
{
    match &event.event {
        EventOf::Start(tag) => is_raw_tag(tag),
        EventOf::End(_) => false,
        _ => raw,
    }
}

fn is_link(tag: &TagOf<String>) -> bool
    ensures { result ≡ is_link (tag_view string_bytes tag.now) }
{
    matches!(tag, TagOf::Link { .. } | TagOf::Image { .. })
}

fn is_link_end(tag: TagEnd) -> bool
    ensures { result ≡ is_link_end tag }
{
    matches!(tag, TagEnd::Link | TagEnd::Image)
}

fn is_within(place: Place) -> bool
    ensures { result ≡ is_within place }
{
    matches!(place, Place::Within)
}

/// Where the next event is after the end of a link or an image.
fn closed_at(place: Place) -> Place
    ensures { result ≡ closed_at place }
{
    match place {
        Place::Front => Place::Front,
        Place::Settled => Place::Within,
        Place::Within => Place::Within,
    }
}

#[tactic(auto, using(tocmark_write_texts::proofs::SpanLemmas::last_is_at))]
fn ends_tag(text: &str) -> bool
    ensures { result ≡ last_is greater_than text.now }
{
    match text.as_bytes().last() {
        Some(last) => *last == b'>',
        None => false,
    }
}

/// Where the next event is after this one.
fn place_after(place: Place, event: &BufferedEvent) -> Place
    ensures { result ≡ place_after place (buffered_view event.now) }
{
    match &event.event {
        EventOf::Start(tag) => {
            if is_link(tag) {
                Place::Settled
            } else {
                Place::Front
            }
        }
        EventOf::End(tag) => {
            if is_link_end(*tag) {
                closed_at(place)
            } else {
                Place::Front
            }
        }
        EventOf::Text(_) => Place::Settled,
        EventOf::Code(_) => Place::Within,
        EventOf::FootnoteReference(_) => Place::Within,
        EventOf::InlineHtml(text) => {
            if ends_tag(text.as_str()) {
                Place::Within
            } else {
                Place::Front
            }
        }
        _ => Place::Front,
    }
}

/// Whether each text of a unit is spelled alike in its source and escaped.
pub(crate) fn are_alike(events: &[BufferedEvent]) -> bool
    ensures { result ≡ true → AreAlike false Front (map buffered_view events.now) }
{
    let mut raw = false;
    let mut place = Place::Front;
    for event in events {
        if !is_event_alike(raw, is_within(place), event) {
            return false;
        }
        raw = raw_after(raw, event);
        place = place_after(place, event);
    }
    true
}
