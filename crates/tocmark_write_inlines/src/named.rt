//! For which links and images the id is in place of the body.

ghost use Rattle.std.specs.Prelude.{◌≡◌, ◌<◌, ◌-◌, ◌+◌, ◌++◌, ◌∷◌, [], ℕ, List, Option, codes, drop, length, map, string_bytes, take, IfOk};
ghost use Rattle.std.specs.List.{list_any};
ghost use Rattle.tocmark_write_pending.specs.Ahead.{body_in, is_named_by_id, reads_back};
ghost use Rattle.tocmark_event.specs.Merged.{merged};
ghost use Rattle.tocmark_event.specs.Options.{OptionsView};
ghost use Rattle.tocmark_event.specs.Text.{text_of};
ghost use Rattle.tocmark_event.specs.View.{End, SourcedEvent, Start, TagView, end_of, event_view, tag_view, unsourced};
ghost use Rattle.tocmark_event.specs.declared.event.TagEnd.TheVariants as end;
ghost use Rattle.tocmark_write_inlines.specs.Named.{asks_reader, begins_link, is_named, mark_of, may_be_named, starts_image, starts_link, starts_paragraph, AreNamed};
ghost use Rattle.tocmark_spelling.specs.Buffered.{buffered_view};
ghost use Rattle.tocmark_spelling.specs.ById.{goes_by_id, is_one_link, is_same_kind};
ghost use Rattle.tocmark_spelling.specs.PlanOf.{setting_of};
ghost use Rattle.tocmark_spelling.specs.SameEvents.{same_events};
ghost use Rattle.tocmark_spelling.specs.Spelling.{id_of};
ghost use Rattle.tocmark_spelling.specs.Scans.{AreEnds};

use crate::links::id_of;
use std::alloc::{AllocError, Global};
use tocmark_compare::alike::alike;
use tocmark_event::event::{Event, EventOf, LinkType, OwnedEvent, ParserOptions, TagEnd, TagOf};
use tocmark_event::reader::Reader;
use tocmark_spelling::buffered::BufferedEvent;
use tocmark_write_pending::ends::body_end;

/// Whether the id of a link or image of this type may be in place of its body.
fn goes_by_id(kind: LinkType) -> bool
    ensures { result ≡ goes_by_id kind }
{
    match kind {
        LinkType::Collapsed => true,
        LinkType::Shortcut => true,
        _ => false,
    }
}

fn may_be_named(tag: &TagOf<String>) -> bool
    ensures { result ≡ may_be_named (tag_view string_bytes tag.now) }
{
    match tag {
        TagOf::Link { link_type, .. } => goes_by_id(*link_type),
        TagOf::Image { link_type, .. } => goes_by_id(*link_type),
        _ => false,
    }
}

fn asks_reader(event: &BufferedEvent) -> bool
    ensures { result ≡ asks_reader (buffered_view event.now) }
{
    match &event.event {
        EventOf::Start(tag) => may_be_named(tag),
        _ => false,
    }
}

/// Whether some event starts a link or image whose id may be in place of its body.
fn ask_reader(events: &[BufferedEvent]) -> bool
    ensures { result ≡ list_any asks_reader (map buffered_view events.now) }
{
    for event in events {
        if asks_reader(event) {
            return true;
        }
    }
    false
}

fn starts_paragraph(event: &Event<'_>) -> bool
    ensures { result ≡ starts_paragraph (event_view text_of event.now) }
{
    matches!(event, EventOf::Start(TagOf::Paragraph))
}

fn starts_link(event: &Event<'_>) -> bool
    ensures { result ≡ starts_link (event_view text_of event.now) }
{
    matches!(event, EventOf::Start(TagOf::Link { .. }))
}

fn starts_image(event: &Event<'_>) -> bool
    ensures { result ≡ starts_image (event_view text_of event.now) }
{
    matches!(event, EventOf::Start(TagOf::Image { .. }))
}

/// Whether an event starts a link, or an image, as the tag does.
fn is_same_kind(tag: &TagOf<String>, event: &Event<'_>) -> bool
    ensures { result ≡ is_same_kind (tag_view string_bytes tag.now) (event_view text_of event.now) }
{
    match tag {
        TagOf::Link { .. } => starts_link(event),
        TagOf::Image { .. } => starts_image(event),
        _ => false,
    }
}

/// Whether what was found after the start of a link or image is this body, and the ends of the link
/// or image and of a paragraph.
fn ends_link(
    found: &[(Event<'_>, (usize, usize))],
    tag: &TagOf<String>,
    body: &[BufferedEvent],
) -> bool
    ensures { result ≡ same_events (merged (map (λ e. event_view text_of e.0) found.now))
        (merged (map unsourced (map buffered_view body.now))
        ++ End (end_of (tag_view string_bytes tag.now)) ∷ End end.Paragraph ∷ []) }
{
    let ends: [OwnedEvent; 2] = [EventOf::End(tag.to_end()), EventOf::End(TagEnd::Paragraph)];
    alike(found, body, &ends)
}

/// Whether a paragraph starts, and in it a link, or an image, as the tag does.
fn begins_link(found: &[(Event<'_>, (usize, usize))], tag: &TagOf<String>) -> bool
    ensures { result ≡ begins_link (tag_view string_bytes tag.now)
        (map (λ e. event_view text_of e.0) found.now) }
{
    match found {
        [paragraph, link, ..] => starts_paragraph(&paragraph.0) && is_same_kind(tag, &link.0),
        _ => false,
    }
}

/// Whether what was found is a paragraph whose only child is a link (an image) round this body.
fn is_one_link(
    found: &[(Event<'_>, (usize, usize))],
    tag: &TagOf<String>,
    body: &[BufferedEvent],
) -> bool
    ensures { result ≡ is_one_link (tag_view string_bytes tag.now)
        (merged (map unsourced (map buffered_view body.now)))
        (merged (map (λ e. event_view text_of e.0) found.now)) }
{
    if found.len() < 2 {
        return false;
    }
    if !begins_link(found, tag) {
        return false;
    }
    ends_link(&found[2..], tag, body)
}

/// What is before the brackets of an image; nothing for a link.
fn mark_of(tag: &TagOf<String>) -> &'static str
    ensures { result.now ≡ mark_of (tag_view string_bytes tag.now) }
{
    match tag {
        TagOf::Image { .. } => "!",
        _ => "",
    }
}

/// A link or image with this id for its text.
fn link_text(alloc: Global, mark: &str, id: &str) -> Result<String, AllocError>
    ensures { IfOk result (λ text. string_bytes text
        ≡ mark.now ++ codes "[" ++ id.now ++ codes "](cmark-label)") }
{
    let mut text = String::from_str(alloc, mark)?;
    text.push_str("[")?;
    text.push_str(id)?;
    text.push_str("](cmark-label)")?;
    Ok(text)
}

/// Whether the reader finds just this body in the id of a link or image.
fn reads_back<R: Reader>(
    alloc: Global,
    reader: &R,
    flags: ParserOptions,
    tag: &TagOf<String>,
    body: &[BufferedEvent],
) -> Result<bool, AllocError>
    ensures { let t = tag_view string_bytes tag.now in
        (o : OptionsView) (label : Option (List ℕ)) → IfOk result (λ b. b
        ≡ reads_back (setting_of o flags (R.reading reader.now) label) (mark_of t) t (id_of t)
        (map buffered_view body.now)) }
{
    let text = link_text(alloc, mark_of(tag), id_of(tag))?;
    let reading = reader.read(alloc, text.as_str(), flags)?;
    Ok(is_one_link(&reading.events, tag, body))
}

/// Whether the id of a container is in place of this body. Only one that may be named asks the
/// reader.
fn is_named_by_id<R: Reader>(
    alloc: Global,
    reader: &R,
    flags: ParserOptions,
    tag: &TagOf<String>,
    body: &[BufferedEvent],
) -> Result<bool, AllocError>
    ensures { (o : OptionsView) (label : Option (List ℕ)) → IfOk result (λ b. b
        ≡ is_named_by_id (setting_of o flags (R.reading reader.now) label)
        (tag_view string_bytes tag.now) (map buffered_view body.now)) }
{
    if may_be_named(tag) {
        reads_back(alloc, reader, flags, tag, body)
    } else {
        Ok(false)
    }
}

/// Whether an event starts a link or image whose id is in place of its body, which is this.
fn is_named<R: Reader>(
    alloc: Global,
    reader: &R,
    flags: ParserOptions,
    event: &BufferedEvent,
    body: &[BufferedEvent],
) -> Result<bool, AllocError>
    ensures { (o : OptionsView) (label : Option (List ℕ)) (rest : List SourcedEvent)
        → ((t : TagView) → buffered_view event.now ≡ Start t
        → map buffered_view body.now ≡ body_in rest)
        → IfOk result (λ b. b ≡ is_named (setting_of o flags (R.reading reader.now) label)
        (buffered_view event.now ∷ rest)) }
{
    match &event.event {
        EventOf::Start(tag) => is_named_by_id(alloc, reader, flags, tag, body),
        _ => Ok(false),
    }
}

/// What follows a place of a unit.
fn rest_of(events: &[BufferedEvent], start: usize) -> &[BufferedEvent]
    ensures { result.now ≡ drop start events.now }
{
    if start <= events.len() {
        &events[start..]
    } else {
        &[]
    }
}

/// The first events, so many of them; all where there are fewer.
fn first_of(events: &[BufferedEvent], width: usize) -> &[BufferedEvent]
    ensures { result.now ≡ take width events.now }
{
    if width <= events.len() {
        &events[..width]
    } else {
        events
    }
}

/// The body of the container that starts at a place of a unit, given where its containers end.
fn body_behind<'e>(
    events: &'e [BufferedEvent],
    ends: &[Option<usize>],
    i: usize,
) -> &'e [BufferedEvent]
    requires at { i < length events.now }
    requires ends { AreEnds (map buffered_view events.now) ends.now }
    ensures { (t : TagView) (rest : List SourcedEvent)
        → drop i (map buffered_view events.now) ≡ Start t ∷ rest
        → map buffered_view result.now ≡ body_in rest }
{
    let width = body_end(ends, i).saturating_sub(i + 1);
    first_of(rest_of(events, i + 1), width)
}

/// Whether at a place of a unit a link or image starts whose id is in place of its body.
fn is_named_at<R: Reader>(
    alloc: Global,
    reader: &R,
    flags: ParserOptions,
    events: &[BufferedEvent],
    ends: &[Option<usize>],
    i: usize,
) -> Result<bool, AllocError>
    requires at { i < length events.now }
    requires ends { AreEnds (map buffered_view events.now) ends.now }
    ensures { (o : OptionsView) (label : Option (List ℕ)) → IfOk result (λ b. b
        ≡ is_named (setting_of o flags (R.reading reader.now) label)
        (drop i (map buffered_view events.now))) }
{
    let body = body_behind(events, ends, i);
    is_named(alloc, reader, flags, &events[i], body)
}

/// For each event whether it starts a link or image whose id is in place of its body, given where
/// the containers end. It is empty where the reader needn't be asked.
///
/// It fails if memory runs out, here or in the reader.
pub fn named<R: Reader>(
    alloc: Global,
    reader: &R,
    flags: ParserOptions,
    events: &[BufferedEvent],
    ends: &[Option<usize>],
) -> Result<Vec<bool>, AllocError>
    requires ends { AreEnds (map buffered_view events.now) ends.now }
    ensures { IfOk result (λ found. AreNamed (R.reading reader.now) flags
        (map buffered_view events.now) found.items) }
{
    let mut found = Vec::new(alloc);
    if !ask_reader(events) {
        return Ok(found);
    }
    let mut i = 0usize;
    while i < events.len() {
        found.push(is_named_at(alloc, reader, flags, events, ends, i)?)?;
        i += 1;
    }
    Ok(found)
}
