//! A stretch of texts: held while a further text follows, and written as a whole where it ends.

ghost use Rattle.std.specs.Prelude.{◌≡◌, string_bytes, not, unwrap_or, ◌==◌, IfOk, OnOk};
ghost use Rattle.std.specs.Option.{option_map};
ghost use Rattle.tocmark_event.specs.View.{event_view};
ghost use Rattle.tocmark_write_texts.specs.Escape.{place_of as escape_place};
ghost use Rattle.tocmark_spelling.specs.Buffered.{following_view};
ghost use Rattle.tocmark_spelling.specs.Kinds.{starts, is_emphasis_or_strong, and_is};
ghost use Rattle.tocmark_spelling.specs.Marker.{ends_delimiter};
ghost use Rattle.tocmark_spelling.specs.PlanOf.{stretch_place, shown};
ghost use Rattle.tocmark_spelling.specs.Runs.{end_width};
ghost use Rattle.tocmark_spelling.specs.Stretch.{both};
ghost use Rattle.tocmark_write_renderer.specs.JobOf.{options_in, text_in};
ghost use Rattle.tocmark_write_renderer.specs.WriterOf.{levels_of, page_of, held_view, longer, begun, held_after, Stands};
ghost use Rattle.tocmark_write_inlines.specs.Led.{held_or_shown, StandsAt};
ghost use Rattle.tocmark_write_inlines.specs.StretchOf.{stretch_view};

use crate::inline_leaf::{widen_by_text, write_inline};
use crate::leaf::Beside;
use std::alloc::{AllocError, Global};
use tocmark_event::event::{EventOf, OwnedEvent, TagEnd, TagOf};
use tocmark_spelling::buffered::BufferedEvent;
use tocmark_spelling::plan::TextSpelling;
use tocmark_spelling::trail::Last;
use tocmark_write_renderer::job::{Job, Manner};
use tocmark_write_renderer::parts::Held;
use tocmark_write_renderer::renderer::Renderer;
use tocmark_write_texts::escape::EscapeSurroundings;

/// Where a stretch of texts is.
fn place<'b>(
    renderer: &Renderer<'_>,
    job: Job<'_, '_>,
    text: TextSpelling,
    after_close: bool,
    next: Option<&'b OwnedEvent>,
) -> EscapeSurroundings<'b>
    ensures { escape_place result
        ≡ stretch_place (options_in job.entry) job.entry.flags text after_close
        (following_view next.entry) (levels_of renderer.now) (page_of renderer.now) }
{
    let outside = renderer.outside();
    EscapeSurroundings {
        flags: job.flags,
        token: job.options.emphasis_token,
        literal: text.is_literal(),
        first_encoded: text.has_entities() && after_close,
        last_encoded: text.has_entities() && starts_delimiter(next),
        at_front: renderer.is_at_front(),
        in_table: outside.in_table,
        in_heading: outside.in_heading,
        next,
    }
}

/// A whole stretch: one text, or what was held.
#[derive(Clone, Copy)]
struct Stretch<'t> {
    text: &'t str,
    source: Option<&'t str>,
    after_close: bool,
}

fn lent_source(source: &Option<String>) -> Option<&str>
    ensures { option_map (λ text. text.now) result ≡ option_map string_bytes source.now }
{
    match source {
        Some(text) => Some(text.as_str()),
        None => None,
    }
}

/// A text that is a stretch by itself, without a copy.
fn alone<'t>(
    text: &'t str,
    source: &'t Option<String>,
    previous: Option<&OwnedEvent>,
) -> Stretch<'t>
    ensures { stretch_view result
        ≡ begun text.now (option_map string_bytes source.now) (following_view previous.entry) }
{
    Stretch {
        text,
        source: lent_source(source),
        after_close: ends_delimiter(previous),
    }
}

/// The stretch that was held.
fn lent(held: &Held) -> Stretch<'_>
    ensures { stretch_view result ≡ held_view held.now }
{
    Stretch {
        text: held.text.as_str(),
        source: lent_source(&held.source),
        after_close: held.after_close,
    }
}

/// Writes a whole stretch that is after its gap: as it is where nothing is read in it, from the
/// source where that is wanted and known, else escaped.
fn write_stretch(
    renderer: &mut Renderer<'_>,
    job: Job<'_, '_>,
    manner: Manner<'_>,
    stretch: Stretch<'_>,
    next: Option<&OwnedEvent>,
) -> Result<(), AllocError>
    ensures stands { OnOk result (Stands renderer.new (levels_of renderer.old)
        (shown (options_in job.entry) job.entry.flags (text_in manner.entry) manner.entry.source
        (stretch_view stretch.entry) (following_view next.entry) (levels_of renderer.old)
        (page_of renderer.old))) }
    ensures mark { renderer.new.at_mark ≡ renderer.old.at_mark }
{
    if renderer.outside().raw {
        return write_inline(renderer, stretch.text);
    }
    match stretch.source {
        Some(source) if manner.source => write_inline(renderer, source),
        _ => {
            let text = manner.delimiters.text;
            let place = place(renderer, job, text, stretch.after_close, next);
            renderer.write_escaped(stretch.text, &place)?;
            renderer.set_last(Last::Inline);
            Ok(())
        }
    }
}

/// A stretch that was held, if there was one, with one more text.
fn lengthened(
    held: Option<Held>,
    text: &str,
    source: &Option<String>,
) -> Result<Option<Held>, AllocError>
    ensures { IfOk result (λ whole. option_map held_view whole
        ≡ option_map (λ h. longer h text.now (option_map string_bytes source.now))
        (option_map held_view held)) }
{
    match held {
        None => Ok(None),
        Some(held) => longer(held, text, source).map(Some),
    }
}

/// A stretch that is whole: one that was held, else this text by itself.
fn stretch_of<'t>(
    whole: &'t Option<Held>,
    text: &'t str,
    source: &'t Option<String>,
    previous: Option<&OwnedEvent>,
) -> Stretch<'t>
    ensures { stretch_view result ≡ unwrap_or (option_map held_view whole.now)
        (begun text.now (option_map string_bytes source.now) (following_view previous.entry)) }
{
    match whole {
        None => alone(text, source, previous),
        Some(held) => lent(held),
    }
}

/// A stretch that goes on: one that was held, else one that this text begins.
fn going_on(
    alloc: Global,
    whole: Option<Held>,
    text: &str,
    source: &Option<String>,
    previous: Option<&OwnedEvent>,
) -> Result<Held, AllocError>
    ensures { IfOk result (λ h. held_view h ≡ unwrap_or (option_map held_view whole)
        (begun text.now (option_map string_bytes source.now) (following_view previous.entry))) }
{
    match whole {
        None => begun(alloc, text, source, previous),
        Some(held) => Ok(held),
    }
}

/// Adds a text to the stretch that is held: it is held while a further text follows, else written
/// after its gap, and the nearest cell is wider by its characters.
pub fn add_text(
    renderer: &mut Renderer<'_>,
    job: Job<'_, '_>,
    manner: Manner<'_>,
    event: &BufferedEvent,
    text: &str,
    beside: Beside<'_>,
) -> Result<(), AllocError>
    ensures stands { OnOk result (StandsAt renderer.new (held_or_shown beside.entry.text_follows
        (options_in job.entry) job.entry.flags (text_in manner.entry) manner.entry.source
        (held_after (page_of renderer.old).held text.now (option_map string_bytes event.now.source)
        (following_view beside.entry.previous))
        (event_view string_bytes event.now.event) (following_view beside.entry.next)
        (levels_of renderer.old) (page_of renderer.old))) }
    ensures mark { renderer.new.at_mark ≡ renderer.old.at_mark }
{
    let held = renderer.take_held()?;
    let whole = lengthened(held, text, &event.source)?;
    if beside.text_follows {
        let kept = going_on(job.alloc, whole, text, &event.source, beside.previous)?;
        renderer.hold(kept);
        return Ok(());
    }
    let stretch = stretch_of(&whole, text, &event.source, beside.previous);
    renderer.write_gap(&event.event)?;
    write_stretch(renderer, job, manner, stretch, beside.next)?;
    widen_by_text(renderer, stretch.text)
}

/// A source that goes on, if all of its parts are known.
fn joined_sources(
    first: Option<String>,
    more: &Option<String>,
) -> Result<Option<String>, AllocError>
    ensures { IfOk result (λ whole.
        option_map string_bytes whole
        ≡ both (option_map string_bytes first) (option_map string_bytes more.now)) }
{
    let Some(mut source) = first else {
        return Ok(None);
    };
    let Some(more) = more else {
        return Ok(None);
    };
    source.push_str(more.as_str())?;
    Ok(Some(source))
}

fn is_delimiter_end(end: TagEnd) -> bool
    ensures { result ≡ not (end_width end == 0) }
{
    match end {
        TagEnd::Emphasis => true,
        TagEnd::Strong => true,
        _ => false,
    }
}

/// Whether emphasis ends before a place.
fn ends_delimiter(previous: Option<&OwnedEvent>) -> bool
    ensures { result ≡ ends_delimiter (following_view previous.entry) }
{
    match previous {
        Some(EventOf::End(end)) => is_delimiter_end(*end),
        _ => false,
    }
}

/// Whether emphasis starts after a place.
fn starts_delimiter(next: Option<&OwnedEvent>) -> bool
    ensures { result ≡ and_is (λ e. starts is_emphasis_or_strong e) (following_view next.entry) }
{
    match next {
        Some(EventOf::Start(TagOf::Emphasis)) => true,
        Some(EventOf::Start(TagOf::Strong)) => true,
        _ => false,
    }
}

fn longer(held: Held, text: &str, source: &Option<String>) -> Result<Held, AllocError>
    ensures { IfOk result (λ h.
        held_view h ≡ longer (held_view held) text.now (option_map string_bytes source.now)) }
{
    let mut joined = held.text;
    joined.push_str(text)?;
    Ok(Held {
        text: joined,
        source: joined_sources(held.source, source)?,
        after_close: held.after_close,
    })
}

/// How many bytes there is room for after the first text of a stretch: code is held line by line.
const ROOM_FOR_MORE: usize = 256;

/// A copy of a text, with room for what joins it.
fn begun_text(alloc: Global, text: &str) -> Result<String, AllocError>
    ensures { IfOk result (λ copy. string_bytes copy ≡ text.now) }
{
    let mut copy = String::with_capacity(alloc, text.len().saturating_add(ROOM_FOR_MORE))?;
    copy.push_str(text)?;
    Ok(copy)
}

/// A copy of a source, where it is known, with room for what joins it.
fn begun_source(alloc: Global, source: &Option<String>) -> Result<Option<String>, AllocError>
    ensures { IfOk result (λ copy.
        option_map string_bytes copy ≡ option_map string_bytes source.now) }
{
    match source {
        None => Ok(None),
        Some(text) => Ok(Some(begun_text(alloc, text.as_str())?)),
    }
}

fn begun(
    alloc: Global,
    text: &str,
    source: &Option<String>,
    previous: Option<&OwnedEvent>,
) -> Result<Held, AllocError>
    ensures { IfOk result (λ h.
        held_view h
        ≡ begun text.now (option_map string_bytes source.now) (following_view previous.entry)) }
{
    Ok(Held {
        text: begun_text(alloc, text)?,
        source: begun_source(alloc, source)?,
        after_close: ends_delimiter(previous),
    })
}
