//! Writes events as Markdown, and parses the whole result again.

ghost use Rattle.std.specs.Prelude.{◌≡◌, ◌≤◌, ◌↔◌, IfErr, IfOk, IfSome, IsNone, IsTrue, is_some, length, map, string_bytes};
ghost use Rattle.tocmark_event.specs.Merged.{merged};
ghost use Rattle.tocmark_event.specs.Options.{options_view};
ghost use Rattle.tocmark_event.specs.Text.{text_of};
ghost use Rattle.tocmark_event.specs.View.{event_view};
ghost use Rattle.tocmark_compare.specs.Given.{given_events};
ghost use Rattle.tocmark_json.specs.Json.{pair_view};
ghost use Rattle.tocmark_documents.specs.Document.{IsDocumentCause, IsFirstBehind, IsFirstLost, IsWrittenTheSame, events_read, goes_on, shared, without_range};
ghost use Rattle.tocmark_documents.specs.Interchange.{source_text};

use crate::fault::{DocumentError, WriteError};
use crate::pairs::Placed;
use crate::writing::{lent, pairs_in, written_pairs};
use std::alloc::{AllocError, Global};
use tocmark::Options;
use tocmark::event::{Event, ParserOptions};
use tocmark::reader::Reader;
use tocmark_compare::event::same_event;
use tocmark_compare::same::{are_same, is_text, merged_events};
use tocmark_marked::MarkedReader;

/// What a reader found: events with their ranges.
type Found<'f> = (Event<'f>, (usize, usize));

/// How many events two lists have in common at their front.
fn shared(found: &[Event<'_>], given: &[Event<'_>]) -> usize
    ensures { result
        ≡ shared (map (event_view text_of) found.now) (map (event_view text_of) given.now) }
{
    for place in 0..found.len() {
        if place >= given.len() {
            return place;
        }
        if !same_event(&found[place], &given[place]) {
            return place;
        }
    }
    found.len()
}

/// Whether the first two events are in one stretch: whether both are texts.
fn goes_on(events: &[Placed<'_>]) -> bool
    ensures { result ≡ goes_on (given_events events.now) }
{
    match events {
        [first, second, ..] => is_text(&first.0) && is_text(&second.0),
        _ => false,
    }
}

/// The number of the event with which the stretch of this number begins. Texts side by side are one stretch, and any
/// other event is one alone. If there is no such stretch, it is the number of all events.
fn place_of(given: &[Placed<'_>], stretch: usize) -> usize
    ensures { stretch ≤ length (merged (given_events given.now))
        → IsFirstBehind stretch (given_events given.now) result }
{
    let mut left = stretch;
    for place in 0..given.len() {
        if left == 0 {
            return place;
        }
        if !goes_on(&given[place..]) {
            left = left.saturating_sub(1);
        }
    }
    given.len()
}

/// The number of the first given event that isn't found again, if the lists differ.
fn first_lost(alloc: Global, found: &[Found<'_>], given: &[Placed<'_>]) -> Result<usize, AllocError>
    ensures { IfOk result (IsFirstLost (given_events found.now) (given_events given.now)) }
{
    let read = merged_events(alloc, found)?;
    let wanted = merged_events(alloc, given)?;
    Ok(place_of(given, shared(&read, &wanted)))
}

/// Compares the events that were found with those that were given: none if they are the same, else the number of the
/// first given event that isn't found again. Texts side by side count as one.
fn difference(
    alloc: Global,
    found: &[Found<'_>],
    given: &[Placed<'_>],
) -> Result<Option<usize>, AllocError>
    ensures same { IfOk result (λ answer. IsNone answer
        → merged (given_events found.now) ≡ merged (given_events given.now)) }
    ensures other { IfOk result (λ answer. IfSome answer (λ place.
        ¬ (merged (given_events found.now) ≡ merged (given_events given.now)))) }
    ensures place { IfOk result (λ answer. IfSome answer
        (IsFirstLost (given_events found.now) (given_events given.now))) }
{
    if are_same(alloc, found, given)? {
        return Ok(None);
    }
    Ok(Some(first_lost(alloc, found, given)?))
}

/// Parses a text, and compares its events with those that were given, as `difference` does.
fn lost(
    alloc: Global,
    text: &str,
    given: &[Placed<'_>],
    flags: ParserOptions,
) -> Result<Option<usize>, AllocError>
    ensures same { IfOk result (λ answer. IsNone answer → merged (events_read flags text.now)
        ≡ merged (without_range (map (pair_view text_of) given.now))) }
    ensures other { IfOk result (λ answer. IfSome answer (λ place.
        ¬ (merged (events_read flags text.now)
        ≡ merged (without_range (map (pair_view text_of) given.now))))) }
    ensures place { IfOk result (λ answer. IfSome answer (IsFirstLost (events_read flags text.now)
        (without_range (map (pair_view text_of) given.now)))) }
{
    let reading = MarkedReader.read(alloc, text, flags)?;
    difference(alloc, &reading.events, given)
}

/// Writes events as Markdown, as `write_json` does, and parses the result again. It has just these events, or it is an
/// error. Texts side by side count as one.
///
/// It fails as `write_json` does (`Write`), or if the result has other events (`Changed`, with the number of the first
/// event that it doesn't have, counted from 0; with the number of all events if it has them all, and then others).
///
/// ```
/// let json = r#"[{"Start":"Paragraph"},{"Text":"a"},{"End":"Paragraph"}]"#;
/// let markdown = write_checked(alloc, json, None, ParserOptions::empty(), Options::default())?;
/// assert_eq!(rt; markdown.as_str(), "a");
/// ```
pub fn write_checked(
    alloc: Global,
    json: &str,
    source: Option<&str>,
    flags: ParserOptions,
    options: Options<'static>,
) -> Result<String, DocumentError>
    ensures same { IfOk result (λ output. IsWrittenTheSame (options_view options.entry) flags
        (is_some source.entry) (source_text source.entry) json.now (string_bytes output)) }
    ensures cause { IfErr result (IsDocumentCause (options_view options.entry) flags
        (is_some source.entry) (source_text source.entry) json.now) }
{
    match source {
        Some(text) => checked_over(alloc, json, text, true, flags, options),
        None => checked_over(alloc, json, "", false, flags, options),
    }
}

/// Writes events as Markdown and parses the result again, as `write_checked` does. Without `has_source`, there is no
/// source: the ranges are dropped.
pub fn checked_over(
    alloc: Global,
    json: &str,
    source: &str,
    has_source: bool,
    flags: ParserOptions,
    options: Options<'static>,
) -> Result<String, DocumentError>
    ensures same { IfOk result (λ output. IsWrittenTheSame (options_view options.entry) flags
        has_source source.now json.now (string_bytes output)) }
    ensures cause { IfErr result (IsDocumentCause (options_view options.entry) flags
        has_source source.now json.now) }
{
    let pairs = match pairs_in(alloc, json) {
        Ok(pairs) => pairs,
        Err(error) => return Err(DocumentError::Write(error)),
    };
    let given = lent(&pairs);
    let output = match written_pairs(alloc, given, source, has_source, flags, options) {
        Ok(output) => output,
        Err(error) => return Err(DocumentError::Write(error)),
    };
    match lost(alloc, output.as_str(), &pairs, flags) {
        Ok(None) => Ok(output),
        Ok(Some(place)) => Err(DocumentError::Changed(place)),
        Err(_error) => Err(DocumentError::Write(WriteError::OutOfMemory)),
    }
}
