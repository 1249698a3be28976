//! Writes the JSON text of events as Markdown.

ghost use Rattle.std.specs.Prelude.{◌≡◌, IfErr, IfOk, IfSome, None, is_some, map, string_bytes};
ghost use Rattle.serde_json.specs.Read.{read};
ghost use Rattle.tocmark_event.specs.Options.{options_view};
ghost use Rattle.tocmark_event.specs.Text.{text_of};
ghost use Rattle.tocmark_json.specs.Elements.{IsListIn};
ghost use Rattle.tocmark_json.specs.Json.{pair_view};
ghost use Rattle.tocmark_documents.specs.Interchange.{ComesTo, IsCause, IsNoEvents, IsPairsCause, IsRefusal, IsTextOf, IsWritten, IsWrittenFrom, in_source, places_left, source_text, writing};
ghost use Rattle.tocmark_documents.specs.Places.{IsPlaceIn};
ghost use Rattle.tocmark_state.specs.Walk.{Done, Walk};

use crate::fault::WriteError;
use crate::pairs::{EventPairs, Placed};
use crate::refusal::{place_at, refused_at};
use serde_json::Value;
use std::alloc::{AllocError, Global};
use tocmark::event::{CowStr, Event, ParserOptions};
use tocmark::{Error, Options, cmark_with_source_range_and_options};
use tocmark_json::elements::{EventList, events_from_text};
use tocmark_json::fault::ReadError;
use tocmark_reader::{Names, UnitReader};
use tocmark_rewrite::Place;

/// Why a text isn't JSON, with the place of the fault. The text is read once more for it.
fn not_json(alloc: Global, json: &str) -> WriteError
    ensures { read json.now ≡ None → IsNoEvents json.now result }
{
    match Value::from_str(alloc, json) {
        Err(error) if !error.is_memory() => WriteError::NotJson(error),
        _ => WriteError::OutOfMemory,
    }
}

/// Reads the events of a JSON text, and whether they have ranges there.
pub(crate) fn list_in(alloc: Global, json: &str) -> Result<EventList<CowStr<'static>>, WriteError>
    ensures list { IfOk result (λ list. IsListIn list.has_ranges json.now
        (map (pair_view text_of) list.events.items)) }
    ensures cause { IfErr result (IsNoEvents json.now) }
{
    match events_from_text(alloc, json) {
        Ok(list) => Ok(list),
        Err(ReadError::NotJson) => Err(not_json(alloc, json)),
        Err(ReadError::NotEvents(error)) => Err(WriteError::NotEvents(error)),
        Err(ReadError::OutOfMemory) => Err(WriteError::OutOfMemory),
    }
}

/// Reads events from a JSON text, with the ranges that they have there.
pub(crate) fn pairs_in(alloc: Global, json: &str) -> Result<Vec<Placed<'static>>, WriteError>
    ensures pairs { IfOk result (λ pairs.
        IsTextOf json.now (map (pair_view text_of) pairs.items)) }
    ensures cause { IfErr result (IsNoEvents json.now) }
{
    match list_in(alloc, json) {
        Ok(list) => Ok(list.events),
        Err(error) => Err(error),
    }
}

/// The events, lent.
pub(crate) fn lent<'a>(pairs: &'a Vec<Placed<'static>>) -> &'a [(Event<'a>, Option<(usize, usize)>)]
    ensures { result.now ≡ pairs.now.items }
{
    pairs
}

/// The Markdown of events over the source of their ranges.
fn written<'a>(
    alloc: Global,
    pairs: EventPairs<'a>,
    source: &str,
    flags: ParserOptions,
    options: Options<'static>,
) -> Result<String, Error>
    ensures written { IfOk result (λ output. IsWritten (options_view options.entry) flags source.now
        (places_left pairs.entry) (string_bytes output)) }
    ensures refusal { IfErr result (IsRefusal (writing (options_view options.entry) flags source.now
        (places_left pairs.entry))) }
{
    let mut output = String::new(alloc);
    let reader = UnitReader { names: Names::All };
    match cmark_with_source_range_and_options(
        alloc,
        pairs,
        source,
        &mut output,
        reader,
        flags,
        options,
    ) {
        Ok(state) => {
            drop(state);
            Ok(output)
        }
        Err(error) => Err(error),
    }
}

/// Why the writer refuses events, and where.
fn refusal<'a>(
    alloc: Global,
    pairs: &'a [Placed<'a>],
    source: &str,
    has_source: bool,
    flags: ParserOptions,
    options: Options<'static>,
) -> Result<Place, AllocError>
    ensures { IfOk result (IsPlaceIn source.now
        (in_source has_source (map (pair_view text_of) pairs.now))) }
{
    let event = refused_at(alloc, pairs, source, has_source, flags, options)?;
    place_at(alloc, pairs, event, source, has_source)
}

/// The error as a refusal of the events. It is `None` for `OutOfMemory` and for `FormatFailed`, because a string
/// refuses a text only if memory runs out.
fn refusal_in(error: Error) -> Option<Error>
    ensures { (walk : Walk Done) → IsRefusal walk error → IfSome result (ComesTo walk) }
{
    match error {
        Error::FormatFailed(_) => None,
        Error::OutOfMemory => None,
        Error::UnexpectedEvent => Some(Error::UnexpectedEvent),
        Error::Unrepresentable => Some(Error::Unrepresentable),
        Error::InvalidSourceRange => Some(Error::InvalidSourceRange),
        Error::Finished => Some(Error::Finished),
        Error::Failed => Some(Error::Failed),
    }
}

/// The Markdown of events over the source of their ranges, which are dropped unless `has_source` is set.
pub(crate) fn written_pairs<'a>(
    alloc: Global,
    pairs: &'a [Placed<'a>],
    source: &str,
    has_source: bool,
    flags: ParserOptions,
    options: Options<'static>,
) -> Result<String, WriteError>
    ensures written { IfOk result (λ output. IsWritten (options_view options.entry) flags source.now
        (in_source has_source (map (pair_view text_of) pairs.now)) (string_bytes output)) }
    ensures cause { IfErr result (IsPairsCause (options_view options.entry) flags source.now
        (in_source has_source (map (pair_view text_of) pairs.now))) }
{
    let placed = EventPairs::new(pairs, has_source);
    let error = match written(alloc, placed, source, flags, options) {
        Ok(output) => return Ok(output),
        Err(error) => error,
    };
    let Some(error) = refusal_in(error) else {
        return Err(WriteError::OutOfMemory);
    };
    match refusal(alloc, pairs, source, has_source, flags, options) {
        Ok(place) => Err(WriteError::Refused(place, error)),
        Err(_) => Err(WriteError::OutOfMemory),
    }
}

/// Writes events as Markdown, as `write_json` does. Without `has_source`, there is no source: the ranges are dropped.
///
/// It fails as `write_json` does.
pub fn write_over(
    alloc: Global,
    json: &str,
    source: &str,
    has_source: bool,
    flags: ParserOptions,
    options: Options<'static>,
) -> Result<String, WriteError>
    ensures written { IfOk result (λ output. IsWrittenFrom (options_view options.entry) flags
        has_source source.now json.now (string_bytes output)) }
    ensures cause { IfErr result (IsCause (options_view options.entry) flags has_source source.now
        json.now) }
{
    let pairs = pairs_in(alloc, json)?;
    written_pairs(alloc, lent(&pairs), source, has_source, flags, options)
}

/// Writes the events of a JSON text as Markdown: an array of events, or of pairs of an event and its range or `null`.
/// The ranges are bytes of the source; without a source they are dropped. The flags are the extensions under which the
/// Markdown has to parse back.
///
/// It fails if the text isn't JSON (`NotJson`), or not the JSON of events (`NotEvents`, with the number of the first
/// element that is none), if the writer refuses the events (`Refused`, with the number of the first event of the
/// refused block and, over a source, with its lines), or if memory runs out.
pub fn write_json(
    alloc: Global,
    json: &str,
    source: Option<&str>,
    flags: ParserOptions,
    options: Options<'static>,
) -> Result<String, WriteError>
    ensures written { IfOk result (λ output. IsWrittenFrom (options_view options.entry) flags
        (is_some source.entry) (source_text source.entry) json.now (string_bytes output)) }
    ensures cause { IfErr result (IsCause (options_view options.entry) flags
        (is_some source.entry) (source_text source.entry) json.now) }
{
    match source {
        Some(text) => write_over(alloc, json, text, true, flags, options),
        None => write_over(alloc, json, "", false, flags, options),
    }
}
