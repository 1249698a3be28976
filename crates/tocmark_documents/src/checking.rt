//! The canonical JSON text of events.

ghost use Rattle.std.specs.Prelude.{◌≡◌, IfErr, IfOk, false, map, string_bytes, true};
ghost use Rattle.serde_json.specs.Data.{Data};
ghost use Rattle.tocmark_event.specs.Text.{text_of};
ghost use Rattle.tocmark_event.specs.View.{event_view};
ghost use Rattle.tocmark_json.specs.Elements.{IsListOf};
ghost use Rattle.tocmark_json.specs.Json.{pair_view};
ghost use Rattle.tocmark_documents.specs.Interchange.{IsAgain, IsNoEvents, IsWrittenAgain};

use crate::fault::WriteError;
use crate::pairs::Placed;
use crate::writing::list_in;
use std::alloc::{AllocError, Global};
use tocmark::event::{CowStr, Event};
use tocmark_json::elements::EventList;
use tocmark_json::printing::{events_to_text, pairs_to_text};

/// The events of a list without their ranges.
fn events_of(alloc: Global, pairs: Vec<Placed<'static>>) -> Result<Vec<Event<'static>>, AllocError>
    ensures { IfOk result (λ events. map (event_view text_of) events.items
        ≡ map (λ p. p.0) (map (pair_view text_of) pairs.entry.items)) }
{
    let mut events = Vec::new(alloc);
    for (event, _range) in pairs {
        events.push(event)?;
    }
    Ok(events)
}

fn plain_again(alloc: Global, pairs: Vec<Placed<'static>>) -> Result<String, AllocError>
    ensures { IfOk result (λ output. (value : Data)
        → IsListOf false value (map (pair_view text_of) pairs.entry.items)
        → IsAgain value (string_bytes output)) }
{
    let events = events_of(alloc, pairs)?;
    events_to_text(alloc, &events)
}

fn ranged_again(alloc: Global, pairs: &[Placed<'static>]) -> Result<String, AllocError>
    ensures { IfOk result (λ output. (value : Data)
        → IsListOf true value (map (pair_view text_of) pairs.now)
        → IsAgain value (string_bytes output)) }
{
    pairs_to_text(alloc, pairs)
}

/// The canonical JSON text of a list.
fn written_again(alloc: Global, list: EventList<CowStr<'static>>) -> Result<String, AllocError>
    ensures { IfOk result (λ output. (value : Data)
        → IsListOf list.entry.has_ranges value (map (pair_view text_of) list.entry.events.items)
        → IsAgain value (string_bytes output)) }
{
    if list.has_ranges {
        ranged_again(alloc, &list.events)
    } else {
        plain_again(alloc, list.events)
    }
}

/// Checks that a JSON text is one of events, and returns its canonical form: without spaces, the keys in order, and
/// without lines and columns.
///
/// It fails if the text isn't JSON (`NotJson`), or not the JSON of events (`NotEvents`, with the number of the first
/// element that is none), or if memory runs out.
pub fn check_json(alloc: Global, json: &str) -> Result<String, WriteError>
    ensures again { IfOk result (λ output. IsWrittenAgain json.now (string_bytes output)) }
    ensures cause { IfErr result (IsNoEvents json.now) }
{
    let list = list_in(alloc, json)?;
    Ok(written_again(alloc, list)?)
}
