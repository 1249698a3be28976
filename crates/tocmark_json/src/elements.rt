//! The events of a JSON text, element by element: no value of the whole text is made.

ghost use Rattle.std.specs.Prelude.{◌≡◌, ◌<◌, [], ◌∷◌, ◌++◌, Err, IfErr, IfOk, IsFalse, IsTrue, List, None, OnOk, Some, is_some, length, map};
ghost use Rattle.json.specs.Json.{items, value};
ghost use Rattle.json.specs.Lex.{tokens};
ghost use Rattle.json.specs.Token.{Token as SpecToken, begin_array};
ghost use Rattle.serde_json.specs.Data.{Data};
ghost use Rattle.serde_json.specs.Find.{as_array};
ghost use Rattle.serde_json.specs.Read.{converted, of_items};
ghost use Rattle.serde_json.specs.View.{items_of};
ghost use Rattle.tocmark_json.specs.Elements.{AreTaken, IsElement, IsListIn, IsReadFault, RefusesElement};
ghost use Rattle.tocmark_json.specs.Json.{pair_view};
ghost use Rattle.tocmark_json.specs.Node.{view};
ghost use Rattle.tocmark_json.specs.declared.fault.TextError.TheVariants.{NotJson as not_json};

use crate::fault::{Fault, JsonError, ReadError, TextError};
use crate::node::{MAX_DEPTH, Node, read};
use crate::reading::{event_from_json, pair_from_json};
use json::{Reader, Scratch, Token};
use std::alloc::{AllocError, Global};
use tocmark_event::event::{EventOf, OwnedWords};

/// An event with its range, if it has one.
pub type RangedEvent<U> = (EventOf<U>, Option<(usize, usize)>);

/// The events of a JSON text.
#[derive(Drop)]
pub struct EventList<U> {
    /// The events. If `has_ranges` isn't set, none has a range.
    pub events: Vec<(EventOf<U>, Option<(usize, usize)>)>,
    /// Whether the elements are pairs of an event and its range, or else events alone.
    pub has_ranges: bool,
}

/// What was taken so far: the events, or else the first fault.
#[derive(Drop)]
struct Taken<U> {
    events: Vec<(EventOf<U>, Option<(usize, usize)>)>,
    has_ranges: bool,
    fault: Option<JsonError>,
}

/// Reads an event from an element: a pair of it and its range, or the event alone. Any other value is refused as by
/// `event_from_json`.
pub fn element_from<U: OwnedWords + Drop>(
    alloc: Global,
    node: &Node<'_>,
    has_ranges: bool,
) -> Result<(EventOf<U>, Option<(usize, usize)>), Fault>
    ensures read { IfOk result (λ pair.
        IsElement has_ranges (view node.now) (pair_view U.Words.bytes pair)) }
    ensures refused { IfErr result (RefusesElement has_ranges (view node.now)) }
{
    if has_ranges {
        let (event, location) = pair_from_json(alloc, node)?;
        return Ok((event, location.range));
    }
    let event = event_from_json(alloc, node)?;
    Ok((event, None))
}

/// Whether the elements are pairs. The first one tells: a pair is an array.
fn are_pairs<U>(taken: &Taken<U>, node: &Node<'_>) -> bool
    ensures first { taken.now.events.items ≡ [] → result ≡ is_some (as_array (view node.now)) }
    ensures further { 0 < length taken.now.events.items → result ≡ taken.now.has_ranges }
{
    if taken.events.is_empty() {
        matches!(node, Node::Array(_))
    } else {
        taken.has_ranges
    }
}

/// Takes one more element. After a fault, it is passed over.
fn take<U: OwnedWords + Drop>(
    alloc: Global,
    node: &Node<'_>,
    taken: &mut Taken<U>,
) -> Result<(), AllocError>
    ensures { OnOk result ((ds : List Data)
        → AreTaken taken.old.has_ranges taken.old.fault ds
        (map (pair_view U.Words.bytes) taken.old.events.items)
        → AreTaken taken.new.has_ranges taken.new.fault (ds ++ view node.now ∷ [])
        (map (pair_view U.Words.bytes) taken.new.events.items)) }
{
    if taken.fault.is_some() {
        return Ok(());
    }
    let has_ranges = are_pairs(taken, node);
    taken.has_ranges = has_ranges;
    match element_from(alloc, node, has_ranges) {
        Ok(event) => {
            taken.events.push(event)?;
            Ok(())
        }
        Err(Fault::Wanted { key, wanted }) => {
            let index = taken.events.len();
            taken.fault = Some(JsonError::Event { index, key, wanted });
            Ok(())
        }
        Err(Fault::OutOfMemory) => Err(AllocError),
    }
}

/// Takes the elements of an array up to its end.
fn take_all<U: OwnedWords + Drop>(
    alloc: Global,
    reader: &mut Reader<'_>,
) -> Result<Taken<U>, TextError>
    ensures taken { IfOk result (λ taken. (ds : List Data)
        × (converted of_items (items (value 126) (length reader.old) reader.old)
        ≡ Some (items_of ds, reader.new))
        × AreTaken taken.has_ranges taken.fault ds
        (map (pair_view U.Words.bytes) taken.events.items)) }
    ensures refused { result ≡ Err not_json
        → converted of_items (items (value 126) (length reader.old) reader.old) ≡ None }
{
    let mut taken = Taken {
        events: Vec::new(alloc),
        has_ranges: false,
        fault: None,
    };
    'elements: while !reader.take_end_array() {
        let node = read(alloc, reader, MAX_DEPTH - 1)?;
        let is_taken = take(alloc, &node, &mut taken);
        drop(node);
        is_taken?;
    }
    Ok(taken)
}

/// The events that were taken, or the first fault.
fn list_of<U: OwnedWords + Drop>(taken: Taken<U>) -> Result<EventList<U>, JsonError>
    ensures list { IfOk result (λ list. (taken.fault ≡ None)
        × (list.events ≡ taken.events) × (list.has_ranges ≡ taken.has_ranges)) }
    ensures fault { IfErr result (λ error. taken.fault ≡ Some error) }
{
    let Taken {
        events,
        has_ranges,
        fault,
    } = taken;
    if let Some(error) = fault {
        drop(events);
        return Err(error);
    }
    Ok(EventList { events, has_ranges })
}

/// Whether an array begins. Its bracket is passed.
fn begins_array(reader: &mut Reader<'_>) -> bool
    ensures yes { IsTrue result → reader.old ≡ begin_array ∷ reader.new }
    ensures no { IsFalse result → (rest : List SpecToken) → reader.old ≡ begin_array ∷ rest → ⊥ }
{
    let Some(token) = reader.next() else {
        return false;
    };
    match token {
        Token::BeginArray => true,
        _ => false,
    }
}

/// Why a text that doesn't begin as an array isn't the JSON of events.
fn not_an_array(alloc: Global, text: &str) -> ReadError
    requires { (rest : List SpecToken) → tokens text.now ≡ begin_array ∷ rest → ⊥ }
    ensures { IsReadFault text.now result }
{
    let mut scratch = Scratch::new(alloc);
    match Node::from_str(alloc, text, &mut scratch) {
        Ok(_node) => ReadError::NotEvents(JsonError::NotAnArray),
        Err(TextError::NotJson) => ReadError::NotJson,
        Err(TextError::OutOfMemory) => ReadError::OutOfMemory,
    }
}

/// Reads the elements of a text that a reader has begun to read.
fn list_in<U: OwnedWords + Drop>(
    alloc: Global,
    text: &str,
    reader: &mut Reader<'_>,
) -> Result<EventList<U>, ReadError>
    requires { reader.old ≡ tokens text.now }
    ensures list { IfOk result (λ list. IsListIn list.has_ranges text.now
        (map (pair_view U.Words.bytes) list.events.items)) }
    ensures fault { IfErr result (IsReadFault text.now) }
{
    if !begins_array(reader) {
        return Err(not_an_array(alloc, text));
    }
    let taken = take_all(alloc, reader)?;
    if reader.next().is_some() {
        drop(taken);
        return Err(ReadError::NotJson);
    }
    match list_of(taken) {
        Ok(list) => Ok(list),
        Err(error) => Err(ReadError::NotEvents(error)),
    }
}

/// Reads the events of a JSON text: an array of events, or of pairs of an event and its range or `null`. Each range may
/// have its lines and columns. The first element decides which it is: if it is an array, all have to be pairs.
///
/// It fails if the text isn't JSON (`NotJson`), or not the JSON of events (`NotEvents`, with the number of the first
/// element that isn't what the first one decides), or if memory runs out.
///
/// ```
/// let list: EventList<CowStr<'static>> = events_from_text(alloc, "[\"Rule\"]")?;
/// assert_eq!(rt; list.events.len(), 1);
/// ```
pub fn events_from_text<U: OwnedWords + Drop>(
    alloc: Global,
    text: &str,
) -> Result<EventList<U>, ReadError>
    ensures list { IfOk result (λ list. IsListIn list.has_ranges text.now
        (map (pair_view U.Words.bytes) list.events.items)) }
    ensures fault { IfErr result (IsReadFault text.now) }
{
    let mut scratch = Scratch::new(alloc);
    let mut reader = Reader::new(text, &mut scratch)?;
    list_in(alloc, text, &mut reader)
}
