//! What the input says about a fault: the value that is no event, and links that need two definitions of one label.

ghost use Rattle.tocmark_events_program.specs.Events.{IsWriteFault};

use crate::arguments::Job;
use crate::fault::Fault;
use serde_json::Value;
use std::alloc::{AllocError, Global};
use std::collections::HashMap;
use tocmark::event::{CowStr, Event, LinkType, Tag};
use tocmark_documents::{RewriteError, array_of};
use tocmark_json::elements::{EventList, events_from_text};
use tocmark_json::fault::JsonError;

/// How many characters of a wrong value are shown.
const SHOWN: usize = 40;

/// Whether a job reads an event from each line.
fn reads_lines(job: Job<'_>) -> bool {
    match job {
        Job::Write { lines, .. } | Job::Rewrite { lines, .. } => lines,
        _ => false,
    }
}

/// The front of a value's JSON.
fn shown(alloc: Global, value: &Value) -> Result<String, AllocError> {
    let json = value.to_string(alloc)?;
    let mut front = String::new(alloc);
    for (number, c) in json.chars().enumerate() {
        if number == SHOWN {
            front.push_str("..")?;
            break;
        }
        front.push(c)?;
    }
    Ok(front)
}

/// The JSON of the value in the place of an event: an element, or its first value if the first element is a pair.
fn shown_event(alloc: Global, first: &Value, element: &Value) -> Option<String> {
    let event = match first {
        Value::Array(_) => element.get(0usize).unwrap_or(element),
        _ => element,
    };
    shown(alloc, event).ok()
}

/// The value of the line of this number.
fn line_value(alloc: Global, input: &str, number: usize) -> Option<Value> {
    Value::from_str(alloc, input.lines().nth(number)?).ok()
}

/// The JSON of the value in the place of the event of this number.
fn value_at(alloc: Global, job: Job<'_>, input: &str, index: usize) -> Option<String> {
    if reads_lines(job) {
        let first = line_value(alloc, input, 0)?;
        let element = line_value(alloc, input, index)?;
        return shown_event(alloc, &first, &element);
    }
    let list = Value::from_str(alloc, input).ok()?;
    shown_event(alloc, list.get(0usize)?, list.get(index)?)
}

/// The label by which a link or an image leads to a definition, with its destination and its title.
fn target_of<'e>(event: &'e Event<'_>) -> Option<(&'e str, &'e str, &'e str)> {
    let (kind, destination, title, label) = match event {
        Event::Start(
            Tag::Link {
                link_type,
                dest_url,
                title,
                id,
            },
        ) => (*link_type, dest_url, title, id),
        Event::Start(
            Tag::Image {
                link_type,
                dest_url,
                title,
                id,
            },
        ) => (*link_type, dest_url, title, id),
        _ => return None,
    };
    match kind {
        LinkType::Reference | LinkType::Collapsed | LinkType::Shortcut => {
            Some((label.as_ref(), destination.as_ref(), title.as_ref()))
        }
        _ => None,
    }
}

/// The first label that leads to two destinations, or to one with two titles.
fn contested_label(
    alloc: Global,
    events: &[(Event<'static>, Option<(usize, usize)>)],
) -> Result<Option<String>, AllocError> {
    let mut targets = HashMap::new(alloc);
    for (event, _range) in events {
        let Some((label, destination, title)) = target_of(event) else {
            continue;
        };
        match targets.get(label) {
            Some(other) => {
                if *other != (destination, title) {
                    return Ok(Some(String::from_str(alloc, label)?));
                }
            }
            None => {
                targets.insert(label, (destination, title))?;
            }
        }
    }
    Ok(None)
}

/// The events of a job's input, which is the JSON of some.
fn events_in(alloc: Global, job: Job<'_>, input: &str) -> Option<EventList<CowStr<'static>>> {
    if job.joins_lines() {
        let json = array_of(alloc, input).ok()?;
        return events_from_text(alloc, json.as_str()).ok();
    }
    events_from_text(alloc, input).ok()
}

/// The label that a list of events needs two definitions of.
fn contested_label_in(alloc: Global, job: Job<'_>, input: &str) -> Option<String> {
    let list = events_in(alloc, job, input)?;
    contested_label(alloc, &list.events).ok().flatten()
}

/// Why a value isn't a list of events, with the value that is no event.
fn not_events(alloc: Global, job: Job<'_>, input: &str, error: JsonError) -> Fault
    ensures { ¬ (IsWriteFault result) }
{
    let JsonError::Event { index, key, wanted } = error else {
        return Fault::NotEvents(error);
    };
    if key != "event" {
        return Fault::NotEvents(error);
    }
    match value_at(alloc, job, input, index) {
        Some(value) => Fault::NoEvent(index, value, wanted),
        None => Fault::NotEvents(error),
    }
}

/// Why a source isn't rewritten, with the label that would need two definitions.
fn not_rewritten(alloc: Global, job: Job<'_>, input: &str, error: RewriteError) -> Fault
    ensures { ¬ (IsWriteFault result) }
{
    match contested_label_in(alloc, job, input) {
        Some(label) => Fault::Contested(error, label),
        None => Fault::NotRewritten(error),
    }
}

/// A fault of a job, with what its input says about it.
pub fn explained(alloc: Global, job: Job<'_>, input: &str, fault: Fault) -> Fault
    ensures { ¬ (IsWriteFault fault) → ¬ (IsWriteFault result) }
{
    match fault {
        Fault::NotEvents(error) => not_events(alloc, job, input, error),
        Fault::NotRewritten(RewriteError::ReadOtherwise(place)) => {
            not_rewritten(alloc, job, input, RewriteError::ReadOtherwise(place))
        }
        fault => fault,
    }
}
