//! Questions about the events of a script, and their answers.

use crate::event_line::{Events, RangedEvent};
use crate::script::EventsQuestion;
use std::alloc::{AllocError, Global};
use tocmark::calculate_code_block_token_count;
use tocmark::event::{CowStr, Event, EventOf, OwnedEvent, merge_all, merge_texts};
use tocmark_compare::event::same_event;
use tocmark_json::printing::{events_to_text, pairs_to_text};

fn token_count(events: &[RangedEvent<'static>]) -> Option<usize> {
    calculate_code_block_token_count(Events(events.iter()))
}

fn write_token_count(
    answer: &mut String,
    events: &[RangedEvent<'static>],
) -> Result<(), AllocError> {
    match token_count(events) {
        None => writeln!(answer, "None"),
        Some(count) => writeln!(answer, "Some({count})"),
    }
}

/// The only element of a JSON array.
fn only_element(array: &str) -> &str {
    let element = array.strip_prefix('[').unwrap_or("");
    element.strip_suffix(']').unwrap_or("")
}

/// Writes the line of the only element of a JSON array, if there was memory for the array.
pub fn write_element(
    answer: &mut String,
    array: &Result<String, AllocError>,
) -> Result<(), AllocError> {
    match array {
        Ok(array) => writeln!(answer, "{}", only_element(array.as_str())),
        Err(_) => Err(AllocError),
    }
}

/// Writes the lines of events with their ranges.
fn write_pairs(
    alloc: Global,
    answer: &mut String,
    pairs: &[RangedEvent<'static>],
) -> Result<(), AllocError> {
    for pair in pairs.chunks(1) {
        write_element(answer, &pairs_to_text(alloc, pair))?;
    }
    Ok(())
}

/// Adds what was made to a list.
fn add_made<T: Drop>(list: &mut Vec<T>, made: Result<T, AllocError>) -> Result<(), AllocError> {
    match made {
        Ok(item) => Ok(list.push(item)?),
        Err(error) => Err(error),
    }
}

/// How many items a list has that was made.
fn count_made<T: Drop>(made: Result<Vec<T>, AllocError>) -> Result<usize, AllocError> {
    match made {
        Ok(items) => Ok(items.len()),
        Err(error) => Err(error),
    }
}

/// Adds copies of the events, without what is beside them.
fn add_plain<R>(
    alloc: Global,
    plain: &mut Vec<Event<'static>>,
    events: &[(Event<'static>, R)],
) -> Result<(), AllocError> {
    for (event, _) in events {
        add_made(plain, event.to_static(alloc))?;
    }
    Ok(())
}

/// The events, with each stretch of texts as one.
fn merged<R>(
    alloc: Global,
    events: &[(Event<'static>, R)],
) -> Result<Vec<Event<'static>>, AllocError> {
    let mut plain: Vec<Event<'static>> = Vec::new(alloc);
    match add_plain(alloc, &mut plain, events) {
        Ok(()) => merge_texts(alloc, &plain),
        Err(error) => Err(error),
    }
}

/// How many events there are, with each stretch of texts as one.
pub fn merged_count<R>(alloc: Global, events: &[(Event<'static>, R)]) -> Result<usize, AllocError> {
    count_made(merged(alloc, events))
}

/// Writes the lines of events without ranges.
fn write_events(
    alloc: Global,
    answer: &mut String,
    events: &[Event<'static>],
) -> Result<(), AllocError> {
    for event in events.chunks(1) {
        write_element(answer, &events_to_text(alloc, event))?;
    }
    Ok(())
}

/// Writes the lines of the events without ranges, with each stretch of texts as one.
pub fn write_merged<R>(
    alloc: Global,
    answer: &mut String,
    events: &[(Event<'static>, R)],
) -> Result<(), AllocError> {
    match &merged(alloc, events) {
        Ok(merged) => write_events(alloc, answer, merged),
        Err(_) => Err(AllocError),
    }
}

/// How many events there are where each owns its texts, merged.
fn owned_count(alloc: Global, events: &[RangedEvent<'static>]) -> Result<usize, AllocError> {
    let mut plain: Vec<Event<'static>> = Vec::new(alloc);
    match add_plain(alloc, &mut plain, events) {
        Ok(()) => {
            let owned: Result<Vec<OwnedEvent>, AllocError> = merge_all(alloc, &plain);
            count_made(owned)
        }
        Err(error) => Err(error),
    }
}

/// Writes the lines of the merged events without ranges, and how many there are where each owns its texts.
fn write_merged_and_count(
    alloc: Global,
    answer: &mut String,
    events: &[RangedEvent<'static>],
) -> Result<(), AllocError> {
    write_merged(alloc, answer, events)?;
    let count = owned_count(alloc, events)?;
    writeln!(answer, "{count} events")
}

/// Whether a copy is equal to the original.
fn is_copy<T: PartialEq + Drop>(
    copy: Result<T, AllocError>,
    original: &T,
) -> Result<bool, AllocError> {
    match copy {
        Ok(copy) => Ok(copy == *original),
        Err(error) => Err(error),
    }
}

/// Whether a text is equal to its copy, lent and owned.
fn text_has_copies(alloc: Global, text: &CowStr<'static>) -> Result<bool, AllocError> {
    let owned = CowStr::Owned(String::from_str(alloc, text.as_str())?);
    is_copy(owned.clone(), &CowStr::Borrowed(text.as_str()))
}

/// Whether the tag or the text of an event is equal to its copies.
fn part_has_copies(alloc: Global, event: &Event<'static>) -> Result<bool, AllocError> {
    match event {
        EventOf::Start(tag) => is_copy(tag.copied(alloc), tag),
        EventOf::Text(text) => text_has_copies(alloc, text),
        _ => Ok(true),
    }
}

/// Whether an event is equal to the copy of its copy that owns its texts.
fn has_owned_copy(alloc: Global, event: &Event<'static>) -> Result<bool, AllocError> {
    let owned: Result<OwnedEvent, AllocError> = event.copied(alloc);
    let is_same = match &owned {
        Ok(owned) => is_copy(owned.copied(alloc), event),
        Err(_) => Err(AllocError),
    };
    drop(owned);
    is_same
}

/// Whether an event is equal to each of its copies.
fn has_copies(alloc: Global, event: &Event<'static>) -> Result<bool, AllocError> {
    Ok(
        is_copy(event.to_static(alloc), event)?
            && is_copy(event.clone(), event)?
            && has_owned_copy(alloc, event)?
            && part_has_copies(alloc, event)?,
    )
}

fn write_copies(
    alloc: Global,
    answer: &mut String,
    events: &[RangedEvent<'static>],
) -> Result<(), AllocError> {
    let all = events.len();
    let mut same = 0usize;
    for (event, _) in events {
        if has_copies(alloc, event)? {
            same = same.saturating_add(1);
        }
    }
    writeln!(answer, "{same} of {all}")
}

/// How many of these events are the same as this one.
fn same_as(event: &Event<'static>, events: &[RangedEvent<'static>]) -> usize {
    let mut same = 0usize;
    for (other, _) in events {
        if same_event(event, other) {
            same = same.saturating_add(1);
        }
    }
    same
}

fn write_same(answer: &mut String, events: &[RangedEvent<'static>]) -> Result<(), AllocError> {
    let mut pairs = 0usize;
    for (event, _) in events {
        pairs = pairs.saturating_add(same_as(event, events));
    }
    writeln!(answer, "{pairs} pairs")
}

/// Writes what is answered about these events.
pub fn write_events_answer(
    alloc: Global,
    answer: &mut String,
    question: EventsQuestion,
    events: &[RangedEvent<'static>],
) -> Result<(), AllocError> {
    match question {
        EventsQuestion::CountTokens => write_token_count(answer, events),
        EventsQuestion::Show => write_pairs(alloc, answer, events),
        EventsQuestion::ShowMerged => write_merged_and_count(alloc, answer, events),
        EventsQuestion::CountCopies => write_copies(alloc, answer, events),
        EventsQuestion::CountSame => write_same(answer, events),
    }
}
