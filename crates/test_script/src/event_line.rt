//! Events from lines of JSON, and lists of them.

use crate::line_fault::LineFault;
use json::Scratch;
use std::alloc::Global;
use std::slice::Iter;
use tocmark_event::event::Event;
use tocmark_json::fault::{Fault, TextError};
use tocmark_json::node::Node;
use tocmark_json::ranges::Location;
use tocmark_json::reading::{event_from_json, pair_from_json};

/// An event and its range in bytes, if it has one.
pub type RangedEvent<'a> = (Event<'a>, Option<(usize, usize)>);

/// The events of a list, without their ranges.
#[derive(Drop)]
pub struct Events<'a>(pub Iter<'a, RangedEvent<'a>>);

impl<'a> Iterator for Events<'a> {
    type Item = &'a Event<'a>;

    ghost use Rattle.std.specs.Slice.Iter.{iter_rest};
    ghost use Rattle.std.specs.Iterator.{item_count};

    ghost remaining = { item_count (λ s. iter_rest s.0) };

    fn next(&mut self) -> Option<&'a Event<'a>> {
        match self.0.next() {
            Some((event, _)) => Some(event),
            None => None,
        }
    }
}

/// The events of a list with their ranges.
#[derive(Drop)]
pub struct RangedEvents<'a>(pub Iter<'a, RangedEvent<'a>>);

impl<'a> Iterator for RangedEvents<'a> {
    type Item = (&'a Event<'a>, Option<(usize, usize)>);

    ghost use Rattle.std.specs.Slice.Iter.{iter_rest};
    ghost use Rattle.std.specs.Iterator.{item_count};

    ghost remaining = { item_count (λ s. iter_rest s.0) };

    fn next(&mut self) -> Option<(&'a Event<'a>, Option<(usize, usize)>)> {
        match self.0.next() {
            Some((event, range)) => Some((event, *range)),
            None => None,
        }
    }
}

/// Whether a text begins as the JSON of an event does, or of an event and its range.
pub fn begins_event(text: &str) -> bool {
    text.starts_with('{') || text.starts_with('[') || text.starts_with('"')
}

fn node_of<'a>(
    alloc: Global,
    json: &'a str,
    scratch: &'a mut Scratch,
) -> Result<Node<'a>, LineFault> {
    match Node::from_str(alloc, json, scratch) {
        Ok(node) => Ok(node),
        Err(TextError::NotJson) => Err(LineFault::Wrong("it isn't JSON")),
        Err(TextError::OutOfMemory) => Err(LineFault::OutOfMemory),
    }
}

/// What was read, with its range alone.
fn with_range<E>(
    read: Result<(E, Location), Fault>,
) -> Result<(E, Option<(usize, usize)>), LineFault> {
    match read {
        Ok((event, location)) => Ok((event, location.range)),
        Err(fault) => Err(LineFault::from(fault)),
    }
}

/// What was read, without a range.
fn without_range<E>(read: Result<E, Fault>) -> Result<(E, Option<(usize, usize)>), LineFault> {
    match read {
        Ok(event) => Ok((event, None)),
        Err(fault) => Err(LineFault::from(fault)),
    }
}

/// The event of JSON, which is that of an event, or an array of an event and its range.
fn event_of(alloc: Global, node: &Node<'_>) -> Result<RangedEvent<'static>, LineFault> {
    match node {
        Node::Array(_) => with_range(pair_from_json(alloc, node)),
        _ => without_range(event_from_json(alloc, node)),
    }
}

/// The event of a JSON text, which is that of an event, or an array of an event and its range.
///
/// # Errors
///
/// The fault that the text isn't JSON, or has something else than an event at some key, or that memory ran out.
pub fn event_in_json(alloc: Global, json: &str) -> Result<RangedEvent<'static>, LineFault> {
    let mut scratch = Scratch::new(alloc);
    match &node_of(alloc, json, &mut scratch) {
        Ok(node) => event_of(alloc, node),
        Err(fault) => Err(*fault),
    }
}
