//! The innermost blocks of a tree that were changed, each written by itself in its place.
//!
//! As in `patch`, what is made here is tried, and no more.

use crate::collect::lent;
use crate::line_end::LineEnd;
use crate::patch::Patch;
use crate::pieces::{Piece, Tools, write_tree};
use crate::trees::{line_start, lines_end, trees};
use std::alloc::{AllocError, Global};
use tocmark_compare::event::same_event;
use tocmark_compare::same::{are_same, differ};
use tocmark_event::event::{Event, Tag, TagEnd};
use tocmark_event::options::Error;
use tocmark_event::reader::Reader;

/// A stretch of the events that the reader found, and the one that was given in its place.
#[derive(Clone, Copy, Debug)]
pub(crate) struct Pairing {
    pub(crate) old: (usize, usize),
    pub(crate) new: (usize, usize),
}

/// So many levels of containers are looked into.
const LEVELS: usize = 32;

/// Whether an event begins a container of blocks.
fn holds_blocks(event: &Event<'_>) -> bool {
    match event {
        Event::Start(Tag::BlockQuote(_)) => true,
        Event::Start(Tag::List(_)) => true,
        Event::Start(Tag::Item) => true,
        Event::Start(Tag::FootnoteDefinition(_)) => true,
        _ => false,
    }
}

/// Whether an event is a block that has no blocks in it, or begins one.
fn is_leaf_block(event: &Event<'_>) -> bool {
    match event {
        Event::Start(Tag::Paragraph) => true,
        Event::Start(Tag::Heading { .. }) => true,
        Event::Start(Tag::CodeBlock(_)) => true,
        Event::Start(Tag::HtmlBlock) => true,
        Event::Start(Tag::Table(_)) => true,
        Event::Rule => true,
        _ => false,
    }
}

fn is_block_at(events: &[(Event<'_>, (usize, usize))], at: usize) -> bool {
    match events.get(at) {
        Some(pair) => holds_blocks(&pair.0) || is_leaf_block(&pair.0),
        None => false,
    }
}

/// Whether both stretches begin the same container of blocks.
fn begin_alike(
    old: &[(Event<'_>, (usize, usize))],
    new: &[(Event<'_>, (usize, usize))],
    pairing: Pairing,
) -> bool {
    match (old.get(pairing.old.0), new.get(pairing.new.0)) {
        (Some(before), Some(after)) => {
            holds_blocks(&before.0) && same_event(&before.0, &after.0)
        }
        _ => false,
    }
}

/// The trees in a container.
fn children(
    alloc: Global,
    events: &[(Event<'_>, (usize, usize))],
    container: (usize, usize),
) -> Result<Vec<(usize, usize)>, AllocError> {
    let first = container.0.saturating_add(1);
    let past = container.1.saturating_sub(1);
    let body = events.get(first..past).unwrap_or(&[]);
    let mut all = Vec::new(alloc);
    for tree in &trees(alloc, body)? {
        let from = first.saturating_add(tree.first);
        let to = first.saturating_add(tree.past);
        all.push((from, to))?;
    }
    Ok(all)
}

/// Whether two stretches are there and have the same events.
fn is_unchanged(
    alloc: Global,
    old: &[(Event<'_>, (usize, usize))],
    new: &[(Event<'_>, (usize, usize))],
    pairing: Pairing,
) -> Result<bool, AllocError> {
    let Some(left) = old.get(pairing.old.0..pairing.old.1) else {
        return Ok(false);
    };
    let Some(right) = new.get(pairing.new.0..pairing.new.1) else {
        return Ok(false);
    };
    if differ(left, right) {
        return Ok(false);
    }
    are_same(alloc, left, right)
}

/// The blocks in a container that were changed; none where some came or went, or where inlines were changed.
fn changed_children(
    alloc: Global,
    old: &[(Event<'_>, (usize, usize))],
    new: &[(Event<'_>, (usize, usize))],
    pairing: Pairing,
) -> Result<Option<Vec<Pairing>>, AllocError> {
    if !begin_alike(old, new, pairing) {
        return Ok(None);
    }
    let left = children(alloc, old, pairing.old)?;
    let right = children(alloc, new, pairing.new)?;
    if left.len() != right.len() {
        return Ok(None);
    }
    let mut changed = Vec::new(alloc);
    for (before, after) in left.iter().zip(&right) {
        let child = Pairing {
            old: *before,
            new: *after,
        };
        if !is_unchanged(alloc, old, new, child)? {
            if !is_block_at(old, before.0) || !is_block_at(new, after.0) {
                return Ok(None);
            }
            changed.push(child)?;
        }
    }
    Ok(Some(changed))
}

/// What was changed one level deeper, and whether that is anything else.
fn refined(
    alloc: Global,
    old: &[(Event<'_>, (usize, usize))],
    new: &[(Event<'_>, (usize, usize))],
    pairings: &[Pairing],
) -> Result<(Vec<Pairing>, bool), AllocError> {
    let mut finer = Vec::new(alloc);
    let mut goes_on = false;
    for pairing in pairings {
        match changed_children(alloc, old, new, *pairing)? {
            None => finer.push(*pairing)?,
            Some(changed) => {
                finer.extend_from_slice(&changed)?;
                goes_on = true;
            }
        }
    }
    Ok((finer, goes_on))
}

/// The innermost blocks in which a tree was changed.
pub(crate) fn innermost(
    alloc: Global,
    old: &[(Event<'_>, (usize, usize))],
    new: &[(Event<'_>, (usize, usize))],
) -> Result<Vec<Pairing>, AllocError> {
    let mut pairings = Vec::new(alloc);
    pairings.push(Pairing {
        old: (0, old.len()),
        new: (0, new.len()),
    })?;
    for _level in 0..LEVELS {
        let (finer, goes_on) = refined(alloc, old, new, &pairings)?;
        pairings = finer;
        if !goes_on {
            break;
        }
    }
    Ok(pairings)
}

/// What is before a block on its line, with spaces for the marks of items.
pub(crate) fn prefix_of(alloc: Global, source: &str, begins: usize) -> Result<String, AllocError> {
    let start = line_start(source.as_bytes(), begins);
    let mut prefix = String::new(alloc);
    for c in source.get(start..begins).unwrap_or("").chars() {
        prefix.push(if c == '>' || c == '\t' { c } else { ' ' })?;
    }
    Ok(prefix)
}

/// A text of which each line but the first is after a prefix.
pub(crate) fn behind_prefix(alloc: Global, text: &str, prefix: &str) -> Result<String, AllocError> {
    let mut all = String::new(alloc);
    for (at, line) in text.split('\n').enumerate() {
        if at > 0 {
            all.push('\n')?;
            all.push_str(if line.is_empty() {
                prefix.trim_end()
            } else {
                prefix
            })?;
        }
        all.push_str(line)?;
    }
    Ok(all)
}

/// The number before a place's dot or parenthesis, if there are digits.
fn number_at(source: &str, begins: usize) -> Option<u64> {
    let rest = source.get(begins..)?;
    let end = rest.find(|c: char| !c.is_ascii_digit())?;
    match rest.get(..end)?.parse::<u64>() {
        Ok(number) => Some(number),
        Err(_) => None,
    }
}

/// An item as a list of its own.
fn list_of_item(
    alloc: Global,
    source: &str,
    begins: usize,
    item: &[(Event<'_>, (usize, usize))],
) -> Result<Vec<(Event<'static>, (usize, usize))>, AllocError> {
    let number = number_at(source, begins);
    let here = (begins, begins);
    let mut all = Vec::new(alloc);
    all.push((Event::Start(Tag::List(number)), here))?;
    for pair in item {
        all.push((pair.0.to_static(alloc)?, pair.1))?;
    }
    all.push((Event::End(TagEnd::List(number.is_some())), here))?;
    Ok(all)
}

/// An item as it is written by itself.
fn write_item<R: Reader>(
    tools: &Tools<'_, '_, '_, R>,
    source: &str,
    begins: usize,
    item: &[(Event<'_>, (usize, usize))],
) -> Result<Piece, Error> {
    let list = list_of_item(tools.alloc, source, begins, item)?;
    write_tree(tools, source, begins, lent(&list))
}

/// A block or an item as it is written by itself; none if it is refused.
fn write_block<'a, R: Reader>(
    tools: &Tools<'_, '_, '_, R>,
    source: &str,
    begins: usize,
    events: &'a [(Event<'a>, (usize, usize))],
) -> Result<Option<Piece>, AllocError> {
    let written = match events.first() {
        Some((Event::Start(Tag::Item), _)) => write_item(tools, source, begins, events),
        _ => write_tree(tools, source, begins, events),
    };
    match written {
        Ok(piece) => Ok(Some(piece)),
        Err(Error::OutOfMemory) => Err(AllocError),
        Err(_) => Ok(None),
    }
}

/// The patch of a block in a container, which is written by itself and is as it did; none if it is refused.
pub(crate) fn block_patch<'a, R: Reader>(
    tools: &Tools<'_, '_, '_, R>,
    source: &str,
    range: (usize, usize),
    events: &'a [(Event<'a>, (usize, usize))],
) -> Result<Option<Patch>, AllocError> {
    let Some(piece) = write_block(tools, source, range.0, events)? else {
        return Ok(None);
    };
    let prefix = prefix_of(tools.alloc, source, range.0)?;
    let text = behind_prefix(tools.alloc, piece.body.as_str(), prefix.as_str())?;
    let bytes = source.as_bytes();
    let to = lines_end(bytes, range.0, range.1);
    let line_end = LineEnd::beside(bytes, range.0, to, tools.line_end);
    Ok(Some(Patch {
        from: range.0,
        to,
        text: line_end.ending(tools.alloc, text.as_str())?,
    }))
}
