//! The trees at the top of a list of events, and the lines of the source that they are on.

ghost use Rattle.std.specs.Prelude.{◌≡◌, ◌≤◌, ◌<◌, ◌^◌, ◌⊎◌, IfOk, length, map};
ghost use Rattle.std.specs.List.{All};
ghost use Rattle.tocmark_event.specs.Text.{text_of};
ghost use Rattle.tocmark_event.specs.View.{event_view};
ghost use Rattle.tocmark_rewrite.specs.Lines.{AreBlank, HasItsLines, is_blank, is_blank_at};
ghost use Rattle.tocmark_compare.specs.Given.{given_events};
ghost use Rattle.tocmark_rewrite.specs.Trees.{depth_behind, ranges_of, tree_at, trees_of};

use crate::line_end::{LineEnd, is_end};
use std::alloc::{AllocError, Global};
use tocmark_event::event::Event;

/// A tree at the top of a list.
#[derive(Clone, Copy, Debug)]
pub struct Tree {
    /// Its first event.
    pub first: usize,
    /// The event after it.
    pub past: usize,
    /// Where it begins and ends in the source, as its first event says.
    pub begins: usize,
    pub ends: usize,
}

/// A tree that the reader found, and its lines.
#[derive(Clone, Copy, Debug)]
pub struct Block {
    pub tree: Tree,
    /// Its first line's first byte.
    pub from: usize,
    /// The end of its last line.
    pub to: usize,
    /// Its first and its last line, counted from 1.
    pub lines: (usize, usize),
    /// What ends its last line, or else the line before it.
    pub line_end: LineEnd,
}

fn is_blank(byte: u8) -> bool
    ensures { result ≡ is_blank byte }
{
    byte == b' ' || byte == b'\t' || byte == b'\n' || byte == b'\r'
}

/// Whether a byte is blank, or there is none.
fn is_blank_at(bytes: &[u8], at: usize) -> bool
    ensures { result ≡ is_blank_at bytes.now at }
{
    match bytes.get(at) {
        Some(byte) => is_blank(*byte),
        None => true,
    }
}

/// The first byte of the line on which a byte is.
pub fn line_start(bytes: &[u8], at: usize) -> usize
    ensures { result ≤ at }
{
    for k in (0..at.min(bytes.len())).rev() {
        if let Some(byte) = bytes.get(k)
            && is_end(*byte)
        {
            return k.saturating_add(1);
        }
    }
    0
}

/// The end of the line on which a byte is.
pub fn line_end(bytes: &[u8], at: usize) -> usize
    ensures ends { result ≤ length bytes.now }
    ensures follows { at ≤ result ⊎ length bytes.now ≤ result }
{
    for k in at..bytes.len() {
        if let Some(byte) = bytes.get(k)
            && is_end(*byte)
        {
            return k;
        }
    }
    bytes.len()
}

/// The byte after the last one of a stretch that isn't blank; the first one if all are.
fn past_text(bytes: &[u8], from: usize, to: usize) -> usize
    ensures { AreBlank bytes.now result to }
{
    for k in (from..to.min(bytes.len())).rev() {
        if !is_blank_at(bytes, k) {
            return k.saturating_add(1);
        }
    }
    from
}

/// The end of the last line of a stretch that isn't blank.
pub fn lines_end(bytes: &[u8], from: usize, to: usize) -> usize
    ensures blank { AreBlank bytes.now result to }
    ensures ends { result ≤ length bytes.now }
{
    line_end(bytes, past_text(bytes, from, to))
}

/// Whether some byte of a stretch isn't blank.
pub fn has_text(bytes: &[u8], from: usize, to: usize) -> bool {
    for k in from..to.min(bytes.len()) {
        if !is_blank_at(bytes, k) {
            return true;
        }
    }
    false
}

/// The stretch without blank lines before it and blank bytes after it.
pub fn trimmed(bytes: &[u8], from: usize, to: usize) -> (usize, usize) {
    let mut first = from;
    for k in from..to {
        if let Some(byte) = bytes.get(k) {
            if !is_blank(*byte) {
                break;
            }
            if is_end(*byte) {
                first = k.saturating_add(1);
            }
        }
    }
    (first, past_text(bytes, first, to))
}

/// How many lines end before a byte.
#[derive(Drop)]
pub struct LineCounter {
    at: usize,
    ended: usize,
}

impl LineCounter {
    /// Counts from the first byte on.
    pub fn new() -> LineCounter {
        LineCounter { at: 0, ended: 0 }
    }

    /// The number of the line on which a byte is, counted from 1; bytes are asked for in their order.
    pub fn line_of(&mut self, bytes: &[u8], at: usize) -> usize {
        for k in self.at..at.min(bytes.len()) {
            let next = bytes.get(k.saturating_add(1));
            match bytes.get(k) {
                Some(b'\n') => self.ended = self.ended.saturating_add(1),
                Some(b'\r') if next != Some(&b'\n') => self.ended = self.ended.saturating_add(1),
                _ => {}
            }
        }
        self.at = self.at.max(at);
        self.ended.saturating_add(1)
    }
}

/// The tree of a stretch of events.
fn tree_at(events: &[(Event<'_>, (usize, usize))], first: usize, past: usize) -> Tree
    ensures { result ≡ tree_at (ranges_of events.now) (first, past) }
{
    let (begins, ends) = match events.get(first) {
        Some(pair) => pair.1,
        None => (0, 0),
    };
    Tree {
        first,
        past,
        begins,
        ends,
    }
}

/// How many containers are open after an event.
fn depth_behind(depth: usize, event: &Event<'_>) -> usize
    requires { depth < 2 ^ 63 }
    ensures { result ≡ depth_behind depth (event_view text_of event.now) }
{
    match event {
        Event::Start(_) => depth + 1,
        Event::End(_) => depth.saturating_sub(1),
        _ => depth,
    }
}

/// The trees at the top, in their order. What has no end is a tree up to the last event.
pub fn trees(alloc: Global, events: &[(Event<'_>, (usize, usize))]) -> Result<Vec<Tree>, AllocError>
    ensures { IfOk result (λ all. all.items
        ≡ trees_of (given_events events.now) (ranges_of events.now)) }
{
    let mut all = Vec::new(alloc);
    let mut depth = 0usize;
    let mut first = 0usize;
    for i in 0..events.len() {
        depth = depth_behind(depth, &events[i].0);
        if depth == 0 {
            all.push(tree_at(events, first, i + 1))?;
            first = i + 1;
        }
    }
    if depth > 0 {
        all.push(tree_at(events, first, events.len()))?;
    }
    Ok(all)
}

/// The trees that the reader found in a part of a source, with their lines. The parts come in their
/// order, with the same counter.
pub fn blocks_in(
    alloc: Global,
    source: &str,
    part: &[(Event<'_>, (usize, usize))],
    counter: &mut LineCounter,
) -> Result<Vec<Block>, AllocError>
    ensures trees { IfOk result (λ all.
        map (λ b. b.tree) all.items ≡ trees_of (given_events part.now) (ranges_of part.now)) }
    ensures lines { IfOk result (λ all. All (HasItsLines source.now) all.items) }
{
    let bytes = source.as_bytes();
    let common = LineEnd::of(source);
    let mut all = Vec::new(alloc);
    for tree in &trees(alloc, part)? {
        let from = line_start(bytes, tree.begins);
        let to = lines_end(bytes, tree.begins, tree.ends);
        let first_line = counter.line_of(bytes, from);
        let last_line = counter.line_of(bytes, to);
        all.push(Block {
            tree: *tree,
            from,
            to,
            lines: (first_line, last_line),
            line_end: LineEnd::beside(bytes, from, to, common),
        })?;
    }
    Ok(all)
}

/// The trees that the reader found, with their lines.
pub fn blocks(
    alloc: Global,
    source: &str,
    events: &[(Event<'_>, (usize, usize))],
) -> Result<Vec<Block>, AllocError>
    ensures trees { IfOk result (λ all.
        map (λ b. b.tree) all.items
        ≡ trees_of (given_events events.now) (ranges_of events.now)) }
    ensures lines { IfOk result (λ all. All (HasItsLines source.now) all.items) }
{
    blocks_in(alloc, source, events, &mut LineCounter::new())
}

/// The source between the block before the one with a number and that block.
pub(crate) fn gap(source: &str, blocks: &[Block], k: usize) -> (usize, usize) {
    let from = match k.checked_sub(1) {
        None => 0,
        Some(before) => match blocks.get(before) {
            None => source.len(),
            Some(block) => block.to,
        },
    };
    let to = match blocks.get(k) {
        None => source.len(),
        Some(block) => block.from,
    };
    (from, to)
}
