//! The answer: the new text, and what became of each tree.

ghost use Rattle.std.specs.Prelude.{◌≡◌, ◌≤◌, ℕ, IfOk, IfSome, IsSome, IsTrue, List, Some, map, slice_get};
ghost use Rattle.std.specs.List.{All};
ghost use Rattle.tocmark_event.specs.View.{EventView};
ghost use Rattle.tocmark_rewrite.specs.declared.output.Part.{Part};
ghost use Rattle.tocmark_rewrite.specs.declared.output.Part.TheVariants.{Source};
ghost use Rattle.tocmark_rewrite.specs.declared.answer.RewrittenTree.{RewrittenTree};
ghost use Rattle.tocmark_rewrite.specs.declared.trees.Block.{Block};
ghost use Rattle.tocmark_rewrite.specs.Kept.{AreCopied, Copies, FateIsSo, IsCopied, IsHonest, IsKeptIn, IsTold, ReadSource, WasKept, planned_span, span_of};

use crate::output::Part;
use crate::plan::{Plan, lines_of};
use crate::trees::Block;
use std::alloc::{AllocError, Global};

/// A block that is in the new text as it is in the source.
#[derive(Clone, Copy, Debug, PartialEq, Eq)]
pub struct Kept {
    /// Its events in the reading of the source: the first one, and the one after the last.
    pub first: usize,
    pub past: usize,
    /// The bytes of its lines in the source, without the last line's end.
    pub from: usize,
    pub to: usize,
    /// The part of the new text that copies them.
    pub part: usize,
}

/// What became of a tree.
#[derive(Clone, Copy, Debug, PartialEq, Eq)]
pub enum Fate {
    /// Its lines are those of the source.
    Kept(Kept),
    /// Some bytes of its lines were replaced: those of changed events, blocks or items, of a definition that others use, or
    /// the marks of a list that follows another one.
    Patched,
    /// It was written anew.
    Written,
}

/// A block at the top of the events that you passed.
#[derive(Clone, Copy, Debug, PartialEq, Eq)]
pub struct RewrittenTree {
    /// Its first event.
    pub first: usize,
    /// The event after it.
    pub past: usize,
    /// The first and the last line of the source's block that it is, or that it replaces, counted from 1; none if it is new.
    pub lines: Option<(usize, usize)>,
    pub fate: Fate,
}

/// The new text.
#[derive(Debug, Drop)]
pub struct Rewritten {
    pub text: String,
    /// What the text consists of, in order.
    pub parts: Vec<Part>,
    /// What became of each block at the top of the events that you passed, in order.
    pub trees: Vec<RewrittenTree>,
}

/// The first part after one that copies all of these bytes; none is looked for after one that copies later bytes.
fn later_part(parts: &[Part], next: usize, from: usize, to: usize) -> Option<usize>
    ensures { IfSome result (λ at. Copies parts.now at from to) }
{
    for at in next.saturating_add(1)..parts.len() {
        if let Some(Part::Source(first, past)) = parts.get(at) {
            if *first <= from && to <= *past {
                return Some(at);
            }
            if *first > from {
                return None;
            }
        }
    }
    None
}

/// The first part from one on that copies all of these bytes.
fn part_of(parts: &[Part], next: usize, from: usize, to: usize) -> Option<usize>
    ensures copied { IfSome result (λ at. Copies parts.now at from to) }
    ensures all { IsCopied parts.now next from to → result ≡ Some next }
{
    match parts.get(next) {
        Some(Part::Source(first, past)) if *first <= from && to <= *past => Some(next),
        _ => later_part(parts, next, from, to),
    }
}

fn changed(patched: bool) -> Fate
    ensures { (r : ReadSource) → (given : List EventView) → (parts : List Part)
        → (t : RewrittenTree) → FateIsSo r given parts t result }
{
    if patched {
        Fate::Patched
    } else {
        Fate::Written
    }
}

/// What became of a tree.
fn fate_of(parts: &[Part], next: usize, plan: &Plan, patched: bool) -> Fate
    ensures told { (r : ReadSource) → (given : List EventView) → IsHonest r given plan.now
        → (t : RewrittenTree) → t.first ≡ plan.now.tree.first → t.past ≡ plan.now.tree.past
        → FateIsSo r given parts.now t result }
    ensures all { (block : Block) → plan.now.kept ≡ Some block
        → IsCopied parts.now next block.from block.to → IsKeptIn next result }
{
    let Some(block) = plan.kept else {
        return changed(patched);
    };
    let Some(part) = part_of(parts, next, block.from, block.to) else {
        return changed(patched);
    };
    Fate::Kept(Kept {
        first: block.tree.first,
        past: block.tree.past,
        from: block.from,
        to: block.to,
        part,
    })
}

/// What is said of a tree; `patched` tells what became of those that weren't kept.
fn tree_of(
    blocks: &[Block],
    parts: &[Part],
    next: usize,
    plan: &Plan,
    patched: bool,
) -> RewrittenTree
    ensures place { span_of result ≡ planned_span plan.now }
    ensures told { (r : ReadSource) → (given : List EventView) → IsHonest r given plan.now
        → IsTold r given parts.now result }
    ensures all { (block : Block) → plan.now.kept ≡ Some block
        → IsCopied parts.now next block.from block.to → IsKeptIn next result.fate }
{
    RewrittenTree {
        first: plan.tree.first,
        past: plan.tree.past,
        lines: lines_of(blocks, plan),
        fate: fate_of(parts, next, plan, patched),
    }
}

/// The first part from one on that copies bytes after a place.
fn part_behind(parts: &[Part], next: usize, place: usize) -> usize {
    for at in next..parts.len() {
        if let Some(Part::Source(_, past)) = parts.get(at)
            && *past > place
        {
            return at;
        }
    }
    parts.len()
}

/// The first part in which trees after one can be kept: the one in which that was.
fn next_part(parts: &[Part], next: usize, plan: &Plan, fate: Fate) -> usize
    ensures { (part : ℕ) → IsKeptIn part fate → result ≡ part }
{
    match fate {
        Fate::Kept(kept) => kept.part,
        _ => match plan.kept {
            Some(block) => part_behind(parts, next, block.from),
            None => next,
        },
    }
}

/// What became of each tree: those that weren't kept were patched, if trees are or if they could be kept, but for the ones
/// that begin with the events at these places.
pub(crate) fn told(
    alloc: Global,
    blocks: &[Block],
    parts: &[Part],
    plans: &[Plan],
    patched: bool,
    written: &[usize],
) -> Result<Vec<RewrittenTree>, AllocError>
    ensures trees { IfOk result (λ trees. map span_of trees.items
        ≡ map planned_span plans.now) }
    ensures told { IfOk result (λ trees. (r : ReadSource) → (given : List EventView)
        → All (IsHonest r given) plans.now → All (IsTold r given parts.now) trees.items) }
    ensures all { IfOk result (λ trees. AreCopied parts.now plans.now
        → All WasKept trees.items) }
{
    let mut trees = Vec::new(alloc);
    let mut next = 0usize;
    for plan in plans {
        let is_written = written.binary_search(&plan.tree.first).is_ok();
        let is_patched = (patched || plan.kept.is_some()) && !is_written;
        let tree = tree_of(blocks, parts, next, plan, is_patched);
        next = next_part(parts, next, plan, tree.fate);
        trees.push(tree)?;
    }
    Ok(trees)
}
