//! Changed trees that keep their lines: the smallest patches of each.
//!
//! As in `patch`, what is made here is tried, and no more.

use crate::definition_reader::DefinitionReader;
use crate::inner::{block_patch, innermost};
use crate::marker::Markers;
use crate::patch::{Patch, Patches};
use crate::pieces::{Tools, events_of, write_tree};
use crate::plan::Plan;
use crate::trees::Block;
use crate::wording::Spelling;
use std::alloc::{AllocError, Global};
use tocmark_event::event::Event;
use tocmark_event::reader::Reader;

/// The source as it was read, and what becomes of the trees that were given.
#[derive(Clone, Copy)]
pub(crate) struct Work<'w> {
    pub(crate) found: &'w [(Event<'w>, (usize, usize))],
    /// The labels that the source defines.
    pub(crate) defined: &'w [String],
    pub(crate) blocks: &'w [Block],
    pub(crate) plans: &'w [Plan],
    /// What replaces bytes of the blocks whose lines stay, and of definitions.
    pub(crate) changes: &'w [Patch],
    /// How each tree is changed. One without a way is written as a whole.
    pub(crate) ways: &'w [Way],
}

impl Work<'_> {
    /// The block of the source that a tree stands for.
    fn block_of(&self, plan: &Plan) -> Option<Block> {
        self.blocks.get(plan.stands_for?).copied()
    }

    /// Whether the tree with a number is spelled near the source if it is written.
    pub(crate) fn is_near(&self, number: usize) -> bool {
        self.ways.get(number) == Some(&Way::Literal)
    }

    /// Whether each tree stands for the block of the source in its place.
    pub(crate) fn is_in_place(&self) -> bool {
        if self.plans.len() != self.blocks.len() {
            return false;
        }
        for (at, plan) in self.plans.iter().enumerate() {
            if plan.stands_for != Some(at) {
                return false;
            }
        }
        true
    }
}

/// Adds the patches of a tree; none and false if there are no small ones.
fn add_small<'a>(
    alloc: Global,
    source: &str,
    patches: &mut Patches,
    old: &'a [(Event<'a>, (usize, usize))],
    new: &'a [(Event<'a>, (usize, usize))],
) -> Result<bool, AllocError> {
    let before = patches.list.len();
    let all = patches.tree(alloc, source, old, new)?;
    if !all {
        patches.list.truncate(before);
    }
    Ok(all)
}

/// Adds the patches of the innermost blocks in which a tree was changed, each by itself; none and false if the
/// tree is the innermost, or if one is refused.
fn add_inner<'a, R: Reader>(
    tools: &Tools<'_, '_, '_, R>,
    source: &str,
    patches: &mut Patches,
    old: &'a [(Event<'a>, (usize, usize))],
    new: &'a [(Event<'a>, (usize, usize))],
) -> Result<bool, AllocError> {
    let before = patches.list.len();
    for pairing in &innermost(tools.alloc, old, new)? {
        let left = old.get(pairing.old.0..pairing.old.1).unwrap_or(&[]);
        let right = new.get(pairing.new.0..pairing.new.1).unwrap_or(&[]);
        if left.len() == old.len() || !add_block(tools, source, patches, left, right)? {
            patches.list.truncate(before);
            return Ok(false);
        }
    }
    Ok(true)
}

/// Adds the patches of a block in a container; none and false if it is refused.
fn add_block<'a, R: Reader>(
    tools: &Tools<'_, '_, '_, R>,
    source: &str,
    patches: &mut Patches,
    old: &'a [(Event<'a>, (usize, usize))],
    new: &'a [(Event<'a>, (usize, usize))],
) -> Result<bool, AllocError> {
    if add_small(tools.alloc, source, patches, old, new)? {
        return Ok(true);
    }
    match old.first() {
        None => Ok(false),
        Some(pair) => {
            let patch = block_patch(tools, source, pair.1, new)?;
            patches.has_texts = patches.has_texts || tools.is_near;
            patches.take(patch)
        }
    }
}

/// Adds the patch that replaces a block's lines by the tree that stands for it, as it is written; false if it is refused.
fn add_written<'a, R: Reader>(
    tools: &Tools<'_, '_, '_, R>,
    source: &str,
    patches: &mut Patches,
    work: &Work<'_>,
    plan: &Plan,
    events: &'a [(Event<'a>, (usize, usize))],
) -> Result<bool, AllocError> {
    let Some(block) = work.block_of(plan) else {
        return Ok(false);
    };
    let tree = events_of(events, plan.tree);
    let Ok(piece) = write_tree(tools, source, block.tree.begins, tree) else {
        return Ok(false);
    };
    patches.written.push(plan.tree.first)?;
    let text = block.line_end.ending(tools.alloc, piece.body.as_str())?;
    patches.list.push(Patch {
        from: block.from,
        to: block.to,
        text,
    })?;
    Ok(true)
}

/// How a tree is changed. The ways are tried in this order.
#[derive(Clone, Copy, Debug, PartialEq, Eq)]
pub(crate) enum Way {
    Literal,
    Escaped,
    Anew,
    /// It is written as a whole, if it has more changes than those of single events and texts.
    Whole,
}

impl Way {
    fn spelling(self) -> Spelling {
        match self {
            Way::Literal => Spelling::Literal,
            Way::Escaped => Spelling::Escaped,
            _ => Spelling::Anew,
        }
    }

    /// Says how the patches of a tree are made.
    fn set(self, patches: &mut Patches, markers: Markers) {
        patches.allows_inner = self != Way::Whole;
        patches.spelling = self.spelling();
        patches.markers = if self == Way::Escaped {
            markers.others()
        } else {
            markers
        };
    }

    /// The way that is tried after this one, by whether new inlines can be spelled in several ways.
    fn next(self, has_texts: bool) -> Way {
        match self {
            Way::Literal if has_texts => Way::Escaped,
            Way::Escaped if has_texts => Way::Anew,
            _ => Way::Whole,
        }
    }
}

/// Adds the patches by which a tree keeps the lines of the block that it stands for, the smallest that there are: those of
/// events, or of blocks in it if these may be written by themselves; none and false if there are none.
fn add_changes<'a, R: Reader>(
    tools: &Tools<'_, '_, '_, R>,
    source: &str,
    patches: &mut Patches,
    work: &Work<'a>,
    plan: &Plan,
    events: &'a [(Event<'a>, (usize, usize))],
) -> Result<bool, AllocError> {
    if plan.kept.is_some() {
        return Ok(true);
    }
    let Some(block) = work.block_of(plan) else {
        return Ok(false);
    };
    let old = events_of(work.found, block.tree);
    let new = events_of(events, plan.tree);
    if add_small(tools.alloc, source, patches, old, new)? {
        return Ok(true);
    }
    if !patches.allows_inner {
        return Ok(false);
    }
    add_inner(tools, source, patches, old, new)
}

/// The trees that keep the lines of a block.
#[derive(Drop)]
pub(crate) struct Standing {
    /// The plans, in which a tree that patches make of a block keeps that, too.
    pub(crate) plans: Vec<Plan>,
    pub(crate) patches: Patches,
}

/// Which trees keep the lines of the blocks that they stand for, each changed in its way.
pub(crate) fn kept_lines<'a, R: DefinitionReader>(
    tools: &Tools<'_, '_, '_, R>,
    source: &str,
    work: &Work<'a>,
    events: &'a [(Event<'a>, (usize, usize))],
    ways: &[Way],
) -> Result<Standing, AllocError> {
    let alloc = tools.alloc;
    let markers = Markers::of(&tools.options);
    let mut patches = Patches::new(alloc, markers);
    let mut plans = Vec::new(alloc);
    for (plan, way) in work.plans.iter().zip(ways) {
        let mut plan = *plan;
        way.set(&mut patches, markers);
        let tools = tools.near_if(*way == Way::Literal);
        if add_changes(&tools, source, &mut patches, work, &plan, events)? {
            plan.kept = work.block_of(&plan);
        }
        plans.push(plan)?;
    }
    if patches.redefines() {
        let found = tools
            .reader
            .reference_definitions(alloc, source, tools.flags)?;
        patches.add_definitions(alloc, source, &found)?;
    }
    Ok(Standing { plans, patches })
}

/// The patches of all trees, where each stands for the block in its place; none if one is refused.
pub(crate) fn all_patches<'a, R: DefinitionReader>(
    tools: &Tools<'_, '_, '_, R>,
    source: &str,
    work: &Work<'a>,
    events: &'a [(Event<'a>, (usize, usize))],
    ways: &[Way],
) -> Result<Option<Patches>, AllocError> {
    let Standing { plans, mut patches } = kept_lines(tools, source, work, events, ways)?;
    for (plan, way) in plans.iter().zip(ways) {
        let tools = tools.near_if(*way == Way::Literal);
        if plan.kept.is_none() && !add_written(&tools, source, &mut patches, work, plan, events)? {
            return Ok(None);
        }
    }
    patches.sort()?;
    Ok(Some(patches))
}

/// The first way for each tree.
pub(crate) fn first_ways(alloc: Global, work: &Work<'_>) -> Result<Vec<Way>, AllocError> {
    let mut ways = Vec::new(alloc);
    for _plan in work.plans {
        ways.push(Way::Literal)?;
    }
    Ok(ways)
}

/// The next way for each changed tree that is misread; for all of them if no tree is.
pub(crate) fn next_ways(
    alloc: Global,
    work: &Work<'_>,
    misread: &[bool],
    ways: &[Way],
    has_texts: bool,
) -> Result<Vec<Way>, AllocError> {
    let is_none = !misread.contains(&true);
    let mut next = Vec::new(alloc);
    for (at, (way, plan)) in ways.iter().zip(work.plans).enumerate() {
        let is_misread = is_none || misread.get(at) == Some(&true);
        let goes_on = is_misread && plan.kept.is_none();
        next.push(if goes_on { way.next(has_texts) } else { *way })?;
    }
    Ok(next)
}
