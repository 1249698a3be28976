//! Which trees of the edited events are in the source as they are.

ghost use Rattle.std.specs.Prelude.{◌≡◌, ◌↔◌, ◌<◌, ◌+◌, ◌^◌, ℕ, IfOk, IfSome, IsSome, IsTrue, Some, map, slice_get, slice_range};
ghost use Rattle.std.specs.List.{All};
ghost use Rattle.tocmark_compare.specs.Given.{given_events};
ghost use Rattle.tocmark_rewrite.specs.Kept.{HasEventsOf, IsFrom};
ghost use Rattle.tocmark_rewrite.specs.Trees.{ranges_of, trees_of};
ghost use Rattle.tocmark_rewrite.specs.declared.trees.Block.{Block};

use crate::fault::Place;
use crate::trees::{Block, Tree, trees};
use std::alloc::{AllocError, Global};
use tocmark_compare::same::{are_same, differ};
use tocmark_event::event::Event;

/// What becomes of a tree of the edited events.
#[derive(Clone, Copy, Debug)]
pub struct Plan {
    pub tree: Tree,
    /// The place of the block of the source that it stands for, if there is one.
    pub stands_for: Option<usize>,
    /// That block, if its events are those of the tree, or if patches make them so.
    pub kept: Option<Block>,
}

/// The events of a stretch; what ends after the last event ends there.
fn stretch<'e>(
    events: &'e [(Event<'e>, (usize, usize))],
    first: usize,
    past: usize,
) -> &'e [(Event<'e>, (usize, usize))]
    ensures { result.now ≡ slice_range events.now first past }
{
    let past = past.min(events.len());
    if first < past {
        &events[first..past]
    } else {
        &[]
    }
}

/// What is compared: the events that the reader found, their blocks, and the events that were given.
#[derive(Clone, Copy)]
pub(crate) struct Documents<'d, 'e> {
    pub(crate) found: &'d [(Event<'d>, (usize, usize))],
    pub(crate) blocks: &'d [Block],
    pub(crate) given: &'e [(Event<'e>, (usize, usize))],
}

impl Documents<'_, '_> {
    /// Whether a block has the events of a tree, each stretch of texts as one.
    fn have_same(&self, alloc: Global, block: Block, tree: Tree) -> Result<bool, AllocError>
        ensures { IfOk result (λ same. IsTrue same
            ↔ HasEventsOf (given_events self.now.found.now) (given_events self.now.given.now)
            tree block) }
    {
        let left = stretch(self.found, block.tree.first, block.tree.past);
        let right = stretch(self.given, tree.first, tree.past);
        if differ(left, right) {
            return Ok(false);
        }
        let same = are_same(alloc, left, right)?;
        Ok(same)
    }

    /// The block at a place, if it begins where a tree does and has its events.
    fn kept_at(&self, alloc: Global, place: usize, tree: Tree) -> Result<Option<Block>, AllocError>
        ensures kept { IfOk result (λ kept. IfSome kept (λ block.
            (slice_get self.now.blocks.now place ≡ Some block)
            × HasEventsOf (given_events self.now.found.now) (given_events self.now.given.now)
            tree block)) }
        ensures all { IfOk result (λ kept. IfSome (slice_get self.now.blocks.now place) (λ block.
            block.tree.begins ≡ tree.begins
            → HasEventsOf (given_events self.now.found.now) (given_events self.now.given.now)
            tree block → kept ≡ Some block)) }
    {
        match self.blocks.get(place) {
            Some(block) if block.tree.begins == tree.begins => {
                let same = self.have_same(alloc, *block, tree)?;
                Ok(if same { Some(*block) } else { None })
            }
            _ => Ok(None),
        }
    }

    /// The number of the block from a number on that begins where a tree does.
    fn place_of(&self, next: usize, tree: Tree) -> Option<usize> {
        let place = self
            .blocks
            .partition_point(|block| block.tree.begins < tree.begins);
        match self.blocks.get(place) {
            Some(block) if place >= next && block.tree.begins == tree.begins => Some(place),
            _ => None,
        }
    }

    /// Whether the next tree is this block, unchanged.
    fn is_taken(
        &self,
        alloc: Global,
        place: usize,
        follows: Option<&Tree>,
    ) -> Result<bool, AllocError> {
        match follows {
            None => Ok(false),
            Some(tree) => {
                let kept = self.kept_at(alloc, place, *tree)?;
                Ok(kept.is_some())
            }
        }
    }

    /// The plan of a later tree. The tree replaces the block that begins at the same byte, unless the tree has no bytes or
    /// the next tree is that block.
    fn later_plan(
        &self,
        alloc: Global,
        next: usize,
        tree: Tree,
        follows: Option<&Tree>,
    ) -> Result<Plan, AllocError>
        ensures tree { IfOk result (λ plan. plan.tree ≡ tree) }
        ensures kept { IfOk result (IsFrom (given_events self.now.found.now)
            (given_events self.now.given.now) self.now.blocks.now) }
    {
        let new = Plan {
            tree,
            stands_for: None,
            kept: None,
        };
        if tree.begins >= tree.ends {
            return Ok(new);
        }
        let Some(place) = self.place_of(next, tree) else {
            return Ok(new);
        };
        let kept = self.kept_at(alloc, place, tree)?;
        if kept.is_none() && self.is_taken(alloc, place, follows)? {
            return Ok(new);
        }
        Ok(Plan {
            tree,
            stands_for: Some(place),
            kept,
        })
    }

    /// What becomes of a tree, if the blocks before a number are passed.
    fn plan_of(
        &self,
        alloc: Global,
        next: usize,
        tree: Tree,
        follows: Option<&Tree>,
    ) -> Result<Plan, AllocError>
        ensures tree { IfOk result (λ plan. plan.tree ≡ tree) }
        ensures kept { IfOk result (IsFrom (given_events self.now.found.now)
            (given_events self.now.given.now) self.now.blocks.now) }
        ensures all { IfOk result (λ plan. IfSome (slice_get self.now.blocks.now next) (λ block.
            block.tree.begins ≡ tree.begins
            → HasEventsOf (given_events self.now.found.now) (given_events self.now.given.now)
            tree block → (plan.kept ≡ Some block) × (plan.stands_for ≡ Some next))) }
    {
        match self.kept_at(alloc, next, tree)? {
            None => self.later_plan(alloc, next, tree, follows),
            kept => Ok(Plan {
                tree,
                stands_for: Some(next),
                kept,
            }),
        }
    }

    /// What becomes of each tree at the top of the given events.
    pub(crate) fn plans(&self, alloc: Global) -> Result<Vec<Plan>, AllocError>
        ensures trees { IfOk result (λ plans. map (λ plan. plan.tree) plans.items
            ≡ trees_of (given_events self.now.given.now) (ranges_of self.now.given.now)) }
        ensures kept { IfOk result (λ plans. All (IsFrom (given_events self.now.found.now)
            (given_events self.now.given.now) self.now.blocks.now) plans.items) }
        ensures all { IfOk result (λ plans.
            map (λ block. block.tree) self.now.blocks.now
            ≡ trees_of (given_events self.now.found.now) (ranges_of self.now.found.now)
            → given_events self.now.given.now ≡ given_events self.now.found.now
            → ranges_of self.now.given.now ≡ ranges_of self.now.found.now
            → All (λ plan. IsSome plan.kept) plans.items) }
    {
        let mut plans = Vec::new(alloc);
        let mut next = 0usize;
        let trees = trees(alloc, self.given)?;
        for at in 0..trees.len() {
            let follows = trees.get(at.saturating_add(1));
            let plan = self.plan_of(alloc, next, trees[at], follows)?;
            next = behind(next, &plan);
            plans.push(plan)?;
        }
        Ok(plans)
    }
}

/// The first block that isn't passed after a tree, by that before it.
pub(crate) fn behind(next: usize, plan: &Plan) -> usize
    ensures { (place : ℕ) → plan.now.stands_for ≡ Some place → place < 2 ^ 63
        → result ≡ place + 1 }
{
    match plan.stands_for {
        Some(place) => place.saturating_add(1),
        None => next,
    }
}

/// Whether both trees are kept, and were neighbours in the source.
pub(crate) fn were_neighbours(before: &Plan, plan: &Plan) -> bool {
    match (before.stands_for, plan.stands_for) {
        (Some(first), Some(second)) => {
            before.kept.is_some() && plan.kept.is_some() && second == first.saturating_add(1)
        }
        _ => false,
    }
}

/// Whether something was changed directly before the tree at a place.
fn is_changed_before(plans: &[Plan], at: usize) -> bool {
    let Some(plan) = plans.get(at) else {
        return false;
    };
    match at.checked_sub(1) {
        None => plan.stands_for != Some(0),
        Some(last) => plans
            .get(last)
            .is_some_and(|before| !were_neighbours(before, plan)),
    }
}

/// Releases the misread trees that were kept beside a change, so that they are written: those after it at distance 0, those
/// before it at distance 1. None if there are no such trees.
fn loosened_at(
    alloc: Global,
    plans: &[Plan],
    misread: &[bool],
    distance: usize,
) -> Result<Option<Vec<Plan>>, AllocError> {
    let mut loose = Vec::new(alloc);
    let mut is_looser = false;
    for (at, plan) in plans.iter().enumerate() {
        let mut plan = *plan;
        let is_misread = misread.get(at) == Some(&true);
        let is_beside = is_changed_before(plans, at.saturating_add(distance));
        if plan.kept.is_some() && is_misread && is_beside {
            plan.kept = None;
            is_looser = true;
        }
        loose.push(plan)?;
    }
    Ok(if is_looser { Some(loose) } else { None })
}

/// Releases the misread trees that were kept directly after a change. If there are none, it releases those directly before
/// one. None if there are none there either.
pub(crate) fn loosened(
    alloc: Global,
    plans: &[Plan],
    misread: &[bool],
) -> Result<Option<Vec<Plan>>, AllocError> {
    match loosened_at(alloc, plans, misread, 0)? {
        None => loosened_at(alloc, plans, misread, 1),
        behind => Ok(behind),
    }
}

/// Of each block, whether a tree keeps it.
pub(crate) fn kept_blocks(
    alloc: Global,
    blocks: &[Block],
    plans: &[Plan],
) -> Result<Vec<bool>, AllocError> {
    let mut kept = Vec::new(alloc);
    for _block in blocks {
        kept.push(false)?;
    }
    for plan in plans {
        if let Some(place) = plan.stands_for
            && let Some(is_kept) = kept.get_mut(place)
        {
            *is_kept = plan.kept.is_some();
        }
    }
    Ok(kept)
}

/// The lines of the source that a tree stands for.
pub(crate) fn lines_of(blocks: &[Block], plan: &Plan) -> Option<(usize, usize)> {
    let block = blocks.get(plan.stands_for?)?;
    Some(block.lines)
}

/// Where a tree is.
pub(crate) fn place_of(blocks: &[Block], plan: &Plan) -> Place {
    Place {
        event: plan.tree.first,
        lines: lines_of(blocks, plan),
    }
}
