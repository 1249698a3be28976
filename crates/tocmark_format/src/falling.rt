//! Which blocks of a printed document are read otherwise than in its source. These are printed nearer to the source.

ghost use Rattle.std.specs.Prelude.{[]};
ghost use Rattle.tocmark_judge.specs.Summaries.{SumsFirst};

use crate::trees::{Places, TreeWalk};
use std::alloc::{AllocError, Global};
use tocmark_compare::digest::TreeEnd;
use tocmark_event::event::Event;
use tocmark_event::reader::Reading;
use tocmark_judge::shape::Outline;
use tocmark_judge::summary::Summary;
use tocmark_judge::{Judge, PartReader, PartTaker};
use tocmark_printing::{Blocks, Ladder, Placed, Step};

/// Collects what the output says, and where its trees begin.
#[derive(Drop)]
pub(crate) struct ReadBack {
    pub(crate) says: Summary,
    /// Where each tree at the top begins.
    pub(crate) starts: Places,
    /// How many containers are open.
    depth: usize,
}

/// Adds where further trees begin, from so many open containers on; how many are open after them.
fn add_starts(starts: &mut Places, open: usize, events: &[Placed]) -> Result<usize, AllocError> {
    let mut depth = open;
    for (event, range) in events {
        if depth == 0 {
            starts.push(range.0)?;
        }
        match event {
            Event::Start(_) => depth = depth.saturating_add(1),
            Event::End(_) => depth = depth.saturating_sub(1),
            _ => {}
        }
    }
    Ok(depth)
}

impl ReadBack {
    /// Nothing is read yet.
    pub(crate) fn new(alloc: Global, folds: bool) -> ReadBack
        ensures { SumsFirst result.says [] }
    {
        ReadBack {
            says: Summary::new(alloc, folds),
            starts: Places::new(alloc),
            depth: 0,
        }
    }
}

impl PartTaker for ReadBack {
    ghost has_taken = { λ back events. SumsFirst back.says events };

    fn take(&mut self, alloc: Global, part: &Reading) -> Result<(), AllocError> {
        self.depth = add_starts(&mut self.starts, self.depth, &part.events)?;
        self.says.take(alloc, part)
    }
}

/// What a source says, or a text that is read back, and where their trees end.
#[derive(Clone, Copy)]
struct Said<'s> {
    summary: &'s Summary,
    ends: &'s [TreeEnd],
}

/// Moves each block that parses differently, or is apart, one step towards its source. False if no step is left.
fn fall_blocks(
    ladder: &mut Ladder,
    printed: (&Blocks, &Places),
    old: Said<'_>,
    new: Said<'_>,
    apart: &[bool],
) -> bool {
    let (blocks, starts) = printed;
    let mut has_fallen = false;
    let mut walk = TreeWalk::new(blocks);
    let ends = (old.ends.len(), new.ends.len());
    for _ in 0..blocks.len() {
        let Some(trees) = walk.next(blocks, starts, ends) else {
            break;
        };
        let is_apart = apart.get(trees.block) == Some(&true);
        let is_same = old
            .summary
            .has_same_trees(old.ends, trees.said, new.summary, new.ends, trees.read);
        if (is_apart || !is_same) && ladder.fall(trees.said.0, is_apart) {
            has_fallen = true;
        }
    }
    has_fallen
}

/// Moves each tree that parses differently, and the blocks that are apart, one step towards the source. False if no step is
/// left. `printed` also has where the trees of the new text begin. `says` is what the source and these trees say.
pub(crate) fn fall_all(
    ladder: &mut Ladder,
    alloc: Global,
    printed: (&Blocks, &Places),
    says: (&Summary, &Summary),
    apart: &[bool],
) -> Result<bool, AllocError> {
    let (said, read) = says;
    let old = said.tree_ends(alloc)?;
    let new = read.tree_ends(alloc)?;
    for _ in ladder.steps.len()..old.len() {
        ladder.steps.push(Step::Styled)?;
    }
    let had_definitions = ladder.keeps_definitions;
    ladder.keeps_definitions = true;
    let old = Said {
        summary: said,
        ends: &old,
    };
    let new = Said {
        summary: read,
        ends: &new,
    };
    Ok(fall_blocks(ladder, printed, old, new, apart) || !had_definitions)
}

/// Marks the blocks in which a printed text has another shape than its source.
pub fn add_apart(
    apart: &mut Vec<bool>,
    blocks: &Blocks,
    old: &Outline,
    new: &Outline,
) -> Result<(), AllocError> {
    let (mut old_from, mut new_from) = (0usize, 0usize);
    let mut place = blocks.first();
    blocks.take(&mut place);
    for at in 0..blocks.len() {
        let (old_end, new_end) = match blocks.take(&mut place) {
            Some(next) => (next.range.0, next.start),
            None => (usize::MAX, usize::MAX),
        };
        let said = old.marks_before(old_from, old_end);
        let read = new.marks_before(new_from, new_end);
        old_from = old_from.saturating_add(said.len());
        new_from = new_from.saturating_add(read.len());
        let is_apart = said != read;
        match apart.get_mut(at) {
            Some(known) => *known = *known || is_apart,
            None => apart.push(is_apart)?,
        }
    }
    Ok(())
}

/// The blocks of a printed document that are others than in its source under other flags.
pub(crate) fn blocks_apart<R: PartReader>(
    judge: &Judge<'_, R>,
    source: &str,
    text: &str,
    blocks: &Blocks,
) -> Result<Vec<bool>, AllocError> {
    let mut apart = Vec::new(judge.alloc);
    for flags in judge.also {
        let old = judge.outline_of(source, *flags)?;
        let new = judge.outline_of(text, *flags)?;
        add_apart(&mut apart, blocks, &old, &new)?;
    }
    Ok(apart)
}
