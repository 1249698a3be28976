//! The trees of blocks: those of the source, and those that are read back in the text that is printed for them.

use std::alloc::{AllocError, Global};
use tocmark_printing::numbers::Numbers;
use tocmark_printing::{BlockPlace, Blocks};

/// Places in their order.
#[derive(Drop)]
pub(crate) struct Places {
    /// How far each is after the one before it.
    numbers: Numbers,
    last: usize,
}

/// How many places are before a place that only moves on.
#[derive(Clone, Copy)]
pub(crate) struct Count {
    at: usize,
    last: usize,
    count: usize,
}

impl Places {
    pub(crate) fn new(alloc: Global) -> Places {
        Places {
            numbers: Numbers::new(alloc),
            last: 0,
        }
    }

    /// Adds a place after the others.
    pub(crate) fn push(&mut self, place: usize) -> Result<(), AllocError> {
        self.numbers.push(place.saturating_sub(self.last))?;
        self.last = self.last.max(place);
        Ok(())
    }
}

impl Count {
    pub(crate) fn new() -> Count {
        Count {
            at: 0,
            last: 0,
            count: 0,
        }
    }

    /// Moves on to a place; how many of the places are before it.
    pub(crate) fn move_to(&mut self, places: &Places, place: usize) -> usize {
        for _ in self.at..places.numbers.len() {
            let mut after = self.at;
            let Some(step) = places.numbers.take(&mut after) else {
                break;
            };
            let next = self.last.saturating_add(step);
            if next >= place {
                break;
            }
            self.at = after;
            self.last = next;
            self.count = self.count.saturating_add(1);
        }
        self.count
    }
}

/// The trees of a block: those of its source, and those that are read back in its text, each from one number to another.
#[derive(Clone, Copy)]
pub(crate) struct Trees {
    /// The number of the block.
    pub(crate) block: usize,
    pub(crate) said: (usize, usize),
    pub(crate) read: (usize, usize),
}

/// A walk over the blocks that have trees.
#[derive(Clone, Copy)]
pub(crate) struct TreeWalk {
    place: BlockPlace,
    /// The number of the block at the place.
    at: usize,
    count: Count,
}

impl TreeWalk {
    pub(crate) fn new(blocks: &Blocks) -> TreeWalk {
        TreeWalk {
            place: blocks.first(),
            at: 0,
            count: Count::new(),
        }
    }

    /// Moves after the next block that has trees: its number, its first tree and where its text begins.
    fn step(&mut self, blocks: &Blocks) -> Option<(usize, usize, usize)> {
        for _ in self.at..blocks.len() {
            let block = blocks.take(&mut self.place)?;
            let at = self.at;
            self.at = at.saturating_add(1);
            if let Some(tree) = block.tree {
                return Some((at, tree, block.start));
            }
        }
        None
    }

    /// The trees of the next block that has some. Where the trees begin that are read back is given, and how many trees the
    /// source and the text have.
    pub(crate) fn next(
        &mut self,
        blocks: &Blocks,
        starts: &Places,
        ends: (usize, usize),
    ) -> Option<Trees> {
        let (block, tree, start) = self.step(blocks)?;
        let from = self.count.move_to(starts, start);
        let mut ahead = *self;
        let mut place = self.place;
        let to = match blocks.take(&mut place) {
            Some(next) => ahead.count.move_to(starts, next.start),
            None => ends.1,
        };
        let tree_end = match ahead.step(blocks) {
            Some((_, next, _)) => next,
            None => ends.0,
        };
        Some(Trees {
            block,
            said: (tree, tree_end),
            read: (from, to),
        })
    }
}
