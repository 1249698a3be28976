//! The blocks at the top of a document, in few bytes each: a list may be a block for each line.

use crate::numbers::Numbers;
use std::alloc::{AllocError, Global};

/// What is at the top of a document: a tree, some that are kept together, or definitions of links.
#[derive(Clone, Copy)]
pub struct Block {
    /// The number of its first tree; definitions have none.
    pub tree: Option<usize>,
    /// Where it is in the source.
    pub range: (usize, usize),
    /// Where its text begins.
    pub start: usize,
    /// Whether its prefixes outgrew its text, so that it keeps its lines.
    pub is_outgrown: bool,
}

/// What the numbers of a block are counted from: what the block before it has.
#[derive(Clone, Copy)]
struct Before {
    tree: usize,
    to: usize,
    start: usize,
}

impl Before {
    /// What the next block's numbers are counted from.
    fn behind(self, block: Block) -> Before {
        Before {
            tree: block.tree.unwrap_or(self.tree),
            to: block.range.1,
            start: block.start,
        }
    }
}

/// Blocks in the order of their texts, which is the order of the source.
#[derive(Drop)]
pub struct Blocks {
    /// For each block but the last one: its tree's number, counted from the one before, and whether it has one and is
    /// outgrown; where it begins and ends in the source; and where its text begins.
    numbers: Numbers,
    /// What the last block is counted from.
    before: Before,
    last: Option<Block>,
    len: usize,
    /// How many bytes were put before all texts.
    shift: usize,
}

/// A place among blocks.
#[derive(Clone, Copy)]
pub struct BlockPlace {
    at: usize,
    before: Before,
    is_behind_last: bool,
}

impl Blocks {
    /// No blocks.
    pub fn new(alloc: Global) -> Blocks {
        Blocks {
            numbers: Numbers::new(alloc),
            before: Before {
                tree: 0,
                to: 0,
                start: 0,
            },
            last: None,
            len: 0,
            shift: 0,
        }
    }

    /// How many blocks there are.
    pub fn len(&self) -> usize {
        self.len
    }

    /// The block that was added last.
    pub fn last(&self) -> Option<Block> {
        self.last
    }

    /// Marks the last block as one whose prefixes outgrew its text.
    pub fn outgrow_last(&mut self) {
        if let Some(last) = self.last {
            self.last = Some(Block {
                is_outgrown: true,
                ..last
            });
        }
    }

    /// Adds a block after the others. It fails if memory runs out.
    pub fn push(&mut self, block: Block) -> Result<(), AllocError> {
        if let Some(last) = self.last {
            self.pack(last)?;
            self.before = self.before.behind(last);
        }
        self.last = Some(block);
        self.len = self.len.saturating_add(1);
        Ok(())
    }

    /// Puts a block's numbers after the others.
    fn pack(&mut self, block: Block) -> Result<(), AllocError> {
        let before = self.before;
        let signs = match block.tree {
            None => 0,
            Some(tree) => tree
                .saturating_sub(before.tree)
                .saturating_mul(2)
                .saturating_add(1),
        };
        let (from, to) = block.range;
        self.numbers.push(
            signs
                .saturating_mul(2)
                .saturating_add(usize::from(block.is_outgrown)),
        )?;
        self.numbers.push(from.saturating_sub(before.to))?;
        self.numbers.push(to.saturating_sub(from))?;
        self.numbers.push(block.start.saturating_sub(before.start))
    }

    /// Moves all texts after some bytes.
    pub fn shift(&mut self, bytes: usize) {
        self.shift = self.shift.saturating_add(bytes);
    }

    /// The place of the first block.
    pub fn first(&self) -> BlockPlace {
        BlockPlace {
            at: 0,
            before: Before {
                tree: 0,
                to: 0,
                start: 0,
            },
            is_behind_last: false,
        }
    }

    /// A block whose numbers are at a place.
    fn packed(&self, place: &mut BlockPlace) -> Option<Block> {
        let before = place.before;
        let signs = self.numbers.take(&mut place.at)?;
        let trees = signs / 4;
        let from = before.to.saturating_add(self.numbers.take(&mut place.at)?);
        let length = self.numbers.take(&mut place.at)?;
        let start = self.numbers.take(&mut place.at)?;
        Some(Block {
            tree: if signs / 2 % 2 == 1 {
                Some(before.tree.saturating_add(trees))
            } else {
                None
            },
            range: (from, from.saturating_add(length)),
            start: before.start.saturating_add(start),
            is_outgrown: signs % 2 == 1,
        })
    }

    /// Takes the block at a place, which becomes the one after it; none after the last one.
    pub fn take(&self, place: &mut BlockPlace) -> Option<Block> {
        if place.is_behind_last {
            return None;
        }
        let block = match self.packed(place) {
            Some(block) => block,
            None => {
                place.is_behind_last = true;
                self.last?
            }
        };
        place.before = place.before.behind(block);
        Some(Block {
            start: block.start.saturating_add(self.shift),
            ..block
        })
    }
}
