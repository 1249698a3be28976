//! Which blocks keep their lines, and why.

ghost use Rattle.std.specs.Prelude.{◌≡◌, ◌≢◌, [], IfOk, IsFalse, None, OnOk};
ghost use Rattle.tocmark_format.specs.Named.{AreInOrder, IsNamed};
ghost use Rattle.tocmark_printing.specs.Kept.{keeps_some};

use crate::answer::{Left, Reason};
use crate::range::{LineCount, Lines};
use std::alloc::{AllocError, Global};
use tocmark_printing::{Block, Blocks, Ladder};

/// Blocks that are named by their lines.
#[derive(Drop)]
struct Named {
    all: Vec<Left>,
    /// The last line that is named; 0 without one.
    last: usize,
}

impl Named {
    fn new(alloc: Global) -> Named
        ensures { IsNamed result }
    {
        Named {
            all: Vec::new(alloc),
            last: 0,
        }
    }

    /// Names a block, if it is below all that are named.
    fn add(&mut self, lines: Lines, reason: Reason) -> Result<(), AllocError>
        ensures { IsNamed self.old → OnOk result (IsNamed self.new) }
    {
        if self.last < lines.first && lines.first <= lines.last {
            self.all.push(Left {
                lines: (lines.first, lines.last),
                reason,
            })?;
            self.last = lines.last;
        }
        Ok(())
    }
}

/// Why a block keeps its lines; `None` if it doesn't. Definitions of links have no tree, and aren't named.
fn reason_of(ladder: &Ladder, block: Block) -> Option<Reason> {
    let tree = block.tree?;
    if block.is_outgrown {
        Some(Reason::Outgrown)
    } else if ladder.step(tree).keeps_lines() {
        Some(Reason::ReadOtherwise)
    } else {
        None
    }
}

/// Names a line alone, for what is on it and below; the first one for 0.
pub(crate) fn one_line(alloc: Global, line: usize) -> Result<Vec<Left>, AllocError>
    ensures ordered { IfOk result (λ all. AreInOrder 0 all.items) }
    ensures some { IfOk result (λ all. all.items ≢ []) }
{
    let first = line.max(1);
    let mut all = Vec::new(alloc);
    all.push(Left {
        lines: (first, first),
        reason: Reason::ReadOtherwise,
    })?;
    Ok(all)
}

/// The blocks of a text that keep their lines, of those that these lines touch.
fn blocks_kept(
    alloc: Global,
    text: &str,
    ladder: &Ladder,
    blocks: &Blocks,
    asked: Option<Lines>,
) -> Result<Vec<Left>, AllocError>
    ensures { IfOk result (λ all. AreInOrder 0 all.items) }
{
    let mut named = Named::new(alloc);
    let mut count = LineCount::new(text);
    let mut place = blocks.first();
    for _block in 0..blocks.len() {
        let Some(block) = blocks.take(&mut place) else {
            break;
        };
        let Some(reason) = reason_of(ladder, block) else {
            continue;
        };
        let lines = count.lines_of(block);
        if asked.is_none_or(|asked| asked.touch(lines)) {
            named.add(lines, reason)?;
        }
    }
    let Named { all, .. } = named;
    Ok(all)
}

/// The blocks of a text that keep their lines, of those that the lines to format touch. If all lines are asked for and none is
/// named, no tree keeps its lines.
pub(crate) fn blocks_left(
    alloc: Global,
    text: &str,
    ladder: &Ladder,
    blocks: &Blocks,
    asked: Option<Lines>,
) -> Result<Vec<Left>, AllocError>
    ensures ordered { IfOk result (λ all. AreInOrder 0 all.items) }
    ensures told { IfOk result (λ all. asked ≡ None → all.items ≡ []
        → IsFalse (keeps_some ladder.now)) }
{
    let left = blocks_kept(alloc, text, ladder, blocks, asked)?;
    if asked.is_none() && left.is_empty() && ladder.keeps_some() {
        return one_line(alloc, 1);
    }
    Ok(left)
}
