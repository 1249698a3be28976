//! Blocks side by side: those that are kept as they are in the source, those that were written between them.

ghost use Rattle.std.specs.Prelude.{IfOk, OnOk};
ghost use Rattle.tocmark_rewrite.specs.Parts.{Builds};

use crate::joint::Joint;
use crate::line_end::{LineEnd, ends_between};
use crate::output::Output;
use crate::patch::Patch;
use crate::pieces::{Definitions, Piece};
use crate::plan::{Plan, behind};
use crate::trees::{Block, gap, has_text, trimmed};
use std::alloc::{AllocError, Global};

/// What is between two blocks of which the second would be read as a part of the first: the definition of a label that
/// nothing uses.
const DIVIDER: &str = "[cmark-apart-1]: <>";

/// The source with its patches, whose places grow; none that begins before the end of another is made.
pub(crate) fn patched(
    alloc: Global,
    source: &str,
    patches: &[Patch],
    written: &[usize],
) -> Result<Output, AllocError>
    ensures { IfOk result (λ output. Builds source.now output) }
{
    let mut output = Output::new(alloc, source);
    let mut at = 0usize;
    for patch in patches {
        if at <= patch.from {
            output.copy(source, at, patch.from)?;
            output.put(source, patch.text.clone()?)?;
            at = patch.to;
        }
    }
    output.copy(source, at, source.len())?;
    output.is_patched = true;
    output.written.extend_from_slice(written)?;
    Ok(output)
}

/// Patches in the order of their places.
#[derive(Drop)]
pub(crate) struct PlacedPatches {
    /// Those of blocks of the source. One that inserts a text can have the place of a block's first byte or of its end.
    in_blocks: Vec<Patch>,
    /// Those of what is between blocks: definitions.
    in_gaps: Vec<Patch>,
}

impl PlacedPatches {
    pub(crate) fn of(
        alloc: Global,
        blocks: &[Block],
        mut patches: Vec<Patch>,
    ) -> Result<PlacedPatches, AllocError> {
        patches.sort_by_key(|patch| patch.from)?;
        let mut in_blocks = Vec::new(alloc);
        let mut in_gaps = Vec::new(alloc);
        for patch in &patches {
            let copy = patch.copied(alloc)?;
            let from = copy.from;
            let place = blocks.partition_point(|block| block.to < from);
            if blocks.get(place).is_some_and(|block| block.from <= from) {
                in_blocks.push(copy)?;
            } else {
                in_gaps.push(copy)?;
            }
        }
        Ok(PlacedPatches { in_blocks, in_gaps })
    }
}

/// The blocks of the source, and what replaces bytes of theirs and between them.
#[derive(Clone, Copy)]
struct Between<'b> {
    blocks: &'b [Block],
    in_blocks: &'b [Patch],
    in_gaps: &'b [Patch],
    /// What ends the first line of the source.
    common: LineEnd,
}

impl Between<'_> {
    /// What ends the line before the block with a number.
    fn line_end(self, number: usize) -> LineEnd {
        let near = match number.checked_sub(1) {
            Some(before) => self.blocks.get(before),
            None => self.blocks.first(),
        };
        match near {
            Some(block) => block.line_end,
            None => self.common,
        }
    }
}

/// Two line ends, if something is before.
fn separate(source: &str, line_end: LineEnd, output: &mut Output) -> Result<(), AllocError>
    requires { Builds source.now output.old }
    ensures { OnOk result (Builds source.now output.new) }
{
    if output.text.is_empty() {
        return Ok(());
    }
    output.put_str(source, line_end.as_str())?;
    output.put_str(source, line_end.as_str())
}

/// What is in the gaps from one block of the source on to another: definitions.
fn put_gaps(
    source: &str,
    between: Between<'_>,
    first: usize,
    last: usize,
    output: &mut Output,
) -> Result<(), AllocError>
    requires { Builds source.now output.old }
    ensures { OnOk result (Builds source.now output.new) }
{
    for k in first..last {
        let (from, to) = gap(source, between.blocks, k);
        if has_text(source.as_bytes(), from, to) {
            separate(source, between.line_end(k), output)?;
            let (start, past) = trimmed(source.as_bytes(), from, to);
            copy_stretch(source, between.in_gaps, start, past, output)?;
        }
    }
    Ok(())
}

/// A stretch of the source with its patches; none that begins before the end of another is made.
fn copy_stretch(
    source: &str,
    patches: &[Patch],
    from: usize,
    to: usize,
    output: &mut Output,
) -> Result<(), AllocError>
    requires { Builds source.now output.old }
    ensures { OnOk result (Builds source.now output.new) }
{
    let mut at = from;
    let first = patches.partition_point(|patch| patch.from < from);
    for k in first..patches.len() {
        let Some(patch) = patches.get(k) else {
            break;
        };
        if patch.to > to {
            break;
        }
        if at <= patch.from {
            output.copy(source, at, patch.from)?;
            output.put(source, patch.text.clone()?)?;
            at = patch.to;
        }
    }
    output.copy(source, at, to)
}

/// How the blocks are put side by side.
#[derive(Clone, Copy, Debug)]
pub(crate) struct Manner {
    /// Whether a blank line is before and after a written block, also where the source has none.
    pub(crate) apart: bool,
    /// Whether definitions that written blocks ask for take the place of the source's of these labels.
    pub(crate) redefines: bool,
    /// Whether they are at the end.
    pub(crate) defines: bool,
}

impl Manner {
    pub(crate) fn new(apart: bool, redefines: bool, defines: bool) -> Manner {
        Manner {
            apart,
            redefines,
            defines,
        }
    }
}

/// A line end, and another one if no line has ended; then the definitions and a line end.
fn put_definitions(
    source: &str,
    definitions: &Definitions,
    line_end: LineEnd,
    output: &mut Output,
) -> Result<(), AllocError>
    requires { Builds source.now output.old }
    ensures { OnOk result (Builds source.now output.new) }
{
    let end = line_end.as_str();
    let text = definitions.text(output.alloc, end)?;
    if text.is_empty() {
        return Ok(());
    }
    if !output.text.is_empty() {
        if !output.ends_line() {
            output.put_str(source, end)?;
        }
        output.put_str(source, end)?;
    }
    output.put(source, text)?;
    output.put_str(source, end)
}

/// Whether a stretch between two blocks begins and ends with a blank line.
fn is_wide(bytes: &[u8], from: usize, to: usize) -> bool {
    let (first, past) = trimmed(bytes, from, to);
    if first >= past {
        return ends_between(bytes, from, to) > 1;
    }
    ends_between(bytes, from, first) > 1 && ends_between(bytes, past, to) > 1
}

/// Whether a stretch after the last block has no text, or a blank line before it.
fn begins_wide(bytes: &[u8], from: usize, to: usize) -> bool {
    let (first, past) = trimmed(bytes, from, to);
    first >= past || ends_between(bytes, from, first) > 1
}

/// Whether there is text in a gap of the source, from one to another.
fn have_text(source: &str, between: Between<'_>, first: usize, last: usize) -> bool {
    for number in first..last.saturating_add(1) {
        let (from, to) = gap(source, between.blocks, number);
        if has_text(source.as_bytes(), from, to) {
            return true;
        }
    }
    false
}

/// The stretch of the source that is before the block at a place as it is in the source, if there is one:
/// if no block was taken out before it, the gap before it; else, if there is no text, a gap with a blank line. If a new tree is
/// in the place of these blocks, it has the gap before them, and the one after them is here.
fn stretch_before(
    source: &str,
    between: Between<'_>,
    last: Last,
    place: usize,
    is_loose: bool,
) -> Option<(usize, usize)> {
    let bytes = source.as_bytes();
    let (from, to) = gap(source, between.blocks, place);
    if last.next == place {
        return if !is_loose || is_wide(bytes, from, to) {
            Some((from, to))
        } else {
            None
        };
    }
    let replaces = last.replaces && is_wide(bytes, from, to);
    if replaces && !have_text(source, between, last.next, place.saturating_sub(1)) {
        return Some((from, to));
    }
    if have_text(source, between, last.next, place) {
        return None;
    }
    let (start, past) = gap(source, between.blocks, last.next);
    if last.next == 0 && !is_loose || is_wide(bytes, start, past) {
        Some((start, past))
    } else if is_wide(bytes, from, to) {
        Some((from, to))
    } else {
        None
    }
}

/// The gap before the blocks whose place a new tree takes, if it can be before that tree: it has a blank line or is the front
/// of the source, and has no text.
fn replaced_gap(source: &str, between: Between<'_>, next: usize) -> Option<(usize, usize)> {
    let (from, to) = gap(source, between.blocks, next);
    let bytes = source.as_bytes();
    if !has_text(bytes, from, to) && (next == 0 || is_wide(bytes, from, to)) {
        Some((from, to))
    } else {
        None
    }
}

/// What is before a new tree.
fn put_before_new(
    source: &str,
    between: Between<'_>,
    next: usize,
    replaces: bool,
    output: &mut Output,
) -> Result<(), AllocError>
    requires { Builds source.now output.old }
    ensures { OnOk result (Builds source.now output.new) }
{
    if replaces && let Some((from, to)) = replaced_gap(source, between, next) {
        return copy_stretch(source, between.in_gaps, from, to, output);
    }
    separate(source, between.line_end(next), output)
}

/// What is before a tree.
fn put_before(
    source: &str,
    between: Between<'_>,
    last: Last,
    joint: &Joint,
    output: &mut Output,
) -> Result<(), AllocError>
    requires { Builds source.now output.old }
    ensures { OnOk result (Builds source.now output.new) }
{
    let Some(place) = joint.plan.stands_for else {
        return put_before_new(source, between, last.next, joint.replaces, output);
    };
    let is_loose = last.is_loose(joint.plan.kept.is_some());
    if let Some((from, to)) = stretch_before(source, between, last, place, is_loose) {
        return copy_stretch(source, between.in_gaps, from, to, output);
    }
    put_gaps(source, between, last.next, place.saturating_add(1), output)?;
    separate(source, between.line_end(place), output)
}

/// A definition before a block that would be read as a part of the one before it.
fn put_divider(
    source: &str,
    between: Between<'_>,
    next: usize,
    output: &mut Output,
) -> Result<(), AllocError>
    requires { Builds source.now output.old }
    ensures { OnOk result (Builds source.now output.new) }
{
    separate(source, between.line_end(next), output)?;
    output.put_str(source, DIVIDER)?;
    separate(source, between.line_end(next), output)
}

/// A block, kept or written, whose lines end in this way.
fn put_block(
    source: &str,
    between: Between<'_>,
    plan: &Plan,
    piece: &Piece,
    line_end: LineEnd,
    output: &mut Output,
) -> Result<(), AllocError>
    requires { Builds source.now output.old }
    ensures { OnOk result (Builds source.now output.new) }
{
    match plan.kept {
        Some(block) => copy_stretch(source, between.in_blocks, block.from, block.to, output),
        None => {
            output.written.push(plan.tree.first)?;
            let text = line_end.ending(output.alloc, piece.body.as_str())?;
            output.put(source, text)
        }
    }
}

/// The source's end, or what is left of it if its last blocks were taken out. After definitions at the end it is as it was.
fn put_tail(
    source: &str,
    between: Between<'_>,
    last: Last,
    output: &mut Output,
) -> Result<(), AllocError>
    requires { Builds source.now output.old }
    ensures { OnOk result (Builds source.now output.new) }
{
    let count = between.blocks.len();
    let (from, to) = gap(source, between.blocks, count);
    if last.keeps_tail(source, between, output.text.is_empty()) {
        return copy_stretch(source, between.in_gaps, from, to, output);
    }
    put_gaps(source, between, last.next, count.saturating_add(1), output)?;
    if output.text.is_empty() {
        return Ok(());
    }
    if has_text(source.as_bytes(), from, to) {
        let (_, past) = trimmed(source.as_bytes(), from, to);
        return output.copy(source, past, to);
    }
    output.put_str(source, between.line_end(last.next).as_str())
}

/// A line end, if a text has none at its end.
fn end_line(source: &str, line_end: LineEnd, output: &mut Output) -> Result<(), AllocError>
    requires { Builds source.now output.old }
    ensures { OnOk result (Builds source.now output.new) }
{
    if output.text.is_empty() || output.ends_line() {
        return Ok(());
    }
    output.put_str(source, line_end.as_str())
}

/// What was written: the trees that aren't kept, the definitions that they ask for, and what these and the other changes
/// replace in the source.
#[derive(Clone, Copy)]
pub(crate) struct Written<'w> {
    pub(crate) pieces: &'w [Piece],
    pub(crate) definitions: &'w Definitions,
    /// The marks of kept lists, and the patches of changed trees.
    pub(crate) changes: &'w PlacedPatches,
    /// These, and the definitions.
    pub(crate) redefined: &'w PlacedPatches,
    /// What ends the first line of the source.
    pub(crate) line_end: LineEnd,
}

/// What was put last, and how the next one is put.
#[derive(Clone, Copy)]
struct Last {
    manner: Manner,
    /// The first block of the source that isn't passed.
    next: usize,
    /// Whether a tree is before that is new, and whether one that was kept, or none.
    is_new: bool,
    is_kept: bool,
    /// Whether that tree is in the place of blocks that were taken out.
    replaces: bool,
}

impl Last {
    /// Whether a blank line has to be after it, before a block that is kept or written.
    fn is_loose(self, is_kept: bool) -> bool {
        self.is_new || self.manner.apart && !(self.is_kept && is_kept)
    }

    /// Whether the source's end is as it was: no text comes after a new tree, and no block was taken out unless that tree is in
    /// its place.
    fn keeps_tail(self, source: &str, between: Between<'_>, is_first: bool) -> bool {
        let count = between.blocks.len();
        if self.next == count {
            return !self.is_new || is_first || !have_text(source, between, count, count);
        }
        let (from, to) = gap(source, between.blocks, count);
        self.replaces
            && !have_text(source, between, self.next, count.saturating_sub(1))
            && begins_wide(source.as_bytes(), from, to)
    }

    fn with(self, joint: &Joint) -> Last {
        let plan = &joint.plan;
        Last {
            manner: self.manner,
            next: behind(self.next, plan),
            is_new: plan.stands_for.is_none(),
            is_kept: plan.kept.is_some(),
            replaces: joint.replaces,
        }
    }
}

/// A tree and what is before it.
fn put_tree(
    source: &str,
    between: Between<'_>,
    last: Last,
    joint: &Joint,
    piece: &Piece,
    output: &mut Output,
) -> Result<(), AllocError>
    requires { Builds source.now output.old }
    ensures { OnOk result (Builds source.now output.new) }
{
    let plan = &joint.plan;
    if joint.needs_divider {
        put_divider(source, between, last.next, output)?;
    } else {
        put_before(source, between, last, joint, output)?;
    }
    let number = behind(last.next, plan);
    put_block(
        source,
        between,
        plan,
        piece,
        between.line_end(number),
        output,
    )
}

/// What is after the last tree: what is left of the source, and definitions.
fn put_end(
    source: &str,
    between: Between<'_>,
    last: Last,
    definitions: &Definitions,
    output: &mut Output,
) -> Result<(), AllocError>
    requires { Builds source.now output.old }
    ensures { OnOk result (Builds source.now output.new) }
{
    put_tail(source, between, last, output)?;
    let line_end = between.line_end(between.blocks.len());
    if last.manner.apart && !last.is_kept {
        end_line(source, line_end, output)?;
    }
    if last.manner.defines {
        put_definitions(source, definitions, line_end, output)?;
    }
    Ok(())
}

/// The blocks side by side.
pub(crate) fn joined(
    alloc: Global,
    source: &str,
    blocks: &[Block],
    joints: &[Joint],
    written: Written<'_>,
    manner: Manner,
) -> Result<Output, AllocError>
    ensures { IfOk result (λ output. Builds source.now output) }
{
    let mut output = Output::new(alloc, source);
    output.is_patched = true;
    let patches = if manner.redefines {
        written.redefined
    } else {
        written.changes
    };
    let between = Between {
        blocks,
        in_blocks: &patches.in_blocks,
        in_gaps: &patches.in_gaps,
        common: written.line_end,
    };
    let mut last = Last {
        manner,
        next: 0,
        is_new: false,
        is_kept: true,
        replaces: false,
    };
    for (joint, piece) in joints.iter().zip(written.pieces) {
        put_tree(source, between, last, joint, piece, &mut output)?;
        last = last.with(joint);
    }
    put_end(source, between, last, written.definitions, &mut output)?;
    Ok(output)
}
