//! How trees are after one another: lists that would be read as one take different marks, and indented code that would
//! be read as a part of the block before it is after a definition.

use crate::patch::Patch;
use crate::pieces::Tools;
use crate::plan::{Plan, behind, were_neighbours};
use crate::source_bytes::byte_at;
use crate::trees::{Block, gap, has_text, trees};
use std::alloc::{AllocError, Global};
use tocmark_event::event::{CodeBlockKindOf, Event, Tag};
use tocmark_event::options::Options;

/// A tree, and how it is after the one before it.
#[derive(Clone, Copy, Debug)]
pub(crate) struct Joint {
    pub(crate) plan: Plan,
    /// The mark of its items, if it is a list: their bullet, or the sign after their numbers.
    pub(crate) mark: Option<char>,
    /// Whether a definition has to be before it.
    pub(crate) needs_divider: bool,
    /// Whether it alone takes the place of blocks that were taken out.
    pub(crate) replaces: bool,
}

/// The byte after the digits that begin at a place.
fn behind_digits(source: &str, begins: usize) -> Option<usize> {
    for at in begins..source.len() {
        if !byte_at(source, at).is_ascii_digit() {
            return Some(at);
        }
    }
    None
}

/// The mark of the item that begins at a byte of the source.
pub(crate) fn mark_at(source: &str, begins: usize) -> Option<char> {
    match byte_at(source, behind_digits(source, begins)?) {
        b'-' => Some('-'),
        b'+' => Some('+'),
        b'*' => Some('*'),
        b')' => Some(')'),
        b'.' => Some('.'),
        _ => None,
    }
}

fn is_ordered(mark: char) -> bool {
    mark == '.' || mark == ')'
}

/// Another mark of the kind, which is neither of two if it can be.
fn other_mark(mark: char, before: Option<char>, behind: Option<char>) -> char {
    let marks = if is_ordered(mark) {
        ['.', ')', '.']
    } else {
        ['-', '*', '+']
    };
    let mut other = mark;
    for next in marks {
        if Some(next) != before {
            if Some(next) != behind {
                return next;
            }
            other = next;
        }
    }
    other
}

/// The mark of a list, by its own, the list before it that it would meet, and the mark of the one after it.
fn chosen_mark(own: Option<char>, before: Option<Joint>, behind: Option<char>) -> Option<char> {
    let own = own?;
    let before = match before {
        Some(joint) => joint.mark,
        None => None,
    };
    if before == Some(own) || behind == Some(own) {
        Some(other_mark(own, before, behind))
    } else {
        Some(own)
    }
}

/// Whether indented code that follows would be read as a part of a block.
fn takes_code(event: &Event<'_>) -> bool {
    match event {
        Event::Start(Tag::List(_)) => true,
        Event::Start(Tag::CodeBlock(CodeBlockKindOf::Indented)) => true,
        Event::Start(Tag::FootnoteDefinition(_)) => true,
        Event::Start(Tag::DefinitionList) => true,
        _ => false,
    }
}

fn is_indented_code(event: &Event<'_>) -> bool {
    match event {
        Event::Start(Tag::CodeBlock(CodeBlockKindOf::Indented)) => true,
        _ => false,
    }
}

/// Trees of a document that are put side by side.
#[derive(Clone, Copy)]
pub(crate) struct Row<'r, 'e> {
    pub(crate) source: &'r str,
    pub(crate) blocks: &'r [Block],
    pub(crate) plans: &'r [Plan],
    pub(crate) events: &'e [(Event<'e>, (usize, usize))],
}

impl<'e> Row<'_, 'e> {
    fn first_event(self, plan: &Plan) -> Option<&'e (Event<'e>, (usize, usize))> {
        self.events.get(plan.tree.first)
    }

    /// Whether a definition of the source lies between the block before `next` and the tree of a plan.
    fn is_divided(self, next: usize, plan: &Plan) -> bool {
        let Some(place) = plan.stands_for else {
            return false;
        };
        for number in next..place.saturating_add(1) {
            let (from, to) = gap(self.source, self.blocks, number);
            if has_text(self.source.as_bytes(), from, to) {
                return true;
            }
        }
        false
    }

    /// The mark that a list has in the source, or that the options name; none if a tree isn't a list.
    fn own_mark(self, options: Options<'_>, plan: &Plan) -> Option<char> {
        let Some((Event::Start(Tag::List(number)), _)) = self.first_event(plan) else {
            return None;
        };
        let orders = number.is_some();
        match self.mark_in_source(plan) {
            Some(mark) if is_ordered(mark) == orders => Some(mark),
            _ if orders => Some(options.ordered_list_token),
            _ => Some(options.list_token),
        }
    }

    fn mark_in_source(self, plan: &Plan) -> Option<char> {
        let block = self.blocks.get(plan.stands_for?)?;
        mark_at(self.source, block.tree.begins)
    }

    /// The mark of the tree after one, if that is a changed tree which would meet the list that is kept.
    fn mark_behind(
        self,
        options: Options<'_>,
        plan: &Plan,
        next: usize,
        behind: Option<&Plan>,
    ) -> Option<char> {
        match behind {
            Some(behind) if plan.kept.is_none() && behind.kept.is_some() => {
                if self.is_divided(next, behind) {
                    None
                } else {
                    self.own_mark(options, behind)
                }
            }
            _ => None,
        }
    }

    /// Whether indented code follows a block that would absorb it.
    fn meets_code(self, before: Option<Joint>, plan: &Plan) -> bool {
        let Some(joint) = before else {
            return false;
        };
        let before = joint.plan;
        match (self.first_event(&before), self.first_event(plan)) {
            (Some(left), Some(right)) => {
                takes_code(&left.0) && is_indented_code(&right.0) && !were_neighbours(&before, plan)
            }
            _ => false,
        }
    }

    /// Whether a new tree replaces blocks that were removed. It does if it is the only new tree between two trees that stay,
    /// and if the source has blocks between these two.
    fn replaces(self, next: usize, last: Option<Joint>, behind: Option<&Plan>) -> bool {
        if let Some(joint) = last
            && joint.plan.stands_for.is_none()
        {
            return false;
        }
        let place = match behind {
            Some(plan) => plan.stands_for,
            None => Some(self.blocks.len()),
        };
        match place {
            Some(place) => place > next,
            None => false,
        }
    }

    /// How each tree is after the one before it.
    pub(crate) fn joints(
        self,
        alloc: Global,
        options: Options<'_>,
    ) -> Result<Vec<Joint>, AllocError> {
        let mut joints = Vec::new(alloc);
        let mut next = 0usize;
        let mut last: Option<Joint> = None;
        for at in 0..self.plans.len() {
            let plan = self.plans[at];
            let is_divided = self.is_divided(next, &plan);
            next = behind(next, &plan);
            let after = self.plans.get(at.saturating_add(1));
            let follows = self.mark_behind(options, &plan, next, after);
            let before = if is_divided { None } else { last };
            let joint = Joint {
                plan,
                mark: chosen_mark(self.own_mark(options, &plan), before, follows),
                needs_divider: self.meets_code(before, &plan),
                replaces: plan.stands_for.is_none() && self.replaces(next, last, after),
            };
            last = Some(joint);
            joints.push(joint)?;
        }
        Ok(joints)
    }
}

/// Adds the patches that give the items of a kept list their mark, if it is another one.
fn add_marks(
    alloc: Global,
    source: &str,
    found: &[(Event<'_>, (usize, usize))],
    joint: &Joint,
    patches: &mut Vec<Patch>,
) -> Result<(), AllocError> {
    let (Some(block), Some(mark)) = (joint.plan.kept, joint.mark) else {
        return Ok(());
    };
    if mark_at(source, block.tree.begins) == Some(mark) {
        return Ok(());
    }
    let first = block.tree.first.saturating_add(1);
    let past = block.tree.past.saturating_sub(1);
    let items = found.get(first..past).unwrap_or(&[]);
    for item in &trees(alloc, items)? {
        if let Some(from) = behind_digits(source, item.begins) {
            let mut text = String::new(alloc);
            text.push(mark)?;
            let to = from.saturating_add(1);
            patches.push(Patch { from, to, text })?;
        }
    }
    Ok(())
}

/// The patches that give the items of kept lists other marks.
pub(crate) fn mark_patches(
    alloc: Global,
    source: &str,
    found: &[(Event<'_>, (usize, usize))],
    joints: &[Joint],
) -> Result<Vec<Patch>, AllocError> {
    let mut patches = Vec::new(alloc);
    for joint in joints {
        add_marks(alloc, source, found, joint, &mut patches)?;
    }
    Ok(patches)
}
