//! Open containers, and what their contents were at a mark.

ghost use Rattle.std.specs.Prelude.{◌≡◌, ◌<◌, ◌++◌, ◌∷◌, [], length, ◌+◌, ◌-◌, ◌≤◌, map, reverse, vec_capacity, IsSome, OnErr, OnOk};
ghost use Rattle.tocmark_write_containers.specs.Nesting.{changed, changed_level, numbered, renumbered};
ghost use Rattle.tocmark_write_containers.specs.KeptOf.{original, outside_at, present, seen};
ghost use Rattle.tocmark_spelling.specs.Places.{wider, with_width};

use crate::content::OpeningChoice;
use crate::frame::Frame;
use std::alloc::{AllocError, Global};
use std::mem;
use tocmark_spelling::list_choice::ListChoice;

/// An open container.
#[derive(Drop)]
pub struct Kept<'a> {
    pub frame: Frame<'a>,
    /// Its content at the mark, if it was replaced since.
    pub before: Option<OpeningChoice>,
}

impl<'a> Kept<'a> {
    /// Notes the content, if that wasn't done since the mark.
    fn note(&mut self, alloc: Global) -> Result<(), AllocError>
        ensures present { present self.new ≡ present self.old }
        ensures original { original self.new ≡ original self.old }
        ensures noted { OnOk result (IsSome self.new.before) }
        ensures outside { outside_at self.new ≡ outside_at self.old }
    {
        if self.before.is_none() {
            self.before = Some(self.frame.content.copied(alloc)?);
        }
        Ok(())
    }

    /// A list goes on with this number.
    pub fn set_number(&mut self, number: Option<u64>)
        ensures present { present self.new ≡ changed_level (numbered number) (present self.old) }
        ensures original { original self.new ≡ original self.old }
        ensures outside { outside_at self.new ≡ outside_at self.old }
    {
        let OpeningChoice::Listed(choice) = self.frame.content else {
            return;
        };
        let listed = OpeningChoice::Listed(ListChoice { number, ..choice });
        let old = mem::replace(&mut self.frame.content, listed);
        if self.before.is_none() {
            self.before = Some(old);
        }
    }

    /// Makes a cell wider by so many characters. It fails if memory runs out, or if the count would be too
    /// large.
    pub fn widen(&mut self, alloc: Global, characters: usize) -> Result<(), AllocError>
        ensures present { OnOk result
            (present self.new ≡ changed_level (wider characters) (present self.old)) }
        ensures stays { OnErr result (present self.new ≡ present self.old) }
        ensures original { original self.new ≡ original self.old }
        ensures outside { outside_at self.new ≡ outside_at self.old }
    {
        self.note(alloc)?;
        self.frame.content.widen(characters)
    }

    /// Adds to a table a cell of this width, in characters.
    pub fn add_header(&mut self, alloc: Global, width: usize) -> Result<(), AllocError>
        ensures present { OnOk result
            (present self.new ≡ changed_level (with_width width) (present self.old)) }
        ensures stays { OnErr result (present self.new ≡ present self.old) }
        ensures original { original self.new ≡ original self.old }
        ensures outside { outside_at self.new ≡ outside_at self.old }
    {
        self.note(alloc)?;
        self.frame.content.add_header(width)
    }

    /// Drops the note.
    pub fn forget(&mut self)
        ensures present { present self.new ≡ present self.old }
        ensures original { original self.new ≡ present self.old }
        ensures outside { outside_at self.new ≡ outside_at self.old }
    {
        self.before = None;
    }

    /// Makes the content again what it was at the mark.
    pub fn restore(&mut self)
        ensures present { present self.new ≡ original self.old }
        ensures outside { outside_at self.new ≡ outside_at self.old }
    {
        if let Some(content) = mem::replace(&mut self.before, None) {
            self.frame.content = content;
        }
    }
}

/// Forgets what the contents were at an earlier mark.
pub fn forget_all(frames: &mut Vec<Kept<'_>>)
    ensures present { map present frames.new.items ≡ map present frames.old.items }
    ensures original { map original frames.new.items ≡ map present frames.old.items }
    ensures outside { map outside_at frames.new.items ≡ map outside_at frames.old.items }
    ensures capacity { vec_capacity frames.new ≡ vec_capacity frames.old }
{
    for i in 0..frames.len() {
        frames[i].forget();
    }
}

/// Makes the contents again what they were at the mark.
pub fn restore_all(frames: &mut Vec<Kept<'_>>)
    ensures present { map present frames.new.items ≡ map original frames.old.items }
    ensures outside { map outside_at frames.new.items ≡ map outside_at frames.old.items }
{
    for i in 0..frames.len() {
        frames[i].restore();
    }
}

/// Puts back the containers that were closed since the mark. There is room for them.
pub fn put_back<'a>(frames: &mut Vec<Kept<'a>>, closed: &mut Vec<Kept<'a>>)
    requires { length frames.old.items + length closed.old.items ≤ vec_capacity frames.old }
    ensures { frames.new.items ≡ frames.old.items ++ reverse closed.old.items }
{
    while let Some(kept) = closed.pop() {
        put(frames, kept);
    }
}

/// Adds a container where there is room for one.
#[inline(always)]
pub fn put<'a>(frames: &mut Vec<Kept<'a>>, kept: Kept<'a>)
    requires { length frames.old.items < vec_capacity frames.old }
    ensures items { frames.new.items ≡ frames.old.items ++ kept.entry ∷ [] }
    ensures capacity { vec_capacity frames.old ≤ vec_capacity frames.new }
{
    let _room = frames.push(kept);
}

/// The innermost container, if it is a list, goes on with this number.
pub fn set_number(frames: &mut Vec<Kept<'_>>, number: Option<u64>)
    ensures present { seen present frames.new.items
        ≡ renumbered number (seen present frames.old.items) }
    ensures original { map original frames.new.items ≡ map original frames.old.items }
    ensures outside { map outside_at frames.new.items ≡ map outside_at frames.old.items }
    ensures capacity { vec_capacity frames.new ≡ vec_capacity frames.old }
{
    let n = frames.len();
    if n > 0 {
        frames[n - 1].set_number(number);
    }
}

/// Makes one container, if it is a cell, wider by so many characters; the outermost is 0. It fails if
/// memory runs out, or if the count would be too large.
pub fn widen(
    alloc: Global,
    frames: &mut Vec<Kept<'_>>,
    place: usize,
    characters: usize,
) -> Result<(), AllocError>
    requires { place < length frames.old.items }
    ensures present { OnOk result (seen present frames.new.items
        ≡ changed (length frames.old.items - 1 - place) (wider characters)
        (seen present frames.old.items)) }
    ensures stays { OnErr result (seen present frames.new.items ≡ seen present frames.old.items) }
    ensures original { map original frames.new.items ≡ map original frames.old.items }
    ensures outside { map outside_at frames.new.items ≡ map outside_at frames.old.items }
    ensures capacity { vec_capacity frames.new ≡ vec_capacity frames.old }
{
    frames[place].widen(alloc, characters)
}

/// Adds to one container, if it is a table, a cell of this width, in characters; the outermost is 0.
pub fn add_header(
    alloc: Global,
    frames: &mut Vec<Kept<'_>>,
    place: usize,
    width: usize,
) -> Result<(), AllocError>
    requires { place < length frames.old.items }
    ensures present { OnOk result (seen present frames.new.items
        ≡ changed (length frames.old.items - 1 - place) (with_width width)
        (seen present frames.old.items)) }
    ensures stays { OnErr result (seen present frames.new.items ≡ seen present frames.old.items) }
    ensures original { map original frames.new.items ≡ map original frames.old.items }
    ensures outside { map outside_at frames.new.items ≡ map outside_at frames.old.items }
    ensures capacity { vec_capacity frames.new ≡ vec_capacity frames.old }
{
    frames[place].add_header(alloc, width)
}
