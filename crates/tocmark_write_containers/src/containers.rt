//! The containers that are open, with the prefix of their lines, and which were open at a mark.

ghost use Rattle.std.specs.Prelude.{◌≡◌, ◌<◌, ◌≤◌, ◌+◌, ◌++◌, ◌∷◌, [], ℕ, List, Some, None, length, string_bytes, string_capacity, vec_capacity, OnOk, OnErr, IfOk, IfSome, IsSome, MatchOption, is_some, take};
ghost use Rattle.std.specs.Option.{option_map};
ghost use Rattle.tocmark_event.specs.View.{tag_view};
ghost use Rattle.tocmark_spelling.specs.Page.{prefix_of};
ghost use Rattle.tocmark_spelling.specs.Kinds.{is_emphasis, is_emphasis_or_strong};
ghost use Rattle.tocmark_spelling.specs.Places.{is_close, is_in_loose_list, is_in_tight_list, is_item_start, nearest, widened, with_header};
ghost use Rattle.tocmark_write_containers.specs.FrameOf.{content_view, level_of};
ghost use Rattle.tocmark_write_containers.specs.KeptOf.{present, seen};
ghost use Rattle.tocmark_write_containers.specs.Nesting.{entered, head_of, is_counted, renumbered, starts_at};
ghost use Rattle.tocmark_write_containers.specs.Outside.{outside_of};
ghost use Rattle.tocmark_write_containers.specs.PrefixOf.{prefix_bytes};
ghost use Rattle.tocmark_write_containers.specs.declared.kept.Kept.{Kept};

use crate::content::OpeningChoice;
use crate::frame::Frame;
use crate::kept::{Kept, add_header, forget_all, put, put_back, restore_all, set_number, widen};
use crate::outside::Outside;
use crate::prefix::Prefix;
use std::alloc::{AllocError, Global};
use std::marker::Model;
use tocmark_event::event::TagOf;
use tocmark_spelling::kinds::is_item;

/// The open containers. At most one mark is set, and `back` makes them again what they were there.
#[derive(Drop)]
pub struct Containers<'a> {
    alloc: Global,
    /// What is before each line: the prefixes of the open containers, joined.
    prefix: String,
    /// The open containers, the innermost last.
    frames: Vec<Kept<'a>>,
    /// How many of the containers that were open at the mark have stayed so, if a mark is set.
    kept: Option<usize>,
    /// The containers that were open at the mark and were closed since, the outermost last.
    closed: Vec<Kept<'a>>,
}

impl<'a> Model for Containers<'a> {
    ghost use Rattle.tocmark_write_containers.specs.Nesting.{Nesting};

    ghost Value = { Nesting };

    ghost use Rattle.tocmark_write_containers.specs.ContainersOf.{nesting_of, IsNoted};

    ghost view = { nesting_of };

    ghost invariant = { IsNoted };
}

impl<'a> Containers<'a> {
    /// No open container, and no mark.
    pub fn new(alloc: Global) -> Containers<'a>
        ensures path { result.path ≡ [] }
        ensures mark { result.at_mark ≡ None }
    {
        Containers {
            alloc,
            prefix: String::new(alloc),
            frames: Vec::new(alloc),
            kept: None,
            closed: Vec::new(alloc),
        }
    }

    /// What is before each line.
    pub fn prefix(&self) -> &str
        ensures { result.now ≡ prefix_of self.now.path }
    {
        self.prefix.as_str()
    }

    /// How many are open.
    pub fn depth(&self) -> usize
        ensures { result ≡ length self.now.path }
    {
        self.frames.len()
    }

    /// What they say of this place.
    pub fn outside(&self) -> Outside
        ensures { result ≡ outside_of self.now.path }
    {
        let n = self.frames.len();
        if n == 0 {
            return Outside::none();
        }
        self.frames[n - 1].frame.outside
    }

    /// The innermost one.
    pub fn innermost(&self) -> Option<&Frame<'a>>
        ensures { option_map (λ f. level_of f.now) result ≡ head_of self.now.path }
    {
        let n = self.frames.len();
        if n == 0 {
            return None;
        }
        Some(&self.frames[n - 1].frame)
    }

    /// The nearest open emphasis, strong emphasis aside.
    pub fn nearest_emphasis(&self) -> Option<&Frame<'a>>
        ensures { option_map (λ f. level_of f.now) result ≡ nearest is_emphasis self.now.path }
    {
        match self.outside().emphasis {
            Some(place) => Some(&self.frames[place].frame),
            None => None,
        }
    }

    /// The nearest open emphasis or strong emphasis.
    pub fn nearest_delimiter(&self) -> Option<&Frame<'a>>
        ensures { option_map (λ f. level_of f.now) result
            ≡ nearest is_emphasis_or_strong self.now.path }
    {
        match self.outside().emphasis_or_strong {
            Some(place) => Some(&self.frames[place].frame),
            None => None,
        }
    }

    /// Whether nothing but openings is between an item's opening and this place of the text, in
    /// bytes.
    pub fn is_item_start(&self, place: usize) -> bool
        ensures { result ≡ is_item_start place self.now.path }
    {
        self.outside().starts_item(place)
    }

    /// Whether the innermost one's opening ended at this place of the text, in bytes.
    pub fn starts_at(&self, place: usize) -> bool
        ensures { result ≡ starts_at place self.now.path }
    {
        let n = self.frames.len();
        if n == 0 {
            return false;
        }
        self.frames[n - 1].frame.start == place
    }

    /// Whether no blank lines are between the children of the innermost one.
    pub fn is_close(&self) -> bool
        ensures { result ≡ is_close self.now.path }
    {
        let n = self.frames.len();
        if n == 0 {
            return false;
        }
        match self.frames[n - 1].frame.content {
            OpeningChoice::Defined(has_paragraph) => !has_paragraph,
            OpeningChoice::Listed(choice) => choice.tight,
            _ => is_item(self.frames[n - 1].frame.tag) && is_in_tight_list(&self.frames, n - 1),
        }
    }

    /// Whether the innermost one is a list that isn't tight.
    pub fn is_in_loose_list(&self) -> bool
        ensures { result ≡ is_in_loose_list self.now.path }
    {
        let n = self.frames.len();
        if n == 0 {
            return false;
        }
        match self.frames[n - 1].frame.content {
            OpeningChoice::Listed(choice) => !choice.tight,
            _ => false,
        }
    }

    /// Opens one, whose opening ends at this place of the text, in bytes.
    pub fn push(
        &mut self,
        tag: &'a TagOf<String>,
        prefix: Prefix,
        start: usize,
        content: OpeningChoice,
    ) -> Result<(), AllocError>
        ensures path { OnOk result (self.new.path
            ≡ entered (tag_view string_bytes tag.entry.now) (prefix_bytes prefix) start
            (content_view content) self.old.path) }
        ensures stays { OnErr result (self.new.path ≡ self.old.path) }
        ensures mark { self.new.at_mark ≡ self.old.at_mark }
    {
        let outside = self
            .outside()
            .within(tag, start, &content, self.frames.len());
        self.frames.reserve(1)?;
        prefix.add(&mut self.prefix)?;
        let frame = Frame {
            tag,
            prefix,
            start,
            outside,
            content,
        };
        put(
            &mut self.frames,
            Kept {
                frame,
                before: None,
            },
        );
        Ok(())
    }

    /// Closes the innermost one, if there is one, and gives it; one that was open at the mark is copied. If
    /// memory runs out, nothing is closed.
    pub fn pop(&mut self) -> Result<Option<Frame<'a>>, AllocError>
        ensures top { IfOk result (λ top.
            MatchOption top ((self.old.path ≡ []) × (self.new.path ≡ [])) (λ frame.
            self.old.path ≡ level_of frame ∷ self.new.path)) }
        ensures stays { OnErr result (self.new.path ≡ self.old.path) }
        ensures mark { self.new.at_mark ≡ self.old.at_mark }
    {
        let n = self.frames.len();
        if n == 0 {
            return Ok(None);
        }
        if self.kept == Some(n) {
            let frame = move_last(
                self.alloc,
                &mut self.frames,
                &mut self.closed,
                &mut self.prefix,
            )?;
            self.kept = Some(n - 1);
            return Ok(Some(frame));
        }
        Ok(take_last(&mut self.frames, &mut self.prefix))
    }

    /// The innermost one, if it is a list, goes on with this number, which has to be none where it
    /// has none.
    pub fn set_number(&mut self, number: Option<u64>)
        requires { is_counted self.old.path ≡ is_some number }
        ensures path { self.new.path ≡ renumbered number self.old.path }
        ensures mark { self.new.at_mark ≡ self.old.at_mark }
    {
        set_number(&mut self.frames, number);
    }

    /// Makes the nearest open cell, if there is one, wider by so many characters. It fails if memory runs
    /// out, or if the count would be too large.
    pub fn widen(&mut self, characters: usize) -> Result<(), AllocError>
        ensures path { OnOk result (self.new.path ≡ widened characters self.old.path) }
        ensures stays { OnErr result (self.new.path ≡ self.old.path) }
        ensures mark { self.new.at_mark ≡ self.old.at_mark }
    {
        match self.outside().cell {
            Some(place) => widen(self.alloc, &mut self.frames, place, characters),
            None => Ok(()),
        }
    }

    /// Adds to the nearest open table, if there is one, a cell of this width, in characters.
    pub fn add_header(&mut self, width: usize) -> Result<(), AllocError>
        ensures path { OnOk result (self.new.path ≡ with_header width self.old.path) }
        ensures stays { OnErr result (self.new.path ≡ self.old.path) }
        ensures mark { self.new.at_mark ≡ self.old.at_mark }
    {
        match self.outside().table {
            Some(place) => add_header(self.alloc, &mut self.frames, place, width),
            None => Ok(()),
        }
    }

    /// Sets the mark here, in place of an earlier one.
    pub fn mark(&mut self)
        ensures path { self.new.path ≡ self.old.path }
        ensures mark { self.new.at_mark ≡ Some self.old.path }
    {
        forget_all(&mut self.frames);
        self.closed.clear();
        self.kept = Some(self.frames.len());
    }

    /// Makes them again what they were at the mark, which is forgotten.
    pub fn back(&mut self)
        requires { IsSome self.old.at_mark }
        ensures path { Some self.new.path ≡ self.old.at_mark }
        ensures mark { self.new.at_mark ≡ None }
    {
        let Some(kept) = self.kept else {
            return;
        };
        self.frames.truncate(kept);
        put_back(&mut self.frames, &mut self.closed);
        restore_all(&mut self.frames);
        join(&mut self.prefix, &self.frames);
        self.kept = None;
    }
}

/// Whether the innermost of so many containers is a tight list.
fn is_in_tight_list(frames: &[Kept<'_>], n: usize) -> bool
    requires { n ≤ length frames.now }
    ensures { result ≡ is_in_tight_list (seen present (take n frames.now)) }
{
    if n == 0 {
        return false;
    }
    match frames[n - 1].frame.content {
        OpeningChoice::Listed(choice) => choice.tight,
        _ => false,
    }
}

/// Moves the innermost container. There is room for it.
fn shift<'a>(frames: &mut Vec<Kept<'a>>, closed: &mut Vec<Kept<'a>>)
    requires some { 0 < length frames.old.items }
    requires room { length closed.old.items < vec_capacity closed.old }
    ensures moved { (k : Kept) × (frames.old.items ≡ frames.new.items ++ k ∷ [])
        × (closed.new.items ≡ closed.old.items ++ k ∷ []) }
    ensures capacity { vec_capacity frames.new ≡ vec_capacity frames.old }
{
    if let Some(kept) = frames.pop() {
        put(closed, kept);
    }
}

/// Moves the innermost container to those that were closed since the mark, and gives a copy. If memory
/// runs out, nothing is moved.
fn move_last<'a>(
    alloc: Global,
    frames: &mut Vec<Kept<'a>>,
    closed: &mut Vec<Kept<'a>>,
    prefix: &mut String,
) -> Result<Frame<'a>, AllocError>
    requires some { 0 < length frames.old.items }
    requires joined { string_bytes prefix.old ≡ prefix_of (seen present frames.old.items) }
    ensures moved { IfOk result (λ f.
        (k : Kept) × (frames.old.items ≡ frames.new.items ++ k ∷ [])
        × (closed.new.items ≡ closed.old.items ++ k ∷ []) × (level_of f ≡ present k)) }
    ensures stays { OnErr result ((frames.new.items ≡ frames.old.items)
        × (closed.new.items ≡ closed.old.items)) }
    ensures joined { string_bytes prefix.new ≡ prefix_of (seen present frames.new.items) }
    ensures capacity { vec_capacity frames.new ≡ vec_capacity frames.old }
    ensures room { string_capacity prefix.new ≡ string_capacity prefix.old }
{
    closed.reserve(1)?;
    let copy = frames[frames.len() - 1].frame.copied(alloc)?;
    shift(frames, closed);
    copy.prefix.cut(prefix);
    Ok(copy)
}

/// Takes the innermost container.
fn take_last<'a>(frames: &mut Vec<Kept<'a>>, prefix: &mut String) -> Option<Frame<'a>>
    requires some { 0 < length frames.old.items }
    requires joined { string_bytes prefix.old ≡ prefix_of (seen present frames.old.items) }
    ensures some { IsSome result }
    ensures taken { IfSome result (λ f.
        (k : Kept) × (frames.old.items ≡ frames.new.items ++ k ∷ []) × (level_of f ≡ present k)) }
    ensures joined { string_bytes prefix.new ≡ prefix_of (seen present frames.new.items) }
    ensures capacity { vec_capacity frames.new ≡ vec_capacity frames.old }
    ensures room { string_capacity prefix.new ≡ string_capacity prefix.old }
{
    let kept = frames.pop()?;
    kept.frame.prefix.cut(prefix);
    Some(kept.frame)
}

/// Joins the prefixes. There is room for them.
fn join(prefix: &mut String, frames: &[Kept<'_>])
    requires { length (prefix_of (seen present frames.now)) ≤ string_capacity prefix.old }
    ensures { string_bytes prefix.new ≡ prefix_of (seen present frames.now) }
{
    prefix.clear();
    for kept in frames {
        kept.frame.prefix.put(prefix);
    }
}
