//! The smallest changes of a source: the bytes of just what was edited are replaced.
//!
//! What is made here is tried, and no more: `rewritten` answers a text only if it is read as the events
//! that were given.

use crate::event::event_patch;
use crate::inlines::{Inlines, is_inline};
use crate::label::DefinitionChange;
use crate::link::{LinkChange, is_address, is_reference, link_parts, text_start};
use crate::marker::Markers;
use crate::wording::{Manner, Run, Spelling};
use std::alloc::{AllocError, Global};
use std::collections::HashMap;
use tocmark_compare::event::same_event;
use tocmark_compare::same::is_text;
use tocmark_event::event::{Event, LinkType, Tag};
use tocmark_read_tokens::label::key_of;
use tocmark_reader::ReferenceDefinition;

/// Bytes of the source, and the text that takes their place.
#[derive(Debug, Drop)]
pub struct Patch {
    pub from: usize,
    pub to: usize,
    pub text: String,
}

impl Patch {
    pub(crate) fn copied(&self, alloc: Global) -> Result<Patch, AllocError> {
        Ok(Patch {
            from: self.from,
            to: self.to,
            text: String::from_str(alloc, self.text.as_str())?,
        })
    }
}

/// Adds copies of patches to others.
pub(crate) fn add_copies(
    alloc: Global,
    patches: &[Patch],
    all: &mut Vec<Patch>,
) -> Result<(), AllocError> {
    for patch in patches {
        all.push(patch.copied(alloc)?)?;
    }
    Ok(())
}

/// The patches of a document, in the order of their places.
#[derive(Drop)]
pub struct Patches {
    pub list: Vec<Patch>,
    /// What definitions are to say, by the key of the label.
    definitions: HashMap<String, DefinitionChange>,
    /// The first events of the trees that are written as a whole.
    pub written: Vec<usize>,
    /// Whether blocks in trees may be written by themselves.
    pub allows_inner: bool,
    /// How new inlines are spelled, and what they are put between.
    pub spelling: Spelling,
    pub markers: Markers,
    /// Whether the spelling of some inline is a choice.
    pub has_texts: bool,
    /// The Starts that are open: where each is in the events that the reader found, and in those that were given.
    open: Vec<(usize, usize)>,
    /// Whether a text is as it is, as in code.
    is_raw: bool,
}

/// What is in the place of one event, or of a run of neighbours.
#[derive(Clone, Copy)]
struct Step {
    /// The stretch of the events that the reader found.
    old: (usize, usize),
    /// The stretch of those that were given.
    new: (usize, usize),
}

/// Whether an event opens a block whose texts are as they are.
fn opens_raw(event: &Event<'_>) -> bool {
    match event {
        Event::Start(Tag::CodeBlock(_)) => true,
        Event::Start(Tag::MetadataBlock(_)) => true,
        _ => false,
    }
}

impl Step {
    /// How many events it has that the reader found.
    fn count(self) -> usize {
        self.old.1.saturating_sub(self.old.0)
    }

    /// How many events it has that were given.
    fn other_count(self) -> usize {
        self.new.1.saturating_sub(self.new.0)
    }

    /// Its events with a number, one on each side.
    fn single(self, number: usize) -> Step {
        let at = self.old.0.saturating_add(number);
        let other = self.new.0.saturating_add(number);
        Step {
            old: (at, at.saturating_add(1)),
            new: (other, other.saturating_add(1)),
        }
    }
}

/// Which neighbours are one run.
#[derive(Clone, Copy, PartialEq, Eq)]
enum Runs {
    Inlines,
    Texts,
}

fn is_text_at(events: &[(Event<'_>, (usize, usize))], at: usize) -> bool {
    match events.get(at) {
        Some(pair) => is_text(&pair.0),
        None => false,
    }
}

fn is_inline_at(events: &[(Event<'_>, (usize, usize))], at: usize) -> bool {
    match events.get(at) {
        Some(pair) => is_inline(&pair.0),
        None => false,
    }
}

/// The end of the run that begins at a place, or else of the one event there.
fn step_end(events: &[(Event<'_>, (usize, usize))], first: usize, runs: Runs) -> usize {
    for at in first..events.len() {
        let goes_on = match runs {
            Runs::Inlines => is_inline_at(events, at),
            Runs::Texts => is_text_at(events, at),
        };
        if !goes_on {
            return at.max(first.saturating_add(1));
        }
    }
    events.len()
}

/// What is in the place of each event, and of each run; none if these aren't as many.
fn steps(
    alloc: Global,
    old: &[(Event<'_>, (usize, usize))],
    new: &[(Event<'_>, (usize, usize))],
    runs: Runs,
) -> Result<Option<Vec<Step>>, AllocError> {
    let mut all = Vec::new(alloc);
    let (mut at, mut other) = (0usize, 0usize);
    for _ in 0..old.len() {
        if at >= old.len() || other >= new.len() {
            break;
        }
        let (past, next) = (step_end(old, at, runs), step_end(new, other, runs));
        all.push(Step {
            old: (at, past),
            new: (other, next),
        })?;
        (at, other) = (past, next);
    }
    if at < old.len() || other < new.len() {
        return Ok(None);
    }
    Ok(Some(all))
}

impl Patches {
    pub fn new(alloc: Global, markers: Markers) -> Patches {
        Patches {
            list: Vec::new(alloc),
            definitions: HashMap::new(alloc),
            written: Vec::new(alloc),
            allows_inner: true,
            spelling: Spelling::Literal,
            markers,
            has_texts: false,
            open: Vec::new(alloc),
            is_raw: false,
        }
    }

    /// Takes a patch; false if there is none.
    pub fn take(&mut self, patch: Option<Patch>) -> Result<bool, AllocError> {
        match patch {
            None => Ok(false),
            Some(patch) => {
                self.list.push(patch)?;
                Ok(true)
            }
        }
    }

    /// Notes what the definition of a link's label is to say; false if it is another label.
    fn redefine(&mut self, alloc: Global, link: LinkChange<'_, '_>) -> Result<bool, AllocError> {
        if link.old.id != link.new.id {
            return Ok(false);
        }
        let change = DefinitionChange::of(alloc, link.old, link.new)?;
        let key = key_of(alloc, link.old.id.as_bytes())?;
        self.definitions.insert(key, change)?;
        Ok(true)
    }

    /// A link or an image that ends, whose Start was changed; false if that can't be patched.
    fn end_link(
        &mut self,
        alloc: Global,
        source: &str,
        link: LinkChange<'_, '_>,
    ) -> Result<bool, AllocError> {
        let (before, after) = (link.old.link_type, link.new.link_type);
        if is_address(before) && after == LinkType::Inline {
            return self.take(link.address_patch(alloc, source)?);
        }
        if before != after {
            return Ok(false);
        }
        if is_reference(before) {
            return self.redefine(alloc, link);
        }
        if before != LinkType::Inline {
            return Ok(false);
        }
        self.take(link.inline_patch(alloc, source)?)
    }

    /// A container that ends, by its Start and the one that was given in its place; false if it was changed and can't be
    /// patched. `last` is where the event before its End ends, if that isn't the Start.
    fn end(
        &mut self,
        alloc: Global,
        source: &str,
        before: &(Event<'_>, (usize, usize)),
        after: &Event<'_>,
        last: Option<usize>,
    ) -> Result<bool, AllocError> {
        let (Some(parts), Some(others)) = (link_parts(&before.0), link_parts(after)) else {
            return Ok(true);
        };
        if same_event(&before.0, after) {
            return Ok(true);
        }
        let range = before.1;
        let link = LinkChange {
            range,
            inner: match last {
                Some(end) => end,
                None => text_start(source, range.0),
            },
            old: parts,
            new: others,
        };
        self.end_link(alloc, source, link)
    }

    /// An event, and the one that was given in its place; false if that can't be patched.
    fn pair(
        &mut self,
        alloc: Global,
        source: &str,
        old: &[(Event<'_>, (usize, usize))],
        new: &[(Event<'_>, (usize, usize))],
        places: (usize, usize),
    ) -> Result<bool, AllocError> {
        let (Some(before), Some(after)) = (old.get(places.0), new.get(places.1)) else {
            return Ok(false);
        };
        match &before.0 {
            Event::Start(_) => {
                self.is_raw = opens_raw(&before.0);
                self.open.push(places)?;
                if link_parts(&before.0).is_some() && link_parts(&after.0).is_some() {
                    return Ok(true);
                }
            }
            Event::End(_) => {
                self.is_raw = false;
                let starts = self.open.pop().unwrap_or(places);
                let (Some(before), Some(after)) = (old.get(starts.0), new.get(starts.1)) else {
                    return Ok(false);
                };
                let last = match old.get(places.0.saturating_sub(1)) {
                    Some(pair) if places.0 > starts.0.saturating_add(1) => Some(pair.1.1),
                    _ => None,
                };
                return self.end(alloc, source, before, &after.0, last);
            }
            _ => {}
        }
        if same_event(&before.0, &after.0) {
            return Ok(true);
        }
        let patch = event_patch(alloc, source, before, &after.0)?;
        self.take(patch)
    }

    /// How new inlines are spelled.
    fn manner(&self) -> Manner {
        Manner {
            spelling: self.spelling,
            markers: self.markers,
        }
    }

    /// A run of texts, and the texts that were given in its place.
    fn texts<'e>(
        &mut self,
        alloc: Global,
        source: &str,
        old: &'e [(Event<'e>, (usize, usize))],
        new: &'e [(Event<'e>, (usize, usize))],
        step: Step,
    ) -> Result<bool, AllocError> {
        let before = old.get(step.old.0..step.old.1).unwrap_or(&[]);
        let after = new.get(step.new.0..step.new.1).unwrap_or(&[]);
        let run = Run::of(alloc, source, self.is_raw, before)?;
        let texts = Inlines::of(alloc, after)?;
        if run.says(texts.text.as_str()) {
            return Ok(true);
        }
        self.has_texts = self.has_texts || !self.is_raw;
        let manner = self.manner();
        run.add_patches(alloc, source, &texts, manner, &mut self.list)
    }

    /// Patches texts of code, which have no escapes: each by itself if there are as many.
    fn raw_texts<'e>(
        &mut self,
        alloc: Global,
        source: &str,
        old: &'e [(Event<'e>, (usize, usize))],
        new: &'e [(Event<'e>, (usize, usize))],
        step: Step,
    ) -> Result<bool, AllocError> {
        if step.count() != step.other_count() {
            return self.texts(alloc, source, old, new, step);
        }
        for number in 0..step.count() {
            self.texts(alloc, source, old, new, step.single(number))?;
        }
        Ok(true)
    }

    /// What was given in the place of an event or a run of texts; false if that can't be patched.
    fn step<'e>(
        &mut self,
        alloc: Global,
        source: &str,
        old: &'e [(Event<'e>, (usize, usize))],
        new: &'e [(Event<'e>, (usize, usize))],
        step: Step,
    ) -> Result<bool, AllocError> {
        if !is_text_at(old, step.old.0) || !is_text_at(new, step.new.0) {
            return self.pair(alloc, source, old, new, (step.old.0, step.new.0));
        }
        if self.is_raw {
            return self.raw_texts(alloc, source, old, new, step);
        }
        self.texts(alloc, source, old, new, step)
    }

    /// The patches of inlines, each by that in its place; false if they can't be patched so.
    fn one_by_one<'e>(
        &mut self,
        alloc: Global,
        source: &str,
        old: &'e [(Event<'e>, (usize, usize))],
        new: &'e [(Event<'e>, (usize, usize))],
    ) -> Result<bool, AllocError> {
        let Some(steps) = steps(alloc, old, new, Runs::Texts)? else {
            return Ok(false);
        };
        for step in &steps {
            if !self.step(alloc, source, old, new, *step)? {
                return Ok(false);
            }
        }
        Ok(true)
    }

    /// The patches of inlines of which some came or went; false if they can't be patched.
    fn together<'e>(
        &mut self,
        alloc: Global,
        source: &str,
        old: &'e [(Event<'e>, (usize, usize))],
        new: &'e [(Event<'e>, (usize, usize))],
    ) -> Result<bool, AllocError> {
        self.has_texts = true;
        if self.spelling == Spelling::Anew {
            return Ok(false);
        }
        let run = Run::of(alloc, source, false, old)?;
        let inlines = Inlines::of(alloc, new)?;
        let manner = self.manner();
        run.add_patches(alloc, source, &inlines, manner, &mut self.list)
    }

    /// The patches of the inlines of a leaf; false if they can't be patched.
    fn leaf<'e>(
        &mut self,
        alloc: Global,
        source: &str,
        old: &'e [(Event<'e>, (usize, usize))],
        new: &'e [(Event<'e>, (usize, usize))],
    ) -> Result<bool, AllocError> {
        let (before, depth) = (self.list.len(), self.open.len());
        let is_raw = self.is_raw;
        if self.one_by_one(alloc, source, old, new)? {
            return Ok(true);
        }
        self.list.truncate(before);
        self.open.truncate(depth);
        if is_raw {
            return Ok(false);
        }
        self.together(alloc, source, old, new)
    }

    /// The patches of a tree; false if it can't be patched. The lists are the events that the reader
    /// found, and those that were given in their place.
    pub fn tree<'e>(
        &mut self,
        alloc: Global,
        source: &str,
        old: &'e [(Event<'e>, (usize, usize))],
        new: &'e [(Event<'e>, (usize, usize))],
    ) -> Result<bool, AllocError> {
        self.open.clear();
        let Some(steps) = steps(alloc, old, new, Runs::Inlines)? else {
            return Ok(false);
        };
        for step in &steps {
            let is_patched = if is_inline_at(old, step.old.0) && is_inline_at(new, step.new.0) {
                let before = old.get(step.old.0..step.old.1).unwrap_or(&[]);
                let after = new.get(step.new.0..step.new.1).unwrap_or(&[]);
                self.leaf(alloc, source, before, after)?
            } else {
                self.pair(alloc, source, old, new, (step.old.0, step.new.0))?
            };
            if !is_patched {
                return Ok(false);
            }
        }
        Ok(true)
    }

    /// Whether some definition is to say something else.
    pub fn redefines(&self) -> bool {
        !self.definitions.is_empty()
    }

    /// Patches the first definition of each label, if it changed.
    pub fn add_definitions(
        &mut self,
        alloc: Global,
        source: &str,
        found: &[ReferenceDefinition],
    ) -> Result<(), AllocError> {
        for definition in found {
            let key = key_of(alloc, definition.label.as_bytes())?;
            if let Some(change) = self.definitions.remove(key.as_str()) {
                change.add(alloc, source, definition.place, &mut self.list)?;
            }
        }
        Ok(())
    }

    /// Puts all in the order of their places.
    pub fn sort(&mut self) -> Result<(), AllocError> {
        self.list.sort_by_key(|patch| patch.from)
    }
}
