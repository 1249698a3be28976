//! The trees that were changed, each written by itself.

ghost use Rattle.std.specs.Prelude.{ℕ, IfErr, List};
ghost use Rattle.tocmark_event.specs.Reading.{ReadingView};
ghost use Rattle.tocmark_event.specs.View.{EventView};
ghost use Rattle.tocmark_rewrite.specs.Edited.{IsVain};

use crate::changes::Work;
use crate::destination::definition_line;
use crate::fault::Fault;
use crate::given::{GivenEvents, GivenPairs};
use crate::joint::{Joint, mark_at};
use crate::line_end::LineEnd;
use crate::near::{Paragraphs, write_near};
use crate::patch::Patch;
use crate::plan::{Plan, kept_blocks, place_of};
use crate::texts::Texts;
use crate::trees::{Block, Tree};
use crate::unit_reader::ReaderOfUnits;
use std::alloc::{AllocError, Global};
use std::collections::{HashMap, HashSet};
use tocmark_event::event::{Event, ParserOptions};
use tocmark_event::options::{Error, Options};
use tocmark_event::reader::Reader;
use tocmark_read_scan::basic::bytes_between;
use tocmark_read_tokens::label::key_of;
use tocmark_read_tokens::word::definition_at;
use tocmark_reader::{ReferenceDefinition, UnitReader};
use tocmark_state::state::State;

/// What reading and writing take beside a text or its events.
#[derive(Drop)]
pub struct Tools<'t, 'o, 'f, R> {
    pub alloc: Global,
    pub reader: &'t R,
    /// What reads units back, if it isn't the reader.
    pub units: Option<UnitReader>,
    pub flags: ParserOptions,
    pub options: Options<'o>,
    /// What ends the first line of the source.
    pub line_end: LineEnd,
    /// Whether texts are spelled as in the source.
    pub has_ranges: bool,
    /// The source as it was read, and its paragraphs.
    pub(crate) read: &'f Work<'f>,
    pub(crate) paragraphs: &'t Paragraphs,
    /// Whether new trees are spelled near these paragraphs.
    pub is_near: bool,
}

impl<'t, 'o, 'f, R> Tools<'t, 'o, 'f, R> {
    /// These, or those that spell trees as the writer does.
    pub(crate) fn near_if(&self, is_near: bool) -> Tools<'t, 'o, 'f, R> {
        Tools {
            alloc: self.alloc,
            reader: self.reader,
            units: self.units,
            flags: self.flags,
            options: self.options,
            line_end: self.line_end,
            has_ranges: self.has_ranges,
            read: self.read,
            paragraphs: self.paragraphs,
            is_near: is_near && self.is_near,
        }
    }
}

/// A changed tree as it is written; empty for a kept one. Its lines end with line feeds.
#[derive(Drop)]
pub struct Piece {
    pub body: String,
    /// The definitions that it asks for, a line each.
    pub definitions: String,
}

/// The definitions that written trees ask for.
#[derive(Drop)]
pub(crate) struct Definitions {
    /// A line for each, in the order in which they are asked for.
    lines: Vec<String>,
    /// The line of each label, by its key.
    places: HashMap<String, usize>,
}

/// The options with this mark for the items of lists.
fn with_mark<'o>(options: Options<'o>, mark: Option<char>) -> Options<'o> {
    match mark {
        None => options,
        Some('.') => Options {
            ordered_list_token: '.',
            ..options
        },
        Some(')') => Options {
            ordered_list_token: ')',
            ..options
        },
        Some(bullet) => Options {
            list_token: bullet,
            ..options
        },
    }
}

/// Hands the events of a tree to a state, and its end: the tree's text, and then the definitions that
/// it asks for.
fn hand<'a, R: Reader + Drop>(
    state: &mut State<R>,
    source: Option<&str>,
    events: &'a [(Event<'a>, (usize, usize))],
    texts: &mut Texts,
) -> Result<(), Error> {
    match source {
        Some(source) => {
            state.process_with_source_range(GivenPairs::new(events), source, texts)?;
        }
        None => {
            state.process(GivenEvents::new(events), texts)?;
        }
    }
    state.finish(texts)?;
    Ok(())
}

/// Why a tree isn't written: the texts that a state hands are refused for want of memory alone.
fn fault_of(error: Error) -> Error {
    match error {
        Error::FormatFailed(_fault) => Error::OutOfMemory,
        other => other,
    }
}

/// The definitions in front of a tree, where they are if it holds code or HTML, and the tree's text.
fn split_definitions(text: &str) -> (&str, &str) {
    let is_front = !text.starts_with("[^") && definition_at(text.as_bytes(), 0).is_some();
    match text.split_once("\n\n") {
        Some((definitions, rest)) if is_front => (definitions, rest),
        _ => ("", text),
    }
}

/// A text without the end of its last line, unless that line is empty.
fn without_end(text: &str) -> &str {
    let past = text.len().saturating_sub(1);
    if text.ends_with('\n') && !text.ends_with("\n\n") {
        text.get(..past).unwrap_or(text)
    } else {
        text
    }
}

/// A tree, and the definitions that it asks for, written under these options by a state of its own.
///
/// An `Err` is one of those of `State::process_with_source_range` but `FormatFailed`.
pub(crate) fn write_plain<'a, R: Reader>(
    tools: &Tools<'_, '_, '_, R>,
    options: Options<'_>,
    source: &str,
    events: &'a [(Event<'a>, (usize, usize))],
) -> Result<Piece, Error> {
    let alloc = tools.alloc;
    let spelled = if tools.has_ranges { Some(source) } else { None };
    let mut texts = Texts::new(alloc);
    let reader = ReaderOfUnits {
        reader: tools.reader,
        units: tools.units,
    };
    let mut state = State::new(alloc, reader, tools.flags, options)?;
    let handed = hand(&mut state, spelled, events, &mut texts);
    drop(state);
    if let Err(error) = handed {
        return Err(fault_of(error));
    }
    let (front, text) = split_definitions(texts.text_at(0).trim_start_matches('\n'));
    let body = String::from_str(alloc, without_end(text))?;
    let mut definitions = String::from_str(alloc, front)?;
    definitions.push_str(texts.text_at(1).trim_start_matches('\n'))?;
    Ok(Piece { body, definitions })
}

/// A tree, and the definitions that it asks for, near the source if the tools say so.
pub fn write_with<'a, R: Reader>(
    tools: &Tools<'_, '_, '_, R>,
    options: Options<'_>,
    source: &str,
    events: &'a [(Event<'a>, (usize, usize))],
) -> Result<Piece, Error> {
    if tools.is_near {
        write_near(tools, options, source, events)
    } else {
        write_plain(tools, options, source, events)
    }
}

/// A tree that begins at a byte of the source, written with the marker that is there.
pub(crate) fn write_tree<'a, R: Reader>(
    tools: &Tools<'_, '_, '_, R>,
    source: &str,
    begins: usize,
    events: &'a [(Event<'a>, (usize, usize))],
) -> Result<Piece, Error> {
    let options = with_mark(tools.options, mark_at(source, begins));
    write_with(tools, options, source, events)
}

/// The events of a tree.
pub fn events_of<'e>(
    events: &'e [(Event<'e>, (usize, usize))],
    tree: Tree,
) -> &'e [(Event<'e>, (usize, usize))] {
    events.get(tree.first..tree.past).unwrap_or(&[])
}

/// The piece of a tree, or why and where it is refused.
fn piece_of<'a, R: Reader>(
    tools: &Tools<'_, '_, '_, R>,
    source: &str,
    blocks: &[Block],
    joint: &Joint,
    events: &'a [(Event<'a>, (usize, usize))],
) -> Result<Piece, Fault>
    ensures { IfErr result (λ fault. (reading : List ℕ → ReadingView)
        → (labels : List (List ℕ)) → (text : List ℕ) → (given : List EventView)
        → IsVain reading labels text given fault) }
{
    let plan = &joint.plan;
    if plan.kept.is_some() {
        return Ok(Piece {
            body: String::new(tools.alloc),
            definitions: String::new(tools.alloc),
        });
    }
    let options = with_mark(tools.options, joint.mark);
    match write_with(tools, options, source, events_of(events, plan.tree)) {
        Ok(piece) => Ok(piece),
        Err(Error::OutOfMemory) => Err(Fault::OutOfMemory),
        Err(error) => Err(Fault::Refused(place_of(blocks, plan), error)),
    }
}

/// The trees that aren't kept, each written by itself. An `Err` names the first one that is refused.
pub(crate) fn make_pieces<'a, R: Reader>(
    tools: &Tools<'_, '_, '_, R>,
    source: &str,
    work: &Work<'_>,
    joints: &[Joint],
    events: &'a [(Event<'a>, (usize, usize))],
) -> Result<Vec<Piece>, Fault>
    ensures { IfErr result (λ fault. (reading : List ℕ → ReadingView)
        → (labels : List (List ℕ)) → (text : List ℕ) → (given : List EventView)
        → IsVain reading labels text given fault) }
{
    let mut all = Vec::new(tools.alloc);
    for (at, joint) in joints.iter().enumerate() {
        let tools = tools.near_if(work.is_near(at));
        let piece = piece_of(&tools, source, work.blocks, joint, events)?;
        all.push(piece)?;
    }
    Ok(all)
}

/// The key of the label that a line defines; the line itself where it is no definition.
fn key_in(alloc: Global, line: &str) -> Result<String, AllocError> {
    let bytes = line.as_bytes();
    match definition_at(bytes, 0) {
        None => String::from_str(alloc, line),
        Some(found) => {
            let label = bytes_between(bytes, found.label.start, found.label.end);
            key_of(alloc, label)
        }
    }
}

impl Definitions {
    /// No definitions.
    fn none(alloc: Global) -> Definitions {
        Definitions {
            lines: Vec::new(alloc),
            places: HashMap::new(alloc),
        }
    }

    fn add(&mut self, alloc: Global, line: &str) -> Result<(), AllocError> {
        let key = key_in(alloc, line)?;
        if self.places.contains_key(key.as_str()) {
            return Ok(());
        }
        self.places.insert(key, self.lines.len())?;
        self.lines.push(String::from_str(alloc, line)?)?;
        Ok(())
    }

    /// Those of all pieces, one for each label.
    pub(crate) fn of(alloc: Global, pieces: &[Piece]) -> Result<Definitions, AllocError> {
        let mut all = Definitions::none(alloc);
        for piece in pieces {
            for line in piece.definitions.as_str().lines() {
                all.add(alloc, line)?;
            }
        }
        Ok(all)
    }

    /// Adds those of the source that are in blocks which aren't kept, the first one of each label.
    pub(crate) fn add_lost(
        &mut self,
        alloc: Global,
        found: &[ReferenceDefinition],
        blocks: &[Block],
        plans: &[Plan],
    ) -> Result<(), AllocError> {
        let kept = kept_blocks(alloc, blocks, plans)?;
        for definition in found {
            let begins = definition.place.whole.0;
            let place = blocks.partition_point(|block| block.to <= begins);
            let is_inside = blocks.get(place).is_some_and(|block| block.from <= begins);
            if is_inside && kept.get(place).copied() == Some(false) {
                let line = definition_line(alloc, definition)?;
                self.add(alloc, line.as_str())?;
            }
        }
        Ok(())
    }

    pub(crate) fn is_empty(&self) -> bool {
        self.lines.is_empty()
    }

    /// The line that defines the label with a key.
    fn line_of(&self, key: &str) -> Option<&str> {
        let place = self.places.get(key)?;
        let line = self.lines.get(*place)?;
        Some(line.as_str())
    }

    /// The definitions of the source that these take the place of, the first of each label.
    pub(crate) fn patches(
        &self,
        alloc: Global,
        found: &[ReferenceDefinition],
    ) -> Result<Vec<Patch>, AllocError> {
        let mut patches = Vec::new(alloc);
        let mut seen = HashSet::new(alloc);
        for definition in found {
            let key = key_of(alloc, definition.label.as_bytes())?;
            if let Some(line) = self.line_of(key.as_str())
                && !seen.contains(key.as_str())
            {
                let (from, to) = definition.place.whole;
                let text = String::from_str(alloc, line)?;
                patches.push(Patch { from, to, text })?;
                seen.insert(key)?;
            }
        }
        Ok(patches)
    }

    /// All lines, with line ends between them.
    pub(crate) fn text(&self, alloc: Global, line_end: &str) -> Result<String, AllocError> {
        let mut text = String::new(alloc);
        for line in &self.lines {
            if !text.is_empty() {
                text.push_str(line_end)?;
            }
            text.push_str(line.as_str())?;
        }
        Ok(text)
    }
}
