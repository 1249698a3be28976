//! Rewrites a document: what wasn't changed stays byte for byte.

ghost use Rattle.std.specs.Prelude.{◌≡◌, ◌≢◌, ◌↔◌, ◌∷◌, [], ℕ, IfErr, IfOk, IfSome, IsNone, IsTrue, List, Option, length, map, string_bytes};
ghost use Rattle.std.specs.Borrow.{Bor};
ghost use Rattle.std.specs.Iterator.{Drains, IsFinite};
ghost use Rattle.std.specs.List.{All};
ghost use Rattle.tocmark_event.specs.Merged.{merged};
ghost use Rattle.tocmark_event.specs.Reading.{reading_view};
ghost use Rattle.tocmark_event.specs.Text.{ParserEvent};
ghost use Rattle.tocmark_event.specs.View.{EventView};
ghost use Rattle.tocmark_compare.specs.Given.{found_events, given_events};
ghost use Rattle.tocmark_rewrite.specs.Edited.{HasItsCause, IsVain, IsWrittenFor, SaysSame, edited_events, read_source};
ghost use Rattle.tocmark_rewrite.specs.Kept.{AreCopied, IsHonest, IsTold, ReadSource, WasKept, planned_span, span_of};
ghost use Rattle.tocmark_rewrite.specs.Labels.{AreAmong};
ghost use Rattle.tocmark_rewrite.specs.Parts.{Builds, IsMadeOf};
ghost use Rattle.tocmark_rewrite.specs.Trees.{ranges_of, spans_of};
ghost use Rattle.tocmark_rewrite.specs.declared.fault.Fault.TheVariants.{OutOfMemory};
ghost use Rattle.tocmark_rewrite.specs.declared.output.Part.TheVariants.{Source};

use crate::answer::{Rewritten, told};
use crate::changes::{Standing, Work, all_patches, first_ways, kept_lines, next_ways};
use crate::collect::{collected, lent};
use crate::definition_reader::DefinitionReader;
use crate::fault::{Fault, Place};
use crate::join::{Manner, PlacedPatches, Written, joined, patched};
use crate::joint::{Joint, Row, mark_patches};
use crate::labels::has_all;
use crate::line_end::LineEnd;
use crate::look::with_look;
use crate::near::Paragraphs;
use crate::output::{Output, Part};
use crate::patch::{Patch, add_copies};
use crate::pieces::{Definitions, Piece, Tools, events_of, make_pieces};
use crate::plan::{Documents, loosened, place_of};
use crate::trees::{Tree, blocks, trees};
use std::alloc::{AllocError, Global};
use tocmark_compare::same::{are_same, differ};
use tocmark_event::event::{Event, ParserOptions};
use tocmark_event::options::Options;
use tocmark_event::reader::{Reader, Reading};

/// The source as it is.
fn whole(alloc: Global, source: &str) -> Result<Output, AllocError>
    ensures text { IfOk result (λ output. string_bytes output.text ≡ source.now) }
    ensures parts { IfOk result (λ output. Builds source.now output) }
    ensures copied { IfOk result (λ output.
        output.parts.items ≡ Source 0 (length source.now) ∷ []) }
{
    let text = String::from_str(alloc, source)?;
    let mut parts = Vec::new(alloc);
    parts.push(Part::Source(0, source.len()))?;
    Ok(Output {
        alloc,
        text,
        parts,
        is_patched: false,
        written: Vec::new(alloc),
    })
}

/// The answer with this text.
fn answer(alloc: Global, work: &Work<'_>, output: Output) -> Result<Rewritten, AllocError>
    ensures text { IfOk result (λ answer. (string_bytes answer.text ≡ string_bytes output.text)
        × (answer.parts.items ≡ output.parts.items)) }
    ensures trees { IfOk result (λ answer. map span_of answer.trees.items
        ≡ map planned_span work.now.plans.now) }
    ensures told { IfOk result (λ answer. (r : ReadSource) → (given : List EventView)
        → All (IsHonest r given) work.now.plans.now
        → All (IsTold r given answer.parts.items) answer.trees.items) }
    ensures all { IfOk result (λ answer. AreCopied output.parts.items work.now.plans.now
        → All WasKept answer.trees.items) }
{
    let trees = told(
        alloc,
        work.blocks,
        &output.parts,
        work.plans,
        output.is_patched,
        &output.written,
    )?;
    let Output { text, parts, .. } = output;
    Ok(Rewritten { text, parts, trees })
}

/// Whether a tree that was read is one that was given.
fn is_tree<'e>(
    alloc: Global,
    found: &'e [(Event<'e>, (usize, usize))],
    tree: Tree,
    events: &[(Event<'_>, (usize, usize))],
    other: Tree,
) -> Result<bool, AllocError> {
    let read = events_of(found, tree);
    match events.get(other.first..other.past) {
        Some(given) => are_same(alloc, read, given),
        None => Ok(false),
    }
}

/// The first tree at which a text is read otherwise, by what was found in the text.
fn difference<'e>(
    alloc: Global,
    found: &'e [(Event<'e>, (usize, usize))],
    work: &Work<'_>,
    events: &[(Event<'_>, (usize, usize))],
) -> Result<Place, AllocError> {
    let read = trees(alloc, found)?;
    let mut place = Place {
        event: 0,
        lines: None,
    };
    for (at, plan) in work.plans.iter().enumerate() {
        place = place_of(work.blocks, plan);
        let is_read = match read.get(at) {
            Some(tree) => is_tree(alloc, found, *tree, events, plan.tree)?,
            None => false,
        };
        if !is_read {
            return Ok(place);
        }
    }
    Ok(place)
}

/// Whether a reading has these events, and defines these labels.
fn says_same(
    alloc: Global,
    reading: &Reading,
    labels: &[String],
    events: &[(Event<'_>, (usize, usize))],
) -> Result<bool, AllocError>
    ensures { IfOk result (λ same. IsTrue same
        ↔ (merged (found_events (reading_view reading.now)) ≡ merged (given_events events.now))
        × AreAmong (map string_bytes labels.now) (reading_view reading.now).defined) }
{
    let same = are_same(alloc, &reading.events, events)?;
    if !same {
        return Ok(false);
    }
    let among = has_all(alloc, labels, &reading.defined)?;
    Ok(among)
}

/// The first tree at which a text is read otherwise than the events; none if it is read as them, and defines each label
/// that the source does.
fn refusal<R: Reader>(
    tools: &Tools<'_, '_, '_, R>,
    work: &Work<'_>,
    text: &str,
    events: &[(Event<'_>, (usize, usize))],
) -> Result<Option<Place>, AllocError>
    ensures none { IfOk result (λ place. IsNone place
        → SaysSame (λ text. R.reading tools.now.reader.now text tools.now.flags)
        (map string_bytes work.now.defined.now) (given_events events.now) text.now) }
    ensures some { IfOk result (λ place. IfSome place (λ _.
        ¬ (SaysSame (λ text. R.reading tools.now.reader.now text tools.now.flags)
        (map string_bytes work.now.defined.now) (given_events events.now) text.now))) }
{
    let reading = tools.reader.read(tools.alloc, text, tools.flags)?;
    let says = says_same(tools.alloc, &reading, work.defined, events)?;
    if says {
        return Ok(None);
    }
    let place = difference(tools.alloc, &reading.events, work, events)?;
    Ok(Some(place))
}

/// Of each tree, whether a text reads otherwise than it, although its neighbours may come and go.
fn misread_trees<R: Reader>(
    tools: &Tools<'_, '_, '_, R>,
    work: &Work<'_>,
    text: &str,
    events: &[(Event<'_>, (usize, usize))],
) -> Result<Vec<bool>, AllocError> {
    let alloc = tools.alloc;
    let reading = tools.reader.read(alloc, text, tools.flags)?;
    let read = trees(alloc, &reading.events)?;
    let mut misread = Vec::new(alloc);
    for (at, plan) in work.plans.iter().enumerate() {
        let behind = work.plans.len().saturating_sub(at);
        let mut is_read = false;
        for place in [Some(at), read.len().checked_sub(behind)] {
            if let Some(place) = place
                && let Some(tree) = read.get(place)
                && !is_read
            {
                is_read = is_tree(alloc, &reading.events, *tree, events, plan.tree)?;
            }
        }
        misread.push(!is_read)?;
    }
    Ok(misread)
}

/// How many ways are tried.
const ROUNDS: usize = 4;

/// The source with just what was edited replaced, in the first way in which it is read as the events.
fn patched_text<'a, R: DefinitionReader>(
    tools: &Tools<'_, '_, '_, R>,
    source: &str,
    work: &Work<'a>,
    events: &'a [(Event<'a>, (usize, usize))],
) -> Result<Option<Output>, AllocError>
    ensures says { IfOk result (λ answer. IfSome answer (λ output.
        SaysSame (λ text. R.reading tools.now.reader.now text tools.now.flags)
        (map string_bytes work.now.defined.now) (given_events events.now)
        (string_bytes output.text))) }
    ensures parts { IfOk result (λ answer. IfSome answer (λ output. Builds source.now output)) }
{
    if !work.is_in_place() {
        return Ok(None);
    }
    let mut ways = first_ways(tools.alloc, work)?;
    for _round in 0..ROUNDS {
        let Some(patches) = all_patches(tools, source, work, events, &ways)? else {
            return Ok(None);
        };
        let output = patched(tools.alloc, source, &patches.list, &patches.written)?;
        let has_texts = patches.has_texts;
        drop(patches);
        match refusal(tools, work, output.text.as_str(), events)? {
            None => return Ok(Some(output)),
            Some(_place) => {}
        }
        let misread = misread_trees(tools, work, output.text.as_str(), events)?;
        let next = next_ways(tools.alloc, work, &misread, &ways, has_texts)?;
        if next == ways {
            break;
        }
        ways = next;
    }
    Ok(None)
}

/// The definitions that written trees ask for, those that were in blocks which aren't kept, and the patches of the source
/// by which the first ones take the place of the source's.
fn definitions_for<R: DefinitionReader>(
    tools: &Tools<'_, '_, '_, R>,
    source: &str,
    work: &Work<'_>,
    pieces: &[Piece],
) -> Result<(Definitions, Vec<Patch>), AllocError> {
    let alloc = tools.alloc;
    let mut asked = Definitions::of(alloc, pieces)?;
    if asked.is_empty() && work.defined.is_empty() {
        return Ok((asked, Vec::new(alloc)));
    }
    let found = tools
        .reader
        .reference_definitions(alloc, source, tools.flags)?;
    let patches = asked.patches(alloc, &found)?;
    asked.add_lost(alloc, &found, work.blocks, work.plans)?;
    Ok((asked, patches))
}

/// The manners in which blocks are put side by side, as they are tried: with blank lines between them or not, with the
/// source's definitions redefined or not, with definitions at the end or not. The last one, with all three, is no part of it.
const MANNERS: [(bool, bool, bool); 7] = [
    (false, false, false),
    (false, true, false),
    (false, false, true),
    (false, true, true),
    (true, false, false),
    (true, true, false),
    (true, false, true),
];

/// A text that was tried: trees side by side.
#[derive(Drop)]
struct Tried {
    output: Output,
    /// A tree at which it is read otherwise than the events, or at which an earlier try was; none if it is read as them.
    otherwise: Option<Place>,
}

/// Trees side by side, in the first manner in which they are read as the events, or else in the last one. The first manner
/// changes least, so the tree at which that was read otherwise is reported.
fn try_manners<R: Reader>(
    tools: &Tools<'_, '_, '_, R>,
    source: &str,
    work: &Work<'_>,
    joints: &[Joint],
    written: Written<'_>,
    events: &[(Event<'_>, (usize, usize))],
) -> Result<Tried, AllocError>
    ensures says { IfOk result (λ tried. IsNone tried.otherwise
        → SaysSame (λ text. R.reading tools.now.reader.now text tools.now.flags)
        (map string_bytes work.now.defined.now) (given_events events.now)
        (string_bytes tried.output.text)) }
    ensures otherwise { IfOk result (λ tried. IfSome tried.otherwise (λ _.
        ¬ (SaysSame (λ text. R.reading tools.now.reader.now text tools.now.flags)
        (map string_bytes work.now.defined.now) (given_events events.now)
        (string_bytes tried.output.text)))) }
    ensures parts { IfOk result (λ tried. Builds source.now tried.output) }
{
    let (alloc, blocks) = (tools.alloc, work.blocks);
    let mut first: Option<Place> = None;
    for (apart, redefines, defines) in MANNERS {
        if (apart || redefines || defines) && written.definitions.is_empty() {
            continue;
        }
        let manner = Manner::new(apart, redefines, defines);
        let output = joined(alloc, source, blocks, joints, written, manner)?;
        let otherwise = refusal(tools, work, output.text.as_str(), events)?;
        if otherwise.is_none() {
            return Ok(Tried { output, otherwise });
        }
        first = first.or(otherwise);
    }
    let manner = Manner::new(true, true, true);
    let output = joined(alloc, source, blocks, joints, written, manner)?;
    let otherwise = match refusal(tools, work, output.text.as_str(), events)? {
        Some(last) => Some(first.unwrap_or(last)),
        None => None,
    };
    Ok(Tried { output, otherwise })
}

/// Kept blocks and written ones side by side, in the first manner in which they are read as the events, or else in the last
/// one.
fn side_by_side<'a, R: DefinitionReader>(
    tools: &Tools<'_, '_, '_, R>,
    source: &str,
    work: &Work<'_>,
    events: &'a [(Event<'a>, (usize, usize))],
) -> Result<Tried, Fault>
    ensures says { IfOk result (λ tried. IsNone tried.otherwise
        → SaysSame (λ text. R.reading tools.now.reader.now text tools.now.flags)
        (map string_bytes work.now.defined.now) (given_events events.now)
        (string_bytes tried.output.text)) }
    ensures otherwise { IfOk result (λ tried. IfSome tried.otherwise (λ _.
        ¬ (SaysSame (λ text. R.reading tools.now.reader.now text tools.now.flags)
        (map string_bytes work.now.defined.now) (given_events events.now)
        (string_bytes tried.output.text)))) }
    ensures parts { IfOk result (λ tried. Builds source.now tried.output) }
    ensures refused { IfErr result
        (IsVain (λ text. R.reading tools.now.reader.now text tools.now.flags)
        (map string_bytes work.now.defined.now) source.now (given_events events.now)) }
{
    let alloc = tools.alloc;
    let row = Row {
        source,
        blocks: work.blocks,
        plans: work.plans,
        events,
    };
    let joints = row.joints(alloc, tools.options)?;
    let pieces = make_pieces(tools, source, work, &joints, events)?;
    let (definitions, mut redefined) = definitions_for(tools, source, work, &pieces)?;
    let mut changes = mark_patches(alloc, source, work.found, &joints)?;
    add_copies(alloc, work.changes, &mut changes)?;
    add_copies(alloc, &changes, &mut redefined)?;
    let changes = PlacedPatches::of(alloc, work.blocks, changes)?;
    let redefined = PlacedPatches::of(alloc, work.blocks, redefined)?;
    let written = Written {
        pieces: &pieces,
        definitions: &definitions,
        changes: &changes,
        redefined: &redefined,
        line_end: tools.line_end,
    };
    Ok(try_manners(tools, source, work, &joints, written, events)?)
}

/// How often misread blocks beside a change are written, too.
const LOOSENINGS: usize = 2;

/// Puts kept and written blocks side by side, after a first text was refused. Blocks beside a change that parsed otherwise
/// are written, too. None if no such text parses to the events.
fn loosened_text<'a, R: DefinitionReader>(
    tools: &Tools<'_, '_, '_, R>,
    source: &str,
    work: &Work<'_>,
    events: &'a [(Event<'a>, (usize, usize))],
    text: &str,
) -> Result<Option<Output>, AllocError>
    ensures says { IfOk result (λ answer. IfSome answer (λ output.
        SaysSame (λ text. R.reading tools.now.reader.now text tools.now.flags)
        (map string_bytes work.now.defined.now) (given_events events.now)
        (string_bytes output.text))) }
    ensures parts { IfOk result (λ answer. IfSome answer (λ output. Builds source.now output)) }
{
    let alloc = tools.alloc;
    let mut misread = misread_trees(tools, work, text, events)?;
    let mut plans = Vec::new(alloc);
    plans.extend_from_slice(work.plans)?;
    for _round in 0..LOOSENINGS {
        match loosened(alloc, &plans, &misread)? {
            Some(looser) => plans = looser,
            None => break,
        }
        let looser = Work {
            plans: &plans,
            ..*work
        };
        let tried = match side_by_side(tools, source, &looser, events) {
            Ok(tried) => tried,
            Err(Fault::OutOfMemory) => return Err(AllocError),
            Err(_) => break,
        };
        if tried.otherwise.is_none() {
            return Ok(Some(tried.output));
        }
        misread = misread_trees(tools, work, tried.output.text.as_str(), events)?;
    }
    Ok(None)
}

/// Kept, patched and written blocks side by side, as they are read as the events. None if no tree can be patched, or if no
/// such text is read so.
fn standing_text<'a, R: DefinitionReader>(
    tools: &Tools<'_, '_, '_, R>,
    source: &str,
    work: &Work<'a>,
    events: &'a [(Event<'a>, (usize, usize))],
) -> Result<Option<Output>, AllocError>
    ensures says { IfOk result (λ answer. IfSome answer (λ output.
        SaysSame (λ text. R.reading tools.now.reader.now text tools.now.flags)
        (map string_bytes work.now.defined.now) (given_events events.now)
        (string_bytes output.text))) }
    ensures parts { IfOk result (λ answer. IfSome answer (λ output. Builds source.now output)) }
{
    let mut ways = first_ways(tools.alloc, work)?;
    for _round in 0..ROUNDS {
        let Standing { plans, patches } = kept_lines(tools, source, work, events, &ways)?;
        if patches.list.is_empty() {
            return Ok(None);
        }
        let patched = Work {
            plans: &plans,
            changes: &patches.list,
            ways: &ways,
            ..*work
        };
        let tried = match side_by_side(tools, source, &patched, events) {
            Ok(tried) => tried,
            Err(Fault::OutOfMemory) => return Err(AllocError),
            Err(_) => return Ok(None),
        };
        let Some(_place) = tried.otherwise else {
            return Ok(Some(tried.output));
        };
        let text = tried.output.text.as_str();
        let misread = misread_trees(tools, work, text, events)?;
        let next = next_ways(tools.alloc, work, &misread, &ways, patches.has_texts)?;
        if next == ways {
            return loosened_text(tools, source, &patched, events, text);
        }
        ways = next;
    }
    Ok(None)
}

/// Kept blocks and written ones side by side, as they are read as the events.
fn joined_text<'a, R: DefinitionReader>(
    tools: &Tools<'_, '_, '_, R>,
    source: &str,
    work: &Work<'a>,
    events: &'a [(Event<'a>, (usize, usize))],
) -> Result<Output, Fault>
    ensures says { IfOk result (λ output.
        SaysSame (λ text. R.reading tools.now.reader.now text tools.now.flags)
        (map string_bytes work.now.defined.now) (given_events events.now)
        (string_bytes output.text)) }
    ensures parts { IfOk result (λ output. Builds source.now output) }
    ensures refused { IfErr result
        (IsVain (λ text. R.reading tools.now.reader.now text tools.now.flags)
        (map string_bytes work.now.defined.now) source.now (given_events events.now)) }
{
    if let Some(output) = standing_text(tools, source, work, events)? {
        return Ok(output);
    }
    let ways = first_ways(tools.alloc, work)?;
    let near = Work {
        ways: &ways,
        ..*work
    };
    let first = side_by_side(tools, source, &near, events)?;
    if first.otherwise.is_none() {
        return Ok(first.output);
    }
    let plain = side_by_side(tools, source, work, events)?;
    let Some(place) = plain.otherwise else {
        return Ok(plain.output);
    };
    match loosened_text(tools, source, work, events, plain.output.text.as_str())? {
        Some(output) => Ok(output),
        None => Err(Fault::ReadOtherwise(place)),
    }
}

/// The new text: the source if nothing was changed, else with patches, else kept and written blocks.
fn new_text<'a, R: DefinitionReader>(
    tools: &Tools<'_, '_, '_, R>,
    source: &str,
    work: &Work<'a>,
    events: &'a [(Event<'a>, (usize, usize))],
) -> Result<Output, Fault>
    requires found { given_events work.now.found.now
        ≡ found_events (R.reading tools.now.reader.now source.now tools.now.flags) }
    requires defined { map string_bytes work.now.defined.now
        ≡ (R.reading tools.now.reader.now source.now tools.now.flags).defined }
    ensures says { IfOk result (λ output.
        SaysSame (λ text. R.reading tools.now.reader.now text tools.now.flags)
        (map string_bytes work.now.defined.now) (given_events events.now)
        (string_bytes output.text)) }
    ensures unchanged { merged (given_events events.now)
        ≡ merged (found_events (R.reading tools.now.reader.now source.now tools.now.flags))
        → IfOk result (λ output. (string_bytes output.text ≡ source.now)
        × (output.parts.items ≡ Source 0 (length source.now) ∷ [])) }
    ensures parts { IfOk result (λ output. Builds source.now output) }
    ensures refused { IfErr result
        (HasItsCause (λ text. R.reading tools.now.reader.now text tools.now.flags) source.now
        (given_events events.now)) }
{
    if !differ(work.found, events) && are_same(tools.alloc, work.found, events)? {
        let output = whole(tools.alloc, source)?;
        return Ok(output);
    }
    if let Some(output) = patched_text(tools, source, work, events)? {
        return Ok(output);
    }
    joined_text(tools, source, work, events)
}

/// Writes an edited document, as `rewritten` does, from events in a slice, which it doesn't copy. Each event has a range: a
/// new one has that of what it replaces, or an empty one at its place.
pub fn rewritten_slice<'a, R: DefinitionReader>(
    alloc: Global,
    source: &str,
    events: &'a [(Event<'a>, (usize, usize))],
    reader: &R,
    flags: ParserOptions,
    options: Options<'_>,
) -> Result<Rewritten, Fault>
    ensures same { IfOk result (λ answer.
        merged (found_events (R.reading reader.now (string_bytes answer.text) flags))
        ≡ merged (given_events events.now)) }
    ensures labels { IfOk result (λ answer. AreAmong (R.reading reader.now source.now flags).defined
        (R.reading reader.now (string_bytes answer.text) flags).defined) }
    ensures parts { IfOk result (λ answer.
        IsMadeOf source.now (string_bytes answer.text) answer.parts.items) }
    ensures unchanged { IfOk result (λ answer.
        merged (given_events events.now)
        ≡ merged (found_events (R.reading reader.now source.now flags))
        → string_bytes answer.text ≡ source.now) }
    ensures trees { IfOk result (λ answer.
        map span_of answer.trees.items ≡ spans_of (given_events events.now)) }
    ensures kept { IfOk result (λ answer.
        All (IsTold (read_source (λ text. R.reading reader.now text flags) source.now)
        (given_events events.now) answer.parts.items) answer.trees.items) }
    ensures all { IfOk result (λ answer.
        given_events events.now ≡ found_events (R.reading reader.now source.now flags)
        → ranges_of events.now ≡ ranges_of (R.reading reader.now source.now flags).events
        → All WasKept answer.trees.items) }
    ensures refused { IfErr result
        (HasItsCause (λ text. R.reading reader.now text flags) source.now
        (given_events events.now)) }
{
    let reading = reader.read(alloc, source, flags)?;
    let blocks = blocks(alloc, source, &reading.events)?;
    let documents = Documents {
        found: &reading.events,
        blocks: &blocks,
        given: events,
    };
    let plans = documents.plans(alloc)?;
    let work = Work {
        found: &reading.events,
        defined: &reading.defined,
        blocks: &blocks,
        plans: &plans,
        changes: &[],
        ways: &[],
    };
    let paragraphs = Paragraphs::of(alloc, work.found)?;
    let tools = Tools {
        alloc,
        reader,
        units: reader.unit_reader(),
        flags,
        options: with_look(options, source, work.found),
        line_end: LineEnd::of(source),
        has_ranges: true,
        read: &work,
        paragraphs: &paragraphs,
        is_near: true,
    };
    let output = new_text(&tools, source, &work, events)?;
    Ok(answer(alloc, &work, output)?)
}

/// Writes an edited document, and keeps the bytes of what you didn't edit as far as it can (this is only tested).
///
/// `events` are those that `reader` finds in `source` under `flags`, each with its range, after you changed, added or
/// removed some. A new event has no range, or the range of what it replaces. `Reading::pairs` gives the events of a reading
/// that you edited in place. The options say how blocks are written that can't be patched. An option with its default value
/// gives way to what is most common in the source.
///
/// - If nothing was changed, the answer is the source.
/// - If a destination, a title, a text, a heading's level, a task's box or an info string was changed, just those bytes are
///   replaced. The destination of a link by label is replaced in the label's definition.
/// - If a word was made strong, emphasized, struck through, code or a link, or isn't any more, just the delimiters change.
/// - If more was changed, the innermost block or item with a change is written again, or else the block at the top.
/// - If a paragraph of the source is in a written block, its words keep their spelling.
/// - If blocks at the top were added or removed, the others keep their lines but for such changes, and so does what is
///   between them.
/// - If a block beside a change would be parsed otherwise there, it is written again, too.
///
/// The new text is parsed. It is answered only if it has these events, with neighbouring texts joined, and defines each label
/// that the source defines (`edited`). It consists of slices of the source and of written texts (`parts`). The answer also
/// says what became of each block at the top. A block that was kept has its old events, and a part copies its lines.
///
/// It fails if memory runs out (`OutOfMemory`), if the writer has no text for a block (`Refused`), or if each text that was
/// tried parses to other events (`ReadOtherwise`). The last two name the block. A document that wasn't changed is never
/// refused (`refused`). The source and the events are still yours.
pub fn rewritten<'a, R, I>(
    alloc: Global,
    source: &str,
    events: I,
    reader: &R,
    flags: ParserOptions,
    options: Options<'_>,
) -> Result<Rewritten, Fault>
where
    R: DefinitionReader,
    I: IntoIterator<Item = (&'a Event<'a>, Option<(usize, usize)>)>,
    requires { (it : I.IntoIter) → I.into_iter_gives events it
        → I.IntoIter.can_next it × IsFinite (I.IntoIter.remaining it) }
    ensures edited { IfOk result (λ answer.
        (it : I.IntoIter) × (xs : List (Bor ParserEvent × Option (ℕ × ℕ)))
        × I.into_iter_gives events it × Drains I.IntoIter.next_gives it xs
        × IsWrittenFor (λ text. R.reading reader.now text flags) source.now (edited_events xs)
        answer) }
    ensures refused { IfErr result (λ fault. fault ≢ OutOfMemory
        → (it : I.IntoIter) × (xs : List (Bor ParserEvent × Option (ℕ × ℕ)))
        × I.into_iter_gives events it × Drains I.IntoIter.next_gives it xs
        × HasItsCause (λ text. R.reading reader.now text flags) source.now (edited_events xs)
        fault) }
    ensures parts { IfOk result (λ answer.
        IsMadeOf source.now (string_bytes answer.text) answer.parts.items) }
{
    let copies: Vec<(Event<'static>, (usize, usize))> = collected(alloc, events.into_iter())?;
    let answer = rewritten_slice(alloc, source, lent(&copies), reader, flags, options)?;
    Ok(answer)
}
