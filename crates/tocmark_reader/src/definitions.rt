//! The link reference definitions of a text: what they say, and where they are.

ghost use Rattle.std.specs.Prelude.{◌≡◌, ◌++◌, length, map, slice_get, unwrap_or, IfOk, OnOk};
ghost use Rattle.std.specs.List.{All, flat_map};
ghost use Rattle.tocmark_read_scan.specs.Repeat.{repeated};
ghost use Rattle.tocmark_read_blocks.specs.Blocks.{blocks_view};
ghost use Rattle.tocmark_read_page.specs.Definitions.{definition_view, joined, joined_line};
ghost use Rattle.tocmark_reader.specs.Definitions.{byte_places, definitions_among, definitions_of, line_places, no_place, opening, place_at, place_of, place_step, placed_on, placed_once, places_from, places_in, said_at, said_from, said_view, snapped_place, IsGoodPlace, IsWellPlaced};
ghost use Rattle.tocmark_reader.specs.Pages.{pieces_of};

use crate::emit::snapped;
use crate::pieces::pieces_of;
use crate::words::replaced_bytes;
use std::alloc::{AllocError, Global};
use tocmark_read_blocks::{Blocks, read_blocks};
use tocmark_read_page::definition::LinkDefinition;
use tocmark_read_page::packed::PackedBlock;
use tocmark_read_page::piece::Piece;
use tocmark_read_scan::basic::bytes_between;
use tocmark_read_scan::syntax::{Names, Syntax};
use tocmark_read_tokens::label::collapsed;
use tocmark_read_tokens::reference::unescaped;
use tocmark_read_tokens::word::{Definition, Word, definition_at};

/// Where a definition is, in bytes of the text: the first one, and the one after the last. A definition
/// on several lines of a quote or an item has what is before these lines within its range.
#[derive(Clone, Copy, Debug)]
pub struct DefinitionPlace {
    /// All of it, from its opening bracket on; no white space after it.
    pub whole: (usize, usize),
    /// Its destination, with `<` and `>` where it has them.
    pub destination: (usize, usize),
    /// Its title, with what is round it; empty, after the destination, where it has none.
    pub title: (usize, usize),
}

/// A link reference definition.
#[derive(Debug, Drop)]
pub struct ReferenceDefinition {
    /// The label as it is spelled, with one space for each stretch of white space. Labels match whatever
    /// the case of their letters is.
    pub label: String,
    /// The destination without escapes and references.
    pub destination: String,
    /// The title without escapes and references; empty where there is none.
    pub title: String,
    /// Where it is in the text.
    pub place: DefinitionPlace,
}

/// Lines as one text, and the place in the source of each of its bytes.
#[derive(Drop)]
struct JoinedLines {
    bytes: Vec<u8>,
    places: Vec<usize>,
}

/// Adds a byte's place, for each byte that stands for it.
fn push_place(places: &mut Vec<usize>, byte: u8, at: usize) -> Result<(), AllocError>
    ensures { OnOk result (places.new.items ≡ places.old.items ++ byte_places at byte) }
{
    if byte == 0 {
        places.push(at)?;
        places.push(at)?;
        places.push(at)?;
    } else {
        places.push(at)?;
    }
    Ok(())
}

fn push_places(places: &mut Vec<usize>, bytes: &[u8], start: usize) -> Result<(), AllocError>
    ensures { OnOk result (places.new.items ≡ places.old.items ++ places_from start bytes.now) }
{
    let mut at = start;
    for byte in bytes {
        push_place(places, *byte, at)?;
        at = at.saturating_add(1);
    }
    Ok(())
}

impl JoinedLines {
    fn push_line(&mut self, alloc: Global, text: &[u8], line: Piece) -> Result<(), AllocError>
        ensures bytes { OnOk result (self.new.bytes.items
            ≡ self.old.bytes.items ++ joined_line text.now line) }
        ensures places { OnOk result (self.new.places.items
            ≡ self.old.places.items ++ line_places text.now line) }
    {
        let bytes = bytes_between(text, line.start, line.end);
        let replaced = replaced_bytes(alloc, bytes)?;
        self.bytes.extend_from_slice(&replaced)?;
        self.bytes.push(b'\n')?;
        push_places(&mut self.places, bytes, line.start)?;
        self.places.push(line.end)?;
        Ok(())
    }
}

fn joined(alloc: Global, text: &[u8], lines: &[Piece]) -> Result<JoinedLines, AllocError>
    ensures bytes { IfOk result (λ all. all.bytes.items ≡ joined text.now lines.now) }
    ensures places { IfOk result (λ all.
        all.places.items ≡ flat_map (line_places text.now) lines.now) }
{
    let mut all = JoinedLines {
        bytes: Vec::new(alloc),
        places: Vec::new(alloc),
    };
    for line in lines {
        all.push_line(alloc, text, *line)?;
    }
    Ok(all)
}

/// The place in the source of a byte of joined lines.
fn place_at(places: &[usize], at: usize) -> usize
    ensures { result ≡ place_at places.now at }
{
    places.get(at).copied().unwrap_or(0)
}

/// Where a word begins, with what is round it.
fn opening(word: Word) -> usize
    ensures { result ≡ opening word }
{
    if word.end == word.next {
        word.start
    } else {
        word.start.saturating_sub(1)
    }
}

fn place_of(places: &[usize], at: usize, found: Definition) -> DefinitionPlace
    ensures { result ≡ place_of places.now at found }
{
    let end = place_at(places, found.title.next);
    DefinitionPlace {
        whole: (place_at(places, at), end),
        destination: (
            place_at(places, opening(found.destination)),
            place_at(places, found.destination.next),
        ),
        title: (place_at(places, opening(found.title)), end),
    }
}

/// Adds the place of the definition at a byte, and gives the byte after it.
#[tactic(auto, unfolding(crate::specs::Definitions::placed_once))]
fn place_once(
    lines: &JoinedLines,
    all: &mut Vec<DefinitionPlace>,
    at: usize,
) -> Result<Option<usize>, AllocError>
    ensures { IfOk result (λ next. (all.new.items, next)
        ≡ placed_once lines.now.bytes.items lines.now.places.items at all.old.items) }
{
    match definition_at(&lines.bytes, at) {
        None => Ok(None),
        Some(found) => {
            all.push(place_of(&lines.places, at, found))?;
            Ok(Some(found.next))
        }
    }
}

/// Adds the places of the definitions at the front of lines, and gives the byte after them.
#[tactic(auto, using(tocmark_read_scan::proofs::Repeats::repeated_zero, tocmark_read_scan::proofs::Repeats::repeated_stop, tocmark_read_scan::proofs::Repeats::repeated_more))]
fn place_all(lines: &JoinedLines, all: &mut Vec<DefinitionPlace>) -> Result<usize, AllocError>
    ensures { IfOk result (λ at. (all.new.items, at)
        ≡ repeated (placed_once lines.now.bytes.items lines.now.places.items)
        (length lines.now.bytes.items) 0 all.old.items) }
{
    let mut at = 0;
    for _steps_left in (0..lines.bytes.len()).rev() {
        match place_once(lines, all, at)? {
            None => return Ok(at),
            Some(next) => at = next,
        }
    }
    Ok(at)
}

fn place_on(
    alloc: Global,
    text: &[u8],
    lines: &[Piece],
    all: &mut Vec<DefinitionPlace>,
) -> Result<(), AllocError>
    ensures { OnOk result (all.new.items ≡ placed_on text.now lines.now all.old.items) }
{
    let lines = joined(alloc, text, lines)?;
    place_all(&lines, all)?;
    Ok(())
}

/// Adds the places of the definitions in front of a block, where the pieces up to `next` are those of the
/// blocks before it; gives the piece after its own ones.
fn place_step(
    alloc: Global,
    text: &[u8],
    pieces: &[Piece],
    all: &mut Vec<DefinitionPlace>,
    next: usize,
    block: &PackedBlock,
) -> Result<usize, AllocError>
    ensures { IfOk result (λ behind. (all.new.items, behind)
        ≡ place_step text.now pieces.now (all.old.items, next) block.now) }
{
    place_on(alloc, text, pieces_of(pieces, next, block.first()), all)?;
    if next < block.last() {
        Ok(block.last())
    } else {
        Ok(next)
    }
}

fn places_in(alloc: Global, text: &[u8], found: &Blocks) -> Result<Vec<DefinitionPlace>, AllocError>
    ensures { IfOk result (λ all. all.items ≡ places_in text.now (blocks_view found.now)) }
{
    let mut all = Vec::new(alloc);
    let mut next = 0usize;
    for block in &found.blocks {
        next = place_step(alloc, text, &found.pieces, &mut all, next, block)?;
    }
    Ok(all)
}

fn snapped_place(text: &str, place: DefinitionPlace) -> DefinitionPlace
    ensures exact { result ≡ snapped_place text.now place }
    ensures good { IsGoodPlace text.now result }
{
    DefinitionPlace {
        whole: snapped(text, place.whole.0, place.whole.1),
        destination: snapped(text, place.destination.0, place.destination.1),
        title: snapped(text, place.title.0, place.title.1),
    }
}

/// A definition as it is said, where it is.
#[tactic(auto, unfolding(crate::specs::Definitions::said_at))]
fn said_at(
    alloc: Global,
    names: Names,
    text: &str,
    found: &LinkDefinition,
    place: DefinitionPlace,
) -> Result<ReferenceDefinition, AllocError>
    ensures exact { IfOk result (λ d. said_view d
        ≡ said_at names text.now (definition_view found.now) place) }
    ensures ranges { IfOk result (IsWellPlaced text.now) }
{
    let label = collapsed(alloc, &found.label)?;
    let destination = unescaped(alloc, names, &found.destination)?;
    let title = unescaped(alloc, names, &found.title)?;
    Ok(ReferenceDefinition {
        label: String::from_utf8_lossy(alloc, &label)?,
        destination: String::from_utf8_lossy(alloc, &destination)?,
        title: String::from_utf8_lossy(alloc, &title)?,
        place: snapped_place(text, place),
    })
}

/// The place of a definition; the front of the text where there is none.
fn place_or_front(places: &[DefinitionPlace], at: usize) -> DefinitionPlace
    ensures { result ≡ unwrap_or (slice_get places.now at) no_place }
{
    let front = DefinitionPlace {
        whole: (0, 0),
        destination: (0, 0),
        title: (0, 0),
    };
    places.get(at).copied().unwrap_or(front)
}

fn said_all(
    alloc: Global,
    names: Names,
    text: &str,
    found: &[LinkDefinition],
    places: &[DefinitionPlace],
) -> Result<Vec<ReferenceDefinition>, AllocError>
    ensures exact { IfOk result (λ all. map said_view all.items
        ≡ said_from names text.now places.now 0 (map definition_view found.now)) }
    ensures ranges { IfOk result (λ all. All (IsWellPlaced text.now) all.items) }
{
    let mut all = Vec::new(alloc);
    let mut at = 0usize;
    for one in found {
        let place = place_or_front(places, at);
        all.push(said_at(alloc, names, text, one, place)?)?;
        at = at.saturating_add(1);
    }
    Ok(all)
}

/// The definitions that the blocks of a text give, in their order.
#[tactic(auto, unfolding(crate::specs::Definitions::definitions_among))]
pub(crate) fn definitions_among(
    alloc: Global,
    names: Names,
    text: &str,
    found: &Blocks,
) -> Result<Vec<ReferenceDefinition>, AllocError>
    ensures exact { IfOk result (λ all. map said_view all.items
        ≡ definitions_among names text.now (blocks_view found.now)) }
    ensures ranges { IfOk result (λ all. All (IsWellPlaced text.now) all.items) }
{
    if found.definitions.len() == 0 {
        return Ok(Vec::new(alloc));
    }
    let places = places_in(alloc, text.as_bytes(), found)?;
    said_all(alloc, names, text, &found.definitions, &places)
}

/// The link reference definitions of a text under a syntax, in their order, each with what it says and
/// where it is. Of several with one label the first is what links with that label lead to.
///
/// They are those that the reader finds under this syntax, in quotes and items, too. Each range lies
/// within the text, on boundaries of characters.
///
/// ```
/// for definition in &find_definitions(alloc, CORE, text)? {
///     let (from, to) = definition.place.destination;
/// }
/// ```
pub fn find_definitions(
    alloc: Global,
    syntax: Syntax,
    text: &str,
) -> Result<Vec<ReferenceDefinition>, AllocError>
    ensures exact { IfOk result (λ all. map said_view all.items ≡ definitions_of syntax text.now) }
    ensures ranges { IfOk result (λ all. All (IsWellPlaced text.now) all.items) }
{
    let found = read_blocks(alloc, syntax, text.as_bytes())?;
    definitions_among(alloc, syntax.names, text, &found)
}
