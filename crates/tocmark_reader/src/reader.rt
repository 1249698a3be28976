//! The reader.

ghost use Rattle.std.specs.Prelude.{◌≡◌, map, string_bytes, IfOk, OnOk};
ghost use Rattle.std.specs.List.{All};
ghost use Rattle.tocmark_read_blocks.specs.Blocks.{blocks_in, blocks_view};
ghost use Rattle.tocmark_read_page.specs.Definitions.{definition_view};
ghost use Rattle.tocmark_read_spans.specs.Definitions.{collected_view, entry_of};
ghost use Rattle.tocmark_reader.specs.Reading.{define_step_in, collected_in, noted_as, noted, collected_from, first_entry, found_under, core_reading, reading_of};
ghost use Rattle.tocmark_reader.specs.Definitions.{definitions_of, said_view, IsWellPlaced};
ghost use Rattle.tocmark_reader.specs.Left.{IsBetweenTrees, reading_left};
ghost use Rattle.tocmark_event.specs.Reading.{reading_view};

use crate::block_events::{Assembly, loose_lists};
use crate::block_reading::BlockReading;
use crate::definitions::{ReferenceDefinition, definitions_among};
use crate::searched::SearchedText;
use crate::words::replaced_bytes;
use std::alloc::{AllocError, Global};
use tocmark_event::event::ParserOptions;
use tocmark_event::reader::{Reader, Reading};
use tocmark_read_blocks::{Blocks, read_blocks};
use tocmark_read_page::definition::LinkDefinition;
use tocmark_read_page::packed::PackedBlock;
use tocmark_read_page::page::BlockKind;
use tocmark_read_scan::basic::bytes_between;
use tocmark_read_scan::syntax::{CORE, Names, Syntax};
use tocmark_read_spans::definitions::{Collected, Definitions, Entry, distinct_labels};
use tocmark_read_tokens::label::first_places;

/// Reads CommonMark 0.31.2, under all flags alike.
#[derive(Clone, Copy, Debug)]
pub struct CoreReader;

#[tactic(auto, unfolding(crate::specs::Reading::define_step_in))]
fn define(
    alloc: Global,
    names: Names,
    collected: &mut Collected,
    found: &LinkDefinition,
) -> Result<(), AllocError>
    ensures { OnOk result (collected_view collected.new
        ≡ define_step_in names (collected_view collected.old) (definition_view found.now)) }
{
    collected.define(alloc, names, &found.label, &found.destination, &found.title)
}

fn collect(alloc: Global, names: Names, all: &[LinkDefinition]) -> Result<Collected, AllocError>
    ensures { IfOk result (λ c.
        collected_view c ≡ collected_in names (map definition_view all.now)) }
{
    let mut collected = Collected::new(alloc);
    for found in all {
        define(alloc, names, &mut collected, found)?;
    }
    Ok(collected)
}

/// Adds a footnote, if a block is the definition of one.
#[tactic(auto, unfolding(crate::specs::Reading::noted_as))]
fn note(
    alloc: Global,
    collected: &mut Collected,
    text: &[u8],
    kind: BlockKind,
) -> Result<(), AllocError>
    ensures { OnOk result (collected_view collected.new
        ≡ noted_as text.now (collected_view collected.old) kind) }
{
    if let BlockKind::Footnote(from, to) = kind {
        let name = replaced_bytes(alloc, bytes_between(text, from, to))?;
        collected.note(alloc, &name)?;
    }
    Ok(())
}

fn note_all(
    alloc: Global,
    collected: &mut Collected,
    text: &[u8],
    blocks: &[PackedBlock],
) -> Result<(), AllocError>
    ensures { OnOk result (collected_view collected.new
        ≡ noted text.now blocks.now (collected_view collected.old)) }
{
    for block in blocks {
        note(alloc, collected, text, block.kind())?;
    }
    Ok(())
}

/// What brackets can lead to: the definitions of links, and where they are read the footnotes.
#[tactic(auto, unfolding(crate::specs::Reading::collected_from))]
fn collect_from(
    alloc: Global,
    syntax: Syntax,
    text: &[u8],
    found: &Blocks,
) -> Result<Collected, AllocError>
    ensures { IfOk result (λ c. collected_view c
        ≡ collected_from syntax text.now (blocks_view found.now)) }
{
    let mut collected = collect(alloc, syntax.names, &found.definitions)?;
    if syntax.footnotes {
        note_all(alloc, &mut collected, text, &found.blocks)?;
    }
    Ok(collected)
}

#[tactic(auto, using(crate::proofs::Finding::entry_of_first))]
fn definitions(
    alloc: Global,
    keys: &[String],
    entries: Vec<Entry>,
    has_all_notes: bool,
) -> Result<Definitions, AllocError>
    ensures { IfOk result (λ d. entry_of d
        ≡ first_entry has_all_notes (map string_bytes keys.now) entries.items) }
{
    let places = first_places(alloc, keys)?;
    Ok(Definitions {
        places,
        entries,
        has_all_notes,
    })
}

/// A text whose blocks are found, and whose events are still to be made.
#[tactic(auto, using(crate::proofs::Behind::all_taken), unfolding(crate::specs::Reading::found_under, crate::specs::Reading::reading_of))]
fn begin<'t>(
    alloc: Global,
    syntax: Syntax,
    text: &'t str,
    found: Blocks,
) -> Result<BlockReading<'t>, AllocError>
    ensures left { blocks_view found ≡ blocks_in syntax text.now
        → IfOk result (λ begun. reading_left begun ≡ reading_of syntax text.now) }
    ensures between { IfOk result (λ begun. IsBetweenTrees begun) }
{
    let Collected {
        keys,
        labels,
        entries,
        texts,
    } = collect_from(alloc, syntax, text.as_bytes(), &found)?;
    let defined = distinct_labels(alloc, &texts, &labels)?;
    let definitions = definitions(alloc, &keys, entries, syntax.undefined_notes)?;
    let loose = loose_lists(alloc, &found.blocks)?;
    let mut blocks = found.blocks;
    blocks.reverse();
    Ok(BlockReading {
        alloc,
        syntax,
        text: SearchedText::new(text),
        blocks,
        loose,
        pieces: found.pieces,
        definitions,
        defined,
        assembly: Assembly::new(alloc, texts),
        failed: false,
    })
}

/// Finds the blocks of a text, with the extensions of a syntax; their events are still to be made.
pub fn find_blocks(
    alloc: Global,
    syntax: Syntax,
    text: &str,
) -> Result<BlockReading<'_>, AllocError>
    ensures left { IfOk result (λ begun. reading_left begun ≡ reading_of syntax text.now) }
    ensures between { IfOk result (λ begun. IsBetweenTrees begun) }
{
    let found = read_blocks(alloc, syntax, text.as_bytes())?;
    begin(alloc, syntax, text, found)
}

/// Finds the blocks of a text as `find_blocks` does, and its link definitions as `find_definitions` does. The
/// text is read once for both.
pub fn find_blocks_and_definitions(
    alloc: Global,
    syntax: Syntax,
    text: &str,
) -> Result<(BlockReading<'_>, Vec<ReferenceDefinition>), AllocError>
    ensures left { IfOk result (λ both. reading_left both.0 ≡ reading_of syntax text.now) }
    ensures between { IfOk result (λ both. IsBetweenTrees both.0) }
    ensures definitions { IfOk result (λ both. map said_view both.1.items
        ≡ definitions_of syntax text.now) }
    ensures ranges { IfOk result (λ both. All (IsWellPlaced text.now) both.1.items) }
{
    let found = read_blocks(alloc, syntax, text.as_bytes())?;
    let said = definitions_among(alloc, syntax.names, text, &found)?;
    let begun = begin(alloc, syntax, text, found)?;
    Ok((begun, said))
}

/// The events of a text and its labels, with the extensions of a syntax.
pub fn find(alloc: Global, syntax: Syntax, text: &str) -> Result<Reading, AllocError>
    ensures { IfOk result (λ found. reading_view found ≡ reading_of syntax text.now) }
{
    let blocks = find_blocks(alloc, syntax, text)?;
    blocks.rest()
}

impl CoreReader {
    /// Reads a text block by block: its blocks are found, and their events are handed out by `next`.
    pub fn blocks<'t>(&self, alloc: Global, text: &'t str) -> Result<BlockReading<'t>, AllocError>
        ensures left { IfOk result (λ blocks. reading_left blocks ≡ core_reading text.now) }
        ensures between { IfOk result (λ blocks. IsBetweenTrees blocks) }
    {
        find_blocks(alloc, CORE, text)
    }

    /// Reads a text block by block as `blocks` does, and finds its link definitions as `find_definitions` does.
    /// The text is read once for both.
    pub fn blocks_and_definitions<'t>(
        &self,
        alloc: Global,
        text: &'t str,
    ) -> Result<(BlockReading<'t>, Vec<ReferenceDefinition>), AllocError>
        ensures left { IfOk result (λ both. reading_left both.0 ≡ core_reading text.now) }
        ensures between { IfOk result (λ both. IsBetweenTrees both.0) }
        ensures definitions { IfOk result (λ both. map said_view both.1.items
            ≡ definitions_of CORE text.now) }
        ensures ranges { IfOk result (λ both. All (IsWellPlaced text.now) both.1.items) }
    {
        find_blocks_and_definitions(alloc, CORE, text)
    }
}

impl Reader for CoreReader {
    ghost use Rattle.std.specs.Prelude.{IsTrue, List};
    ghost use Rattle.tocmark_event.specs.Forest.{IsBalanced};
    ghost use Rattle.tocmark_event.specs.Reading.{reading_view};
    ghost use Rattle.tocmark_event.specs.Text.{text_of};
    ghost use Rattle.tocmark_event.specs.View.{event_view};
    ghost use Rattle.tocmark_read_scan.specs.PlainParts.{Part, meant, spelled};
    ghost use Rattle.tocmark_reader.specs.PlainTexts.{IsReadAs, is_plain_text, lines_paragraph, text_parts};
    ghost use Rattle.tocmark_reader.specs.Range.{HasGoodRanges};
    ghost use Rattle.tocmark_reader.specs.Reading.{core_reading};

    ghost reading = { λ _ text _. core_reading text };

    /// The reading of a text, with ranges in bytes.
    #[tactic(auto, using(crate::proofs::EmitLaws::reading_balanced, crate::proofs::EmitLaws::reading_good))]
    fn read(&self, alloc: Global, text: &str, _flags: ParserOptions) -> Result<Reading, AllocError>
        ensures reading { IfOk result (λ found. reading_view found ≡ core_reading text.now) }
        ensures balanced { IfOk result (λ found.
            IsBalanced (map (λ e. event_view text_of e.0) found.events.items)) }
        ensures ranges { IfOk result (λ found. HasGoodRanges text.now found.events.items) }
        ensures plain { (l : List Part) (ms : List (List Part)) → IsTrue (is_plain_text l ms)
            → text.now ≡ spelled (text_parts l ms)
            → IfOk result (λ found.
            IsReadAs (reading_view found) (lines_paragraph (meant l) (map meant ms))) }
    {
        let found = find(alloc, CORE, text)?;
        Ok(found)
    }
}
