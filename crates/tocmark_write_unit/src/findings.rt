//! Facts about a unit, computed once for all its spellings.

ghost use Rattle.std.specs.Prelude.{◌≡◌, true, IfOk};
ghost use Rattle.std.specs.List.{list_any};
ghost use Rattle.tocmark_event.specs.Options.{options_view};
ghost use Rattle.tocmark_write_emphasis.specs.ColumnsOf.{AreColumns};
ghost use Rattle.tocmark_write_inlines.specs.Named.{AreNamed};
ghost use Rattle.tocmark_write_pending.specs.BodyFacts.{AreFacts};
ghost use Rattle.tocmark_write_blocks.specs.Kinds.{opens};
ghost use Rattle.tocmark_write_blocks.specs.Raw.{AreRaw};
ghost use Rattle.tocmark_write_unit.specs.CensusOf.{is_link_or_image, is_raw_block};
ghost use Rattle.tocmark_write_unit.specs.FindingsOf.{AreFindings};

use crate::census::{Census, census_of};
use std::alloc::{AllocError, Global};
use tocmark_event::event::flags::ParserOptions;
use tocmark_event::options::Options;
use tocmark_event::reader::Reader;
use tocmark_write_blocks::raw_facts::{RawFacts, raw_facts};
use tocmark_write_emphasis::columns::{Columns, columns_of};
use tocmark_write_inlines::named::named;
use tocmark_write_pending::body_facts::{BodyFacts, body_facts};
use tocmark_write_pending::pending::Pending;

/// Facts about a unit, computed once for all its spellings. A list is empty if no event of the unit needs it.
#[derive(Drop)]
pub struct Findings {
    /// What kinds of events the unit has.
    pub census: Census,
    /// What the bodies of the containers are like.
    pub facts: Vec<BodyFacts>,
    /// What code and HTML blocks ask of their texts.
    pub raw: Vec<RawFacts>,
    /// Which links and images are written by their ids.
    pub named: Vec<bool>,
    /// What emphasis and strong emphasis ask the reader.
    pub emphasis: Columns,
}

/// What the bodies of a unit's containers are like, if an opening asks for it.
fn facts_if(asked: bool, alloc: Global, unit: &Pending) -> Result<Vec<BodyFacts>, AllocError>
    ensures { IfOk result (λ facts. asked ≡ true → AreFacts unit.now.events facts.items) }
{
    if asked {
        body_facts(alloc, unit.events())
    } else {
        Ok(Vec::new(alloc))
    }
}

/// What a unit's code and HTML blocks ask of their texts, if it has one.
fn raw_if(
    has_raw: bool,
    alloc: Global,
    options: &Options<'_>,
    unit: &Pending,
) -> Result<Vec<RawFacts>, AllocError>
    requires raw { has_raw ≡ list_any (opens is_raw_block) unit.now.events }
    ensures { IfOk result (λ facts.
        AreRaw (options_view options.now) unit.now.events facts.items) }
{
    if has_raw {
        raw_facts(alloc, options, unit.events())
    } else {
        Ok(Vec::new(alloc))
    }
}

/// Which of a unit's links and images are written by their ids, if it has one.
fn named_if<R: Reader>(
    has_links: bool,
    alloc: Global,
    reader: &R,
    flags: ParserOptions,
    unit: &Pending,
) -> Result<Vec<bool>, AllocError>
    requires links { has_links ≡ list_any (opens is_link_or_image) unit.now.events }
    ensures { IfOk result (λ found.
        AreNamed (R.reading reader.now) flags unit.now.events found.items) }
{
    if has_links {
        named(alloc, reader, flags, unit.events(), unit.ends())
    } else {
        Ok(Vec::new(alloc))
    }
}

/// What emphasis and strong emphasis ask of a unit's events, if there is some.
fn columns_if<R: Reader>(
    has_emphasis: bool,
    alloc: Global,
    reader: &R,
    unit: &Pending,
) -> Result<Columns, AllocError>
    ensures { IfOk result (λ columns. has_emphasis ≡ true
        → AreColumns (R.reading reader.now) unit.now.events columns) }
{
    if has_emphasis {
        columns_of(alloc, reader, unit)
    } else {
        Ok(Columns::none(alloc))
    }
}

/// The findings over a unit's events, with this reader, these options and these flags.
pub fn findings_of<R: Reader>(
    alloc: Global,
    reader: &R,
    options: &Options<'_>,
    flags: ParserOptions,
    unit: &Pending,
) -> Result<Findings, AllocError>
    ensures { IfOk result (λ found. AreFindings (R.reading reader.now)
        (options_view options.now) flags unit.now.events found) }
{
    let census = census_of(unit);
    let facts = facts_if(census.bodies, alloc, unit)?;
    let raw = raw_if(census.raw, alloc, options, unit)?;
    let named = named_if(census.links, alloc, reader, flags, unit)?;
    let emphasis = columns_if(census.emphasis, alloc, reader, unit)?;
    Ok(Findings {
        census,
        facts,
        raw,
        named,
        emphasis,
    })
}
