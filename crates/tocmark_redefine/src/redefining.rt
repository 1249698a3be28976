//! Texts whose definitions of links have other destinations and titles.
//!
//! The new text is the old one with other bytes in these definitions. The reader then reads both texts: the new one has just the
//! definitions that it is to have, and else says what the old one does, or else there is no new text but a fault.

ghost use Rattle.std.specs.Prelude.{◌≡◌, ◌≤◌, All, IfNone, IfOk, IfSome, IsTrue, length, map, string_bytes};
ghost use Rattle.tocmark_reader.specs.Definitions.{said_view};
ghost use Rattle.tocmark_redefine.specs.Followed.{definitions_under, events_under, followed_in, IsFollowed};
ghost use Rattle.tocmark_redefine.specs.Redefined.{AreApart, AreRedefined, IsAsked, IsIn, IsRedefined, patched_from, replaced};

use crate::following::follow;
use std::alloc::{AllocError, AllocFailed, Global};
use tocmark_compare::same::are_same;
use tocmark_event::event::ParserOptions;
use tocmark_event::reader::Reader;
use tocmark_reader::{DefinitionPlace, ExtendedReader, Names, ReferenceDefinition};
use tocmark_rewrite::destination::redirection;
use tocmark_rewrite::patch::Patch;
use tocmark_rewrite::title::retitling;
use tocmark_rewrite::trees::LineCounter;

/// The reader of both texts.
pub(crate) const READER: ExtendedReader = ExtendedReader { names: Names::All };

/// Other destinations and titles for the definitions of a text. Each names its definition by the number that this has among
/// those of the text, counted from 0.
#[derive(Debug, Drop)]
pub(crate) struct Redefinitions {
    pub(crate) destinations: Vec<(usize, String)>,
    pub(crate) titles: Vec<(usize, String)>,
}

/// A text that has other definitions.
#[derive(Debug, Drop)]
pub struct Redefined {
    pub text: String,
    /// The definitions of the old text.
    pub olds: Vec<ReferenceDefinition>,
    /// Those of the new one: the same ones, in the same order.
    pub news: Vec<ReferenceDefinition>,
    /// Where each changed stretch ends in the old text and in the new one.
    pub ends: Vec<(usize, usize)>,
}

/// Why a text doesn't get other definitions.
#[derive(Clone, Copy, Debug, PartialEq, Eq)]
pub enum DefinitionFault {
    /// Memory ran out.
    OutOfMemory,
    /// The given definition with this number, counted from 0, is none of the text's.
    NoDefinition(usize),
    /// No text was found in which the definition on this line says so, and else all is as it was. Lines count from 1.
    Misread(usize),
}

impl From<AllocError> for DefinitionFault {
    fn from(_error: AllocError) -> DefinitionFault {
        DefinitionFault::OutOfMemory
    }
}

impl<T: Drop> From<AllocFailed<T>> for DefinitionFault {
    fn from(_error: AllocFailed<T>) -> DefinitionFault {
        DefinitionFault::OutOfMemory
    }
}

/// What is changed of a definition.
#[derive(Clone, Copy)]
pub(crate) enum Part {
    Destination,
    Title,
}

/// The bytes that a definition needs to say something else.
fn spelled(
    alloc: Global,
    source: &str,
    definition: &ReferenceDefinition,
    part: Part,
    text: &str,
) -> Result<Patch, AllocError> {
    let place = definition.place;
    match part {
        Part::Destination => {
            redirection(alloc, source, place, definition.destination.as_str(), text)
        }
        Part::Title => retitling(alloc, place, text),
    }
}

/// Whether a patch is within the destination and the title of a definition at this place.
fn is_in(patch: &Patch, place: DefinitionPlace) -> bool
    ensures { IsTrue result → (place.destination.0 ≤ patch.now.from)
        × (patch.now.from ≤ patch.now.to) × (patch.now.to ≤ place.title.1) }
{
    place.destination.0 <= patch.from && patch.from <= patch.to && patch.to <= place.title.1
}

/// The fault of a definition that can't say what it is to say.
pub(crate) fn misread(
    source: &str,
    olds: &[ReferenceDefinition],
    number: usize,
) -> DefinitionFault {
    let at = match olds.get(number) {
        Some(definition) => definition.place.whole.0,
        None => 0,
    };
    DefinitionFault::Misread(LineCounter::new().line_of(source.as_bytes(), at))
}

/// The patch of a definition's destination or title.
fn patch_of(
    alloc: Global,
    source: &str,
    olds: &[ReferenceDefinition],
    part: Part,
    change: &(usize, String),
) -> Result<Patch, DefinitionFault>
    ensures { IfOk result (IsIn (map said_view olds.now) change.now.0) }
{
    let (number, text) = change;
    let Some(definition) = olds.get(*number) else {
        return Err(DefinitionFault::NoDefinition(*number));
    };
    let patch = spelled(alloc, source, definition, part, text.as_str())?;
    if is_in(&patch, definition.place) {
        return Ok(patch);
    }
    Err(misread(source, olds, *number))
}

/// The patches of all that is changed, in the order of the source.
fn all_patches(
    alloc: Global,
    source: &str,
    olds: &[ReferenceDefinition],
    changes: &Redefinitions,
) -> Result<Vec<Patch>, DefinitionFault>
    ensures { IfOk result (λ patches.
        All (IsAsked (map said_view olds.now) changes.now) patches.items) }
{
    let mut patches = Vec::new(alloc);
    for change in &changes.destinations {
        patches.push(patch_of(alloc, source, olds, Part::Destination, change)?)?;
    }
    for title in &changes.titles {
        patches.push(patch_of(alloc, source, olds, Part::Title, title)?)?;
    }
    patches.sort_by_key(|patch| patch.from)?;
    Ok(patches)
}

/// A text with these patches, which lie one after the other. `None`: they don't.
fn patched(alloc: Global, text: &str, patches: &[Patch]) -> Result<Option<String>, AllocError>
    ensures apart { IfOk result (λ new. IfSome new (λ new.
        AreApart 0 (length text.now) patches.now)) }
    ensures bytes { IfOk result (λ new. IfSome new (λ new.
        string_bytes new ≡ patched_from text.now 0 patches.now)) }
{
    let mut new = String::new(alloc);
    let mut at = 0;
    for patch in patches {
        let Some(kept) = text.get(at..patch.from) else {
            return Ok(None);
        };
        new.push_str(kept)?;
        new.push_str(patch.text.as_str())?;
        at = patch.to;
    }
    let Some(kept) = text.get(at..) else {
        return Ok(None);
    };
    new.push_str(kept)?;
    Ok(Some(new))
}

/// Where each patch ends in the old text and in the new one.
fn ends_of(alloc: Global, patches: &[Patch]) -> Result<Vec<(usize, usize)>, AllocError> {
    let mut ends = Vec::with_capacity(alloc, patches.len())?;
    let (mut old, mut new) = (0usize, 0usize);
    for patch in patches {
        new = new
            .saturating_add(patch.from.saturating_sub(old))
            .saturating_add(patch.text.len());
        old = patch.to;
        ends.push((old, new))?;
    }
    Ok(ends)
}

/// The labels of definitions.
fn labels<'d>(
    alloc: Global,
    definitions: &'d [ReferenceDefinition],
) -> Result<Vec<&'d str>, AllocError>
    ensures { IfOk result (λ all. map (λ d. d.now) all.items
        ≡ map (λ d. (said_view d).label) definitions.now) }
{
    let mut all = Vec::with_capacity(alloc, definitions.len())?;
    for definition in definitions {
        all.push(definition.label.as_str())?;
    }
    Ok(all)
}

/// The destinations of definitions.
fn destinations<'d>(
    alloc: Global,
    definitions: &'d [ReferenceDefinition],
) -> Result<Vec<&'d str>, AllocError>
    ensures { IfOk result (λ all. map (λ d. d.now) all.items
        ≡ map (λ d. (said_view d).destination) definitions.now) }
{
    let mut all = Vec::with_capacity(alloc, definitions.len())?;
    for definition in definitions {
        all.push(definition.destination.as_str())?;
    }
    Ok(all)
}

/// The titles of definitions.
fn titles<'d>(
    alloc: Global,
    definitions: &'d [ReferenceDefinition],
) -> Result<Vec<&'d str>, AllocError>
    ensures { IfOk result (λ all. map (λ d. d.now) all.items
        ≡ map (λ d. (said_view d).title) definitions.now) }
{
    let mut all = Vec::with_capacity(alloc, definitions.len())?;
    for definition in definitions {
        all.push(definition.title.as_str())?;
    }
    Ok(all)
}

/// Texts in which each change replaces the one with its number.
fn replaced<'d>(
    alloc: Global,
    texts: &[&'d str],
    changes: &'d [(usize, String)],
) -> Result<Vec<&'d str>, AllocError>
    ensures { IfOk result (λ all. map (λ d. d.now) all.items
        ≡ replaced changes.now (map (λ d. d.now) texts.now)) }
{
    let mut all = Vec::new(alloc);
    all.extend_from_slice(texts)?;
    for (number, text) in changes {
        if *number < all.len() {
            all[*number] = text.as_str();
        }
    }
    Ok(all)
}

/// The place from which on two lists have other texts. None if they have the same ones.
fn parting(some: &[&str], others: &[&str]) -> Option<usize>
    ensures { IfNone result (map (λ d. d.now) some.now ≡ map (λ d. d.now) others.now) }
{
    for i in 0..some.len().min(others.len()) {
        if some[i] != others[i] {
            return Some(i);
        }
    }
    if some.len() != others.len() {
        return Some(some.len().min(others.len()));
    }
    None
}

/// The place from which on some texts aren't others with these changes. None if they are.
fn first_other(
    alloc: Global,
    olds: &[&str],
    changes: &[(usize, String)],
    news: &[&str],
) -> Result<Option<usize>, AllocError>
    ensures { IfOk result (λ place. IfNone place (map (λ d. d.now) news.now
        ≡ replaced changes.now (map (λ d. d.now) olds.now))) }
{
    let wanted = replaced(alloc, olds, changes)?;
    Ok(parting(news, &wanted))
}

/// The first definition of the old text that isn't what it is to be in the new one. None if all are.
fn first_unsaid(
    alloc: Global,
    olds: &[ReferenceDefinition],
    news: &[ReferenceDefinition],
    changes: &Redefinitions,
) -> Result<Option<usize>, AllocError>
    ensures { IfOk result (λ number. IfNone number
        (AreRedefined changes.now (map said_view olds.now) (map said_view news.now))) }
{
    let old_places = destinations(alloc, olds)?;
    let new_places = destinations(alloc, news)?;
    let astray = first_other(alloc, &old_places, &changes.destinations, &new_places)?;
    if astray.is_some() {
        return Ok(astray);
    }
    let old_titles = titles(alloc, olds)?;
    let new_titles = titles(alloc, news)?;
    let untitled = first_other(alloc, &old_titles, &changes.titles, &new_titles)?;
    if untitled.is_some() {
        return Ok(untitled);
    }
    let old_labels = labels(alloc, olds)?;
    let new_labels = labels(alloc, news)?;
    Ok(parting(&new_labels, &old_labels))
}

/// Whether a new text says what the old one did, but for the links by labels whose definitions were changed.
fn is_followed(
    alloc: Global,
    source: &str,
    flags: ParserOptions,
    redefined: &Redefined,
) -> Result<bool, AllocError>
    requires olds { map said_view redefined.now.olds.items ≡ definitions_under flags source.now }
    requires news { map said_view redefined.now.news.items
        ≡ definitions_under flags (string_bytes redefined.now.text) }
    ensures { IfOk result (λ same. IsTrue same
        → IsFollowed flags source.now (string_bytes redefined.now.text)) }
{
    let mut wanted = READER.read(alloc, source, flags)?;
    follow(alloc, &redefined.olds, &redefined.news, &mut wanted.events)?;
    let found = READER.read(alloc, redefined.text.as_str(), flags)?;
    are_same(alloc, &found.events, &wanted.events)
}

/// The number of the first definition that changes name.
fn first_number(changes: &Redefinitions) -> usize {
    let mut first = usize::MAX;
    for (number, _text) in &changes.destinations {
        first = first.min(*number);
    }
    for (number, _text) in &changes.titles {
        first = first.min(*number);
    }
    first
}

/// Gives the definitions that changes name other destinations and titles.
pub(crate) fn with_changes(
    alloc: Global,
    source: &str,
    flags: ParserOptions,
    changes: &Redefinitions,
) -> Result<Redefined, DefinitionFault>
    ensures redefined { IfOk result (λ new.
        IsRedefined flags changes.now source.now (string_bytes new.text)) }
    ensures olds { IfOk result (λ new.
        map said_view new.olds.items ≡ definitions_under flags source.now) }
    ensures news { IfOk result (λ new.
        map said_view new.news.items ≡ definitions_under flags (string_bytes new.text)) }
{
    let olds = READER.definitions(alloc, source, flags)?;
    let patches = all_patches(alloc, source, &olds, changes)?;
    let Some(text) = patched(alloc, source, &patches)? else {
        return Err(misread(source, &olds, first_number(changes)));
    };
    let news = READER.definitions(alloc, text.as_str(), flags)?;
    match first_unsaid(alloc, &olds, &news, changes)? {
        Some(number) => return Err(misread(source, &olds, number)),
        None => {}
    }
    let ends = ends_of(alloc, &patches)?;
    let new = Redefined {
        text,
        olds,
        news,
        ends,
    };
    if is_followed(alloc, source, flags, &new)? {
        return Ok(new);
    }
    Err(misread(source, &new.olds, first_number(changes)))
}
