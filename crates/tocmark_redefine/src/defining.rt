//! The definitions of links of a text, as a caller gives them back with other destinations and titles.

ghost use Rattle.std.specs.Prelude.{◌≡◌, All, IfOk, IfSome, IfNone, IsTrue, map, string_bytes};
ghost use Rattle.tocmark_reader.specs.Definitions.{said_view};
ghost use Rattle.tocmark_redefine.specs.Defined.{IsDefined, IsNamed, IsOfGiven, IsSaid, Names, Says};
ghost use Rattle.tocmark_redefine.specs.Followed.{definitions_under};

use crate::redefining::{
    DefinitionFault, Part, READER, Redefined, Redefinitions, misread, with_changes,
};
use std::alloc::{AllocError, Global};
use tocmark_event::event::ParserOptions;
use tocmark_reader::ReferenceDefinition;

/// A definition of links, as it is to be.
#[derive(Debug, Drop)]
pub struct GivenDefinition {
    /// The label as the reader finds it.
    pub label: String,
    /// The bytes of all of the definition in the source: the first one, and the one after the last.
    pub range: (usize, usize),
    /// The destination that it is to have, without escapes.
    pub destination: String,
    /// The title that it is to have, without escapes; empty for none.
    pub title: String,
}

/// Whether a given definition is this one of the source.
fn names(given: &GivenDefinition, definition: &ReferenceDefinition) -> bool
    ensures { IsTrue result → Names given.now (said_view definition.now) }
{
    given.range.0 == definition.place.whole.0
        && given.range.1 == definition.place.whole.1
        && given.label.as_str() == definition.label.as_str()
}

/// The number of the definition that is given.
fn number_of(olds: &[ReferenceDefinition], given: &GivenDefinition) -> Option<usize>
    ensures { IfSome result (IsNamed (map said_view olds.now) given.now) }
{
    let begins = given.range.0;
    let number = olds.partition_point(|old| old.place.whole.0 < begins);
    let old = olds.get(number)?;
    if names(given, old) {
        Some(number)
    } else {
        None
    }
}

/// The first given definition that names none of the source.
fn first_unnamed(olds: &[ReferenceDefinition], all: &[GivenDefinition]) -> Option<usize> {
    for (index, given) in all.iter().enumerate() {
        if number_of(olds, given).is_none() {
            return Some(index);
        }
    }
    None
}

/// What changes of a definition, if this part does: its number, and what is given.
fn change_of(
    alloc: Global,
    olds: &[ReferenceDefinition],
    part: Part,
    given: &GivenDefinition,
) -> Result<Option<(usize, String)>, AllocError>
    ensures { IfOk result (λ change. IfSome change (λ change.
        IsNamed (map said_view olds.now) given.now change.0)) }
{
    let Some(number) = number_of(olds, given) else {
        return Ok(None);
    };
    let Some(old) = olds.get(number) else {
        return Ok(None);
    };
    let (said, text) = match part {
        Part::Destination => (old.destination.as_str(), given.destination.as_str()),
        Part::Title => (old.title.as_str(), given.title.as_str()),
    };
    if said == text {
        return Ok(None);
    }
    Ok(Some((number, String::from_str(alloc, text)?)))
}

/// What changes of all definitions that are given.
fn changes_of(
    alloc: Global,
    olds: &[ReferenceDefinition],
    part: Part,
    all: &[GivenDefinition],
) -> Result<Vec<(usize, String)>, AllocError>
    ensures { IfOk result (λ changes.
        All (IsOfGiven (map said_view olds.now) all.now) changes.items) }
{
    let mut changes = Vec::new(alloc);
    for given in all {
        if let Some(change) = change_of(alloc, olds, part, given)? {
            changes.push(change)?;
        }
    }
    Ok(changes)
}

/// Whether the new definition with this number says what is given.
fn says(given: &GivenDefinition, new: &ReferenceDefinition) -> bool
    ensures { IsTrue result → Says given.now (said_view new.now) }
{
    given.destination.as_str() == new.destination.as_str()
        && given.title.as_str() == new.title.as_str()
}

/// Whether the definition that is given says so in the new text.
fn is_said(
    olds: &[ReferenceDefinition],
    news: &[ReferenceDefinition],
    given: &GivenDefinition,
) -> bool
    ensures { IsTrue result → IsSaid (map said_view olds.now) (map said_view news.now) given.now }
{
    let Some(number) = number_of(olds, given) else {
        return false;
    };
    match news.get(number) {
        Some(new) => says(given, new),
        None => false,
    }
}

/// The first definition of those given that doesn't say so in the new text. None if all do.
fn first_unsaid(
    olds: &[ReferenceDefinition],
    news: &[ReferenceDefinition],
    all: &[GivenDefinition],
) -> Option<usize>
    ensures { IfNone result (All (IsSaid (map said_view olds.now) (map said_view news.now))
        all.now) }
{
    for i in 0..all.len() {
        if !is_said(olds, news, &all[i]) {
            return Some(i);
        }
    }
    None
}

/// Gives definitions of links the destinations and titles that are given, whether a link uses them or not. Definitions that
/// aren't given stay.
///
/// In the new text, the reader finds just these definitions, and else what it finds in the source: the links by a label whose
/// definition was changed say what that says now. The new text is the source with other bytes between the front of a changed
/// definition's destination and the end of its title.
///
/// It fails if memory runs out, if a given definition names none of the source by its range and its label (`NoDefinition`), or if
/// no such text was found (`Misread`).
///
/// ```
/// let given = vec![in alloc; GivenDefinition {
///     label: String::from_str(alloc, "a")?,
///     range: (0, 11),
///     destination: String::from_str(alloc, "/c")?,
///     title: String::from_str(alloc, "d")?,
/// }]?;
/// let new = with_definitions(alloc, "[a]: /b 'd'\n", flags, &given)?;
/// assert_eq!(rt; new.text.as_str(), "[a]: /c 'd'\n");
/// ```
pub fn with_definitions(
    alloc: Global,
    source: &str,
    flags: ParserOptions,
    all: &[GivenDefinition],
) -> Result<Redefined, DefinitionFault>
    ensures defined { IfOk result (λ new.
        IsDefined flags all.now source.now (string_bytes new.text)) }
    ensures olds { IfOk result (λ new.
        map said_view new.olds.items ≡ definitions_under flags source.now) }
    ensures news { IfOk result (λ new.
        map said_view new.news.items ≡ definitions_under flags (string_bytes new.text)) }
{
    let olds = READER.definitions(alloc, source, flags)?;
    if let Some(index) = first_unnamed(&olds, all) {
        return Err(DefinitionFault::NoDefinition(index));
    }
    let destinations = changes_of(alloc, &olds, Part::Destination, all)?;
    let titles = changes_of(alloc, &olds, Part::Title, all)?;
    let changes = Redefinitions {
        destinations,
        titles,
    };
    let new = with_changes(alloc, source, flags, &changes)?;
    match first_unsaid(&new.olds, &new.news, all) {
        None => Ok(new),
        Some(index) => Err(misgiven(source, &new.olds, all, index)),
    }
}

/// The fault of a given definition that doesn't say so.
fn misgiven(
    source: &str,
    olds: &[ReferenceDefinition],
    all: &[GivenDefinition],
    index: usize,
) -> DefinitionFault {
    match all.get(index) {
        Some(given) => misread(source, olds, number_of(olds, given).unwrap_or(0)),
        None => DefinitionFault::NoDefinition(index),
    }
}
