//! The definitions of the links that are written by labels.

ghost use Rattle.std.specs.Prelude.{◌≡◌, ℕ, ◌-◌, ◌++◌, if◌then◌else◌, List, [], ◌∷◌, map, codes, replicate, string_bytes, IfOk, OnOk};
ghost use Rattle.tocmark_write_texts.specs.Destination.{definition_closing};
ghost use Rattle.tocmark_write_renderer.specs.WriterOf.{reference_view};
ghost use Rattle.tocmark_write_labels.specs.Definitions.{definition, definitions_text, lines_of, distinct};
ghost use Rattle.tocmark_write_labels.specs.DefinitionsOf.{key_view};

use indexmap::IndexSet;
use std::alloc::{AllocError, Global};
use tocmark_event::event::LinkType;
use tocmark_write_renderer::parts::Reference;
use tocmark_write_texts::text_modifications::close_link;

fn copied_reference(alloc: Global, reference: &Reference) -> Result<Reference, AllocError>
    ensures { IfOk result (λ copy. reference_view copy ≡ reference_view reference.now) }
{
    Ok(Reference {
        label: String::from_str(alloc, reference.label.as_str())?,
        destination: String::from_str(alloc, reference.destination.as_str())?,
        title: String::from_str(alloc, reference.title.as_str())?,
    })
}

/// A copy of the references.
pub fn copied_references(
    alloc: Global,
    references: &[Reference],
) -> Result<Vec<Reference>, AllocError>
    ensures { IfOk result (λ copies.
        map reference_view copies.items ≡ map reference_view references.now) }
{
    let mut copies = Vec::new(alloc);
    for reference in references {
        copies.push(copied_reference(alloc, reference)?)?;
    }
    Ok(copies)
}

/// What tells a definition from others.
#[derive(Clone, Copy, PartialEq, Eq, Hash)]
pub(crate) struct Key<'a> {
    pub(crate) label: &'a str,
    pub(crate) destination: &'a str,
    pub(crate) title: &'a str,
}

pub(crate) fn key_of(reference: &Reference) -> Key<'_>
    ensures { key_view result ≡ reference_view reference.now }
{
    Key {
        label: reference.label.as_str(),
        destination: reference.destination.as_str(),
        title: reference.title.as_str(),
    }
}

/// Each reference once, in order of first use.
fn distinct(alloc: Global, references: &[Reference]) -> Result<IndexSet<Key<'_>>, AllocError>
    ensures { IfOk result (λ keys.
        map key_view keys.keys ≡ distinct (map reference_view references.now)) }
{
    let mut keys = IndexSet::new(alloc);
    for reference in references {
        keys.insert(key_of(reference))?;
    }
    Ok(keys)
}

fn push_closing(text: &mut String, destination: &str, title: &str) -> Result<(), AllocError>
    ensures { OnOk result (string_bytes text.new
        ≡ string_bytes text.old ++ definition_closing destination.now title.now) }
{
    match close_link(destination, title, text, LinkType::Shortcut) {
        Ok(()) => Ok(()),
        Err(_) => Err(AllocError),
    }
}

fn push_definition(
    text: &mut String,
    label: &str,
    destination: &str,
    title: &str,
) -> Result<(), AllocError>
    ensures { OnOk result (string_bytes text.new
        ≡ string_bytes text.old ++ definition
        (record { label = label.now; destination = destination.now; title = title.now })) }
{
    text.push_str("[")?;
    text.push_str(label)?;
    push_closing(text, destination, title)
}

/// One more definition, on a line of its own after others.
fn push_line(text: &mut String, is_first: bool, key: &Key<'_>) -> Result<(), AllocError>
    ensures { OnOk result (string_bytes text.new
        ≡ (if is_first then string_bytes text.old else string_bytes text.old ++ codes "\n")
        ++ definition (key_view key.now)) }
{
    if !is_first {
        text.push_str("\n")?;
    }
    push_definition(text, key.label, key.destination, key.title)
}

/// Definitions, one a line.
pub(crate) fn push_lines(text: &mut String, keys: &[Key<'_>]) -> Result<(), AllocError>
    ensures { OnOk result (string_bytes text.new
        ≡ string_bytes text.old ++ lines_of (map key_view keys.now)) }
{
    let mut is_first = true;
    for key in keys {
        push_line(text, is_first, key)?;
        is_first = false;
    }
    Ok(())
}

/// The definitions of references, each once, one a line. A single one has no other to be told from.
fn push_distinct(
    text: &mut String,
    alloc: Global,
    references: &[Reference],
) -> Result<(), AllocError>
    ensures { OnOk result (string_bytes text.new
        ≡ string_bytes text.old ++ lines_of (distinct (map reference_view references.now))) }
{
    if let [only] = references {
        return push_line(text, true, &key_of(only));
    }
    let keys = distinct(alloc, references)?;
    push_lines(text, keys.as_slice())
}

/// Line feeds, so that two are where so many do already.
pub(crate) fn push_feeds(text: &mut String, feeds: usize) -> Result<(), AllocError>
    ensures { OnOk result (string_bytes text.new
        ≡ string_bytes text.old ++ replicate (2 - feeds) 10) }
{
    if feeds == 0 {
        return text.push_str("\n\n");
    }
    if feeds == 1 {
        return text.push_str("\n");
    }
    Ok(())
}

/// The definitions of references, each once; nothing for no references. `feeds` says how many line feeds precede
/// them. It takes time in proportion to the references and their texts.
#[tactic(auto, unfolding(crate::specs::Definitions::definitions_text))]
pub fn definitions_text(
    alloc: Global,
    references: &[Reference],
    feeds: usize,
) -> Result<String, AllocError>
    ensures { IfOk result (λ text.
        string_bytes text ≡ definitions_text (map reference_view references.now) feeds) }
{
    let mut text = String::new(alloc);
    if references.is_empty() {
        return Ok(text);
    }
    push_feeds(&mut text, feeds)?;
    push_distinct(&mut text, alloc, references)?;
    Ok(text)
}
