//! The definitions of links that a document has already.

ghost use Rattle.std.specs.Prelude.{◌≡◌, ℕ, if◌then◌else◌, List, map, option_map, string_bytes, IfOk, OnOk};
ghost use Rattle.std.specs.HashMap.{get_by_text};
ghost use Rattle.indexmap.specs.IndexSet.{insert_key};
ghost use Rattle.tocmark_write_renderer.specs.WriterOf.{reference_view};
ghost use Rattle.tocmark_write_labels.specs.Defined.{defined_view, definition_for, leads_alike, undefined};
ghost use Rattle.tocmark_write_labels.specs.Definitions.{definitions_text, distinct};
ghost use Rattle.tocmark_write_labels.specs.DefinitionsOf.{key_view, lines_behind, same_key};
ghost use Rattle.tocmark_write_labels.specs.Document.{with_labels};
ghost use Rattle.tocmark_write_labels.specs.LabelsOf.{labels_of};
ghost use Rattle.tocmark_write_labels.specs.Matched.{label_key};

use crate::definitions::{Key, definitions_text, key_of, push_feeds, push_lines};
use crate::labels::Labels;
use crate::matched::{collapsed, label_key};
use indexmap::IndexSet;
use std::alloc::{AllocError, Global};
use std::collections::HashMap;
use tocmark_write_renderer::parts::Reference;

/// A definition of a link that is in a document already: `[label]: destination "title"`.
#[derive(Clone, Copy, Debug)]
pub struct DefinedLabel<'a> {
    /// The label, without brackets. Labels match as in CommonMark: if they are the same in Unicode's case folding, with
    /// one space for each run of white space and none at the ends.
    pub label: &'a str,
    /// The destination, without escapes.
    pub destination: &'a str,
    /// The title, without escapes and what is round it; empty where there is none.
    pub title: &'a str,
}

fn copied_label(alloc: Global, defined: &DefinedLabel<'_>) -> Result<Reference, AllocError>
    ensures { IfOk result (λ copy. reference_view copy ≡ defined_view defined.now) }
{
    Ok(Reference {
        label: collapsed(alloc, defined.label)?,
        destination: String::from_str(alloc, defined.destination)?,
        title: String::from_str(alloc, defined.title)?,
    })
}

/// A copy of the definitions that can be kept, whose labels have one space for each run of white space.
pub fn copied_labels(
    alloc: Global,
    defined: &[DefinedLabel<'_>],
) -> Result<Vec<Reference>, AllocError>
    ensures { IfOk result (λ copies.
        map reference_view copies.items ≡ map defined_view defined.now) }
{
    let mut copies = Vec::new(alloc);
    for label in defined {
        copies.push(copied_label(alloc, label)?)?;
    }
    Ok(copies)
}

/// Adds the labels of definitions. If memory runs out, some are added.
pub fn add_labels(
    known: &mut Labels,
    alloc: Global,
    defined: &[Reference],
) -> Result<(), AllocError>
    ensures { OnOk result (labels_of known.new ≡ with_labels (labels_of known.old)
        (map (λ r. r.label) (map reference_view defined.now))) }
{
    for definition in defined {
        known.add(alloc, definition.label.as_str())?;
    }
    Ok(())
}

/// For what labels that match have in common the first definition, which counts.
fn first_definitions(
    alloc: Global,
    defined: &[Reference],
) -> Result<HashMap<String, Key<'_>>, AllocError>
    ensures { IfOk result (λ firsts.
        (label : List ℕ) → option_map key_view (get_by_text firsts label)
        ≡ definition_for (map reference_view defined.now) label) }
{
    let mut firsts = HashMap::new(alloc);
    for place in (0..defined.len()).rev() {
        let key = key_of(&defined[place]);
        let label = label_key(alloc, key.label)?;
        firsts.insert(label, key)?;
    }
    Ok(firsts)
}

/// Whether the first definition for a label leads where a reference does.
fn is_defined(firsts: &HashMap<String, Key<'_>>, label: &str, key: Key<'_>) -> bool
    ensures { result ≡ leads_alike (option_map key_view (get_by_text firsts.now label.now))
        (key_view key.entry) }
{
    match firsts.get(label) {
        Some(first) => first.destination == key.destination && first.title == key.title,
        None => false,
    }
}

/// Adds a reference to a set, unless it is defined.
fn insert_undefined<'r>(
    keys: &mut IndexSet<Key<'r>>,
    alloc: Global,
    firsts: &HashMap<String, Key<'_>>,
    key: Key<'r>,
) -> Result<(), AllocError>
    ensures { OnOk result (keys.new.keys
        ≡ (if leads_alike
        (option_map key_view (get_by_text firsts.now (label_key key.entry.label.now)))
        (key_view key.entry) then keys.old.keys else insert_key same_key keys.old.keys key.entry)) }
{
    let label = label_key(alloc, key.label)?;
    if is_defined(firsts, label.as_str(), key) {
        return Ok(());
    }
    keys.insert(key)?;
    Ok(())
}

/// Each reference that isn't defined once, in order of first use.
fn undefined_keys<'r>(
    alloc: Global,
    references: &'r [Reference],
    defined: &[Reference],
) -> Result<IndexSet<Key<'r>>, AllocError>
    ensures { IfOk result (λ keys.
        map key_view keys.keys
        ≡ distinct
        (undefined (map reference_view defined.now) (map reference_view references.now))) }
{
    let firsts = first_definitions(alloc, defined)?;
    let mut keys = IndexSet::new(alloc);
    for reference in references {
        let key = key_of(reference);
        insert_undefined(&mut keys, alloc, &firsts, key)?;
    }
    Ok(keys)
}

/// Definitions, one a line, after line feeds of which so many are; nothing for none.
fn text_of(alloc: Global, keys: &[Key<'_>], feeds: usize) -> Result<String, AllocError>
    ensures { IfOk result (λ text. string_bytes text ≡ lines_behind (map key_view keys.now) feeds) }
{
    let mut text = String::new(alloc);
    if keys.is_empty() {
        return Ok(text);
    }
    push_feeds(&mut text, feeds)?;
    push_lines(&mut text, keys)?;
    Ok(text)
}

/// The definitions of the references that a document hasn't defined already, as `definitions_text`
/// writes them. Of two definitions whose labels match, the first counts. It takes
/// time in proportion to the references, the definitions and their texts.
pub fn undefined_text(
    alloc: Global,
    references: &[Reference],
    defined: &[Reference],
    feeds: usize,
) -> Result<String, AllocError>
    ensures { IfOk result (λ text.
        string_bytes text ≡ definitions_text
        (undefined (map reference_view defined.now) (map reference_view references.now)) feeds) }
{
    if defined.is_empty() {
        return definitions_text(alloc, references, feeds);
    }
    let keys = undefined_keys(alloc, references, defined)?;
    text_of(alloc, keys.as_slice(), feeds)
}
