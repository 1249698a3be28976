//! The link reference definitions of a document, and lists of labels.

ghost use Rattle.std.specs.Prelude.{◌≡◌, IfOk, OnOk, map, string_bytes};
ghost use Rattle.tocmark_read_tokens.specs.Reference.{unescaped_in};
ghost use Rattle.tocmark_read_spans.specs.Definitions.{entry_of, label_key, collected_view, collected_none, is_note_key, kept, defined_with_in, defined_in, label_at, distinct_labels, noted_with};

use crate::footnote::note_key;
use crate::role::Stretch;
use std::alloc::{AllocError, Global};
use std::collections::HashMap;
use tocmark_read_scan::basic::{byte_at, bytes_between};
use tocmark_read_scan::syntax::Names;
use tocmark_read_tokens::label::{collapsed, distinct, key_of};
use tocmark_read_tokens::reference::unescaped;
use tocmark_read_tokens::word::Definition;

/// What a label is defined as, in the texts of the document's inlines.
#[derive(Clone, Copy)]
pub struct Entry {
    /// The destination, without escapes and references.
    pub destination: Stretch,
    /// The title, without escapes and references; empty where there is none.
    pub title: Stretch,
}

/// The definitions of a document in their order, and for the key of each label the place of the first.
#[derive(Drop)]
pub struct Definitions {
    /// For the key of each label the place of its entry in the list.
    pub places: HashMap<String, usize>,
    /// What the labels are defined as, in the order of the document.
    pub entries: Vec<Entry>,
    /// Whether each name of a footnote counts as defined.
    pub has_all_notes: bool,
}

/// The definitions that were found so far, in order, with the keys of their labels; the labels and the
/// entries are stretches of the texts.
#[derive(Drop)]
pub struct Collected {
    /// The key of each definition's label.
    pub keys: Vec<String>,
    /// Each definition's label, with one space for each stretch of white space.
    pub labels: Vec<Stretch>,
    /// What each label is defined as.
    pub entries: Vec<Entry>,
    /// The bytes of which labels and entries are stretches.
    pub texts: Vec<u8>,
}

impl Definitions {
    /// What the label with a key is defined as first, or an empty entry for a footnote's name if each of these counts as
    /// defined; `None` if the label isn't defined.
    pub fn find(&self, key: &str) -> Option<Entry>
        ensures { result ≡ entry_of self.now key.now }
    {
        if self.has_all_notes && is_note_key(key) {
            return Some(NO_ENTRY);
        }
        let place = self.places.get(key).copied()?;
        self.entries.get(place).copied()
    }
}

/// The entry of a footnote, which has neither a destination nor a title.
const NO_ENTRY: Entry = Entry {
    destination: Stretch { start: 0, end: 0 },
    title: Stretch { start: 0, end: 0 },
};

/// Whether a key is that of a footnote's name: whether it begins with a bracket.
fn is_note_key(key: &str) -> bool
    ensures { result ≡ is_note_key key.now }
{
    byte_at(key.as_bytes(), 0) == b'['
}

/// Writes a text after others, and gives its stretch.
fn keep(texts: &mut Vec<u8>, text: &[u8]) -> Result<Stretch, AllocError>
    ensures { IfOk result (λ s. (texts.new.items, s) ≡ kept text.now texts.old.items) }
{
    let start = texts.len();
    texts.extend_from_slice(text)?;
    Ok(Stretch {
        start,
        end: texts.len(),
    })
}

/// Writes a text without its escapes and references after others, by the names that are known, and gives
/// its stretch. One in which neither a backslash nor an ampersand is, is written as it is.
#[tactic(auto, using(tocmark_read_tokens::proofs::Unmarked::left_alone))]
fn keep_unescaped(
    alloc: Global,
    names: Names,
    texts: &mut Vec<u8>,
    text: &[u8],
) -> Result<Stretch, AllocError>
    ensures { IfOk result (λ s.
        (texts.new.items, s) ≡ kept (unescaped_in names text.now) texts.old.items) }
{
    if text.contains(&b'\\') || text.contains(&b'&') {
        keep(texts, &unescaped(alloc, names, text)?)
    } else {
        keep(texts, text)
    }
}

impl Collected {
    /// No definitions.
    pub fn new(alloc: Global) -> Self
        ensures { collected_view result ≡ collected_none }
    {
        Collected {
            keys: Vec::new(alloc),
            labels: Vec::new(alloc),
            entries: Vec::new(alloc),
            texts: Vec::new(alloc),
        }
    }

    /// Adds a definition as it is written: a label, a destination and a title, by the names that are known.
    #[tactic(auto, unfolding(crate::specs::Definitions::defined_with_in))]
    pub fn define(
        &mut self,
        alloc: Global,
        names: Names,
        label: &[u8],
        destination: &[u8],
        title: &[u8],
    ) -> Result<(), AllocError>
        ensures { OnOk result (collected_view self.new
            ≡ defined_with_in names label.now destination.now title.now (collected_view self.old)) }
    {
        self.keys.push(key_of(alloc, label)?)?;
        let label = collapsed(alloc, label)?;
        let label = keep(&mut self.texts, &label)?;
        let destination = keep_unescaped(alloc, names, &mut self.texts, destination)?;
        let title = keep_unescaped(alloc, names, &mut self.texts, title)?;
        self.labels.push(label)?;
        self.entries.push(Entry { destination, title })?;
        Ok(())
    }

    /// Adds the definition that was found in a text, by the names that are known.
    #[tactic(auto, unfolding(crate::specs::Definitions::defined_in))]
    pub fn add(
        &mut self,
        alloc: Global,
        names: Names,
        bytes: &[u8],
        found: Definition,
    ) -> Result<(), AllocError>
        ensures { OnOk result (collected_view self.new
            ≡ defined_in names bytes.now found (collected_view self.old)) }
    {
        let label = bytes_between(bytes, found.label.start, found.label.end);
        let destination = bytes_between(bytes, found.destination.start, found.destination.end);
        let title = bytes_between(bytes, found.title.start, found.title.end);
        self.define(alloc, names, label, destination, title)
    }

    /// Adds a footnote that has a definition, by its name as it is written. Its entry is empty, and it is
    /// none of the labels.
    #[tactic(auto, unfolding(crate::specs::Definitions::noted_with))]
    pub fn note(&mut self, alloc: Global, name: &[u8]) -> Result<(), AllocError>
        ensures { OnOk result (collected_view self.new
            ≡ noted_with name.now (collected_view self.old)) }
    {
        self.keys.push(note_key(alloc, name)?)?;
        self.entries.push(NO_ENTRY)?;
        Ok(())
    }
}

fn keys(alloc: Global, texts: &[u8], labels: &[Stretch]) -> Result<Vec<String>, AllocError>
    ensures { IfOk result (λ v. map string_bytes v.items ≡ map (label_key texts.now) labels.now) }
{
    let mut keys = Vec::new(alloc);
    for label in labels {
        keys.push(key_of(alloc, bytes_between(texts, label.start, label.end))?)?;
    }
    Ok(keys)
}

/// The label at a place of a list; an empty one past its end.
fn label_text(
    alloc: Global,
    texts: &[u8],
    labels: &[Stretch],
    place: usize,
) -> Result<String, AllocError>
    ensures { IfOk result (λ t. string_bytes t ≡ label_at texts.now labels.now place) }
{
    let none = Stretch { start: 0, end: 0 };
    let label = labels.get(place).copied().unwrap_or(none);
    String::from_utf8_lossy(alloc, bytes_between(texts, label.start, label.end))
}

/// The labels of a list, each of several that match once, as it is spelled first: one alone without a
/// look at its key.
#[tactic(auto, using(crate::proofs::OneLabel::no_label, crate::proofs::OneLabel::one_label))]
pub fn distinct_labels(
    alloc: Global,
    texts: &[u8],
    labels: &[Stretch],
) -> Result<Vec<String>, AllocError>
    ensures { IfOk result (λ v. map string_bytes v.items ≡ distinct_labels texts.now labels.now) }
{
    if labels.is_empty() {
        return Ok(Vec::new(alloc));
    }
    if labels.len() == 1 {
        let mut only = Vec::with_capacity(alloc, 1)?;
        only.push(label_text(alloc, texts, labels, 0)?)?;
        return Ok(only);
    }
    let keys = keys(alloc, texts, labels)?;
    let places = distinct(alloc, &keys)?;
    let mut out = Vec::new(alloc);
    for place in &places {
        out.push(label_text(alloc, texts, labels, *place)?)?;
    }
    Ok(out)
}
