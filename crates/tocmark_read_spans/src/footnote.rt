//! References to footnotes.

ghost use Rattle.std.specs.Prelude.{◌≡◌, IfOk, string_bytes};
ghost use Rattle.tocmark_read_spans.specs.Footnotes.{note_key, label_but_note, own_note, own_sought, label_sought};

use crate::link::{Asked, Bracket, own_asked, own_label};
use std::alloc::{AllocError, Global};
use tocmark_event::event::LinkType;
use tocmark_read_tokens::footnote::note_label;
use tocmark_read_tokens::label::key_of;
use tocmark_read_tokens::word::{Word, label};

/// What is looked up for a bracket, where footnotes are read.
#[derive(Clone, Copy)]
pub enum Sought {
    /// The label of a link or an image.
    Label(Asked),
    /// The name of a footnote, as it is written.
    Footnote(Word),
}

/// What names of footnotes that match have in common: the key of a label after a bracket, with which
/// no label's own key begins.
#[tactic(auto, unfolding(crate::specs::Footnotes::note_key))]
pub fn note_key(alloc: Global, name: &[u8]) -> Result<String, AllocError>
    ensures { IfOk result (λ t. string_bytes t ≡ note_key name.now) }
{
    let folded = key_of(alloc, name)?;
    let mut key = String::new(alloc);
    key.push('[')?;
    key.push_str(folded.as_str())?;
    Ok(key)
}

/// The label in brackets at a place, if it isn't one of a footnote.
#[tactic(auto, unfolding(crate::specs::Footnotes::label_but_note))]
fn label_but_note(bytes: &[u8], place: usize) -> Option<Word>
    ensures { result ≡ label_but_note bytes.now place }
{
    match note_label(bytes, place) {
        Some(_name) => None,
        None => label(bytes, place),
    }
}

/// The name of a footnote, where the text of the bracket that is closed at a place is its label.
#[tactic(auto, unfolding(crate::specs::Footnotes::own_note))]
fn own_note(bytes: &[u8], bracket: Bracket, place: usize) -> Option<Word>
    ensures { result ≡ own_note bytes.now bracket place }
{
    let _label = own_label(bytes, bracket, place)?;
    note_label(bytes, bracket.inner.saturating_sub(1))
}

/// The bracket's own text as what is to be looked up.
#[tactic(auto, unfolding(crate::specs::Footnotes::own_sought))]
fn own_sought(bytes: &[u8], bracket: Bracket, place: usize) -> Option<Sought>
    ensures { result ≡ own_sought bytes.now bracket place }
{
    match own_note(bytes, bracket, place) {
        Some(name) => Some(Sought::Footnote(name)),
        None => own_asked(bytes, bracket, place).map(Sought::Label),
    }
}

/// What is to be looked up for the bracket that is closed at a place: the label after it, if there is
/// one that isn't a footnote's, else the bracket's own text. `None` where neither can be a label.
#[tactic(auto, unfolding(crate::specs::Footnotes::label_sought))]
pub fn label_sought(bytes: &[u8], bracket: Bracket, place: usize) -> Option<Sought>
    ensures { result ≡ label_sought bytes.now bracket place }
{
    match label_but_note(bytes, place.saturating_add(1)) {
        Some(label) => Some(Sought::Label(Asked {
            link_type: LinkType::Reference,
            label,
            end: label.next,
        })),
        None => own_sought(bytes, bracket, place),
    }
}
