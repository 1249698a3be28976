//! The label that is reserved for the placeholders of lists.

ghost use Rattle.std.specs.Prelude.{◌≡◌, ◌+◌, ◌++◌, ◌∷◌, [], ℕ, List, map, string_bytes, IfOk};
ghost use Rattle.tocmark_event.specs.View.{SourcedEvent};
ghost use Rattle.tocmark_spelling.specs.Buffered.{buffered_view};
ghost use Rattle.tocmark_spelling.specs.Plan.{Setting};
ghost use Rattle.tocmark_write_labels.specs.Document.{DocumentView, is_among, literal_in};
ghost use Rattle.tocmark_write_labels.specs.LabelsOf.{folded_ids, labels_of, started_label};
ghost use Rattle.tocmark_write_labels.specs.Reserved.{free_label, ids_of, numbered_label, reserved_label};

use crate::labels::Labels;
use std::alloc::{AllocError, Global};
use tocmark_event::event::{EventOf, ParserOptions, TagOf};
use tocmark_event::reader::Reader;
use tocmark_spelling::buffered::BufferedEvent;

/// The id of the link or image that an event starts.
fn started_id(event: &BufferedEvent) -> Option<&str>
    ensures { started_label result ≡ ids_of (buffered_view event.now ∷ []) }
{
    match &event.event {
        EventOf::Start(TagOf::Link { id, .. }) => Some(id.as_str()),
        EventOf::Start(TagOf::Image { id, .. }) => Some(id.as_str()),
        _ => None,
    }
}

/// The ids of the links and images that start among events.
fn started_ids(alloc: Global, events: &[BufferedEvent]) -> Result<Vec<&str>, AllocError>
    ensures { IfOk result (λ ids. folded_ids ids.items ≡ ids_of (map buffered_view events.now)) }
{
    let mut ids = Vec::new(alloc);
    for event in events {
        if let Some(id) = started_id(event) {
            ids.push(id)?;
        }
    }
    Ok(ids)
}

fn label_set(alloc: Global, ids: &[&str]) -> Result<Labels, AllocError>
    ensures { IfOk result (λ labels.
        (label : List ℕ) → is_among (labels_of labels) label
        ≡ is_among (folded_ids ids.now) label) }
{
    let mut labels = Labels::new(alloc);
    for id in ids {
        labels.add(alloc, id)?;
    }
    Ok(labels)
}

/// The labels that a reader looks up in vain in these texts, read one by one: they are literal there.
/// It fails if memory runs out, here or in the reader.
pub fn literal_labels<R: Reader>(
    alloc: Global,
    reader: &R,
    flags: ParserOptions,
    texts: &[String],
) -> Result<Labels, AllocError>
    ensures { IfOk result (λ labels.
        labels_of labels
        ≡ literal_in (R.reading reader.now) flags (map string_bytes texts.now)) }
{
    let mut labels = Labels::new(alloc);
    for text in texts {
        let found = reader.read(alloc, text.as_str(), flags)?;
        labels.add_all(alloc, &found.unresolved)?;
    }
    Ok(labels)
}

fn numbered_label(alloc: Global, n: usize) -> Result<String, AllocError>
    ensures { IfOk result (λ label. string_bytes label ≡ numbered_label n) }
{
    format!(in alloc; "cmark-loose-{n}")
}

/// Whether a label is among those of three sets.
fn is_used(
    alloc: Global,
    known: &Labels,
    literal: &Labels,
    ids: &Labels,
    label: &str,
) -> Result<bool, AllocError>
    ensures { IfOk result (λ used.
        used ≡ is_among (labels_of known.now ++ labels_of literal.now ++ labels_of ids.now)
        label.now) }
{
    if known.contains(alloc, label)? {
        return Ok(true);
    }
    if literal.contains(alloc, label)? {
        return Ok(true);
    }
    ids.contains(alloc, label)
}

/// The first of so many numbered labels that isn't among those of three sets, or the one after them.
fn free_label(
    alloc: Global,
    known: &Labels,
    literal: &Labels,
    ids: &Labels,
    count: usize,
) -> Result<String, AllocError>
    ensures { IfOk result (λ label.
        string_bytes label
        ≡ free_label count 1 (labels_of known.now ++ labels_of literal.now ++ labels_of ids.now)) }
{
    for n in 0..count {
        let label = numbered_label(alloc, n + 1)?;
        if !is_used(alloc, known, literal, ids, label.as_str())? {
            return Ok(label);
        }
    }
    numbered_label(alloc, count.checked_add(1).ok_or(AllocError)?)
}

fn sum_of(first: usize, second: usize, third: usize) -> Result<usize, AllocError>
    ensures { IfOk result (λ sum. sum ≡ first + second + third) }
{
    let sum = first.checked_add(second).ok_or(AllocError)?;
    sum.checked_add(third).ok_or(AllocError)
}

/// The first numbered label that is neither known nor literal nor one of these ids.
fn free_beside(
    alloc: Global,
    known: &Labels,
    literal: &Labels,
    ids: &[&str],
) -> Result<String, AllocError>
    ensures { IfOk result (λ label.
        (s : Setting) (d : DocumentView) → d.known ≡ labels_of known.now
        → literal_in s.reading s.flags d.bracketed ≡ labels_of literal.now
        → (pending : List SourcedEvent) → folded_ids ids.now ≡ ids_of pending
        → string_bytes label ≡ reserved_label s d pending) }
{
    let count = sum_of(known.len(), literal.len(), ids.len())?;
    let set = label_set(alloc, ids)?;
    free_label(alloc, known, literal, &set, count)
}

/// The label for the placeholders of the lists among pending events: `cmark-loose-n` with the least `n`
/// from 1 that is no label which earlier units define, none which they take literally, and no id of a
/// pending link or image, as labels are compared.
pub fn reserve_list_label(
    alloc: Global,
    known: &Labels,
    literal: &Labels,
    pending: &[BufferedEvent],
) -> Result<String, AllocError>
    ensures { IfOk result (λ label.
        (s : Setting) (d : DocumentView) → d.known ≡ labels_of known.now
        → literal_in s.reading s.flags d.bracketed ≡ labels_of literal.now
        → string_bytes label ≡ reserved_label s d (map buffered_view pending.now)) }
{
    let ids = started_ids(alloc, pending)?;
    free_beside(alloc, known, literal, &ids)
}
