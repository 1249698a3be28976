//! Labels of links: where they are written, and other ones in their place.

use crate::edits::{WorkspaceEdit, word_edits};
use crate::lined::holds;
use crate::links::{Asking, Read, folded, label_of};
use crate::message::{Code, Fault};
use crate::tree::Files;
use std::alloc::{AllocError, Global};
use tocmark_compare::same::are_same;
use tocmark_event::event::{CowStr, Event, LinkType, Tag};
use tocmark_event::reader::Reading;

/// What is said of a label by which links would lead elsewhere, or texts become links.
const MISREAD: &str = "with this label, the text would be read otherwise";

/// A label as it is written.
#[derive(Drop)]
pub(crate) struct WrittenLabel {
    /// The label as it is compared.
    name: String,
    /// Its bytes in the text.
    pub(crate) place: (usize, usize),
    /// The bytes that another label replaces: if a label is a link's text, too, that stays, and the other one is put after it.
    replaced: (usize, usize),
    /// Whether another label needs brackets round it there.
    is_bare: bool,
}

/// Where the label ends that begins at a byte: before the next bracket without a backslash.
fn label_end(bytes: &[u8], start: usize) -> usize {
    let mut is_escaped = false;
    let rest = bytes.get(start..).unwrap_or(&[]);
    for (count, byte) in rest.iter().enumerate() {
        if is_escaped {
            is_escaped = false;
        } else if *byte == b'\\' {
            is_escaped = true;
        } else if *byte == b']' {
            return start.saturating_add(count);
        }
    }
    bytes.len()
}

/// Where the label begins that ends at a byte: after the last bracket.
fn label_start(text: &str, end: usize) -> usize {
    match text.get(..end).unwrap_or("").rfind("][") {
        Some(at) => at.saturating_add(2),
        None => 0,
    }
}

/// A label of a link, whose bytes these are; an image has a mark in front.
fn label_of_link(
    text: &str,
    (start, end): (usize, usize),
    link_type: LinkType,
    name: String,
) -> WrittenLabel {
    let is_image = text.as_bytes().get(start).copied() == Some(b'!');
    let first = start.saturating_add(if is_image { 2 } else { 1 });
    let last = end.saturating_sub(1);
    match link_type {
        LinkType::Shortcut => WrittenLabel {
            name,
            place: (first, last),
            replaced: (end, end),
            is_bare: true,
        },
        LinkType::Collapsed => WrittenLabel {
            name,
            place: (first, end.saturating_sub(3)),
            replaced: (last, last),
            is_bare: false,
        },
        _ => {
            let place = (label_start(text, last), last);
            WrittenLabel {
                name,
                place,
                replaced: place,
                is_bare: false,
            }
        }
    }
}

/// All labels of a text, those of definitions first.
fn written_labels(alloc: Global, read: &Read<'_>) -> Result<Vec<WrittenLabel>, AllocError> {
    let text = read.lined.text;
    let mut labels = Vec::new(alloc);
    for definition in &read.definitions {
        let start = definition.place.whole.0.saturating_add(1);
        let place = (start, label_end(text.as_bytes(), start));
        labels.push(WrittenLabel {
            name: folded(alloc, definition.label.as_str())?,
            place,
            replaced: place,
            is_bare: false,
        })?;
    }
    for (event, place) in &read.reading.events {
        if let Some((link_type, label)) = label_of(event) {
            let name = folded(alloc, label)?;
            labels.push(label_of_link(text, *place, link_type, name))?;
        }
    }
    Ok(labels)
}

/// The label whose bytes a byte is among.
pub(crate) fn label_at(
    alloc: Global,
    read: &Read<'_>,
    at: usize,
) -> Result<Option<WrittenLabel>, AllocError> {
    for label in written_labels(alloc, read)? {
        if holds(label.place, at) {
            return Ok(Some(label));
        }
    }
    Ok(None)
}

impl WrittenLabel {
    /// Adds the text between a byte and this label, and another label in its place. `false`: the place isn't found.
    fn replace(
        &self,
        alloc: Global,
        changed: &mut String,
        (text, at): (&str, usize),
        new: &str,
    ) -> Result<bool, AllocError> {
        let written = text.get(self.place.0..self.place.1).unwrap_or("");
        let Some(kept) = text.get(at..self.replaced.0) else {
            return Ok(false);
        };
        if folded(alloc, written)?.as_str() != self.name.as_str() {
            return Ok(false);
        }
        changed.push_str(kept)?;
        if !self.is_bare {
            changed.push_str(new)?;
            return Ok(true);
        }
        changed.push('[')?;
        changed.push_str(new)?;
        changed.push(']')?;
        Ok(true)
    }
}

/// The text in which another label is in place of one. `None`: a place isn't found.
fn with_label(
    alloc: Global,
    read: &Read<'_>,
    name: &str,
    new: &str,
) -> Result<Option<String>, AllocError> {
    let text = read.lined.text;
    let mut labels = written_labels(alloc, read)?;
    labels.sort_by_key(|label| label.replaced.0)?;
    let mut changed = String::new(alloc);
    let mut at = 0usize;
    for label in &labels {
        if label.name.as_str() == name {
            if !label.replace(alloc, &mut changed, (text, at), new)? {
                return Ok(None);
            }
            at = label.replaced.1;
        }
    }
    changed.push_str(text.get(at..).unwrap_or(""))?;
    Ok(Some(changed))
}

/// Takes away how a link names its definition.
fn blank_tag(tag: &mut Tag<'static>) {
    match tag {
        Tag::Link { link_type, .. } => *link_type = LinkType::Inline,
        Tag::Image { link_type, .. } => *link_type = LinkType::Inline,
        _ => {}
    }
    match tag {
        Tag::Link { id, .. } => *id = CowStr::Borrowed(""),
        Tag::Image { id, .. } => *id = CowStr::Borrowed(""),
        _ => {}
    }
}

/// Takes away how links name their definitions.
fn blank(reading: &mut Reading) {
    for (event, _place) in reading.events.iter_mut() {
        if let Event::Start(tag) = event {
            blank_tag(tag);
        }
    }
}

/// Whether a text defines a label.
fn is_defined(alloc: Global, read: &Read<'_>, name: &str) -> Result<bool, AllocError> {
    for definition in &read.definitions {
        if folded(alloc, definition.label.as_str())?.as_str() == name {
            return Ok(true);
        }
    }
    Ok(false)
}

/// The text with another label.
fn relabelled(alloc: Global, read: &Read<'_>, old: &str, new: &str) -> Result<String, Fault> {
    let name = folded(alloc, new)?;
    if name.as_str() != old && is_defined(alloc, read, name.as_str())? {
        return Err(Fault::Refused(Code::Failed, "the label is defined already"));
    }
    match with_label(alloc, read, old, new)? {
        Some(text) => Ok(text),
        None => Err(Fault::Refused(Code::Failed, "a place of the label isn't found")),
    }
}

/// Whether two texts say the same but for how links name their definitions.
fn say_the_same(alloc: Global, mut one: Reading, mut other: Reading) -> Result<bool, AllocError> {
    blank(&mut one);
    blank(&mut other);
    are_same(alloc, &one.events, &other.events)
}

/// The edits that put another label in place of one, in its definition and in all links by it, as JSON, if the text says the
/// same then but for how links name their definitions.
pub(crate) fn renamed_label<F: Files>(
    asking: &Asking<'_, F>,
    read: Read<'_>,
    label: &WrittenLabel,
    new: &str,
    is_versioned: bool,
) -> Result<String, Fault> {
    let alloc = asking.gathering.alloc;
    let text = relabelled(alloc, &read, label.name.as_str(), new.trim())?;
    let found = asking.reading(text.as_str())?;
    let Read { reading, .. } = read;
    if !say_the_same(alloc, reading, found)? {
        return Err(Fault::Refused(Code::Failed, MISREAD));
    }
    let edits = word_edits(alloc, asking.encoding, asking.text, text.as_str())?;
    let mut edit = WorkspaceEdit::new(alloc, is_versioned);
    edit.add((asking.uri, asking.version), &edits)?;
    Ok(edit.finish()?)
}
