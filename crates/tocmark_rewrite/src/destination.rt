//! Where a link leads, as it is spelled: a changed destination keeps what it can of the old one's spelling.

use crate::patch::Patch;
use crate::title::spelled_title;
use std::alloc::{AllocError, Global};
use tocmark_event::event::LinkType;
use tocmark_reader::{DefinitionPlace, ReferenceDefinition};
use tocmark_write_texts::text_modifications::close_link;

/// Whether a destination can be as it is.
fn is_bare(text: &str) -> bool {
    if text.is_empty() || text.contains('&') && text.contains(';') {
        return false;
    }
    for byte in text.as_bytes() {
        if *byte <= b' ' || *byte == 0x7F || b"<>()\\".contains(byte) {
            return false;
        }
    }
    true
}

/// What closes an inline link.
pub(crate) fn closing(alloc: Global, destination: &str, title: &str) -> Result<String, AllocError> {
    let mut text = String::new(alloc);
    match close_link(destination, title, &mut text, LinkType::Inline) {
        Ok(()) => Ok(text),
        Err(_) => Err(AllocError),
    }
}

/// A destination as it is spelled.
pub(crate) fn spelled_destination(alloc: Global, text: &str) -> Result<String, AllocError> {
    if is_bare(text) {
        return String::from_str(alloc, text);
    }
    let closing = closing(alloc, text, "")?;
    let end = closing.len().saturating_sub(1);
    String::from_str(alloc, closing.as_str().get(2..end).unwrap_or(""))
}

/// How many bytes two texts begin with alike.
fn common_front(one: &str, other: &str) -> usize {
    let (left, right) = (one.as_bytes(), other.as_bytes());
    for at in 0..left.len().min(right.len()) {
        if left.get(at) != right.get(at) {
            return at;
        }
    }
    left.len().min(right.len())
}

/// The text of which some bytes in the middle are replaced, if these are whole characters.
fn with_middle(
    alloc: Global,
    text: &str,
    from: usize,
    to: usize,
    middle: &str,
) -> Result<Option<String>, AllocError> {
    let (Some(front), Some(back)) = (text.get(..from), text.get(to..)) else {
        return Ok(None);
    };
    Ok(Some(format!(in alloc; "{front}{middle}{back}")?))
}

/// The text of a spelling, in which some bytes at one place were put in or taken out to make a new text of the old one;
/// none if that isn't how they differ, or if the spelling differs from the old text before that place. The text begins
/// at a byte of the spelling.
fn with_change(
    alloc: Global,
    spelled: &str,
    begins: usize,
    old: &str,
    new: &str,
) -> Result<Option<String>, AllocError> {
    let front = common_front(old, new);
    let same = common_front(spelled.get(begins..).unwrap_or(""), old);
    let (Some(left), Some(right)) = (old.get(front..), new.get(front..)) else {
        return Ok(None);
    };
    let place = begins.saturating_add(front);
    if let Some(added) = right.strip_suffix(left)
        && is_bare(added)
        && same >= front
    {
        return with_middle(alloc, spelled, place, place, added);
    }
    match left.strip_suffix(right) {
        Some(taken) if same >= front.saturating_add(taken.len()) => {
            let past = place.saturating_add(taken.len());
            with_middle(alloc, spelled, place, past, "")
        }
        _ => Ok(None),
    }
}

/// A changed destination that is spelled as the old one was, but for the bytes in which the two differ; none if these
/// aren't found there.
fn spelled_alike(
    alloc: Global,
    spelled: &str,
    old: &str,
    new: &str,
) -> Result<Option<String>, AllocError> {
    let begins = usize::from(spelled.starts_with('<'));
    if let Some(added) = new.strip_prefix(old)
        && is_bare(added)
        && !spelled.is_empty()
    {
        let end = spelled.len().saturating_sub(begins);
        return with_middle(alloc, spelled, end, end, added);
    }
    with_change(alloc, spelled, begins, old, new)
}

/// A changed destination in place of the old one, which is spelled so: as little as can be is spelled anew.
pub(crate) fn respelled(
    alloc: Global,
    spelled: &str,
    old: &str,
    new: &str,
) -> Result<String, AllocError> {
    match spelled_alike(alloc, spelled, old, new)? {
        Some(text) => Ok(text),
        None => spelled_destination(alloc, new),
    }
}

/// A definition as a line.
pub(crate) fn definition_line(
    alloc: Global,
    definition: &ReferenceDefinition,
) -> Result<String, AllocError> {
    let (to, title) = (definition.destination.as_str(), definition.title.as_str());
    let destination = if to.is_empty() {
        String::from_str(alloc, "<>")?
    } else {
        spelled_destination(alloc, to)?
    };
    let title = spelled_title(alloc, title)?;
    let label = definition.label.as_str();
    format!(in alloc; "[{label}]: {destination}{title}")
}

/// A definition that leads elsewhere.
pub fn redirection(
    alloc: Global,
    source: &str,
    place: DefinitionPlace,
    old: &str,
    new: &str,
) -> Result<Patch, AllocError> {
    let (from, to) = place.destination;
    let spelled = source.get(from..to).unwrap_or("");
    let text = if new.is_empty() {
        String::from_str(alloc, "<>")?
    } else {
        respelled(alloc, spelled, old, new)?
    };
    Ok(Patch { from, to, text })
}
