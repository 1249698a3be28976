//! A link's title, as it is spelled.

use crate::destination::closing;
use crate::patch::Patch;
use std::alloc::{AllocError, Global};
use tocmark_reader::DefinitionPlace;

/// A title as it is spelled, after a space; nothing for the empty one.
pub(crate) fn spelled_title(alloc: Global, text: &str) -> Result<String, AllocError> {
    let closing = closing(alloc, "a", text)?;
    let end = closing.len().saturating_sub(1);
    String::from_str(alloc, closing.as_str().get(3..end).unwrap_or(""))
}

/// A definition with another title, or without one.
pub fn retitling(alloc: Global, place: DefinitionPlace, new: &str) -> Result<Patch, AllocError> {
    let (from, to) = place.title;
    let text = spelled_title(alloc, new)?;
    if from == to || new.is_empty() {
        return Ok(Patch {
            from: place.destination.1,
            to,
            text,
        });
    }
    let bare = text.as_str().get(1..).unwrap_or("");
    Ok(Patch {
        from,
        to,
        text: String::from_str(alloc, bare)?,
    })
}
