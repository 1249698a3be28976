//! Links and images: what they say, and the patch of one that says something else.

use crate::destination::{respelled, spelled_destination};
use crate::event::spelled_text;
use crate::patch::Patch;
use crate::source_bytes::{behind_white, byte_at};
use crate::title::spelled_title;
use std::alloc::{AllocError, Global};
use tocmark_event::event::{Event, LinkType, Tag};
use tocmark_read_tokens::word::destination;

/// What a link or an image says but for its label.
#[derive(Clone, Copy)]
pub struct LinkParts<'t> {
    pub link_type: LinkType,
    pub destination: &'t str,
    pub title: &'t str,
    pub id: &'t str,
}

pub(crate) fn link_parts<'t>(event: &'t Event<'_>) -> Option<LinkParts<'t>> {
    let Event::Start(tag) = event else {
        return None;
    };
    match tag {
        Tag::Link {
            link_type,
            dest_url,
            title,
            id,
        } => Some(LinkParts {
            link_type: *link_type,
            destination: dest_url.as_ref(),
            title: title.as_ref(),
            id: id.as_ref(),
        }),
        Tag::Image {
            link_type,
            dest_url,
            title,
            id,
        } => Some(LinkParts {
            link_type: *link_type,
            destination: dest_url.as_ref(),
            title: title.as_ref(),
            id: id.as_ref(),
        }),
        _ => None,
    }
}

/// A link or an image that says something else.
#[derive(Clone, Copy)]
pub(crate) struct LinkChange<'o, 'n> {
    /// Where it begins and ends in the source.
    pub(crate) range: (usize, usize),
    /// The byte after its text.
    pub(crate) inner: usize,
    pub(crate) old: LinkParts<'o>,
    pub(crate) new: LinkParts<'n>,
}

/// Where the text of a link or an image begins.
pub(crate) fn text_start(source: &str, begins: usize) -> usize {
    if byte_at(source, begins) == b'!' {
        begins.saturating_add(2)
    } else {
        begins.saturating_add(1)
    }
}

pub(crate) fn is_reference(link_type: LinkType) -> bool {
    match link_type {
        LinkType::Reference => true,
        LinkType::Collapsed => true,
        LinkType::Shortcut => true,
        _ => false,
    }
}

pub(crate) fn is_address(link_type: LinkType) -> bool {
    match link_type {
        LinkType::Autolink => true,
        LinkType::Email => true,
        _ => false,
    }
}

impl LinkChange<'_, '_> {
    /// The patch of an inline link whose destination or title was changed.
    pub(crate) fn inline_patch(
        self,
        alloc: Global,
        source: &str,
    ) -> Result<Option<Patch>, AllocError> {
        let LinkChange {
            inner,
            old,
            new,
            ..
        } = self;
        let last = self.range.1.saturating_sub(1);
        if !source.get(inner..).unwrap_or("").starts_with("](") || byte_at(source, last) != b')' {
            return Ok(None);
        }
        let start = behind_white(source, inner.saturating_add(2));
        let Some(word) = destination(source.as_bytes(), start) else {
            return Ok(None);
        };
        let mut patch = Patch {
            from: word.next,
            to: word.next,
            text: String::new(alloc),
        };
        if old.destination != new.destination {
            let spelled = source.get(start..word.next).unwrap_or("");
            patch.from = start;
            patch.text = respelled(alloc, spelled, old.destination, new.destination)?;
        }
        if old.title != new.title {
            patch.to = last;
            patch
                .text
                .push_str(spelled_title(alloc, new.title)?.as_str())?;
        }
        Ok(Some(patch))
    }

    /// The patch of an autolink or an e-mail link that became an inline link with the same text.
    pub(crate) fn address_patch(
        self,
        alloc: Global,
        source: &str,
    ) -> Result<Option<Patch>, AllocError> {
        let LinkChange { range, new, .. } = self;
        let from = range.0.saturating_add(1);
        let to = range.1.saturating_sub(1);
        let Some(address) = source.get(from..to) else {
            return Ok(None);
        };
        let mut text = String::from_str(alloc, "[")?;
        text.push_str(spelled_text(alloc, address)?.as_str())?;
        text.push_str("](")?;
        text.push_str(spelled_destination(alloc, new.destination)?.as_str())?;
        text.push_str(spelled_title(alloc, new.title)?.as_str())?;
        text.push_str(")")?;
        Ok(Some(Patch {
            from: range.0,
            to: range.1,
            text,
        }))
    }
}
