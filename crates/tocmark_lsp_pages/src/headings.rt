//! Headings that get other words, with the links to them.

use crate::corrections::Reason;
use crate::edits::{WorkspaceEdit, word_edits};
use crate::labels::{label_at, renamed_label};
use crate::links::{Asking, Read};
use crate::message::{Code, Fault, JsonText};
use crate::tree::Files;
use crate::workspace::{Site, Workspace};
use std::alloc::{AllocError, Global};
use tocmark_links::changed::with_heading;
use tocmark_links::page::Page;
use tocmark_links::renamed::renamed_anchors;
use tocmark_lsp_text::positions::Position;

/// What is said of words by which links would lead elsewhere.
const TAKEN: &str =
    "with these words, the heading has no anchor, or the one of an element or of another heading";

/// What is said of a place where nothing can get another name.
const NOTHING: &str = "there is no heading and no label here";

/// The place of what can get another name at a byte: a label, or the words of a heading.
fn place_at<F: Files>(
    asking: &Asking<'_, F>,
    read: &Read<'_>,
    at: usize,
) -> Result<Option<(usize, usize)>, AllocError> {
    if let Some(label) = label_at(asking.gathering.alloc, read, at)? {
        return Ok(Some(label.place));
    }
    let page = asking.page()?;
    match asking.heading_at(read, &page, at)? {
        Some(heading) => Ok(heading.place),
        None => Ok(None),
    }
}

/// The range and the text of what can get another name at a position, as JSON; `null` if nothing can, or if it has several
/// lines.
pub(crate) fn prepared<F: Files>(
    asking: &Asking<'_, F>,
    position: Position,
) -> Result<String, AllocError> {
    let alloc = asking.gathering.alloc;
    let read = asking.read()?;
    let Some((start, end)) = place_at(asking, &read, read.lined.byte(position))? else {
        return String::from_str(alloc, "null");
    };
    let words = asking.text.get(start..end).unwrap_or("");
    if words.contains('\n') || words.contains('\r') {
        return String::from_str(alloc, "null");
    }
    let (span, words) = (read.lined.span((start, end)), JsonText(words));
    format!(in alloc; "{{\"range\":{span},\"placeholder\":{words}}}")
}

/// Which anchors of a page change if its text becomes another one.
fn renaming<F: Files>(
    workspace: &Workspace<'_, F>,
    path: &str,
    page: &Page,
    new: &str,
) -> Result<Reason, Fault> {
    let path = String::from_str(workspace.alloc, path)?;
    let new_page = workspace.page_of(new)?;
    match renamed_anchors(workspace.alloc, page, &new_page)? {
        Some(names) => Ok(Reason::Renamed(path, names)),
        None => Err(Fault::Refused(Code::Failed, TAKEN)),
    }
}

/// Adds the edits that the page of a heading needs, whose new text this is but for its links.
fn add_own_edits<F: Files>(
    workspace: &Workspace<'_, F>,
    asking: &Asking<'_, F>,
    edit: &mut WorkspaceEdit,
    site: &mut Site,
    reason: &Reason,
    new: &str,
) -> Result<(), Fault> {
    let path = asking.gathering.place.path.as_str();
    let corrected = workspace.corrected(site, reason, path, new)?;
    let new = match &corrected {
        Some(corrected) => corrected.as_str(),
        None => new,
    };
    let edits = word_edits(workspace.alloc, asking.encoding, asking.text, new)?;
    Ok(edit.add((asking.uri, asking.version), &edits)?)
}

/// The edits that make another text of a heading's page, and give all links their new anchors, as JSON.
fn heading_edits<F: Files>(
    workspace: &Workspace<'_, F>,
    asking: &Asking<'_, F>,
    page: &Page,
    reason: &Reason,
    new: &str,
) -> Result<String, Fault> {
    let place = asking.gathering.place;
    let path = place.path.as_str();
    let (mut site, paths) = workspace.site(place.root.as_str())?;
    site.tree.add(path, Some(page))?;
    let mut edit = WorkspaceEdit::new(workspace.alloc, workspace.is_versioned);
    add_own_edits(workspace, asking, &mut edit, &mut site, reason, new)?;
    for other in &paths {
        if other.as_str() != path {
            workspace.add_page_edits(&mut edit, &mut site, reason, other.as_str())?;
        }
    }
    Ok(edit.finish()?)
}

/// The edits that give the heading at a byte other words, and all links to headings whose anchors change their new ones.
fn renamed_heading<F: Files>(
    workspace: &Workspace<'_, F>,
    asking: &Asking<'_, F>,
    read: &Read<'_>,
    at: usize,
    words: &str,
) -> Result<String, Fault> {
    let (alloc, flags) = (workspace.alloc, workspace.terms.flags);
    let path = asking.gathering.place.path.as_str();
    let page = asking.page()?;
    let Some(heading) = asking.heading_at(read, &page, at)? else {
        return Err(Fault::Refused(Code::Failed, NOTHING));
    };
    let new = with_heading(alloc, asking.text, flags, heading, words)?;
    let reason = renaming(workspace, path, &page, new.as_str())?;
    heading_edits(workspace, asking, &page, &reason, new.as_str())
}

/// The edits that give what is at a position another name, as JSON: a label, or the words of a heading.
pub(crate) fn renamed<F: Files>(
    workspace: &Workspace<'_, F>,
    asking: &Asking<'_, F>,
    position: Position,
    name: &str,
) -> Result<String, Fault> {
    let read = asking.read()?;
    let at = read.lined.byte(position);
    match label_at(workspace.alloc, &read, at)? {
        Some(label) => renamed_label(asking, read, &label, name, workspace.is_versioned),
        None => renamed_heading(workspace, asking, &read, at, name),
    }
}
