//! The pages of a workspace with links that lead where they led, after a heading is renamed or files are moved.

use crate::edits::{WorkspaceEdit, word_edits};
use crate::message::Fault;
use crate::moves::AllMoves;
use crate::tree::Files;
use crate::workspace::{Site, Workspace};
use std::alloc::AllocError;
use std::collections::HashMap;
use tocmark_links::changed::with_destinations;
use tocmark_links::destination::with_anchor;
use tocmark_links::page::Page;

/// Why destinations change.
#[derive(Drop)]
pub(crate) enum Reason {
    /// Anchors of the page at this path get other names.
    Renamed(String, HashMap<String, String>),
    /// Files and folders are moved.
    Moved(AllMoves),
}

impl<F: Files> Workspace<'_, F> {
    /// The new destination of a link of the page at a path. `None`: it stays.
    fn corrected_link(
        &self,
        site: &mut Site,
        reason: &Reason,
        from: &str,
        destination: &str,
    ) -> Result<Option<String>, AllocError> {
        let (target, names) = match reason {
            Reason::Moved(moves) => {
                self.add_named(site, from, destination)?;
                return moves.relocated(self.alloc, &site.tree, from, destination);
            }
            Reason::Renamed(target, names) => (target, names),
        };
        let link = (from, destination);
        let Some(anchor) = self.anchor_led_to(site, link, target.as_str())? else {
            return Ok(None);
        };
        match names.get(anchor.as_str()) {
            Some(new) => Ok(Some(with_anchor(self.alloc, destination, new.as_str())?)),
            None => Ok(None),
        }
    }

    /// The text of the page at a path with links that lead where they led. `None`: no link changes.
    pub(crate) fn corrected(
        &self,
        site: &mut Site,
        reason: &Reason,
        path: &str,
        text: &str,
    ) -> Result<Option<String>, Fault> {
        let page: Page = self.page_of(text)?;
        let mut changes = Vec::new(self.alloc);
        for (index, link) in page.links.iter().enumerate() {
            let destination = link.destination.as_str();
            if let Some(new) = self.corrected_link(site, reason, path, destination)? {
                changes.push((index, new))?;
            }
        }
        if changes.is_empty() {
            return Ok(None);
        }
        let new = with_destinations(self.alloc, text, self.terms.flags, &page, &changes)?;
        Ok(Some(new))
    }

    /// Adds the edits that the page at a path needs.
    pub(crate) fn add_page_edits(
        &self,
        edit: &mut WorkspaceEdit,
        site: &mut Site,
        reason: &Reason,
        path: &str,
    ) -> Result<(), Fault> {
        let Some(source) = self.source(site.root.as_str(), path)? else {
            return Ok(());
        };
        let old = source.text.as_str();
        if let Some(new) = self.corrected(site, reason, path, old)? {
            let edits = word_edits(self.alloc, self.encoding, old, new.as_str())?;
            edit.add((source.uri.as_str(), source.version), &edits)?;
        }
        Ok(())
    }

    /// The edits by which all links lead where they led after files are moved, as JSON. A page that would say something else by
    /// them is left out.
    pub fn moved(&self, moves: AllMoves) -> Result<String, Fault> {
        let (mut site, paths) = self.site(self.root)?;
        let reason = Reason::Moved(moves);
        let mut edit = WorkspaceEdit::new(self.alloc, self.is_versioned);
        for path in &paths {
            match self.add_page_edits(&mut edit, &mut site, &reason, path.as_str()) {
                Err(Fault::OutOfMemory) => return Err(Fault::OutOfMemory),
                _ => {}
            }
        }
        Ok(edit.finish()?)
    }
}
