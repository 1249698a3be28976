//! The new destinations of links, and the texts that have them.

use crate::fault::{Fault, fault_of};
use crate::plan::Edit;
use crate::report::{Kind, Note, Report};
use crate::site::{Site, SitePage};
use std::alloc::Global;
use tocmark_files::quoted::in_quotes;
use tocmark_links::changed::with_destinations;
use tocmark_links::headings::{Astray, Renaming};
use tocmark_links::moved::relocated;
use tocmark_links::moves::Moves;
use tocmark_links::page::{Link, Page};

/// What is said of a line with a link that would lead to another heading, or to none.
const ASTRAY: &str =
    "with these words, a link of this line would lead elsewhere; nothing was changed, so choose others";

/// Why destinations change.
#[derive(Drop)]
pub enum Reason {
    /// A path is moved.
    Moved(Moves),
    /// Headings of a page get other words.
    Renamed(Renaming),
}

impl Site {
    /// The new destination of a link of the page at a path. `None`: it stays.
    fn destination(
        &self,
        alloc: Global,
        reason: &Reason,
        from: &str,
        link: &Link,
    ) -> Result<Option<String>, Fault> {
        let old = link.destination.as_str();
        let renaming = match reason {
            Reason::Moved(moves) => return Ok(relocated(alloc, &self.tree, moves, from, old)?),
            Reason::Renamed(renaming) => renaming,
        };
        match renaming.renamed_link(alloc, &self.tree, from, old) {
            Ok(new) => Ok(new),
            Err(Astray::OutOfMemory) => Err(Fault::OutOfMemory),
            Err(Astray::Elsewhere) => {
                let shown = self.root.shown(alloc, from)?;
                Err(Fault::Line(in_quotes(alloc, shown.as_str())?, link.line, ASTRAY))
            }
        }
    }

    /// The new destinations of a page's links, each with the link's index.
    fn destinations(
        &self,
        alloc: Global,
        reason: &Reason,
        from: &str,
        page: &Page,
    ) -> Result<Vec<(usize, String)>, Fault> {
        let mut changes = Vec::new(alloc);
        for (index, link) in page.links.iter().enumerate() {
            if let Some(new) = self.destination(alloc, reason, from, link)? {
                changes.push((index, new))?;
            }
        }
        Ok(changes)
    }

    /// A text of the page at a path with new destinations, which are reported. `None`: no link of it changes.
    pub fn corrected(
        &self,
        alloc: Global,
        path: &str,
        text: &str,
        reason: &Reason,
        report: &mut Report,
    ) -> Result<Option<String>, Fault> {
        let page = self.page_of(alloc, text)?;
        let changes = self.destinations(alloc, reason, path, &page)?;
        if changes.is_empty() {
            return Ok(None);
        }
        let shown = self.root.shown(alloc, path)?;
        for (index, new) in &changes {
            if let Some(link) = page.links.get(*index) {
                report.add(
                    alloc,
                    Note {
                        kind: Kind::Link,
                        file: shown.as_str(),
                        line: link.line,
                        column: link.column,
                        old: link.destination.as_str(),
                        new: Some(new.as_str()),
                    },
                )?;
            }
        }
        match with_destinations(alloc, text, self.terms.flags, &page, &changes) {
            Ok(new) => Ok(Some(new)),
            Err(fault) => Err(fault_of(in_quotes(alloc, shown.as_str())?, fault)),
        }
    }

    /// The edit of a page some of whose links change. `None`: none does.
    fn edit_of(
        &self,
        rt: &HostRuntime,
        page: &SitePage,
        reason: &Reason,
        report: &mut Report,
    ) -> Result<Option<Edit>, Fault> {
        let path = page.path.as_str();
        let changes = self.destinations(rt.alloc(), reason, path, &page.page)?;
        if changes.is_empty() {
            return Ok(None);
        }
        let source = self.source_at(rt, path)?;
        let new = self.corrected(rt.alloc(), path, source.text.as_str(), reason, report)?;
        let path = String::from_str(rt.alloc(), path)?;
        match new {
            Some(new) => Ok(Some(source.edit(rt.alloc(), path, new)?)),
            None => Ok(None),
        }
    }

    /// The edits of all pages whose links change, but for the page at one path.
    pub fn edits(
        &self,
        rt: &HostRuntime,
        reason: &Reason,
        without: &str,
        report: &mut Report,
    ) -> Result<Vec<Edit>, Fault> {
        let mut edits = Vec::new(rt.alloc());
        for page in &self.pages {
            if page.path.as_str() != without
                && let Some(edit) = self.edit_of(rt, page, reason, report)?
            {
                edits.push(edit)?;
            }
        }
        Ok(edits)
    }
}
