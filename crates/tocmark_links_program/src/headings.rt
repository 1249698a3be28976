//! Headings that get other words, and tables of contents.

use crate::changes::Reason;
use crate::fault::{Fault, fault_of};
use crate::plan::{Edit, Plan};
use crate::report::{Kind, Note, Report};
use crate::site::Site;
use std::alloc::{AllocError, Global};
use tocmark_files::quoted::in_quotes;
use tocmark_links::anchors::{Anchor, AnchorKind};
use tocmark_links::changed;
use tocmark_links::changed::{with_contents, with_heading};
use tocmark_links::headings::Renaming;
use tocmark_links::page::Page;
use tocmark_links::renamed::renamed_anchors;
use tocmark_links::tree::Led;

/// What is said of a file that isn't read.
const NO_PAGE: &str = "no such Markdown file is in the tree";

/// What is said of a symbolic link.
const LINK: &str = "is a symbolic link; name the file that it leads to";

/// What is said of words without an anchor.
const NO_NAME: &str =
    "these words give the heading no anchor; nothing was changed, so choose words with a letter or a digit";

/// What is said of an anchor that the heading can't have.
const TAKEN: &str =
    "an element of HTML or an id of another heading is this anchor; nothing was changed, so choose other words";

/// What is said of words by which links would lead elsewhere.
const ASTRAY: &str =
    "with these words, the anchor of another heading would lead elsewhere; nothing was changed, so choose other words";

/// What is said of a heading that can't have the new words, but can have others.
const WORDS: &str =
    "not all of these words would be read as the heading's; nothing was changed, so choose others";

/// What is said of a line that `<!-- toc -->` or `<!-- tocstop -->` doesn't begin.
const INDENTED: &str =
    "<!-- toc --> and <!-- tocstop --> have to begin their lines; nothing was changed";

/// The heading of a page that has an anchor.
fn heading_of<'p>(page: &'p Page, name: &str) -> Option<&'p Anchor> {
    for anchor in &page.anchors {
        if anchor.kind != AnchorKind::Html && anchor.name.as_str() == name {
            return Some(anchor);
        }
    }
    None
}

/// The heading of a page in a line.
fn heading_in(page: &Page, line: usize) -> Option<&Anchor> {
    for anchor in &page.anchors {
        if anchor.kind != AnchorKind::Html && anchor.line == line {
            return Some(anchor);
        }
    }
    None
}

/// Whether an element of HTML, or a heading by its id, has an anchor.
fn is_taken(page: &Page, name: &str) -> bool {
    for anchor in &page.anchors {
        if anchor.kind != AnchorKind::Heading && anchor.name.as_str() == name {
            return true;
        }
    }
    false
}

/// An anchor of a file, as a message shows it.
fn place_of(alloc: Global, file: &str, name: &str) -> Result<String, AllocError> {
    let place = format!(in alloc; "{file}#{name}")?;
    in_quotes(alloc, place.as_str())
}

/// What is wrong with words by which anchors would lead elsewhere, or to nothing. The heading in this line of the page has them.
fn anchor_fault(alloc: Global, file: &str, page: &Page, line: usize) -> Result<Fault, AllocError> {
    let Some(heading) = heading_in(page, line) else {
        return Ok(Fault::Path(in_quotes(alloc, file)?, ASTRAY));
    };
    let name = heading.name.as_str();
    if name.is_empty() {
        return Ok(Fault::Path(in_quotes(alloc, file)?, NO_NAME));
    }
    if is_taken(page, name) {
        return Ok(Fault::Path(place_of(alloc, file, name)?, TAKEN));
    }
    Ok(Fault::Path(in_quotes(alloc, file)?, ASTRAY))
}

/// The first line in which something is before `<!-- toc -->` or `<!-- tocstop -->`.
fn indented_line(text: &str) -> Option<usize> {
    let mut number = 0usize;
    for line in text.lines() {
        number = number.saturating_add(1);
        let line = line.trim_end();
        let is_mark = line.ends_with("<!-- toc -->") || line.ends_with("<!-- tocstop -->");
        if is_mark && !line.starts_with('<') {
            return Some(number);
        }
    }
    None
}

/// Why the table of contents of a file can't be filled.
fn contents_fault(file: String, text: &str, fault: changed::Fault) -> Fault {
    let is_of_place = matches!(
        &fault,
        changed::Fault::Misread { .. } | changed::Fault::NoContents
    );
    if is_of_place && let Some(line) = indented_line(text) {
        return Fault::Line(file, line, INDENTED);
    }
    fault_of(file, fault)
}

/// The first line of a text that another text has otherwise, from 1 on.
fn first_changed_line(old: &str, new: &str) -> usize {
    let mut number = 1usize;
    for (was, is) in old.split('\n').zip(new.split('\n')) {
        if was != is {
            return number;
        }
        number = number.saturating_add(1);
    }
    number
}

impl Site {
    /// What is said of an anchor of the page at a path that no heading has.
    fn no_heading(
        &self,
        alloc: Global,
        path: &str,
        page: &Page,
        name: &str,
    ) -> Result<Fault, AllocError> {
        let shown = self.root.shown(alloc, path)?;
        let led = Led::NoAnchor {
            path: String::from_str(alloc, path)?,
            anchor: String::from_str(alloc, name)?,
        };
        let near = match self.tree.nearest(&led)? {
            Some(near) => near,
            None => String::new(alloc),
        };
        let near = match heading_of(page, near.as_str()) {
            Some(heading) => Some(place_of(alloc, shown.as_str(), heading.name.as_str())?),
            None => None,
        };
        Ok(Fault::NoHeading(place_of(alloc, shown.as_str(), name)?, near))
    }

    /// The text in which a heading has other words. If the heading could have others, the fault says so.
    fn with_words(
        &self,
        alloc: Global,
        shown: &str,
        old: &str,
        heading: &Anchor,
        words: &str,
    ) -> Result<String, Fault> {
        let flags = self.terms.flags;
        let fault = match with_heading(alloc, old, flags, heading, words) {
            Ok(new) => return Ok(new),
            Err(fault) => fault,
        };
        let file = in_quotes(alloc, shown)?;
        let is_line = !words.is_empty() && !words.contains('\n') && !words.contains('\r');
        if is_line && matches!(fault, changed::Fault::NoWords) {
            return Err(Fault::Line(file, heading.line, WORDS));
        }
        if let changed::Fault::Misread { line } = &fault
            && with_heading(alloc, old, flags, heading, "x").is_ok()
        {
            return Err(Fault::Line(file, *line, WORDS));
        }
        Err(fault_of(file, fault))
    }

    /// The text of a page whose heading gets other words, which is reported, and what becomes of its anchors.
    fn reworded(
        &self,
        alloc: Global,
        path: &str,
        old: &str,
        (name, words): (&str, &str),
        report: &mut Report,
    ) -> Result<(String, Renaming), Fault> {
        let shown = self.root.shown(alloc, path)?;
        let page = self.page_of(alloc, old)?;
        let Some(heading) = heading_of(&page, name) else {
            return Err(self.no_heading(alloc, path, &page, name)?);
        };
        let note = Note {
            kind: Kind::Heading,
            file: shown.as_str(),
            line: heading.line,
            column: 1,
            old: heading.words.as_str(),
            new: Some(words),
        };
        report.add(alloc, note)?;
        let new = self.with_words(alloc, shown.as_str(), old, heading, words)?;
        let new_page = self.page_of(alloc, new.as_str())?;
        if renamed_anchors(alloc, &page, &new_page)?.is_none() {
            return Err(anchor_fault(alloc, shown.as_str(), &new_page, heading.line)?);
        }
        Ok((new, Renaming::new(alloc, path, &page, &new_page)?))
    }

    /// What is written to give other words to the heading that has this anchor in the file that a word of the command line names.
    pub fn rename_plan(
        &self,
        rt: &HostRuntime,
        (file, name): (&str, &str),
        words: &str,
        report: &mut Report,
    ) -> Result<Plan, Fault> {
        let path = self.root.inner(rt, file)?;
        if self.root.is_link(rt, path.as_str())? {
            return Err(Fault::path(rt.alloc(), file, LINK));
        }
        if !self.has_page(path.as_str()) {
            return Err(Fault::path(rt.alloc(), file, NO_PAGE));
        }
        let alloc = rt.alloc();
        let source = self.source_at(rt, path.as_str())?;
        let old = source.text.as_str();
        let (new, renaming) = self.reworded(
            alloc,
            path.as_str(),
            old,
            (name, words.trim()),
            report,
        )?;
        let reason = Reason::Renamed(renaming);
        let new = match self.corrected(alloc, path.as_str(), new.as_str(), &reason, report)? {
            Some(corrected) => corrected,
            None => new,
        };
        let mut edits = self.edits(rt, &reason, path.as_str(), report)?;
        if source.text.as_str() != new.as_str() {
            edits.push(source.edit(alloc, path, new)?)?;
        }
        Ok(Plan { edits, way: None })
    }

    /// Whether the page at a path is read.
    fn has_page(&self, path: &str) -> bool {
        for page in &self.pages {
            if page.path.as_str() == path {
                return true;
            }
        }
        false
    }

    /// The edit that fills the table of contents of a file. `None`: it is as it should be.
    fn contents_edit(
        &self,
        rt: &HostRuntime,
        word: &str,
        report: &mut Report,
    ) -> Result<Option<Edit>, Fault> {
        let path = self.root.followed(rt, word)?;
        let shown = self.root.shown(rt.alloc(), path.as_str())?;
        let source = self.source_at(rt, path.as_str())?;
        let old = source.text.as_str();
        let new = match with_contents(rt.alloc(), old, self.terms.flags, self.terms.slugs) {
            Ok(new) => new,
            Err(fault) => {
                let file = in_quotes(rt.alloc(), shown.as_str())?;
                return Err(contents_fault(file, old, fault));
            }
        };
        if new.as_str() == old {
            return Ok(None);
        }
        let note = Note {
            kind: Kind::Contents,
            file: shown.as_str(),
            line: first_changed_line(old, new.as_str()),
            column: 1,
            old: "table of contents",
            new: None,
        };
        report.add(rt.alloc(), note)?;
        Ok(Some(source.edit(rt.alloc(), path, new)?))
    }

    /// What is written to fill the tables of contents of the files that words of the command line name.
    pub fn contents_plan(
        &self,
        rt: &HostRuntime,
        words: &[&str],
        report: &mut Report,
    ) -> Result<Plan, Fault> {
        let mut edits = Vec::new(rt.alloc());
        for word in words {
            if let Some(edit) = self.contents_edit(rt, word, report)? {
                edits.push(edit)?;
            }
        }
        Ok(Plan { edits, way: None })
    }
}
