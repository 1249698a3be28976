//! The links of a tree that lead nowhere.

use crate::fault::Fault;
use crate::outcome::Outcome;
use crate::report::{Kind, Note, Report};
use crate::root::within;
use crate::site::{LINKS, Site, SitePage};
use std::alloc::{AllocError, Global};
use std::fs;
use tocmark_files::names::is_markdown;
use tocmark_files::quoted::Quoted;
use tocmark_links::destination::is_local;
use tocmark_links::page::Link;
use tocmark_links::tree::Led;

/// What is said of a named file that is no page.
const NO_MARKDOWN: &str =
    "is no Markdown file: its name would end with .md, .markdown, .mdown or .mkd";

/// What is said of a folder in which no page is read.
const NO_PAGES: &str =
    "warning: there is no Markdown file in this folder, or .gitignore and --exclude leave out all of them";

/// What is said of a named path that isn't looked into.
const LEFT_OUT: &str =
    "warning: .gitignore or --exclude leaves this out, so nothing is checked here";

/// How many links were checked.
#[derive(Clone, Copy)]
pub struct Totals {
    pub pages: usize,
    pub links: usize,
}

/// What is wrong with where a link leads.
fn kind_of(led: &Led) -> Option<Kind> {
    match led {
        Led::Outside => Some(Kind::Outside),
        Led::Nowhere { .. } => Some(Kind::Path),
        Led::NoAnchor { .. } => Some(Kind::Anchor),
        _ => None,
    }
}

/// What is said of a link of this file that leads nowhere, with the destination that is near.
fn broken<'n>(kind: Kind, file: &'n str, link: &'n Link, near: Option<&'n str>) -> Note<'n> {
    Note {
        kind,
        file,
        line: link.line,
        column: link.column,
        old: link.destination.as_str(),
        new: near,
    }
}

/// Whether a path in the tree is one of these, or in one of them.
fn is_asked(path: &str, asked: &[String]) -> bool {
    for folder in asked {
        if folder.is_empty() || within(path, folder.as_str()).is_some() {
            return true;
        }
    }
    false
}

impl Site {
    /// Reports a link if it leads nowhere, and says whether it does.
    fn check_link(
        &self,
        alloc: Global,
        from: &SitePage,
        link: &Link,
        report: &mut Report,
    ) -> Result<bool, Fault> {
        let path = from.path.as_str();
        let led = self.tree.led_to(path, link.destination.as_str())?;
        let Some(kind) = kind_of(&led) else {
            return Ok(false);
        };
        let near = self.tree.nearest_destination(path, &led)?;
        let shown = self.root.shown(alloc, path)?;
        let note = broken(kind, shown.as_str(), link, near.as_deref());
        report.add(alloc, note)?;
        Ok(true)
    }

    /// What becomes of a page whose broken links are reported.
    fn check_page(
        &self,
        alloc: Global,
        page: &SitePage,
        report: &mut Report,
    ) -> Result<Outcome, Fault> {
        let mut outcome = Outcome::Right;
        for link in &page.page.links {
            if self.check_link(alloc, page, link, report)? {
                outcome = Outcome::Broken;
            }
        }
        Ok(outcome)
    }

    /// Whether a path is one that the tree leaves out, or is in such a folder.
    fn leaves_out(&self, path: &str) -> bool {
        is_asked(path, &self.others)
    }

    /// Whether a page that is read is at a path in the tree or below it.
    fn has_pages(&self, path: &str) -> bool {
        for page in &self.pages {
            if path.is_empty() || within(page.path.as_str(), path).is_some() {
                return true;
            }
        }
        false
    }

    /// Says why no page is checked at what a word of the command line names: the path in the tree is left out, or is that of a
    /// folder without pages.
    fn warn_of_none(&self, rt: &HostRuntime, path: &str, word: &str) -> Result<(), AllocError> {
        let name = Quoted(word);
        let why = if self.leaves_out(path) {
            LEFT_OUT
        } else {
            NO_PAGES
        };
        let line = format!(in rt.alloc(); "{name}: {why}")?;
        LINKS.complain(&mut rt.stderr(), &line.as_str());
        Ok(())
    }

    /// The path in the tree of the page or folder that a word of the command line names. A symbolic link is followed.
    fn asked_path(&self, rt: &HostRuntime, word: &str) -> Result<String, Fault> {
        let path = self.root.followed(rt, word)?;
        let full = self.root.full(rt.alloc(), path.as_str())?;
        let is_folder = match fs::metadata(rt, full.as_str()) {
            Ok(found) => found.is_dir(),
            Err(error) => return Err(Fault::unreadable(rt.alloc(), word, error)),
        };
        if !is_folder && !is_markdown(path.as_str()) {
            return Err(Fault::path(rt.alloc(), word, NO_MARKDOWN));
        }
        if !self.has_pages(path.as_str()) && (is_folder || self.leaves_out(path.as_str())) {
            self.warn_of_none(rt, path.as_str(), word)?;
        }
        Ok(path)
    }

    /// The path in the tree of its root, which is checked if no word names anything.
    fn asked_root(&self, rt: &HostRuntime) -> Result<String, AllocError> {
        let root = String::new(rt.alloc());
        if !self.has_pages(root.as_str()) {
            let shown = self.root.shown(rt.alloc(), root.as_str())?;
            self.warn_of_none(rt, root.as_str(), shown.as_str())?;
        }
        Ok(root)
    }

    /// The paths in the tree of what words of the command line name; that of the root, if there are none. Standard error names
    /// each word that can't be checked, and each folder without pages.
    pub fn asked_paths(&mut self, rt: &HostRuntime, words: &[&str]) -> Result<Vec<String>, Fault> {
        let mut asked = Vec::new(rt.alloc());
        if words.is_empty() {
            asked.push(self.asked_root(rt)?)?;
        }
        for word in words {
            match self.asked_path(rt, word) {
                Ok(path) => asked.push(path)?,
                Err(fault) if fault.is_of_file() => {
                    LINKS.complain(&mut rt.stderr(), &fault);
                    self.outcomes.push(Outcome::Failed)?;
                }
                Err(fault) => return Err(fault),
            }
        }
        Ok(asked)
    }

    /// Reports the broken links of the pages at these paths in the tree or below them.
    pub fn check(
        &mut self,
        rt: &HostRuntime,
        asked: &[String],
        report: &mut Report,
    ) -> Result<(), Fault> {
        let mut totals = Totals { pages: 0, links: 0 };
        let mut outcomes = Vec::new(rt.alloc());
        for page in &self.pages {
            if is_asked(page.path.as_str(), asked) {
                outcomes.push(self.check_page(rt.alloc(), page, report)?)?;
                totals.pages = totals.pages.saturating_add(1);
                totals.links = totals.links.saturating_add(local_count(&page.page.links));
            }
        }
        for outcome in outcomes {
            self.outcomes.push(outcome)?;
        }
        let (Totals { pages, links }, broken) = (totals, report.count);
        let line = format!(in rt.alloc(); "files: {pages}, links: {links}, broken: {broken}")?;
        LINKS.complain(&mut rt.stderr(), &line.as_str());
        Ok(())
    }
}

/// How many links lead to files.
fn local_count(links: &[Link]) -> usize {
    let mut count = 0usize;
    for link in links {
        if is_local(link.destination.as_str()) {
            count = count.saturating_add(1);
        }
    }
    count
}
