//! A tree whose pages are read.

use crate::arguments::{NAME, Terms};
use crate::fault::Fault;
use crate::outcome::Outcome;
use crate::root::Root;
use crate::walk::{Files, files_of};
use std::alloc::Global;
use std::fs;
use tocmark_command::program::Program;
use tocmark_files::rules::Rules;
use tocmark_links::page::Page;
use tocmark_links::tree::{Led, Tree};

/// This program.
pub const LINKS: Program = Program { name: NAME };

/// A Markdown file of a tree.
#[derive(Drop)]
pub struct SitePage {
    /// Its path in the tree.
    pub path: String,
    pub page: Page,
}

/// A tree whose pages are read.
#[derive(Drop)]
pub struct Site {
    pub root: Root,
    pub terms: Terms,
    pub tree: Tree,
    pub pages: Vec<SitePage>,
    /// The files that aren't read.
    pub others: Vec<String>,
    /// What became of files so far.
    pub outcomes: Vec<Outcome>,
}

impl Site {
    /// What a text has.
    pub fn page_of(&self, alloc: Global, text: &str) -> Result<Page, Fault> {
        Ok(Page::read(alloc, text, self.terms.flags, self.terms.slugs)?)
    }

    /// Reads a page. If it can't be read, standard error says so, and it is a file without anchors.
    fn add_page(&mut self, rt: &HostRuntime, path: String) -> Result<(), Fault> {
        let source = match self.source_at(rt, path.as_str()) {
            Ok(source) => source,
            Err(fault) if fault.is_of_file() => {
                LINKS.complain(&mut rt.stderr(), &fault);
                self.outcomes.push(Outcome::Failed)?;
                return Ok(self.tree.add(path.as_str(), None)?);
            }
            Err(fault) => return Err(fault),
        };
        let page = self.page_of(rt.alloc(), source.text.as_str())?;
        self.tree.add(path.as_str(), Some(&page))?;
        self.pages.push(SitePage { path, page })?;
        Ok(())
    }

    /// A tree without files.
    pub fn new(alloc: Global, root: Root, terms: Terms) -> Site {
        Site {
            root,
            terms,
            tree: Tree::of_site(alloc, terms.slugs),
            pages: Vec::new(alloc),
            others: Vec::new(alloc),
            outcomes: Vec::new(alloc),
        }
    }

    /// Reads the tree, but for what these rules exclude.
    pub fn read(&mut self, rt: &HostRuntime, exclude: Rules) -> Result<(), Fault> {
        let Files {
            pages,
            others,
            faults,
        } = files_of(rt, &self.root, exclude)?;
        for fault in &faults {
            LINKS.complain(&mut rt.stderr(), fault);
            self.outcomes.push(Outcome::Failed)?;
        }
        for path in &others {
            self.tree.add(path.as_str(), None)?;
        }
        self.others = others;
        for path in pages {
            self.add_page(rt, path)?;
        }
        self.add_unread(rt)
    }

    /// Adds to the tree what links lead to in folders that were not looked into.
    fn add_unread(&mut self, rt: &HostRuntime) -> Result<(), Fault> {
        for SitePage { path: from, page } in &self.pages {
            for link in &page.links {
                let led = self.tree.led_to(from.as_str(), link.destination.as_str())?;
                if let Led::Nowhere { path } = &led {
                    let full = self.root.full(rt.alloc(), path.as_str())?;
                    if fs::exists(rt, full.as_str()).unwrap_or(false) {
                        self.tree.add(path.as_str(), None)?;
                    }
                }
            }
        }
        Ok(())
    }
}
