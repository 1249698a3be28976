//! The pages of a workspace: those below its root, and those that are open.

use crate::documents::Documents;
use crate::lined::{Lined, Span};
use crate::links::add_location;
use crate::tree::{Files, Place, Terms};
use std::alloc::{AllocError, Global};
use tocmark_links::destination::{decoded, encoded, is_local, parts};
use tocmark_links::page::Page;
use tocmark_links::paths::{folder_and_name, resolved};
use tocmark_links::tree::{Led, Tree};
use tocmark_lsp_text::positions::Encoding;

/// What a page says, and how a client names it.
#[derive(Drop)]
pub(crate) struct Source {
    pub(crate) uri: String,
    /// The number of the client's state of the text. `None`: the text isn't open.
    pub(crate) version: Option<i64>,
    pub(crate) text: String,
}

/// What is in the tree with a root, with the anchors of some pages.
#[derive(Drop)]
pub(crate) struct Site {
    pub(crate) root: String,
    pub(crate) tree: Tree,
}

/// What finds the pages of a workspace.
#[derive(Clone, Copy)]
pub struct Workspace<'w, F> {
    pub alloc: Global,
    pub files: &'w F,
    pub documents: &'w Documents,
    /// The folder that the client has open; empty if it has none.
    pub root: &'w str,
    /// The paths of the Markdown files below it.
    pub listed: &'w [String],
    pub terms: Terms,
    pub encoding: Encoding,
    /// Whether the client takes a version with the edits of a text.
    pub is_versioned: bool,
}

/// A page without links and anchors.
fn empty_page(alloc: Global) -> Page {
    Page {
        links: Vec::new(alloc),
        anchors: Vec::new(alloc),
    }
}

/// The path to which a destination leads as it is written. `None`: it leads to its own page, or out of the tree.
fn written_path(
    alloc: Global,
    from: &str,
    destination: &str,
) -> Result<Option<String>, AllocError> {
    let path = parts(destination).path;
    if path.is_empty() || !is_local(destination) {
        return Ok(None);
    }
    let path = decoded(alloc, path)?;
    resolved(alloc, folder_and_name(from).0, path.as_str())
}

impl<F: Files> Workspace<'_, F> {
    /// Adds the path of a page, unless it is there.
    fn add(&self, site: &mut Site, paths: &mut Vec<String>, path: &str) -> Result<(), AllocError> {
        if site.tree.has(path) && !site.tree.has_folder(path) {
            return Ok(());
        }
        site.tree.add(path, Some(&empty_page(self.alloc)))?;
        paths.push(String::from_str(self.alloc, path)?)?;
        Ok(())
    }

    /// The tree with a root, and the paths of its pages: the files below the root, if the client has it open, and the open
    /// texts.
    pub(crate) fn site(&self, root: &str) -> Result<(Site, Vec<String>), AllocError> {
        let mut site = Site {
            root: String::from_str(self.alloc, root)?,
            tree: Tree::of_site(self.alloc, self.terms.slugs),
        };
        let mut paths = Vec::new(self.alloc);
        if root == self.root {
            for path in self.listed {
                self.add(&mut site, &mut paths, path.as_str())?;
            }
        }
        let open = self.documents.all()?;
        for document in &open {
            let place = Place::of(self.alloc, self.root, document.uri.as_str())?;
            if place.root.as_str() == root {
                self.add(&mut site, &mut paths, place.path.as_str())?;
            }
        }
        Ok((site, paths))
    }

    /// Adds the paths of the pages in the tree with a root to another tree, so that what is nearest to a broken path is found.
    pub(crate) fn add_pages(&self, tree: &mut Tree, root: &str) -> Result<(), AllocError> {
        let (_, paths) = self.site(root)?;
        for path in &paths {
            if !tree.has(path.as_str()) {
                tree.add(path.as_str(), None)?;
            }
        }
        Ok(())
    }

    /// The text of a page as the client has it, and else that of its file. `None`: it can't be read.
    pub(crate) fn source(&self, root: &str, path: &str) -> Result<Option<Source>, AllocError> {
        let full = format!(in self.alloc; "{root}/{path}")?;
        // the path of a text that is no file is its URI
        let open = self.documents.at(full.as_str());
        if let Some(document) = open.or(self.documents.at(path)) {
            return Ok(Some(Source {
                uri: document.uri.clone()?,
                version: document.version,
                text: document.text.clone()?,
            }));
        }
        let Some(text) = self.files.text(full.as_str()) else {
            return Ok(None);
        };
        let path = encoded(self.alloc, full.as_str())?;
        Ok(Some(Source {
            uri: format!(in self.alloc; "file://{path}")?,
            version: None,
            text,
        }))
    }

    /// The links and anchors of a text.
    pub(crate) fn page_of(&self, text: &str) -> Result<Page, AllocError> {
        Page::read(self.alloc, text, self.terms.flags, self.terms.slugs)
    }

    /// Adds what a destination names, if that is no page but is there.
    pub(crate) fn add_named(
        &self,
        site: &mut Site,
        from: &str,
        destination: &str,
    ) -> Result<(), AllocError> {
        let Some(path) = written_path(self.alloc, from, destination)? else {
            return Ok(());
        };
        let root = site.root.as_str();
        let full = format!(in self.alloc; "{root}/{path}")?;
        if !site.tree.has(path.as_str()) && self.files.has(full.as_str()) {
            site.tree.add(path.as_str(), None)?;
        }
        Ok(())
    }

    /// The anchor of a page to which a link of another one leads. `None`: it leads elsewhere.
    pub(crate) fn anchor_led_to(
        &self,
        site: &mut Site,
        (from, destination): (&str, &str),
        target: &str,
    ) -> Result<Option<String>, AllocError> {
        if !destination.contains('#') {
            return Ok(None);
        }
        self.add_named(site, from, destination)?;
        let led = site.tree.led_to(from, destination)?;
        if let Led::To { path, anchor, .. } = &led
            && path.as_str() == target
        {
            return Ok(Some(anchor.clone()?));
        }
        Ok(None)
    }

    /// Adds the links of the page at a path that lead to an anchor of another one.
    fn add_links_to(
        &self,
        json: &mut String,
        site: &mut Site,
        path: &str,
        (target, name): (&str, &str),
    ) -> Result<(), AllocError> {
        let Some(source) = self.source(site.root.as_str(), path)? else {
            return Ok(());
        };
        let page = self.page_of(source.text.as_str())?;
        let lined = Lined::new(self.alloc, source.text.as_str(), self.encoding)?;
        for link in &page.links {
            let written = (path, link.destination.as_str());
            let anchor = self.anchor_led_to(site, written, target)?;
            if anchor.is_some_and(|anchor| anchor.as_str() == name)
                && let Some(place) = link.place
            {
                add_location(json, source.uri.as_str(), lined.span(place))?;
            }
        }
        Ok(())
    }

    /// The links of all pages that lead to an anchor of a page at a place, as JSON, after the heading's own place if that is
    /// wanted.
    pub(crate) fn links_to(
        &self,
        place: &Place,
        page: &Page,
        name: &str,
        heading: Option<(&str, Span)>,
    ) -> Result<String, AllocError> {
        let target = place.path.as_str();
        let (mut site, paths) = self.site(place.root.as_str())?;
        site.tree.add(target, Some(page))?;
        let mut json = String::from_str(self.alloc, "[")?;
        if let Some((uri, span)) = heading {
            add_location(&mut json, uri, span)?;
        }
        for path in &paths {
            self.add_links_to(&mut json, &mut site, path.as_str(), (target, name))?;
        }
        json.push(']')?;
        Ok(json)
    }
}
