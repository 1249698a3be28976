//! Where a document is, and the files that its links lead to.

use crate::documents::Documents;
use std::alloc::{AllocError, Global};
use tocmark_event::event::ParserOptions;
use tocmark_files::names::is_markdown;
use tocmark_files::trust::Distrust;
use tocmark_links::destination::{decoded, encoded, is_local, parts};
use tocmark_links::page::Page;
use tocmark_links::paths::{folder_and_name, resolved};
use tocmark_links::slug::Slugs;
use tocmark_links::tree::Tree;

/// What finds and reads files.
pub trait Files {
    /// Whether there is a file or a folder at a path.
    fn has(&self, path: &str) -> bool;

    /// The text of a file. `None`: it can't be read as text, or is too long.
    fn text(&self, path: &str) -> Option<String>;

    /// What a file has that says how documents are formatted. `Ok(None)`: it isn't there. `Err`: why it doesn't count.
    fn setting(&self, path: &str) -> Result<Option<Vec<u8>>, Distrust>;

    /// Whether a folder is on the file system of the one in it, and belongs to the caller or to root.
    fn is_near(&self, folder: &str, above: &str) -> bool;

    /// The paths of the Markdown files below a folder, from that folder on. Folders that can't be read have none. It fails if
    /// memory runs out.
    fn pages(&self, folder: &str) -> Result<Vec<String>, AllocError>;
}

/// What is after a link's path in the path of a page that it can lead to.
const FORMS: [&str; 4] = ["", ".md", "/README.md", "/index.md"];

/// The names that the page of a folder can have.
const FOLDER_PAGES: [&str; 2] = ["README.md", "index.md"];

/// How pages are read.
#[derive(Clone, Copy)]
pub struct Terms {
    pub flags: ParserOptions,
    pub slugs: Slugs,
}

impl Terms {
    /// How the pages of a site are read under these flags: mdBook always reads attributes of headings.
    pub fn of_site(flags: ParserOptions, slugs: Slugs) -> Terms {
        let more = match slugs {
            Slugs::MdBook => ParserOptions::ENABLE_HEADING_ATTRIBUTES,
            Slugs::GitHub | Slugs::Python => ParserOptions(0),
        };
        Terms {
            flags: ParserOptions(flags.0 | more.0),
            slugs,
        }
    }
}

/// Where a document is: the root of its tree, and its path from there on.
#[derive(Drop)]
pub struct Place {
    pub root: String,
    pub path: String,
}

/// Whether a URI names a file of this host.
pub fn is_of_file(uri: &str) -> bool {
    uri.starts_with("file:///")
}

/// The path that a URI of a file names.
pub fn path_in(alloc: Global, uri: &str) -> Result<Option<String>, AllocError> {
    match uri.strip_prefix("file://") {
        Some(path) if is_of_file(uri) => Ok(Some(decoded(alloc, path)?)),
        _ => Ok(None),
    }
}

impl Place {
    /// Where the document with a URI is, in the tree with this root or else in that of all files.
    pub fn of(alloc: Global, root: &str, uri: &str) -> Result<Place, AllocError> {
        let path = match path_in(alloc, uri)? {
            Some(path) => path,
            None => String::from_str(alloc, uri)?,
        };
        let below = path
            .as_str()
            .strip_prefix(root)
            .and_then(|path| path.strip_prefix('/'));
        if let Some(below) = below {
            return Ok(Place {
                root: String::from_str(alloc, root)?,
                path: String::from_str(alloc, below)?,
            });
        }
        Ok(Place {
            root: String::new(alloc),
            path: String::from_str(alloc, path.as_str().trim_start_matches('/'))?,
        })
    }

    /// The path by which the host finds what has a path in the tree.
    fn full(&self, alloc: Global, path: &str) -> Result<String, AllocError> {
        let root = self.root.as_str();
        format!(in alloc; "{root}/{path}")
    }

    /// The URI of what has a path in the tree.
    pub(crate) fn uri(&self, alloc: Global, path: &str) -> Result<String, AllocError> {
        let full = self.full(alloc, path)?;
        let path = encoded(alloc, full.as_str())?;
        format!(in alloc; "file://{path}")
    }

    /// The path in the tree to which a link's path leads. `None`: out of the tree.
    pub(crate) fn resolved(&self, alloc: Global, path: &str) -> Result<Option<String>, AllocError> {
        let (folder, _name) = folder_and_name(self.path.as_str());
        let written = decoded(alloc, path)?;
        resolved(alloc, folder, written.as_str())
    }

    /// The text of a page: that of the client if it is open, and else that of its file.
    pub(crate) fn page_text<F: Files>(
        &self,
        alloc: Global,
        files: &F,
        documents: &Documents,
        path: &str,
    ) -> Result<Option<String>, AllocError> {
        let full = self.full(alloc, path)?;
        if let Some(document) = documents.at(full.as_str()) {
            return Ok(Some(document.text.clone()?));
        }
        Ok(files.text(full.as_str()))
    }
}

/// A link's path without what sites write in place of `.md`.
fn stem(path: &str) -> &str {
    let path = path.strip_suffix("/index.html").unwrap_or(path);
    path.strip_suffix(".html").unwrap_or(path)
}

/// What collects the files that links lead to.
#[derive(Clone, Copy)]
pub struct Gathering<'g, F> {
    pub alloc: Global,
    pub files: &'g F,
    pub documents: &'g Documents,
    pub place: &'g Place,
    pub terms: Terms,
}

impl<F: Files> Gathering<'_, F> {
    /// Adds the file at a path, if it is there and wasn't added.
    fn add(&self, tree: &mut Tree, path: &str) -> Result<(), AllocError> {
        if tree.has(path) {
            return Ok(());
        }
        let full = self.place.full(self.alloc, path)?;
        if !self.files.has(full.as_str()) {
            return Ok(());
        }
        if !is_markdown(path) {
            return tree.add(path, None);
        }
        let text = self
            .place
            .page_text(self.alloc, self.files, self.documents, path)?;
        match text {
            None => tree.add(path, None),
            Some(text) => {
                let Terms { flags, slugs } = self.terms;
                let page = Page::read(self.alloc, text.as_str(), flags, slugs)?;
                tree.add(path, Some(&page))
            }
        }
    }

    /// Adds the pages of a folder that a site calls by this path of an index.
    fn add_folder_pages(&self, tree: &mut Tree, path: &str) -> Result<(), AllocError> {
        let (folder, name) = folder_and_name(path);
        if name != "index.md" && name != "index.html" {
            return Ok(());
        }
        for page in &FOLDER_PAGES {
            if let Some(path) = resolved(self.alloc, folder, page)? {
                self.add(tree, path.as_str())?;
            }
        }
        Ok(())
    }

    /// Adds what a destination can lead to.
    pub(crate) fn add_targets(&self, tree: &mut Tree, destination: &str) -> Result<(), AllocError> {
        let written = parts(destination).path;
        if written.is_empty() || !is_local(destination) {
            return Ok(());
        }
        let Some(path) = self.place.resolved(self.alloc, written)? else {
            return Ok(());
        };
        self.add(tree, path.as_str())?;
        self.add_folder_pages(tree, path.as_str())?;
        let stem = stem(path.as_str());
        for form in &FORMS {
            let path = format!(in self.alloc; "{stem}{form}")?;
            self.add(tree, path.as_str())?;
        }
        Ok(())
    }

    /// The tree of a page and the files that its links lead to.
    pub(crate) fn tree(&self, page: &Page) -> Result<Tree, AllocError> {
        let mut tree = Tree::of_site(self.alloc, self.terms.slugs);
        tree.add(self.place.path.as_str(), Some(page))?;
        for link in &page.links {
            self.add_targets(&mut tree, link.destination.as_str())?;
        }
        Ok(tree)
    }
}
