//! A tree of files: which paths exist, which anchors their pages have, and where a link leads.

ghost use Rattle.std.specs.Prelude.{◌≡◌, ◌++◌, codes, IfOk, string_bytes};
ghost use Rattle.std.specs.Option.{option_copied, option_map};
ghost use Rattle.tocmark_links.specs.Naming.{folder_page, book_page, index_page, kind_at, kind_beside, kind_in, kind_of, named, page_at, site_page};
ghost use Rattle.tocmark_links.specs.Paths.{before, folder_before, folder_front, followed};

use crate::destination::{decoded, encoded, is_local, parts};
use crate::moves::{Moves, below};
use crate::page::Page;
use crate::paths::{folder_and_name, push_part, relative, resolved};
use crate::slug::Slugs;
use indexmap::{IndexMap, IndexSet};
use std::alloc::{AllocError, Global};
use strsim::osa_distance;

/// How a path names the place that it leads to.
#[derive(Clone, Copy)]
pub enum Form {
    /// By its path.
    Exact,
    /// `a.html` for `a.md`.
    Html,
    /// `a/index.html` for `a.md`, `a/README.md` or `a/index.md`.
    Index,
    /// `a` for `a.md`.
    Bare,
    /// `a` for `a/index.md` or `a/README.md`.
    Folder,
    /// `a/` for `a/README.md`.
    Slash,
    /// `a/index.md` for `a/README.md`, as mdBook calls it.
    Book,
}

/// Where a link leads.
#[derive(Drop)]
pub enum Led {
    /// To another site, or nowhere at all because it is empty.
    External,
    /// Out of the root of the tree.
    Outside,
    /// To a path where nothing is.
    Nowhere {
        /// The path, from the root.
        path: String,
    },
    /// To a page that has no such anchor.
    NoAnchor {
        /// The page.
        path: String,
        /// The anchor.
        anchor: String,
    },
    /// To this file or folder.
    To {
        /// The file or folder.
        path: String,
        /// The anchor as the page has it; empty if there is none, or the file is no page.
        anchor: String,
        /// How the link names it.
        form: Form,
    },
}

/// What is at a path.
#[derive(Drop)]
enum Entry {
    Folder,
    /// A file that isn't Markdown, or wasn't read.
    File,
    /// A page with its anchors.
    Page(IndexSet<String>),
}

/// What is at a path.
#[derive(Clone, Copy)]
pub enum Kind {
    Nothing,
    Folder,
    /// A file that isn't Markdown, or wasn't read.
    File,
    Page,
}

impl Entry {
    fn kind(&self) -> Kind
        ensures { result ≡ kind_of self.now }
    {
        match self {
            Entry::Folder => Kind::Folder,
            Entry::File => Kind::File,
            Entry::Page(_) => Kind::Page,
        }
    }
}

/// What is in front of an ending of a path; `None` if the path doesn't end so.
fn before<'p>(path: &'p str, ending: &str) -> Option<&'p str>
    ensures { option_copied result ≡ before path.now ending.now }
{
    path.strip_suffix(ending)
}

/// The folder of a path, by what is in front of its name.
fn folder_front(front: &str) -> Option<&str>
    ensures { option_copied result ≡ folder_front front.now }
{
    if front.is_empty() {
        return Some(front);
    }
    before(front, "/")
}

/// The folder of a path whose name is this one.
fn folder_before<'p>(path: &'p str, name: &str) -> Option<&'p str>
    ensures { option_copied result ≡ folder_before path.now name.now }
{
    match before(path, name) {
        None => None,
        Some(front) => folder_front(front),
    }
}

/// The files and folders of a tree, with the anchors of its pages.
#[derive(Drop)]
pub struct Tree {
    alloc: Global,
    /// Whether mdBook makes the site: then `x/index.md` is the page `x/README.md`.
    pub(crate) is_book: bool,
    entries: IndexMap<String, Entry>,
    /// A path for each name of a file or folder, in lower case: the first that was added.
    by_name: IndexMap<String, String>,
    /// The names of the files and folders that are directly in a folder.
    by_folder: IndexMap<String, IndexSet<String>>,
}

/// How many names are compared to find the one that is spelled most alike.
const COMPARED: usize = 500;

/// How many bytes of a name are compared.
const LONGEST: usize = 100;

fn in_lower_case(alloc: Global, name: &str) -> Result<String, AllocError> {
    let mut lower = String::from_str(alloc, name)?;
    lower.make_ascii_lowercase();
    Ok(lower)
}

/// How many characters of a name can differ from another one that is like it: a third of them.
fn most_of(name: &str) -> usize {
    name.chars().count() / 3
}

/// The first of the names that is spelled most like another one, if at most so many characters differ. Two neighbours in the
/// wrong order count as one.
fn most_alike(
    alloc: Global,
    names: &IndexSet<String>,
    wanted: &str,
    most: usize,
) -> Result<Option<String>, AllocError> {
    if wanted.len() > LONGEST {
        return Ok(None);
    }
    let mut least = most.saturating_add(1);
    let mut found = None;
    for name in names.iter().take(COMPARED) {
        if name.len() <= LONGEST {
            let distance = osa_distance(alloc, wanted, name.as_str())?;
            if distance < least {
                least = distance;
                found = Some(name.as_str());
            }
        }
    }
    match found {
        None => Ok(None),
        Some(name) => Ok(Some(String::from_str(alloc, name)?)),
    }
}

/// A name without its ending.
fn stem(name: &str) -> &str {
    match name.rsplit_once('.') {
        None => name,
        Some((stem, _)) => stem,
    }
}

impl Tree {
    /// A tree without files.
    pub fn new(alloc: Global) -> Tree {
        Tree::of_site(alloc, Slugs::GitHub)
    }

    /// A tree without files, for the site whose anchors these are.
    pub fn of_site(alloc: Global, slugs: Slugs) -> Tree {
        Tree {
            alloc,
            is_book: matches!(slugs, Slugs::MdBook),
            entries: IndexMap::new(alloc),
            by_name: IndexMap::new(alloc),
            by_folder: IndexMap::new(alloc),
        }
    }

    /// Adds a file with its folders; `page` is what a Markdown file has.
    pub fn add(&mut self, path: &str, page: Option<&Page>) -> Result<(), AllocError> {
        let entry = match page {
            None => Entry::File,
            Some(page) => {
                let mut names = IndexSet::new(self.alloc);
                for anchor in &page.anchors {
                    names.insert(anchor.name.clone()?)?;
                }
                Entry::Page(names)
            }
        };
        self.add_entry(path, entry)?;
        let mut folder = path;
        for _ in 0..path.len() {
            folder = folder_and_name(folder).0;
            if folder.is_empty() || self.has(folder) {
                break;
            }
            self.add_entry(folder, Entry::Folder)?;
        }
        Ok(())
    }

    /// Adds the name of what is directly in a folder.
    fn add_name(&mut self, folder: &str, name: &str) -> Result<(), AllocError> {
        let name = String::from_str(self.alloc, name)?;
        if let Some(names) = self.by_folder.get_mut(folder) {
            names.insert(name)?;
            return Ok(());
        }
        let mut names = IndexSet::new(self.alloc);
        names.insert(name)?;
        self.by_folder
            .insert(String::from_str(self.alloc, folder)?, names)?;
        Ok(())
    }

    fn add_entry(&mut self, path: &str, entry: Entry) -> Result<(), AllocError> {
        let (folder, name) = folder_and_name(path);
        self.add_name(folder, name)?;
        let name = in_lower_case(self.alloc, name)?;
        if !self.by_name.contains_key(name.as_str()) {
            self.by_name
                .insert(name, String::from_str(self.alloc, path)?)?;
        }
        self.entries
            .insert(String::from_str(self.alloc, path)?, entry)?;
        Ok(())
    }

    /// What is at this path; the root is a folder.
    fn kind_at(&self, path: &str) -> Kind
        ensures { result ≡ kind_at self.now path.now }
    {
        if path.is_empty() {
            return Kind::Folder;
        }
        match self.entries.get(path) {
            None => Kind::Nothing,
            Some(entry) => entry.kind(),
        }
    }

    /// Whether there is a file or folder at this path; the root is there.
    pub fn has(&self, path: &str) -> bool {
        !matches!(self.kind_at(path), Kind::Nothing)
    }

    /// Whether there is a folder at this path.
    pub fn has_folder(&self, path: &str) -> bool {
        matches!(self.kind_at(path), Kind::Folder)
    }

    /// What is after a move at a path that isn't in the new one.
    fn kind_beside(&self, moves: &Moves, path: &str) -> Kind
        ensures { result ≡ kind_beside (kind_at self.now) moves.now path.now }
    {
        if below(path, moves.new.as_str()).is_some() {
            return Kind::Folder;
        }
        if below(moves.old.as_str(), path).is_some() {
            return Kind::Nothing;
        }
        self.kind_at(path)
    }

    /// What is at a path, or what is there after a move.
    fn kind_in(&self, moves: Option<&Moves>, path: &str) -> Result<Kind, AllocError>
        ensures { IfOk result (λ kind. kind ≡ kind_in self.now moves.entry path.now) }
    {
        let Some(moves) = moves else {
            return Ok(self.kind_at(path));
        };
        match below(moves.new.as_str(), path) {
            None => Ok(self.kind_beside(moves, path)),
            Some(rest) => {
                let old = moves.old.as_str();
                let before = format!(in self.alloc; "{old}{rest}")?;
                Ok(self.kind_at(before.as_str()))
            }
        }
    }

    /// The path, if a page is there.
    fn page_at(&self, moves: Option<&Moves>, path: String) -> Result<Option<String>, AllocError>
        ensures { IfOk result (λ page. option_map string_bytes page
            ≡ page_at (kind_in self.now moves.entry) (string_bytes path)) }
    {
        match self.kind_in(moves, path.as_str())? {
            Kind::Page => Ok(Some(path)),
            _ => Ok(None),
        }
    }

    /// The page with a name in a folder.
    fn page_in(
        &self,
        moves: Option<&Moves>,
        folder: &str,
        name: &str,
    ) -> Result<Option<String>, AllocError>
        ensures { IfOk result (λ page. option_map string_bytes page
            ≡ page_at (kind_in self.now moves.entry) (followed folder.now name.now)) }
    {
        let mut path = String::from_str(self.alloc, folder)?;
        push_part(&mut path, name)?;
        self.page_at(moves, path)
    }

    /// The page whose path without its ending this is.
    fn page_of(&self, moves: Option<&Moves>, stem: &str) -> Result<Option<String>, AllocError>
        ensures { IfOk result (λ page. option_map string_bytes page
            ≡ page_at (kind_in self.now moves.entry) (stem.now ++ codes ".md")) }
    {
        self.page_at(moves, format!(in self.alloc; "{stem}.md")?)
    }

    /// The page of a folder.
    fn folder_page(&self, moves: Option<&Moves>, folder: &str) -> Result<Option<String>, AllocError>
        ensures { IfOk result (λ page. option_map string_bytes page
            ≡ folder_page (kind_in self.now moves.entry) folder.now) }
    {
        if let Some(page) = self.page_in(moves, folder, "index.md")? {
            return Ok(Some(page));
        }
        self.page_in(moves, folder, "README.md")
    }

    /// The page that a site makes `x/index.html` of, by `x`.
    fn index_page(&self, moves: Option<&Moves>, stem: &str) -> Result<Option<String>, AllocError>
        ensures { IfOk result (λ page. option_map string_bytes page
            ≡ index_page (kind_in self.now moves.entry) stem.now) }
    {
        if let Some(page) = self.page_of(moves, stem)? {
            return Ok(Some(page));
        }
        self.folder_page(moves, stem)
    }

    /// The page that mdBook makes a path of, if the tree is a book.
    fn book_page(&self, moves: Option<&Moves>, path: &str) -> Result<Option<String>, AllocError>
        ensures { IfOk result (λ page. option_map string_bytes page
            ≡ book_page self.now.is_book (kind_in self.now moves.entry) path.now) }
    {
        if self.is_book
            && let Some(folder) = folder_before(path, "index.md")
        {
            return self.page_in(moves, folder, "README.md");
        }
        Ok(None)
    }

    /// The page that a site makes a path of, and how the path names it.
    fn site_page(
        &self,
        moves: Option<&Moves>,
        path: &str,
    ) -> Result<Option<(String, Form)>, AllocError>
        ensures { IfOk result (λ found. option_map (λ f. string_bytes f.0) found
            ≡ site_page self.now.is_book (kind_in self.now moves.entry) path.now) }
    {
        if let Some(stem) = folder_before(path, "index.html")
            && let Some(page) = self.index_page(moves, stem)?
        {
            return Ok(Some((page, Form::Index)));
        }
        if let Some(stem) = before(path, ".html")
            && let Some(page) = self.page_of(moves, stem)?
        {
            return Ok(Some((page, Form::Html)));
        }
        let page = self.book_page(moves, path)?;
        Ok(page.map(|page| (page, Form::Book)))
    }

    /// What a path from the root names in the tree, or in the tree after a move, and how it does: the file itself, the page that
    /// a site makes this path of, or a folder. If a folder and a page have this name, the folder counts.
    pub fn named(
        &self,
        moves: Option<&Moves>,
        path: &str,
    ) -> Result<Option<(String, Form)>, AllocError>
        ensures { IfOk result (λ found. option_map (λ f. string_bytes f.0) found
            ≡ named self.now.is_book (kind_in self.now moves.entry) path.now) }
    {
        let kind = self.kind_in(moves, path)?;
        if matches!(kind, Kind::File | Kind::Page) {
            return Ok(Some((String::from_str(self.alloc, path)?, Form::Exact)));
        }
        if let Some(found) = self.site_page(moves, path)? {
            return Ok(Some(found));
        }
        if matches!(kind, Kind::Nothing) {
            let page = self.page_of(moves, path)?;
            return Ok(page.map(|page| (page, Form::Bare)));
        }
        match self.folder_page(moves, path)? {
            Some(page) => Ok(Some((page, Form::Folder))),
            None => Ok(Some((String::from_str(self.alloc, path)?, Form::Exact))),
        }
    }

    /// The anchor of a page that a link names: this one, or the same one in lower case.
    fn anchor_of(&self, path: &str, anchor: &str) -> Result<Option<String>, AllocError> {
        let Some(Entry::Page(names)) = self.entries.get(path) else {
            return Ok(Some(String::new(self.alloc)));
        };
        let lower = anchor.to_lowercase(self.alloc)?;
        if names.contains(anchor) || anchor.is_empty() {
            return Ok(Some(String::from_str(self.alloc, anchor)?));
        }
        if names.contains(lower.as_str()) || lower.as_str() == "top" {
            return Ok(Some(lower));
        }
        Ok(None)
    }

    /// Where a link of a page leads. It fails if memory runs out.
    ///
    /// A path names the file itself; or `a.html` the page `a.md`; `a/index.html` or `a/` the page `a/README.md` or `a/index.md`;
    /// or a folder; or `a` the page `a.md`. A path with a slash in front begins at the root. Percent signs are decoded, and a
    /// query doesn't count. An anchor counts in pages alone, also in lower case; `top` is in each page. In a book of mdBook,
    /// `a/index.md` is the page `a/README.md`.
    pub fn led_to(&self, from: &str, destination: &str) -> Result<Led, AllocError> {
        if !is_local(destination) {
            return Ok(Led::External);
        }
        let parts = parts(destination);
        let named = if parts.path.is_empty() {
            Some((String::from_str(self.alloc, from)?, Form::Exact))
        } else {
            let written = decoded(self.alloc, parts.path)?;
            let folder = folder_and_name(from).0;
            let Some(place) = resolved(self.alloc, folder, written.as_str())? else {
                return Ok(Led::Outside);
            };
            match self.named(None, place.as_str())? {
                None => return Ok(Led::Nowhere { path: place }),
                found => found,
            }
        };
        let Some((path, form)) = named else {
            return Ok(Led::Outside);
        };
        let anchor = decoded(self.alloc, parts.anchor.strip_prefix('#').unwrap_or(""))?;
        match self.anchor_of(path.as_str(), anchor.as_str())? {
            None => Ok(Led::NoAnchor { path, anchor }),
            Some(anchor) => Ok(Led::To { path, anchor, form }),
        }
    }

    /// The path of a file or folder with the same name as one that isn't there, or of the one in its folder whose name differs
    /// least, by a third of it at most.
    fn nearest_path(&self, path: &str) -> Result<Option<String>, AllocError> {
        let (folder, name) = folder_and_name(path);
        let lower = in_lower_case(self.alloc, name)?;
        if let Some(path) = self.by_name.get(lower.as_str()) {
            return Ok(Some(path.clone()?));
        }
        let Some(names) = self.by_folder.get(folder) else {
            return Ok(None);
        };
        let Some(found) = most_alike(self.alloc, names, name, most_of(stem(name)))? else {
            return Ok(None);
        };
        let mut path = String::from_str(self.alloc, folder)?;
        push_part(&mut path, found.as_str())?;
        Ok(Some(path))
    }

    /// What is nearest to where a broken link leads; `None` if nothing is near. It fails if memory runs out.
    ///
    /// For a path, that is one with the same name in any folder, or else the one in its folder that is spelled most alike. For an
    /// anchor, it is the anchor of its page that is spelled most alike. Of those, a third of the characters differ at most.
    pub fn nearest(&self, led: &Led) -> Result<Option<String>, AllocError> {
        match led {
            Led::Nowhere { path } => self.nearest_path(path.as_str()),
            Led::NoAnchor { path, anchor } => match self.entries.get(path.as_str()) {
                Some(Entry::Page(names)) => {
                    most_alike(self.alloc, names, anchor.as_str(), most_of(anchor.as_str()))
                }
                _ => Ok(None),
            },
            _ => Ok(None),
        }
    }

    /// The destination by which a page leads to what `nearest` finds for a link of it; `None` if that finds nothing.
    ///
    /// `from` is the page's path. For a path it is the path from the page's folder, with percent signs; for an anchor the same of
    /// the link's page and the anchor, or the anchor alone in the page itself. It fails if memory runs out.
    pub fn nearest_destination(&self, from: &str, led: &Led) -> Result<Option<String>, AllocError> {
        let Some(found) = self.nearest(led)? else {
            return Ok(None);
        };
        let folder = folder_and_name(from).0;
        let Led::NoAnchor { path, .. } = led else {
            let path = relative(self.alloc, folder, found.as_str())?;
            return Ok(Some(encoded(self.alloc, path.as_str())?));
        };
        let mut near = String::new(self.alloc);
        if path.as_str() != from {
            let path = relative(self.alloc, folder, path.as_str())?;
            near.push_str(encoded(self.alloc, path.as_str())?.as_str())?;
        }
        near.push('#')?;
        near.push_str(found.as_str())?;
        Ok(Some(near))
    }
}
