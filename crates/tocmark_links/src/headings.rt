//! The headings that links lead to, before headings get other words and after it.

ghost use Rattle.std.specs.Prelude.{◌≡◌, ℕ, List, None, Some, IfOk, IsTrue, OnOk, length, if◌then◌else◌};
ghost use Rattle.std.specs.Str.{bytes_eq};
ghost use Rattle.std.specs.HashMap.{get_by_text};
ghost use Rattle.std.specs.Option.{option_or};
ghost use Rattle.tocmark_links.specs.Destinations.{anchor_of};
ghost use Rattle.tocmark_links.specs.Headings.{first_from, heading_by, heading_to, number_after, place_of, IsOf, KeepsHeading};

use crate::anchors::{Anchor, AnchorKind};
use crate::destination::{decoded, with_anchor};
use crate::moved::target_of;
use crate::page::Page;
use crate::tree::Tree;
use std::alloc::{AllocError, AllocFailed, Global};
use std::collections::HashMap;

/// What the first anchor of each name is: a heading, by its number among the headings; or `None`, an element of HTML.
type Firsts = HashMap<String, Option<usize>>;

/// Why a link has no new destination.
#[derive(Debug, Drop)]
pub enum Astray {
    /// Memory ran out.
    OutOfMemory,
    /// It would lead to another heading, or to none.
    Elsewhere,
}

impl From<AllocError> for Astray {
    fn from(_error: AllocError) -> Astray {
        Astray::OutOfMemory
    }
}

impl<T: Drop> From<AllocFailed<T>> for Astray {
    fn from(_error: AllocFailed<T>) -> Astray {
        Astray::OutOfMemory
    }
}

/// The anchors of a page before its headings get other words, and after it.
#[derive(Drop)]
pub struct Renaming {
    file: String,
    old: Firsts,
    new: Firsts,
    /// The new names of the headings.
    names: Vec<String>,
}

/// What an anchor is, if so many headings are before it.
fn place_of(kind: AnchorKind, number: usize) -> Option<usize>
    ensures { result ≡ place_of kind number }
{
    match kind {
        AnchorKind::Html => None,
        AnchorKind::Heading => Some(number),
        AnchorKind::Named => Some(number),
    }
}

/// Adds what a name is, unless an anchor before it has that name.
fn add_first(
    alloc: Global,
    firsts: &mut Firsts,
    name: &str,
    place: Option<usize>,
) -> Result<(), AllocError>
    ensures { OnOk result ((q : List ℕ) → get_by_text firsts.new q
        ≡ option_or (get_by_text firsts.old q)
        (if bytes_eq name.now q then Some place else None)) }
{
    if !firsts.contains_key(name) {
        firsts.insert(String::from_str(alloc, name)?, place)?;
    }
    Ok(())
}

/// Adds the name of a heading.
fn add_name(names: &mut Vec<String>, anchor: &Anchor) -> Result<(), AllocError>
    ensures { OnOk result (length names.new.items
        ≡ number_after anchor.now.kind (length names.old.items)) }
{
    match anchor.kind {
        AnchorKind::Html => {}
        AnchorKind::Heading | AnchorKind::Named => names.push(anchor.name.clone()?)?,
    }
    Ok(())
}

/// What the first anchor of each name is, and the names of the headings.
fn firsts_of(alloc: Global, anchors: &[Anchor]) -> Result<(Firsts, Vec<String>), AllocError>
    ensures { IfOk result (λ found. (q : List ℕ)
        → get_by_text found.0 q ≡ first_from 0 anchors.now q) }
{
    let mut firsts: Firsts = HashMap::new(alloc);
    let mut names = Vec::new(alloc);
    for anchor in anchors {
        let place = place_of(anchor.kind, names.len());
        add_first(alloc, &mut firsts, anchor.name.as_str(), place)?;
        add_name(&mut names, anchor)?;
    }
    Ok((firsts, names))
}

/// The heading that an anchor leads to.
fn heading_by(alloc: Global, firsts: &Firsts, name: &str) -> Result<Option<usize>, AllocError>
    ensures { IfOk result (λ number. number ≡ heading_by (get_by_text firsts.now) name.now) }
{
    if name.is_empty() {
        return Ok(None);
    }
    if let Some(place) = firsts.get(name) {
        return Ok(*place);
    }
    let lower = name.to_lowercase(alloc)?;
    match firsts.get(lower.as_str()) {
        None => Ok(None),
        Some(place) => Ok(*place),
    }
}

/// The name of a destination's anchor; empty if it has none.
fn anchor_of(destination: &str) -> &str
    ensures { result.now ≡ anchor_of destination.now }
{
    match destination.split_once('#') {
        None => "",
        Some(parts) => parts.1,
    }
}

/// A link of a page of a tree, which may lead to another page.
#[derive(Clone, Copy)]
struct Way<'t> {
    alloc: Global,
    tree: &'t Tree,
    file: &'t str,
    from: &'t str,
}

impl Way<'_> {
    /// The heading of the other page that a destination leads to, by what its anchors are.
    fn heading(&self, firsts: &Firsts, destination: &str) -> Result<Option<usize>, AllocError>
        ensures { IfOk result (λ number. number ≡ heading_to self.now.tree.now self.now.file.now
            (get_by_text firsts.now) self.now.from.now destination.now) }
    {
        match target_of(self.alloc, self.tree, None, self.from, destination)? {
            None => Ok(None),
            Some((path, _form)) => {
                if path.as_str() != self.file {
                    return Ok(None);
                }
                let name = decoded(self.alloc, anchor_of(destination))?;
                heading_by(self.alloc, firsts, name.as_str())
            }
        }
    }

    /// Whether a destination leads to the heading of this number.
    fn leads(&self, firsts: &Firsts, destination: &str, number: usize) -> Result<bool, AllocError>
        ensures { IfOk result (λ leads. IsTrue leads → heading_to self.now.tree.now
            self.now.file.now (get_by_text firsts.now) self.now.from.now destination.now
            ≡ Some number) }
    {
        match self.heading(firsts, destination)? {
            None => Ok(false),
            Some(found) => Ok(found == number),
        }
    }
}

impl Renaming {
    /// The change of a page's anchors, by the page before it and after it.
    pub fn new(alloc: Global, file: &str, old: &Page, new: &Page) -> Result<Renaming, AllocError>
        ensures { IfOk result (λ renaming.
            IsOf renaming file.now old.now.anchors.items new.now.anchors.items) }
    {
        let (before, _names) = firsts_of(alloc, &old.anchors)?;
        let (after, names) = firsts_of(alloc, &new.anchors)?;
        Ok(Renaming {
            file: String::from_str(alloc, file)?,
            old: before,
            new: after,
            names,
        })
    }

    /// The destination that a link needs, so that it leads to the heading that it led to; `None` if it stays as it is.
    ///
    /// `from` is the path of the link's page. A link that led to no heading of the page stays. It fails if memory runs out, or if
    /// neither the old destination nor the heading's new name leads to that heading.
    pub fn renamed_link(
        &self,
        alloc: Global,
        tree: &Tree,
        from: &str,
        destination: &str,
    ) -> Result<Option<String>, Astray>
        ensures { IfOk result (λ new.
            KeepsHeading tree.now self.now from.now destination.now new) }
    {
        let way = Way {
            alloc,
            tree,
            file: self.file.as_str(),
            from,
        };
        let Some(number) = way.heading(&self.old, destination)? else {
            return Ok(None);
        };
        if way.leads(&self.new, destination, number)? {
            return Ok(None);
        }
        let Some(name) = self.names.get(number) else {
            return Err(Astray::Elsewhere);
        };
        let new = with_anchor(alloc, destination, name.as_str())?;
        if way.leads(&self.new, new.as_str(), number)? {
            return Ok(Some(new));
        }
        Err(Astray::Elsewhere)
    }
}
