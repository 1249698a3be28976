//! Which anchors change when headings get other words.

ghost use Rattle.std.specs.Prelude.{◌≡◌, ℕ, List, map, IfOk, IfSome, IsTrue, Some, string_bytes};
ghost use Rattle.std.specs.HashMap.{get_by_text};
ghost use Rattle.tocmark_links.specs.Renamed.{heading_names, place_from, renamed, KeepsPlaces};

use crate::anchors::{Anchor, AnchorKind};
use crate::page::Page;
use indexmap::IndexSet;
use std::alloc::{AllocError, Global};
use std::collections::HashMap;

/// The anchors that change, each with its new name.
type Changed = HashMap<String, String>;

/// The names of the headings among some anchors.
fn heading_names<'a>(alloc: Global, anchors: &'a [Anchor]) -> Result<Vec<&'a str>, AllocError>
    ensures { IfOk result (λ names. map (λ n. n.now) names.items ≡ heading_names anchors.now) }
{
    let mut names = Vec::new(alloc);
    for anchor in anchors {
        match anchor.kind {
            AnchorKind::Html => {}
            AnchorKind::Heading | AnchorKind::Named => names.push(anchor.name.as_str())?,
        }
    }
    Ok(names)
}

/// The place of each name, or that of the first one if there are several.
fn places(alloc: Global, names: &[&str]) -> Result<HashMap<String, usize>, AllocError>
    ensures { IfOk result (λ places. (name : List ℕ)
        → get_by_text places name ≡ place_from 0 (map (λ n. n.now) names.now) name) }
{
    let mut places = HashMap::new(alloc);
    for place in (0..names.len()).rev() {
        places.insert(String::from_str(alloc, names[place])?, place)?;
    }
    Ok(places)
}

/// The new name of an anchor.
fn renamed<'n>(changed: &'n Changed, name: &'n str) -> &'n str
    ensures { result.now ≡ renamed changed.now name.now }
{
    match changed.get(name) {
        None => name,
        Some(new) => new.as_str(),
    }
}

/// Whether this is the place of a name.
fn is_at(places: &HashMap<String, usize>, name: &str, place: usize) -> bool
    ensures only { IsTrue result → get_by_text places.now name.now ≡ Some place }
    ensures always { get_by_text places.now name.now ≡ Some place → IsTrue result }
{
    match places.get(name) {
        None => false,
        Some(found) => *found == place,
    }
}

/// Whether a name that has this place has it among the new names, by its new name.
fn keeps_place(
    old_places: &HashMap<String, usize>,
    new_places: &HashMap<String, usize>,
    changed: &Changed,
    name: &str,
    place: usize,
) -> bool
    ensures { IsTrue result → get_by_text old_places.now name.now ≡ Some place
        → get_by_text new_places.now (renamed changed.now name.now) ≡ Some place }
{
    !is_at(old_places, name, place) || is_at(new_places, renamed(changed, name), place)
}

/// Whether each old name that has a place has it among the new names, by its new name.
fn keeps_places(
    alloc: Global,
    old: &[&str],
    new: &[&str],
    changed: &Changed,
) -> Result<bool, AllocError>
    ensures { IfOk result (λ keeps. IsTrue keeps
        → KeepsPlaces changed.now (map (λ n. n.now) old.now) (map (λ n. n.now) new.now)) }
{
    let old_places = places(alloc, old)?;
    let new_places = places(alloc, new)?;
    for place in 0..old.len() {
        if !keeps_place(&old_places, &new_places, changed, old[place], place) {
            return Ok(false);
        }
    }
    Ok(true)
}

/// The anchors that elements of HTML, or headings that name them themselves, have.
fn taken_names(alloc: Global, anchors: &[Anchor]) -> Result<IndexSet<String>, AllocError> {
    let mut taken = IndexSet::new(alloc);
    for anchor in anchors {
        match anchor.kind {
            AnchorKind::Heading => {}
            AnchorKind::Named | AnchorKind::Html => {
                taken.insert(anchor.name.clone()?)?;
            }
        }
    }
    Ok(taken)
}

/// The names that differ from the new ones at their places. `None`: a new one is empty, or is taken.
fn changed_names(
    alloc: Global,
    old: &[&str],
    new: &[&str],
    page: &Page,
) -> Result<Option<Changed>, AllocError> {
    let taken = taken_names(alloc, &page.anchors)?;
    let mut changed = HashMap::new(alloc);
    for (one, other) in old.iter().zip(new) {
        if *one != *other {
            if other.is_empty() || taken.contains(*other) {
                return Ok(None);
            }
            changed.insert(
                String::from_str(alloc, one)?,
                String::from_str(alloc, other)?,
            )?;
        }
    }
    Ok(Some(changed))
}

/// The anchors of headings that change when a page gets another text, each with its new name. The heading that an anchor led to
/// is the one in the same place that it leads to by its new name. `None`: there is an anchor that would lead elsewhere, or a new
/// name is empty, or an element of HTML or another heading's id has it.
pub fn renamed_anchors(
    alloc: Global,
    old: &Page,
    new: &Page,
) -> Result<Option<HashMap<String, String>>, AllocError>
    ensures { IfOk result (λ changed. IfSome changed (λ changed. KeepsPlaces changed
        (heading_names old.now.anchors.items) (heading_names new.now.anchors.items))) }
{
    let old_names = heading_names(alloc, &old.anchors)?;
    let new_names = heading_names(alloc, &new.anchors)?;
    let Some(changed) = changed_names(alloc, &old_names, &new_names, new)? else {
        return Ok(None);
    };
    if keeps_places(alloc, &old_names, &new_names, &changed)? {
        Ok(Some(changed))
    } else {
        Ok(None)
    }
}
