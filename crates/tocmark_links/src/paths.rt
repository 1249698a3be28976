//! Paths as values: where a path leads from a folder, and the path from a folder to a place.

ghost use Rattle.std.specs.Prelude.{◌≡◌, if◌then◌else◌, ◌++◌, drop, map, IfOk, IfSome, IfNone, OnOk, string_bytes, Some, None};
ghost use Rattle.std.specs.Option.{option_map};
ghost use Rattle.std.specs.List.{fold};
ghost use Rattle.tocmark_links.specs.Paths.{parts_of, followed, joined, is_up, is_here, gone, begins_at_root, climbed, common, is_next, resolved, place, or_here, between, relative, folder_of, IsPlace};

use std::alloc::{AllocError, Global};

/// The parts of a path, between its slashes.
fn parts_of<'p>(alloc: Global, path: &'p str) -> Result<Vec<&'p str>, AllocError>
    ensures { IfOk result (λ parts. map (λ p. p.now) parts.items ≡ parts_of path.now) }
{
    let mut parts = Vec::new(alloc);
    let mut rest = path;
    while let Some((part, next)) = rest.split_once('/') {
        parts.push(part)?;
        rest = next;
    }
    parts.push(rest)?;
    Ok(parts)
}

/// Adds a part to a path, after a slash if the path isn't empty.
pub(crate) fn push_part(path: &mut String, part: &str) -> Result<(), AllocError>
    ensures { OnOk result (string_bytes path.new ≡ followed (string_bytes path.old) part.now) }
{
    if !path.is_empty() {
        path.push('/')?;
    }
    path.push_str(part)
}

/// Parts as a path, with slashes between them.
fn joined(alloc: Global, parts: &[&str]) -> Result<String, AllocError>
    ensures { IfOk result (λ path. string_bytes path ≡ joined (map (λ p. p.now) parts.now)) }
{
    let mut path = String::new(alloc);
    for part in parts {
        push_part(&mut path, part)?;
    }
    Ok(path)
}

/// Whether a part leads to the folder above.
fn is_up(part: &str) -> bool
    ensures { result ≡ is_up part.now }
{
    part == ".."
}

/// Whether a part leads nowhere else.
fn is_here(part: &str) -> bool
    ensures { result ≡ is_here part.now }
{
    part == "." || part == ""
}

/// Goes one part further from a place. False: there is nothing above the root.
fn go<'p>(place: &mut Vec<&'p str>, part: &'p str) -> Result<bool, AllocError>
    ensures { IfOk result (λ stays. gone (Some (map (λ p. p.now) place.old.items)) part.now
        ≡ (if stays then Some (map (λ p. p.now) place.new.items) else None)) }
{
    if is_up(part) {
        return Ok(place.pop().is_some());
    }
    if !is_here(part) {
        place.push(part)?;
    }
    Ok(true)
}

/// Goes parts further from a place. False: they lead out of the root.
fn go_all<'p>(place: &mut Vec<&'p str>, parts: &[&'p str]) -> Result<bool, AllocError>
    ensures { IfOk result (λ stays.
        fold gone (Some (map (λ p. p.now) place.old.items)) (map (λ p. p.now) parts.now)
        ≡ (if stays then Some (map (λ p. p.now) place.new.items) else None)) }
{
    for part in parts {
        if !go(place, part)? {
            return Ok(false);
        }
    }
    Ok(true)
}

/// Whether a path begins at the root.
fn begins_at_root(path: &str) -> bool
    ensures { result ≡ begins_at_root path.now }
{
    path.as_bytes().first().copied() == Some(b'/')
}

/// Where a path leads from a folder; `None` if it leads out of the root. It begins at the root if it begins with a slash.
///
/// ```
/// assert_eq!(rt; resolved(alloc, "a/b", "../c.md")?.unwrap_or(String::new(alloc)).as_str(), "a/c.md");
/// ```
pub fn resolved<'p>(
    alloc: Global,
    folder: &'p str,
    path: &'p str,
) -> Result<Option<String>, AllocError>
    ensures { IfOk result (λ found.
        option_map string_bytes found ≡ resolved folder.now path.now) }
{
    let mut place = Vec::new(alloc);
    if !begins_at_root(path) {
        let parts = parts_of(alloc, folder)?;
        if !go_all(&mut place, &parts)? {
            return Ok(None);
        }
    }
    let parts = parts_of(alloc, path)?;
    if !go_all(&mut place, &parts)? {
        return Ok(None);
    }
    Ok(Some(joined(alloc, &place)?))
}

/// The parts of a place; none if the path leads out of the root.
fn place<'p>(alloc: Global, path: &'p str) -> Result<Vec<&'p str>, AllocError>
    ensures { IfOk result (λ parts. map (λ p. p.now) parts.items ≡ place path.now) }
{
    let parts = parts_of(alloc, path)?;
    let mut place = Vec::new(alloc);
    if !go_all(&mut place, &parts)? {
        return Ok(Vec::new(alloc));
    }
    Ok(place)
}

/// Whether a part is the first of some parts.
#[tactic(auto, using(crate::proofs::Parts::is_next_first))]
fn is_next(part: &str, parts: &[&str]) -> bool
    ensures { result ≡ is_next part.now (map (λ p. p.now) parts.now) }
{
    match parts.split_first() {
        None => false,
        Some((first, _others)) => *first == part,
    }
}

/// How many parts two places have in common at their front.
fn common(one: &[&str], other: &[&str]) -> usize
    ensures { result ≡ common (map (λ p. p.now) one.now) (map (λ p. p.now) other.now) }
{
    let mut count = 0usize;
    for part in one {
        if !is_next(part, rest(other, count)) {
            return count;
        }
        count = count.saturating_add(1);
    }
    count
}

/// The parts from a place on.
fn rest<'r, 'p>(parts: &'r [&'p str], at: usize) -> &'r [&'p str]
    ensures { result.now ≡ drop at parts.now }
{
    if at <= parts.len() { &parts[at..] } else { &[] }
}

/// Adds `..` for each of some parts.
fn climb<'p>(path: &mut Vec<&'p str>, parts: &[&'p str]) -> Result<(), AllocError>
    ensures { OnOk result (map (λ p. p.now) path.new.items
        ≡ map (λ p. p.now) path.old.items ++ climbed (map (λ p. p.now) parts.now)) }
{
    for _part in parts {
        path.push("..")?;
    }
    Ok(())
}

/// No parts become the part that leads nowhere else.
fn or_here<'p>(parts: &mut Vec<&'p str>) -> Result<(), AllocError>
    ensures { OnOk result (map (λ p. p.now) parts.new.items
        ≡ or_here (map (λ p. p.now) parts.old.items)) }
{
    if parts.is_empty() {
        parts.push(".")?;
    }
    Ok(())
}

/// The parts that lead from one place to another.
fn between<'p>(alloc: Global, from: &[&'p str], to: &[&'p str]) -> Result<Vec<&'p str>, AllocError>
    ensures { IfOk result (λ parts. map (λ p. p.now) parts.items
        ≡ between (map (λ p. p.now) from.now) (map (λ p. p.now) to.now)) }
{
    let shared = common(from, to);
    let mut parts = Vec::new(alloc);
    climb(&mut parts, rest(from, shared))?;
    parts.extend_from_slice(rest(to, shared))?;
    or_here(&mut parts)?;
    Ok(parts)
}

/// The path from a folder to a place: `..` for each folder to leave, and `.` for the folder itself.
///
/// ```
/// assert_eq!(rt; relative(alloc, "a/b", "a/c.md")?.as_str(), "../c.md");
/// ```
pub fn relative<'p>(alloc: Global, folder: &'p str, target: &'p str) -> Result<String, AllocError>
    ensures { IfOk result (λ path. string_bytes path ≡ relative folder.now target.now) }
{
    let from = place(alloc, folder)?;
    let to = place(alloc, target)?;
    let parts = between(alloc, &from, &to)?;
    joined(alloc, &parts)
}

/// A path from a folder to a place leads back to that place.
pub fn relative_leads_back(folder: &str, target: &str)
    ensures { IsPlace folder.now → IsPlace target.now
        → resolved folder.now (relative folder.now target.now) ≡ Some target.now }
{}

/// The folder that a path is in, and its name.
pub fn folder_and_name(path: &str) -> (&str, &str)
    ensures { result.0.now ≡ folder_of path.now }
{
    match path.rsplit_once('/') {
        None => ("", path),
        Some(parts) => parts,
    }
}
