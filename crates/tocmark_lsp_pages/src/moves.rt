//! Files and folders that move, and the links that follow them.

use crate::message::Call;
use crate::tree::{Place, path_in};
use serde_json::Value;
use std::alloc::{AllocError, Global};
use std::collections::HashMap;
use tocmark_links::moved::relocated;
use tocmark_links::moves::Moves;
use tocmark_links::paths::folder_and_name;
use tocmark_links::tree::{Led, Tree};

/// The file or folder that a link leads to, whatever its anchor.
fn file_of(led: &Led) -> Option<&str> {
    match led {
        Led::To { path, .. } => Some(path.as_str()),
        Led::NoAnchor { path, .. } => Some(path.as_str()),
        _ => None,
    }
}

/// The moves of several files and folders, none of which is in another one.
#[derive(Drop)]
pub struct AllMoves {
    moves: Vec<Moves>,
    /// The number of each move, by the path that moves.
    numbers: HashMap<String, usize>,
}

impl AllMoves {
    /// No moves.
    pub(crate) fn new(alloc: Global) -> AllMoves {
        AllMoves {
            moves: Vec::new(alloc),
            numbers: HashMap::new(alloc),
        }
    }

    /// Adds a move from one path in a tree to another.
    pub(crate) fn add(&mut self, alloc: Global, old: &str, new: &str) -> Result<(), AllocError> {
        let old_path = String::from_str(alloc, old)?;
        self.numbers.insert(old_path, self.moves.len())?;
        self.moves.push(Moves::new(alloc, old, new)?)?;
        Ok(())
    }

    /// The move of a path, or of a folder that it is in.
    fn of(&self, path: &str) -> Option<&Moves> {
        let mut moved = path;
        for _ in 0..=path.len() {
            if let Some(number) = self.numbers.get(moved) {
                return self.moves.get(*number);
            }
            moved = folder_and_name(moved).0;
            if moved.is_empty() {
                break;
            }
        }
        None
    }

    /// The destination that a link of a page needs after the moves. `None`: it stays.
    pub(crate) fn relocated(
        &self,
        alloc: Global,
        tree: &Tree,
        from: &str,
        destination: &str,
    ) -> Result<Option<String>, AllocError> {
        let led = tree.led_to(from, destination)?;
        let Some(target) = file_of(&led) else {
            return Ok(None);
        };
        match (self.of(from), self.of(target)) {
            (None, None) => Ok(None),
            (None, Some(moves)) => relocated(alloc, tree, moves, from, destination),
            (Some(moves), None) => relocated(alloc, tree, moves, from, destination),
            (Some(own), Some(other)) if own.old.as_str() == other.old.as_str() => {
                relocated(alloc, tree, own, from, destination)
            }
            (Some(own), Some(other)) => relocated_twice(
                alloc,
                tree,
                (own, other),
                from,
                destination,
            ),
        }
    }
}

/// The destination that a link needs after its page moves, and then what it leads to.
fn relocated_twice(
    alloc: Global,
    tree: &Tree,
    (own, other): (&Moves, &Moves),
    from: &str,
    destination: &str,
) -> Result<Option<String>, AllocError> {
    let first = relocated(alloc, tree, own, from, destination)?;
    let home = own.place_of(alloc, from)?;
    let between = match &first {
        Some(first) => first.as_str(),
        None => destination,
    };
    match relocated(alloc, tree, other, home.as_str(), between)? {
        Some(second) => Ok(Some(second)),
        None => Ok(first),
    }
}

/// The path in the tree with a root that a URI names. `None`: it is no file below the root.
fn path_below(
    alloc: Global,
    root: &str,
    uri: Option<&Value>,
) -> Result<Option<String>, AllocError> {
    let Some(uri) = uri.and_then(Value::as_str) else {
        return Ok(None);
    };
    if path_in(alloc, uri)?.is_none() {
        return Ok(None);
    }
    let place = Place::of(alloc, root, uri.trim_end_matches('/'))?;
    if place.root.as_str() != root || place.path.is_empty() {
        return Ok(None);
    }
    Ok(Some(place.path.clone()?))
}

/// The moves below a root that a call names. Those from elsewhere, or to elsewhere, are left out.
pub fn moves_in(alloc: Global, root: &str, call: Call<'_>) -> Result<AllMoves, AllocError> {
    let mut moves = AllMoves::new(alloc);
    let Some(files) = call.at("/files").and_then(Value::as_array) else {
        return Ok(moves);
    };
    for file in files {
        let old = path_below(alloc, root, file.get("oldUri"))?;
        let new = path_below(alloc, root, file.get("newUri"))?;
        if let Some(old) = old
            && let Some(new) = new
        {
            moves.add(alloc, old.as_str(), new.as_str())?;
        }
    }
    Ok(moves)
}
