//! The Markdown files below a folder. Links are never followed.

use std::alloc::{AllocError, Global};
use std::fs;
use std::fs::DirEntry;
use tocmark_files::names::is_markdown;

/// How many files are found at most.
const MOST_PAGES: usize = 20_000;

/// How many folders are looked into at most.
const MOST_FOLDERS: usize = 20_000;

/// Folders that are never looked into, as are those whose names begin with a dot.
const PASSED_BY: [&str; 2] = ["node_modules", "target"];

/// What is found so far, by paths from the root on.
#[derive(Drop)]
struct Walk {
    pages: Vec<String>,
    /// The folders, those that are near first. All of them are looked into, one after the other.
    folders: Vec<String>,
}

/// Whether what has this name is left out.
fn is_passed_by(name: &str) -> bool {
    name.starts_with('.') || PASSED_BY.iter().any(|known| *known == name)
}

/// The path of a name in a folder.
fn joined(alloc: Global, folder: &str, name: &str) -> Result<String, AllocError> {
    if folder.is_empty() {
        return String::from_str(alloc, name);
    }
    format!(in alloc; "{folder}/{name}")
}

impl Walk {
    /// Adds an entry of a folder.
    fn add(&mut self, rt: &HostRuntime, folder: &str, entry: &DirEntry) -> Result<(), AllocError> {
        let name = entry.file_name();
        let Ok(found) = entry.metadata() else {
            return Ok(());
        };
        if is_passed_by(name) {
            return Ok(());
        }
        let path = joined(rt.alloc(), folder, name)?;
        if found.is_dir() && self.folders.len() < MOST_FOLDERS {
            self.folders.push(path)?;
        } else if found.is_file() && is_markdown(name) && self.pages.len() < MOST_PAGES {
            self.pages.push(path)?;
        }
        Ok(())
    }

    /// Adds what a folder has. One that can't be read has nothing.
    fn look_into(&mut self, rt: &HostRuntime, root: &str, folder: &str) -> Result<(), AllocError> {
        let full = format!(in rt.alloc(); "{root}/{folder}")?;
        let Ok(entries) = fs::read_dir(rt, full.as_str()) else {
            return Ok(());
        };
        for entry in entries {
            if let Ok(entry) = entry {
                self.add(rt, folder, &entry)?;
            }
        }
        Ok(())
    }
}

/// The paths of the Markdown files below a folder, from there on, in the order of their bytes. It fails if memory runs out.
pub fn pages_below(rt: &HostRuntime, root: &str) -> Result<Vec<String>, AllocError> {
    let mut walk = Walk {
        pages: Vec::new(rt.alloc()),
        folders: Vec::new(rt.alloc()),
    };
    walk.look_into(rt, root, "")?;
    for at in 0..MOST_FOLDERS {
        let Some(folder) = walk.folders.get(at) else {
            break;
        };
        let folder = folder.clone()?;
        walk.look_into(rt, root, folder.as_str())?;
    }
    let Walk { mut pages, .. } = walk;
    pages.sort()?;
    Ok(pages)
}
