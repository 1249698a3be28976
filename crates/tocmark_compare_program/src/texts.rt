//! Texts, and the files below folders.

use crate::arguments::{Place, Text};
use crate::fault::Fault;
use std::alloc::{AllocError, Global};
use std::cmp::Ordering;
use std::fs::DirEntry;
use std::io::Read;
use std::{fs, io};
use tocmark_files::names::is_markdown;

/// A Markdown file below one of two folders or both, by its path from there on.
#[derive(Drop)]
pub struct Shared {
    pub name: String,
    pub is_in_old: bool,
    pub is_in_new: bool,
}

/// What is found below a folder, by paths from there on.
#[derive(Drop)]
struct Walk {
    folders: Vec<String>,
    files: Vec<String>,
}

/// Whether a folder is at a path. A link is followed.
pub fn is_folder(rt: &HostRuntime, text: Text<'_>) -> bool {
    match text.place {
        Place::Input => false,
        Place::Path(path) => fs::metadata(rt, path).is_ok_and(|found| found.is_dir()),
    }
}

fn bytes_of(rt: &HostRuntime, place: Place<'_>) -> io::Result<Vec<u8>> {
    match place {
        Place::Input => {
            let mut bytes = Vec::new(rt.alloc());
            rt.stdin().read_to_end(&mut bytes)?;
            Ok(bytes)
        }
        Place::Path(path) => fs::read(rt, path),
    }
}

/// The line, counted from 1, in which the byte after these is.
fn line_after(bytes: &[u8]) -> usize {
    let mut line = 1usize;
    for byte in bytes {
        if *byte == b'\n' {
            line = line.saturating_add(1);
        }
    }
    line
}

/// Reads a text.
pub fn text_of(rt: &HostRuntime, text: Text<'_>) -> Result<String, Fault> {
    let bytes = match bytes_of(rt, text.place) {
        Ok(bytes) => bytes,
        Err(error) => return Err(Fault::unreadable(rt.alloc(), text.name, error)),
    };
    match String::from_utf8(bytes) {
        Ok(text) => Ok(text),
        Err(error) => {
            let end = error.utf8_error().valid_up_to();
            let line = line_after(error.as_bytes().get(..end).unwrap_or(&[]));
            Err(Fault::not_utf8(rt.alloc(), text.name, line))
        }
    }
}

/// The path of what has this name in a folder, and of the folder itself, if the name is empty.
pub fn joined(alloc: Global, folder: &str, name: &str) -> Result<String, AllocError> {
    let mut path = String::from_str(alloc, folder)?;
    if !folder.is_empty() && !name.is_empty() && !folder.ends_with('/') {
        path.push('/')?;
    }
    path.push_str(name)?;
    Ok(path)
}

impl Walk {
    /// Adds something that is found in a folder. Links and hidden names are passed over.
    fn add(&mut self, rt: &HostRuntime, folder: &str, entry: &DirEntry) -> io::Result<()> {
        let name = entry.file_name();
        if name.starts_with('.') {
            return Ok(());
        }
        let found = entry.metadata()?;
        let path = joined(rt.alloc(), folder, name)?;
        if found.is_dir() {
            self.folders.push(path)?;
        } else if found.is_file() && is_markdown(name) {
            self.files.push(path)?;
        }
        Ok(())
    }

    /// Adds what a folder has, which has this path below the root.
    fn look_into(&mut self, rt: &HostRuntime, root: &str, folder: &str) -> io::Result<()> {
        let path = joined(rt.alloc(), root, folder)?;
        for entry in fs::read_dir(rt, path.as_str())? {
            self.add(rt, folder, &entry?)?;
        }
        Ok(())
    }
}

/// The Markdown files below a folder, by their paths from there on.
fn files_of(rt: &HostRuntime, root: &str) -> Result<Vec<String>, Fault> {
    let mut walk = Walk {
        folders: Vec::new(rt.alloc()),
        files: Vec::new(rt.alloc()),
    };
    walk.folders.push(String::new(rt.alloc()))?;
    for _ in 0..u64::MAX {
        let Some(folder) = walk.folders.pop() else {
            break;
        };
        if let Err(error) = walk.look_into(rt, root, folder.as_str()) {
            let path = joined(rt.alloc(), root, folder.as_str())?;
            return Err(Fault::unreadable(rt.alloc(), path.as_str(), error));
        }
    }
    let Walk { files, .. } = walk;
    Ok(files)
}

fn by_name(one: &Shared, other: &Shared) -> Ordering {
    one.name.cmp(&other.name)
}

/// The Markdown files below two folders, in the order of their paths' bytes, each once.
pub fn files_below(rt: &HostRuntime, old: &str, new: &str) -> Result<Vec<Shared>, Fault> {
    let mut all = Vec::new(rt.alloc());
    for name in files_of(rt, old)? {
        all.push(Shared {
            name,
            is_in_old: true,
            is_in_new: false,
        })?;
    }
    for name in files_of(rt, new)? {
        all.push(Shared {
            name,
            is_in_old: false,
            is_in_new: true,
        })?;
    }
    all.sort_by(by_name)?;
    let mut files: Vec<Shared> = Vec::new(rt.alloc());
    for file in all {
        match files.last_mut() {
            Some(last) if last.name == file.name => {
                last.is_in_old = true;
                last.is_in_new = true;
            }
            _ => files.push(file)?,
        }
    }
    Ok(files)
}
