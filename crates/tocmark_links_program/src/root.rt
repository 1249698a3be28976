//! The root of a tree, and paths in it. A path in the tree has its parts from the root on, joined by `/`; the root's is empty.

use crate::fault::Fault;
use std::alloc::{AllocError, Global};
use std::io::Read;
use std::path::Path;
use std::{fs, io};
use tocmark_files::place::{Identity, OpenFile, OpenFolder, Place};
use tocmark_links::paths::{folder_and_name, relative, resolved};

/// What is wrong with a path that isn't in the tree.
const ELSEWHERE: &str =
    "is not in the same tree as the rest; a tree is a Git repository or else the folder that is named";

/// What is said of an argument that is no path.
const EMPTY: &str = "a path is missing: an argument is empty, or has nothing before #";

/// Why a file isn't opened.
const NOT_REGULAR: &str = "is no regular file";

/// The root of a tree.
#[derive(Drop)]
pub struct Root {
    /// Its path, without links.
    path: String,
    /// The path in the tree of the current folder. `None`: that is outside.
    current: Option<String>,
    /// Whether it is the top of a Git repository.
    pub is_git: bool,
}

/// The path of a name in a folder of a tree.
pub fn joined(alloc: Global, folder: &str, name: &str) -> Result<String, AllocError> {
    let mut path = String::from_str(alloc, folder)?;
    if !folder.is_empty() && !name.is_empty() && !folder.ends_with('/') {
        path.push('/')?;
    }
    path.push_str(name)?;
    Ok(path)
}

/// The rest of a path from a folder on. `None`: it isn't in the folder.
pub fn within<'p>(path: &'p str, folder: &str) -> Option<&'p str> {
    if path == folder {
        return Some("");
    }
    let folder = folder.strip_suffix('/').unwrap_or(folder);
    path.strip_prefix(folder)?.strip_prefix('/')
}

/// A path from the file system's root on, without links in it, but for its last name. What isn't there can't be a link.
fn whole_path(rt: &HostRuntime, path: &str) -> io::Result<String> {
    let is_plain = fs::symlink_metadata(rt, path).is_ok_and(|found| !found.is_symlink());
    if is_plain {
        return Ok(Path::new(path).canonicalize(rt)?.into_string());
    }
    let whole = std::path::absolute(rt, path)?.into_string();
    let (folder, name) = folder_and_name(whole.as_str());
    match Path::new(folder).canonicalize(rt) {
        Ok(folder) => Ok(joined(rt.alloc(), folder.as_str(), name)?),
        Err(_) => Ok(whole),
    }
}

/// The folder at a path or that a file at it is in, from the file system's root on.
fn folder_at(rt: &HostRuntime, path: &str) -> io::Result<String> {
    let whole = whole_path(rt, path)?;
    if fs::metadata(rt, whole.as_str())?.is_dir() {
        return Ok(whole);
    }
    let (folder, _name) = folder_and_name(whole.as_str());
    Ok(String::from_str(rt.alloc(), folder)?)
}

/// The top of the Git repository that a folder is in.
fn top_of(rt: &HostRuntime, folder: &str) -> Result<Option<String>, AllocError> {
    for above in Path::new(folder).ancestors() {
        let mark = joined(rt.alloc(), above.as_str(), ".git")?;
        if fs::symlink_metadata(rt, mark.as_str()).is_ok() {
            return Ok(Some(String::from_str(rt.alloc(), above.as_str())?));
        }
    }
    Ok(None)
}

impl Root {
    /// The root of the tree that the file or folder at a path is in: the top of its Git repository; else the current folder, if
    /// that has it; else the folder itself, or that of the file.
    pub fn of(rt: &HostRuntime, path: &str) -> Result<Root, Fault> {
        if path.is_empty() {
            return Err(Fault::Usage(EMPTY));
        }
        let folder = match folder_at(rt, path) {
            Ok(folder) => folder,
            Err(error) => return Err(Fault::unreadable(rt.alloc(), path, error)),
        };
        let current = match folder_at(rt, ".") {
            Ok(current) => current,
            Err(error) => return Err(Fault::unreadable(rt.alloc(), ".", error)),
        };
        let top = top_of(rt, folder.as_str())?;
        let is_git = top.is_some();
        let path = match top {
            Some(top) => top,
            None if within(folder.as_str(), current.as_str()).is_some() => {
                String::from_str(rt.alloc(), current.as_str())?
            }
            None => folder,
        };
        let current = match within(current.as_str(), path.as_str()) {
            Some(inner) => Some(String::from_str(rt.alloc(), inner)?),
            None => None,
        };
        Ok(Root {
            path,
            current,
            is_git,
        })
    }

    /// The path by which the host finds what has a path in the tree.
    pub fn full(&self, alloc: Global, path: &str) -> Result<String, AllocError> {
        joined(alloc, self.path.as_str(), path)
    }

    /// The full path of the current folder, or of the root if that folder is outside.
    pub fn base(&self, alloc: Global) -> Result<String, AllocError> {
        match &self.current {
            Some(current) => self.full(alloc, current.as_str()),
            None => self.full(alloc, ""),
        }
    }

    /// The path that a message shows: from the current folder on, if that is in the tree.
    pub fn shown(&self, alloc: Global, path: &str) -> Result<String, AllocError> {
        match &self.current {
            Some(current) => relative(alloc, current.as_str(), path),
            None => self.full(alloc, path),
        }
    }

    /// The path in the tree of what a word of the command line names. It need not be there.
    pub fn inner(&self, rt: &HostRuntime, word: &str) -> Result<String, Fault> {
        if word.is_empty() {
            return Err(Fault::Usage(EMPTY));
        }
        match whole_path(rt, word) {
            Ok(whole) => self.inner_of(rt.alloc(), whole.as_str(), word),
            Err(error) => Err(Fault::unreadable(rt.alloc(), word, error)),
        }
    }

    /// The path in the tree of what is at a word of the command line, or of what that leads to if it is a symbolic link.
    pub fn followed(&self, rt: &HostRuntime, word: &str) -> Result<String, Fault> {
        if word.is_empty() {
            return Err(Fault::Usage(EMPTY));
        }
        match Path::new(word).canonicalize(rt) {
            Ok(whole) => self.inner_of(rt.alloc(), whole.into_string().as_str(), word),
            Err(error) => Err(Fault::unreadable(rt.alloc(), word, error)),
        }
    }

    /// The path in the tree of what has this path from the file system's root on, and is named by a word of the command line.
    fn inner_of(&self, alloc: Global, whole: &str, word: &str) -> Result<String, Fault> {
        let Some(inner) = within(whole, self.path.as_str()) else {
            return Err(Fault::path(alloc, word, ELSEWHERE));
        };
        match resolved(alloc, "", inner)? {
            Some(path) => Ok(path),
            None => Err(Fault::path(alloc, word, ELSEWHERE)),
        }
    }

    /// Opens the folder at a path in the tree. No link is followed, so it is below the root.
    pub fn folder(&self, rt: &HostRuntime, path: &str) -> io::Result<OpenFolder> {
        let mut folder = OpenFolder::open(rt, self.path.as_str())?;
        for name in path.split('/') {
            if name.is_empty() {
                continue;
            }
            let found = folder.find(rt, name)?;
            if !found.is_dir() {
                return Err(io::Error::from(io::ErrorKind::NotADirectory));
            }
            let path = folder.path_of(rt, name)?;
            folder = OpenFolder::open_known(rt, path.as_str(), Identity::of(&found))?;
        }
        Ok(folder)
    }

    /// Opens the regular file at a path in the tree. No link is followed, so it is below the root.
    pub fn file(&self, rt: &HostRuntime, path: &str) -> io::Result<OpenFile> {
        let (folder, name) = folder_and_name(path);
        let folder = self.folder(rt, folder)?;
        let found = folder.find(rt, name)?;
        if !found.is_file() {
            return Err(io::Error::new(io::ErrorKind::Other, NOT_REGULAR));
        }
        let full = self.full(rt.alloc(), path)?;
        let place = Place::new(full, folder.identity()?, Identity::of(&found));
        place.open(rt)
    }

    /// What the regular file at a path in the tree has. No link is followed.
    pub fn read(&self, rt: &HostRuntime, path: &str) -> io::Result<Vec<u8>> {
        let mut file = self.file(rt, path)?;
        let mut bytes = Vec::new(rt.alloc());
        file.file.read_to_end(&mut bytes)?;
        Ok(bytes)
    }

    /// Whether a symbolic link is at a path in the tree.
    pub fn is_link(&self, rt: &HostRuntime, path: &str) -> Result<bool, AllocError> {
        let full = self.full(rt.alloc(), path)?;
        Ok(fs::symlink_metadata(rt, full.as_str()).is_ok_and(|found| found.is_symlink()))
    }
}
