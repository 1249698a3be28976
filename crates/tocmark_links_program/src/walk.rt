//! The files and folders of a tree. Links are never followed.

use crate::fault::Fault;
use crate::root::{Root, joined};
use std::alloc::{AllocError, Global};
use std::fs::DirEntry;
use std::{fs, io};
use tocmark_files::names::is_markdown;
use tocmark_files::place::OpenFolder;
use tocmark_files::quoted::in_quotes;
use tocmark_files::rules::{Entry, Rules};
use tocmark_files::trust::{Caller, Distrust};

/// The name of the files that say what Git ignores.
const IGNORE: &str = ".gitignore";

/// Folders that are never looked into.
const PASSED_BY: [&str; 4] = [".git", ".hg", ".svn", "node_modules"];

/// What a tree has, by paths in it.
#[derive(Drop)]
pub struct Files {
    /// The Markdown files that are read.
    pub pages: Vec<String>,
    /// All others, those that are ignored or excluded, and folders that aren't looked into.
    pub others: Vec<String>,
    /// Why folders could not be read.
    pub faults: Vec<Fault>,
}

/// The rules of a `.gitignore` file, and which rules hold above it.
#[derive(Drop)]
struct Level {
    rules: Rules,
    above: Option<usize>,
}

/// A folder that is still to be looked into, and what holds above it.
#[derive(Drop)]
struct Folder {
    path: String,
    level: Option<usize>,
}

/// What is found so far.
#[derive(Drop)]
struct Walk {
    caller: Caller,
    exclude: Rules,
    levels: Vec<Level>,
    todo: Vec<Folder>,
    files: Files,
}

/// Whether a folder with this name is never looked into.
fn is_passed_by(name: &str) -> bool {
    for known in &PASSED_BY {
        if *known == name {
            return true;
        }
    }
    false
}

impl Walk {
    /// Adds the rules of a `.gitignore` file, and returns what holds in its folder.
    fn enter(
        &mut self,
        alloc: Global,
        full: &str,
        bytes: &[u8],
        above: Option<usize>,
    ) -> Result<Result<Option<usize>, Distrust>, AllocError> {
        let text = String::from_utf8_lossy(alloc, bytes)?;
        let mut rules = Rules::new(alloc, full)?;
        if let Some(line) = rules.add_lines(alloc, text.as_str())? {
            return Ok(Err(Distrust::LongLine(line)));
        }
        self.levels.push(Level { rules, above })?;
        Ok(Ok(Some(self.levels.len().saturating_sub(1))))
    }

    /// What holds in an open folder with this full path, or why its `.gitignore` file doesn't count.
    fn level_of(
        &mut self,
        rt: &HostRuntime,
        folder: &OpenFolder,
        full: &str,
        above: Option<usize>,
    ) -> io::Result<Result<Option<usize>, Distrust>> {
        let path = folder.path_of(rt, IGNORE)?;
        match self.caller.read(rt, path.as_str(), false) {
            Ok(Some(bytes)) => Ok(self.enter(rt.alloc(), full, &bytes, above)?),
            Ok(None) => Ok(Ok(above)),
            Err(distrust) => Ok(Err(distrust)),
        }
    }

    /// Passes by a folder whose `.gitignore` file doesn't count.
    fn pass_by(
        &mut self,
        alloc: Global,
        root: &Root,
        path: String,
        distrust: Distrust,
    ) -> Result<(), AllocError> {
        let file = joined(alloc, path.as_str(), IGNORE)?;
        let file = in_quotes(alloc, root.shown(alloc, file.as_str())?.as_str())?;
        self.files.faults.push(Fault::Distrusted(file, distrust))?;
        if !path.is_empty() {
            self.files.others.push(path)?;
        }
        Ok(())
    }

    /// Whether an entry of a folder is excluded, or ignored by what holds there.
    fn leaves_out(
        &self,
        alloc: Global,
        level: Option<usize>,
        entry: Entry<'_>,
    ) -> Result<bool, AllocError> {
        if self.exclude.mean(alloc, entry)? {
            return Ok(true);
        }
        let mut next = level;
        for _ in 0..self.levels.len() {
            let Some(at) = next else {
                break;
            };
            let Some(Level { rules, above }) = self.levels.get(at) else {
                break;
            };
            if let Some(verdict) = rules.verdict(alloc, entry)? {
                return Ok(verdict);
            }
            next = *above;
        }
        Ok(false)
    }

    /// Adds an entry of a folder.
    fn add(
        &mut self,
        rt: &HostRuntime,
        root: &Root,
        folder: &Folder,
        entry: &DirEntry,
    ) -> io::Result<()> {
        let name = entry.file_name();
        let found = entry.metadata()?;
        let path = joined(rt.alloc(), folder.path.as_str(), name)?;
        let full = root.full(rt.alloc(), path.as_str())?;
        let rules_entry = Entry {
            path: full.as_str(),
            is_folder: found.is_dir(),
        };
        let is_left_out = self.leaves_out(rt.alloc(), folder.level, rules_entry)?;
        if found.is_file() && is_markdown(name) && !is_left_out {
            self.files.pages.push(path)?;
        } else if !found.is_dir() || is_left_out || is_passed_by(name) {
            self.files.others.push(path)?;
        } else {
            self.todo.push(Folder {
                path,
                level: folder.level,
            })?;
        }
        Ok(())
    }

    /// Adds what a folder has.
    fn look_into(&mut self, rt: &HostRuntime, root: &Root, folder: Folder) -> io::Result<()> {
        let Folder { path, level } = folder;
        let full = root.full(rt.alloc(), path.as_str())?;
        let shown = root.shown(rt.alloc(), path.as_str())?;
        let opened = root.folder(rt, path.as_str())?;
        let level = match self.level_of(rt, &opened, full.as_str(), level)? {
            Ok(level) => level,
            Err(distrust) => return Ok(self.pass_by(rt.alloc(), root, path, distrust)?),
        };
        let folder = Folder { path, level };
        for entry in fs::read_dir(rt, opened.reach())? {
            let added = match entry {
                Ok(entry) => self.add(rt, root, &folder, &entry),
                Err(error) => Err(error),
            };
            // one name that can't be read hides no other
            if let Err(error) = added {
                let fault = Fault::unreadable(rt.alloc(), shown.as_str(), error);
                self.files.faults.push(fault)?;
            }
        }
        Ok(())
    }
}

/// What a tree has, in the order of the paths' bytes. What is excluded or ignored counts as being there, but isn't read.
pub fn files_of(rt: &HostRuntime, root: &Root, exclude: Rules) -> Result<Files, Fault> {
    let mut walk = Walk {
        caller: Caller::new(rt),
        exclude,
        levels: Vec::new(rt.alloc()),
        todo: Vec::new(rt.alloc()),
        files: Files {
            pages: Vec::new(rt.alloc()),
            others: Vec::new(rt.alloc()),
            faults: Vec::new(rt.alloc()),
        },
    };
    walk.todo.push(Folder {
        path: String::new(rt.alloc()),
        level: None,
    })?;
    for _ in 0..u64::MAX {
        let Some(folder) = walk.todo.pop() else {
            break;
        };
        let shown = root.shown(rt.alloc(), folder.path.as_str())?;
        if let Err(error) = walk.look_into(rt, root, folder) {
            let fault = Fault::unreadable(rt.alloc(), shown.as_str(), error);
            walk.files.faults.push(fault)?;
        }
    }
    let Walk { mut files, .. } = walk;
    files.pages.sort()?;
    files.others.sort()?;
    Ok(files)
}
