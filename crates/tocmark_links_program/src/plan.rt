//! What a call writes: all of it, or nothing.
//!
//! All new texts are there before the first one is written. Files get their new texts one after the other, each as a whole; a
//! path is moved last. After an error the old texts are put back. Meanwhile a file in the root says what is being done, so that
//! a call that is killed leaves a trace, and no second call writes.

ghost use Rattle.std.specs.Prelude.{OnErr, OnOk, string_bytes, true};
ghost use Rattle.tocmark_files.specs.Replaced.{IsGiven, IsGivenNothing};

use crate::fault::Fault;
use crate::root::{Root, joined};
use std::fs::OpenOptions;
use std::io::Write;
use std::{fs, io};
use tocmark_files::place::OpenFile;
use tocmark_files::quoted::in_quotes;
use tocmark_files::replace::{ReplaceError, Replacement};
use tocmark_links::paths::folder_and_name;

/// The name of the file that says what is being done.
pub const MARK: &str = ".tocmark-links.running";

/// A file that gets a new text.
#[derive(Drop)]
pub struct Edit {
    /// Its path in the tree, before anything is moved.
    pub path: String,
    pub old: String,
    pub new: String,
}

/// What is written.
#[derive(Drop)]
pub struct Plan {
    pub edits: Vec<Edit>,
    /// A path in the tree that is moved, and the one that it gets.
    pub way: Option<(String, String)>,
}

/// Makes a folder and those above it, if they aren't there, and adds their paths in the tree to a list. A link is no folder.
fn make_folder(
    rt: &HostRuntime,
    root: &Root,
    folder: &str,
    made: &mut Vec<String>,
) -> io::Result<()> {
    let mut path = String::new(rt.alloc());
    for name in folder.split('/') {
        if name.is_empty() {
            continue;
        }
        let above = root.folder(rt, path.as_str())?;
        path = joined(rt.alloc(), path.as_str(), name)?;
        match above.find(rt, name) {
            Ok(found) if found.is_dir() => {}
            Ok(_) => return Err(io::Error::from(io::ErrorKind::NotADirectory)),
            Err(error) if error.kind() == io::ErrorKind::NotFound => {
                fs::create_dir(rt, above.path_of(rt, name)?.as_str())?;
                made.push(String::from_str(rt.alloc(), path.as_str())?)?;
            }
            Err(error) => return Err(error),
        }
    }
    Ok(())
}

/// Removes a folder in which nothing is.
fn remove_folder(rt: &HostRuntime, root: &Root, path: &str) -> io::Result<()> {
    let (above, name) = folder_and_name(path);
    let above = root.folder(rt, above)?;
    fs::remove_dir(rt, above.path_of(rt, name)?.as_str())
}

/// Renames a path, if nothing has the new one. Both folders are there.
fn rename(rt: &HostRuntime, root: &Root, old: &str, new: &str) -> io::Result<()> {
    let (old_folder, old_name) = folder_and_name(old);
    let (new_folder, new_name) = folder_and_name(new);
    let from = root.folder(rt, old_folder)?;
    let to = root.folder(rt, new_folder)?;
    match to.find(rt, new_name) {
        Ok(_) => return Err(io::Error::from(io::ErrorKind::AlreadyExists)),
        Err(error) if error.kind() == io::ErrorKind::NotFound => {}
        Err(error) => return Err(error),
    }
    let (from, to) = (from.path_of(rt, old_name)?, to.path_of(rt, new_name)?);
    fs::rename(rt, from.as_str(), to.as_str())
}

/// Moves a path to one at which nothing is. After an error no folder stays that it made.
fn move_path(rt: &HostRuntime, root: &Root, old: &str, new: &str) -> io::Result<()> {
    let mut made = Vec::new(rt.alloc());
    let (folder, _name) = folder_and_name(new);
    let mut done = make_folder(rt, root, folder, &mut made);
    if done.is_ok() {
        done = rename(rt, root, old, new);
    }
    if done.is_err() {
        for folder in made.iter().rev() {
            let _ = remove_folder(rt, root, folder.as_str());
        }
    }
    done
}

/// Writes the file that says what is being done. It must not be there.
fn write_mark(rt: &HostRuntime, path: &str, text: &str) -> io::Result<()> {
    let mut options = OpenOptions::new();
    options.write(true).create_new(true);
    let mut file = options.open(rt, path)?;
    let mut done = file.write_all(text.as_bytes());
    if done.is_ok() {
        done = file.sync_all();
    }
    if done.is_err() {
        let _ = fs::remove_file(rt, path);
    }
    done
}

/// The message in the file of an earlier call. Its line has an end once the call may change files.
fn message_in(text: &str) -> &str {
    if text.ends_with('\n') {
        text.trim_end()
    } else {
        "nothing was changed yet"
    }
}

/// Says what is being done in a file of the root, which has this path. It fails if that is there.
fn begin(rt: &HostRuntime, path: &str, text: &str) -> Result<(), Fault> {
    match write_mark(rt, path, text) {
        Ok(()) => Ok(()),
        Err(error) if error.kind() == io::ErrorKind::AlreadyExists => {
            let text = match fs::read_to_string(rt, path) {
                Ok(line) => String::from_str(rt.alloc(), message_in(line.as_str()))?,
                Err(_error) => String::from_str(rt.alloc(), "it cannot be read")?,
            };
            Err(Fault::Running(in_quotes(rt.alloc(), path)?, text))
        }
        Err(error) => {
            let path = in_quotes(rt.alloc(), path)?;
            Err(Fault::NotReplaced(path, ReplaceError::Write(error)))
        }
    }
}

impl Edit {
    /// Gives an open file its new text, if it has the old one.
    fn put_in(&self, rt: &HostRuntime, file: &mut OpenFile) -> Result<(), ReplaceError>
        ensures given { OnOk result (IsGiven (string_bytes self.now.old)
            (string_bytes self.now.new) true file.old file.new) }
        ensures stays { OnErr result (IsGivenNothing file.old file.new) }
    {
        let replacement = Replacement {
            old: self.old.as_str(),
            new: self.new.as_str(),
            syncs: true,
        };
        replacement.put_in(rt, file)
    }

    /// Gives an open file its old text again, if it has the new one.
    fn take_back_in(&self, rt: &HostRuntime, file: &mut OpenFile) -> Result<(), ReplaceError>
        ensures given { OnOk result (IsGiven (string_bytes self.now.new)
            (string_bytes self.now.old) true file.old file.new) }
        ensures stays { OnErr result (IsGivenNothing file.old file.new) }
    {
        let replacement = Replacement {
            old: self.new.as_str(),
            new: self.old.as_str(),
            syncs: true,
        };
        replacement.put_in(rt, file)
    }

    /// Opens its file.
    fn opened(&self, rt: &HostRuntime, root: &Root) -> Result<OpenFile, ReplaceError> {
        root.file(rt, self.path.as_str())
            .map_err(ReplaceError::Read)
    }

    /// Gives the file its new text.
    fn put(&self, rt: &HostRuntime, root: &Root) -> Result<(), ReplaceError> {
        let mut file = self.opened(rt, root)?;
        self.put_in(rt, &mut file)
    }

    /// Gives the file its old text again.
    fn take_back(&self, rt: &HostRuntime, root: &Root) -> Result<(), ReplaceError> {
        let mut file = self.opened(rt, root)?;
        self.take_back_in(rt, &mut file)
    }
}

impl Plan {
    /// Puts back the old texts of the first files, the last of these first, because this path could not be changed. Returns that
    /// fault, or which file keeps its new text.
    fn take_back(&self, rt: &HostRuntime, root: &Root, count: usize, fault: Fault) -> Fault {
        let done = self.edits.get(..count).unwrap_or(&[]);
        for edit in done.iter().rev() {
            if edit.take_back(rt, root).is_err() {
                let path = in_quotes(rt.alloc(), edit.path.as_str());
                return match (path, fault) {
                    (Ok(left), Fault::NotReplaced(path, _)) => Fault::Left(path, left),
                    (Ok(left), Fault::NotMoved(path, _)) => Fault::Left(path, left),
                    (_, fault) => fault,
                };
            }
        }
        fault
    }

    /// Gives all files their new texts, and moves what is to be moved.
    fn write(&self, rt: &HostRuntime, root: &Root) -> Result<(), Fault> {
        for (count, edit) in self.edits.iter().enumerate() {
            if let Err(error) = edit.put(rt, root) {
                let path = in_quotes(rt.alloc(), edit.path.as_str())?;
                let fault = Fault::NotReplaced(path, error);
                return Err(self.take_back(rt, root, count, fault));
            }
        }
        let Some((old, new)) = &self.way else {
            return Ok(());
        };
        if let Err(error) = move_path(rt, root, old.as_str(), new.as_str()) {
            let path = in_quotes(rt.alloc(), old.as_str())?;
            let fault = Fault::NotMoved(path, error);
            return Err(self.take_back(rt, root, self.edits.len(), fault));
        }
        Ok(())
    }

    /// Writes all of it, or nothing. The text says what is being done, in case that the call is killed.
    pub fn carry_out(&self, rt: &HostRuntime, root: &Root, text: &str) -> Result<(), Fault> {
        let mark = root.full(rt.alloc(), MARK)?;
        begin(rt, mark.as_str(), text)?;
        let done = self.write(rt, root);
        let _ = fs::remove_file(rt, mark.as_str());
        done
    }
}
