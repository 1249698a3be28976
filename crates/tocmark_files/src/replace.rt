//! Replaces a file's text: all of it or nothing.
//!
//! The new text is written to a new file in the same folder, which gets the owner and the permissions of the old one, is
//! synced, and is renamed over it. Until then the old file stays as it is. After an error the new file is removed. Folder and
//! files are reached by their descriptors, so nobody who changes names in between leads the call to another file.
//!
//! The old file keeps its access control list and its extended attributes, which no call here reads: before the renaming it
//! gets a second name, and after it the new text and its own name back. If it can't, the new file keeps the name.

ghost use Rattle.std.specs.Prelude.{◌≡◌, [], ◌∷◌, OnErr, OnOk};
ghost use Rattle.tocmark_files.specs.Replaced.{IsGiven, IsGivenNothing, steps_on};
ghost use Rattle.tocmark_replace.specs.Steps.{step_of};

use crate::place::{Identity, OpenFile, OpenFolder, Place, path_of_open};
use std::fs::{File, Metadata, OpenOptions, Permissions};
use std::io::{Read, Seek, SeekFrom, Write};
use std::os::fd::AsFd;
use std::os::unix::fs::{FileExt, MetadataExt, OpenOptionsExt, PermissionsExt, fchown};
use std::{fs, io};
use thiserror::Error;
use tocmark_replace::ReplaceableFile;
use tocmark_replace::record::{
    FAILED, FOUND, FOUND_OTHER, LEFT, MADE, REMOVED, RENAMED, Record, SYNCED, TORE, WROTE,
};
use tocmark_replace::replace::replace;

/// How many names are tried for the new file.
const TRIES: usize = 1000;

/// What the names of new files end with.
const ENDING: &str = ".tocmark";

/// The permission to write that the owner of a file has.
const OWNER_WRITES: u32 = 0o200;

/// Why a file isn't replaced. It then stays as it was.
#[derive(Debug, Drop, Error)]
pub enum ReplaceError {
    /// The file can't be read.
    #[error("cannot be read: {0}")]
    Read(io::Error),
    /// Its owner may not write it.
    #[error("is read-only")]
    ReadOnly,
    /// The new file can't get the owner and the permissions of the old one.
    #[error("its owner and permissions cannot be kept: {0}")]
    Attributes(io::Error),
    /// It no longer has the old text, or another file has its name.
    #[error("was changed in the meantime")]
    Changed,
    /// The new file can't be made, written or renamed.
    #[error("cannot be written: {0}")]
    Write(io::Error),
}

/// The text of a file, and the one that it gets.
#[derive(Clone, Copy)]
pub struct Replacement<'r> {
    /// What the file has.
    pub old: &'r str,
    /// What it gets.
    pub new: &'r str,
    /// Whether the new file is synced before it is renamed.
    pub syncs: bool,
}

/// The name of the file for which a name of a new file was made.
pub fn replaced_by(name: &str) -> Option<&str> {
    let name = name.strip_prefix('.')?.strip_suffix(ENDING)?;
    let (name, number) = name.rsplit_once('.')?;
    for c in number.chars() {
        if !c.is_ascii_digit() {
            return None;
        }
    }
    if number.is_empty() { None } else { Some(name) }
}

/// The name of the new file that is tried in the given turn. That of turn `TRIES` is the second name of the old file.
fn new_name(rt: &HostRuntime, name: &str, turn: usize) -> io::Result<String> {
    match format!(in rt.alloc(); ".{name}.{turn}{ENDING}") {
        Ok(name) => Ok(name),
        Err(_) => Err(io::Error::from(io::ErrorKind::OutOfMemory)),
    }
}

/// Opens a new file that no call writes any more: each locks its own until it ends, however that comes.
fn open_left(rt: &HostRuntime, folder: &OpenFolder, name: &str) -> io::Result<Option<File>> {
    if !folder.find(rt, name)?.is_file() {
        return Ok(None);
    }
    let path = folder.path_of(rt, name)?;
    let mut options = OpenOptions::new();
    let file = options.read(true).write(true).open(rt, path.as_str())?;
    let is_left = file.try_lock().is_ok() && folder.leads_to(rt, name, &file)?;
    Ok(if is_left { Some(file) } else { None })
}

/// Removes a new file of a folder that an interrupted call of this user left behind, and says whether it did.
fn remove_from(rt: &HostRuntime, folder: &OpenFolder, name: &str) -> io::Result<bool> {
    let Some(_locked) = open_left(rt, folder, name)? else {
        return Ok(false);
    };
    fs::remove_file(rt, folder.path_of(rt, name)?.as_str())?;
    Ok(true)
}

/// Removes a new file that an interrupted call of this user left behind, and says whether it did.
pub fn remove_left(rt: &HostRuntime, place: &Place) -> bool {
    match place.folder(rt) {
        Ok(folder) => remove_from(rt, &folder, place.name()).unwrap_or(false),
        Err(_) => false,
    }
}

/// A new file that only its owner can read, and that is locked. `Ok(None)`: there is one of this name.
fn create(rt: &HostRuntime, folder: &OpenFolder, name: &str) -> io::Result<Option<File>> {
    let mut options = OpenOptions::new();
    options.read(true).write(true).create_new(true).mode(0o600);
    match options.open(rt, folder.path_of(rt, name)?.as_str()) {
        Ok(file) => {
            // A file system without locks has no call that looks for one.
            let _ = file.try_lock();
            Ok(Some(file))
        }
        Err(error) if error.kind() == io::ErrorKind::AlreadyExists => Ok(None),
        Err(error) => Err(error),
    }
}

/// A new file beside a file, by its name there.
#[derive(Drop)]
pub(crate) struct NewFile {
    name: String,
    file: File,
}

/// A new file beside a file of a folder.
fn create_beside(rt: &HostRuntime, folder: &OpenFolder, name: &str) -> io::Result<NewFile> {
    for turn in 0..TRIES {
        let name = new_name(rt, name, turn)?;
        if let Some(file) = create(rt, folder, name.as_str())? {
            return Ok(NewFile { name, file });
        }
        if remove_from(rt, folder, name.as_str()).unwrap_or(false)
            && let Some(file) = create(rt, folder, name.as_str())?
        {
            return Ok(NewFile { name, file });
        }
    }
    Err(io::Error::from(io::ErrorKind::AlreadyExists))
}

/// Gives a new file the owner and the permissions of the old one, but to its group only what all others have: if the old one
/// has an access control list, its group's permissions are the list's mask.
fn keep_attributes(file: &File, old: &Metadata) -> io::Result<()> {
    let new = file.metadata()?;
    if new.uid() != old.uid() || new.gid() != old.gid() {
        fchown(file.as_fd(), Some(old.uid()), Some(old.gid()))?;
    }
    let mode = old.mode();
    file.set_permissions(Permissions::from_mode(mode & (0o7707 | (mode & 7) << 3)))
}

/// Whether an open file still has this text.
fn still_has(rt: &HostRuntime, file: &File, text: &str) -> io::Result<bool> {
    let mut bytes = Vec::new(rt.alloc());
    let mut file = file.try_clone()?;
    file.seek(SeekFrom::Start(0))?;
    file.read_to_end(&mut bytes)?;
    Ok(bytes.as_slice() == text.as_bytes())
}

/// Makes a new file beside a file of a folder, with the owner and the permissions of that file.
fn make_draft(
    rt: &HostRuntime,
    folder: &OpenFolder,
    name: &str,
    file: &File,
    draft: &mut Option<NewFile>,
) -> Result<(), ReplaceError> {
    let metadata = file.metadata().map_err(ReplaceError::Read)?;
    if metadata.mode() & OWNER_WRITES == 0 {
        return Err(ReplaceError::ReadOnly);
    }
    let new = create_beside(rt, folder, name).map_err(ReplaceError::Write)?;
    let kept = keep_attributes(&new.file, &metadata);
    *draft = Some(new);
    kept.map_err(ReplaceError::Attributes)
}

/// Opens a file once more, to write to it, and locks it. `Ok(None)`: it has further names, or another call writes to it.
fn open_sole(rt: &HostRuntime, file: &File) -> io::Result<Option<File>> {
    let identity = Identity::of(&file.metadata()?);
    let path = path_of_open(rt, file)?;
    let mut options = OpenOptions::new();
    let again = options.read(true).write(true).open(rt, path.as_str())?;
    let metadata = again.metadata()?;
    let is_sole = identity.has(&metadata) && metadata.nlink() == 1 && again.try_lock().is_ok();
    Ok(if is_sole { Some(again) } else { None })
}

/// Gives an open file this text and no other, and syncs it if that is wanted.
fn fill(file: &File, text: &str, syncs: bool) -> io::Result<()> {
    file.write_all_at(text.as_bytes(), 0)?;
    file.set_len(text.len() as u64)?;
    if syncs { file.sync_all() } else { Ok(()) }
}

/// The error of a step that needs a new file.
fn no_draft() -> io::Error {
    io::Error::from(io::ErrorKind::NotFound)
}

/// Writes a text to a new file.
fn write_to(draft: &mut Option<NewFile>, text: &str) -> io::Result<()> {
    match draft {
        Some(new) => new.file.write_all(text.as_bytes()),
        None => Err(no_draft()),
    }
}

/// Notes a step by how it ended, with the text that it is about.
fn noted(
    log: &mut Record,
    ended: Result<(), ReplaceError>,
    done: u64,
    failed: u64,
    text: &[u8],
) -> Result<(), ReplaceError>
    ensures ok { OnOk result (log.new.steps ≡ step_of (done ∷ []) text.now ∷ log.old.steps) }
    ensures err { OnErr result (log.new.steps ≡ step_of (failed ∷ []) [] ∷ log.old.steps) }
{
    match ended {
        Ok(()) => {
            log.note(&[done], text);
            Ok(())
        }
        Err(error) => {
            log.note(&[failed], &[]);
            Err(error)
        }
    }
}

impl OpenFile {
    /// Brings the new file to the disk.
    fn sync_draft(&self) -> io::Result<()> {
        match &self.draft {
            Some(new) => new.file.sync_all(),
            None => Err(no_draft()),
        }
    }

    /// Whether it still has its old text and its name, and the new file its name.
    fn is_ready(&self, rt: &HostRuntime, text: &str) -> io::Result<bool> {
        if !still_has(rt, &self.file, text)? || !self.is_in_place(rt)? {
            return Ok(false);
        }
        match &self.draft {
            Some(new) => self.folder.leads_to(rt, new.name.as_str(), &new.file),
            None => Ok(false),
        }
    }

    /// Renames the new file over it.
    fn rename_draft(&self, rt: &HostRuntime) -> io::Result<()> {
        let Some(new) = &self.draft else {
            return Err(no_draft());
        };
        if self.kept.is_none() {
            self.grant()?;
        }
        let from = self.folder.path_of(rt, new.name.as_str())?;
        let to = self.folder.path_of(rt, self.name.as_str())?;
        fs::rename(rt, from.as_str(), to.as_str())
    }

    /// Gives it a second name, and opens it there for writing. `Ok(None)`: it isn't kept.
    fn keep(&self, rt: &HostRuntime) -> io::Result<Option<File>> {
        let second = new_name(rt, self.name.as_str(), TRIES)?;
        let _ = remove_from(rt, &self.folder, second.as_str());
        let Some(file) = open_sole(rt, &self.file)? else {
            return Ok(None);
        };
        let from = self.folder.path_of(rt, self.name.as_str())?;
        let to = self.folder.path_of(rt, second.as_str())?;
        fs::hard_link(rt, from.as_str(), to.as_str())?;
        let leads_to = self.folder.leads_to(rt, second.as_str(), &file);
        if leads_to.unwrap_or(false) {
            return Ok(Some(file));
        }
        fs::remove_file(rt, to.as_str())?;
        Ok(None)
    }

    /// Removes the second name, if it has one. The new file then keeps the name, with all permissions.
    fn forget(&self, rt: &HostRuntime) -> io::Result<()> {
        let Some(file) = &self.kept else {
            return Ok(());
        };
        self.grant()?;
        let second = new_name(rt, self.name.as_str(), TRIES)?;
        if !self.folder.leads_to(rt, second.as_str(), file)? {
            return Ok(());
        }
        fs::remove_file(rt, self.folder.path_of(rt, second.as_str())?.as_str())
    }

    /// Gives the new file all permissions of the old one.
    fn grant(&self) -> io::Result<()> {
        let Some(new) = &self.draft else {
            return Err(no_draft());
        };
        new.file
            .set_permissions(self.file.metadata()?.permissions())
    }

    /// Whether the new file has this text and the name, and the old file the same text and its second name.
    fn is_settled(&self, rt: &HostRuntime, second: &str, text: &str) -> io::Result<bool> {
        let Some(new) = &self.draft else {
            return Ok(false);
        };
        let Some(old) = &self.kept else {
            return Ok(false);
        };
        Ok(
            still_has(rt, old, text)?
                && still_has(rt, &new.file, text)?
                && self.folder.leads_to(rt, second, old)?
                && self.folder.leads_to(rt, self.name.as_str(), &new.file)?,
        )
    }

    /// Gives the old file the text that the new one has under its name, and then that name.
    ///
    /// The name leads to the new file on the disk before the old one changes, and back when the old one is on the disk.
    fn give_back(&self, rt: &HostRuntime, text: &str, syncs: bool) -> io::Result<()> {
        let Some(old) = &self.kept else {
            return Ok(());
        };
        if syncs {
            self.folder.sync()?;
        }
        fill(old, text, syncs)?;
        let second = new_name(rt, self.name.as_str(), TRIES)?;
        if !self.is_settled(rt, second.as_str(), text)? {
            return self.forget(rt);
        }
        let from = self.folder.path_of(rt, second.as_str())?;
        let to = self.folder.path_of(rt, self.name.as_str())?;
        fs::rename(rt, from.as_str(), to.as_str())
    }

    /// Gives it back the name that the new file has, if it has a second one. If that fails, the new file keeps the name.
    fn settle(&self, rt: &HostRuntime, text: &str, syncs: bool) {
        if self.give_back(rt, text, syncs).is_err() {
            let _ = self.forget(rt);
        }
    }

    /// Removes the new file, if there is one.
    fn remove_draft(&self, rt: &HostRuntime) -> io::Result<()> {
        let Some(new) = &self.draft else {
            return Ok(());
        };
        fs::remove_file(rt, self.folder.path_of(rt, new.name.as_str())?.as_str())
    }
}

/// Each step makes the calls of the system that its name says, and notes what they answered. That the system's files are then
/// as it answers, no clause can say.
impl ReplaceableFile for OpenFile {
    type Error = ReplaceError;

    ghost steps = { steps_on };

    fn create(&mut self, rt: &HostRuntime) -> Result<(), ReplaceError> {
        let made = make_draft(
            rt,
            &self.folder,
            self.name.as_str(),
            &self.file,
            &mut self.draft,
        );
        noted(&mut self.log, made, MADE, FAILED, &[])
    }

    fn write(&mut self, _rt: &HostRuntime, text: &str) -> Result<(), ReplaceError> {
        let wrote = write_to(&mut self.draft, text).map_err(ReplaceError::Write);
        noted(&mut self.log, wrote, WROTE, TORE, text.as_bytes())
    }

    fn sync(&mut self, _rt: &HostRuntime) -> Result<(), ReplaceError> {
        let synced = self.sync_draft().map_err(ReplaceError::Write);
        noted(&mut self.log, synced, SYNCED, FAILED, &[])
    }

    fn still_has(&mut self, rt: &HostRuntime, text: &str) -> Result<bool, ReplaceError> {
        match self.is_ready(rt, text) {
            Ok(true) => {
                self.log.note(&[FOUND], text.as_bytes());
                Ok(true)
            }
            Ok(false) => {
                self.log.note(&[FOUND_OTHER], &[]);
                Ok(false)
            }
            Err(error) => {
                self.log.note(&[FAILED], &[]);
                Err(ReplaceError::Read(error))
            }
        }
    }

    fn rename(&mut self, rt: &HostRuntime) -> Result<(), ReplaceError> {
        self.kept = self.keep(rt).unwrap_or(None);
        let renamed = self.rename_draft(rt).map_err(ReplaceError::Write);
        noted(&mut self.log, renamed, RENAMED, FAILED, &[])
    }

    fn remove(&mut self, rt: &HostRuntime) {
        let _ = self.forget(rt);
        self.kept = None;
        let removed = self.remove_draft(rt).map_err(ReplaceError::Write);
        let _ = noted(&mut self.log, removed, REMOVED, LEFT, &[]);
    }
}

/// Opens the regular file at a path, so that its text can be replaced. A link is followed.
///
/// [`ReplaceError::Read`]: there is none, or it can't be read.
pub fn open_to_replace(rt: &HostRuntime, path: &str) -> Result<OpenFile, ReplaceError> {
    let place = Place::find(rt, path).map_err(ReplaceError::Read)?;
    place.open(rt).map_err(ReplaceError::Read)
}

impl<'r> Replacement<'r> {
    /// Gives an open file the new text, if it still has the old one and its name.
    ///
    /// After an error the file stays as it was. [`ReplaceError`] has the causes.
    pub fn put_in(&self, rt: &HostRuntime, file: &mut OpenFile) -> Result<(), ReplaceError>
        ensures ok { OnOk result
            (IsGiven self.now.old.now self.now.new.now self.now.syncs file.old file.new) }
        ensures err { OnErr result (IsGivenNothing file.old file.new) }
    {
        let done = replace(rt, file, self.old, self.new, self.syncs);
        file.settle(rt, self.new, self.syncs);
        file.draft = None;
        file.kept = None;
        match done {
            Ok(true) => Ok(()),
            Ok(false) => Err(ReplaceError::Changed),
            Err(error) => Err(error),
        }
    }
}
