//! The files that say what is formatted, and how: whose they may be, and how long.

use std::alloc::Global;
use std::fs::Metadata;
use std::io::Read;
use std::os::unix::fs::MetadataExt;
use std::{fs, io};
use thiserror::Error;

/// How long such a file may be, in bytes.
const LIMIT: u64 = 1_048_576;

/// Why such a file doesn't count.
#[derive(Debug, Drop, Error)]
pub enum Distrust {
    #[error("cannot be read: {0}")]
    Unreadable(io::Error),
    #[error("is a link to a file that isn't there")]
    Dangling,
    #[error("is no regular file")]
    NotRegular,
    /// It is a file of this user.
    #[error("belongs to user {0}, and only your files and those of root count")]
    Foreign(u32),
    #[error("is longer than 1 MiB")]
    TooLong,
    /// This line of an ignore file is.
    #[error("line {0} is longer than 4,096 bytes")]
    LongLine(usize),
    /// Another file has its name.
    #[error("was replaced while it was opened")]
    Replaced,
}

/// Who runs the program.
#[derive(Clone, Copy)]
pub struct Caller {
    uid: u32,
}

/// Whether an error says that nothing has a name.
fn is_absence(error: &io::Error) -> bool {
    let kind = error.kind();
    kind == io::ErrorKind::NotFound || kind == io::ErrorKind::NotADirectory
}

/// What a file still has, if that isn't too long.
fn rest_of<F: Read + Drop>(alloc: Global, file: F) -> Result<Vec<u8>, Distrust> {
    let mut bytes = Vec::new(alloc);
    let mut file = file.take(LIMIT.saturating_add(1));
    match file.read_to_end(&mut bytes) {
        Ok(_) if bytes.len() as u64 > LIMIT => Err(Distrust::TooLong),
        Ok(_) => Ok(bytes),
        Err(error) => Err(Distrust::Unreadable(error)),
    }
}

impl Caller {
    /// The owner of this process. Where no `/proc` says who that is, only files of root count.
    pub fn new(rt: &HostRuntime) -> Caller {
        let uid = match fs::metadata(rt, "/proc/self") {
            Ok(process) => process.uid(),
            Err(_) => 0,
        };
        Caller { uid }
    }

    /// Whether something belongs to the caller or to root.
    pub fn trusts(self, it: &Metadata) -> bool {
        let owner = it.uid();
        owner == 0 || owner == self.uid
    }

    /// Whether a file of this kind counts.
    fn check(self, file: &Metadata) -> Result<(), Distrust> {
        if !file.is_file() {
            return Err(Distrust::NotRegular);
        }
        if !self.trusts(file) {
            return Err(Distrust::Foreign(file.uid()));
        }
        if file.len() > LIMIT {
            return Err(Distrust::TooLong);
        }
        Ok(())
    }

    /// What the file at a path has, if it counts and is the one that was found there.
    fn read_found(
        self,
        rt: &HostRuntime,
        path: &str,
        found: &Metadata,
    ) -> Result<Vec<u8>, Distrust> {
        self.check(found)?;
        let file = fs::open(rt, path).map_err(Distrust::Unreadable)?;
        let opened = file.metadata().map_err(Distrust::Unreadable)?;
        if opened.dev() != found.dev() || opened.ino() != found.ino() {
            return Err(Distrust::Replaced);
        }
        self.check(&opened)?;
        rest_of(rt.alloc(), file)
    }

    /// What the file has to which a link at a path leads.
    fn read_linked(
        self,
        rt: &HostRuntime,
        path: &str,
        link: &Metadata,
    ) -> Result<Vec<u8>, Distrust> {
        if !self.trusts(link) {
            return Err(Distrust::Foreign(link.uid()));
        }
        match fs::metadata(rt, path) {
            Ok(found) => self.read_found(rt, path, &found),
            Err(error) if is_absence(&error) => Err(Distrust::Dangling),
            Err(error) => Err(Distrust::Unreadable(error)),
        }
    }

    /// What the file at a path has, if it counts. A link is followed or is as if nothing were there. `Ok(None)`: nothing is there.
    pub fn read(
        self,
        rt: &HostRuntime,
        path: &str,
        follows: bool,
    ) -> Result<Option<Vec<u8>>, Distrust> {
        let found = match fs::symlink_metadata(rt, path) {
            Ok(found) => found,
            Err(error) if is_absence(&error) => return Ok(None),
            Err(error) => return Err(Distrust::Unreadable(error)),
        };
        if !found.is_symlink() {
            return self.read_found(rt, path, &found).map(Some);
        }
        if follows {
            self.read_linked(rt, path, &found).map(Some)
        } else {
            Ok(None)
        }
    }

    /// Whether a folder is on the file system of the one in it, and belongs to the caller or to root. One that isn't there has
    /// neither.
    pub fn is_near(self, rt: &HostRuntime, folder: &str, above: &str) -> bool {
        let Ok(above) = fs::metadata(rt, above) else {
            return true;
        };
        match fs::metadata(rt, folder) {
            Ok(folder) => self.trusts(&above) && folder.dev() == above.dev(),
            Err(_) => self.trusts(&above),
        }
    }
}
