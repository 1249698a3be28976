//! Files by the folder that they are in. An open folder stays the same one, whatever others do to its path meanwhile, and a
//! file counts as the one that was found only if its device and inode say so.

ghost use Rattle.std.specs.Prelude.{◌≡◌, [], IfOk};
ghost use Rattle.tocmark_files.specs.Replaced.{steps_on};

use crate::replace::NewFile;
use std::fs::{File, Metadata};
use std::os::fd::AsRawFd;
use std::os::unix::fs::MetadataExt;
use std::path::Path;
use std::{fs, io};
use tocmark_replace::record::Record;

/// Why a file or folder isn't opened that was found before.
const ELSEWHERE: &str = "something else has its name now";

/// Why a file isn't opened.
const NOT_REGULAR: &str = "is no regular file";

/// Which file or folder something is: no other one has both numbers as long as it exists.
#[derive(Clone, Copy)]
pub struct Identity {
    device: u64,
    inode: u64,
}

impl Identity {
    /// The identity of what this was read from.
    pub fn of(metadata: &Metadata) -> Identity {
        Identity {
            device: metadata.dev(),
            inode: metadata.ino(),
        }
    }

    /// Whether this was read from the same file or folder.
    pub fn has(self, metadata: &Metadata) -> bool {
        self.device == metadata.dev() && self.inode == metadata.ino()
    }
}

/// An error with these words.
fn refused(words: &'static str) -> io::Error {
    io::Error::new(io::ErrorKind::Other, words)
}

/// The path of a name in a folder.
fn below(rt: &HostRuntime, folder: &str, name: &str) -> io::Result<String> {
    let mut path = String::from_str(rt.alloc(), folder)?;
    path.push('/')?;
    path.push_str(name)?;
    Ok(path)
}

/// The path of the folder of a file.
fn folder_of(path: &str) -> &str {
    match Path::new(path).parent() {
        Some(folder) if !folder.as_str().is_empty() => folder.as_str(),
        _ => ".",
    }
}

/// The path by which `/proc` leads to an open file or folder.
pub(crate) fn path_of_open(rt: &HostRuntime, file: &File) -> io::Result<String> {
    let number = file.as_raw_fd();
    match format!(in rt.alloc(); "/proc/self/fd/{number}") {
        Ok(path) => Ok(path),
        Err(_) => Err(io::Error::from(io::ErrorKind::OutOfMemory)),
    }
}

/// The path by which the folder is reached that is open as this file: that of its descriptor, or else its own.
fn reach_of(rt: &HostRuntime, file: &File, path: &str) -> io::Result<String> {
    let reach = path_of_open(rt, file)?;
    let identity = Identity::of(&file.metadata()?);
    match fs::metadata(rt, reach.as_str()) {
        Ok(metadata) if identity.has(&metadata) => Ok(reach),
        _ => Ok(String::from_str(rt.alloc(), path)?),
    }
}

/// A folder that is open. What is in it is reached by its descriptor, so no link that anybody puts into its path leads
/// elsewhere. Without `/proc` it is reached by its path.
#[derive(Drop)]
pub struct OpenFolder {
    file: File,
    reach: String,
}

impl OpenFolder {
    /// Opens the folder at a path. A link is followed.
    pub fn open(rt: &HostRuntime, path: &str) -> io::Result<OpenFolder> {
        let file = fs::open(rt, below(rt, path, ".")?.as_str())?;
        let reach = reach_of(rt, &file, path)?;
        Ok(OpenFolder { file, reach })
    }

    /// Opens the folder at a path, if it is this one.
    pub fn open_known(rt: &HostRuntime, path: &str, identity: Identity) -> io::Result<OpenFolder> {
        let folder = OpenFolder::open(rt, path)?;
        if identity.has(&folder.file.metadata()?) {
            Ok(folder)
        } else {
            Err(refused(ELSEWHERE))
        }
    }

    /// Brings the names in it to the disk.
    pub fn sync(&self) -> io::Result<()> {
        self.file.sync_all()
    }

    /// Which folder it is.
    pub fn identity(&self) -> io::Result<Identity> {
        Ok(Identity::of(&self.file.metadata()?))
    }

    /// The path by which it is read.
    pub fn reach(&self) -> &str {
        self.reach.as_str()
    }

    /// The path by which a name in it is reached.
    pub fn path_of(&self, rt: &HostRuntime, name: &str) -> io::Result<String> {
        below(rt, self.reach.as_str(), name)
    }

    /// What a name in it leads to. A link isn't followed.
    pub fn find(&self, rt: &HostRuntime, name: &str) -> io::Result<Metadata> {
        fs::symlink_metadata(rt, self.path_of(rt, name)?.as_str())
    }

    /// Whether a name in it leads to this open file itself.
    pub fn leads_to(&self, rt: &HostRuntime, name: &str, file: &File) -> io::Result<bool> {
        let identity = Identity::of(&self.find(rt, name)?);
        Ok(identity.has(&file.metadata()?))
    }
}

/// A file that was found, and the folder that it was found in.
#[derive(Drop)]
pub struct Place {
    /// A path that led to the file by no link in its last name.
    path: String,
    folder: Identity,
    file: Identity,
}

impl Place {
    /// The place of a file that was found in a folder.
    pub fn new(path: String, folder: Identity, file: Identity) -> Place {
        Place { path, folder, file }
    }

    /// The place of the regular file at a path. A link is followed.
    pub fn find(rt: &HostRuntime, path: &str) -> io::Result<Place> {
        let path = if fs::symlink_metadata(rt, path)?.is_symlink() {
            Path::new(path).canonicalize(rt)?.into_string()
        } else {
            String::from_str(rt.alloc(), path)?
        };
        let name = Path::new(path.as_str()).file_name().unwrap_or("");
        let folder = OpenFolder::open(rt, folder_of(path.as_str()))?;
        let metadata = folder.find(rt, name)?;
        if !metadata.is_file() {
            return Err(refused(NOT_REGULAR));
        }
        let (folder, file) = (folder.identity()?, Identity::of(&metadata));
        Ok(Place { path, folder, file })
    }

    /// Its name in its folder.
    pub fn name(&self) -> &str {
        Path::new(self.path.as_str()).file_name().unwrap_or("")
    }

    /// Opens the folder that it was found in.
    pub fn folder(&self, rt: &HostRuntime) -> io::Result<OpenFolder> {
        OpenFolder::open_known(rt, folder_of(self.path.as_str()), self.folder)
    }

    /// Opens the file that was found, if its name still leads to it.
    pub fn open(&self, rt: &HostRuntime) -> io::Result<OpenFile>
        // No step of a replacement was taken yet.
        ensures { IfOk result (λ file. steps_on file ≡ []) }
    {
        let folder = self.folder(rt)?;
        let name = String::from_str(rt.alloc(), self.name())?;
        if !self.file.has(&folder.find(rt, name.as_str())?) {
            return Err(refused(ELSEWHERE));
        }
        let file = fs::open(rt, folder.path_of(rt, name.as_str())?.as_str())?;
        if !self.file.has(&file.metadata()?) {
            return Err(refused(ELSEWHERE));
        }
        Ok(OpenFile {
            folder,
            name,
            file,
            draft: None,
            kept: None,
            log: Record::new(),
        })
    }
}

/// A file that is open, and its folder.
#[derive(Drop)]
pub struct OpenFile {
    pub folder: OpenFolder,
    /// Its name in the folder.
    pub name: String,
    pub file: File,
    /// The new file that is to take its name, while it is replaced.
    pub(crate) draft: Option<NewFile>,
    /// It, open for writing, while it has a second name.
    pub(crate) kept: Option<File>,
    /// The steps of its replacements.
    pub(crate) log: Record,
}

impl OpenFile {
    /// Whether its name still leads to it.
    pub fn is_in_place(&self, rt: &HostRuntime) -> io::Result<bool> {
        self.folder.leads_to(rt, self.name.as_str(), &self.file)
    }
}
