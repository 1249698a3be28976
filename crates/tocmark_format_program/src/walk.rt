//! The files below a folder.

use crate::fault::Fault;
use crate::lookup::{Refused, joined, whole_path};
use crate::search::{Failure, Left, Search, Target};
use std::cmp::Ordering;
use std::fs::DirEntry;
use std::{fs, io};
use tocmark_files::names::is_markdown;
use tocmark_files::place::{Identity, OpenFolder, Place};
use tocmark_files::replace::replaced_by;
use tocmark_files::rules::Entry;

/// A folder that is still to be searched.
#[derive(Drop)]
struct Folder {
    /// The path as it is shown.
    path: String,
    /// The path from the root on, without links.
    whole: String,
    /// Which folder was found.
    identity: Identity,
    /// What is ignored in it by the folders above.
    ignores: Option<usize>,
}

/// What holds in a folder.
#[derive(Clone, Copy)]
struct Scope<'f> {
    path: &'f str,
    whole: &'f str,
    identity: Identity,
    configuration: usize,
    ignores: Option<usize>,
}

/// Something that is found in a folder.
#[derive(Drop)]
struct Item {
    /// The path as it is shown.
    path: String,
    /// The path from the root on, without links.
    whole: String,
    identity: Identity,
}

/// The files found below a folder, and the folders that are still to be searched.
#[derive(Drop)]
struct Walk {
    folders: Vec<Folder>,
    targets: Vec<Target>,
    /// Whether a file is found, even if it was found before.
    has_files: bool,
}

impl Walk {
    /// Adds a folder that is still to be searched.
    fn add_folder(&mut self, item: Item, ignores: Option<usize>) -> Result<(), Refused> {
        let Item {
            path,
            whole,
            identity,
        } = item;
        self.folders.push(Folder {
            path,
            whole,
            identity,
            ignores,
        })?;
        Ok(())
    }
}

fn by_path(one: &Target, other: &Target) -> Ordering {
    one.path.cmp(&other.path)
}

/// Why a folder's entry can't be looked at. Only a name that isn't UTF-8 is no valid one here.
fn entry_fault(error: io::Error) -> Fault {
    if error.kind() == io::ErrorKind::InvalidFilename {
        Fault::NameWithin
    } else {
        Fault::Read(error)
    }
}

/// Which folder a path leads to. A link is followed.
fn identity_of(rt: &HostRuntime, path: &str) -> io::Result<Identity> {
    OpenFolder::open(rt, path)?.identity()
}

impl Search {
    /// Adds the files below a folder that is named, in the order of their paths' bytes.
    pub(crate) fn add_below(&mut self, rt: &HostRuntime, path: &str) -> Result<(), Refused> {
        let identity = match identity_of(rt, path) {
            Ok(identity) => identity,
            Err(error) => return self.fail(rt, path, Fault::Read(error)),
        };
        let whole = whole_path(rt, path)?;
        if let Some(by) = self.folder_excluder(rt, whole.as_str())? {
            return self.exclude(rt, path, by);
        }
        let Some(ignores) = self.ignores_above(rt, whole.as_str())? else {
            return Ok(());
        };
        let mut walk = Walk {
            folders: Vec::new(rt.alloc()),
            targets: Vec::new(rt.alloc()),
            has_files: false,
        };
        let failures = self.found.failures.len();
        let item = Item {
            path: String::from_str(rt.alloc(), path)?,
            whole,
            identity,
        };
        walk.add_folder(item, ignores)?;
        self.walk(rt, &mut walk)?;
        let Walk {
            targets,
            has_files,
            ..
        } = walk;
        self.add_sorted(targets)?;
        if !has_files && self.found.failures.len() == failures {
            self.found.empty.push(String::from_str(rt.alloc(), path)?)?;
        }
        Ok(())
    }

    /// Searches the folders that are still to be searched, and those that are found in them.
    fn walk(&mut self, rt: &HostRuntime, walk: &mut Walk) -> Result<(), Refused> {
        for _ in 0..u64::MAX {
            let Some(folder) = walk.folders.pop() else {
                break;
            };
            self.look_into(rt, walk, &folder)?;
        }
        Ok(())
    }

    /// Adds texts in the order of their paths' bytes.
    fn add_sorted(&mut self, targets: Vec<Target>) -> Result<(), Refused> {
        let mut targets = targets;
        targets.sort_by(by_path)?;
        for target in targets {
            self.found.targets.push(target)?;
        }
        Ok(())
    }

    /// What is ignored. `Ok(None)`: a file that says so doesn't count, which is noted.
    fn counted(
        &mut self,
        entered: Result<Option<usize>, Refused>,
    ) -> Result<Option<Option<usize>>, Refused> {
        match entered {
            Ok(ignores) => Ok(Some(ignores)),
            Err(Refused::Untrusted(path, why)) => {
                let fault = Fault::Ignores(why);
                self.found.failures.push(Failure { path, fault })?;
                Ok(None)
            }
            Err(refused) => Err(refused),
        }
    }

    /// What is ignored in a folder by those above it.
    fn ignores_above(
        &mut self,
        rt: &HostRuntime,
        whole: &str,
    ) -> Result<Option<Option<usize>>, Refused> {
        if !self.respects_ignores() {
            return Ok(Some(None));
        }
        let entered = self.ignores.enter_above(rt, whole);
        self.counted(entered)
    }

    /// What is ignored in a folder.
    fn ignores_in(
        &mut self,
        rt: &HostRuntime,
        folder: &Folder,
    ) -> Result<Option<Option<usize>>, Refused> {
        if !self.respects_ignores() {
            return Ok(Some(None));
        }
        let whole = folder.whole.as_str();
        let entered = self.ignores.enter(rt, whole, folder.ignores);
        self.counted(entered)
    }

    /// Adds the entries of a folder.
    fn look_into(
        &mut self,
        rt: &HostRuntime,
        walk: &mut Walk,
        folder: &Folder,
    ) -> Result<(), Refused> {
        let path = folder.path.as_str();
        let opened = match OpenFolder::open_known(rt, path, folder.identity) {
            Ok(opened) => opened,
            Err(error) => return self.fail(rt, path, Fault::Read(error)),
        };
        let entries = match fs::read_dir(rt, opened.reach()) {
            Ok(entries) => entries,
            Err(error) => return self.fail(rt, path, Fault::Read(error)),
        };
        let whole = folder.whole.as_str();
        let Some(ignores) = self.ignores_in(rt, folder)? else {
            return Ok(());
        };
        let configuration = self.nearest(rt, whole)?;
        let scope = Scope {
            path,
            whole,
            identity: folder.identity,
            configuration,
            ignores,
        };
        for entry in entries {
            match entry {
                Ok(entry) => self.look_at(rt, walk, scope, &entry)?,
                Err(error) => self.fail(rt, path, entry_fault(error))?,
            }
        }
        Ok(())
    }

    /// Adds an entry of a folder. Links are left out, so that no path goes in a circle or leaves the folder.
    fn look_at(
        &mut self,
        rt: &HostRuntime,
        walk: &mut Walk,
        scope: Scope<'_>,
        entry: &DirEntry,
    ) -> Result<(), Refused> {
        let name = entry.file_name();
        let is_left = replaced_by(name).is_some_and(is_markdown);
        if !is_left && self.passes_by(scope.configuration, name) {
            return Ok(());
        }
        let path = joined(rt.alloc(), scope.path, name)?;
        let metadata = match entry.metadata() {
            Ok(metadata) => metadata,
            Err(error) => return self.fail(rt, path.as_str(), Fault::Read(error)),
        };
        let item = Item {
            path,
            whole: joined(rt.alloc(), scope.whole, name)?,
            identity: Identity::of(&metadata),
        };
        if is_left {
            self.add_left(rt, scope, item)
        } else if metadata.is_file() {
            self.look_at_file(rt, walk, scope, item)
        } else if metadata.is_dir() && self.is_walked(rt, scope, item.whole.as_str(), true)? {
            walk.add_folder(item, scope.ignores)
        } else {
            Ok(())
        }
    }

    /// Adds a file of a folder that looks as if an interrupted call left it after.
    fn add_left(&mut self, rt: &HostRuntime, scope: Scope<'_>, item: Item) -> Result<(), Refused> {
        let Item { path, identity, .. } = item;
        let place = Place::new(
            String::from_str(rt.alloc(), path.as_str())?,
            scope.identity,
            identity,
        );
        self.found.left_behind.push(Left { path, place })?;
        Ok(())
    }

    /// Adds a file of a folder, if it is one of those that are formatted.
    fn look_at_file(
        &mut self,
        rt: &HostRuntime,
        walk: &mut Walk,
        scope: Scope<'_>,
        item: Item,
    ) -> Result<(), Refused> {
        let whole = item.whole.as_str();
        let is_found = self.includes(rt, scope.configuration, whole)?
            && self.is_walked(rt, scope, whole, false)?;
        if !is_found {
            return Ok(());
        }
        walk.has_files = true;
        let Item {
            path,
            whole,
            identity,
        } = item;
        let place = Place::new(
            String::from_str(rt.alloc(), path.as_str())?,
            scope.identity,
            identity,
        );
        if let Some(target) = self.target(rt, scope.configuration, path.as_str(), whole, place)? {
            walk.targets.push(target)?;
        }
        Ok(())
    }

    /// Whether something in a folder is neither excluded nor ignored.
    fn is_walked(
        &self,
        rt: &HostRuntime,
        scope: Scope<'_>,
        path: &str,
        is_folder: bool,
    ) -> Result<bool, Refused> {
        let entry = Entry { path, is_folder };
        if self.excludes(rt, scope.configuration, entry)? {
            return Ok(false);
        }
        Ok(!self.ignores.ignore(rt.alloc(), scope.ignores, entry)?)
    }
}
