//! Moves of files and folders.

use crate::changes::Reason;
use crate::fault::Fault;
use crate::plan::{Edit, Plan};
use crate::report::Report;
use crate::root::{joined, within};
use crate::site::Site;
use std::alloc::{AllocError, Global};
use std::fs;
use tocmark_links::moves::Moves;
use tocmark_links::paths::folder_and_name;

/// What is said of a path that isn't in the tree.
const MISSING: &str =
    "no such file or folder is in the tree; .gitignore and --exclude leave out some";

/// What is said of a path that is taken.
const TAKEN: &str = "is there already, and nothing is overwritten";

/// What is said of a symbolic link.
const LINK: &str = "is a symbolic link, and only what it leads to can be moved";

/// What is said of a folder that would be in itself.
const IN_ITSELF: &str = "cannot be moved into itself";

/// The edits of files that aren't moved, then those of files in what is moved.
fn moved_last(alloc: Global, edits: Vec<Edit>, old: &str) -> Result<Vec<Edit>, AllocError> {
    let mut first = Vec::new(alloc);
    let mut last = Vec::new(alloc);
    for edit in edits {
        if within(edit.path.as_str(), old).is_some() {
            last.push(edit)?;
        } else {
            first.push(edit)?;
        }
    }
    for edit in last {
        first.push(edit)?;
    }
    Ok(first)
}

impl Site {
    /// The path in the tree that a moved path gets by a word of the command line: below it, if a folder is there, or if a file is
    /// moved and the word ends with a slash. It fails if something has that path.
    fn new_path(&self, rt: &HostRuntime, old: &str, word: &str) -> Result<String, Fault> {
        let path = self.root.inner(rt, word)?;
        let full = self.root.full(rt.alloc(), path.as_str())?;
        let is_folder = fs::symlink_metadata(rt, full.as_str()).is_ok_and(|found| found.is_dir());
        let means_folder = word.ends_with('/') && !self.tree.has_folder(old);
        let new = if is_folder || means_folder {
            joined(rt.alloc(), path.as_str(), folder_and_name(old).1)?
        } else {
            path
        };
        let full = self.root.full(rt.alloc(), new.as_str())?;
        if fs::symlink_metadata(rt, full.as_str()).is_ok() {
            let shown = self.root.shown(rt.alloc(), new.as_str())?;
            return Err(Fault::path(rt.alloc(), shown.as_str(), TAKEN));
        }
        Ok(new)
    }

    /// What is written to move what one word of the command line names to what another one names.
    pub fn move_plan(
        &self,
        rt: &HostRuntime,
        old_word: &str,
        new_word: &str,
        report: &mut Report,
    ) -> Result<Plan, Fault> {
        let old = self.root.inner(rt, old_word)?;
        if old.is_empty() || !self.tree.has(old.as_str()) {
            return Err(Fault::path(rt.alloc(), old_word, MISSING));
        }
        if self.root.is_link(rt, old.as_str())? {
            return Err(Fault::path(rt.alloc(), old_word, LINK));
        }
        let new = self.new_path(rt, old.as_str(), new_word)?;
        if within(new.as_str(), old.as_str()).is_some() {
            return Err(Fault::path(rt.alloc(), old_word, IN_ITSELF));
        }
        let reason = Reason::Moved(Moves::new(rt.alloc(), old.as_str(), new.as_str())?);
        let edits = self.edits(rt, &reason, "", report)?;
        Ok(Plan {
            edits: moved_last(rt.alloc(), edits, old.as_str())?,
            way: Some((old, new)),
        })
    }
}
