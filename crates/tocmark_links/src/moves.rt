//! Moves of files and folders.

ghost use Rattle.std.specs.Prelude.{◌≡◌, IfOk, string_bytes};
ghost use Rattle.std.specs.Option.{option_copied};
ghost use Rattle.tocmark_links.specs.Naming.{placed};
ghost use Rattle.tocmark_links.specs.Paths.{below, is_tail};

use std::alloc::{AllocError, Global};

/// A move of a file, or of a folder with all that is in it.
#[derive(Drop)]
pub struct Moves {
    pub old: String,
    pub new: String,
}

/// Whether nothing is here, or a slash and more.
fn is_tail(path: &str) -> bool
    ensures { result ≡ is_tail path.now }
{
    match path.as_bytes().first() {
        None => true,
        Some(byte) => *byte == b'/',
    }
}

/// What is left of a path after a folder: nothing for the folder itself, or a slash and more. `None`: it isn't in the folder.
pub(crate) fn below<'p>(folder: &str, path: &'p str) -> Option<&'p str>
    ensures { option_copied result ≡ below folder.now path.now }
{
    match path.strip_prefix(folder) {
        None => None,
        Some(rest) => { if is_tail(rest) { Some(rest) } else { None } }
    }
}

impl Moves {
    /// A move from one path to another.
    pub fn new(alloc: Global, old: &str, new: &str) -> Result<Moves, AllocError> {
        Ok(Moves {
            old: String::from_str(alloc, old)?,
            new: String::from_str(alloc, new)?,
        })
    }

    /// Where a file or folder is after the move.
    pub fn place_of(&self, alloc: Global, path: &str) -> Result<String, AllocError>
        ensures { IfOk result (λ place. string_bytes place ≡ placed self.now path.now) }
    {
        match below(self.old.as_str(), path) {
            Some(rest) => {
                let new = self.new.as_str();
                format!(in alloc; "{new}{rest}")
            }
            None => String::from_str(alloc, path),
        }
    }
}
