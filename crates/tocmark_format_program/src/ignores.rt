//! The `.gitignore` files that hold in a folder.

use crate::lookup::{Refused, is_top, joined};
use std::alloc::{AllocError, Global};
use std::path::Path;
use tocmark_files::rules::{Entry, Rules};
use tocmark_files::trust::{Caller, Distrust};

/// The rules of a file, and which rules hold above it.
#[derive(Drop)]
struct Level {
    rules: Rules,
    above: Option<usize>,
}

/// All files that were read.
#[derive(Drop)]
pub struct Ignores {
    caller: Caller,
    levels: Vec<Level>,
}

/// The rules of the file of a folder. As Git does, it follows no link. `Ok(None)`: there is no such file.
fn rules_in(rt: &HostRuntime, caller: Caller, folder: &str) -> Result<Option<Rules>, Refused> {
    let path = joined(rt.alloc(), folder, ".gitignore")?;
    let bytes = match caller.read(rt, path.as_str(), false) {
        Ok(Some(bytes)) => bytes,
        Ok(None) => return Ok(None),
        Err(why) => return Err(Refused::Untrusted(path, why)),
    };
    let text = String::from_utf8_lossy(rt.alloc(), &bytes)?;
    let mut rules = Rules::new(rt.alloc(), folder)?;
    match rules.add_lines(rt.alloc(), text.as_str())? {
        Some(line) => Err(Refused::Untrusted(path, Distrust::LongLine(line))),
        None => Ok(Some(rules)),
    }
}

impl Ignores {
    pub fn new(rt: &HostRuntime) -> Ignores {
        Ignores {
            caller: Caller::new(rt),
            levels: Vec::new(rt.alloc()),
        }
    }

    /// Reads the file of a folder, whose path goes from the root on, below what holds there, and says what holds in it.
    /// `Refused::Untrusted` is a file that doesn't count.
    pub fn enter(
        &mut self,
        rt: &HostRuntime,
        folder: &str,
        above: Option<usize>,
    ) -> Result<Option<usize>, Refused> {
        let Some(rules) = rules_in(rt, self.caller, folder)? else {
            return Ok(above);
        };
        let level = self.levels.len();
        self.levels.push(Level { rules, above })?;
        Ok(Some(level))
    }

    /// Reads the files above a folder, up to the top of its repository, if it is in one.
    pub fn enter_above(
        &mut self,
        rt: &HostRuntime,
        folder: &str,
    ) -> Result<Option<usize>, Refused> {
        let mut above = Vec::new(rt.alloc());
        let mut is_found = false;
        for it in Path::new(folder).ancestors() {
            above.push(it)?;
            if is_top(rt, it)? {
                is_found = true;
                break;
            }
        }
        let mut level = None;
        if is_found {
            for it in above.iter().skip(1).rev() {
                level = self.enter(rt, it.as_str(), level)?;
            }
        }
        Ok(level)
    }

    /// Whether what holds in a folder ignores an entry of it.
    pub fn ignore(
        &self,
        alloc: Global,
        level: Option<usize>,
        entry: Entry<'_>,
    ) -> Result<bool, AllocError> {
        let mut next = level;
        for _ in 0..self.levels.len() {
            let Some(at) = next else {
                break;
            };
            let Some(Level { rules, above }) = self.levels.get(at) else {
                break;
            };
            if let Some(verdict) = rules.verdict(alloc, entry)? {
                return Ok(verdict);
            }
            next = *above;
        }
        Ok(false)
    }
}
