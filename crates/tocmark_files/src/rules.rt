//! Globs of a `.gitignore` file, a configuration or a command line, and what they mean for files and folders.

use crate::glob::Glob;
use std::alloc::{AllocError, Global};

/// What a glob must be, as messages say it.
const CLOSED: &str = "a glob whose brackets and braces are closed";

/// How long a glob may be, in bytes, and how messages say it.
const LONGEST: usize = 4096;

const SHORT: &str = "a glob of at most 4,096 bytes";

/// What a glob must be to match something below a folder.
const NAMED: &str = "a glob for paths below the folder: no name in it is empty, . or ..";

/// What a glob must be to match a file.
const OF_FILES: &str = "a glob for files, without / at its end; docs/** means all below docs";

/// A file or folder.
#[derive(Clone, Copy)]
pub struct Entry<'p> {
    /// Its path from the root on, without links.
    pub path: &'p str,
    pub is_folder: bool,
}

impl<'p> Entry<'p> {
    /// The file with this path.
    pub fn file(path: &'p str) -> Entry<'p> {
        Entry {
            path,
            is_folder: false,
        }
    }
}

/// A glob, and what it is matched with.
#[derive(Drop)]
struct Rule {
    /// The glob as it is written, without the `/` around it.
    text: String,
    glob: Glob,
    /// Whether it takes back what rules before it say.
    is_negated: bool,
    only_folders: bool,
    /// Whether it is matched with the path from the rules' folder on, and not with the name.
    is_anchored: bool,
}

/// Rules for what is in or below a folder. The last one that matches holds.
#[derive(Drop)]
pub struct Rules {
    /// The folder's path from the root on, without links.
    folder: String,
    rules: Vec<Rule>,
}

/// The last part of a path.
pub fn name_of(path: &str) -> &str {
    match path.rsplit_once('/') {
        Some((_, name)) => name,
        None => path,
    }
}

/// A line of `.gitignore` without the blanks at its end, unless a backslash is before the first of them.
fn without_blanks(line: &str) -> &str {
    let line = line.strip_suffix('\r').unwrap_or(line);
    let begin = line.trim_end_matches(' ');
    if begin.ends_with('\\') && begin.len() < line.len() {
        return line.get(..begin.len().saturating_add(1)).unwrap_or(line);
    }
    begin
}

/// What a glob of this key or option must be, if it can't match anything. All but those of `exclude` are for files alone.
fn wanted_of(key: &str, text: &str) -> Option<&'static str> {
    let text = match text.strip_suffix('/') {
        Some(_) if key != "exclude" => return Some(OF_FILES),
        Some(text) => text,
        None => text,
    };
    for name in text.strip_prefix('/').unwrap_or(text).split('/') {
        if name.is_empty() || name == "." || name == ".." {
            return Some(NAMED);
        }
    }
    None
}

/// A rule, whose glob is parsed. `Ok(None)`: it is no glob.
fn rule_of(
    alloc: Global,
    text: &str,
    is_negated: bool,
    is_git: bool,
) -> Result<Option<Rule>, AllocError> {
    let (text, only_folders) = match text.strip_suffix('/') {
        Some(text) => (text, true),
        None => (text, false),
    };
    let is_anchored = text.contains('/');
    let text = text.strip_prefix('/').unwrap_or(text);
    let Some(glob) = Glob::new(alloc, text, is_git)? else {
        return Ok(None);
    };
    Ok(Some(Rule {
        text: String::from_str(alloc, text)?,
        glob,
        is_negated,
        only_folders,
        is_anchored,
    }))
}

impl Rules {
    /// No rules, for this folder.
    pub fn new(alloc: Global, folder: &str) -> Result<Rules, AllocError> {
        Ok(Rules {
            folder: String::from_str(alloc, folder)?,
            rules: Vec::new(alloc),
        })
    }

    /// Adds a glob of this key or option. `Ok(Some(wanted))`: it isn't added, because it must be this.
    pub fn add_glob(
        &mut self,
        alloc: Global,
        key: &str,
        text: &str,
    ) -> Result<Option<&'static str>, AllocError> {
        let text = text.strip_prefix("./").unwrap_or(text);
        if let Some(wanted) = wanted_of(key, text) {
            return Ok(Some(wanted));
        }
        if text.len() > LONGEST {
            return Ok(Some(SHORT));
        }
        match rule_of(alloc, text, false, false)? {
            Some(rule) => {
                self.rules.push(rule)?;
                Ok(None)
            }
            None => Ok(Some(CLOSED)),
        }
    }

    /// Adds a line of `.gitignore`. One that is no glob matches nothing. `Ok(false)`: it isn't added, because it is too long.
    fn add_line(&mut self, alloc: Global, line: &str) -> Result<bool, AllocError> {
        let line = without_blanks(line);
        if line.is_empty() || line.starts_with('#') {
            return Ok(true);
        }
        if line.len() > LONGEST {
            return Ok(false);
        }
        let (text, is_negated) = match line.strip_prefix('!') {
            Some(text) => (text, true),
            None => (line, false),
        };
        if let Some(rule) = rule_of(alloc, text, is_negated, true)? {
            self.rules.push(rule)?;
        }
        Ok(true)
    }

    /// Adds the lines of a `.gitignore` file. `Ok(Some(line))`: this line is too long, and the ones below it aren't added.
    pub fn add_lines(&mut self, alloc: Global, text: &str) -> Result<Option<usize>, AllocError> {
        let text = text.strip_prefix('\u{feff}').unwrap_or(text);
        let mut number = 0usize;
        for line in text.split('\n') {
            number = number.saturating_add(1);
            if !self.add_line(alloc, line)? {
                return Ok(Some(number));
            }
        }
        Ok(None)
    }

    /// A path from the rules' folder on. `None`: it isn't below the folder.
    fn within<'p>(&self, path: &'p str) -> Option<&'p str> {
        let folder = self.folder.as_str();
        path.strip_prefix(folder.strip_suffix('/').unwrap_or(folder))?
            .strip_prefix('/')
    }

    /// What the rules say of an entry: whether they mean it. `Ok(None)`: no rule matches.
    pub fn verdict(&self, alloc: Global, entry: Entry<'_>) -> Result<Option<bool>, AllocError> {
        let name = name_of(entry.path);
        let path = self.within(entry.path);
        for rule in self.rules.iter().rev() {
            if rule.only_folders && !entry.is_folder {
                continue;
            }
            let is_match = match (rule.is_anchored, path) {
                (true, Some(path)) => rule.glob.matches(alloc, path)?,
                (true, None) => false,
                (false, _) => rule.glob.matches(alloc, name)?,
            };
            if is_match {
                return Ok(Some(!rule.is_negated));
            }
        }
        Ok(None)
    }

    /// Whether the rules mean an entry.
    pub fn mean(&self, alloc: Global, entry: Entry<'_>) -> Result<bool, AllocError> {
        Ok(self.verdict(alloc, entry)? == Some(true))
    }

    /// Whether the rules mean an entry, or a folder above it that is below the rules' folder. A folder that isn't below it is
    /// never meant, since it can be the rules' folder itself or one above it.
    pub fn cover(&self, alloc: Global, entry: Entry<'_>) -> Result<bool, AllocError> {
        let path = entry.path;
        let Some(within) = self.within(path) else {
            return if entry.is_folder {
                Ok(false)
            } else {
                self.mean(alloc, entry)
            };
        };
        if self.rules.is_empty() {
            return Ok(false);
        }
        let begin = path.len().saturating_sub(within.len());
        for (at, _slash) in within.match_indices('/') {
            let folder = Entry {
                path: path.get(..begin.saturating_add(at)).unwrap_or(path),
                is_folder: true,
            };
            if self.mean(alloc, folder)? {
                return Ok(true);
            }
        }
        self.mean(alloc, entry)
    }

    /// Whether one of the globs has this name between its slashes.
    pub fn name(&self, name: &str) -> bool {
        for rule in &self.rules {
            for part in rule.text.as_str().split('/') {
                if part == name {
                    return true;
                }
            }
        }
        false
    }
}
