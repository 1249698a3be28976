//! Lines of other files that name a path: the navigation of a site, say. They aren't changed.

use crate::site::{LINKS, Site};
use std::alloc::AllocError;
use std::io;
use tocmark_files::quoted::Quoted;

/// What the names of files end with that are searched.
const ENDINGS: [&str; 9] = [
    ".yml", ".yaml", ".toml", ".json", ".js", ".mjs", ".ts", ".html", ".rst",
];

/// How long a file may be that is searched, in bytes.
const LONGEST: u64 = 1_048_576;

/// Whether a file is searched.
fn is_searched(path: &str) -> bool {
    for ending in &ENDINGS {
        if path.ends_with(*ending) {
            return true;
        }
    }
    false
}

/// Whether a character ends a path in a line.
fn ends_path(c: char) -> bool {
    c.is_whitespace() || "\"'`()[]{}<>,;:=|#?".contains(c)
}

/// Whether a path begins with another one: is it, or is in it.
fn begins_with(path: &str, front: &str) -> bool {
    match path.strip_prefix(front) {
        Some(rest) => rest.is_empty() || rest.starts_with('/'),
        None => false,
    }
}

/// Whether a path in a file names one in the tree, from some folder above that on, with or without `.md`.
fn names(written: &str, old: &str) -> bool {
    let written = written.strip_prefix("./").unwrap_or(written);
    let written = written.strip_prefix('/').unwrap_or(written);
    let stem = old.strip_suffix(".md").unwrap_or(old);
    let mut rest = old;
    for _ in 0..old.len() {
        if begins_with(written, rest) {
            return written.contains('/') || rest.contains('.');
        }
        match rest.split_once('/') {
            Some((_, below)) => rest = below,
            None => break,
        }
    }
    written.contains('/') && stem.ends_with(written) && begins_at_slash(stem, written)
}

/// Whether what ends a path begins after a slash of it, or is all of it.
fn begins_at_slash(path: &str, end: &str) -> bool {
    match path.strip_suffix(end) {
        Some(front) => front.is_empty() || front.ends_with('/'),
        None => false,
    }
}

/// Whether a path can begin after this front of a line: after what ends another one, with `/` or `./` in front of it or without.
fn begins_after(front: &str) -> bool {
    let front = match front.strip_suffix('/') {
        Some(above) => above.strip_suffix('.').unwrap_or(above),
        None => front,
    };
    front.is_empty() || front.ends_with(ends_path)
}

/// Whether a path ends before this rest of a line. A name alone, without an ending, counts only as that of a folder.
fn ends_before(path: &str, rest: &str) -> bool {
    if rest.starts_with('/') {
        return true;
    }
    let is_end = rest.is_empty() || rest.starts_with(ends_path);
    is_end && (path.contains('/') || path.contains('.'))
}

/// Whether a line has a path as a whole, with blanks or signs in it.
fn has_path(line: &str, path: &str) -> bool {
    for (at, _) in line.match_indices(path) {
        let front = line.get(..at).unwrap_or("");
        let rest = line.get(at..).and_then(|rest| rest.strip_prefix(path));
        if begins_after(front) && ends_before(path, rest.unwrap_or("")) {
            return true;
        }
    }
    false
}

/// Whether a line has a path as a whole, from some folder above that on, with or without `.md`.
fn has_whole(line: &str, old: &str) -> bool {
    let mut path = old;
    for _ in 0..old.len() {
        let stem = path.strip_suffix(".md").unwrap_or(path);
        if has_path(line, path) || (stem.contains('/') && has_path(line, stem)) {
            return true;
        }
        match path.split_once('/') {
            Some((_, below)) => path = below,
            None => break,
        }
    }
    false
}

/// Whether a line names a path. A path with what ends others in it, such as a blank, is looked for as a whole.
fn is_named(line: &str, old: &str) -> bool {
    if old.contains(ends_path) {
        return has_whole(line, old);
    }
    for word in line.split(ends_path) {
        if !word.is_empty() && names(word, old) {
            return true;
        }
    }
    false
}

impl Site {
    /// The text of a file of the tree, if it isn't too long. A link is no file.
    fn short_text(&self, rt: &HostRuntime, path: &str) -> io::Result<Option<String>> {
        let file = self.root.file(rt, path)?;
        if file.file.metadata()?.len() > LONGEST {
            return Ok(None);
        }
        Ok(Some(io::read_to_string(rt.alloc(), file.file)?))
    }

    /// Warns of each line of a file that names a path.
    fn warn_of(&self, rt: &HostRuntime, path: &str, old: &str) -> Result<(), AllocError> {
        let Ok(Some(text)) = self.short_text(rt, path) else {
            return Ok(());
        };
        let shown = self.root.shown(rt.alloc(), path)?;
        let (file, name) = (Quoted(shown.as_str()), Quoted(old));
        let mut number = 0usize;
        for line in text.as_str().lines() {
            number = number.saturating_add(1);
            if is_named(line, old) {
                let line = format!(in rt.alloc();
                    "{file}:{number}: warning: seems to name {name}, and stays as it is"
                )?;
                LINKS.complain(&mut rt.stderr(), &line.as_str());
            }
        }
        Ok(())
    }

    /// Warns of each line that names a path in a file which is no page.
    pub fn warn_of_mentions(&self, rt: &HostRuntime, old: &str) -> Result<(), AllocError> {
        for path in &self.others {
            if is_searched(path.as_str()) {
                self.warn_of(rt, path.as_str(), old)?;
            }
        }
        Ok(())
    }
}
