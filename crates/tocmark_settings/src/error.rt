//! What is wrong in a configuration file, and where.

use std::alloc::{AllocError, AllocFailed};
use std::fmt;
use std::fmt::Write;
use tocmark_files::quoted::Quoted;

/// A place in a text.
#[derive(Clone, Copy)]
pub struct Location {
    /// The line, counted from 1.
    pub line: usize,
    /// The byte in the line, counted from 0.
    pub byte: usize,
}

/// What is wrong in the text of a configuration file. A location is `None` if it isn't found. The message has no location.
#[derive(Drop)]
pub enum ConfigError {
    /// Why it is no TOML, and where that shows.
    NotToml(String, Option<Location>),
    /// A key that names no option there, and where it begins.
    UnknownKey(String, Option<Location>),
    /// A key whose value is none that it takes, where the key begins, and what it takes.
    WrongValue(&'static str, Option<Location>, &'static str),
    OutOfMemory,
}

/// The keys that don't name an option, and that no override has.
pub(crate) const GENERAL: [&str; 4] = ["editorconfig", "exclude", "include", "overrides"];

/// Whether a name is one of these.
pub(crate) fn is_among(names: &[&str], name: &str) -> bool {
    for it in names {
        if *it == name {
            return true;
        }
    }
    false
}

impl Location {
    /// The place after these bytes, which are the front of a text.
    pub fn after(front: &[u8]) -> Location {
        let mut location = Location { line: 1, byte: 0 };
        for byte in front {
            if *byte == b'\n' {
                location.line = location.line.saturating_add(1);
                location.byte = 0;
            } else {
                location.byte = location.byte.saturating_add(1);
            }
        }
        location
    }
}

impl ConfigError {
    /// Where it shows in the text. `None`: that isn't known.
    pub fn location(&self) -> Option<Location> {
        match self {
            ConfigError::NotToml(_, location) => *location,
            ConfigError::UnknownKey(_, location) => *location,
            ConfigError::WrongValue(_, location, _) => *location,
            ConfigError::OutOfMemory => None,
        }
    }
}

impl From<AllocError> for ConfigError {
    fn from(_fault: AllocError) -> ConfigError {
        ConfigError::OutOfMemory
    }
}

impl<T: Drop> From<AllocFailed<T>> for ConfigError {
    fn from(_fault: AllocFailed<T>) -> ConfigError {
        ConfigError::OutOfMemory
    }
}

/// What is wrong, without a location.
impl fmt::Display for ConfigError {
    fn fmt<W: fmt::Write>(&self, f: &mut fmt::Formatter<W>) -> fmt::Result {
        match self {
            ConfigError::NotToml(why, _) => f.write_str(why.as_str()),
            ConfigError::UnknownKey(key, _) => {
                let is_general = is_among(&GENERAL, key.as_str());
                let key = Quoted(key.as_str());
                if is_general {
                    write!(f, "{key} must stand above [[overrides]]")
                } else {
                    write!(f, "there is no option {key}")
                }
            }
            ConfigError::WrongValue(key, _, wanted) => write!(f, "{key} wants {wanted}"),
            ConfigError::OutOfMemory => f.write_str("out of memory"),
        }
    }
}
