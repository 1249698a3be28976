//! The settings of a document, as `tocmark-format` finds them: by the nearest `.tocmark.toml`, by files of EditorConfig if that
//! asks for them, and by whether the document belongs to a site of MkDocs.

use std::alloc::{AllocError, AllocFailed, Global};
use std::fmt;
use tocmark_files::rules::Entry;
use tocmark_links::paths::folder_and_name;
use tocmark_lsp_pages::message::{Code, Fault};
use tocmark_lsp_pages::tree::Files;
use tocmark_print::ListIndent;
use tocmark_settings::{
    Asked, CONFIGURATION_FILE, Configuration, Document, EDITORCONFIG_FILE, EditorConfig, Location,
    SITE_FILE, Said, Settings,
};

/// What holds for a document.
#[derive(Clone, Copy)]
pub(crate) struct Configured {
    pub(crate) settings: Settings,
    /// Whether it is one of the files that aren't formatted.
    pub(crate) is_excluded: bool,
}

/// Why the settings of a document aren't known.
#[derive(Drop)]
pub(crate) enum Unknown {
    OutOfMemory,
    /// A file that doesn't count, or in which something is wrong: its path, the line if that is known, and why.
    Wrong(String),
}

/// A file in a folder.
#[derive(Drop)]
struct Found<'p> {
    folder: &'p str,
    path: String,
    text: String,
}

/// What finds the files that say how documents are formatted.
#[derive(Clone, Copy)]
pub(crate) struct Lookup<'a, F: Files> {
    pub(crate) alloc: Global,
    pub(crate) files: &'a F,
}

impl From<AllocError> for Unknown {
    fn from(_fault: AllocError) -> Unknown {
        Unknown::OutOfMemory
    }
}

impl<T: Drop> From<AllocFailed<T>> for Unknown {
    fn from(_fault: AllocFailed<T>) -> Unknown {
        Unknown::OutOfMemory
    }
}

impl Unknown {
    /// Why a request isn't answered.
    pub(crate) fn fault(&self) -> Fault {
        match self {
            Unknown::OutOfMemory => Fault::OutOfMemory,
            Unknown::Wrong(_) => Fault::Refused(
                Code::Failed,
                "the configuration is wrong: a problem of this document says where",
            ),
        }
    }
}

impl<F: Files> Lookup<'_, F> {
    /// Says what is wrong with a file.
    fn wrong<D: fmt::Display>(&self, path: &str, line: Option<usize>, why: &D) -> Unknown {
        let said = match line {
            Some(line) => format!(in self.alloc; "{path}:{line}: {why}"),
            None => format!(in self.alloc; "{path}: {why}"),
        };
        match said {
            Ok(said) => Unknown::Wrong(said),
            Err(_) => Unknown::OutOfMemory,
        }
    }

    /// The file with a name in a folder, if it is there.
    fn found_in<'p>(&self, folder: &'p str, name: &str) -> Result<Option<Found<'p>>, Unknown> {
        let path = format!(in self.alloc; "{folder}/{name}")?;
        let bytes = match self.files.setting(path.as_str()) {
            Ok(Some(bytes)) => bytes,
            Ok(None) => return Ok(None),
            Err(why) => return Err(self.wrong(path.as_str(), None, &why)),
        };
        match String::from_utf8(bytes) {
            Ok(text) => Ok(Some(Found { folder, path, text })),
            Err(_) => Err(self.wrong(path.as_str(), None, &"is not UTF-8")),
        }
    }

    /// The folder above one, if files in it can count: not above the top of a Git repository, nor in the folder of a stranger.
    fn above<'p>(&self, folder: &'p str) -> Result<Option<&'p str>, AllocError> {
        let git = format!(in self.alloc; "{folder}/.git")?;
        if folder.is_empty() || self.files.has(git.as_str()) {
            return Ok(None);
        }
        let above = folder_and_name(folder).0;
        Ok(if self.files.is_near(folder, above) {
            Some(above)
        } else {
            None
        })
    }

    /// The nearest file with a name, in a folder or above.
    fn nearest<'p>(&self, folder: &'p str, name: &str) -> Result<Option<Found<'p>>, Unknown> {
        let mut at = folder;
        for _ in 0..=folder.len() {
            if let Some(found) = self.found_in(at, name)? {
                return Ok(Some(found));
            }
            match self.above(at)? {
                Some(above) => at = above,
                None => break,
            }
        }
        Ok(None)
    }

    /// What files of EditorConfig in a folder and above say of the document with a path. For each key the nearest one counts.
    fn said_of(&self, folder: &str, path: &str) -> Result<Said, Unknown> {
        let mut said = Said::NOTHING;
        let mut at = folder;
        for _ in 0..=folder.len() {
            let Some(found) = self.nearest(at, EDITORCONFIG_FILE)? else {
                break;
            };
            let folder = if found.folder.is_empty() {
                "/"
            } else {
                found.folder
            };
            let config = EditorConfig::parse(self.alloc, found.text.as_str(), folder)?;
            said = said.or(config.said_of(self.alloc, path)?);
            match self.above(found.folder)? {
                Some(above) if !config.is_root => at = above,
                _ => break,
            }
        }
        Ok(said)
    }

    /// The settings of the document with a path. Those of its client count if it has no configuration.
    pub(crate) fn settings_of(&self, path: &str, client: Settings) -> Result<Configured, Unknown> {
        let folder = folder_and_name(path).0;
        let is_of_site = self.nearest(folder, SITE_FILE)?.is_some();
        let Some(found) = self.nearest(folder, CONFIGURATION_FILE)? else {
            let mut settings = client;
            if is_of_site {
                settings.style.list_indent = ListIndent::Four;
            }
            return Ok(Configured {
                settings,
                is_excluded: false,
            });
        };
        let configuration = self.parsed(&found)?;
        self.settings_by(&configuration, path, is_of_site)
    }

    /// The settings of the document with a path by its configuration.
    fn settings_by(
        &self,
        configuration: &Configuration,
        path: &str,
        is_of_site: bool,
    ) -> Result<Configured, Unknown> {
        let said = match configuration.editorconfig {
            Asked::Nothing => Said::NOTHING,
            _ => self.said_of(folder_and_name(path).0, path)?,
        };
        let document = Document {
            path: Some(path),
            said,
            is_of_site,
        };
        Ok(Configured {
            settings: configuration.settings_for(self.alloc, document)?,
            is_excluded: configuration.exclude.cover(self.alloc, Entry::file(path))?,
        })
    }

    /// The configuration that a file is.
    fn parsed(&self, found: &Found<'_>) -> Result<Configuration, Unknown> {
        let folder = if found.folder.is_empty() {
            "/"
        } else {
            found.folder
        };
        match Configuration::parse(self.alloc, found.text.as_str(), folder) {
            Ok(configuration) => Ok(configuration),
            Err(error) => {
                let line = match error.location() {
                    Some(Location { line, .. }) => Some(line),
                    None => None,
                };
                Err(self.wrong(found.path.as_str(), line, &error))
            }
        }
    }
}
