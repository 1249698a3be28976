//! The configuration of each folder: the nearest file in it or above, what files of EditorConfig say if it asks for them, and
//! whether it belongs to a site of MkDocs. Each file is read once.

use crate::text::text_of;
use std::alloc::{AllocError, AllocFailed, Global};
use std::collections::HashMap;
use std::path::{Path, PathBuf};
use std::{fmt, fs, io};
use tocmark_files::quoted::Quoted;
use tocmark_files::trust::{Caller, Distrust};
use tocmark_settings::{
    Asked, CONFIGURATION_FILE, ConfigError, Configuration, Document, EDITORCONFIG_FILE,
    EditorConfig, Location, SITE_FILE, Said, Settings,
};

/// What is said of a line of a configuration file that isn't UTF-8.
const NOT_UTF8: &str = "the line is not UTF-8";

/// What is said of a file that isn't there.
pub const MISSING: &str = "no such file";

/// Why a call is refused before anything is done.
#[derive(Drop)]
pub enum Refused {
    /// An option of the command line, and what it takes.
    Option(&'static str, &'static str),
    /// Options that don't go together, and why.
    Usage(&'static str),
    /// A configuration file or a list of files, and what is wrong with it.
    File(String, &'static str),
    /// A configuration file or a list that can't be read.
    Unreadable(String, io::Error),
    /// A configuration file or a list of files, a line of it, and what is wrong there.
    Line(String, usize, &'static str),
    /// A configuration or ignore file that was looked for and doesn't count, and why.
    Untrusted(String, Distrust),
    /// A configuration file, and what is wrong in it.
    Wrong(String, ConfigError),
    OutOfMemory,
}

impl From<AllocError> for Refused {
    fn from(_fault: AllocError) -> Refused {
        Refused::OutOfMemory
    }
}

impl<T: Drop> From<AllocFailed<T>> for Refused {
    fn from(_fault: AllocFailed<T>) -> Refused {
        Refused::OutOfMemory
    }
}

impl Refused {
    /// The file that it is about.
    fn path(&self) -> Option<&str> {
        match self {
            Refused::File(path, _) => Some(path.as_str()),
            Refused::Unreadable(path, _) => Some(path.as_str()),
            Refused::Line(path, _, _) => Some(path.as_str()),
            Refused::Untrusted(path, _) => Some(path.as_str()),
            Refused::Wrong(path, _) => Some(path.as_str()),
            _ => None,
        }
    }
}

impl fmt::Display for Refused {
    fn fmt<W: fmt::Write>(&self, f: &mut fmt::Formatter<W>) -> fmt::Result {
        if let Some(path) = self.path() {
            let path = Quoted(path);
            write!(f, "{path}")?;
        }
        match self {
            Refused::Option(option, wanted) => write!(f, "--{option} wants {wanted}"),
            Refused::Usage(why) => f.write_str(why),
            Refused::File(_, why) => write!(f, ": {why}"),
            Refused::Unreadable(_, error) => write!(f, ": cannot be read: {error}"),
            Refused::Line(_, line, why) => write!(f, ":{line}: {why}"),
            Refused::Untrusted(_, why) => write!(f, ": {why}; --config FILE names another one"),
            Refused::Wrong(_, error) => match error.location() {
                Some(Location { line, .. }) => write!(f, ":{line}: {error}"),
                None => write!(f, ": {error}"),
            },
            Refused::OutOfMemory => f.write_str("out of memory"),
        }
    }
}

fn is_absence(error: &io::Error) -> bool {
    let kind = error.kind();
    kind == io::ErrorKind::NotFound || kind == io::ErrorKind::NotADirectory
}

/// The folder in which a file is, as it is named.
pub fn folder_of(path: &str) -> &str {
    match Path::new(path).parent() {
        Some(folder) if !folder.as_str().is_empty() => folder.as_str(),
        _ => ".",
    }
}

/// The path of something in a folder.
pub fn joined(alloc: Global, folder: &str, name: &str) -> Result<String, AllocError> {
    let mut path = String::from_str(alloc, folder)?;
    if !folder.ends_with('/') {
        path.push('/')?;
    }
    path.push_str(name)?;
    Ok(path)
}

/// A path from the root on, without links where it is there.
pub fn whole_path(rt: &HostRuntime, path: &str) -> Result<String, Refused> {
    let whole = match Path::new(path).canonicalize(rt) {
        Ok(whole) => whole,
        Err(error) if error.kind() == io::ErrorKind::OutOfMemory => {
            return Err(Refused::OutOfMemory);
        }
        Err(_) => match std::path::absolute(rt, path) {
            Ok(whole) => whole,
            Err(error) => {
                let path = String::from_str(rt.alloc(), path)?;
                return Err(Refused::Unreadable(path, error));
            }
        },
    };
    Ok(whole.into_string())
}

/// The text of a configuration file that has these bytes.
fn config_text(alloc: Global, path: &str, bytes: Vec<u8>) -> Result<String, Refused> {
    match text_of(bytes) {
        Ok(text) => Ok(text),
        Err(line) => {
            let path = String::from_str(alloc, path)?;
            Err(Refused::Line(path, line, NOT_UTF8))
        }
    }
}

/// The configuration in a file that has these bytes.
fn configuration_in(
    rt: &HostRuntime,
    path: &str,
    bytes: Vec<u8>,
) -> Result<Configuration, Refused> {
    let folder = whole_path(rt, folder_of(path))?;
    let text = config_text(rt.alloc(), path, bytes)?;
    match Configuration::parse(rt.alloc(), text.as_str(), folder.as_str()) {
        Ok(configuration) => Ok(configuration),
        Err(error) => {
            let path = String::from_str(rt.alloc(), path)?;
            Err(Refused::Wrong(path, error))
        }
    }
}

/// The configuration in a file that is named, whoever it belongs to.
fn named_configuration(rt: &HostRuntime, path: &str) -> Result<Configuration, Refused> {
    match fs::read(rt, path) {
        Ok(bytes) => configuration_in(rt, path, bytes),
        Err(error) => {
            let path = String::from_str(rt.alloc(), path)?;
            if is_absence(&error) {
                return Err(Refused::File(path, MISSING));
            }
            Err(Refused::Unreadable(path, error))
        }
    }
}

/// The path and the bytes of a file in a folder, which must be one that counts. `Ok(None)`: it isn't there.
fn file_in(
    rt: &HostRuntime,
    caller: Caller,
    folder: Path<'_>,
    name: &str,
) -> Result<Option<(String, Vec<u8>)>, Refused> {
    let path: PathBuf = folder.join(rt.alloc(), name)?;
    let path = path.into_string();
    match caller.read(rt, path.as_str(), true) {
        Ok(Some(bytes)) => Ok(Some((path, bytes))),
        Ok(None) => Ok(None),
        Err(why) => Err(Refused::Untrusted(path, why)),
    }
}

/// The configuration of a folder itself. `Ok(None)`: it has none.
fn configuration_of(
    rt: &HostRuntime,
    caller: Caller,
    folder: Path<'_>,
) -> Result<Option<Configuration>, Refused> {
    match file_in(rt, caller, folder, CONFIGURATION_FILE)? {
        Some((path, bytes)) => configuration_in(rt, path.as_str(), bytes).map(Some),
        None => Ok(None),
    }
}

/// Whether a folder is the top of a Git repository.
pub fn is_top(rt: &HostRuntime, folder: Path<'_>) -> Result<bool, AllocError> {
    let git: PathBuf = folder.join(rt.alloc(), ".git")?;
    Ok(git.as_path().exists(rt))
}

/// Whether a configuration above a folder can count: not above the top of its Git repository; and outside of one, neither on
/// another file system nor in the folder of another user.
fn goes_on(rt: &HostRuntime, caller: Caller, folder: Path<'_>) -> Result<bool, Refused> {
    let Some(above) = folder.parent() else {
        return Ok(false);
    };
    if is_top(rt, folder)? {
        return Ok(false);
    }
    if caller.is_near(rt, folder.as_str(), above.as_str()) {
        return Ok(true);
    }
    for it in above.ancestors() {
        if is_top(rt, it)? {
            return Ok(true);
        }
    }
    Ok(false)
}

/// What a folder has of EditorConfig.
#[derive(Clone, Copy)]
struct EditorFolder {
    /// The number of its file.
    file: Option<usize>,
    /// Whether no file above it counts.
    is_last: bool,
}

/// The files of EditorConfig that were read, and which folder has which.
#[derive(Drop)]
struct EditorConfigs {
    caller: Caller,
    all: Vec<EditorConfig>,
    by_folder: HashMap<String, EditorFolder>,
}

impl EditorConfigs {
    fn new(rt: &HostRuntime, caller: Caller) -> EditorConfigs {
        EditorConfigs {
            caller,
            all: Vec::new(rt.alloc()),
            by_folder: HashMap::new(rt.alloc()),
        }
    }

    /// Reads the file of a folder, if it has one.
    fn read(&mut self, rt: &HostRuntime, folder: Path<'_>) -> Result<EditorFolder, Refused> {
        let mut read = EditorFolder {
            file: None,
            is_last: false,
        };
        if let Some((path, bytes)) = file_in(rt, self.caller, folder, EDITORCONFIG_FILE)? {
            let text = config_text(rt.alloc(), path.as_str(), bytes)?;
            let config = EditorConfig::parse(rt.alloc(), text.as_str(), folder.as_str())?;
            read.is_last = config.is_root;
            read.file = Some(self.all.len());
            self.all.push(config)?;
        }
        if !read.is_last {
            read.is_last = !goes_on(rt, self.caller, folder)?;
        }
        Ok(read)
    }

    /// What a folder has. It is read once.
    fn folder(&mut self, rt: &HostRuntime, folder: Path<'_>) -> Result<EditorFolder, Refused> {
        if let Some(known) = self.by_folder.get(folder.as_str()) {
            return Ok(*known);
        }
        let read = self.read(rt, folder)?;
        let name = String::from_str(rt.alloc(), folder.as_str())?;
        self.by_folder.insert(name, read)?;
        Ok(read)
    }

    /// What is said of the file with this path in this folder. The nearest file that says something counts.
    fn options_of(&mut self, rt: &HostRuntime, folder: &str, path: &str) -> Result<Said, Refused> {
        let mut said = Said::NOTHING;
        for above in Path::new(folder).ancestors() {
            let EditorFolder { file, is_last } = self.folder(rt, above)?;
            if let Some(file) = file
                && let Some(config) = self.all.get(file)
            {
                said = said.or(config.said_of(rt.alloc(), path)?);
            }
            if is_last {
                break;
            }
        }
        Ok(said)
    }
}

/// The configurations that were read, and which folder has which.
#[derive(Drop)]
pub struct Configurations {
    caller: Caller,
    editors: EditorConfigs,
    /// The first holds where there is no file, or is that of `--config`.
    all: Vec<Configuration>,
    /// The path of the file of each.
    paths: Vec<String>,
    /// Whether the first is for all folders.
    is_one: bool,
    by_folder: HashMap<String, usize>,
    /// Which folders belong to a site of MkDocs.
    sites: HashMap<String, bool>,
    /// The files of MkDocs that were found.
    pub(crate) site_files: Vec<String>,
}

impl Configurations {
    /// The configuration in this file for all folders, or that of each folder if there is no file.
    pub fn new(rt: &HostRuntime, path: Option<&str>) -> Result<Configurations, Refused> {
        let first = match path {
            None => Configuration::new(rt.alloc())?,
            Some(path) => named_configuration(rt, path)?,
        };
        let mut all = Vec::new(rt.alloc());
        all.push(first)?;
        let mut paths = Vec::new(rt.alloc());
        paths.push(String::from_str(rt.alloc(), path.unwrap_or(""))?)?;
        let caller = Caller::new(rt);
        Ok(Configurations {
            caller,
            editors: EditorConfigs::new(rt, caller),
            all,
            paths,
            is_one: path.is_some(),
            by_folder: HashMap::new(rt.alloc()),
            sites: HashMap::new(rt.alloc()),
            site_files: Vec::new(rt.alloc()),
        })
    }

    /// Which configuration a folder has, by its path from the root on.
    pub fn nearest(&mut self, rt: &HostRuntime, folder: &str) -> Result<usize, Refused> {
        if self.is_one {
            return Ok(0);
        }
        let mut nearest = 0usize;
        let mut passed = 0usize;
        for above in Path::new(folder).ancestors() {
            if let Some(known) = self.by_folder.get(above.as_str()) {
                nearest = *known;
                break;
            }
            passed = passed.saturating_add(1);
            if let Some(configuration) = configuration_of(rt, self.caller, above)? {
                nearest = self.all.len();
                self.all.push(configuration)?;
                self.paths
                    .push(joined(rt.alloc(), above.as_str(), CONFIGURATION_FILE)?)?;
                break;
            }
            if !goes_on(rt, self.caller, above)? {
                break;
            }
        }
        self.note(rt, folder, passed, nearest)?;
        Ok(nearest)
    }

    /// Notes which configuration a folder and the next ones above it have, so many in all.
    fn note(
        &mut self,
        rt: &HostRuntime,
        folder: &str,
        count: usize,
        nearest: usize,
    ) -> Result<(), Refused> {
        for above in Path::new(folder).ancestors().take(count) {
            let above = String::from_str(rt.alloc(), above.as_str())?;
            self.by_folder.insert(above, nearest)?;
        }
        Ok(())
    }

    pub(crate) fn get(&self, at: usize) -> Option<&Configuration> {
        self.all.get(at)
    }

    /// The path of the file of a configuration.
    pub(crate) fn path(&self, at: usize) -> &str {
        match self.paths.get(at) {
            Some(path) => path.as_str(),
            None => "",
        }
    }

    /// Whether a folder, by its path from the root on, belongs to a site of MkDocs: its file is there or above. It isn't looked
    /// for if one configuration is for all folders.
    fn is_of_site(&mut self, rt: &HostRuntime, folder: &str) -> Result<bool, Refused> {
        if self.is_one {
            return Ok(false);
        }
        let mut is_of_site = false;
        let mut passed = 0usize;
        for above in Path::new(folder).ancestors() {
            if let Some(known) = self.sites.get(above.as_str()) {
                is_of_site = *known;
                break;
            }
            passed = passed.saturating_add(1);
            if let Some((path, _)) = file_in(rt, self.caller, above, SITE_FILE)? {
                self.site_files.push(path)?;
                is_of_site = true;
                break;
            }
            if !goes_on(rt, self.caller, above)? {
                break;
            }
        }
        for above in Path::new(folder).ancestors().take(passed) {
            let above = String::from_str(rt.alloc(), above.as_str())?;
            self.sites.insert(above, is_of_site)?;
        }
        Ok(is_of_site)
    }

    /// What files of EditorConfig say of the file with this path in this folder, if a configuration asks for them.
    fn editor_options(
        &mut self,
        rt: &HostRuntime,
        at: usize,
        folder: &str,
        path: Option<&str>,
    ) -> Result<Said, Refused> {
        let asked = match self.all.get(at) {
            Some(configuration) => configuration.editorconfig,
            None => Asked::Nothing,
        };
        match path {
            Some(path) if asked != Asked::Nothing => self.editors.options_of(rt, folder, path),
            _ => Ok(Said::NOTHING),
        }
    }

    /// The settings by a configuration, in this folder, of the file with this path, or of a text without a name.
    pub(crate) fn settings(
        &mut self,
        rt: &HostRuntime,
        at: usize,
        folder: &str,
        path: Option<&str>,
    ) -> Result<Settings, Refused> {
        let is_of_site = self.is_of_site(rt, folder)?;
        let document = Document {
            path,
            said: self.editor_options(rt, at, folder, path)?,
            is_of_site,
        };
        match self.all.get(at) {
            Some(configuration) => Ok(configuration.settings_for(rt.alloc(), document)?),
            None => Ok(Settings::new()),
        }
    }
}
