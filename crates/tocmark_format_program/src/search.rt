//! Which texts a call formats, and with which settings.

use crate::arguments::Choice;
use crate::fault::Fault;
use crate::ignores::Ignores;
use crate::lookup::{Configurations, Refused, folder_of, joined, whole_path};
use std::collections::{HashMap, HashSet};
use std::{fs, io};
use tocmark_files::names::is_markdown;
use tocmark_files::place::Place;
use tocmark_files::rules::{Entry, Rules, name_of};
use tocmark_settings::{Settings, set_all};

/// Where a text comes from, and what becomes of it.
#[derive(Drop)]
pub enum Origin {
    /// The file that was found here, whatever has its name later.
    File(Place),
    Input,
    /// Standard input that is excluded, by the name that it has.
    ExcludedInput,
}

/// A text that a call formats.
#[derive(Drop)]
pub struct Target {
    /// The path as it is named, or `-`.
    pub path: String,
    pub origin: Origin,
    pub settings: Settings,
}

/// A file below a folder that looks as if an interrupted call left it after.
#[derive(Drop)]
pub struct Left {
    /// The path as it is shown.
    pub path: String,
    pub place: Place,
}

/// A path that gives no text, and why.
#[derive(Drop)]
pub struct Failure {
    pub path: String,
    pub fault: Fault,
}

/// A file or folder that is named and excluded.
#[derive(Drop)]
pub struct Exclusion {
    pub path: String,
    /// What excludes it: `--exclude`, or the path of a configuration file.
    pub by: String,
}

/// What a search found.
#[derive(Drop)]
pub struct Found {
    pub targets: Vec<Target>,
    pub failures: Vec<Failure>,
    /// Files and folders that are named and excluded.
    pub excluded: Vec<Exclusion>,
    /// Folders that are named and have no files to format.
    pub empty: Vec<String>,
    /// Files below folders that look as if an interrupted call left them after.
    pub left_behind: Vec<Left>,
    /// Files of MkDocs above those that are formatted.
    pub site_files: Vec<String>,
}

/// The search for the texts of a call.
#[derive(Drop)]
pub struct Search {
    choice: Choice,
    configurations: Configurations,
    pub(crate) ignores: Ignores,
    /// The whole paths of folders, by the paths that files name them by.
    folders: HashMap<String, String>,
    /// The whole paths of what is found.
    seen: HashSet<String>,
    pub(crate) found: Found,
}

/// Folders with files of other projects.
const FOREIGN: [&str; 4] = ["node_modules", "target", "vendor", "venv"];

/// Whether something of this name is skipped below a folder.
fn is_passed_by(name: &str) -> bool {
    for folder in &FOREIGN {
        if *folder == name {
            return true;
        }
    }
    name.starts_with('.') && name != ".github"
}

/// Why what a path names isn't found.
fn unfound(path: &str, error: io::Error) -> Fault {
    if error.kind() == io::ErrorKind::NotFound && path.contains(&['*', '?', '[']) {
        Fault::Glob
    } else {
        Fault::Read(error)
    }
}

impl Search {
    /// A search that has found nothing, with the configuration of this file for all texts, if one is given.
    pub fn new(
        rt: &HostRuntime,
        choice: Choice,
        configuration: Option<&str>,
    ) -> Result<Search, Refused> {
        let configurations = Configurations::new(rt, configuration)?;
        Ok(Search {
            choice,
            configurations,
            ignores: Ignores::new(rt),
            folders: HashMap::new(rt.alloc()),
            seen: HashSet::new(rt.alloc()),
            found: Found {
                targets: Vec::new(rt.alloc()),
                failures: Vec::new(rt.alloc()),
                excluded: Vec::new(rt.alloc()),
                empty: Vec::new(rt.alloc()),
                left_behind: Vec::new(rt.alloc()),
                site_files: Vec::new(rt.alloc()),
            },
        })
    }

    /// Notes a path that gives no text.
    pub fn fail(&mut self, rt: &HostRuntime, path: &str, fault: Fault) -> Result<(), Refused> {
        let path = String::from_str(rt.alloc(), path)?;
        self.found.failures.push(Failure { path, fault })?;
        Ok(())
    }

    pub(crate) fn respects_ignores(&self) -> bool {
        self.choice.respects_ignores
    }

    /// Which configuration the files of a folder have.
    pub(crate) fn nearest(&mut self, rt: &HostRuntime, folder: &str) -> Result<usize, Refused> {
        self.configurations.nearest(rt, folder)
    }

    fn include(&self, configuration: usize) -> Option<&Rules> {
        if let Some(rules) = &self.choice.include {
            return Some(rules);
        }
        self.configurations.get(configuration)?.include.as_ref()
    }

    /// Whether something below a folder is skipped because of its name.
    pub(crate) fn passes_by(&self, configuration: usize, name: &str) -> bool {
        if !is_passed_by(name) {
            return false;
        }
        match self.include(configuration) {
            Some(rules) => !rules.name(name),
            None => true,
        }
    }

    /// Whether something below a folder is excluded.
    pub(crate) fn excludes(
        &self,
        rt: &HostRuntime,
        configuration: usize,
        entry: Entry<'_>,
    ) -> Result<bool, Refused> {
        if self.choice.exclude.mean(rt.alloc(), entry)? {
            return Ok(true);
        }
        match self.configurations.get(configuration) {
            Some(configuration) => Ok(configuration.exclude.mean(rt.alloc(), entry)?),
            None => Ok(false),
        }
    }

    /// What excludes something or a folder above it: `--exclude`, or the path of a configuration file. `None`: nothing does.
    fn excluder(
        &self,
        rt: &HostRuntime,
        configuration: usize,
        entry: Entry<'_>,
    ) -> Result<Option<String>, Refused> {
        if self.choice.exclude.cover(rt.alloc(), entry)? {
            return Ok(Some(String::from_str(rt.alloc(), "--exclude")?));
        }
        match self.configurations.get(configuration) {
            Some(it) if it.exclude.cover(rt.alloc(), entry)? => {
                let path = self.configurations.path(configuration);
                Ok(Some(String::from_str(rt.alloc(), path)?))
            }
            _ => Ok(None),
        }
    }

    /// What excludes a folder that is named, or one above it. `None`: nothing does.
    pub(crate) fn folder_excluder(
        &mut self,
        rt: &HostRuntime,
        path: &str,
    ) -> Result<Option<String>, Refused> {
        let configuration = self.nearest(rt, path)?;
        let entry = Entry {
            path,
            is_folder: true,
        };
        self.excluder(rt, configuration, entry)
    }

    /// Notes that something that is named is excluded, and by what.
    pub(crate) fn exclude(
        &mut self,
        rt: &HostRuntime,
        path: &str,
        by: String,
    ) -> Result<(), Refused> {
        let path = String::from_str(rt.alloc(), path)?;
        self.found.excluded.push(Exclusion { path, by })?;
        Ok(())
    }

    /// Whether a file is one of those that are formatted.
    pub(crate) fn includes(
        &self,
        rt: &HostRuntime,
        configuration: usize,
        path: &str,
    ) -> Result<bool, Refused> {
        let Some(rules) = self.include(configuration) else {
            return Ok(is_markdown(name_of(path)));
        };
        Ok(rules.mean(rt.alloc(), Entry::file(path))?)
    }

    /// The settings in this folder of a file, or of a text without a name.
    fn settings(
        &mut self,
        rt: &HostRuntime,
        configuration: usize,
        folder: &str,
        path: Option<&str>,
    ) -> Result<Settings, Refused> {
        let mut settings = self
            .configurations
            .settings(rt, configuration, folder, path)?;
        let _ = set_all(&mut settings, &self.choice.values);
        settings.lines = self.choice.lines;
        Ok(settings)
    }

    /// The settings of a file, by its path from the root on.
    fn settings_of(
        &mut self,
        rt: &HostRuntime,
        configuration: usize,
        path: &str,
    ) -> Result<Settings, Refused> {
        self.settings(rt, configuration, folder_of(path), Some(path))
    }

    /// The file of this path and this whole path, unless it is there already.
    pub(crate) fn target(
        &mut self,
        rt: &HostRuntime,
        configuration: usize,
        path: &str,
        whole: String,
        place: Place,
    ) -> Result<Option<Target>, Refused> {
        let settings = self.settings_of(rt, configuration, whole.as_str())?;
        let path = String::from_str(rt.alloc(), path)?;
        if !self.seen.insert(whole)? {
            return Ok(None);
        }
        Ok(Some(Target {
            path,
            origin: Origin::File(place),
            settings,
        }))
    }

    /// The whole path of a file, whose folder's links are followed.
    fn whole(&mut self, rt: &HostRuntime, path: &str) -> Result<String, Refused> {
        let folder = folder_of(path);
        if !self.folders.contains_key(folder) {
            let known = String::from_str(rt.alloc(), folder)?;
            self.folders.insert(known, whole_path(rt, folder)?)?;
        }
        match self.folders.get(folder) {
            Some(folder) => Ok(joined(rt.alloc(), folder.as_str(), name_of(path))?),
            None => Ok(String::from_str(rt.alloc(), path)?),
        }
    }

    /// Adds a file that is named, if it is one of those that are formatted.
    fn add_file(&mut self, rt: &HostRuntime, path: &str) -> Result<(), Refused> {
        let whole = self.whole(rt, path)?;
        let configuration = self.nearest(rt, folder_of(whole.as_str()))?;
        if let Some(by) = self.excluder(rt, configuration, Entry::file(whole.as_str()))? {
            return self.exclude(rt, path, by);
        }
        if !self.includes(rt, configuration, whole.as_str())? {
            return self.fail(rt, path, Fault::NotIncluded);
        }
        let place = match Place::find(rt, path) {
            Ok(place) => place,
            Err(error) => return self.fail(rt, path, Fault::Read(error)),
        };
        if let Some(target) = self.target(rt, configuration, path, whole, place)? {
            self.found.targets.push(target)?;
        }
        Ok(())
    }

    /// Adds what an argument names: a file, or the files below a folder.
    pub fn add(&mut self, rt: &HostRuntime, path: &str) -> Result<(), Refused> {
        match fs::metadata(rt, path) {
            Ok(metadata) if metadata.is_dir() => self.add_below(rt, path),
            Ok(metadata) if metadata.is_file() => self.add_file(rt, path),
            Ok(_) => self.fail(rt, path, Fault::NotRegular),
            Err(error) => self.fail(rt, path, unfound(path, error)),
        }
    }

    /// Adds what a line of a list names, if it is one of the files that are formatted below a folder.
    pub fn add_listed(&mut self, rt: &HostRuntime, path: &str) -> Result<(), Refused> {
        let whole = self.whole(rt, path)?;
        let configuration = self.nearest(rt, folder_of(whole.as_str()))?;
        for name in path.split('/') {
            if name != "." && name != ".." && self.passes_by(configuration, name) {
                return Ok(());
            }
        }
        if !self.includes(rt, configuration, whole.as_str())? {
            return Ok(());
        }
        self.add(rt, path)
    }

    /// Adds standard input, by the configuration of the working folder.
    pub fn add_input(&mut self, rt: &HostRuntime) -> Result<(), Refused> {
        if !self.seen.insert(String::from_str(rt.alloc(), "-")?)? {
            return Ok(());
        }
        let folder = whole_path(rt, ".")?;
        let configuration = self.nearest(rt, folder.as_str())?;
        let settings = self.settings(rt, configuration, folder.as_str(), None)?;
        self.found.targets.push(Target {
            path: String::from_str(rt.alloc(), "-")?,
            origin: Origin::Input,
            settings,
        })?;
        Ok(())
    }

    /// Adds standard input as the text of this file, which need not be there.
    pub fn add_input_as(&mut self, rt: &HostRuntime, path: &str) -> Result<(), Refused> {
        let whole = self.whole(rt, path)?;
        let configuration = self.nearest(rt, folder_of(whole.as_str()))?;
        let excluder = self.excluder(rt, configuration, Entry::file(whole.as_str()))?;
        let origin = if excluder.is_some() {
            Origin::ExcludedInput
        } else {
            Origin::Input
        };
        let settings = self.settings_of(rt, configuration, whole.as_str())?;
        self.found.targets.push(Target {
            path: String::from_str(rt.alloc(), path)?,
            origin,
            settings,
        })?;
        Ok(())
    }

    /// What was found.
    pub fn end(self) -> Found {
        let Search {
            found,
            configurations,
            ..
        } = self;
        Found {
            site_files: configurations.site_files,
            ..found
        }
    }
}
