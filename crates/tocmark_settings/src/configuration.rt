//! Configuration files: TOML, whose keys are the long options of formatting, `exclude`, `include` and `overrides`.

use crate::editorconfig::{Asked, Said};
use crate::error::{ConfigError, GENERAL, Location, is_among};
use crate::keys::{Key, Setting, key_named, set_all};
use crate::settings::Settings;
use std::alloc::{AllocError, Global};
use std::fmt::Write;
use tocmark_files::rules::{Entry, Rules};
use tocmark_print::ListIndent;
use toml::{Table, Value};

/// The name of configuration files. The nearest one in the folder of a document or above holds.
pub const CONFIGURATION_FILE: &str = ".tocmark.toml";

/// The name of the file that a site of MkDocs has. A document belongs to a site if this file is in its folder or above.
pub const SITE_FILE: &str = "mkdocs.yml";

/// What a configuration file says.
#[derive(Drop)]
pub struct Configuration {
    values: Vec<Setting>,
    /// Which files aren't formatted: a document is excluded if they `cover` its path.
    pub exclude: Rules,
    /// Which files are formatted, if a program looks for them. `None`: those with names of Markdown.
    pub include: Option<Rules>,
    overrides: Vec<Override>,
    /// What of files of EditorConfig counts.
    pub editorconfig: Asked,
}

/// A document, as far as its settings depend on where it is.
#[derive(Clone, Copy)]
pub struct Document<'p> {
    /// Its path from the root on, without links. `None`: it is a text without a name.
    pub path: Option<&'p str>,
    /// What files of EditorConfig say of it. It counts as far as the configuration asks for it.
    pub said: Said,
    /// Whether it belongs to a site of MkDocs.
    pub is_of_site: bool,
}

/// Options for some files.
#[derive(Drop)]
struct Override {
    files: Rules,
    values: Vec<Setting>,
}

/// The text of a configuration file, and the lines in which a key is looked for.
#[derive(Clone, Copy)]
struct Source<'t> {
    alloc: Global,
    text: &'t str,
    /// The folder of the file.
    folder: &'t str,
    /// The lines in which a key is looked for.
    rest: &'t str,
    /// How many lines are before them.
    passed: usize,
}

/// What a list of globs takes.
const GLOBS: &str = "a list of globs, as [\"docs/**\", \"*.{md,txt}\"]";

/// The keys that are read before the others.
const FIRST: [&str; 2] = ["syntax", "look"];

/// What `editorconfig` takes.
const EDITORCONFIG: &str = "true, false or \"wrap\"";

/// What `overrides` takes.
const OVERRIDES: &str = "a list of tables, each with files = [globs]";

/// The byte of a line, counted from 0, at which this key begins: at its front, but for blanks, quotation marks and brackets.
/// `None`: the line begins with something else.
fn key_in(line: &str, key: &str) -> Option<usize> {
    let begin = line.trim_start_matches(&[' ', '\t', '[', '"', '\'']);
    let rest = begin.strip_prefix(key)?;
    if !rest.starts_with(&[' ', '\t', '=', '.', ']', '"', '\'']) {
        return None;
    }
    Some(line.len().saturating_sub(begin.len()))
}

fn is_list(key: Key) -> bool {
    match key {
        Key::Extension | Key::AlsoRead => true,
        _ => false,
    }
}

impl<'t> Source<'t> {
    /// Where this key begins in the first line that has it at its front, and the source from after that line.
    fn find(self, key: &str) -> Option<(Location, Source<'t>)> {
        let (mut passed, mut at) = (self.passed, 0usize);
        for line in self.rest.split_inclusive('\n') {
            passed = passed.saturating_add(1);
            at = at.saturating_add(line.len());
            if let Some(byte) = key_in(line, key) {
                let location = Location { line: passed, byte };
                let rest = self.rest.get(at..).unwrap_or("");
                let after = Source {
                    rest,
                    passed,
                    ..self
                };
                return Some((location, after));
            }
        }
        None
    }

    /// Where this key is.
    fn location_of(self, key: &str) -> Option<Location> {
        Some(self.find(key)?.0)
    }

    /// What is wrong if a key doesn't have what it takes.
    fn wrong(self, key: &'static str, wanted: &'static str) -> ConfigError {
        ConfigError::WrongValue(key, self.location_of(key), wanted)
    }

    /// Where this byte of the text is.
    fn location_at(self, at: usize) -> Location {
        Location::after(self.text.as_bytes().get(..at).unwrap_or(&[]))
    }

    /// The table that the text is, or why it is none.
    fn table(self) -> Result<Table, ConfigError> {
        match toml::table_from_str(self.alloc, self.text) {
            Ok(table) => Ok(table),
            Err(error) if error.is_memory() => Err(ConfigError::OutOfMemory),
            Err(error) => {
                let location = match error.span() {
                    Some(span) => Some(self.location_at(span.start)),
                    None => None,
                };
                let why = String::from_str(self.alloc, error.message())?;
                Err(ConfigError::NotToml(why, location))
            }
        }
    }

    /// The globs that a key has. `None`: it isn't there.
    fn globs(self, table: &Table, key: &'static str) -> Result<Option<Rules>, ConfigError> {
        let values = match table.get(key) {
            None => return Ok(None),
            Some(Value::Array(values)) => values,
            Some(_) => return Err(self.wrong(key, GLOBS)),
        };
        let mut rules = Rules::new(self.alloc, self.folder)?;
        self.add_globs(&mut rules, key, values)?;
        Ok(Some(rules))
    }

    /// Adds the globs in the list that a key has.
    fn add_globs(
        self,
        rules: &mut Rules,
        key: &'static str,
        values: &[Value],
    ) -> Result<(), ConfigError> {
        for value in values {
            let Some(glob) = value.as_str() else {
                return Err(self.wrong(key, GLOBS));
            };
            if let Some(wanted) = rules.add_glob(self.alloc, key, glob)? {
                return Err(self.wrong(key, wanted));
            }
        }
        Ok(())
    }

    /// Adds an option with a value of its own, or with each value of a list. `Ok(false)`: it takes no such value.
    fn add_value(
        self,
        values: &mut Vec<Setting>,
        key: Key,
        value: &Value,
    ) -> Result<bool, AllocError> {
        let word = match value {
            Value::String(word) => String::from_str(self.alloc, word.as_str())?,
            Value::Integer(number) => match format!(in self.alloc; "{number}") {
                Ok(word) => word,
                Err(_) => return Err(AllocError),
            },
            Value::Array(items) if is_list(key) => {
                for item in items {
                    let Some(word) = item.as_str() else {
                        return Ok(false);
                    };
                    let word = String::from_str(self.alloc, word)?;
                    values.push(Setting { key, word })?;
                }
                return Ok(true);
            }
            _ => return Ok(false),
        };
        values.push(Setting { key, word })?;
        Ok(true)
    }

    /// Adds the option that a key names, if its value is one that it takes.
    fn add_named(
        self,
        values: &mut Vec<Setting>,
        name: &str,
        value: &Value,
    ) -> Result<(), ConfigError> {
        let Some((key, option, wanted)) = key_named(name) else {
            let location = self.location_of(name);
            let name = String::from_str(self.alloc, name)?;
            return Err(ConfigError::UnknownKey(name, location));
        };
        let before = values.len();
        let is_added = self.add_value(values, key, value)?;
        let added = values.get(before..).unwrap_or(&[]);
        if !is_added || set_all(&mut Settings::new(), added).is_err() {
            return Err(self.wrong(option, wanted));
        }
        Ok(())
    }

    /// The options of a table, but for these keys. A syntax comes before the extensions that are added to it, and a look before
    /// the options that it sets.
    fn values(self, table: &Table, others: &[&str]) -> Result<Vec<Setting>, ConfigError> {
        let mut values = Vec::new(self.alloc);
        self.add_values(&mut values, table, others)?;
        Ok(values)
    }

    /// Adds these options.
    fn add_values(
        self,
        values: &mut Vec<Setting>,
        table: &Table,
        others: &[&str],
    ) -> Result<(), ConfigError> {
        for name in FIRST {
            if let Some(value) = table.get(name) {
                self.add_named(values, name, value)?;
            }
        }
        for (name, value) in table {
            let name = name.as_str();
            if !is_among(&FIRST, name) && !is_among(others, name) {
                self.add_named(values, name, value)?;
            }
        }
        Ok(())
    }

    /// The source from after the next line that names `overrides`. If none does, no key is looked for any more.
    fn next_override(self) -> Source<'t> {
        match self.find("overrides") {
            Some((_location, next)) => next,
            None => Source { rest: "", ..self },
        }
    }

    /// The globs of `exclude`.
    fn exclude(self, table: &Table) -> Result<Rules, ConfigError> {
        match self.globs(table, "exclude")? {
            Some(rules) => Ok(rules),
            None => Ok(Rules::new(self.alloc, self.folder)?),
        }
    }

    /// What of files of EditorConfig counts.
    fn editorconfig(self, table: &Table) -> Result<Asked, ConfigError> {
        match table.get("editorconfig") {
            None | Some(Value::Boolean(false)) => Ok(Asked::Nothing),
            Some(Value::Boolean(true)) => Ok(Asked::Ends),
            Some(Value::String(word)) if word.as_str() == "wrap" => Ok(Asked::EndsAndWidth),
            Some(_) => Err(self.wrong("editorconfig", EDITORCONFIG)),
        }
    }

    fn configuration(self, table: &Table) -> Result<Configuration, ConfigError> {
        let values = self.values(table, &GENERAL)?;
        let exclude = self.exclude(table)?;
        let include = self.globs(table, "include")?;
        let overrides = self.overrides(table)?;
        let editorconfig = self.editorconfig(table)?;
        Ok(Configuration {
            values,
            exclude,
            include,
            overrides,
            editorconfig,
        })
    }

    fn overrides(self, table: &Table) -> Result<Vec<Override>, ConfigError> {
        let mut overrides = Vec::new(self.alloc);
        match table.get("overrides") {
            None => {}
            Some(Value::Array(items)) => self.add_overrides(&mut overrides, items)?,
            Some(_) => return Err(self.wrong("overrides", OVERRIDES)),
        }
        Ok(overrides)
    }

    /// Adds the options for some files that each of these values is.
    fn add_overrides(
        self,
        overrides: &mut Vec<Override>,
        items: &[Value],
    ) -> Result<(), ConfigError> {
        let mut source = self;
        for item in items {
            source = source.next_override();
            match source.override_in(item)? {
                Some(next) => overrides.push(next)?,
                None => return Err(self.wrong("overrides", OVERRIDES)),
            }
        }
        Ok(())
    }

    /// The options for some files that a value is. `None`: it is no table with `files`.
    fn override_in(self, item: &Value) -> Result<Option<Override>, ConfigError> {
        let Value::Table(table) = item else {
            return Ok(None);
        };
        let Some(files) = self.globs(table, "files")? else {
            return Ok(None);
        };
        let values = self.values(table, &["files"])?;
        Ok(Some(Override { files, values }))
    }
}

impl Configuration {
    /// The configuration of a document that has no configuration file.
    ///
    /// It fails if memory runs out.
    pub fn new(alloc: Global) -> Result<Configuration, AllocError> {
        Ok(Configuration {
            values: Vec::new(alloc),
            exclude: Rules::new(alloc, "/")?,
            include: None,
            overrides: Vec::new(alloc),
            editorconfig: Asked::Nothing,
        })
    }

    /// Parses the text of a configuration file in this folder, whose path goes from the root on, without links. Globs are for
    /// paths below the folder.
    ///
    /// Errors: `NotToml` if the text is no TOML, `UnknownKey` for a key that names no option, `WrongValue` for a value that
    /// a key doesn't take, and `OutOfMemory`.
    pub fn parse(alloc: Global, text: &str, folder: &str) -> Result<Configuration, ConfigError> {
        let source = Source {
            alloc,
            text,
            folder,
            rest: text,
            passed: 0,
        };
        let table = source.table()?;
        source.configuration(&table)
    }

    /// The settings of a document. What its overrides say counts more than the other keys, and these more than files of
    /// EditorConfig. Nested lists of a site of MkDocs need four columns, unless a key says otherwise. `lines` is `None`.
    ///
    /// It fails if memory runs out.
    pub fn settings_for(
        &self,
        alloc: Global,
        document: Document<'_>,
    ) -> Result<Settings, AllocError> {
        let Document {
            path,
            said,
            is_of_site,
        } = document;
        let mut settings = Settings::new();
        if is_of_site {
            settings.style.list_indent = ListIndent::Four;
        }
        said.set(self.editorconfig, &mut settings);
        let _ = set_all(&mut settings, &self.values);
        if let Some(path) = path {
            self.override_for(alloc, path, &mut settings)?;
        }
        Ok(settings)
    }

    /// Sets what the overrides say of the file with this path.
    fn override_for(
        &self,
        alloc: Global,
        path: &str,
        settings: &mut Settings,
    ) -> Result<(), AllocError> {
        let entry = Entry::file(path);
        for Override { files, values } in &self.overrides {
            if files.mean(alloc, entry)? {
                let _ = set_all(settings, values);
            }
        }
        Ok(())
    }
}
