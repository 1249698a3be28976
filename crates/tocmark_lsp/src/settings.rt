//! What a client sets when it starts the server: the kind of Markdown, where lines break, and how headings get their anchors.

use serde_json::Value;
use std::alloc::{AllocError, Global};
use tocmark_links::slug::Slugs;
use tocmark_lsp_pages::message::{Code, Fault};
use tocmark_settings::{Key, named, set};

/// What a client sets.
#[derive(Clone, Copy)]
pub(crate) struct Settings {
    /// How a document is read and is to look, if it has no `.tocmark.toml`.
    pub(crate) format: tocmark_settings::Settings,
    /// How headings get their anchors.
    pub(crate) slugs: Slugs,
}

/// The rules for anchors, by their names.
const RULES: [(&str, Slugs); 3] = [
    ("github", Slugs::GitHub),
    ("mdbook", Slugs::MdBook),
    ("python", Slugs::Python),
];

/// What is said of a value that can't be set.
fn wrong(why: &'static str) -> Fault {
    Fault::Refused(Code::Params, why)
}

/// The rule for anchors that a value names.
fn slugs_of(value: &Value) -> Result<Slugs, Fault> {
    match value.as_str().and_then(|name| named(&RULES, name)) {
        Some(slugs) => Ok(slugs),
        None => Err(wrong("slugs wants github, mdbook or python")),
    }
}

/// The word that a value is: a text, or a number.
fn word_of(alloc: Global, value: &Value) -> Result<Option<String>, AllocError> {
    if let Some(word) = value.as_str() {
        return Ok(Some(String::from_str(alloc, word)?));
    }
    match value.as_u64() {
        Some(number) => Ok(Some(format!(in alloc; "{number}")?)),
        None => Ok(None),
    }
}

impl Settings {
    /// GFM with front matter, in the style that changes least, and with GitHub's anchors.
    pub(crate) fn new() -> Settings {
        Settings {
            format: tocmark_settings::Settings::new(),
            slugs: Slugs::GitHub,
        }
    }

    /// Sets an option of formatting.
    fn put(
        &mut self,
        alloc: Global,
        key: Key,
        value: &Value,
        why: &'static str,
    ) -> Result<(), Fault> {
        match word_of(alloc, value)? {
            Some(word) if set(&mut self.format, key, word.as_str()) => Ok(()),
            _ => Err(wrong(why)),
        }
    }

    /// Adds extensions, or takes away those that `no-` is before.
    fn put_extensions(&mut self, alloc: Global, value: &Value) -> Result<(), Fault> {
        let Some(names) = value.as_array() else {
            return Err(wrong("extensions wants a list of names"));
        };
        for name in names {
            let why = "extensions has a name that no extension has";
            self.put(alloc, Key::Extension, name, why)?;
        }
        Ok(())
    }

    /// The settings with what a client's options say.
    pub(crate) fn of(alloc: Global, options: &Value) -> Result<Settings, Fault> {
        let mut settings = Settings::new();
        if let Some(value) = options.get("syntax") {
            settings.put(
                alloc,
                Key::Syntax,
                value,
                "syntax wants commonmark, gfm or all",
            )?;
        }
        if let Some(value) = options.get("extensions") {
            settings.put_extensions(alloc, value)?;
        }
        if let Some(value) = options.get("wrap") {
            let why = "wrap wants keep, no, sentence or a number from 1 to 1000";
            settings.put(alloc, Key::Wrap, value, why)?;
        }
        if let Some(value) = options.get("slugs") {
            settings.slugs = slugs_of(value)?;
        }
        Ok(settings)
    }
}
