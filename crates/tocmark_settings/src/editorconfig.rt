//! Files of EditorConfig: how lines end, and up to which column they are filled. Other keys, unknown values and what is no glob
//! say nothing.

use crate::keys::width_of;
use crate::settings::Settings;
use std::alloc::{AllocError, Global};
use tocmark_files::rules::{Entry, Rules};
use tocmark_format::Ending;
use tocmark_print::Wrap;

/// The name of files of EditorConfig.
pub const EDITORCONFIG_FILE: &str = ".editorconfig";

/// What of these files counts.
#[derive(Clone, Copy, PartialEq, Eq)]
pub enum Asked {
    /// Nothing: they needn't be read.
    Nothing,
    /// How lines end.
    Ends,
    /// How lines end, and up to which column they are filled.
    EndsAndWidth,
}

/// What is said of some files. `None`: nothing is; `Some(None)`: what is said elsewhere doesn't count.
#[derive(Clone, Copy)]
pub struct Said {
    /// What each line ends with.
    each: Option<Option<Ending>>,
    /// Whether the last line has an end.
    last: Option<Option<bool>>,
    /// Up to which column lines are filled.
    width: Option<Option<usize>>,
}

/// What is said of the files that a glob matches.
#[derive(Drop)]
struct Section {
    files: Rules,
    said: Said,
}

/// A file of EditorConfig.
#[derive(Drop)]
pub struct EditorConfig {
    /// Whether files further up don't count.
    pub is_root: bool,
    sections: Vec<Section>,
}

/// What is white around a line, a key and a value.
const WHITE: [char; 3] = [' ', '\t', '\r'];

const ENDINGS: [(&str, Option<Ending>); 4] = [
    ("lf", Some(Ending::LineFeed)),
    ("crlf", Some(Ending::Both)),
    ("cr", Some(Ending::CarriageReturn)),
    ("unset", None),
];

const LASTS: [(&str, Option<bool>); 3] = [
    ("true", Some(true)),
    ("false", Some(false)),
    ("unset", None),
];

const WIDTHS: [(&str, Option<usize>); 2] = [("off", None), ("unset", None)];

/// The value of a word in a table. Upper and lower case are the same.
fn meant<T: Copy>(table: &[(&str, T)], word: &str) -> Option<T> {
    for (known, value) in table {
        if word.eq_ignore_ascii_case(known) {
            return Some(*value);
        }
    }
    None
}

/// The column that a word says.
fn width_meant(word: &str) -> Option<Option<usize>> {
    match width_of(word) {
        Some(width) => Some(Some(width)),
        None => meant(&WIDTHS, word),
    }
}

/// The glob of the section that a line begins.
fn glob_in(line: &str) -> Option<&str> {
    line.strip_prefix('[')?.strip_suffix(']')
}

/// The key and the value of a line that is no comment.
fn pair_in(line: &str) -> Option<(&str, &str)> {
    if line.starts_with(&['#', ';']) {
        return None;
    }
    let (key, value) = line.split_once('=')?;
    Some((key.trim_matches(&WHITE), value.trim_matches(&WHITE)))
}

/// Adds a part of a glob between slashes. `**` before other characters means folders, too, as in `**.md`.
fn push_part(glob: &mut String, part: &str) -> Result<(), AllocError> {
    match part.strip_prefix("**") {
        Some(rest) if !rest.is_empty() && !rest.starts_with(&[',', '}']) => {
            glob.push_str("**/*")?;
            glob.push_str(rest)
        }
        _ => glob.push_str(part),
    }
}

/// The rules with a glob for files in or below a folder; none if it is no glob.
fn rules_of(alloc: Global, folder: &str, glob: &str) -> Result<Rules, AllocError> {
    let mut whole = String::new(alloc);
    for (number, part) in glob.split('/').enumerate() {
        if number > 0 {
            whole.push('/')?;
        }
        push_part(&mut whole, part)?;
    }
    let mut rules = Rules::new(alloc, folder)?;
    let _ = rules.add_glob(alloc, "files", whole.as_str())?;
    Ok(rules)
}

impl Said {
    /// Nothing is said.
    pub const NOTHING: Said = Said {
        each: None,
        last: None,
        width: None,
    };

    /// This, and what others say where it says nothing. The others are those of files further up.
    pub fn or(self, others: Said) -> Said {
        Said {
            each: self.each.or(others.each),
            last: self.last.or(others.last),
            width: self.width.or(others.width),
        }
    }

    /// This after a line with a key and a value.
    fn with(self, key: &str, value: &str) -> Said {
        let mut next = Said::NOTHING;
        if key.eq_ignore_ascii_case("end_of_line") {
            next.each = meant(&ENDINGS, value);
        } else if key.eq_ignore_ascii_case("insert_final_newline") {
            next.last = meant(&LASTS, value);
        } else if key.eq_ignore_ascii_case("max_line_length") {
            next.width = width_meant(value);
        }
        next.or(self)
    }

    /// Sets what is asked for.
    pub(crate) fn set(self, asked: Asked, settings: &mut Settings) {
        if asked == Asked::Nothing {
            return;
        }
        settings.ends.each = self.each.unwrap_or(None);
        settings.ends.omits_last = matches!(self.last, Some(Some(false)));
        if asked == Asked::EndsAndWidth
            && let Some(Some(width)) = self.width
        {
            settings.style.wrap = Wrap::At(width);
        }
    }
}

impl EditorConfig {
    /// Parses the text of the file in this folder, whose path goes from the root on, without links.
    ///
    /// It fails if memory runs out.
    pub fn parse(alloc: Global, text: &str, folder: &str) -> Result<EditorConfig, AllocError> {
        let mut config = EditorConfig {
            is_root: false,
            sections: Vec::new(alloc),
        };
        let text = text.strip_prefix('\u{feff}').unwrap_or(text);
        for line in text.split('\n') {
            config.take(alloc, folder, line.trim_matches(&WHITE))?;
        }
        Ok(config)
    }

    /// Takes a line without the white space around it.
    fn take(&mut self, alloc: Global, folder: &str, line: &str) -> Result<(), AllocError> {
        if let Some(glob) = glob_in(line) {
            let files = rules_of(alloc, folder, glob)?;
            let said = Said::NOTHING;
            self.sections.push(Section { files, said })?;
        } else if let Some((key, value)) = pair_in(line) {
            self.take_pair(key, value);
        }
        Ok(())
    }

    /// Takes a key and a value: of the last section, or of the file.
    fn take_pair(&mut self, key: &str, value: &str) {
        if let Some(section) = self.sections.last_mut() {
            section.said = section.said.with(key, value);
        } else if key.eq_ignore_ascii_case("root") {
            self.is_root = value.eq_ignore_ascii_case("true");
        }
    }

    /// What it says of the file with this path, which goes from the root on, without links. The last section that says
    /// something counts.
    ///
    /// It fails if memory runs out.
    pub fn said_of(&self, alloc: Global, path: &str) -> Result<Said, AllocError> {
        let mut all = Said::NOTHING;
        for Section { files, said } in &self.sections {
            if files.mean(alloc, Entry::file(path))? {
                all = said.or(all);
            }
        }
        Ok(all)
    }
}
