//! The messages on standard error, and what is found in the form that a program reads. Each whole line on standard error is
//! flushed at once, so that the lines of parallel calls don't mix.

use crate::arguments::Voice;
use crate::fault::Fault;
use crate::outcome::Outcome;
use std::alloc::{AllocError, Global};
use std::fmt;
use std::io::Write;
use tocmark_command::escaped::{Escaped, Quoting};
use tocmark_files::quoted::{OneLine, Quoted};
use tocmark_format::{Left, Reason};

/// How many texts there were, and what became of them.
#[derive(Clone, Copy)]
struct Totals {
    texts: usize,
    /// Those that were changed, or would be.
    changed: usize,
    failed: usize,
    warnings: usize,
}

impl Totals {
    fn of(outcomes: &[Outcome]) -> Totals {
        let mut totals = Totals {
            texts: outcomes.len(),
            changed: 0,
            failed: 0,
            warnings: 0,
        };
        for outcome in outcomes {
            if outcome.is_changed {
                totals.changed = totals.changed.saturating_add(1);
            }
            if outcome.has_failed {
                totals.failed = totals.failed.saturating_add(1);
            }
            totals.warnings = totals.warnings.saturating_add(outcome.warnings);
        }
        totals
    }
}

/// What is said of a folder that has no files to format.
const NOTHING: &str =
    "no Markdown file is found below it; look at the path, include, exclude and .gitignore";

/// What is said of a file of MkDocs.
const SITE: &str =
    "items of lists are indented by 4 columns, as Python-Markdown wants, unless list-indent says otherwise";

/// What is said of a file that would be changed.
const WOULD: &str = "would be formatted";

/// In which form it is written what is found.
#[derive(Clone, Copy)]
pub enum Form {
    /// A line for a reader.
    Text,
    /// A JSON array, with a line for each.
    Json,
    /// An annotation of GitHub each.
    Annotations,
}

/// How bad it is what is found.
#[derive(Clone, Copy)]
enum Level {
    Error,
    Warning,
}

/// Why a block keeps its lines.
fn why(reason: Reason) -> &'static str {
    match reason {
        Reason::ReadOtherwise => {
            "this block keeps its lines: in this style it would parse differently"
        }
        Reason::Outgrown => {
            "this block keeps its lines: the markers of its quotes and lists would make it four times as long"
        }
    }
}

/// `1 file`, `2 files`.
#[derive(Drop)]
struct Count {
    number: usize,
    noun: &'static str,
}

impl fmt::Display for Count {
    fn fmt<W: fmt::Write>(&self, f: &mut fmt::Formatter<W>) -> fmt::Result {
        let (number, noun) = (self.number, self.noun);
        let plural = if number == 1 { "" } else { "s" };
        write!(f, "{number} {noun}{plural}")
    }
}

/// Totals, and whether files would be changed or were.
#[derive(Drop)]
struct Summary {
    totals: Totals,
    is_dry: bool,
}

impl fmt::Display for Summary {
    fn fmt<W: fmt::Write>(&self, f: &mut fmt::Formatter<W>) -> fmt::Result {
        let Totals {
            texts,
            changed,
            failed,
            warnings,
        } = self.totals;
        let files = Count {
            number: texts,
            noun: "file",
        };
        let unchanged = texts.saturating_sub(changed).saturating_sub(failed);
        let would = if self.is_dry { "would be " } else { "" };
        write!(f, "{files}: ")?;
        if changed > 0 {
            write!(f, "{changed} {would}formatted, ")?;
        }
        write!(f, "{unchanged} unchanged")?;
        if failed > 0 {
            write!(f, ", {failed} failed")?;
        }
        if warnings > 0 {
            let warnings = Count {
                number: warnings,
                noun: "warning",
            };
            write!(f, ", {warnings}")?;
        }
        Ok(())
    }
}

/// What became of a file, or what a folder has.
#[derive(Drop)]
struct Note<'m> {
    path: Quoted<'m>,
    what: &'static str,
}

impl fmt::Display for Note<'_> {
    fn fmt<W: fmt::Write>(&self, f: &mut fmt::Formatter<W>) -> fmt::Result {
        let (path, what) = (self.path, self.what);
        write!(f, "{path}: {what}")
    }
}

/// A file or folder that is excluded, and by what.
#[derive(Drop)]
struct Excluded<'m> {
    path: Quoted<'m>,
    by: Quoted<'m>,
}

impl fmt::Display for Excluded<'_> {
    fn fmt<W: fmt::Write>(&self, f: &mut fmt::Formatter<W>) -> fmt::Result {
        let (path, by) = (self.path, self.by);
        write!(f, "{path}: excluded by {by}")
    }
}

/// What is found in a file or folder, and in which of its lines.
#[derive(Drop)]
struct Finding<'m, M: fmt::Display> {
    level: Level,
    /// What found it.
    rule: &'static str,
    path: &'m str,
    line: Option<usize>,
    message: &'m M,
}

impl<M: fmt::Display> fmt::Display for Finding<'_, M> {
    fn fmt<W: fmt::Write>(&self, f: &mut fmt::Formatter<W>) -> fmt::Result {
        let (path, message) = (Quoted(self.path), self.message);
        write!(f, "{path}")?;
        if let Some(line) = self.line {
            write!(f, ":{line}")?;
        }
        match self.level {
            Level::Error => write!(f, ": {message}"),
            Level::Warning => write!(f, ": warning: {message}"),
        }
    }
}

impl<M: fmt::Display> Finding<'_, M> {
    /// Writes an annotation of GitHub.
    fn write_annotation(&self, out: &mut String) -> Result<(), AllocError> {
        let level = match self.level {
            Level::Error => "error",
            Level::Warning => "warning",
        };
        // GitHub shows an annotation if it knows the file by this name
        let path = self.path.strip_prefix("./").unwrap_or(self.path);
        let path = Escaped(&path, Quoting::Property);
        write!(out, "::{level} file={path}")?;
        if let Some(line) = self.line {
            write!(out, ",line={line}")?;
        }
        let message = Escaped(self.message, Quoting::Message);
        writeln!(out, "::{message}")
    }

    /// Writes an object of JSON.
    fn write_json(&self, out: &mut String) -> Result<(), AllocError> {
        let path = Escaped(&self.path, Quoting::Json);
        write!(out, "{{\"file\": \"{path}\", ")?;
        match self.line {
            Some(line) => write!(out, "\"line\": {line}, \"column\": 1, ")?,
            None => out.push_str("\"line\": null, \"column\": null, ")?,
        }
        let (rule, message) = (self.rule, Escaped(self.message, Quoting::Json));
        write!(out, "\"rule\": \"{rule}\", \"message\": \"{message}\"}}")
    }
}

/// What writes lines on standard error, and gathers what a program reads. A line that can't be written changes nothing.
#[derive(Drop)]
pub struct Report<E: Write + Drop> {
    out: E,
    voice: Voice,
    /// Whether a line shows how many texts are done, until the next line overwrites it.
    shows_progress: bool,
    /// Whether nothing is written, so that files would change.
    is_dry: bool,
    /// Whether nobody reads standard output any more.
    is_unread: bool,
    /// What was found, if a program reads it.
    found: String,
}

impl<E: Write + Drop> Report<E> {
    pub fn new(alloc: Global, out: E, voice: Voice, is_dry: bool) -> Report<E> {
        Report {
            out,
            voice,
            shows_progress: false,
            is_dry,
            is_unread: false,
            found: String::new(alloc),
        }
    }

    /// Shows from now on how many texts are done.
    pub fn show_progress(&mut self) {
        self.shows_progress = true;
    }

    /// Removes the line that shows how many texts are done.
    pub fn clear(&mut self) {
        if self.shows_progress {
            let _ = self.out.write_all(b"\r\x1b[K");
            let _ = self.out.flush();
        }
    }

    /// Writes a line, in which control characters are escaped.
    fn say<L: fmt::Display>(&mut self, line: &L) {
        self.clear();
        let line = OneLine(line);
        let _ = writeln!(self.out, "{line}");
        let _ = self.out.flush();
    }

    /// Writes what is found, or adds it to what a program reads.
    fn add<M: fmt::Display>(&mut self, finding: &Finding<'_, M>) -> Result<(), AllocError> {
        match self.voice.form {
            Form::Text => {
                self.say(finding);
                Ok(())
            }
            Form::Annotations => finding.write_annotation(&mut self.found),
            Form::Json => {
                let before = if self.found.is_empty() { "[\n" } else { ",\n" };
                self.found.push_str(before)?;
                finding.write_json(&mut self.found)
            }
        }
    }

    /// Reports a file that failed, unless it failed because nobody reads standard output any more.
    pub fn failed<'m>(&mut self, path: &'m str, fault: &'m Fault) -> Result<(), AllocError> {
        if fault.is_broken_pipe() {
            self.is_unread = true;
            return Ok(());
        }
        self.add(&Finding {
            level: Level::Error,
            rule: "failed",
            path,
            line: None,
            message: fault,
        })
    }

    /// Writes a line about a file or folder, if each file is named.
    pub fn note(&mut self, path: &str, what: &'static str) {
        if self.voice.is_verbose {
            self.say(&Note {
                path: Quoted(path),
                what,
            });
        }
    }

    /// Writes a line about a file or folder that is excluded, and by what: if each file is named, or if there are no others.
    pub fn excluded(&mut self, path: &str, by: &str, is_alone: bool) {
        if self.voice.is_verbose || is_alone && !self.voice.is_quiet {
            self.say(&Excluded {
                path: Quoted(path),
                by: Quoted(by),
            });
        }
    }

    /// Reports a file of MkDocs.
    pub fn site(&mut self, path: &str) {
        self.note(path, SITE);
    }

    /// Warns of a folder that has no files to format.
    pub fn found_nothing(&mut self, path: &str) -> Result<(), AllocError> {
        self.add(&Finding {
            level: Level::Warning,
            rule: "no-files",
            path,
            line: None,
            message: &NOTHING,
        })
    }

    /// Reports a file that was changed; or that would be, from a line on, which only the formats for programs report.
    pub fn changed(&mut self, path: &str, line: usize) -> Result<(), AllocError> {
        if !self.is_dry {
            self.note(path, "formatted");
            return Ok(());
        }
        self.note(path, WOULD);
        if self.voice.is_for_people() {
            return Ok(());
        }
        self.add(&Finding {
            level: Level::Error,
            rule: "format",
            path,
            line: Some(line),
            message: &WOULD,
        })
    }

    /// Warns of the blocks of a file that keep their lines.
    pub fn left(&mut self, path: &str, left: &[Left]) -> Result<(), AllocError> {
        for Left { lines, reason } in left {
            let message = why(*reason);
            self.add(&Finding {
                level: Level::Warning,
                rule: "kept-lines",
                path,
                line: Some(lines.0),
                message: &message,
            })?;
        }
        Ok(())
    }

    /// Shows how many of all texts are done.
    pub fn progress(&mut self, done: usize, all: usize) {
        if self.shows_progress {
            let _ = write!(self.out, "\r{done} of {all}");
            let _ = self.out.flush();
        }
    }

    /// Writes the summary, unless nobody reads standard output any more.
    pub fn end(&mut self, outcomes: &[Outcome]) {
        if self.voice.is_quiet || self.is_unread {
            self.clear();
            return;
        }
        self.say(&Summary {
            totals: Totals::of(outcomes),
            is_dry: self.is_dry,
        });
    }

    /// All that was found, for a program that reads it.
    pub fn into_found(self) -> Result<String, AllocError> {
        let Report {
            voice,
            mut found,
            ..
        } = self;
        if let Form::Json = voice.form {
            found.push_str(if found.is_empty() { "[]\n" } else { "\n]\n" })?;
        }
        Ok(found)
    }
}
