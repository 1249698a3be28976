//! How differences are written.

use crate::arguments::INPUT;
use crate::painted::{Paint, Painted};
use std::alloc::{AllocError, Global};
use std::fmt;
use std::fmt::Write;
use tocmark_command::escaped::{Escaped, Quoting};
use tocmark_differences::Difference;
use tocmark_differences::phrases::SHOWN;
use tocmark_files::quoted::{OneLine, Quoted};

/// How differences are written.
#[derive(Clone, Copy)]
pub enum Form {
    /// A line each.
    Lines,
    /// A JSON array, with a line for each.
    Json,
    /// An annotation of GitHub each.
    Annotations,
}

/// What became of a file that only one folder has.
#[derive(Clone, Copy)]
pub enum Way {
    Removed,
    Added,
}

/// The kind of what only the old text has.
const REMOVED: &str = "removed";

/// The kind of what only the new text has.
const ADDED: &str = "added";

/// The kind of a difference between letters.
const LETTERS: &str = "letters";

/// A part of a file, by its first and its last line, or a whole file.
#[derive(Clone, Copy)]
struct Spot<'d> {
    file: &'d str,
    lines: Option<(usize, usize)>,
}

/// A text between quotation marks, as a difference shows it: of a long one the front.
#[derive(Clone, Copy)]
struct Shown<'d>(&'d str);

/// What is written of a difference.
#[derive(Drop)]
struct Entry<'d, M: fmt::Display> {
    kind: &'static str,
    old: Option<Spot<'d>>,
    new: Option<Spot<'d>>,
    was: &'d str,
    is: &'d str,
    phrase: &'d M,
}

impl Spot<'_> {
    /// Whether it is in standard input, where nobody can look.
    fn is_input(self) -> bool {
        self.file == INPUT
    }
}

impl fmt::Display for Spot<'_> {
    fn fmt<W: fmt::Write>(&self, f: &mut fmt::Formatter<W>) -> fmt::Result {
        let file = Quoted(self.file);
        match self.lines {
            Some((first, _)) => write!(f, "{file}:{first}"),
            None => write!(f, "{file}"),
        }
    }
}

impl fmt::Display for Shown<'_> {
    fn fmt<W: fmt::Write>(&self, f: &mut fmt::Formatter<W>) -> fmt::Result {
        let text = self.0;
        match text.char_indices().nth(SHOWN) {
            Some((end, _)) => {
                let front = text.get(..end).unwrap_or(text);
                write!(f, "\"{front}...\"")
            }
            None => write!(f, "\"{text}\""),
        }
    }
}

/// What is different, and where it was.
impl<M: fmt::Display> fmt::Display for Entry<'_, M> {
    fn fmt<W: fmt::Write>(&self, f: &mut fmt::Formatter<W>) -> fmt::Result {
        let phrase = OneLine(self.phrase);
        write!(f, "{phrase}")?;
        match self.old_spot() {
            Some(old) => write!(f, " (was {old})"),
            None => Ok(()),
        }
    }
}

impl<M: fmt::Display> Entry<'_, M> {
    /// Whether its place in the old text is named, too: in the new one there is nothing, or other words.
    fn names_old(&self) -> bool {
        self.kind == REMOVED || self.kind == LETTERS
    }

    /// Where the difference is shown: in the new text, if that is a file.
    fn spot(&self) -> Option<Spot<'_>> {
        match (self.old, self.new) {
            (Some(old), Some(new)) if new.is_input() => Some(old),
            (_, Some(new)) => Some(new),
            (old, None) => old,
        }
    }

    /// Where it was, if that is named beside the place that is shown.
    fn old_spot(&self) -> Option<Spot<'_>> {
        match (self.old, self.new) {
            (Some(old), Some(new)) if !new.is_input() && self.names_old() => Some(old),
            _ => None,
        }
    }

    fn write_line(&self, out: &mut String) -> Result<(), AllocError> {
        if let Some(spot) = self.spot() {
            write!(out, "{spot}: ")?;
        }
        writeln!(out, "{self}")
    }

    /// Writes the same line for a terminal: places are bold, what was is red, and what is is green.
    fn write_painted_line(&self, alloc: Global, out: &mut String) -> Result<(), AllocError> {
        if let Some(spot) = self.spot() {
            let spot = Painted(&spot, Paint::Bold);
            write!(out, "{spot}: ")?;
        }
        self.write_painted(alloc, out)?;
        if let Some(old) = self.old_spot() {
            let old = Painted(&old, Paint::Bold);
            write!(out, " (was {old})")?;
        }
        out.push('\n')
    }

    /// Writes what is different, for a terminal.
    fn write_painted(&self, alloc: Global, out: &mut String) -> Result<(), AllocError> {
        let phrase = OneLine(self.phrase);
        if self.kind == REMOVED {
            let phrase = Painted(&phrase, Paint::Red);
            return write!(out, "{phrase}");
        }
        if self.kind == ADDED {
            let phrase = Painted(&phrase, Paint::Green);
            return write!(out, "{phrase}");
        }
        let mut line = String::new(alloc);
        write!(line, "{phrase}")?;
        let (front, _) = line.split_once('"').unwrap_or((line.as_str(), ""));
        let (was, is) = (Shown(self.was), Shown(self.is));
        let (was, is) = (OneLine(&was), OneLine(&is));
        let (was, is) = (Painted(&was, Paint::Red), Painted(&is, Paint::Green));
        write!(out, "{front}{was} became {is}")
    }

    fn write_annotation(&self, out: &mut String) -> Result<(), AllocError> {
        out.push_str("::error")?;
        if let Some(Spot { file, lines }) = self.spot() {
            let file = Escaped(&file, Quoting::Property);
            write!(out, " file={file}")?;
            if let Some((first, last)) = lines {
                write!(out, ",line={first},endLine={last}")?;
            }
        }
        let message = Escaped(self, Quoting::Message);
        writeln!(out, "::{message}")
    }

    fn write_json(&self, out: &mut String) -> Result<(), AllocError> {
        let kind = self.kind;
        write!(out, "{{\"kind\": \"{kind}\", \"old\": ")?;
        write_spot(out, self.old)?;
        out.push_str(", \"new\": ")?;
        write_spot(out, self.new)?;
        let was = Escaped(&self.was, Quoting::Json);
        let is = Escaped(&self.is, Quoting::Json);
        write!(out, ", \"was\": \"{was}\", \"is\": \"{is}\"}}")
    }
}

/// Writes a part of a file as JSON.
fn write_spot(out: &mut String, spot: Option<Spot<'_>>) -> Result<(), AllocError> {
    let Some(Spot { file, lines }) = spot else {
        return out.push_str("null");
    };
    let file = Escaped(&file, Quoting::Json);
    write!(out, "{{\"file\": \"{file}\", \"lines\": ")?;
    match lines {
        Some((first, last)) => write!(out, "[{first}, {last}]}}"),
        None => out.push_str("null}"),
    }
}

/// The differences that are to be written.
#[derive(Drop)]
pub struct Report {
    alloc: Global,
    form: Form,
    /// Lines have the colours of a terminal.
    is_colored: bool,
    text: String,
    /// Whether a difference was added.
    has_any: bool,
}

impl Report {
    /// A report of nothing. Colours are for lines alone. It fails if memory runs out.
    pub fn new(alloc: Global, form: Form, is_colored: bool) -> Result<Report, AllocError> {
        let text = match form {
            Form::Json => "[",
            _ => "",
        };
        Ok(Report {
            alloc,
            form,
            is_colored,
            text: String::from_str(alloc, text)?,
            has_any: false,
        })
    }

    /// What is to be written.
    pub fn text(&self) -> &str {
        self.text.as_str()
    }

    /// Removes what is written.
    pub fn clear(&mut self) {
        self.text.clear();
    }

    fn add<M: fmt::Display>(&mut self, entry: &Entry<'_, M>) -> Result<(), AllocError> {
        let had_any = self.has_any;
        self.has_any = true;
        match self.form {
            Form::Lines if self.is_colored => entry.write_painted_line(self.alloc, &mut self.text),
            Form::Lines => entry.write_line(&mut self.text),
            Form::Annotations => entry.write_annotation(&mut self.text),
            Form::Json => {
                self.text.push_str(if had_any { ",\n" } else { "\n" })?;
                entry.write_json(&mut self.text)
            }
        }
    }

    /// Adds a difference between two texts with these names.
    pub fn add_difference(
        &mut self,
        old: &str,
        new: &str,
        it: &Difference,
    ) -> Result<(), AllocError> {
        self.add(&Entry {
            kind: it.kind.name(),
            old: Some(Spot {
                file: old,
                lines: Some(it.old),
            }),
            new: Some(Spot {
                file: new,
                lines: Some(it.new),
            }),
            was: it.was.as_str(),
            is: it.is.as_str(),
            phrase: it,
        })
    }

    /// Adds a file that only one folder has.
    pub fn add_file(&mut self, file: &str, way: Way) -> Result<(), AllocError> {
        let spot = Some(Spot { file, lines: None });
        let (kind, old, new) = match way {
            Way::Removed => (REMOVED, spot, None),
            Way::Added => (ADDED, None, spot),
        };
        let phrase = match way {
            Way::Removed => "removed: file",
            Way::Added => "added: file",
        };
        self.add(&Entry {
            kind,
            old,
            new,
            was: "",
            is: "",
            phrase: &phrase,
        })
    }

    /// Adds what comes after the last difference.
    pub fn end(&mut self) -> Result<(), AllocError> {
        match self.form {
            Form::Json if self.has_any => self.text.push_str("\n]\n"),
            Form::Json => self.text.push_str("]\n"),
            _ => Ok(()),
        }
    }
}
