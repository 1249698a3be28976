//! What is found or changed, in lines, as JSON or as annotations of GitHub.

use std::alloc::{AllocError, Global};
use std::fmt::Write;
use tocmark_files::quoted::Quoted;

/// How notes are written.
#[derive(Clone, Copy)]
pub enum Form {
    /// A line each.
    Lines,
    /// A JSON array, with a line for each.
    Json,
    /// An annotation of GitHub each.
    Annotations,
}

/// What a note is about.
#[derive(Clone, Copy)]
pub enum Kind {
    /// A link to a path at which nothing is.
    Path,
    /// A link to an anchor that its file doesn't have.
    Anchor,
    /// A link out of the tree.
    Outside,
    /// A link that gets another destination.
    Link,
    /// A heading that gets other words.
    Heading,
    /// A table of contents that is filled.
    Contents,
}

/// What is found or changed in a file.
#[derive(Clone, Copy)]
pub struct Note<'n> {
    pub kind: Kind,
    pub file: &'n str,
    /// Counted from 1.
    pub line: usize,
    /// In characters, counted from 1.
    pub column: usize,
    /// What the file has.
    pub old: &'n str,
    /// What it gets, or what it may mean.
    pub new: Option<&'n str>,
}

/// How a text is quoted.
#[derive(Clone, Copy)]
enum Quoting {
    /// In a string of JSON.
    Json,
    /// In the message of an annotation.
    Message,
    /// In a property of an annotation.
    Property,
}

impl Kind {
    /// Its name in JSON.
    fn name(self) -> &'static str {
        match self {
            Kind::Path => "path",
            Kind::Anchor => "anchor",
            Kind::Outside => "outside",
            Kind::Link => "link",
            Kind::Heading => "heading",
            Kind::Contents => "contents",
        }
    }

    /// Why a link is broken. `None`: it isn't, but is changed.
    fn problem(self) -> Option<&'static str> {
        match self {
            Kind::Path => Some("there is no such file or folder"),
            Kind::Anchor => Some("the file has no such anchor"),
            Kind::Outside => Some("leads out of the tree"),
            _ => None,
        }
    }
}

/// What stands for a character between quotation marks. `None`: itself.
fn escape_of(c: char, quoting: Quoting) -> Option<&'static str> {
    match (quoting, c) {
        (Quoting::Json, '"') => Some("\\\""),
        (Quoting::Json, '\\') => Some("\\\\"),
        (Quoting::Json, _) => None,
        (_, '%') => Some("%25"),
        (Quoting::Property, ':') => Some("%3A"),
        (Quoting::Property, ',') => Some("%2C"),
        _ => None,
    }
}

/// Adds a text with escapes for what ends or disturbs it. Control characters are escaped as JSON and URLs do.
fn add_escaped(out: &mut String, text: &str, quoting: Quoting) -> Result<(), AllocError> {
    for c in text.chars() {
        let number = c as u32;
        match escape_of(c, quoting) {
            Some(escape) => out.push_str(escape)?,
            None if !c.is_control() => out.push(c)?,
            None if matches!(quoting, Quoting::Json) => write!(out, "\\u{number:04x}")?,
            None => write!(out, "%{number:02X}")?,
        }
    }
    Ok(())
}

impl Note<'_> {
    /// Writes what is found or changed.
    fn write_message(&self, out: &mut String) -> Result<(), AllocError> {
        let (old, new) = (Quoted(self.old), Quoted(self.new.unwrap_or("")));
        match (self.kind.problem(), self.new.is_some()) {
            (Some(problem), true) => write!(out, "{old}: {problem}; {new} is near"),
            (Some(problem), false) => write!(out, "{old}: {problem}"),
            (None, true) => write!(out, "{old} -> {new}"),
            (None, false) => write!(out, "{old}"),
        }
    }

    fn write_line(&self, out: &mut String) -> Result<(), AllocError> {
        let (file, line, column) = (Quoted(self.file), self.line, self.column);
        write!(out, "{file}:{line}:{column}: ")?;
        self.write_message(out)?;
        out.push('\n')
    }

    fn write_annotation(&self, alloc: Global, out: &mut String) -> Result<(), AllocError> {
        let (line, column) = (self.line, self.column);
        out.push_str(match self.kind.problem() {
            Some(_) => "::error file=",
            None => "::notice file=",
        })?;
        add_escaped(out, self.file, Quoting::Property)?;
        write!(out, ",line={line},col={column}::")?;
        let mut message = String::new(alloc);
        self.write_message(&mut message)?;
        add_escaped(out, message.as_str(), Quoting::Message)?;
        out.push('\n')
    }

    fn write_json(&self, out: &mut String) -> Result<(), AllocError> {
        let (kind, line, column) = (self.kind.name(), self.line, self.column);
        write!(out, "{{\"kind\": \"{kind}\", \"file\": \"")?;
        add_escaped(out, self.file, Quoting::Json)?;
        write!(
            out,
            "\", \"line\": {line}, \"column\": {column}, \"old\": \""
        )?;
        add_escaped(out, self.old, Quoting::Json)?;
        match self.new {
            Some(new) => {
                out.push_str("\", \"new\": \"")?;
                add_escaped(out, new, Quoting::Json)?;
                out.push_str("\"}")
            }
            None => out.push_str("\", \"new\": null}"),
        }
    }
}

/// The notes that are to be written.
#[derive(Drop)]
pub struct Report {
    form: Form,
    text: String,
    /// How many notes were added.
    pub count: usize,
}

impl Report {
    /// A report of nothing. It fails if memory runs out.
    pub fn new(alloc: Global, form: Form) -> Result<Report, AllocError> {
        let text = match form {
            Form::Json => "[",
            _ => "",
        };
        Ok(Report {
            form,
            text: String::from_str(alloc, text)?,
            count: 0,
        })
    }

    /// Adds a note.
    pub fn add(&mut self, alloc: Global, note: Note<'_>) -> Result<(), AllocError> {
        let before = self.count;
        self.count = before.saturating_add(1);
        match self.form {
            Form::Lines => note.write_line(&mut self.text),
            Form::Annotations => note.write_annotation(alloc, &mut self.text),
            Form::Json => {
                self.text.push_str(if before > 0 { ",\n" } else { "\n" })?;
                note.write_json(&mut self.text)
            }
        }
    }

    /// All that is to be written.
    pub fn end(mut self) -> Result<String, AllocError> {
        if let Form::Json = self.form {
            self.text
                .push_str(if self.count > 0 { "\n]\n" } else { "]\n" })?;
        }
        Ok(self.text)
    }
}
