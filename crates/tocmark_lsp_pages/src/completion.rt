//! What can be written at a position: paths and anchors in destinations, and labels in brackets.

use crate::lined::Span;
use crate::links::{Asking, Read, folded};
use crate::message::JsonText;
use crate::tree::Files;
use crate::workspace::Workspace;
use std::alloc::{AllocError, Global};
use std::collections::HashSet;
use std::fmt::Write;
use tocmark_event::event::{Event, Tag};
use tocmark_links::destination::{encoded, parts};
use tocmark_links::page::Page;
use tocmark_links::paths::{folder_and_name, relative};
use tocmark_links::tree::Led;
use tocmark_lsp_text::positions::Position;

/// How many items an answer has at most.
const MOST: usize = 200;

/// What ends a destination.
const ENDS: [char; 3] = [' ', ')', '<'];

/// What is in no destination without angle brackets, and doesn't close one.
const BREAKS: [char; 7] = [' ', '\t', '\n', '\r', '<', '>', '('];

/// What a path must not have where no angle brackets are round it, and what an address would misread.
const APART: [char; 10] = [' ', '(', ')', '<', '>', '\\', '#', '?', '%', '\t'];

/// What is in no label, and doesn't close one.
const LABEL_BREAKS: [char; 3] = ['[', '\n', '\r'];

/// The numbers of kinds of items in the protocol.
const FILE: u8 = 17;

const REFERENCE: u8 = 18;

/// What is written before a position.
#[derive(Clone, Copy)]
enum Front<'t> {
    /// The front of a destination.
    Destination(&'t str),
    /// The front of a label.
    Label(&'t str),
    Nothing,
}

/// Items of a list that a client shows.
#[derive(Drop)]
struct Items {
    alloc: Global,
    json: String,
    count: usize,
    /// The range that an item replaces.
    span: Span,
    is_cut: bool,
}

/// What is begun at the end of a part of a line.
fn front_in(before: &str) -> Front<'_> {
    if let Some((_, destination)) = before.rsplit_once("](")
        && !destination.contains(&ENDS)
    {
        return Front::Destination(destination);
    }
    match before.rsplit_once('[') {
        Some((_, label)) if !label.contains(']') => Front::Label(label),
        _ => Front::Nothing,
    }
}

/// How many bytes are from a position to what closes what is begun there; none if what breaks it comes before that.
fn tail(rest: &str, closing: &[char], breaks: &[char]) -> usize {
    let mut count = 0usize;
    for c in rest.chars() {
        if closing.contains(&c) {
            return count;
        }
        if breaks.contains(&c) {
            return 0;
        }
        count = count.saturating_add(c.len_utf8());
    }
    0
}

impl<'t> Front<'t> {
    /// What an item replaces of it.
    fn replaced(self) -> &'t str {
        match self {
            Front::Destination(begun) => parts(begun).anchor.strip_prefix('#').unwrap_or(begun),
            Front::Label(begun) => begun,
            Front::Nothing => "",
        }
    }

    /// How many bytes of the text after it an item replaces.
    fn tail(self, rest: &str) -> usize {
        match self {
            Front::Destination(begun) if begun.contains('#') => tail(rest, &[')'], &BREAKS),
            Front::Destination(_) => tail(rest, &[')', '#', '?'], &BREAKS),
            Front::Label(_) => tail(rest, &[']'], &LABEL_BREAKS),
            Front::Nothing => 0,
        }
    }
}

impl Items {
    fn new(alloc: Global, span: Span) -> Items {
        Items {
            alloc,
            json: String::new(alloc),
            count: 0,
            span,
            is_cut: false,
        }
    }

    /// Adds an item: what is written, its kind, and what is said of it.
    fn add(&mut self, text: &str, kind: u8, detail: &str) -> Result<(), AllocError> {
        if self.count >= MOST {
            self.is_cut = true;
            return Ok(());
        }
        if !self.json.is_empty() {
            self.json.push(',')?;
        }
        let (number, span) = (self.count, self.span);
        let (text, detail) = (JsonText(text), JsonText(detail));
        self.count = self.count.saturating_add(1);
        write!(
            self.json,
            "{{\"label\":{text},\"kind\":{kind},\"detail\":{detail},\"sortText\":\"{number:03}\","
        )?;
        write!(
            self.json,
            "\"textEdit\":{{\"range\":{span},\"newText\":{text}}}}}"
        )
    }

    /// The list, as JSON.
    fn finish(self) -> Result<String, AllocError> {
        let Items {
            alloc,
            json,
            is_cut,
            ..
        } = self;
        format!(in alloc; "{{\"isIncomplete\":{is_cut},\"items\":[{json}]}}")
    }
}

/// Whether a place is in code.
fn is_in_code(read: &Read<'_>, at: usize) -> bool {
    for (event, place) in &read.reading.events {
        let is_code = matches!(event, Event::Code(_) | Event::Start(Tag::CodeBlock(_)));
        if is_code && place.0 < at && at < place.1 {
            return true;
        }
    }
    false
}

/// A path as a destination has it: from a folder on, or from the root if what is begun is.
fn written(alloc: Global, folder: &str, begun: &str, path: &str) -> Result<String, AllocError> {
    let path = if begun.starts_with('/') {
        format!(in alloc; "/{path}")?
    } else {
        relative(alloc, folder, path)?
    };
    let path = if path.as_str().contains(&APART) {
        encoded(alloc, path.as_str())?
    } else {
        path
    };
    if begun.starts_with("./") && !path.as_str().starts_with('.') {
        return format!(in alloc; "./{path}");
    }
    Ok(path)
}

impl<F: Files> Workspace<'_, F> {
    /// Adds the paths of pages that have what is begun in them: those next to the page, or all others.
    fn add_paths(
        &self,
        items: &mut Items,
        own: &str,
        begun: &str,
        is_next: bool,
    ) -> Result<(), AllocError> {
        let folder = folder_and_name(own).0;
        for path in self.listed {
            let path = path.as_str();
            if path == own || (folder_and_name(path).0 == folder) != is_next {
                continue;
            }
            let text = written(self.alloc, folder, begun, path)?;
            if text.as_str().contains(begun) {
                items.add(text.as_str(), FILE, path)?;
            }
        }
        Ok(())
    }
}

impl<F: Files> Asking<'_, F> {
    /// The page at a path of a destination.
    fn page_at(&self, path: &str) -> Result<Option<Page>, AllocError> {
        let it = &self.gathering;
        let page = self.page()?;
        if path.is_empty() {
            return Ok(Some(page));
        }
        let led = self.led_to(&page, path)?;
        let Led::To { path, .. } = &led else {
            return Ok(None);
        };
        let text = it
            .place
            .page_text(it.alloc, it.files, it.documents, path.as_str())?;
        match text {
            Some(text) => Ok(Some(self.page_of(text.as_str())?)),
            None => Ok(None),
        }
    }

    /// Adds the anchors of the page at a path.
    fn add_anchors(&self, items: &mut Items, path: &str) -> Result<(), AllocError> {
        let Some(page) = self.page_at(path)? else {
            return Ok(());
        };
        for anchor in &page.anchors {
            items.add(anchor.name.as_str(), REFERENCE, anchor.words.as_str())?;
        }
        Ok(())
    }

    /// Adds the labels that the document defines.
    fn add_labels(&self, items: &mut Items, read: &Read<'_>) -> Result<(), AllocError> {
        let alloc = self.gathering.alloc;
        let mut names = HashSet::new(alloc);
        for definition in &read.definitions {
            let label = definition.label.as_str();
            if names.insert(folded(alloc, label)?)? {
                items.add(label, REFERENCE, definition.destination.as_str())?;
            }
        }
        Ok(())
    }
}

/// What is begun in front of a byte of a line.
fn front_at<'t>(read: &Read<'t>, line: usize, at: usize) -> Front<'t> {
    if is_in_code(read, at) {
        return Front::Nothing;
    }
    let start = read.lined.line_start(line);
    front_in(read.lined.text.get(start..at).unwrap_or(""))
}

/// Adds what can be written after a front.
fn add_items<F: Files>(
    workspace: &Workspace<'_, F>,
    asking: &Asking<'_, F>,
    items: &mut Items,
    read: &Read<'_>,
    front: Front<'_>,
) -> Result<(), AllocError> {
    match front {
        Front::Destination(begun) if begun.contains('#') => {
            asking.add_anchors(items, parts(begun).path)
        }
        Front::Destination(begun) => {
            let own = asking.gathering.place.path.as_str();
            workspace.add_paths(items, own, begun, true)?;
            workspace.add_paths(items, own, begun, false)
        }
        Front::Label(_) => asking.add_labels(items, read),
        Front::Nothing => Ok(()),
    }
}

/// What can be written at a position, as JSON.
pub(crate) fn completions<F: Files>(
    workspace: &Workspace<'_, F>,
    asking: &Asking<'_, F>,
    position: Position,
) -> Result<String, AllocError> {
    let read = asking.read()?;
    let at = read.lined.byte(position);
    let front = front_at(&read, position.line, at);
    let from = at.saturating_sub(front.replaced().len());
    let to = at.saturating_add(front.tail(asking.text.get(at..).unwrap_or("")));
    let mut items = Items::new(workspace.alloc, read.lined.span((from, to)));
    add_items(workspace, asking, &mut items, &read, front)?;
    items.finish()
}
