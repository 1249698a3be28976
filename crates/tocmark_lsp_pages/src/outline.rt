//! What a text is made of: its headings as a tree, and what can be folded.

use crate::lined::Lined;
use crate::message::JsonText;
use std::alloc::{AllocError, Global};
use std::fmt::Write;
use tocmark_event::event::{Event, HeadingLevel, Tag, TagEnd};
use tocmark_event::reader::Reading;

/// How many levels headings have.
const LEVELS: usize = 6;

/// A slot for each level, and one that is unused.
const SLOTS: usize = 7;

/// A heading and the section below it.
#[derive(Drop)]
pub(crate) struct Heading {
    level: usize,
    words: String,
    pub(crate) place: (usize, usize),
    /// Where the section ends: at the next heading of its level or a higher one.
    end: usize,
}

/// How many `#` a heading has.
fn number_of(level: HeadingLevel) -> usize {
    match level {
        HeadingLevel::H1 => 1,
        HeadingLevel::H2 => 2,
        HeadingLevel::H3 => 3,
        HeadingLevel::H4 => 4,
        HeadingLevel::H5 => 5,
        HeadingLevel::H6 => 6,
    }
}

/// Takes an event: it begins a heading, adds to the words of the open one, or ends that.
fn take_event(
    alloc: Global,
    headings: &mut Vec<Heading>,
    is_open: bool,
    (event, place): &(Event<'_>, (usize, usize)),
) -> Result<bool, AllocError> {
    match event {
        Event::Start(Tag::Heading { level, .. }) => {
            headings.push(Heading {
                level: number_of(*level),
                words: String::new(alloc),
                place: *place,
                end: place.1,
            })?;
            Ok(true)
        }
        Event::End(TagEnd::Heading(_)) => Ok(false),
        Event::Text(words) | Event::Code(words) | Event::InlineMath(words) => {
            if is_open && let Some(heading) = headings.last_mut() {
                heading.words.push_str(words.as_ref())?;
            }
            Ok(is_open)
        }
        _ => Ok(is_open),
    }
}

/// The headings of a text, in their order.
pub(crate) fn headings(
    alloc: Global,
    text: &str,
    reading: &Reading,
) -> Result<Vec<Heading>, AllocError> {
    let mut headings = Vec::new(alloc);
    let mut is_open = false;
    for pair in &reading.events {
        is_open = take_event(alloc, &mut headings, is_open, pair)?;
    }
    let mut next = [text.len(); SLOTS];
    for at in (0..headings.len()).rev() {
        let Some(heading) = headings.get_mut(at) else {
            break;
        };
        let (level, start) = (heading.level, heading.place.0);
        heading.end = next.get(level).copied().unwrap_or(text.len());
        for slot in level..SLOTS {
            if let Some(next) = next.get_mut(slot) {
                *next = start;
            }
        }
    }
    Ok(headings)
}

/// Begins a heading's symbol; its children come after that.
fn begin(json: &mut String, lined: &Lined<'_>, heading: &Heading) -> Result<(), AllocError> {
    if json.ends_with('}') {
        json.push(',')?;
    }
    let words = heading.words.as_str().trim();
    let name = JsonText(if words.is_empty() { "#" } else { words });
    let whole = lined.span((heading.place.0, heading.end));
    let own = lined.span(lined.inked(heading.place));
    write!(
        json,
        "{{\"name\":{name},\"kind\":15,\"range\":{whole},\"selectionRange\":{own},\"children\":["
    )
}

/// The headings as a tree of symbols, as JSON.
pub(crate) fn symbols(
    alloc: Global,
    lined: &Lined<'_>,
    headings: &[Heading],
) -> Result<String, AllocError> {
    let mut json = String::from_str(alloc, "[")?;
    let mut levels: Vec<usize> = Vec::new(alloc);
    for heading in headings {
        for _ in 0..LEVELS {
            let is_closed = levels.last().is_some_and(|last| *last >= heading.level);
            if is_closed {
                let _ = levels.pop();
                json.push_str("]}")?;
            }
        }
        begin(&mut json, lined, heading)?;
        levels.push(heading.level)?;
    }
    for _ in &levels {
        json.push_str("]}")?;
    }
    json.push(']')?;
    Ok(json)
}

/// Whether a container can be folded.
fn folds(tag: &Tag<'_>) -> bool {
    matches!(
        tag,
        Tag::BlockQuote(_)
            | Tag::CodeBlock(_)
            | Tag::HtmlBlock
            | Tag::List(_)
            | Tag::Item
            | Tag::FootnoteDefinition(_)
            | Tag::Table(_)
            | Tag::MetadataBlock(_)
    )
}

/// Adds a range that can be folded, if it has several lines.
fn add_fold(json: &mut String, lined: &Lined<'_>, place: (usize, usize)) -> Result<(), AllocError> {
    let span = lined.span(lined.inked(place));
    let (first, last) = (span.start.line, span.stop.line);
    if first >= last {
        return Ok(());
    }
    if json.ends_with('}') {
        json.push(',')?;
    }
    write!(json, "{{\"startLine\":{first},\"endLine\":{last}}}")
}

/// What can be folded, as JSON: sections of headings, quotes, lists, code, tables and the like.
pub(crate) fn folding(
    alloc: Global,
    lined: &Lined<'_>,
    reading: &Reading,
    headings: &[Heading],
) -> Result<String, AllocError> {
    let mut json = String::from_str(alloc, "[")?;
    for heading in headings {
        // a section ends above the line of the next heading, which a container may begin
        let front = lined.line_start(lined.span((heading.end, heading.end)).start.line);
        let end = if heading.end < lined.text.len() {
            front.min(heading.end)
        } else {
            heading.end
        };
        add_fold(&mut json, lined, (heading.place.0, end))?;
    }
    for (event, place) in &reading.events {
        if let Event::Start(tag) = event
            && folds(tag)
        {
            add_fold(&mut json, lined, *place)?;
        }
    }
    json.push(']')?;
    Ok(json)
}
