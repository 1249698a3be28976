//! Texts with new destinations, new words of a heading, or new contents.
//!
//! Each new text is the old one with other bytes in some places. The reader then compares both texts: whatever isn't meant to
//! change says the same in both, or else there is no new text but a fault.

ghost use Rattle.std.specs.Prelude.{◌≡◌, All, IfNone, IfOk, length, map, string_bytes};
ghost use Rattle.tocmark_compare.specs.Given.{given_events};
ghost use Rattle.tocmark_event.specs.Text.{text_of};
ghost use Rattle.tocmark_event.specs.View.{event_view, tag_view};
ghost use Rattle.tocmark_links.specs.Changed.{blank, blank_tag, blanked, SayTheSame};
ghost use Rattle.tocmark_links.specs.Leads.{AreRedirected};
ghost use Rattle.tocmark_links.specs.Places.{IsAt, IsAsked, DiffersAtPlaces};

use crate::anchors::{Anchor, AnchorKind};
use crate::edits::{Edit, spliced};
use crate::leads::{destinations, lead_to, redirected};
use crate::page::{LinkKind, Page, READER};
use crate::slug::Slugs;
use std::alloc::{AllocError, AllocFailed, Global};
use thiserror::Error;
use tocmark_compare::event::same_event;
use tocmark_compare::same::are_same;
use tocmark_event::event::{CowStr, Event, ParserOptions, Tag, TagEnd};
use tocmark_event::reader::{Reader, Reading};
use tocmark_read_scan::basic::byte_at;
use tocmark_read_tokens::reference::unescaped;
use tocmark_reader::{ExtendedReader, Names};

/// Why a text isn't changed.
#[derive(Debug, Drop, Error)]
pub enum Fault {
    /// Memory ran out.
    #[error("out of memory")]
    OutOfMemory,
    /// What is in this line can't be changed without changing what the text says elsewhere, or its place isn't found.
    #[error("line {line}: changing this would change what else the page says")]
    Misread {
        /// The line, from 1 on.
        line: usize,
    },
    /// The new words of a heading are empty, have several lines, or end with what isn't read as words, such as ` #`.
    #[error("a heading's words are one line, without a closing # or an anchor at its end")]
    NoWords,
    /// There is no `<!-- toc -->` with a `<!-- tocstop -->` after it.
    #[error("there is no <!-- toc --> with a <!-- tocstop --> after it")]
    NoContents,
    /// Between `<!-- toc -->` and `<!-- tocstop -->` is more than a list.
    #[error("line {line}: only a list can be between <!-- toc --> and <!-- tocstop -->")]
    NoList {
        /// The line of what isn't a list, from 1 on.
        line: usize,
    },
}

impl From<AllocError> for Fault {
    fn from(_error: AllocError) -> Fault {
        Fault::OutOfMemory
    }
}

impl<T: Drop> From<AllocFailed<T>> for Fault {
    fn from(_error: AllocFailed<T>) -> Fault {
        Fault::OutOfMemory
    }
}

/// A destination with a backslash before each mark.
fn with_backslashes(alloc: Global, destination: &str) -> Result<String, AllocError> {
    let mut text = String::new(alloc);
    for c in destination.chars() {
        if matches!(c, '\\' | '&' | '<' | '>' | '(' | ')') {
            text.push('\\')?;
        }
        text.push(c)?;
    }
    Ok(text)
}

/// Whether a destination can be without `<` and `>`.
fn is_bare(destination: &str) -> bool {
    !destination.is_empty()
        && destination
            .bytes()
            .all(|b| b > b' ' && !matches!(b, b'<' | b'(' | b')' | 0x7f))
}

/// A destination as Markdown spells it, with `<` and `>` if it needs them.
fn spelled(alloc: Global, destination: &str, has_brackets: bool) -> Result<String, AllocError> {
    let read = unescaped(alloc, Names::All, destination.as_bytes())?;
    let has_marks = has_brackets && (destination.contains('<') || destination.contains('>'));
    let is_same = read.as_slice() == destination.as_bytes() && !has_marks;
    let text = if is_same {
        String::from_str(alloc, destination)?
    } else {
        with_backslashes(alloc, destination)?
    };
    if has_brackets || !is_bare(destination) {
        return format!(in alloc; "<{text}>");
    }
    Ok(text)
}

/// A destination as a value of HTML after this byte: a quotation mark, or else the value gets some if it needs them.
fn spelled_in_html(alloc: Global, destination: &str, mark: u8) -> Result<String, AllocError> {
    let text = destination.replace(alloc, "&", "&amp;")?;
    let text = text.as_str().replace(alloc, "\"", "&quot;")?;
    if mark == b'"' {
        return Ok(text);
    }
    let text = text.as_str().replace(alloc, "'", "&#39;")?;
    if mark != b'\'' && text.bytes().any(|b| matches!(b, b' ' | b'=' | b'`')) {
        return format!(in alloc; "\"{text}\"");
    }
    Ok(text)
}

/// The bytes that a link's new destination needs, in its place.
fn edit_of(alloc: Global, text: &str, page: &Page, change: &(usize, String)) -> Result<Edit, Fault>
    ensures { IfOk result (λ edit. IsAt page.now.links.items change.now.0 edit) }
{
    let (number, destination) = change;
    let Some(link) = page.links.get(*number) else {
        return Err(Fault::Misread { line: 1 });
    };
    let Some((start, end)) = link.place else {
        return Err(Fault::Misread { line: link.line });
    };
    let words = if link.kind == LinkKind::Html {
        let mark = byte_at(text.as_bytes(), start.saturating_sub(1));
        spelled_in_html(alloc, destination.as_str(), mark)?
    } else {
        let has_brackets = byte_at(text.as_bytes(), start) == b'<' && end > start;
        spelled(alloc, destination.as_str(), has_brackets)?
    };
    Ok(Edit { start, end, words })
}

/// The edits that changes need, in the order of the text.
fn edits_of(
    alloc: Global,
    text: &str,
    page: &Page,
    changes: &[(usize, String)],
) -> Result<Vec<Edit>, Fault>
    ensures asked { IfOk result (λ edits.
        All (IsAsked page.now.links.items changes.now) edits.items) }
    ensures count { IfOk result (λ edits. length edits.items ≡ length changes.now) }
{
    let mut edits = Vec::with_capacity(alloc, changes.len())?;
    for change in changes {
        edits.push(edit_of(alloc, text, page, change)?)?;
    }
    edits.sort_by_key(|edit| edit.start)?;
    Ok(edits)
}

/// Takes away where a link or an image leads.
fn blank_tag(tag: &mut Tag<'static>)
    ensures { tag_view text_of tag.new ≡ blank_tag (tag_view text_of tag.old) }
{
    match tag {
        Tag::Link { dest_url, .. } => *dest_url = CowStr::Borrowed(""),
        Tag::Image { dest_url, .. } => *dest_url = CowStr::Borrowed(""),
        _ => {}
    }
}

/// Takes away where a link leads, and all HTML: what remains is what new destinations don't change.
fn blank(event: &mut Event<'static>)
    ensures { event_view text_of event.new ≡ blank (event_view text_of event.old) }
{
    match event {
        Event::Start(tag) => blank_tag(tag),
        Event::Html(html) => *html = CowStr::Borrowed(""),
        Event::InlineHtml(html) => *html = CowStr::Borrowed(""),
        _ => {}
    }
}

fn blank_all(events: &mut [Found])
    ensures { given_events events.new ≡ map blank (given_events events.old) }
{
    for (event, _range) in events.iter_mut() {
        blank(event);
    }
}

/// What the reader finds in a text, without destinations and HTML.
fn blanked(alloc: Global, text: &str, flags: ParserOptions) -> Result<Reading, AllocError>
    ensures { IfOk result (λ found. given_events found.events.items ≡ blanked flags text.now) }
{
    let reader = ExtendedReader { names: Names::All };
    let mut found = reader.read(alloc, text, flags)?;
    blank_all(&mut found.events);
    Ok(found)
}

/// Whether two texts say the same, whatever their links lead to and their HTML says; if not, from which byte of the first one on.
fn keeps_all_else(
    alloc: Global,
    flags: ParserOptions,
    text: &str,
    new: &str,
) -> Result<Option<usize>, AllocError>
    ensures { IfOk result (λ at. IfNone at (SayTheSame flags text.now new.now)) }
{
    let before = blanked(alloc, text, flags)?;
    let after = blanked(alloc, new, flags)?;
    if are_same(alloc, &before.events, &after.events)? {
        return Ok(None);
    }
    Ok(Some(first_difference(&before.events, &after.events)))
}

/// An event and its bytes.
type Found = (Event<'static>, (usize, usize));

/// The byte of the first text where two readings first differ: that of its last event, if the other one only goes on.
fn first_difference(one: &[Found], other: &[Found]) -> usize {
    for ((event, range), (other_event, _)) in one.iter().zip(other) {
        if !same_event(event, other_event) {
            return range.0;
        }
    }
    match one.get(other.len()).or(one.last()) {
        Some((_event, range)) => range.0,
        None => 0,
    }
}

/// The line of a byte, from 1 on.
fn line_of(text: &str, at: usize) -> usize {
    let front = text.as_bytes().get(..at).unwrap_or(&[]);
    front
        .iter()
        .filter(|byte| **byte == b'\n')
        .count()
        .saturating_add(1)
}

/// The line of a link of the old page that doesn't lead where it is to lead in the new one.
fn first_astray(old: &Page, new: &Page, wanted: &[&str]) -> Option<usize> {
    for (number, link) in old.links.iter().enumerate() {
        let is_led = match (new.links.get(number), wanted.get(number)) {
            (Some(found), Some(wanted)) => {
                found.kind == link.kind && found.destination.as_str() == *wanted
            }
            _ => false,
        };
        if !is_led {
            return Some(link.line);
        }
    }
    None
}

/// The text in which some links of its page lead elsewhere: each change names a link of `page.links` by its index.
///
/// `page` is the page of this text under these flags. The reader finds the same events in the new text, but for destinations
/// and HTML, and each link leads where it is to lead: those that no change names lead where they led. The new text is the old one
/// in which the destinations of these links are replaced. Definitions are changed in their place, and so all links by their label
/// lead elsewhere, too.
///
/// It fails if memory runs out, or if there is no such text: then the fault names the line.
pub fn with_destinations(
    alloc: Global,
    text: &str,
    flags: ParserOptions,
    page: &Page,
    changes: &[(usize, String)],
) -> Result<String, Fault>
    ensures events { IfOk result (λ new. SayTheSame flags text.now (string_bytes new)) }
    ensures leads { IfOk result (λ new.
        AreRedirected flags page.now.links.items changes.now text.now (string_bytes new)) }
    ensures bytes { IfOk result (λ new.
        DiffersAtPlaces page.now.links.items changes.now text.now (string_bytes new)) }
{
    let edits = edits_of(alloc, text, page, changes)?;
    let Some(new) = spliced(alloc, text, &edits)? else {
        return Err(Fault::Misread { line: 1 });
    };
    if let Some(at) = keeps_all_else(alloc, flags, text, new.as_str())? {
        return Err(Fault::Misread {
            line: line_of(text, at),
        });
    }
    let found = Page::read(alloc, new.as_str(), flags, Slugs::GitHub)?;
    let links = &page.links;
    let wanted = redirected(alloc, links, changes)?;
    if let Some(line) = first_astray(page, &found, &wanted) {
        return Err(Fault::Misread { line });
    }
    let old = destinations(alloc, links)?;
    if !lead_to(alloc, text, flags, links, &old)? {
        return Err(Fault::Misread { line: 1 });
    }
    if !lead_to(alloc, new.as_str(), flags, links, &wanted)? {
        return Err(Fault::Misread { line: 1 });
    }
    Ok(new)
}

/// Takes out the events within a heading: the one of this number, from 0 on.
fn without_heading(alloc: Global, found: Reading, number: usize) -> Result<Vec<Found>, AllocError> {
    let mut rest = Vec::with_capacity(alloc, found.events.len())?;
    let mut headings = 0usize;
    let mut is_within = false;
    for (event, range) in found.events {
        if let Event::End(TagEnd::Heading(_)) = &event {
            is_within = false;
        }
        let begins = matches!(&event, Event::Start(Tag::Heading { .. }));
        if !is_within {
            rest.push((event, range))?;
        }
        if begins {
            is_within = headings == number;
            headings = headings.saturating_add(1);
        }
    }
    Ok(rest)
}

/// The number of the heading whose words begin at a byte.
fn heading_number(found: &Reading, at: usize) -> usize {
    let mut number = 0usize;
    for (event, range) in &found.events {
        if matches!(event, Event::Start(Tag::Heading { .. })) && range.1 <= at {
            number = number.saturating_add(1);
        }
    }
    number
}

/// Whether a heading of a text has all these words, which begin at a byte: none of the last ones is read as an anchor or as `#`
/// that close it.
fn has_words(
    alloc: Global,
    text: &str,
    flags: ParserOptions,
    (start, words): (usize, &str),
) -> Result<bool, AllocError> {
    let end = start.saturating_add(words.len());
    let page = Page::read(alloc, text, flags, Slugs::GitHub)?;
    for anchor in &page.anchors {
        if anchor.kind != AnchorKind::Html
            && let Some((first, last)) = anchor.place
            && first >= start
            && last == end
        {
            return Ok(true);
        }
    }
    Ok(false)
}

/// The text in which a heading has other words; `heading` is its anchor in the text's page.
///
/// The words are Markdown in one line. The reader finds the same events before and after the heading, and takes all words for
/// words. An anchor that is written after them stays. It fails if memory runs out, if these are no words of a heading, or if there
/// is no such text: then the fault names the line.
pub fn with_heading(
    alloc: Global,
    text: &str,
    flags: ParserOptions,
    heading: &Anchor,
    words: &str,
) -> Result<String, Fault> {
    let words = words.trim();
    if words.is_empty() || words.contains('\n') || words.contains('\r') {
        return Err(Fault::NoWords);
    }
    let line = heading.line;
    let Some((start, end)) = heading.place else {
        return Err(Fault::Misread { line });
    };
    let mut edits = Vec::new(alloc);
    edits.push(Edit {
        start,
        end,
        words: String::from_str(alloc, words)?,
    })?;
    let Some(new) = spliced(alloc, text, &edits)? else {
        return Err(Fault::Misread { line });
    };
    let before = READER.read(alloc, text, flags)?;
    let after = READER.read(alloc, new.as_str(), flags)?;
    let number = heading_number(&before, start);
    let kept = without_heading(alloc, before, number)?;
    let found = without_heading(alloc, after, number)?;
    if !are_same(alloc, &kept, &found)? {
        return Err(Fault::Misread { line });
    }
    if has_words(alloc, new.as_str(), flags, (start, words))? {
        return Ok(new);
    }
    Err(Fault::NoWords)
}

/// The bytes between `<!-- toc -->` and `<!-- tocstop -->`.
fn contents_place(found: &Reading) -> Option<(usize, usize)> {
    let mut start = None;
    for (event, range) in &found.events {
        if let Event::Html(html) = event {
            let words = html.as_ref().trim();
            if words == "<!-- toc -->" && start.is_none() {
                start = Some(range.1);
            }
            if words == "<!-- tocstop -->"
                && let Some(start) = start
            {
                return Some((start, range.0));
            }
        }
    }
    None
}

/// The first byte between two others of what is in no list.
fn outside_of_lists(found: &Reading, start: usize, end: usize) -> Option<usize> {
    let mut list_end = start;
    for (event, range) in &found.events {
        if range.0 >= list_end && range.0 < end {
            if let Event::Start(Tag::List(_)) = event {
                list_end = range.1;
            } else {
                return Some(range.0);
            }
        }
    }
    None
}

/// Takes out the events between two bytes.
fn without_range(
    alloc: Global,
    found: Reading,
    start: usize,
    end: usize,
) -> Result<Vec<Found>, AllocError> {
    let mut rest = Vec::with_capacity(alloc, found.events.len())?;
    for (event, range) in found.events {
        if range.1 <= start || range.0 >= end {
            rest.push((event, range))?;
        }
    }
    Ok(rest)
}

/// Words with a backslash before each mark.
fn escaped(alloc: Global, words: &str) -> Result<String, AllocError> {
    let mut text = String::new(alloc);
    for c in words.chars() {
        if matches!(
            c,
            '\\' | '`' | '*' | '_' | '[' | ']' | '<' | '&' | '~' | '$' | '!' | '^' | '|'
        ) {
            text.push('\\')?;
        }
        text.push(c)?;
    }
    Ok(text)
}

/// Leaves the headings that one of this level isn't under.
fn leave(levels: &mut Vec<usize>, level: usize) {
    for _ in 0..levels.len() {
        if levels.last().copied().unwrap_or(0) < level {
            return;
        }
        levels.pop();
    }
}

/// Adds a heading to a list, under so many others.
fn list_heading(
    alloc: Global,
    list: &mut String,
    heading: &Anchor,
    depth: usize,
) -> Result<(), AllocError> {
    for _ in 0..depth {
        list.push_str("  ")?;
    }
    let words = escaped(alloc, heading.words.as_str())?;
    let name = heading.name.as_str();
    let destination = spelled(alloc, format!(in alloc; "#{name}")?.as_str(), false)?;
    list.push_str(format!(in alloc; "- [{words}]({destination})\n")?.as_str())?;
    Ok(())
}

/// A list of headings, each under the one before it that has fewer `#`.
fn contents(alloc: Global, page: &Page, after: usize) -> Result<String, AllocError> {
    let mut list = String::new(alloc);
    let mut levels: Vec<usize> = Vec::new(alloc);
    for anchor in &page.anchors {
        let is_listed = match anchor.place {
            Some((start, _)) => anchor.kind != AnchorKind::Html && start >= after,
            None => false,
        };
        if is_listed {
            leave(&mut levels, anchor.level);
            list_heading(alloc, &mut list, anchor, levels.len())?;
            levels.push(anchor.level)?;
        }
    }
    Ok(list)
}

/// Lines that end as those of a text do: with a carriage return, if the first one does.
fn with_feeds_of(alloc: Global, text: &str, lines: String) -> Result<String, AllocError> {
    match text.split_once('\n') {
        Some((first, _rest)) if first.ends_with('\r') => {
            lines.as_str().replace(alloc, "\n", "\r\n")
        }
        _ => Ok(lines),
    }
}

/// The lines of a table of contents: a list of links to the headings of a text after a byte, between empty lines.
fn contents_lines(
    alloc: Global,
    text: &str,
    page: &Page,
    after: usize,
) -> Result<String, AllocError> {
    let list = contents(alloc, page, after)?;
    let lines = if list.is_empty() {
        String::from_str(alloc, "\n")?
    } else {
        format!(in alloc; "\n{list}\n")?
    };
    with_feeds_of(alloc, text, lines)
}

/// The text with a list of links to the headings after it, between a line `<!-- toc -->` and a line `<!-- tocstop -->`. Without
/// such headings, one empty line is between them.
///
/// The events before and after these lines stay. It fails if memory runs out, if there are no such lines, or if
/// more than a list is between them.
pub fn with_contents(
    alloc: Global,
    text: &str,
    flags: ParserOptions,
    slugs: Slugs,
) -> Result<String, Fault> {
    let before = READER.read(alloc, text, flags)?;
    let Some((start, end)) = contents_place(&before) else {
        return Err(Fault::NoContents);
    };
    if let Some(at) = outside_of_lists(&before, start, end) {
        return Err(Fault::NoList {
            line: line_of(text, at),
        });
    }
    let page = Page::read(alloc, text, flags, slugs)?;
    let new = contents_lines(alloc, text, &page, end)?;
    let length = new.len();
    let mut edits = Vec::new(alloc);
    edits.push(Edit {
        start,
        end,
        words: new,
    })?;
    let Some(new) = spliced(alloc, text, &edits)? else {
        return Err(Fault::NoContents);
    };
    let after = READER.read(alloc, new.as_str(), flags)?;
    let kept = without_range(alloc, before, start, end)?;
    let found = without_range(alloc, after, start, start.saturating_add(length))?;
    if are_same(alloc, &kept, &found)? {
        return Ok(new);
    }
    Err(Fault::Misread {
        line: line_of(text, start),
    })
}
