//! What one Markdown text has: its links and its anchors.

ghost use Rattle.std.specs.Prelude.{IfOk};
ghost use Rattle.tocmark_links.specs.Anchors.{reserved, AreNumbered};

use crate::anchors::{Anchor, AnchorKind, number};
use crate::html::{Value, values};
use crate::slug::Slugs;
use std::alloc::{AllocError, Global};
use std::mem;
use tocmark_event::event::{Event, HeadingLevel, LinkType, ParserOptions, Tag, TagEnd};
use tocmark_event::reader::Reading;
use tocmark_read_scan::basic::{byte_at, bytes_between, starts_at};
use tocmark_read_scan::class::{Class, run_end};
use tocmark_read_tokens::reference::unescaped;
use tocmark_read_tokens::word::destination;
use tocmark_reader::{ExtendedReader, Names, ReferenceDefinition};

/// The reader of all pages.
pub(crate) const READER: ExtendedReader = ExtendedReader { names: Names::All };

/// What a link is in its text.
#[derive(Clone, Copy, PartialEq, Eq)]
pub enum LinkKind {
    /// `[text](destination)`
    Inline,
    /// `![text](destination)`
    Image,
    /// `[label]: destination`
    Definition,
    /// `href` or `src` of HTML.
    Html,
}

/// A link of a page. Autolinks, such as `<https://example.org>`, are none.
#[derive(Drop)]
pub struct Link {
    pub kind: LinkKind,
    /// Where it leads, without escapes and character references.
    pub destination: String,
    /// The bytes of its destination in the text, with `<` and `>` if it has them; `None`, if that place isn't found.
    pub place: Option<(usize, usize)>,
    /// The line of the text where it begins, from 1 on.
    pub line: usize,
    /// The character of that line where it begins, from 1 on.
    pub column: usize,
}

/// The links of a text, and its anchors, in their order.
#[derive(Drop)]
pub struct Page {
    pub links: Vec<Link>,
    pub anchors: Vec<Anchor>,
}

/// A link that is open.
#[derive(Drop)]
struct OpenLink {
    kind: LinkKind,
    destination: String,
    is_inline: bool,
    start: usize,
}

/// A link without its line.
#[derive(Drop)]
struct FoundLink {
    kind: LinkKind,
    destination: String,
    place: Option<(usize, usize)>,
    start: usize,
}

/// The heading that is open.
#[derive(Drop)]
struct OpenHeading {
    level: usize,
    id: Option<String>,
    words: String,
    /// The first byte of its words, and the one after the last.
    place: Option<(usize, usize)>,
}

/// Collects links and anchors from events. Headings get their anchors in the end.
#[derive(Drop)]
struct Collecting<'t> {
    alloc: Global,
    text: &'t str,
    slugs: Slugs,
    links: Vec<FoundLink>,
    anchors: Vec<Anchor>,
    open_links: Vec<OpenLink>,
    open_images: usize,
    heading: Option<OpenHeading>,
    /// The anchors of the HTML in the heading that is open.
    within: Vec<Anchor>,
    /// Where the last event ends.
    end: usize,
}

/// Adds what mdBook shows for so many `-`: a dash, unless it is one alone.
fn push_hyphens(text: &mut String, count: usize) -> Result<(), AllocError> {
    match count {
        0 => Ok(()),
        1 => text.push('-'),
        3 => text.push('\u{2014}'),
        _ => text.push('\u{2013}'),
    }
}

/// A text with a dash for each stretch of two or more `-`, as mdBook shows it.
fn with_dashes(alloc: Global, text: &str) -> Result<String, AllocError> {
    let mut dashed = String::new(alloc);
    let mut hyphens = 0usize;
    for c in text.chars() {
        if c == '-' {
            hyphens = hyphens.saturating_add(1);
        } else {
            push_hyphens(&mut dashed, hyphens)?;
            hyphens = 0;
            dashed.push(c)?;
        }
    }
    push_hyphens(&mut dashed, hyphens)?;
    Ok(dashed)
}

/// How many `#` a heading of this level has.
fn number_of(level: HeadingLevel) -> usize {
    match level {
        HeadingLevel::H1 => 1,
        HeadingLevel::H2 => 2,
        HeadingLevel::H3 => 3,
        HeadingLevel::H4 => 4,
        HeadingLevel::H5 => 5,
        HeadingLevel::H6 => 6,
    }
}

/// Where the destination of an inline link begins, whose text ends at a byte: after the next `](`.
fn destination_start(bytes: &[u8], from: usize, end: usize) -> Option<usize> {
    for at in from..end {
        if starts_at(bytes, at, b"](") {
            return Some(run_end(bytes, at.saturating_add(2), Class::White));
        }
    }
    None
}

/// The byte after the signs of quotes at a byte, with the white space after each.
fn after_signs(bytes: &[u8], from: usize, end: usize) -> usize {
    let mut at = from;
    for _ in from..end {
        if byte_at(bytes, at) != b'>' {
            break;
        }
        at = run_end(bytes, at.saturating_add(1), Class::White);
    }
    at
}

/// The bytes of a destination without `<` and `>`.
pub(crate) fn without_brackets(bytes: &[u8], place: (usize, usize)) -> (usize, usize) {
    let (start, end) = place;
    if byte_at(bytes, start) == b'<' && end > start {
        (start.saturating_add(1), end.saturating_sub(1))
    } else {
        place
    }
}

/// The place of a destination that begins at a byte, if its bytes stand for this one.
fn place_at(
    alloc: Global,
    bytes: &[u8],
    at: usize,
    wanted: &str,
) -> Result<Option<(usize, usize)>, AllocError> {
    let Some(word) = destination(bytes, at) else {
        return Ok(None);
    };
    let place = (at, word.next);
    let (start, end) = without_brackets(bytes, place);
    let found = unescaped(alloc, Names::All, bytes_between(bytes, start, end))?;
    if found.as_slice() == wanted.as_bytes() {
        Ok(Some(place))
    } else {
        Ok(None)
    }
}

/// The place of the destination of an inline link between two bytes. If that begins a line of a quote, the signs of the quote are
/// before it.
fn destination_place(
    alloc: Global,
    bytes: &[u8],
    (from, end): (usize, usize),
    wanted: &str,
) -> Result<Option<(usize, usize)>, AllocError> {
    let Some(start) = destination_start(bytes, from, end) else {
        return Ok(None);
    };
    let place = place_at(alloc, bytes, start, wanted)?;
    if place.is_some() {
        return Ok(place);
    }
    place_at(alloc, bytes, after_signs(bytes, start, end), wanted)
}

/// The words of a heading before `{#id}` or `{: #id}`, and that id.
fn named(words: &str) -> Option<(&str, &str)> {
    let front = words.trim_end().strip_suffix('}')?;
    let (words, braces) = front.rsplit_once('{')?;
    if braces.contains('}') {
        return None;
    }
    let braces = braces.strip_prefix(':').unwrap_or(braces);
    for word in braces.split_whitespace() {
        if let Some(id) = word.strip_prefix('#')
            && !id.is_empty()
        {
            return Some((words, id));
        }
    }
    None
}

impl<'t> Collecting<'t> {
    fn new(alloc: Global, text: &'t str, slugs: Slugs) -> Collecting<'t> {
        Collecting {
            alloc,
            text,
            slugs,
            links: Vec::new(alloc),
            anchors: Vec::new(alloc),
            open_links: Vec::new(alloc),
            open_images: 0,
            heading: None,
            within: Vec::new(alloc),
            end: 0,
        }
    }

    fn add_definitions(&mut self, definitions: &[ReferenceDefinition]) -> Result<(), AllocError> {
        for definition in definitions {
            self.links.push(FoundLink {
                kind: LinkKind::Definition,
                destination: definition.destination.clone()?,
                place: Some(definition.place.destination),
                start: definition.place.whole.0,
            })?;
        }
        Ok(())
    }

    /// Takes the HTML between two bytes.
    fn add_html(&mut self, start: usize, end: usize) -> Result<(), AllocError> {
        let found = values(self.alloc, self.text.as_bytes(), start, end)?;
        for value in &found {
            self.add_value(*value)?;
        }
        Ok(())
    }

    /// Takes a value of HTML. Backslashes are escaped first, because they are no escapes there.
    fn add_value(&mut self, value: Value) -> Result<(), AllocError> {
        let place = (value.start, value.end);
        let written = self.text.get(value.start..value.end).unwrap_or("");
        let text = written.replace(self.alloc, "\\", "\\\\")?;
        let text = unescaped(self.alloc, Names::All, text.as_bytes())?;
        let text = String::from_utf8_lossy(self.alloc, &text)?;
        if value.leads {
            self.links.push(FoundLink {
                kind: LinkKind::Html,
                destination: text,
                place: Some(place),
                start: value.start,
            })?;
        } else {
            self.add_element(text, value.start)?;
        }
        Ok(())
    }

    /// Adds the anchor of an element of HTML, after that of the heading that the element is in.
    fn add_element(&mut self, name: String, start: usize) -> Result<(), AllocError> {
        let anchor = Anchor {
            kind: AnchorKind::Html,
            name,
            words: String::new(self.alloc),
            level: 0,
            place: None,
            line: start,
        };
        if self.heading.is_some() {
            self.within.push(anchor)?;
        } else {
            self.anchors.push(anchor)?;
        }
        Ok(())
    }

    /// Adds the anchors of the HTML in a heading that is closed.
    fn add_within(&mut self) -> Result<(), AllocError> {
        let within = mem::replace(&mut self.within, Vec::new(self.alloc));
        for anchor in within {
            self.anchors.push(anchor)?;
        }
        Ok(())
    }

    fn open_link(
        &mut self,
        kind: LinkKind,
        link_type: LinkType,
        destination: &str,
        start: usize,
    ) -> Result<(), AllocError> {
        let destination = String::from_str(self.alloc, destination)?;
        self.open_links.push(OpenLink {
            kind,
            destination,
            is_inline: link_type == LinkType::Inline,
            start,
        })?;
        Ok(())
    }

    fn close_link(&mut self, end: usize) -> Result<(), AllocError> {
        let Some(link) = self.open_links.pop() else {
            return Ok(());
        };
        let OpenLink {
            kind,
            destination,
            is_inline,
            start,
        } = link;
        if is_inline {
            let bytes = self.text.as_bytes();
            let within = (self.end.max(start), end);
            let place = destination_place(self.alloc, bytes, within, destination.as_str())?;
            self.links.push(FoundLink {
                kind,
                destination,
                place,
                start,
            })?;
        }
        Ok(())
    }

    fn open_heading(&mut self, level: HeadingLevel, id: Option<&str>) -> Result<(), AllocError> {
        let id = match id {
            None => None,
            Some(id) => Some(String::from_str(self.alloc, id)?),
        };
        self.heading = Some(OpenHeading {
            level: number_of(level),
            id,
            words: String::new(self.alloc),
            place: None,
        });
        Ok(())
    }

    fn close_heading(&mut self, start: usize) -> Result<(), AllocError> {
        let Some(heading) = self.heading.take() else {
            return Ok(());
        };
        let OpenHeading {
            level,
            id,
            words,
            place,
        } = heading;
        if let Some(id) = id {
            let words = String::from_str(self.alloc, words.as_str().trim())?;
            return self.add_named(id, words, level, place, start);
        }
        if let Some((before, id)) = named(words.as_str()) {
            let place = self.before_brace(place);
            let words = String::from_str(self.alloc, before.trim())?;
            let id = String::from_str(self.alloc, id)?;
            return self.add_named(id, words, level, place, start);
        }
        let words = String::from_str(self.alloc, words.as_str().trim())?;
        self.anchors.push(Anchor {
            kind: AnchorKind::Heading,
            name: String::new(self.alloc),
            words,
            level,
            place,
            line: start,
        })?;
        Ok(())
    }

    /// Adds the anchor that a heading names itself.
    fn add_named(
        &mut self,
        name: String,
        words: String,
        level: usize,
        place: Option<(usize, usize)>,
        start: usize,
    ) -> Result<(), AllocError> {
        self.anchors.push(Anchor {
            kind: AnchorKind::Named,
            name,
            words,
            level,
            place,
            line: start,
        })?;
        Ok(())
    }

    /// A place without what begins with its last brace.
    fn before_brace(&self, place: Option<(usize, usize)>) -> Option<(usize, usize)> {
        let (start, end) = place?;
        let (front, _) = self.text.get(start..end)?.rsplit_once('{')?;
        Some((start, start.saturating_add(front.trim_end().len())))
    }

    /// Adds words to the heading that is open.
    fn add_words(&mut self, words: &str) -> Result<(), AllocError> {
        if self.open_images == 0
            && let Some(heading) = &mut self.heading
        {
            heading.words.push_str(words)?;
        }
        Ok(())
    }

    /// Adds a text to the heading that is open, as its site shows it.
    fn add_text(&mut self, text: &str) -> Result<(), AllocError> {
        if matches!(self.slugs, Slugs::MdBook) && text.contains("--") {
            let dashed = with_dashes(self.alloc, text)?;
            return self.add_words(dashed.as_str());
        }
        self.add_words(text)
    }

    /// Notes that an event in the open heading has these bytes.
    fn widen(&mut self, start: usize, end: usize) {
        if let Some(heading) = &mut self.heading {
            heading.place = match heading.place {
                None => Some((start, end)),
                Some((first, last)) => Some((first, last.max(end))),
            };
        }
    }

    fn start(&mut self, tag: &Tag<'_>, range: (usize, usize)) -> Result<(), AllocError> {
        let (start, end) = range;
        match tag {
            Tag::Heading { level, id, .. } => {
                let id = match id {
                    None => None,
                    Some(id) => Some(id.as_ref()),
                };
                self.open_heading(*level, id)?;
            }
            Tag::Link {
                link_type,
                dest_url,
                ..
            } => {
                self.widen(start, end);
                self.open_link(LinkKind::Inline, *link_type, dest_url.as_ref(), start)?;
                self.end = start.saturating_add(1);
            }
            Tag::Image {
                link_type,
                dest_url,
                ..
            } => {
                self.widen(start, end);
                self.open_images = self.open_images.saturating_add(1);
                self.open_link(LinkKind::Image, *link_type, dest_url.as_ref(), start)?;
                self.end = start.saturating_add(2);
            }
            Tag::HtmlBlock => self.add_html(start, end)?,
            _ => self.widen(start, end),
        }
        Ok(())
    }

    fn end(&mut self, tag: TagEnd, range: (usize, usize)) -> Result<(), AllocError> {
        match tag {
            TagEnd::Heading(_) => {
                self.close_heading(range.0)?;
                self.add_within()?;
            }
            TagEnd::Link => self.close_link(range.1)?,
            TagEnd::Image => {
                self.close_link(range.1)?;
                self.open_images = self.open_images.saturating_sub(1);
            }
            _ => {}
        }
        self.end = range.1;
        Ok(())
    }

    fn leaf(&mut self, event: &Event<'_>, range: (usize, usize)) -> Result<(), AllocError> {
        self.widen(range.0, range.1);
        match event {
            Event::Text(text) => self.add_text(text.as_ref())?,
            Event::Code(text) | Event::InlineMath(text) => self.add_words(text.as_ref())?,
            Event::SoftBreak | Event::HardBreak => self.add_words(" ")?,
            Event::InlineHtml(_) => self.add_html(range.0, range.1)?,
            _ => {}
        }
        self.end = range.1;
        Ok(())
    }

    fn event(&mut self, event: &Event<'_>, range: (usize, usize)) -> Result<(), AllocError> {
        match event {
            Event::Start(tag) => self.start(tag, range),
            Event::End(tag) => self.end(*tag, range),
            _ => self.leaf(event, range),
        }
    }

    fn events(&mut self, found: &Reading) -> Result<(), AllocError> {
        for (event, range) in &found.events {
            self.event(event, *range)?;
        }
        Ok(())
    }
}

/// A place in a text, that goes forward.
#[derive(Drop)]
struct Cursor<'t> {
    text: &'t str,
    at: usize,
    line: usize,
    column: usize,
}

impl Cursor<'_> {
    /// Goes to a byte, unless it lies before this place.
    fn go(&mut self, to: usize) {
        for c in self.text.get(self.at..to).unwrap_or("").chars() {
            if c == '\n' {
                self.line = self.line.saturating_add(1);
                self.column = 1;
            } else {
                self.column = self.column.saturating_add(1);
            }
        }
        self.at = self.at.max(to);
    }
}

/// A cursor at the front of a text.
fn at_front(text: &str) -> Cursor<'_> {
    Cursor {
        text,
        at: 0,
        line: 1,
        column: 1,
    }
}

/// Links with their lines, in the order of the text.
fn with_lines(
    alloc: Global,
    text: &str,
    mut found: Vec<FoundLink>,
) -> Result<Vec<Link>, AllocError> {
    found.sort_by_key(|link| link.start)?;
    let mut cursor = at_front(text);
    let mut links = Vec::with_capacity(alloc, found.len())?;
    for link in found {
        let FoundLink {
            kind,
            destination,
            place,
            start,
        } = link;
        cursor.go(start);
        links.push(Link {
            kind,
            destination,
            place,
            line: cursor.line,
            column: cursor.column,
        })?;
    }
    Ok(links)
}

/// A page with these links and anchors, whose headings get their anchors.
fn numbered_page(
    alloc: Global,
    slugs: Slugs,
    links: Vec<Link>,
    mut anchors: Vec<Anchor>,
) -> Result<Page, AllocError>
    ensures { IfOk result (λ page. AreNumbered slugs (reserved slugs) page.anchors.items) }
{
    number(alloc, slugs, &mut anchors)?;
    Ok(Page { links, anchors })
}

impl Page {
    /// The links and anchors of a text, read under these flags, with the anchors that a site makes.
    ///
    /// Links are inline links and images, definitions of links, used or not, and `href` and `src` of HTML. Anchors are those of
    /// headings, `{#id}` and `{: #id}` after their words, and `id` and `name` of HTML. A heading that names no anchor itself has
    /// the slug of its words, with the first number after it by which no heading before it has the same anchor. Of words for
    /// mdBook, `--` outside of code is a dash. Under Python-Markdown's rule, headings of whose words nothing is left are
    /// `_1`, `_2` and so on. It fails if memory runs out.
    ///
    /// ```
    /// let page = Page::read(alloc, "# One\n\n[two](b.md#two)\n", flags, Slugs::GitHub)?;
    /// assert_eq!(rt; page.links[0].destination.as_str(), "b.md#two");
    /// ```
    pub fn read(
        alloc: Global,
        text: &str,
        flags: ParserOptions,
        slugs: Slugs,
    ) -> Result<Page, AllocError>
        ensures { IfOk result (λ page. AreNumbered slugs (reserved slugs) page.anchors.items) }
    {
        let mut collecting = Collecting::new(alloc, text, slugs);
        let (blocks, definitions) = READER.blocks_and_definitions(alloc, text, flags)?;
        let found = blocks.rest()?;
        collecting.events(&found)?;
        collecting.add_definitions(&definitions)?;
        let Collecting {
            links,
            mut anchors,
            ..
        } = collecting;
        let links = with_lines(alloc, text, links)?;
        let mut cursor = at_front(text);
        for anchor in &mut anchors {
            cursor.go(anchor.line);
            anchor.line = cursor.line;
        }
        numbered_page(alloc, slugs, links, anchors)
    }
}
