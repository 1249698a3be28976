//! Where links lead: the answers about links, labels and anchors.

use crate::lined::{Lined, Span, holds};
use crate::message::JsonText;
use crate::outline::headings;
use crate::tree::{Files, Gathering, Place, Terms, is_of_file};
use std::alloc::{AllocError, Global};
use std::fmt::Write;
use tocmark_event::event::{Event, LinkType, Tag};
use tocmark_event::reader::{Reader, Reading};
use tocmark_links::anchors::{Anchor, AnchorKind};
use tocmark_links::destination::{decoded, encoded, is_local, parts};
use tocmark_links::page::{Link, Page};
use tocmark_links::tree::{Led, Tree};
use tocmark_lsp_text::positions::{Encoding, Position};
use tocmark_reader::{ExtendedReader, Names, ReferenceDefinition};

/// What reads texts.
const READER: ExtendedReader = ExtendedReader { names: Names::All };

/// A link of a text, as it is found at a place.
#[derive(Drop)]
pub(crate) struct Found {
    place: (usize, usize),
    destination: String,
    /// The label that names its definition; empty if it has none.
    label: String,
}

/// A label as it is compared.
pub(crate) fn folded(alloc: Global, label: &str) -> Result<String, AllocError> {
    let mut plain = String::new(alloc);
    for word in label.split_whitespace() {
        plain.push_str(word)?;
        plain.push(' ')?;
    }
    plain.as_str().to_lowercase(alloc)
}

/// Whether a link is one by a label that is defined.
fn is_by_label(link_type: LinkType) -> bool {
    matches!(
        link_type,
        LinkType::Reference | LinkType::Collapsed | LinkType::Shortcut
    )
}

/// How a link or an image by a label is written, and that label. `None`: it is by none, or the event is something else.
pub(crate) fn label_of<'e>(event: &'e Event<'_>) -> Option<(LinkType, &'e str)> {
    let Event::Start(tag) = event else {
        return None;
    };
    let (link_type, label) = match tag {
        Tag::Link { link_type, id, .. } => (*link_type, id.as_ref()),
        Tag::Image { link_type, id, .. } => (*link_type, id.as_ref()),
        _ => return None,
    };
    if is_by_label(link_type) {
        Some((link_type, label))
    } else {
        None
    }
}

/// Whether an event begins a link or an image.
fn is_link(event: &Event<'_>) -> bool {
    matches!(
        event,
        Event::Start(Tag::Link { .. }) | Event::Start(Tag::Image { .. })
    )
}

/// A link with this destination, and a label if it is by one.
fn new_found(
    alloc: Global,
    place: (usize, usize),
    link_type: LinkType,
    destination: &str,
    label: &str,
) -> Result<Option<Found>, AllocError> {
    let label = if is_by_label(link_type) { label } else { "" };
    Ok(Some(Found {
        place,
        destination: String::from_str(alloc, destination)?,
        label: String::from_str(alloc, label)?,
    }))
}

/// The link that an event begins.
fn link_of(
    alloc: Global,
    event: &Event<'_>,
    place: (usize, usize),
) -> Result<Option<Found>, AllocError> {
    let Event::Start(tag) = event else {
        return Ok(None);
    };
    match tag {
        Tag::Link {
            link_type,
            dest_url,
            id,
            ..
        } => new_found(alloc, place, *link_type, dest_url.as_ref(), id.as_ref()),
        Tag::Image {
            link_type,
            dest_url,
            id,
            ..
        } => new_found(alloc, place, *link_type, dest_url.as_ref(), id.as_ref()),
        _ => Ok(None),
    }
}

/// A text, and what the reader finds in it.
#[derive(Drop)]
pub(crate) struct Read<'t> {
    pub(crate) lined: Lined<'t>,
    pub(crate) reading: Reading,
    pub(crate) definitions: Vec<ReferenceDefinition>,
}

impl<'t> Read<'t> {
    pub(crate) fn of(
        alloc: Global,
        text: &'t str,
        encoding: Encoding,
        terms: Terms,
    ) -> Result<Read<'t>, AllocError> {
        let (blocks, definitions) = READER.blocks_and_definitions(alloc, text, terms.flags)?;
        let reading = blocks.rest()?;
        let lined = Lined::new(alloc, text, encoding)?;
        Ok(Read {
            lined,
            reading,
            definitions,
        })
    }

    /// The event that begins the innermost link at a byte.
    fn link_at(&self, at: usize) -> Option<&(Event<'static>, (usize, usize))> {
        let mut last = None;
        for (number, (event, place)) in self.reading.events.iter().enumerate() {
            if holds(*place, at) && is_link(event) {
                last = Some(number);
            }
        }
        self.reading.events.get(last?)
    }

    /// The innermost link or the definition at a byte.
    fn found(&self, alloc: Global, at: usize) -> Result<Option<Found>, AllocError> {
        for definition in &self.definitions {
            if holds(definition.place.whole, at) {
                return Ok(Some(Found {
                    place: definition.place.whole,
                    destination: definition.destination.clone()?,
                    label: String::new(alloc),
                }));
            }
        }
        match self.link_at(at) {
            Some((event, place)) => link_of(alloc, event, *place),
            None => Ok(None),
        }
    }

    /// Where a label is defined.
    fn definition(&self, alloc: Global, label: &str) -> Result<Option<(usize, usize)>, AllocError> {
        let label = folded(alloc, label)?;
        for definition in &self.definitions {
            if folded(alloc, definition.label.as_str())?.as_str() == label.as_str() {
                return Ok(Some(definition.place.whole));
            }
        }
        Ok(None)
    }

    /// The label of the link or of the definition at a byte.
    fn label_at(&self, alloc: Global, at: usize) -> Result<Option<String>, AllocError> {
        for definition in &self.definitions {
            if holds(definition.place.whole, at) {
                return folded(alloc, definition.label.as_str()).map(Some);
            }
        }
        match self.link_at(at) {
            Some((event, _)) => match label_of(event) {
                Some((_, label)) => folded(alloc, label).map(Some),
                None => Ok(None),
            },
            None => Ok(None),
        }
    }

    /// The places of the links by a label.
    fn links_by(&self, alloc: Global, label: &str) -> Result<Vec<(usize, usize)>, AllocError> {
        let mut places = Vec::new(alloc);
        for (event, place) in &self.reading.events {
            if let Some((_, written)) = label_of(event)
                && folded(alloc, written)?.as_str() == label
            {
                places.push(*place)?;
            }
        }
        Ok(places)
    }
}

/// Adds a location to a list of JSON.
pub(crate) fn add_location(json: &mut String, uri: &str, span: Span) -> Result<(), AllocError> {
    if json.ends_with('}') {
        json.push(',')?;
    }
    let uri = JsonText(uri);
    write!(json, "{{\"uri\":{uri},\"range\":{span}}}")
}

/// The range of a line's front; lines count from 1.
pub fn front_of(line: usize) -> Span {
    let front = Position {
        line: line.saturating_sub(1),
        character: 0,
    };
    Span {
        start: front,
        stop: front,
    }
}

/// The anchor of the heading on a line; lines count from 1.
fn anchor_in(page: &Page, line: usize) -> Option<&Anchor> {
    page.anchors
        .iter()
        .find(|it| it.line == line && it.kind != AnchorKind::Html)
}

/// The answers about the links of one document.
#[derive(Clone, Copy)]
pub struct Asking<'a, F> {
    pub gathering: Gathering<'a, F>,
    pub uri: &'a str,
    pub text: &'a str,
    /// The number that the client gives this state of the text.
    pub version: Option<i64>,
    pub encoding: Encoding,
}

impl<'a, F: Files> Asking<'a, F> {
    fn alloc(&self) -> Global {
        self.gathering.alloc
    }

    fn place(&self) -> &Place {
        self.gathering.place
    }

    /// The links and anchors of the document.
    pub(crate) fn page(&self) -> Result<Page, AllocError> {
        self.page_of(self.text)
    }

    pub(crate) fn read(&self) -> Result<Read<'a>, AllocError> {
        Read::of(self.alloc(), self.text, self.encoding, self.gathering.terms)
    }

    /// What the reader finds in a text.
    pub(crate) fn reading(&self, text: &str) -> Result<Reading, AllocError> {
        READER.read(self.alloc(), text, self.gathering.terms.flags)
    }

    /// The links and anchors of a text.
    pub(crate) fn page_of(&self, text: &str) -> Result<Page, AllocError> {
        let Terms { flags, slugs } = self.gathering.terms;
        Page::read(self.alloc(), text, flags, slugs)
    }

    /// Where a destination leads.
    pub(crate) fn led_to(&self, page: &Page, destination: &str) -> Result<Led, AllocError> {
        let mut tree = Tree::of_site(self.alloc(), self.gathering.terms.slugs);
        let path = self.place().path.as_str();
        tree.add(path, Some(page))?;
        self.gathering.add_targets(&mut tree, destination)?;
        tree.led_to(path, destination)
    }

    /// The URI of the file at a path in the tree; of the document itself, as the client names it.
    fn uri_of(&self, path: &str) -> Result<String, AllocError> {
        if path == self.place().path.as_str() {
            return String::from_str(self.alloc(), self.uri);
        }
        self.place().uri(self.alloc(), path)
    }

    /// The URI to which a destination leads, for a client that opens it. `None`: there is none, because it is empty, names a
    /// host without a scheme, leads out of the tree, or names a file from a document that is none of this host.
    fn target(&self, destination: &str) -> Result<Option<String>, AllocError> {
        let alloc = self.alloc();
        if destination.is_empty() || destination.starts_with("//") {
            return Ok(None);
        }
        if !is_local(destination) {
            return Ok(Some(String::from_str(alloc, destination)?));
        }
        let parts = parts(destination);
        let mut uri = if parts.path.is_empty() {
            String::from_str(alloc, self.uri)?
        } else {
            match self.place().resolved(alloc, parts.path)? {
                Some(path) if is_of_file(self.uri) => self.uri_of(path.as_str())?,
                _ => return Ok(None),
            }
        };
        if let Some(anchor) = parts.anchor.strip_prefix('#') {
            let anchor = decoded(alloc, anchor)?;
            uri.push('#')?;
            uri.push_str(encoded(alloc, anchor.as_str())?.as_str())?;
        }
        Ok(Some(uri))
    }

    /// Adds the destination of a link with where it leads, if a client can open that.
    fn add_document_link(
        &self,
        json: &mut String,
        lined: &Lined<'_>,
        link: &Link,
    ) -> Result<(), AllocError> {
        let Some(place) = link.place else {
            return Ok(());
        };
        let Some(target) = self.target(link.destination.as_str())? else {
            return Ok(());
        };
        if json.ends_with('}') {
            json.push(',')?;
        }
        let (span, target) = (lined.span(place), JsonText(target.as_str()));
        write!(json, "{{\"range\":{span},\"target\":{target}}}")
    }

    /// The destinations of the document's links that a client can open, with where they lead.
    pub(crate) fn document_links(&self) -> Result<String, AllocError> {
        let lined = Lined::new(self.alloc(), self.text, self.encoding)?;
        let mut json = String::from_str(self.alloc(), "[")?;
        let page = self.page()?;
        for link in &page.links {
            self.add_document_link(&mut json, &lined, link)?;
        }
        json.push(']')?;
        Ok(json)
    }

    /// The line of an anchor in the page at a path, from 1 on.
    fn anchor_line(&self, path: &str, anchor: &str) -> Result<usize, AllocError> {
        if anchor.is_empty() {
            return Ok(1);
        }
        let it = &self.gathering;
        let text = it.place.page_text(it.alloc, it.files, it.documents, path)?;
        let Some(text) = text else {
            return Ok(1);
        };
        let page = self.page_of(text.as_str())?;
        for it in &page.anchors {
            if it.name.as_str() == anchor {
                return Ok(it.line);
            }
        }
        Ok(1)
    }

    /// Adds where a destination leads, if it leads to a file.
    fn add_target(&self, json: &mut String, destination: &str) -> Result<(), AllocError> {
        let page = self.page()?;
        let led = self.led_to(&page, destination)?;
        if let Led::To { path, anchor, .. } = &led {
            let uri = self.uri_of(path.as_str())?;
            let line = self.anchor_line(path.as_str(), anchor.as_str())?;
            add_location(json, uri.as_str(), front_of(line))?;
        }
        Ok(())
    }

    /// Where a link leads: by a label to its definition, and else to its file and heading.
    fn targets(&self, read: &Read<'_>, link: &Found) -> Result<String, AllocError> {
        let mut json = String::from_str(self.alloc(), "[")?;
        if link.label.is_empty() {
            self.add_target(&mut json, link.destination.as_str())?;
        } else if let Some(place) = read.definition(self.alloc(), link.label.as_str())? {
            add_location(&mut json, self.uri, read.lined.span(place))?;
        }
        json.push(']')?;
        Ok(json)
    }

    /// Where a position leads: a label to its definition, a link to its file and heading.
    pub(crate) fn definition(&self, position: Position) -> Result<String, AllocError> {
        let read = self.read()?;
        let link = read.found(self.alloc(), read.lined.byte(position))?;
        match &link {
            Some(link) => self.targets(&read, link),
            None => String::from_str(self.alloc(), "null"),
        }
    }

    /// What is said of where a link leads.
    fn said(&self, destination: &str) -> Result<String, AllocError> {
        let alloc = self.alloc();
        let page = self.page()?;
        let led = self.led_to(&page, destination)?;
        match &led {
            Led::External => String::from_str(alloc, destination),
            Led::Outside => format!(in alloc; "{destination}: leads out of the tree"),
            Led::Nowhere { path } => format!(in alloc; "{path}: there is no such file or folder"),
            Led::NoAnchor { path, anchor } => {
                format!(in alloc; "{path}#{anchor}: the file has no such anchor")
            }
            Led::To { path, anchor, .. } => {
                let mark = if anchor.is_empty() { "" } else { "#" };
                format!(in alloc; "{path}{mark}{anchor}")
            }
        }
    }

    /// Where a link leads, as a client shows it.
    fn shown(&self, read: &Read<'_>, link: &Found) -> Result<String, AllocError> {
        let said = self.said(link.destination.as_str())?;
        let (said, span) = (JsonText(said.as_str()), read.lined.span(link.place));
        format!(in self.alloc();
            "{{\"contents\":{{\"kind\":\"plaintext\",\"value\":{said}}},\"range\":{span}}}"
        )
    }

    /// What a client shows for a position: where the link there leads.
    pub(crate) fn hover(&self, position: Position) -> Result<String, AllocError> {
        let read = self.read()?;
        let link = read.found(self.alloc(), read.lined.byte(position))?;
        match &link {
            Some(link) => self.shown(&read, link),
            None => String::from_str(self.alloc(), "null"),
        }
    }

    /// The heading in whose lines a byte is, as an anchor of the page.
    pub(crate) fn heading_at<'p>(
        &self,
        read: &Read<'_>,
        page: &'p Page,
        at: usize,
    ) -> Result<Option<&'p Anchor>, AllocError> {
        let headings = headings(self.alloc(), self.text, &read.reading)?;
        let Some(heading) = headings
            .iter()
            .find(|it| holds(read.lined.inked(it.place), at))
        else {
            return Ok(None);
        };
        let line = read.lined.span(heading.place).start.line.saturating_add(1);
        Ok(anchor_in(page, line))
    }

    /// The links by a label, as JSON, and its definition if that is wanted.
    fn references_of(
        &self,
        read: &Read<'_>,
        label: &str,
        with_definition: bool,
    ) -> Result<String, AllocError> {
        let mut json = String::from_str(self.alloc(), "[")?;
        if with_definition && let Some(place) = read.definition(self.alloc(), label)? {
            add_location(&mut json, self.uri, read.lined.span(place))?;
        }
        let places = read.links_by(self.alloc(), label)?;
        for place in &places {
            add_location(&mut json, self.uri, read.lined.span(*place))?;
        }
        json.push(']')?;
        Ok(json)
    }

    /// The links by the label at a position, as JSON, and its definition if that is wanted. `None`: there is no label.
    pub(crate) fn label_references(
        &self,
        position: Position,
        with_definition: bool,
    ) -> Result<Option<String>, AllocError> {
        let read = self.read()?;
        let label = read.label_at(self.alloc(), read.lined.byte(position))?;
        match &label {
            Some(label) => self
                .references_of(&read, label.as_str(), with_definition)
                .map(Some),
            None => Ok(None),
        }
    }
}
