//! What differs between two texts, in words.

use crate::erase::Within;
use crate::marks::Mark;
use crate::phrases::SHOWN;
use std::alloc::{AllocError, Global};
use std::fmt;
use tocmark_event::event::{
    Alignment, BlockQuoteKind, CodeBlockKind, Event, HeadingLevel, Tag, TagEnd,
};

/// What kind of thing differs.
#[derive(Clone, Copy, Debug, PartialEq, Eq)]
pub enum Kind {
    /// The words of a text.
    Text,
    /// Where a link or an image leads.
    Destination,
    /// The title of a link or an image.
    Title,
    /// The label of a link, or how it is spelled.
    Label,
    /// The level of a heading.
    Level,
    /// The first number of a list.
    Number,
    /// Code or math.
    Code,
    /// The info string of fenced code.
    Info,
    /// HTML.
    Html,
    /// What front matter says.
    FrontMatter,
    /// A link definition.
    Definition,
    /// Only the old text has it.
    Removed,
    /// Only the new text has it.
    Added,
    /// The letters, if nothing else differs or counts.
    Letters,
    /// Anything else.
    Structure,
}

/// A thing that differs.
#[derive(Drop)]
pub struct Difference {
    /// What kind of thing it is.
    pub kind: Kind,
    /// What it is, in words.
    pub what: &'static str,
    /// How many events come before the difference, in the old text and in the new one. Consecutive texts are one event. If link
    /// definitions count, they come after all other events. For letters it is `(0, 0)`.
    pub before: (usize, usize),
    /// The first and the last line in the old text, counted from 1. If only the new text has it: where it would be.
    pub old: (usize, usize),
    /// The same in the new text.
    pub new: (usize, usize),
    /// What the old text says, as far as it differs. If only the old text has the thing: what it is, its words, where it leads.
    pub was: String,
    /// The same for the new text.
    pub is: String,
}

impl Kind {
    /// The name of the kind, for programs.
    pub fn name(self) -> &'static str {
        match self {
            Kind::Text => "text",
            Kind::Destination => "destination",
            Kind::Title => "title",
            Kind::Label => "label",
            Kind::Level => "level",
            Kind::Number => "number",
            Kind::Code => "code",
            Kind::Info => "info",
            Kind::Html => "html",
            Kind::FrontMatter => "front-matter",
            Kind::Definition => "definition",
            Kind::Removed => "removed",
            Kind::Added => "added",
            Kind::Letters => "letters",
            Kind::Structure => "structure",
        }
    }
}

/// What a container is, in words.
fn container_word(end: TagEnd) -> &'static str {
    match end {
        TagEnd::Paragraph => "paragraph",
        TagEnd::Heading(_) => "heading",
        TagEnd::BlockQuote(_) => "quote",
        TagEnd::CodeBlock => "code block",
        TagEnd::HtmlBlock => "HTML block",
        TagEnd::List(true) => "numbered list",
        TagEnd::List(false) => "list",
        TagEnd::Item => "list item",
        TagEnd::FootnoteDefinition => "footnote",
        TagEnd::DefinitionList => "definition list",
        TagEnd::DefinitionListTitle => "title of a definition list",
        TagEnd::DefinitionListDefinition => "definition of a definition list",
        TagEnd::Table => "table",
        TagEnd::TableHead => "table header",
        TagEnd::TableRow => "table row",
        TagEnd::TableCell => "table cell",
        TagEnd::Emphasis => "emphasis",
        TagEnd::Strong => "strong emphasis",
        TagEnd::Strikethrough => "strikethrough",
        TagEnd::Superscript => "superscript",
        TagEnd::Subscript => "subscript",
        TagEnd::Link => "link",
        TagEnd::Image => "image",
        TagEnd::MetadataBlock(_) => "front matter",
    }
}

/// What a mark is, in words.
pub fn word_of(mark: &Mark) -> &'static str {
    match &mark.event {
        Event::Start(_) if mark.is_definition => "link definition",
        Event::Start(tag) => container_word(tag.to_end()),
        Event::End(_) => "end",
        Event::Text(_) => match mark.within {
            Within::Prose => "text",
            Within::Code => "code",
            Within::Metadata => "front matter",
        },
        Event::Code(_) => "code span",
        Event::InlineMath(_) => "inline math",
        Event::DisplayMath(_) => "display math",
        Event::Html(_) => "HTML",
        Event::InlineHtml(_) => "inline HTML",
        Event::FootnoteReference(_) => "footnote reference",
        Event::SoftBreak => "line break in the source",
        Event::HardBreak => "hard line break",
        Event::Rule => "thematic break",
        Event::TaskListMarker(_) => "task marker",
    }
}

/// What a mark is, in words, which name the container that ends. Without a mark it is the end of the text.
pub fn place_words(alloc: Global, mark: Option<&Mark>) -> Result<String, AllocError> {
    let Some(mark) = mark else {
        return String::from_str(alloc, "end of the text");
    };
    let Event::End(end) = &mark.event else {
        return String::from_str(alloc, word_of(mark));
    };
    let mut words = String::from_str(alloc, "end of ")?;
    words.push_str(container_word(*end))?;
    Ok(words)
}

fn level_text(level: HeadingLevel) -> &'static str {
    match level {
        HeadingLevel::H1 => "1",
        HeadingLevel::H2 => "2",
        HeadingLevel::H3 => "3",
        HeadingLevel::H4 => "4",
        HeadingLevel::H5 => "5",
        HeadingLevel::H6 => "6",
    }
}

/// The info string of a code block; "indented" for one without fences.
fn info_of<'c>(kind: &'c CodeBlockKind<'static>) -> &'c str {
    match kind {
        CodeBlockKind::Indented => "indented",
        CodeBlockKind::Fenced(info) => info.as_ref(),
    }
}

/// The kind of a quote, as its first line names it; nothing for none.
fn quote_text(kind: Option<BlockQuoteKind>) -> &'static str {
    match kind {
        None => "",
        Some(BlockQuoteKind::Note) => "[!NOTE]",
        Some(BlockQuoteKind::Tip) => "[!TIP]",
        Some(BlockQuoteKind::Important) => "[!IMPORTANT]",
        Some(BlockQuoteKind::Warning) => "[!WARNING]",
        Some(BlockQuoteKind::Caution) => "[!CAUTION]",
    }
}

/// The box of a task.
pub fn box_text(is_done: bool) -> &'static str {
    if is_done { "[x]" } else { "[ ]" }
}

/// How the columns of a table are aligned, as its second line says it.
fn alignments_text(alloc: Global, alignments: &[Alignment]) -> Result<String, AllocError> {
    let mut text = String::from_str(alloc, "|")?;
    for alignment in alignments {
        text.push_str(match alignment {
            Alignment::None => "-|",
            Alignment::Left => ":-|",
            Alignment::Center => ":-:|",
            Alignment::Right => "-:|",
        })?;
    }
    Ok(text)
}

/// The first number of a list; none for bullets.
fn number_text(alloc: Global, number: Option<u64>) -> Result<String, AllocError> {
    let Some(number) = number else {
        return String::from_str(alloc, "none");
    };
    match format!(in alloc; "{number}") {
        Ok(text) => Ok(text),
        Err(_) => Err(AllocError),
    }
}

/// The bytes that two texts have in common at their front, up to a blank.
pub fn common_front(was: &str, is: &str) -> usize {
    let mut end = 0usize;
    for ((at, one), other) in was.char_indices().zip(is.chars()) {
        if one != other {
            return end;
        }
        if one == ' ' || one == '\n' {
            end = at.saturating_add(1);
        }
    }
    end
}

/// Whether a blank or a line end is before so many bytes at the end of a text.
fn is_after_blank(text: &str, end: usize) -> bool {
    let before = text.len().saturating_sub(end).saturating_sub(1);
    match text.as_bytes().get(before) {
        Some(byte) => *byte == b' ' || *byte == b'\n',
        None => false,
    }
}

/// The bytes that two texts have in common at their end, from a blank on. Both begin with a word.
fn common_end(was: &str, is: &str) -> usize {
    let mut length = 0usize;
    let mut common = 0usize;
    for (one, other) in was.bytes().rev().zip(is.bytes().rev()) {
        if one != other {
            return common;
        }
        length = length.saturating_add(1);
        if one == b' ' || one == b'\n' {
            common = length;
        }
    }
    let longer = if was.len() > is.len() { was } else { is };
    if is_after_blank(longer, length) {
        length
    } else {
        common
    }
}

/// How many lines two texts have in common at their front.
fn common_lines(was: &str, is: &str) -> usize {
    let front = was.get(..common_front(was, is)).unwrap_or("");
    front.bytes().filter(|byte| *byte == b'\n').count()
}

/// The words of two texts from the first one that differs to the last one.
pub fn differing<'t>(was: &'t str, is: &'t str) -> (&'t str, &'t str) {
    let front = common_front(was, is);
    let was = was.get(front..).unwrap_or(was);
    let is = is.get(front..).unwrap_or(is);
    let end = common_end(was, is);
    let was_end = was.len().saturating_sub(end);
    let is_end = is.len().saturating_sub(end);
    (
        was.get(..was_end).unwrap_or(was),
        is.get(..is_end).unwrap_or(is),
    )
}

/// What a link or an image says beside its text.
#[derive(Clone, Copy)]
struct LinkTexts<'c> {
    destination: &'c str,
    title: &'c str,
    label: &'c str,
}

fn link_texts<'c>(tag: &'c Tag<'static>) -> Option<LinkTexts<'c>> {
    let (destination, title, label) = match tag {
        Tag::Link {
            dest_url,
            title,
            id,
            ..
        } => (dest_url, title, id),
        Tag::Image {
            dest_url,
            title,
            id,
            ..
        } => (dest_url, title, id),
        _ => return None,
    };
    Some(LinkTexts {
        destination: destination.as_ref(),
        title: title.as_ref(),
        label: label.as_ref(),
    })
}

/// What differs between two starts, if they start the same kind of container.
fn start_change<'c>(
    old: &'c Tag<'static>,
    new: &'c Tag<'static>,
) -> Option<(Kind, &'c str, &'c str)> {
    match (old, new) {
        (Tag::Heading { level: was, .. }, Tag::Heading { level: is, .. }) => {
            Some((Kind::Level, level_text(*was), level_text(*is)))
        }
        (Tag::CodeBlock(was), Tag::CodeBlock(is)) => Some((Kind::Info, info_of(was), info_of(is))),
        (Tag::BlockQuote(was), Tag::BlockQuote(is)) => {
            Some((Kind::Structure, quote_text(*was), quote_text(*is)))
        }
        _ => {
            let (was, is) = (link_texts(old)?, link_texts(new)?);
            if was.destination != is.destination {
                return Some((Kind::Destination, was.destination, is.destination));
            }
            if was.title != is.title {
                return Some((Kind::Title, was.title, is.title));
            }
            Some((Kind::Label, was.label, is.label))
        }
    }
}

/// The words of an event that is only words, and their kind.
fn words_of<'c>(mark: &'c Mark) -> Option<(Kind, &'c str)> {
    match &mark.event {
        Event::Text(_) => {
            let kind = match mark.within {
                Within::Prose => Kind::Text,
                Within::Code => Kind::Code,
                Within::Metadata => Kind::FrontMatter,
            };
            Some((kind, mark.key.as_str()))
        }
        Event::Code(text) => Some((Kind::Code, text.as_ref())),
        Event::InlineMath(text) => Some((Kind::Code, text.as_ref())),
        Event::DisplayMath(text) => Some((Kind::Code, text.as_ref())),
        Event::Html(text) => Some((Kind::Html, text.as_ref())),
        Event::InlineHtml(text) => Some((Kind::Html, text.as_ref())),
        Event::FootnoteReference(text) => Some((Kind::Structure, text.as_ref())),
        _ => None,
    }
}

/// What differs between two marks of the same word.
#[derive(Drop)]
pub struct Change {
    /// What kind of thing it is.
    pub kind: Kind,
    /// What the old mark says.
    pub was: String,
    /// What the new mark says.
    pub is: String,
    /// How many lines after its start the thing differs.
    pub line: usize,
}

impl Change {
    /// Whether one of the texts has words more, and the other one none in their place.
    pub fn has_more(&self) -> bool {
        let (was, is) = (self.was.as_str().trim(), self.is.as_str().trim());
        match self.kind {
            Kind::Text => was.is_empty() != is.is_empty(),
            _ => false,
        }
    }
}

/// What two marks of the same word say differently, in texts of their own.
fn composed_change(
    alloc: Global,
    old: &Mark,
    new: &Mark,
) -> Result<Option<(Kind, String, String)>, AllocError> {
    match (&old.event, &new.event) {
        (Event::Start(Tag::List(was)), Event::Start(Tag::List(is))) => {
            let (was, is) = (number_text(alloc, *was)?, number_text(alloc, *is)?);
            Ok(Some((Kind::Number, was, is)))
        }
        (Event::Start(Tag::Table(was)), Event::Start(Tag::Table(is))) => {
            let (was, is) = (alignments_text(alloc, was)?, alignments_text(alloc, is)?);
            Ok(Some((Kind::Structure, was, is)))
        }
        _ => Ok(None),
    }
}

/// What two marks of the same word say differently, in texts that they have.
fn plain_change<'c>(old: &'c Mark, new: &'c Mark) -> Option<(Kind, &'c str, &'c str)> {
    match (&old.event, &new.event) {
        (Event::Start(was), Event::Start(is)) => start_change(was, is),
        (Event::TaskListMarker(was), Event::TaskListMarker(is)) => {
            Some((Kind::Structure, box_text(*was), box_text(*is)))
        }
        _ => {
            let ((_, was), (kind, is)) = (words_of(old)?, words_of(new)?);
            Some((kind, was, is))
        }
    }
}

/// What differs between two marks of the same word, if that can be said in a few words.
pub fn change_between(alloc: Global, old: &Mark, new: &Mark) -> Result<Option<Change>, AllocError> {
    if let Some((kind, was, is)) = composed_change(alloc, old, new)? {
        let line = 0;
        return Ok(Some(Change {
            kind,
            was,
            is,
            line,
        }));
    }
    let Some((kind, was, is)) = plain_change(old, new) else {
        return Ok(None);
    };
    let kind = if new.is_definition {
        Kind::Definition
    } else {
        kind
    };
    let line = common_lines(was, is);
    let (was, is) = match kind {
        Kind::Text | Kind::Code | Kind::FrontMatter | Kind::Html => differing(was, is),
        _ => (was, is),
    };
    Ok(Some(Change {
        kind,
        was: String::from_str(alloc, was)?,
        is: String::from_str(alloc, is)?,
        line,
    }))
}

/// What of a thing differs, in words; none if it is the thing itself.
fn part_word(kind: Kind) -> Option<&'static str> {
    match kind {
        Kind::Destination => Some("destination"),
        Kind::Title => Some("title"),
        Kind::Label => Some("label or spelling"),
        Kind::Level => Some("level"),
        Kind::Number => Some("first number"),
        Kind::Info => Some("info string"),
        _ => None,
    }
}

/// Writes a text between quotation marks, or the front of a long one.
fn write_quoted<W: fmt::Write>(f: &mut fmt::Formatter<W>, text: &str) -> fmt::Result {
    match text.char_indices().nth(SHOWN) {
        Some((end, _)) => {
            let front = text.get(..end).unwrap_or(text);
            write!(f, "\"{front}...\"")
        }
        None => write!(f, "\"{text}\""),
    }
}

/// Writes that only one of the texts has a thing.
fn write_alone<W: fmt::Write>(f: &mut fmt::Formatter<W>, how: &str, thing: &str) -> fmt::Result {
    f.write_str(how)?;
    f.write_str(thing)
}

impl fmt::Display for Difference {
    fn fmt<W: fmt::Write>(&self, f: &mut fmt::Formatter<W>) -> fmt::Result {
        let what = self.what;
        match self.kind {
            Kind::Removed => return write_alone(f, "removed: ", self.was.as_str()),
            Kind::Added => return write_alone(f, "added: ", self.is.as_str()),
            _ => {}
        }
        match part_word(self.kind) {
            Some(part) => write!(f, "the {what}'s {part} ")?,
            None => write!(f, "the {what} ")?,
        }
        write_quoted(f, self.was.as_str())?;
        f.write_str(" became ")?;
        write_quoted(f, self.is.as_str())
    }
}
