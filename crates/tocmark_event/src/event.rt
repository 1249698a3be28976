//! Markdown events: what a parser gives and what the writer takes.

ghost use Rattle.std.specs.Prelude.{◌≡◌, ◌++◌, ◌↔◌, map, string_bytes, IfOk, OnOk, IsTrue};
ghost use Rattle.std.specs.Option.{option_map};
ghost use Rattle.tocmark_event.specs.Text.{text_of};
ghost use Rattle.tocmark_event.specs.View.{Heading, CodeBlock, Link, Image, event_view, tag_view, code_view, attribute_view, end_of};
ghost use Rattle.tocmark_event.specs.Merged.{merged, pending_text, or_empty};

use std::alloc::{AllocError, Global};

pub mod flags;
pub mod text;

pub use flags::ParserOptions;
pub use text::{CowStr, OwnedWords, Words};

/// The level of a heading, 1 to 6.
#[derive(Clone, Copy, Debug, PartialEq, Eq)]
pub enum HeadingLevel {
    /// `#`
    H1,
    /// `##`
    H2,
    /// `###`
    H3,
    /// `####`
    H4,
    /// `#####`
    H5,
    /// `######`
    H6,
}

/// The kind of a block quote, as `[!NOTE]` names it.
#[derive(Clone, Copy, Debug, PartialEq, Eq)]
pub enum BlockQuoteKind {
    /// `[!NOTE]`
    Note,
    /// `[!TIP]`
    Tip,
    /// `[!IMPORTANT]`
    Important,
    /// `[!WARNING]`
    Warning,
    /// `[!CAUTION]`
    Caution,
}

/// The alignment of a table's column.
#[derive(Clone, Copy, Debug, PartialEq, Eq)]
pub enum Alignment {
    /// `---`
    None,
    /// `:--`
    Left,
    /// `:-:`
    Center,
    /// `--:`
    Right,
}

/// The delimiters of a metadata block: `---` or `+++`.
#[derive(Clone, Copy, Debug, PartialEq, Eq)]
pub enum MetadataBlockKind {
    /// Between lines of `---`.
    YamlStyle,
    /// Between lines of `+++`.
    PlusesStyle,
}

/// How a link or an image was written.
#[derive(Clone, Copy, Debug, PartialEq, Eq)]
pub enum LinkType {
    /// `[text](destination)`
    Inline,
    /// `[text][label]`
    Reference,
    /// `[text][label]` with no definition
    ReferenceUnknown,
    /// `[label][]`
    Collapsed,
    /// `[label][]` with no definition
    CollapsedUnknown,
    /// `[label]`
    Shortcut,
    /// `[label]` with no definition
    ShortcutUnknown,
    /// `<https://example.org>`
    Autolink,
    /// `<me@example.org>`
    Email,
    /// `[[page]]`, or with a pothole `[[page|text]]`
    WikiLink {
        /// Whether a text is after a bar.
        has_pothole: bool,
    },
}

/// The kind of a code block, with texts of type `T`.
#[derive(Clone, Debug, Drop, PartialEq, Eq)]
pub enum CodeBlockKindOf<T> {
    /// Four spaces before each line.
    Indented,
    /// Between fences; the text is the info string.
    Fenced(T),
}

/// A container's start, with texts of type `T`.
#[derive(Clone, Debug, Drop, PartialEq, Eq)]
pub enum TagOf<T> {
    /// A paragraph of inline events.
    Paragraph,
    /// A heading of inline events.
    Heading {
        /// How many `#` are before it.
        level: HeadingLevel,
        /// Its `{#id}`, if it has one.
        id: Option<T>,
        /// Its `{.class}`es.
        classes: Vec<T>,
        /// Each with its value, if it has one.
        attrs: Vec<(T, Option<T>)>,
    },
    /// A block quote, of a kind if it begins with a line like `[!NOTE]`.
    BlockQuote(Option<BlockQuoteKind>),
    /// A code block, whose code is its Texts.
    CodeBlock(CodeBlockKindOf<T>),
    /// An HTML block, whose lines are Html events.
    HtmlBlock,
    /// A list with its first number, or none for bullets.
    List(Option<u64>),
    /// An item of a list.
    Item,
    /// A footnote's definition with its label.
    FootnoteDefinition(T),
    /// A list of titles with their definitions.
    DefinitionList,
    /// A title in a definition list.
    DefinitionListTitle,
    /// A definition in a definition list.
    DefinitionListDefinition,
    /// A table with the alignments of its columns.
    Table(Vec<Alignment>),
    /// The first row of a table, with its headers.
    TableHead,
    /// A further row of a table.
    TableRow,
    /// A cell of a row.
    TableCell,
    /// `*text*`
    Emphasis,
    /// `**text**`
    Strong,
    /// `~~text~~`
    Strikethrough,
    /// `^text^`
    Superscript,
    /// `~text~`
    Subscript,
    /// A link, whose text is its events.
    Link {
        /// How it was written.
        link_type: LinkType,
        /// Where it leads.
        dest_url: T,
        /// Its title; empty where there is none.
        title: T,
        /// The label, as it was written; empty where there is none.
        id: T,
    },
    /// An image, whose description is its events.
    Image {
        /// How it was written.
        link_type: LinkType,
        /// Where it lies.
        dest_url: T,
        /// Its title; empty where there is none.
        title: T,
        /// The label, as it was written; empty where there is none.
        id: T,
    },
    /// A block of metadata at a document's beginning, whose lines are its Texts.
    MetadataBlock(MetadataBlockKind),
}

/// A container's end: of the variant that its Start has.
#[derive(Clone, Copy, Debug, PartialEq, Eq)]
pub enum TagEnd {
    /// The end of a paragraph.
    Paragraph,
    /// The end of a heading of this level.
    Heading(HeadingLevel),
    /// The end of a block quote of this kind.
    BlockQuote(Option<BlockQuoteKind>),
    /// The end of a code block.
    CodeBlock,
    /// The end of an HTML block.
    HtmlBlock,
    /// The end of a list: true where it is ordered.
    List(bool),
    /// The end of an item.
    Item,
    /// The end of a footnote's definition.
    FootnoteDefinition,
    /// The end of a definition list.
    DefinitionList,
    /// The end of a definition list's title.
    DefinitionListTitle,
    /// The end of a definition list's definition.
    DefinitionListDefinition,
    /// The end of a table.
    Table,
    /// The end of a table's first row.
    TableHead,
    /// The end of a further row.
    TableRow,
    /// The end of a cell.
    TableCell,
    /// The end of emphasis.
    Emphasis,
    /// The end of strong emphasis.
    Strong,
    /// The end of a strikethrough.
    Strikethrough,
    /// The end of a superscript.
    Superscript,
    /// The end of a subscript.
    Subscript,
    /// The end of a link.
    Link,
    /// The end of an image.
    Image,
    /// The end of a block of metadata.
    MetadataBlock(MetadataBlockKind),
}

/// An event, with texts of type `T`.
#[derive(Clone, Debug, Drop, PartialEq, Eq)]
pub enum EventOf<T> {
    /// A container begins.
    Start(TagOf<T>),
    /// The innermost open container ends.
    End(TagEnd),
    /// A text, as it is read and not as it is escaped.
    Text(T),
    /// A code span.
    Code(T),
    /// `$text$`
    InlineMath(T),
    /// `$$text$$`
    DisplayMath(T),
    /// A line of an HTML block.
    Html(T),
    /// HTML within a line.
    InlineHtml(T),
    /// A reference to a footnote, with its label.
    FootnoteReference(T),
    /// An end of a line that is no break.
    SoftBreak,
    /// An end of a line that is a break.
    HardBreak,
    /// A thematic break.
    Rule,
    /// A task list's box; true where it is checked.
    TaskListMarker(bool),
}

/// A code block's kind in the events of a parser.
pub type CodeBlockKind<'a> = CodeBlockKindOf<CowStr<'a>>;

/// A container's start in the events of a parser.
pub type Tag<'a> = TagOf<CowStr<'a>>;

/// An event of a parser.
///
/// `Event::Text("a".into())` is a text, `Event::Start(Tag::Paragraph)` opens a paragraph and
/// `Event::End(TagEnd::Paragraph)` ends it.
pub type Event<'a> = EventOf<CowStr<'a>>;

/// A container's start that owns its texts as strings.
pub type OwnedTag = TagOf<String>;

/// An event that owns its texts as strings: what is kept between calls.
pub type OwnedEvent = EventOf<String>;

fn copied_text<T: Words, U: OwnedWords>(alloc: Global, text: &T) -> Result<U, AllocError>
    ensures { IfOk result (λ copy. U.Words.bytes copy ≡ T.bytes text.now) }
{
    U::from_text(alloc, text.words())
}

fn copied_option<T: Words, U: OwnedWords>(
    alloc: Global,
    text: &Option<T>,
) -> Result<Option<U>, AllocError>
    ensures { IfOk result (λ copy. option_map U.Words.bytes copy ≡ option_map T.bytes text.now) }
{
    match text {
        None => Ok(None),
        Some(text) => Ok(Some(copied_text(alloc, text)?)),
    }
}

fn copied_texts<T: Words, U: OwnedWords + Drop>(
    alloc: Global,
    texts: &[T],
) -> Result<Vec<U>, AllocError>
    ensures { IfOk result (λ copies. map U.Words.bytes copies.items ≡ map T.bytes texts.now) }
{
    let mut copies = Vec::new(alloc);
    for text in texts {
        copies.push(copied_text(alloc, text)?)?;
    }
    Ok(copies)
}

fn copied_attribute<T: Words, U: OwnedWords + Drop>(
    alloc: Global,
    attribute: &(T, Option<T>),
) -> Result<(U, Option<U>), AllocError>
    ensures { IfOk result (λ copy.
        attribute_view U.Words.bytes copy ≡ attribute_view T.bytes attribute.now) }
{
    let (key, value) = attribute;
    Ok((copied_text(alloc, key)?, copied_option(alloc, value)?))
}

fn copied_attributes<T: Words, U: OwnedWords + Drop>(
    alloc: Global,
    attributes: &[(T, Option<T>)],
) -> Result<Vec<(U, Option<U>)>, AllocError>
    ensures { IfOk result (λ copies.
        map (attribute_view U.Words.bytes) copies.items
        ≡ map (attribute_view T.bytes) attributes.now) }
{
    let mut copies = Vec::new(alloc);
    for attribute in attributes {
        copies.push(copied_attribute(alloc, attribute)?)?;
    }
    Ok(copies)
}

fn copied_heading<T: Words, U: OwnedWords + Drop>(
    alloc: Global,
    level: HeadingLevel,
    id: &Option<T>,
    classes: &[T],
    attrs: &[(T, Option<T>)],
) -> Result<TagOf<U>, AllocError>
    ensures { IfOk result (λ copy. tag_view U.Words.bytes copy
        ≡ Heading level (option_map T.bytes id.now) (map T.bytes classes.now)
        (map (attribute_view T.bytes) attrs.now)) }
{
    Ok(TagOf::Heading {
        level,
        id: copied_option(alloc, id)?,
        classes: copied_texts(alloc, classes)?,
        attrs: copied_attributes(alloc, attrs)?,
    })
}

fn copied_code_block<T: Words, U: OwnedWords + Drop>(
    alloc: Global,
    kind: &CodeBlockKindOf<T>,
) -> Result<TagOf<U>, AllocError>
    ensures { IfOk result (λ copy.
        tag_view U.Words.bytes copy ≡ CodeBlock (code_view T.bytes kind.now)) }
{
    Ok(TagOf::CodeBlock(match kind {
        CodeBlockKindOf::Indented => CodeBlockKindOf::Indented,
        CodeBlockKindOf::Fenced(info) => CodeBlockKindOf::Fenced(copied_text(alloc, info)?),
    }))
}

fn copied_link<T: Words, U: OwnedWords + Drop>(
    alloc: Global,
    link_type: LinkType,
    dest_url: &T,
    title: &T,
    id: &T,
) -> Result<TagOf<U>, AllocError>
    ensures { IfOk result (λ copy. tag_view U.Words.bytes copy
        ≡ Link link_type (T.bytes dest_url.now) (T.bytes title.now) (T.bytes id.now)) }
{
    Ok(TagOf::Link {
        link_type,
        dest_url: copied_text(alloc, dest_url)?,
        title: copied_text(alloc, title)?,
        id: copied_text(alloc, id)?,
    })
}

fn copied_image<T: Words, U: OwnedWords + Drop>(
    alloc: Global,
    link_type: LinkType,
    dest_url: &T,
    title: &T,
    id: &T,
) -> Result<TagOf<U>, AllocError>
    ensures { IfOk result (λ copy. tag_view U.Words.bytes copy
        ≡ Image link_type (T.bytes dest_url.now) (T.bytes title.now) (T.bytes id.now)) }
{
    Ok(TagOf::Image {
        link_type,
        dest_url: copied_text(alloc, dest_url)?,
        title: copied_text(alloc, title)?,
        id: copied_text(alloc, id)?,
    })
}

impl<T: Words> TagOf<T> {
    /// The end of this container. It takes no memory.
    pub fn to_end(&self) -> TagEnd
        ensures { result ≡ end_of (tag_view T.bytes self.now) }
    {
        match self {
            TagOf::Paragraph => TagEnd::Paragraph,
            TagOf::Heading { level, .. } => TagEnd::Heading(*level),
            TagOf::BlockQuote(kind) => TagEnd::BlockQuote(*kind),
            TagOf::CodeBlock(_) => TagEnd::CodeBlock,
            TagOf::HtmlBlock => TagEnd::HtmlBlock,
            TagOf::List(start) => TagEnd::List(start.is_some()),
            TagOf::Item => TagEnd::Item,
            TagOf::FootnoteDefinition(_) => TagEnd::FootnoteDefinition,
            TagOf::DefinitionList => TagEnd::DefinitionList,
            TagOf::DefinitionListTitle => TagEnd::DefinitionListTitle,
            TagOf::DefinitionListDefinition => TagEnd::DefinitionListDefinition,
            TagOf::Table(_) => TagEnd::Table,
            TagOf::TableHead => TagEnd::TableHead,
            TagOf::TableRow => TagEnd::TableRow,
            TagOf::TableCell => TagEnd::TableCell,
            TagOf::Emphasis => TagEnd::Emphasis,
            TagOf::Strong => TagEnd::Strong,
            TagOf::Strikethrough => TagEnd::Strikethrough,
            TagOf::Superscript => TagEnd::Superscript,
            TagOf::Subscript => TagEnd::Subscript,
            TagOf::Link { .. } => TagEnd::Link,
            TagOf::Image { .. } => TagEnd::Image,
            TagOf::MetadataBlock(kind) => TagEnd::MetadataBlock(*kind),
        }
    }

    /// An equal tag that owns its texts.
    pub fn copied<U: OwnedWords + Drop>(&self, alloc: Global) -> Result<TagOf<U>, AllocError>
        ensures { IfOk result (λ copy. tag_view U.Words.bytes copy ≡ tag_view T.bytes self.now) }
    {
        match self {
            TagOf::Paragraph => Ok(TagOf::Paragraph),
            TagOf::Heading {
                level,
                id,
                classes,
                attrs,
            } => copied_heading(alloc, *level, id, classes, attrs),
            TagOf::BlockQuote(kind) => Ok(TagOf::BlockQuote(*kind)),
            TagOf::CodeBlock(kind) => copied_code_block(alloc, kind),
            TagOf::HtmlBlock => Ok(TagOf::HtmlBlock),
            TagOf::List(start) => Ok(TagOf::List(*start)),
            TagOf::Item => Ok(TagOf::Item),
            TagOf::FootnoteDefinition(label) => {
                Ok(TagOf::FootnoteDefinition(copied_text(alloc, label)?))
            }
            TagOf::DefinitionList => Ok(TagOf::DefinitionList),
            TagOf::DefinitionListTitle => Ok(TagOf::DefinitionListTitle),
            TagOf::DefinitionListDefinition => Ok(TagOf::DefinitionListDefinition),
            TagOf::Table(alignments) => Ok(TagOf::Table(Vec::from_slice(alloc, alignments)?)),
            TagOf::TableHead => Ok(TagOf::TableHead),
            TagOf::TableRow => Ok(TagOf::TableRow),
            TagOf::TableCell => Ok(TagOf::TableCell),
            TagOf::Emphasis => Ok(TagOf::Emphasis),
            TagOf::Strong => Ok(TagOf::Strong),
            TagOf::Strikethrough => Ok(TagOf::Strikethrough),
            TagOf::Superscript => Ok(TagOf::Superscript),
            TagOf::Subscript => Ok(TagOf::Subscript),
            TagOf::Link {
                link_type,
                dest_url,
                title,
                id,
            } => copied_link(alloc, *link_type, dest_url, title, id),
            TagOf::Image {
                link_type,
                dest_url,
                title,
                id,
            } => copied_image(alloc, *link_type, dest_url, title, id),
            TagOf::MetadataBlock(kind) => Ok(TagOf::MetadataBlock(*kind)),
        }
    }
}

impl<T: Words> EventOf<T> {
    /// An equal event that owns its texts.
    pub fn copied<U: OwnedWords + Drop>(&self, alloc: Global) -> Result<EventOf<U>, AllocError>
        ensures { IfOk result (λ copy. event_view U.Words.bytes copy
            ≡ event_view T.bytes self.now) }
    {
        match self {
            EventOf::Start(tag) => Ok(EventOf::Start(tag.copied(alloc)?)),
            EventOf::End(end) => Ok(EventOf::End(*end)),
            EventOf::Text(text) => Ok(EventOf::Text(copied_text(alloc, text)?)),
            EventOf::Code(text) => Ok(EventOf::Code(copied_text(alloc, text)?)),
            EventOf::InlineMath(text) => Ok(EventOf::InlineMath(copied_text(alloc, text)?)),
            EventOf::DisplayMath(text) => Ok(EventOf::DisplayMath(copied_text(alloc, text)?)),
            EventOf::Html(text) => Ok(EventOf::Html(copied_text(alloc, text)?)),
            EventOf::InlineHtml(text) => Ok(EventOf::InlineHtml(copied_text(alloc, text)?)),
            EventOf::FootnoteReference(label) => {
                Ok(EventOf::FootnoteReference(copied_text(alloc, label)?))
            }
            EventOf::SoftBreak => Ok(EventOf::SoftBreak),
            EventOf::HardBreak => Ok(EventOf::HardBreak),
            EventOf::Rule => Ok(EventOf::Rule),
            EventOf::TaskListMarker(checked) => Ok(EventOf::TaskListMarker(*checked)),
        }
    }
}

impl<'a> EventOf<CowStr<'a>> {
    /// An equal event that owns its texts and can outlive their source.
    pub fn to_static(&self, alloc: Global) -> Result<Event<'static>, AllocError>
        ensures { IfOk result (λ copy. event_view text_of copy ≡ event_view text_of self.now) }
    {
        self.copied(alloc)
    }
}

fn push_text<U: OwnedWords + Drop>(
    alloc: Global,
    events: &mut Vec<EventOf<U>>,
    text: Option<String>,
) -> Result<(), AllocError>
    ensures { OnOk result (map (event_view U.Words.bytes) events.new.items
        ≡ map (event_view U.Words.bytes) events.old.items ++ pending_text
        (option_map string_bytes text)) }
{
    if let Some(text) = text {
        events.push(EventOf::Text(U::from_text(alloc, text.as_str())?))?;
    }
    Ok(())
}

fn joined(alloc: Global, text: Option<String>, more: &str) -> Result<String, AllocError>
    ensures { IfOk result (λ whole.
        string_bytes whole ≡ or_empty (option_map string_bytes text) ++ more.now) }
{
    let mut whole = match text {
        None => String::new(alloc),
        Some(text) => text,
    };
    whole.push_str(more)?;
    Ok(whole)
}

/// The events, with each longest stretch of texts as one text, for any types of texts.
pub fn merge_all<T: Words, U: OwnedWords + Drop>(
    alloc: Global,
    events: &[EventOf<T>],
) -> Result<Vec<EventOf<U>>, AllocError>
    ensures { IfOk result (λ all.
        map (event_view U.Words.bytes) all.items ≡ merged (map (event_view T.bytes) events.now)) }
{
    let mut all = Vec::new(alloc);
    let mut pending: Option<String> = None;
    for event in events {
        match event {
            EventOf::Text(text) => pending = Some(joined(alloc, pending, text.words())?),
            _ => {
                push_text(alloc, &mut all, pending)?;
                pending = None;
                all.push(event.copied(alloc)?)?;
            }
        }
    }
    push_text(alloc, &mut all, pending)?;
    Ok(all)
}

/// The events, with each longest stretch of Text events as one Text of their joined texts; all else
/// stays.
///
/// `a`, `b`, a soft break and `c` become `ab`, the soft break and `c`. Empty texts join like others,
/// so that a stretch of them stays one empty text.
pub fn merge_texts(alloc: Global, events: &[Event<'_>]) -> Result<Vec<Event<'static>>, AllocError>
    ensures { IfOk result (λ all.
        map (event_view text_of) all.items ≡ merged (map (event_view text_of) events.now)) }
{
    merge_all(alloc, events)
}
