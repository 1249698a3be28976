//! Numbers by which Ends, types of links and alignments are compared.

ghost use Rattle.std.specs.Prelude.{◌≡◌};
ghost use Rattle.tocmark_event.specs.Ends.{end_code};
ghost use Rattle.tocmark_event.specs.declared.event.TagEnd.TheVariants.{BlockQuote, Heading};
ghost use Rattle.tocmark_spelling.specs.SameEvents.{link_code, alignment_code};

use tocmark_event::event::{
    Alignment, BlockQuoteKind, HeadingLevel, LinkType, MetadataBlockKind, TagEnd,
};

/// A number for each level of a heading: that of its End.
pub(crate) fn heading_number(level: HeadingLevel) -> u8
    ensures { result ≡ end_code (Heading level) }
{
    match level {
        HeadingLevel::H1 => 1,
        HeadingLevel::H2 => 2,
        HeadingLevel::H3 => 3,
        HeadingLevel::H4 => 4,
        HeadingLevel::H5 => 5,
        HeadingLevel::H6 => 6,
    }
}

/// A number for each kind of block quote: that of its End.
fn quote_number(kind: Option<BlockQuoteKind>) -> u8
    ensures { result ≡ end_code (BlockQuote kind) }
{
    match kind {
        None => 7,
        Some(BlockQuoteKind::Note) => 8,
        Some(BlockQuoteKind::Tip) => 9,
        Some(BlockQuoteKind::Important) => 10,
        Some(BlockQuoteKind::Warning) => 11,
        Some(BlockQuoteKind::Caution) => 12,
    }
}

/// A number for each End: two are the same where their numbers are. A digest keeps it as a byte, which `==` of `TagEnd`
/// doesn't give.
pub fn end_number(end: TagEnd) -> u8
    ensures { result ≡ end_code end }
{
    match end {
        TagEnd::Paragraph => 0,
        TagEnd::Heading(level) => heading_number(level),
        TagEnd::BlockQuote(kind) => quote_number(kind),
        TagEnd::CodeBlock => 13,
        TagEnd::HtmlBlock => 14,
        TagEnd::List(true) => 15,
        TagEnd::List(false) => 16,
        TagEnd::Item => 17,
        TagEnd::FootnoteDefinition => 18,
        TagEnd::DefinitionList => 19,
        TagEnd::DefinitionListTitle => 20,
        TagEnd::DefinitionListDefinition => 21,
        TagEnd::Table => 22,
        TagEnd::TableHead => 23,
        TagEnd::TableRow => 24,
        TagEnd::TableCell => 25,
        TagEnd::Emphasis => 26,
        TagEnd::Strong => 27,
        TagEnd::Strikethrough => 28,
        TagEnd::Superscript => 29,
        TagEnd::Subscript => 30,
        TagEnd::Link => 31,
        TagEnd::Image => 32,
        TagEnd::MetadataBlock(MetadataBlockKind::YamlStyle) => 33,
        TagEnd::MetadataBlock(MetadataBlockKind::PlusesStyle) => 34,
    }
}

/// A number for each type of link.
pub(crate) fn link_number(link: LinkType) -> u8
    ensures { result ≡ link_code link }
{
    match link {
        LinkType::Inline => 0,
        LinkType::Reference => 1,
        LinkType::ReferenceUnknown => 2,
        LinkType::Collapsed => 3,
        LinkType::CollapsedUnknown => 4,
        LinkType::Shortcut => 5,
        LinkType::ShortcutUnknown => 6,
        LinkType::Autolink => 7,
        LinkType::Email => 8,
        LinkType::WikiLink { has_pothole: false } => 9,
        LinkType::WikiLink { has_pothole: true } => 10,
    }
}

/// A number for each alignment.
pub(crate) fn alignment_number(alignment: Alignment) -> u8
    ensures { result ≡ alignment_code alignment }
{
    match alignment {
        Alignment::None => 0,
        Alignment::Left => 1,
        Alignment::Center => 2,
        Alignment::Right => 3,
    }
}
