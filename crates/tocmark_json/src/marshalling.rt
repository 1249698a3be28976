//! Events as the bytes of which Python's `marshal.loads` makes them, with each name once.

ghost use Rattle.std.specs.Prelude.{◌≡◌, ◌%◌, [], ◌∷◌, ◌++◌, IfErr, IfOk, OnOk, codes, map, true};
ghost use Rattle.std.specs.Int.{to_le_bytes, w16};
ghost use Rattle.std.specs.Option.{option_map};
ghost use Rattle.tocmark_event.specs.View.{attribute_view, code_view, event_view, tag_view};
ghost use Rattle.tocmark_json.specs.Marshal.{Appends, IsTooLong, alignment_bytes, all_names, attribute_bytes, code_bytes, end_bytes, event_bytes, events_bytes, fits, five_digits, four, four_digits, heading_bytes, level_bytes, link_bytes, link_type_bytes, listed, long_bytes, longer_bytes, metadata_bytes, null_bytes, optional, pair_in, quote_bytes, reference, size_bytes, tag_bytes, tagged, text_bytes, three_digits, truth_bytes};

use crate::name_numbers::*;
use std::alloc::{AllocError, Global};
use tocmark_event::event::{
    Alignment, BlockQuoteKind, CodeBlockKindOf, EventOf, HeadingLevel, LinkType, MetadataBlockKind,
    TagEnd, TagOf, Words,
};

/// Why events have no bytes for Python.
#[derive(Clone, Copy, Debug, PartialEq, Eq)]
pub enum MarshalError {
    /// The bytes would be more than 2,147,483,647, and Python reads no longer ones.
    TooLong,
    /// Memory ran out.
    OutOfMemory,
}

fn push_byte(out: &mut Vec<u8>, byte: u8) -> Result<(), AllocError>
    ensures { OnOk result (Appends (byte ∷ []) out.old.items out.new.items) }
{
    out.push(byte)?;
    Ok(())
}

fn push_null(out: &mut Vec<u8>) -> Result<(), AllocError>
    ensures { OnOk result (Appends (null_bytes) out.old.items out.new.items) }
{
    push_byte(out, b'N')
}

fn push_truth(out: &mut Vec<u8>, truth: bool) -> Result<(), AllocError>
    ensures { OnOk result (Appends (truth_bytes truth) out.old.items out.new.items) }
{
    push_byte(out, if truth { b'T' } else { b'F' })
}

/// The letter of a kind, and the lowest four bytes of a length.
fn push_length(out: &mut Vec<u8>, kind: u8, length: usize) -> Result<(), AllocError>
    ensures { OnOk result (Appends (kind ∷ four length) out.old.items out.new.items) }
{
    push_byte(out, kind)?;
    out.extend_from_slice(&((length % 0x1_0000_0000) as u32).to_le_bytes())
}

#[tactic(auto, unfolding(crate::specs::Marshal::text_bytes))]
fn push_bytes(out: &mut Vec<u8>, text: &str) -> Result<(), AllocError>
    ensures { OnOk result (Appends (text_bytes text.now) out.old.items out.new.items) }
{
    push_length(out, b'u', text.len())?;
    out.extend_from_slice(text.as_bytes())
}

fn push_text<T: Words>(out: &mut Vec<u8>, text: &T) -> Result<(), AllocError>
    ensures { OnOk result (Appends (text_bytes (T.bytes text.now)) out.old.items out.new.items) }
{
    push_bytes(out, text.words())
}

/// The last digit of a number to the base 2 ^ 15.
fn push_digit(out: &mut Vec<u8>, digits: u64) -> Result<(), AllocError>
    ensures { OnOk result (Appends (to_le_bytes w16 (digits % 32768)) out.old.items out.new.items) }
{
    out.extend_from_slice(&((digits % 32768) as u16).to_le_bytes())
}

#[tactic(auto, unfolding(crate::specs::Marshal::three_digits))]
fn push_three(out: &mut Vec<u8>, number: u64) -> Result<(), AllocError>
    ensures { OnOk result (Appends (three_digits number) out.old.items out.new.items) }
{
    push_digit(out, number)?;
    push_digit(out, number / 32768)?;
    push_digit(out, number / 32768 / 32768)
}

#[tactic(auto, unfolding(crate::specs::Marshal::four_digits))]
fn push_four(out: &mut Vec<u8>, number: u64) -> Result<(), AllocError>
    ensures { OnOk result (Appends (four_digits number) out.old.items out.new.items) }
{
    push_three(out, number)?;
    push_digit(out, number / 0x2000_0000_0000)
}

#[tactic(auto, unfolding(crate::specs::Marshal::five_digits))]
fn push_five(out: &mut Vec<u8>, number: u64) -> Result<(), AllocError>
    ensures { OnOk result (Appends (five_digits number) out.old.items out.new.items) }
{
    push_four(out, number)?;
    push_digit(out, number / 0x1000_0000_0000_0000)
}

fn push_with_four(out: &mut Vec<u8>, number: u64) -> Result<(), AllocError>
    ensures { OnOk result (
        Appends ((108 ∷ four 4) ++ four_digits number) out.old.items out.new.items) }
{
    push_length(out, b'l', 4)?;
    push_four(out, number)
}

fn push_with_five(out: &mut Vec<u8>, number: u64) -> Result<(), AllocError>
    ensures { OnOk result (
        Appends ((108 ∷ four 5) ++ five_digits number) out.old.items out.new.items) }
{
    push_length(out, b'l', 5)?;
    push_five(out, number)
}

/// A number past 45 bits.
#[tactic(auto, unfolding(crate::specs::Marshal::longer_bytes))]
fn push_longer(out: &mut Vec<u8>, number: u64) -> Result<(), AllocError>
    ensures { OnOk result (Appends (longer_bytes number) out.old.items out.new.items) }
{
    if number < 0x1000_0000_0000_0000 {
        push_with_four(out, number)
    } else {
        push_with_five(out, number)
    }
}

/// A number past 31 bits.
#[tactic(auto, unfolding(crate::specs::Marshal::long_bytes))]
fn push_long(out: &mut Vec<u8>, number: u64) -> Result<(), AllocError>
    ensures { OnOk result (Appends (long_bytes number) out.old.items out.new.items) }
{
    if number < 0x2000_0000_0000 {
        push_length(out, b'l', 3)?;
        push_three(out, number)
    } else {
        push_longer(out, number)
    }
}

#[tactic(auto, unfolding(crate::specs::Marshal::size_bytes))]
fn push_size(out: &mut Vec<u8>, number: u64) -> Result<(), AllocError>
    ensures { OnOk result (Appends (size_bytes number) out.old.items out.new.items) }
{
    if number < 0x8000_0000 {
        push_length(out, b'i', number as usize)
    } else {
        push_long(out, number)
    }
}

/// The name with this number.
#[tactic(auto, unfolding(crate::specs::Marshal::reference))]
fn push_name(out: &mut Vec<u8>, number: u8) -> Result<(), AllocError>
    ensures { OnOk result (Appends (reference number) out.old.items out.new.items) }
{
    out.extend_from_slice(&[b'r', number, 0, 0, 0])
}

/// The beginning of a variant that holds something.
#[tactic(auto, unfolding(crate::specs::Marshal::reference))]
fn open_tagged(out: &mut Vec<u8>, number: u8) -> Result<(), AllocError>
    ensures { OnOk result (Appends (123 ∷ reference number) out.old.items out.new.items) }
{
    out.extend_from_slice(&[b'{', b'r', number, 0, 0, 0])
}

fn close(out: &mut Vec<u8>) -> Result<(), AllocError>
    ensures { OnOk result (Appends (48 ∷ []) out.old.items out.new.items) }
{
    push_byte(out, b'0')
}

fn push_tagged_name(out: &mut Vec<u8>, number: u8, content: u8) -> Result<(), AllocError>
    ensures { OnOk result (
        Appends ((123 ∷ reference number) ++ (reference content ++ 48 ∷ []))
        out.old.items out.new.items) }
{
    open_tagged(out, number)?;
    push_name(out, content)?;
    close(out)
}

fn push_tagged_text<T: Words>(out: &mut Vec<u8>, number: u8, text: &T) -> Result<(), AllocError>
    ensures { OnOk result (
        Appends ((123 ∷ reference number) ++ (text_bytes (T.bytes text.now) ++ 48 ∷ []))
        out.old.items out.new.items) }
{
    open_tagged(out, number)?;
    push_text(out, text)?;
    close(out)
}

fn push_tagged_truth(out: &mut Vec<u8>, number: u8, truth: bool) -> Result<(), AllocError>
    ensures { OnOk result (
        Appends ((123 ∷ reference number) ++ (truth_bytes truth ++ 48 ∷ []))
        out.old.items out.new.items) }
{
    open_tagged(out, number)?;
    push_truth(out, truth)?;
    close(out)
}

fn push_optional_text<T: Words>(out: &mut Vec<u8>, text: &Option<T>) -> Result<(), AllocError>
    ensures { OnOk result (
        Appends (optional text_bytes (option_map T.bytes text.now)) out.old.items out.new.items) }
{
    match text {
        None => push_null(out),
        Some(text) => push_text(out, text),
    }
}

fn push_level(out: &mut Vec<u8>, level: HeadingLevel) -> Result<(), AllocError>
    ensures { OnOk result (Appends (level_bytes level) out.old.items out.new.items) }
{
    let number = match level {
        HeadingLevel::H1 => H1,
        HeadingLevel::H2 => H2,
        HeadingLevel::H3 => H3,
        HeadingLevel::H4 => H4,
        HeadingLevel::H5 => H5,
        HeadingLevel::H6 => H6,
    };
    push_name(out, number)
}

fn push_quote(out: &mut Vec<u8>, quote: BlockQuoteKind) -> Result<(), AllocError>
    ensures { OnOk result (Appends (quote_bytes quote) out.old.items out.new.items) }
{
    let number = match quote {
        BlockQuoteKind::Note => NOTE,
        BlockQuoteKind::Tip => TIP,
        BlockQuoteKind::Important => IMPORTANT,
        BlockQuoteKind::Warning => WARNING,
        BlockQuoteKind::Caution => CAUTION,
    };
    push_name(out, number)
}

fn push_alignment(out: &mut Vec<u8>, alignment: Alignment) -> Result<(), AllocError>
    ensures { OnOk result (Appends (alignment_bytes alignment) out.old.items out.new.items) }
{
    let number = match alignment {
        Alignment::None => NO_ALIGNMENT,
        Alignment::Left => LEFT,
        Alignment::Center => CENTER,
        Alignment::Right => RIGHT,
    };
    push_name(out, number)
}

fn push_metadata(out: &mut Vec<u8>, metadata: MetadataBlockKind) -> Result<(), AllocError>
    ensures { OnOk result (Appends (metadata_bytes metadata) out.old.items out.new.items) }
{
    let number = match metadata {
        MetadataBlockKind::YamlStyle => YAML_STYLE,
        MetadataBlockKind::PlusesStyle => PLUSES_STYLE,
    };
    push_name(out, number)
}

fn push_quote_kind(out: &mut Vec<u8>, kind: Option<BlockQuoteKind>) -> Result<(), AllocError>
    ensures { OnOk result (Appends (optional quote_bytes kind) out.old.items out.new.items) }
{
    match kind {
        None => push_null(out),
        Some(kind) => push_quote(out, kind),
    }
}

fn push_block_quote(out: &mut Vec<u8>, kind: Option<BlockQuoteKind>) -> Result<(), AllocError>
    ensures { OnOk result (
        Appends (tagged (codes "BlockQuote") (optional quote_bytes kind))
        out.old.items out.new.items) }
{
    open_tagged(out, BLOCK_QUOTE)?;
    push_quote_kind(out, kind)?;
    close(out)
}

fn push_code_kind<T: Words>(out: &mut Vec<u8>, kind: &CodeBlockKindOf<T>) -> Result<(), AllocError>
    ensures { OnOk result (
        Appends (code_bytes (code_view T.bytes kind.now)) out.old.items out.new.items) }
{
    match kind {
        CodeBlockKindOf::Indented => push_name(out, INDENTED),
        CodeBlockKindOf::Fenced(info) => push_tagged_text(out, FENCED, info),
    }
}

fn push_code_block<T: Words>(out: &mut Vec<u8>, kind: &CodeBlockKindOf<T>) -> Result<(), AllocError>
    ensures { OnOk result (
        Appends (tagged (codes "CodeBlock") (code_bytes (code_view T.bytes kind.now)))
        out.old.items out.new.items) }
{
    open_tagged(out, CODE_BLOCK)?;
    push_code_kind(out, kind)?;
    close(out)
}

fn push_first_number(out: &mut Vec<u8>, start: Option<u64>) -> Result<(), AllocError>
    ensures { OnOk result (Appends (optional size_bytes start) out.old.items out.new.items) }
{
    match start {
        None => push_null(out),
        Some(start) => push_size(out, start),
    }
}

fn push_list(out: &mut Vec<u8>, start: Option<u64>) -> Result<(), AllocError>
    ensures { OnOk result (
        Appends (tagged (codes "List") (optional size_bytes start)) out.old.items out.new.items) }
{
    open_tagged(out, LIST)?;
    push_first_number(out, start)?;
    close(out)
}

#[tactic(auto, using(crate::proofs::Marshalled::alignment_comes, crate::proofs::Marshalled::alignment_comes_as))]
fn push_alignments(out: &mut Vec<u8>, alignments: &[Alignment]) -> Result<(), AllocError>
    ensures { OnOk result (
        Appends (listed alignment_bytes alignments.now) out.old.items out.new.items) }
{
    push_length(out, b'[', alignments.len())?;
    for alignment in alignments {
        push_alignment(out, *alignment)?;
    }
    Ok(())
}

fn push_table(out: &mut Vec<u8>, alignments: &[Alignment]) -> Result<(), AllocError>
    ensures { OnOk result (
        Appends (tagged (codes "Table") (listed alignment_bytes alignments.now))
        out.old.items out.new.items) }
{
    open_tagged(out, TABLE)?;
    push_alignments(out, alignments)?;
    close(out)
}

fn push_classes<T: Words>(out: &mut Vec<u8>, classes: &[T]) -> Result<(), AllocError>
    ensures { OnOk result (
        Appends (listed text_bytes (map T.bytes classes.now)) out.old.items out.new.items) }
{
    push_length(out, b'[', classes.len())?;
    for class in classes {
        push_text(out, class)?;
    }
    Ok(())
}

fn push_attribute<T: Words>(out: &mut Vec<u8>, attribute: &(T, Option<T>)) -> Result<(), AllocError>
    ensures { OnOk result (
        Appends (attribute_bytes (attribute_view T.bytes attribute.now))
        out.old.items out.new.items) }
{
    push_length(out, b'[', 2)?;
    push_text(out, &attribute.0)?;
    push_optional_text(out, &attribute.1)
}

fn push_attributes<T: Words>(
    out: &mut Vec<u8>,
    attributes: &[(T, Option<T>)],
) -> Result<(), AllocError>
    ensures { OnOk result (
        Appends (listed attribute_bytes (map (attribute_view T.bytes) attributes.now))
        out.old.items out.new.items) }
{
    push_length(out, b'[', attributes.len())?;
    for attribute in attributes {
        push_attribute(out, attribute)?;
    }
    Ok(())
}

fn push_heading_content<T: Words>(
    out: &mut Vec<u8>,
    level: HeadingLevel,
    id: &Option<T>,
    classes: &[T],
    attrs: &[(T, Option<T>)],
) -> Result<(), AllocError>
    ensures { OnOk result (
        Appends (heading_bytes level (option_map T.bytes id.now)
        (map T.bytes classes.now) (map (attribute_view T.bytes) attrs.now))
        out.old.items out.new.items) }
{
    push_byte(out, b'{')?;
    push_name(out, ATTRS)?;
    push_attributes(out, attrs)?;
    push_name(out, CLASSES)?;
    push_classes(out, classes)?;
    push_name(out, ID)?;
    push_optional_text(out, id)?;
    push_name(out, LEVEL)?;
    push_level(out, level)?;
    close(out)
}

fn push_heading<T: Words>(
    out: &mut Vec<u8>,
    level: HeadingLevel,
    id: &Option<T>,
    classes: &[T],
    attrs: &[(T, Option<T>)],
) -> Result<(), AllocError>
    ensures { OnOk result (
        Appends (tagged (codes "Heading") (heading_bytes level (option_map T.bytes id.now)
        (map T.bytes classes.now) (map (attribute_view T.bytes) attrs.now)))
        out.old.items out.new.items) }
{
    open_tagged(out, HEADING)?;
    push_heading_content(out, level, id, classes, attrs)?;
    close(out)
}

fn push_wiki_link(out: &mut Vec<u8>, has_pothole: bool) -> Result<(), AllocError>
    ensures { OnOk result (
        Appends (tagged (codes "WikiLink") (tagged (codes "has_pothole") (truth_bytes has_pothole)))
        out.old.items out.new.items) }
{
    open_tagged(out, WIKI_LINK)?;
    push_tagged_truth(out, HAS_POTHOLE, has_pothole)?;
    close(out)
}

fn push_link_type(out: &mut Vec<u8>, link_type: LinkType) -> Result<(), AllocError>
    ensures { OnOk result (Appends (link_type_bytes link_type) out.old.items out.new.items) }
{
    match link_type {
        LinkType::Inline => push_name(out, INLINE),
        LinkType::Reference => push_name(out, REFERENCE),
        LinkType::ReferenceUnknown => push_name(out, REFERENCE_UNKNOWN),
        LinkType::Collapsed => push_name(out, COLLAPSED),
        LinkType::CollapsedUnknown => push_name(out, COLLAPSED_UNKNOWN),
        LinkType::Shortcut => push_name(out, SHORTCUT),
        LinkType::ShortcutUnknown => push_name(out, SHORTCUT_UNKNOWN),
        LinkType::Autolink => push_name(out, AUTOLINK),
        LinkType::Email => push_name(out, EMAIL),
        LinkType::WikiLink { has_pothole } => push_wiki_link(out, has_pothole),
    }
}

fn push_target<T: Words>(
    out: &mut Vec<u8>,
    link_type: LinkType,
    dest_url: &T,
    title: &T,
    id: &T,
) -> Result<(), AllocError>
    ensures { OnOk result (
        Appends (link_bytes link_type (T.bytes dest_url.now) (T.bytes title.now) (T.bytes id.now))
        out.old.items out.new.items) }
{
    push_byte(out, b'{')?;
    push_name(out, DEST_URL)?;
    push_text(out, dest_url)?;
    push_name(out, ID)?;
    push_text(out, id)?;
    push_name(out, LINK_TYPE)?;
    push_link_type(out, link_type)?;
    push_name(out, TITLE)?;
    push_text(out, title)?;
    close(out)
}

fn push_link<T: Words>(
    out: &mut Vec<u8>,
    number: u8,
    link_type: LinkType,
    dest_url: &T,
    title: &T,
    id: &T,
) -> Result<(), AllocError>
    ensures { OnOk result (
        Appends ((123 ∷ reference number) ++ (link_bytes link_type (T.bytes dest_url.now) (T.bytes title.now) (T.bytes id.now) ++ 48 ∷ []))
        out.old.items out.new.items) }
{
    open_tagged(out, number)?;
    push_target(out, link_type, dest_url, title, id)?;
    close(out)
}

fn push_metadata_block(out: &mut Vec<u8>, kind: MetadataBlockKind) -> Result<(), AllocError>
    ensures { OnOk result (
        Appends (tagged (codes "MetadataBlock") (metadata_bytes kind))
        out.old.items out.new.items) }
{
    open_tagged(out, METADATA_BLOCK)?;
    push_metadata(out, kind)?;
    close(out)
}

fn push_heading_end(out: &mut Vec<u8>, level: HeadingLevel) -> Result<(), AllocError>
    ensures { OnOk result (
        Appends (tagged (codes "Heading") (level_bytes level)) out.old.items out.new.items) }
{
    open_tagged(out, HEADING)?;
    push_level(out, level)?;
    close(out)
}

fn push_end(out: &mut Vec<u8>, end: TagEnd) -> Result<(), AllocError>
    ensures { OnOk result (Appends (end_bytes end) out.old.items out.new.items) }
{
    match end {
        TagEnd::Paragraph => push_name(out, PARAGRAPH),
        TagEnd::Heading(level) => push_heading_end(out, level),
        TagEnd::BlockQuote(kind) => push_block_quote(out, kind),
        TagEnd::CodeBlock => push_name(out, CODE_BLOCK),
        TagEnd::HtmlBlock => push_name(out, HTML_BLOCK),
        TagEnd::List(ordered) => push_tagged_truth(out, LIST, ordered),
        TagEnd::Item => push_name(out, ITEM),
        TagEnd::FootnoteDefinition => push_name(out, FOOTNOTE_DEFINITION),
        TagEnd::DefinitionList => push_name(out, DEFINITION_LIST),
        TagEnd::DefinitionListTitle => push_name(out, DEFINITION_LIST_TITLE),
        TagEnd::DefinitionListDefinition => push_name(out, DEFINITION_LIST_DEFINITION),
        TagEnd::Table => push_name(out, TABLE),
        TagEnd::TableHead => push_name(out, TABLE_HEAD),
        TagEnd::TableRow => push_name(out, TABLE_ROW),
        TagEnd::TableCell => push_name(out, TABLE_CELL),
        TagEnd::Emphasis => push_name(out, EMPHASIS),
        TagEnd::Strong => push_name(out, STRONG),
        TagEnd::Strikethrough => push_name(out, STRIKETHROUGH),
        TagEnd::Superscript => push_name(out, SUPERSCRIPT),
        TagEnd::Subscript => push_name(out, SUBSCRIPT),
        TagEnd::Link => push_name(out, LINK),
        TagEnd::Image => push_name(out, IMAGE),
        TagEnd::MetadataBlock(kind) => push_metadata_block(out, kind),
    }
}

/// Adds a tag. One that holds nothing has the bytes of its end.
fn push_tag<T: Words>(out: &mut Vec<u8>, tag: &TagOf<T>) -> Result<(), AllocError>
    ensures { OnOk result (
        Appends (tag_bytes (tag_view T.bytes tag.now)) out.old.items out.new.items) }
{
    match tag {
        TagOf::Heading {
            level,
            id,
            classes,
            attrs,
        } => push_heading(out, *level, id, classes, attrs),
        TagOf::CodeBlock(kind) => push_code_block(out, kind),
        TagOf::List(start) => push_list(out, *start),
        TagOf::FootnoteDefinition(label) => push_tagged_text(out, FOOTNOTE_DEFINITION, label),
        TagOf::Table(alignments) => push_table(out, alignments),
        TagOf::Link {
            link_type,
            dest_url,
            title,
            id,
        } => push_link(out, LINK, *link_type, dest_url, title, id),
        TagOf::Image {
            link_type,
            dest_url,
            title,
            id,
        } => push_link(out, IMAGE, *link_type, dest_url, title, id),
        _ => push_end(out, tag.to_end()),
    }
}

fn push_started<T: Words>(out: &mut Vec<u8>, tag: &TagOf<T>) -> Result<(), AllocError>
    ensures { OnOk result (
        Appends (tagged (codes "Start") (tag_bytes (tag_view T.bytes tag.now)))
        out.old.items out.new.items) }
{
    open_tagged(out, START)?;
    push_tag(out, tag)?;
    close(out)
}

fn push_ended(out: &mut Vec<u8>, end: TagEnd) -> Result<(), AllocError>
    ensures { OnOk result (
        Appends (tagged (codes "End") (end_bytes end)) out.old.items out.new.items) }
{
    open_tagged(out, END)?;
    push_end(out, end)?;
    close(out)
}

fn push_event<T: Words>(out: &mut Vec<u8>, event: &EventOf<T>) -> Result<(), AllocError>
    ensures { OnOk result (
        Appends (event_bytes (event_view T.bytes event.now)) out.old.items out.new.items) }
{
    match event {
        EventOf::Start(tag) => push_started(out, tag),
        EventOf::End(end) => push_ended(out, *end),
        EventOf::Text(text) => push_tagged_text(out, TEXT, text),
        EventOf::Code(text) => push_tagged_text(out, CODE, text),
        EventOf::InlineMath(text) => push_tagged_text(out, INLINE_MATH, text),
        EventOf::DisplayMath(text) => push_tagged_text(out, DISPLAY_MATH, text),
        EventOf::Html(text) => push_tagged_text(out, HTML, text),
        EventOf::InlineHtml(text) => push_tagged_text(out, INLINE_HTML, text),
        EventOf::FootnoteReference(label) => push_tagged_text(out, FOOTNOTE_REFERENCE, label),
        EventOf::SoftBreak => push_name(out, SOFT_BREAK),
        EventOf::HardBreak => push_name(out, HARD_BREAK),
        EventOf::Rule => push_name(out, RULE),
        EventOf::TaskListMarker(checked) => push_tagged_truth(out, TASK_LIST_MARKER, *checked),
    }
}

fn push_events<T: Words>(
    out: &mut Vec<u8>,
    pairs: &[(EventOf<T>, (usize, usize))],
) -> Result<(), AllocError>
    ensures { OnOk result (
        Appends (listed event_bytes (map (λ p. p.0) (map (pair_in T.bytes) pairs.now)))
        out.old.items out.new.items) }
{
    push_length(out, b'[', pairs.len())?;
    for pair in pairs {
        push_event(out, &pair.0)?;
    }
    Ok(())
}

fn push_starts<T: Words>(
    out: &mut Vec<u8>,
    pairs: &[(EventOf<T>, (usize, usize))],
) -> Result<(), AllocError>
    ensures { OnOk result (
        Appends (listed size_bytes (map (λ p. p.1.0) (map (pair_in T.bytes) pairs.now)))
        out.old.items out.new.items) }
{
    push_length(out, b'[', pairs.len())?;
    for pair in pairs {
        push_size(out, pair.1.0 as u64)?;
    }
    Ok(())
}

fn push_ends<T: Words>(
    out: &mut Vec<u8>,
    pairs: &[(EventOf<T>, (usize, usize))],
) -> Result<(), AllocError>
    ensures { OnOk result (
        Appends (listed size_bytes (map (λ p. p.1.1) (map (pair_in T.bytes) pairs.now)))
        out.old.items out.new.items) }
{
    push_length(out, b'[', pairs.len())?;
    for pair in pairs {
        push_size(out, pair.1.1 as u64)?;
    }
    Ok(())
}

#[tactic(auto, unfolding(crate::specs::Marshal::all_names))]
fn push_all_names(out: &mut Vec<u8>) -> Result<(), AllocError>
    ensures { OnOk result (Appends all_names out.old.items out.new.items) }
{
    out.extend_from_slice(ALL_NAMES)
}

#[tactic(auto, unfolding(crate::specs::Marshal::events_bytes))]
fn push_all<T: Words>(
    out: &mut Vec<u8>,
    pairs: &[(EventOf<T>, (usize, usize))],
) -> Result<(), AllocError>
    ensures { OnOk result (
        Appends (events_bytes (map (pair_in T.bytes) pairs.now)) out.old.items out.new.items) }
{
    out.extend_from_slice(b")\x04")?;
    push_all_names(out)?;
    push_events(out, pairs)?;
    push_starts(out, pairs)?;
    push_ends(out, pairs)
}

/// The bytes of which Python's `marshal.loads` makes four values: the names of the form, the events as `json.loads`
/// gives them, where their ranges begin, and where they end.
///
/// It fails if the bytes would be too many for Python, or if memory runs out.
pub fn events_to_marshal<T: Words>(
    alloc: Global,
    pairs: &[(EventOf<T>, (usize, usize))],
) -> Result<Vec<u8>, MarshalError>
    ensures bytes { IfOk result (λ bytes.
        bytes.items ≡ events_bytes (map (pair_in T.bytes) pairs.now)) }
    ensures fits { IfOk result (λ bytes. fits bytes.items ≡ true) }
    ensures error { IfErr result (IsTooLong (events_bytes (map (pair_in T.bytes) pairs.now))) }
{
    let mut out = Vec::new(alloc);
    match push_all(&mut out, pairs) {
        Ok(()) => {
            if out.len() < 0x8000_0000 {
                Ok(out)
            } else {
                Err(MarshalError::TooLong)
            }
        }
        Err(_) => Err(MarshalError::OutOfMemory),
    }
}
