//! Events from their JSON value.

ghost use Rattle.std.specs.Prelude.{◌≡◌, IfErr, IfNone, IfOk, IfSome, codes, map};
ghost use Rattle.std.specs.Option.{option_map};
ghost use Rattle.serde_json.specs.Data.{boolean, string};
ghost use Rattle.tocmark_event.specs.declared.event.LinkType.TheVariants as link;
ghost use Rattle.tocmark_event.specs.View as event;
ghost use Rattle.tocmark_event.specs.View.{attribute_view, code_view, event_view, tag_view};
ghost use Rattle.tocmark_json.specs.Json.{alignment_json, attribute_json, code_json, end_json, event_json, heading_json, level_json, link_json, link_type_json, listed, located_json, metadata_json, optional, quote_json, size_json, tag_json, tagged, target_json};
ghost use Rattle.tocmark_json.specs.Node.{view};
ghost use Rattle.tocmark_json.specs.Place.{IsNoneOf, Refuses};

use crate::fault::Fault;
use crate::names::{alignment_named, level_named, link_type_named, metadata_named, quote_named};
use crate::node::Node;
use crate::parts::{four_named, number_in, one_named, only_member, text_in, two_items};
use crate::ranges::{Location, location_from};
use std::alloc::Global;
use tocmark_event::event::{
    Alignment, BlockQuoteKind, CodeBlockKindOf, EventOf, HeadingLevel, LinkType, MetadataBlockKind,
    OwnedWords, TagEnd, TagOf, Words,
};

fn wanted(key: &'static str, wanted: &'static str) -> Fault {
    Fault::Wanted { key, wanted }
}

const A_LEVEL: &str = "a level, H1 to H6";

const A_QUOTE: &str = "null, Note, Tip, Important, Warning or Caution";

const AN_ALIGNMENT: &str = "an array of None, Left, Center and Right";

const A_KIND_OF_METADATA: &str = "YamlStyle or PlusesStyle";

const A_LINK_TYPE: &str = "a type of link, as Inline";

const A_KIND_OF_CODE: &str = "Indented, or an object with the key Fenced alone";

const A_HEADING: &str = "an object with the keys level, id, classes and attrs alone";

const A_LINK: &str = "an object with the keys link_type, dest_url, title and id alone";

const AN_ATTRIBUTE: &str = "an array of two, a string and a string or null";

const A_TAG: &str = "a container, by its name or as an object with its name as the only key";

const AN_END: &str = "a container's end, by its name or as an object with its name as the only key";

const AN_EVENT: &str = "an event, by its name or as an object with its name as the only key";

const A_PAIR: &str = "an array of two, an event and its range";

fn text_from<U: OwnedWords>(alloc: Global, value: &Node<'_>, key: &'static str) -> Result<U, Fault>
    ensures read { IfOk result (λ text. view value.now ≡ string (U.Words.bytes text)) }
    ensures refused { IfErr result (Refuses string (view value.now)) }
{
    match value {
        Node::String(text) => Ok(U::from_text(alloc, *text)?),
        _ => Err(wanted(key, "a string")),
    }
}

fn optional_text_from<U: OwnedWords>(
    alloc: Global,
    value: &Node<'_>,
    key: &'static str,
) -> Result<Option<U>, Fault>
    ensures read { IfOk result (λ text. view value.now
        ≡ optional string (option_map U.Words.bytes text)) }
    ensures refused { IfErr result (Refuses (optional string) (view value.now)) }
{
    match value {
        Node::Null => Ok(None),
        Node::String(text) => Ok(Some(U::from_text(alloc, *text)?)),
        _ => Err(wanted(key, "a string or null")),
    }
}

fn truth_from(value: &Node<'_>, key: &'static str) -> Result<bool, Fault>
    ensures read { IfOk result (λ b. view value.now ≡ boolean b) }
    ensures refused { IfErr result (Refuses boolean (view value.now)) }
{
    match value {
        Node::Bool(truth) => Ok(*truth),
        _ => Err(wanted(key, "true or false")),
    }
}

fn level_from(value: &Node<'_>, key: &'static str) -> Result<HeadingLevel, Fault>
    ensures read { IfOk result (λ level. view value.now ≡ level_json level) }
    ensures refused { IfErr result (Refuses level_json (view value.now)) }
{
    let Node::String(name) = value else {
        return Err(wanted(key, A_LEVEL));
    };
    match level_named(name) {
        Some(level) => Ok(level),
        None => Err(wanted(key, A_LEVEL)),
    }
}

fn quote_from(value: &Node<'_>) -> Result<Option<BlockQuoteKind>, Fault>
    ensures read { IfOk result (λ kind. view value.now ≡ optional quote_json kind) }
    ensures refused { IfErr result (Refuses (optional quote_json) (view value.now)) }
{
    let name = match value {
        Node::Null => return Ok(None),
        Node::String(name) => *name,
        _ => return Err(wanted("BlockQuote", A_QUOTE)),
    };
    match quote_named(name) {
        Some(kind) => Ok(Some(kind)),
        None => Err(wanted("BlockQuote", A_QUOTE)),
    }
}

fn alignment_from(value: &Node<'_>) -> Result<Alignment, Fault>
    ensures read { IfOk result (λ alignment. view value.now ≡ alignment_json alignment) }
    ensures refused { IfErr result (Refuses alignment_json (view value.now)) }
{
    let Node::String(name) = value else {
        return Err(wanted("Table", AN_ALIGNMENT));
    };
    match alignment_named(name) {
        Some(alignment) => Ok(alignment),
        None => Err(wanted("Table", AN_ALIGNMENT)),
    }
}

fn metadata_from(value: &Node<'_>) -> Result<MetadataBlockKind, Fault>
    ensures read { IfOk result (λ kind. view value.now ≡ metadata_json kind) }
    ensures refused { IfErr result (Refuses metadata_json (view value.now)) }
{
    let Node::String(name) = value else {
        return Err(wanted("MetadataBlock", A_KIND_OF_METADATA));
    };
    match metadata_named(name) {
        Some(kind) => Ok(kind),
        None => Err(wanted("MetadataBlock", A_KIND_OF_METADATA)),
    }
}

fn wiki_link_from(value: &Node<'_>) -> Result<LinkType, Fault>
    ensures read { IfOk result (λ link_type. view value.now ≡ link_type_json link_type) }
    ensures refused { IfErr result
        (Refuses (λ b. link_type_json (link.WikiLink b)) (view value.now)) }
{
    let Some(content) = one_named(value, "WikiLink") else {
        return Err(wanted("link_type", A_LINK_TYPE));
    };
    let Some(truth) = one_named(content, "has_pothole") else {
        return Err(wanted("WikiLink", "an object with the key has_pothole alone"));
    };
    let has_pothole = truth_from(truth, "has_pothole")?;
    Ok(LinkType::WikiLink { has_pothole })
}

fn link_type_from(value: &Node<'_>) -> Result<LinkType, Fault>
    ensures read { IfOk result (λ link_type. view value.now ≡ link_type_json link_type) }
    ensures refused { IfErr result (Refuses link_type_json (view value.now)) }
{
    let Some(name) = text_in(value) else {
        return wiki_link_from(value);
    };
    match link_type_named(name) {
        Some(link_type) => Ok(link_type),
        None => Err(wanted("link_type", A_LINK_TYPE)),
    }
}

fn fenced_from<U: OwnedWords>(alloc: Global, value: &Node<'_>) -> Result<CodeBlockKindOf<U>, Fault>
    ensures read { IfOk result (λ kind. view value.now ≡ code_json (code_view U.Words.bytes kind)) }
    ensures refused { IfErr result
        (Refuses (λ info. code_json (event.Fenced info)) (view value.now)) }
{
    match one_named(value, "Fenced") {
        Some(info) => text_from(alloc, info, "Fenced").map(CodeBlockKindOf::Fenced),
        None => Err(wanted("CodeBlock", A_KIND_OF_CODE)),
    }
}

fn code_from<U: OwnedWords>(alloc: Global, value: &Node<'_>) -> Result<CodeBlockKindOf<U>, Fault>
    ensures read { IfOk result (λ kind. view value.now ≡ code_json (code_view U.Words.bytes kind)) }
    ensures refused { IfErr result (Refuses code_json (view value.now)) }
{
    match value {
        Node::String(name) if *name == "Indented" => Ok(CodeBlockKindOf::Indented),
        _ => fenced_from(alloc, value),
    }
}

fn classes_from<U: OwnedWords + Drop>(alloc: Global, value: &Node<'_>) -> Result<Vec<U>, Fault>
    ensures read { IfOk result (λ classes. view value.now
        ≡ listed string (map U.Words.bytes classes.items)) }
    ensures refused { IfErr result (Refuses (listed string) (view value.now)) }
{
    let Node::Array(items) = value else {
        return Err(wanted("classes", "an array of strings"));
    };
    let mut classes = Vec::new(alloc);
    for item in items {
        classes.push(text_from(alloc, item, "classes")?)?;
    }
    Ok(classes)
}

fn attribute_from<U: OwnedWords + Drop>(
    alloc: Global,
    value: &Node<'_>,
) -> Result<(U, Option<U>), Fault>
    ensures read { IfOk result (λ attribute. view value.now
        ≡ attribute_json (attribute_view U.Words.bytes attribute)) }
    ensures refused { IfErr result (Refuses attribute_json (view value.now)) }
{
    let Some((key, content)) = two_items(value) else {
        return Err(wanted("attrs", AN_ATTRIBUTE));
    };
    let key = text_from(alloc, key, "attrs")?;
    Ok((key, optional_text_from(alloc, content, "attrs")?))
}

fn attributes_from<U: OwnedWords + Drop>(
    alloc: Global,
    value: &Node<'_>,
) -> Result<Vec<(U, Option<U>)>, Fault>
    ensures read { IfOk result (λ attributes. view value.now
        ≡ listed attribute_json (map (attribute_view U.Words.bytes) attributes.items)) }
    ensures refused { IfErr result (Refuses (listed attribute_json) (view value.now)) }
{
    let Node::Array(items) = value else {
        return Err(wanted("attrs", "an array of attributes"));
    };
    let mut attributes = Vec::new(alloc);
    for item in items {
        attributes.push(attribute_from(alloc, item)?)?;
    }
    Ok(attributes)
}

fn alignments_from(alloc: Global, value: &Node<'_>) -> Result<Vec<Alignment>, Fault>
    ensures read { IfOk result (λ alignments. view value.now
        ≡ listed alignment_json alignments.items) }
    ensures refused { IfErr result (Refuses (listed alignment_json) (view value.now)) }
{
    let Node::Array(items) = value else {
        return Err(wanted("Table", AN_ALIGNMENT));
    };
    let mut alignments = Vec::new(alloc);
    for item in items {
        alignments.push(alignment_from(item)?)?;
    }
    Ok(alignments)
}

fn heading_from<U: OwnedWords + Drop>(alloc: Global, value: &Node<'_>) -> Result<TagOf<U>, Fault>
    ensures read { IfOk result (λ tag. tagged (codes "Heading") (view value.now)
        ≡ tag_json (tag_view U.Words.bytes tag)) }
    ensures refused { IfErr result (Refuses tag_json (tagged (codes "Heading") (view value.now))) }
{
    let Some(found) = four_named(value, "attrs", "classes", "id", "level") else {
        return Err(wanted("Heading", A_HEADING));
    };
    let level = level_from(found.fourth, "level")?;
    let id = optional_text_from(alloc, found.third, "id")?;
    let classes = classes_from(alloc, found.second)?;
    Ok(TagOf::Heading {
        level,
        id,
        classes,
        attrs: attributes_from(alloc, found.first)?,
    })
}

/// What a link and an image say of where they lead.
#[derive(Drop)]
struct Target<U> {
    link_type: LinkType,
    dest_url: U,
    title: U,
    id: U,
}

fn target_from<U: OwnedWords + Drop>(
    alloc: Global,
    value: &Node<'_>,
    key: &'static str,
) -> Result<Target<U>, Fault>
    ensures read { IfOk result (λ target. view value.now
        ≡ link_json target.link_type (U.Words.bytes target.dest_url)
        (U.Words.bytes target.title) (U.Words.bytes target.id)) }
    ensures refused { IfErr result (Refuses target_json (view value.now)) }
{
    let Some(found) = four_named(value, "dest_url", "id", "link_type", "title") else {
        return Err(wanted(key, A_LINK));
    };
    let link_type = link_type_from(found.third)?;
    let dest_url = text_from(alloc, found.first, "dest_url")?;
    let title = text_from(alloc, found.fourth, "title")?;
    Ok(Target {
        link_type,
        dest_url,
        title,
        id: text_from(alloc, found.second, "id")?,
    })
}

fn link_from<U: OwnedWords + Drop>(alloc: Global, value: &Node<'_>) -> Result<TagOf<U>, Fault>
    ensures read { IfOk result (λ tag. tagged (codes "Link") (view value.now)
        ≡ tag_json (tag_view U.Words.bytes tag)) }
    ensures refused { IfErr result (Refuses tag_json (tagged (codes "Link") (view value.now))) }
{
    let Target {
        link_type,
        dest_url,
        title,
        id,
    } = target_from(alloc, value, "Link")?;
    Ok(TagOf::Link {
        link_type,
        dest_url,
        title,
        id,
    })
}

fn image_from<U: OwnedWords + Drop>(alloc: Global, value: &Node<'_>) -> Result<TagOf<U>, Fault>
    ensures read { IfOk result (λ tag. tagged (codes "Image") (view value.now)
        ≡ tag_json (tag_view U.Words.bytes tag)) }
    ensures refused { IfErr result (Refuses tag_json (tagged (codes "Image") (view value.now))) }
{
    let Target {
        link_type,
        dest_url,
        title,
        id,
    } = target_from(alloc, value, "Image")?;
    Ok(TagOf::Image {
        link_type,
        dest_url,
        title,
        id,
    })
}

fn start_from(value: &Node<'_>) -> Result<Option<u64>, Fault>
    ensures read { IfOk result (λ start. view value.now ≡ optional size_json start) }
    ensures refused { IfErr result (Refuses (optional size_json) (view value.now)) }
{
    if let Node::Null = value {
        return Ok(None);
    }
    match number_in(value) {
        Some(start) => Ok(Some(start)),
        None => Err(wanted(
            "List",
            "null, or a whole number from 0 to 18446744073709551615",
        )),
    }
}

fn plain_tag<U: Words>(name: &str) -> Option<TagOf<U>>
    ensures named { IfSome result (λ tag. string name.now ≡ tag_json (tag_view U.bytes tag)) }
    ensures unnamed { IfNone result (IsNoneOf tag_json (string name.now)) }
{
    match name {
        "Paragraph" => Some(TagOf::Paragraph),
        "HtmlBlock" => Some(TagOf::HtmlBlock),
        "Item" => Some(TagOf::Item),
        "DefinitionList" => Some(TagOf::DefinitionList),
        "DefinitionListTitle" => Some(TagOf::DefinitionListTitle),
        "DefinitionListDefinition" => Some(TagOf::DefinitionListDefinition),
        "TableHead" => Some(TagOf::TableHead),
        "TableRow" => Some(TagOf::TableRow),
        "TableCell" => Some(TagOf::TableCell),
        "Emphasis" => Some(TagOf::Emphasis),
        "Strong" => Some(TagOf::Strong),
        "Strikethrough" => Some(TagOf::Strikethrough),
        "Superscript" => Some(TagOf::Superscript),
        "Subscript" => Some(TagOf::Subscript),
        _ => None,
    }
}

fn tag_with<U: OwnedWords + Drop>(
    alloc: Global,
    name: &str,
    content: &Node<'_>,
) -> Result<TagOf<U>, Fault>
    ensures read { IfOk result (λ tag. tagged name.now (view content.now)
        ≡ tag_json (tag_view U.Words.bytes tag)) }
    ensures refused { IfErr result (Refuses tag_json (tagged name.now (view content.now))) }
{
    match name {
        "Heading" => heading_from(alloc, content),
        "BlockQuote" => Ok(TagOf::BlockQuote(quote_from(content)?)),
        "CodeBlock" => code_from(alloc, content).map(TagOf::CodeBlock),
        "List" => Ok(TagOf::List(start_from(content)?)),
        "FootnoteDefinition" => {
            text_from(alloc, content, "FootnoteDefinition").map(TagOf::FootnoteDefinition)
        }
        "Table" => Ok(TagOf::Table(alignments_from(alloc, content)?)),
        "Link" => link_from(alloc, content),
        "Image" => image_from(alloc, content),
        "MetadataBlock" => Ok(TagOf::MetadataBlock(metadata_from(content)?)),
        _ => Err(wanted("Start", A_TAG)),
    }
}

fn tag_from<U: OwnedWords + Drop>(alloc: Global, value: &Node<'_>) -> Result<TagOf<U>, Fault>
    ensures read { IfOk result (λ tag. view value.now ≡ tag_json (tag_view U.Words.bytes tag)) }
    ensures refused { IfErr result (Refuses tag_json (view value.now)) }
{
    if let Some(name) = text_in(value) {
        return match plain_tag(name) {
            Some(tag) => Ok(tag),
            None => Err(wanted("Start", A_TAG)),
        };
    }
    match only_member(value) {
        Some((name, content)) => tag_with(alloc, name, content),
        None => Err(wanted("Start", A_TAG)),
    }
}

fn plain_end(name: &str) -> Option<TagEnd>
    ensures named { IfSome result (λ end. string name.now ≡ end_json end) }
    ensures unnamed { IfNone result (IsNoneOf end_json (string name.now)) }
{
    match name {
        "Paragraph" => Some(TagEnd::Paragraph),
        "CodeBlock" => Some(TagEnd::CodeBlock),
        "HtmlBlock" => Some(TagEnd::HtmlBlock),
        "Item" => Some(TagEnd::Item),
        "FootnoteDefinition" => Some(TagEnd::FootnoteDefinition),
        "DefinitionList" => Some(TagEnd::DefinitionList),
        "DefinitionListTitle" => Some(TagEnd::DefinitionListTitle),
        "DefinitionListDefinition" => Some(TagEnd::DefinitionListDefinition),
        "Table" => Some(TagEnd::Table),
        "TableHead" => Some(TagEnd::TableHead),
        "TableRow" => Some(TagEnd::TableRow),
        "TableCell" => Some(TagEnd::TableCell),
        "Emphasis" => Some(TagEnd::Emphasis),
        "Strong" => Some(TagEnd::Strong),
        "Strikethrough" => Some(TagEnd::Strikethrough),
        "Superscript" => Some(TagEnd::Superscript),
        "Subscript" => Some(TagEnd::Subscript),
        "Link" => Some(TagEnd::Link),
        "Image" => Some(TagEnd::Image),
        _ => None,
    }
}

fn end_with(name: &str, content: &Node<'_>) -> Result<TagEnd, Fault>
    ensures read { IfOk result (λ end. tagged name.now (view content.now) ≡ end_json end) }
    ensures refused { IfErr result (Refuses end_json (tagged name.now (view content.now))) }
{
    match name {
        "Heading" => level_from(content, "Heading").map(TagEnd::Heading),
        "BlockQuote" => quote_from(content).map(TagEnd::BlockQuote),
        "List" => truth_from(content, "List").map(TagEnd::List),
        "MetadataBlock" => metadata_from(content).map(TagEnd::MetadataBlock),
        _ => Err(wanted("End", AN_END)),
    }
}

fn end_from(value: &Node<'_>) -> Result<TagEnd, Fault>
    ensures read { IfOk result (λ end. view value.now ≡ end_json end) }
    ensures refused { IfErr result (Refuses end_json (view value.now)) }
{
    if let Some(name) = text_in(value) {
        return match plain_end(name) {
            Some(end) => Ok(end),
            None => Err(wanted("End", AN_END)),
        };
    }
    match only_member(value) {
        Some((name, content)) => end_with(name, content),
        None => Err(wanted("End", AN_END)),
    }
}

fn plain_event<U: Words>(name: &str) -> Option<EventOf<U>>
    ensures named { IfSome result (λ event. string name.now
        ≡ event_json (event_view U.bytes event)) }
    ensures unnamed { IfNone result (IsNoneOf event_json (string name.now)) }
{
    match name {
        "SoftBreak" => Some(EventOf::SoftBreak),
        "HardBreak" => Some(EventOf::HardBreak),
        "Rule" => Some(EventOf::Rule),
        _ => None,
    }
}

fn event_with<U: OwnedWords + Drop>(
    alloc: Global,
    name: &str,
    content: &Node<'_>,
) -> Result<EventOf<U>, Fault>
    ensures read { IfOk result (λ event. tagged name.now (view content.now)
        ≡ event_json (event_view U.Words.bytes event)) }
    ensures refused { IfErr result (Refuses event_json (tagged name.now (view content.now))) }
{
    match name {
        "Start" => tag_from(alloc, content).map(EventOf::Start),
        "End" => Ok(EventOf::End(end_from(content)?)),
        "Text" => text_from(alloc, content, "Text").map(EventOf::Text),
        "Code" => text_from(alloc, content, "Code").map(EventOf::Code),
        "InlineMath" => text_from(alloc, content, "InlineMath").map(EventOf::InlineMath),
        "DisplayMath" => text_from(alloc, content, "DisplayMath").map(EventOf::DisplayMath),
        "Html" => text_from(alloc, content, "Html").map(EventOf::Html),
        "InlineHtml" => text_from(alloc, content, "InlineHtml").map(EventOf::InlineHtml),
        "FootnoteReference" => {
            text_from(alloc, content, "FootnoteReference").map(EventOf::FootnoteReference)
        }
        "TaskListMarker" => Ok(EventOf::TaskListMarker(truth_from(content, "TaskListMarker")?)),
        _ => Err(wanted("event", AN_EVENT)),
    }
}

/// Reads an event from its JSON value. Any other value is refused, and so are unknown and missing keys: the error has
/// the nearest key and what is wanted there.
pub fn event_from_json<U: OwnedWords + Drop>(
    alloc: Global,
    value: &Node<'_>,
) -> Result<EventOf<U>, Fault>
    ensures read { IfOk result (λ event. view value.now
        ≡ event_json (event_view U.Words.bytes event)) }
    ensures refused { IfErr result (Refuses event_json (view value.now)) }
{
    if let Some(name) = text_in(value) {
        return match plain_event(name) {
            Some(event) => Ok(event),
            None => Err(wanted("event", AN_EVENT)),
        };
    }
    match only_member(value) {
        Some((name, content)) => event_with(alloc, name, content),
        None => Err(wanted("event", AN_EVENT)),
    }
}

/// Reads an event and its range from their JSON value, an array of both. The range may have its lines and columns, or
/// be `null`. Any other value is refused as by `event_from_json`.
pub fn pair_from_json<U: OwnedWords + Drop>(
    alloc: Global,
    value: &Node<'_>,
) -> Result<(EventOf<U>, Location), Fault>
    ensures read { IfOk result (λ pair. view value.now
        ≡ located_json ((event_view U.Words.bytes pair.0, pair.1.range), pair.1.details)) }
    ensures refused { IfErr result (Refuses located_json (view value.now)) }
{
    let Some((event, range)) = two_items(value) else {
        return Err(wanted("pair", A_PAIR));
    };
    let location = location_from(range)?;
    Ok((event_from_json(alloc, event)?, location))
}
