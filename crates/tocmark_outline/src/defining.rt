//! The definitions of links of a text, as JSON.

ghost use Rattle.std.specs.Prelude.{◌≡◌, ◌++◌, ◌∷◌, [], IfOk, OnOk, flat_map, map, string_bytes};
ghost use Rattle.json.specs.Print.{print};
ghost use Rattle.json.specs.Token.{begin_array, end_array};
ghost use Rattle.tocmark_reader.specs.Definitions.{said_view};
ghost use Rattle.tocmark_outline.specs.Defining.{IsDefinitionsJson, definition_tokens, listed_view, range_tokens, text_tokens};

use json::Writer;
use std::alloc::{AllocError, Global};
use std::collections::HashMap;
use tocmark_event::event::{Event, LinkType, ParserOptions, Tag};
use tocmark_event::reader::Reader;
use tocmark_marked::MarkedReader;
use tocmark_read_tokens::label::{first_places, key_of};
use tocmark_reader::ReferenceDefinition;

/// A definition, and whether a link or an image leads to it.
#[derive(Drop)]
struct Listed {
    definition: ReferenceDefinition,
    is_used: bool,
}

/// The label by which an event leads to a definition, if it does.
fn label_of<'e>(event: &'e Event<'_>) -> Option<&'e str> {
    let (kind, id) = match event {
        Event::Start(Tag::Link { link_type, id, .. }) => (*link_type, id),
        Event::Start(Tag::Image { link_type, id, .. }) => (*link_type, id),
        _ => return None,
    };
    match kind {
        LinkType::Reference | LinkType::Collapsed | LinkType::Shortcut => Some(id.as_ref()),
        _ => None,
    }
}

/// The keys of the labels by which events lead to definitions.
fn keys_led(
    alloc: Global,
    events: &[(Event<'static>, (usize, usize))],
) -> Result<Vec<String>, AllocError> {
    let mut keys = Vec::new(alloc);
    for pair in events {
        if let Some(label) = label_of(&pair.0) {
            keys.push(key_of(alloc, label.as_bytes())?)?;
        }
    }
    Ok(keys)
}

/// The keys of the labels of definitions.
fn keys_defined(
    alloc: Global,
    definitions: &[ReferenceDefinition],
) -> Result<Vec<String>, AllocError> {
    let mut keys = Vec::new(alloc);
    for definition in definitions {
        keys.push(key_of(alloc, definition.label.as_bytes())?)?;
    }
    Ok(keys)
}

/// For each definition whether a link or an image leads to it: of several with one label the first counts.
fn uses(
    alloc: Global,
    definitions: &[ReferenceDefinition],
    events: &[(Event<'static>, (usize, usize))],
) -> Result<Vec<bool>, AllocError> {
    let keys = keys_defined(alloc, definitions)?;
    let first = first_places(alloc, &keys)?;
    let led = first_places(alloc, &keys_led(alloc, events)?)?;
    let mut all = Vec::new(alloc);
    for (place, key) in keys.iter().enumerate() {
        let is_first = first.get(key.as_str()) == Some(&place);
        all.push(is_first && led.get(key.as_str()).is_some())?;
    }
    Ok(all)
}

/// Definitions beside whether they are used.
fn with_uses(
    alloc: Global,
    definitions: Vec<ReferenceDefinition>,
    uses: &[bool],
) -> Result<Vec<Listed>, AllocError>
    ensures { IfOk result (λ all. map (λ l. said_view l.definition) all.items
        ≡ map said_view definitions.items) }
{
    let mut all = Vec::new(alloc);
    for definition in definitions {
        let is_used = uses.get(all.len()).copied().unwrap_or(false);
        all.push(Listed {
            definition,
            is_used,
        })?;
    }
    Ok(all)
}

/// Adds a member that is a text.
fn write_text(writer: &mut Writer, name: &str, text: &str) -> Result<(), AllocError>
    ensures tokens { OnOk result
        (writer.new.tokens ≡ writer.old.tokens ++ text_tokens name.now text.now) }
    ensures before { writer.new.before ≡ writer.old.before }
{
    writer.key(name)?;
    writer.string(text)
}

/// Adds a member that is a range.
fn write_range(writer: &mut Writer, name: &str, range: (usize, usize)) -> Result<(), AllocError>
    ensures tokens { OnOk result
        (writer.new.tokens ≡ writer.old.tokens ++ range_tokens name.now range) }
    ensures before { writer.new.before ≡ writer.old.before }
{
    let (start, end) = range;
    writer.key(name)?;
    writer.begin_object()?;
    writer.key("start")?;
    writer.u64(start as u64)?;
    writer.key("end")?;
    writer.u64(end as u64)?;
    writer.end_object()
}

/// Adds the object of a definition.
fn write_definition(writer: &mut Writer, it: &Listed) -> Result<(), AllocError>
    ensures tokens { OnOk result
        (writer.new.tokens ≡ writer.old.tokens ++ definition_tokens (listed_view it.now)) }
    ensures before { writer.new.before ≡ writer.old.before }
{
    writer.begin_object()?;
    write_text(writer, "label", it.definition.label.as_str())?;
    write_text(writer, "destination", it.definition.destination.as_str())?;
    write_text(writer, "title", it.definition.title.as_str())?;
    write_range(writer, "range", it.definition.place.whole)?;
    write_range(writer, "destination_range", it.definition.place.destination)?;
    write_range(writer, "title_range", it.definition.place.title)?;
    writer.key("used")?;
    writer.boolean(it.is_used)?;
    writer.end_object()
}

/// The text of bytes.
fn text_of(bytes: Vec<u8>) -> Result<String, AllocError>
    ensures { IfOk result (λ text. string_bytes text ≡ bytes.items) }
{
    match String::from_utf8(bytes) {
        Ok(text) => Ok(text),
        Err(_error) => Err(AllocError),
    }
}

/// The JSON array of these definitions.
fn listing(alloc: Global, all: &[Listed]) -> Result<String, AllocError>
    ensures { IfOk result (λ output. string_bytes output ≡ print (begin_array
        ∷ flat_map definition_tokens (map listed_view all.now) ++ end_array ∷ [])) }
{
    let mut writer = Writer::new(Vec::new(alloc));
    writer.begin_array()?;
    for it in all {
        write_definition(&mut writer, it)?;
    }
    writer.end_array()?;
    text_of(writer.into_inner())
}

/// Finds the definitions of links of a text under these flags, in their order, and returns them as a JSON array. Each has its
/// `label`, `destination` and `title`, without escapes and references; the bytes of all of it (`range`), of its destination and
/// of its title; and whether a link or an image leads to it (`used`). Of several with one label the first counts.
///
/// ```
/// let json = definitions(alloc, "[a]\n\n[a]: /b 'c'\n", GFM)?;
/// ```
///
/// It fails if memory runs out.
pub fn definitions(alloc: Global, text: &str, flags: ParserOptions) -> Result<String, AllocError>
    ensures { IfOk result (λ output. IsDefinitionsJson flags text.now (string_bytes output)) }
{
    let found = MarkedReader.definitions(alloc, text, flags)?;
    let reading = MarkedReader.read(alloc, text, flags)?;
    let uses = uses(alloc, &found, &reading.events)?;
    let all = with_uses(alloc, found, &uses)?;
    listing(alloc, &all)
}
