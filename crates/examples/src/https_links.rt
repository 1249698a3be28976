//! Reads Markdown, and writes it with `https:` in place of `http:` where links and images lead; what isn't changed stays
//! byte for byte. With the word `--blocks` a line for each block is written instead: its lines, and what became of it.
//!
//! Proved of `with_https`, for every reader: the reader finds in the answer what it finds in the input with each such
//! destination changed, and nothing else (`same`); the answer is made of slices of the input and of what was written
//! (`parts`); of a block that is said to be kept, the lines were copied (`kept`).

ghost use Rattle.std.specs.Prelude.{◌≡◌, map, option_map, IfOk, OnOk, string_bytes};
ghost use Rattle.std.specs.List.{All};
ghost use Rattle.tocmark_event.specs.Merged.{merged};
ghost use Rattle.tocmark_event.specs.Text.{text_of};
ghost use Rattle.tocmark_event.specs.View.{event_view};
ghost use Rattle.tocmark_compare.specs.Given.{found_events, given_events};
ghost use Rattle.tocmark_rewrite.specs.Edited.{read_source};
ghost use Rattle.tocmark_rewrite.specs.Kept.{IsTold};
ghost use Rattle.tocmark_rewrite.specs.Parts.{IsMadeOf};
ghost use Rattle.examples.specs.Links.{by_https, destination, secured, secured_events};

use std::alloc::{AllocError, Global};
use std::io::{self, Read};
use tocmark::Options;
use tocmark::event::{CowStr, Event, ParserOptions, Tag};
use tocmark::reader::{Reader, Reading};
use tocmark_reader::ExtendedReader;
use tocmark_rewrite::edits::set_destination;
use tocmark_rewrite::{DefinitionReader, Fate, Fault, Rewritten, rewritten_slice};

/// Where an event leads, if it begins a link or an image.
fn destination_in<'e>(event: &'e Event<'static>) -> Option<&'e str>
    ensures { option_map (λ url. url.now) result ≡ destination (event_view text_of event.now) }
{
    match event {
        Event::Start(Tag::Link { dest_url, .. }) => Some(dest_url.as_ref()),
        Event::Start(Tag::Image { dest_url, .. }) => Some(dest_url.as_ref()),
        _ => None,
    }
}

/// A destination, with `https:` in place of `http:`.
fn by_https(alloc: Global, url: &str) -> Result<String, AllocError>
    ensures { IfOk result (λ text. string_bytes text ≡ by_https url.now) }
{
    match url.strip_prefix("http:") {
        None => String::from_str(alloc, url),
        Some(rest) => {
            let mut text = String::from_str(alloc, "https:")?;
            text.push_str(rest)?;
            Ok(text)
        }
    }
}

/// Changes where an event leads.
fn secure(alloc: Global, event: &mut Event<'static>) -> Result<(), AllocError>
    ensures { OnOk result (event_view text_of event.new ≡ secured (event_view text_of event.old)) }
{
    let Some(url) = destination_in(event) else {
        return Ok(());
    };
    let text = by_https(alloc, url)?;
    set_destination(event, CowStr::Owned(text));
    Ok(())
}

/// Changes where each event leads.
fn secure_all(
    alloc: Global,
    events: &mut [(Event<'static>, (usize, usize))],
) -> Result<(), AllocError>
    ensures { OnOk result (map (λ e. event_view text_of e.0) events.new
        ≡ map (λ e. secured (event_view text_of e.0)) events.old) }
{
    for (event, _range) in events.iter_mut() {
        secure(alloc, event)?;
    }
    Ok(())
}

/// What the reader finds, with each link and image leading to the `https:` address.
fn read_secured<R: Reader>(
    alloc: Global,
    text: &str,
    reader: &R,
    flags: ParserOptions,
) -> Result<Reading, AllocError>
    ensures { IfOk result (λ reading. given_events reading.events.items
        ≡ secured_events (R.reading reader.now text.now flags)) }
{
    let mut reading = reader.read(alloc, text, flags)?;
    secure_all(alloc, &mut reading.events)?;
    Ok(reading)
}

/// The text with each link and image leading to the `https:` address.
fn with_https<R: DefinitionReader>(
    alloc: Global,
    text: &str,
    reader: &R,
    flags: ParserOptions,
) -> Result<Rewritten, Fault>
    ensures same { IfOk result (λ answer.
        merged (found_events (R.reading reader.now (string_bytes answer.text) flags))
        ≡ merged (secured_events (R.reading reader.now text.now flags))) }
    ensures parts { IfOk result (λ answer.
        IsMadeOf text.now (string_bytes answer.text) answer.parts.items) }
    ensures kept { IfOk result (λ answer.
        All (IsTold (read_source (λ text. R.reading reader.now text flags) text.now)
        (secured_events (R.reading reader.now text.now flags)) answer.parts.items)
        answer.trees.items) }
{
    let reading = read_secured(alloc, text, reader, flags)?;
    let options = Options::default();
    let answer = rewritten_slice(alloc, text, &reading.events, reader, flags, options)?;
    Ok(answer)
}

/// The extensions of GitHub's Markdown that the reader reads, and front matter.
fn flags() -> ParserOptions {
    ParserOptions::ENABLE_TABLES
        | ParserOptions::ENABLE_FOOTNOTES
        | ParserOptions::ENABLE_STRIKETHROUGH
        | ParserOptions::ENABLE_TASKLISTS
        | ParserOptions::ENABLE_YAML_STYLE_METADATA_BLOCKS
}

/// Writes a line for each block: its lines, and what became of it.
fn write_blocks(rt: &HostRuntime, answer: &Rewritten) -> io::Result<()> {
    for tree in &answer.trees {
        let (first, last) = tree.lines.unwrap_or((0, 0));
        let fate = match tree.fate {
            Fate::Kept(_) => "kept",
            Fate::Patched => "patched",
            Fate::Written => "written",
        };
        println!(rt; "{first}-{last}: {fate}")?;
    }
    Ok(())
}

/// Reads, changes and writes.
pub(crate) fn run<R: Read>(rt: &HostRuntime, word: &str, input: &mut R) -> anyhow::Result<()> {
    let text = io::read_to_string(rt.alloc(), input)?;
    let answer = with_https(rt.alloc(), text.as_str(), &ExtendedReader::new(), flags())?;
    if word == "--blocks" {
        write_blocks(rt, &answer)?;
        return Ok(());
    }
    let output = answer.text.as_str();
    print!(rt; "{output}")?;
    Ok(())
}
