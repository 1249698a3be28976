//! A preprocessor of mdBook: moves each heading of each chapter one level down; all else stays byte for byte.
//!
//! The JSON `[context, book]` is read, and the book is written. Chapters are below the key `Chapter` in the lists below
//! `items` or `sections` of the book and `sub_items` of a chapter, with their Markdown below `content`. All else is handed
//! on, with the keys of an object in the order of their bytes. mdBook asks by the word `supports` whether the preprocessor
//! is for a renderer: it reads nothing then, and the status 0 says so. Proved of `lowered`, for every reader: it finds in a
//! chapter what it found before with each heading one level down (`same`); `parts` is as in `rewritten_slice`.

ghost use Rattle.std.specs.Prelude.{◌≡◌, IfOk, string_bytes};
ghost use Rattle.tocmark_event.specs.Merged.{merged};
ghost use Rattle.tocmark_compare.specs.Given.{found_events, given_events};
ghost use Rattle.tocmark_rewrite.specs.Parts.{IsMadeOf};
ghost use Rattle.examples.specs.Chapters.{lowered_events};

use serde_json::Value;
use std::alloc::{AllocError, Global};
use std::io::{self, Read};
use tocmark::Options;
use tocmark::event::ParserOptions;
use tocmark::reader::{Reader, Reading};
use tocmark_reader::ExtendedReader;
use tocmark_rewrite::edits::{Shift, shift_headings};
use tocmark_rewrite::{DefinitionReader, Fault, Rewritten, rewritten_slice};

/// The extensions of mdBook's Markdown that the reader reads.
fn flags() -> ParserOptions {
    ParserOptions::ENABLE_TABLES
        | ParserOptions::ENABLE_FOOTNOTES
        | ParserOptions::ENABLE_STRIKETHROUGH
        | ParserOptions::ENABLE_TASKLISTS
}

/// What the reader finds, with each heading one level down.
fn read_lowered<R: Reader>(
    alloc: Global,
    text: &str,
    reader: &R,
    flags: ParserOptions,
) -> Result<Reading, AllocError>
    ensures { IfOk result (λ reading. given_events reading.events.items
        ≡ lowered_events (R.reading reader.now text.now flags)) }
{
    let mut reading = reader.read(alloc, text, flags)?;
    shift_headings(&mut reading.events, Shift::Down(1));
    Ok(reading)
}

/// The text with each heading one level down.
fn lowered<R: DefinitionReader>(
    alloc: Global,
    text: &str,
    reader: &R,
    flags: ParserOptions,
) -> Result<Rewritten, Fault>
    ensures same { IfOk result (λ answer.
        merged (found_events (R.reading reader.now (string_bytes answer.text) flags))
        ≡ merged (lowered_events (R.reading reader.now text.now flags))) }
    ensures parts { IfOk result (λ answer.
        IsMadeOf text.now (string_bytes answer.text) answer.parts.items) }
{
    let reading = read_lowered(alloc, text, reader, flags)?;
    let options = Options::default();
    let answer = rewritten_slice(alloc, text, &reading.events, reader, flags, options)?;
    Ok(answer)
}

/// Lowers the headings of the text at a place, if there is one.
fn lower_at(alloc: Global, book: &mut Value, place: &str) -> anyhow::Result<()> {
    if let Some(Value::String(content)) = book.pointer_mut(place) {
        let answer = lowered(alloc, content.as_str(), &ExtendedReader::new(), flags())?;
        *content = answer.text;
    }
    Ok(())
}

/// How many items a list has; none if there is no list.
fn count_at(book: &Value, list: &str) -> usize {
    match book.pointer(list) {
        Some(Value::Array(items)) => items.len(),
        _ => 0,
    }
}

/// Lowers the headings of all chapters.
fn lower_all(alloc: Global, book: &mut Value) -> anyhow::Result<()> {
    let mut lists = Vec::new(alloc);
    lists.push(String::from_str(alloc, "/items")?)?;
    lists.push(String::from_str(alloc, "/sections")?)?;
    for _ in 0..u64::MAX {
        let Some(list) = lists.pop() else {
            break;
        };
        for at in 0..count_at(book, list.as_str()) {
            let content = format!(in alloc; "{list}/{at}/Chapter/content")?;
            lower_at(alloc, book, content.as_str())?;
            lists.push(format!(in alloc; "{list}/{at}/Chapter/sub_items")?)?;
        }
    }
    Ok(())
}

/// Reads, lowers and writes.
pub(crate) fn run<R: Read>(rt: &HostRuntime, word: &str, input: &mut R) -> anyhow::Result<()> {
    if word == "supports" {
        return Ok(());
    }
    let text = io::read_to_string(rt.alloc(), input)?;
    let mut input = Value::from_str(rt.alloc(), text.as_str())?;
    let Some(book) = input.get_mut(1) else {
        anyhow::bail!("the input isn't [context, book]");
    };
    lower_all(rt.alloc(), book)?;
    let output = book.to_string(rt.alloc())?;
    print!(rt; "{output}")?;
    Ok(())
}
