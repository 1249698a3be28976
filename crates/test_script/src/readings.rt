//! Questions about what a text is read as, and their answers.

use crate::errors::{ended, error_name};
use crate::events::{merged_count, write_element, write_merged};
use crate::script::Script;
use crate::strings::Quoted;
use std::alloc::{AllocError, Global};
use tocmark::reader::{Reader, Reading};
use tocmark::{
    Error, cmark, cmark_with_options, cmark_with_source_range, cmark_with_source_range_and_options,
};
use tocmark_json::printing::ranged_to_text;

fn write_labels(answer: &mut String, name: &str, labels: &[String]) -> Result<(), AllocError> {
    for label in labels {
        let label = Quoted(label.as_str());
        writeln!(answer, "{name} {label}")?;
    }
    Ok(())
}

/// Writes the events of a reading with their ranges.
fn write_pairs(alloc: Global, answer: &mut String, reading: &Reading) -> Result<(), AllocError> {
    for pair in reading.events.chunks(1) {
        write_element(answer, &ranged_to_text(alloc, pair))?;
    }
    Ok(())
}

/// Writes the events of a reading, with their ranges or merged, and its labels.
fn write_reading(
    alloc: Global,
    answer: &mut String,
    reading: &Reading,
    is_merged: bool,
) -> Result<(), AllocError> {
    if is_merged {
        write_merged(alloc, answer, &reading.events)?;
    } else {
        write_pairs(alloc, answer, reading)?;
    }
    write_labels(answer, "Defined", &reading.defined)?;
    write_labels(answer, "Unresolved", &reading.unresolved)
}

/// Writes the reading of a text: its events, with their ranges or merged, and its labels.
///
/// # Errors
///
/// There is no memory for the reading or the answer.
pub fn write_read(
    alloc: Global,
    answer: &mut String,
    script: &Script<'static>,
    text: &str,
    is_merged: bool,
) -> Result<(), AllocError> {
    let (reader, flags) = (&script.reader, script.flags);
    match &reader.read(alloc, text, flags) {
        Ok(reading) => write_reading(alloc, answer, reading, is_merged),
        Err(_) => Err(AllocError),
    }
}

/// Writes how many events the reading of a text has, each stretch of texts as one.
///
/// # Errors
///
/// There is no memory for the reading or the answer.
pub fn write_read_count(
    alloc: Global,
    answer: &mut String,
    script: &Script<'static>,
    text: &str,
) -> Result<(), AllocError> {
    let count = match &script.reader.read(alloc, text, script.flags) {
        Ok(reading) => merged_count(alloc, &reading.events)?,
        Err(_) => return Err(AllocError),
    };
    writeln!(answer, "{count} events")
}

/// Writes back the events of a reading.
fn write_back(
    alloc: Global,
    script: &Script<'static>,
    reading: &Reading,
    output: &mut String,
) -> Result<(), Error> {
    let (flags, events) = (script.flags, reading.events());
    if script.has_options {
        let options = script.options();
        ended(cmark_with_options(alloc, events, output, &script.reader, flags, options))
    } else {
        ended(cmark(alloc, events, output, &script.reader, flags))
    }
}

/// Writes back the events of a text's reading, with their ranges in the text.
fn write_back_ranged(
    alloc: Global,
    script: &Script<'static>,
    text: &str,
    reading: &Reading,
    output: &mut String,
) -> Result<(), Error> {
    let (flags, pairs) = (script.flags, reading.pairs());
    if script.has_options {
        let options = script.options();
        ended(cmark_with_source_range_and_options(
            alloc,
            pairs,
            text,
            output,
            &script.reader,
            flags,
            options,
        ))
    } else {
        ended(cmark_with_source_range(alloc, pairs, text, output, &script.reader, flags))
    }
}

/// What the reading of a text is written back as, with its ranges in the text or without.
fn written_back(
    alloc: Global,
    script: &Script<'static>,
    text: &str,
    reading: &Reading,
    has_source: bool,
) -> Result<String, Error> {
    let mut output = String::new(alloc);
    if has_source {
        write_back_ranged(alloc, script, text, reading, &mut output)?;
    } else {
        write_back(alloc, script, reading, &mut output)?;
    }
    Ok(output)
}

/// A text, read and written back.
fn rewritten(
    alloc: Global,
    script: &Script<'static>,
    text: &str,
    has_source: bool,
) -> Result<String, Error> {
    let (reader, flags) = (&script.reader, script.flags);
    match &reader.read(alloc, text, flags) {
        Ok(reading) => written_back(alloc, script, text, reading, has_source),
        Err(_) => Err(Error::OutOfMemory),
    }
}

/// Writes what a text is read and written back as, with the ranges of the reading or without, or the error's name.
///
/// # Errors
///
/// There is no memory for the answer.
pub fn write_roundtrip(
    alloc: Global,
    answer: &mut String,
    script: &Script<'static>,
    text: &str,
    has_source: bool,
) -> Result<(), AllocError> {
    match rewritten(alloc, script, text, has_source) {
        Ok(output) => {
            let text = Quoted(output.as_str());
            writeln!(answer, "{text}")
        }
        Err(error) => {
            let name = error_name(&error);
            writeln!(answer, "Err {name}")
        }
    }
}
