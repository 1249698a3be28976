//! The reader of a script.

ghost use Rattle.std.specs.Prelude.{◌≡◌, IfOk, map};
ghost use Rattle.tocmark_event.specs.Reading.{reading_view};
ghost use Rattle.test_script.specs.Readers.{labelled_reading, ranged_view};

use std::alloc::{AllocError, Global};
use std::cell::Cell;
use std::collections::HashMap;
use tocmark_event::event::{Event, ParserOptions};
use tocmark_event::reader::{Reader, Reading};
use tocmark_reader::{CoreReader, ExtendedReader};

/// The events that a text is read as, each with its range in bytes.
pub type ReadEvents<'a> = Vec<(Event<'a>, (usize, usize))>;

/// A table of readings. A text that isn't in it is read as `otherwise`.
#[derive(Drop)]
pub struct Table<'a> {
    pub readings: HashMap<String, ReadEvents<'a>>,
    pub otherwise: ReadEvents<'a>,
}

/// The reader of a script: the core reader, that with one label more that it looked up in vain in each
/// text, a table of readings, or the reader of the extensions that the flags name.
#[derive(Drop)]
pub enum ScriptReader<'a> {
    Core,
    Labelled(String),
    Table(Table<'a>),
    Extended,
}

fn copied_events(
    alloc: Global,
    events: &[(Event<'_>, (usize, usize))],
) -> Result<ReadEvents<'static>, AllocError>
    ensures { IfOk result (λ copies. map ranged_view copies.items ≡ map ranged_view events.now) }
{
    let mut copies = Vec::new(alloc);
    for (event, range) in events {
        copies.push((event.to_static(alloc)?, *range))?;
    }
    Ok(copies)
}

impl<'a> Table<'a> {
    ghost use Rattle.test_script.specs.Readers.{table_events, table_reading};

    /// A table without readings.
    pub fn new(alloc: Global) -> Table<'a> {
        Table {
            readings: HashMap::new(alloc),
            otherwise: Vec::new(alloc),
        }
    }

    fn events_for(&self, text: &str) -> &ReadEvents<'a>
        ensures { result.now.items ≡ table_events self.now text.now }
    {
        self.readings.get(text).unwrap_or(&self.otherwise)
    }

    fn read(&self, alloc: Global, text: &str) -> Result<Reading, AllocError>
        ensures { IfOk result (λ found. reading_view found ≡ table_reading self.now text.now) }
    {
        Ok(Reading {
            events: copied_events(alloc, self.events_for(text))?,
            defined: Vec::new(alloc),
            unresolved: Vec::new(alloc),
        })
    }
}

/// The core reader's reading of a text, with one label more that was looked up in vain.
fn read_with_label(
    alloc: Global,
    text: &str,
    flags: ParserOptions,
    label: &str,
) -> Result<Reading, AllocError>
    ensures { IfOk result (λ found. reading_view found ≡ labelled_reading label.now text.now) }
{
    let mut reading = CoreReader.read(alloc, text, flags)?;
    let label = String::from_str(alloc, label)?;
    reading.unresolved.push(label)?;
    Ok(reading)
}

/// The core reader and the extended one have their reading of a text, and a table the events that it has for it.
impl Reader for ScriptReader<'_> {
    ghost use Rattle.test_script.specs.Readers.{script_reading};

    ghost reading = { λ r text flags. script_reading r text flags };

    fn read(&self, alloc: Global, text: &str, flags: ParserOptions) -> Result<Reading, AllocError> {
        match self {
            ScriptReader::Core => CoreReader.read(alloc, text, flags),
            ScriptReader::Labelled(label) => read_with_label(alloc, text, flags, label.as_str()),
            ScriptReader::Table(table) => table.read(alloc, text),
            ScriptReader::Extended => ExtendedReader::new().read(alloc, text, flags),
        }
    }
}

/// Reads as another reader, counts its readings, and finds no memory for one of them.
#[derive(Drop)]
pub struct CountedReader<'a, R> {
    reader: &'a R,
    /// How many readings were asked for.
    asked: Cell<usize>,
    /// The number of the reading for which there is no memory, counted from 1.
    refused_reading: Option<usize>,
}

impl<'a, R> CountedReader<'a, R> {
    /// No reading was asked for yet.
    pub fn new(reader: &'a R, refused_reading: Option<usize>) -> CountedReader<'a, R> {
        CountedReader {
            reader,
            asked: Cell::new(0),
            refused_reading,
        }
    }

    /// How many readings there were, without the one that was refused.
    pub fn readings(&self) -> usize {
        let asked = self.asked.get();
        match self.refused_reading {
            Some(refused) if refused <= asked => asked.saturating_sub(1),
            _ => asked,
        }
    }
}

/// A counted reader has the readings of its reader.
impl<R: Reader> Reader for CountedReader<'_, R> {
    ghost reading = { λ r. R.reading r.reader.now };

    fn read(&self, alloc: Global, text: &str, flags: ParserOptions) -> Result<Reading, AllocError> {
        let number = self.asked.get().saturating_add(1);
        self.asked.set(number);
        if self.refused_reading == Some(number) {
            return Err(AllocError);
        }
        self.reader.read(alloc, text, flags)
    }
}
