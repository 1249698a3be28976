//! Scripts whose lines are being read.

use crate::event_line::{RangedEvent, begins_event, event_in_json};
use crate::line_fault::LineFault;
use crate::option::set_option;
use crate::readers::{ReadEvents, ScriptReader, Table};
use crate::script::{Call, Question, Script, put};
use crate::statement::{
    STATEMENTS, SettingName, StatementName, close_question, escape_question, flags,
    longest_question, place, text_question,
};
use crate::strings::written_out;
use crate::words::WordsLeft;
use std::alloc::{AllocError, Global};
use std::mem;

const A_CARRIAGE_RETURN: &str = "it ends with a carriage return, and a line feed alone ends a line";

const A_TEXT: &str = "the number of a text, from 1";

const A_READING: &str = "the number of a reading, from 1";

const A_STATEMENT: &str =
    "an event in JSON, or the name of a statement or a question (case matters)";

/// The reading of a table whose events are being read.
#[derive(Drop)]
struct OpenReading<'a> {
    /// The number of the line that it begins with.
    line: usize,
    /// The text, or nothing for any other text.
    text: Option<String>,
    events: ReadEvents<'a>,
}

/// A script whose lines are being read.
#[derive(Drop)]
pub struct Gathering<'a> {
    alloc: Global,
    /// What the lines say, but for the table.
    script: Script<'a>,
    /// How many events the calls take.
    called: usize,
    has_finish: bool,
    /// The readings so far.
    table: Table<'a>,
    /// Whether the script gives a table of readings.
    has_table: bool,
    reading: Option<OpenReading<'a>>,
    /// Whether some line said something.
    has_statement: bool,
}

/// The readers that a script can name.
#[derive(Clone, Copy)]
enum ReaderName {
    Nothing,
    Unresolved,
    Extended,
}

const READERS: [(&str, ReaderName); 3] = [
    ("nothing", ReaderName::Nothing),
    ("unresolved", ReaderName::Unresolved),
    ("extended", ReaderName::Extended),
];

/// Adds an item to a list.
fn add<T: Drop>(list: &mut Vec<T>, item: T) -> Result<(), AllocError> {
    Ok(list.push(item)?)
}

/// Puts a value that was read in another one's place.
fn put_read<T: Drop>(place: &mut T, read: Result<T, LineFault>) -> Result<(), LineFault> {
    match read {
        Ok(value) => {
            put(place, value);
            Ok(())
        }
        Err(fault) => Err(fault),
    }
}

/// Has a value that was read in this place.
fn put_some<T: Drop>(place: &mut Option<T>, read: Result<T, LineFault>) -> Result<(), LineFault> {
    match read {
        Ok(value) => {
            put(place, Some(value));
            Ok(())
        }
        Err(fault) => Err(fault),
    }
}

/// Adds what was made to a list.
fn add_made<T: Drop>(list: &mut Vec<T>, made: Result<T, LineFault>) -> Result<(), LineFault> {
    match made {
        Ok(item) => Ok(add(list, item)?),
        Err(fault) => Err(fault),
    }
}

/// Adds an event that was made to a reading, where one without a range gets an empty one.
fn add_read<E: Drop>(
    events: &mut Vec<(E, (usize, usize))>,
    made: Result<(E, Option<(usize, usize)>), LineFault>,
) -> Result<(), LineFault> {
    match made {
        Ok((event, range)) => Ok(add(events, (event, range.unwrap_or((0, 0))))?),
        Err(fault) => Err(fault),
    }
}

/// A copy that was made of an event, with its range.
fn with_range<E>(
    copy: Result<E, AllocError>,
    range: Option<(usize, usize)>,
) -> Result<(E, Option<(usize, usize)>), LineFault> {
    match copy {
        Ok(event) => Ok((event, range)),
        Err(error) => Err(LineFault::from(error)),
    }
}

/// Has a text be read as these events, or any other text if none is given.
fn add_reading(
    table: &mut Table<'static>,
    text: Option<String>,
    events: ReadEvents<'static>,
) -> Result<(), LineFault> {
    match text {
        Some(text) => {
            table.readings.insert(text, events)?;
        }
        None => put(&mut table.otherwise, events),
    }
    Ok(())
}

/// The text of a reading, or nothing for any other text.
fn read_text(alloc: Global, words: &mut WordsLeft<'_>) -> Result<Option<String>, LineFault> {
    if words.is_at_string() {
        return words.string(alloc).map(Some);
    }
    words.expect_known(&[("else", ())], "a string in double quotes, or else")?;
    Ok(None)
}

impl Gathering<'static> {
    /// No line yet.
    pub fn new(alloc: Global) -> Gathering<'static> {
        Gathering {
            alloc,
            script: Script::new(alloc),
            called: 0,
            has_finish: false,
            table: Table::new(alloc),
            has_table: false,
            reading: None,
            has_statement: false,
        }
    }

    /// Whether no line said anything.
    pub fn is_empty(&self) -> bool {
        !self.has_statement
    }

    /// Adds a call that takes the events since the last one.
    fn process(&mut self) -> Result<(), AllocError> {
        let (start, end) = (self.called, self.script.events.len());
        self.called = end;
        add(&mut self.script.calls, Call::Process { start, end })
    }

    /// Adds a call after one that takes the events since the last one, if there are any.
    fn call(&mut self, call: Call) -> Result<(), AllocError> {
        if self.called < self.script.events.len() {
            self.process()?;
        }
        add(&mut self.script.calls, call)
    }

    fn finish(&mut self) -> Result<(), AllocError> {
        self.has_finish = true;
        self.call(Call::Finish)
    }

    fn open_reading(&mut self, line: usize, words: &mut WordsLeft<'_>) -> Result<(), LineFault> {
        let text = read_text(self.alloc, words)?;
        let events = Vec::new(self.alloc);
        put(&mut self.reading, Some(OpenReading { line, text, events }));
        Ok(())
    }

    fn end_reading(&mut self) -> Result<(), LineFault> {
        match self.reading.take() {
            Some(OpenReading { text, events, .. }) => {
                self.has_table = true;
                add_reading(&mut self.table, text, events)
            }
            None => Err(LineFault::Wrong("no line Reads stands before this End of reading")),
        }
    }

    /// Adds an event that was made, to the open reading if there is one.
    fn add_event(
        &mut self,
        made: Result<RangedEvent<'static>, LineFault>,
    ) -> Result<(), LineFault> {
        match &mut self.reading {
            Some(reading) => add_read(&mut reading.events, made),
            None => add_made(&mut self.script.events, made),
        }
    }

    fn add_copy(&mut self, event: &RangedEvent<'static>) -> Result<(), LineFault> {
        let (event, range) = event;
        self.add_event(with_range(event.to_static(self.alloc), *range))
    }

    /// Makes room for so many events where the next one goes.
    fn reserve(&mut self, events: usize) -> Result<(), AllocError> {
        match &mut self.reading {
            Some(reading) => reading.events.reserve(events),
            None => self.script.events.reserve(events),
        }
    }

    /// Adds so many copies of an event.
    fn add_copies(&mut self, event: &RangedEvent<'static>, times: usize) -> Result<(), LineFault> {
        self.reserve(times)?;
        for _ in 0..times {
            self.add_copy(event)?;
        }
        Ok(())
    }

    /// Adds an event that was made so many times.
    fn add_times(
        &mut self,
        made: Result<RangedEvent<'static>, LineFault>,
        times: usize,
    ) -> Result<(), LineFault> {
        let added = match &made {
            Ok(event) => self.add_copies(event, times),
            Err(fault) => Err(*fault),
        };
        drop(made);
        added
    }

    /// Adds an event, which is all that is left of a line, so many times.
    fn repeat(&mut self, words: &mut WordsLeft<'_>) -> Result<(), LineFault> {
        let times = words.number("how often the event comes")?;
        let json = words.rest();
        if !begins_event(json) {
            return Err(words.expected("an event"));
        }
        words.pass_all();
        self.add_times(event_in_json(self.alloc, json), times)
    }

    fn set_reader(&mut self, words: &mut WordsLeft<'_>) -> Result<(), LineFault> {
        match words.expect_known(&READERS, "nothing, extended, or unresolved and a string")? {
            ReaderName::Nothing => self.has_table = true,
            ReaderName::Extended => put(&mut self.script.reader, ScriptReader::Extended),
            ReaderName::Unresolved => {
                let label = words.string(self.alloc)?;
                put(&mut self.script.reader, ScriptReader::Labelled(label));
            }
        }
        Ok(())
    }

    /// Has a setting of this name hold, with the value after the name.
    fn set(&mut self, name: SettingName, words: &mut WordsLeft<'_>) -> Result<(), LineFault> {
        match name {
            SettingName::Flags => put_read(&mut self.script.flags, flags(words)),
            SettingName::Option => set_option(self.alloc, &mut self.script, words),
            SettingName::Source => put_some(&mut self.script.source, words.string(self.alloc)),
            SettingName::Calls => {
                self.script.shows_calls = true;
                Ok(())
            }
            SettingName::Cuts => {
                self.script.compares_cuts = true;
                Ok(())
            }
            SettingName::Reader => self.set_reader(words),
            SettingName::FailAt => put_some(&mut self.script.refused_text, place(words, A_TEXT)),
            SettingName::ReadFailAt => {
                put_some(&mut self.script.refused_reading, place(words, A_READING))
            }
        }
    }

    /// Adds a question that was made.
    fn ask(&mut self, question: Result<Question, LineFault>) -> Result<(), LineFault> {
        add_made(&mut self.script.questions, question)
    }

    /// Takes a statement of this name in the line with this number, whose parts come next.
    fn take_parts(
        &mut self,
        number: usize,
        name: StatementName,
        words: &mut WordsLeft<'_>,
    ) -> Result<(), LineFault> {
        match name {
            StatementName::Repeat => self.repeat(words),
            StatementName::Cut => Ok(self.process()?),
            StatementName::Finish => Ok(self.finish()?),
            StatementName::Clone => Ok(self.call(Call::Clone)?),
            StatementName::Reads => self.open_reading(number, words),
            StatementName::Set(name) => self.set(name, words),
            StatementName::AskOfEvents(question) => {
                let events = self.script.events.len();
                self.ask(Ok(Question::OfEvents { question, events }))
            }
            StatementName::AskOfScript(question) => self.ask(Ok(Question::OfScript(question))),
            StatementName::AskOfText(question) => {
                self.ask(text_question(self.alloc, question, words))
            }
            StatementName::Escape => self.ask(escape_question(self.alloc, words)),
            StatementName::CloseLink => self.ask(close_question(self.alloc, words)),
            StatementName::LongestRun => self.ask(longest_question(self.alloc, words)),
        }
    }

    /// Takes the statement of a line with this number. In a reading it has to be a repeated event.
    fn take_statement(&mut self, number: usize, line: &str) -> Result<(), LineFault> {
        let mut words = WordsLeft::new(line);
        let outside = words.expected("an event, or End of reading");
        let name = words.expect_known(&STATEMENTS, A_STATEMENT)?;
        if self.reading.is_some() && !matches!(name, StatementName::Repeat) {
            return Err(outside);
        }
        self.take_parts(number, name, &mut words)?;
        words.end()
    }

    /// Takes a line with this number that says something.
    fn take_said(&mut self, number: usize, line: &str) -> Result<(), LineFault> {
        if line.ends_with('\r') {
            Err(LineFault::Wrong(A_CARRIAGE_RETURN))
        } else if begins_event(line) {
            self.add_event(event_in_json(self.alloc, line))
        } else if line == "End of reading" {
            self.end_reading()
        } else {
            self.take_statement(number, line)
        }
    }

    /// Takes the line with this number. One that is empty or a comment says nothing.
    ///
    /// # Errors
    ///
    /// What is wrong with the line, or that memory ran out.
    pub fn take(&mut self, number: usize, line: &str) -> Result<(), LineFault> {
        if line.is_empty() || line.starts_with('#') || line.starts_with('>') {
            return Ok(());
        }
        self.has_statement = true;
        if line.contains("\"*") {
            return self.take_said(number, written_out(self.alloc, line)?.as_str());
        }
        self.take_said(number, line)
    }

    /// The number of the line that begins a reading without an end, or nothing where each has its end.
    pub fn unclosed(&self) -> Option<usize> {
        match &self.reading {
            Some(reading) => Some(reading.line),
            None => None,
        }
    }

    /// Adds the calls after the last line, and the table as the reader if the script gives one.
    fn complete(&mut self) -> Result<(), LineFault> {
        if self.reading.is_some() {
            return Err(LineFault::Wrong("no line End of reading stands behind this reading"));
        }
        if !self.has_finish {
            self.finish()?;
        } else if self.called < self.script.events.len() {
            self.process()?;
        }
        if self.has_table {
            let table = mem::replace(&mut self.table, Table::new(self.alloc));
            put(&mut self.script.reader, ScriptReader::Table(table));
        }
        Ok(())
    }

    /// Takes the whole script out, after its last line.
    ///
    /// # Errors
    ///
    /// The fault that a reading has no end, or that memory ran out.
    pub fn end(&mut self) -> Result<Script<'static>, LineFault> {
        match self.complete() {
            Ok(()) => Ok(mem::replace(&mut self.script, Script::new(self.alloc))),
            Err(fault) => Err(fault),
        }
    }
}
