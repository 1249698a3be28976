//! Scripts.

use crate::event_line::RangedEvent;
use crate::readers::ScriptReader;
use std::alloc::Global;
use tocmark_event::event::{LinkType, ParserOptions};
use tocmark_event::options::Options;

/// A call on the state of a script.
#[derive(Clone, Copy)]
pub enum Call {
    /// Takes the script's events from one place up to another.
    Process { start: usize, end: usize },
    Finish,
    /// Goes on with a clone of the state.
    Clone,
}

/// What is asked of the events of a script.
#[derive(Clone, Copy)]
pub enum EventsQuestion {
    /// How many tokens a fence needs for them.
    CountTokens,
    /// Their lines.
    Show,
    /// The lines of the merged events.
    ShowMerged,
    /// How many of them are equal to each of their copies.
    CountCopies,
    /// How many pairs of them are the same, each paired with all.
    CountSame,
}

/// What is asked of the settings of a script, or of nothing.
#[derive(Clone, Copy)]
pub enum ScriptQuestion {
    /// Whether the options are valid under the flags.
    Validate,
    /// How often options of standard tokens are valid, over all flags.
    CountValid,
    SpecialCharacters,
    ErrorTexts,
}

/// What is asked of a text.
#[derive(Clone, Copy)]
pub enum TextQuestion {
    /// What can't be read in it, as a script.
    Fault,
    EscapeDestination,
    EscapeTitle,
    /// Whether the core reader reads it as it is.
    Plain,
    Read,
    ReadMerged,
    CountRead,
    Roundtrip,
    RoundtripSource,
}

/// What a script asks in place of a run.
#[derive(Drop)]
pub enum Question {
    /// Asks of so many first events of the script.
    OfEvents {
        question: EventsQuestion,
        events: usize,
    },
    OfScript(ScriptQuestion),
    OfText {
        question: TextQuestion,
        text: String,
    },
    CloseLink {
        link_type: LinkType,
        dest_url: String,
        title: String,
    },
    LongestRun {
        search: char,
        text: String,
    },
}

/// What a script says.
#[derive(Drop)]
pub struct Script<'a> {
    pub flags: ParserOptions,
    /// The options but for the strong token, if the script gives one.
    pub options: Options<'a>,
    pub strong_token: Option<String>,
    /// Whether the script gives an option.
    pub has_options: bool,
    /// The source of all ranges.
    pub source: Option<String>,
    pub reader: ScriptReader<'a>,
    /// Whether each call is answered by a line of its own.
    pub shows_calls: bool,
    /// Whether the run is compared with runs of other cuts.
    pub compares_cuts: bool,
    /// The number of the text that the writer refuses, counted from 1.
    pub refused_text: Option<usize>,
    /// The number of the reading for which the reader finds no memory, counted from 1 in each run.
    pub refused_reading: Option<usize>,
    pub events: Vec<RangedEvent<'a>>,
    pub calls: Vec<Call>,
    pub questions: Vec<Question>,
}

/// Puts a value in another one's place.
pub(crate) fn put<T: Drop>(place: &mut T, value: T) {
    *place = value;
}

impl<'a> Script<'a> {
    /// No event, and nothing set.
    pub fn new(alloc: Global) -> Script<'a> {
        Script {
            flags: ParserOptions(0),
            options: Options::default(),
            strong_token: None,
            has_options: false,
            source: None,
            reader: ScriptReader::Core,
            shows_calls: false,
            compares_cuts: false,
            refused_text: None,
            refused_reading: None,
            events: Vec::new(alloc),
            calls: Vec::new(alloc),
            questions: Vec::new(alloc),
        }
    }

    /// The options.
    pub fn options(&self) -> Options<'_> {
        match &self.strong_token {
            Some(token) => Options {
                strong_token: token.as_str(),
                ..self.options
            },
            None => self.options,
        }
    }
}
