//! What lines of a script say that are no events: the names of statements, and what is after them.

use crate::line_fault::LineFault;
use crate::script::{EventsQuestion, Question, ScriptQuestion, TextQuestion};
use crate::words::WordsLeft;
use StatementName::{AskOfEvents, AskOfScript, AskOfText, Set};
use bitflags::Flags;
use std::alloc::Global;
use tocmark_event::event::{LinkType, ParserOptions};
use tocmark_json::names::link_type_named;

const FLAGS: &str = "the name of a flag, or at most eight hexadecimal digits";

/// What the name of a setting says.
#[derive(Clone, Copy)]
pub enum SettingName {
    Flags,
    Option,
    Source,
    Calls,
    Cuts,
    Reader,
    FailAt,
    ReadFailAt,
}

/// What the first word of a statement says.
#[derive(Clone, Copy)]
pub enum StatementName {
    Repeat,
    Cut,
    Finish,
    Clone,
    Reads,
    Set(SettingName),
    /// Asks of the events so far.
    AskOfEvents(EventsQuestion),
    AskOfScript(ScriptQuestion),
    AskOfText(TextQuestion),
    Escape,
    CloseLink,
    LongestRun,
}

/// The names of statements.
pub const STATEMENTS: [(&str, StatementName); 32] = [
    ("Repeat", StatementName::Repeat),
    ("Cut", StatementName::Cut),
    ("Finish", StatementName::Finish),
    ("Clone", StatementName::Clone),
    ("Reads", StatementName::Reads),
    ("Flags", Set(SettingName::Flags)),
    ("Option", Set(SettingName::Option)),
    ("Source", Set(SettingName::Source)),
    ("Calls", Set(SettingName::Calls)),
    ("Cuts", Set(SettingName::Cuts)),
    ("Reader", Set(SettingName::Reader)),
    ("FailAt", Set(SettingName::FailAt)),
    ("ReadFailAt", Set(SettingName::ReadFailAt)),
    ("Count", AskOfEvents(EventsQuestion::CountTokens)),
    ("Events", AskOfEvents(EventsQuestion::Show)),
    ("Merged", AskOfEvents(EventsQuestion::ShowMerged)),
    ("Copies", AskOfEvents(EventsQuestion::CountCopies)),
    ("Same", AskOfEvents(EventsQuestion::CountSame)),
    ("Validate", AskOfScript(ScriptQuestion::Validate)),
    ("CountValid", AskOfScript(ScriptQuestion::CountValid)),
    ("Special", AskOfScript(ScriptQuestion::SpecialCharacters)),
    ("ErrorTexts", AskOfScript(ScriptQuestion::ErrorTexts)),
    ("Fault", AskOfText(TextQuestion::Fault)),
    ("Plain", AskOfText(TextQuestion::Plain)),
    ("Read", AskOfText(TextQuestion::Read)),
    ("ReadMerged", AskOfText(TextQuestion::ReadMerged)),
    ("CountRead", AskOfText(TextQuestion::CountRead)),
    ("Roundtrip", AskOfText(TextQuestion::Roundtrip)),
    ("RoundtripSource", AskOfText(TextQuestion::RoundtripSource)),
    ("Escape", StatementName::Escape),
    ("Close", StatementName::CloseLink),
    ("Longest", StatementName::LongestRun),
];

/// What can be escaped, by its name.
const ESCAPED: [(&str, TextQuestion); 2] = [
    ("dest", TextQuestion::EscapeDestination),
    ("title", TextQuestion::EscapeTitle),
];

fn hexadecimal(word: &str) -> Option<u32> {
    for byte in word.as_bytes() {
        if !byte.is_ascii_hexdigit() {
            return None;
        }
    }
    u32::from_str_radix(word, 16).ok()
}

/// The bits of a flag, by its name or in hexadecimal digits.
fn flag_bits(words: &mut WordsLeft<'_>) -> Result<u32, LineFault> {
    let fault = words.expected(FLAGS);
    let word = words.word();
    let bits = match ParserOptions::from_name(word) {
        Some(flags) => Some(flags.0),
        None => hexadecimal(word),
    };
    bits.ok_or(fault)
}

/// The bits of a flag after `|`.
fn more_bits(words: &mut WordsLeft<'_>) -> Result<u32, LineFault> {
    words.expect_known(&[("|", ())], "| and another flag")?;
    flag_bits(words)
}

/// Flags with `|` between them.
///
/// # Errors
///
/// The fault that a flag or `|` is expected.
pub fn flags(words: &mut WordsLeft<'_>) -> Result<ParserOptions, LineFault> {
    let mut all = flag_bits(words)?;
    for _ in 0..words.rest().len() {
        if words.is_at_end() {
            break;
        }
        all |= more_bits(words)?;
    }
    Ok(ParserOptions(all))
}

/// The number of a text or of a reading, counted from 1.
///
/// # Errors
///
/// The fault that such a number is expected.
pub fn place(words: &mut WordsLeft<'_>, expected: &'static str) -> Result<usize, LineFault> {
    let fault = words.expected(expected);
    match words.number(expected)? {
        0 => Err(fault),
        place => Ok(place),
    }
}

fn link_type(words: &mut WordsLeft<'_>) -> Result<LinkType, LineFault> {
    let fault = words.expected("the type of a link");
    link_type_named(words.word()).ok_or(fault)
}

/// The strings up to the end of the line, joined.
fn joined_strings(alloc: Global, words: &mut WordsLeft<'_>) -> Result<String, LineFault> {
    let mut text = words.string(alloc)?;
    for _ in 0..words.rest().len() {
        if words.is_at_end() {
            break;
        }
        text.push_str(words.string(alloc)?.as_str())?;
    }
    Ok(text)
}

/// The question of the strings that come next, joined.
///
/// # Errors
///
/// The fault that a string is expected, or that memory ran out.
pub fn text_question(
    alloc: Global,
    question: TextQuestion,
    words: &mut WordsLeft<'_>,
) -> Result<Question, LineFault> {
    let text = joined_strings(alloc, words)?;
    Ok(Question::OfText { question, text })
}

/// The question how the string is escaped that comes next, after what it is.
///
/// # Errors
///
/// The fault that `dest`, `title` or a string is expected, or that memory ran out.
pub fn escape_question(alloc: Global, words: &mut WordsLeft<'_>) -> Result<Question, LineFault> {
    let question = words.expect_known(&ESCAPED, "dest or title")?;
    text_question(alloc, question, words)
}

/// The question what closes the link whose type, destination and title come next.
///
/// # Errors
///
/// The fault that one of these is expected, or that memory ran out.
pub fn close_question(alloc: Global, words: &mut WordsLeft<'_>) -> Result<Question, LineFault> {
    let link_type = link_type(words)?;
    let dest_url = words.string(alloc)?;
    let title = words.string(alloc)?;
    Ok(Question::CloseLink {
        link_type,
        dest_url,
        title,
    })
}

/// The question how long the longest run is of the character that comes next, in the string after it.
///
/// # Errors
///
/// The fault that a character or a string is expected, or that memory ran out.
pub fn longest_question(alloc: Global, words: &mut WordsLeft<'_>) -> Result<Question, LineFault> {
    let search = words.character(alloc)?;
    let text = words.string(alloc)?;
    Ok(Question::LongestRun { search, text })
}
