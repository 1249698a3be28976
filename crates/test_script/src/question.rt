//! Questions of a script, and their answers.

use crate::errors::error_name;
use crate::events::write_events_answer;
use crate::faults::write_fault;
use crate::readings::{write_read, write_read_count, write_roundtrip};
use crate::script::{Question, Script, ScriptQuestion, TextQuestion};
use crate::strings::Quoted;
use crate::valid::write_valid_count;
use std::alloc::{AllocError, Global};
use std::fmt;
use tocmark::core_reader::is_plain;
use tocmark::event::LinkType;
use tocmark::{Error, OptionsError};
use tocmark_write_texts::text_modifications::{
    EscapeDestination, EscapeLinkTitle, close_link, max_consecutive_chars,
};

/// The name of what is wrong with options, and what it speaks of.
#[derive(Clone, Copy)]
struct OptionsFault(OptionsError);

impl fmt::Display for OptionsFault {
    fn fmt<W: fmt::Write>(&self, f: &mut fmt::Formatter<W>) -> fmt::Result {
        match self.0 {
            OptionsError::UnsupportedParserOptions(flags) => {
                let bits = flags.0;
                write!(f, "UnsupportedParserOptions(0x{bits:x})")
            }
            OptionsError::InvalidToken(field) => {
                let field = Quoted(field);
                write!(f, "InvalidToken({field})")
            }
            OptionsError::HtmlSuperSubscript => write!(f, "HtmlSuperSubscript"),
            OptionsError::SizeOverflow(field) => {
                let field = Quoted(field);
                write!(f, "SizeOverflow({field})")
            }
        }
    }
}

/// Writes a text as a string, on a line of its own.
fn write_text(answer: &mut String, text: &str) -> Result<(), AllocError> {
    let text = Quoted(text);
    writeln!(answer, "{text}")
}

/// Writes what `{}` shows of a value, as a string.
fn write_shown<T: fmt::Display>(
    alloc: Global,
    answer: &mut String,
    shown: &T,
) -> Result<(), AllocError> {
    let text = shown.to_string(alloc)?;
    write_text(answer, text.as_str())
}

fn write_validation(
    alloc: Global,
    answer: &mut String,
    script: &Script<'static>,
) -> Result<(), AllocError> {
    match script.options().validate(script.flags) {
        Ok(()) => writeln!(answer, "Ok"),
        Err(error) => {
            let fault = OptionsFault(error);
            let whole = error.to_string(alloc)?;
            let text = Quoted(whole.as_str());
            writeln!(answer, "Err {fault}")?;
            writeln!(answer, "Text {text}")
        }
    }
}

fn write_special_characters(
    alloc: Global,
    answer: &mut String,
    script: &Script<'static>,
) -> Result<(), AllocError> {
    let text = script.options().special_characters(alloc)?;
    write_text(answer, text.as_str())
}

fn write_closing(
    alloc: Global,
    answer: &mut String,
    link_type: LinkType,
    dest_url: &str,
    title: &str,
) -> Result<(), AllocError> {
    let mut text = String::new(alloc);
    if close_link(dest_url, title, &mut text, link_type).is_err() {
        return Err(AllocError);
    }
    write_text(answer, text.as_str())
}

fn write_longest_run(answer: &mut String, search: char, text: &str) -> Result<(), AllocError> {
    let longest = max_consecutive_chars(text, search);
    writeln!(answer, "{longest}")
}

fn write_error_texts(alloc: Global, answer: &mut String) -> Result<(), AllocError> {
    let errors = [
        Error::FormatFailed(fmt::Error),
        Error::UnexpectedEvent,
        Error::Unrepresentable,
        Error::InvalidSourceRange,
        Error::Finished,
        Error::Failed,
        Error::OutOfMemory,
    ];
    for error in &errors {
        let name = error_name(error);
        let whole = error.to_string(alloc)?;
        let text = Quoted(whole.as_str());
        writeln!(answer, "{name} {text}")?;
    }
    Ok(())
}

/// Writes whether the core reader reads a text as it is.
fn write_plain(answer: &mut String, text: &str) -> Result<(), AllocError> {
    let plain = is_plain(text);
    writeln!(answer, "{plain}")
}

fn write_script_answer(
    alloc: Global,
    answer: &mut String,
    question: ScriptQuestion,
    script: &Script<'static>,
) -> Result<(), AllocError> {
    match question {
        ScriptQuestion::Validate => write_validation(alloc, answer, script),
        ScriptQuestion::CountValid => write_valid_count(answer),
        ScriptQuestion::SpecialCharacters => write_special_characters(alloc, answer, script),
        ScriptQuestion::ErrorTexts => write_error_texts(alloc, answer),
    }
}

fn write_text_answer(
    alloc: Global,
    answer: &mut String,
    script: &Script<'static>,
    question: TextQuestion,
    text: &str,
) -> Result<(), AllocError> {
    match question {
        TextQuestion::Fault => write_fault(alloc, answer, text),
        TextQuestion::EscapeDestination => write_shown(alloc, answer, &EscapeDestination(text)),
        TextQuestion::EscapeTitle => write_shown(alloc, answer, &EscapeLinkTitle(text)),
        TextQuestion::Plain => write_plain(answer, text),
        TextQuestion::Read => write_read(alloc, answer, script, text, false),
        TextQuestion::ReadMerged => write_read(alloc, answer, script, text, true),
        TextQuestion::CountRead => write_read_count(alloc, answer, script, text),
        TextQuestion::Roundtrip => write_roundtrip(alloc, answer, script, text, false),
        TextQuestion::RoundtripSource => write_roundtrip(alloc, answer, script, text, true),
    }
}

/// Writes the answer to a question.
fn write_answer(
    alloc: Global,
    answer: &mut String,
    script: &Script<'static>,
    question: &Question,
) -> Result<(), AllocError> {
    match question {
        Question::OfEvents { question, events } => {
            let first = script.events.get(..*events).unwrap_or(&[]);
            write_events_answer(alloc, answer, *question, first)
        }
        Question::OfScript(question) => write_script_answer(alloc, answer, *question, script),
        Question::OfText { question, text } => {
            write_text_answer(alloc, answer, script, *question, text.as_str())
        }
        Question::CloseLink {
            link_type,
            dest_url,
            title,
        } => write_closing(alloc, answer, *link_type, dest_url.as_str(), title.as_str()),
        Question::LongestRun { search, text } => write_longest_run(answer, *search, text.as_str()),
    }
}

/// The answers to the questions of a script, in their order.
pub fn answers(alloc: Global, script: &Script<'static>) -> Result<String, AllocError> {
    let mut answer = String::new(alloc);
    for question in &script.questions {
        write_answer(alloc, &mut answer, script, question)?;
    }
    Ok(answer)
}
