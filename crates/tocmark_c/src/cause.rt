//! The causes of errors, and their codes.

ghost use Rattle.std.specs.Prelude.{◌≡◌};
ghost use Rattle.tocmark_c.specs.Codes.{code_of, document_cause, error_text, number_of, options_cause, packed_cause, redefining_cause, refusal_cause, rewriting_cause, write_cause};

use tocmark::Error;
use tocmark_definitions::Fault;
use tocmark_documents::{
    DocumentError, OptionsTextError, PackedWriteError, RewriteError, WriteError,
};

/// Why a call is refused.
#[derive(Clone, Copy, Debug, PartialEq, Eq)]
pub enum Cause {
    /// Memory ran out.
    OutOfMemory,
    /// The text, Markdown or JSON, isn't UTF-8.
    NotUtf8,
    /// The source isn't UTF-8.
    SourceNotUtf8,
    /// The options aren't UTF-8.
    OptionsNotUtf8,
    /// The text isn't JSON.
    NotJson,
    /// The JSON or the bytes aren't those of events.
    NotEvents,
    /// The options aren't JSON.
    OptionsNotJson,
    /// The JSON of the options isn't that of options.
    NotOptions,
    /// Nothing can be written under these options and flags.
    InvalidOptions,
    /// An event can't be at its place.
    UnexpectedEvent,
    /// No spelling of a block parses back to its events.
    Unrepresentable,
    /// A range isn't one of the source.
    InvalidSourceRange,
    /// Events after the end. No function of this library returns it.
    Finished,
    /// A call after one that was refused. No function of this library returns it.
    Failed,
    /// The style is too small, or has a number that means nothing.
    InvalidStyle,
    /// The document would parse to other events.
    Changed,
    /// The bytes for Python would be too many for it.
    TooLong,
    /// The JSON isn't that of definitions of links.
    NotDefinitions,
    /// A definition is none of the source.
    NoDefinition,
}

impl Cause {
    /// The code of the cause, as `tocmark.h` has it.
    pub fn code(self) -> isize
        ensures { result ≡ code_of self }
    {
        match self {
            Cause::OutOfMemory => -1,
            Cause::NotUtf8 => -2,
            Cause::SourceNotUtf8 => -3,
            Cause::OptionsNotUtf8 => -4,
            Cause::NotJson => -5,
            Cause::NotEvents => -6,
            Cause::OptionsNotJson => -7,
            Cause::NotOptions => -8,
            Cause::InvalidOptions => -9,
            Cause::UnexpectedEvent => -10,
            Cause::Unrepresentable => -11,
            Cause::InvalidSourceRange => -12,
            Cause::Finished => -13,
            Cause::Failed => -14,
            Cause::InvalidStyle => -15,
            Cause::Changed => -16,
            Cause::TooLong => -17,
            Cause::NotDefinitions => -18,
            Cause::NoDefinition => -19,
        }
    }

    /// The cause of an error of writing.
    pub fn of_write(error: &WriteError) -> Cause
        ensures { result ≡ write_cause error.now }
    {
        match error {
            WriteError::NotJson(_) => Cause::NotJson,
            WriteError::NotEvents(_) => Cause::NotEvents,
            WriteError::Refused(_, error) => Cause::of_refusal(error),
            WriteError::OutOfMemory => Cause::OutOfMemory,
        }
    }

    /// The cause of an error of writing packed events.
    pub fn of_packed(error: &PackedWriteError) -> Cause
        ensures { result ≡ packed_cause error.now }
    {
        match error {
            PackedWriteError::NotPacked(_) => Cause::NotEvents,
            PackedWriteError::Refused(_, error) => Cause::of_refusal(error),
            PackedWriteError::OutOfMemory => Cause::OutOfMemory,
        }
    }

    /// The cause of an error of writing a document that is parsed again.
    pub fn of_document(error: &DocumentError) -> Cause
        ensures { result ≡ document_cause error.now }
    {
        match error {
            DocumentError::Write(error) => Cause::of_write(error),
            DocumentError::Changed(_) => Cause::Changed,
        }
    }

    /// The cause of an error of rewriting.
    pub fn of_rewriting(error: &RewriteError) -> Cause
        ensures { result ≡ rewriting_cause error.now }
    {
        match error {
            RewriteError::NotJson(_) => Cause::NotJson,
            RewriteError::NotEvents(_) => Cause::NotEvents,
            RewriteError::Refused(_, error) => Cause::of_refusal(error),
            RewriteError::ReadOtherwise(_) => Cause::Changed,
            RewriteError::OutOfMemory => Cause::OutOfMemory,
        }
    }

    /// The cause of an error of redefining.
    pub fn of_redefining(error: &Fault) -> Cause
        ensures { result ≡ redefining_cause error.now }
    {
        match error {
            Fault::NotJson(_) => Cause::NotJson,
            Fault::NotAList => Cause::NotDefinitions,
            Fault::Wanted { .. } => Cause::NotDefinitions,
            Fault::NoDefinition(_) => Cause::NoDefinition,
            Fault::Misread(_) => Cause::Changed,
            Fault::OutOfMemory => Cause::OutOfMemory,
        }
    }

    fn of_refusal(error: &Error) -> Cause
        ensures { result ≡ refusal_cause error.now }
    {
        match error {
            Error::FormatFailed(_) => Cause::OutOfMemory,
            Error::UnexpectedEvent => Cause::UnexpectedEvent,
            Error::Unrepresentable => Cause::Unrepresentable,
            Error::InvalidSourceRange => Cause::InvalidSourceRange,
            Error::Finished => Cause::Finished,
            Error::Failed => Cause::Failed,
            Error::OutOfMemory => Cause::OutOfMemory,
        }
    }

    /// The cause of an error of reading options.
    pub fn of_options(error: &OptionsTextError) -> Cause
        ensures { result ≡ options_cause error.now }
    {
        match error {
            OptionsTextError::NotJson(_) => Cause::OptionsNotJson,
            OptionsTextError::NotOptions(_) => Cause::NotOptions,
            OptionsTextError::Invalid(_) => Cause::InvalidOptions,
            OptionsTextError::OutOfMemory => Cause::OutOfMemory,
        }
    }
}

/// An error's code without its sign; 0 if the number is no code.
fn number_of(code: isize) -> usize
    ensures { result ≡ number_of code }
{
    if code < 0 { code.unsigned_abs() } else { 0 }
}

/// What an error's code means, in English.
pub fn error_text(code: isize) -> &'static str
    ensures { result.now ≡ error_text (number_of code) }
{
    match number_of(code) {
        1 => "out of memory",
        2 => "the text is not UTF-8",
        3 => "the source is not UTF-8",
        4 => "the options are not UTF-8",
        5 => "the text is no JSON",
        6 => "the JSON is not that of events",
        7 => "the options are no JSON",
        8 => "the JSON of the options is not that of options",
        9 => "these options and flags cannot be written under",
        10 => "an event stands where it cannot",
        11 => "no spelling of a block of events reads back",
        12 => "a range is none of the source",
        13 => "events after the end",
        14 => "a call after one that was refused",
        15 => "the style is too small, or has a number that means nothing",
        16 => "the document would say something else than the events",
        17 => "the events are too long for Python",
        18 => "the JSON is not that of definitions of links",
        19 => "a definition is none of the source",
        _ => "no error of tocmark",
    }
}
