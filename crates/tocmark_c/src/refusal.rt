//! Errors with their place.

ghost use Rattle.std.specs.Prelude.{◌≡◌};
ghost use Rattle.tocmark_c.specs.Codes.{code_of, document_cause, options_cause, packed_cause, redefining_cause, rewriting_cause, write_cause};
ghost use Rattle.tocmark_c.specs.Place.{IsFilled};

use crate::cause::Cause;
use crate::place::TocmarkPlace;
use tocmark_definitions::Fault;
use tocmark_documents::{
    DocumentError, OptionsTextError, PackedWriteError, RewriteError, WriteError,
};
use tocmark_json::fault::JsonError;
use tocmark_rewrite::Place;

/// Why a call is refused, and where, if that is known.
#[derive(Clone, Copy)]
pub struct Refusal {
    pub cause: Cause,
    pub place: Option<Place>,
}

impl Refusal {
    /// A refusal without a place.
    pub fn of(cause: Cause) -> Refusal
        ensures { result.cause ≡ cause }
    {
        Refusal { cause, place: None }
    }

    /// The refusal of options. It has no place.
    pub fn of_options(error: &OptionsTextError) -> Refusal
        ensures { result.cause ≡ options_cause error.now }
    {
        Refusal::of(Cause::of_options(error))
    }

    /// The refusal of an error of writing, with its place if it has one.
    pub fn of_write(error: &WriteError) -> Refusal
        ensures { result.cause ≡ write_cause error.now }
    {
        Refusal {
            cause: Cause::of_write(error),
            place: place_of_write(error),
        }
    }

    /// The refusal of an error of writing packed events, with its place if it has one.
    pub fn of_packed(error: &PackedWriteError) -> Refusal
        ensures { result.cause ≡ packed_cause error.now }
    {
        Refusal {
            cause: Cause::of_packed(error),
            place: place_of_packed(error),
        }
    }

    /// The refusal of an error of writing a document that is parsed again, with its place if it has one.
    pub fn of_document(error: &DocumentError) -> Refusal
        ensures { result.cause ≡ document_cause error.now }
    {
        Refusal {
            cause: Cause::of_document(error),
            place: place_of_document(error),
        }
    }

    /// The refusal of an error of rewriting, with its place if it has one.
    pub fn of_rewriting(error: &RewriteError) -> Refusal
        ensures { result.cause ≡ rewriting_cause error.now }
    {
        Refusal {
            cause: Cause::of_rewriting(error),
            place: place_of_rewriting(error),
        }
    }

    /// The refusal of an error of redefining, with its place if it has one.
    pub fn of_redefining(error: &Fault) -> Refusal
        ensures { result.cause ≡ redefining_cause error.now }
    {
        Refusal {
            cause: Cause::of_redefining(error),
            place: place_of_redefining(error),
        }
    }

    /// Fills the place, and returns the code of the cause.
    pub fn told(self, place: &mut TocmarkPlace) -> isize
        ensures code { result ≡ code_of self.cause }
        ensures filled { IsFilled place.old place.new }
    {
        place.fill(self.place);
        self.cause.code()
    }
}

/// The place of an event whose lines aren't known.
fn event_alone(event: usize) -> Place {
    Place { event, lines: None }
}

fn place_of_json(error: &JsonError) -> Option<Place> {
    match error {
        JsonError::Event { index, .. } => Some(event_alone(*index)),
        _ => None,
    }
}

fn place_of_write(error: &WriteError) -> Option<Place> {
    match error {
        WriteError::Refused(place, _) => Some(*place),
        WriteError::NotEvents(error) => place_of_json(error),
        _ => None,
    }
}

fn place_of_packed(error: &PackedWriteError) -> Option<Place> {
    match error {
        PackedWriteError::NotPacked(event) => Some(event_alone(*event)),
        PackedWriteError::Refused(place, _) => Some(*place),
        PackedWriteError::OutOfMemory => None,
    }
}

fn place_of_document(error: &DocumentError) -> Option<Place> {
    match error {
        DocumentError::Write(error) => place_of_write(error),
        DocumentError::Changed(event) => Some(event_alone(*event)),
    }
}

fn place_of_rewriting(error: &RewriteError) -> Option<Place> {
    match error {
        RewriteError::Refused(place, _) => Some(*place),
        RewriteError::ReadOtherwise(place) => Some(*place),
        RewriteError::NotEvents(error) => place_of_json(error),
        _ => None,
    }
}

/// The number of a definition, as that of an event, or else a line of the source.
fn place_of_redefining(error: &Fault) -> Option<Place> {
    match error {
        Fault::Wanted { index, .. } => Some(event_alone(*index)),
        Fault::NoDefinition(index) => Some(event_alone(*index)),
        Fault::Misread(line) => Some(Place {
            event: usize::MAX,
            lines: Some((*line, *line)),
        }),
        _ => None,
    }
}
