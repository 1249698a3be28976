//! The answer to a call, put in the place of the file that it was made from.

ghost use Rattle.std.specs.Prelude.{OnErr, OnOk, string_bytes, true};
ghost use Rattle.tocmark_files.specs.Replaced.{IsGiven, IsGivenNothing};
ghost use Rattle.tocmark_events_program.specs.Events.{IsAnswer};

use crate::answer::Answer;
use crate::arguments::Job;
use crate::fault::Fault;
use tocmark_files::place::OpenFile;
use tocmark_files::quoted::in_quotes;
use tocmark_files::replace::{ReplaceError, Replacement, open_to_replace};

/// A file's text, and the answer that takes its place.
#[derive(Drop)]
pub struct Edited<'e> {
    /// What was asked for.
    pub job: Job<'e>,
    /// The text of the file.
    pub source: &'e str,
    /// The events or the definitions, as they came.
    pub input: &'e str,
    /// What the file gets.
    pub answer: &'e Answer,
}

impl<'e> Edited<'e> {
    /// Gives an open file the answer to this input over the text that it has, if it still has that text and its name.
    ///
    /// After an error the file stays as it was.
    fn put_in(&self, rt: &HostRuntime, file: &mut OpenFile) -> Result<(), ReplaceError>
        requires { IsAnswer self.now.job self.now.source.now self.now.input.now
            (string_bytes self.now.answer.now.text) }

        // The file is given the whole answer and nothing else, if it was found to have the source.
        ensures given { OnOk result (IsGiven self.now.source.now
            (string_bytes self.now.answer.now.text) true file.old file.new) }
        ensures stays { OnErr result (IsGivenNothing file.old file.new) }
    {
        let replacement = Replacement {
            old: self.source,
            new: self.answer.text.as_str(),
            syncs: true,
        };
        replacement.put_in(rt, file)
    }

    /// Gives the file at this path the answer. It isn't touched if that is its text.
    ///
    /// After an error the file stays as it was.
    fn put_at(&self, rt: &HostRuntime, path: &str) -> Result<(), ReplaceError>
        requires { IsAnswer self.now.job self.now.source.now self.now.input.now
            (string_bytes self.now.answer.now.text) }
    {
        if self.answer.text.as_str() == self.source {
            return Ok(());
        }
        let mut file = open_to_replace(rt, path)?;
        self.put_in(rt, &mut file)
    }

    /// Gives the file at this path the answer to this input over the text that it has. It isn't touched if that is its text.
    ///
    /// After an error the file stays as it was, and the error has its name.
    pub fn put(&self, rt: &HostRuntime, path: &str) -> Result<(), Fault>
        requires { IsAnswer self.now.job self.now.source.now self.now.input.now
            (string_bytes self.now.answer.now.text) }
    {
        match self.put_at(rt, path) {
            Ok(()) => Ok(()),
            Err(error) => {
                let name = in_quotes(rt.alloc(), path)?;
                Err(Fault::NotReplaced(name, error))
            }
        }
    }
}
