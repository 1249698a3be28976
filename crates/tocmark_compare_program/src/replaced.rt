//! The text of a file that another text takes the place of, because both are the same under the terms of a call.

ghost use Rattle.std.specs.Prelude.{OnErr, OnOk, true};
ghost use Rattle.tocmark_files.specs.Replaced.{IsGiven, IsGivenNothing};
ghost use Rattle.tocmark_compare_program.specs.Measures.{AreTheSame};

use crate::arguments::Terms;
use crate::fault::Fault;
use tocmark_files::place::OpenFile;
use tocmark_files::replace::{ReplaceError, Replacement, open_to_replace};
use tocmark_judge::PartReader;

/// A file's text, and the one that takes its place.
#[derive(Drop)]
pub struct Replaced<'r, R> {
    /// What both texts were compared by.
    pub reader: &'r R,
    /// How they were compared.
    pub terms: Terms,
    /// The text of the file.
    pub old: &'r str,
    /// What the file gets.
    pub new: &'r str,
}

impl<'r, R: PartReader> Replaced<'r, R> {
    /// Gives an open file the new text, if it still has the old one and its name. Both are the same under the terms of a call.
    ///
    /// After an error the file stays as it was.
    fn put_in(&self, rt: &HostRuntime, file: &mut OpenFile) -> Result<(), ReplaceError>
        requires { AreTheSame self.now.terms (R.reading self.now.reader.now)
            (R.definitions self.now.reader.now) self.now.old.now self.now.new.now }

        // The file is given the new text and nothing else, if it was found to have the old one.
        ensures given { OnOk result
            (IsGiven self.now.old.now self.now.new.now true file.old file.new) }
        ensures stays { OnErr result (IsGivenNothing file.old file.new) }
    {
        let replacement = Replacement {
            old: self.old,
            new: self.new,
            syncs: true,
        };
        replacement.put_in(rt, file)
    }

    /// Gives the file at this path the new text, if it still has the old one. It isn't touched if both are equal.
    ///
    /// After an error the file stays as it was, and the error has its name.
    pub fn put(&self, rt: &HostRuntime, path: &str) -> Result<(), Fault>
        requires { AreTheSame self.now.terms (R.reading self.now.reader.now)
            (R.definitions self.now.reader.now) self.now.old.now self.now.new.now }
    {
        if self.new == self.old {
            return Ok(());
        }
        let mut file = match open_to_replace(rt, path) {
            Ok(file) => file,
            Err(error) => return Err(Fault::not_replaced(rt.alloc(), path, error)),
        };
        match self.put_in(rt, &mut file) {
            Ok(()) => Ok(()),
            Err(error) => Err(Fault::not_replaced(rt.alloc(), path, error)),
        }
    }
}
