//! The steps of a replacement, for clauses alone.

ghost use Rattle.std.specs.Prelude.{◌≡◌, List, [], ◌∷◌};
ghost use Rattle.std.specs.Borrow.{ftrue};
ghost use Rattle.tocmark_replace.specs.Steps.{Step, step_of};

use std::marker::{Model, PhantomData};

/// The numbers of steps, as `step_of` reads them.
pub const MADE: u64 = 0;

pub const WROTE: u64 = 1;

pub const TORE: u64 = 2;

pub const SYNCED: u64 = 3;

pub const FOUND: u64 = 4;

pub const FOUND_OTHER: u64 = 5;

pub const RENAMED: u64 = 6;

pub const REMOVED: u64 = 7;

pub const LEFT: u64 = 8;

pub const FAILED: u64 = 9;

/// The steps so far, the newest first. No memory holds them.
#[derive(Drop)]
pub struct Record {
    marker: PhantomData<u8>,
    pub ghost steps: { List Step },
}

impl Model for Record {
    ghost also_owns = { λ _. ftrue };
}

impl Record {
    /// No steps.
    pub fn new() -> Record
        ensures { result.steps ≡ [] }
    {
        Record {
            marker: PhantomData,
        }
    }

    /// Notes a step by its number, and the text that it is about.
    pub fn note(&mut self, _numbers: &[u64], _text: &[u8])
        ensures { self.new.steps ≡ step_of _numbers.now _text.now ∷ self.old.steps }
    {}
}
