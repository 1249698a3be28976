//! What became of pairs of files, and the status of a call.

ghost use Rattle.std.specs.Prelude.{◌≡◌, ◌↔◌, IfOk, IsTrue, []};
ghost use Rattle.std.specs.List.{list_any};
ghost use Rattle.tocmark_differences.specs.Said.{HaveSameLetters, SayTheSame};
ghost use Rattle.tocmark_compare_program.specs.Measures.{AreTheSame};
ghost use Rattle.tocmark_compare_program.specs.Outcomes.{differs, has_failed, status};
ghost use Rattle.tocmark_compare_program.specs.declared.outcome.Outcome.TheVariants.{Same};

use crate::arguments::{Measure, Terms};
use std::alloc::{AllocError, Global};
use tocmark_differences::{Difference, compared, compared_letters};
use tocmark_judge::PartReader;

/// What became of a pair of files.
#[derive(Clone, Copy, Drop)]
pub enum Outcome {
    /// Both say the same.
    Same,
    Differs,
    /// One of them could not be read.
    Failed,
}

impl Outcome {
    /// Whether both say the same.
    pub fn is_same(self) -> bool
        ensures { IsTrue result ↔ (self ≡ Same) }
    {
        match self {
            Outcome::Same => true,
            _ => false,
        }
    }

    fn has_failed(self) -> bool
        ensures { result ≡ has_failed self }
    {
        match self {
            Outcome::Failed => true,
            _ => false,
        }
    }

    fn differs(self) -> bool
        ensures { result ≡ differs self }
    {
        match self {
            Outcome::Differs => true,
            _ => false,
        }
    }
}

/// What became of two texts if these differences were found.
fn outcome_of(found: &[Difference]) -> Outcome
    ensures { (result ≡ Same) ↔ (found.now ≡ []) }
{
    if found.is_empty() {
        Outcome::Same
    } else {
        Outcome::Differs
    }
}

/// What two texts say differently; if that is nothing, how their letters differ. It fails if memory runs out.
fn differences_and_letters<R: PartReader>(
    alloc: Global,
    reader: &R,
    terms: Terms,
    old: &str,
    new: &str,
) -> Result<Vec<Difference>, AllocError>
    ensures { IfOk result (λ all. (all.items ≡ [])
        ↔ (SayTheSame terms.allowed terms.flags (R.reading reader.now) (R.definitions reader.now)
        old.now new.now × HaveSameLetters old.now new.now)) }
{
    let found = compared(alloc, reader, terms.flags, terms.allowed, old, new)?;
    if found.is_empty() {
        compared_letters(alloc, old, new)
    } else {
        Ok(found)
    }
}

/// What differs between two texts. It fails if memory runs out.
fn differences<R: PartReader>(
    alloc: Global,
    reader: &R,
    terms: Terms,
    old: &str,
    new: &str,
) -> Result<Vec<Difference>, AllocError>
    ensures { IfOk result (λ all. (all.items ≡ []) ↔ AreTheSame terms
        (R.reading reader.now) (R.definitions reader.now) old.now new.now) }
{
    match terms.measure {
        Measure::Events => compared(alloc, reader, terms.flags, terms.allowed, old, new),
        Measure::EventsAndLetters => differences_and_letters(alloc, reader, terms, old, new),
        Measure::Letters => compared_letters(alloc, old, new),
    }
}

/// What differs between two texts, and what became of them. It fails if memory runs out.
pub fn judged<R: PartReader>(
    alloc: Global,
    reader: &R,
    terms: Terms,
    old: &str,
    new: &str,
) -> Result<(Vec<Difference>, Outcome), AllocError>
    ensures same { IfOk result (λ it. (it.1 ≡ Same) ↔ AreTheSame terms
        (R.reading reader.now) (R.definitions reader.now) old.now new.now) }
{
    let found = differences(alloc, reader, terms, old, new)?;
    let outcome = outcome_of(&found);
    Ok((found, outcome))
}

/// Whether a file could not be read.
fn any_failed(outcomes: &[Outcome]) -> bool
    ensures { result ≡ list_any has_failed outcomes.now }
{
    for outcome in outcomes {
        if outcome.has_failed() {
            return true;
        }
    }
    false
}

/// Whether two texts differ.
fn any_differs(outcomes: &[Outcome]) -> bool
    ensures { result ≡ list_any differs outcomes.now }
{
    for outcome in outcomes {
        if outcome.differs() {
            return true;
        }
    }
    false
}

/// The status of a call: 2 if a file could not be read, else 1 if two texts differ and Git doesn't call, else 0.
pub fn status_of(outcomes: &[Outcome], is_for_git: bool) -> u8
    ensures { result ≡ status is_for_git
        (list_any has_failed outcomes.now) (list_any differs outcomes.now) }
{
    if any_failed(outcomes) {
        2
    } else if any_differs(outcomes) && !is_for_git {
        1
    } else {
        0
    }
}
