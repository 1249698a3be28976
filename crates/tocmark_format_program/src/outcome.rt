//! What became of texts, and the status of a call.

ghost use Rattle.std.specs.Prelude.{◌≡◌, ◌↔◌, IsSome, IsTrue, false, vec_len};
ghost use Rattle.std.specs.List.{list_any};
ghost use Rattle.tocmark_format_program.specs.Outcomes.{is_reason, status};

use crate::decide::Decision;

/// What became of a text.
#[derive(Clone, Copy, Drop)]
pub struct Outcome {
    /// It was changed, or would be.
    pub is_changed: bool,
    pub has_failed: bool,
    /// How many blocks keep their lines.
    pub warnings: usize,
}

/// Why a call ends with status 1, beside a failure.
#[derive(Clone, Copy)]
pub struct Terms {
    /// A text that would change.
    pub checks: bool,
    /// A warning.
    pub is_strict: bool,
}

impl Outcome {
    /// A text that failed.
    pub const FAILED: Outcome = Outcome {
        is_changed: false,
        has_failed: true,
        warnings: 0,
    };

    /// A text that stays as it is.
    pub const UNCHANGED: Outcome = Outcome {
        is_changed: false,
        has_failed: false,
        warnings: 0,
    };

    /// Whether something in it is a reason for status 1.
    fn is_reason(&self, terms: Terms) -> bool
        ensures { result ≡ is_reason terms self.now }
    {
        self.has_failed
            || (terms.checks && self.is_changed)
            || (terms.is_strict && self.warnings != 0)
    }
}

/// The outcome of a decision, once it is carried out.
pub fn outcome_of(decision: &Decision) -> Outcome
    ensures changed { IsTrue result.is_changed ↔ IsSome decision.now.new }
    ensures done { result.has_failed ≡ false }
    ensures warned { result.warnings ≡ vec_len decision.now.left }
{
    Outcome {
        is_changed: decision.new.is_some(),
        has_failed: false,
        warnings: decision.left.len(),
    }
}

/// The first line that a decision changes, counted from 1.
pub fn first_change(decision: &Decision) -> usize {
    let Some(new) = &decision.new else {
        return 1;
    };
    let old = decision.old.as_str().split_inclusive('\n');
    let mut line = 1usize;
    for (was, is) in old.zip(new.as_str().split_inclusive('\n')) {
        if was != is {
            break;
        }
        line = line.saturating_add(1);
    }
    line
}

/// The status of a call: 0 if nothing failed, nothing that is checked would change, and no strict call has a warning, else 1.
pub fn status_of(outcomes: &[Outcome], terms: Terms) -> u8
    ensures { result ≡ status (list_any (is_reason terms) outcomes.now) }
{
    if has_reason(outcomes, terms) { 1 } else { 0 }
}

/// Whether an outcome is a reason for status 1.
fn has_reason(outcomes: &[Outcome], terms: Terms) -> bool
    ensures { result ≡ list_any (is_reason terms) outcomes.now }
{
    for outcome in outcomes {
        if outcome.is_reason(terms) {
            return true;
        }
    }
    false
}
