//! What became of files, and the status of a call.

ghost use Rattle.std.specs.Prelude.{◌≡◌};
ghost use Rattle.std.specs.List.{list_any};
ghost use Rattle.tocmark_links_program.specs.Outcomes.{is_reason, status};

/// What became of a file.
#[derive(Clone, Copy, Drop)]
pub enum Outcome {
    /// Each of its links leads somewhere, or it is changed as it should be.
    Right,
    /// One of its links leads nowhere.
    Broken,
    /// It could not be read, or can't be changed.
    Failed,
    /// Its table of contents isn't as it should be, and nothing is to be changed.
    Stale,
}

impl Outcome {
    /// Whether it is a reason for status 1.
    fn is_reason(self) -> bool
        ensures { result ≡ is_reason self }
    {
        match self {
            Outcome::Right => false,
            _ => true,
        }
    }
}

/// Whether a file is a reason for status 1.
fn has_reason(outcomes: &[Outcome]) -> bool
    ensures { result ≡ list_any is_reason outcomes.now }
{
    for outcome in outcomes {
        if outcome.is_reason() {
            return true;
        }
    }
    false
}

/// The status of a call: 1 if a link leads nowhere, a file could not be read, or a table of contents would change; else 0.
pub fn status_of(outcomes: &[Outcome]) -> u8
    ensures { result ≡ status (list_any is_reason outcomes.now) }
{
    if has_reason(outcomes) { 1 } else { 0 }
}
