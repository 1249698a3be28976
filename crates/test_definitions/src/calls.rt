//! Examples of what calls with events and ranges hand to the writer: the walk over events is computed on each.

ghost use Rattle.test_definitions.specs.Answers.{AreAnswered, AreAnsweredBehind};
ghost use Rattle.test_definitions.specs.Behind.{calls_behind};
ghost use Rattle.test_definitions.specs.Events.{calls};

/// Ranges, units, refused events, lists that wait, and flags.
pub fn calls_are_answered()
    ensures { AreAnswered calls }
{}

/// Labels that are defined already, and one that is defined otherwise or twice.
pub fn calls_behind_definitions_are_answered()
    ensures { AreAnsweredBehind calls_behind }
{}
