//! Laws of the definitions: calls that do nothing, whose contracts are the laws.

ghost use Rattle.std.specs.Prelude.{◌≡◌, ◌++◌, is_some, true, List, Some};
ghost use Rattle.tocmark_event.specs.Forest.{flat};
ghost use Rattle.tocmark_event.specs.View.{SourcedEvent};
ghost use Rattle.tocmark_spelling.specs.Body.{Trees};
ghost use Rattle.tocmark_write_pending.specs.Units.{trees_of, waits};

/// A unit that waits goes on waiting, whatever joins it, if the events are balanced then: so it has
/// its label at the end.
pub fn what_waits_goes_on_waiting()
    ensures { (unit more : List SourcedEvent) → waits unit ≡ true →
        is_some (trees_of (unit ++ more)) ≡ true → waits (unit ++ more) ≡ true }
{}

/// A list of which there is a forest is the events of that forest: reading it loses nothing.
pub fn events_are_those_of_their_trees()
    ensures { (es : List SourcedEvent) (f : Trees) → trees_of es ≡ Some f → flat f ≡ es }
{}
