//! Laws of the definitions: calls that do nothing, whose contracts are the laws.

ghost use Rattle.std.specs.Prelude.{◌≡◌, true, List};
ghost use Rattle.tocmark_event.specs.View.{EventView};
ghost use Rattle.tocmark_spelling.specs.SameEvents.{same_events};

/// Two lists of events are the same, as `same_events` compares them, exactly where they are equal.
pub fn same_events_are_equal()
    ensures equal { (a b : List EventView) → same_events a b ≡ true → a ≡ b }
    ensures same { (a b : List EventView) → a ≡ b → same_events a b ≡ true }
{}
