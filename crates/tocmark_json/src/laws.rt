//! Laws of the JSON form. Each is the contract of a function that does nothing.

ghost use Rattle.std.specs.Prelude.{◌≡◌, ℕ, List, Option};
ghost use Rattle.tocmark_event.specs.View.{EventView};
ghost use Rattle.serde_json.specs.Data.{Data};
ghost use Rattle.tocmark_json.specs.Json.{events_json, pairs_json, IsPairsJson};

/// Different lists of events have different JSON values. So if `events_from_json` succeeds on the value of a text from
/// `events_to_text`, it returns the events that the text was made of.
pub fn events_are_told_apart()
    ensures { (es fs : List EventView) → events_json es ≡ events_json fs → es ≡ fs }
{}

/// Different lists of events with their ranges have different JSON values. So if `pairs_from_json` succeeds on the
/// value of a text from `pairs_to_text`, it returns the events and ranges that the text was made of.
pub fn pairs_are_told_apart()
    ensures { (ps qs : List (EventView × Option (ℕ × ℕ)))
        → pairs_json ps ≡ pairs_json qs → ps ≡ qs }
{}

/// A JSON value, with lines and columns or without, is that of at most one list of events with their ranges. So
/// `pairs_from_json` returns the same list with them and without.
pub fn located_pairs_are_told_apart()
    ensures { (value : Data) (ps qs : List (EventView × Option (ℕ × ℕ)))
        → IsPairsJson value ps → IsPairsJson value qs → ps ≡ qs }
{}
