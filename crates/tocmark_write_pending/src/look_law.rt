//! Laws of what is asked ahead: calls that do nothing, whose contracts are the laws.

ghost use Rattle.std.specs.Prelude.{Option};
ghost use Rattle.tocmark_event.specs.View.{EventView};
ghost use Rattle.tocmark_write_pending.specs.Ahead.{AreSeen};
ghost use Rattle.tocmark_spelling.specs.Body.{Trees};
ghost use Rattle.tocmark_spelling.specs.Plan.{Setting, Manner};

/// What the opening of a container is told of its children and of what is round it is a function of
/// the flat events before its Start and after it.
pub fn looks_are_of_the_list()
    ensures { (s : Setting) (m : Manner) (next : Option EventView) (f : Trees)
        → AreSeen s m next f }
{}
