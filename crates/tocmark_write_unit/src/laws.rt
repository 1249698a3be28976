//! Laws of what is written: calls that do nothing, whose contracts are the laws.

ghost use Rattle.std.specs.Prelude.{◌≡◌, ◌<◌, ◌++◌, List, Option, drop, length, reverse, take};
ghost use Rattle.tocmark_event.specs.View.{EventView, SourcedEvent};
ghost use Rattle.tocmark_spelling.specs.Machine.{going, run, skipping};
ghost use Rattle.tocmark_spelling.specs.Page.{Site};
ghost use Rattle.tocmark_spelling.specs.Plan.{Manner, Setting};
ghost use Rattle.tocmark_spelling.specs.Scans.{span};

/// A body in whose place its id is written can be passed at once: at its End the machine goes on as if it
/// had come there.
pub fn skipped_bodies_can_be_passed()
    ensures { (s : Setting) (m : Manner) (next : Option EventView) (es : List SourcedEvent)
        (here : Site) (before : List SourcedEvent) → span 0 es < length es
        → run s m next es (skipping 0 here before)
        ≡ run s m next (drop (span 0 es) es)
        (going here (reverse (take (span 0 es) es) ++ before)) }
{}
