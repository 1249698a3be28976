//! Laws of the definitions: calls that do nothing, whose contracts are the laws.

ghost use Rattle.std.specs.Prelude.{◌≡◌, [], Option};
ghost use Rattle.tocmark_event.specs.View.{EventView};
ghost use Rattle.tocmark_event.specs.Forest.{flat};
ghost use Rattle.tocmark_spelling.specs.Body.{Trees};
ghost use Rattle.tocmark_spelling.specs.Plan.{Setting, Manner};
ghost use Rattle.tocmark_spelling.specs.Page.{Site};
ghost use Rattle.tocmark_spelling.specs.Machine.{run, going, around, answer_of};
ghost use Rattle.tocmark_spelling.specs.Spelling.{spelling};

/// A run over the flat events of a forest, event by event with a stack of open containers, comes to
/// where the recursion over its trees does, and refuses what it refuses. So two forests with the same
/// events have one spelling.
pub fn machine_follows_trees()
    ensures follows { (s : Setting) (m : Manner) (next : Option EventView) (f : Trees)
        (here : Site) → answer_of (run s m next (flat f) (going here []))
        ≡ spelling s m f (around [] [] next) here.path here.page }
    ensures agree { (s : Setting) (m : Manner) (next : Option EventView) (f g : Trees)
        (here : Site) → flat f ≡ flat g → spelling s m f (around [] [] next) here.path here.page
        ≡ spelling s m g (around [] [] next) here.path here.page }
{}
