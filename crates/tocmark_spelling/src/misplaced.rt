//! Which units have no spelling.

ghost use Rattle.std.specs.Prelude.{◌≡◌, ◌↔◌, [], true, None};
ghost use Rattle.tocmark_spelling.specs.Body.{Trees};
ghost use Rattle.tocmark_spelling.specs.Page.{Around, Page};
ghost use Rattle.tocmark_spelling.specs.Plan.{Manner, Setting};
ghost use Rattle.tocmark_spelling.specs.Spelling.{is_misplaced, spelling};

/// A unit has no spelling just where one of its nodes is misplaced, whatever is asked for.
pub fn refusals_are_misplaced_nodes()
    ensures { (s : Setting) (m : Manner) (f : Trees) (a : Around) (p : Page)
        → (spelling s m f a [] p ≡ None) ↔ (is_misplaced s [] f ≡ true) }
{}
