//! Why a unit has no spelling, as an event of it and the containers that are open there.

ghost use Rattle.std.specs.Prelude.{◌≡◌, [], None};
ghost use Rattle.tocmark_spelling.specs.Body.{Trees};
ghost use Rattle.tocmark_spelling.specs.Page.{Around, Page};
ghost use Rattle.tocmark_spelling.specs.Plan.{Manner, Setting};
ghost use Rattle.tocmark_spelling.specs.Spelling.{spelling};
ghost use Rattle.tocmark_laws.specs.Misplaced.{HasMisplacedStart};

/// A unit without a spelling has an event that isn't allowed where it is (`refused`): an Item that isn't
/// directly in a List, a Heading in a Heading, a TableHead that isn't directly in a Table, or a TableCell in
/// no Table. It is in no body in whose place an id is written, since such a body isn't looked at. A unit
/// with such an event has no spelling, whatever is asked for (`misplaced`).
pub fn misplaced_nodes_are_starts()
    ensures refused { (s : Setting) (m : Manner) (f : Trees) (a : Around) (p : Page)
        → spelling s m f a [] p ≡ None → HasMisplacedStart s f }
    ensures misplaced { (s : Setting) (m : Manner) (f : Trees) (a : Around) (p : Page)
        → HasMisplacedStart s f → spelling s m f a [] p ≡ None }
{}
