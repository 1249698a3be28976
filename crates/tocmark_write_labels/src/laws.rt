//! Laws of the definitions: calls that do nothing, whose contracts are the laws.

ghost use Rattle.std.specs.Prelude.{◌≡◌, ◌∷◌, ◌++◌, [], ℕ, false, List, Option, None};
ghost use Rattle.tocmark_event.specs.Forest.{flat};
ghost use Rattle.tocmark_event.specs.Reading.{ReadingView};
ghost use Rattle.tocmark_event.specs.View.{EventView};
ghost use Rattle.tocmark_event.specs.declared.event.flags.ParserOptions.{ParserOptions};
ghost use Rattle.tocmark_spelling.specs.Body.{Trees};
ghost use Rattle.tocmark_spelling.specs.Plan.{Setting};
ghost use Rattle.tocmark_write_labels.specs.Document.{DocumentView, literal_in, with_labels};
ghost use Rattle.tocmark_write_labels.specs.Units.{label_for};
ghost use Rattle.tocmark_write_pending.specs.Placeholder.{needs_placeholder};

/// Only a unit with a list that needs a placeholder has a label.
pub fn labels_are_for_placeholders()
    ensures { (s : Setting) (d : DocumentView) (f : Trees) (next : Option EventView) →
        needs_placeholder f ≡ false → label_for s d (flat f) next ≡ None }
{}

/// The labels that a reader looks up in vain in a unit's text are literal from then on, beside those of
/// earlier texts.
pub fn labels_of_each_text_are_literal()
    ensures { (reading : List ℕ → ParserOptions → ReadingView) (flags : ParserOptions)
        (texts : List (List ℕ)) (text : List ℕ) →
        literal_in reading flags (texts ++ text ∷ [])
        ≡ with_labels (literal_in reading flags texts) (reading text flags).unresolved }
{}
