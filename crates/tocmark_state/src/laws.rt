//! Laws of what a call reports, and of definitions that a document has already: functions that do nothing, whose
//! contracts say what holds.

ghost use Rattle.std.specs.Prelude.{◌≡◌, ◌↔◌, ◌∷◌, ◌++◌, [], ℕ, List, Option, All, IsTrue, true, false, bytes_eq};
ghost use Rattle.std.specs.List.{list_any};
ghost use Rattle.tocmark_event.specs.Options.{OptionsView};
ghost use Rattle.tocmark_event.specs.Reading.{ReadingView};
ghost use Rattle.tocmark_event.specs.View.{EventView, SourcedEvent};
ghost use Rattle.tocmark_event.specs.declared.event.flags.ParserOptions.{ParserOptions};
ghost use Rattle.tocmark_spelling.specs.Page.{Reference};
ghost use Rattle.tocmark_write_labels.specs.Defined.{is_defined, undefined};
ghost use Rattle.tocmark_write_labels.specs.Definitions.{definitions_text};
ghost use Rattle.tocmark_write_labels.specs.Matched.{label_key};
ghost use Rattle.tocmark_state.specs.Ranges.{Pair};
ghost use Rattle.tocmark_state.specs.Walk.{Kept, Standing, walk};
ghost use Rattle.tocmark_state.specs.WorkView.{rendering, rendering_behind};

use crate::work::Progress;

/// Two reports are equal exactly where both counts are. `eq` is the ghost member of `PartialEq` that says
/// what `==` answers.
pub fn equal_progress_has_equal_counts(a: Progress, b: Progress)
    ensures { IsTrue (⟦<Progress as PartialEq>⟧.eq a b)
        ↔ ((a.events_consumed ≡ b.events_consumed) × (a.bytes_written ≡ b.bytes_written)) }
{}

/// A state that is told of no definitions writes as one that `State::new` makes.
pub fn no_definitions_change_nothing()
    ensures { (options : OptionsView) (reading : List ℕ → ParserOptions → ReadingView) →
        rendering_behind [] options reading ≡ rendering options reading }
{}

/// After the first written unit, a state with given definitions chooses each unit's text as a state without them
/// does in the same document (`choice`), and makes of all further events what that does (`walk`). It differs only in
/// the first unit, which knows the labels, and in the definitions at the end.
pub fn definitions_matter_first_and_last()
    ensures choice { (defined : List Reference) (options : OptionsView)
        (reading : List ℕ → ParserOptions → ReadingView) (kept : Kept) →
        kept.document.flushed ≡ true → (unit : List SourcedEvent) (next : Option EventView) →
        (rendering_behind defined options reading).choice kept unit next
        ≡ (rendering options reading).choice kept unit next }
    ensures walk { (defined : List Reference) (options : OptionsView)
        (reading : List ℕ → ParserOptions → ReadingView) (source : List ℕ) (s : Standing) →
        s.document.document.flushed ≡ true → (p : List Pair) →
        walk (rendering_behind defined options reading) source s p
        ≡ walk (rendering options reading) source s p }
{}

/// What a document has already isn't written again. Of a state that is told of definitions, those left at
/// the end are the ones of the document's references that these don't define (`left`): no reference among
/// them is defined (`none`). A definition defines itself, if no label in front of it in the list matches its
/// own (`own`).
pub fn what_is_defined_is_not_written_again()
    ensures left { (defined : List Reference) (options : OptionsView)
        (reading : List ℕ → ParserOptions → ReadingView) (kept : Kept) →
        (rendering_behind defined options reading).definitions kept
        ≡ definitions_text (undefined defined kept.document.references) kept.document.feeds }
    ensures none { (defined references : List Reference) →
        All (λ r. is_defined defined r ≡ false) (undefined defined references) }
    ensures own { (front rest : List Reference) (d : Reference) →
        list_any (λ e. bytes_eq (label_key e.label) (label_key d.label)) front ≡ false →
        is_defined (front ++ d ∷ rest) d ≡ true }
{}
