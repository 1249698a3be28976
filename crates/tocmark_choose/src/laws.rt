//! Laws of the definitions: calls that do nothing, whose contracts are the laws.

ghost use Rattle.std.specs.Prelude.{◌≡◌, ◌≤◌, ◌&&◌, [], false, true, Err, Option, length};
ghost use Rattle.tocmark_event.specs.Forest.{flat};
ghost use Rattle.tocmark_event.specs.View.{EventView};
ghost use Rattle.tocmark_spelling.specs.Body.{Trees};
ghost use Rattle.tocmark_spelling.specs.Plan.{Setting};
ghost use Rattle.tocmark_spelling.specs.Spelling.{is_misplaced};
ghost use Rattle.tocmark_choose.specs.Candidates.{candidates, has_source, is_checked, is_delimiter_block};
ghost use Rattle.tocmark_choose.specs.Choice.{choice, has_standard_markers, preferred};
ghost use Rattle.tocmark_write_labels.specs.Document.{DocumentView};
ghost use Rattle.tocmark_choose.specs.Chosen.{chosen};
ghost use Rattle.tocmark_choose.specs.FirstReadBack.{IsChosenAmong};
ghost use Rattle.tocmark_choose.specs.Unrepresentable.{IsUnrepresentable};
ghost use Rattle.tocmark_choose.specs.Validates.{validates};
ghost use Rattle.tocmark_event.specs.Options.{OptionsView};
ghost use Rattle.tocmark_event.specs.declared.options.Error.TheVariants.{Unrepresentable};
ghost use Rattle.tocmark_write_labels.specs.Units.{labelled};

/// A unit without delimiters takes its preferred spelling, if `check_plain_blocks` is off, and if none of its texts
/// has a spelling in the source or the options have markers that Markdown doesn't read.
pub fn units_without_delimiters_are_preferred()
    ensures { (s : Setting) (d : DocumentView) (f : Trees) (next : Option EventView) →
        is_delimiter_block f ≡ false → s.options.check_plain_blocks ≡ false →
        (has_source f && has_standard_markers s.options) ≡ false →
        choice s d f next ≡ preferred s d f next }
{}

/// What is chosen for a unit that is given as its events is what is chosen for their forest, with the
/// label that these events have.
pub fn events_are_chosen_as_forests()
    ensures { (s : Setting) (d : DocumentView) (f : Trees) (next : Option EventView) →
        chosen s d (flat f) next ≡ choice (labelled s d (flat f) next) d f next }
{}

/// A unit can't be represented just where it is checked, under options that are accepted with the flags
/// and with markers that Markdown reads, and in none of its candidates its spelling reads back. A unit
/// with delimiters is checked, and where the options ask for it each that has an event.
pub fn units_that_cannot_be_represented()
    ensures causes { (s : Setting) (d : DocumentView) (f : Trees) (next : Option EventView) →
        choice s d f next ≡ Err Unrepresentable → IsUnrepresentable s d f next }
    ensures exact { (s : Setting) (d : DocumentView) (f : Trees) (next : Option EventView) →
        IsUnrepresentable s d f next → choice s d f next ≡ Err Unrepresentable }
{}

/// Suppose that the options are accepted with the flags and have markers that Markdown reads. Then a unit with
/// delimiters and without a misplaced node is chosen among its candidates (`chosen`). Its text is that of the
/// first candidate whose spelling reads back, with the document that this leaves, or the unit is
/// `Unrepresentable` if no spelling does. No unit has more than 63 candidates (`few`).
pub fn delimiter_blocks_are_the_first_read_back()
    ensures chosen { (s : Setting) (d : DocumentView) (f : Trees) (next : Option EventView)
        → has_standard_markers s.options ≡ true → validates s.options s.flags ≡ true
        → is_delimiter_block f ≡ true → is_misplaced s [] f ≡ false
        → IsChosenAmong s d f next (candidates s.options f) (choice s d f next) }
    ensures few { (o : OptionsView) (f : Trees) → length (candidates o f) ≤ 63 }
{}

/// Each unit that is checked is chosen among its candidates likewise: one with delimiters, and any other with an
/// event if the options ask for that.
pub fn checked_units_are_the_first_read_back()
    ensures { (s : Setting) (d : DocumentView) (f : Trees) (next : Option EventView)
        → has_standard_markers s.options ≡ true → validates s.options s.flags ≡ true
        → is_checked s.options f ≡ true → is_misplaced s [] f ≡ false
        → IsChosenAmong s d f next (candidates s.options f) (choice s d f next) }
{}

/// A unit without delimiters has at most two candidates.
pub fn plain_units_have_two_candidates()
    ensures { (o : OptionsView) (f : Trees) → is_delimiter_block f ≡ false →
        length (candidates o f) ≤ 2 }
{}
