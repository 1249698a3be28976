//! Laws of reading back: calls that do nothing, whose contracts are the laws.

ghost use Rattle.std.specs.Prelude.{◌≡◌, ℕ, true, List};
ghost use Rattle.tocmark_event.specs.View.{TagView};
ghost use Rattle.tocmark_write_labels.specs.Document.{DocumentView};
ghost use Rattle.tocmark_choose.specs.EqualEvents.{HasUnit, IsSpelledById};
ghost use Rattle.tocmark_choose.specs.ReadsBack.{flags_at, whole_text, ReadsBack};
ghost use Rattle.tocmark_spelling.specs.Body.{Trees};
ghost use Rattle.tocmark_spelling.specs.ById.{by_id};
ghost use Rattle.tocmark_spelling.specs.Plan.{Setting};

/// A text with these definitions reads back as a unit exactly where the reader's reading of the
/// definitions, a blank line and the text, under the flags at this place, has events that, once merged,
/// are equal to the unit's, merged and inline ones in a Paragraph, and leaves no label open that is
/// taken: none that an earlier unit defines, and not the reserved one.
pub fn what_reads_back_is_equal()
    ensures equal { (s : Setting) (d : DocumentView) (f : Trees) (defs text : List ℕ) →
        ReadsBack s d f defs text →
        HasUnit s d f (s.reading (whole_text defs text) (flags_at s d)) }
    ensures exact { (s : Setting) (d : DocumentView) (f : Trees) (defs text : List ℕ) →
        HasUnit s d f (s.reading (whole_text defs text) (flags_at s d)) →
        ReadsBack s d f defs text }
{}

/// A link or image is written by its id exactly where it is a Collapsed or Shortcut one and the reader's
/// reading of `[id](cmark-label)`, with `!` in front for an image, has events that, once merged, are one
/// Paragraph with one link (image) in it, whose body is equal to its own, merged.
pub fn what_is_spelled_by_its_id_is_equal()
    ensures equal { (s : Setting) (t : TagView) (body : Trees) →
        by_id s t body ≡ true → IsSpelledById s t body }
    ensures exact { (s : Setting) (t : TagView) (body : Trees) →
        IsSpelledById s t body → by_id s t body ≡ true }
{}
