//! Laws of the definitions: calls that do nothing, whose contracts are the laws.

ghost use Rattle.std.specs.Prelude.{◌≡◌, ◌≤◌, ◌<◌, ◌^◌, ℕ, true, false, List, length};
ghost use Rattle.tocmark_event.specs.View.{SourcedEvent};
ghost use Rattle.tocmark_spelling.specs.Plan.{Setting};
ghost use Rattle.tocmark_write_labels.specs.Document.{DocumentView, is_among};
ghost use Rattle.tocmark_write_labels.specs.Reserved.{numbered_label, reserved_label, used_labels};

/// The label that is reserved for lists is a numbered one, and each smaller number's label from 1 on is
/// used. It isn't used itself, where fewer than 2^64 labels are.
pub fn the_reserved_label_is_free_and_least()
    ensures least { (s : Setting) (d : DocumentView) (pending : List SourcedEvent) → (n : ℕ)
        × (1 ≤ n) × (reserved_label s d pending ≡ numbered_label n) × ((m : ℕ) → 1 ≤ m → m < n →
        is_among (used_labels s d pending) (numbered_label m) ≡ true) }
    ensures free { (s : Setting) (d : DocumentView) (pending : List SourcedEvent) →
        length (used_labels s d pending) < 2 ^ 64 →
        is_among (used_labels s d pending) (reserved_label s d pending) ≡ false }
{}
