//! Laws of texts: functions that do nothing, whose contracts say what holds. A trait's ghost members say what
//! its methods answer: `eq` and `cmp` for those of these names, and `hash_input` for what `hash` writes.

ghost use Rattle.std.specs.Prelude.{◌≡◌, ◌↔◌, IsTrue, Some};
ghost use Rattle.std.specs.Ordering.{nat_cmp};
ghost use Rattle.std.specs.Cmp.Lexicographic.{slice_cmp};
ghost use Rattle.tocmark_event.specs.Text.{text_of};

use crate::event::CowStr;
use std::hash::Hash;

/// Two texts are equal exactly where their bytes are, whether they are lent or owned.
pub fn equal_texts_have_equal_bytes(a: &CowStr<'_>, b: &CowStr<'_>)
    ensures { IsTrue (⟦<CowStr<'static> as PartialEq>⟧.eq a.now b.now)
        ↔ (text_of a.now ≡ text_of b.now) }
{}

/// Texts are ordered by their bytes, at the first place where they differ, and a text comes before those
/// that go on after it. The answer of `partial_cmp`, and so `<`, is the same.
pub fn texts_are_ordered_by_their_bytes(a: &CowStr<'_>, b: &CowStr<'_>)
    ensures total { ⟦<CowStr<'static> as Ord>⟧.cmp a.now b.now
        ≡ slice_cmp nat_cmp (text_of a.now) (text_of b.now) }
    ensures partial { ⟦<CowStr<'static> as PartialOrd>⟧.partial_cmp a.now b.now
        ≡ Some (slice_cmp nat_cmp (text_of a.now) (text_of b.now)) }
{}

/// Texts with equal bytes write the same to a hasher.
pub fn equal_texts_hash_alike(a: &CowStr<'_>, b: &CowStr<'_>)
    ensures { text_of a.now ≡ text_of b.now
        → ⟦<CowStr<'static> as Hash>⟧.hash_input a.now
        ≡ ⟦<CowStr<'static> as Hash>⟧.hash_input b.now }
{}
