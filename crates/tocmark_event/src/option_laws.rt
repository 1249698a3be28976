//! Laws of options and their errors: functions that do nothing, whose contracts say what holds. A derived trait
//! has ghost members, which say what its methods answer: `eq` and `cmp` for those of these names, and
//! `hash_input` for what `hash` writes.

ghost use Rattle.std.specs.Prelude.{◌≡◌, ◌↔◌, IsTrue, Some};
ghost use Rattle.tocmark_event.specs.Options.{options_view};
ghost use Rattle.tocmark_event.specs.Order.{options_order};
ghost use Rattle.tocmark_event.specs.Validation.{fault_of};

use crate::options::{Options, OptionsError};
use std::hash::Hash;

/// Two options are equal exactly where all their fields are, the strong tokens by their bytes.
pub fn equal_options_have_equal_fields(a: &Options<'_>, b: &Options<'_>)
    ensures { IsTrue (⟦<Options<'static> as PartialEq>⟧.eq a.now b.now)
        ↔ (options_view a.now ≡ options_view b.now) }
{}

/// Of two options that one is the smaller which has the smaller field, at the first field in which they
/// differ, in the order in which the fields are. The answer of `partial_cmp`, and so `<`, is the same.
pub fn options_are_ordered_by_their_fields(a: &Options<'_>, b: &Options<'_>)
    ensures total { ⟦<Options<'static> as Ord>⟧.cmp a.now b.now
        ≡ options_order (options_view a.now) (options_view b.now) }
    ensures partial { ⟦<Options<'static> as PartialOrd>⟧.partial_cmp a.now b.now
        ≡ Some (options_order (options_view a.now) (options_view b.now)) }
{}

/// Options with equal fields write the same to a hasher.
pub fn equal_options_hash_alike(a: &Options<'_>, b: &Options<'_>)
    ensures { options_view a.now ≡ options_view b.now
        → ⟦<Options<'static> as Hash>⟧.hash_input a.now
        ≡ ⟦<Options<'static> as Hash>⟧.hash_input b.now }
{}

/// Two faults of options are equal exactly where they are of one kind and name the same flags or field.
pub fn equal_faults_say_the_same(a: OptionsError, b: OptionsError)
    ensures { IsTrue (⟦<OptionsError as PartialEq>⟧.eq a b) ↔ (fault_of a ≡ fault_of b) }
{}
