//! Laws of the definitions: functions that do nothing, whose contracts say what holds.

ghost use Rattle.std.specs.Prelude.{◌≡◌, List};
ghost use Rattle.tocmark_event.specs.View.{EventView, LeafView, SourcedLeaf};
ghost use Rattle.tocmark_event.specs.Merged.{merged};
ghost use Rattle.tocmark_event.specs.Forest.{Forest, flat};

/// Merging what is merged changes nothing.
pub fn merging_is_idempotent()
    ensures { (es : List EventView) → merged (merged es) ≡ merged es }
{}

/// Two forests with the same events are the same.
pub fn forests_are_unique()
    ensures plain { (f g : Forest LeafView) → flat f ≡ flat g → f ≡ g }
    ensures sourced { (f g : Forest SourcedLeaf) → flat f ≡ flat g → f ≡ g }
{}
