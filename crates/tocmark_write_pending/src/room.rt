//! Room for what comes. It is asked for only where there is none: that is quicker, and each event asks.

ghost use Rattle.std.specs.Prelude.{◌≡◌, ◌<◌, ◌≤◌, length, vec_capacity, OnOk};

use std::alloc::AllocError;

/// Makes room for one more.
pub(crate) fn make_room<T>(items: &mut Vec<T>) -> Result<(), AllocError>
    ensures items { items.new.items ≡ items.old.items }
    ensures room { OnOk result (length items.new.items < vec_capacity items.new) }
{
    if items.len() < items.capacity() {
        return Ok(());
    }
    items.reserve(1)
}

/// Makes room up to the place of an item after these.
pub(crate) fn make_room_up_to<T>(items: &mut Vec<T>, place: usize) -> Result<(), AllocError>
    requires { length items.old.items ≤ place }
    ensures items { items.new.items ≡ items.old.items }
    ensures room { OnOk result (place < vec_capacity items.new) }
{
    if place < items.capacity() {
        return Ok(());
    }
    let more = (place - items.len()).checked_add(1).ok_or(AllocError)?;
    items.reserve(more)
}
