//! Where two lists of events part.

ghost use Rattle.tocmark_compare.specs.Given.{given_events};
ghost use Rattle.tocmark_differences.specs.First.{PartAt};

use crate::compare::Placed;
use tocmark_compare::event::same_event;

/// After how many events two lists part. `None`: they have the same events. It takes no memory.
pub fn parting(old: &[Placed], new: &[Placed]) -> Option<usize>
    ensures { PartAt result (given_events old.now) (given_events new.now) }
{
    let count = old.len().min(new.len());
    for i in 0..count {
        if !same_event(&old[i].0, &new[i].0) {
            return Some(i);
        }
    }
    if old.len() == new.len() {
        None
    } else {
        Some(count)
    }
}
