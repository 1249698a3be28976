//! The labels that a text defines.

ghost use Rattle.std.specs.Prelude.{◌↔◌, IfOk, IsTrue, map, string_bytes};
ghost use Rattle.tocmark_rewrite.specs.Labels.{AreAmong};

use std::alloc::{AllocError, Global};
use std::collections::HashSet;

/// Whether each label is among others.
pub(crate) fn has_all(
    alloc: Global,
    labels: &[String],
    others: &[String],
) -> Result<bool, AllocError>
    ensures { IfOk result (λ all. IsTrue all
        ↔ AreAmong (map string_bytes labels.now) (map string_bytes others.now)) }
{
    if labels.is_empty() {
        return Ok(true);
    }
    let mut known = HashSet::new(alloc);
    for label in others {
        known.insert(label.clone()?)?;
    }
    for label in labels {
        if !known.contains(label.as_str()) {
            return Ok(false);
        }
    }
    Ok(true)
}
