//! The labels that a unit may not leave open.

ghost use Rattle.std.specs.Prelude.{◌≡◌, bytes_eq, map, string_bytes, IfOk};
ghost use Rattle.std.specs.List.{list_any};
ghost use Rattle.tocmark_write_labels.specs.Document.{folded, is_label};
ghost use Rattle.tocmark_write_labels.specs.LabelsOf.{is_taken_in, label_now};

use crate::labels::Labels;
use caseless::default_case_fold_str;
use std::alloc::{AllocError, Global};

/// Labels that mean something else than a unit that leaves them open.
#[derive(Clone, Copy)]
pub struct Taken<'k, 'r> {
    /// Those that earlier units define.
    pub known: &'k Labels,
    /// The one that is reserved for lists, if there is one.
    pub reserved: Option<&'r str>,
}

/// Whether two labels are the same, as Markdown compares them.
fn is_same(alloc: Global, first: &str, second: &str) -> Result<bool, AllocError>
    ensures { IfOk result (λ b. b ≡ bytes_eq (folded first.now) (folded second.now)) }
{
    let first = default_case_fold_str(alloc, first)?;
    let second = default_case_fold_str(alloc, second)?;
    Ok(first == second)
}

/// Whether a label is the reserved one, if there is one.
fn is_reserved(alloc: Global, reserved: Option<&str>, label: &str) -> Result<bool, AllocError>
    ensures { IfOk result (λ b. b ≡ is_label (label_now reserved.entry) label.now) }
{
    match reserved {
        None => Ok(false),
        Some(reserved) => is_same(alloc, reserved, label),
    }
}

impl Taken<'_, '_> {
    /// Whether a label, as Markdown compares them, is among these.
    pub fn contains(&self, alloc: Global, label: &str) -> Result<bool, AllocError>
        ensures { IfOk result (λ b. b ≡ is_taken_in self.now label.now) }
    {
        if self.known.contains(alloc, label)? {
            return Ok(true);
        }
        is_reserved(alloc, self.reserved, label)
    }

    /// Whether one of these labels is among them.
    pub fn contains_any(&self, alloc: Global, labels: &[String]) -> Result<bool, AllocError>
        ensures { IfOk result (λ b. b ≡
            list_any (is_taken_in self.now) (map string_bytes labels.now)) }
    {
        for label in labels {
            if self.contains(alloc, label.as_str())? {
                return Ok(true);
            }
        }
        Ok(false)
    }
}
