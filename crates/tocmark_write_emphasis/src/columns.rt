//! What emphasis and strong emphasis ask the reader of a unit's events, found once for all of them.

ghost use Rattle.std.specs.Prelude.{IfOk};
ghost use Rattle.tocmark_write_emphasis.specs.ColumnsOf.{AreColumns};

use crate::preferences::preferences;
use std::alloc::{AllocError, Global};
use tocmark_event::reader::Reader;
use tocmark_write_pending::pending::Pending;

/// For each event of a unit whether a container that starts there prefers the underscore.
#[derive(Drop)]
pub struct Columns {
    /// By runs.
    pub by_runs: Vec<bool>,
    /// By its neighbours alone.
    pub by_neighbours: Vec<bool>,
}

impl Columns {
    /// The columns over no events.
    pub fn none(alloc: Global) -> Self {
        Columns {
            by_runs: Vec::new(alloc),
            by_neighbours: Vec::new(alloc),
        }
    }
}

/// The columns over a unit's events.
pub fn columns_of<R: Reader>(
    alloc: Global,
    reader: &R,
    unit: &Pending,
) -> Result<Columns, AllocError>
    ensures { IfOk result (λ columns.
        AreColumns (R.reading reader.now) unit.now.events columns) }
{
    let events = unit.events();
    let ends = unit.ends();
    let by_neighbours = preferences(alloc, reader, None, events, ends)?;
    let by_runs = preferences(alloc, reader, Some(unit), events, ends)?;
    Ok(Columns {
        by_runs,
        by_neighbours,
    })
}
