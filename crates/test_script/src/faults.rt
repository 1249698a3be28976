//! What can't be read in a script.

use crate::errors::ended;
use crate::line_fault::{LineFault, NumberedFault};
use crate::lines::ScriptLines;
use std::alloc::{AllocError, Global};

/// Takes all lines of a script and its end.
fn take_all<'l>(lines: &mut ScriptLines, script: &'l str) -> Result<(), NumberedFault<'l>> {
    for line in script.split('\n') {
        lines.take(line)?;
    }
    ended(lines.end())
}

/// Reads a script through. An `Err` is its first fault.
fn read_through(alloc: Global, script: &str) -> Result<(), NumberedFault<'_>> {
    let mut lines = ScriptLines::new(alloc);
    take_all(&mut lines, script)
}

/// Writes `Ok` where a script can be read, or else its first fault.
pub fn write_fault(alloc: Global, answer: &mut String, script: &str) -> Result<(), AllocError> {
    match read_through(alloc, script) {
        Ok(()) => writeln!(answer, "Ok"),
        Err(
            NumberedFault {
                fault: LineFault::OutOfMemory,
                ..
            },
        ) => Err(AllocError),
        Err(fault) => writeln!(answer, "{fault}"),
    }
}
