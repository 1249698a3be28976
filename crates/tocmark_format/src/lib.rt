//! Formats a document: one look for all of it, and the new text says just what the old one says.
//!
//! Enter at `formatted` (`format`). It lets a printer print the document, reads the result back, and lets
//! `tocmark_judge` compare it with the source. What is read otherwise is printed again, nearer to the source (`falling`);
//! `trees` counts which trees of the source and of the result belong to a block. `named` names the blocks that keep their
//! lines. `range` formats some lines of a document, and says how lines end. `answer` says what comes out.
//!
//! Any `Print` of `tocmark_printing` is a printer; `tocmark_print` has one.
#![tactic(auto)]

mod answer;
mod falling;
mod format;
mod named;
mod range;
mod trees;

pub use answer::{Formatted, Left, Reason};
pub use format::{formatted, formatted_lines};
pub use range::{Ending, Ends, Lines, StyledLines};
