//! Writes an edited document: what you didn't change stays byte for byte, and the new text parses to the edited events.
//!
//! The writer (`tocmark_state`) writes the blocks that can't be patched, and `tocmark_compare` compares events. Programs that
//! change documents are above this crate. Start at `edits`, which has common changes of events, and at `rewritten`
//! (`rewrite`).
//!
//! `trees` cuts events into their trees, and finds the lines of these; `line_end` says what ends them. `plan` finds which
//! trees are in the source as they are. `patch` replaces the bytes of single events (`event`), of `inlines` (`wording`,
//! where `hunks` differ; a `marker` spells new ones) and of links (`link`), with their `destination` and `title`, or those
//! of the `label`'s definition, which `definition_reader` finds. `inner` writes the changed blocks in a tree, and `changes`
//! finds the smallest patches of each tree. `pieces` writes changed trees, which `given` lends to a state, whose reader is
//! that of `unit_reader`. `near` spells them as the source does, and `look` finds the marks of the document. `joint` decides how trees are after one another, and `join` puts them side by side. All leave a
//! list of parts (`output`), whose text is parsed; `labels` compares the labels that it defines. `answer` says what became
//! of each tree, and `fault` why there is no text.
//!
//! ```
//! let mut reading = CoreReader.read(alloc, source, flags)?;
//! shift_headings(&mut reading.events, Shift::Down(1));
//! let answer = rewritten(alloc, source, reading.pairs(), &CoreReader, flags, Options::default())?;
//! ```
#![tactic(auto)]

pub mod answer;
mod changes;
mod collect;
pub mod definition_reader;
pub mod destination;
pub mod edits;
mod event;
pub mod fault;
mod given;
mod hunks;
mod inlines;
mod inner;
mod join;
mod joint;
mod label;
mod labels;
pub mod line_end;
pub mod link;
mod look;
mod marker;
pub mod near;
pub mod output;
pub mod patch;
pub mod pieces;
mod plan;
pub mod rewrite;
mod source_bytes;
mod texts;
pub mod title;
pub mod trees;
mod unit_reader;
pub mod wording;

pub use answer::{Fate, Kept, Rewritten, RewrittenTree};
pub use definition_reader::DefinitionReader;
pub use fault::{Fault, Place};
pub use output::Part;
pub use rewrite::{rewritten, rewritten_slice};
