//! Readers of CommonMark 0.31.2: a text goes in, its events with their ranges and its labels come out.
//!
//! Enter at `CoreReader` (`reader`), which knows no extension, or at `ExtendedReader` (`extended`), which takes those that
//! flags name. `UnitReader` (`unit_reader`) is the one to hand to the writer: it needs no definitions of footnotes. Below this crate are `tocmark_read_blocks` and `tocmark_read_inlines`. Above it is the library, which
//! hands it to its users.
//!
//! A text is read in these steps:
//!
//! 1. `reader` finds the blocks of the text, and what labels are defined as in it.
//! 2. `block_reading` makes the events of the blocks: all at once, or block by block as a caller asks for them.
//! 3. `block_events` takes a block. A container comes from `containers` and `attributes`, code and HTML come from
//!    `code_lines`, and the inlines of a paragraph, a heading or a cell come from `inline`. `formula` keeps the blanks of a
//!    formula's lines. `quiet` is the short way for lines without marks.
//! 4. `emit` puts the events after one another, and ends the containers.
//!
//! Some modules serve several steps. `words` makes the texts that the source doesn't spell as they are. `searched` is the
//! source, in which U+0000 is sought once. `pieces` takes a leaf's lines from those of all leaves.
//!
//! Two modules answer other questions: `definitions` tells where links are defined, and `plain` which texts have no marks.
#![tactic(auto)]

mod attributes;
pub mod block_events;
pub mod block_reading;
mod code_lines;
mod containers;
pub mod definitions;
mod emit;
pub mod extended;
mod formula;
mod inline;
pub mod laws;
mod pieces;
mod plain;
mod quiet;
mod reader;
mod searched;
mod unit_reader;
mod words;

pub use block_reading::BlockReading;
pub use definitions::{DefinitionPlace, ReferenceDefinition, find_definitions};
pub use extended::{EXTENSIONS, ExtendedReader, GFM, NAMED_EXTENSIONS};
pub use plain::is_plain;
pub use reader::{CoreReader, find, find_blocks, find_blocks_and_definitions};
pub use tocmark_read_scan::syntax::Names;
pub use unit_reader::UnitReader;
