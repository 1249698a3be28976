//! The blocks of a Markdown text (CommonMark 0.31.2, sections 4 and 5): how each line changes the blocks so far, from
//! the first line to the last.
//!
//! Below it are `tocmark_read_page`, with the blocks so far, and `tocmark_read_constructs`, with what reads tables,
//! headings, quotes and the constructs of extensions. Above it is `tocmark_reader`. Enter at `read_blocks` (`block`),
//! which goes from line to line: `take_cells` asks which containers go on and what the open leaf does, `open_all`
//! (`container`) opens the containers that begin, and `start` the leaf after them. `leaf` says what a line is to the open
//! leaf, and which leaf it begins. Code and HTML begin in `code`, paragraphs and thematic breaks in `paragraph`.
#![tactic(auto)]

mod block;
mod code;
mod container;
mod leaf;
mod paragraph;

pub use block::{Blocks, read_blocks};
