//! The blocks of a Markdown text so far, and which of them are open: a flat list of blocks, each with its depth and its
//! range in bytes, and for each leaf its lines without the prefixes of its containers.
//!
//! Below it is `tocmark_read_lines`, above it `tocmark_read_constructs`, whose files read one construct each, and
//! `tocmark_read_blocks`, which goes from line to line. Enter at `page`: the methods of `BlocksSoFar` open and close leaves
//! and containers. `packed` keeps each block in 24 bytes. `leaf` has the leaf that is open, `piece` what it keeps of a line,
//! and `definition` the definitions of links in front of a paragraph. `line_start` has the line and the place of it that
//! readers of blocks are lent.
#![tactic(auto)]

pub mod definition;
pub mod leaf;
pub mod line_start;
pub mod packed;
pub mod page;
pub mod piece;
