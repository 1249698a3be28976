//! What the blocks and the inlines of a Markdown text are scanned with, and which extensions a reading takes. Texts are
//! bytes, places are byte offsets, and each function answers at every argument: past the end of a text is a line feed.
//!
//! It is the lowest crate of the reader; all others are on it. Enter at `basic` for bytes and places, at `class` for
//! classes of characters, at `side` for what is beside a run, at `content` for the content of a block without the
//! prefixes of its containers, and at `syntax` for the extensions.
#![tactic(auto)]

pub mod basic;
pub mod class;
pub mod content;
pub mod side;
pub mod syntax;
pub mod table_cell;
