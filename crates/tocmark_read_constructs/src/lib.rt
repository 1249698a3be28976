//! How constructs of a Markdown text are read, a file for each: what of a line begins one, and how it comes into the blocks
//! so far.
//!
//! Below it is `tocmark_read_page`, with the blocks so far, and above it `tocmark_read_blocks`, which asks each
//! construct in its turn. Enter at a construct: `table`, `metadata`, `task`, `quote`, `heading`, `footnote` or
//! `definition_list`. In each file the functions on bytes of a line come first, and those that change the blocks after
//! them. `blanks` has the spaces and tabs that several constructs pass over.
#![tactic(auto)]

mod blanks;
pub mod definition_list;
pub mod footnote;
pub mod heading;
pub mod metadata;
pub mod quote;
pub mod table;
pub mod task;
