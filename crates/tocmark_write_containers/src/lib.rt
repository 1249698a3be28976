//! The containers that are open at a place of a unit.
//!
//! Below it is `tocmark_spelling`, above it `tocmark_write_renderer`. Enter at `containers`: the stack of them
//! with the joined prefix of its lines; it can be marked, and be made again what it was at the mark, by what `kept`
//! notes of each. `frame` is one of them: its tag, what is before its lines (`prefix`), and what its opening chose
//! (`content`). `outside` is what it and those around it say of a place.
#![tactic(auto)]

pub mod containers;
pub mod content;
pub mod frame;
mod kept;
pub mod outside;
pub mod prefix;
