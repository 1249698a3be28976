//! The definition of how a unit of events is spelled, in `specs/Spelling.antt`, with what it speaks of: kinds of
//! events, the request, what is kept of an open list, and what a finished tree leaves to its right neighbour.
//!
//! Below it are `tocmark_event` and `tocmark_write_texts`; all crates of the writer are on it, and each of them
//! writes what a part of this definition says. Enter at `specs/Spelling.antt`, and for the types at `plan`, `trail`,
//! `list_choice` and `buffered`. The laws that hold of it are in `laws`, `machine_laws` and `misplaced`.
#![tactic(auto)]

pub mod buffered;
pub mod kinds;
pub mod laws;
pub mod list_choice;
pub mod machine_laws;
pub mod misplaced;
pub mod plan;
pub mod trail;
