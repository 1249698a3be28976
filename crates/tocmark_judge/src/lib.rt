//! Judges whether two texts say the same: whether a reader finds the same in both.
//!
//! Enter at `Judge::are_alike` (`judge`). `parts` has the readers that hand out a text's events part by part, so that never
//! all of them are in memory. `summary` keeps in little memory what a text says, and `shape` which blocks it has. `letters`
//! compares the letters of two texts, which need no reader. `mark` is about the byte order mark at the front of a text.
#![tactic(auto)]

pub mod judge;
pub mod letters;
pub mod mark;
pub mod parts;
pub mod shape;
pub mod summary;

pub use judge::{Found, Judge};
pub use parts::{PartReader, PartTaker};
