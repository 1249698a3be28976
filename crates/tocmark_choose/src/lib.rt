//! How a unit of events may be written, the choice among these spellings, and what a unit leaves to later ones.
//!
//! Below it are `tocmark_write_unit` and `tocmark_write_labels`, above it `tocmark_state`. Enter at `document`: the
//! text of one unit, and what it leaves; `tools` has what that takes beside the unit. `search` chooses among the
//! `manners`, by a `trial` after a mark and what a reader finds in its text, after earlier units (`earlier`,
//! `read_back`). The laws of the choice are in `laws`.
#![tactic(auto)]

mod alike;
pub mod document;
pub mod earlier;
pub mod laws;
pub mod manners;
pub mod read_back;
pub mod read_back_laws;
pub mod search;
pub mod tools;
pub mod trial;
