//! The state that takes Markdown events and hands a writer their text, unit by unit.
//!
//! Below it is `tocmark_choose`, above it the laws and the library. Start at `state`. `work` makes units of the
//! events, `ranges` checks their byte ranges, and `hand` and `taker` hand texts to the writer. `string_writer` is a
//! writer to a string, and `taken` has the events of a reading that is given away.
#![tactic(auto)]

mod hand;
pub mod laws;
mod ranges;
pub mod state;
pub mod string_writer;
mod taken;
pub mod taker;
pub mod work;
