//! Writes the events of a unit as their trees are spelled.
//!
//! Below it are the crates that write openings, closings and leaves, above it the choice of a spelling
//! (`tocmark_choose`). Enter at `block`: it writes a whole unit and carries along what it leaves. `turn` takes a Start
//! or an End: `open` and `close` choose the row of a container by its tag. `findings` is what is found out of a unit's
//! events once, and `census` which kinds of them there are.
#![tactic(auto)]

pub mod block;
pub mod census;
pub mod close;
pub mod findings;
pub mod laws;
pub mod open;
mod turn;
