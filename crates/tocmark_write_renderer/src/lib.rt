//! What is written of a unit: its text, the open containers, what is carried along, and the stretch of texts that has
//! not ended.
//!
//! Below it is `tocmark_write_containers`, above it each crate that writes openings, closings or leaves. Enter at
//! `renderer`: a `Renderer` can be marked, and be made again what it was at the mark. `laying` lays texts on its
//! lines, `gap` writes what is before an event, and `job` is what is asked of the writer of a unit. `marker_runs`
//! has the runs of `*` and of `_` in a text that grows at its end, each byte of it read once.
#![tactic(auto)]

mod gap;
pub mod job;
mod laying;
pub mod marker_runs;
pub mod parts;
pub mod renderer;
