//! The events that wait for their unit, with what is found out of them as they come, and what is asked of a unit's events
//! before they are written.
//!
//! Below it is `tocmark_compare`, above it the crates that write containers, `tocmark_write_labels` and
//! `tocmark_state`. Enter at `pending`: the events, lent or given away (`incoming`), with what is found of each as it
//! comes: by `nesting` which containers are open and where the others end, by `runs` the runs of delimiters, by `widths`
//! how many markers a container opens with, both kept in `delimiters`, by `placeholder` whether the unit needs a label.
//! `ends` has where containers end, and `body_facts` what their bodies are like. The laws are in `laws` and `look_law`.
#![tactic(auto)]

pub mod body_facts;
pub mod delimiters;
pub mod edges;
pub mod ends;
pub mod incoming;
pub mod laws;
pub mod look_law;
pub mod nesting;
pub mod pending;
pub mod placeholder;
pub mod room;
pub mod runs;
pub mod widths;
