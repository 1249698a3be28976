//! Laws of the inlines of every content: what the reader makes of it is what CommonMark declares.
//!
//! It compares the reader of inlines (`tocmark_read_inlines`) with the declaration (`tocmark_commonmark`). No other crate
//! needs it.
#![tactic(auto)]

pub mod spans;
