//! Markdown events, the reader that is asked what a text reads as, and the options and errors of what writes events.
//!
//! It is on no other crate, and all others are on it. Enter at `event`: `Event` and its tags, its flags in
//! `event::flags`, its texts in `event::text`. `reader` has the trait `Reader` and what a reader finds; `options` has
//! `Options`, their validation, and `Error`. Events as plain values are in `specs/View.antt`, as trees in
//! `specs/Forest.antt`.
#![tactic(auto)]

pub mod event;
pub mod option_laws;
pub mod options;
pub mod reader;
pub mod text_laws;
