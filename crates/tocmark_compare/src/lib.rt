//! When two lists of events say the same, whoever owns their texts.
//!
//! Below it is `tocmark_spelling`, above it the writer, which compares a unit with what is read of its text, rewriting,
//! and the formatter. For a unit of events and a reading enter at `agrees`. For two lists enter at `same`, where each longest
//! stretch of texts counts as one: `are_same` decides, `differ` finds a difference without memory. For a list that is gone
//! when the other one comes, enter at `digest`, which keeps what a list says in few bytes.
//!
//! All of them are on `event`, which compares two events, or two lists one by one, by `tag`, `text`, and the numbers in
//! `number`. `alike` compares a reading with events that aren't joined yet. `laws` says that events that are the same are
//! equal.
#![tactic(auto)]

pub mod agrees;
pub mod alike;
pub mod digest;
pub mod event;
pub mod laws;
pub mod number;
pub mod same;
mod tag;
mod text;
