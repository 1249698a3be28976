//! Emphasis and strong emphasis, from the events of a unit to the written markers.
//!
//! Below it are `tocmark_write_inlines` and `tocmark_write_pending`, above it `tocmark_write_unit`. Enter at
//! `opening`, with a `task`. `marker` has the marker in each layout, from plain facts of the unit, of the text that is written, and of
//! the open containers (`facts`). `node` has these facts of the unit, from what is kept beside its events and from what
//! the reader says of them (`columns`, and `preferences` for each of these). `boundary` says whether an underscore may
//! are beside a character.
#![tactic(auto)]

pub mod boundary;
pub mod columns;
mod ends;
pub mod facts;
pub mod marker;
pub mod node;
pub mod opening;
mod place;
mod preferences;
mod preferred;
mod runs;
mod sharing;
pub mod task;
