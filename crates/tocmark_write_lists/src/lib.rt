//! Lists and their items, definition lists and footnotes: what opens, what closes and what words each of them is in
//! one file, in this order.
//!
//! Below it is `tocmark_write_blocks`, above it `tocmark_write_unit`. Enter at `lists` and `items`, or at `footnotes` or
//! `definition_lists`; the texts are made from plain values: tokens and numbers of items, labels.
#![tactic(auto)]

pub mod definition_lists;
pub mod footnotes;
pub mod items;
pub mod lists;
