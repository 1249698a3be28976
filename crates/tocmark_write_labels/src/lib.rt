//! The labels of links, and the definitions that are left at the end.
//!
//! Below it are `tocmark_write_inlines` and `tocmark_write_pending`, above it `tocmark_choose` and `tocmark_state`.
//! Enter at `labels` and `taken`: the labels that are defined and taken. `reserved_label` is the one that is free for
//! lists; `definitions` and `ending` have what is written at the end.
#![tactic(auto)]

pub mod defined;
pub mod definitions;
pub mod ending;
pub mod label_set_laws;
pub mod labels;
pub mod laws;
mod matched;
pub mod reserved_label;
pub mod taken;
