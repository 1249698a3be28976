//! Laws of texts as a whole: what the reader makes of a text is what CommonMark declares.
#![tactic(auto)]

pub mod blocks;
pub mod events;
pub mod inlines;
