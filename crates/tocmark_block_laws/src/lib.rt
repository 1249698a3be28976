//! Laws of the blocks of every text, each the contract of a function that does nothing: what the reader finds is what CommonMark
//! declares.
#![tactic(auto)]

pub mod definitions;
pub mod lists;
pub mod names;
pub mod quotes;
