//! Laws of where what is found in a text is, each the contract of a function that does nothing: of the lines and the inlines
//! of a block, and of where each line is found (`within`).
//!
//! Below it are the laws of texts, whose proofs it uses. Only crates of laws need it.
#![tactic(auto)]

pub mod within;
