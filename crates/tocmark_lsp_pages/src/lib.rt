//! What a language server answers about the pages of a workspace, however they are formatted.
//!
//! `message` reads a call and writes answers, `client` has what a client says of itself, and `documents` has the texts that are
//! open. `questions` finds what answers a question about a text: `outline` with headings and folds, `links` with where links
//! lead, `completion` with what can be written. `problems` lists the links that lead nowhere, and `actions` what can be done.
//! `headings` and `labels` give names to what has one, `moves` says which files move, and `corrections` how links follow.
//! `workspace` has the pages of a workspace, `tree` says where files are, `edits` has edits of texts, and `lined` says where
//! bytes are in lines. The crate reads no file: its caller passes what does.
#![tactic(auto)]

pub mod actions;
pub mod client;
mod completion;
mod corrections;
pub mod documents;
pub mod edits;
mod headings;
mod labels;
pub mod lined;
pub mod links;
pub mod message;
pub mod moves;
mod outline;
pub mod problems;
pub mod questions;
pub mod tree;
pub mod workspace;
