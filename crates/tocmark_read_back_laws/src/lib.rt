//! Laws of what is read of documents that the writer wrote: the events of the document.
#![tactic(auto)]

pub mod contents;
pub mod documents;
pub mod nested;
pub mod trees;
