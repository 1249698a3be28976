//! Laws of whole documents: how the writer lays them out (`documents`), and which blocks the reader finds in that layout
//! (`read_back`). Beside them are laws of what the writer never refuses as unexpected (`expected`).
#![tactic(auto)]

pub mod documents;
pub mod expected;
pub mod read_back;
