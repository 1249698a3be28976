//! Laws of what is handed, each the contract of a function that does nothing: of the walk over
//! events (`walk`), of single blocks (`blocks`), of whole documents of plain lines that are read
//! back (`documents`), of documents of one construct that are (`read_back`), of what calls count
//! (`counts`), of the line feeds that end what is written (`feeds`), of units that read back
//! (`written`), and of why a unit has no spelling (`misplaced_nodes`). Beside them are laws of
//! what is read: of texts with one construct of CommonMark (`constructs`) or of an extension
//! (`extensions`).
//!
//! Below it are `tocmark_state` and `tocmark_reader`, above it the library, for the words of its
//! clauses.
#![tactic(auto)]

pub mod blocks;
pub mod constructs;
pub mod counts;
pub mod documents;
pub mod extensions;
pub mod feeds;
pub mod misplaced_nodes;
pub mod read_back;
pub mod walk;
pub mod written;
