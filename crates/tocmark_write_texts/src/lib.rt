//! How texts are escaped, and how destinations, titles, code spans and mathematics are spelled, so that a reader
//! finds them in their spelling.
//!
//! It is the lowest crate of the writer: below it is `tocmark_event` alone, above it the definitions of
//! `tocmark_spelling`. Enter at `escape` for texts, and at `text_modifications` for the others; that they are read
//! back is said in `laws`.
#![tactic(auto)]

pub mod escape;
pub mod laws;
pub mod text_modifications;
