//! What a language server needs of texts: positions, edits and the frames of messages.
//!
//! A position of the protocol is a line and units of UTF-8 or UTF-16 in it. `positions` says where it is in a text, and which
//! position a byte has. `edits` applies edits, and finds those that make one text of another. `frames` reads and writes
//! messages with their lengths. The crate reads no file, and knows neither JSON nor Markdown.
#![tactic(auto)]

pub mod edits;
pub mod frames;
pub mod positions;
