//! What is marked in a Markdown text: HTML, addresses between angle brackets, character references and escapes,
//! link labels, destinations, titles and definitions. Each function answers at every argument: past the end of a text
//! is a line feed.
//!
//! Below it is `tocmark_read_scan`, above it the blocks (`tocmark_read_lines`) and the inlines
//! (`tocmark_read_spans`). There is a module for each sort of token; destinations, titles and definitions are in
//! `word`.
#![tactic(auto)]

pub mod autolink;
pub mod character_names;
mod entries;
pub mod footnote;
pub mod html;
pub mod label;
pub mod name;
pub mod reference;
pub mod word;
