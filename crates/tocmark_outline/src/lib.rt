//! Lists what a Markdown text has: its links, its headings, its words, and its definitions of links.
//!
//! Each list is short beside the text, so a caller in another language gets it faster than all events. `selecting` keeps the
//! events of links or of headings, `saying` has the words without markup, and `defining` has the definitions of links as JSON.
//! A byte order mark at the front of the text is no text; ranges are those of the whole text.
//!
//! ```
//! let json = links(alloc, "See [a](/b).", GFM)?;
//! assert_eq!(rt; words(alloc, "# One\n*two*", GFM)?.as_str(), "One\ntwo\n");
//! ```
#![tactic(auto)]

pub mod defining;
pub mod saying;
pub mod selecting;

pub use defining::definitions;
pub use saying::words;
pub use selecting::{headings, links};
