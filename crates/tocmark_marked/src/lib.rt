//! Reads a text that may begin with a byte order mark. The mark is no text: what follows it is read, and each range is one of
//! the whole text.
//!
//! Enter at `MarkedReader` (`reader`). `blocks` reads a text part by part, and `later` moves ranges past the mark.
//!
//! ```
//! let reading = MarkedReader.read(alloc, "\u{feff}# One", flags)?;
//! assert_eq!(rt; reading.events[0].1, (3, 8));
//! ```
#![tactic(auto)]

pub mod blocks;
pub mod later;
pub mod reader;

pub use blocks::MarkedBlocks;
pub use later::earlier;
pub use reader::MarkedReader;
