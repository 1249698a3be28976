//! Finds web and mail addresses without angle brackets in what a reader finds, and makes links of them, as GitHub does.
//!
//! Enter at `BareLinks` (`reader`). `linker` goes through events, `scan` and `words` through the words of a line, and `address`,
//! `host` and `trail` say what an address is and where it ends. `border` says what is between texts, and `sign` whether other
//! programs look for an address in a text.
//!
//! ```
//! let reader = BareLinks {
//!     reader: ExtendedReader { names: Names::All },
//! };
//! let bare = reader.read(alloc, "see https://example.org now", flags)?;
//! assert_eq!(rt; bare.events.len(), 7);
//! ```
#![tactic(auto)]

mod address;
mod border;
mod host;
mod linker;
pub mod reader;
mod scan;
mod sign;
mod trail;
mod words;

pub use reader::BareLinks;
