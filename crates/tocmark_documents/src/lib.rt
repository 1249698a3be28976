//! Parses Markdown to events as JSON text, and writes or rewrites Markdown from such a text. Other languages use it
//! through `tocmark_c` and `tocmark_events_program`.
//!
//! Start with `read_json` (`reading`) and `rewrite_json` (`rewriting`), which keeps all that wasn't edited.
//! `write_json` (`writing`) writes a whole document anew, and `write_checked` (`document`) parses that again.
//!
//! `lines` writes events as JSON by lines, and `line_writing` writes such lines as Markdown (`line_events` reads them).
//! `marshal_reading` parses Markdown to the bytes of which Python makes its events, and `marshal_writing` writes the
//! events of bytes that Python makes.
//! `packed` reads events from their compact form, and `packed_writing` writes these as Markdown. `checking` has the
//! canonical form of events as JSON. `options` reads the writer's options from a JSON text, and `option_values` from a
//! JSON value. `fault` has the errors, and `refusal` finds their places. `pairs` lends the events that are written, and
//! `aligning` finds ranges for events that have none.
//!
//! ```
//! let flags = ParserOptions::ENABLE_STRIKETHROUGH;
//! let json = read_json(alloc, "~~a~~", flags)?;
//! let markdown = write_json(alloc, json.as_str(), None, flags, Options::default())?;
//! assert_eq!(rt; markdown.as_str(), "~~a~~");
//! ```
#![tactic(auto)]

mod aligning;
pub mod checking;
pub mod document;
pub mod fault;
mod line_events;
pub mod line_writing;
pub mod lines;
pub mod marshal_reading;
pub mod marshal_writing;
pub mod option_values;
pub mod options;
pub mod packed;
pub mod packed_writing;
mod pairs;
pub mod reading;
mod refusal;
pub mod rewriting;
pub mod writing;

pub use checking::check_json;
pub use document::{checked_over, write_checked};
pub use fault::{DocumentError, OptionFault, OptionsTextError, RewriteError, WriteError};
pub use line_writing::write_lines;
pub use lines::{StreamError, array_of, stream_lines, stream_located_lines, write_bytes};
pub use marshal_reading::read_marshal;
pub use marshal_writing::write_marshal;
pub use option_values::{options_from_json, set_option};
pub use options::{options_from_text, options_in_json};
pub use packed::{PackedError, pairs_from_packed};
pub use packed_writing::{PackedWriteError, write_packed};
pub use reading::{read_json, read_located};
pub use rewriting::rewrite_json;
pub use writing::{write_json, write_over};
