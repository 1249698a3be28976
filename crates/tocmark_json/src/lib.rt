//! Events as JSON, in the form of pulldown-cmark's feature `serde`, and JSON as events. `docs/JSON.md` has the form.
//!
//! `printing` writes events as JSON text, `escaping` the texts in them, and `locating` adds lines and columns.
//! `marshalling` writes them as bytes for Python, with names by the numbers of `name_numbers`, and `unmarshalling` reads
//! Python's bytes. `elements` reads the events of a JSON text one by one. `node` has the value of one element, and
//! `reading` makes an event from it. `parts` takes a value apart, `ranges` reads ranges, and `names` has the names of
//! variants. `positions` finds the lines and columns of a text, and `destinations` where the destination of a link is. `fault` says what is wrong with a text or a value, and
//! where. `laws` says that different events have different JSON.
//!
//! The crate is on `tocmark_event`, on the scanners of the reader (`tocmark_read_scan`, `tocmark_read_tokens` and
//! `tocmark_read_spans`), and on the kit's `fast_float`, `itoa`, `json` and `serde_json`.
#![tactic(auto)]

mod destinations;
pub mod elements;
mod escaping;
pub mod fault;
pub mod laws;
pub mod locating;
pub mod marshalling;
mod name_numbers;
pub mod names;
pub mod node;
pub mod number;
mod parts;
pub mod positions;
pub mod printing;
pub mod ranges;
pub mod reading;
pub mod unmarshalling;
