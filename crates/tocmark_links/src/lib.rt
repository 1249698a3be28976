//! Links of Markdown files: where they lead, and how they change so that they still lead there.
//!
//! The crate reads no file: paths and texts are values. A path is relative to the root of a tree of files, its parts are joined
//! by `/`, and none of them is empty, `.` or `..`. The empty path is the root.
//!
//! `page` finds the links and anchors of a text. `tree` is the index of all files, and says where a link leads. `moved` says
//! which destination a link needs after a move of `moves`. `renamed` says which anchors change with the words of headings, and
//! `headings` which destination a link to one of them needs then.
//! `changed` puts new destinations, words or contents into a text, and compares what the reader finds before and after. `paths`,
//! `destination` and `slug` are the rules below them; `html` finds the attributes of HTML, `leads` compares where links lead,
//! `anchors` numbers headings, `edits` replaces bytes of a text.
#![tactic(auto)]

pub mod anchors;
pub mod changed;
pub mod destination;
mod edits;
pub mod headings;
mod html;
mod leads;
pub mod moved;
pub mod moves;
pub mod page;
pub mod paths;
pub mod renamed;
pub mod slug;
pub mod tree;

pub use anchors::{Anchor, AnchorKind};
pub use changed::{Fault, with_contents, with_destinations, with_heading};
pub use moved::relocated;
pub use moves::Moves;
pub use page::{Link, LinkKind, Page};
pub use renamed::renamed_anchors;
pub use slug::Slugs;
pub use tree::{Led, Tree};
