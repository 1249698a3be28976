//! Prints Markdown documents in one style, from their events and their source.
//!
//! Enter at `Style` (`style`), which says how things look, and is a printer (`Print` of `tocmark_printing`). `printing` takes
//! events, and prints each tree at the top as soon as it is whole. `printer` walks over the events; `page` has what
//! is printed and the containers that are open; `leaf`, `table`, `container` and `definitions` print the blocks; `kept`,
//! `spans`, `columns` and `dialect` say which keep their lines. `inline` makes `piece`s of events, and `lines` and `fill` make
//! lines of these; `sentence` says where sentences end. `source` has the text and its lines, whose places `line_starts` keeps
//! in little memory.
//!
//! Nothing is promised of what is printed: `tocmark_format` lets `tocmark_judge` compare it with the source.
#![tactic(auto)]

mod columns;
mod container;
mod definitions;
mod dialect;
mod fill;
mod hazard;
mod inline;
mod kept;
mod leaf;
mod line_starts;
mod lines;
mod link;
mod look;
mod page;
mod part;
mod piece;
mod printer;
mod printing;
mod sentence;
mod source;
mod spans;
mod style;
mod table;
mod width;

pub use style::{
    Bullet, Delimiter, Fence, HardBreak, Headings, ListIndent, Marker, Numbering, Rule, Style,
    Tables, Wrap,
};
