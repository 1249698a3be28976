//! What a printer of documents is given, and what it gives.
//!
//! Enter at `Print` (`print`). A printer takes a text, its `Events`, and a `Ladder` (`ladder`), which says how near to the text
//! each tree is printed. It gives a `Page`: the printed text, and where its `Blocks` are (`blocks`), in few bytes (`numbers`).
//!
//! Nothing is promised of what a printer gives, but what the printer itself promises: `tocmark_format` lets `tocmark_judge`
//! compare it with the text.
#![tactic(auto)]

pub mod blocks;
pub mod ladder;
pub mod numbers;
pub mod print;

pub use blocks::{Block, BlockPlace, Blocks};
pub use ladder::{Ladder, Step};
pub use print::{EventTaker, Events, Page, Placed, Print};
