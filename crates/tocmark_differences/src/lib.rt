//! Finds what two Markdown texts say differently.
//!
//! Enter at `compared` (`compare`). `allowed` names the kinds of things that may differ. `fold` and `erase` make of a reader's
//! events those that count: white space as one blank, if it may differ, and one fixed value for all else that may. `marks` has
//! these events as short texts, so that `align` finds which of them differ. `told` notes what that is, in the words of
//! `difference` and `phrases`. `letters` compares the letters of two texts alone, without a reader.
#![tactic(auto)]

pub mod align;
pub mod allowed;
pub mod compare;
pub mod difference;
pub mod erase;
pub mod fold;
pub mod letters;
pub mod marks;
pub mod merge;
pub mod parting;
pub mod phrases;
pub mod told;

pub use allowed::{Allowed, KINDS};
pub use compare::compared;
pub use difference::{Difference, Kind};
pub use letters::compared_letters;
