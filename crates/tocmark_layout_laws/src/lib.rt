//! Laws of what CommonMark declares of a document's layout.
#![tactic(auto)]

pub mod layouts;
