//! CommonMark 0.31.2, declared (`specs/`), and what the declaration says of examples.
#![tactic(auto)]

pub mod examples;
pub mod standard;
