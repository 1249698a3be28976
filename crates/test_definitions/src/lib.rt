//! Examples of what lists of events are written as (`written`), of all the spellings that are tried for a unit (`tried`),
//! and of calls with events and ranges (`calls`). The contract of each function is a table of them, and the definitions are
//! computed on each; the functions do nothing.
//!
//! Below it are `tocmark_choose`, `tocmark_state` and `tocmark`.
#![tactic(auto)]

pub mod calls;
pub mod tried;
pub mod written;
