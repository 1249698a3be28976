//! What is kept of an open list.

/// What the opening of a list chose.
#[derive(Clone, Copy)]
pub struct ListChoice {
    /// The number of the next item, if the list is ordered.
    pub number: Option<u64>,
    pub token: char,
    pub tight: bool,
    /// Whether its markers are wide.
    pub wide: bool,
    /// Whether its item begins with the reserved label.
    pub labelled: bool,
}
