//! What an opening is told of its body and of what follows it.

use tocmark_event::event::OwnedEvent;
use tocmark_write_pending::body_facts::BodyFacts;

/// What an opening is told of its body and of what follows it.
#[derive(Clone, Copy)]
pub struct Ahead<'e> {
    /// What the trees of the body are like.
    pub body: BodyFacts,
    /// The event after the container, beyond the unit's end too.
    pub next: Option<&'e OwnedEvent>,
    /// In fenced code the longest run of its fence's token, in characters.
    pub longest: usize,
    /// In an HTML block whether a blank line ends it.
    pub blank: bool,
    /// In an HTML block whether its end is in it.
    pub closed: bool,
}
