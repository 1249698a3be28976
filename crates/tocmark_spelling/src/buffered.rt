//! Events that wait for their unit.

use tocmark_event::event::OwnedEvent;

/// An event that waits until its unit is whole, with its spelling in the source where that is known.
#[derive(Drop)]
pub struct BufferedEvent {
    /// The event.
    pub event: OwnedEvent,
    /// For a text, what is in the source for it.
    pub source: Option<String>,
}
