//! What a printer is.

ghost use Rattle.std.specs.Prelude.{◌≡◌, ℕ, Bool, IfOk, List, string_bytes};
ghost use Rattle.tocmark_printing.specs.declared.ladder.Ladder.{Ladder};

use crate::blocks::Blocks;
use crate::ladder::Ladder;
use std::alloc::{AllocError, Global};
use tocmark_event::event::Event;

/// An event, and the bytes of the text that it comes from.
pub type Placed = (Event<'static>, (usize, usize));

/// What takes the events of a text, part by part.
pub trait EventTaker {
    /// Takes further events. They may begin and end within containers.
    fn take_events(&mut self, events: &[Placed]) -> Result<(), AllocError>;
}

/// The events of a text. They come part by part, because all at once would take more memory than all else.
pub trait Events {
    /// What else is found in the text.
    type Found: Drop;

    /// Whether this is found there.
    ghost finds: { Self → Self.Found → Type 0 };

    /// Hands the events to a taker, and returns what else is found. It fails if memory runs out, here or there.
    fn hand_to<T: EventTaker>(
        &self,
        alloc: Global,
        taker: &mut T,
    ) -> Result<Self::Found, AllocError>
        ensures { IfOk result (λ found. finds self.now found) };
}

/// A printed document.
#[derive(Drop)]
pub struct Page {
    pub text: String,
    /// Where its blocks are, and where they come from.
    pub blocks: Blocks,
}

/// Prints documents.
pub trait Print {
    /// Whether lines are filled: then a soft break may come for white space, and white space for a soft break.
    ghost fills: { Self → Bool };

    /// Whether a text may be printed so, if its trees have these steps.
    ghost prints: { Self → List ℕ → Ladder → List ℕ → Type 0 };

    /// Whether lines are filled.
    fn fills(&self) -> bool
        ensures { result ≡ fills self.now };

    /// Prints a text whose lines end with line feeds, from its events, and returns what else is found in it.
    fn print<E: Events>(
        &self,
        alloc: Global,
        text: &str,
        ladder: &Ladder,
        events: &E,
    ) -> Result<(Page, E::Found), AllocError>
        ensures found { IfOk result (λ both. E.finds events.now both.1) }
        ensures prints { IfOk result (λ both.
            prints self.now text.now ladder.now (string_bytes both.0.text)) };
}
