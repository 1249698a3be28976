//! The texts of events.

ghost use Rattle.std.specs.Prelude.{◌≡◌, List, ℕ, IfOk, string_bytes};
ghost use Rattle.tocmark_event.specs.Text.{text_of};

use std::alloc::{AllocError, Global};
pub use std::borrow::CowStr;

/// The text type of an event: lent or owned in the events of a caller, owned in those that are kept.
pub trait Words {
    /// The bytes of the text.
    ghost bytes: { Self → List ℕ };

    /// The text.
    fn words(&self) -> &str
        ensures { result.now ≡ bytes self.now };
}

/// A text that is lent or owned. Equality, order and hash are those of the text.
impl<'a> Words for CowStr<'a> {
    ghost bytes = { text_of };

    fn words(&self) -> &str {
        self.as_ref()
    }
}

impl Words for String {
    ghost bytes = { string_bytes };

    fn words(&self) -> &str {
        self.as_str()
    }
}

/// A text that can be made of any other, with memory of its own.
pub trait OwnedWords: Words {
    /// The text as a string of its own.
    fn from_text(alloc: Global, text: &str) -> Result<Self, AllocError>
        ensures { IfOk result (λ copy. Self.Words.bytes copy ≡ text.now) };
}

impl OwnedWords for String {
    fn from_text(alloc: Global, text: &str) -> Result<Self, AllocError> {
        String::from_str(alloc, text)
    }
}

impl OwnedWords for CowStr<'static> {
    fn from_text(alloc: Global, text: &str) -> Result<Self, AllocError> {
        Ok(CowStr::Owned(String::from_str(alloc, text)?))
    }
}
