//! What a writer takes, and what it refuses.

ghost use Rattle.std.specs.Prelude.{◌≡◌, ℕ, List, IsOk, IsErr};

use std::fmt;

/// Takes each text whole or not at all. Unlike the contract of `fmt::Write`, that of this trait also says when it
/// refuses a text.
pub trait Taker {
    /// The writer before a text that it took, and after it.
    ghost takes: { Self → List ℕ → Self → Type 0 };

    /// The writer before a text that it refused, and after it.
    ghost refuses: { Self → List ℕ → Self → Type 0 };

    /// Takes a text. An `Err` is the writer's fault.
    fn take(&mut self, text: &str) -> fmt::Result
        ensures ok { IsOk result → takes self.old text.now self.new }
        ensures err { IsErr result → refuses self.old text.now self.new };
}

/// Any writer: nothing is known of what one refuses.
impl<W: fmt::Write> Taker for W {
    ghost use Rattle.tocmark_state.specs.WorkView.{unknown};

    ghost takes = { λ s t u. W.write_str_gives s t u };

    ghost refuses = { λ s t u. unknown s t u };

    fn take(&mut self, text: &str) -> fmt::Result {
        self.write_str(text)
    }
}
