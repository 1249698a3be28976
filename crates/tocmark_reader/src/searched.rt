//! A text in which U+0000 was sought.

ghost use Rattle.std.specs.Prelude.{◌≡◌, ◌==◌, false, IsTrue};
ghost use Rattle.std.specs.List.{list_any};

use std::marker::Model;
use tocmark_read_scan::class::has_byte;

/// A text, and whether no U+0000 is in it.
#[derive(Drop)]
pub struct SearchedText<'t> {
    text: &'t str,
    clean: bool,
}

impl<'t> Model for SearchedText<'t> {
    ghost use Rattle.std.specs.Prelude.{◌≡◌, ◌==◌, ℕ, List, true, false};
    ghost use Rattle.std.specs.List.{list_any};

    ghost Value = { List ℕ };

    ghost view = { λ s. s.text.now };

    ghost invariant = { λ s. s.clean ≡ true → list_any (λ b. b == 0) s.text.now ≡ false };
}

impl<'t> SearchedText<'t> {
    /// Seeks U+0000 in a text.
    pub fn new(text: &'t str) -> SearchedText<'t>
        ensures { result ≡ text.now }
    {
        SearchedText {
            text,
            clean: !has_byte(text.as_bytes(), 0),
        }
    }

    /// The text.
    pub fn as_str(&self) -> &str
        ensures { result.now ≡ self.now }
    {
        self.text
    }

    /// Whether no U+0000 is in the text.
    pub fn is_clean(&self) -> bool
        ensures { IsTrue result → list_any (λ b. b == 0) self.now ≡ false }
    {
        self.clean
    }
}
