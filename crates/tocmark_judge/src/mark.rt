//! The byte order mark at the front of a text, which is no text.

ghost use Rattle.std.specs.Prelude.{◌≡◌, ◌++◌, IfOk, IsTrue, MatchOption, false, string_bytes};
ghost use Rattle.tocmark_judge.specs.Marks.{has_mark, mark};

use std::alloc::{AllocError, Global};

/// The byte order mark.
pub const MARK: &str = "\u{feff}";

/// Whether a text begins with a byte order mark.
pub fn has_mark(text: &str) -> bool
    ensures { result ≡ has_mark text.now }
{
    text.as_bytes().starts_with(MARK.as_bytes())
}

/// Whether two texts begin with a byte order mark, or neither of them.
pub fn have_same_mark(one: &str, other: &str) -> bool
    ensures { IsTrue result → has_mark one.now ≡ has_mark other.now }
{
    has_mark(one) == has_mark(other)
}

/// The text after the byte order mark of a text, if it has one.
pub fn without_mark(text: &str) -> Option<&str>
    ensures { MatchOption result (has_mark text.now ≡ false)
        (λ rest. text.now ≡ mark ++ rest.now) }
{
    text.strip_prefix(MARK)
}

/// A text after a byte order mark. It fails if memory runs out.
pub fn with_mark(alloc: Global, text: &str) -> Result<String, AllocError>
    ensures { IfOk result (λ whole. string_bytes whole ≡ mark ++ text.now) }
{
    let mut whole = String::from_str(alloc, MARK)?;
    whole.push_str(text)?;
    Ok(whole)
}
