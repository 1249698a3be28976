//! The columns that a text takes.

use unicode_width::UnicodeWidthStr;

/// The columns that a text takes where all characters have one width, or twice that.
pub(crate) fn width(text: &str) -> usize {
    text.width()
}
