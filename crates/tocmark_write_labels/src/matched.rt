//! Labels as they are matched.

ghost use Rattle.std.specs.Prelude.{◌≡◌, ◌++◌, not, ◌&&◌, ◌==◌, if◌then◌else◌, chars, codes, encode_utf8, encode_utf8_all, length, string_bytes, IfOk, OnOk};
ghost use Rattle.tocmark_write_labels.specs.Matched.{collapsed, is_blank, label_key};

use caseless::default_case_fold_str;
use std::alloc::{AllocError, Global};

/// Whether a character is white space in labels.
fn is_blank(c: char) -> bool
    ensures { result ≡ is_blank c }
{
    c == ' ' || c == '\t' || c == '\n' || c == '\r'
}

/// Adds a character of a label, unless it is white space, and a space before each word but the first.
fn push_collapsed(text: &mut String, is_after_blank: bool, c: char) -> Result<(), AllocError>
    ensures { OnOk result (string_bytes text.new
        ≡ (if is_blank c then string_bytes text.old
        else (if is_after_blank && not (length (string_bytes text.old) == 0)
        then string_bytes text.old ++ codes " " else string_bytes text.old) ++ encode_utf8 c)) }
{
    if is_blank(c) {
        return Ok(());
    }
    if is_after_blank && !text.is_empty() {
        text.push(' ')?;
    }
    text.push(c)
}

/// A label's words with one space between them.
pub(crate) fn collapsed(alloc: Global, label: &str) -> Result<String, AllocError>
    ensures { IfOk result (λ text.
        string_bytes text ≡ encode_utf8_all (collapsed (chars label.now))) }
{
    let mut text = String::with_capacity(alloc, label.len())?;
    let mut is_after_blank = true;
    for c in label.chars() {
        push_collapsed(&mut text, is_after_blank, c)?;
        is_after_blank = is_blank(c);
    }
    Ok(text)
}

/// What labels that match have in common. It takes time in proportion to the label.
pub(crate) fn label_key(alloc: Global, label: &str) -> Result<String, AllocError>
    ensures { IfOk result (λ key. string_bytes key ≡ label_key label.now) }
{
    let text = collapsed(alloc, label)?;
    default_case_fold_str(alloc, text.as_str())
}
