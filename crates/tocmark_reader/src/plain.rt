//! The test of plain texts.

ghost use Rattle.std.specs.Prelude.{◌≡◌, ◌==◌, ◌↔◌, IsTrue};
ghost use Rattle.std.specs.List.{list_all, slice_split};
ghost use Rattle.tocmark_read_scan.specs.PlainParts.{are_plain_parts, begins_plainly, ends_number, goes_on, is_inert, is_plain_byte, is_quiet, last_byte};
ghost use Rattle.tocmark_reader.specs.PlainTexts.{IsPlain, has_plain_bytes, is_plain, is_printable, parts_from, plain_front};

use tocmark_read_scan::basic::{byte_at, rest};

fn is_inert(byte: u8) -> bool
    ensures { result ≡ is_inert byte }
{
    !b"*_[]<`!\\&\n".contains(&byte)
}

fn is_plain_byte(before: u8, byte: u8, behind: u8) -> bool
    ensures { result ≡ is_plain_byte before byte behind }
{
    is_inert(byte)
        || (byte == b'!' && behind != b'[')
        || (byte == b'\\' && !behind.is_ascii_punctuation() && behind != b'\n')
        || (byte == b'_' && before.is_ascii_alphanumeric() && behind.is_ascii_alphanumeric())
}

/// The last byte of the part that a byte begins, and how many bytes of it are after that byte, if it
/// means what it is for.
fn plain_front(before: u8, byte: u8, behind: &[u8]) -> Option<(u8, usize)>
    ensures { result ≡ plain_front before byte behind.now }
{
    let next = byte_at(behind, 0);
    let is_reference = behind.starts_with(b"amp;") || behind.starts_with(b"#32;");
    if byte == b'\\' && next.is_ascii_punctuation() {
        Some((next, 1))
    } else if byte == b'&' && is_reference {
        Some((b';', 4))
    } else if byte == b'\n' {
        if before == b' ' {
            None
        } else {
            Some((b'\n', 0))
        }
    } else if is_plain_byte(before, byte, next) {
        Some((byte, 0))
    } else {
        None
    }
}

#[tactic(auto, using(crate::proofs::PlainSearch::front_passed, crate::proofs::PlainSearch::front_refused))]
fn has_plain_parts(text: &[u8]) -> bool
    ensures { result ≡ are_plain_parts 10 (parts_from 0 text.now) }
{
    let mut before = b'\n';
    let mut left = text;
    while let Some((byte, behind)) = left.split_first() {
        match plain_front(before, *byte, behind) {
            None => return false,
            Some((last, length)) => {
                before = last;
                left = rest(behind, length);
            }
        }
    }
    true
}

fn is_printable(byte: u8) -> bool
    ensures { result ≡ is_printable byte }
{
    b' ' <= byte && byte < 0x7f
}

fn is_quiet(byte: u8) -> bool
    ensures { result ≡ is_quiet byte }
{
    !b" ><*-+=_#`~".contains(&byte) && !byte.is_ascii_digit()
}

fn ends_number(bytes: &[u8]) -> bool
    ensures { result ≡ ends_number bytes.now }
{
    for byte in bytes {
        if !byte.is_ascii_digit() {
            return *byte == b'.' || *byte == b')';
        }
    }
    false
}

fn goes_on(bytes: &[u8]) -> bool
    ensures { result ≡ goes_on bytes.now }
{
    match bytes.first() {
        None => false,
        Some(byte) => !b" -=".contains(byte),
    }
}

fn begins_plainly(line: &[u8]) -> bool
    ensures { result ≡ begins_plainly line.now }
{
    match line.split_first() {
        None => false,
        Some((byte, behind)) => {
            is_quiet(*byte)
                || (byte.is_ascii_digit() && !ends_number(line))
                || (b"-+=".contains(byte) && goes_on(behind))
        }
    }
}

fn are_printable(line: &[u8]) -> bool
    ensures { result ≡ list_all is_printable line.now }
{
    line.iter().all(|byte| is_printable(*byte))
}

#[tactic(auto, using(crate::proofs::PlainSearch::last_found))]
pub(crate) fn last_byte(line: &[u8]) -> u8
    ensures { result ≡ last_byte 10 line.now }
{
    line.last().copied().unwrap_or(b'\n')
}

fn has_plain_bytes(line: &[u8]) -> bool
    ensures { result ≡ has_plain_bytes line.now }
{
    are_printable(line) && begins_plainly(line) && last_byte(line) != b' '
}

fn has_plain_lines(text: &[u8]) -> bool
    ensures { result ≡ list_all has_plain_bytes (slice_split (λ b. b == 10) text.now) }
{
    text.split(|byte| *byte == b'\n').all(has_plain_bytes)
}

/// Whether a text is plain, that is whether `CoreReader` reads it as a paragraph of its lines, each
/// character as itself (the clause `plain` of `read`): the lines are of characters from U+0020 to U+007E,
/// begin no block, don't end with a space, and nothing in them is marked up. A backslash before
/// punctuation, `&amp;` and `&#32;` stand for one character each. The empty text isn't plain.
///
/// ```
/// assert_eq!(rt; is_plain("1\\. a_b\nc &amp; d"), true);
/// assert_eq!(rt; is_plain("1. a *b*"), false);
/// ```
pub fn is_plain(text: &str) -> bool
    ensures value { result ≡ is_plain text.now }
    ensures decided { IsTrue result ↔ IsPlain text.now }
{
    let bytes = text.as_bytes();
    has_plain_parts(bytes) && has_plain_lines(bytes)
}
