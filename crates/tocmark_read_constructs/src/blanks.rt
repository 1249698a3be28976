//! Spaces and tabs.

ghost use Rattle.std.specs.Prelude.{◌≡◌, ◌==◌, length, take_while, ◌||◌, reverse};
ghost use Rattle.tocmark_read_constructs.specs.Blanks.{behind_spaces, behind_blanks};

use tocmark_read_scan::basic::rest;

fn spaces_in(bytes: &[u8]) -> usize
    ensures { result ≡ length (take_while (λ b. b == 32) bytes.now) }
{
    bytes.iter().take_while(|byte| **byte == b' ').count()
}

fn blanks_in(bytes: &[u8]) -> usize
    ensures { result ≡ length (take_while (λ b. (b == 32) || (b == 9)) bytes.now) }
{
    bytes
        .iter()
        .take_while(|byte| **byte == b' ' || **byte == b'\t')
        .count()
}

/// The place after the spaces from one on.
pub(crate) fn behind_spaces(text: &[u8], place: usize) -> usize
    ensures { result ≡ behind_spaces text.now place }
{
    place.saturating_add(spaces_in(rest(text, place)))
}

/// The place after the spaces and tabs from one on.
pub(crate) fn behind_blanks(text: &[u8], place: usize) -> usize
    ensures { result ≡ behind_blanks text.now place }
{
    place.saturating_add(blanks_in(rest(text, place)))
}

/// The number of spaces and tabs at the end.
pub(crate) fn trailing_blanks(bytes: &[u8]) -> usize
    ensures { result ≡ length (take_while (λ b. (b == 32) || (b == 9)) (reverse bytes.now)) }
{
    bytes
        .iter()
        .rev()
        .take_while(|byte| **byte == b' ' || **byte == b'\t')
        .count()
}
