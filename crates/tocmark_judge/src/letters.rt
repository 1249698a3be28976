//! The letters of a text, which need no reader.

ghost use Rattle.std.specs.Prelude.{◌≡◌, ◌↔◌, ◌∷◌, [], IsTrue, MatchOption};
ghost use Rattle.tocmark_judge.specs.Letters.{is_letter, letters};

/// Whether a byte is an ASCII letter or belongs to a character past ASCII.
fn is_letter(byte: u8) -> bool
    ensures { result ≡ is_letter byte }
{
    byte.is_ascii_alphabetic() || !byte.is_ascii()
}

/// The first letter, and the bytes after it.
fn next_letter(bytes: &[u8]) -> Option<(u8, &[u8])>
    ensures { MatchOption result (letters bytes.now ≡ [])
        (λ found. letters bytes.now ≡ found.0 ∷ letters found.1.now) }
{
    let mut left = bytes;
    while let Some((byte, rest)) = left.split_first() {
        if is_letter(*byte) {
            return Some((*byte, rest));
        }
        left = rest;
    }
    None
}

/// Whether two texts have the same letters, in the same order.
pub fn have_same_letters(one: &str, other: &str) -> bool
    ensures { IsTrue result ↔ (letters one.now ≡ letters other.now) }
{
    let mut first = one.as_bytes();
    let mut second = other.as_bytes();
    while let Some((letter, rest)) = next_letter(first) {
        let Some((found, behind)) = next_letter(second) else {
            return false;
        };
        if found != letter {
            return false;
        }
        first = rest;
        second = behind;
    }
    next_letter(second).is_none()
}
