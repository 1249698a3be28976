//! What a written text ends with.

ghost use Rattle.std.specs.Prelude.{◌≡◌};
ghost use Rattle.tocmark_spelling.specs.Words.{last_byte};

/// The last byte of a text; 0 where there is none.
pub fn last_byte(text: &str) -> u8
    ensures { result ≡ last_byte text.now }
{
    match text.as_bytes().last() {
        Some(byte) => *byte,
        None => 0,
    }
}
