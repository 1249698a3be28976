//! Arithmetic and look-ups that answer at every argument.

ghost use Rattle.std.specs.Prelude.{◌≡◌, ◌-◌, drop, slice_set};
ghost use Rattle.tocmark_read_scan.specs.Basic.{byte_at, bytes_between, starts_at, character_of};

/// The byte at a place; a line feed past the end.
pub fn byte_at(bytes: &[u8], place: usize) -> u8
    ensures { result ≡ byte_at bytes.now place }
{
    bytes.get(place).copied().unwrap_or(b'\n')
}

/// The bytes from a place on.
pub fn rest(bytes: &[u8], place: usize) -> &[u8]
    ensures { result.now ≡ drop place bytes.now }
{
    if place <= bytes.len() {
        &bytes[place..]
    } else {
        &[]
    }
}

/// The bytes from one place to before another; none where the places are no range of the text.
pub fn bytes_between(bytes: &[u8], start: usize, end: usize) -> &[u8]
    ensures { result.now ≡ bytes_between bytes.now start end }
{
    if start <= end && end <= bytes.len() {
        &bytes[start..end]
    } else {
        &[]
    }
}

/// Whether a word is at a place.
#[tactic(auto, unfolding(crate::specs::Basic::starts_at))]
pub fn starts_at(bytes: &[u8], place: usize, word: &[u8]) -> bool
    ensures { result ≡ starts_at bytes.now place word.now }
{
    rest(bytes, place).starts_with(word)
}

/// Writes an item at a place; nothing where the list is shorter.
pub fn set<T: Drop>(items: &mut Vec<T>, place: usize, item: T)
    ensures { items.new.items ≡ slice_set items.old.items place item }
{
    if place < items.len() {
        items[place] = item;
    }
}

/// The character of a code point; U+FFFD where there is none.
#[tactic(auto, unfolding(crate::specs::Basic::character_of))]
pub fn character_of(code: u32) -> char
    ensures { result ≡ character_of code }
{
    match char::from_u32(code) {
        Some(c) => c,
        None => '\u{FFFD}',
    }
}
