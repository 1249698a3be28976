//! What is beside a run of delimiters.

ghost use Rattle.std.specs.Prelude.{◌≡◌};
ghost use Rattle.tocmark_read_scan.specs.Side.{is_space, side_of, continuation_bits, code_at, is_continuation, start_before, side_at, side_before};

use crate::basic::{byte_at, character_of};
use unicode::properties::{GeneralCategory, GeneralCategoryGroup};

/// The kind of a character beside a run of delimiters.
#[derive(Clone, Copy)]
pub enum Side {
    /// White space: category Zs, a tab, a line feed, a form feed or a carriage return; both ends of a text.
    Space,
    /// Punctuation: categories P and S.
    Punctuation,
    /// Any other character.
    Other,
}

#[tactic(auto, unfolding(crate::specs::Side::is_space))]
fn is_space(c: char, category: GeneralCategory) -> bool
    ensures { result ≡ is_space c category }
{
    c == '\t'
        || c == '\n'
        || c == '\u{c}'
        || c == '\r'
        || category == GeneralCategory::SpaceSeparator
}

/// The kind of a character.
#[tactic(auto, unfolding(crate::specs::Side::side_of))]
pub fn side_of(c: char) -> Side
    ensures { result ≡ side_of c }
{
    let category = GeneralCategory::for_char(c);
    if is_space(c, category) {
        Side::Space
    } else if GeneralCategoryGroup::Punctuation.contains(category)
        || GeneralCategoryGroup::Symbol.contains(category)
    {
        Side::Punctuation
    } else {
        Side::Other
    }
}

/// The last six bits of the byte at a place.
#[tactic(auto, unfolding(crate::specs::Side::continuation_bits))]
fn continuation_bits(bytes: &[u8], place: usize) -> u32
    ensures { result ≡ continuation_bits bytes.now place }
{
    u32::from(byte_at(bytes, place)) % 64
}

/// The code point of the character that begins at a place of a UTF-8 text.
#[tactic(auto, unfolding(crate::specs::Side::code_at, crate::specs::Side::continuation_bits))]
fn code_at(bytes: &[u8], place: usize) -> u32
    ensures { result ≡ code_at bytes.now place }
{
    let first = u32::from(byte_at(bytes, place));
    let second = continuation_bits(bytes, place.saturating_add(1));
    let third = continuation_bits(bytes, place.saturating_add(2));
    let fourth = continuation_bits(bytes, place.saturating_add(3));
    if first < 128 {
        first
    } else if first < 224 {
        first % 32 * 64 + second
    } else if first < 240 {
        first % 16 * 4096 + second * 64 + third
    } else {
        first % 8 * 262144 + second * 4096 + third * 64 + fourth
    }
}

#[tactic(auto, unfolding(crate::specs::Side::is_continuation))]
fn is_continuation(byte: u8) -> bool
    ensures { result ≡ is_continuation byte }
{
    128 <= byte && byte < 192
}

/// The place where the character before a place begins.
#[tactic(auto, unfolding(crate::specs::Side::start_before))]
fn start_before(bytes: &[u8], place: usize) -> usize
    ensures { result ≡ start_before bytes.now place }
{
    if !is_continuation(byte_at(bytes, place.saturating_sub(1))) {
        place.saturating_sub(1)
    } else if !is_continuation(byte_at(bytes, place.saturating_sub(2))) {
        place.saturating_sub(2)
    } else if !is_continuation(byte_at(bytes, place.saturating_sub(3))) {
        place.saturating_sub(3)
    } else {
        place.saturating_sub(4)
    }
}

/// The kind of the character at a place; the end of the text is white space.
#[tactic(auto, unfolding(crate::specs::Side::side_at))]
pub fn side_at(bytes: &[u8], place: usize) -> Side
    ensures { result ≡ side_at bytes.now place }
{
    side_of(character_of(code_at(bytes, place)))
}

/// The kind of the character before a place; the front of the text is white space.
#[tactic(auto, unfolding(crate::specs::Side::side_before))]
pub fn side_before(bytes: &[u8], place: usize) -> Side
    ensures { result ≡ side_before bytes.now place }
{
    if place == 0 {
        Side::Space
    } else {
        side_at(bytes, start_before(bytes, place))
    }
}
