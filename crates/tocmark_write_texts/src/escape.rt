//! How a stretch of text is written, so that it is read back as that text.

ghost use Rattle.std.specs.Prelude.{◌≡◌, ◌++◌, ◌∷◌, [], ◌&&◌, if◌then◌else◌, is_ok, chars, drop, encode_utf8_all, string_bytes, take, false, IfOk, OnOk};
ghost use Rattle.std.specs.Char.{is_ascii_digit};
ghost use Rattle.std.specs.List.{prefix_len};
ghost use Rattle.tocmark_event.specs.View.{event_view};
ghost use Rattle.std.specs.Option.{option_map, option_map_or};
ghost use Rattle.tocmark_write_texts.specs.Bare.{is_mark, is_bare, bare_size, last_of};
ghost use Rattle.tocmark_write_texts.specs.Characters.{backslash, is_alphanumeric};
ghost use Rattle.tocmark_write_texts.specs.Texts.{Begins, Pushes};
ghost use Rattle.tocmark_write_texts.specs.Escape.{place_of, has, spot_from, escaped, written, reference, coded, with_backslash, needs_backslash, is_read_as_marker, is_literal, is_encoded, is_marker, is_alone, ends_line, goes_on_marker, doubles_backslash, opens_superscript, opens_emphasis, opens_cell, opens_heading, opens_label, is_own_token};

use bitflags::Flags;
use std::alloc::{AllocError, Global};
use tocmark_event::event::{EventOf, OwnedEvent, ParserOptions, TagOf};
use ucd_category::{GeneralCategory, GeneralCategoryGroup};
use ucd_derived::is_alphabetic;

/// Where a stretch of text is, and what is round it.
#[derive(Clone, Copy)]
pub struct EscapeSurroundings<'a> {
    /// The extensions that are read.
    pub flags: ParserOptions,
    /// The marker of emphasis.
    pub token: char,
    /// Whether `*`, `_`, `~`, `^` and `$` stay as they are.
    pub literal: bool,
    /// Whether the first character is written as a reference, if it is no white space.
    pub first_encoded: bool,
    /// Whether the last character is written as a reference, if it is no white space.
    pub last_encoded: bool,
    /// Whether the stretch is at the front of a line or of a container.
    pub at_front: bool,
    /// Whether it is in a table.
    pub in_table: bool,
    /// Whether it is in a heading.
    pub in_heading: bool,
    /// The event after it.
    pub next: Option<&'a OwnedEvent>,
}

/// A character of a stretch, and what is round it there.
#[derive(Clone, Copy)]
pub struct Spot {
    pub character: char,
    /// The character before it; none at the first.
    pub before: Option<char>,
    /// Whether ASCII digits, one or more, and nothing else are before it.
    pub after_digits: bool,
    /// The character after it; none at the last.
    pub after: Option<char>,
    /// Whether at most one character is after it.
    pub before_last: bool,
}

/// Whether a character is an ASCII letter or digit, or past ASCII alphabetic or a number.
#[tactic(auto, unfolding(crate::specs::Characters::is_alphanumeric))]
pub fn is_alphanumeric(c: char) -> bool
    ensures { result ≡ is_alphanumeric c }
{
    if c.is_ascii() {
        c.is_ascii_alphanumeric()
    } else {
        is_alphabetic(c) || GeneralCategoryGroup::Number.contains(GeneralCategory::for_char(c))
    }
}

fn spot_from(before: Option<char>, only_digits: bool, character: char, after: &str) -> Spot
    ensures { result ≡ spot_from before only_digits character (chars after.now) }
{
    let mut rest = after.chars();
    let next = rest.next();
    let before_last = rest.next().is_none();
    Spot {
        character,
        before,
        after_digits: before.is_some() && only_digits,
        after: next,
        before_last,
    }
}

/// Whether nothing more of the line follows a stretch before this event.
#[tactic(auto, unfolding(crate::specs::Escape::ends_line))]
fn ends_line(next: Option<&OwnedEvent>) -> bool
    ensures { result ≡ ends_line (option_map (λ e. event_view string_bytes e.now) next.entry) }
{
    match next {
        None => true,
        Some(EventOf::End(_)) => true,
        Some(EventOf::SoftBreak) => true,
        Some(EventOf::HardBreak) => true,
        Some(_) => false,
    }
}

/// Whether this event begins with a bracket.
#[tactic(auto, unfolding(crate::specs::Escape::opens_label))]
fn opens_label(next: Option<&OwnedEvent>) -> bool
    ensures { result ≡ opens_label (option_map (λ e. event_view string_bytes e.now) next.entry) }
{
    match next {
        Some(EventOf::Start(TagOf::Link { .. })) => true,
        Some(EventOf::Start(TagOf::Image { .. })) => true,
        Some(EventOf::FootnoteReference(_)) => true,
        _ => false,
    }
}

/// Whether a character may be after the marker of a block.
fn goes_on_marker(c: char) -> bool
    ensures { result ≡ goes_on_marker c }
{
    c.is_ascii_whitespace() || matches!(c, '-' | '+' | '=')
}

/// Whether the marker of a block could be read at this character.
#[tactic(auto, unfolding(crate::specs::Escape::is_marker))]
fn is_marker(place: &EscapeSurroundings<'_>, spot: Spot) -> bool
    ensures { result ≡ is_marker (place_of place.now) spot }
{
    let begins_block = spot.before.is_none() && place.at_front && !place.in_table;
    let is_alone = match spot.after {
        Some(c) => goes_on_marker(c),
        None => ends_line(place.next),
    };
    begins_block && is_alone
}

#[tactic(auto, unfolding(crate::specs::Escape::doubles_backslash))]
fn doubles_backslash(place: &EscapeSurroundings<'_>, spot: Spot) -> bool
    ensures { result ≡ doubles_backslash (place_of place.now) spot }
{
    match spot.after {
        None => true,
        Some(c) => {
            let is_encoded = spot.before_last && place.last_encoded && !c.is_whitespace();
            c.is_ascii_punctuation() || c == '\n' || c == '\r' || is_encoded
        }
    }
}

fn is_alphanumeric_at(c: Option<char>) -> bool
    ensures { result ≡ option_map_or is_alphanumeric c false }
{
    match c {
        Some(c) => is_alphanumeric(c),
        None => false,
    }
}

/// Whether Markdown could read the character as a marker.
#[tactic(auto, unfolding(crate::specs::Escape::is_read_as_marker))]
fn is_read_as_marker(place: &EscapeSurroundings<'_>, spot: Spot) -> bool
    ensures { result ≡ is_read_as_marker (place_of place.now) spot }
{
    let is_first = spot.before.is_none();
    match spot.character {
        '*' | '[' | ']' | '<' | '~' | '`' => true,
        '\\' => doubles_backslash(place, spot),
        '>' => is_first && !place.in_table,
        '^' => {
            place.flags.contains(ParserOptions::ENABLE_SUPERSCRIPT)
                || !is_alphanumeric_at(spot.before)
        }
        '$' => place.flags.contains(ParserOptions::ENABLE_MATH),
        ':' => {
            is_marker(place, spot) && place.flags.contains(ParserOptions::ENABLE_DEFINITION_LIST)
        }
        '{' => {
            place.in_heading
                && place
                    .flags
                    .contains(ParserOptions::ENABLE_HEADING_ATTRIBUTES)
        }
        '_' => !(is_alphanumeric_at(spot.before) && is_alphanumeric_at(spot.after)),
        '|' => is_first || place.in_table || place.flags.contains(ParserOptions::ENABLE_TABLES),
        '#' => (is_first && !place.in_table) || place.in_heading,
        '-' | '+' | '=' => is_marker(place, spot),
        '.' | ')' => !place.in_table && spot.after_digits,
        '!' => spot.after.is_none() && opens_label(place.next),
        _ => false,
    }
}

#[tactic(auto, unfolding(crate::specs::Escape::needs_backslash))]
fn needs_backslash(place: &EscapeSurroundings<'_>, spot: Spot) -> bool
    ensures { result ≡ needs_backslash (place_of place.now) spot }
{
    let c = spot.character;
    is_read_as_marker(place, spot) || (c == place.token && !matches!(c, '*' | '_'))
}

fn is_literal(place: &EscapeSurroundings<'_>, c: char) -> bool
    ensures { result ≡ is_literal (place_of place.now) c }
{
    place.literal && matches!(c, '*' | '_' | '~' | '^' | '$')
}

fn is_encoded(place: &EscapeSurroundings<'_>, spot: Spot) -> bool
    ensures { result ≡ is_encoded (place_of place.now) spot }
{
    let is_first = spot.before.is_none() && place.first_encoded;
    let is_last = spot.after.is_none() && place.last_encoded;
    (is_first || is_last) && !spot.character.is_whitespace()
}

/// The reference that stands for a line ending, an ampersand, or a blank at the front.
#[tactic(auto, unfolding(crate::specs::Escape::reference))]
fn reference(place: &EscapeSurroundings<'_>, spot: Spot) -> Option<&'static str>
    ensures { option_map (λ r. r.now) result ≡ reference (place_of place.now) spot }
{
    let is_front = spot.before.is_none() && place.at_front;
    match spot.character {
        '\n' => Some("&#10;"),
        '\r' => Some("&#13;"),
        '&' => Some("&amp;"),
        ' ' if is_front => Some("&#32;"),
        '\t' if is_front => Some("&#9;"),
        _ => None,
    }
}

/// Whether all is digits, with one more character.
fn is_digits(only_digits: bool, c: char) -> bool
    ensures { result ≡ (is_ascii_digit c && only_digits) }
{
    c.is_ascii_digit() && only_digits
}

/// The reference that stands for a character by its code.
#[tactic(auto, using(crate::proofs::EscapeLemmas::encoded_code), unfolding(crate::specs::Escape::coded))]
fn code_reference(alloc: Global, c: char) -> Result<String, AllocError>
    ensures { IfOk result (λ reference. string_bytes reference ≡ encode_utf8_all (coded c)) }
{
    let code = u32::from(c);
    format!(in alloc; "&#{code};")
}

fn push_code(to: &mut String, c: char) -> Result<(), AllocError>
    ensures { Pushes result (string_bytes to.old)
        (encode_utf8_all (coded c)) (string_bytes to.new) }
{
    let reference = code_reference(*to.allocator(), c)?;
    to.push_str(reference.as_str())
}

/// Writes a character after a backslash.
fn push_behind_backslash(to: &mut String, c: char) -> Result<(), AllocError>
    ensures { Pushes result (string_bytes to.old)
        (encode_utf8_all (backslash ∷ c ∷ [])) (string_bytes to.new) }
{
    let length = to.len();
    to.push('\\')?;
    let pushed = to.push(c);
    if pushed.is_err() {
        to.truncate(length);
    }
    pushed
}

#[tactic(auto, using(crate::proofs::EscapeLemmas::encoded_one), unfolding(crate::specs::Escape::with_backslash))]
fn push_with_backslash(
    to: &mut String,
    place: &EscapeSurroundings<'_>,
    spot: Spot,
) -> Result<(), AllocError>
    ensures { Pushes result (string_bytes to.old)
        (encode_utf8_all (with_backslash (place_of place.now) spot)) (string_bytes to.new) }
{
    if needs_backslash(place, spot) {
        return push_behind_backslash(to, spot.character);
    }
    to.push(spot.character)
}

/// Writes one character by the first rule that applies.
#[tactic(auto, using(crate::proofs::EscapeLemmas::encoded_one), unfolding(crate::specs::Escape::written))]
fn push_character(
    to: &mut String,
    place: &EscapeSurroundings<'_>,
    spot: Spot,
) -> Result<(), AllocError>
    ensures { Pushes result (string_bytes to.old)
        (encode_utf8_all (written (place_of place.now) spot)) (string_bytes to.new) }
{
    if is_literal(place, spot.character) {
        return to.push(spot.character);
    }
    if is_encoded(place, spot) {
        return push_code(to, spot.character);
    }
    match reference(place, spot) {
        Some(reference) => to.push_str(reference),
        None => push_with_backslash(to, place, spot),
    }
}

// Each mark is at its own place, and a comma at every other place.
static MARKS: [u8; 256] = *b"\
    ,,,,,,,,,,\n,,\r,,,,,,,,,,,,,,,,,,\
    ,!,#$,&,,,*,,,,,,,,,,,,,,,,,<,,,\
    ,,,,,,,,,,,,,,,,,,,,,,,,,,,[\\]^_\
    `,,,,,,,,,,,,,,,,,,,,,,,,,,{|,~,\
    ,,,,,,,,,,,,,,,,,,,,,,,,,,,,,,,,\
    ,,,,,,,,,,,,,,,,,,,,,,,,,,,,,,,,\
    ,,,,,,,,,,,,,,,,,,,,,,,,,,,,,,,,\
    ,,,,,,,,,,,,,,,,,,,,,,,,,,,,,,,,";

/// Whether a byte after another character could be part of a marker, or is written as a reference.
fn is_mark(byte: u8) -> bool
    ensures { result ≡ is_mark byte }
{
    MARKS[byte as usize] != b','
}

/// How many bytes at the front of a text are no marks.
fn bare_front(bytes: &[u8]) -> usize
    ensures { result ≡ prefix_len is_bare bytes.now }
{
    bytes.iter().take_while(|byte| !is_mark(**byte)).count()
}

/// How many bytes at the front of a text stand for themselves after another character: none after
/// digits alone, before what may be encoded, or where emphasis has a marker of its own.
fn bare_size(place: &EscapeSurroundings<'_>, only_digits: bool, text: &str) -> usize
    ensures { result ≡ bare_size (place_of place.now) only_digits text.now }
{
    if only_digits || place.last_encoded || !matches!(place.token, '*' | '_') {
        0
    } else {
        bare_front(text.as_bytes())
    }
}

/// The run of these bytes, and the rest of the text.
fn cut_bare<'a>(
    place: &EscapeSurroundings<'_>,
    only_digits: bool,
    text: &'a str,
) -> (&'a str, &'a str)
    ensures front { let size = bare_size (place_of place.now) only_digits text.now in
        result.0.now ≡ take size text.now }
    ensures back { let size = bare_size (place_of place.now) only_digits text.now in
        result.1.now ≡ drop size text.now }
{
    text.split_at(bare_size(place, only_digits, text))
}

/// Writes a run as it is; after most marks there is none.
fn push_run(to: &mut String, run: &str) -> Result<(), AllocError>
    ensures { Pushes result (string_bytes to.old) run.now (string_bytes to.new) }
{
    if run.is_empty() {
        return Ok(());
    }
    to.push_str(run)
}

/// The last one of a character and those of a text after it.
fn last_of(character: char, text: &str) -> char
    ensures { result ≡ last_of character (chars text.now) }
{
    match text.chars().next_back() {
        Some(last) => last,
        None => character,
    }
}

/// Appends an escaped text. After an error, a front of it is appended.
fn push_characters(
    to: &mut String,
    text: &str,
    place: &EscapeSurroundings<'_>,
) -> Result<(), AllocError>
    ensures bytes { OnOk result (string_bytes to.new
        ≡ string_bytes to.old ++ escaped (place_of place.now) text.now) }
    ensures front { Begins (string_bytes to.old) (string_bytes to.new) }
{
    to.reserve(text.len())?;
    let mut before = None;
    let mut only_digits = true;
    let mut rest = text.chars();
    while let Some(character) = rest.next() {
        let after = rest.as_str();
        let spot = spot_from(before, only_digits, character, after);
        push_character(to, place, spot)?;
        only_digits = is_digits(only_digits, character);
        let (run, tail) = cut_bare(place, only_digits, after);
        push_run(to, run)?;
        before = Some(last_of(character, run));
        rest = tail.chars();
    }
    Ok(())
}

/// Appends to a `String` what `escape_text` returns for a text. If memory runs out, the `String` keeps
/// what it held.
pub fn push_escaped(
    to: &mut String,
    text: &str,
    place: &EscapeSurroundings<'_>,
) -> Result<(), AllocError>
    ensures bytes { string_bytes to.new ≡ (if is_ok result
        then string_bytes to.old ++ escaped (place_of place.now) text.now
        else string_bytes to.old) }
{
    let length = to.len();
    let pushed = push_characters(to, text, place);
    if pushed.is_err() {
        to.truncate(length);
    }
    pushed
}

/// A stretch of text as it is written at its place, so that it is read back as that text.
///
/// Line endings and ampersands become references, and so do a blank at the front and, where the place
/// asks for it, the first and the last character. What could be read as a marker there has a backslash
/// before it. It fails only if memory runs out.
pub fn escape_text(
    alloc: Global,
    text: &str,
    place: &EscapeSurroundings<'_>,
) -> Result<String, AllocError>
    ensures { IfOk result (λ s. string_bytes s ≡ escaped (place_of place.now) text.now) }
{
    let mut escaped = String::new(alloc);
    push_escaped(&mut escaped, text, place)?;
    Ok(escaped)
}
