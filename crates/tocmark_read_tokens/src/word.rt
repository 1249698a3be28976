//! Link labels, destinations, titles and reference definitions.

ghost use Rattle.std.specs.Prelude.{◌≡◌, false, drop};
ghost use Rattle.tocmark_read_tokens.specs.Word.{stops, ends_enclosed, closing_of, escapes, enclosed_end, enclosed, ends_bare, depth_after, bare, bare_word, enclosed_word, destination, enclosure_of, title, character_count, has_ink, is_label_text, label_from, label, line_end, title_on_line, untitled, titled, defined_destination, defined_label, definition_at};

use tocmark_read_scan::basic::{byte_at, bytes_between, rest};
use tocmark_read_scan::class::{Class, is_in, run_end};

/// What is round a word.
#[derive(Clone, Copy)]
pub enum Enclosure {
    /// `<` and `>`
    Angled,
    /// `"` and `"`
    DoubleQuoted,
    /// `'` and `'`
    SingleQuoted,
    /// `(` and `)`
    Parenthesized,
    /// `[` and `]`
    Bracketed,
}

/// A word of a text: its bytes without what is round it, and the place after all of it.
#[derive(Clone, Copy)]
pub struct Word {
    pub start: usize,
    pub end: usize,
    pub next: usize,
}

/// A link reference definition: the title is empty where there is none; `next` is the place after
/// its last line ending.
#[derive(Clone, Copy)]
pub struct Definition {
    pub label: Word,
    pub destination: Word,
    pub title: Word,
    pub next: usize,
}

/// Whether a byte that isn't escaped ends what is enclosed so, rightly or wrongly.
#[tactic(auto, unfolding(crate::specs::Word::stops))]
fn stops(kind: Enclosure, byte: u8) -> bool
    ensures { result ≡ stops kind byte }
{
    match kind {
        Enclosure::Angled => byte == b'<' || byte == b'>' || byte == b'\n',
        Enclosure::DoubleQuoted => byte == b'"',
        Enclosure::SingleQuoted => byte == b'\'',
        Enclosure::Parenthesized => byte == b'(' || byte == b')',
        Enclosure::Bracketed => byte == b'[' || byte == b']',
    }
}

#[tactic(auto, unfolding(crate::specs::Word::closing_of))]
fn closing_of(kind: Enclosure) -> u8
    ensures { result ≡ closing_of kind }
{
    match kind {
        Enclosure::Angled => b'>',
        Enclosure::DoubleQuoted => b'"',
        Enclosure::SingleQuoted => b'\'',
        Enclosure::Parenthesized => b')',
        Enclosure::Bracketed => b']',
    }
}

/// Whether a byte ends what is enclosed so, rightly or wrongly, after an escaping backslash or not.
#[tactic(auto, unfolding(crate::specs::Word::ends_enclosed))]
fn ends_enclosed(kind: Enclosure, escaped: bool, byte: u8) -> bool
    ensures { result ≡ ends_enclosed kind escaped byte }
{
    stops(kind, byte) && !(escaped && byte.is_ascii_punctuation())
}

/// Whether a byte is a backslash that escapes what is after it.
#[tactic(auto, unfolding(crate::specs::Word::escapes))]
fn escapes(escaped: bool, byte: u8) -> bool
    ensures { result ≡ escapes escaped byte }
{
    !escaped && byte == b'\\'
}

/// The place of the first byte from a place on that isn't escaped and ends what is enclosed so; the
/// end of the text where there is none.
fn enclosed_end(bytes: &[u8], from: usize, kind: Enclosure) -> usize
    ensures { result ≡ enclosed_end kind false from (drop from bytes.now) }
{
    let mut escaped = false;
    let mut place = from;
    for byte in rest(bytes, from) {
        if ends_enclosed(kind, escaped, *byte) {
            return place;
        }
        escaped = escapes(escaped, *byte);
        place = place.saturating_add(1);
    }
    place
}

/// The place of the byte that closes what began before a place.
#[tactic(auto, unfolding(crate::specs::Word::enclosed))]
pub fn enclosed(bytes: &[u8], from: usize, kind: Enclosure) -> Option<usize>
    ensures { result ≡ enclosed bytes.now from kind }
{
    let end = enclosed_end(bytes, from, kind);
    if byte_at(bytes, end) == closing_of(kind) {
        Some(end)
    } else {
        None
    }
}

/// Whether a byte ends a destination without brackets, at so many open parentheses: 32 is the most. Most
/// bytes are after a parenthesis, and end none.
#[tactic(auto, unfolding(crate::specs::Word::ends_bare))]
fn ends_bare(depth: usize, escaped: bool, byte: u8) -> bool
    ensures { result ≡ ends_bare depth escaped byte }
{
    if byte > b')' {
        return byte == 0x7f;
    }
    let paren = byte == b')' && depth == 0 || byte == b'(' && depth >= 32;
    byte <= b' ' || paren && !escaped
}

#[tactic(auto, unfolding(crate::specs::Word::depth_after))]
fn depth_after(depth: usize, escaped: bool, byte: u8) -> usize
    ensures { result ≡ depth_after depth escaped byte }
{
    if escaped {
        depth
    } else if byte == b'(' {
        depth.saturating_add(1)
    } else if byte == b')' {
        depth.saturating_sub(1)
    } else {
        depth
    }
}

/// The open parentheses at the end of a destination without brackets, and that end.
fn bare(bytes: &[u8], from: usize) -> (usize, usize)
    ensures { result ≡ bare 0 false from (drop from bytes.now) }
{
    let mut depth = 0;
    let mut escaped = false;
    let mut place = from;
    for byte in rest(bytes, from) {
        if ends_bare(depth, escaped, *byte) {
            return (depth, place);
        }
        depth = depth_after(depth, escaped, *byte);
        escaped = escapes(escaped, *byte);
        place = place.saturating_add(1);
    }
    (depth, place)
}

#[tactic(auto, unfolding(crate::specs::Word::bare_word))]
fn bare_word(bytes: &[u8], from: usize) -> Option<Word>
    ensures { result ≡ bare_word bytes.now from }
{
    let (depth, end) = bare(bytes, from);
    if depth == 0 {
        Some(Word {
            start: from,
            end,
            next: end,
        })
    } else {
        None
    }
}

/// What is enclosed so after the byte at a place.
#[tactic(auto, unfolding(crate::specs::Word::enclosed_word))]
fn enclosed_word(bytes: &[u8], place: usize, kind: Enclosure) -> Option<Word>
    ensures { result ≡ enclosed_word bytes.now place kind }
{
    let start = place.saturating_add(1);
    let end = enclosed(bytes, start, kind)?;
    Some(Word {
        start,
        end,
        next: end.saturating_add(1),
    })
}

/// The link destination at a place, in angle brackets or bare; a bare one may be empty. Parentheses
/// nest 32 deep at most.
#[tactic(auto, unfolding(crate::specs::Word::destination))]
pub fn destination(bytes: &[u8], place: usize) -> Option<Word>
    ensures { result ≡ destination bytes.now place }
{
    if byte_at(bytes, place) == b'<' {
        enclosed_word(bytes, place, Enclosure::Angled)
    } else {
        bare_word(bytes, place)
    }
}

/// What a byte encloses as the first of a title.
#[tactic(auto, unfolding(crate::specs::Word::enclosure_of))]
fn enclosure_of(byte: u8) -> Option<Enclosure>
    ensures { result ≡ enclosure_of byte }
{
    if byte == b'"' {
        Some(Enclosure::DoubleQuoted)
    } else if byte == b'\'' {
        Some(Enclosure::SingleQuoted)
    } else if byte == b'(' {
        Some(Enclosure::Parenthesized)
    } else {
        None
    }
}

/// The link title at a place, in double quotes, single quotes or parentheses.
#[tactic(auto, unfolding(crate::specs::Word::title))]
pub fn title(bytes: &[u8], place: usize) -> Option<Word>
    ensures { result ≡ title bytes.now place }
{
    let kind = enclosure_of(byte_at(bytes, place))?;
    enclosed_word(bytes, place, kind)
}

/// The number of characters of a text: its bytes but those after the first of a character.
fn character_count(text: &[u8]) -> usize
    ensures { result ≡ character_count text.now }
{
    text.iter()
        .filter(|byte| !(128 <= **byte && **byte < 192))
        .count()
}

fn has_ink(text: &[u8]) -> bool
    ensures { result ≡ has_ink text.now }
{
    text.iter().any(|byte| !is_in(Class::White, *byte))
}

/// Whether a text without brackets can be a link label: at most 999 characters, and not all white.
#[tactic(auto, unfolding(crate::specs::Word::is_label_text))]
fn is_label_text(text: &[u8]) -> bool
    ensures { result ≡ is_label_text text.now }
{
    character_count(text) <= 999 && has_ink(text)
}

/// The label that begins at a place, after its bracket, and ends before the bracket that closes it.
#[tactic(auto, unfolding(crate::specs::Word::label_from))]
pub fn label_from(bytes: &[u8], start: usize) -> Option<Word>
    ensures { result ≡ label_from bytes.now start }
{
    let end = enclosed(bytes, start, Enclosure::Bracketed)?;
    if is_label_text(bytes_between(bytes, start, end)) {
        Some(Word {
            start,
            end,
            next: end.saturating_add(1),
        })
    } else {
        None
    }
}

/// The link label in brackets at a place.
#[tactic(auto, unfolding(crate::specs::Word::label))]
pub fn label(bytes: &[u8], place: usize) -> Option<Word>
    ensures { result ≡ label bytes.now place }
{
    if byte_at(bytes, place) == b'[' {
        label_from(bytes, place.saturating_add(1))
    } else {
        None
    }
}

/// The place after the line ending at a place, with the spaces and tabs before it. The end of the
/// text ends a line, too.
#[tactic(auto, unfolding(crate::specs::Word::line_end))]
fn line_end(bytes: &[u8], place: usize) -> Option<usize>
    ensures { result ≡ line_end bytes.now place }
{
    let end = run_end(bytes, place, Class::Blank);
    if byte_at(bytes, end) == b'\n' {
        Some(end.saturating_add(1).min(bytes.len()))
    } else {
        None
    }
}

/// The title after white space at a place, where nothing else follows on its line; with the place
/// after that line.
#[tactic(auto, unfolding(crate::specs::Word::title_on_line))]
fn title_on_line(bytes: &[u8], place: usize) -> Option<(Word, usize)>
    ensures { result ≡ title_on_line bytes.now place }
{
    let start = run_end(bytes, place, Class::White);
    if start == place {
        return None;
    }
    let word = title(bytes, start)?;
    let next = line_end(bytes, word.next)?;
    Some((word, next))
}

/// No title, at a place.
#[tactic(auto, unfolding(crate::specs::Word::untitled))]
fn untitled(bytes: &[u8], place: usize) -> Option<(Word, usize)>
    ensures { result ≡ untitled bytes.now place }
{
    let next = line_end(bytes, place)?;
    Some((
        Word {
            start: place,
            end: place,
            next: place,
        },
        next,
    ))
}

/// The title of a definition and the place after the definition.
#[tactic(auto, unfolding(crate::specs::Word::titled))]
fn titled(bytes: &[u8], place: usize) -> Option<(Word, usize)>
    ensures { result ≡ titled bytes.now place }
{
    match title_on_line(bytes, place) {
        Some(found) => Some(found),
        None => untitled(bytes, place),
    }
}

/// The destination of a definition after its colon; it isn't empty unless it has brackets.
#[tactic(auto, unfolding(crate::specs::Word::defined_destination))]
fn defined_destination(bytes: &[u8], place: usize) -> Option<Word>
    ensures { result ≡ defined_destination bytes.now place }
{
    let start = run_end(bytes, place, Class::White);
    let word = destination(bytes, start)?;
    if word.next == start { None } else { Some(word) }
}

/// The label of a definition, with a colon after it.
#[tactic(auto, unfolding(crate::specs::Word::defined_label))]
fn defined_label(bytes: &[u8], place: usize) -> Option<Word>
    ensures { result ≡ defined_label bytes.now place }
{
    let word = label(bytes, place)?;
    if byte_at(bytes, word.next) == b':' {
        Some(word)
    } else {
        None
    }
}

/// The link reference definition at a place of a paragraph's text, whose lines are joined by line
/// feeds and have no leading white space.
#[tactic(auto, unfolding(crate::specs::Word::definition_at))]
pub fn definition_at(bytes: &[u8], place: usize) -> Option<Definition>
    ensures { result ≡ definition_at bytes.now place }
{
    let label = defined_label(bytes, place)?;
    let destination = defined_destination(bytes, label.next.saturating_add(1))?;
    let (title, next) = titled(bytes, destination.next)?;
    Some(Definition {
        label,
        destination,
        title,
        next,
    })
}
