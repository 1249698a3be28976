//! Whether two texts have the same letters, which needs no reader, and where they first differ.

ghost use Rattle.std.specs.Prelude.{◌≡◌, ◌≢◌, ◌↔◌, [], IfOk};
ghost use Rattle.tocmark_differences.specs.Said.{HaveSameLetters};

use crate::compare::after_mark;
use crate::difference::{Difference, Kind};
use crate::marks::line_starts;
use std::alloc::{AllocError, Global};
use tocmark_judge::letters::have_same_letters;

/// How many characters before the first differing letter are shown, and how many from it on.
const SHOWN: (usize, usize) = (20, 40);

/// Whether a byte is an ASCII letter or belongs to a character past ASCII.
fn is_letter(byte: u8) -> bool {
    byte.is_ascii_alphabetic() || !byte.is_ascii()
}

/// The place of the first letter from this place on; the end, if there is none.
fn letter_from(text: &[u8], from: usize) -> usize {
    for at in from..text.len() {
        match text.get(at) {
            Some(byte) if is_letter(*byte) => return at,
            _ => {}
        }
    }
    text.len()
}

/// Where the letters of two texts first differ: at a letter, or at the end of the text that has no more letters.
fn parting(old: &[u8], new: &[u8]) -> (usize, usize) {
    let (mut was, mut is) = (letter_from(old, 0), letter_from(new, 0));
    for _ in 0..old.len() {
        if was >= old.len() || old.get(was).copied() != new.get(is).copied() {
            break;
        }
        was = letter_from(old, was.saturating_add(1));
        is = letter_from(new, is.saturating_add(1));
    }
    (was, is)
}

/// Where the character begins that has this byte.
fn character_start(text: &str, at: usize) -> usize {
    for back in 0..4usize {
        let start = at.saturating_sub(back);
        if text.is_char_boundary(start) {
            return start;
        }
    }
    at
}

/// Where the letters before this place end.
fn end_of_letters(text: &[u8], at: usize) -> usize {
    let front = text.get(..at).unwrap_or(&[]);
    let mut end = at;
    for byte in front.iter().rev() {
        if is_letter(*byte) {
            break;
        }
        end = end.saturating_sub(1);
    }
    end
}

/// Whether a place is inside a word.
fn is_in_word(text: &str, at: usize) -> bool {
    let before = text.get(..at).unwrap_or("").chars().next_back();
    let after = text.get(at..).unwrap_or("").chars().next();
    match (before, after) {
        (Some(one), Some(other)) => !one.is_whitespace() && !other.is_whitespace(),
        _ => false,
    }
}

/// The place after the white space at this place.
fn after_white(text: &str, at: usize) -> usize {
    let mut end = at;
    for c in text.get(at..).unwrap_or("").chars() {
        if !c.is_whitespace() {
            break;
        }
        end = end.saturating_add(c.len_utf8());
    }
    end
}

/// The bytes of the word round this place, as far as they are near.
fn word_round(text: &str, at: usize) -> (usize, usize) {
    let (mut from, mut to) = (at, at);
    for c in text.get(..at).unwrap_or("").chars().rev().take(SHOWN.0) {
        if c.is_whitespace() {
            break;
        }
        from = from.saturating_sub(c.len_utf8());
    }
    for c in text.get(at..).unwrap_or("").chars().take(SHOWN.1) {
        if c.is_whitespace() {
            break;
        }
        to = to.saturating_add(c.len_utf8());
    }
    (from, to)
}

/// The bytes of the word at a place, or of the next one, unless the other text goes on inside a word.
fn word_at(text: &str, at: usize, is_inside: bool) -> (usize, usize) {
    if is_inside {
        return word_round(text, at);
    }
    let start = after_white(text, at);
    if start >= text.len() {
        return (start, start);
    }
    word_round(text, start)
}

/// The words round the place after the last common letter, or after that the first ones of which one has the letter that
/// differs. Both are at the same place in the order of letters.
fn words_apart(old: &str, new: &str, letters: (usize, usize)) -> ((usize, usize), (usize, usize)) {
    let (mut at, mut other) = (
        end_of_letters(old.as_bytes(), letters.0),
        end_of_letters(new.as_bytes(), letters.1),
    );
    for _ in 0..old.len() {
        let is_inside = is_in_word(old, at) || is_in_word(new, other);
        let (was, is) = (word_at(old, at, is_inside), word_at(new, other, is_inside));
        if was.1 > letters.0 || is.1 > letters.1 || (was.1 <= at && is.1 <= other) {
            return (was, is);
        }
        (at, other) = (was.1, is.1);
    }
    (word_at(old, at, false), word_at(new, other, false))
}

/// The line of a byte, counted from 1; at the end, the last line.
fn line_of(alloc: Global, text: &str, at: usize) -> Result<usize, AllocError> {
    let at = at.min(text.len().saturating_sub(1));
    let starts = line_starts(alloc, text)?;
    Ok(starts.partition_point(|start| *start <= at))
}

/// The first difference between the letters of two texts that have not the same ones.
fn first_difference(alloc: Global, old: &str, new: &str) -> Result<Difference, AllocError> {
    let (was, is) = parting(old.as_bytes(), new.as_bytes());
    let letters = (character_start(old, was), character_start(new, is));
    let (was, is) = words_apart(old, new, letters);
    let (old_line, new_line) = (line_of(alloc, old, was.0)?, line_of(alloc, new, is.0)?);
    Ok(Difference {
        kind: Kind::Letters,
        what: "letters",
        before: (0, 0),
        old: (old_line, old_line),
        new: (new_line, new_line),
        was: String::from_str(alloc, old.get(was.0..was.1).unwrap_or(""))?,
        is: String::from_str(alloc, new.get(is.0..is.1).unwrap_or(""))?,
    })
}

/// A list of one difference.
fn only(alloc: Global, difference: Difference) -> Result<Vec<Difference>, AllocError>
    ensures { IfOk result (λ all. all.items ≢ []) }
{
    let mut all = Vec::new(alloc);
    all.push(difference)?;
    Ok(all)
}

/// The first difference between the letters of two texts. There is none exactly if both have the same letters in the same order
/// (`same`).
///
/// The letters are those of ASCII and all characters past ASCII. So this rests on no parser, and holds in any kind of Markdown. A
/// byte order mark at the front is no letter. It fails if memory runs out.
///
/// ```
/// assert!(rt; compared_letters(alloc, "* *a* b\n", "- _a_\n  b\n")?.is_empty());
/// let found = compared_letters(alloc, "a\nthe words.\n", "a the word.\n\nEnd\n")?;
/// assert_eq!(rt; (found[0].was.as_str(), found[0].is.as_str()), ("words.", "word."));
/// assert_eq!(rt; (found[0].old, found[0].new), ((2, 2), (1, 1)));
/// ```
pub fn compared_letters(alloc: Global, old: &str, new: &str) -> Result<Vec<Difference>, AllocError>
    ensures same { IfOk result (λ all. (all.items ≡ []) ↔ HaveSameLetters old.now new.now) }
{
    let (old, new) = (after_mark(old), after_mark(new));
    if have_same_letters(old, new) {
        return Ok(Vec::new(alloc));
    }
    only(alloc, first_difference(alloc, old, new)?)
}
