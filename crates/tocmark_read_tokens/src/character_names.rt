//! The names of HTML's character references. There are 2,125; 93 of them stand for two characters.
//!
//! Enter at `characters_of`. `entries` has the names, as `tools/make-names` writes them.

ghost use Rattle.std.specs.Prelude.{◌≡◌, length};
ghost use Rattle.tocmark_read_scan.specs.Repeat.{iterated};
ghost use Rattle.tocmark_read_tokens.specs.CharacterNames.{is_entry, next_line, entry_characters, characters_in, is_name, characters_of, found};

use crate::entries::entries_of;
use tocmark_read_scan::basic::{byte_at, bytes_between, starts_at};
use tocmark_read_scan::class::{Class, run_end};

/// Whether the entry of a name begins at a place.
#[tactic(auto, unfolding(crate::specs::CharacterNames::is_entry))]
fn is_entry(entries: &[u8], name: &[u8], place: usize) -> bool
    ensures { result ≡ is_entry entries.now name.now place }
{
    starts_at(entries, place, name) && byte_at(entries, place.saturating_add(name.len())) == b';'
}

/// The place of the next line, unless the entry of the name begins here or the text ends.
#[tactic(auto, unfolding(crate::specs::CharacterNames::next_line))]
fn next_line(entries: &[u8], name: &[u8], place: usize) -> Option<usize>
    ensures { result ≡ next_line entries.now name.now place }
{
    let goes_on = place < entries.len() && !is_entry(entries, name, place);
    if goes_on {
        Some(run_end(entries, place, Class::Except(b'\n')).saturating_add(1))
    } else {
        None
    }
}

/// The place of the first entry of a name, or one past the end.
#[tactic(auto, using(tocmark_read_scan::proofs::Repeats::iterated_zero, tocmark_read_scan::proofs::Repeats::iterated_stop, tocmark_read_scan::proofs::Repeats::iterated_more))]
fn entry_place(entries: &[u8], name: &[u8]) -> usize
    ensures { result ≡ iterated (next_line entries.now name.now) (length entries.now) 0 }
{
    let mut place = 0usize;
    for _steps_left in (0..entries.len()).rev() {
        match next_line(entries, name, place) {
            None => return place,
            Some(next) => place = next,
        }
    }
    place
}

/// The characters of the entry whose semicolon is just before a place.
#[tactic(auto, unfolding(crate::specs::CharacterNames::entry_characters))]
fn entry_characters(entries: &[u8], start: usize) -> &[u8]
    ensures { result.now ≡ entry_characters entries.now start }
{
    let end = run_end(entries, start.saturating_add(1), Class::Except(b'\n'));
    bytes_between(entries, start, end)
}

/// The characters of the first entry of a name.
#[tactic(auto, unfolding(crate::specs::CharacterNames::characters_in))]
fn characters_in<'a>(entries: &'a [u8], name: &[u8]) -> Option<&'a [u8]>
    ensures { found result ≡ characters_in entries.now name.now }
{
    let place = entry_place(entries, name);
    if is_entry(entries, name, place) {
        let start = place.saturating_add(name.len()).saturating_add(1);
        Some(entry_characters(entries, start))
    } else {
        None
    }
}

#[tactic(auto, unfolding(crate::specs::CharacterNames::is_name))]
fn is_name(name: &[u8]) -> bool
    ensures { result ≡ is_name name.now }
{
    run_end(name, 0, Class::TagName) == name.len()
}

/// The characters that a name stands for, in UTF-8: one or two; `None` where it is no name.
///
/// The names are those of the HTML standard that end with a semicolon there, without their ampersand and
/// semicolon: `characters_of(b"auml")` is `Some("ä".as_bytes())`. Case matters: `Auml` is another name,
/// and `AUML` is none. A name is looked up among those with its first letter, 165 at most.
#[tactic(auto, unfolding(crate::specs::CharacterNames::characters_of))]
pub fn characters_of(name: &[u8]) -> Option<&'static [u8]>
    ensures { found result ≡ characters_of name.now }
{
    if is_name(name) {
        characters_in(entries_of(byte_at(name, 0)).as_bytes(), name)
    } else {
        None
    }
}
