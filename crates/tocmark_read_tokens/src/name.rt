//! Character references by the names of HTML.

ghost use Rattle.std.specs.Prelude.{◌≡◌};
ghost use Rattle.tocmark_read_tokens.specs.CharacterNames.{found};
ghost use Rattle.tocmark_read_tokens.specs.Name.{name_end, name_at, named, named_view, named_in};

use crate::character_names::characters_of;
use tocmark_read_scan::basic::{byte_at, bytes_between};
use tocmark_read_scan::class::{Class, run_end};
use tocmark_read_scan::syntax::Names;

/// The characters of a named reference, and the place after it.
#[derive(Clone, Copy)]
pub struct NamedReference {
    /// The characters, in UTF-8: one or two.
    pub characters: &'static [u8],
    /// The place after the semicolon.
    pub next: usize,
}

/// The place after the letters and digits after an ampersand.
#[tactic(auto, unfolding(crate::specs::Name::name_end))]
fn name_end(bytes: &[u8], place: usize) -> usize
    ensures { result ≡ name_end bytes.now place }
{
    run_end(bytes, place.saturating_add(1), Class::TagName)
}

/// The characters that the name after an ampersand means, if a semicolon follows it.
#[tactic(auto, unfolding(crate::specs::Name::name_at))]
fn name_at(bytes: &[u8], place: usize) -> Option<&'static [u8]>
    ensures { found result ≡ name_at bytes.now place }
{
    let end = name_end(bytes, place);
    if byte_at(bytes, place) == b'&' && byte_at(bytes, end) == b';' {
        characters_of(bytes_between(bytes, place.saturating_add(1), end))
    } else {
        None
    }
}

/// The reference by a name of HTML at a place.
#[tactic(auto, unfolding(crate::specs::Name::named))]
fn named(bytes: &[u8], place: usize) -> Option<NamedReference>
    ensures { named_view result ≡ named bytes.now place }
{
    match name_at(bytes, place) {
        Some(characters) => Some(NamedReference {
            characters,
            next: name_end(bytes, place).saturating_add(1),
        }),
        None => None,
    }
}

/// The reference by a name of HTML at a place, where all names are known; `None` where four are, which
/// `reference_at` knows.
pub fn named_in(names: Names, bytes: &[u8], place: usize) -> Option<NamedReference>
    ensures { named_view result ≡ named_in names bytes.now place }
{
    match names {
        Names::Four => None,
        Names::All => named(bytes, place),
    }
}
