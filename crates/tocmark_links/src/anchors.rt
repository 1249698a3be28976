//! The anchors of a file: those of its headings, numbered where the same one is taken, and those of its HTML.

ghost use Rattle.std.specs.Prelude.{◌≡◌, ◌∷◌, List, ℕ, IfOk, OnOk, map, string_bytes, unwrap_or};
ghost use Rattle.std.specs.HashMap.{get_by_text};
ghost use Rattle.tocmark_links.specs.Anchors.{numbered, reserved, AreNumbered, unnumbered};
ghost use Rattle.tocmark_links.specs.Numbering.{Counts, IsFirstFrom, IsNext, IsGivenBy};

use crate::slug::{Slugs, slug};
use std::alloc::{AllocError, Global};
use std::collections::HashMap;

/// What an anchor comes from.
#[derive(Clone, Copy, PartialEq, Eq)]
pub enum AnchorKind {
    /// The words of a heading.
    Heading,
    /// `{#id}` after the words of a heading.
    Named,
    /// `id` or `name` of an HTML element.
    Html,
}

/// A place that links lead to.
#[derive(Drop)]
pub struct Anchor {
    pub kind: AnchorKind,
    /// What is after `#` in a link.
    pub name: String,
    /// The words of the heading; empty for HTML.
    pub words: String,
    /// The level of the heading, 1 to 6; 0 for HTML.
    pub level: usize,
    /// The bytes of the heading's words in the text, without `{#id}`; `None` for HTML and for a heading without words.
    pub place: Option<(usize, usize)>,
    /// The line of the text, from 1 on.
    pub line: usize,
}

/// Each anchor that a heading has, and the last number after it.
type Taken = HashMap<String, usize>;

/// Takes an anchor that no heading after it can get.
fn take(alloc: Global, taken: &mut Taken, name: &str) -> Result<(), AllocError>
    ensures { OnOk result ((slugs : Slugs) (names : List (List ℕ)) → Counts slugs names taken.old
        → Counts slugs (name.now ∷ names) taken.new) }
{
    if !taken.contains_key(name) {
        taken.insert(String::from_str(alloc, name)?, 0)?;
    }
    Ok(())
}

/// The anchors that are taken before the first heading: Python-Markdown gives no heading an empty one.
fn reserved(alloc: Global, slugs: Slugs) -> Result<Taken, AllocError>
    ensures { IfOk result (λ taken. Counts slugs (reserved slugs) taken) }
{
    let mut taken: Taken = HashMap::new(alloc);
    match slugs {
        Slugs::GitHub | Slugs::MdBook => Ok(taken),
        Slugs::Python => {
            take(alloc, &mut taken, "")?;
            Ok(taken)
        }
    }
}

/// The last number after an anchor; 0 if it isn't taken.
fn last_number(taken: &Taken, name: &str) -> usize
    ensures { result ≡ unwrap_or (get_by_text taken.now name.now) 0 }
{
    taken.get(name).copied().unwrap_or(0)
}

/// An anchor with a number after it; with 0 itself.
fn numbered(alloc: Global, slugs: Slugs, base: &str, number: usize) -> Result<String, AllocError>
    ensures { IfOk result (λ name. string_bytes name ≡ numbered slugs base.now number) }
{
    if number == 0 {
        return String::from_str(alloc, base);
    }
    match slugs {
        Slugs::Python => format!(in alloc; "{base}_{number}"),
        Slugs::GitHub => format!(in alloc; "{base}-{number}"),
        Slugs::MdBook => format!(in alloc; "{base}-{number}"),
    }
}

/// The first number from this one on with which an anchor isn't taken, and the anchor with it.
fn first_free(
    alloc: Global,
    slugs: Slugs,
    taken: &Taken,
    base: &str,
    from: usize,
) -> Result<(usize, String), AllocError>
    ensures { IfOk result (λ found.
        IsFirstFrom slugs taken.now base.now from found.0 (string_bytes found.1)) }
{
    for number in from..usize::MAX {
        let name = numbered(alloc, slugs, base, number)?;
        if !taken.contains_key(name.as_str()) {
            return Ok((number, name));
        }
    }
    Err(AllocError)
}

/// The anchor of the next heading with these words: its slug, or the slug with the first number that isn't taken.
fn next(alloc: Global, slugs: Slugs, taken: &mut Taken, words: &str) -> Result<String, AllocError>
    ensures { IfOk result (λ name. IsNext slugs words.now taken.old taken.new (string_bytes name)) }
{
    let base = slug(alloc, words, slugs)?;
    let from = last_number(taken, base.as_str());
    let (number, name) = first_free(alloc, slugs, taken, base.as_str(), from)?;
    taken.insert(name.clone()?, 0)?;
    taken.insert(base, number)?;
    Ok(name)
}

/// Gives a heading its anchor, unless it names it itself.
fn give(
    alloc: Global,
    slugs: Slugs,
    taken: &mut Taken,
    anchor: &mut Anchor,
) -> Result<(), AllocError>
    ensures given { OnOk result (IsGivenBy slugs taken.old taken.new anchor.new) }
    ensures kept { OnOk result (unnumbered anchor.new ≡ unnumbered anchor.old) }
{
    match anchor.kind {
        AnchorKind::Html => Ok(()),
        AnchorKind::Named => take(alloc, taken, anchor.name.as_str()),
        AnchorKind::Heading => {
            anchor.name = next(alloc, slugs, taken, anchor.words.as_str())?;
            Ok(())
        }
    }
}

/// Gives the headings of a page their anchors.
pub fn number(alloc: Global, slugs: Slugs, anchors: &mut [Anchor]) -> Result<(), AllocError>
    ensures numbered { OnOk result (AreNumbered slugs (reserved slugs) anchors.new) }
    ensures kept { OnOk result (map unnumbered anchors.new ≡ map unnumbered anchors.old) }
{
    let mut taken = reserved(alloc, slugs)?;
    for anchor in anchors.iter_mut() {
        give(alloc, slugs, &mut taken, anchor)?;
    }
    Ok(())
}
