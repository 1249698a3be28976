//! The anchors that sites make of the words of headings.

ghost use Rattle.std.specs.Prelude.{◌≡◌, ◌++◌, IfOk, OnOk, chars, encode_utf8_all, false, string_bytes};
ghost use Rattle.tocmark_links.specs.Slug.{stays_at_github, letters_of, lettered, joins, dash_of, dashed, slug_of};

use std::alloc::{AllocError, Global};
use ucd_category::{GeneralCategory, GeneralCategoryGroup};
use unicode_normalization::to_nfkd;

/// Whose rule makes anchors.
#[derive(Clone, Copy)]
pub enum Slugs {
    /// GitHub's: lower case; letters, marks, numbers, `-`, `_` and its like stay, and a blank becomes `-`.
    GitHub,
    /// mdBook's: lower case; letters, numbers, `-` and `_` stay, and white space becomes `-`.
    MdBook,
    /// Python-Markdown's: ASCII alone, in lower case, and `-` for each stretch of white space and `-`.
    Python,
}

/// Whether a character stays in GitHub's anchors.
fn stays_at_github(c: char) -> bool
    ensures { result ≡ stays_at_github c }
{
    let category = GeneralCategory::for_char(c);
    c == '-'
        || category == GeneralCategory::ConnectorPunctuation
        || GeneralCategoryGroup::Letter.contains(category)
        || GeneralCategoryGroup::Mark.contains(category)
        || GeneralCategoryGroup::Number.contains(category)
}

/// What a rule makes of a character, if it keeps it.
#[tactic(auto, unfolding(crate::specs::Slug::letters_of))]
fn push_letters(slug: &mut String, slugs: Slugs, c: char) -> Result<(), AllocError>
    ensures { OnOk result (string_bytes slug.new
        ≡ string_bytes slug.old ++ encode_utf8_all (letters_of slugs c)) }
{
    match slugs {
        Slugs::GitHub => {
            if c == ' ' {
                return slug.push('-');
            }
            if stays_at_github(c) {
                return slug.push(c);
            }
        }
        Slugs::MdBook => {
            if c.is_whitespace() {
                return slug.push('-');
            }
            if c == '-' || c == '_' || c.is_alphanumeric() {
                return slug.push(c);
            }
        }
        Slugs::Python => {
            if c == '-' || c == '_' || c.is_ascii_whitespace() || c.is_ascii_alphanumeric() {
                return slug.push(c);
            }
        }
    }
    Ok(())
}

/// What a rule keeps of a text.
fn lettered(alloc: Global, slugs: Slugs, text: &str) -> Result<String, AllocError>
    ensures { IfOk result (λ kept. string_bytes kept ≡ lettered slugs text.now) }
{
    let mut kept = String::new(alloc);
    for c in text.chars() {
        push_letters(&mut kept, slugs, c)?;
    }
    Ok(kept)
}

/// Whether a character is written as `-` together with its like.
fn joins(c: char) -> bool
    ensures { result ≡ joins c }
{
    c == '-' || c.is_ascii_whitespace()
}

/// Adds a character, or the `-` that it begins, by whether one is in front.
fn push_dashed(slug: &mut String, is_behind: bool, c: char) -> Result<(), AllocError>
    ensures { OnOk result (string_bytes slug.new
        ≡ string_bytes slug.old ++ encode_utf8_all (dash_of is_behind c)) }
{
    if !joins(c) {
        return slug.push(c);
    }
    if !is_behind {
        return slug.push('-');
    }
    Ok(())
}

/// A text with one `-` for each stretch of white space and `-`.
fn dashed(alloc: Global, text: &str) -> Result<String, AllocError>
    ensures { IfOk result (λ slug. string_bytes slug
        ≡ encode_utf8_all (dashed false (chars text.now))) }
{
    let mut slug = String::new(alloc);
    let mut is_behind = false;
    for c in text.chars() {
        push_dashed(&mut slug, is_behind, c)?;
        is_behind = joins(c);
    }
    Ok(slug)
}

/// The anchor of a heading with these words, before it is numbered.
///
/// ```
/// assert_eq!(rt; slug(alloc, "What's new?", Slugs::GitHub)?.as_str(), "whats-new");
/// ```
#[tactic(auto, unfolding(crate::specs::Slug::slug_of))]
pub fn slug(alloc: Global, words: &str, slugs: Slugs) -> Result<String, AllocError>
    ensures { IfOk result (λ slug. string_bytes slug ≡ slug_of slugs words.now) }
{
    let lower = words.to_lowercase(alloc)?;
    match slugs {
        Slugs::GitHub => lettered(alloc, slugs, lower.as_str()),
        Slugs::MdBook => lettered(alloc, slugs, lower.as_str()),
        Slugs::Python => {
            let plain = to_nfkd(alloc, words)?;
            let kept = lettered(alloc, slugs, plain.as_str())?;
            let small = kept.as_str().to_lowercase(alloc)?;
            dashed(alloc, small.as_str().trim())
        }
    }
}
