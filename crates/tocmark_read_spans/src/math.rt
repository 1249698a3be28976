//! Mathematics between dollar signs.

ghost use Rattle.std.specs.Prelude.{◌≡◌, IfOk, OnOk, false, reverse};
ghost use Rattle.tocmark_read_spans.specs.Math.{sign_of, sign_in, signs, sign_at, levels_before, partner_of, partners_from, partners, is_white, partner_at, inline_to, display_to, math_at};

use std::alloc::{AllocError, Global};
use tocmark_read_scan::basic::{byte_at, starts_at};

/// What a byte says of which dollar signs belong together.
#[derive(Clone, Copy)]
enum Sign {
    /// A dollar sign.
    Dollar,
    /// An opening brace.
    OpeningBrace,
    /// A closing brace.
    ClosingBrace,
    /// Any other byte, and one after an escaping backslash.
    Other,
}

/// Mathematics with the places of its text.
#[derive(Clone, Copy)]
pub struct Math {
    /// Whether it is between two dollar signs on either side.
    pub display: bool,
    /// The place of the text's first byte.
    pub start: usize,
    /// The place after the text's last byte.
    pub end: usize,
    /// The place after the closing dollar signs.
    pub next: usize,
}

#[tactic(auto, unfolding(crate::specs::Math::sign_of))]
fn sign_of(byte: u8) -> Sign
    ensures { result ≡ sign_of byte }
{
    if byte == b'$' {
        Sign::Dollar
    } else if byte == b'{' {
        Sign::OpeningBrace
    } else if byte == b'}' {
        Sign::ClosingBrace
    } else {
        Sign::Other
    }
}

/// A byte as a sign: none after an escaping backslash.
#[tactic(auto, unfolding(crate::specs::Math::sign_in))]
fn sign_in(escaped: bool, byte: u8) -> Sign
    ensures { result ≡ sign_in escaped byte }
{
    if escaped { Sign::Other } else { sign_of(byte) }
}

/// The signs of a text's bytes.
fn signs_of(alloc: Global, bytes: &[u8]) -> Result<Vec<Sign>, AllocError>
    ensures { IfOk result (λ v. v.items ≡ signs false bytes.now) }
{
    let mut found = Vec::with_capacity(alloc, bytes.len())?;
    let mut escaped = false;
    for byte in bytes {
        found.push(sign_in(escaped, *byte))?;
        escaped = !escaped && *byte == b'\\';
    }
    Ok(found)
}

/// From the next dollar sign at each number of open braces after a sign to those from it on; gives the
/// partner of a dollar sign.
fn go_back(
    levels: &mut Vec<Option<usize>>,
    place: usize,
    sign: Sign,
) -> Result<Option<usize>, AllocError>
    ensures levels { OnOk result (reverse levels.new.items
        ≡ levels_before sign place (reverse levels.old.items)) }
    ensures partner { IfOk result (λ p. p ≡ partner_of sign (reverse levels.old.items)) }
{
    match sign {
        Sign::Dollar => {
            let partner = levels.pop().flatten();
            levels.push(Some(place))?;
            Ok(partner)
        }
        Sign::OpeningBrace => {
            levels.pop();
            Ok(None)
        }
        Sign::ClosingBrace => {
            levels.push(None)?;
            Ok(None)
        }
        Sign::Other => Ok(None),
    }
}

/// The sign at a place; none past the end.
#[tactic(auto, unfolding(crate::specs::Math::sign_at))]
fn sign_at(signs: &[Sign], place: usize) -> Sign
    ensures { result ≡ sign_at signs.now place }
{
    signs.get(place).copied().unwrap_or(Sign::Other)
}

/// For each sign its partner, if it is a dollar sign and has one.
fn partners_among(alloc: Global, signs: &[Sign]) -> Result<Vec<Option<usize>>, AllocError>
    ensures { IfOk result (λ v. v.items ≡ partners_from 0 signs.now) }
{
    let mut found = Vec::with_capacity(alloc, signs.len())?;
    let mut levels: Vec<Option<usize>> = Vec::new(alloc);
    for place in (0..signs.len()).rev() {
        let partner = go_back(&mut levels, place, sign_at(signs, place))?;
        found.push(partner)?;
    }
    found.reverse();
    Ok(found)
}

/// For each byte of a text the partner of the dollar sign that it is: the next one with balanced braces
/// between them.
#[tactic(auto, unfolding(crate::specs::Math::partners))]
pub fn partners(alloc: Global, bytes: &[u8]) -> Result<Vec<Option<usize>>, AllocError>
    ensures { IfOk result (λ v. v.items ≡ partners bytes.now) }
{
    let signs = signs_of(alloc, bytes)?;
    partners_among(alloc, &signs)
}

/// Whether a byte is white space.
#[tactic(auto, unfolding(crate::specs::Math::is_white))]
fn is_white(byte: u8) -> bool
    ensures { result ≡ is_white byte }
{
    byte == b' ' || b'\t' <= byte && byte <= b'\r'
}

/// The partner of the dollar sign at a place.
#[tactic(auto, unfolding(crate::specs::Math::partner_at))]
fn partner_at(partners: &[Option<usize>], place: usize) -> Option<usize>
    ensures { result ≡ partner_at partners.now place }
{
    partners.get(place).copied().flatten()
}

/// Mathematics between the dollar sign at a place and its partner: no white space is at either end.
#[tactic(auto, unfolding(crate::specs::Math::inline_to))]
fn inline_to(bytes: &[u8], place: usize, partner: usize) -> Option<Math>
    ensures { result ≡ inline_to bytes.now place partner }
{
    let start = place.saturating_add(1);
    if is_white(byte_at(bytes, start)) || is_white(byte_at(bytes, partner.saturating_sub(1))) {
        return None;
    }
    Some(Math {
        display: false,
        start,
        end: partner,
        next: partner.saturating_add(1),
    })
}

/// Mathematics between the two dollar signs at a place and the partner of the second of them: another one
/// is after that.
#[tactic(auto, unfolding(crate::specs::Math::display_to))]
fn display_to(bytes: &[u8], place: usize, partner: usize) -> Option<Math>
    ensures { result ≡ display_to bytes.now place partner }
{
    if starts_at(bytes, partner, b"$$") {
        Some(Math {
            display: true,
            start: place.saturating_add(2),
            end: partner,
            next: partner.saturating_add(2),
        })
    } else {
        None
    }
}

/// The mathematics that the dollar sign at a place opens; `None` where it is a text. `partners` are those of
/// the text.
#[tactic(auto, unfolding(crate::specs::Math::math_at))]
pub fn math_at(bytes: &[u8], partners: &[Option<usize>], place: usize) -> Option<Math>
    ensures { result ≡ math_at bytes.now partners.now place }
{
    if starts_at(bytes, place, b"$$") {
        display_to(bytes, place, partner_at(partners, place.saturating_add(1))?)
    } else {
        inline_to(bytes, place, partner_at(partners, place)?)
    }
}
