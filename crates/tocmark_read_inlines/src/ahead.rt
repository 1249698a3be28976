//! What is known of a leaf's text before it is read.

ghost use Rattle.std.specs.Prelude.{◌≡◌, IfOk};
ghost use Rattle.tocmark_read_inlines.specs.Scan.{ahead_view, ends_of, ticks_of, partners_in, ahead_in};

use std::alloc::{AllocError, Global};
use tocmark_read_scan::class::has_byte;
use tocmark_read_scan::syntax::Syntax;
use tocmark_read_spans::math::partners;
use tocmark_read_spans::tick::last_ticks;
use tocmark_read_tokens::html::{LastEnds, last_ends};

/// What is known of a text before it is read.
#[derive(Drop)]
pub struct KnownAhead {
    /// The places from which on no end of raw HTML follows.
    pub ends: LastEnds,
    /// For each number of backticks the place from which on no run of so many follows.
    pub ticks: Vec<usize>,
    /// For each dollar sign the one that belongs to it.
    pub partners: Vec<Option<usize>>,
}

/// What to know of a text before raw HTML is looked for in it: nothing is where no `<` is.
#[tactic(auto, unfolding(crate::specs::Scan::ends_of))]
fn ends_of(bytes: &[u8]) -> LastEnds
    ensures { result ≡ ends_of bytes.now }
{
    if has_byte(bytes, b'<') {
        last_ends(bytes)
    } else {
        LastEnds {
            comment: 0,
            instruction: 0,
            cdata: 0,
            declaration: 0,
        }
    }
}

/// For each number of backticks where the last run of so many begins: no entry where no backtick
/// is.
#[tactic(auto, unfolding(crate::specs::Scan::ticks_of))]
fn ticks_of(alloc: Global, bytes: &[u8]) -> Result<Vec<usize>, AllocError>
    ensures { IfOk result (λ v. v.items ≡ ticks_of bytes.now) }
{
    if has_byte(bytes, b'`') {
        last_ticks(alloc, bytes)
    } else {
        Ok(Vec::new(alloc))
    }
}

/// The partners of dollar signs, where mathematics is read and one is.
#[tactic(auto, unfolding(crate::specs::Scan::partners_in))]
fn partners_in(
    alloc: Global,
    syntax: Syntax,
    bytes: &[u8],
) -> Result<Vec<Option<usize>>, AllocError>
    ensures { IfOk result (λ v. v.items ≡ partners_in syntax bytes.now) }
{
    if syntax.math && has_byte(bytes, b'$') {
        partners(alloc, bytes)
    } else {
        Ok(Vec::new(alloc))
    }
}

impl KnownAhead {
    /// Looks through a text for what is to be known of it.
    pub fn of(alloc: Global, syntax: Syntax, bytes: &[u8]) -> Result<KnownAhead, AllocError>
        ensures { IfOk result (λ known. ahead_view known ≡ ahead_in syntax bytes.now) }
    {
        Ok(KnownAhead {
            ends: ends_of(bytes),
            ticks: ticks_of(alloc, bytes)?,
            partners: partners_in(alloc, syntax, bytes)?,
        })
    }
}
