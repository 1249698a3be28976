//! Texts in which some places have other bytes.

ghost use Rattle.std.specs.Prelude.{◌≡◌, IfOk, IfSome, length, string_bytes};
ghost use Rattle.tocmark_links.specs.Spliced.{AreApart, spliced};

use std::alloc::{AllocError, Global};

/// Other bytes for a place of a text.
#[derive(Drop)]
pub(crate) struct Edit {
    pub start: usize,
    pub end: usize,
    pub words: String,
}

/// A text with other bytes in these places, which lie one after the other. `None`: they don't.
pub(crate) fn spliced(
    alloc: Global,
    text: &str,
    edits: &[Edit],
) -> Result<Option<String>, AllocError>
    ensures apart { IfOk result (λ new. IfSome new (λ new.
        AreApart 0 (length text.now) edits.now)) }
    ensures bytes { IfOk result (λ new. IfSome new (λ new.
        string_bytes new ≡ spliced text.now edits.now)) }
{
    let mut new = String::new(alloc);
    let mut at = 0;
    for edit in edits {
        if edit.end < edit.start {
            return Ok(None);
        }
        let Some(kept) = text.get(at..edit.start) else {
            return Ok(None);
        };
        new.push_str(kept)?;
        new.push_str(edit.words.as_str())?;
        at = edit.end;
    }
    let Some(kept) = text.get(at..) else {
        return Ok(None);
    };
    new.push_str(kept)?;
    Ok(Some(new))
}
