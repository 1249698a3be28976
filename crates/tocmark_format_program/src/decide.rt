//! What is written for a text.

ghost use Rattle.std.specs.Prelude.{◌≡◌, ◌≢◌, IfOk, IfSome, string_bytes};
ghost use Rattle.tocmark_judge.specs.Letters.{letters};
ghost use Rattle.tocmark_judge.specs.Marks.{after_mark, has_mark};
ghost use Rattle.tocmark_judge.specs.Shape.{HaveSameShapes};
ghost use Rattle.tocmark_settings.specs.AlsoRead.{also_flags};
ghost use Rattle.tocmark_format_program.specs.Formats.{KeepsWhatItSays};

use std::alloc::{AllocError, Global};
use tocmark_format::{Formatted, Left, StyledLines, formatted_lines};
use tocmark_judge::PartReader;
use tocmark_settings::Settings;

/// What becomes of a text.
#[derive(Drop)]
pub struct Decision {
    /// The text that was read.
    pub old: String,
    /// The text that is written in its place; `None`: it stays.
    pub new: Option<String>,
    /// By which both say the same.
    pub settings: Settings,
    /// The blocks that keep their lines.
    pub left: Vec<Left>,
}

/// What becomes of a text that was read. The reader finds in what is written what counts as the same as in the text, and the
/// same link definitions. Under the flags of `also` it finds the same blocks. A byte order mark at the front stays there and
/// is no text. Whatever the reader finds, the letters stay the same, in the same order.
pub fn decided<R: PartReader>(
    alloc: Global,
    text: String,
    reader: &R,
    settings: Settings,
) -> Result<Decision, AllocError>
    ensures read { IfOk result (λ decision. string_bytes decision.old ≡ string_bytes text) }
    ensures asked { IfOk result (λ decision. decision.settings ≡ settings) }
    ensures same { IfOk result (KeepsWhatItSays (R.reading reader.now)) }
    ensures changed { IfOk result (λ decision. IfSome decision.new (λ new.
        string_bytes new ≢ string_bytes decision.old)) }
    ensures definitions { IfOk result (λ decision. IfSome decision.new (λ new.
        R.definitions reader.now (after_mark (string_bytes new)) settings.flags
        ≡ R.definitions reader.now (after_mark (string_bytes decision.old)) settings.flags)) }
    ensures also { IfOk result (λ decision. IfSome decision.new (λ new. HaveSameShapes
        (R.reading reader.now) (also_flags settings.also)
        (after_mark (string_bytes new)) (after_mark (string_bytes decision.old)))) }
    ensures mark { IfOk result (λ decision. IfSome decision.new (λ new.
        has_mark (string_bytes new) ≡ has_mark (string_bytes decision.old))) }
    ensures letters { IfOk result (λ decision. IfSome decision.new (λ new.
        letters (string_bytes new) ≡ letters (string_bytes decision.old))) }
{
    let Settings {
        flags,
        style,
        also,
        lines,
        ends,
    } = settings;
    let also = also.flags(alloc)?;
    let Formatted { text: new, left } = formatted_lines(
        alloc,
        text.as_str(),
        reader,
        flags,
        StyledLines { style, lines, ends },
        &also,
    )?;
    if new.as_str() == text.as_str() {
        drop(new);
        return Ok(Decision {
            old: text,
            new: None,
            settings,
            left,
        });
    }
    Ok(Decision {
        old: text,
        new: Some(new),
        settings,
        left,
    })
}
