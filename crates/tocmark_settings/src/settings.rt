//! How a document is read, and how it is to look.

ghost use Rattle.std.specs.Prelude.{◌≡◌, ◌++◌, IfOk, OnOk};
ghost use Rattle.tocmark_settings.specs.AlsoRead.{also_flags, asked_flags};

use std::alloc::{AllocError, Global};
use tocmark_event::event::ParserOptions;
use tocmark_format::{Ends, Lines};
use tocmark_print::Style;
use tocmark_reader::{EXTENSIONS, GFM};

/// The flags of CommonMark.
pub const COMMONMARK: ParserOptions = ParserOptions(0);

/// The syntaxes as which a document keeps its blocks, beside its own.
#[derive(Clone, Copy)]
pub struct AlsoRead {
    /// CommonMark, without extensions.
    pub commonmark: bool,
    /// The extensions of `GFM`.
    pub gfm: bool,
    /// All extensions.
    pub all: bool,
}

/// What a document is read as, and how it is to look.
#[derive(Clone, Copy)]
pub struct Settings {
    /// Which extensions of CommonMark are read.
    pub flags: ParserOptions,
    /// How the document is to look.
    pub style: Style,
    /// The other syntaxes as which it keeps its blocks.
    pub also: AlsoRead,
    /// Which of its lines are formatted; `None`: all.
    pub lines: Option<Lines>,
    /// How its lines end.
    pub ends: Ends,
}

impl Settings {
    /// GFM with front matter, in the style that changes least.
    pub fn new() -> Settings {
        Settings {
            flags: GFM,
            style: Style::new(),
            also: AlsoRead::NONE,
            lines: None,
            ends: Ends::new(),
        }
    }
}

impl AlsoRead {
    /// No syntax beside the own one.
    pub const NONE: AlsoRead = AlsoRead {
        commonmark: false,
        gfm: false,
        all: false,
    };

    /// These syntaxes and the one with this name; none for `none`. The answer is `None` if no syntax has the name.
    pub(crate) fn with(self, name: &str) -> Option<AlsoRead> {
        match name {
            "commonmark" => Some(AlsoRead {
                commonmark: true,
                ..self
            }),
            "gfm" => Some(AlsoRead { gfm: true, ..self }),
            "all" => Some(AlsoRead { all: true, ..self }),
            "none" => Some(AlsoRead::NONE),
            _ => None,
        }
    }

    /// Their flags: those of CommonMark, of GFM and of all extensions, in this order.
    ///
    /// It fails if memory runs out.
    pub fn flags(self, alloc: Global) -> Result<Vec<ParserOptions>, AllocError>
        ensures { IfOk result (λ list. list.items ≡ also_flags self) }
    {
        let mut list = Vec::new(alloc);
        push_asked(&mut list, self.commonmark, COMMONMARK)?;
        push_asked(&mut list, self.gfm, GFM)?;
        push_asked(&mut list, self.all, EXTENSIONS)?;
        Ok(list)
    }
}

/// Adds flags if they are asked for.
fn push_asked(
    list: &mut Vec<ParserOptions>,
    is_asked: bool,
    flags: ParserOptions,
) -> Result<(), AllocError>
    ensures { OnOk result (list.new.items ≡ list.old.items ++ asked_flags is_asked flags) }
{
    if is_asked {
        list.push(flags)?;
    }
    Ok(())
}
