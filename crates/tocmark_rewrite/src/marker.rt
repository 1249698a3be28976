//! How inlines are spelled that weren't in the source.

use crate::destination::closing;
use crate::event::repeated;
use crate::inlines::Mark;
use std::alloc::{AllocError, Global};
use tocmark_event::event::{Event, LinkType, Tag};
use tocmark_event::options::Options;
use tocmark_write_texts::text_modifications::{in_cell, span_ends};

/// What new inlines are put between, and whether a bar in them is escaped.
#[derive(Clone, Copy)]
pub struct Markers {
    has_underscore: bool,
    has_two_underscores: bool,
    has_one_tilde: bool,
    escapes_bars: bool,
}

impl Markers {
    /// The markers of these options.
    pub(crate) fn of(options: &Options<'_>) -> Markers {
        Markers {
            has_underscore: options.emphasis_token == '_',
            has_two_underscores: options.strong_token == "__",
            has_one_tilde: false,
            escapes_bars: false,
        }
    }

    /// The other ones, for leaves that these don't fit.
    pub(crate) fn others(self) -> Markers {
        Markers {
            has_underscore: !self.has_underscore,
            has_two_underscores: !self.has_two_underscores,
            has_one_tilde: !self.has_one_tilde,
            escapes_bars: true,
        }
    }

    fn emphasis(self) -> &'static str {
        if self.has_underscore { "_" } else { "*" }
    }

    fn strong(self) -> &'static str {
        if self.has_two_underscores { "__" } else { "**" }
    }

    fn strikethrough(self) -> &'static str {
        if self.has_one_tilde { "~" } else { "~~" }
    }

    /// A code span.
    fn code(self, alloc: Global, text: &str) -> Result<String, AllocError> {
        let ends = span_ends(text);
        let ticks = repeated(alloc, '`', ends.ticks)?;
        let inside = in_cell(alloc, text, self.escapes_bars)?;
        let padding = ends.padding;
        format!(in alloc; "{ticks}{padding}{inside}{padding}{ticks}")
    }

    /// What is before or after the content of a container; none if that isn't known.
    fn tag(self, alloc: Global, tag: &Tag<'_>, is_end: bool) -> Result<Option<String>, AllocError> {
        let marker = match tag {
            Tag::Emphasis => self.emphasis(),
            Tag::Strong => self.strong(),
            Tag::Strikethrough => self.strikethrough(),
            Tag::Superscript => "^",
            Tag::Subscript => "~",
            Tag::Link { .. } if !is_end => "[",
            Tag::Image { .. } if !is_end => "![",
            _ => return link_end(alloc, tag),
        };
        Ok(Some(String::from_str(alloc, marker)?))
    }

    /// A mark as it is spelled; none if that isn't known.
    pub(crate) fn mark(self, alloc: Global, mark: Mark<'_>) -> Result<Option<String>, AllocError> {
        let text = match mark.event {
            Event::Start(tag) => return self.tag(alloc, tag, mark.is_end),
            Event::Code(text) => self.code(alloc, text.as_ref())?,
            Event::InlineHtml(text) => String::from_str(alloc, text.as_ref())?,
            Event::FootnoteReference(label) => format!(in alloc; "[^{label}]")?,
            Event::SoftBreak => String::from_str(alloc, "\n")?,
            Event::HardBreak => String::from_str(alloc, "  \n")?,
            _ => return Ok(None),
        };
        Ok(Some(text))
    }
}

/// What is after the text of an inline link or image; none for other ones.
fn link_end(alloc: Global, tag: &Tag<'_>) -> Result<Option<String>, AllocError> {
    match tag {
        Tag::Link {
            link_type: LinkType::Inline,
            dest_url,
            title,
            ..
        } => Ok(Some(closing(alloc, dest_url.as_ref(), title.as_ref())?)),
        Tag::Image {
            link_type: LinkType::Inline,
            dest_url,
            title,
            ..
        } => Ok(Some(closing(alloc, dest_url.as_ref(), title.as_ref())?)),
        _ => Ok(None),
    }
}
