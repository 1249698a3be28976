//! How blocks are printed: a style, or the source's own spelling.

use crate::style::{
    Bullet, Delimiter, Fence, HardBreak, Headings, ListIndent, Marker, Numbering, Rule, Style,
    Tables, Wrap,
};

/// How blocks are printed. `None` says: as in the source.
#[derive(Clone, Copy)]
pub(crate) struct Look {
    pub(crate) bullet: Option<u8>,
    pub(crate) delimiter: Option<u8>,
    pub(crate) numbering: Numbering,
    pub(crate) emphasis: Option<u8>,
    pub(crate) strong: Option<u8>,
    pub(crate) fence: Option<u8>,
    pub(crate) fence_length: usize,
    pub(crate) rule: Rule,
    pub(crate) headings: Headings,
    pub(crate) hard_break: HardBreak,
    pub(crate) tables: Tables,
    pub(crate) table_width: usize,
    pub(crate) wrap: Wrap,
    pub(crate) list_indent: ListIndent,
    /// Whether indents, fences, tables and definitions stay as they are spelled, too.
    pub(crate) is_literal: bool,
}

/// The longest least length of a fence.
const LONGEST_FENCE: usize = 1000;

fn marker_byte(marker: Marker) -> u8 {
    match marker {
        Marker::Asterisk => b'*',
        Marker::Underscore => b'_',
    }
}

fn bullet_byte(bullet: Bullet) -> u8 {
    match bullet {
        Bullet::Asterisk => b'*',
        Bullet::Hyphen => b'-',
        Bullet::Plus => b'+',
    }
}

fn delimiter_byte(delimiter: Delimiter) -> u8 {
    match delimiter {
        Delimiter::Period => b'.',
        Delimiter::Parenthesis => b')',
    }
}

fn fence_byte(fence: Fence) -> u8 {
    match fence {
        Fence::Backtick => b'`',
        Fence::Tilde => b'~',
    }
}

impl Look {
    pub(crate) fn of(style: Style) -> Look {
        Look {
            bullet: style.bullet.map(bullet_byte),
            delimiter: style.delimiter.map(delimiter_byte),
            numbering: style.numbering,
            emphasis: style.emphasis.map(marker_byte),
            strong: style.strong.map(marker_byte),
            fence: style.fence.map(fence_byte),
            fence_length: style.fence_length.clamp(3, LONGEST_FENCE),
            rule: style.rule,
            headings: style.headings,
            hard_break: style.hard_break,
            tables: style.tables,
            table_width: style.table_width,
            wrap: style.wrap,
            list_indent: style.list_indent,
            is_literal: false,
        }
    }

    /// The source's own spelling.
    pub(crate) fn literal() -> Look {
        Look {
            bullet: None,
            delimiter: None,
            numbering: Numbering::Source,
            emphasis: None,
            strong: None,
            fence: None,
            fence_length: 3,
            rule: Rule::Source,
            headings: Headings::Source,
            hard_break: HardBreak::Source,
            tables: Tables::Source,
            table_width: 0,
            wrap: Wrap::Keep,
            list_indent: ListIndent::Source,
            is_literal: true,
        }
    }
}
