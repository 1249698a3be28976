//! The style of a formatted document, in the form that C gives.

ghost use Rattle.std.specs.Prelude.{◌≡◌, IfSome, is_some};
ghost use Rattle.tocmark_c.specs.Style.{bullet_of, delimiter_of, fence_of, hard_break_of, has_style, headings_of, list_indent_of, marker_of, numbering_of, rule_of, table_width_of, tables_of, wrap_of, IsStyleOf};

use tocmark_print::{
    Bullet, Delimiter, Fence, HardBreak, Headings, ListIndent, Marker, Numbering, Rule, Style,
    Tables, Wrap,
};

/// The size of `TocmarkStyle` in bytes. A later header can have a larger one.
const SIZE: u32 = 56;

/// The style of a formatted document. A character is its own number, and 0 is the default.
#[repr(C)]
#[derive(Clone, Copy)]
pub struct TocmarkStyle {
    /// The size of this struct in bytes, as C knows it.
    pub size: u32,
    /// `*`, `-` or `+`; 0: each list as in the source.
    pub bullet: u32,
    /// `.` or `)`; 0: each list as in the source.
    pub delimiter: u32,
    /// 0: each as in the source; 1: all are the first; 2: they count up.
    pub numbering: u32,
    /// `*` or `_`; 0: each as in the source.
    pub emphasis: u32,
    /// `*` or `_`, which is written twice; 0: each as in the source.
    pub strong: u32,
    /// A backtick or `~`; 0: each as in the source.
    pub fence: u32,
    /// The minimal length of a fence: less than 3 means 3, and more than 1,000 means 1,000.
    pub fence_length: u32,
    /// 0: each as in the source; 1: a backslash; 2: two spaces.
    pub hard_break: u32,
    /// A sum. 1: thematic breaks are as in the source, and not `---`. 2: so are headings of one line, and not after `#`.
    pub rule: u32,
    /// Tables are padded up to this many columns; 0: up to 120.
    pub table_width: u32,
    /// Lines of paragraphs are filled up to this many columns; 0: they stay; 4,294,967,295: each paragraph is one line;
    /// 4,294,967,294: each sentence is one.
    pub wrap: u32,
    /// Columns that the content of items is indented by: 4; 0: as many as the marker takes; 4,294,967,295: as in the source.
    pub list_indent: u32,
    /// 0: tables are aligned; 1: their rows are as in the source.
    pub tables: u32,
}

fn bullet_of(code: u32) -> Option<Option<Bullet>>
    ensures { result ≡ bullet_of code }
{
    match code {
        0 => Some(None),
        42 => Some(Some(Bullet::Asterisk)),
        43 => Some(Some(Bullet::Plus)),
        45 => Some(Some(Bullet::Hyphen)),
        _ => None,
    }
}

fn delimiter_of(code: u32) -> Option<Option<Delimiter>>
    ensures { result ≡ delimiter_of code }
{
    match code {
        0 => Some(None),
        41 => Some(Some(Delimiter::Parenthesis)),
        46 => Some(Some(Delimiter::Period)),
        _ => None,
    }
}

fn numbering_of(code: u32) -> Option<Numbering>
    ensures { result ≡ numbering_of code }
{
    match code {
        0 => Some(Numbering::Source),
        1 => Some(Numbering::First),
        2 => Some(Numbering::Increment),
        _ => None,
    }
}

fn marker_of(code: u32) -> Option<Option<Marker>>
    ensures { result ≡ marker_of code }
{
    match code {
        0 => Some(None),
        42 => Some(Some(Marker::Asterisk)),
        95 => Some(Some(Marker::Underscore)),
        _ => None,
    }
}

fn fence_of(code: u32) -> Option<Option<Fence>>
    ensures { result ≡ fence_of code }
{
    match code {
        0 => Some(None),
        96 => Some(Some(Fence::Backtick)),
        126 => Some(Some(Fence::Tilde)),
        _ => None,
    }
}

fn hard_break_of(code: u32) -> Option<HardBreak>
    ensures { result ≡ hard_break_of code }
{
    match code {
        0 => Some(HardBreak::Source),
        1 => Some(HardBreak::Backslash),
        2 => Some(HardBreak::Blanks),
        _ => None,
    }
}

fn rule_of(code: u32) -> Option<Rule>
    ensures { result ≡ rule_of code }
{
    match code {
        0 | 2 => Some(Rule::Dashes),
        1 | 3 => Some(Rule::Source),
        _ => None,
    }
}

fn headings_of(code: u32) -> Option<Headings>
    ensures { result ≡ headings_of code }
{
    match code {
        0 | 1 => Some(Headings::Signs),
        2 | 3 => Some(Headings::Source),
        _ => None,
    }
}

fn table_width_of(columns: u32) -> usize
    ensures { result ≡ table_width_of columns }
{
    if columns == 0 { 120 } else { columns as usize }
}

fn wrap_of(columns: u32) -> Wrap
    ensures { result ≡ wrap_of columns }
{
    match columns {
        0 => Wrap::Keep,
        4_294_967_294 => Wrap::Sentence,
        4_294_967_295 => Wrap::No,
        _ => Wrap::At(columns as usize),
    }
}

fn list_indent_of(code: u32) -> Option<ListIndent>
    ensures { result ≡ list_indent_of code }
{
    match code {
        0 => Some(ListIndent::Source),
        1 => Some(ListIndent::Marker),
        4 => Some(ListIndent::Four),
        _ => None,
    }
}

fn tables_of(code: u32) -> Option<Tables>
    ensures { result ≡ tables_of code }
{
    match code {
        0 => Some(Tables::Aligned),
        1 => Some(Tables::Source),
        _ => None,
    }
}

/// Reads a style from C. There is none if the struct is smaller, or has a number that means nothing.
///
/// A larger struct has fields of a later header after these. They are ignored.
pub fn style_of(style: &TocmarkStyle) -> Option<Style>
    ensures there { is_some result ≡ has_style style.now }
    ensures style { IfSome result (λ found. IsStyleOf style.now found) }
{
    if style.size < SIZE {
        return None;
    }
    Some(Style {
        bullet: bullet_of(style.bullet)?,
        delimiter: delimiter_of(style.delimiter)?,
        numbering: numbering_of(style.numbering)?,
        emphasis: marker_of(style.emphasis)?,
        strong: marker_of(style.strong)?,
        fence: fence_of(style.fence)?,
        fence_length: style.fence_length as usize,
        hard_break: hard_break_of(style.hard_break)?,
        rule: rule_of(style.rule)?,
        headings: headings_of(style.rule)?,
        tables: tables_of(style.tables)?,
        table_width: table_width_of(style.table_width),
        wrap: wrap_of(style.wrap),
        list_indent: list_indent_of(style.list_indent)?,
    })
}
