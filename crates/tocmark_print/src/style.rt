//! How a document is to look.

ghost use Rattle.std.specs.Prelude.{◌≡◌};
ghost use Rattle.tocmark_print.specs.Defaults.{usual_style};
ghost use Rattle.tocmark_print.specs.Fills.{fills};

/// What is before an item of a bullet list.
#[derive(Clone, Copy)]
pub enum Bullet {
    /// `*`
    Asterisk,
    /// `-`
    Hyphen,
    /// `+`
    Plus,
}

/// What is after the number of an item.
#[derive(Clone, Copy)]
pub enum Delimiter {
    /// `.`
    Period,
    /// `)`
    Parenthesis,
}

/// What is round emphasis: once for emphasis, twice for strong emphasis.
#[derive(Clone, Copy)]
pub enum Marker {
    /// `*`
    Asterisk,
    /// `_`
    Underscore,
}

/// What a code fence is made of.
#[derive(Clone, Copy)]
pub enum Fence {
    /// A backtick.
    Backtick,
    /// `~`
    Tilde,
}

/// The numbers of an ordered list.
#[derive(Clone, Copy, PartialEq, Eq)]
pub enum Numbering {
    /// Each item has its number in the source.
    Source,
    /// All are that of the first item.
    First,
    /// They count from that of the first item on.
    Increment,
}

/// How lines break that aren't joined.
#[derive(Clone, Copy)]
pub enum HardBreak {
    /// As in the source.
    Source,
    /// By a backslash.
    Backslash,
    /// By two blanks.
    Blanks,
}

/// What a thematic break is.
#[derive(Clone, Copy)]
pub enum Rule {
    /// As in the source.
    Source,
    /// `---`
    Dashes,
}

/// Where the lines of paragraphs break.
#[derive(Clone, Copy, PartialEq, Eq)]
pub enum Wrap {
    /// As in the source.
    Keep,
    /// Nowhere: a paragraph is one line, but for its hard breaks.
    No,
    /// After each sentence, so that a change of one sentence changes one line.
    Sentence,
    /// Lines are filled up to this many columns. A word that is longer has a line of its own.
    At(usize),
}

impl Wrap {
    /// Whether lines are filled, so that they break elsewhere than in the source.
    pub fn fills(self) -> bool
        ensures { result ≡ fills self }
    {
        match self {
            Wrap::Keep => false,
            Wrap::No | Wrap::Sentence | Wrap::At(_) => true,
        }
    }
}

/// Where the content of a list's items begins.
#[derive(Clone, Copy)]
pub enum ListIndent {
    /// One blank after the marker.
    Marker,
    /// Four columns after the marker's front, as Python-Markdown wants it; one blank after a marker that is longer.
    Four,
    /// As in the source: up to three columns before the marker and four after it.
    Source,
}

/// How tables look.
#[derive(Clone, Copy, PartialEq, Eq)]
pub enum Tables {
    /// Columns are padded to one width, unless the table gets too wide.
    Aligned,
    /// Rows stay as they are, without blanks at their ends.
    Source,
}

/// How headings of one line look.
#[derive(Clone, Copy, PartialEq, Eq)]
pub enum Headings {
    /// After `#`.
    Signs,
    /// As in the source: after `#` or underlined.
    Source,
}

/// How a document is to look. `None` says: as in the source.
#[derive(Clone, Copy)]
pub struct Style {
    /// The bullet of all lists; `None`: each list has that of its first item in the source.
    pub bullet: Option<Bullet>,
    /// What is after the numbers of all lists; `None`: what is after the first one in the source.
    pub delimiter: Option<Delimiter>,
    pub numbering: Numbering,
    /// What is round emphasis; `None`: each has that of the source.
    pub emphasis: Option<Marker>,
    /// What is round strong emphasis; `None`: each has that of the source.
    pub strong: Option<Marker>,
    /// What fences are made of; `None`: each as in the source.
    pub fence: Option<Fence>,
    /// The least length of a fence: less than 3 is taken for 3, more than 1,000 for 1,000.
    pub fence_length: usize,
    pub hard_break: HardBreak,
    pub rule: Rule,
    pub headings: Headings,
    pub tables: Tables,
    /// How many columns a table may take. The cells of wider ones aren't padded, unless those of the source are.
    pub table_width: usize,
    pub wrap: Wrap,
    pub list_indent: ListIndent,
}

impl Style {
    /// Bullets, delimiters, numbers, indents of items, emphasis, fences and breaks of lines as in the source, rules of `---`,
    /// headings after `#`, fences of three, and tables that are aligned up to 120 columns.
    pub fn new() -> Style
        ensures { result ≡ usual_style }
    {
        Style {
            bullet: None,
            delimiter: None,
            numbering: Numbering::Source,
            emphasis: None,
            strong: None,
            fence: None,
            fence_length: 3,
            hard_break: HardBreak::Source,
            rule: Rule::Dashes,
            headings: Headings::Signs,
            tables: Tables::Aligned,
            table_width: 120,
            wrap: Wrap::Keep,
            list_indent: ListIndent::Source,
        }
    }
}
