//! Which extensions of CommonMark a reading takes, and which names of character references it knows.
//!
//! Below it is nothing, above it the crates of the reader that know an extension. Enter at `Syntax`.

/// Which names of character references are known.
#[derive(Clone, Copy, Debug)]
pub enum Names {
    /// `amp`, `lt`, `gt` and `quot`.
    Four,
    /// The 2,125 names of HTML that end with a semicolon there.
    All,
}

/// The extensions that are read, one truth for each, and the names of character references.
#[derive(Clone, Copy)]
pub struct Syntax {
    /// Tables: rows of cells between bars, below a row of dashes.
    pub tables: bool,
    /// Footnotes: references to labels that begin with a caret, and their definitions.
    pub footnotes: bool,
    /// Strikethrough: one or two tildes on either side.
    pub strikethrough: bool,
    /// Subscripts: one tilde on either side.
    pub subscript: bool,
    /// Superscripts: carets on either side.
    pub superscript: bool,
    /// Mathematics: one or two dollar signs on either side.
    pub math: bool,
    /// Task lists: boxes at the front of items.
    pub task_lists: bool,
    /// Metadata between lines of `---`.
    pub yaml_metadata: bool,
    /// Metadata between lines of `+++`.
    pub pluses_metadata: bool,
    /// Kinds of block quotes: a word such as `[!NOTE]` on a quote's first line.
    pub quote_kinds: bool,
    /// Attributes of headings: words between braces after a heading's text.
    pub heading_attributes: bool,
    /// Definition lists: lines that begin with a colon, below a title.
    pub definition_lists: bool,
    /// Whether a reference to a footnote counts without a definition of the footnote.
    pub undefined_notes: bool,
    /// The names of character references.
    pub names: Names,
}

/// CommonMark 0.31.2 without extensions.
pub const CORE: Syntax = Syntax {
    tables: false,
    footnotes: false,
    strikethrough: false,
    subscript: false,
    superscript: false,
    math: false,
    task_lists: false,
    yaml_metadata: false,
    pluses_metadata: false,
    quote_kinds: false,
    heading_attributes: false,
    definition_lists: false,
    undefined_notes: false,
    names: Names::Four,
};
