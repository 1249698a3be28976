//! What the options of formatting name, on the command line and in configuration files.

use crate::settings::Settings;
use tocmark_command::syntax::{extended, syntax_named};
use tocmark_print::{
    Bullet, Delimiter, Fence, HardBreak, Headings, ListIndent, Marker, Numbering, Rule, Style,
    Tables, Wrap,
};

/// An option of formatting. `KEYS` has the name of each.
#[derive(Clone, Copy, Drop)]
pub enum Key {
    Syntax,
    Extension,
    AlsoRead,
    Look,
    Bullet,
    Ordered,
    Numbering,
    Emphasis,
    Strong,
    Fence,
    FenceLength,
    HardBreak,
    Rule,
    Heading,
    Tables,
    TableWidth,
    ListIndent,
    Wrap,
}

/// An option with its value.
#[derive(Drop)]
pub struct Setting {
    /// Which option is set.
    pub key: Key,
    /// Its value, as it is written.
    pub word: String,
}

/// The options by their names, with what each takes, as messages say it. Those that others change come first.
pub const KEYS: [(&str, Key, &str); 18] = [
    ("syntax", Key::Syntax, "commonmark, gfm or all"),
    (
        "extension",
        Key::Extension,
        "a name that --help lists, or no- before one",
    ),
    ("also-read", Key::AlsoRead, "commonmark, gfm, all or none"),
    ("look", Key::Look, "source or one"),
    ("bullet", Key::Bullet, "*, -, + or source"),
    ("ordered", Key::Ordered, "., ) or source"),
    ("numbering", Key::Numbering, "source, first or increment"),
    ("emphasis", Key::Emphasis, "*, _ or source"),
    ("strong", Key::Strong, "**, __ or source"),
    ("fence", Key::Fence, "`, ~ or source"),
    ("fence-length", Key::FenceLength, "a number from 3 to 1000"),
    ("hard-break", Key::HardBreak, "source, backslash or spaces"),
    ("rule", Key::Rule, "--- or source"),
    ("heading", Key::Heading, "# or source"),
    ("tables", Key::Tables, "aligned or source"),
    ("table-width", Key::TableWidth, "a number from 1 to 1000"),
    ("list-indent", Key::ListIndent, "source, marker or 4"),
    (
        "wrap",
        Key::Wrap,
        "keep, no, sentence or a number from 1 to 1000",
    ),
];

/// What sets many options at once.
#[derive(Clone, Copy)]
enum Look {
    /// All are as in the source.
    Source,
    /// All texts get the same bullets, numbers, markers and breaks.
    One,
}

const LOOKS: [(&str, Look); 2] = [("source", Look::Source), ("one", Look::One)];

const BULLETS: [(&str, Option<Bullet>); 4] = [
    ("*", Some(Bullet::Asterisk)),
    ("-", Some(Bullet::Hyphen)),
    ("+", Some(Bullet::Plus)),
    ("source", None),
];

const DELIMITERS: [(&str, Option<Delimiter>); 3] = [
    (".", Some(Delimiter::Period)),
    (")", Some(Delimiter::Parenthesis)),
    ("source", None),
];

const NUMBERINGS: [(&str, Numbering); 3] = [
    ("source", Numbering::Source),
    ("first", Numbering::First),
    ("increment", Numbering::Increment),
];

const EMPHASES: [(&str, Option<Marker>); 3] = [
    ("*", Some(Marker::Asterisk)),
    ("_", Some(Marker::Underscore)),
    ("source", None),
];

const STRONGS: [(&str, Option<Marker>); 3] = [
    ("**", Some(Marker::Asterisk)),
    ("__", Some(Marker::Underscore)),
    ("source", None),
];

const FENCES: [(&str, Option<Fence>); 3] = [
    ("`", Some(Fence::Backtick)),
    ("~", Some(Fence::Tilde)),
    ("source", None),
];

const HARD_BREAKS: [(&str, HardBreak); 3] = [
    ("source", HardBreak::Source),
    ("backslash", HardBreak::Backslash),
    ("spaces", HardBreak::Blanks),
];

const RULES: [(&str, Rule); 2] = [("---", Rule::Dashes), ("source", Rule::Source)];

const HEADINGS: [(&str, Headings); 2] = [("#", Headings::Signs), ("source", Headings::Source)];

const TABLES: [(&str, Tables); 2] = [("aligned", Tables::Aligned), ("source", Tables::Source)];

const LIST_INDENTS: [(&str, ListIndent); 3] = [
    ("source", ListIndent::Source),
    ("marker", ListIndent::Marker),
    ("4", ListIndent::Four),
];

const WRAPS: [(&str, Wrap); 3] = [
    ("keep", Wrap::Keep),
    ("no", Wrap::No),
    ("sentence", Wrap::Sentence),
];

/// The indents of items that are alike in all texts: four columns where a site of MkDocs asks for them, else one blank.
fn one_indent(indent: ListIndent) -> ListIndent {
    match indent {
        ListIndent::Four => ListIndent::Four,
        ListIndent::Marker | ListIndent::Source => ListIndent::Marker,
    }
}

impl Look {
    /// A style with the options that it sets.
    fn of(self, style: Style) -> Style {
        match self {
            Look::Source => Style {
                bullet: None,
                delimiter: None,
                numbering: Numbering::Source,
                emphasis: None,
                strong: None,
                fence: None,
                hard_break: HardBreak::Source,
                rule: Rule::Source,
                headings: Headings::Source,
                tables: Tables::Source,
                list_indent: ListIndent::Source,
                ..style
            },
            Look::One => Style {
                bullet: Some(Bullet::Hyphen),
                delimiter: Some(Delimiter::Period),
                numbering: Numbering::Increment,
                emphasis: Some(Marker::Asterisk),
                strong: Some(Marker::Asterisk),
                fence: Some(Fence::Backtick),
                hard_break: HardBreak::Backslash,
                rule: Rule::Dashes,
                headings: Headings::Signs,
                tables: Tables::Aligned,
                list_indent: one_indent(style.list_indent),
                ..style
            },
        }
    }
}

/// The value of a name in a table. `None`: the table lacks the name.
pub fn named<T: Copy>(table: &[(&str, T)], name: &str) -> Option<T> {
    for (known, value) in table {
        if *known == name {
            return Some(*value);
        }
    }
    None
}

/// The option with this name, the name, and what it takes.
pub(crate) fn key_named(name: &str) -> Option<(Key, &'static str, &'static str)> {
    for (known, key, wanted) in &KEYS {
        if *known == name {
            return Some((*key, *known, *wanted));
        }
    }
    None
}

/// Puts a value into a field, if there is one, and says whether there is.
fn put<T: Copy>(field: &mut T, value: Option<T>) -> bool {
    match value {
        Some(value) => {
            *field = value;
            true
        }
        None => false,
    }
}

/// The length of a fence that a word says.
fn length_of(word: &str) -> Option<usize> {
    let length: usize = word.parse().ok()?;
    if length < 3 || length > 1000 {
        return None;
    }
    Some(length)
}

/// The columns that a word says.
pub(crate) fn width_of(word: &str) -> Option<usize> {
    let width: usize = word.parse().ok()?;
    if width < 1 || width > 1000 {
        return None;
    }
    Some(width)
}

/// Where lines break that a word says.
fn wrap_of(word: &str) -> Option<Wrap> {
    match width_of(word) {
        Some(width) => Some(Wrap::At(width)),
        None => named(&WRAPS, word),
    }
}

/// Sets each option to what its word says, in the order of the list.
///
/// The answer is an `Err` with the first option that takes no such word. Then those before it are set, and no other.
pub fn set_all(settings: &mut Settings, values: &[Setting]) -> Result<(), Key> {
    for Setting { key, word } in values {
        if !set(settings, *key, word.as_str()) {
            return Err(*key);
        }
    }
    Ok(())
}

/// Sets an option to what a word says. `false`: it takes no such word, and nothing is changed.
pub fn set(settings: &mut Settings, key: Key, word: &str) -> bool {
    let Settings {
        flags,
        style,
        also,
        ..
    } = settings;
    match key {
        Key::Syntax => put(flags, syntax_named(word)),
        Key::Extension => {
            let with = extended(*flags, word);
            put(flags, with)
        }
        Key::AlsoRead => {
            let with = also.with(word);
            put(also, with)
        }
        Key::Look => {
            let look = named(&LOOKS, word).map(|look| look.of(*style));
            put(style, look)
        }
        Key::Bullet => put(&mut style.bullet, named(&BULLETS, word)),
        Key::Ordered => put(&mut style.delimiter, named(&DELIMITERS, word)),
        Key::Numbering => put(&mut style.numbering, named(&NUMBERINGS, word)),
        Key::Emphasis => put(&mut style.emphasis, named(&EMPHASES, word)),
        Key::Strong => put(&mut style.strong, named(&STRONGS, word)),
        Key::Fence => put(&mut style.fence, named(&FENCES, word)),
        Key::FenceLength => put(&mut style.fence_length, length_of(word)),
        Key::HardBreak => put(&mut style.hard_break, named(&HARD_BREAKS, word)),
        Key::Rule => put(&mut style.rule, named(&RULES, word)),
        Key::Heading => put(&mut style.headings, named(&HEADINGS, word)),
        Key::Tables => put(&mut style.tables, named(&TABLES, word)),
        Key::TableWidth => put(&mut style.table_width, width_of(word)),
        Key::ListIndent => put(&mut style.list_indent, named(&LIST_INDENTS, word)),
        Key::Wrap => put(&mut style.wrap, wrap_of(word)),
    }
}
