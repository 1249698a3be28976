//! The names in the form of events: all of them, and the numbers by which bytes for Python's `marshal` refer to them.

/// `)`, how many names there are, and for each one `Z` with the bit that lets it be referred to, its length and its
/// letters.
pub(crate) const ALL_NAMES: &[u8] = b")\x49\
    \xda\x05Start\xda\x03End\xda\x04Text\xda\x04Code\xda\x0aInlineMath\xda\x0bDisplayMath\
    \xda\x04Html\xda\x0aInlineHtml\xda\x11FootnoteReference\xda\x09SoftBreak\xda\x09HardBreak\
    \xda\x04Rule\xda\x0eTaskListMarker\xda\x09Paragraph\xda\x07Heading\xda\x0aBlockQuote\
    \xda\x09CodeBlock\xda\x09HtmlBlock\xda\x04List\xda\x04Item\xda\x12FootnoteDefinition\
    \xda\x0eDefinitionList\xda\x13DefinitionListTitle\xda\x18DefinitionListDefinition\xda\x05Table\
    \xda\x09TableHead\xda\x08TableRow\xda\x09TableCell\xda\x08Emphasis\xda\x06Strong\
    \xda\x0dStrikethrough\xda\x0bSuperscript\xda\x09Subscript\xda\x04Link\xda\x05Image\
    \xda\x0dMetadataBlock\xda\x05attrs\xda\x07classes\xda\x02id\xda\x05level\xda\x08dest_url\
    \xda\x09link_type\xda\x05title\xda\x08Indented\xda\x06Fenced\xda\x02H1\xda\x02H2\xda\x02H3\
    \xda\x02H4\xda\x02H5\xda\x02H6\xda\x04Note\xda\x03Tip\xda\x09Important\xda\x07Warning\
    \xda\x07Caution\xda\x04None\xda\x04Left\xda\x06Center\xda\x05Right\xda\x09YamlStyle\
    \xda\x0bPlusesStyle\xda\x06Inline\xda\x09Reference\xda\x10ReferenceUnknown\xda\x09Collapsed\
    \xda\x10CollapsedUnknown\xda\x08Shortcut\xda\x0fShortcutUnknown\xda\x08Autolink\xda\x05Email\
    \xda\x08WikiLink\xda\x0bhas_pothole";

pub(crate) const START: u8 = 0;

pub(crate) const END: u8 = 1;

pub(crate) const TEXT: u8 = 2;

pub(crate) const CODE: u8 = 3;

pub(crate) const INLINE_MATH: u8 = 4;

pub(crate) const DISPLAY_MATH: u8 = 5;

pub(crate) const HTML: u8 = 6;

pub(crate) const INLINE_HTML: u8 = 7;

pub(crate) const FOOTNOTE_REFERENCE: u8 = 8;

pub(crate) const SOFT_BREAK: u8 = 9;

pub(crate) const HARD_BREAK: u8 = 10;

pub(crate) const RULE: u8 = 11;

pub(crate) const TASK_LIST_MARKER: u8 = 12;

pub(crate) const PARAGRAPH: u8 = 13;

pub(crate) const HEADING: u8 = 14;

pub(crate) const BLOCK_QUOTE: u8 = 15;

pub(crate) const CODE_BLOCK: u8 = 16;

pub(crate) const HTML_BLOCK: u8 = 17;

pub(crate) const LIST: u8 = 18;

pub(crate) const ITEM: u8 = 19;

pub(crate) const FOOTNOTE_DEFINITION: u8 = 20;

pub(crate) const DEFINITION_LIST: u8 = 21;

pub(crate) const DEFINITION_LIST_TITLE: u8 = 22;

pub(crate) const DEFINITION_LIST_DEFINITION: u8 = 23;

pub(crate) const TABLE: u8 = 24;

pub(crate) const TABLE_HEAD: u8 = 25;

pub(crate) const TABLE_ROW: u8 = 26;

pub(crate) const TABLE_CELL: u8 = 27;

pub(crate) const EMPHASIS: u8 = 28;

pub(crate) const STRONG: u8 = 29;

pub(crate) const STRIKETHROUGH: u8 = 30;

pub(crate) const SUPERSCRIPT: u8 = 31;

pub(crate) const SUBSCRIPT: u8 = 32;

pub(crate) const LINK: u8 = 33;

pub(crate) const IMAGE: u8 = 34;

pub(crate) const METADATA_BLOCK: u8 = 35;

pub(crate) const ATTRS: u8 = 36;

pub(crate) const CLASSES: u8 = 37;

pub(crate) const ID: u8 = 38;

pub(crate) const LEVEL: u8 = 39;

pub(crate) const DEST_URL: u8 = 40;

pub(crate) const LINK_TYPE: u8 = 41;

pub(crate) const TITLE: u8 = 42;

pub(crate) const INDENTED: u8 = 43;

pub(crate) const FENCED: u8 = 44;

pub(crate) const H1: u8 = 45;

pub(crate) const H2: u8 = 46;

pub(crate) const H3: u8 = 47;

pub(crate) const H4: u8 = 48;

pub(crate) const H5: u8 = 49;

pub(crate) const H6: u8 = 50;

pub(crate) const NOTE: u8 = 51;

pub(crate) const TIP: u8 = 52;

pub(crate) const IMPORTANT: u8 = 53;

pub(crate) const WARNING: u8 = 54;

pub(crate) const CAUTION: u8 = 55;

pub(crate) const NO_ALIGNMENT: u8 = 56;

pub(crate) const LEFT: u8 = 57;

pub(crate) const CENTER: u8 = 58;

pub(crate) const RIGHT: u8 = 59;

pub(crate) const YAML_STYLE: u8 = 60;

pub(crate) const PLUSES_STYLE: u8 = 61;

pub(crate) const INLINE: u8 = 62;

pub(crate) const REFERENCE: u8 = 63;

pub(crate) const REFERENCE_UNKNOWN: u8 = 64;

pub(crate) const COLLAPSED: u8 = 65;

pub(crate) const COLLAPSED_UNKNOWN: u8 = 66;

pub(crate) const SHORTCUT: u8 = 67;

pub(crate) const SHORTCUT_UNKNOWN: u8 = 68;

pub(crate) const AUTOLINK: u8 = 69;

pub(crate) const EMAIL: u8 = 70;

pub(crate) const WIKI_LINK: u8 = 71;

pub(crate) const HAS_POTHOLE: u8 = 72;
