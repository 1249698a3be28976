//! HTML blocks (CommonMark 4.6).

ghost use Rattle.std.specs.Prelude.{◌≡◌};
ghost use Rattle.std.specs.List.{list_any};
ghost use Rattle.tocmark_read_lines.specs.Html.{same_word, is_raw_name, is_block_name, ends_name, is_raw, block_tag, is_block_tag, tag_end, is_tag_line, html_kind, holds_from, holds_raw_end, html_ends};

use tocmark_read_scan::basic::{byte_at, bytes_between, starts_at};
use tocmark_read_scan::class::{Class, run_end};
use tocmark_read_tokens::html::{closing_tag, open_tag};

/// The seven kinds of HTML blocks.
#[derive(Clone, Copy, PartialEq, Eq)]
pub enum HtmlKind {
    /// `<script`, `<pre`, `<style` or `<textarea`, up to such a closing tag
    Raw,
    /// `<!--`, up to `-->`
    Comment,
    /// `<?`, up to `?>`
    Instruction,
    /// `<!` and a letter, up to `>`
    Declaration,
    /// `<![CDATA[`, up to `]]>`
    CharacterData,
    /// a tag that is in a list of names, up to a blank line
    Named,
    /// any other tag alone on its line, up to a blank line
    Alone,
}

const RAW_NAMES: [&str; 4] = ["script", "pre", "style", "textarea"];

const RAW_ENDS: [&str; 4] = ["</script>", "</pre>", "</style>", "</textarea>"];

const BLOCK_NAMES: [&str; 62] = [
    "address",
    "article",
    "aside",
    "base",
    "basefont",
    "blockquote",
    "body",
    "caption",
    "center",
    "col",
    "colgroup",
    "dd",
    "details",
    "dialog",
    "dir",
    "div",
    "dl",
    "dt",
    "fieldset",
    "figcaption",
    "figure",
    "footer",
    "form",
    "frame",
    "frameset",
    "h1",
    "h2",
    "h3",
    "h4",
    "h5",
    "h6",
    "head",
    "header",
    "hr",
    "html",
    "iframe",
    "legend",
    "li",
    "link",
    "main",
    "menu",
    "menuitem",
    "nav",
    "noframes",
    "ol",
    "optgroup",
    "option",
    "p",
    "param",
    "search",
    "section",
    "summary",
    "table",
    "tbody",
    "td",
    "tfoot",
    "th",
    "thead",
    "title",
    "tr",
    "track",
    "ul",
];

/// Whether two words are the same but for the case of ASCII letters.
pub fn same_word(a: &[u8], b: &[u8]) -> bool
    ensures { result ≡ same_word a.now b.now }
{
    a.eq_ignore_ascii_case(b)
}

fn is_among(names: &[&str], name: &[u8]) -> bool
    ensures { result ≡ list_any (λ w. same_word name.now w.now) names.now }
{
    names.iter().any(|word| same_word(name, word.as_bytes()))
}

#[tactic(auto, unfolding(crate::specs::Html::is_raw_name))]
fn is_raw_name(name: &[u8]) -> bool
    ensures { result ≡ is_raw_name name.now }
{
    is_among(&RAW_NAMES, name)
}

#[tactic(auto, unfolding(crate::specs::Html::is_block_name))]
fn is_block_name(name: &[u8]) -> bool
    ensures { result ≡ is_block_name name.now }
{
    is_among(&BLOCK_NAMES, name)
}

/// Whether white space, `>` or the end of the line is at a place.
#[tactic(auto, unfolding(crate::specs::Html::ends_name))]
fn ends_name(line: &[u8], place: usize) -> bool
    ensures { result ≡ ends_name line.now place }
{
    let byte = byte_at(line, place);
    line.len() <= place || byte == b' ' || byte == b'\t' || byte == b'>'
}

#[tactic(auto, unfolding(crate::specs::Html::is_raw))]
fn is_raw(line: &[u8]) -> bool
    ensures { result ≡ is_raw line.now }
{
    let end = run_end(line, 1, Class::TagName);
    is_raw_name(bytes_between(line, 1, end)) && ends_name(line, end)
}

/// Whether a line begins with a tag of a block whose name is at a place.
#[tactic(auto, unfolding(crate::specs::Html::block_tag))]
fn block_tag(line: &[u8], place: usize) -> bool
    ensures { result ≡ block_tag line.now place }
{
    let end = run_end(line, place, Class::TagName);
    let closed = ends_name(line, end) || starts_at(line, end, b"/>");
    closed && is_block_name(bytes_between(line, place, end))
}

#[tactic(auto, unfolding(crate::specs::Html::is_block_tag))]
fn is_block_tag(line: &[u8]) -> bool
    ensures { result ≡ is_block_tag line.now }
{
    if byte_at(line, 1) == b'/' {
        block_tag(line, 2)
    } else {
        block_tag(line, 1)
    }
}

/// The place after the tag that a line begins with, if it may be alone.
#[tactic(auto, unfolding(crate::specs::Html::tag_end))]
fn tag_end(line: &[u8]) -> Option<usize>
    ensures { result ≡ tag_end line.now }
{
    if byte_at(line, 1) == b'/' {
        return closing_tag(line, 0);
    }
    if is_raw_name(bytes_between(line, 1, run_end(line, 1, Class::TagName))) {
        None
    } else {
        open_tag(line, 0)
    }
}

#[tactic(auto, unfolding(crate::specs::Html::is_tag_line))]
fn is_tag_line(line: &[u8]) -> bool
    ensures { result ≡ is_tag_line line.now }
{
    match tag_end(line) {
        None => false,
        Some(end) => line.len() <= run_end(line, end, Class::Blank),
    }
}

/// The kind of HTML block that a line begins, if it begins one. `line` are its bytes without its
/// indentation and its line ending.
#[tactic(auto, unfolding(crate::specs::Html::html_kind))]
pub fn html_kind(line: &[u8]) -> Option<HtmlKind>
    ensures { result ≡ html_kind line.now }
{
    if byte_at(line, 0) != b'<' {
        None
    } else if is_raw(line) {
        Some(HtmlKind::Raw)
    } else if starts_at(line, 0, b"<!--") {
        Some(HtmlKind::Comment)
    } else if starts_at(line, 0, b"<?") {
        Some(HtmlKind::Instruction)
    } else if byte_at(line, 1) == b'!' && byte_at(line, 2).is_ascii_alphabetic() {
        Some(HtmlKind::Declaration)
    } else if starts_at(line, 0, b"<![CDATA[") {
        Some(HtmlKind::CharacterData)
    } else if is_block_tag(line) {
        Some(HtmlKind::Named)
    } else if is_tag_line(line) {
        Some(HtmlKind::Alone)
    } else {
        None
    }
}

/// Whether a word is in a line.
#[tactic(auto, using(crate::proofs::Steps::holds_more))]
fn holds(line: &[u8], word: &[u8]) -> bool
    ensures { result ≡ holds_from line.now word.now 0 line.now }
{
    for (place, _byte) in line.iter().enumerate() {
        if same_word(
            bytes_between(line, place, place.saturating_add(word.len())),
            word,
        ) {
            return true;
        }
    }
    false
}

fn holds_one(line: &[u8], words: &[&str]) -> bool
    ensures { result ≡ list_any (λ w. holds_from line.now w.now 0 line.now) words.now }
{
    words.iter().any(|word| holds(line, word.as_bytes()))
}

#[tactic(auto, unfolding(crate::specs::Html::holds_raw_end))]
fn holds_raw_end(line: &[u8]) -> bool
    ensures { result ≡ holds_raw_end line.now }
{
    holds_one(line, &RAW_ENDS)
}

/// Whether a line with these bytes is the last one of an HTML block of a kind.
#[tactic(auto, unfolding(crate::specs::Html::html_ends))]
pub fn html_ends(kind: HtmlKind, line: &[u8]) -> bool
    ensures { result ≡ html_ends kind line.now }
{
    match kind {
        HtmlKind::Raw => holds_raw_end(line),
        HtmlKind::Comment => holds(line, b"-->"),
        HtmlKind::Instruction => holds(line, b"?>"),
        HtmlKind::Declaration => holds(line, b">"),
        HtmlKind::CharacterData => holds(line, b"]]>"),
        HtmlKind::Named => false,
        HtmlKind::Alone => false,
    }
}
