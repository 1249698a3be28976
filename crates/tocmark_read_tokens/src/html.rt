//! Raw HTML: tags, comments, processing instructions, declarations and CDATA.

ghost use Rattle.std.specs.Prelude.{◌≡◌, codes, length};
ghost use Rattle.tocmark_read_scan.specs.Repeat.{iterated};
ghost use Rattle.tocmark_read_tokens.specs.Html.{name_end, closing_tag, quoted_end, value, value_end, attribute, tag_close, open_tag, further, nearer, last_of, last_ends, found_within, comment, declaration, raw_html};

use tocmark_read_scan::basic::{byte_at, starts_at};
use tocmark_read_scan::class::{Class, has_byte, is_in, run_end};

/// For each kind of raw HTML that ends by a word of its own, the place after the first byte of the
/// last such word of a text; 0 where there is none. So a search that would find nothing isn't begun.
#[derive(Clone, Copy)]
pub struct LastEnds {
    /// `-->`
    pub comment: usize,
    /// `?>`
    pub instruction: usize,
    /// `]]>`
    pub cdata: usize,
    /// `>`
    pub declaration: usize,
}

/// The place after the name of a tag at a place.
#[tactic(auto, unfolding(crate::specs::Html::name_end))]
fn name_end(bytes: &[u8], place: usize) -> Option<usize>
    ensures { result ≡ name_end bytes.now place }
{
    if byte_at(bytes, place).is_ascii_alphabetic() {
        Some(run_end(bytes, place, Class::TagName))
    } else {
        None
    }
}

/// The place after the closing tag whose `</` is at a place.
#[tactic(auto, unfolding(crate::specs::Html::closing_tag))]
pub fn closing_tag(bytes: &[u8], place: usize) -> Option<usize>
    ensures { result ≡ closing_tag bytes.now place }
{
    let name = name_end(bytes, place.saturating_add(2))?;
    let end = run_end(bytes, name, Class::White);
    if byte_at(bytes, end) == b'>' {
        Some(end.saturating_add(1))
    } else {
        None
    }
}

/// The place after a value between quotes, whose first byte is at a place.
#[tactic(auto, unfolding(crate::specs::Html::quoted_end))]
fn quoted_end(bytes: &[u8], place: usize, quote: u8) -> Option<usize>
    ensures { result ≡ quoted_end bytes.now place quote }
{
    let end = run_end(bytes, place.saturating_add(1), Class::Except(quote));
    if byte_at(bytes, end) == quote {
        Some(end.saturating_add(1))
    } else {
        None
    }
}

/// The place after the value of an attribute at a place.
#[tactic(auto, unfolding(crate::specs::Html::value))]
fn value(bytes: &[u8], place: usize) -> Option<usize>
    ensures { result ≡ value bytes.now place }
{
    let first = byte_at(bytes, place);
    if first == b'"' {
        return quoted_end(bytes, place, b'"');
    }
    if first == b'\'' {
        return quoted_end(bytes, place, b'\'');
    }
    let end = run_end(bytes, place, Class::Unquoted);
    if end == place { None } else { Some(end) }
}

/// The place after the value after an attribute's name; the same place where it has none.
#[tactic(auto, unfolding(crate::specs::Html::value_end))]
fn value_end(bytes: &[u8], place: usize) -> Option<usize>
    ensures { result ≡ value_end bytes.now place }
{
    let at = run_end(bytes, place, Class::White);
    if byte_at(bytes, at) == b'=' {
        value(bytes, run_end(bytes, at.saturating_add(1), Class::White))
    } else {
        Some(place)
    }
}

/// The place after the attribute after white space at a place.
#[tactic(auto, unfolding(crate::specs::Html::attribute))]
fn attribute(bytes: &[u8], place: usize) -> Option<usize>
    ensures { result ≡ attribute bytes.now place }
{
    let at = run_end(bytes, place, Class::White);
    let begins = at != place && is_in(Class::AttributeStart, byte_at(bytes, at));
    if begins {
        value_end(bytes, run_end(bytes, at, Class::AttributeName))
    } else {
        None
    }
}

/// The place after the attributes at a place.
#[tactic(auto, using(tocmark_read_scan::proofs::Repeats::iterated_zero, tocmark_read_scan::proofs::Repeats::iterated_stop, tocmark_read_scan::proofs::Repeats::iterated_more))]
fn attributes_end(bytes: &[u8], place: usize) -> usize
    ensures { result ≡ iterated (attribute bytes.now) (length bytes.now) place }
{
    let mut end = place;
    for _steps_left in (0..bytes.len()).rev() {
        match attribute(bytes, end) {
            None => return end,
            Some(next) => end = next,
        }
    }
    end
}

/// The place after the end of an open tag, `>` or `/>` after white space.
#[tactic(auto, unfolding(crate::specs::Html::tag_close))]
fn tag_close(bytes: &[u8], place: usize) -> Option<usize>
    ensures { result ≡ tag_close bytes.now place }
{
    let at = run_end(bytes, place, Class::White);
    if byte_at(bytes, at) == b'>' {
        Some(at.saturating_add(1))
    } else if starts_at(bytes, at, b"/>") {
        Some(at.saturating_add(2))
    } else {
        None
    }
}

/// The place after the open tag whose `<` is at a place.
#[tactic(auto, unfolding(crate::specs::Html::open_tag))]
pub fn open_tag(bytes: &[u8], place: usize) -> Option<usize>
    ensures { result ≡ open_tag bytes.now place }
{
    let name = name_end(bytes, place.saturating_add(1))?;
    tag_close(bytes, attributes_end(bytes, name))
}

/// The next place, unless the word is here or the text ends.
#[tactic(auto, unfolding(crate::specs::Html::further))]
fn further(bytes: &[u8], word: &[u8], place: usize) -> Option<usize>
    ensures { result ≡ further bytes.now word.now place }
{
    let goes_on = place < bytes.len() && !starts_at(bytes, place, word);
    if goes_on {
        Some(place.saturating_add(1))
    } else {
        None
    }
}

/// The place of the first word like this one from a place on, or the end of the text.
#[tactic(auto, using(tocmark_read_scan::proofs::Repeats::iterated_zero, tocmark_read_scan::proofs::Repeats::iterated_stop, tocmark_read_scan::proofs::Repeats::iterated_more))]
fn first_from(bytes: &[u8], word: &[u8], from: usize) -> usize
    ensures { result ≡ iterated (further bytes.now word.now) (length bytes.now) from }
{
    let mut place = from;
    for _steps_left in (0..bytes.len()).rev() {
        match further(bytes, word, place) {
            None => return place,
            Some(next) => place = next,
        }
    }
    place
}

/// The place before, unless the word is here or the text begins.
#[tactic(auto, unfolding(crate::specs::Html::nearer))]
fn nearer(bytes: &[u8], word: &[u8], place: usize) -> Option<usize>
    ensures { result ≡ nearer bytes.now word.now place }
{
    let goes_on = place > 0 && !starts_at(bytes, place, word);
    if goes_on {
        Some(place.saturating_sub(1))
    } else {
        None
    }
}

/// The place of the last word like this one, or 0.
#[tactic(auto, using(tocmark_read_scan::proofs::Repeats::iterated_zero, tocmark_read_scan::proofs::Repeats::iterated_stop, tocmark_read_scan::proofs::Repeats::iterated_more))]
fn last_before(bytes: &[u8], word: &[u8]) -> usize
    ensures { result ≡ iterated (nearer bytes.now word.now) (length bytes.now) (length bytes.now) }
{
    let mut place = bytes.len();
    for _steps_left in (0..bytes.len()).rev() {
        match nearer(bytes, word, place) {
            None => return place,
            Some(next) => place = next,
        }
    }
    place
}

/// The place after the first byte of the last word like this one; 0 if there is none.
#[tactic(auto, unfolding(crate::specs::Html::last_of))]
fn last_of(bytes: &[u8], word: &[u8]) -> usize
    ensures { result ≡ last_of bytes.now word.now }
{
    let place = last_before(bytes, word);
    if starts_at(bytes, place, word) {
        place.saturating_add(1)
    } else {
        0
    }
}

/// The place after the first byte of the last `-->`; 0 if there is none. It is looked for only if the text has a
/// hyphen.
#[tactic(auto, using(crate::proofs::NoWord::no_comment))]
fn last_comment(bytes: &[u8]) -> usize
    ensures { result ≡ last_of bytes.now (codes "-->") }
{
    if has_byte(bytes, b'-') {
        last_of(bytes, b"-->")
    } else {
        0
    }
}

/// The place after the first byte of the last `?>`; 0 if there is none. It is looked for only if the text has a
/// question mark.
#[tactic(auto, using(crate::proofs::NoWord::no_instruction))]
fn last_instruction(bytes: &[u8]) -> usize
    ensures { result ≡ last_of bytes.now (codes "?>") }
{
    if has_byte(bytes, b'?') {
        last_of(bytes, b"?>")
    } else {
        0
    }
}

/// The place after the first byte of the last `]]>`; 0 if there is none. It is looked for only if the text has a `]`.
#[tactic(auto, using(crate::proofs::NoWord::no_cdata))]
fn last_cdata(bytes: &[u8]) -> usize
    ensures { result ≡ last_of bytes.now (codes "]]>") }
{
    if has_byte(bytes, b']') {
        last_of(bytes, b"]]>")
    } else {
        0
    }
}

/// Where a text's last comment, instruction, CDATA section and declaration can end. `raw_html` needs it, once for each
/// text.
#[tactic(auto, unfolding(crate::specs::Html::last_ends))]
pub fn last_ends(bytes: &[u8]) -> LastEnds
    ensures { result ≡ last_ends bytes.now }
{
    LastEnds {
        comment: last_comment(bytes),
        instruction: last_instruction(bytes),
        cdata: last_cdata(bytes),
        declaration: last_of(bytes, b">"),
    }
}

/// The place after the first word like this one from a place on, where the last such word begins
/// before `last`.
#[tactic(auto, unfolding(crate::specs::Html::found_within))]
fn found_within(bytes: &[u8], from: usize, word: &[u8], last: usize) -> Option<usize>
    ensures { result ≡ found_within bytes.now from word.now last }
{
    if from < last {
        Some(first_from(bytes, word, from).saturating_add(word.len()))
    } else {
        None
    }
}

/// The place after the comment whose `<!--` is at a place.
#[tactic(auto, unfolding(crate::specs::Html::comment))]
fn comment(bytes: &[u8], place: usize, last: usize) -> Option<usize>
    ensures { result ≡ comment bytes.now place last }
{
    if starts_at(bytes, place, b"<!-->") {
        Some(place.saturating_add(5))
    } else if starts_at(bytes, place, b"<!--->") {
        Some(place.saturating_add(6))
    } else {
        found_within(bytes, place.saturating_add(4), b"-->", last)
    }
}

/// The place after the declaration whose `<!` is at a place.
#[tactic(auto, unfolding(crate::specs::Html::declaration))]
fn declaration(bytes: &[u8], place: usize, last: usize) -> Option<usize>
    ensures { result ≡ declaration bytes.now place last }
{
    if byte_at(bytes, place.saturating_add(2)).is_ascii_alphabetic() {
        found_within(bytes, place.saturating_add(3), b">", last)
    } else {
        None
    }
}

/// The place after the raw HTML that begins at a place. `last` is `last_ends` of the text.
#[tactic(auto, unfolding(crate::specs::Html::raw_html))]
pub fn raw_html(bytes: &[u8], place: usize, last: LastEnds) -> Option<usize>
    ensures { result ≡ raw_html bytes.now place last }
{
    if starts_at(bytes, place, b"</") {
        closing_tag(bytes, place)
    } else if starts_at(bytes, place, b"<?") {
        found_within(bytes, place.saturating_add(2), b"?>", last.instruction)
    } else if starts_at(bytes, place, b"<!--") {
        comment(bytes, place, last.comment)
    } else if starts_at(bytes, place, b"<![CDATA[") {
        found_within(bytes, place.saturating_add(9), b"]]>", last.cdata)
    } else if starts_at(bytes, place, b"<!") {
        declaration(bytes, place, last.declaration)
    } else {
        open_tag(bytes, place)
    }
}
