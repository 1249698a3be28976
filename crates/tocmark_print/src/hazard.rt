//! Words that would begin a block at the front of a line.

/// A text up to its first blank.
fn first_word(line: &str) -> &str {
    match line.split_once(' ') {
        Some((word, _)) => word,
        None => line,
    }
}

/// Whether a word is a marker of items.
fn is_marker(word: &str) -> bool {
    match word.as_bytes().split_last() {
        Some((b'-' | b'+' | b'*' | b'_', rest)) => rest.is_empty(),
        Some((b'.' | b')', digits)) => {
            !digits.is_empty()
                && digits.len() < 10
                && digits.iter().all(|byte| byte.is_ascii_digit())
        }
        _ => false,
    }
}

/// Whether a word is a row of dashes, an underline or a rule.
fn is_row(word: &str) -> bool {
    let bytes = word.as_bytes();
    if bytes.is_empty() {
        return false;
    }
    bytes.iter().all(|byte| matches!(*byte, b'-' | b':' | b'|'))
        || bytes.iter().all(|byte| *byte == b'=')
        || (bytes.len() > 2 && bytes.iter().all(|byte| matches!(*byte, b'*' | b'_')))
        || word == "+++"
}

/// Whether a word begins with a label that is defined.
fn is_definition(word: &str) -> bool {
    if !word.starts_with('[') {
        return false;
    }
    match word.split_once(']') {
        Some((_, rest)) => rest.starts_with(':'),
        None => false,
    }
}

/// Whether a word that begins with `<` is an address.
fn is_address(word: &str) -> bool {
    let inner = word.strip_prefix('<').unwrap_or(word);
    let scheme = inner
        .as_bytes()
        .iter()
        .take_while(|byte| byte.is_ascii_alphanumeric() || matches!(**byte, b'+' | b'.' | b'-'))
        .count();
    if scheme > 0 && inner.as_bytes().get(scheme) == Some(&b':') {
        return inner
            .as_bytes()
            .first()
            .is_some_and(|byte| byte.is_ascii_alphabetic());
    }
    match inner.split_once('@') {
        Some((name, _)) => !name.is_empty() && !name.contains('>'),
        None => false,
    }
}

/// Tags that are within lines.
const INLINE_TAGS: [&str; 25] = [
    "a", "abbr", "b", "bdi", "bdo", "br", "cite", "code", "del", "em", "font", "i", "img", "ins",
    "kbd", "mark", "q", "s", "samp", "small", "span", "strong", "sub", "sup", "u",
];

/// Whether a text begins with a tag that is within lines, with more after it: alone on its line a tag could begin a
/// block.
pub(crate) fn begins_inline_tag(text: &str) -> bool {
    let Some((tag, behind)) = text.split_once('>') else {
        return false;
    };
    let Some(inner) = tag.strip_prefix('<') else {
        return false;
    };
    let inner = inner.strip_prefix('/').unwrap_or(inner);
    let name = match inner.split_once(&[' ', '\t', '\n', '/']) {
        Some((name, _)) => name,
        None => inner,
    };
    !behind.is_empty() && INLINE_TAGS.iter().any(|tag| name.eq_ignore_ascii_case(tag))
}

/// Whether a line that begins like this text could begin a block, or end a paragraph.
pub(crate) fn is_hazard(text: &str) -> bool {
    let word = first_word(text);
    match word.as_bytes().first() {
        // Python-Markdown takes any text after `#` for a heading
        Some(b'>' | b'|' | b':' | b'#') => true,
        Some(b'<') => !is_address(word),
        Some(b'`') => word.starts_with("```"),
        Some(b'~') => word.starts_with("~~~"),
        _ => is_marker(word) || is_row(word) || is_definition(word),
    }
}
