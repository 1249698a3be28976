//! Where sentences end, in languages with blanks between words.

/// Words that end with a period within a sentence, without it. A sentence that ends with one goes on on its line.
const ABBREVIATIONS: [&str; 52] = [
    "abb", "abs", "al", "approx", "apt", "art", "ave", "bzw", "ca", "cap", "cf", "ch", "chap",
    "co", "corp", "dept", "dr", "ed", "eds", "eq", "esp", "etc", "evtl", "ex", "fig", "figs",
    "ggf", "gen", "inc", "incl", "jr", "ltd", "max", "min", "mr", "mrs", "ms", "no", "nos", "nr",
    "pp", "prof", "ref", "resp", "sec", "sr", "st", "usw", "vgl", "viz", "vol", "vs",
];

/// What may be between the end of a sentence and the blank after it.
const CLOSERS: [char; 10] = [
    '"', '\'', ')', ']', '*', '_', '~', '\u{201d}', '\u{2019}', '\u{bb}',
];

/// What may be before the first word of a sentence.
const OPENERS: [char; 11] = [
    '"', '\'', '(', '[', '*', '_', '~', '\u{201c}', '\u{2018}', '\u{ab}', '\u{201e}',
];

/// Whether a word that ends with a period, which isn't in it, is an abbreviation, as `e.g` and `J`, or a short number, as in
/// `1. May`.
fn is_abbreviation(word: &str) -> bool {
    let word = word.trim_start_matches(&OPENERS);
    let is_short_number = word.len() < 3
        && word.as_bytes().iter().all(|byte| byte.is_ascii_digit());
    is_short_number
        || word.split('.').all(|part| part.chars().nth(1).is_none())
        || ABBREVIATIONS
            .iter()
            .any(|known| word.eq_ignore_ascii_case(known))
}

/// The last word of a line.
fn last_word(line: &str) -> &str {
    match line.rsplit_once(' ') {
        Some((_, word)) => word,
        None => line,
    }
}

/// Whether a word could be the first one of a sentence: it doesn't begin with a small letter.
fn could_begin(word: &str) -> bool {
    match word.trim_start_matches(&OPENERS).chars().next() {
        Some(first) => !first.is_lowercase(),
        None => true,
    }
}

/// Whether a sentence ends with a line, if this word is after it: it ends with a mark that ends sentences, and the word
/// could begin one.
pub(crate) fn ends_sentence(line: &str, next: &str) -> bool {
    let word = last_word(line).trim_end_matches(&CLOSERS);
    let is_end = match word.strip_suffix('.') {
        Some(before) => !is_abbreviation(before),
        None => word.ends_with(&['!', '?', '\u{61f}', '\u{6d4}', '\u{964}']),
    };
    is_end && could_begin(next)
}
