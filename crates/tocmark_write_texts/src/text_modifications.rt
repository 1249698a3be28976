//! Destinations, titles, code spans and runs of characters, as they are written.

ghost use Rattle.std.specs.Prelude.{◌≡◌, ◌==◌, ◌++◌, ◌≤◌, ◌↔◌, chars, encode_utf8_all, replicate, string_bytes, IfOk, IfSome, IsSome, OnOk, Some};
ghost use Rattle.std.specs.List.{list_any};
ghost use Rattle.std.specs.Fmt.{WritesOnOk, WritesInCalls};
ghost use Rattle.tocmark_write_texts.specs.Destination.{destination, destination_text, destination_character, is_escaped_in_destination, is_escaped_in_title, needs_brackets, ends_destination, is_unbalanced, title, title_text, title_character, link_closing};
ghost use Rattle.tocmark_write_texts.specs.Characters.{backtick};
ghost use Rattle.tocmark_write_texts.specs.Leaves.{longest_run, in_cell, cell_character, is_blank, first_is, last_is, needs_spaces, padding, enclosed, span, math_text};

use std::alloc::{AllocError, Global};
use std::fmt;
use std::fmt::Write;
use tocmark_event::event::LinkType;

/// A link's destination, which `{}` writes without brackets, so that it is read back.
#[derive(Clone, Copy)]
pub struct EscapeDestination<'a>(pub &'a str);

impl fmt::Display for EscapeDestination<'_> {
    ghost output = { λ d. Some (destination_text d.0.now) };

    fn fmt<W: fmt::Write>(&self, f: &mut fmt::Formatter<W>) -> fmt::Result {
        if !holds_escaped_in_destination(self.0) {
            return f.write_str(self.0);
        }
        for c in self.0.chars() {
            write_destination_character(f, c)?;
        }
        Ok(())
    }
}

/// Whether a byte isn't written as it is in a destination.
fn is_escaped_in_destination(byte: u8) -> bool
    ensures { result ≡ is_escaped_in_destination byte }
{
    matches!(byte, b'&' | b'\n' | b'\r' | b'\\' | b'<' | b'>')
}

fn holds_escaped_in_destination(text: &str) -> bool
    ensures { result ≡ list_any is_escaped_in_destination text.now }
{
    text.as_bytes()
        .iter()
        .any(|byte| is_escaped_in_destination(*byte))
}

fn write_destination_character<W: fmt::Write>(f: &mut fmt::Formatter<W>, c: char) -> fmt::Result
    ensures { WritesOnOk W.write_str_gives f.old result (encode_utf8_all (destination_character c))
        f.new }
{
    match c {
        '&' => f.write_str("&amp;"),
        '\n' => f.write_str("&#10;"),
        '\r' => f.write_str("&#13;"),
        '\\' | '<' | '>' => write!(f, "\\{c}"),
        _ => f.write_char(c),
    }
}

/// A link's title. `{}` writes it as it has to be between double quotes to be read back.
#[derive(Clone, Copy)]
pub struct EscapeLinkTitle<'a>(pub &'a str);

impl fmt::Display for EscapeLinkTitle<'_> {
    ghost output = { λ t. Some (title_text t.0.now) };

    fn fmt<W: fmt::Write>(&self, f: &mut fmt::Formatter<W>) -> fmt::Result {
        if !holds_escaped_in_title(self.0) {
            return f.write_str(self.0);
        }
        for c in self.0.chars() {
            write_title_character(f, c)?;
        }
        Ok(())
    }
}

/// Whether a byte isn't written as it is in a title.
fn is_escaped_in_title(byte: u8) -> bool
    ensures { result ≡ is_escaped_in_title byte }
{
    matches!(byte, b'&' | b'"' | b'\\')
}

fn holds_escaped_in_title(text: &str) -> bool
    ensures { result ≡ list_any is_escaped_in_title text.now }
{
    text.as_bytes()
        .iter()
        .any(|byte| is_escaped_in_title(*byte))
}

fn write_title_character<W: fmt::Write>(f: &mut fmt::Formatter<W>, c: char) -> fmt::Result
    ensures { WritesOnOk W.write_str_gives f.old result (encode_utf8_all (title_character c))
        f.new }
{
    match c {
        '&' => f.write_str("&amp;"),
        '"' | '\\' => write!(f, "\\{c}"),
        _ => f.write_char(c),
    }
}

/// Whether a destination can't hold this byte without brackets.
fn ends_destination(byte: u8) -> bool
    ensures { result ≡ ends_destination byte }
{
    byte <= b' ' && byte != b'\n' && byte != b'\r' || byte == 0x7F
}

/// Whether parentheses close too often, are more than three deep or stay open.
fn is_unbalanced(destination: &str) -> bool
    ensures { result ≡ is_unbalanced 0 destination.now }
{
    let mut depth = 0usize;
    for byte in destination.as_bytes() {
        match byte {
            b'(' if depth > 2 => return true,
            b'(' => depth += 1,
            b')' if depth == 0 => return true,
            b')' => depth -= 1,
            _ => {}
        }
    }
    depth != 0
}

fn holds_end(destination: &str) -> bool
    ensures { result ≡ list_any ends_destination destination.now }
{
    destination
        .as_bytes()
        .iter()
        .any(|byte| ends_destination(*byte))
}

/// Whether a destination, in a definition or not, is written in brackets.
fn needs_brackets(destination: &str, in_definition: bool) -> bool
    ensures { result ≡ needs_brackets in_definition destination.now }
{
    let is_missing = in_definition && destination.is_empty();
    is_missing || holds_end(destination) || is_unbalanced(destination)
}

/// A destination as a link has it or, with `in_definition`, a definition.
#[derive(Clone, Copy)]
struct Destination<'a> {
    text: &'a str,
    in_definition: bool,
}

#[tactic(auto, unfolding(crate::specs::Destination::destination))]
impl fmt::Display for Destination<'_> {
    ghost output = { λ d. Some (destination d.in_definition d.text.now) };

    fn fmt<W: fmt::Write>(&self, f: &mut fmt::Formatter<W>) -> fmt::Result {
        let text = EscapeDestination(self.text);
        if needs_brackets(self.text, self.in_definition) {
            write!(f, "<{text}>")
        } else {
            write!(f, "{text}")
        }
    }
}

/// A title in quotes after a space, or nothing for the empty one.
#[derive(Clone, Copy)]
struct Title<'a>(&'a str);

#[tactic(auto, unfolding(crate::specs::Destination::title))]
impl fmt::Display for Title<'_> {
    ghost output = { λ t. Some (title t.0.now) };

    fn fmt<W: fmt::Write>(&self, f: &mut fmt::Formatter<W>) -> fmt::Result {
        if self.0.is_empty() {
            return Ok(());
        }
        let text = EscapeLinkTitle(self.0);
        write!(f, " \"{text}\"")
    }
}

/// Writes what closes a link after its text or label: destination and title in parentheses, and for a
/// `Shortcut` those of a definition. The destination is in brackets where it needs them, an empty title
/// is left out. An `Err` is the writer's.
pub fn close_link<F: fmt::Write>(
    uri: &str,
    title: &str,
    f: &mut F,
    link_type: LinkType,
) -> fmt::Result
    ensures { OnOk result
        (WritesInCalls F.write_str_gives f.old (link_closing link_type uri.now title.now) f.new) }
{
    let title = Title(title);
    match link_type {
        LinkType::Shortcut => {
            let destination = Destination {
                text: uri,
                in_definition: true,
            };
            write!(f, "]: {destination}{title}")
        }
        _ => {
            let destination = Destination {
                text: uri,
                in_definition: false,
            };
            write!(f, "]({destination}{title})")
        }
    }
}

/// The length of the longest run of a character.
pub fn max_consecutive_chars(text: &str, search: char) -> usize
    ensures { result ≡ longest_run search (chars text.now) }
{
    let mut longest = 0;
    let mut current = 0;
    for c in text.chars() {
        if c == search {
            current += 1;
            longest = longest.max(current);
        } else {
            current = 0;
        }
    }
    longest
}

/// The text of a cell's leaf: in a table with a backslash before each vertical bar.
pub fn in_cell(alloc: Global, text: &str, in_table: bool) -> Result<String, AllocError>
    ensures { IfOk result (λ s. string_bytes s ≡ in_cell in_table text.now) }
{
    if !in_table {
        return String::from_str(alloc, text);
    }
    let mut cell = String::new(alloc);
    for c in text.chars() {
        push_in_cell(&mut cell, c)?;
    }
    Ok(cell)
}

fn push_in_cell(cell: &mut String, c: char) -> Result<(), AllocError>
    ensures { OnOk result (string_bytes cell.new
        ≡ string_bytes cell.old ++ encode_utf8_all (cell_character c)) }
{
    if c == '|' {
        cell.push('\\')?;
    }
    cell.push(c)
}

fn is_blank(text: &str) -> bool
    ensures { result ≡ is_blank text.now }
{
    text.as_bytes().iter().all(|byte| *byte == b' ')
}

fn first_is(text: &str, byte: u8) -> bool
    ensures { result ≡ first_is byte text.now }
{
    match text.as_bytes().first() {
        Some(first) => *first == byte,
        None => false,
    }
}

#[tactic(auto, using(crate::proofs::SpanLemmas::last_is_at))]
fn last_is(text: &str, byte: u8) -> bool
    ensures { result ≡ last_is byte text.now }
{
    match text.as_bytes().last() {
        Some(last) => *last == byte,
        None => false,
    }
}

/// Whether the spaces that a reader takes away have to be added.
fn needs_spaces(text: &str) -> bool
    ensures { result ≡ needs_spaces text.now }
{
    let has_backtick = first_is(text, b'`') || last_is(text, b'`');
    let has_spaces = first_is(text, b' ') && last_is(text, b' ');
    has_backtick || has_spaces
}

#[tactic(auto, unfolding(crate::specs::Leaves::padding))]
/// The space that is added at each end of a code span.
fn padding(text: &str) -> &'static str
    ensures { result.now ≡ padding text.now }
{
    if needs_spaces(text) { " " } else { "" }
}

fn holds_backtick(text: &str) -> bool
    ensures { result ≡ list_any (λ b. b == backtick) text.now }
{
    text.as_bytes().contains(&b'`')
}

/// The length of the longest run of backticks.
fn longest_ticks(text: &str) -> usize
    ensures { result ≡ longest_run backtick text.now }
{
    if !holds_backtick(text) {
        return 0;
    }
    max_consecutive_chars(text, '`')
}

/// Backticks, as many as a run of them has in most texts.
const TICKS: &str = "````````";

/// So many backticks, if they are eight at most.
pub fn few_ticks(count: usize) -> Option<&'static str>
    ensures ticks { IfSome result (λ ticks. ticks.now ≡ replicate count backtick) }
    ensures few { IsSome result ↔ (count ≤ 8) }
{
    if count > TICKS.len() {
        return None;
    }
    Some(&TICKS[..count])
}

/// What is at each end of a code span.
#[derive(Clone, Copy)]
pub struct SpanEnds {
    /// How many backticks are in the run at each end.
    pub ticks: usize,
    /// The space between each run and the text, or nothing.
    pub padding: &'static str,
}

#[tactic(auto, unfolding(crate::specs::Leaves::span))]
/// The ends of a code span with this text. The run of backticks is one longer than the longest run in the
/// text, but one where that holds spaces alone; a space is at each end where it begins or ends with a
/// backtick or begins and ends with a space.
pub fn span_ends(text: &str) -> SpanEnds
    ensures { enclosed (replicate result.ticks backtick) result.padding.now text.now
        ≡ span text.now }
{
    if is_blank(text) {
        return SpanEnds {
            ticks: 1,
            padding: "",
        };
    }
    let ticks = longest_ticks(text) + 1;
    SpanEnds {
        ticks,
        padding: padding(text),
    }
}

/// Mathematics between two of these delimiters, in a table or not.
pub fn math_text(
    alloc: Global,
    delimiter: &str,
    text: &str,
    in_table: bool,
) -> Result<String, AllocError>
    ensures { IfOk result (λ s. string_bytes s ≡ math_text delimiter.now in_table text.now) }
{
    let inside = in_cell(alloc, text, in_table)?;
    format!(in alloc; "{delimiter}{inside}{delimiter}")
}
