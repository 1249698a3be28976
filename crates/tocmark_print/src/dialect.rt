//! Other dialects of Markdown. Their blocks are text to the reader; here they keep their lines, and what is below them.

use crate::page::{Kind, Place};
use crate::part::{Mark, Part};
use crate::printer::Printer;
use crate::source::without_blanks;
use crate::style::{ListIndent, Wrap};
use std::alloc::AllocError;

/// What begins a line that another dialect takes for more than text.
const LINE_OPENERS: [&str; 6] = [
    "!!!", // MkDocs: an admonition
    "???", // MkDocs: one that can be folded
    ":::", // Docusaurus, pandoc: a container, and its end
    "///", // MkDocs: a block, and its end
    "{", // attributes of the block beside it; Jekyll, Hugo: a tag, a value, a shortcode
    "$$", // a formula
];

/// What begins a block of another dialect, beside the lines above.
const BLOCK_OPENERS: [&str; 9] = [
    "import ", // MDX: what the document imports and exports
    "export ", "=== \"", // MkDocs: a tab
    "--8<-- ", // MkDocs: an included file
    "|", // pandoc: lines that stay; kramdown: a table without a delimiter row
    "% ", // pandoc: a title
    "+--", // pandoc: a table
    "+==", "+++", // MyST: the end of a cell
];

/// How many bytes beside the end of a list are looked at.
const NEAR: usize = 64;

/// A block of another dialect: how many containers are open round it, the column where it begins in the innermost one, and how
/// many blanks its lines lose.
#[derive(Clone, Copy)]
pub(crate) struct Foreign {
    depth: usize,
    column: usize,
    shift: usize,
}

/// Whether a text begins with one of some words.
fn begins_with(text: &str, openers: &[&str]) -> bool {
    openers.iter().any(|opener| text.starts_with(*opener))
}

/// Whether a text begins with a command of Doxygen or LaTeX, as `@param` and `\begin{align}`.
fn begins_command(text: &str) -> bool {
    text.as_bytes()
        .get(1)
        .is_some_and(|byte| byte.is_ascii_lowercase())
}

/// Whether a line that begins like this text defines the line above for kramdown, pandoc and MkDocs: it begins with a colon,
/// with white space or nothing after it.
fn begins_definition(text: &str) -> bool {
    match text.strip_prefix(':') {
        Some(rest) => rest.is_empty() || rest.starts_with(&[' ', '\t', '\n']),
        None => false,
    }
}

/// Whether a text begins with a line that is a target of MyST, as `(name)=`.
fn begins_target(text: &str) -> bool {
    let line = match text.split_once('\n') {
        Some((line, _)) => line,
        None => text,
    };
    line.trim_end_matches(&[' ', '\t']).ends_with(")=")
}

/// Whether a line that begins like this text is one of another dialect.
pub(crate) fn begins_foreign_line(text: &str) -> bool {
    match text.as_bytes().first() {
        Some(b':') => begins_definition(text) || begins_with(text, &LINE_OPENERS),
        Some(b'!' | b'?' | b'{' | b'$' | b'/') => begins_with(text, &LINE_OPENERS),
        Some(b'(') => begins_target(text),
        Some(b'@' | b'\\') => begins_command(text),
        // an abbreviation of kramdown and MkDocs
        Some(b'*') => text.starts_with("*[") && text.contains("]:"),
        _ => false,
    }
}

/// Whether a text begins with the kind of a callout, as `[!info]` of Obsidian.
fn begins_callout(text: &str) -> bool {
    match text.strip_prefix("[!") {
        Some(rest) => rest
            .as_bytes()
            .first()
            .is_some_and(|byte| byte.is_ascii_alphabetic()),
        None => false,
    }
}

/// Whether a block that begins like this text is one of another dialect, but for the lines above.
fn begins_foreign_block(text: &str) -> bool {
    match text.as_bytes().first() {
        Some(b'i' | b'e' | b'=' | b'-' | b'|' | b'+' | b'%') => begins_with(text, &BLOCK_OPENERS),
        Some(b'[') => begins_callout(text),
        _ => false,
    }
}

/// Whether bytes are a letter, and letters, digits, blanks, `-` and `_` after it.
fn is_key(bytes: &[u8]) -> bool {
    bytes.first().is_some_and(|byte| byte.is_ascii_alphabetic())
        && bytes.iter().all(|byte| byte.is_ascii_alphanumeric()
            || matches!(*byte, b' ' | b'-' | b'_'))
}

/// Whether a text is empty or begins with a blank.
fn begins_blank(text: &str) -> bool {
    text.is_empty() || text.starts_with(&[' ', '\t'])
}

/// Whether a line begins with a key of metadata, as MultiMarkdown and Pelican read them: words, and a colon with a blank after
/// it.
fn begins_key(line: &str) -> bool {
    match line.split_once(':') {
        Some((key, value)) => is_key(key.as_bytes()) && begins_blank(value),
        None => false,
    }
}

/// Whether a line is one tag of HTML or MDX.
fn is_lone_tag(line: &str) -> bool {
    let bytes = line.as_bytes();
    if bytes.first() != Some(&b'<') {
        return false;
    }
    let name = if bytes.starts_with(b"</") { 2 } else { 1 };
    let letters = bytes
        .iter()
        .skip(name)
        .take_while(|byte| byte.is_ascii_alphanumeric() || matches!(**byte, b'-' | b'.'))
        .count();
    let next = bytes.get(name.saturating_add(letters)).copied();
    letters > 0
        && matches!(next, Some(b'>' | b'/' | b' ' | b'\t'))
        && line.trim_end_matches(&[' ', '\t']).ends_with('>')
}

/// What is after the marker of an item, if a line begins with one.
fn after_marker(line: &str) -> Option<&str> {
    let rest = match line.as_bytes().first() {
        Some(b'-' | b'*' | b'+') => line.get(1..)?,
        Some(b'0'..=b'9') => {
            let number = line.trim_start_matches(&[
                '0', '1', '2', '3', '4', '5', '6', '7', '8', '9',
            ]);
            number.strip_prefix('.').or(number.strip_prefix(')'))?
        }
        _ => return None,
    };
    if begins_blank(rest) {
        Some(rest.trim_start_matches(&[' ', '\t']))
    } else {
        None
    }
}

/// Whether a text ends with the marker of an item.
pub(crate) fn ends_with_marker(text: &str) -> bool {
    let mut bytes = text.as_bytes().iter().rev().copied();
    match (bytes.next(), bytes.next()) {
        (Some(b'-' | b'*' | b'+'), None | Some(b' ' | b'\t' | b'>')) => true,
        (Some(b'.' | b')'), Some(before)) => before.is_ascii_digit(),
        _ => false,
    }
}

/// Whether a line has markers of items alone.
fn is_marker_alone(line: &str) -> bool {
    if !ends_with_marker(line.trim_end_matches(&[' ', '\t'])) {
        return false;
    }
    let mut inner = line;
    for _ in 0..line.len() {
        match after_marker(inner) {
            None => break,
            Some(rest) => inner = rest,
        }
    }
    inner.is_empty()
}

/// Whether a text begins with the box of a task.
fn begins_box(text: &str) -> bool {
    begins_with(text, &["[ ]", "[x]", "[X]"])
}

/// Whether the first line of a text is the box of a task alone. To GitHub it is text, if another line follows.
fn begins_with_lone_box(text: &str) -> bool {
    match text.split_once('\n') {
        Some((line, _)) => line.trim_end_matches(&[' ', '\t']).len() == 3 && begins_box(line),
        None => false,
    }
}

/// Whether a line ends with a marker and the box of a task alone after it.
fn ends_with_box(line: &str) -> bool {
    let text = line.trim_end_matches(&[' ', '\t']);
    let front = text.strip_suffix("[ ]").or(text.strip_suffix("[x]"));
    match front.or(text.strip_suffix("[X]")) {
        Some(front) => ends_with_marker(front.trim_end_matches(&[' ', '\t'])),
        None => false,
    }
}

/// Whether a line begins with the definition of a link, after markers and signs of quotes.
fn begins_link_definition(line: &str) -> bool {
    let mut text = line;
    for _ in 0..NEAR {
        text = text.trim_start_matches(&[' ', '\t', '>']);
        match after_marker(text) {
            Some(rest) => text = rest,
            None => break,
        }
    }
    text.starts_with('[') && !text.starts_with("[^") && text.contains("]:")
}

/// Whether a line could be the delimiter row of a table. One of a single column may have a colon in place of a bar.
fn is_delimiter_row(line: &str) -> bool {
    let bytes = line.as_bytes();
    matches!(bytes.first(), Some(b'|' | b':' | b'-'))
        && (bytes.contains(&b'|') || bytes.contains(&b':'))
        && bytes.contains(&b'-')
        && bytes
            .iter()
            .all(|byte| matches!(*byte, b'|' | b':' | b'-' | b' ' | b'\t'))
}

impl Printer<'_> {
    /// Whether a line between two places of the source, but not that of the first one, is one of another dialect: after its
    /// indent and the signs of quotes, or of a list or quote a lazy line.
    fn has_foreign_line(&self, start: usize, end: usize, is_lazy: bool) -> bool {
        let source = self.source;
        let first = source.line_of(start).saturating_add(1);
        let last = source.line_of(end.saturating_sub(1));
        for line in first..=last {
            let text = source.line(line);
            let bare = text.trim_start_matches(&[' ', '\t', '>']);
            if is_lazy && bare.len() < text.len() {
                continue;
            }
            if begins_foreign_line(bare) {
                return true;
            }
        }
        false
    }

    /// Whether a line, whose text is one of a delimiter row, could be that of a table: it isn't lazy, nor indented like code.
    fn could_be_row(&self, line: usize) -> bool {
        let source = self.source;
        let place = self.page.stripped(source, source.start_of(line));
        place.is_met && self.indent_after(place) < 4
    }

    /// Whether a table has a row that is indented like code. To `cmark-gfm` the table ends before it.
    pub(crate) fn has_deep_row(&self, start: usize, end: usize) -> bool {
        let source = self.source;
        let second = source.line_of(start).saturating_add(1);
        let last = source.line_of(end.saturating_sub(1));
        for line in second..=last {
            if source.line(line).starts_with(&[' ', '\t', '>']) {
                let place = self.page.stripped(source, source.start_of(line));
                if place.is_met && self.indent_after(place) > 3 {
                    return true;
                }
            }
        }
        false
    }

    /// Whether a row of a table is one tag. To GitHub the table ends before it.
    fn has_tag_row(&self, start: usize, end: usize) -> bool {
        let source = self.source;
        let third = source.line_of(start).saturating_add(2);
        let last = source.line_of(end.saturating_sub(1));
        for line in third..=last {
            let row = self.bare_line(line);
            if is_lone_tag(row) && row.rfind('<') == Some(0) {
                return true;
            }
        }
        false
    }

    /// Whether a paragraph has a line that could be the delimiter row of a table, and its lines don't stay in the style, or one
    /// is indented like code. GitHub lets a table begin anywhere in a paragraph, also below a header without a bar. In the
    /// source's own spelling it's the same, or else what is printed so would be of another dialect when it is formatted again.
    fn has_table(&self, start: usize, end: usize) -> bool {
        if self.wanted.wrap == Wrap::Keep && !self.has_deep_row(start, end) {
            return false;
        }
        let source = self.source;
        let second = source.line_of(start).saturating_add(1);
        let last = source.line_of(end.saturating_sub(1));
        for line in second..=last {
            let row = source.line(line).trim_start_matches(&[' ', '\t', '>']);
            if is_delimiter_row(row) && self.could_be_row(line) {
                return true;
            }
        }
        false
    }

    /// Whether a paragraph whose lines don't stay in the style is metadata at the front of the document, as MultiMarkdown and
    /// Pelican read them: two lines or more with a key each, and lines that go on with them.
    fn has_keys(&self, start: usize, end: usize) -> bool {
        let is_first = self.page.depth() == 0 && self.page.top().last.is_none();
        if self.wanted.wrap == Wrap::Keep || !is_first {
            return false;
        }
        let source = self.source;
        let first = source.line_of(start);
        let last = source.line_of(end.saturating_sub(1));
        let mut keys = 0usize;
        for line in first..=last {
            let text = source.line(line);
            if begins_key(text) {
                keys = keys.saturating_add(1);
            } else if !begins_blank(text) {
                return false;
            }
        }
        keys > 1
    }

    /// A line of the source without its indent and the signs of quotes.
    fn bare_line(&self, line: usize) -> &str {
        self.source.line(line).trim_start_matches(&[' ', '\t', '>'])
    }

    /// Whether a paragraph goes on with one tag on a lazy line that isn't indented like code. To `cmark-gfm` and MDX the list
    /// or quote ends before it.
    fn has_lazy_tag(&self, start: usize, end: usize) -> bool {
        let source = self.source;
        let second = source.line_of(start).saturating_add(1);
        let last = source.line_of(end.saturating_sub(1));
        for line in second..=last {
            if is_lone_tag(self.bare_line(line)) {
                let place = self.page.stripped(source, source.start_of(line));
                if !place.is_met && self.indent_after(place) < 4 {
                    return true;
                }
            }
        }
        false
    }

    /// Whether a paragraph goes on on a lazy line below one that could be the delimiter row of a table. To GitHub the table
    /// ends before the lazy line, which would be a row after the prefixes of the containers.
    fn has_lazy_row(&self, start: usize, end: usize) -> bool {
        let source = self.source;
        let second = source.line_of(start).saturating_add(1);
        let last = source.line_of(end.saturating_sub(1));
        let mut is_below_row = false;
        for line in second..=last {
            if is_below_row {
                if !self.page.stripped(source, source.start_of(line)).is_met {
                    return true;
                }
            } else {
                is_below_row = is_delimiter_row(self.bare_line(line)) && self.could_be_row(line);
            }
        }
        false
    }

    /// Whether fenced code is after a tab that a list cuts with two columns or more left over. `cmark-gfm` puts blanks in
    /// front of such code.
    fn has_cut_tab(&self, start: usize) -> bool {
        let source = self.source;
        matches!(
            source.bytes(start, start.saturating_add(1)).first(),
            Some(b'`' | b'~')
        ) && self.page.front(source, start).spare > 1
    }

    /// Whether what is between two places goes on on a lazy line that begins with blanks.
    fn goes_on_lazily(&self, from: usize, to: usize) -> bool {
        let source = self.source;
        let second = source.line_of(from).saturating_add(1);
        let last = source.line_of(to);
        for line in second..=last {
            let place = self.page.stripped(source, source.start_of(line));
            let text = source.past_blanks(place.at);
            let has_blanks = text > place.at || place.spare > 0;
            if !place.is_met && has_blanks && source.byte(text) != b'\n' {
                return true;
            }
        }
        false
    }

    /// Keeps the lines of the block at the top if a paragraph in it has a code span, a tag or a hard break that goes on on a
    /// lazy line that begins with blanks: `cmark-gfm` shows these blanks.
    pub(crate) fn keep_lazy_inlines(&mut self, part: &Part, events: (usize, usize)) {
        if self.page.depth() == 0 {
            return;
        }
        for event in events.0..events.1 {
            if let Some(Mark::Code | Mark::Other | Mark::HardBreak) = part.event(event) {
                let (from, to) = part.range(event);
                if self.goes_on_lazily(from, to) {
                    self.keep_top();
                    return;
                }
            }
        }
    }

    /// Keeps the lines of the block at the top if definitions of links between two places go on on a lazy line that begins
    /// with blanks, or that is a tag: to `cmark-gfm` that is text, or HTML.
    pub(crate) fn keep_lazy_definitions(&mut self, from: usize, end: usize) {
        if self.page.depth() == 0 {
            return;
        }
        if self.has_lazy_tag(from, end) {
            self.keep_top();
            self.goes_on = true;
        } else if self.goes_on_lazily(from, end.saturating_sub(1)) {
            self.keep_top();
        }
    }

    /// Lets the block at the top keep its lines, because other programs read something in it otherwise.
    fn keep_top(&mut self) {
        self.has_misread = true;
        self.page.stop();
    }

    /// Whether other programs read a block in a container otherwise, so that the block at the top has to keep its lines.
    fn is_misread(&self, kind: Kind, start: usize, end: usize) -> bool {
        match kind {
            Kind::Paragraph | Kind::Heading => {
                self.has_lazy_tag(start, end) || self.has_lazy_row(start, end)
            }
            Kind::Code => self.has_cut_tab(start) || self.would_move(start),
            Kind::Html => self.would_move(start),
            _ => false,
        }
    }

    /// Whether a block of which each blank counts is below one of another dialect whose lines lose some: it can't go with them.
    fn would_move(&self, start: usize) -> bool {
        self.is_below_foreign(start) && self.shift_of(start) > 0
    }

    /// Whether a line with text follows, in the same container, on a list, a quote or a footnote that ends with the box of a
    /// task alone or with the definition of a link. To GitHub the box and that line are text, and without a blank line the
    /// definition makes its list loose. A quote is no such text. Of both lines it looks at a few bytes, because many lists may
    /// end in one line.
    fn ends_openly(&self, start: usize, end: usize) -> bool {
        let source = self.source;
        let front = source.line_start(end.saturating_sub(1));
        let near = source.text.floor_char_boundary(front.saturating_add(NEAR));
        let first = source.slice(front, near.min(end));
        let last = source.slice(front.max(end.saturating_sub(NEAR)), end);
        let next = source.line_end(end.saturating_sub(1)).saturating_add(1);
        let has_text = source
            .bytes(next, next.saturating_add(NEAR))
            .iter()
            .take_while(|byte| **byte != b'\n')
            .any(|byte| !matches!(*byte, b' ' | b'\t' | b'>'));
        if !has_text {
            return ends_with_box(last) && self.goes_on_below(start, next);
        }
        if !(ends_with_box(last) || begins_link_definition(first)) {
            return false;
        }
        let place = self.page.stripped(source, next);
        place.is_met && source.byte(source.past_blanks(place.at)) != b'>'
    }

    /// Whether the text that follows a blank line, in the same container and a few bytes, is deeper indented than the block that
    /// begins at a place.
    fn goes_on_below(&self, start: usize, blank: usize) -> bool {
        let source = self.source;
        let near = source.bytes(blank, blank.saturating_add(NEAR));
        let gap = near
            .iter()
            .take_while(|byte| matches!(**byte, b' ' | b'\t' | b'>' | b'\n'))
            .count();
        if gap == near.len() {
            return false;
        }
        let place = self
            .page
            .stripped(source, source.line_start(blank.saturating_add(gap)));
        place.is_met && self.indent_after(place) > self.column_in_container(start)
    }

    /// Whether a list has a marker alone on its line, and a task in a list below it. On one line GitHub shows no box.
    fn has_task_below_marker(&self, start: usize, end: usize) -> bool {
        let first = self.source.line_of(start);
        let last = self.source.line_of(end.saturating_sub(1));
        for line in first..last {
            if is_marker_alone(self.bare_line(line)) {
                let below = after_marker(self.bare_line(line.saturating_add(1)));
                if below.is_some_and(begins_box) {
                    return true;
                }
            }
        }
        false
    }

    /// Whether items are indented by four columns, and a list has a line that Python-Markdown reads as one after the list,
    /// because it is indented by less: HTML or the definition of a link after a blank line, or the definition of a term.
    fn has_outer_line(&self, start: usize, end: usize) -> bool {
        if !matches!(self.look.list_indent, ListIndent::Four) {
            return false;
        }
        let source = self.source;
        let first = source.line_of(start).saturating_add(1);
        let last = source.line_of(end.saturating_sub(1));
        let mut is_apart = false;
        for line in first..=last {
            let text = source.line(line);
            let bare = text.trim_start_matches(' ');
            let indent = text.len().saturating_sub(bare.len());
            let is_block = is_apart && (bare.starts_with('<') || begins_link_definition(bare));
            if 0 < indent && indent < 4 && (is_block || bare.starts_with(": ")) {
                return true;
            }
            is_apart = bare.is_empty();
        }
        false
    }

    /// Whether a quote begins with a callout of MkDocs, as `>? a`, or with text that is hidden, as `>! a`: no blank is
    /// between its sign and the mark. `>![a](b)` is an image.
    fn begins_marked_quote(&self, start: usize) -> bool {
        let source = self.source;
        match source.byte(start.saturating_add(1)) {
            b'?' => true,
            b'!' => source.byte(start.saturating_add(2)) != b'[',
            _ => false,
        }
    }

    /// Whether the first line of a block is a fence of quotes, as GitLab reads it.
    fn begins_fenced_quote(&self, start: usize) -> bool {
        let line = self.source.line(self.source.line_of(start));
        line.trim_end_matches(&[' ', '\t']) == ">>>"
    }

    /// Whether a block has a line of another dialect where that could be read as one: in a leaf any line, in a container at
    /// the top a lazy one, or at the front of a quote a fence.
    fn has_foreign(&self, kind: Kind, start: usize, end: usize) -> bool {
        match kind {
            Kind::Paragraph | Kind::Heading => {
                let text = self.source.slice(start, end);
                begins_foreign_line(text)
                    || begins_foreign_block(text)
                    || self.has_foreign_line(start, end, false)
                    || self.has_table(start, end)
                    || self.has_keys(start, end)
                    || (self.page.top().kind == Kind::Item && begins_with_lone_box(text))
            }
            Kind::Table => {
                (self.foreign.is_some() && !self.is_apart(start))
                    || self.has_foreign_line(start, end, false)
                    || self.has_tag_row(start, end)
                    || self.is_read_otherwise(start, end)
            }
            Kind::List | Kind::Quote if self.page.depth() == 0 => {
                (kind == Kind::Quote && self.begins_marked_quote(start))
                    || self.begins_fenced_quote(start)
                    || self.has_foreign_line(start, end, true)
                    || self.has_task_below_marker(start, end)
                    || (kind == Kind::List && self.has_outer_line(start, end))
                    || self.ends_openly(start, end)
            }
            Kind::List => self.ends_openly(start, end),
            Kind::Quote => self.begins_marked_quote(start),
            Kind::Footnote => self.page.depth() == 0 && self.ends_openly(start, end),
            _ => false,
        }
    }

    /// The column in the innermost container where the text of a line begins that goes on here after its prefixes.
    fn indent_after(&self, place: Place) -> usize {
        let source = self.source;
        let at = source.past_blanks(place.at);
        let column = source.column_at(place.column, place.at, at);
        column
            .saturating_sub(place.column)
            .saturating_add(place.spare)
    }

    /// The column in the innermost container where the line of a place begins, without its blanks.
    fn column_in_container(&self, place: usize) -> usize {
        self.indent_after(self.page.front(self.source, place))
    }

    /// Whether a block is below one of another dialect, deeper indented.
    fn is_below_foreign(&self, start: usize) -> bool {
        match self.foreign {
            Some(above) if above.depth == self.page.depth() => self.column_in_container(start)
                > above.column,
            _ => false,
        }
    }

    /// How many blanks the lines of a block lose that keeps its lines, if items are indented by four columns: as many as the
    /// content of its containers moves to the right, so that the block stays in its column. Python-Markdown reads blocks in
    /// items at each fourth column alone.
    fn shift_at(&self, start: usize) -> usize {
        if !matches!(self.look.list_indent, ListIndent::Four) {
            return 0;
        }
        let place = self.page.front(self.source, start);
        let (_, printed) = self.page.prefix_columns();
        printed
            .saturating_sub(place.column)
            .min(self.indent_after(place))
    }

    /// How many columns a block loses. All lines of a block of another dialect lose the same number.
    pub(crate) fn shift_of(&self, start: usize) -> usize {
        match self.foreign {
            Some(above) if above.depth == self.page.depth() => above.shift,
            _ => self.shift_at(start),
        }
    }

    /// Begins a block of another dialect, unless it belongs to the one above.
    pub(crate) fn begin_foreign(&mut self, start: usize) {
        if !self.is_below_foreign(start) {
            let depth = self.page.depth();
            let mut column = self.column_in_container(start);
            if self.look.is_literal {
                let place = self.page.front(self.source, start);
                let indent = self.indent_of(place, self.source.line_end(start));
                column = column.saturating_add(indent.len());
            }
            let shift = self.shift_at(start);
            self.foreign = Some(Foreign {
                depth,
                column,
                shift,
            });
        }
    }

    /// Whether no blank line is above a block. Where other programs read something in the block at the top otherwise, and below
    /// that, a sign of a quote is text.
    pub(crate) fn is_below_text(&self, start: usize) -> bool {
        let source = self.source;
        let above = source.line(source.line_of(start).saturating_sub(1));
        if self.page.depth() == 0 || self.has_misread {
            !without_blanks(above).is_empty()
        } else {
            !self.is_apart(start)
        }
    }

    /// Whether a block belongs to another dialect: it has a line of that, or it is below such a block, deeper indented.
    pub(crate) fn is_foreign(&mut self, kind: Kind, start: usize, end: usize) -> bool {
        self.goes_on = self.goes_on && self.is_below_text(start);
        if self.page.depth() > 0 && self.is_misread(kind, start, end) {
            self.keep_top();
            self.goes_on = true;
        }
        if self.goes_on || self.is_below_foreign(start) {
            return true;
        }
        let depth = self.page.depth();
        let is_foreign = self.has_foreign(kind, start, end);
        if is_foreign {
            if depth > 0 && self.goes_on_lazily(start, end.saturating_sub(1)) {
                self.keep_top();
            }
            self.begin_foreign(start);
        } else if self.foreign.is_some_and(|above| above.depth >= depth) {
            self.foreign = None;
        }
        is_foreign
    }

    /// Prints a block of another dialect: its lines.
    pub(crate) fn print_foreign(&mut self, start: usize, end: usize) -> Result<(), AllocError> {
        self.begin_events(Kind::Foreign, start, end)?;
        self.print_lines(start, end)?;
        self.finish(Kind::Foreign, end)
    }
}
