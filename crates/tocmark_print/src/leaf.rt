//! Leaves: paragraphs, headings, code, HTML and rules.

use crate::fill::{Measure, filled};
use crate::hazard::is_hazard;
use crate::inline::{Context, Inlines};
use crate::lines::{Lines, line_end};
use crate::page::Kind;
use crate::part::{Mark, Part};
use crate::piece::{INDENT, Piece, Pieces, ends_with_backslash, push_repeated};
use crate::printer::Printer;
use crate::source::{is_blank, without_blanks, without_end_blanks};
use crate::style::{Headings, ListIndent, Rule, Wrap};
use crate::width::width;
use std::alloc::AllocError;
use std::mem;
use tocmark_event::event::HeadingLevel;

/// The signs before the text of a heading.
fn heading_signs(level: HeadingLevel) -> &'static str {
    match level {
        HeadingLevel::H1 => "# ",
        HeadingLevel::H2 => "## ",
        HeadingLevel::H3 => "### ",
        HeadingLevel::H4 => "#### ",
        HeadingLevel::H5 => "##### ",
        HeadingLevel::H6 => "###### ",
    }
}

/// How many bytes of one kind a text begins with.
fn run(text: &str, byte: u8) -> usize {
    text.as_bytes()
        .iter()
        .take_while(|other| **other == byte)
        .count()
}

/// How many bytes the signs of a heading have at the front of a line, with the blanks after them; 0 if there are none.
fn signs_length(line: &str) -> usize {
    let hashes = run(line, b'#');
    let rest = line.get(hashes..).unwrap_or("");
    match rest.as_bytes().first() {
        Some(byte) if !is_blank(*byte) => 0,
        _ if hashes == 0 || hashes > 6 => 0,
        _ => {
            let blanks = rest
                .as_bytes()
                .iter()
                .take_while(|byte| is_blank(**byte))
                .count();
            hashes.saturating_add(blanks)
        }
    }
}

/// The attributes of a heading, in braces, in what is after its text.
fn attributes_in(tail: &str) -> Option<&str> {
    let (before, rest) = tail.split_once('{')?;
    let (inner, _) = rest.split_once('}')?;
    let from = before.len();
    tail.get(from..from.saturating_add(inner.len()).saturating_add(2))
}

/// Whether a text ends with a sign of a heading. After `#` that would be a closing sign; to pandoc, kramdown and
/// Python-Markdown also if no blank is before it, as in `C#`.
fn ends_with_sign(line: &str) -> bool {
    match line.strip_suffix('#') {
        Some(before) => !ends_with_backslash(before),
        None => false,
    }
}

/// How many signs a fence needs at least round a text, so that no line of it ends the fence.
fn least_fence(text: &str, sign: u8) -> usize {
    let mut longest = 0usize;
    if !text.as_bytes().contains(&sign) {
        return longest;
    }
    for line in text.split('\n') {
        let length = run(line.trim_start_matches(&[' ', '\t']), sign);
        longest = longest.max(length);
    }
    if longest == 0 {
        0
    } else {
        longest.saturating_add(1)
    }
}

/// Whether a text has a tag of a text that is shown with its line breaks, or closes one.
fn has_preformatted(text: &str) -> bool {
    for inner in text.split('<').skip(1) {
        let name = inner.strip_prefix('/').unwrap_or(inner);
        for tag in ["pre", "textarea"] {
            let front = name.get(..tag.len()).unwrap_or("");
            let behind = name.as_bytes().get(tag.len()).copied();
            if front.eq_ignore_ascii_case(tag)
                && !behind.is_some_and(|byte| byte.is_ascii_alphanumeric())
            {
                return true;
            }
        }
    }
    false
}

/// Whether the breaks of a paragraph's lines mean something to other programs: in a text that is shown as it is; or in one
/// after a box, to `cmark-gfm`, which checks the box if `[x]` is anywhere on its line.
fn has_meant_breaks(text: &str) -> bool {
    let is_open_box = text.starts_with("[ ]");
    has_preformatted(text) || (is_open_box && (text.contains("[x]") || text.contains("[X]")))
}

/// Whether a line of a paragraph, but not the first one, looks like the definition of a link.
fn has_definition(text: &str) -> bool {
    for line in text.split('\n').skip(1) {
        let bare = line.trim_start_matches(&[' ', '>']);
        if bare.starts_with('[') && !bare.starts_with("[^") && bare.contains("]:") {
            return true;
        }
    }
    false
}

impl<'d> Printer<'d> {
    /// The pieces of events, whose text starts here in the source; and the place in the source after them. Their room comes
    /// from the printer, which gets it back by `keep_room`.
    pub(crate) fn pieces_of(
        &mut self,
        part: &Part,
        events: (usize, usize),
        start: usize,
    ) -> Result<(Pieces, usize), AllocError> {
        let mut room = mem::replace(&mut self.room, Pieces::new(self.alloc));
        room.clear();
        let context = Context {
            alloc: self.alloc,
            source: self.source,
            part,
            page: &self.page,
            look: self.look,
        };
        let end = part.range(events.1.saturating_sub(1)).1;
        let mut inlines = Inlines::new(context, (start, end), room);
        inlines.add_all(events.0, events.1)?;
        let Inlines { pieces, at, .. } = inlines;
        Ok((pieces, at))
    }

    /// Keeps the room of pieces for others.
    pub(crate) fn keep_room(&mut self, pieces: Pieces) {
        self.room = pieces;
    }

    /// The lines of a paragraph that are filled up to a limit, or end with sentences.
    fn filled_lines(&self, pieces: &Pieces, limit: usize) -> Result<Lines, AllocError> {
        let (first, others) = self.page.prefix_columns();
        let measure = Measure {
            first,
            others,
            limit,
            breaks_sentences: self.look.wrap == Wrap::Sentence,
        };
        filled(self.alloc, pieces, measure)
    }

    /// Prints a line of pieces, and what it ends with. It gets four blanks in front if it would begin a block without them.
    fn print_line(&mut self, text: &str, tail: &str, is_deep: bool) -> Result<(), AllocError> {
        if !is_deep {
            return self.page.line_with(text, tail);
        }
        let mut line = String::from_str(self.alloc, text)?;
        line.push_str(tail)?;
        let indent = if is_hazard(line.as_str()) { INDENT } else { "" };
        self.page.line_with(indent, line.as_str())
    }

    /// Prints pieces with the lines that they have in the source.
    fn print_kept_lines(&mut self, pieces: &Pieces) -> Result<(), AllocError> {
        let (mut from, mut to) = (0usize, 0usize);
        let mut is_deep = false;
        for piece in &pieces.list {
            let next_is_deep = match piece {
                Piece::Text(end) | Piece::Solid(end) => {
                    to = *end;
                    continue;
                }
                Piece::Feed { is_deep } | Piece::Soft { is_deep } | Piece::Hard { is_deep, .. } =>
                    *is_deep,
            };
            let (text, tail) = line_end(pieces.text.as_str().get(from..to).unwrap_or(""), *piece);
            self.print_line(text, tail, is_deep)?;
            from = to;
            is_deep = next_is_deep;
        }
        let text = pieces.text.as_str().get(from..to).unwrap_or("");
        self.print_line(text, "", is_deep)
    }

    /// The text of a leaf that is one event, whose text starts here in the source, if its lines are kept.
    fn only_text(&self, part: &Part, events: (usize, usize), start: usize) -> Option<&'d str> {
        let (from, to) = part.range(events.0);
        if events.1.saturating_sub(events.0) == 1
            && from <= start
            && self.look.wrap == Wrap::Keep
            && matches!(part.event(events.0), Some(Mark::Text))
        {
            Some(self.source.slice(from, to))
        } else {
            None
        }
    }

    /// The box of a task without a text, which starts here in the source, with the blank after it that GitHub wants.
    fn lone_box(&self, part: &Part, events: (usize, usize), start: usize) -> Option<&'d str> {
        if self.source.byte(start) != b'[' || self.page.top().kind != Kind::Item {
            return None;
        }
        let (_, end) = part.range(events.1.saturating_sub(1));
        let line = self.source.slice(start, self.source.line_end(end));
        let sign = line.get(..4)?;
        let is_box = matches!(sign, "[ ] " | "[x] " | "[X] ");
        if is_box && without_end_blanks(line).len() == 3 {
            Some(sign)
        } else {
            None
        }
    }

    /// Whether items are indented by four columns, and the breaks of a paragraph's lines mean something to Python-Markdown: it
    /// reads only one line of a quote beside an item's marker, and a line such as `[a]: b` as a definition.
    fn has_other_breaks(&self, start: usize, end: usize) -> bool {
        matches!(self.look.list_indent, ListIndent::Four)
            && (self.page.quotes_beside_marker() || has_definition(self.source.slice(start, end)))
    }

    /// Prints a paragraph's lines.
    pub(crate) fn print_text(
        &mut self,
        part: &Part,
        events: (usize, usize),
        start: usize,
    ) -> Result<(), AllocError> {
        if let Some(sign) = self.lone_box(part, events, start) {
            return self.page.line(sign);
        }
        if let Some(text) = self.only_text(part, events, start) {
            return self.page.line(text);
        }
        self.keep_lazy_inlines(part, events);
        let wrap = self.look.wrap;
        let (_, end) = part.range(events.1.saturating_sub(1));
        if wrap != Wrap::Keep
            && (self.has_other_breaks(start, end)
                || has_meant_breaks(self.source.slice(start, end)))
        {
            self.look.wrap = Wrap::Keep;
        }
        let (pieces, _) = self.pieces_of(part, events, start)?;
        let printed = self.print_pieces(&pieces);
        self.keep_room(pieces);
        self.look.wrap = wrap;
        printed
    }

    /// Prints pieces with the lines of the style.
    fn print_pieces(&mut self, pieces: &Pieces) -> Result<(), AllocError> {
        let limit = match self.look.wrap {
            Wrap::Keep => return self.print_kept_lines(pieces),
            Wrap::No | Wrap::Sentence => usize::MAX,
            Wrap::At(limit) => limit,
        };
        let lines = self.filled_lines(pieces, limit)?;
        self.print_all(&lines)
    }

    /// Prints the title of a definition list. A line more would be a title of its own.
    pub(crate) fn print_title(&mut self, part: &Part, at: usize) -> Result<(), AllocError> {
        let events = (at.saturating_add(1), part.end(at));
        let (pieces, _) = self.pieces_of(part, events, part.range(at).0)?;
        let printed = self.print_kept_lines(&pieces);
        self.keep_room(pieces);
        printed
    }

    fn print_all(&mut self, lines: &Lines) -> Result<(), AllocError> {
        for at in 0..lines.len() {
            self.page.line(lines.line(at))?;
        }
        Ok(())
    }

    /// Prints a heading after `#`; underlined if it has several lines or ends in `#`, after a task's box, or if the look keeps
    /// its underline.
    pub(crate) fn print_heading(
        &mut self,
        part: &Part,
        at: usize,
        level: HeadingLevel,
    ) -> Result<(), AllocError> {
        let source = self.source;
        let (start, end) = part.range(at);
        let signs = signs_length(source.slice(start, end.min(source.line_end(start))));
        let lines = self.heading_lines(part, at, start.saturating_add(signs))?;
        let has_box = matches!(part.event(at.saturating_add(1)), Some(Mark::TaskBox));
        let has_signs = signs > 0;
        let stays = !has_signs && self.look.headings == Headings::Source;
        let own = if stays || (lines.len() > 1 && !has_signs) {
            self.own_underline((start, end))
        } else {
            ""
        };
        let is_underlined = lines.len() > 1
            || has_box
            || stays
            || (!has_signs && ends_with_sign(lines.last()));
        if is_underlined {
            self.print_underlined(&lines, level, own)
        } else {
            self.print_behind_signs(lines.last(), level)
        }
    }

    /// The lines of a heading whose text starts here in the source, with its attributes after the last one.
    fn heading_lines(&mut self, part: &Part, at: usize, start: usize) -> Result<Lines, AllocError> {
        let events = (at.saturating_add(1), part.end(at));
        let (pieces, behind) = self.pieces_of(part, events, start)?;
        let joins = self.look.wrap != Wrap::Keep;
        let lines = Lines::kept(self.alloc, &pieces, joins);
        self.keep_room(pieces);
        let (_, end) = part.range(at);
        let tail = self
            .source
            .slice(behind, end.min(self.source.line_end(behind)));
        let mut lines = lines?;
        if let Some(attributes) = attributes_in(tail) {
            lines.add_to_last(attributes)?;
        }
        Ok(lines)
    }

    /// The underline of a heading that has this range in the source; empty if it isn't just signs.
    fn own_underline(&self, range: (usize, usize)) -> &'d str {
        let source = self.source;
        let end = range.0.saturating_add(
            source.slice(range.0, range.1).trim_end_matches('\n').len(),
        );
        let place = self.page.stripped(source, source.line_start(end));
        let line = without_blanks(source.slice(place.at, end));
        let sign = line.as_bytes().first().copied().unwrap_or(b'\n');
        let is_sign = sign == b'=' || sign == b'-';
        if is_sign && run(line, sign) == line.len() {
            line
        } else {
            ""
        }
    }

    /// Prints the lines of a heading and an underline: its own one, or one as long as the last line.
    fn print_underlined(
        &mut self,
        lines: &Lines,
        level: HeadingLevel,
        own: &str,
    ) -> Result<(), AllocError> {
        self.print_all(lines)?;
        if !own.is_empty() {
            return self.page.line(own);
        }
        let sign = if level == HeadingLevel::H1 { '=' } else { '-' };
        let mut underline = String::new(self.alloc);
        push_repeated(&mut underline, sign, width(lines.last()).max(3))?;
        self.page.line(underline.as_str())
    }

    fn print_behind_signs(&mut self, line: &str, level: HeadingLevel) -> Result<(), AllocError> {
        let signs = heading_signs(level);
        let text = line.trim_end_matches(' ');
        if text.is_empty() {
            self.page.line(signs.trim_end_matches(' '))
        } else {
            self.page.line_with(signs, text)
        }
    }

    /// Prints lines of code or HTML. The last one may have no line feed, if the source ends in it.
    fn print_raw(&mut self, text: &str) -> Result<(), AllocError> {
        self.is_cut = !text.is_empty() && !text.ends_with('\n');
        if text.is_empty() {
            return Ok(());
        }
        for line in text.strip_suffix('\n').unwrap_or(text).split('\n') {
            self.page.line(line)?;
        }
        Ok(())
    }

    fn print_indented(&mut self, text: &str) -> Result<(), AllocError> {
        self.is_cut = !text.is_empty() && !text.ends_with('\n');
        for code in text.strip_suffix('\n').unwrap_or(text).split('\n') {
            let indent = if code.is_empty() { "" } else { INDENT };
            self.page.line_with(indent, code)?;
        }
        Ok(())
    }

    /// The fence of a code block with this first line, round this text.
    fn fence_of(&self, head: &str, text: &str) -> Result<String, AllocError> {
        let own = head.as_bytes().first().copied().unwrap_or(b'`');
        let own_length = run(head, own);
        let info = head.get(own_length..).unwrap_or("");
        let sign = match self.look.fence {
            Some(sign) if !info.contains('`') => sign,
            _ => own,
        };
        let length = if self.look.is_literal {
            own_length
        } else {
            least_fence(text, sign).max(self.look.fence_length)
        };
        let mut fence = String::new(self.alloc);
        push_repeated(&mut fence, char::from(sign), length)?;
        Ok(fence)
    }

    /// Prints code between fences, the first one with what is after it. A fence that is open at the end stays so if a line
    /// ends there that no line feed ends: of code, or a blank one that no event has.
    fn print_fenced(
        &mut self,
        text: &str,
        fence: &str,
        info: &str,
        has_open_line: bool,
    ) -> Result<(), AllocError> {
        self.page.line_with(fence, info)?;
        self.print_raw(text)?;
        if self.is_cut {
            return Ok(());
        }
        if has_open_line {
            self.is_cut = true;
            return self.page.bare_line();
        }
        self.page.line(fence)
    }

    /// Whether fenced code ends with a blank line without a line feed, at the end of the source. To GitHub that is a line of
    /// the code.
    fn has_open_line(&self, range: (usize, usize)) -> bool {
        let source = self.source;
        let (start, end) = range;
        let last = source.line_start(end);
        if end < source.text.len() || last <= start || last == end {
            return false;
        }
        source.past_blanks(self.page.stripped(source, last).at) >= end
    }

    pub(crate) fn print_code(
        &mut self,
        part: &Part,
        at: usize,
        is_indented: bool,
    ) -> Result<(), AllocError> {
        let text = part.raw_text(at);
        if is_indented {
            return self.print_indented(text);
        }
        let (start, end) = part.range(at);
        let head = self
            .source
            .slice(start, end.min(self.source.line_end(start)));
        let fence = self.fence_of(head, text)?;
        let own = run(head, head.as_bytes().first().copied().unwrap_or(b'`'));
        let info = without_blanks(head.get(own..).unwrap_or(""));
        let has_open_line = self.has_open_line((start, end));
        let is_whole = text.is_empty() || text.ends_with('\n');
        if has_open_line && is_whole && self.page.depth() == 0 {
            // the blanks of that line are none of the code only with the fence's indent
            self.is_cut = true;
            return self.print_lines(start, end);
        }
        self.print_fenced(text, fence.as_str(), info, has_open_line)
    }

    pub(crate) fn print_html(&mut self, part: &Part, at: usize) -> Result<(), AllocError> {
        let text = part.raw_text(at);
        if text.starts_with(' ') && !self.page.top().is_used {
            // after a marker its blanks would be the marker's
            self.page.line("")?;
        }
        self.print_raw(text)
    }

    /// Whether a rule is dashes directly below a definition. To cmark-gfm they are text, and it goes on below.
    pub(crate) fn is_text_below(&self, range: (usize, usize)) -> bool {
        let signs = without_end_blanks(self.source.slice(range.0, range.1));
        let is_below = self.page.top().last == Some(Kind::Definitions) && !self.is_apart(range.0);
        is_below && run(signs, b'-') == signs.len()
    }

    /// Prints a rule: not of `-` below a text without a blank line between, nor at the front of a document, where metadata
    /// would begin; and after a bullet not of its sign.
    pub(crate) fn print_rule(&mut self, range: (usize, usize)) -> Result<(), AllocError> {
        let own = without_end_blanks(self.source.slice(range.0, range.1));
        if self.is_text_below(range) {
            return self.page.line(own);
        }
        let is_apart = self.is_apart(range.0);
        let top = self.page.top();
        let own = match self.look.rule {
            Rule::Dashes if top.last != Some(Kind::Definitions) => "---",
            Rule::Dashes | Rule::Source => own,
        };
        let sign = if top.kind == Kind::Item && !top.is_used {
            let sign = self.page.sign().trim_start_matches(' ');
            sign.as_bytes().first().copied()
        } else {
            None
        };
        let is_below = top.last.is_some() && (top.is_tight || (top.keeps_gaps && !is_apart));
        let no_dashes = is_below || self.page.text.is_empty();
        for rule in [own, "***", "___"] {
            let byte = rule.as_bytes().first().copied();
            if byte != sign && !(no_dashes && byte == Some(b'-')) {
                return self.page.line(rule);
            }
        }
        self.page.line("___")
    }
}
