//! The walk over the events of a document: each block is printed as it comes.

use crate::dialect::{Foreign, ends_with_marker};
use crate::kept::Stretch;
use crate::look::Look;
use crate::page::{Kind, Page};
use crate::part::{Mark, Opening, Part, is_inline};
use crate::piece::Pieces;
use crate::source::{Source, without_end_blanks};
use crate::style::ListIndent;
use std::alloc::{AllocError, Global};
use tocmark_printing::{Block, Blocks, Ladder, Step};

/// Prefixes may have so many bytes in a block, and four for each byte of it.
const FREE_PREFIXES: usize = 4096;

/// Prints a document in its source's order.
#[derive(Drop)]
pub(crate) struct Printer<'d> {
    pub(crate) alloc: Global,
    pub(crate) source: &'d Source<'d>,
    pub(crate) page: Page,
    /// How blocks are printed in the style.
    pub(crate) wanted: Look,
    /// How the block at the top is printed that is open.
    pub(crate) look: Look,
    /// How near to the source each tree is printed.
    ladder: &'d Ladder,
    pub(crate) blocks: Blocks,
    /// How many trees came.
    trees: usize,
    /// Room for the pieces of a leaf.
    pub(crate) room: Pieces,
    /// Whether the source ends within a line of code or HTML.
    pub(crate) is_cut: bool,
    /// The stretch that is kept and that isn't printed yet.
    pub(crate) kept: Option<Stretch>,
    /// Where the last code ends that has a tag of another program.
    pub(crate) code_end: usize,
    /// Whether other programs read something in the block at the top otherwise, so that it keeps its lines.
    pub(crate) has_misread: bool,
    /// Whether these programs could go on with that below the block.
    pub(crate) goes_on: bool,
    /// The last block of another dialect, as long as only blocks below it came.
    pub(crate) foreign: Option<Foreign>,
}

impl<'d> Printer<'d> {
    pub(crate) fn new(
        alloc: Global,
        source: &'d Source<'d>,
        wanted: Look,
        ladder: &'d Ladder,
    ) -> Printer<'d> {
        Printer {
            alloc,
            source,
            page: Page::new(alloc, source.text.len()),
            wanted,
            look: wanted,
            ladder,
            blocks: Blocks::new(alloc),
            trees: 0,
            room: Pieces::new(alloc),
            is_cut: false,
            kept: None,
            code_end: 0,
            has_misread: false,
            goes_on: false,
            foreign: None,
        }
    }

    /// Prints the line between a block and the one before it in its container: none in tight items, and none between some
    /// blocks that aren't apart in the source. A list that is loose by definitions alone has lines only beside these, so
    /// that `cmark-gfm` still takes it for a tight one.
    fn separate(&mut self, kind: Kind, is_apart: bool) -> Result<(), AllocError> {
        let top = self.page.top();
        let Some(last) = top.last else {
            return Ok(());
        };
        if self.goes_on && !is_apart && kind != Kind::Item {
            // to other programs a blank line would end what goes on
            return Ok(());
        }
        let is_beside = last == Kind::Definitions || kind == Kind::Definitions;
        let is_joined = top.is_close || (top.keeps_gaps && !is_apart);
        if top.is_tight || (is_joined && !is_beside) {
            if last == Kind::Quote && matches!(kind, Kind::Paragraph | Kind::Foreign) {
                // else the text would go on with the quote's paragraph
                return if top.keeps_gaps {
                    self.page.blank()
                } else {
                    self.page.line(">")
                };
            }
            return Ok(());
        }
        let is_pair = match (last, kind) {
            (Kind::Html, Kind::Html) | (Kind::Footnote, Kind::Footnote) => true,
            (Kind::Definition, Kind::Definition) => true,
            (Kind::Title, Kind::Title | Kind::Definition) => true,
            (Kind::Definitions, _) => self.look.is_literal || kind == Kind::Rule,
            (Kind::Foreign, _) | (_, Kind::Foreign) => true,
            // the text lacks too many cells for one more row, but other programs go on with the table
            (Kind::Table, Kind::Paragraph) => true,
            (Kind::Rule, Kind::Html) => false,
            // with blanks in front the HTML would be in the item
            (Kind::List, Kind::Html) if self.ends_with_marker() => false,
            // to Python-Markdown the lines can be one paragraph
            (Kind::Html, _) | (_, Kind::Html) => {
                matches!(self.wanted.list_indent, ListIndent::Four)
            }
            _ => false,
        };
        if is_apart || !is_pair {
            self.page.blank()
        } else {
            Ok(())
        }
    }

    /// Prints the rule above a block at the top as `***` if it is printed as `---`, without a line between, and isn't `---` in
    /// the source. It would begin metadata if such a line is further below.
    fn end_dashes(&mut self, start: usize) -> Result<(), AllocError> {
        let source = self.source;
        let above = source.line(source.line_of(start).saturating_sub(1));
        let is_below = self.page.top().last == Some(Kind::Rule) && !self.goes_on;
        if is_below && without_end_blanks(above) != "---" {
            self.page.replace_dashes()
        } else {
            Ok(())
        }
    }

    /// Begins a block: puts a line between it and the one before. At the top of the document it also chooses the block's
    /// look, and limits its prefixes.
    fn begin(
        &mut self,
        kind: Kind,
        is_apart: bool,
        block: (Option<usize>, (usize, usize)),
    ) -> Result<(), AllocError> {
        let (tree, range) = block;
        let is_top = self.page.depth() == 0;
        let step = match tree {
            Some(tree) => self.ladder.step(tree),
            None if self.ladder.keeps_definitions => Step::Spelled,
            None => Step::Styled,
        };
        if is_top {
            self.look = if step == Step::Styled {
                self.wanted
            } else {
                Look::literal()
            };
            let size = range.1.saturating_sub(range.0);
            self.page
                .limit(size.saturating_mul(4).saturating_add(FREE_PREFIXES));
        }
        let is_attached = is_top && step == Step::Attached && !is_apart;
        if !is_attached {
            self.separate(kind, is_apart)?;
        }
        if is_top {
            self.end_dashes(range.0)?;
            self.blocks.push(Block {
                tree,
                range,
                start: self.page.text.len(),
                is_outgrown: false,
            })?;
        }
        Ok(())
    }

    /// Whether the last line that is printed ends with the marker of an item that is empty.
    fn ends_with_marker(&self) -> bool {
        ends_with_marker(self.page.text.as_str().trim_end_matches('\n'))
    }

    /// Begins definitions of links. They get a line before them, unless they are directly below a block of another dialect, or
    /// below text that goes on for other programs.
    pub(crate) fn begin_definitions(
        &mut self,
        is_apart: bool,
        from: usize,
        to: usize,
    ) -> Result<(), AllocError> {
        let is_below_foreign = matches!(self.page.top().last, Some(Kind::Foreign));
        let is_joined = !is_apart && (is_below_foreign || self.goes_on);
        self.begin(Kind::Definitions, !is_joined, (None, (from, to)))
    }

    /// Whether a blank line of the source is before the line of a place, or nothing.
    pub(crate) fn is_apart(&self, place: usize) -> bool {
        let source = self.source;
        let base = source.line_start(place);
        let before = source.slice(source.line_start(base.saturating_sub(1)), base);
        before.trim_matches(&[' ', '\t', '>', '\n']).is_empty()
    }

    /// Begins a block of events, below the definitions that are before it.
    pub(crate) fn begin_events(
        &mut self,
        kind: Kind,
        start: usize,
        end: usize,
    ) -> Result<(), AllocError> {
        let is_apart = !self.goes_on && self.is_apart(start);
        let tree = self.trees.checked_sub(1);
        self.begin(kind, is_apart, (tree, (start, end)))
    }

    /// Prints the block at the top anew, by its lines of the source; what it is then.
    fn print_anew(&mut self, kind: Kind) -> Result<Kind, AllocError> {
        let has_misread = self.has_misread;
        self.has_misread = false;
        self.page.limit(usize::MAX);
        let Some(block) = self.blocks.last() else {
            return Ok(kind);
        };
        self.page.take_back(block.start);
        self.print_lines(block.range.0, block.range.1)?;
        if has_misread {
            self.begin_foreign(block.range.0);
            return Ok(Kind::Foreign);
        }
        self.blocks.outgrow_last();
        Ok(kind)
    }

    /// Ends a block. One at the top gets its lines of the source if its prefixes outgrow its text, or if other programs read
    /// a tag in it as a block of its own.
    pub(crate) fn finish(&mut self, kind: Kind, end: usize) -> Result<(), AllocError> {
        let mut last = kind;
        if self.page.depth() == 0 && self.page.is_over() {
            last = self.print_anew(kind)?;
        }
        let top = self.page.top_mut();
        top.last = Some(last);
        let at = top.at().max(end);
        top.set_at(at);
        Ok(())
    }

    /// Closes the innermost container, whose End this is.
    fn close(&mut self, end: usize) -> Result<(), AllocError> {
        self.end_kept()?;
        let top = self.page.top();
        let kind = top.kind;
        let marker = top.marker;
        let behind = top.end().saturating_add(1);
        if kind != Kind::List {
            self.print_gap(behind)?;
        }
        if self.page.top().owes_sign() {
            self.page.line("")?;
        }
        self.page.close();
        self.finish(kind, end)?;
        self.page.top_mut().last_marker = marker;
        Ok(())
    }

    /// Prints the inlines of a tight item from a place on; the place after them.
    fn print_bare_text(&mut self, part: &Part, at: usize) -> Result<usize, AllocError> {
        let source = self.source;
        let start = part.range(at).0;
        let front = self.page.front(source, start);
        let place = source.past_blanks(front.at).min(start);
        let behind = part.past_inlines(at);
        let end = part.range(behind.saturating_sub(1)).1;
        self.print_gap(place)?;
        if self.is_foreign(Kind::Paragraph, place, end) {
            self.print_foreign(place, end)?;
            return Ok(behind);
        }
        self.begin_events(Kind::Paragraph, place, end)?;
        self.print_text(part, (at, behind), place)?;
        self.finish(Kind::Paragraph, end)?;
        Ok(behind)
    }

    /// Opens a container, or prints a leaf; whether it is a container.
    fn print_block(&mut self, part: &Part, at: usize) -> Result<bool, AllocError> {
        let range = part.range(at);
        let Some(event) = part.event(at) else {
            return Ok(false);
        };
        match event {
            Mark::Rule => self.print_rule(range)?,
            Mark::Start(opening) => match opening {
                Opening::Paragraph => {
                    self.print_text(part, (at.saturating_add(1), part.end(at)), range.0)?;
                }
                Opening::Title => self.print_title(part, at)?,
                Opening::Heading(level) => self.print_heading(part, at, level)?,
                Opening::IndentedCode => self.print_code(part, at, true)?,
                Opening::FencedCode => self.print_code(part, at, false)?,
                Opening::Html => self.print_html(part, at)?,
                Opening::Table => self.print_table(part, at)?,
                Opening::Metadata => self.print_lines(range.0, range.1)?,
                _ => {
                    self.open_container(part, at, opening)?;
                    return Ok(true);
                }
            },
            _ => {}
        }
        Ok(false)
    }

    /// Prints a block that no comment keeps; the place after its event, or after its End.
    fn print_next(&mut self, part: &Part, at: usize, kind: Kind) -> Result<usize, AllocError> {
        let (start, end) = part.range(at);
        let behind = part.end(at).saturating_add(1);
        self.print_gap(start)?;
        if kind == Kind::Item {
            self.separate(kind, self.is_apart(start))?;
            // what is in another item isn't above
            self.foreign = None;
            self.goes_on = self.goes_on && self.has_misread;
        } else if self.is_foreign(kind, start, end) {
            self.print_foreign(start, end)?;
            self.is_cut = part.is_cut();
            return Ok(behind);
        } else {
            self.begin_events(kind, start, end)?;
            if kind == Kind::Rule && self.is_text_below((start, end)) {
                self.goes_on = true;
            }
        }
        let tree = self.trees.saturating_sub(1);
        let is_top = self.page.depth() == 0;
        if is_top && self.ladder.step(tree).keeps_lines() {
            self.print_lines(start, end)?;
            self.is_cut = part.is_cut();
        } else if self.print_block(part, at)? {
            return Ok(at.saturating_add(1));
        }
        self.finish(kind, end)?;
        Ok(behind)
    }

    /// Prints the next block, or opens or closes a container; the place after that.
    fn print_at(&mut self, part: &Part, at: usize) -> Result<usize, AllocError> {
        let next = at.saturating_add(1);
        let Some(event) = part.event(at) else {
            return Ok(next);
        };
        if let Mark::End(_) = event {
            self.close(part.range(at).1)?;
            return Ok(next);
        }
        if self.page.depth() == 0 {
            self.trees = self.trees.saturating_add(1);
        }
        if let Some(behind) = self.pass_kept(part, at)? {
            return Ok(behind);
        }
        if is_inline(event) {
            return self.print_bare_text(part, at);
        }
        self.print_next(part, at, kind_of(event))
    }

    /// Prints the next trees at the top.
    pub(crate) fn print(&mut self, part: &Part) -> Result<(), AllocError> {
        self.page.make_room(part.deepest())?;
        let mut at = 0usize;
        for _ in 0..part.len() {
            if at >= part.len() {
                break;
            }
            at = self.print_at(part, at)?;
        }
        Ok(())
    }

    /// Prints what is after the last tree.
    pub(crate) fn end(&mut self) -> Result<(), AllocError> {
        self.end_kept()?;
        self.print_gap(self.source.text.len().saturating_add(1))?;
        if self.is_cut && self.page.text.as_str().ends_with('\n') {
            self.page.text.pop();
        }
        if self.begins_otherwise() {
            self.put_line_before()?;
        }
        Ok(())
    }

    /// Whether other programs would read front matter or a byte order mark where the source has none. All three take three
    /// bytes.
    fn begins_otherwise(&self) -> bool {
        let front = self.page.text.as_str().get(..3).unwrap_or("");
        (front == "---" || front == "+++" || front == "\u{feff}")
            && !self.source.text.starts_with(front)
    }

    /// Puts an empty line before all that is printed.
    fn put_line_before(&mut self) -> Result<(), AllocError> {
        let mut text = String::from_str(self.alloc, "\n")?;
        text.push_str(self.page.text.as_str())?;
        self.page.text = text;
        self.blocks.shift(1);
        Ok(())
    }

    /// What is printed, and its blocks.
    pub(crate) fn into_text(self) -> (String, Blocks) {
        let Printer { page, blocks, .. } = self;
        (page.into_text(), blocks)
    }
}

/// What kind of block an event begins.
fn kind_of(event: Mark) -> Kind {
    match event {
        Mark::Rule => Kind::Rule,
        Mark::Start(opening) => match opening {
            Opening::Heading(_) => Kind::Heading,
            Opening::IndentedCode | Opening::FencedCode => Kind::Code,
            Opening::Html => Kind::Html,
            Opening::Table => Kind::Table,
            Opening::Metadata => Kind::Metadata,
            Opening::Quote { .. } => Kind::Quote,
            Opening::List { .. } => Kind::List,
            Opening::Item => Kind::Item,
            Opening::Footnote => Kind::Footnote,
            Opening::DefinitionList => Kind::DefinitionList,
            Opening::Title => Kind::Title,
            Opening::Definition => Kind::Definition,
            _ => Kind::Paragraph,
        },
        _ => Kind::Paragraph,
    }
}
