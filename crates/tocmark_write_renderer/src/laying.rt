//! Texts laid on lines. A line's prefix is written with the line's first byte, a line feed too.

ghost use Rattle.std.specs.Prelude.{◌≡◌, [], IfOk, IfSome, OnOk, replicate};
ghost use Rattle.tocmark_write_renderer.specs.Changes.{on_sheet};
ghost use Rattle.tocmark_write_renderer.specs.FeedsOf.{ending_feeds, feeds_behind};
ghost use Rattle.tocmark_write_renderer.specs.WriterOf.{HasNoFeed, levels_of, page_of, site_of, Stands};
ghost use Rattle.tocmark_spelling.specs.Page.{filled_to, laid, laid_on, prefix_of, put_byte, written};

use crate::renderer::Renderer;
use std::alloc::AllocError;

/// Line feeds, as many as most gaps have, and more.
const FEEDS: &str = "\n\n\n\n";

/// How many line feeds end a text.
fn ending_feeds(text: &str) -> usize
    ensures { result ≡ ending_feeds text.now }
{
    text.as_bytes()
        .iter()
        .rev()
        .take_while(|byte| **byte == b'\n')
        .count()
}

/// How many line feeds are at the end of a text that is laid after so many of them. An `Err` says that they would be
/// too many for a `usize`.
fn feeds_behind(text: &str, feeds: usize) -> Result<usize, AllocError>
    ensures { IfOk result (λ count. count ≡ feeds_behind text.now feeds) }
{
    let count = ending_feeds(text);
    if count == text.len() {
        feeds.checked_add(count).ok_or(AllocError)
    } else {
        Ok(count)
    }
}

/// So many line feeds; none where they are more than most gaps have.
fn few_feeds(count: usize) -> Option<&'static str>
    ensures { IfSome result (λ feeds. feeds.now ≡ replicate count 10) }
{
    if count <= FEEDS.len() {
        Some(&FEEDS[..count])
    } else {
        None
    }
}

impl<'a> Renderer<'a> {
    /// A part of a line.
    fn write_part(&mut self, part: &str) -> Result<(), AllocError>
        requires { HasNoFeed part.now }
        ensures site { OnOk result (site_of self.new
            ≡ on_sheet (laid (prefix_of (levels_of self.old)) part.now) (site_of self.old)) }
        ensures mark { self.new.at_mark ≡ self.old.at_mark }
    {
        if part.is_empty() {
            return Ok(());
        }
        self.begin_line()?;
        self.put_text(part)?;
        self.set_newlines(0);
        Ok(())
    }

    /// A line feed. An `Err` is also the answer where the line feeds would be too many for a `usize`.
    fn write_feed(&mut self) -> Result<(), AllocError>
        ensures site { OnOk result (site_of self.new
            ≡ on_sheet (put_byte (prefix_of (levels_of self.old)) 10) (site_of self.old)) }
        ensures mark { self.new.at_mark ≡ self.old.at_mark }
    {
        let newlines = self.newlines().checked_add(1).ok_or(AllocError)?;
        self.begin_line()?;
        self.put_text("\n")?;
        self.set_newlines(newlines);
        Ok(())
    }

    /// Writes a text whose lines have no prefix, in one piece. An `Err` is also the answer where the line feeds at its
    /// end would be too many for a `usize`.
    pub fn write_alone(&mut self, text: &str) -> Result<(), AllocError>
        ensures written { OnOk result
            (Stands self.new (levels_of self.old) (laid_on [] text.now (page_of self.old))) }
        ensures mark { self.new.at_mark ≡ self.old.at_mark }
    {
        let newlines = feeds_behind(text, self.newlines())?;
        self.put_text(text)?;
        self.set_newlines(newlines);
        Ok(())
    }

    /// A text line by line, each after the prefix.
    fn lay_lines(&mut self, text: &str) -> Result<(), AllocError>
        ensures site { OnOk result (site_of self.new
            ≡ on_sheet (laid (prefix_of (levels_of self.old)) text.now) (site_of self.old)) }
        ensures mark { self.new.at_mark ≡ self.old.at_mark }
    {
        let mut rest = text;
        while let Some((line, more)) = rest.split_once('\n') {
            self.write_part(line)?;
            self.write_feed()?;
            rest = more;
        }
        self.write_part(rest)
    }

    /// Writes a text inside the open containers, each of its lines after the prefix.
    pub fn write(&mut self, text: &str) -> Result<(), AllocError>
        ensures written { OnOk result
            (Stands self.new (levels_of self.old)
            (written (levels_of self.old) text.now (page_of self.old))) }
        ensures mark { self.new.at_mark ≡ self.old.at_mark }
    {
        if self.prefix().is_empty() {
            self.write_alone(text)
        } else {
            self.lay_lines(text)
        }
    }

    /// So many line feeds, each after the prefix.
    fn lay_feed_lines(&mut self, count: usize) -> Result<(), AllocError>
        ensures site { OnOk result (site_of self.new
            ≡ on_sheet (laid (prefix_of (levels_of self.old)) (replicate count 10))
            (site_of self.old)) }
        ensures mark { self.new.at_mark ≡ self.old.at_mark }
    {
        self.reserve_lines(count)?;
        for _line in 0..count {
            self.write_feed()?;
        }
        Ok(())
    }

    /// So many line feeds where there is no prefix: few of them in one piece.
    fn lay_bare_feeds(&mut self, count: usize) -> Result<(), AllocError>
        requires { prefix_of (levels_of self.old) ≡ [] }
        ensures written { OnOk result (Stands self.new (levels_of self.old)
            (written (levels_of self.old) (replicate count 10) (page_of self.old))) }
        ensures mark { self.new.at_mark ≡ self.old.at_mark }
    {
        match few_feeds(count) {
            Some(feeds) => self.write_alone(feeds),
            None => self.lay_feed_lines(count),
        }
    }

    /// So many line feeds, each after the prefix, if there is one.
    fn lay_feeds(&mut self, count: usize) -> Result<(), AllocError>
        ensures written { OnOk result (Stands self.new (levels_of self.old)
            (written (levels_of self.old) (replicate count 10) (page_of self.old))) }
        ensures mark { self.new.at_mark ≡ self.old.at_mark }
    {
        if self.prefix().is_empty() {
            self.lay_bare_feeds(count)
        } else {
            self.lay_feed_lines(count)
        }
    }

    /// Writes line feeds until so many are. Room for all of them is made before the first is written; an `Err` says
    /// that there was none.
    pub fn fill(&mut self, lines: usize) -> Result<(), AllocError>
        ensures filled { OnOk result
            (Stands self.new (levels_of self.old)
            (filled_to lines (levels_of self.old) (page_of self.old))) }
        ensures mark { self.new.at_mark ≡ self.old.at_mark }
    {
        let count = lines.saturating_sub(self.newlines());
        if count == 0 {
            return Ok(());
        }
        self.lay_feeds(count)
    }
}
