//! What is written of a unit so far, and what it was at a mark. No other file writes these fields.

ghost use Rattle.std.specs.Prelude.{◌≡◌, ℕ, ◌==◌, ◌∷◌, [], Some, None, string_bytes, drop, length, map, IfOk, IfSome, IsSome, is_some, MatchOption, OnErr, OnOk};
ghost use Rattle.std.specs.Str.{IsCharBoundary};
ghost use Rattle.std.specs.Option.{option_map};
ghost use Rattle.tocmark_event.specs.View.{tag_view};
ghost use Rattle.tocmark_write_texts.specs.Escape.{escaped, place_of};
ghost use Rattle.tocmark_write_containers.specs.FrameOf.{content_view, level_of};
ghost use Rattle.tocmark_write_containers.specs.Nesting.{entered, head_of, is_counted, renumbered};
ghost use Rattle.tocmark_write_containers.specs.Outside.{outside_of};
ghost use Rattle.tocmark_write_containers.specs.PrefixOf.{prefix_bytes};
ghost use Rattle.tocmark_spelling.specs.Gap.{forget_quote};
ghost use Rattle.tocmark_spelling.specs.Page.{lead, prefix_of, written};
ghost use Rattle.tocmark_spelling.specs.Kinds.{is_emphasis, is_emphasis_or_strong};
ghost use Rattle.tocmark_spelling.specs.Places.{at_item_start, is_after_opening, is_close, is_in_loose_list, nearest, widened, with_header};
ghost use Rattle.tocmark_spelling.specs.Runs.{last_run, run_around};
ghost use Rattle.tocmark_spelling.specs.Stretch.{at_front};
ghost use Rattle.tocmark_spelling.specs.TrailOf.{trail_of, trail_view};
ghost use Rattle.tocmark_write_renderer.specs.LineOf.{going_on, owes_nothing};
ghost use Rattle.tocmark_write_renderer.specs.Changes.{carrying, holding, on_page, on_path, on_sheet, quoting, referring, with_feeds, with_more};
ghost use Rattle.tocmark_write_renderer.specs.WriterOf.{blank, held_view, levels_of, page_of, reference_view, sheet_of, site_of, unheld, Stands};

use crate::marker_runs::MarkerRuns;
use crate::parts::{Held, Parts, Reference};
use std::alloc::{AllocError, Global};
use std::marker::Model;
use std::mem;
use tocmark_event::event::TagOf;
use tocmark_spelling::trail::{Carried, Last, Trail, copied_text};
use tocmark_write_containers::containers::Containers;
use tocmark_write_containers::content::OpeningChoice;
use tocmark_write_containers::frame::Frame;
use tocmark_write_containers::outside::Outside;
use tocmark_write_containers::prefix::Prefix;
use tocmark_write_texts::escape::{EscapeSurroundings, push_escaped};

/// What was at the mark and owns no memory.
#[derive(Clone, Copy)]
struct Snapshot {
    /// How long the text was, in bytes.
    text: usize,
    newlines: usize,
    carried: Carried,
    /// How many references there were.
    references: usize,
}

/// Writes one unit. At most one mark is set, and `back` makes it again what it was there.
#[derive(Drop)]
pub struct Renderer<'a> {
    alloc: Global,
    /// The unit's text.
    text: String,
    /// Line feeds at the end of all that is written, prefixes not counted.
    newlines: usize,
    containers: Containers<'a>,
    /// The definitions that are still to be written.
    references: Vec<Reference>,
    carried: Carried,
    /// The line that goes on with a quote.
    quote_line: Option<String>,
    /// The stretch of texts that has not ended.
    held: Option<Held>,
    mark: Option<Snapshot>,
    /// The quote line at the mark, if it was replaced since.
    old_quote_line: Option<Option<String>>,
    /// The stretch at the mark, if it was replaced since.
    old_held: Option<Option<Held>>,
    /// The runs of markers in the text, as far as it was read for them.
    runs: MarkerRuns,
}

impl<'a> Model for Renderer<'a> {
    ghost use Rattle.tocmark_write_renderer.specs.WriterOf.{Rendering};

    ghost Value = { Rendering };

    ghost use Rattle.tocmark_write_renderer.specs.RendererOf.{rendering_of, IsNoted};

    ghost view = { rendering_of };

    ghost invariant = { IsNoted };
}

impl<'a> Renderer<'a> {
    /// An empty unit after so many line feeds, which finds this trail. What `room` holds is forgotten;
    /// the unit's text is written in its memory.
    pub fn resume(alloc: Global, mut room: String, newlines: usize, trail: Trail) -> Renderer<'a>
        ensures site { site_of result ≡ blank newlines (trail_view trail) }
        ensures mark { result.at_mark ≡ None }
    {
        room.clear();
        Renderer {
            alloc,
            text: room,
            newlines,
            containers: Containers::new(alloc),
            references: Vec::new(alloc),
            carried: trail.carried,
            quote_line: trail.quote_line,
            held: None,
            mark: None,
            old_quote_line: None,
            old_held: None,
            runs: MarkerRuns::new(alloc),
        }
    }

    /// What the unit leaves.
    #[inline(always)]
    pub fn into_parts(self) -> Parts
        ensures text { string_bytes result.text ≡ (sheet_of self.entry).text }
        ensures newlines { result.newlines ≡ (sheet_of self.entry).feeds }
        ensures trail { trail_view result.trail ≡ (page_of self.entry).trail }
        ensures references { map reference_view result.references.items
            ≡ (page_of self.entry).references }
    {
        let Renderer {
            text,
            newlines,
            carried,
            quote_line,
            references,
            ..
        } = self;
        Parts {
            text,
            newlines,
            trail: Trail {
                carried,
                quote_line,
            },
            references,
        }
    }

    /// The text so far.
    pub fn text(&self) -> &str
        ensures { result.now ≡ (sheet_of self.now).text }
    {
        self.text.as_str()
    }

    /// The text from a place on, in bytes, where it may be cut.
    pub fn text_from(&self, start: usize) -> &str
        requires { IsCharBoundary (sheet_of self.now).text start }
        ensures { result.now ≡ drop start (sheet_of self.now).text }
    {
        &self.text[start..]
    }

    /// How long the last run of `*` or of `_` in the text is, in bytes. Only what is new of the text since
    /// runs were asked for is read.
    pub fn last_run(&mut self) -> Result<usize, AllocError>
        ensures run { IfOk result (λ run. run ≡ last_run (sheet_of self.old).text) }
        ensures site { site_of self.new ≡ site_of self.old }
        ensures mark { self.new.at_mark ≡ self.old.at_mark }
    {
        self.runs.note(self.text.as_str())?;
        Ok(self.runs.last())
    }

    /// How long the run of a byte is round a place of the text, in bytes. For `*` and `_` only what is new
    /// of the text since runs were asked for is read.
    pub fn run_around(&mut self, place: usize, byte: u8) -> Result<usize, AllocError>
        ensures run { IfOk result (λ run. run ≡ run_around byte place (sheet_of self.old).text) }
        ensures site { site_of self.new ≡ site_of self.old }
        ensures mark { self.new.at_mark ≡ self.old.at_mark }
    {
        self.runs.note(self.text.as_str())?;
        self.runs.around(self.text.as_str(), place, byte)
    }

    /// How many line feeds end all that is written, prefixes not counted.
    pub fn newlines(&self) -> usize
        ensures { result ≡ (sheet_of self.now).feeds }
    {
        self.newlines
    }

    /// The definitions that the unit needs so far.
    pub fn references(&self) -> &[Reference]
        ensures { map reference_view result.now ≡ (page_of self.now).references }
    {
        &self.references
    }

    /// Whether the text is empty so far.
    pub fn is_empty(&self) -> bool
        ensures { result ≡ length (sheet_of self.now).text == 0 }
    {
        self.text.is_empty()
    }

    /// What is carried along to what follows.
    pub fn carried(&self) -> Carried
        ensures { trail_of result (page_of self.now).trail.quote_line ≡ (page_of self.now).trail }
    {
        self.carried
    }

    /// How many containers are open.
    pub fn depth(&self) -> usize
        ensures { result ≡ length (levels_of self.now) }
    {
        self.containers.depth()
    }

    /// What is before each line: the prefixes of the open containers, joined.
    pub fn prefix(&self) -> &str
        ensures { result.now ≡ prefix_of (levels_of self.now) }
    {
        self.containers.prefix()
    }

    /// The innermost container.
    pub fn innermost(&self) -> Option<&Frame<'a>>
        ensures { option_map (λ f. level_of f.now) result ≡ head_of (levels_of self.now) }
    {
        self.containers.innermost()
    }

    /// The nearest open emphasis, strong emphasis aside.
    pub fn nearest_emphasis(&self) -> Option<&Frame<'a>>
        ensures { option_map (λ f. level_of f.now) result
            ≡ nearest is_emphasis (levels_of self.now) }
    {
        self.containers.nearest_emphasis()
    }

    /// The nearest open emphasis or strong emphasis.
    pub fn nearest_delimiter(&self) -> Option<&Frame<'a>>
        ensures { option_map (λ f. level_of f.now) result
            ≡ nearest is_emphasis_or_strong (levels_of self.now) }
    {
        self.containers.nearest_delimiter()
    }

    /// What the open containers say of this place.
    pub fn outside(&self) -> Outside
        ensures { result ≡ outside_of (levels_of self.now) }
    {
        self.containers.outside()
    }

    /// Whether the innermost container's opening ended here.
    fn is_after_opening(&self) -> bool
        ensures { result ≡ is_after_opening (levels_of self.now) (page_of self.now) }
    {
        self.containers.starts_at(self.text.len())
    }

    /// Whether a line, the unit, or a container has its front here.
    pub fn is_at_front(&self) -> bool
        ensures { result ≡ at_front (levels_of self.now) (page_of self.now) }
    {
        let begins = self.newlines > 0 || self.text.is_empty();
        begins || self.is_after_opening()
    }

    /// Whether nothing but openings is between an item's opening and this place.
    pub fn at_item_start(&self) -> bool
        ensures { result ≡ at_item_start (levels_of self.now) (page_of self.now) }
    {
        self.containers.is_item_start(self.text.len())
    }

    /// Whether no blank lines are between the children of the innermost container.
    pub fn is_close(&self) -> bool
        ensures { result ≡ is_close (levels_of self.now) }
    {
        self.containers.is_close()
    }

    /// Whether the innermost container is a list that isn't tight.
    pub fn is_in_loose_list(&self) -> bool
        ensures { result ≡ is_in_loose_list (levels_of self.now) }
    {
        self.containers.is_in_loose_list()
    }

    /// Makes room for so many line feeds, each with the prefix of its line.
    pub fn reserve_lines(&mut self, count: usize) -> Result<(), AllocError>
        ensures site { site_of self.new ≡ site_of self.old }
        ensures mark { self.new.at_mark ≡ self.old.at_mark }
    {
        let width = self
            .containers
            .prefix()
            .len()
            .checked_add(1)
            .ok_or(AllocError)?;
        self.text
            .reserve(count.checked_mul(width).ok_or(AllocError)?)
    }

    /// Adds to the text.
    pub fn put_text(&mut self, text: &str) -> Result<(), AllocError>
        ensures site { OnOk result (site_of self.new
            ≡ on_sheet (with_more text.now) (site_of self.old)) }
        ensures mark { self.new.at_mark ≡ self.old.at_mark }
    {
        self.text.push_str(text)?;
        Ok(())
    }

    /// Adds the prefix, where a line begins.
    pub fn begin_line(&mut self) -> Result<(), AllocError>
        ensures site { OnOk result (site_of self.new
            ≡ on_sheet
            (with_more (lead (prefix_of (levels_of self.old)) (sheet_of self.old).feeds))
            (site_of self.old)) }
        ensures mark { self.new.at_mark ≡ self.old.at_mark }
    {
        if self.newlines > 0 {
            self.text.push_str(self.containers.prefix())?;
        }
        Ok(())
    }

    /// Says how many line feeds end all that is written, prefixes not counted.
    pub fn set_newlines(&mut self, newlines: usize)
        ensures site { site_of self.new ≡ on_sheet (with_feeds newlines) (site_of self.old) }
        ensures mark { self.new.at_mark ≡ self.old.at_mark }
    {
        self.newlines = newlines;
    }

    /// Writes a text's escape inside the open containers. An escape has no line feed.
    pub fn write_escaped(
        &mut self,
        text: &str,
        place: &EscapeSurroundings<'_>,
    ) -> Result<(), AllocError>
        ensures written { OnOk result
            (Stands self.new (levels_of self.old)
            (written (levels_of self.old) (escaped (place_of place.now) text.now)
            (page_of self.old))) }
        ensures mark { self.new.at_mark ≡ self.old.at_mark }
    {
        if text.is_empty() {
            return Ok(());
        }
        self.begin_line()?;
        push_escaped(&mut self.text, text, place)?;
        self.newlines = 0;
        Ok(())
    }

    /// Whether nothing is owed before a leaf that goes on with a line.
    pub fn owes_nothing(&self) -> bool
        ensures { result ≡ owes_nothing (page_of self.now).trail }
    {
        matches!(self.carried.last, Last::Inline | Last::Other)
            && self.carried.owed == 0
            && !self.carried.open_html
            && self.quote_line.is_none()
    }

    /// Goes on with inline content: raw text has ended, and no list is the last one.
    pub fn go_on(&mut self)
        ensures site { site_of self.new ≡ on_page going_on (site_of self.old) }
        ensures mark { self.new.at_mark ≡ self.old.at_mark }
    {
        self.carried.last_list = None;
        self.carried.raw_end = false;
    }

    /// Says what is carried along.
    pub fn set_carried(&mut self, carried: Carried)
        ensures site { site_of self.new ≡ on_page (carrying carried) (site_of self.old) }
        ensures mark { self.new.at_mark ≡ self.old.at_mark }
    {
        self.carried = carried;
    }

    /// Replaces the line that goes on with a quote.
    pub fn set_quote_line(&mut self, line: Option<String>)
        ensures site { site_of self.new
            ≡ on_page (quoting (option_map string_bytes line)) (site_of self.old) }
        ensures mark { self.new.at_mark ≡ self.old.at_mark }
    {
        if self.quote_line.is_none() && line.is_none() {
            return;
        }
        let old = mem::replace(&mut self.quote_line, line);
        if self.old_quote_line.is_none() {
            self.old_quote_line = Some(old);
        }
    }

    /// Takes the line that goes on with a quote; one of the mark is copied.
    pub fn take_quote_line(&mut self) -> Result<Option<String>, AllocError>
        ensures site { OnOk result (site_of self.new ≡ on_page forget_quote (site_of self.old)) }
        ensures line { IfOk result (λ line.
            option_map string_bytes line ≡ (page_of self.old).trail.quote_line) }
        ensures mark { self.new.at_mark ≡ self.old.at_mark }
    {
        if self.quote_line.is_none() {
            return Ok(None);
        }
        if self.mark.is_none() || self.old_quote_line.is_some() {
            return Ok(mem::replace(&mut self.quote_line, None));
        }
        let copy = copied_text(self.alloc, &self.quote_line)?;
        self.old_quote_line = Some(mem::replace(&mut self.quote_line, None));
        Ok(copy)
    }

    /// Holds a stretch.
    pub fn hold(&mut self, held: Held)
        ensures site { site_of self.new
            ≡ on_page (holding (Some (held_view held))) (site_of self.old) }
        ensures mark { self.new.at_mark ≡ self.old.at_mark }
    {
        let old = mem::replace(&mut self.held, Some(held));
        if self.old_held.is_none() {
            self.old_held = Some(old);
        }
    }

    /// Takes the stretch that is held; one of the mark is copied.
    pub fn take_held(&mut self) -> Result<Option<Held>, AllocError>
        ensures site { OnOk result (site_of self.new ≡ on_page unheld (site_of self.old)) }
        ensures held { IfOk result (λ held. option_map held_view held ≡ (page_of self.old).held) }
        ensures mark { self.new.at_mark ≡ self.old.at_mark }
    {
        if self.held.is_none() {
            return Ok(None);
        }
        if self.mark.is_none() || self.old_held.is_some() {
            return Ok(mem::replace(&mut self.held, None));
        }
        let copy = match &self.held {
            Some(held) => Some(held.copied(self.alloc)?),
            None => None,
        };
        self.old_held = Some(mem::replace(&mut self.held, None));
        Ok(copy)
    }

    /// Adds a definition that is still to be written.
    pub fn add_reference(&mut self, reference: Reference) -> Result<(), AllocError>
        ensures site { OnOk result (site_of self.new
            ≡ on_page (referring (reference_view reference)) (site_of self.old)) }
        ensures mark { self.new.at_mark ≡ self.old.at_mark }
    {
        self.references.push(reference)?;
        Ok(())
    }

    /// Opens a container here, with this prefix before its lines.
    pub fn push_frame(
        &mut self,
        tag: &'a TagOf<String>,
        prefix: Prefix,
        content: OpeningChoice,
    ) -> Result<(), AllocError>
        ensures site { OnOk result (site_of self.new
            ≡ on_path
            (entered (tag_view string_bytes tag.entry.now) (prefix_bytes prefix)
            (length (sheet_of self.old).text) (content_view content)) (site_of self.old)) }
        ensures mark { self.new.at_mark ≡ self.old.at_mark }
    {
        let start = self.text.len();
        self.containers.push(tag, prefix, start, content)
    }

    /// Closes the innermost container, if there is one, and gives it. If memory runs out, nothing is
    /// closed.
    pub fn pop_frame(&mut self) -> Result<Option<Frame<'a>>, AllocError>
        ensures top { IfOk result (λ top.
            MatchOption top (levels_of self.old ≡ []) (λ frame.
            levels_of self.old ≡ level_of frame ∷ levels_of self.new)) }
        ensures page { page_of self.new ≡ page_of self.old }
        ensures stays { OnErr result (levels_of self.new ≡ levels_of self.old) }
        ensures start { IfOk result (λ top. IfSome top (λ frame.
            IsCharBoundary (sheet_of self.old).text frame.start)) }
        ensures mark { self.new.at_mark ≡ self.old.at_mark }
    {
        self.containers.pop()
    }

    /// The innermost container, if it is a list, goes on with this number, which has to be none
    /// where it has none.
    pub fn set_number(&mut self, number: Option<u64>)
        requires { is_counted (levels_of self.old) ≡ is_some number }
        ensures site { site_of self.new ≡ on_path (renumbered number) (site_of self.old) }
        ensures mark { self.new.at_mark ≡ self.old.at_mark }
    {
        self.containers.set_number(number);
    }

    /// Makes the nearest open cell, if there is one, wider by so many characters. It fails if memory runs
    /// out, or if the count would be too large.
    pub fn widen(&mut self, characters: usize) -> Result<(), AllocError>
        ensures site { OnOk result
            (site_of self.new ≡ on_path (widened characters) (site_of self.old)) }
        ensures mark { self.new.at_mark ≡ self.old.at_mark }
    {
        self.containers.widen(characters)
    }

    /// Adds to the nearest open table, if there is one, a cell of this width, in characters.
    pub fn add_header(&mut self, width: usize) -> Result<(), AllocError>
        ensures site { OnOk result
            (site_of self.new ≡ on_path (with_header width) (site_of self.old)) }
        ensures mark { self.new.at_mark ≡ self.old.at_mark }
    {
        self.containers.add_header(width)
    }

    /// Sets the mark here, in place of an earlier one.
    pub fn mark(&mut self)
        ensures site { site_of self.new ≡ site_of self.old }
        ensures mark { self.new.at_mark ≡ Some (site_of self.old) }
    {
        self.containers.mark();
        self.old_quote_line = None;
        self.old_held = None;
        self.mark = Some(Snapshot {
            text: self.text.len(),
            newlines: self.newlines,
            carried: self.carried,
            references: self.references.len(),
        });
    }

    /// Makes it again what it was at the mark, which is forgotten. It takes no memory.
    pub fn back(&mut self)
        requires { IsSome self.old.at_mark }
        ensures site { Some (site_of self.new) ≡ self.old.at_mark }
        ensures mark { self.new.at_mark ≡ None }
    {
        let Some(mark) = self.mark else {
            return;
        };
        self.containers.back();
        self.text.truncate(mark.text);
        self.runs.truncate(mark.text);
        self.newlines = mark.newlines;
        self.carried = mark.carried;
        self.references.truncate(mark.references);
        if let Some(line) = mem::replace(&mut self.old_quote_line, None) {
            self.quote_line = line;
        }
        if let Some(held) = mem::replace(&mut self.old_held, None) {
            self.held = held;
        }
        self.mark = None;
    }
}
