//! The text that is chosen for a unit, and what the unit leaves to later ones.

ghost use Rattle.std.specs.Prelude.{◌≡◌, ◌==◌, ℕ, List, [], string_bytes, IfOk, IfSome, OnErr, OnOk, map, option_map, is_some, None, true};
ghost use Rattle.std.specs.List.{list_any};
ghost use Rattle.tocmark_event.specs.Reading.{ReadingView};
ghost use Rattle.tocmark_spelling.specs.Buffered.{following_view, next_view};
ghost use Rattle.tocmark_spelling.specs.Page.{Site};
ghost use Rattle.tocmark_spelling.specs.Plan.{Setting};
ghost use Rattle.tocmark_write_renderer.specs.WriterOf.{page_of, reference_view, sheet_of, site_of};
ghost use Rattle.tocmark_choose.specs.Choice.{choice};
ghost use Rattle.tocmark_choose.specs.Chosen.{chosen};
ghost use Rattle.tocmark_write_labels.specs.Defined.{behind, undefined};
ghost use Rattle.tocmark_write_labels.specs.Definitions.{definitions_text};
ghost use Rattle.tocmark_write_labels.specs.Document.{bracketed_in, first_document, known_in};
ghost use Rattle.tocmark_write_labels.specs.LabelsOf.{label_now, labels_of, Begins};
ghost use Rattle.tocmark_choose.specs.TrialOf.{IsFront, IsKnown, IsReady, WritesChoice, asked_of, left_by, or_no_trees, setting_with};
ghost use Rattle.tocmark_write_labels.specs.Units.{label_for};
ghost use Rattle.tocmark_write_pending.specs.Units.{trees_of};
ghost use Rattle.tocmark_choose.specs.DocumentOf.{document_at, document_view, document_flags, Gives, HasRoom, Spells, kept_view, noted, passed};

use crate::earlier::Earlier;
use crate::read_back::ReadBack;
use crate::search::Search;
use crate::tools::Tools;
use crate::trial::Trial;
use std::alloc::{AllocError, Global};
use std::mem;
use tocmark_event::event::{Event, OwnedEvent, ParserOptions};
use tocmark_event::options::Error;
use tocmark_event::reader::Reader;
use tocmark_spelling::trail::Trail;
use tocmark_write_labels::defined::{add_labels, undefined_text};
use tocmark_write_labels::definitions::{copied_references, definitions_text};
use tocmark_write_labels::labels::Labels;
use tocmark_write_labels::reserved_label::{literal_labels, reserve_list_label};
use tocmark_write_pending::pending::Pending;
use tocmark_write_renderer::parts::{Parts, Reference};
use tocmark_write_renderer::renderer::Renderer;
use tocmark_write_unit::findings::findings_of;

/// What earlier units leave to later ones.
#[derive(Drop)]
pub struct Document {
    flags: ParserOptions,
    /// Line feeds at the end of all that was written, prefixes not counted.
    newlines: usize,
    /// What the last unit left to its right neighbour.
    trail: Trail,
    /// What earlier units leave to be defined at the end.
    references: Vec<Reference>,
    /// The labels that earlier units define.
    known: Labels,
    /// The texts of earlier units with a bracket. What is no link there, since nothing defines its label,
    /// must not become one by a label that is reserved at the end: then they are read.
    bracketed: Vec<String>,
    /// Whether a unit was written.
    flushed: bool,
    /// A text that nobody reads any more: the next unit's is written in its room.
    room: String,
}

fn kept_event(alloc: Global, event: Option<&Event<'_>>) -> Result<Option<OwnedEvent>, AllocError>
    ensures { IfOk result (λ kept. kept_view kept ≡ next_view event.entry) }
{
    match event {
        None => Ok(None),
        Some(event) => Ok(Some(event.copied(alloc)?)),
    }
}

fn lent_event(event: &Option<OwnedEvent>) -> Option<&OwnedEvent>
    ensures { following_view result ≡ kept_view event.now }
{
    match event {
        None => None,
        Some(event) => Some(event),
    }
}

fn lent_label(label: &Option<String>) -> Option<&str>
    ensures { label_now result ≡ option_map string_bytes label.now }
{
    match label {
        None => None,
        Some(label) => Some(label.as_str()),
    }
}

fn has_bracket(text: &str) -> bool
    ensures { result ≡ list_any (λ b. b == 91) text.now }
{
    text.as_bytes().contains(&b'[')
}

/// Adds the labels that a reader finds defined in a unit's definitions. If memory runs out, here or in
/// the reader, none is added.
fn note_known_labels<R: Reader>(
    known: &mut Labels,
    trial: &Trial<'_, '_, R>,
    definitions: &str,
) -> Result<(), AllocError>
    ensures known { let reading = R.reading trial.now.tools.now.reader.now in
        OnOk result (labels_of known.new
        ≡ known_in reading trial.now.flags (labels_of known.old) definitions.now) }
    ensures front { Begins (labels_of known.old) (labels_of known.new) }
    ensures stays { OnErr result (labels_of known.new ≡ labels_of known.old) }
{
    if definitions.is_empty() {
        return Ok(());
    }
    let found = trial
        .tools
        .reader
        .read(trial.tools.alloc, definitions, trial.flags)?;
    known.add_all(trial.tools.alloc, &found.defined)
}

/// Keeps a copy of a unit's text, if that has a bracket. If memory runs out, it isn't kept.
fn keep_bracketed(texts: &mut Vec<String>, alloc: Global, text: &str) -> Result<(), AllocError>
    ensures kept { OnOk result (map string_bytes texts.new.items
        ≡ bracketed_in (map string_bytes texts.old.items) text.now) }
    ensures stays { OnErr result (texts.new.items ≡ texts.old.items) }
{
    if has_bracket(text) {
        texts.push(String::from_str(alloc, text)?)?;
    }
    Ok(())
}

fn copied_texts(alloc: Global, texts: &[String]) -> Result<Vec<String>, AllocError>
    ensures { IfOk result (λ copies. map string_bytes copies.items ≡ map string_bytes texts.now) }
{
    let mut copies = Vec::new(alloc);
    for text in texts {
        copies.push(String::from_str(alloc, text.as_str())?)?;
    }
    Ok(copies)
}

impl Document {
    /// A document before its first unit, for events of a parser with these flags.
    pub fn new(alloc: Global, flags: ParserOptions) -> Document
        ensures view { document_view result ≡ first_document }
        ensures flags { document_flags result ≡ flags }
    {
        Document {
            flags,
            newlines: 0,
            trail: Trail::new(),
            references: Vec::new(alloc),
            known: Labels::new(alloc),
            bracketed: Vec::new(alloc),
            flushed: false,
            room: String::new(alloc),
        }
    }

    /// An equal document.
    pub fn copied(&self, alloc: Global) -> Result<Document, AllocError>
        ensures view { IfOk result (λ copy. document_view copy ≡ document_view self.now) }
        ensures flags { IfOk result (λ copy. document_flags copy ≡ document_flags self.now) }
    {
        Ok(Document {
            flags: self.flags,
            newlines: self.newlines,
            trail: self.trail.copied(alloc)?,
            references: copied_references(alloc, &self.references)?,
            known: self.known.copied()?,
            bracketed: copied_texts(alloc, &self.bracketed)?,
            flushed: self.flushed,
            room: String::new(alloc),
        })
    }

    /// Notes the labels that a reader finds defined in the definitions of a unit, and its text. If memory
    /// runs out, here or in the reader, nothing is noted.
    fn note_labels<R: Reader>(
        &mut self,
        trial: &Trial<'_, '_, R>,
        definitions: &str,
        text: &str,
    ) -> Result<(), AllocError>
        ensures noted { let reading = R.reading trial.now.tools.now.reader.now in
            let flags = trial.now.flags in
            let old = document_view self.old in
            OnOk result (document_view self.new ≡ record old {
              known = known_in reading flags old.known definitions.now;
              bracketed = bracketed_in old.bracketed text.now;
            }) }
        ensures stays { OnErr result (document_view self.new ≡ document_view self.old) }
        ensures flags { document_flags self.new ≡ document_flags self.old }
        ensures references { self.new.references ≡ self.old.references }
    {
        let before = self.known.len();
        note_known_labels(&mut self.known, trial, definitions)?;
        let noted = keep_bracketed(&mut self.bracketed, trial.tools.alloc, text);
        if noted.is_err() {
            self.known.truncate(before);
        }
        noted
    }

    /// Notes the labels and the text of a unit that no reader has read, as `note_labels` does.
    fn note_unread<R: Reader>(
        &mut self,
        trial: &Trial<'_, '_, R>,
        renderer: &Renderer<'_>,
    ) -> Result<(), AllocError>
        ensures noted { let s = (asked_of R.reading trial.now).setting in
            OnOk result (document_view self.new
            ≡ noted s (document_view self.old) (page_of renderer.now)) }
        ensures stays { OnErr result (document_view self.new ≡ document_view self.old) }
        ensures flags { document_flags self.new ≡ document_flags self.old }
        ensures references { self.new.references ≡ self.old.references }
    {
        let (references, newlines) = (renderer.references(), renderer.newlines());
        let definitions = definitions_text(trial.tools.alloc, references, newlines)?;
        self.note_labels(trial, definitions.as_str(), renderer.text())
    }

    /// Notes the labels and the text of a unit as it is written, and makes room for the definitions that it
    /// needs. If memory runs out, here or in the reader, the document stays as it was.
    fn note<R: Reader>(
        &mut self,
        trial: &Trial<'_, '_, R>,
        renderer: &Renderer<'_>,
        known: Option<ReadBack>,
    ) -> Result<(), AllocError>
        requires known { IfSome known (IsKnown (page_of renderer.now)) }
        ensures noted { let s = (asked_of R.reading trial.now).setting in
            OnOk result (document_view self.new
            ≡ noted s (document_view self.old) (page_of renderer.now)) }
        ensures room { OnOk result (HasRoom self.new (page_of renderer.now)) }
        ensures stays { OnErr result (document_view self.new ≡ document_view self.old) }
        ensures flags { document_flags self.new ≡ document_flags self.old }
    {
        self.references.reserve(renderer.references().len())?;
        match known {
            Some(known) => { self.note_labels(trial, known.definitions.as_str(), renderer.text()) }
            None => self.note_unread(trial, renderer),
        }
    }

    /// What the document leaves to the reading of its next unit.
    fn earlier(&self) -> Earlier<'_>
        ensures { (here : Site)
            → left_by (document_view self.now) result here ≡ document_at self.now here }
    {
        Earlier {
            known: &self.known,
            flushed: self.flushed,
        }
    }

    /// Makes room for a text of likely this length, in which the next unit is written.
    fn make_room(&mut self, likely_len: usize) -> Result<(), AllocError>
        ensures view { document_view self.new ≡ document_view self.old }
        ensures flags { document_flags self.new ≡ document_flags self.old }
    {
        self.room.clear();
        self.room.reserve(likely_len)
    }

    /// A renderer of the next unit, to which the trail and the room are moved.
    #[inline(always)]
    fn begin<'a>(&mut self, alloc: Global) -> Renderer<'a>
        ensures front { IsFront (site_of result) }
        ensures view { document_at self.new (site_of result) ≡ document_view self.old }
        ensures flags { document_flags self.new ≡ document_flags self.old }
    {
        let trail = mem::replace(&mut self.trail, Trail::new());
        let room = mem::replace(&mut self.room, String::new(alloc));
        Renderer::resume(alloc, room, self.newlines, trail)
    }

    /// Takes a unit's text back when it is handed on: the next unit is written in its room.
    pub fn give_back(&mut self, text: String)
        ensures view { document_view self.new ≡ document_view self.old }
        ensures flags { document_flags self.new ≡ document_flags self.old }
    {
        self.room = text;
    }

    /// Takes back what `begin` moved, from a renderer that is at a unit's front.
    fn take_back(&mut self, renderer: Renderer<'_>)
        ensures view { document_view self.new ≡ document_at self.old (site_of renderer.entry) }
        ensures flags { document_flags self.new ≡ document_flags self.old }
    {
        let Parts {
            newlines,
            trail,
            ..
        } = renderer.into_parts();
        self.newlines = newlines;
        self.trail = trail;
    }

    /// Takes what a unit leaves, and hands out its text. There is room for the definitions that it
    /// needs.
    fn pass(&mut self, renderer: Renderer<'_>) -> String
        requires { HasRoom self.old (page_of renderer) }
        ensures text { string_bytes result ≡ (sheet_of renderer.entry).text }
        ensures view { document_view self.new
            ≡ passed (document_view self.old) (page_of renderer.entry) }
        ensures flags { document_flags self.new ≡ document_flags self.old }
    {
        let Parts {
            text,
            newlines,
            trail,
            mut references,
        } = renderer.into_parts();
        let _room = self.references.append(&mut references);
        self.newlines = newlines;
        self.trail = trail;
        self.flushed = true;
        text
    }

    /// Writes the unit of a trial as it is chosen, notes its labels and its text, and makes room for the
    /// definitions that it needs. The renderer is lent, because it is large to move. An `Err` is as in
    /// `block`; the renderer and the document are then as they were.
    fn write_chosen<'t, R: Reader>(
        &mut self,
        trial: &Trial<'t, '_, R>,
        renderer: &mut Renderer<'t>,
    ) -> Result<(), Error>
        requires ready { IsReady R.reading trial.now }
        requires front { IsFront (site_of renderer.old) }
        ensures chosen { let q = asked_of R.reading trial.now in
            let d = document_at self.old (site_of renderer.old) in
            WritesChoice q d renderer.old renderer.new result }
        ensures noted { let s = (asked_of R.reading trial.now).setting in
            OnOk result (document_view self.new
            ≡ noted s (document_view self.old) (page_of renderer.new)) }
        ensures room { OnOk result (HasRoom self.new (page_of renderer.new)) }
        ensures stays { OnErr result (document_view self.new ≡ document_view self.old) }
        ensures flags { document_flags self.new ≡ document_flags self.old }
    {
        let earlier = self.earlier();
        let search = Search { trial, earlier };
        let known = search.choose(renderer)?;
        match self.note(trial, renderer, known) {
            Ok(()) => Ok(()),
            Err(_error) => {
                renderer.back();
                Err(Error::OutOfMemory)
            }
        }
    }

    /// Writes the unit of a trial, by one renderer for all candidates. An `Err` is as in `block`; the
    /// document is then as it was.
    #[inline]
    fn spell<R: Reader>(&mut self, trial: &Trial<'_, '_, R>) -> Result<String, Error>
        requires ready { IsReady R.reading trial.now }
        ensures chosen { let q = asked_of R.reading trial.now in
            Spells (document_view self.new) result
            (choice q.setting (document_view self.old) q.unit q.next) }
        ensures stays { OnErr result (document_view self.new ≡ document_view self.old) }
        ensures flags { document_flags self.new ≡ document_flags self.old }
    {
        self.make_room(trial.found.census.likely_len)?;
        let mut renderer = self.begin(trial.tools.alloc);
        match self.write_chosen(trial, &mut renderer) {
            Ok(()) => Ok(self.pass(renderer)),
            Err(error) => {
                self.take_back(renderer);
                Err(error)
            }
        }
    }

    /// The label that is reserved for the lists of the last unit, if it waits. It fails if memory runs out,
    /// here or in the reader.
    fn label_at_end<R: Reader>(
        &self,
        tools: &Tools<'_, R>,
        unit: &Pending,
    ) -> Result<Option<String>, AllocError>
        ensures { (s : Setting) → s.reading ≡ R.reading tools.now.reader.now
            → s.flags ≡ document_flags self.now
            → IfOk result (λ label. option_map string_bytes label ≡
            label_for s (document_view self.now) unit.now.events None) }
    {
        if unit.needs_placeholder() {
            let alloc = tools.alloc;
            let literal = literal_labels(alloc, tools.reader, self.flags, &self.bracketed)?;
            let label = reserve_list_label(alloc, &self.known, &literal, unit.events())?;
            Ok(Some(label))
        } else {
            Ok(None)
        }
    }

    /// The label that is reserved for the lists of a unit: the last unit, which no event follows, has one
    /// if it waits. It fails if memory runs out, here or in the reader.
    fn label_for<R: Reader>(
        &self,
        tools: &Tools<'_, R>,
        unit: &Pending,
        next: Option<&Event<'_>>,
    ) -> Result<Option<String>, AllocError>
        ensures { (s : Setting) → s.reading ≡ R.reading tools.now.reader.now
            → s.flags ≡ document_flags self.now
            → IfOk result (λ label. option_map string_bytes label ≡
            label_for s (document_view self.now) unit.now.events (next_view next.entry)) }
    {
        match next {
            Some(_) => Ok(None),
            None => self.label_at_end(tools, unit),
        }
    }

    /// Notes the labels of definitions that the document has already, unless a unit was written. If memory
    /// runs out, some are noted.
    fn know(&mut self, alloc: Global, defined: &[Reference]) -> Result<(), AllocError>
        ensures known { OnOk result (document_view self.new
            ≡ behind (map reference_view defined.now) (document_view self.old)) }
        ensures stays { defined.now ≡ []
            → OnErr result (document_view self.new ≡ document_view self.old) }
        ensures flags { document_flags self.new ≡ document_flags self.old }
    {
        if self.flushed {
            return Ok(());
        }
        if defined.is_empty() {
            return Ok(());
        }
        add_labels(&mut self.known, alloc, defined)
    }

    /// Writes a unit and gives its text, in a document that has some definitions of links already: their
    /// labels are known to its first unit, and so to all.
    ///
    /// `next` is the event after the unit, if there is one. Where the options have markers that Markdown
    /// reads, spellings are tried in order, and the first is taken in which the reader finds the unit:
    /// from the source, where some text is known there, and for a unit that is checked the preferred one,
    /// with delimiters also those by other plans and markers. A unit with delimiters is checked, and where
    /// the options ask for it each that has an event. Where none is found, a unit that isn't checked is
    /// written in the preferred spelling, as is one whose options aren't accepted, and any with other
    /// markers. The last unit, which no event follows, has a label that is reserved for its lists, if one
    /// needs a placeholder.
    ///
    /// The error is `UnexpectedEvent` if a container of the unit is open, or if an event is where it may
    /// not, such as a heading in a heading. It is `Unrepresentable` if the options are accepted and no spelling of
    /// a checked unit reads back, and `OutOfMemory` if memory ran out or the reader answered it. After an error the
    /// document is unchanged, except that it may know labels of the definitions that it was given.
    pub fn block<'u, R: Reader>(
        &mut self,
        tools: &'u Tools<'_, R>,
        unit: &'u Pending,
        next: Option<&Event<'_>>,
    ) -> Result<String, Error>
        ensures chosen { let s = setting_with R.reading tools.now (document_flags self.old) None in
            let d = behind (map reference_view tools.now.defined.now) (document_view self.old) in
            Spells (document_view self.new) result
            (chosen s d unit.now.events (next_view next.entry)) }
        ensures stays { tools.now.defined.now ≡ []
            → OnErr result (document_view self.new ≡ document_view self.old) }
        ensures flags { document_flags self.new ≡ document_flags self.old }
    {
        self.know(tools.alloc, tools.defined)?;
        if !unit.is_whole() {
            return Err(Error::UnexpectedEvent);
        }
        let kept_label = self.label_for(tools, unit, next)?;
        let label = lent_label(&kept_label);
        let kept_next = kept_event(tools.alloc, next)?;
        let next = lent_event(&kept_next);
        let found = findings_of(tools.alloc, tools.reader, &tools.options, self.flags, unit)?;
        let trial = Trial {
            tools,
            flags: self.flags,
            unit,
            found: &found,
            next,
            label,
        };
        self.spell(&trial)
    }

    /// The definitions that are left: of each unit so far those that it needs, each once, one a line,
    /// after a blank line; those that the document has already aren't among them. An empty text where none
    /// is left.
    pub fn finish(&self, alloc: Global, defined: &[Reference]) -> Result<String, Error>
        ensures { let d = document_view self.now in
            Gives result
            (definitions_text (undefined (map reference_view defined.now) d.references) d.feeds) }
    {
        let text = undefined_text(alloc, &self.references, defined, self.newlines)?;
        Ok(text)
    }
}
