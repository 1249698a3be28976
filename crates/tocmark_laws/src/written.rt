//! Laws of what is written: that units with delimiters read back, and that a `StringWriter` holds it.

ghost use Rattle.std.specs.Prelude.{◌≡◌, ◌++◌, List, Ok, Option, true, ℕ};
ghost use Rattle.std.specs.List.{AllByRecursion, FoldsTo, concat};
ghost use Rattle.tocmark_event.specs.Forest.{flat};
ghost use Rattle.tocmark_event.specs.View.{EventView, SourcedEvent};
ghost use Rattle.tocmark_event.specs.declared.event.flags.ParserOptions.{ParserOptions};
ghost use Rattle.tocmark_event.specs.Options.{OptionsView};
ghost use Rattle.tocmark_event.specs.Reading.{ReadingView};
ghost use Rattle.tocmark_spelling.specs.Body.{Trees};
ghost use Rattle.tocmark_spelling.specs.Page.{Page};
ghost use Rattle.tocmark_spelling.specs.Plan.{Setting};
ghost use Rattle.tocmark_write_labels.specs.Document.{DocumentView};
ghost use Rattle.tocmark_write_labels.specs.Units.{labelled};
ghost use Rattle.tocmark_choose.specs.Candidates.{candidates, is_delimiter_block};
ghost use Rattle.tocmark_choose.specs.Choice.{document_after, has_standard_markers};
ghost use Rattle.tocmark_choose.specs.Chosen.{chosen};
ghost use Rattle.tocmark_choose.specs.FirstReadBack.{IsFirstReadBack};
ghost use Rattle.tocmark_choose.specs.Validates.{validates};
ghost use Rattle.tocmark_laws.specs.Paragraphs.{Keeps};
ghost use Rattle.tocmark_laws.specs.Written.{AreWritten, ReadsBackIfDelimited, Written, last_of, last_written, texts_at_end, texts_of};
ghost use Rattle.tocmark_state.specs.Ranges.{Pair};
ghost use Rattle.tocmark_state.specs.StringWriters.{held};
ghost use Rattle.tocmark_state.specs.Walk.{Kept, Standing, beginning, script, walk};
ghost use Rattle.tocmark_state.specs.WorkView.{rendering};
ghost use Rattle.tocmark_state.specs.declared.string_writer.StringWriter.{StringWriter};

use tocmark_state::string_writer::StringWriter;
use tocmark_state::taker::Taker;

/// Under options that are accepted with the flags, with markers that Markdown reads, a unit with delimiters
/// that is written has the text of a page that reads back as the unit: the first of its candidates that does.
pub fn chosen_units_read_back()
    ensures { (s : Setting) (d : DocumentView) (unit : List SourcedEvent)
        (next : Option EventView) (f : Trees) (x : List ℕ × DocumentView)
        → has_standard_markers s.options ≡ true → validates s.options s.flags ≡ true
        → flat f ≡ unit → is_delimiter_block f ≡ true → chosen s d unit next ≡ Ok x
        → (p : Page) × (x ≡ (p.sheet.text, document_after (labelled s d unit next) d p))
        × IsFirstReadBack (labelled s d unit next) d f next (candidates s.options f) p }
{}

/// Under such options the texts that a list of events hands are those of whole trees, in order. Each tree with
/// delimiters reads back in its document (`handed`). So does the last unit, which is written at the end, if it
/// has delimiters (`last`). The script of the list hands the texts of these units, and then what is handed at its
/// end: the last unit's text and the definitions that are left (`script`).
pub fn what_is_written_reads_back()
    ensures handed { (options : OptionsView) (reading : List ℕ → ParserOptions → ReadingView)
        (source : List ℕ) (kept : Kept) (p : List Pair)
        → has_standard_markers options ≡ true → validates options kept.flags ≡ true
        → (units : List Written)
        × AreWritten (rendering options reading) source kept p units
        × AllByRecursion (ReadsBackIfDelimited options reading) units }
    ensures last { (options : OptionsView) (reading : List ℕ → ParserOptions → ReadingView)
        (source : List ℕ) (kept : Kept) (p : List Pair) (at : Standing)
        → has_standard_markers options ≡ true → validates options kept.flags ≡ true
        → (walk (rendering options reading) source (beginning kept) p).outcome ≡ Ok at
        → AllByRecursion (ReadsBackIfDelimited options reading)
        (last_written (rendering options reading) at.open_tags at) }
    ensures script { (options : OptionsView) (reading : List ℕ → ParserOptions → ReadingView)
        (source : List ℕ) (kept : Kept) (p : List Pair)
        → has_standard_markers options ≡ true → validates options kept.flags ≡ true
        → (units : List Written)
        × AreWritten (rendering options reading) source kept p units
        × ((script (rendering options reading) source (beginning kept) p).texts
        ≡ texts_of units ++ texts_at_end (rendering options reading)
        (walk (rendering options reading) source (beginning kept) p).outcome
        (script (rendering options reading) source (beginning kept) p).outcome)
        × AllByRecursion (ReadsBackIfDelimited options reading)
        (units ++ last_of (rendering options reading)
        (walk (rendering options reading) source (beginning kept) p).outcome) }
{}

/// A `StringWriter` keeps each text that it takes after those before it (`keeps`): when it has taken texts it
/// holds what it held, and then these texts (`texts`).
pub fn string_writers_keep_their_texts()
    ensures keeps { Keeps ⟦<StringWriter as Taker>⟧.takes held }
    ensures texts { (w v : StringWriter) (texts : List (List ℕ))
        → FoldsTo ⟦<StringWriter as Taker>⟧.takes w texts v → held v ≡ held w ++ concat texts }
{}
