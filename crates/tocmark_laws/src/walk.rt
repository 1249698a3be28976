//! Laws of the walk, and of what is handed for paragraphs and headings that hold texts alone.

ghost use Rattle.std.specs.Prelude.{◌≡◌, ◌≢◌, ◌++◌, All, IsTrue, IsUtf8, List, [], ℕ, Result, Ok, Err, chars, codes, false, ◌∷◌};
ghost use Rattle.std.specs.Char.{char_set_contains};
ghost use Rattle.std.specs.List.{AllByRecursion, list_all};
ghost use Rattle.tocmark_reader.specs.PlainTexts.{lines_paragraph};
ghost use Rattle.tocmark_event.specs.Forest.{IsBalanced, IsReading};
ghost use Rattle.tocmark_event.specs.Options.{OptionsView};
ghost use Rattle.tocmark_event.specs.View.{Code};
ghost use Rattle.tocmark_event.specs.Reading.{ReadingView};
ghost use Rattle.tocmark_event.specs.declared.event.flags.ParserOptions.{ParserOptions};
ghost use Rattle.tocmark_event.specs.declared.options.Error.{Error};
ghost use Rattle.tocmark_state.specs.declared.work.Progress.{Progress};
ghost use Rattle.tocmark_laws.specs.Calls.{AreCalls, all_pairs};
ghost use Rattle.tocmark_laws.specs.Causes.{IsRefusedAtPair, IsRefusedIn};
ghost use Rattle.tocmark_laws.specs.LiteralLabels.{LiteralLabelsCount};
ghost use Rattle.tocmark_laws.specs.Paragraphs.{AppendsTo, Keeps, ReadsAs, ReadsAsSpan, paragraph_of, paragraph_with};
ghost use Rattle.tocmark_laws.specs.PlainLines.{is_line, paragraph_of_lines, IsReadBack, IsPlaced, IsPlainOf, PlacedLine, escaped_text, texts};
ghost use Rattle.tocmark_state.specs.Ranges.{Pair};
ghost use Rattle.tocmark_laws.specs.TextBlocks.{BlocksAreEscapes};
ghost use Rattle.tocmark_laws.specs.Trees.{Trees, ranged, then_ranged, walk_trees};
ghost use Rattle.tocmark_state.specs.WorkView.{rendering};
ghost use Rattle.tocmark_state.specs.Walk.{Kept, Rendering, Standing, beginning, done, go_on, nothing_yet, script, walk};
ghost use Rattle.tocmark_state.specs.Writes.{Makes};

use tocmark_state::taker::Taker;
use tocmark_write_texts::laws::{code_spans_read_back, escapes_read_back};

/// What later events add depends only on the standing after the earlier ones.
pub fn cuts_are_free()
    ensures { (how : Rendering) (source : List ℕ) (s t : Standing) (p q : List Pair)
        → (walk how source s p).outcome ≡ Ok t
        → walk how source s (p ++ q) ≡ go_on (walk how source s p).texts (Ok t) (λ u.
        walk how source u q) }
{}

/// Up to the first bad range, the events are whole trees, then an unfinished tree, then a wrong End. Each whole
/// tree is a unit, and is written when the next event comes. From the first unit that waits on, all events are one
/// unit. The texts are the choices for the units, in order.
pub fn units_are_trees()
    ensures { (how : Rendering) (source : List ℕ) (kept : Kept) (p : List Pair)
        → (trees : Trees (ranged source 0 p).events)
        × (walk how source (beginning kept) p
        ≡ then_ranged (ranged source 0 p)
        (walk_trees how kept trees.whole trees.part trees.refused)) }
{}

/// Of the texts of earlier units only their literal labels count: if the texts of two standings have the same literal
/// labels, and the standings are otherwise alike, all further events hand the same texts from both, and end alike. So it
/// is for each reader, and where a document has definitions already.
pub fn only_literal_labels_count()
    ensures { LiteralLabelsCount }
{}

/// What is pending begins a forest, in which the containers are open that the state holds as open; so a
/// unit that is written is the events of a forest.
pub fn pending_events_are_nested()
    ensures { (how : Rendering) (source : List ℕ) (kept : Kept) (s : Standing) (p : List Pair)
        → (walk how source (beginning kept) p).outcome ≡ Ok s
        → IsReading s.pending s.open_tags × (s.open_tags ≡ [] → IsBalanced s.pending) }
{}

/// A list of events that is refused has a first pair at which it is, or it is refused at its end, and there is a
/// cause. At a pair: its range is none of the source (`InvalidSourceRange`); the unit before it, which is due, is
/// refused by its choice; or it is an End that isn't the innermost open container's (`UnexpectedEvent`). At the end: a
/// container is open (`UnexpectedEvent`), or the last unit is refused by its choice.
pub fn refusals_have_causes()
    ensures walk { (how : Rendering) (source : List ℕ) (s : Standing) (p : List Pair) (e : Error) →
        (walk how source s p).outcome ≡ Err e → IsRefusedAtPair how source s p e }
    ensures script { (how : Rendering) (source : List ℕ) (s : Standing) (p : List Pair) (e : Error)
        → (script how source s p).outcome ≡ Err e → IsRefusedIn how source s p e }
{}

/// Calls on one state over one source, each with events of its own, up to the first that is refused, and then
/// `finish`, hand the writer and answer what the script of all their events has: how the events are cut into calls
/// makes no difference.
pub fn calls_compose<W: Taker>()
    ensures { (how : Rendering) (flags : ParserOptions) (source : List ℕ)
        (calls : List (List Pair)) (w v : W) (counts : List Progress) (r : Result Progress Error)
        → AreCalls W.takes W.refuses how flags source [] calls w v counts r
        → Makes W.takes W.refuses w v r done
        (script how source (nothing_yet flags) (all_pairs calls)) }
{}

/// For one paragraph with one text, without NUL, texts are handed that join to an escape of the text, and
/// an escape is read as the text: under all flags, over each reader, with `*` or `_` for emphasis, where the
/// options don't ask that plain blocks be checked.
pub fn a_paragraph_is_read_back()
    ensures { (options : OptionsView) (reading : List ℕ → ParserOptions → ReadingView)
        (flags : ParserOptions) (source text : List ℕ) → options.check_plain_blocks ≡ false
        → IsTrue (char_set_contains (codes "*_") options.emphasis_token) → IsUtf8 text
        → All (λ c. c ≢ 0) (chars text)
        → ReadsAs text
        (script (rendering options reading) source (nothing_yet flags) (paragraph_of text)) }
{
    escapes_read_back();
}

/// A call that succeeds on the events of such a paragraph, over a writer that keeps what it takes, as a `String` does,
/// leaves after what the writer held an escape that is read as the text.
pub fn what_is_appended_is_read_back<W: Taker>()
    ensures { (contents : W → List ℕ) (options : OptionsView)
        (reading : List ℕ → ParserOptions → ReadingView) (flags : ParserOptions)
        (source text : List ℕ) (w v : W) (p : Progress) → Keeps W.takes contents
        → options.check_plain_blocks ≡ false
        → IsTrue (char_set_contains (codes "*_") options.emphasis_token) → IsUtf8 text
        → All (λ c. c ≢ 0) (chars text)
        → Makes W.takes W.refuses w v (Ok p) done
        (script (rendering options reading) source (nothing_yet flags) (paragraph_of text))
        → AppendsTo (contents w) (contents v) text }
{
    a_paragraph_is_read_back();
}

/// For one paragraph with one code span, texts are handed that join to the span of its text, which is read
/// as the text if that isn't empty: under all flags, over each reader, and under all options that don't ask
/// that plain blocks be checked.
pub fn a_code_span_is_read_back()
    ensures { (options : OptionsView) (reading : List ℕ → ParserOptions → ReadingView)
        (flags : ParserOptions) (source text : List ℕ) → options.check_plain_blocks ≡ false
        → ReadsAsSpan text
        (script (rendering options reading) source (nothing_yet flags)
        (paragraph_with (Code text))) }
{
    code_spans_read_back();
}

/// For a paragraph of lines, a text for each with a soft break between two, exactly one text is handed, and
/// the core reader's reading of it is, merged, exactly that paragraph, with no labels: under all flags,
/// whatever reader is given, with `*` or `_` for emphasis, where the options don't ask that plain blocks be
/// checked. A line has at least one character, each from U+0020 to U+007E, and doesn't end with a space.
pub fn lines_are_read_back()
    ensures { (options : OptionsView) (reading : List ℕ → ParserOptions → ReadingView)
        (flags : ParserOptions) (source l : List ℕ) (ms : List (List ℕ))
        → options.check_plain_blocks ≡ false
        → IsTrue (char_set_contains (codes "*_") options.emphasis_token)
        → IsTrue (list_all is_line (l ∷ ms))
        → IsReadBack
        (script (rendering options reading) source (nothing_yet flags) (paragraph_of_lines l ms))
        (lines_paragraph l ms) }
{}

/// The escapes of such lines in a paragraph, joined by line feeds, are a plain text that means these lines,
/// so that `CoreReader::read` answers, merged, that paragraph, and no labels.
pub fn escapes_of_lines_are_plain()
    ensures { (l : PlacedLine) (ms : List PlacedLine) → AllByRecursion IsPlaced (l ∷ ms) →
        IsPlainOf (escaped_text l ms) l.1 (texts ms) }
{}

/// For paragraphs and headings without id, classes and attributes, each with one or more texts in which some
/// character is, the writer receives exactly one text for each: the line feeds that set it apart from the one before,
/// as many `#` as its level and a space if it is a heading, and the escape of its texts as one. This holds for
/// all flags, for every reader, and for all options that don't ask that plain blocks be checked.
pub fn blocks_are_escapes()
    ensures { BlocksAreEscapes }
{}
