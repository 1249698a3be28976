//! Laws of what is written for single blocks, each the contract of a function that does nothing.

ghost use Rattle.std.specs.Prelude.{◌≡◌, ◌++◌, ℕ, Err, List, Ok, Option, false};
ghost use Rattle.std.specs.List.{concat};
ghost use Rattle.tocmark_laws.specs.Paragraphs.{Keeps};
ghost use Rattle.tocmark_state.specs.WorkView.{rendering, rendering_behind};
ghost use Rattle.tocmark_state.specs.Walk.{Standing, done, nothing_yet, script};
ghost use Rattle.tocmark_state.specs.Ranges.{Pair};
ghost use Rattle.tocmark_state.specs.Writes.{Makes};
ghost use Rattle.tocmark_state.specs.declared.work.Progress.{Progress};
ghost use Rattle.tocmark_event.specs.Forest.{IsBalanced, IsReading};
ghost use Rattle.tocmark_event.specs.Options.{OptionsView};
ghost use Rattle.tocmark_event.specs.Reading.{ReadingView};
ghost use Rattle.tocmark_event.specs.declared.event.flags.ParserOptions.{ParserOptions};
ghost use Rattle.tocmark_event.specs.View.{EventView, SourcedEvent};
ghost use Rattle.tocmark_event.specs.declared.options.Error.TheVariants.{UnexpectedEvent, Unrepresentable};
ghost use Rattle.tocmark_laws.specs.CodeBlocks.{CodeIsFenced, IsFence, code_events, code_text};
ghost use Rattle.tocmark_laws.specs.Links.{LinksAreClosed, link_events, link_text};
ghost use Rattle.tocmark_laws.specs.Unexpected.{IsMisplacedUnit, IsUnexpectedIn};
ghost use Rattle.tocmark_laws.specs.UnrepresentableLists.{IsUnrepresentableIn};
ghost use Rattle.tocmark_spelling.specs.Page.{Reference};
ghost use Rattle.tocmark_write_labels.specs.Defined.{behind};
ghost use Rattle.tocmark_write_labels.specs.Document.{DocumentView};
ghost use Rattle.tocmark_choose.specs.Chosen.{chosen};
ghost use Rattle.tocmark_spelling.specs.Plan.{Setting};

use tocmark_state::taker::Taker;

/// A fenced code block alone is written as exactly one text: a line with its fence and its info string, its texts
/// as they are, and its fence again if these end a line. The fence is longer than each run of its character in the
/// texts, has at least three characters, and at least as many as the options ask for. It has their character, or
/// tildes if that is a backtick and the info string has one. This holds under all flags, with every reader, and under
/// all options that don't ask that
/// plain blocks be checked.
pub fn code_is_fenced()
    ensures { CodeIsFenced }
{}

/// A call that succeeds on the events of such a code block, over a writer that keeps what it takes, as a
/// `String` does, leaves the code block after what the writer held.
pub fn a_code_block_is_appended<W: Taker>()
    ensures { (contents : W → List ℕ) (options : OptionsView)
        (reading : List ℕ → ParserOptions → ReadingView) (flags : ParserOptions)
        (source info : List ℕ) (ts : List (List ℕ)) (w v : W) (p : Progress)
        → options.check_plain_blocks ≡ false → Keeps W.takes contents
        → Makes W.takes W.refuses w v (Ok p) done
        (script (rendering options reading) source (nothing_yet flags) (code_events info ts))
        → (fence : List ℕ) × IsFence options info (concat ts) fence
        × (contents v ≡ contents w ++ code_text fence info (concat ts)) }
{}

/// For one paragraph with one inline link round one text exactly one text is handed: `[`, the escape of
/// the text, and what closes a link with its destination and title. So it is under all flags, whatever reader
/// is given, and under all options that don't ask that plain blocks be checked.
pub fn links_are_closed()
    ensures { LinksAreClosed }
{}

/// A call that succeeds on the events of such a paragraph, over a writer that keeps what it takes, as a
/// `String` does, leaves the link after what the writer held.
pub fn a_link_is_appended<W: Taker>()
    ensures { (contents : W → List ℕ) (options : OptionsView)
        (reading : List ℕ → ParserOptions → ReadingView) (flags : ParserOptions)
        (source dest title id text : List ℕ) (w v : W) (p : Progress)
        → options.check_plain_blocks ≡ false → Keeps W.takes contents
        → Makes W.takes W.refuses w v (Ok p) done
        (script (rendering options reading) source (nothing_yet flags)
        (link_events dest title id text))
        → contents v ≡ contents w ++ link_text options flags dest title text }
{}

/// A unit, the events of a forest, is refused as `UnexpectedEvent` only for an event that isn't allowed where it
/// does (`causes`): an Item that isn't directly in a List, a Heading in a Heading, a TableHead that isn't directly
/// in a Table, or a TableCell in no Table. Events in a body that is replaced by an id don't count. A unit with such an
/// event is refused so (`exact`).
pub fn unexpected_units_are_misplaced()
    ensures causes { (s : Setting) (d : DocumentView) (unit : List SourcedEvent)
        → (next : Option EventView) → IsBalanced unit
        → chosen s d unit next ≡ Err UnexpectedEvent → IsMisplacedUnit s unit }
    ensures exact { (s : Setting) (d : DocumentView) (unit : List SourcedEvent)
        → (next : Option EventView) → IsMisplacedUnit s unit
        → chosen s d unit next ≡ Err UnexpectedEvent }
{}

/// A list of events that is refused as `UnexpectedEvent` has a cause, at the first pair at which it is or at its
/// end. At a pair: an event of the unit before it isn't allowed where it is, or it is an End without its Start or
/// of a container that isn't the innermost one. At the end: a container isn't ended, or an event of the last unit may
/// not be where it is. So it is from the start of a new state (`new`), and from every standing whose pending
/// events begin a forest in which its open containers are open, of a state that is told of definitions (`told`).
pub fn unexpected_events_have_causes()
    ensures new { (options : OptionsView) (reading : List ℕ → ParserOptions → ReadingView)
        (flags : ParserOptions) (source : List ℕ) (p : List Pair)
        → (script (rendering options reading) source (nothing_yet flags) p).outcome
        ≡ Err UnexpectedEvent
        → IsUnexpectedIn (rendering options reading) options reading source (nothing_yet flags) p }
    ensures told { (defined : List Reference) (options : OptionsView)
        (reading : List ℕ → ParserOptions → ReadingView) (source : List ℕ) (from : Standing)
        → IsReading from.pending from.open_tags → (p : List Pair)
        → (script (rendering_behind defined options reading) source from p).outcome
        ≡ Err UnexpectedEvent
        → IsUnexpectedIn (rendering_behind defined options reading) options reading source from p }
{}

/// A list of events that is refused as `Unrepresentable` has a unit that can't be represented: one that is due at
/// the first pair at which the list is refused, or the last one, where all pairs are taken and no container is open.
/// So it is from the start of a new state (`new`), and from each standing of that kind of a state that is told of
/// definitions, which the first unit is written after (`told`).
pub fn unrepresentable_lists_have_causes()
    ensures new { (options : OptionsView) (reading : List ℕ → ParserOptions → ReadingView)
        (flags : ParserOptions) (source : List ℕ) (p : List Pair)
        → (script (rendering options reading) source (nothing_yet flags) p).outcome
        ≡ Err Unrepresentable
        → IsUnrepresentableIn (rendering options reading) (λ d. d) options reading source
        (nothing_yet flags) p }
    ensures told { (defined : List Reference) (options : OptionsView)
        (reading : List ℕ → ParserOptions → ReadingView) (source : List ℕ) (from : Standing)
        → IsReading from.pending from.open_tags → (p : List Pair)
        → (script (rendering_behind defined options reading) source from p).outcome
        ≡ Err Unrepresentable
        → IsUnrepresentableIn (rendering_behind defined options reading) (behind defined) options
        reading source from p }
{}
