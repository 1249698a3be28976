//! A reader of CommonMark 0.31.2 with the extensions that flags name: `ExtendedReader`.
//!
//! `EXTENSIONS` are the flags that it reads, and `NAMED_EXTENSIONS` names them; all others change nothing. Under all flags
//! alike it knows the names of character references that it is told to: all of HTML's (`Names`).

ghost use Rattle.std.specs.Prelude.{◌≡◌, IfOk};
ghost use Rattle.tocmark_reader.specs.Left.{IsBetweenTrees, reading_left};
ghost use Rattle.tocmark_reader.specs.Reading.{reading_of};
ghost use Rattle.tocmark_reader.specs.Flags.{syntax_of};
ghost use Rattle.tocmark_read_scan.specs.declared.syntax.Names.TheVariants.{All};

use crate::block_reading::BlockReading;
use crate::definitions::{ReferenceDefinition, find_definitions};
use crate::reader::{find, find_blocks, find_blocks_and_definitions};
use std::alloc::{AllocError, Global};
use tocmark_event::event::ParserOptions;
use tocmark_event::reader::{Reader, Reading};
use tocmark_read_scan::syntax::{Names, Syntax};

/// The flags of the extensions that `ExtendedReader` reads: strikethrough, subscripts, superscripts,
/// mathematics, task lists, both kinds of metadata, footnotes, tables, kinds of block quotes, attributes of
/// headings, and definition lists.
pub const EXTENSIONS: ParserOptions = ParserOptions(
    ParserOptions::ENABLE_STRIKETHROUGH.0
        | ParserOptions::ENABLE_SUBSCRIPT.0
        | ParserOptions::ENABLE_SUPERSCRIPT.0
        | ParserOptions::ENABLE_MATH.0
        | ParserOptions::ENABLE_TASKLISTS.0
        | ParserOptions::ENABLE_TABLES.0
        | ParserOptions::ENABLE_YAML_STYLE_METADATA_BLOCKS.0
        | ParserOptions::ENABLE_PLUSES_DELIMITED_METADATA_BLOCKS.0
        | ParserOptions::ENABLE_FOOTNOTES.0
        | ParserOptions::ENABLE_GFM.0
        | ParserOptions::ENABLE_HEADING_ATTRIBUTES.0
        | ParserOptions::ENABLE_DEFINITION_LIST.0,
);

/// The flags of the Markdown that people keep in files for GitHub and the like: tables, footnotes, strikethrough, task lists,
/// kinds of block quotes, and both kinds of front matter. Programs and bindings read by these if nothing else is asked.
pub const GFM: ParserOptions = ParserOptions(
    ParserOptions::ENABLE_TABLES.0
        | ParserOptions::ENABLE_FOOTNOTES.0
        | ParserOptions::ENABLE_STRIKETHROUGH.0
        | ParserOptions::ENABLE_TASKLISTS.0
        | ParserOptions::ENABLE_GFM.0
        | ParserOptions::ENABLE_YAML_STYLE_METADATA_BLOCKS.0
        | ParserOptions::ENABLE_PLUSES_DELIMITED_METADATA_BLOCKS.0,
);

/// The flag of each of these extensions, after the name by which command lines and configuration files know it.
pub const NAMED_EXTENSIONS: [(&str, ParserOptions); 12] = [
    ("tables", ParserOptions::ENABLE_TABLES),
    ("footnotes", ParserOptions::ENABLE_FOOTNOTES),
    ("strikethrough", ParserOptions::ENABLE_STRIKETHROUGH),
    ("subscript", ParserOptions::ENABLE_SUBSCRIPT),
    ("superscript", ParserOptions::ENABLE_SUPERSCRIPT),
    ("math", ParserOptions::ENABLE_MATH),
    ("tasklists", ParserOptions::ENABLE_TASKLISTS),
    (
        "yaml-metadata",
        ParserOptions::ENABLE_YAML_STYLE_METADATA_BLOCKS,
    ),
    (
        "pluses-metadata",
        ParserOptions::ENABLE_PLUSES_DELIMITED_METADATA_BLOCKS,
    ),
    ("quote-kinds", ParserOptions::ENABLE_GFM),
    (
        "heading-attributes",
        ParserOptions::ENABLE_HEADING_ATTRIBUTES,
    ),
    ("definition-lists", ParserOptions::ENABLE_DEFINITION_LIST),
];

/// The extensions that flags name, with the names of character references that are known.
#[tactic(auto, unfolding(crate::specs::Flags::syntax_of))]
pub(crate) fn syntax_of(names: Names, flags: ParserOptions) -> Syntax
    ensures { result ≡ syntax_of names flags }
{
    Syntax {
        tables: flags.contains(ParserOptions::ENABLE_TABLES),
        footnotes: flags.contains(ParserOptions::ENABLE_FOOTNOTES),
        strikethrough: flags.contains(ParserOptions::ENABLE_STRIKETHROUGH),
        subscript: flags.contains(ParserOptions::ENABLE_SUBSCRIPT),
        superscript: flags.contains(ParserOptions::ENABLE_SUPERSCRIPT),
        math: flags.contains(ParserOptions::ENABLE_MATH),
        task_lists: flags.contains(ParserOptions::ENABLE_TASKLISTS),
        yaml_metadata: flags.contains(ParserOptions::ENABLE_YAML_STYLE_METADATA_BLOCKS),
        pluses_metadata: flags.contains(ParserOptions::ENABLE_PLUSES_DELIMITED_METADATA_BLOCKS),
        quote_kinds: flags.contains(ParserOptions::ENABLE_GFM),
        heading_attributes: flags.contains(ParserOptions::ENABLE_HEADING_ATTRIBUTES),
        definition_lists: flags.contains(ParserOptions::ENABLE_DEFINITION_LIST),
        undefined_notes: false,
        names,
    }
}

/// Reads CommonMark 0.31.2 with the extensions that the flags name.
///
/// Strikethrough is between one or two tildes and as many: they open before what is no white space,
/// a single one only after white space or punctuation, and close after what is none.
///
/// A subscript is between single tildes, which are no strikethrough where subscripts are read, too;
/// two tildes without strikethrough are a text. A superscript is between carets, which open and close
/// as underscores do: `^a^` and `^^a^^` are one each, `x^2^` is none. A closing tilde or caret for which
/// no opening one is ends all that were opened before it.
///
/// Mathematics is between dollar signs, two where it is set on lines of its own: `$a$`, `$$a$$`. A
/// dollar sign belongs to the next one with balanced braces between them; a byte after an escaping
/// backslash counts as neither. Between single ones no white space is at either end; after the second
/// of two the one that it belongs to is followed by another. Nothing is resolved in between, and what
/// opens first wins, mathematics or code. All other dollar signs are a text.
///
/// A box is just after the marker of an item: a space, `x` or `X` between brackets, and a space or
/// the line ending after them. The rest of its line begins a paragraph, whatever it looks like, which
/// has no definitions of links; where nothing is left of the line the item has the box.
///
/// Metadata are lines between `---` and `---` or `...`, or between `+++` and `+++`, outside of all
/// containers and not in a paragraph. They begin where the next line is neither blank nor their end,
/// and their end is below. Each line is a text with its line ending.
///
/// A table begins with a header above a delimiter row, both directly in their containers: bars, colons,
/// dashes and spaces, with a dash in each column that a bar ends. The header is the paragraph's only line
/// after its definitions, or one that begins with a bar, and has as many cells. Each further line is a row,
/// until a blank line, a bar alone, or one that begins a quote, heading, fence, rule, item, HTML or the
/// definition of a footnote. A bar
/// divides cells if no backslash is just before it; that backslash is no part of the cell. A row has as
/// many cells as the header: further ones are dropped, missing ones are empty at its end. A table
/// ends before a row with which all rows of the text would lack more than 262,144 cells.
///
/// The kind of a block quote is just after the mark that begins it, and at most one space or tab:
/// `[!NOTE]`, `[!TIP]`, `[!IMPORTANT]`, `[!WARNING]` or `[!CAUTION]` in any case, with nothing but spaces
/// and tabs after it. That line has no events, and the lines after it go on as those of a paragraph do
/// that has no text yet: what can't interrupt a paragraph is its text, but for a tag alone on its line.
///
/// The attributes of a heading are between braces at the end of its one line, or of its last line above an
/// underline, before a closing sequence of `#` is looked for: words between spaces, tabs and form feeds,
/// without braces, angle brackets and backslashes. Of `#id` the last counts, `.class` is a class, and any
/// other word an attribute, whose value is after its first `=`; a word of one byte says nothing.
///
/// A definition begins with a line whose first mark is a colon, after at most three spaces, if a paragraph
/// with text is just before it in the same container: the open one, or the last block, also after blank
/// lines and after definitions of links. That paragraph is a title, and begins a list if it isn't in one. A
/// colon after a definition of the same list begins a further one, also where its line would go on lazily.
/// Lines of a definition are indented as its text is, past the colon and at most four spaces. After a
/// definition a paragraph is the next title if a colon follows, and is after the list if none follows. A list
/// is loose if a blank line is right before a definition, or between two blocks of one.
///
/// The label of a footnote is a caret and a name between brackets, on one line. A colon just after it, at
/// the front of a container's line, begins a definition: a container whose further lines are indented by
/// four columns or blank. It interrupts a paragraph, and a definition that would be directly in another
/// one ends that. Elsewhere a label whose name is defined anywhere in the text is a reference, unless a
/// destination in parentheses or a link label that is none of a footnote is after it; names match as
/// link labels do, and nothing that was open before a reference can become a link that has it in it.
///
/// Under all flags alike a reference such as `&auml;` is the characters that HTML gives its name: 2,125
/// names that end with a semicolon; 93 of them stand for two characters. Case matters, and what is no
/// name of these stays as it is. It counts in texts, destinations, titles and info strings, and not in
/// code, raw HTML and labels; what it stands for is never markup.
#[derive(Clone, Copy, Debug)]
pub struct ExtendedReader {
    /// The names of character references that are known.
    pub names: Names,
}

impl ExtendedReader {
    ghost use Rattle.std.specs.Prelude.{◌≡◌, IfOk, map};
    ghost use Rattle.std.specs.List.{All as EachOf};
    ghost use Rattle.tocmark_reader.specs.Definitions.{definitions_of, said_view, IsWellPlaced};

    /// The reader that knows all names of character references.
    pub fn new() -> Self
        ensures { result.names ≡ All }
    {
        ExtendedReader { names: Names::All }
    }

    /// Reads a text block by block, as `read` does: its blocks are found, and their events are handed out
    /// by `next`.
    pub fn blocks<'t>(
        &self,
        alloc: Global,
        text: &'t str,
        flags: ParserOptions,
    ) -> Result<BlockReading<'t>, AllocError>
        ensures left { IfOk result (λ blocks.
            reading_left blocks ≡ reading_of (syntax_of self.now.names flags) text.now) }
        ensures between { IfOk result (λ blocks. IsBetweenTrees blocks) }
    {
        find_blocks(alloc, syntax_of(self.names, flags), text)
    }

    /// Reads a text block by block as `blocks` does, and finds its link definitions as `definitions` does. The
    /// text is read once for both.
    pub fn blocks_and_definitions<'t>(
        &self,
        alloc: Global,
        text: &'t str,
        flags: ParserOptions,
    ) -> Result<(BlockReading<'t>, Vec<ReferenceDefinition>), AllocError>
        ensures left { IfOk result (λ both.
            reading_left both.0 ≡ reading_of (syntax_of self.now.names flags) text.now) }
        ensures between { IfOk result (λ both. IsBetweenTrees both.0) }
        ensures definitions { IfOk result (λ both. map said_view both.1.items
            ≡ definitions_of (syntax_of self.now.names flags) text.now) }
        ensures ranges { IfOk result (λ both. EachOf (IsWellPlaced text.now) both.1.items) }
    {
        find_blocks_and_definitions(alloc, syntax_of(self.names, flags), text)
    }

    /// The link reference definitions that this reader finds in a text under some flags, as
    /// `find_definitions` gives them: in their order, each with what it says and where it is, in bytes
    /// of the text. Of several with one label the first counts.
    ///
    /// ```
    /// let all = ExtendedReader::new().definitions(alloc, "[a]: /b 'c'", flags)?;
    /// assert_eq!(rt; all[0].place.destination, (5, 7));
    /// ```
    pub fn definitions(
        &self,
        alloc: Global,
        text: &str,
        flags: ParserOptions,
    ) -> Result<Vec<ReferenceDefinition>, AllocError>
        ensures exact { IfOk result (λ all. map said_view all.items
            ≡ definitions_of (syntax_of self.now.names flags) text.now) }
        ensures ranges { IfOk result (λ all. EachOf (IsWellPlaced text.now) all.items) }
    {
        find_definitions(alloc, syntax_of(self.names, flags), text)
    }
}

impl Reader for ExtendedReader {
    ghost use Rattle.std.specs.Prelude.{◌≡◌, IfOk, List, map};
    ghost use Rattle.tocmark_event.specs.Forest.{IsBalanced};
    ghost use Rattle.tocmark_event.specs.Reading.{reading_view};
    ghost use Rattle.tocmark_event.specs.Text.{text_of};
    ghost use Rattle.tocmark_event.specs.View.{event_view};
    ghost use Rattle.tocmark_read_scan.specs.declared.syntax.TheConstants.{CORE};
    ghost use Rattle.tocmark_reader.specs.Range.{HasGoodRanges};
    ghost use Rattle.tocmark_reader.specs.Reading.{core_reading, reading_of};
    ghost use Rattle.tocmark_reader.specs.Flags.{syntax_of};

    ghost reading = { λ reader text flags. reading_of (syntax_of reader.names flags) text };

    /// The reading of a text, with ranges in bytes.
    #[tactic(auto, using(crate::proofs::EmitLaws::reading_balanced, crate::proofs::EmitLaws::reading_good, crate::proofs::Core::read_as_core))]
    fn read(&self, alloc: Global, text: &str, flags: ParserOptions) -> Result<Reading, AllocError>
        ensures reading { IfOk result (λ found.
            reading_view found ≡ reading_of (syntax_of self.now.names flags) text.now) }
        ensures balanced { IfOk result (λ found.
            IsBalanced (map (λ e. event_view text_of e.0) found.events.items)) }
        ensures ranges { IfOk result (λ found. HasGoodRanges text.now found.events.items) }
        ensures core { syntax_of self.now.names flags ≡ CORE
            → IfOk result (λ found. reading_view found ≡ core_reading text.now) }
    {
        let found = find(alloc, syntax_of(self.names, flags), text)?;
        Ok(found)
    }
}
