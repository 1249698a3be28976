//! Options, and the errors of what writes events.

ghost use Rattle.std.specs.Prelude.{◌≡◌, true, map, IfOk, IsOk};
ghost use Rattle.tocmark_event.specs.Options.{options_view, with_token};
ghost use Rattle.tocmark_event.specs.Text.{text_of};
ghost use Rattle.tocmark_event.specs.Special.{has_default_tokens, special_characters};
ghost use Rattle.tocmark_event.specs.Validation.{fault_in, fault_of, fault_unless, flags_fault, size_fault, lists_fault, emphasis_fault, tokens_fault, scripts_fault, named_size, sizes_fault, named_sizes, validation};
ghost use Rattle.tocmark_event.specs.ErrorText.{error_text};
ghost use Rattle.tocmark_event.specs.declared.options.Error.TheVariants.{FormatFailed, OutOfMemory};

use crate::event::{CowStr, ParserOptions};
use std::alloc::{AllocError, AllocFailed, Global};
use std::fmt;

/// How many characters a code fence has, if nothing inside asks for more.
pub const DEFAULT_CODE_BLOCK_TOKEN_COUNT: usize = 3;

/// The parser flags under which events can be written back: all known ones but smart punctuation, old
/// footnotes and wikilinks.
pub const SUPPORTED_PARSER_OPTIONS: ParserOptions = ParserOptions(
    ParserOptions::ENABLE_TABLES.0
        | ParserOptions::ENABLE_FOOTNOTES.0
        | ParserOptions::ENABLE_STRIKETHROUGH.0
        | ParserOptions::ENABLE_TASKLISTS.0
        | ParserOptions::ENABLE_HEADING_ATTRIBUTES.0
        | ParserOptions::ENABLE_YAML_STYLE_METADATA_BLOCKS.0
        | ParserOptions::ENABLE_PLUSES_DELIMITED_METADATA_BLOCKS.0
        | ParserOptions::ENABLE_MATH.0
        | ParserOptions::ENABLE_GFM.0
        | ParserOptions::ENABLE_DEFINITION_LIST.0
        | ParserOptions::ENABLE_SUPERSCRIPT.0
        | ParserOptions::ENABLE_SUBSCRIPT.0,
);

/// Superscripts and subscripts, written as symbols.
const SCRIPTS: ParserOptions = ParserOptions(
    ParserOptions::ENABLE_SUPERSCRIPT.0 | ParserOptions::ENABLE_SUBSCRIPT.0,
);

/// How events are written, with a strong token of type `T`. Newlines and the count are numbers of
/// characters.
///
/// Equality, order and hash are those of the fields, in the order in which they are here.
#[derive(Clone, Copy, Debug, PartialEq, Eq, PartialOrd, Ord, Hash)]
pub struct OptionsOf<T> {
    /// Line feeds after a heading.
    pub newlines_after_headline: usize,
    /// Line feeds after a paragraph.
    pub newlines_after_paragraph: usize,
    /// Line feeds after a code block.
    pub newlines_after_codeblock: usize,
    /// Line feeds after an HTML block.
    pub newlines_after_htmlblock: usize,
    /// Line feeds after a table.
    pub newlines_after_table: usize,
    /// Line feeds after a thematic break.
    pub newlines_after_rule: usize,
    /// Line feeds after a list.
    pub newlines_after_list: usize,
    /// Line feeds after a block quote.
    pub newlines_after_blockquote: usize,
    /// Line feeds after anything else.
    pub newlines_after_rest: usize,
    /// Line feeds after a metadata block.
    pub newlines_after_metadata: usize,
    /// The least number of characters of a code fence.
    pub code_block_token_count: usize,
    /// The character of a code fence: a backtick or `~`.
    pub code_block_token: char,
    /// The marker of a bullet list: `*`, `-` or `+`.
    pub list_token: char,
    /// What is after the number of an ordered list: `.` or `)`.
    pub ordered_list_token: char,
    /// Whether the numbers of an ordered list go up, or all are the first one.
    pub increment_ordered_list_bullets: bool,
    /// The marker of emphasis: `*` or `_`.
    pub emphasis_token: char,
    /// The marker of strong emphasis: `**` or `__`.
    pub strong_token: T,
    /// Whether superscripts and subscripts are written as HTML.
    pub use_html_for_super_sub_script: bool,
    /// Whether a unit without delimiters is read back, too, before it is written.
    pub check_plain_blocks: bool,
}

/// How events are written. `Options { list_token: '-', ..Options::default() }` changes one field.
pub type Options<'a> = OptionsOf<&'a str>;

impl<'a> Default for Options<'a> {
    ghost use Rattle.tocmark_event.specs.Options.{IsDefault};

    ghost is_default = { IsDefault };

    fn default() -> Self {
        Options {
            newlines_after_headline: 2,
            newlines_after_paragraph: 2,
            newlines_after_codeblock: 2,
            newlines_after_htmlblock: 1,
            newlines_after_table: 2,
            newlines_after_rule: 2,
            newlines_after_list: 2,
            newlines_after_blockquote: 2,
            newlines_after_rest: 1,
            newlines_after_metadata: 1,
            code_block_token_count: 4,
            code_block_token: '`',
            list_token: '*',
            ordered_list_token: '.',
            increment_ordered_list_bullets: false,
            emphasis_token: '*',
            strong_token: "**",
            use_html_for_super_sub_script: false,
            check_plain_blocks: false,
        }
    }
}

impl<T> OptionsOf<T> {
    /// Returns these options with another strong token.
    pub fn with_token<U>(&self, strong_token: U) -> OptionsOf<U>
        ensures { result ≡ with_token strong_token self.now }
    {
        OptionsOf {
            newlines_after_headline: self.newlines_after_headline,
            newlines_after_paragraph: self.newlines_after_paragraph,
            newlines_after_codeblock: self.newlines_after_codeblock,
            newlines_after_htmlblock: self.newlines_after_htmlblock,
            newlines_after_table: self.newlines_after_table,
            newlines_after_rule: self.newlines_after_rule,
            newlines_after_list: self.newlines_after_list,
            newlines_after_blockquote: self.newlines_after_blockquote,
            newlines_after_rest: self.newlines_after_rest,
            newlines_after_metadata: self.newlines_after_metadata,
            code_block_token_count: self.code_block_token_count,
            code_block_token: self.code_block_token,
            list_token: self.list_token,
            ordered_list_token: self.ordered_list_token,
            increment_ordered_list_bullets: self.increment_ordered_list_bullets,
            emphasis_token: self.emphasis_token,
            strong_token,
            use_html_for_super_sub_script: self.use_html_for_super_sub_script,
            check_plain_blocks: self.check_plain_blocks,
        }
    }
}

/// Why options are refused.
#[derive(Clone, Copy, Debug, PartialEq, Eq)]
pub enum OptionsError {
    /// These flags aren't among `SUPPORTED_PARSER_OPTIONS`.
    UnsupportedParserOptions(ParserOptions),
    /// The field of this name is no delimiter of standard Markdown.
    InvalidToken(&'static str),
    /// HTML scripts are wanted, and the parser reads symbolic ones.
    HtmlSuperSubscript,
    /// The field of this name is `isize::MAX` or more.
    SizeOverflow(&'static str),
}

impl fmt::Display for OptionsError {
    ghost use Rattle.tocmark_event.specs.Validation.{options_error_text};

    ghost output = { options_error_text };

    fn fmt<W: fmt::Write>(&self, f: &mut fmt::Formatter<W>) -> fmt::Result {
        match self {
            OptionsError::UnsupportedParserOptions(flags) => {
                let bits = flags.0;
                write!(
                    f,
                    "unsupported parser flags: 0x{bits:x}; use a subset of SUPPORTED_PARSER_OPTIONS"
                )
            }
            OptionsError::InvalidToken(field) => {
                write!(f, "{field} must use a standard Markdown delimiter")
            }
            OptionsError::HtmlSuperSubscript => {
                write!(
                    f,
                    "set use_html_for_super_sub_script to false when parsing symbolic superscripts or subscripts"
                )
            }
            OptionsError::SizeOverflow(field) => {
                write!(f, "{field} is too large for a Markdown output string")
            }
        }
    }
}

impl std::error::Error for OptionsError {}

fn checked(holds: bool, fault: OptionsError) -> Result<(), OptionsError>
    ensures { fault_in result ≡ fault_unless holds (fault_of fault) }
{
    if holds { Ok(()) } else { Err(fault) }
}

#[tactic(auto, unfolding(crate::specs::Validation::flags_fault))]
fn checked_flags(flags: ParserOptions) -> Result<(), OptionsError>
    ensures { fault_in result ≡ flags_fault flags }
{
    let unsupported = flags.0 & !SUPPORTED_PARSER_OPTIONS.0;
    checked(
        unsupported == 0,
        OptionsError::UnsupportedParserOptions(ParserOptions(unsupported)),
    )
}

#[tactic(auto, unfolding(crate::specs::Validation::size_fault))]
fn checked_size(size: usize, field: &'static str) -> Result<(), OptionsError>
    ensures { fault_in result ≡ size_fault size field.now }
{
    checked(size < MAX_SIZE, OptionsError::SizeOverflow(field))
}

fn first_too_large(sizes: &[(usize, &'static str)]) -> Result<(), OptionsError>
    ensures { fault_in result ≡ sizes_fault (map named_size sizes.now) }
{
    for (size, field) in sizes {
        checked_size(*size, *field)?;
    }
    Ok(())
}

/// The sizes from here on don't fit an output string, which has at most this many bytes.
const MAX_SIZE: usize = 0x7FFF_FFFF_FFFF_FFFF;

impl<'a> Options<'a> {
    #[tactic(auto, unfolding(crate::specs::Validation::lists_fault))]
    fn checked_lists(&self) -> Result<(), OptionsError>
        ensures { fault_in result ≡ lists_fault (options_view self.now) }
    {
        let list = self.list_token;
        checked(
            list == '*' || list == '-' || list == '+',
            OptionsError::InvalidToken("list_token"),
        )?;
        let ordered = self.ordered_list_token;
        checked(
            ordered == '.' || ordered == ')',
            OptionsError::InvalidToken("ordered_list_token"),
        )
    }

    #[tactic(auto, unfolding(crate::specs::Validation::emphasis_fault))]
    fn checked_emphasis(&self) -> Result<(), OptionsError>
        ensures { fault_in result ≡ emphasis_fault (options_view self.now) }
    {
        let emphasis = self.emphasis_token;
        checked(
            emphasis == '*' || emphasis == '_',
            OptionsError::InvalidToken("emphasis_token"),
        )?;
        let strong = self.strong_token;
        checked(
            strong == "**" || strong == "__",
            OptionsError::InvalidToken("strong_token"),
        )
    }

    #[tactic(auto, unfolding(crate::specs::Validation::tokens_fault))]
    fn checked_tokens(&self) -> Result<(), OptionsError>
        ensures { fault_in result ≡ tokens_fault (options_view self.now) }
    {
        let fence = self.code_block_token;
        checked(
            fence == '`' || fence == '~',
            OptionsError::InvalidToken("code_block_token"),
        )?;
        self.checked_lists()?;
        self.checked_emphasis()
    }

    #[tactic(auto, unfolding(crate::specs::Validation::scripts_fault))]
    fn checked_scripts(&self, flags: ParserOptions) -> Result<(), OptionsError>
        ensures { fault_in result ≡ scripts_fault (options_view self.now) flags }
    {
        let symbolic = flags.0 & SCRIPTS.0 != 0;
        checked(
            !(self.use_html_for_super_sub_script && symbolic),
            OptionsError::HtmlSuperSubscript,
        )
    }

    fn checked_sizes(&self) -> Result<(), OptionsError>
        ensures { fault_in result ≡ sizes_fault (named_sizes (options_view self.now)) }
    {
        first_too_large(&[
            (self.newlines_after_headline, "newlines_after_headline"),
            (self.newlines_after_paragraph, "newlines_after_paragraph"),
            (self.newlines_after_codeblock, "newlines_after_codeblock"),
            (self.newlines_after_htmlblock, "newlines_after_htmlblock"),
            (self.newlines_after_table, "newlines_after_table"),
            (self.newlines_after_rule, "newlines_after_rule"),
            (self.newlines_after_list, "newlines_after_list"),
            (self.newlines_after_blockquote, "newlines_after_blockquote"),
            (self.newlines_after_rest, "newlines_after_rest"),
            (self.newlines_after_metadata, "newlines_after_metadata"),
            (self.code_block_token_count, "code_block_token_count"),
        ])
    }

    fn has_default_tokens(&self) -> bool
        ensures { result ≡ has_default_tokens (options_view self.now) }
    {
        let lists = self.code_block_token == '`' && self.list_token == '*';
        let emphasis = self.emphasis_token == '*' && self.strong_token == "**";
        lists && emphasis
    }

    /// The characters that a caller who writes Markdown has to escape in a text under these options: those
    /// that are special under the default ones, and where the fence, list, emphasis or strong token isn't
    /// its default, these four in that order.
    ///
    /// It fails if memory runs out, which never happens under the default tokens.
    pub fn special_characters(&self, alloc: Global) -> Result<CowStr<'static>, AllocError>
        ensures text { IfOk result (λ text.
            text_of text ≡ special_characters (options_view self.now)) }
        ensures lent { has_default_tokens (options_view self.now) ≡ true → IsOk result }
    {
        if self.has_default_tokens() {
            return Ok(CowStr::Borrowed("#\\_*<>`|[]"));
        }
        let mut text = String::from_str(alloc, "#\\_*<>`|[]")?;
        text.push(self.code_block_token)?;
        text.push(self.list_token)?;
        text.push(self.emphasis_token)?;
        text.push_str(self.strong_token)?;
        Ok(CowStr::Owned(text))
    }

    /// Whether events of a parser with these flags can be written back under these options. The first
    /// failure in this order is the answer: flags outside `SUPPORTED_PARSER_OPTIONS`, which are named;
    /// a token that isn't standard Markdown (fence, list, ordered list, emphasis, strong); HTML scripts
    /// together with the superscript or the subscript flag; a size of `isize::MAX` or more, in the order
    /// of the fields. It takes no memory.
    #[tactic(auto, unfolding(crate::specs::Validation::validation))]
    pub fn validate(&self, parser_options: ParserOptions) -> Result<(), OptionsError>
        ensures { fault_in result ≡ validation (options_view self.now) parser_options }
    {
        checked_flags(parser_options)?;
        self.checked_tokens()?;
        self.checked_scripts(parser_options)?;
        self.checked_sizes()
    }
}

/// Why a call is refused.
#[derive(Debug, Drop)]
pub enum Error {
    /// The writer refused a text.
    FormatFailed(fmt::Error),
    /// An End that isn't the innermost open container's, a container that is open at the end, or
    /// events that aren't allowed where they are.
    UnexpectedEvent,
    /// None of the spellings that are tried for a block reads back.
    Unrepresentable,
    /// A range that is reversed, past the end of the source or not on character boundaries.
    InvalidSourceRange,
    /// Events after the end.
    Finished,
    /// A call after one that was refused.
    Failed,
    /// Memory ran out.
    OutOfMemory,
}

impl fmt::Display for Error {
    ghost output = { error_text };

    fn fmt<W: fmt::Write>(&self, f: &mut fmt::Formatter<W>) -> fmt::Result {
        match self {
            Error::FormatFailed(fault) => write!(f, "{fault}"),
            Error::UnexpectedEvent => {
                write!(f, "Unexpected event while reconstructing Markdown")
            }
            Error::Unrepresentable => {
                write!(
                    f,
                    "Cannot preserve this event block with the supplied parser options"
                )
            }
            Error::InvalidSourceRange => write!(f, "Invalid Markdown source range"),
            Error::Finished => write!(f, "Markdown serializer has already finished"),
            Error::Failed => write!(f, "Markdown serializer cannot be used after an error"),
            Error::OutOfMemory => write!(f, "Out of memory while reconstructing Markdown"),
        }
    }
}

impl std::error::Error for Error {}

impl From<fmt::Error> for Error {
    ghost from_gives = { λ x e. e ≡ FormatFailed x };

    fn from(fault: fmt::Error) -> Error {
        Error::FormatFailed(fault)
    }
}

impl From<AllocError> for Error {
    ghost from_gives = { λ _ e. e ≡ OutOfMemory };

    fn from(_fault: AllocError) -> Error {
        Error::OutOfMemory
    }
}

impl<T: Drop> From<AllocFailed<T>> for Error {
    ghost from_gives = { λ _ e. e ≡ OutOfMemory };

    fn from(_fault: AllocFailed<T>) -> Error {
        Error::OutOfMemory
    }
}
