//! The options of a script.

use crate::line_fault::LineFault;
use crate::script::{Script, put};
use crate::words::{WordsLeft, decimal};
use OptionName::{Choice, Size, StrongToken, Token};
use std::alloc::Global;
use tocmark_event::options::Options;

const A_SIZE: &str = "a decimal number below 2^64, max or imax";

/// An option that is a number of line feeds or of fence characters.
#[derive(Clone, Copy)]
enum SizeOption {
    Headline,
    Paragraph,
    CodeBlock,
    HtmlBlock,
    Table,
    Rule,
    List,
    BlockQuote,
    Rest,
    Metadata,
    CodeBlockToken,
}

/// An option that is a choice.
#[derive(Clone, Copy)]
enum ChoiceOption {
    IncrementBullets,
    HtmlScripts,
    PlainBlocks,
}

/// An option that is one character.
#[derive(Clone, Copy)]
enum TokenOption {
    CodeBlock,
    List,
    OrderedList,
    Emphasis,
}

/// An option, by what it is set to.
#[derive(Clone, Copy)]
enum OptionName {
    Size(SizeOption),
    Choice(ChoiceOption),
    Token(TokenOption),
    StrongToken,
}

const OPTIONS: [(&str, OptionName); 19] = [
    ("newlines_after_headline", Size(SizeOption::Headline)),
    ("newlines_after_paragraph", Size(SizeOption::Paragraph)),
    ("newlines_after_codeblock", Size(SizeOption::CodeBlock)),
    ("newlines_after_htmlblock", Size(SizeOption::HtmlBlock)),
    ("newlines_after_table", Size(SizeOption::Table)),
    ("newlines_after_rule", Size(SizeOption::Rule)),
    ("newlines_after_list", Size(SizeOption::List)),
    ("newlines_after_blockquote", Size(SizeOption::BlockQuote)),
    ("newlines_after_rest", Size(SizeOption::Rest)),
    ("newlines_after_metadata", Size(SizeOption::Metadata)),
    ("code_block_token_count", Size(SizeOption::CodeBlockToken)),
    (
        "increment_ordered_list_bullets",
        Choice(ChoiceOption::IncrementBullets),
    ),
    (
        "use_html_for_super_sub_script",
        Choice(ChoiceOption::HtmlScripts),
    ),
    ("check_plain_blocks", Choice(ChoiceOption::PlainBlocks)),
    ("code_block_token", Token(TokenOption::CodeBlock)),
    ("list_token", Token(TokenOption::List)),
    ("ordered_list_token", Token(TokenOption::OrderedList)),
    ("emphasis_token", Token(TokenOption::Emphasis)),
    ("strong_token", StrongToken),
];

const CHOICES: [(&str, bool); 2] = [("true", true), ("false", false)];

/// A number of line feeds or of fence characters, in digits or as a word.
fn size(words: &mut WordsLeft<'_>) -> Result<usize, LineFault> {
    let fault = words.expected(A_SIZE);
    match words.word() {
        "max" => Ok(usize::MAX),
        "imax" => Ok(0x7FFF_FFFF_FFFF_FFFF),
        word => decimal(word).ok_or(fault),
    }
}

fn set_size(options: &mut Options<'_>, option: SizeOption, size: usize) {
    match option {
        SizeOption::Headline => options.newlines_after_headline = size,
        SizeOption::Paragraph => options.newlines_after_paragraph = size,
        SizeOption::CodeBlock => options.newlines_after_codeblock = size,
        SizeOption::HtmlBlock => options.newlines_after_htmlblock = size,
        SizeOption::Table => options.newlines_after_table = size,
        SizeOption::Rule => options.newlines_after_rule = size,
        SizeOption::List => options.newlines_after_list = size,
        SizeOption::BlockQuote => options.newlines_after_blockquote = size,
        SizeOption::Rest => options.newlines_after_rest = size,
        SizeOption::Metadata => options.newlines_after_metadata = size,
        SizeOption::CodeBlockToken => options.code_block_token_count = size,
    }
}

fn set_choice(options: &mut Options<'_>, option: ChoiceOption, choice: bool) {
    match option {
        ChoiceOption::IncrementBullets => options.increment_ordered_list_bullets = choice,
        ChoiceOption::HtmlScripts => options.use_html_for_super_sub_script = choice,
        ChoiceOption::PlainBlocks => options.check_plain_blocks = choice,
    }
}

fn set_token(options: &mut Options<'_>, option: TokenOption, token: char) {
    match option {
        TokenOption::CodeBlock => options.code_block_token = token,
        TokenOption::List => options.list_token = token,
        TokenOption::OrderedList => options.ordered_list_token = token,
        TokenOption::Emphasis => options.emphasis_token = token,
    }
}

/// Sets the option of a script that a line names to the value after its name.
///
/// # Errors
///
/// The fault that the name of an option or another value is expected, or that memory ran out.
pub fn set_option(
    alloc: Global,
    script: &mut Script<'_>,
    words: &mut WordsLeft<'_>,
) -> Result<(), LineFault> {
    script.has_options = true;
    match words.expect_known(&OPTIONS, "the name of an option")? {
        Size(option) => set_size(&mut script.options, option, size(words)?),
        Choice(option) => {
            let choice = words.expect_known(&CHOICES, "true or false")?;
            set_choice(&mut script.options, option, choice);
        }
        Token(option) => {
            let token = words.character(alloc)?;
            set_token(&mut script.options, option, token);
        }
        StrongToken => put(&mut script.strong_token, Some(words.string(alloc)?)),
    }
    Ok(())
}
