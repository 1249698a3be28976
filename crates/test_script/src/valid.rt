//! Which options can be used with which flags, counted.

use std::alloc::AllocError;
use tocmark::event::ParserOptions;
use tocmark::{Options, OptionsError};

/// How often options were accepted, refused for their flags, refused for HTML scripts, and refused for
/// anything else.
#[derive(Clone, Copy)]
struct Counts {
    accepted: u32,
    flags: u32,
    scripts: u32,
    others: u32,
}

/// One of the 192 choices of standard tokens and truth values.
fn options_of(choice: u32) -> Options<'static> {
    Options {
        code_block_token: if choice % 2 == 0 { '`' } else { '~' },
        list_token: match choice / 2 % 3 {
            0 => '*',
            1 => '-',
            _ => '+',
        },
        ordered_list_token: if choice / 6 % 2 == 0 { '.' } else { ')' },
        emphasis_token: if choice / 12 % 2 == 0 { '*' } else { '_' },
        strong_token: if choice / 24 % 2 == 0 { "**" } else { "__" },
        increment_ordered_list_bullets: choice / 48 % 2 == 0,
        use_html_for_super_sub_script: choice / 96 % 2 == 0,
        ..Options::default()
    }
}

fn with_call(counts: Counts, options: &Options<'_>, flags: ParserOptions) -> Counts {
    match options.validate(flags) {
        Ok(()) => Counts {
            accepted: counts.accepted.saturating_add(1),
            ..counts
        },
        Err(OptionsError::UnsupportedParserOptions(_)) => Counts {
            flags: counts.flags.saturating_add(1),
            ..counts
        },
        Err(OptionsError::HtmlSuperSubscript) => Counts {
            scripts: counts.scripts.saturating_add(1),
            ..counts
        },
        Err(_) => Counts {
            others: counts.others.saturating_add(1),
            ..counts
        },
    }
}

/// Each pattern of the fifteen known flags, whose bits are 1 to 15.
fn with_all_flags(before: Counts, options: &Options<'_>) -> Counts {
    let mut counts = before;
    for pattern in 0u32..0x8000 {
        counts = with_call(counts, options, ParserOptions(pattern.wrapping_mul(2)));
    }
    counts
}

/// Writes how often options are valid, over all patterns of the known flags and all choices of standard
/// tokens and truth values.
pub fn write_valid_count(answer: &mut String) -> Result<(), AllocError> {
    let mut counts = Counts {
        accepted: 0,
        flags: 0,
        scripts: 0,
        others: 0,
    };
    for choice in 0u32..192 {
        counts = with_all_flags(counts, &options_of(choice));
    }
    let Counts {
        accepted,
        flags,
        scripts,
        others,
    } = counts;
    writeln!(answer, "Ok {accepted}")?;
    writeln!(answer, "UnsupportedParserOptions {flags}")?;
    writeln!(answer, "HtmlSuperSubscript {scripts}")?;
    writeln!(answer, "others {others}")
}
