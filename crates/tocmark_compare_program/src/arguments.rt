//! What a call asks for.

use crate::fault::Fault;
use crate::report::Form;
use clap::{Arg, ArgAction, ArgMatches, Command};
use std::alloc::{AllocError, Global};
use std::fmt;
use std::fmt::Write;
use tocmark_command::options::{CommandOption, Takes, with_options};
use tocmark_command::syntax::{extended, syntax_named, with_syntax};
use tocmark_differences::{Allowed, KINDS};
use tocmark_event::event::ParserOptions;

/// What of two texts is compared.
#[derive(Clone, Copy)]
pub enum Measure {
    /// What a reader finds in them.
    Events,
    /// What a reader finds in them, and their letters.
    EventsAndLetters,
    /// Their letters alone.
    Letters,
}

/// How texts are compared, and what is written.
#[derive(Clone, Copy)]
pub struct Terms {
    pub flags: ParserOptions,
    pub allowed: Allowed,
    pub measure: Measure,
    /// Web and mail addresses in texts count as links, as on GitHub.
    pub links_addresses: bool,
    pub form: Form,
    /// The new text takes the place of the old one, if both say the same.
    pub replaces: bool,
    /// Nothing is written.
    pub is_quiet: bool,
    /// Git calls, and takes another status than 0 for a failure.
    pub is_for_git: bool,
}

/// Where a text is.
#[derive(Clone, Copy)]
pub enum Place<'a> {
    Input,
    Path(&'a str),
}

/// A text, or a folder with texts.
#[derive(Clone, Copy)]
pub struct Text<'a> {
    pub place: Place<'a>,
    /// The name that it has in what is written.
    pub name: &'a str,
}

/// What is compared.
#[derive(Clone, Copy)]
pub struct Pair<'a> {
    pub old: Text<'a>,
    pub new: Text<'a>,
}

impl<'a> Text<'a> {
    /// The text at a path.
    pub fn file(path: &'a str) -> Text<'a> {
        Text {
            place: Place::Path(path),
            name: path,
        }
    }

    /// The text that an argument names.
    fn named(word: &'a str) -> Text<'a> {
        if word == INPUT {
            return Text {
                place: Place::Input,
                name: word,
            };
        }
        Text::file(word)
    }
}

/// The name of standard input.
pub const INPUT: &str = "-";

/// The command's name.
pub const NAME: &str = "tocmark-compare";

/// What `--help` says of the paths.
const PATHS: &str =
    "Two files, or two folders. One file can be - for standard\ninput. Of folders, the files *.md, *.markdown, *.mdown and *.mkd\nare compared";

/// The options of this program alone.
static OPTIONS: [CommandOption<'static>; 9] = [
    CommandOption {
        name: "allow",
        letter: Some('a'),
        takes: Takes::Values("KIND"),
        help: "Let this kind differ; repeatable",
    },
    CommandOption {
        name: "as",
        letter: None,
        takes: Takes::Value("WHAT"),
        help: "Compare texts as rendered (default: what no page\nshows may differ) or as events (nothing may)",
    },
    CommandOption {
        name: "letters",
        letter: None,
        takes: Takes::Nothing,
        help: "Compare the letters alone, without a parser: those\nof ASCII, and all characters past ASCII",
    },
    CommandOption {
        name: "also-letters",
        letter: None,
        takes: Takes::Nothing,
        help: "Compare the letters, too",
    },
    CommandOption {
        name: "replace",
        letter: None,
        takes: Takes::Nothing,
        help: "Give OLD the text of NEW, if nothing differs",
    },
    CommandOption {
        name: "quiet",
        letter: Some('q'),
        takes: Takes::Nothing,
        help: "Write nothing; the status is the answer",
    },
    CommandOption {
        name: "json",
        letter: None,
        takes: Takes::Nothing,
        help: "Write the differences as a JSON array",
    },
    CommandOption {
        name: "github",
        letter: None,
        takes: Takes::Nothing,
        help: "Write the differences as annotations of GitHub",
    },
    CommandOption {
        name: "git",
        letter: None,
        takes: Takes::Nothing,
        help: "Take the arguments of GIT_EXTERNAL_DIFF, and end\nwith status 0 also if texts differ",
    },
];

/// The names of the kinds, with a few words on each.
///
/// It fails if memory runs out.
pub fn kinds_help(alloc: Global) -> Result<String, fmt::Error> {
    let mut help = String::new(alloc);
    help.write_str("Kinds:")?;
    for (name, about) in &KINDS {
        write!(help, "\n  {name:<14}{about}")?;
    }
    Ok(help)
}

/// The command line, with this help of `--syntax` and of the kinds.
///
/// It fails if memory runs out.
pub fn command<'a>(
    alloc: Global,
    syntax_help: &'a str,
    kinds: &'a str,
) -> Result<Command<'a>, AllocError> {
    let texts = Arg::new(alloc, "text")
        .value_name("OLD NEW")
        .action(ArgAction::Append)
        .num_args(0..)
        .help(PATHS);
    let command = Command::new(alloc, NAME)
        .bin_name(NAME)?
        .version("0.1.0")
        .about("Tell whether two Markdown texts say the same, and what differs")
        .after_help(kinds)
        .arg(texts)?;
    let command = with_options(alloc, command, &OPTIONS)?;
    with_syntax(alloc, command, syntax_help)
}

/// The flags of the syntax and the extensions that are named.
fn flags_of(matches: &ArgMatches<'_>) -> Result<ParserOptions, Fault> {
    let syntax = matches.get_str("syntax").unwrap_or("gfm");
    let Some(mut flags) = syntax_named(syntax) else {
        return Err(Fault::Usage("--syntax wants commonmark, gfm or all"));
    };
    for name in matches.get_strs("extension").unwrap_or(&[]) {
        let Some(more) = extended(flags, name) else {
            return Err(Fault::Usage(
                "--extension wants a name that --help lists, or no- before one",
            ));
        };
        flags = more;
    }
    Ok(flags)
}

/// Whether addresses in texts count as links: CommonMark has no such links, and nothing that a parser finds may differ under
/// `--as events`.
fn links_addresses(matches: &ArgMatches<'_>) -> bool {
    matches.get_str("as") != Some("events") && matches.get_str("syntax") != Some("commonmark")
}

/// What may differ.
fn allowed_of(alloc: Global, matches: &ArgMatches<'_>) -> Result<Allowed, Fault> {
    let mut allowed = match matches.get_str("as") {
        None | Some("rendered") => Allowed::unrendered(),
        Some("events") => Allowed::nothing(),
        Some(_) => return Err(Fault::Usage("--as wants rendered or events")),
    };
    for kind in matches.get_strs("allow").unwrap_or(&[]) {
        let Some(more) = allowed.with(kind) else {
            return Err(Fault::no_kind(alloc, kind));
        };
        allowed = more;
    }
    Ok(allowed)
}

/// Whether an option says how events are found or compared.
fn is_about_events(matches: &ArgMatches<'_>) -> bool {
    matches.get_flag("also-letters")
        || matches.get_str("as").is_some()
        || matches.get_str("syntax").is_some()
        || matches.get_strs("allow").is_some()
        || matches.get_strs("extension").is_some()
}

/// What of two texts is compared.
fn measure_of(matches: &ArgMatches<'_>) -> Result<Measure, Fault> {
    if !matches.get_flag("letters") {
        let counts_letters = matches.get_flag("also-letters");
        return Ok(if counts_letters {
            Measure::EventsAndLetters
        } else {
            Measure::Events
        });
    }
    if is_about_events(matches) {
        return Err(Fault::Usage(
            "--letters compares letters alone: leave out --also-letters, --allow, --as, --syntax and --extension",
        ));
    }
    Ok(Measure::Letters)
}

/// How texts are compared, by a command line.
pub fn terms_of(alloc: Global, matches: &ArgMatches<'_>) -> Result<Terms, Fault> {
    let form = match (matches.get_flag("json"), matches.get_flag("github")) {
        (false, false) => Form::Lines,
        (true, false) => Form::Json,
        (false, true) => Form::Annotations,
        (true, true) => return Err(Fault::Usage("only one of --json and --github can be passed")),
    };
    let (replaces, is_for_git) = (matches.get_flag("replace"), matches.get_flag("git"));
    if replaces && is_for_git {
        return Err(Fault::Usage("only one of --replace and --git can be passed"));
    }
    Ok(Terms {
        flags: flags_of(matches)?,
        allowed: allowed_of(alloc, matches)?,
        measure: measure_of(matches)?,
        links_addresses: links_addresses(matches),
        form,
        replaces,
        is_quiet: matches.get_flag("quiet"),
        is_for_git,
    })
}

/// What Git passes. `None`: there are no two texts, because a merge has left several.
fn pair_of_git<'a>(words: &[&'a str]) -> Result<Option<Pair<'a>>, Fault> {
    let (path, old, new, new_name) = match words {
        [_] => return Ok(None),
        [path, old, _, _, new, _, _] => (*path, *old, *new, *path),
        [path, old, _, _, new, _, _, name, _] => (*path, *old, *new, *name),
        _ => return Err(Fault::Usage("--git wants the arguments that Git passes")),
    };
    Ok(Some(Pair {
        old: Text {
            place: Place::Path(old),
            name: path,
        },
        new: Text {
            place: Place::Path(new),
            name: new_name,
        },
    }))
}

/// What is compared, by a command line. `None`: nothing.
pub fn pair_of<'a>(matches: &ArgMatches<'a>, terms: Terms) -> Result<Option<Pair<'a>>, Fault> {
    let words = matches.get_strs("text").unwrap_or(&[]);
    if terms.is_for_git {
        return pair_of_git(words);
    }
    match words {
        ["-", _] if terms.replaces => Err(Fault::Usage("--replace wants a file as OLD")),
        ["-", "-"] => Err(Fault::Usage("standard input cannot be both texts")),
        [old, new] => Ok(Some(Pair {
            old: Text::named(old),
            new: Text::named(new),
        })),
        _ => Err(Fault::Usage("two texts are wanted: OLD and NEW")),
    }
}
