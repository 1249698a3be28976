//! What a call asks for.

ghost use Rattle.std.specs.Prelude.{◌≡◌};
ghost use Rattle.tocmark_format_program.specs.Formats.{is_dry};

use crate::lookup::{Refused, whole_path};
use crate::outcome::Terms;
use crate::report::Form;
use clap::{Arg, ArgAction, ArgMatches, Command};
use std::alloc::{AllocError, Global};
use tocmark_command::options::{CommandOption, Takes, with_options};
use tocmark_command::syntax::with_syntax;
use tocmark_files::rules::Rules;
use tocmark_format::Lines;
use tocmark_settings::{KEYS, Key, Setting, Settings, named, set_all};

/// What becomes of formatted texts.
#[derive(Clone, Copy)]
pub struct Task {
    /// Why the call ends with status 1.
    pub terms: Terms,
    /// What would change is shown, and nothing is written.
    pub shows: bool,
    /// Whether new files are synced.
    pub syncs: bool,
}

impl Task {
    /// Whether no file is changed.
    pub fn is_dry(&self) -> bool
        ensures { result ≡ is_dry self.now }
    {
        self.terms.checks || self.shows
    }
}

/// How much is printed, and how.
#[derive(Clone, Copy)]
pub struct Voice {
    pub form: Form,
    /// The summary isn't printed.
    pub is_quiet: bool,
    /// Each file that changes is named.
    pub is_verbose: bool,
}

impl Voice {
    /// Whether people read it, and not a program.
    pub fn is_for_people(&self) -> bool {
        matches!(self.form, Form::Text)
    }
}

/// What a command line says of all files.
#[derive(Drop)]
pub struct Choice {
    /// The options of the style.
    pub(crate) values: Vec<Setting>,
    pub exclude: Rules,
    /// Which files are formatted. `None`: those with names of Markdown.
    pub include: Option<Rules>,
    /// Whether `.gitignore` files hold.
    pub respects_ignores: bool,
    /// Which lines are formatted, if that is one text alone. `None`: all.
    pub lines: Option<Lines>,
}

/// Whether a diff is coloured.
#[derive(Clone, Copy)]
pub enum Color {
    /// On a terminal, unless the environment has `NO_COLOR`; everywhere, if it has `FORCE_COLOR`.
    Auto,
    Always,
    Never,
}

/// The command's name.
pub const NAME: &str = "tocmark-format";

/// What `--help` says of the paths.
const PATHS: &str = "FILE: format it in place
FOLDER: format the Markdown files below it
- or no path: standard input to standard output";

/// The last lines of `--help`.
const LAST: &str = "The value source keeps what the text has.";

/// What `--lines` takes.
const LINES: &str = "the first and the last line, as 10:20; lines count from 1";

const COLORS: [(&str, Color); 3] = [
    ("auto", Color::Auto),
    ("always", Color::Always),
    ("never", Color::Never),
];

const FORMS: [(&str, Form); 3] = [
    ("text", Form::Text),
    ("github", Form::Annotations),
    ("json", Form::Json),
];

/// The options that say how a document looks.
static STYLE: [CommandOption<'static>; 16] = [
    CommandOption {
        name: "also-read",
        letter: None,
        takes: Takes::Values("NAME"),
        help: "Keep the blocks that this syntax has, too:\ncommonmark, gfm, all or none; repeatable",
    },
    CommandOption {
        name: "look",
        letter: None,
        takes: Takes::Value("LOOK"),
        help: "source: keep all markers, and mend what is broken;\none: the same markers everywhere; the options\nbelow change this",
    },
    CommandOption {
        name: "bullet",
        letter: None,
        takes: Takes::Sign("BULLET"),
        help: "Bullet of lists: *, -, + or source (default)",
    },
    CommandOption {
        name: "ordered",
        letter: None,
        takes: Takes::Value("DELIMITER"),
        help: "Delimiter after a number: ., ) or source\n(default)",
    },
    CommandOption {
        name: "numbering",
        letter: None,
        takes: Takes::Value("NUMBERS"),
        help: "Numbers of a list: source (default: each has its\nown), first (repeat it) or increment",
    },
    CommandOption {
        name: "emphasis",
        letter: None,
        takes: Takes::Value("MARKER"),
        help: "Emphasis marker: *, _ or source (default)",
    },
    CommandOption {
        name: "strong",
        letter: None,
        takes: Takes::Value("MARKER"),
        help: "Strong emphasis marker: **, __ or source\n(default)",
    },
    CommandOption {
        name: "fence",
        letter: None,
        takes: Takes::Value("CHARACTER"),
        help: "Character of a fence: `, ~ or source (default)",
    },
    CommandOption {
        name: "fence-length",
        letter: None,
        takes: Takes::Value("N"),
        help: "Minimal length of a fence: 3 (default) to 1000",
    },
    CommandOption {
        name: "hard-break",
        letter: None,
        takes: Takes::Value("BREAK"),
        help: "Hard line break: backslash, spaces or source\n(default)",
    },
    CommandOption {
        name: "rule",
        letter: None,
        takes: Takes::Sign("RULE"),
        help: "Thematic break: --- (default) or source",
    },
    CommandOption {
        name: "heading",
        letter: None,
        takes: Takes::Value("MARKER"),
        help: "Heading of one line: # (default) or source",
    },
    CommandOption {
        name: "tables",
        letter: None,
        takes: Takes::Value("TABLES"),
        help: "Tables: aligned (default), or source (rows as they\nare)",
    },
    CommandOption {
        name: "table-width",
        letter: None,
        takes: Takes::Value("N"),
        help: "Align tables up to this many columns (default\n120), and wider ones that are aligned",
    },
    CommandOption {
        name: "list-indent",
        letter: None,
        takes: Takes::Value("WIDTH"),
        help: "Indentation of items: that of the source\n(default), that of the marker, or 4 columns",
    },
    CommandOption {
        name: "wrap",
        letter: None,
        takes: Takes::Value("WHERE"),
        help: "Lines of paragraphs: keep (default), no (join\nthem), sentence (a line each) or N (fill them up\nto N columns)",
    },
];

/// The options that say what is done.
static TASK: [CommandOption<'static>; 6] = [
    CommandOption {
        name: "check",
        letter: None,
        takes: Takes::Nothing,
        help: "Write nothing; name each file that would change,\nand end with status 1 if there are any",
    },
    CommandOption {
        name: "list-different",
        letter: Some('l'),
        takes: Takes::Nothing,
        help: "As --check, without the summary",
    },
    CommandOption {
        name: "diff",
        letter: None,
        takes: Takes::Nothing,
        help: "Write nothing; show the changes as a unified diff",
    },
    CommandOption {
        name: "lines",
        letter: None,
        takes: Takes::Value("RANGE"),
        help: "Format the blocks that these lines of one file\ntouch, as 10:20, and keep all others as they are",
    },
    CommandOption {
        name: "strict",
        letter: None,
        takes: Takes::Nothing,
        help: "End with status 1 if a block keeps its lines",
    },
    CommandOption {
        name: "no-sync",
        letter: None,
        takes: Takes::Nothing,
        help: "Don't sync files; faster, and less safe if the\npower fails",
    },
];

/// The options that say which files are meant.
static FILES: [CommandOption<'static>; 6] = [
    CommandOption {
        name: "exclude",
        letter: None,
        takes: Takes::Values("GLOB"),
        help: "Don't format what matches; repeatable",
    },
    CommandOption {
        name: "include",
        letter: None,
        takes: Takes::Values("GLOB"),
        help: "Format the files that match, and not *.md,\n*.markdown, *.mdown and *.mkd; repeatable",
    },
    CommandOption {
        name: "no-ignore",
        letter: None,
        takes: Takes::Nothing,
        help: "Below folders, format what .gitignore ignores,\ntoo",
    },
    CommandOption {
        name: "files-from",
        letter: None,
        takes: Takes::Value("FILE"),
        help: "Format the Markdown files that this file names, a\nline each; - is standard input",
    },
    CommandOption {
        name: "null",
        letter: Some('0'),
        takes: Takes::Nothing,
        help: "Names of --files-from end with NUL, and not with\na line feed",
    },
    CommandOption {
        name: "stdin-filepath",
        letter: None,
        takes: Takes::Value("PATH"),
        help: "Format standard input as this file, which need\nnot exist: by its configuration and under its\nname",
    },
];

/// The options for the configuration and the messages.
static VOICE: [CommandOption<'static>; 5] = [
    CommandOption {
        name: "config",
        letter: None,
        takes: Takes::Value("FILE"),
        help: "Use this configuration for all files, and not the\nnearest .tocmark.toml in or above each folder",
    },
    CommandOption {
        name: "output",
        letter: None,
        takes: Takes::Value("FORM"),
        help: "Form of what is found: text (default), github\n(annotations of a workflow) or json (an array)",
    },
    CommandOption {
        name: "quiet",
        letter: None,
        takes: Takes::Nothing,
        help: "Don't print the summary",
    },
    CommandOption {
        name: "verbose",
        letter: None,
        takes: Takes::Nothing,
        help: "Name each file that changes, and each named one\nthat is excluded",
    },
    CommandOption {
        name: "color",
        letter: None,
        takes: Takes::Value("WHEN"),
        help: "Colour the diff: auto (default: on a terminal, or if\nFORCE_COLOR is set, and never if NO_COLOR is set),\nalways or never",
    },
];

/// The command, and the paths that it takes.
fn with_paths<'a>(alloc: Global) -> Result<Command<'a>, AllocError> {
    let command = Command::new(alloc, NAME)
        .bin_name(NAME)?
        .version("0.1.0")
        .about("Give Markdown files one style, and keep what they say")
        .after_help(LAST);
    let paths = Arg::new(alloc, "path")
        .value_name("FILE|FOLDER|-")
        .action(ArgAction::Append)
        .num_args(0..)
        .help(PATHS);
    command.arg(paths)
}

/// The command line, with this help of `--syntax`. `docs/FORMAT.md` says what its parts mean.
pub fn command<'a>(alloc: Global, syntax_help: &'a str) -> Result<Command<'a>, AllocError> {
    let command = with_options(alloc, with_paths(alloc)?, &TASK)?;
    let command = with_options(alloc, command, &FILES)?;
    let command = with_options(alloc, command, &VOICE)?;
    let command = with_syntax(alloc, command, syntax_help)?;
    with_options(alloc, command, &STYLE)
}

/// What is done, by a command line.
pub fn task_of(matches: &ArgMatches<'_>) -> Task {
    Task {
        terms: Terms {
            checks: matches.get_flag("check") || matches.get_flag("list-different"),
            is_strict: matches.get_flag("strict"),
        },
        shows: matches.get_flag("diff"),
        syncs: !matches.get_flag("no-sync"),
    }
}

/// How much is printed, and how, by a command line.
pub fn voice_of(matches: &ArgMatches<'_>) -> Result<Voice, Refused> {
    let form = match matches.get_str("output") {
        None => Form::Text,
        Some(word) => match named(&FORMS, word) {
            Some(form) => form,
            None => return Err(Refused::Option("output", "text, github or json")),
        },
    };
    if matches!(form, Form::Json) && matches.get_flag("diff") {
        return Err(Refused::Usage("--output json takes no --diff"));
    }
    Ok(Voice {
        form,
        is_quiet: matches.get_flag("quiet") || matches.get_flag("list-different"),
        is_verbose: matches.get_flag("verbose"),
    })
}

/// When a diff is coloured, by a command line.
pub fn color_of(matches: &ArgMatches<'_>) -> Result<Color, Refused> {
    let Some(word) = matches.get_str("color") else {
        return Ok(Color::Auto);
    };
    match named(&COLORS, word) {
        Some(color) => Ok(color),
        None => Err(Refused::Option("color", "auto, always or never")),
    }
}

/// The lines that a word says: the first and the last one, with a colon between.
fn lines_in(word: &str) -> Option<Lines> {
    let (first, last) = word.split_once(':')?;
    let lines = Lines {
        first: first.parse().ok()?,
        last: last.parse().ok()?,
    };
    if lines.first == 0 || lines.first > lines.last {
        return None;
    }
    Some(lines)
}

/// Which lines are formatted, by a command line.
fn lines_of(matches: &ArgMatches<'_>) -> Result<Option<Lines>, Refused> {
    let Some(word) = matches.get_str("lines") else {
        return Ok(None);
    };
    match lines_in(word) {
        Some(lines) => Ok(Some(lines)),
        None => Err(Refused::Option("lines", LINES)),
    }
}

/// The options of the style with their values, by a command line.
fn values_of(alloc: Global, matches: &ArgMatches<'_>) -> Result<Vec<Setting>, Refused> {
    let mut values = Vec::new(alloc);
    for (option, key, wanted) in &KEYS {
        let words = matches.get_strs(option).unwrap_or(&[]);
        if !add_values(alloc, &mut values, *key, words)? {
            return Err(Refused::Option(*option, *wanted));
        }
    }
    Ok(values)
}

/// Adds an option with each of its values. `Ok(false)`: it takes no such value.
fn add_values(
    alloc: Global,
    values: &mut Vec<Setting>,
    key: Key,
    words: &[&str],
) -> Result<bool, AllocError> {
    let before = values.len();
    for word in words {
        let word = String::from_str(alloc, word)?;
        values.push(Setting { key, word })?;
    }
    let added = values.get(before..).unwrap_or(&[]);
    Ok(set_all(&mut Settings::new(), added).is_ok())
}

/// The globs of an option, for files below the working folder. `None`: the option isn't given.
fn globs_of(
    rt: &HostRuntime,
    matches: &ArgMatches<'_>,
    option: &'static str,
) -> Result<Option<Rules>, Refused> {
    let Some(globs) = matches.get_strs(option) else {
        return Ok(None);
    };
    let folder = whole_path(rt, ".")?;
    let mut rules = Rules::new(rt.alloc(), folder.as_str())?;
    for glob in globs {
        if let Some(wanted) = rules.add_glob(rt.alloc(), option, glob)? {
            return Err(Refused::Option(option, wanted));
        }
    }
    Ok(Some(rules))
}

/// The globs of `exclude`.
fn exclude_of(rt: &HostRuntime, matches: &ArgMatches<'_>) -> Result<Rules, Refused> {
    match globs_of(rt, matches, "exclude")? {
        Some(rules) => Ok(rules),
        None => Ok(Rules::new(rt.alloc(), "/")?),
    }
}

/// What a command line says of all files.
pub fn choice_of(rt: &HostRuntime, matches: &ArgMatches<'_>) -> Result<Choice, Refused> {
    let values = values_of(rt.alloc(), matches)?;
    Ok(Choice {
        values,
        exclude: exclude_of(rt, matches)?,
        include: globs_of(rt, matches, "include")?,
        respects_ignores: !matches.get_flag("no-ignore"),
        lines: lines_of(matches)?,
    })
}
