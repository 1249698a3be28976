//! What a call asks for.

use crate::settings::{Unset, set};
use clap::{Arg, ArgMatches, Command};
use std::alloc::{AllocError, Global};
use std::fmt;
use tocmark::event::ParserOptions;
use tocmark::{Options, OptionsError};
use tocmark_command::options::{CommandOption, Takes, with_options};
use tocmark_command::syntax::{extended, syntax_named, with_syntax};
use tocmark_documents::OptionFault;

/// What a call asks for.
#[derive(Clone, Copy, Drop)]
pub enum Call<'a> {
    /// Markdown, read under these flags, to lines of events, which are written as they come.
    Stream {
        flags: ParserOptions,
        /// Whether ranges have lines and columns.
        positions: bool,
    },
    /// What is written once all of it is there.
    Whole(Job<'a>),
}

/// What is made as a whole.
#[derive(Clone, Copy, Drop)]
pub enum Job<'a> {
    /// Markdown, read under these flags, to an array of events.
    Read {
        flags: ParserOptions,
        /// Whether ranges have lines and columns.
        positions: bool,
    },
    /// Markdown, read under these flags, to its definitions of links.
    Define {
        flags: ParserOptions,
    },
    /// Events to the one form of their JSON.
    Check,
    /// Events, read under these flags, to Markdown, with the file of their source, if there is one.
    Write {
        flags: ParserOptions,
        options: Options<'static>,
        source: Option<&'a str>,
        /// Whether the output must parse to just these events.
        is_document: bool,
        /// Whether each event is on a line of its own.
        lines: bool,
    },
    /// The document in a file, rewritten to events that were read from it under these flags.
    Rewrite {
        flags: ParserOptions,
        options: Options<'static>,
        source: &'a str,
        /// Whether standard error gets a line about each block.
        reports: bool,
        /// Whether each event is on a line of its own.
        lines: bool,
    },
    /// The document in a file, read under these flags, with other definitions of links.
    Redefine {
        flags: ParserOptions,
        source: &'a str,
    },
}

impl<'a> Job<'a> {
    ghost use Rattle.std.specs.Prelude.{◌≡◌};
    ghost use Rattle.tocmark_events_program.specs.Events.{joins_lines};

    /// Whether the lines of the input are joined into an array.
    pub fn joins_lines(&self) -> bool
        ensures { result ≡ joins_lines self.now }
    {
        match self {
            Job::Read { .. } | Job::Define { .. } | Job::Redefine { .. } | Job::Check => false,
            Job::Write {
                is_document,
                lines,
                ..
            } => *is_document && *lines,
            Job::Rewrite { lines, .. } => *lines,
        }
    }
}

/// Why arguments are wrong.
#[derive(Clone, Copy, Drop)]
pub enum Refusal<'a> {
    NoVerb,
    Syntax,
    Extension,
    NoSource,
    NoFile,
    NoPair,
    Option(OptionFault<'a>),
    Invalid(OptionsError),
    OutOfMemory,
}

impl<'a> fmt::Display for Refusal<'a> {
    fn fmt<W: fmt::Write>(&self, f: &mut fmt::Formatter<W>) -> fmt::Result {
        match self {
            Refusal::NoVerb => write!(
                f,
                "read, definitions, redefine, write, rewrite or check is wanted"
            ),
            Refusal::Syntax => write!(f, "--syntax wants commonmark, gfm or all"),
            Refusal::Extension => write!(
                f,
                "--extension wants a name that --help lists, or no- before one"
            ),
            Refusal::NoSource => write!(f, "rewrite wants --source FILE"),
            Refusal::NoFile => write!(f, "redefine wants FILE"),
            Refusal::NoPair => write!(f, "--option wants KEY=VALUE"),
            Refusal::Option(fault) => write!(f, "--option: {fault}"),
            Refusal::Invalid(error) => write!(f, "{error}"),
            Refusal::OutOfMemory => write!(f, "out of memory"),
        }
    }
}

/// The command's name.
pub const NAME: &str = "tocmark-events";

/// What `--help` says of `read`.
const READ: &str = "Turn Markdown into events as JSON";

/// What `--help` says of `definitions`.
const DEFINITIONS: &str = "List the definitions of links in Markdown as JSON";

/// What `--help` says of `redefine`.
const REDEFINE: &str =
    "Give definitions of links other destinations and\ntitles, which come as JSON";

/// What `--help` says of `write`.
const WRITE: &str = "Turn events as JSON into Markdown";

/// What `--help` says of `rewrite`.
const REWRITE: &str =
    "Edit a document: keep all that isn't changed in its\nevents, which come as JSON";

/// What `--help` says of `check`.
const CHECK: &str = "Print the JSON of events without spaces, and with keys in one order";

/// The option of each command that reads or writes events.
const LINES: CommandOption<'static> = CommandOption {
    name: "lines",
    letter: None,
    takes: Takes::Nothing,
    help: "One line of JSON for each event, and no array:\nread and write keep few events in memory",
};

/// The options of `read`.
static READ_OPTIONS: [CommandOption<'static>; 2] = [
    LINES,
    CommandOption {
        name: "positions",
        letter: None,
        takes: Takes::Nothing,
        help: "Give each range the lines and columns of its ends,\nand that of a link the bytes of its destination",
    },
];

/// The options that only `write` has.
static WRITE_OPTIONS: [CommandOption<'static>; 3] = [
    CommandOption {
        name: "source",
        letter: None,
        takes: Takes::Value("FILE"),
        help: "Text that the ranges refer to; keep its spelling\nif that parses back",
    },
    CommandOption {
        name: "check-plain-blocks",
        letter: None,
        takes: Takes::Nothing,
        help: "Parse each block back before it is written",
    },
    CommandOption {
        name: "unchecked",
        letter: None,
        takes: Takes::Nothing,
        help: "Don't parse the output back: also write what would\nparse to other events",
    },
];

/// The option of each command that edits a document.
const IN_PLACE: CommandOption<'static> = CommandOption {
    name: "in-place",
    letter: None,
    takes: Takes::Nothing,
    help: "Replace the document, and write no output",
};

/// The options of `redefine`.
static REDEFINE_OPTIONS: [CommandOption<'static>; 1] = [IN_PLACE];

/// The options that only `rewrite` has.
static REWRITE_OPTIONS: [CommandOption<'static>; 3] = [
    CommandOption {
        name: "source",
        letter: None,
        takes: Takes::Value("FILE"),
        help: "The document that the events were read from",
    },
    CommandOption {
        name: "report",
        letter: None,
        takes: Takes::Nothing,
        help: "Tell on standard error what became of each block",
    },
    IN_PLACE,
];

/// The options of each command that writes Markdown.
static MARKDOWN_OPTIONS: [CommandOption<'static>; 3] = [
    LINES,
    CommandOption {
        name: "options",
        letter: None,
        takes: Takes::Value("FILE"),
        help: "Options of the writer, as a JSON object",
    },
    CommandOption {
        name: "option",
        letter: None,
        takes: Takes::Values("KEY=VALUE"),
        help: "One option of the writer, such as list_token=-;\nrepeatable, and overrides the file",
    },
];

/// The command of this name. It takes the file that it reads.
fn verb<'a>(alloc: Global, name: &'a str, about: &'a str) -> Result<Command<'a>, AllocError> {
    let file = Arg::new(alloc, "file")
        .value_name("FILE")
        .help("File to read; without it, standard input is read");
    Command::new(alloc, name).about(about).arg(file)
}

/// The command with these options, those of each command that writes Markdown, and those of the syntax.
fn writing_command<'a>(
    alloc: Global,
    command: Command<'a>,
    options: &[CommandOption<'a>],
    syntax_help: &'a str,
) -> Result<Command<'a>, AllocError> {
    let command = with_options(alloc, command, options)?;
    let command = with_options(alloc, command, &MARKDOWN_OPTIONS)?;
    with_syntax(alloc, command, syntax_help)
}

fn read_command<'a>(alloc: Global, syntax_help: &'a str) -> Result<Command<'a>, AllocError> {
    let read = verb(alloc, "read", READ)?;
    let read = with_options(alloc, read, &READ_OPTIONS)?;
    with_syntax(alloc, read, syntax_help)
}

fn definitions_command<'a>(alloc: Global, syntax_help: &'a str) -> Result<Command<'a>, AllocError> {
    let definitions = verb(alloc, "definitions", DEFINITIONS)?;
    with_syntax(alloc, definitions, syntax_help)
}

fn redefine_command<'a>(alloc: Global, syntax_help: &'a str) -> Result<Command<'a>, AllocError> {
    let file = Arg::new(alloc, "file")
        .value_name("FILE")
        .help("The document that the definitions were read from");
    let redefine = Command::new(alloc, "redefine").about(REDEFINE).arg(file)?;
    let redefine = with_options(alloc, redefine, &REDEFINE_OPTIONS)?;
    with_syntax(alloc, redefine, syntax_help)
}

fn rewrite_command<'a>(alloc: Global, syntax_help: &'a str) -> Result<Command<'a>, AllocError> {
    let rewrite = verb(alloc, "rewrite", REWRITE)?;
    writing_command(alloc, rewrite, &REWRITE_OPTIONS, syntax_help)
}

fn write_command<'a>(alloc: Global, syntax_help: &'a str) -> Result<Command<'a>, AllocError> {
    let write = verb(alloc, "write", WRITE)?;
    writing_command(alloc, write, &WRITE_OPTIONS, syntax_help)
}

/// Adds a subcommand, if memory was enough to make it.
fn with_subcommand<'a>(
    command: Command<'a>,
    subcommand: Result<Command<'a>, AllocError>,
) -> Result<Command<'a>, AllocError> {
    command.subcommand(subcommand?)
}

/// The command line, with this help of `--syntax`. `docs/JSON.md` says what its parts mean.
pub fn command<'a>(alloc: Global, syntax_help: &'a str) -> Result<Command<'a>, AllocError> {
    let command = Command::new(alloc, NAME)
        .bin_name(NAME)?
        .version("0.1.0")
        .about("Turn Markdown into events as JSON, and back")
        .subcommand_required(true);
    let command = with_subcommand(command, read_command(alloc, syntax_help))?;
    let command = with_subcommand(command, definitions_command(alloc, syntax_help))?;
    let command = with_subcommand(command, redefine_command(alloc, syntax_help))?;
    let command = with_subcommand(command, rewrite_command(alloc, syntax_help))?;
    let command = with_subcommand(command, write_command(alloc, syntax_help))?;
    with_subcommand(command, verb(alloc, "check", CHECK))
}

/// The flags of the syntax and the extensions that are named.
fn flags_of(matches: &ArgMatches<'_>) -> Result<ParserOptions, Refusal<'static>> {
    let syntax = matches.get_str("syntax").unwrap_or("gfm");
    let Some(mut flags) = syntax_named(syntax) else {
        return Err(Refusal::Syntax);
    };
    if let Some(names) = matches.get_strs("extension") {
        for name in names {
            let Some(more) = extended(flags, name) else {
                return Err(Refusal::Extension);
            };
            flags = more;
        }
    }
    Ok(flags)
}

fn options_of<'a>(
    alloc: Global,
    matches: &ArgMatches<'a>,
    given: Options<'static>,
) -> Result<Options<'static>, Refusal<'a>> {
    let mut options = given;
    if let Some(words) = matches.get_strs("option") {
        for word in words {
            match set(alloc, &mut options, word) {
                Ok(()) => {}
                Err(Unset::NoPair) => return Err(Refusal::NoPair),
                Err(Unset::Refused(fault)) => return Err(Refusal::Option(fault)),
                Err(Unset::OutOfMemory) => return Err(Refusal::OutOfMemory),
            }
        }
    }
    Ok(options)
}

/// The file of the options, if one is named.
pub fn options_file<'a>(matches: &ArgMatches<'a>) -> Option<&'a str> {
    match matches.subcommand() {
        Some((name, matches)) if name == "write" || name == "rewrite" => matches.get_str("options"),
        _ => None,
    }
}

/// The files that a call names beside its source and its options.
#[derive(Clone, Copy, Drop)]
pub struct Files<'a> {
    /// The one that is read in place of standard input.
    pub read: Option<&'a str>,
    /// The one that is rewritten in place.
    pub in_place: Option<&'a str>,
}

/// The file that is rewritten in place, if the call asks for that.
fn file_in_place<'a>(matches: &ArgMatches<'a>) -> Option<&'a str> {
    match matches.subcommand() {
        Some(("rewrite", matches)) if matches.get_flag("in-place") => matches.get_str("source"),
        Some(("redefine", matches)) if matches.get_flag("in-place") => matches.get_str("file"),
        _ => None,
    }
}

/// The files that a call names beside its source and its options.
pub fn files_in<'a>(matches: &ArgMatches<'a>) -> Files<'a> {
    let read = match matches.subcommand() {
        Some(("redefine", _)) => None,
        Some((_, words)) => words.get_str("file"),
        None => None,
    };
    Files {
        read,
        in_place: file_in_place(matches),
    }
}

/// What `read` asks for.
fn reading_asked<'a>(matches: &ArgMatches<'a>, flags: ParserOptions) -> Call<'a> {
    let positions = matches.get_flag("positions");
    if matches.get_flag("lines") {
        Call::Stream { flags, positions }
    } else {
        Call::Whole(Job::Read { flags, positions })
    }
}

/// The options of the writer that the arguments of `write` or `rewrite` set, beginning with these.
fn valid_options<'a>(
    alloc: Global,
    matches: &ArgMatches<'a>,
    name: &str,
    flags: ParserOptions,
    given: Options<'static>,
) -> Result<Options<'static>, Refusal<'a>> {
    let mut options = options_of(alloc, matches, given)?;
    if name == "write" && matches.get_flag("check-plain-blocks") {
        options.check_plain_blocks = true;
    }
    match options.validate(flags) {
        Ok(()) => Ok(options),
        Err(error) => Err(Refusal::Invalid(error)),
    }
}

/// What `redefine` asks for.
fn redefining_asked<'a>(
    matches: &ArgMatches<'a>,
    flags: ParserOptions,
) -> Result<Call<'a>, Refusal<'a>> {
    match matches.get_str("file") {
        Some(source) => Ok(Call::Whole(Job::Redefine { flags, source })),
        None => Err(Refusal::NoFile),
    }
}

/// What `write` asks for.
fn writing_asked<'a>(
    matches: &ArgMatches<'a>,
    flags: ParserOptions,
    options: Options<'static>,
) -> Call<'a> {
    Call::Whole(Job::Write {
        flags,
        options,
        source: matches.get_str("source"),
        is_document: !matches.get_flag("unchecked"),
        lines: matches.get_flag("lines"),
    })
}

/// What `rewrite` asks for.
fn rewriting_asked<'a>(
    matches: &ArgMatches<'a>,
    flags: ParserOptions,
    options: Options<'static>,
) -> Result<Call<'a>, Refusal<'a>> {
    let Some(source) = matches.get_str("source") else {
        return Err(Refusal::NoSource);
    };
    Ok(Call::Whole(Job::Rewrite {
        flags,
        options,
        source,
        reports: matches.get_flag("report"),
        lines: matches.get_flag("lines"),
    }))
}

/// What the arguments ask for, beginning with these options, or why they are wrong.
pub fn asked<'a>(
    alloc: Global,
    matches: &ArgMatches<'a>,
    given: Options<'static>,
) -> Result<Call<'a>, Refusal<'a>> {
    let Some((name, matches)) = matches.subcommand() else {
        return Err(Refusal::NoVerb);
    };
    if name == "check" {
        return Ok(Call::Whole(Job::Check));
    }
    let flags = flags_of(matches)?;
    if name == "read" {
        return Ok(reading_asked(matches, flags));
    }
    if name == "definitions" {
        return Ok(Call::Whole(Job::Define { flags }));
    }
    if name == "redefine" {
        return redefining_asked(matches, flags);
    }
    let options = valid_options(alloc, matches, name, flags, given)?;
    if name == "write" {
        return Ok(writing_asked(matches, flags, options));
    }
    rewriting_asked(matches, flags, options)
}
