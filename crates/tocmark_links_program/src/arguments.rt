//! What a call asks for.

use crate::fault::Fault;
use crate::report::Form;
use clap::{Arg, ArgAction, ArgMatches, Command};
use std::alloc::{AllocError, Global};
use tocmark_command::options::{CommandOption, Takes, with_options};
use tocmark_command::syntax::{extended, syntax_named, with_syntax};
use tocmark_event::event::ParserOptions;
use tocmark_links::slug::Slugs;

/// How files are read, and what is done with what is found.
#[derive(Clone, Copy)]
pub struct Terms {
    pub flags: ParserOptions,
    pub slugs: Slugs,
    pub form: Form,
    /// Nothing is changed.
    pub is_dry: bool,
    /// The changes are shown as a diff.
    pub shows: bool,
}

/// What is done.
#[derive(Clone, Copy)]
pub enum Work<'w> {
    /// The links of these files, and of those below these folders, are checked.
    Check(&'w [&'w str]),
    /// A file or folder gets another path.
    Move(&'w str, &'w str),
    /// The heading of a file with an anchor gets other words.
    Rename {
        file: &'w str,
        anchor: &'w str,
        words: &'w str,
    },
    /// The tables of contents of these files are filled.
    Contents(&'w [&'w str]),
}

/// The command's name.
pub const NAME: &str = "tocmark-links";

/// What is said of a place without an anchor.
const NO_ANCHOR: &str =
    "# and the heading's anchor are missing; wanted: FILE#ANCHOR, by the anchor that the heading has now";

/// What `--help` says of the words.
const WORDS: &str = "check [PATH..]: find links that lead nowhere
move OLD NEW: move a file or folder, and correct links
rename FILE#ANCHOR WORDS: give a heading other words
contents FILE..: fill tables of contents";

/// The last lines of `--help`.
const LAST: &str =
    "Status 1: a link is broken, contents --dry-run found a file that would change,\na file could not be read, or standard output could not be written;\n2: nothing was done.";

/// The options of this program alone.
static OPTIONS: [CommandOption<'static>; 6] = [
    CommandOption {
        name: "slugs",
        letter: None,
        takes: Takes::Value("RULE"),
        help: "How headings get their anchors: github (default),\nmdbook or python",
    },
    CommandOption {
        name: "exclude",
        letter: None,
        takes: Takes::Values("GLOB"),
        help: "Don't read what matches; repeatable",
    },
    CommandOption {
        name: "dry-run",
        letter: Some('n'),
        takes: Takes::Nothing,
        help: "Change nothing; list what would change",
    },
    CommandOption {
        name: "diff",
        letter: None,
        takes: Takes::Nothing,
        help: "Change nothing; show the changes as a unified diff",
    },
    CommandOption {
        name: "json",
        letter: None,
        takes: Takes::Nothing,
        help: "Write what is found or changed as a JSON array",
    },
    CommandOption {
        name: "github",
        letter: None,
        takes: Takes::Nothing,
        help: "Write what is found or changed as annotations of\nGitHub",
    },
];

/// The rules for anchors, by their names.
const RULES: [(&str, Slugs); 3] = [
    ("github", Slugs::GitHub),
    ("mdbook", Slugs::MdBook),
    ("python", Slugs::Python),
];

/// The command line, with this help of `--syntax`.
///
/// It fails if memory runs out.
pub fn command<'a>(alloc: Global, syntax_help: &'a str) -> Result<Command<'a>, AllocError> {
    let words = Arg::new(alloc, "word")
        .value_name("COMMAND")
        .action(ArgAction::Append)
        .num_args(0..)
        .help(WORDS);
    let command = Command::new(alloc, NAME)
        .bin_name(NAME)?
        .version("0.1.0")
        .about("Check the links of Markdown files, and keep them right when files move")
        .after_help(LAST)
        .arg(words)?;
    let command = with_options(alloc, command, &OPTIONS)?;
    with_syntax(alloc, command, syntax_help)
}

/// The flags of the syntax and the extensions that are named. mdBook always reads attributes of headings.
fn flags_of(matches: &ArgMatches<'_>, slugs: Slugs) -> Result<ParserOptions, Fault> {
    let syntax = matches.get_str("syntax").unwrap_or("gfm");
    let Some(mut flags) = syntax_named(syntax) else {
        return Err(Fault::Usage("--syntax wants commonmark, gfm or all"));
    };
    if matches!(slugs, Slugs::MdBook) {
        flags = extended(flags, "heading-attributes").unwrap_or(flags);
    }
    for name in matches.get_strs("extension").unwrap_or(&[]) {
        let Some(more) = extended(flags, name) else {
            return Err(Fault::Usage(
                "--extension wants a name that --help lists, or no- before one",
            ));
        };
        flags = more;
    }
    Ok(flags)
}

/// The rule for anchors that is named.
fn slugs_of(matches: &ArgMatches<'_>) -> Result<Slugs, Fault> {
    let word = matches.get_str("slugs").unwrap_or("github");
    for (name, slugs) in &RULES {
        if *name == word {
            return Ok(*slugs);
        }
    }
    Err(Fault::Usage("--slugs wants github, mdbook or python"))
}

/// How files are read, by a command line.
pub fn terms_of(matches: &ArgMatches<'_>) -> Result<Terms, Fault> {
    let form = match (matches.get_flag("json"), matches.get_flag("github")) {
        (false, false) => Form::Lines,
        (true, false) => Form::Json,
        (false, true) => Form::Annotations,
        (true, true) => return Err(Fault::Usage("only one of --json and --github can be passed")),
    };
    let shows = matches.get_flag("diff");
    let slugs = slugs_of(matches)?;
    Ok(Terms {
        flags: flags_of(matches, slugs)?,
        slugs,
        form,
        is_dry: shows || matches.get_flag("dry-run"),
        shows,
    })
}

/// The commands, each with what is said if its words are wrong, and what is said of a word that is spelled like it.
const COMMANDS: [(&str, &str, &str); 4] = [
    (
        "check",
        "check wants the paths of files and folders, or none",
        "is no command; check is near",
    ),
    (
        "move",
        "move wants two paths, OLD and NEW; put one with blanks into quotation marks",
        "is no command; move is near",
    ),
    (
        "rename",
        "rename wants FILE#ANCHOR and the new words, each in quotation marks",
        "is no command; rename is near",
    ),
    (
        "contents",
        "contents wants the path of a file, or of several",
        "is no command; contents is near",
    ),
];

/// How many characters of a word are not in another one.
fn foreign_count(word: &str, other: &str) -> usize {
    let mut count = 0usize;
    for c in word.chars() {
        if !other.contains(c) {
            count = count.saturating_add(1);
        }
    }
    count
}

/// Whether a word is spelled like another one: at most two characters are in one of them alone.
fn is_alike(word: &str, other: &str) -> bool {
    foreign_count(word, other).saturating_add(foreign_count(other, word)) <= 2
}

/// What is wrong with a command, or with the words after it.
fn wrong_words(alloc: Global, command: &str) -> Fault {
    for (name, wants, _near) in &COMMANDS {
        if *name == command {
            return Fault::Usage(*wants);
        }
    }
    for (name, _wants, near) in &COMMANDS {
        if is_alike(command, name) {
            return Fault::path(alloc, command, *near);
        }
    }
    Fault::path(
        alloc,
        command,
        "is no command; check, move, rename and contents are",
    )
}

/// What is done, by the words of a command line.
pub fn work_of<'w>(alloc: Global, words: &'w [&'w str]) -> Result<Work<'w>, Fault> {
    let Some((command, rest)) = words.split_first() else {
        return Err(Fault::Usage("a command is wanted: check, move, rename or contents"));
    };
    let paths = [
        ("check", Work::Check(rest)),
        ("contents", Work::Contents(rest)),
    ];
    for (name, work) in &paths {
        if *name == *command && (*name == "check" || !rest.is_empty()) {
            return Ok(*work);
        }
    }
    match rest {
        [old, new] if *command == "move" => Ok(Work::Move(old, new)),
        [place, words] if *command == "rename" => match place.rsplit_once('#') {
            Some((file, anchor)) => Ok(Work::Rename {
                file,
                anchor,
                words,
            }),
            None => Err(Fault::path(alloc, place, NO_ANCHOR)),
        },
        _ => Err(wrong_words(alloc, command)),
    }
}
