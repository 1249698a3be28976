//! How a document looks: which marks are most common in it.

use crate::joint::mark_at;
use crate::source_bytes::{byte_at, run_end};
use tocmark_event::event::{CodeBlockKindOf, Event, Tag};
use tocmark_event::options::Options;

/// How often two or three marks are in a document. The first one is the default.
#[derive(Clone, Copy)]
struct Tally {
    marks: [char; 3],
    counts: [usize; 3],
}

impl Tally {
    fn of(marks: [char; 3]) -> Tally {
        Tally {
            marks,
            counts: [0; 3],
        }
    }

    fn add(&mut self, found: Option<char>) {
        for at in 0..3 {
            if Some(self.marks[at]) == found {
                self.counts[at] = self.counts[at].saturating_add(1);
            }
        }
    }

    /// The most common mark in place of the default, and any other one as it is.
    fn chosen(&self, option: char) -> char {
        let (mut mark, mut most) = (option, 0usize);
        for at in 0..3 {
            if option == self.marks[0] && self.counts[at] > most {
                (mark, most) = (self.marks[at], self.counts[at]);
            }
        }
        mark
    }
}

/// The marks of a document.
#[derive(Clone, Copy)]
struct Look {
    bullets: Tally,
    delimiters: Tally,
    emphasis: Tally,
    strong: Tally,
    fences: Tally,
    /// The length of its shortest fence, if there is one.
    fence: Option<usize>,
}

impl Look {
    fn add(&mut self, source: &str, event: &Event<'_>, begins: usize) {
        let byte = byte_at(source, begins);
        let mark = Some(char::from(byte));
        match event {
            Event::Start(Tag::List(None)) => self.bullets.add(mark),
            Event::Start(Tag::List(Some(_))) => self.delimiters.add(mark_at(source, begins)),
            Event::Start(Tag::Emphasis) => self.emphasis.add(mark),
            Event::Start(Tag::Strong) => self.strong.add(mark),
            Event::Start(Tag::CodeBlock(CodeBlockKindOf::Fenced(_))) => {
                self.fences.add(mark);
                let length = run_end(source, begins, byte).saturating_sub(begins);
                self.fence = Some(self.fence.unwrap_or(length).min(length));
            }
            _ => {}
        }
    }
}

/// The options, with what is most common in a document in place of each default.
pub(crate) fn with_look<'o>(
    options: Options<'o>,
    source: &str,
    found: &[(Event<'_>, (usize, usize))],
) -> Options<'o> {
    let mut look = Look {
        bullets: Tally::of(['*', '-', '+']),
        delimiters: Tally::of(['.', ')', ')']),
        emphasis: Tally::of(['*', '_', '_']),
        strong: Tally::of(['*', '_', '_']),
        fences: Tally::of(['`', '~', '~']),
        fence: None,
    };
    for pair in found {
        look.add(source, &pair.0, pair.1.0);
    }
    let is_default = options.strong_token == "**";
    let has_underscores = is_default && look.strong.chosen('*') == '_';
    let count = options.code_block_token_count;
    Options {
        list_token: look.bullets.chosen(options.list_token),
        ordered_list_token: look.delimiters.chosen(options.ordered_list_token),
        emphasis_token: look.emphasis.chosen(options.emphasis_token),
        strong_token: if has_underscores {
            "__"
        } else {
            options.strong_token
        },
        code_block_token: look.fences.chosen(options.code_block_token),
        code_block_token_count: match look.fence {
            Some(length) if count == Options::default().code_block_token_count => length.max(3),
            _ => count,
        },
        ..options
    }
}
