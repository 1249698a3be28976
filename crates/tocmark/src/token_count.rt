//! How many tokens the fences of code blocks need.

ghost use Rattle.std.specs.Prelude.{◌≡◌, ◌++◌, false, Bool, List, [], ◌∷◌, ℕ, map};
ghost use Rattle.std.specs.Borrow.{Bor};
ghost use Rattle.std.specs.Iterator.{IsFinite, Drains};
ghost use Rattle.tocmark_event.specs.Text.{ParserEvent, text_of};
ghost use Rattle.tocmark_event.specs.View.{EventView, event_view};
ghost use Rattle.tocmark_state.specs.WorkView.{at_most};
ghost use Rattle.tocmark.specs.TokenCount.{code_in, count_beyond, longest_token_run, token_count};
ghost use Rattle.tocmark.specs.SeenTokens.{onward, with_text, with_events};

use tocmark_event::event::{Event, EventOf, TagEnd, TagOf};

/// The runs of a token in what was seen. Both lengths stop at the greatest `usize`.
#[derive(Clone, Copy)]
struct Runs {
    /// The length of the run at the end.
    last: usize,
    /// The length of the longest run before it.
    longest: usize,
}

/// What was seen of some events.
#[derive(Clone, Copy)]
struct Seen {
    /// Whether a code block is open.
    in_code: bool,
    backticks: Runs,
    tildes: Runs,
}

impl Runs {
    /// The runs after one more byte.
    fn after_byte(self, token: u8, byte: u8) -> Runs
        ensures { (rest : List ℕ) → onward token result rest ≡ onward token self (byte ∷ rest) }
    {
        if byte == token {
            Runs {
                last: self.last.saturating_add(1),
                longest: self.longest,
            }
        } else {
            Runs {
                last: 0,
                longest: self.longest.max(self.last),
            }
        }
    }

    /// The runs after a text.
    fn after_text(self, token: u8, text: &str) -> Runs
        ensures { (rest : List ℕ)
            → onward token result rest ≡ onward token self (text.now ++ rest) }
    {
        let mut runs = self;
        for byte in text.as_bytes() {
            runs = runs.after_byte(token, *byte);
        }
        runs
    }

    /// The longest run.
    fn longest(self) -> usize
        ensures { (token : ℕ) → result ≡ onward token self [] }
    {
        self.longest.max(self.last)
    }
}

impl Seen {
    /// What is seen after a text of a code block.
    fn after_text(self, text: &str) -> Seen
        ensures block { result.in_code ≡ self.in_code }
        ensures runs { (rest : List ℕ) → with_text result rest ≡ with_text self (text.now ++ rest) }
    {
        Seen {
            in_code: self.in_code,
            backticks: self.backticks.after_text(b'`', text),
            tildes: self.tildes.after_text(b'~', text),
        }
    }

    /// What is seen after one more event.
    fn after_event(self, event: &Event<'_>) -> Seen
        ensures { (rest : List EventView)
            → with_events result rest ≡ with_events self (event_view text_of event.now ∷ rest) }
    {
        match event {
            EventOf::Start(TagOf::CodeBlock(_)) => Seen {
                in_code: true,
                backticks: self.backticks,
                tildes: self.tildes,
            },
            EventOf::End(TagEnd::CodeBlock) => {
                let ended = self.after_text("\n");
                Seen {
                    in_code: false,
                    backticks: ended.backticks,
                    tildes: ended.tildes,
                }
            }
            EventOf::Text(text) if self.in_code => self.after_text(text.as_str()),
            _ => self.after_text("\n"),
        }
    }

    /// The longest run of one token.
    fn longest(self) -> usize
        ensures { result ≡ with_events self [] }
    {
        self.backticks.longest().max(self.tildes.longest())
    }
}

/// The longest run of one token in the code blocks of an iterator's events.
fn longest_in<'a, I>(events: I) -> usize
where
    I: Iterator<Item = &'a Event<'a>>,
    requires can { I.can_next events }
    requires ends { IsFinite (I.remaining events) }
    ensures { (xs : List (Bor ParserEvent)) × Drains I.next_gives events xs
        × (result
        ≡ at_most (longest_token_run (code_in false (map (λ x. event_view text_of x.now) xs)))) }
{
    let none = Runs {
        last: 0,
        longest: 0,
    };
    let mut seen = Seen {
        in_code: false,
        backticks: none,
        tildes: none,
    };
    for event in events {
        seen = seen.after_event(event);
    }
    seen.longest()
}

/// How many tokens a fence needs for code with a run of this length.
fn count_beyond(run: usize) -> Option<usize>
    ensures { (n : ℕ) → run ≡ at_most n → result ≡ count_beyond n }
{
    if run < 3 {
        None
    } else {
        Some(run.saturating_add(1))
    }
}

/// How many tokens a code fence needs, so that no run of backticks or of `~` in the code blocks of
/// these events is as long.
///
/// `events` is any finite iterable of `&Event`. The result is one more than the longest such run,
/// in characters, if that has at least three. `None` means that `DEFAULT_CODE_BLOCK_TOKEN_COUNT` is
/// enough.
///
/// A code block goes from its Start to the next End of a code block. Texts that follow one another
/// in it are one text, and a further Start of a code block changes nothing. Every other event ends
/// a run. The result is at most the greatest `usize`. It takes no memory.
///
/// ```
/// let code = [
///     Event::Start(Tag::CodeBlock(CodeBlockKind::Indented)),
///     Event::Text("```".into()),
///     Event::End(TagEnd::CodeBlock),
/// ];
/// assert_eq!(rt; calculate_code_block_token_count(code.iter()), Some(4));
/// ```
pub fn calculate_code_block_token_count<'a, I>(events: I) -> Option<usize>
where
    I: IntoIterator<Item = &'a Event<'a>>,
    requires { (it : I.IntoIter) → I.into_iter_gives events it
        → I.IntoIter.can_next it × IsFinite (I.IntoIter.remaining it) }
    ensures { (it : I.IntoIter) × (xs : List (Bor ParserEvent)) × I.into_iter_gives events it
        × Drains I.IntoIter.next_gives it xs
        × (result ≡ token_count (map (λ x. event_view text_of x.now) xs)) }
{
    count_beyond(longest_in(events.into_iter()))
}
