//! A text without its markup.

ghost use Rattle.std.specs.Prelude.{◌≡◌, IfOk, OnOk, string_bytes};
ghost use Rattle.tocmark_event.specs.Text.{text_of};
ghost use Rattle.tocmark_event.specs.View.{event_view, tag_view};
ghost use Rattle.tocmark_outline.specs.Words.{add_words, begin, break_line, close, say, saying_view, words_under};

use std::alloc::{AllocError, Global};
use tocmark_event::event::{Event, ParserOptions, Tag, TagEnd};
use tocmark_event::reader::Reader;
use tocmark_marked::MarkedReader;
use tocmark_spelling::kinds::is_inline_end;

/// The words so far.
#[derive(Drop)]
struct Saying {
    text: String,
    /// Whether the last line has words.
    is_open: bool,
    /// Whether front matter has begun and not ended.
    is_hidden: bool,
}

impl Saying {
    /// Ends the last line, if it has words.
    #[tactic(auto, unfolding(crate::specs::Words::break_line))]
    fn break_line(&mut self) -> Result<(), AllocError>
        ensures { OnOk result (saying_view self.new ≡ break_line (saying_view self.old)) }
    {
        if self.is_open {
            self.text.push_str("\n")?;
            self.is_open = false;
        }
        Ok(())
    }

    /// Adds words, but for those of front matter.
    #[tactic(auto, unfolding(crate::specs::Words::add_words))]
    fn add_words(&mut self, words: &str) -> Result<(), AllocError>
        ensures { OnOk result
            (saying_view self.new ≡ add_words words.now (saying_view self.old)) }
    {
        if !self.is_hidden {
            self.text.push_str(words)?;
            self.is_open = true;
        }
        Ok(())
    }

    /// Begins a container.
    fn begin(&mut self, tag: &Tag<'_>) -> Result<(), AllocError>
        ensures { OnOk result
            (saying_view self.new ≡ begin (tag_view text_of tag.now) (saying_view self.old)) }
    {
        match tag {
            Tag::MetadataBlock(_) => {
                self.is_hidden = true;
                Ok(())
            }
            _ if is_inline_end(tag.to_end()) => Ok(()),
            _ => self.break_line(),
        }
    }

    /// Ends a container. The last line of code has its line feed.
    fn close(&mut self, end: TagEnd) -> Result<(), AllocError>
        ensures { OnOk result (saying_view self.new ≡ close end (saying_view self.old)) }
    {
        match end {
            TagEnd::MetadataBlock(_) => {
                self.is_hidden = false;
                Ok(())
            }
            TagEnd::CodeBlock => {
                self.is_open = false;
                Ok(())
            }
            _ if is_inline_end(end) => Ok(()),
            _ => self.break_line(),
        }
    }

    /// Adds what an event says.
    #[tactic(auto, unfolding(crate::specs::Words::say))]
    fn say(&mut self, event: &Event<'_>) -> Result<(), AllocError>
        ensures { OnOk result
            (saying_view self.new ≡ say (saying_view self.old) (event_view text_of event.now)) }
    {
        match event {
            Event::Start(tag) => self.begin(tag),
            Event::End(end) => self.close(*end),
            Event::Text(words) | Event::Code(words) => self.add_words(words.as_ref()),
            Event::InlineMath(words) | Event::DisplayMath(words) => self.add_words(words.as_ref()),
            Event::SoftBreak | Event::HardBreak => self.break_line(),
            _ => Ok(()),
        }
    }
}

/// The words of a text under these flags, without its markup: what texts, code and mathematics say. Each line and each block
/// begins on a line of its own. Front matter and HTML say nothing.
///
/// ```
/// assert_eq!(rt; words(alloc, "# One\n*two*", GFM)?.as_str(), "One\ntwo\n");
/// ```
///
/// It fails if memory runs out.
pub fn words(alloc: Global, text: &str, flags: ParserOptions) -> Result<String, AllocError>
    ensures { IfOk result (λ output. string_bytes output ≡ words_under flags text.now) }
{
    let reading = MarkedReader.read(alloc, text, flags)?;
    let mut saying = Saying {
        text: String::new(alloc),
        is_open: false,
        is_hidden: false,
    };
    for pair in &reading.events {
        saying.say(&pair.0)?;
    }
    let Saying { text, .. } = saying;
    Ok(text)
}
