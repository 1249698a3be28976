//! The gap before an event.

ghost use Rattle.std.specs.Prelude.{◌≡◌, string_bytes, IfOk, OnOk};
ghost use Rattle.std.specs.Option.{option_map};
ghost use Rattle.tocmark_event.specs.View.{event_view};
ghost use Rattle.tocmark_spelling.specs.Page.{with_last, with_owed, with_trail};
ghost use Rattle.tocmark_spelling.specs.Gap.{forget_quote, quote_line_for, resumed, raised_for_list, raised_for_title, raised_for_block, close_up, closed_up, before_event, raised_before, separated, gap};
ghost use Rattle.tocmark_write_renderer.specs.LineOf.{is_in_line};
ghost use Rattle.tocmark_write_renderer.specs.WriterOf.{levels_of, page_of, Stands};

use crate::renderer::Renderer;
use std::alloc::AllocError;
use tocmark_event::event::{EventOf, OwnedEvent};
use tocmark_spelling::kinds::is_break;
use tocmark_spelling::trail::Last;

/// Whether it is a text, code, inline HTML or a soft break.
fn is_in_line(event: &OwnedEvent) -> bool
    ensures { result ≡ is_in_line (event_view string_bytes event.now) }
{
    matches!(
        event,
        EventOf::Text(_) | EventOf::Code(_) | EventOf::InlineHtml(_) | EventOf::SoftBreak
    )
}

impl<'a> Renderer<'a> {
    /// Raises what is owed, for a list, a title or a block.
    fn prepare(&mut self, event: &OwnedEvent)
        ensures stands { Stands self.new (levels_of self.old)
            (with_trail
            (raised_for_block (event_view string_bytes event.now)
            (raised_for_title (event_view string_bytes event.now)
            (raised_for_list (event_view string_bytes event.now) (levels_of self.old)
            (resumed (event_view string_bytes event.now) (page_of self.old).trail))))
            (page_of self.old)) }
        ensures mark { self.new.at_mark ≡ self.old.at_mark }
    {
        let in_list = self.outside().in_list;
        let carried = self
            .carried()
            .resumed(event)
            .raised_for_list(event, in_list)
            .raised_for_title(event)
            .raised_for_block(event);
        self.set_carried(carried);
    }

    /// Says what was written last.
    pub fn set_last(&mut self, last: Last)
        ensures stands { Stands self.new (levels_of self.old) (with_last last (page_of self.old)) }
        ensures mark { self.new.at_mark ≡ self.old.at_mark }
    {
        self.set_carried(self.carried().with_last(last));
    }

    /// Says how many line feeds are owed.
    pub fn owe(&mut self, lines: usize)
        ensures stands { Stands self.new (levels_of self.old) (with_owed lines (page_of self.old)) }
        ensures mark { self.new.at_mark ≡ self.old.at_mark }
    {
        self.set_carried(self.carried().with_owed(lines));
    }

    /// Takes the line with which a quote goes on, and gives it if it has to go on before the event.
    fn quote_line_for(&mut self, event: &OwnedEvent) -> Result<Option<String>, AllocError>
        ensures line { IfOk result (λ line.
            option_map string_bytes line
            ≡ quote_line_for (event_view string_bytes event.now) (page_of self.old).trail) }
        ensures stands { OnOk result
            (Stands self.new (levels_of self.old) (forget_quote (page_of self.old))) }
        ensures mark { self.new.at_mark ≡ self.old.at_mark }
    {
        let goes_on = self.carried().keeps_quote(event);
        let line = self.take_quote_line()?;
        if goes_on { Ok(line) } else { Ok(None) }
    }

    /// Owes at most one line feed, and writes out a quote that has to go on.
    fn close_up(&mut self, event: &OwnedEvent) -> Result<(), AllocError>
        ensures stands { OnOk result
            (Stands self.new (levels_of self.old)
            (close_up (event_view string_bytes event.now) (levels_of self.old)
            (page_of self.old))) }
        ensures mark { self.new.at_mark ≡ self.old.at_mark }
    {
        match self.quote_line_for(event)? {
            None => {
                self.owe(self.carried().owed.min(1));
                Ok(())
            }
            Some(line) => {
                self.fill(1)?;
                self.write_alone(line.as_str())?;
                self.owe(1);
                Ok(())
            }
        }
    }

    /// Where the children are close, owes at most one line feed, and writes out a quote that has to go on; forgets a quote
    /// elsewhere.
    fn close_up_where_close(&mut self, event: &OwnedEvent) -> Result<(), AllocError>
        ensures stands { OnOk result
            (Stands self.new (levels_of self.old)
            (closed_up (event_view string_bytes event.now) (levels_of self.old)
            (page_of self.old))) }
        ensures mark { self.new.at_mark ≡ self.old.at_mark }
    {
        if !self.carried().open_html && self.is_close() {
            self.close_up(event)
        } else {
            self.set_quote_line(None);
            Ok(())
        }
    }

    /// Raises what is owed, for what ended last.
    fn raise(&mut self, event: &OwnedEvent)
        ensures stands { Stands self.new (levels_of self.old)
            (with_trail
            (raised_before (event_view string_bytes event.now) (levels_of self.old)
            (page_of self.old).trail) (page_of self.old)) }
        ensures mark { self.new.at_mark ≡ self.old.at_mark }
    {
        let in_loose_list = self.is_in_loose_list();
        let carried = self
            .carried()
            .raised_to_least(event)
            .raised_after_list(event)
            .raised_for_item(event, in_loose_list)
            .past_html();
        self.set_carried(carried);
    }

    /// Writes what is owed; a break writes nothing.
    fn separate(&mut self, event: &OwnedEvent) -> Result<(), AllocError>
        ensures stands { OnOk result
            (Stands self.new (levels_of self.old)
            (separated (event_view string_bytes event.now) (levels_of self.old)
            (page_of self.old))) }
        ensures mark { self.new.at_mark ≡ self.old.at_mark }
    {
        if !is_break(event) {
            self.fill(self.carried().owed)?;
            self.owe(0);
        }
        Ok(())
    }

    fn before_event(&mut self, event: &OwnedEvent) -> Result<(), AllocError>
        ensures stands { OnOk result
            (Stands self.new (levels_of self.old)
            (before_event (event_view string_bytes event.now) (levels_of self.old)
            (page_of self.old))) }
        ensures mark { self.new.at_mark ≡ self.old.at_mark }
    {
        self.prepare(event);
        self.close_up_where_close(event)
    }

    /// Writes the gap before an event, wherever it is.
    #[inline(never)]
    fn write_any_gap(&mut self, event: &OwnedEvent) -> Result<(), AllocError>
        ensures stands { OnOk result
            (Stands self.new (levels_of self.old)
            (gap (event_view string_bytes event.now) (levels_of self.old) (page_of self.old))) }
        ensures mark { self.new.at_mark ≡ self.old.at_mark }
    {
        self.before_event(event)?;
        self.raise(event);
        self.separate(event)
    }

    /// Writes the gap before an event that is neither an end nor HTML. Inside a line there is none.
    #[inline(always)]
    pub fn write_gap(&mut self, event: &OwnedEvent) -> Result<(), AllocError>
        ensures stands { OnOk result
            (Stands self.new (levels_of self.old)
            (gap (event_view string_bytes event.now) (levels_of self.old) (page_of self.old))) }
        ensures mark { self.new.at_mark ≡ self.old.at_mark }
    {
        if is_in_line(event) && self.owes_nothing() {
            self.go_on();
            return Ok(());
        }
        self.write_any_gap(event)
    }
}
