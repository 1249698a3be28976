//! Angle brackets: addresses and raw HTML.

ghost use Rattle.std.specs.Prelude.{◌≡◌, OnOk};
ghost use Rattle.tocmark_read_inlines.specs.Scan.{scan, addressed, html_put, tagged, mailed, angled, address_end, barred_end, address_shown, angled_in};

use crate::scan::Scanner;
use crate::texts::empty;
use std::alloc::AllocError;
use tocmark_event::event::LinkType;
use tocmark_read_scan::basic::bytes_between;
use tocmark_read_spans::role::{Leaf, Role, Span, Target};
use tocmark_read_tokens::autolink::{mail_end, uri_end};
use tocmark_read_tokens::html::{LastEnds, raw_html};

/// Where the address ends that begins at a place.
#[tactic(auto, unfolding(crate::specs::Scan::address_end))]
fn address_end(bytes: &[u8], place: usize) -> Option<usize>
    ensures { result ≡ address_end bytes.now place }
{
    match uri_end(bytes, place) {
        Some(end) => Some(end),
        None => mail_end(bytes, place),
    }
}

/// Where the address ends that begins at a place, if it has a bar.
#[tactic(auto, unfolding(crate::specs::Scan::barred_end))]
fn barred_end(bytes: &[u8], place: usize) -> Option<usize>
    ensures { result ≡ barred_end bytes.now place }
{
    let end = address_end(bytes, place)?;
    if bytes_between(bytes, place, end).contains(&b'|') {
        Some(end)
    } else {
        None
    }
}

impl Scanner {
    /// Puts the address between angle brackets, up to an end.
    #[tactic(auto, unfolding(crate::specs::Scan::addressed))]
    fn address(&mut self, bytes: &[u8], link_type: LinkType, end: usize) -> Result<(), AllocError>
        ensures { OnOk result (scan self.new ≡ addressed bytes.now link_type end (scan self.old)) }
    {
        let last = end.saturating_sub(1);
        let destination = self.keep(bytes_between(bytes, self.place.saturating_add(1), last))?;
        let number = self.keep_target(Target {
            link_type,
            destination,
            title: empty(),
            id: empty(),
        })?;
        self.roles
            .put(self.place, Role::Open(Span::Link(number), end))?;
        self.roles.put(last, Role::Close(end))?;
        self.resume = end;
        Ok(())
    }

    /// Puts raw HTML up to an end.
    #[tactic(auto, unfolding(crate::specs::Scan::html_put))]
    fn put_html(&mut self, bytes: &[u8], end: usize) -> Result<(), AllocError>
        ensures { OnOk result (scan self.new ≡ html_put bytes.now end (scan self.old)) }
    {
        let text = self.keep(bytes_between(bytes, self.place, end))?;
        self.put(Leaf::Html(text), end)
    }

    /// Reads an angle bracket that begins no address.
    #[tactic(auto, unfolding(crate::specs::Scan::tagged))]
    fn tag(&mut self, bytes: &[u8], ends: LastEnds) -> Result<(), AllocError>
        ensures { OnOk result (scan self.new ≡ tagged bytes.now ends (scan self.old)) }
    {
        match raw_html(bytes, self.place, ends) {
            Some(end) => self.put_html(bytes, end),
            None => Ok(()),
        }
    }

    /// Reads an angle bracket that begins no address with a scheme.
    #[tactic(auto, unfolding(crate::specs::Scan::mailed))]
    fn mail(&mut self, bytes: &[u8], ends: LastEnds) -> Result<(), AllocError>
        ensures { OnOk result (scan self.new ≡ mailed bytes.now ends (scan self.old)) }
    {
        match mail_end(bytes, self.place) {
            Some(end) => self.address(bytes, LinkType::Email, end),
            None => self.tag(bytes, ends),
        }
    }

    /// Reads an opening angle bracket.
    #[tactic(auto, unfolding(crate::specs::Scan::angled))]
    pub(crate) fn angle(&mut self, bytes: &[u8], ends: LastEnds) -> Result<(), AllocError>
        ensures { OnOk result (scan self.new ≡ angled bytes.now ends (scan self.old)) }
    {
        match uri_end(bytes, self.place) {
            Some(end) => self.address(bytes, LinkType::Autolink, end),
            None => self.mail(bytes, ends),
        }
    }

    /// Puts the text of the address between angle brackets as one leaf.
    #[tactic(auto, unfolding(crate::specs::Scan::address_shown))]
    fn show_address(&mut self, bytes: &[u8], end: usize) -> Result<(), AllocError>
        ensures { OnOk result (scan self.new ≡ address_shown bytes.now end (scan self.old)) }
    {
        let first = self.place.saturating_add(1);
        let last = end.saturating_sub(1);
        let text = self.keep(bytes_between(bytes, first, last))?;
        self.roles.put(first, Role::Single(Leaf::Text(text), last))
    }

    /// Reads an opening angle bracket where tables are read: the text of an address with a bar is one leaf,
    /// since a backslash may have was before the bar.
    #[tactic(auto, unfolding(crate::specs::Scan::angled_in))]
    pub(crate) fn angle_in(&mut self, bytes: &[u8], ends: LastEnds) -> Result<(), AllocError>
        ensures { OnOk result (scan self.new ≡ angled_in bytes.now ends (scan self.old)) }
    {
        match barred_end(bytes, self.place) {
            Some(end) => {
                self.show_address(bytes, end)?;
                self.angle(bytes, ends)
            }
            None => self.angle(bytes, ends),
        }
    }
}
