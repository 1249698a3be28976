//! Emphasis, strong emphasis, strikethrough, sub- and superscripts: runs of delimiters are matched with one another.

ghost use Rattle.std.specs.Prelude.{◌≡◌, ◌≤◌, ◌<◌, ◌+◌, ◌++◌, ◌∷◌, [], if◌then◌else◌, IfOk, OnOk, length, slice_get, slice_set, take, unwrap_or};
ghost use Rattle.tocmark_read_scan.specs.Repeat.{repeated};
ghost use Rattle.tocmark_read_spans.specs.Role.{roles_of};
ghost use Rattle.tocmark_read_spans.specs.Emphasis.{openers, emphasis_fits, fits, is_tilde_or_caret, class_of, extended_span, span_of, width_of, found, shortened, matched, once, run_step, emphasized, Keeps};

use crate::role::{Role, Roles, Span};
use crate::run::Run;
use std::alloc::AllocError;

/// How many runs may open, and for each class of closers a place before which none of them fits. The runs that
/// may open are written over the first ones of the list, the outermost first: each is read before.
#[derive(Drop)]
pub struct Openers {
    /// The number of runs that may open.
    pub height: usize,
    /// For each class of closers a place of the text: no run before it fits.
    pub bottoms: [usize; 13],
}

/// Whether one run of `*`, `_` or `^` may open what another closes: where one of them could do both, the sum of their
/// lengths is no multiple of 3, or both lengths are.
#[tactic(auto, unfolding(crate::specs::Emphasis::emphasis_fits))]
fn emphasis_fits(opener: Run, closer: Run) -> bool
    ensures { result ≡ emphasis_fits opener closer }
{
    opener.byte == closer.byte
        && !((opener.closes || closer.opens)
            && opener.length.saturating_add(closer.length) % 3 == 0
            && !(opener.length % 3 == 0 && closer.length % 3 == 0))
}

/// Whether one run may open what another closes: tildes are closed by as many.
#[tactic(auto, unfolding(crate::specs::Emphasis::fits))]
fn fits(opener: Run, closer: Run) -> bool
    ensures { result ≡ fits opener closer }
{
    if closer.byte == b'~' {
        opener.byte == b'~' && opener.length == closer.length
    } else {
        emphasis_fits(opener, closer)
    }
}

/// Whether a delimiter is none in CommonMark.
#[tactic(auto, unfolding(crate::specs::Emphasis::is_tilde_or_caret))]
fn is_tilde_or_caret(byte: u8) -> bool
    ensures { result ≡ is_tilde_or_caret byte }
{
    byte == b'~' || byte == b'^'
}

/// The class of a closer: closers of one class fit the same openers. Tildes and carets share one: one that
/// finds no opener bars both, of any length.
#[tactic(auto, unfolding(crate::specs::Emphasis::class_of))]
fn class_of(closer: Run) -> usize
    ensures { result ≡ class_of closer }
{
    if is_tilde_or_caret(closer.byte) {
        return 12;
    }
    let by_byte = if closer.byte == b'*' { 0 } else { 6 };
    let by_side = if closer.opens { 0 } else { 3 };
    by_byte + by_side + closer.length % 3
}

/// The place in the stack of the topmost run that fits, down to a place of the text.
#[tactic(auto, using(crate::proofs::Search::found_down))]
fn find(stack: &[Run], closer: Run, bottom: usize) -> Option<usize>
    ensures { result ≡ found stack.now closer bottom (length stack.now) }
{
    for k in (0..stack.len()).rev() {
        let opener = stack[k];
        if opener.place < bottom {
            return None;
        }
        if fits(opener, closer) {
            return Some(k);
        }
    }
    None
}

/// How many delimiters are matched at once.
#[tactic(auto, unfolding(crate::specs::Emphasis::width_of))]
fn width_of(opener: Run, closer: Run) -> usize
    ensures { result ≡ width_of opener closer }
{
    if opener.count >= 2 && closer.count >= 2 {
        2
    } else {
        1
    }
}

/// What a match of tildes or carets is.
#[tactic(auto, unfolding(crate::specs::Emphasis::extended_span))]
fn extended_span(closer: Run) -> Span
    ensures { result ≡ extended_span closer }
{
    if closer.byte == b'^' {
        Span::Superscript
    } else if closer.subscript {
        Span::Subscript
    } else {
        Span::Strikethrough
    }
}

/// What a match of so many delimiters is.
#[tactic(auto, unfolding(crate::specs::Emphasis::span_of))]
fn span_of(width: usize, closer: Run) -> Span
    ensures { result ≡ span_of width closer }
{
    if is_tilde_or_caret(closer.byte) {
        extended_span(closer)
    } else if width == 2 {
        Span::Strong
    } else {
        Span::Emphasis
    }
}

impl Openers {
    /// Pops the runs above an opener, and uses `width` of its delimiters. If none of them is left, the opener is
    /// popped, too.
    #[tactic(auto, using(crate::proofs::Stacks::cut_down, crate::proofs::Stacks::cut_behind, crate::proofs::Stacks::still_above))]
    fn shorten(&mut self, runs: &mut [Run], place: usize, opener: Run, width: usize)
        requires high { self.old.height ≤ length runs.old }
        requires within { place < self.old.height }
        ensures stack { take self.new.height runs.new
            ≡ shortened place opener width (take self.old.height runs.old) }
        ensures bottoms { self.new.bottoms ≡ self.old.bottoms }
        ensures kept { Keeps self.old.height runs.old self.new.height runs.new }
    {
        let left = opener.count.saturating_sub(width);
        if left == 0 {
            self.height = place;
        } else {
            runs[place] = Run {
                count: left,
                ..opener
            };
            self.height = place + 1;
        }
    }

    /// Matches an opener at a place of the stack with a closer, and gives what is left of the closer.
    #[tactic(auto, unfolding(crate::specs::Emphasis::matched))]
    fn join(
        &mut self,
        roles: &mut Roles,
        runs: &mut [Run],
        place: usize,
        opener: Run,
        closer: Run,
    ) -> Result<Run, AllocError>
        requires high { self.old.height ≤ length runs.old }
        requires within { place < self.old.height }
        ensures left { IfOk result (λ left.
            (openers (roles_of roles.new) runs.new self.new, left)
            ≡ matched place opener closer (openers (roles_of roles.old) runs.old self.old)) }
        ensures kept { OnOk result (Keeps self.old.height runs.old self.new.height runs.new) }
    {
        let width = width_of(opener, closer);
        let behind = opener.place.saturating_add(opener.count);
        let inner = behind.saturating_sub(width);
        let span = span_of(width, closer);
        let end = closer.place.saturating_add(width);
        roles.put_behind(behind.saturating_sub(1), inner, Role::Open(span, end))?;
        roles.put_behind(closer.place, end.saturating_sub(1), Role::Close(end))?;
        self.shorten(runs, place, opener, width);
        Ok(Run {
            place: end,
            count: closer.count.saturating_sub(width),
            ..closer
        })
    }

    /// No opener fits a closer: those of its class don't look before it again.
    fn bar(&mut self, closer: Run)
        ensures height { self.new.height ≡ self.old.height }
        ensures bottoms { self.new.bottoms
            ≡ slice_set self.old.bottoms (class_of closer) closer.place }
    {
        let class = class_of(closer);
        if class < self.bottoms.len() {
            self.bottoms[class] = closer.place;
        }
    }

    /// The place in the stack of the topmost opener that fits a closer.
    fn topmost(&self, runs: &[Run], closer: Run) -> Option<usize>
        requires high { self.now.height ≤ length runs.now }
        ensures { result ≡ found (take self.now.height runs.now) closer
            (unwrap_or (slice_get self.now.bottoms (class_of closer)) 0)
            (length (take self.now.height runs.now)) }
    {
        let bottom = self.bottoms.get(class_of(closer)).copied().unwrap_or(0);
        find(&runs[..self.height], closer, bottom)
    }

    /// Matches a closer with the topmost opener that fits, and gives what is left of it. Where nothing is left
    /// or none fits, gives nothing, and such closers don't look there again.
    #[tactic(auto, unfolding(crate::specs::Emphasis::once))]
    fn close_once(
        &mut self,
        roles: &mut Roles,
        runs: &mut [Run],
        left: Run,
    ) -> Result<Option<Run>, AllocError>
        requires high { self.old.height ≤ length runs.old }
        ensures next { IfOk result (λ next.
            (openers (roles_of roles.new) runs.new self.new, next)
            ≡ once left (openers (roles_of roles.old) runs.old self.old)) }
        ensures kept { OnOk result (Keeps self.old.height runs.old self.new.height runs.new) }
    {
        if left.count == 0 {
            return Ok(None);
        }
        let Some(k) = self.topmost(runs, left) else {
            self.bar(left);
            return Ok(None);
        };
        match runs[..self.height].get(k).copied() {
            None => Ok(None),
            Some(opener) => {
                let next = self.join(roles, runs, k, opener, left)?;
                Ok(Some(next))
            }
        }
    }

    /// Matches a closer with openers as long as one fits, and gives what is left of it.
    #[tactic(auto, using(tocmark_read_scan::proofs::Repeats::repeated_zero, tocmark_read_scan::proofs::Repeats::repeated_stop, tocmark_read_scan::proofs::Repeats::repeated_more))]
    fn close(&mut self, roles: &mut Roles, runs: &mut [Run], closer: Run) -> Result<Run, AllocError>
        requires high { self.old.height ≤ length runs.old }
        ensures left { IfOk result (λ left.
            (openers (roles_of roles.new) runs.new self.new, left)
            ≡ repeated once closer.count closer (openers (roles_of roles.old) runs.old self.old)) }
        ensures kept { OnOk result (Keeps self.old.height runs.old self.new.height runs.new) }
    {
        let mut left = closer;
        for _steps_left in (0..closer.count).rev() {
            match self.close_once(roles, runs, left)? {
                None => return Ok(left),
                Some(next) => left = next,
            }
        }
        Ok(left)
    }

    /// Matches a run with openers if it closes, and gives what is left of it.
    #[tactic(auto, using(crate::proofs::Stacks::keeps_all))]
    fn close_if(&mut self, roles: &mut Roles, runs: &mut [Run], run: Run) -> Result<Run, AllocError>
        requires high { self.old.height ≤ length runs.old }
        ensures left { IfOk result (λ left.
            (openers (roles_of roles.new) runs.new self.new, left)
            ≡ (if run.closes
            then repeated once run.count run (openers (roles_of roles.old) runs.old self.old)
            else (openers (roles_of roles.old) runs.old self.old, run))) }
        ensures kept { OnOk result (Keeps self.old.height runs.old self.new.height runs.new) }
    {
        if run.closes {
            self.close(roles, runs, run)
        } else {
            Ok(run)
        }
    }

    /// Puts a run on the stack.
    #[tactic(auto, using(std::proofs::lemmas::List::take_more_set, crate::proofs::Stacks::still_above))]
    fn push(&mut self, runs: &mut [Run], run: Run)
        requires high { self.old.height < length runs.old }
        ensures stack { take self.new.height runs.new ≡ take self.old.height runs.old ++ run ∷ [] }
        ensures bottoms { self.new.bottoms ≡ self.old.bottoms }
        ensures kept { Keeps (self.old.height + 1) runs.old self.new.height runs.new }
    {
        runs[self.height] = run;
        self.height += 1;
    }

    /// Takes the next run.
    #[tactic(auto, unfolding(crate::specs::Emphasis::run_step), using(crate::proofs::Stacks::keeps_below))]
    fn take(&mut self, roles: &mut Roles, runs: &mut [Run], run: Run) -> Result<(), AllocError>
        requires high { self.old.height < length runs.old }
        ensures step { OnOk result (openers (roles_of roles.new) runs.new self.new
            ≡ run_step (openers (roles_of roles.old) runs.old self.old) run) }
        ensures kept { OnOk result
            (Keeps (self.old.height + 1) runs.old self.new.height runs.new) }
    {
        let left = self.close_if(roles, runs, run)?;
        if left.opens && left.count > 0 {
            self.push(runs, left);
        }
        Ok(())
    }
}

/// Gives the delimiters of these runs, and of no others, their roles. The runs are written over.
#[tactic(auto, unfolding(crate::specs::Emphasis::emphasized), using(crate::proofs::Runless::no_runs))]
pub fn emphasize(roles: &mut Roles, runs: &mut [Run]) -> Result<(), AllocError>
    ensures { OnOk result (roles_of roles.new ≡ emphasized (roles_of roles.old) runs.old) }
{
    if runs.is_empty() {
        return Ok(());
    }
    let mut machine = Openers {
        height: 0,
        bottoms: [0; 13],
    };
    for at in 0..runs.len() {
        let run = runs[at];
        machine.take(roles, runs, run)?;
    }
    Ok(())
}
